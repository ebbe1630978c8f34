//! The words of the command line.

ghost use Rattle.std.specs.Prelude.{◌≡◌, ◌⊎◌, IfErr};
ghost use Rattle.bhs_cli.specs.declared.reporting.statuses.TheConstants.{NO_MEMORY, REFUSED_WORDS};
ghost use Rattle.bhs_cli_run.specs.Program.{IsStatus};

use bhs_cli::{Fault, REFUSED_WORDS, report};
use bhs_net::Memory;
use std::alloc::Global;
use std::env::FillError;
use std::io::Write;
use std::rt::Env;

// The room for a word at first, in bytes.
const ROOM: usize = 256;

/// The words after the program's name. Where one of them is no UTF-8 the command line is refused: the first such word
/// is named by its number, counted from 1, and the answer is the exit status.
pub fn words_of<V: Env, E: Write>(
    alloc: Global,
    process: &V,
    errors: &mut E,
) -> Result<Vec<String>, u8>
    ensures refused { IfErr result (λ code. (code ≡ REFUSED_WORDS) ⊎ (code ≡ NO_MEMORY)) }
    ensures status { IfErr result IsStatus }
{
    let mut words = Vec::new(alloc);
    for number in 1..usize::MAX {
        let bytes = match bytes_of(alloc, process, number) {
            Ok(Some(bytes)) => bytes,
            Ok(None) => break,
            Err(_) => return Err(report("arena", Fault::Memory, errors)),
        };
        let Ok(word) = String::from_utf8(bytes) else {
            let _ = writeln!(errors, "arena: word {number} is no UTF-8");
            return Err(REFUSED_WORDS);
        };
        if words.push(word).is_err() {
            return Err(report("arena", Fault::Memory, errors));
        }
    }
    Ok(words)
}

// Reads a word of the command line, or None after the last one. A longer word is read again with twice the room.
fn bytes_of<V: Env>(alloc: Global, process: &V, number: usize) -> Result<Option<Vec<u8>>, Memory> {
    let mut bytes = Vec::new(alloc);
    let mut room = ROOM;
    for _ in 0..usize::BITS {
        bytes.resize(room, 0)?;
        match process.arg(number, &mut bytes) {
            Ok(count) => {
                bytes.truncate(count);
                return Ok(Some(bytes));
            }
            Err(FillError::NotPresent) => return Ok(None),
            Err(FillError::TooLong) => room = room.saturating_mul(2),
        }
    }
    Err(Memory)
}
