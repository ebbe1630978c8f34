//! Files of the turns of matches' events.

ghost use Rattle.std.specs.Prelude.{◌≡◌, ◌⊎◌, IfOk, IfErr, OnOk, string_bytes};
ghost use Rattle.bhs_stream.specs.Streams.{known_takes};
ghost use Rattle.bhs_cli.specs.Fault.{IsOfFault};
ghost use Rattle.bhs_cli.specs.Naming.{turns_name};
ghost use Rattle.bhs_cli.specs.Showing.{Took};
ghost use Rattle.bhs_cli.specs.Turns.{turns_text};
ghost use Rattle.bhs_cli.specs.declared.reporting.statuses.TheConstants.{DONE};

use crate::match_files::parts::remove_turns_part;
use crate::match_files::private_files::made;
use crate::match_files::replays::{new_name, put_or_removed};
use crate::match_files::turns::{turns_in, turns_text};
use crate::reporting::faults::{Fault, report, report_with_cause};
use crate::reporting::statuses::DONE;
use bhs_model::{MAX_TEXT, MAX_TURNS};
use bhs_net::Memory;
use bhs_stream::{read_text, send};
use std::alloc::Global;
use std::fs;
use std::io::Write;
use std::rt::Files;

// How many bytes the line of a turn has at most.
const LONGEST: usize = 11;

/// Writes the turns of the events of the match of this number to a file, whose name is the prefix with the number and
/// `.turns`, and then removes their part. Any fault is reported, and leaves the part. The answer is the exit status.
pub fn write_turns<F: Files, E: Write>(
    alloc: Global,
    files: &F,
    prefix: &str,
    number: usize,
    turns: &[u32],
    errors: &mut E,
) -> u8
    ensures filed { result ≡ DONE → Took (known_takes F.File.contents) (turns_text turns.now) }
    ensures status { result ≡ DONE ⊎ IsOfFault result }
{
    let status = write_numbered(alloc, files, prefix, number, turns, errors);
    if status == DONE {
        remove_turns_part(alloc, files, prefix, number);
    }
    status
}

// Writes the turns of the events of the match of this number.
fn write_numbered<F: Files, E: Write>(
    alloc: Global,
    files: &F,
    prefix: &str,
    number: usize,
    turns: &[u32],
    errors: &mut E,
) -> u8
    ensures filed { result ≡ DONE → Took (known_takes F.File.contents) (turns_text turns.now) }
    ensures status { result ≡ DONE ⊎ IsOfFault result }
{
    let Ok(name) = turns_name(alloc, prefix, number) else {
        return report(prefix, Fault::Memory, errors);
    };
    match write_file(alloc, files, name.as_str(), turns) {
        Ok(()) => DONE,
        Err(fault) => report_with_cause(files, name.as_str(), fault, errors),
    }
}

/// The name of the file of the turns of a match's events.
pub fn turns_name(alloc: Global, prefix: &str, number: usize) -> Result<String, Memory>
    ensures { IfOk result (λ name. string_bytes name ≡ turns_name prefix.now number) }
{
    format!(in alloc; "{prefix}{number}.turns")
}

// Writes turns to a file atomically: the file has the whole text or its old contents.
fn write_file<F: Files>(alloc: Global, files: &F, name: &str, turns: &[u32]) -> Result<(), Fault>
    ensures { OnOk result (Took (known_takes F.File.contents) (turns_text turns.now)) }
{
    let new = new_name(alloc, name)?;
    let written = write_new(alloc, files, new.as_str(), turns);
    put_or_removed(files, new.as_str(), name, written)
}

// Writes turns to a new file of this name.
fn write_new<F: Files>(alloc: Global, files: &F, name: &str, turns: &[u32]) -> Result<(), Fault>
    ensures { OnOk result (Took (known_takes F.File.contents) (turns_text turns.now)) }
{
    let text = turns_text(alloc, turns)?;
    let mut file = made(files, name)?;
    send(&mut file, text.as_str().as_bytes())?;
    Ok(())
}

/// The turns of a file of at most as many events, or the exit status of a fault that was reported.
pub fn turns_of<F: Files, E: Write>(
    alloc: Global,
    files: &F,
    name: &str,
    events: usize,
    errors: &mut E,
) -> Result<Vec<u32>, u8>
    ensures { IfErr result IsOfFault }
{
    match read_turns(alloc, files, name, events) {
        Ok(turns) => Ok(turns),
        Err(fault) => Err(report_with_cause(files, name, fault, errors)),
    }
}

fn read_turns<F: Files>(
    alloc: Global,
    files: &F,
    name: &str,
    events: usize,
) -> Result<Vec<u32>, Fault> {
    let text = read_lines(alloc, files, name, events)?;
    turns_in(alloc, &text)
}

/// The turns of the whole lines of a file of at most as many events. What stands behind its last line feed counts for
/// nothing.
pub fn read_part_of_turns<F: Files>(
    alloc: Global,
    files: &F,
    name: &str,
    events: usize,
) -> Result<Vec<u32>, Fault> {
    let text = read_lines(alloc, files, name, events)?;
    turns_in(alloc, whole_lines(&text))
}

// The text of a file that has the turns of at most as many events.
fn read_lines<F: Files>(
    alloc: Global,
    files: &F,
    name: &str,
    events: usize,
) -> Result<Vec<u8>, Fault> {
    let mut file = fs::open(files, name)?;
    let longest = events.saturating_mul(LONGEST).saturating_add(MAX_TEXT);
    Ok(read_text(alloc, &mut file, longest, MAX_TURNS)?)
}

// The front of a text that ends in its last line feed.
fn whole_lines(text: &[u8]) -> &[u8] {
    match text.iter().rposition(|byte| *byte == b'\n') {
        Some(end) => &text[..end + 1],
        None => &[],
    }
}
