//! Reading lines from a client.

ghost use Rattle.std.specs.Prelude.{◌≡◌, ℕ, List, map, IfOk, IfErr};
ghost use Rattle.bhs_wire.specs.Lines.{seen, held_of};
ghost use Rattle.bhs_session.specs.Input.{Brings, BringsNone};

use crate::endings::Ended;
use bhs_stream::Input;
use bhs_wire::{Lines, Raw};

/// The most bytes that a session takes at once.
pub(crate) const PIECE: usize = 2048;

// Reads once, and gives the lines that end in what came.
pub(crate) fn read_lines<'p, I: Input>(
    reader: &mut I,
    lines: &mut Lines,
    buffer: &'p mut [u8; PIECE],
) -> Result<Vec<Raw<'p>>, Ended>
    ensures brings { (stream : List ℕ) → lines.old ≡ held_of stream
        → IfOk result (λ found. Brings I.gives reader.old reader.new stream (map seen found.items) lines.new) }
    ensures err { IfErr result (BringsNone I.gives reader.old reader.new) }
{
    let Ok(count) = reader.read_some(buffer) else {
        return Err(Ended::ReadFault);
    };
    if count == 0 {
        return Err(Ended::InputEnded);
    }
    match lines.feed(&buffer[..count]) {
        Ok(found) => Ok(found),
        Err(_) => Err(Ended::Memory),
    }
}
