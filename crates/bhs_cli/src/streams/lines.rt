//! A line that is read piece by piece.

ghost use Rattle.std.specs.Prelude.{◌≡◌, IfOk, OnErr};
ghost use Rattle.bhs_cli.specs.LineStates.{IsPart};
ghost use Rattle.bhs_cli.specs.LineStates.{IsTaken};

use bhs_model::MAX_TEXT;
use bhs_net::Memory;
use bhs_wire::split_line;

/// The most reads of an input that is answered line by line. No program lives to make them.
pub const MAX_READS: u64 = 281_474_976_710_656;

/// The state of a line after a piece of the input.
#[derive(Clone, Copy, Debug)]
pub enum LineState<'p> {
    /// The line has ended within the piece; these bytes follow its line feed.
    Ended(&'p [u8]),
    /// The whole piece belongs to the line, which continues.
    Unfinished,
    /// It has more than `MAX_TEXT` bytes.
    Overlong,
}

/// Appends the piece to a line, up to the first line feed. Leaves the line unchanged if the result would exceed the
/// length limit, or if memory runs out.
pub fn take_line<'p>(line: &mut Vec<u8>, piece: &'p [u8]) -> Result<LineState<'p>, Memory>
    ensures taken { IsPart line.old.items → IfOk result (IsTaken line.old.items piece.now line.new.items) }
    ensures part { IsPart line.old.items → IsPart line.new.items }
    ensures err { OnErr result (line.new.items ≡ line.old.items) }
{
    let (end, state) = match split_line(piece) {
        Some((end, rest)) => (end, LineState::Ended(rest)),
        None => (piece, LineState::Unfinished),
    };
    if line.len() + end.len() > MAX_TEXT {
        return Ok(LineState::Overlong);
    }
    line.extend_from_slice(end)?;
    Ok(state)
}
