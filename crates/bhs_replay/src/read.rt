//! Reading a replay.

ghost use Rattle.std.specs.Prelude.{[], IfOk, IfErr, OnOk};
ghost use Rattle.bhs_replay.specs.Reading.{ReadsWhole, StopsBy};
ghost use Rattle.bhs_replay.specs.Readers.{Stands, IsReadBy};
ghost use Rattle.bhs_replay.specs.Parts.{ReadsPart};

use crate::faults::ReplayFault;
use crate::reader::Reader;
use bhs_match::Sealed;
use bhs_stream::{BUFFER, Input};
use std::alloc::Global;

/// Reads the replay of a match, line by line, by at most `turns` reads. It holds the match and one line.
///
/// The clauses follow the reads one by one: the text is judged as it comes, and the first fault in its order ends the
/// reading. `Read` comes only after a read that failed, and `Turns` only if one more read than `turns` was needed;
/// before either, nothing was wrong.
pub fn read_replay<R: Input>(
    alloc: Global,
    reader: &mut R,
    turns: u32,
) -> Result<Sealed, ReplayFault>
    ensures ok { IfOk result (λ sealed. ReadsWhole R.gives reader.old turns sealed reader.new) }
    ensures err { IfErr result (λ fault. StopsBy R.gives reader.old turns fault reader.new) }
{
    let mut replay = Reader::new(alloc);
    read_all(reader, &mut replay, turns)?;
    replay.finish()
}

/// Reads a part of a replay, as a server that was killed left it, by at most `turns` reads: the match of its whole
/// lines, closed where they stop. A last line without its line feed counts for nothing. Its faults are those of
/// `read_replay`, but for an end line that did not come.
pub fn read_part<R: Input>(alloc: Global, reader: &mut R, turns: u32) -> Result<Sealed, ReplayFault>
    ensures ok { IfOk result (λ sealed. ReadsPart R.gives reader.old turns sealed reader.new) }
    ensures err { IfErr result (λ fault. StopsBy R.gives reader.old turns fault reader.new) }
{
    let mut replay = Reader::new(alloc);
    read_all(reader, &mut replay, turns)?;
    replay.close()
}

// Reads the text to its end.
fn read_all<R: Input>(reader: &mut R, replay: &mut Reader, turns: u32) -> Result<(), ReplayFault>
    requires { Stands [] replay.old }
    ensures ok { OnOk result (IsReadBy R.gives reader.old turns replay.new reader.new) }
    ensures err { IfErr result (λ fault. StopsBy R.gives reader.old turns fault reader.new) }
{
    let mut buffer = [0u8; BUFFER];
    for _ in 0..turns {
        let Ok(count) = reader.read_some(&mut buffer) else {
            return Err(ReplayFault::Read);
        };
        if count == 0 {
            return Ok(());
        }
        replay.feed(&buffer[..count])?;
    }
    Err(ReplayFault::Turns)
}
