//! A rehearsal by a script that is read whole.

ghost use Rattle.std.specs.Prelude.{map, IfOk, IfErr};
ghost use Rattle.bhs_rehearsal.specs.Rehearsing.{game_of};
ghost use Rattle.bhs_cli_rehearse.specs.Rehearsal.{Plays, Stops, opening};

use crate::play::play_script;
use bhs_cli::Fault;
use bhs_model::MAX_TEXT;
use bhs_rehearsal::Rehearsal;
use bhs_script::{CONNECTIONS, instructions_in};
use bhs_setups::{Lineup, Ready};
use bhs_stream::{Input, Output, read_text};
use std::alloc::Global;

/// Plays the script that a reader gives, in a rehearsal of the matches with `CONNECTIONS` connections. What a
/// connection is sent is printed before the next line of the script is played, each line of it behind the
/// connection's number and a space. At most `turns` reads are made. The matches come back as the script leaves them.
///
/// The whole script is read, and then judged, before anything is played: a script that is refused prints nothing.
pub fn rehearse<R: Input, W: Output>(
    alloc: Global,
    lineup: Lineup,
    reader: &mut R,
    writer: &mut W,
    turns: u32,
) -> Result<Vec<Ready>, Fault>
    ensures played { IfOk result (λ ready. Plays R.gives W.takes turns (opening lineup) reader.old reader.new
        writer.old writer.new (map game_of ready.items)) }
    ensures stopped { IfErr result (Stops R.gives W.takes turns (opening lineup) reader.old reader.new
        writer.old writer.new) }
{
    let script = read_text(alloc, reader, MAX_TEXT, turns)?;
    let instructions = instructions_in(alloc, lineup.ready.len(), &script)?;
    let rehearsal = Rehearsal::new(alloc, lineup, CONNECTIONS)?;
    play_script(alloc, rehearsal, &instructions, writer)
}
