//! A rehearsal of a tournament, and the replays of its matches.

ghost use Rattle.std.specs.Prelude.{◌≡◌, ◌⊎◌, IfOk, IfErr, map, true};
ghost use Rattle.bhs_stream.specs.Streams.{known_takes};
ghost use Rattle.bhs_rehearsal.specs.Rehearsing.{game_of};
ghost use Rattle.bhs_cli_rehearse.specs.Rehearsal.{EndsBy, PlaysOut, Rehearses, opening};
ghost use Rattle.bhs_cli.specs.Showing.{Rests};
ghost use Rattle.bhs_cli_rehearse.specs.RehearsedTournaments.{RehearsesEither};
ghost use Rattle.bhs_cli.specs.declared.reporting.statuses.TheConstants.{NO_MEMORY};

use crate::whole_script::rehearse;
use bhs_cli::{DONE, Fault, built_in, lineup_of, report, write_replays};
use bhs_model::{MAX_TURNS, Text};
use bhs_setups::{Lineup, Ready};
use bhs_stream::{Input, Output, finish};
use std::alloc::Global;
use std::io::Write;
use std::rt::Files;

/// Rehearses the tournament of a file, or the built-in one if no file is named, by the script of `reader`, and then
/// writes the replays, if there is a prefix for their names. Faults go to `errors`. The answer is the exit status:
/// if replays could not be written, that of the first.
pub fn rehearse_named<F: Files, R: Input, W: Output, E: Write>(
    alloc: Global,
    files: &F,
    tournament: Option<Text>,
    prefix: Option<Text>,
    reader: &mut R,
    writer: &mut W,
    errors: &mut E,
) -> u8
    ensures { RehearsesEither (known_takes F.File.contents) R.gives W.takes W.flushes tournament prefix
        reader.old reader.new writer.old writer.new result
        ⊎ ((result ≡ NO_MEMORY) × Rests reader.old reader.new writer.old writer.new) }
{
    match tournament {
        None => match built_in(alloc) {
            Ok(lineup) => rehearse_whole(alloc, files, lineup, prefix, reader, writer, errors),
            Err(_) => report("arena", Fault::Memory, errors),
        },
        Some(name) => match lineup_of(alloc, files, name.as_str(), errors) {
            Ok(lineup) => rehearse_whole(alloc, files, lineup, prefix, reader, writer, errors),
            Err(status) => status,
        },
    }
}

// Rehearses, writes the replays if there is a prefix, and reports the fault that ended it.
fn rehearse_whole<F: Files, R: Input, W: Output, E: Write>(
    alloc: Global,
    files: &F,
    lineup: Lineup,
    prefix: Option<Text>,
    reader: &mut R,
    writer: &mut W,
    errors: &mut E,
) -> u8
    ensures { Rehearses (known_takes F.File.contents) R.gives W.takes MAX_TURNS W.flushes prefix (opening lineup)
        reader.old reader.new writer.old writer.new result }
{
    match rehearse_out(alloc, lineup, reader, writer) {
        Ok(ready) => match prefix {
            Some(prefix) => write_replays(alloc, files, prefix.as_str(), ready, errors),
            None => DONE,
        },
        Err(Fault::Write) => report("output", Fault::Write, errors),
        Err(fault) => report("script", fault, errors),
    }
}

// Rehearses and flushes the output.
fn rehearse_out<R: Input, W: Output>(
    alloc: Global,
    lineup: Lineup,
    reader: &mut R,
    writer: &mut W,
) -> Result<Vec<Ready>, Fault>
    ensures played { IfOk result (λ ready. (out : PlaysOut R.gives W.takes MAX_TURNS W.flushes true (opening lineup)
        reader.old reader.new writer.old writer.new) × (out.games ≡ map game_of ready.items)) }
    ensures ended { IfErr result (EndsBy R.gives W.takes MAX_TURNS W.flushes (opening lineup) reader.old reader.new
        writer.old writer.new) }
{
    let ready = rehearse(alloc, lineup, reader, writer, MAX_TURNS)?;
    finish(writer)?;
    Ok(ready)
}
