//! A rehearsal of a tournament whose script is played as it comes, and the replays of its matches.

ghost use Rattle.std.specs.Prelude.{◌≡◌, ◌⊎◌};
ghost use Rattle.bhs_stream.specs.Streams.{known_takes};
ghost use Rattle.bhs_cli_rehearse.specs.Rehearsal.{opening};
ghost use Rattle.bhs_cli.specs.Showing.{Rests};
ghost use Rattle.bhs_cli_rehearse.specs.InteractiveTournaments.{InteractsEither, InteractsWhole};
ghost use Rattle.bhs_cli.specs.declared.reporting.statuses.TheConstants.{NO_MEMORY};

use crate::interactive::rehearse_interactively;
use bhs_cli::{DONE, Fault, MAX_READS, built_in, lineup_of, report, write_replays};
use bhs_model::Text;
use bhs_setups::Lineup;
use bhs_stream::{Input, Output};
use std::alloc::Global;
use std::io::Write;
use std::rt::Files;

/// Rehearses the tournament of a file, or the built-in one without a file, by the interactive script of `reader`; then
/// writes the replays, if there is a prefix for their names. Reports faults to `errors`. Returns the exit status; if
/// replays could not be written, that of the first one.
pub fn rehearse_interactively_named<F: Files, R: Input, W: Output, E: Write>(
    alloc: Global,
    files: &F,
    tournament: Option<Text>,
    prefix: Option<Text>,
    reader: &mut R,
    writer: &mut W,
    errors: &mut E,
) -> u8
    ensures { InteractsEither (known_takes F.File.contents) R.gives W.takes W.flushes tournament prefix
        reader.old reader.new writer.old writer.new result
        ⊎ ((result ≡ NO_MEMORY) × Rests reader.old reader.new writer.old writer.new) }
{
    match tournament {
        None => match built_in(alloc) {
            Ok(lineup) => interact_whole(alloc, files, lineup, prefix, reader, writer, errors),
            Err(_) => report("arena", Fault::Memory, errors),
        },
        Some(name) => match lineup_of(alloc, files, name.as_str(), errors) {
            Ok(lineup) => interact_whole(alloc, files, lineup, prefix, reader, writer, errors),
            Err(status) => status,
        },
    }
}

// Rehearses, writes the replays if there is a prefix, and reports the fault that ended it.
fn interact_whole<F: Files, R: Input, W: Output, E: Write>(
    alloc: Global,
    files: &F,
    lineup: Lineup,
    prefix: Option<Text>,
    reader: &mut R,
    writer: &mut W,
    errors: &mut E,
) -> u8
    ensures { InteractsWhole (known_takes F.File.contents) R.gives W.takes W.flushes prefix (opening lineup)
        reader.old reader.new writer.old writer.new result }
{
    match rehearse_interactively(alloc, lineup, reader, writer, MAX_READS) {
        Ok(ready) => match prefix {
            Some(prefix) => write_replays(alloc, files, prefix.as_str(), ready, errors),
            None => DONE,
        },
        Err(Fault::Write) => report("output", Fault::Write, errors),
        Err(fault) => report("script", fault, errors),
    }
}
