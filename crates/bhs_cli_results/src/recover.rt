//! Finishing a contest whose server was killed: the replays and turns that are missing, by their parts, and the table.

ghost use Rattle.std.specs.Prelude.{◌≡◌, ◌⊎◌, IfOk, IfErr, IfSome};
ghost use Rattle.bhs_stream.specs.Streams.{known_takes};
ghost use Rattle.bhs_replay.specs.Replay.{replay_of};
ghost use Rattle.bhs_cli.specs.Fault.{IsOfFault};
ghost use Rattle.bhs_cli_results.specs.Recovery.{AreSaved, AreSavedTurns, IsLeft, IsSaved, RecoversMatches};
ghost use Rattle.bhs_cli.specs.Filing.{IsReplayed};
ghost use Rattle.bhs_cli.specs.Showing.{Took};
ghost use Rattle.bhs_cli.specs.declared.reporting.statuses.TheConstants.{DONE};

use crate::contests::{MatchFileName, print_matches, see_same};
use crate::left_turns::{save_turns, turns_are_missing};
use bhs_cli::{
    DONE, Fault, file_name, first_status, is_free, match_of_part, part_name, read_match, report,
    write_sealed,
};
use bhs_match::Sealed;
use bhs_setups::{Lineup, Ready};
use bhs_stream::Output;
use std::alloc::Global;
use std::io::Write;
use std::rt::Files;

/// Recovers a tournament: for each match without a replay but with a part, writes the replay, with its turns completed
/// from theirs, and removes the parts. Names of files begin with the prefix. An existing replay is not changed; if its
/// turns are missing and their part exists, they are written. Then prints the table as `print_contest_table` does.
/// Reports faults to `errors` and continues with the other files. Returns the exit status.
pub fn recover_matches<F: Files, W: Output, E: Write>(
    alloc: Global,
    files: &F,
    prefix: &str,
    lineup: &Lineup,
    writer: &mut W,
    errors: &mut E,
) -> u8
    ensures { RecoversMatches (known_takes F.File.contents) W.takes W.flushes lineup.now writer.old writer.new result }
{
    let saved = save_matches(alloc, files, prefix, lineup, errors);
    let printed = print_matches(alloc, files, prefix, &lineup.ready, writer, errors);
    first_status(saved, printed)
}

// Saves matches in order. Returns the exit status of the first match that could not be saved.
fn save_matches<F: Files, E: Write>(
    alloc: Global,
    files: &F,
    prefix: &str,
    lineup: &Lineup,
    errors: &mut E,
) -> u8
    ensures { AreSaved (known_takes F.File.contents) lineup.now result }
{
    let mut status = DONE;
    for number in 0..lineup.ready.len() {
        let file = MatchFileName { prefix, number };
        let code = save_match(alloc, files, &file, lineup, errors);
        status = first_status(status, code);
    }
    status
}

// Writes the missing files of a match from its parts.
fn save_match<F: Files, E: Write>(
    alloc: Global,
    files: &F,
    file: &MatchFileName<'_>,
    lineup: &Lineup,
    errors: &mut E,
) -> u8
    ensures saved { result ≡ DONE → IsSaved (known_takes F.File.contents) lineup.now file.now.number }
    ensures status { result ≡ DONE ⊎ IsOfFault result }
{
    let Some(ready) = lineup.ready.get(file.number) else {
        return DONE;
    };
    match left_of(alloc, files, file, ready, errors) {
        Ok(Some(sealed)) => save_left(alloc, files, file, lineup, &sealed, errors),
        Ok(None) => save_turns_alone(alloc, files, file, lineup, ready, errors),
        Err(status) => status,
    }
}

// Writes the turns that a match's part records, and the replay. The replay is written even if the turns are missing.
fn save_left<F: Files, E: Write>(
    alloc: Global,
    files: &F,
    file: &MatchFileName<'_>,
    lineup: &Lineup,
    sealed: &Sealed,
    errors: &mut E,
) -> u8
    ensures filed { result ≡ DONE → Took (known_takes F.File.contents) (replay_of sealed.now) }
    ensures timed { result ≡ DONE
        → AreSavedTurns (known_takes F.File.contents) lineup.now file.now.number sealed.now }
    ensures status { result ≡ DONE ⊎ IsOfFault result }
{
    let timed = save_turns(alloc, files, file, lineup, sealed, errors);
    let filed = write_sealed(alloc, files, file.prefix, file.number, sealed, errors);
    first_status(timed, filed)
}

// Writes the turns of a match that has a replay, if they are missing and their part exists. Faults of the replay are
// reported with the table.
fn save_turns_alone<F: Files, E: Write>(
    alloc: Global,
    files: &F,
    file: &MatchFileName<'_>,
    lineup: &Lineup,
    ready: &Ready,
    errors: &mut E,
) -> u8
    ensures saved { result ≡ DONE → IsSaved (known_takes F.File.contents) lineup.now file.now.number }
    ensures status { result ≡ DONE ⊎ IsOfFault result }
{
    match replay_without_turns(alloc, files, file, ready) {
        Ok(Some(sealed)) => save_turns(alloc, files, file, lineup, &sealed, errors),
        _ => DONE,
    }
}

// The match of a replay whose turns are missing, if their part is there.
fn replay_without_turns<F: Files>(
    alloc: Global,
    files: &F,
    file: &MatchFileName<'_>,
    ready: &Ready,
) -> Result<Option<Sealed>, Fault>
    ensures { IfOk result (λ found. IfSome found IsReplayed) }
{
    if !turns_are_missing(alloc, files, file)? {
        return Ok(None);
    }
    let name = file_name(alloc, file.prefix, file.number)?;
    let sealed = read_match(alloc, files, name.as_str())?;
    see_same(alloc, &sealed, file.number, ready)?;
    Ok(Some(sealed))
}

// The match that a part says, if there is a part and no replay; or the exit status of a fault that was reported.
fn left_of<F: Files, E: Write>(
    alloc: Global,
    files: &F,
    file: &MatchFileName<'_>,
    ready: &Ready,
    errors: &mut E,
) -> Result<Option<Sealed>, u8>
    ensures left { IfOk result (λ found. IfSome found (IsLeft ready.now)) }
    ensures fault { IfErr result IsOfFault }
{
    let Ok(name) = part_name(alloc, file.prefix, file.number) else {
        return Err(report(file.prefix, Fault::Memory, errors));
    };
    match read_left(alloc, files, name.as_str(), file, ready) {
        Ok(found) => Ok(found),
        Err(fault) => Err(report(name.as_str(), fault, errors)),
    }
}

fn read_left<F: Files>(
    alloc: Global,
    files: &F,
    name: &str,
    file: &MatchFileName<'_>,
    ready: &Ready,
) -> Result<Option<Sealed>, Fault>
    ensures { IfOk result (λ found. IfSome found (IsLeft ready.now)) }
{
    let replay = file_name(alloc, file.prefix, file.number)?;
    if !is_free(files, replay.as_str())? || is_free(files, name)? {
        return Ok(None);
    }
    let sealed = match_of_part(alloc, files, name)?;
    see_same(alloc, &sealed, file.number, ready)?;
    Ok(Some(sealed))
}
