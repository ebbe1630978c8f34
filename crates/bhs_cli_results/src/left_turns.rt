//! The turns of a match's events by those that a server left when it was killed.

ghost use Rattle.std.specs.Prelude.{◌≡◌, ◌⊎◌, ◌^◌, ◌-◌, min, IfOk};
ghost use Rattle.bhs_stream.specs.Streams.{known_takes};
ghost use Rattle.bhs_time.specs.TimedLogs.{turn_behind};
ghost use Rattle.bhs_cli.specs.Fault.{IsOfFault};
ghost use Rattle.bhs_cli_results.specs.Recovery.{AreSavedTurns, AreTurnsBy, all_turns, case_of, next_turn};
ghost use Rattle.bhs_cli.specs.declared.reporting.statuses.TheConstants.{DONE};

use crate::appeal::compared;
use crate::contests::MatchFileName;
use bhs_cli::{
    DONE, Fault, is_free, read_part_of_turns, report, turns_name, turns_part_name, write_turns,
};
use bhs_match::Sealed;
use bhs_model::{Event, Kept, Setup};
use bhs_net::Memory;
use bhs_setups::Lineup;
use bhs_time::ScheduleKind;
use std::alloc::Global;
use std::io::Write;
use std::rt::Files;

/// Writes the turns of a recovered match, completed from those that were left, if its tournament has turns. They are in
/// a part, or in the file of turns if the server came so far. Reports any fault; also if an appeal with these turns
/// would fail, in which case none are written. Returns the exit status.
pub(crate) fn save_turns<F: Files, E: Write>(
    alloc: Global,
    files: &F,
    file: &MatchFileName<'_>,
    lineup: &Lineup,
    sealed: &Sealed,
    errors: &mut E,
) -> u8
    ensures saved { result ≡ DONE
        → AreSavedTurns (known_takes F.File.contents) lineup.now file.now.number sealed.now }
    ensures status { result ≡ DONE ⊎ IsOfFault result }
{
    if let ScheduleKind::Adaptive = lineup.schedule {
        return DONE;
    }
    let name = match name_of_left(alloc, files, file) {
        Ok(name) => name,
        Err(fault) => return report(file.prefix, fault, errors),
    };
    match turns_by(alloc, files, name.as_str(), file.number, lineup, sealed) {
        Ok(turns) => write_turns(alloc, files, file.prefix, file.number, &turns, errors),
        Err(fault) => report(name.as_str(), fault, errors),
    }
}

/// Returns whether a match has no file of turns, but a part of one.
pub(crate) fn turns_are_missing<F: Files>(
    alloc: Global,
    files: &F,
    file: &MatchFileName<'_>,
) -> Result<bool, Fault> {
    let part = turns_part_name(alloc, file.prefix, file.number)?;
    let whole = turns_name(alloc, file.prefix, file.number)?;
    Ok(is_free(files, whole.as_str())? && !is_free(files, part.as_str())?)
}

// The name of the file with the turns that are left: that of their part, unless there is the file of turns alone.
fn name_of_left<F: Files>(
    alloc: Global,
    files: &F,
    file: &MatchFileName<'_>,
) -> Result<String, Fault> {
    let part = turns_part_name(alloc, file.prefix, file.number)?;
    let whole = turns_name(alloc, file.prefix, file.number)?;
    if is_free(files, part.as_str())? && !is_free(files, whole.as_str())? {
        Ok(whole)
    } else {
        Ok(part)
    }
}

// Returns the turns of the match with this number, completed from a file, if an appeal with them is upheld.
fn turns_by<F: Files>(
    alloc: Global,
    files: &F,
    name: &str,
    number: usize,
    lineup: &Lineup,
    sealed: &Sealed,
) -> Result<Vec<u32>, Fault>
    ensures { IfOk result (λ turns. AreTurnsBy (case_of lineup.now number sealed.now turns.items)) }
{
    let Ok(game) = u16::try_from(number) else {
        return Err(Fault::NoMatch { game: u16::MAX });
    };
    let left = read_part_of_turns(alloc, files, name, most_events(sealed.setup()))?;
    let turns = all_turns(sealed.log(), left)?;
    compared(alloc, lineup, game, sealed, &turns)?;
    Ok(turns)
}

// How many events a match has at most.
fn most_events(setup: &Setup) -> usize {
    let commands = usize::from(setup.agents).saturating_mul(usize::from(setup.quota) + 1);
    commands.saturating_mul(2).saturating_add(1)
}

// Returns a turn for each event of a log, completed from those that were left.
fn all_turns(log: &[Kept], left: Vec<u32>) -> Result<Vec<u32>, Memory>
    ensures { IfOk result (λ turns. turns.items ≡ all_turns log.now left.items) }
{
    let mut turns = left;
    if turns.len() + 1 == log.len() {
        let turn = next_turn(log, &turns);
        turns.push(turn)?;
    } else {
        turns.truncate(log.len());
    }
    Ok(turns)
}

// Returns the turn of an event after events with these turns.
fn next_turn(log: &[Kept], turns: &[u32]) -> u32
    ensures { result ≡ next_turn log.now turns.now }
{
    let last = turns.len().saturating_sub(1);
    match (log.get(last), turns.get(last)) {
        (Some(one), Some(turn)) => first_behind(&one.event, *turn),
        _ => 0,
    }
}

// The first turn behind an event and its turn.
fn first_behind(event: &Event, turn: u32) -> u32
    ensures { result ≡ min (turn_behind event.now turn) (2 ^ 32 - 1) }
{
    match event {
        Event::Deliver { .. } => turn.saturating_add(1),
        _ => turn,
    }
}
