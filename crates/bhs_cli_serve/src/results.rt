//! What comes of a contest that has ended: the replays of its matches with their turns, and their table.

ghost use Rattle.std.specs.Prelude.{◌≡◌, ◌⊎◌, IfOk, IfErr, Ok, length, map, string_bytes};
ghost use Rattle.bhs_contest.specs.Hosting.{IsStandings};
ghost use Rattle.bhs_stream.specs.Streams.{known_takes};
ghost use Rattle.bhs_cli.specs.Fault.{IsOfFault};
ghost use Rattle.bhs_cli.specs.declared.reporting.statuses.TheConstants.{DONE};
ghost use Rattle.bhs_cli_serve.specs.Contests.{Ends, Files, HasReplay, HasTurns, IsUntabled, Tables};

use bhs_cli::{DONE, Fault, first_status, report, show_made, write_sealed, write_turns};
use bhs_contest::standings;
use bhs_match::Sealed;
use bhs_model::Text;
use bhs_net::Memory;
use bhs_server::Settled;
use bhs_shared_match::Settlement;
use bhs_stream::Output;
use bhs_time::ScheduleKind;
use std::alloc::Global;
use std::io::Write;
use std::rt::Files;
use std::thread::Threads;

/// The matches of a contest that has ended, their schedule, and their teams.
#[derive(Drop)]
pub(crate) struct Finished {
    pub(crate) schedule: ScheduleKind,
    pub(crate) teams: Vec<Text>,
    pub(crate) settled: Vec<Settled>,
}

/// Writes the replay of each match that settled, and under the oblivious schedule its turns. If all settled, their
/// table is shown; otherwise the first that did not is reported.
pub(crate) fn finish<R: Files + Threads + Sync, W: Output, E: Write>(
    alloc: Global,
    rt: &R,
    prefix: &str,
    finished: Finished,
    writer: &mut W,
    errors: &mut E,
) -> u8
    requires { length finished.teams.items ≡ length finished.settled.items }
    ensures { Ends (known_takes R.File.contents) W.takes W.flushes finished.schedule finished.teams.items
        finished.settled.items writer.old writer.new result }
{
    let filed = write_settled(
        alloc,
        rt,
        prefix,
        &finished.schedule,
        &finished.settled,
        errors,
    );
    let printed = show_table(alloc, rt, finished, writer, errors);
    first_status(filed, printed)
}

// Shows the table of the matches, if all settled; otherwise the first that did not is reported.
fn show_table<R: Threads + Sync, W: Output, E: Write>(
    alloc: Global,
    rt: &R,
    finished: Finished,
    writer: &mut W,
    errors: &mut E,
) -> u8
    requires { length finished.teams.items ≡ length finished.settled.items }
    ensures { Tables W.takes W.flushes finished.teams.items finished.settled.items writer.old writer.new result }
{
    let Finished {
        schedule: _,
        teams,
        settled,
    } = finished;
    match all_settled(alloc, settled) {
        Ok(settlements) => show_made(table(alloc, rt, &teams, settlements), writer, errors),
        Err(fault) => report("serve", fault, errors),
    }
}

// The table of matches that settled.
fn table<R: Threads + Sync>(
    alloc: Global,
    rt: &R,
    teams: &[Text],
    settlements: Vec<Settlement>,
) -> Result<String, Memory>
    requires { length teams.now ≡ length settlements.items }
    ensures { IfOk result (λ text. IsStandings teams.now (map (λ one. one.sealed) settlements.items)
        (string_bytes text)) }
{
    let sealed = all_sealed(alloc, settlements)?;
    standings(rt, alloc, teams, &sealed)
}

// Under which name the files of a match are written.
#[derive(Drop)]
struct ReplayName<'a> {
    prefix: &'a str,
    number: usize,
}

// Writes the replay of each match that settled under the match's number, with its turns. One that cannot be written is
// reported, and keeps no other from being written. The answer is the exit status of the first that failed, and `DONE`
// if none did.
fn write_settled<F: Files, E: Write>(
    alloc: Global,
    files: &F,
    prefix: &str,
    schedule: &ScheduleKind,
    settled: &[Settled],
    errors: &mut E,
) -> u8
    ensures { Files (known_takes F.File.contents) schedule.now settled.now result }
{
    let mut status = DONE;
    for (number, one) in settled.iter().enumerate() {
        let file = ReplayName { prefix, number };
        let code = write_one(alloc, files, &file, schedule, one, errors);
        status = first_status(status, code);
    }
    status
}

// Writes the replay of a match, if it settled, and under the oblivious schedule its turns before.
fn write_one<F: Files, E: Write>(
    alloc: Global,
    files: &F,
    file: &ReplayName<'_>,
    schedule: &ScheduleKind,
    settled: &Settled,
    errors: &mut E,
) -> u8
    ensures filed { result ≡ DONE → HasReplay (known_takes F.File.contents) schedule.now settled.now }
    ensures status { result ≡ DONE ⊎ IsOfFault result }
{
    let Ok(Settlement { sealed, turns, .. }) = settled else {
        return DONE;
    };
    let timed = write_timed(alloc, files, file, schedule, turns, errors);
    let filed = write_sealed(alloc, files, file.prefix, file.number, sealed, errors);
    first_status(timed, filed)
}

// Writes the turns of a match's events under the oblivious schedule.
fn write_timed<F: Files, E: Write>(
    alloc: Global,
    files: &F,
    file: &ReplayName<'_>,
    schedule: &ScheduleKind,
    turns: &[u32],
    errors: &mut E,
) -> u8
    ensures filed { result ≡ DONE → HasTurns (known_takes F.File.contents) schedule.now turns.now }
    ensures status { result ≡ DONE ⊎ IsOfFault result }
{
    match schedule {
        ScheduleKind::Adaptive => DONE,
        ScheduleKind::Oblivious(_) => {
            write_turns(alloc, files, file.prefix, file.number, turns, errors)
        }
    }
}

// The settlements of all matches, if each has one; otherwise the first match without.
fn all_settled(alloc: Global, settled: Vec<Settled>) -> Result<Vec<Settlement>, Fault>
    ensures all { IfOk result (λ settlements. settled.items ≡ map Ok settlements.items) }
    ensures fault { IfErr result (IsUntabled settled.items) }
{
    let mut settlements = Vec::with_capacity(alloc, settled.len())?;
    for one in settled {
        let Ok(one) = one else {
            return Err(Fault::Unsettled {
                game: settlements.len(),
            });
        };
        let Ok(()) = settlements.push(one) else {
            return Err(Fault::Memory);
        };
    }
    Ok(settlements)
}

// The matches of these settlements.
fn all_sealed(alloc: Global, settlements: Vec<Settlement>) -> Result<Vec<Sealed>, Memory>
    ensures { IfOk result (λ sealed. sealed.items ≡ map (λ one. one.sealed) settlements.items) }
{
    let mut sealed = Vec::with_capacity(alloc, settlements.len())?;
    for one in settlements {
        sealed.push(one.sealed)?;
    }
    Ok(sealed)
}
