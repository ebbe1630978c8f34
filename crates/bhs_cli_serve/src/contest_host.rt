//! A contest over sockets: its sessions, the replays of its matches, and their table.

ghost use Rattle.std.specs.Prelude.{◌≡◌, IfOk, IfErr, length, map};
ghost use Rattle.bhs_stream.specs.Streams.{known_takes};
ghost use Rattle.bhs_setups.specs.Fresh.{AreFresh};
ghost use Rattle.bhs_server.specs.Settling.{HaveFared};
ghost use Rattle.bhs_contest.specs.Hosting.{dealers_of, givens_of};
ghost use Rattle.bhs_cli_serve.specs.Contests.{Hosts, IsUnbegun};

use crate::console::Console;
use crate::log::Log;
use crate::machines::Machine;
use crate::operator::Operator;
use crate::options::ServeOptions;
use crate::parts::PartFiles;
use crate::recorder::{Recorder, RunningContest};
use crate::results::{Finished, finish};
use crate::statuses::MatchStatuses;
use bhs_cli::{Fault, report};
use bhs_contest::{Hosted, Steady, contest_of};
use bhs_model::Text;
use bhs_server::{Contest, Limits, Settled, StartError, run_server};
use bhs_setups::Lineup;
use bhs_shared_match::NoHooks;
use bhs_stream::Output;
use std::alloc::Global;
use std::io::{Eprint, Write};
use std::net::TcpListener;
use std::sync::{Arc, Wait};
use std::thread;
use std::thread::Threads;
use std::time::{Clock, Duration};

/// Where a contest is held: the socket on which its agents connect, and the parts of its replays, which it locks.
#[derive(Drop)]
pub struct ContestFiles {
    pub(crate) listener: TcpListener,
    pub(crate) parts: PartFiles,
}

/// Serves a contest to the agents that connect, until all its matches and sessions have ended; no session
/// lasts longer than the grace period after the last match was closed. Then the replay of each match that settled is
/// written, and if all settled, their table goes to `writer`, even if a replay could not be written. The answer is the
/// exit status: that of the first that failed. Meanwhile the parts of the replays are written on, and a match that is
/// closed has its replay.
pub fn host<R: Machine, W: Output, E: Write>(
    alloc: Global,
    rt: &R,
    contest_files: &ContestFiles,
    lineup: Lineup,
    options: &ServeOptions<'_>,
    writer: &mut W,
    errors: &mut E,
) -> u8
    requires { AreFresh lineup.ready.items }
    ensures { Hosts (known_takes R.File.contents) W.takes W.flushes lineup.seed lineup.schedule lineup.ready.items
        writer.old writer.new result }
{
    match served(alloc, rt, contest_files, lineup, options) {
        Ok(finished) => {
            contest_files.parts.make_way(rt, alloc, &finished.settled);
            finish(alloc, rt, options.prefix, finished, writer, errors)
        }
        Err(fault) => report("serve", fault, errors),
    }
}

// Returns the results of the contest's matches, or why the contest could not begin.
fn served<R: Machine>(
    alloc: Global,
    rt: &R,
    contest_files: &ContestFiles,
    lineup: Lineup,
    options: &ServeOptions<'_>,
) -> Result<Finished, Fault>
    requires { AreFresh lineup.ready.items }
    ensures schedule { IfOk result (λ finished. finished.schedule ≡ lineup.schedule) }
    ensures teams { IfOk result (λ finished. finished.teams.items ≡ map (λ ready. ready.team) lineup.ready.items) }
    ensures settled { IfOk result (λ finished. HaveFared (givens_of lineup.schedule 0 lineup.ready.items)
        (dealers_of lineup.seed 0 lineup.ready.items) finished.settled.items) }
    ensures unbegun { IfErr result IsUnbegun }
{
    let schedule = lineup.schedule;
    let Ok(Hosted { teams, contest }) = contest_of(alloc, lineup) else {
        return Err(Fault::Memory);
    };
    match settled(alloc, rt, contest_files, contest, options, &teams) {
        Ok(settled) => Ok(Finished {
            schedule,
            teams,
            settled,
        }),
        Err(StartError::Memory) => Err(Fault::Memory),
        Err(StartError::Thread) => Err(Fault::Threads),
    }
}

// Returns the results of the contest's matches, while reporting to a log and obeying an operator.
fn settled<R: Machine>(
    alloc: Global,
    rt: &R,
    contest_files: &ContestFiles,
    contest: Contest,
    options: &ServeOptions<'_>,
    teams: &[Text],
) -> Result<Vec<Settled>, StartError>
    requires { length contest.dealers.items ≡ length contest.shared_matches.items }
    ensures { IfOk result (λ settled. HaveFared contest.shared_matches.items contest.dealers.items settled.items) }
{
    let log = started_log(alloc, rt)?;
    let operator = heard_operator(alloc, rt, options.hears, &log, contest.shared_matches.len())?;
    let running = RunningContest {
        is_reporting: options.log,
        turns: options.turns,
        teams,
        log: &log,
        operator: &operator,
    };
    let standings = MatchStatuses::new(alloc, &contest.shared_matches)?;
    let recorder = Recorder::new(rt, alloc, running, standings, &contest_files.parts);
    let pace = Steady::new(rt, operator.progress(), options.turns, options.pause);
    let limits = Limits {
        sessions: options.sessions,
        grace: Duration::from_millis(u64::from(options.grace)),
        gather: options.gather,
        early: options.early,
    };
    let served = run_server(
        rt,
        alloc,
        &contest_files.listener,
        contest,
        limits,
        &pace,
        &NoHooks,
        &recorder,
    )?;
    log.finish(rt);
    Ok(served.settled)
}

// A log, with a thread that writes it. The program does not wait for that thread.
fn started_log<R: Threads + Wait + Clock + Eprint + Copy + Send + 'static>(
    alloc: Global,
    rt: &R,
) -> Result<Arc<Log, Global>, StartError> {
    let Ok(log) = Arc::new(alloc, Log::new(rt, alloc)?) else {
        return Err(StartError::Memory);
    };
    let written = Arc::try_clone(&log)?;
    let own = *rt;
    match thread::spawn(rt, move || written.write_out(&own)) {
        Ok(_runs) => Ok(log),
        Err(_) => Err(StartError::Thread),
    }
}

// The operator of this number of matches, with a thread that hears standard input if there is one. The program does not
// wait for that thread.
fn heard_operator<R: Threads + Wait + Clock + Console + Copy + Send + 'static>(
    alloc: Global,
    rt: &R,
    hears: bool,
    log: &Arc<Log, Global>,
    matches: usize,
) -> Result<Arc<Operator, Global>, StartError> {
    let Ok(operator) = Arc::new(alloc, Operator::new(alloc, matches)?) else {
        return Err(StartError::Memory);
    };
    if !hears {
        return Ok(operator);
    }
    let heard = Arc::try_clone(&operator)?;
    let told = Arc::try_clone(log)?;
    let own = *rt;
    match thread::spawn(rt, move || heard.listen(&own, alloc, &told)) {
        Ok(_runs) => Ok(operator),
        Err(_) => Err(StartError::Thread),
    }
}
