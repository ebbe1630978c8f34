//! Serving a contest to its end.

ghost use Rattle.std.specs.Prelude.{◌≡◌, IfOk, length};
ghost use Rattle.bhs_server.specs.Settling.{HaveEnded, HaveFared};

use crate::pace::Pace;
use crate::settlement::{Settled, again, endings, settle_all};
use crate::start_errors::StartError;
use crate::threads::{Running, all_sessions};
use crate::watch::Watch;
use bhs_deliveries::Dealer;
use bhs_session::Ended;
use bhs_setups::Keys;
use bhs_shared_match::{LockHooks, SharedMatch};
use std::alloc::Global;
use std::net::TcpListener;
use std::sync::Wait;
use std::thread::Threads;
use std::time::{Clock, Duration};

/// A contest that is ready to be served.
#[derive(Drop)]
pub struct Contest {
    /// The matches, by number.
    pub shared_matches: Vec<SharedMatch>,
    /// The words of their deliveries: a dealer for each match.
    pub dealers: Vec<Dealer>,
    /// Which agent of which match each key lets in.
    pub keys: Keys,
}

/// How long a contest is served, and to how many.
#[derive(Clone, Copy, Debug)]
pub struct Limits {
    /// How many sessions may go on at a time.
    pub sessions: u32,
    /// How long sessions may last once all matches are closed.
    pub grace: Duration,
    /// How many milliseconds a match waits for its agents to enter before its turns begin.
    pub gather: u32,
    /// Whether a match is closed as soon as each of its agents has ended or is lost.
    pub early: bool,
}

/// A contest that has ended.
#[derive(Debug, Drop)]
pub struct Served {
    /// What came of the matches, by number.
    pub settled: Vec<Settled>,
    /// How the sessions whose agents were let in ended, in the order of their ends.
    pub ended: Vec<Ended>,
}

/// Serves a contest within limits. It accepts connections, and serves each on a thread of its own; each match has a
/// thread that takes its turns at this pace and then closes it. Once all matches are closed, it waits until the
/// sessions of all agents have ended, or as many as may go on at a time, but no longer than the grace period; then it
/// accepts no more connections, and cuts off the clients that are still there. Once all threads have ended, each match
/// is settled with the passes of its sessions, and under the oblivious schedule the turns of its deliveries are
/// compared with the words; if one match is refused, the others settle nevertheless.
///
/// Serves a contest until it ends. Only sessions with an admitted agent count. Clients whose agents have not entered
/// have a bounded number and a bounded time of their own, and use up no session; with too many waiting, the server cuts
/// one off in the most crowded network and address. Rejected clients get a line with the reason, independent of all
/// matches. A failed accept makes the server pause and retry. Without a thread for every match, no match begins.
pub fn run_server<
    R: Threads + Wait + Clock + Sync,
    P: Pace + Sync,
    G: LockHooks + Sync,
    W: Watch + Sync,
>(
    rt: &R,
    alloc: Global,
    listener: &TcpListener,
    contest: Contest,
    limits: Limits,
    pace: &P,
    lock_hooks: &G,
    watch: &W,
) -> Result<Served, StartError>
    // Each match has a dealer; a match without one would take no turn and never close.
    requires { length contest.dealers.items ≡ length contest.shared_matches.items }
    ensures settled { IfOk result (λ served. HaveFared contest.shared_matches.items contest.dealers.items
        served.settled.items) }

    // There is an entry for each session by whose pass a match was settled.
    ensures ended { IfOk result (λ served. HaveEnded contest.shared_matches.items served.settled.items
        served.ended.items) }
{
    let Contest {
        shared_matches,
        dealers,
        keys,
    } = contest;
    let copies = again(alloc, &dealers)?;
    let sessions = all_sessions(
        Running {
            rt,
            alloc,
            listener,
            shared_matches: &shared_matches,
            keys: &keys,
            limits,
            pace,
            lock_hooks,
            watch,
        },
        dealers,
    )?;
    let ended = endings(alloc, shared_matches.len(), &sessions)?;
    Ok(Served {
        settled: settle_all(alloc, shared_matches, &copies, sessions)?,
        ended,
    })
}
