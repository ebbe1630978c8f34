//! A running contest: the state that its threads share, and the body of each thread.

use crate::contest_end::Ending;
use crate::hold::Hold;
use crate::pace::Pace;
use crate::rejections::{Rejection, reject};
use crate::server::Limits;
use crate::session_context::SessionContext;
use crate::sessions::{Session, Sessions};
use crate::start_errors::StartError;
use crate::turns::{deal, gather};
use crate::watch::{Outside, Watch};
use bhs_deliveries::Dealer;
use bhs_setups::Keys;
use bhs_shared_match::{LockHooks, SharedMatch};
use libc::net::listen;
use std::alloc::Global;
use std::net::{SocketAddr, TcpListener, TcpStream};
use std::os::fd::AsRawFd;
use std::sync::{Arc, Wait};
use std::thread;
use std::thread::Threads;
use std::time::{Clock, Duration};

/// How many milliseconds the server pauses after an accept that failed.
const PAUSE: u64 = 5;

// How many connections the system is to keep for the server until it accepts them.
const QUEUE: i32 = 4096;

/// What the threads of a contest share.
pub(crate) struct Running<'a, R, P, G, W> {
    pub(crate) rt: &'a R,
    pub(crate) alloc: Global,
    pub(crate) listener: &'a TcpListener,
    pub(crate) shared_matches: &'a [SharedMatch],
    pub(crate) keys: &'a Keys,
    pub(crate) limits: Limits,
    pub(crate) pace: &'a P,
    pub(crate) lock_hooks: &'a G,
    pub(crate) watch: &'a W,
}

/// Plays all matches to their ends, and serves sessions within limits: those whose agents were let in. It lacks a
/// thread if one for a match cannot be started; then no match begins.
pub(crate) fn all_sessions<
    R: Threads + Wait + Clock + Sync,
    P: Pace + Sync,
    G: LockHooks + Sync,
    W: Watch + Sync,
>(running: Running<'_, R, P, G, W>, dealers: Vec<Dealer>) -> Result<Vec<Session>, StartError> {
    let Running {
        rt,
        alloc,
        listener,
        shared_matches,
        keys,
        limits,
        pace,
        lock_hooks,
        watch,
    } = running;
    let Limits {
        sessions: most,
        grace,
        gather: longest,
        early,
    } = limits;
    let agents = agents_of(shared_matches);
    let awaited = most.min(agents);
    let ending = Ending::new(alloc, shared_matches.len(), awaited, most)?;
    let ending = &ending;
    let kept = Sessions::new(alloc, agents as usize)?;
    let sessions = &kept;
    thread::scope(thread::scope_env(), rt, |scope| -> Result<(), StartError> {
        let mut are_all = scope.spawn(move || ending.end(rt, listener, grace)).is_ok();
        are_all = are_all
            && scope
                .spawn(move || ending.watch(rt, watch, shared_matches))
                .is_ok();
        for (game, (shared_match, mut dealer)) in shared_matches.iter().zip(dealers).enumerate() {
            let game = u32::try_from(game).unwrap_or(u32::MAX);
            are_all = are_all
                && scope
                    .spawn(move || {
                        if ending.may_begin(rt) {
                            gather(rt, pace, game, shared_match, longest);
                            let turns = deal(rt, pace, early, game, shared_match, &mut dealer);
                            watch.closed(game, turns, shared_match);
                            ending.match_closed(rt);
                        }
                    })
                    .is_ok();
        }
        ending.begin(rt, are_all);
        if !are_all {
            return Err(StartError::Thread);
        }
        // A listener may be told anew how long its queue is.
        let _ = listen(listener.as_raw_fd(), QUEUE);
        let mut next: u32 = 0;
        for _ in rt.forever() {
            let Some((stream, peer)) = accepted(rt, listener, ending) else {
                return Ok(());
            };
            let session = next;
            next = next.wrapping_add(1);
            watch.came(session, peer);
            let client = Client { session, peer };
            let Some(socket) = welcomed(rt, alloc, client, stream, ending, watch) else {
                continue;
            };
            let started = scope.spawn(move || {
                let context = SessionContext {
                    rt,
                    alloc,
                    shared_matches,
                    keys,
                    lock_hooks,
                    watch,
                    ending,
                    sessions,
                };
                context.serve(session, socket)
            });
            if started.is_err() {
                ending.reject(rt, session);
                watch.left_outside(session, Outside::Rejection(Rejection::Memory));
            }
        }
        unreachable!()
    })?;
    Ok(kept.into_all())
}

// How many agents there are in all matches.
fn agents_of(shared_matches: &[SharedMatch]) -> u32 {
    let mut agents: u32 = 0;
    for shared_match in shared_matches {
        agents = agents.saturating_add(u32::from(shared_match.setup().agents));
    }
    agents
}

// A client that connected: the number of its session, and from where it comes.
#[derive(Clone, Copy)]
struct Client {
    session: u32,
    peer: SocketAddr,
}

// Returns the socket of a new client if it can be served; else tells the client why not.
fn welcomed<R: Wait, W: Watch>(
    rt: &R,
    alloc: Global,
    client: Client,
    stream: TcpStream,
    ending: &Ending,
    watch: &W,
) -> Option<Arc<TcpStream, Global>> {
    let Client { session, peer } = client;
    let _ = stream.set_nodelay(true);
    let Ok(socket) = Arc::new(alloc, stream) else {
        watch.left_outside(session, Outside::Rejection(Rejection::Memory));
        return None;
    };
    if let Err(why) = ending.come(rt, session, peer, &socket) {
        reject(&socket, why);
        watch.left_outside(session, Outside::Rejection(why));
        return None;
    }
    Some(socket)
}

// The next connection, or None once the contest is over. If none can be accepted, one that waits to be let in makes
// room.
fn accepted<R: Wait + Clock>(
    rt: &R,
    listener: &TcpListener,
    ending: &Ending,
) -> Option<(TcpStream, SocketAddr)> {
    for _ in rt.forever() {
        if ending.is_over() {
            return None;
        }
        if let Ok(accepted) = listener.accept() {
            return Some(accepted);
        }
        if !ending.is_over() {
            ending.make_room(rt);
            thread::sleep(rt, Duration::from_millis(PAUSE));
        }
    }
    unreachable!()
}

/// Whether this many threads can be started beside each other now.
pub fn can_start<R: Threads + Wait + Sync>(rt: &R, threads: usize) -> bool {
    let hold = Hold::new();
    let held = &hold;
    thread::scope(thread::scope_env(), rt, |scope| {
        let mut are_all = true;
        for _ in 0..threads {
            are_all = are_all && scope.spawn(move || held.wait(rt)).is_ok();
        }
        held.let_go(rt);
        are_all
    })
}
