//! The end of a contest: once its matches are closed, its sessions have some time left and are then cut off.

use crate::clients::Clients;
use crate::origins::origin_of;
use crate::rejections::Rejection;
use crate::watch::Watch;
use bhs_net::Memory;
use bhs_shared_match::SharedMatch;
use libc::net::{SHUT_RDWR, shutdown};
use std::alloc::Global;
use std::net::{Shutdown, SocketAddr, TcpListener, TcpStream};
use std::os::fd::AsRawFd;
use std::sync::atomic::{AtomicBool, Ordering};
use std::sync::{Arc, Condvar, Mutex, Wait};
use std::time::{Clock, Duration};

// How many milliseconds lie between two looks at the matches.
const EVERY: u64 = 500;

// What is still going on in a contest.
#[derive(Drop)]
struct ContestProgress {
    /// How many matches are open.
    open: usize,
    /// How many sessions whose agents enter are waited for once all matches are closed: those that have ended are not.
    awaited: u32,
    /// Whether no more sessions are accepted, and those that still run are cut off.
    is_over: bool,
    /// The decision whether the matches begin; None while undecided.
    begins: Option<bool>,
    clients: Clients,
}

/// What the threads of a contest share to end it.
#[derive(Drop)]
pub(crate) struct Ending {
    progress: Mutex<ContestProgress>,
    changed: Condvar,
    is_over: AtomicBool,
}

impl Ending {
    /// With this many matches open, this many sessions to wait for, and at most this many that go on at a time.
    pub(crate) fn new(
        alloc: Global,
        matches: usize,
        awaited: u32,
        most: u32,
    ) -> Result<Ending, Memory> {
        Ok(Ending {
            progress: Mutex::new(ContestProgress {
                open: matches,
                awaited,
                is_over: false,
                begins: None,
                clients: Clients::new(alloc, most)?,
            }),
            changed: Condvar::new(),
            is_over: AtomicBool::new(false),
        })
    }

    /// Decides whether the matches may begin: only if all their threads run.
    pub(crate) fn begin<R: Wait>(&self, rt: &R, may_begin: bool) {
        let mut progress = self.progress.lock(rt);
        progress.begins = Some(may_begin);
        if !may_begin {
            progress.open = 0;
            progress.awaited = 0;
        }
        self.changed.notify_all();
    }

    /// Waits until it is said whether the matches may begin, and answers it.
    pub(crate) fn may_begin<R: Wait>(&self, rt: &R) -> bool {
        let progress = self.changed.wait_while(
            rt,
            self.progress.lock(rt),
            |progress| progress.begins.is_none(),
        );
        progress.begins == Some(true)
    }

    /// A match was closed.
    pub(crate) fn match_closed<R: Wait>(&self, rt: &R) {
        let mut progress = self.progress.lock(rt);
        progress.open = progress.open.saturating_sub(1);
        self.changed.notify_all();
    }

    /// Registers a session's client as connected, or cuts it off after the contest's end.
    pub(crate) fn come<R: Wait>(
        &self,
        rt: &R,
        session: u32,
        peer: SocketAddr,
        socket: &Arc<TcpStream, Global>,
    ) -> Result<(), Rejection> {
        let mut progress = self.progress.lock(rt);
        if progress.is_over {
            let _ = socket.shutdown(Shutdown::Both);
        }
        progress.clients.add(session, origin_of(peer.ip()), socket)
    }

    /// Cuts off one waiting client, if possible.
    pub(crate) fn make_room<R: Wait>(&self, rt: &R) {
        self.progress.lock(rt).clients.make_room();
    }

    /// The first line of the client of a session is still to come: whether it is not cut off.
    pub(crate) fn waits<R: Wait>(&self, rt: &R, session: u32) -> bool {
        self.progress.lock(rt).clients.waits(session)
    }

    /// The first line of the client of a session is being read, unless it is cut off or there is no room for its agent.
    pub(crate) fn enters<R: Wait>(&self, rt: &R, session: u32) -> Result<(), Rejection> {
        self.progress.lock(rt).clients.enters(session)
    }

    /// The agent of the client of a session has entered.
    pub(crate) fn is_in<R: Wait>(&self, rt: &R, session: u32) {
        self.progress.lock(rt).clients.is_in(session);
    }

    /// The client of a session is connected no more, so that its socket can be closed.
    pub(crate) fn go<R: Wait>(&self, rt: &R, session: u32) {
        self.progress.lock(rt).clients.remove(session);
    }

    /// Tells the client of a session that there is no memory to serve it, and lets go of it.
    pub(crate) fn reject<R: Wait>(&self, rt: &R, session: u32) {
        self.progress.lock(rt).clients.reject(session);
    }

    /// A session whose agent had entered has ended.
    pub(crate) fn session_ended<R: Wait>(&self, rt: &R) {
        let mut progress = self.progress.lock(rt);
        progress.awaited = progress.awaited.saturating_sub(1);
        self.changed.notify_all();
    }

    /// Whether no more sessions are accepted, and those that still run are cut off.
    pub(crate) fn is_over(&self) -> bool {
        self.is_over.load(Ordering::SeqCst)
    }

    // Waits this long, or until all matches are closed. Answers whether one is still open.
    fn is_open_after<R: Wait + Clock>(&self, rt: &R, time: Duration) -> bool {
        let progress = self.progress.lock(rt);
        self.changed
            .wait_timeout_while(rt, progress, time, |progress| progress.open > 0)
            .0
            .open
            > 0
    }

    /// Has the matches looked at, as `Watch::look` says.
    pub(crate) fn watch<R: Wait + Clock, W: Watch>(
        &self,
        rt: &R,
        watch: &W,
        shared_matches: &[SharedMatch],
    ) {
        for _ in rt.forever() {
            let is_open = self.is_open_after(rt, Duration::from_millis(EVERY));
            self.progress.lock(rt).clients.grow_older();
            watch.look(shared_matches);
            if !is_open {
                return;
            }
        }
        unreachable!()
    }

    /// Waits until all matches are closed, and then until the sessions that are waited for have ended, but no longer
    /// than the grace period. Then no more sessions are accepted, and those that still run are cut off.
    pub(crate) fn end<R: Wait + Clock>(&self, rt: &R, listener: &TcpListener, grace: Duration) {
        let progress = self
            .changed
            .wait_while(rt, self.progress.lock(rt), |progress| progress.open > 0);
        let mut progress = self
            .changed
            .wait_timeout_while(rt, progress, grace, |progress| progress.awaited > 0)
            .0;
        progress.is_over = true;
        self.is_over.store(true, Ordering::SeqCst);
        // On Linux this makes an accept that waits fail, and each later one.
        let _ = shutdown(listener.as_raw_fd(), SHUT_RDWR);
        progress.clients.cut_all();
    }
}
