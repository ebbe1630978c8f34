//! Watching a contest while it goes on.

use crate::rejections::Rejection;
use crate::strays::Strays;
use bhs_session::Ended;
use bhs_shared_match::SharedMatch;
use bhs_wire::Denial;
use std::net::SocketAddr;

/// The reason why a client's agent has not entered.
#[derive(Clone, Copy, Debug, PartialEq, Eq)]
pub enum Outside {
    /// Its first line was denied.
    Denied(Denial),
    /// It was not served.
    Rejection(Rejection),
    /// It ended so before its first line came.
    Ended(Ended),
}

/// Is told what happens in a contest. The threads to which it happens call it.
pub trait Watch {
    /// A client connected.
    fn came(&self, session: u32, peer: SocketAddr);

    /// A session was let in as this agent of a match.
    fn let_in(&self, session: u32, game: u32, agent: u16);

    /// A session ended that had played this agent of a match.
    fn ended(&self, session: u32, ended: Ended, game: u32, agent: u16);

    /// A session ended in which some lines were no commands.
    fn strayed(&self, session: u32, strays: &Strays);

    /// A client is gone whose agent has not entered.
    fn left_outside(&self, session: u32, why: Outside);

    /// A match was closed after this number of turns.
    fn closed(&self, game: u32, turns: u32, shared_match: &SharedMatch);

    /// Looks at the matches. One thread calls it: about twice a second while a match is open, and once after that.
    fn look(&self, shared_matches: &[SharedMatch]);
}

/// Watches nothing.
#[derive(Clone, Copy, Debug)]
pub struct Blind;

impl Watch for Blind {
    fn came(&self, _session: u32, _peer: SocketAddr) {}

    fn let_in(&self, _session: u32, _game: u32, _agent: u16) {}

    fn ended(&self, _session: u32, _ended: Ended, _game: u32, _agent: u16) {}

    fn strayed(&self, _session: u32, _strays: &Strays) {}

    fn left_outside(&self, _session: u32, _why: Outside) {}

    fn closed(&self, _game: u32, _turns: u32, _cell: &SharedMatch) {}

    fn look(&self, _cells: &[SharedMatch]) {}
}
