//! A session of a contest, from its first line to its end.

ghost use Rattle.bhs_server.specs.Written.{IsAttended};

use crate::connections::SessionHooks;
use crate::ports::{MatchPort, SessionAgent};
use bhs_session::{Ended, serve};
use bhs_setups::Keys;
use bhs_shared_match::{LockHooks, SharedMatch};
use bhs_stream::{Input, Output};
use std::alloc::Global;
use std::sync::Wait;

/// How often a session may read.
pub const TURNS: u32 = 16_777_216;

/// An ended session: its ending, and its admitted agent, where one exists.
#[derive(Debug, Drop)]
pub struct EndedSession {
    pub ended: Ended,
    pub played: Option<SessionAgent>,
}

/// Serves one client to its end, on the match of the agent that its key lets in. Meanwhile `hooks` are called.
pub fn attend<I: Input, O: Output, H: SessionHooks, R: Wait, G: LockHooks>(
    rt: &R,
    alloc: Global,
    reader: &mut I,
    writer: &mut O,
    hooks: &H,
    shared_matches: &[SharedMatch],
    keys: &Keys,
    lock_hooks: &G,
) -> EndedSession
    ensures { IsAttended I.gives O.takes keys.now shared_matches.now reader.old reader.new writer.old writer.new TURNS
        result.played result.ended }
{
    let mut port = MatchPort::new(rt, lock_hooks, hooks, shared_matches, keys);
    let ended = serve(alloc, reader, writer, &mut port, TURNS);
    EndedSession {
        ended,
        played: port.into_played(),
    }
}
