//! The sessions of a contest: those whose agents were let in.

ghost use Rattle.std.specs.Prelude.{◌≡◌};
ghost use Rattle.bhs_server.specs.Attending.{WasServed};

use crate::ports::SessionAgent;
use bhs_net::Memory;
use bhs_session::Ended;
use std::alloc::Global;
use std::sync::{Mutex, Wait};

/// A session that has ended. Its agent was let in, and `attend` served it.
#[derive(Debug, Drop)]
pub struct Session {
    pub ended: Ended,
    pub played: SessionAgent,
    pub ghost served: { ∥ WasServed played.pass ended ∥₁ },
}

impl Session {
    /// Makes a session that `attend` served. If a part of its output could not be sent, its ending is a write fault.
    pub(crate) fn of(ended: Ended, played: SessionAgent, has_failed: bool) -> Session
        requires { WasServed played.pass ended }
        ensures { result.played ≡ played }
    {
        if has_failed {
            return Session {
                ended: Ended::WriteFault,
                played,
            };
        }
        Session { ended, played }
    }
}

/// The sessions that have ended, in the order of their ends.
#[derive(Drop)]
pub(crate) struct Sessions {
    all: Mutex<Vec<Session>>,
}

impl Sessions {
    /// None yet, with room for this many.
    pub(crate) fn new(alloc: Global, agents: usize) -> Result<Sessions, Memory> {
        Ok(Sessions {
            all: Mutex::new(Vec::with_capacity(alloc, agents)?),
        })
    }

    /// Stores a session. There is room for it, since each agent is admitted once.
    pub(crate) fn keep<R: Wait>(&self, rt: &R, session: Session) {
        let mut all = self.all.lock(rt);
        let _ = all.push(session);
    }

    /// All sessions.
    pub(crate) fn into_all(self) -> Vec<Session> {
        let Sessions { all } = self;
        all.into_inner()
    }
}
