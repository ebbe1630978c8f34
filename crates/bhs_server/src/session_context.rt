//! Serving the client of a connection.

ghost use Rattle.bhs_server.specs.Attending.{WasServedIfPlayed};

use crate::connections::{Connection, Incoming, PendingClient};
use crate::contest_end::Ending;
use crate::rejections::{Rejection, reject};
use crate::sessions::{Session, Sessions};
use crate::visits::{EndedSession, attend};
use crate::watch::{Outside, Watch};
use bhs_net::Memory;
use bhs_session::Ended;
use bhs_setups::Keys;
use bhs_shared_match::{LockHooks, SharedMatch};
use std::alloc::Global;
use std::net::TcpStream;
use std::sync::{Arc, Wait};
use std::time::Clock;

/// What each session of a contest needs.
#[derive(Drop)]
pub(crate) struct SessionContext<'a, R, G, W> {
    pub(crate) rt: &'a R,
    pub(crate) alloc: Global,
    pub(crate) shared_matches: &'a [SharedMatch],
    pub(crate) keys: &'a Keys,
    pub(crate) lock_hooks: &'a G,
    pub(crate) watch: &'a W,
    pub(crate) ending: &'a Ending,
    pub(crate) sessions: &'a Sessions,
}

impl<R: Wait + Clock, G: LockHooks, W: Watch> SessionContext<'_, R, G, W> {
    /// Serves the client of a connection to its end. Its session is kept if its agent has entered.
    pub(crate) fn serve(&self, session: u32, socket: Arc<TcpStream, Global>) {
        let kept = Arc::try_clone(&socket);
        if self.visited(session, socket).is_err() {
            if let Ok(kept) = kept {
                reject(&kept, Rejection::Memory);
            }
            self.outside(session, Outside::Rejection(Rejection::Memory));
        }
        self.ending.go(self.rt, session);
    }

    // Has the client of a connection attend, and sends all that was held back.
    fn visited(&self, session: u32, stream: Arc<TcpStream, Global>) -> Result<(), Memory> {
        let connection = Connection::new(self.alloc, stream)?;
        let mut incoming = Incoming::new(self.rt, self.alloc, session, &connection, self.ending)?;
        let pending_client = PendingClient::new(
            self.rt,
            session,
            &connection,
            self.ending,
            self.watch,
        );
        let session_end = attend(
            self.rt,
            self.alloc,
            &mut incoming,
            &mut &connection,
            &pending_client,
            self.shared_matches,
            self.keys,
            self.lock_hooks,
        );
        self.part(session, &connection, session_end);
        Ok(())
    }

    // Ends a session.
    fn part(&self, session: u32, connection: &Connection, session_end: EndedSession)
        requires { WasServedIfPlayed session_end.played session_end.ended }
    {
        let EndedSession { ended, played } = session_end;
        let denial = connection.denial();
        if denial.is_some() {
            // it counts no more once it knows that it is denied
            self.ending.go(self.rt, session);
        }
        let _ = connection.send_held();
        let has_failed = connection.has_failed();
        match (played, denial) {
            (Some(played), _) => {
                let kept = Session::of(ended, played, has_failed);
                self.watch.ended(
                    session,
                    kept.ended,
                    kept.played.game,
                    kept.played.pass.agent(),
                );
                connection.tell_strays(session, self.watch);
                self.sessions.keep(self.rt, kept);
                self.ending.session_ended(self.rt);
            }
            (None, Some(denial)) => self.outside(session, Outside::Denied(denial)),
            (None, None) => {
                let ended = if has_failed { Ended::WriteFault } else { ended };
                self.leave(session, connection, ended);
            }
        }
    }

    // Ends the session of a client whose agent has not entered and that was not denied.
    fn leave(&self, session: u32, connection: &Connection, ended: Ended) {
        match connection.rejection() {
            Some(why) => {
                connection.reject(why);
                self.outside(session, Outside::Rejection(why));
            }
            None => self.outside(session, Outside::Ended(ended)),
        }
    }

    fn outside(&self, session: u32, why: Outside) {
        self.watch.left_outside(session, why);
    }
}
