//! Where a session plays its agent: in a match that threads share.

ghost use Rattle.std.specs.Prelude.{◌≡◌, None};
ghost use Rattle.bhs_server.specs.Ports.{agreed};

use crate::connections::SessionHooks;
use bhs_model::{Command, Reply, Why};
use bhs_net::Memory;
use bhs_session::{Entered, Port};
use bhs_setups::Keys;
use bhs_shared_match::{LockHooks, Pass, SharedMatch};
use bhs_wire::Raw;
use std::marker::Model;
use std::sync::Wait;

/// The agent that a session plays: the number of its match, and its pass.
#[derive(Debug, Drop)]
pub struct SessionAgent {
    pub game: u32,
    pub pass: Pass,
}

/// Where a session plays an agent of matches that threads share.
#[derive(Drop)]
pub struct MatchPort<'a, R, G, H> {
    rt: &'a R,
    lock_hooks: &'a G,
    hooks: &'a H,
    shared_matches: &'a [SharedMatch],
    keys: &'a Keys,
    played: Option<SessionAgent>,
}

// Contracts see a port as the keys, the matches as they were given, and the agent that is played, once there is one.
impl<'a, R, G, H> Model for MatchPort<'a, R, G, H> {
    ghost use Rattle.bhs_server.specs.Ports.{Seated};

    ghost Value = { Seated };

    ghost view = { λ port. record {
      keys = port.keys.now;
      shared_matches = port.shared_matches.now;
      played = port.played;
    } };
}

impl<'a, R: Wait, G: LockHooks, H: SessionHooks> MatchPort<'a, R, G, H> {
    /// A port at which nobody has entered.
    pub fn new(
        rt: &'a R,
        lock_hooks: &'a G,
        hooks: &'a H,
        shared_matches: &'a [SharedMatch],
        keys: &'a Keys,
    ) -> MatchPort<'a, R, G, H>
        ensures { result ≡ record { keys = keys.now; shared_matches = shared_matches.now; played = None } }
    {
        MatchPort {
            rt,
            lock_hooks,
            hooks,
            shared_matches,
            keys,
            played: None,
        }
    }

    /// Returns the agent of the session, if one has entered.
    pub fn into_played(self) -> Option<SessionAgent>
        ensures { result ≡ self.entry.played }
    {
        let MatchPort {
            rt: _,
            lock_hooks: _,
            hooks: _,
            shared_matches: _,
            keys: _,
            played,
        } = self;
        played
    }
}

// Returns the reply for the client; if the pass disagrees with the state under the lock, that the match is over.
fn agreed(reply: Reply) -> Reply
    ensures { result ≡ agreed reply }
{
    match reply {
        Reply::No(Why::Agent) => Reply::Over,
        reply => reply,
    }
}

impl<R: Wait, G: LockHooks, H: SessionHooks> Port for MatchPort<'_, R, G, H> {
    ghost use Rattle.bhs_server.specs.Ports.{Calls};

    ghost calls = { Calls };

    fn enter(&mut self, key: &str) -> Result<Entered, Memory> {
        let Some((game, agent)) = self.keys.find(key) else {
            return Ok(Entered::Key);
        };
        let Some(shared_match) = self.shared_matches.get(game as usize) else {
            return Ok(Entered::Key);
        };
        let Some(pass) = shared_match.claim(self.rt, agent) else {
            return Ok(Entered::Taken);
        };
        self.hooks.let_in(game, agent);
        // The proof needs that each receipt has its command.
        let _paired = pass.receipts();
        let mut played = SessionAgent { game, pass };
        let answer = shared_match.submit(
            self.rt,
            self.lock_hooks,
            &mut played.pass,
            Command::Enter,
        );
        self.played = Some(played);
        Ok(Entered::In(agreed(answer?.reply)))
    }

    fn tell(&mut self, command: Command) -> Result<Reply, Memory> {
        let Some(SessionAgent { game, pass }) = &mut self.played else {
            return Ok(Reply::Over);
        };
        let Some(shared_match) = self.shared_matches.get(*game as usize) else {
            return Ok(Reply::Over);
        };
        let answer = shared_match.submit(self.rt, self.lock_hooks, pass, command)?;
        self.hooks.answered(answer.place.is_some());
        Ok(agreed(answer.reply))
    }

    fn show(&self, line: &Raw<'_>) {
        self.hooks.no_command(line);
    }

    fn news(&mut self) -> Result<Reply, Memory> {
        let Some(SessionAgent { game, pass }) = &mut self.played else {
            return Ok(Reply::Over);
        };
        let Some(shared_match) = self.shared_matches.get(*game as usize) else {
            return Ok(Reply::Over);
        };
        self.hooks.before_waiting();
        shared_match.news(self.rt, pass)
    }
}
