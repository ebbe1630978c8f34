//! Where a session plays its agent.

ghost use Rattle.bhs_session.specs.Port.{PortRequest, Enters, Tells, News, PortAnswer, entered, answered};

use bhs_model::{Command, Reply};
use bhs_net::Memory;
use bhs_wire::Raw;

/// What a port answers to a key.
#[derive(Clone, Debug, PartialEq, Eq, Drop)]
pub enum Entered {
    /// No agent has the key.
    Key,
    /// The key was used before.
    Taken,
    /// The key's agent is played from now on, and its Enter was answered so.
    In(Reply),
}

/// Where a session plays its agent. Contracts see the port's calls as steps from one state to the next, each
/// with what was asked and what was heard.
pub trait Port {
    // The transition relation of the port: in the first state it may give this answer to this request, and is then in
    // the second state.
    ghost calls: { Self → PortRequest → PortAnswer → Self → Type 0 };

    /// Lets the agent of a key enter. This is the first call, and none follows a `Key` or a `Taken`.
    fn enter(&mut self, key: &str) -> Result<Entered, Memory>
        ensures { calls self.old (Enters key.now) (entered result) self.new };

    /// Tells what the agent says.
    fn tell(&mut self, command: Command) -> Result<Reply, Memory>
        ensures { calls self.old (Tells command) (answered result) self.new };

    /// Called with each line that is no command, before the port is told. The client cannot observe the call.
    fn show(&self, line: &Raw<'_>);

    /// Waits for the agent's next arrival, or for the end of the match.
    fn news(&mut self) -> Result<Reply, Memory>
        ensures { calls self.old News (answered result) self.new };
}
