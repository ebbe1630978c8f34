//! What an agent can say.

use bhs_text::Text;

/// What an agent may say.
#[derive(Clone, Debug, PartialEq, Eq, Drop)]
pub enum Command {
    /// Begin at the home base.
    Enter,
    /// See the node again.
    Look,
    /// Put a text on the whiteboard of the node if it shows the expected one.
    Write { expect: Text, put: Text },
    /// Leave the node by a port.
    Depart { port: u16 },
    /// Say that the link at a port destroys: that it leads to a black hole or is dark. End.
    Accuse { port: u16 },
    /// End.
    Leave,
    /// A line that parses as no command.
    Bad,
}
