//! What happens in a match.

use crate::commands::Command;

/// An event of a match.
#[derive(Clone, Debug, PartialEq, Eq, Drop)]
pub enum Event {
    /// An agent says a command.
    Tell { agent: u16, command: Command },
    /// The link that an agent travels on lets it arrive.
    Deliver { agent: u16 },
    /// The match ends.
    Close,
}
