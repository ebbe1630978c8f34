//! Lines by which a server turns a client away.

use thiserror::Error;

/// Why the server has turned the agent away.
#[derive(Clone, Copy, Debug, PartialEq, Eq, Drop, Error)]
pub enum Rejection {
    #[error("full: the server has no room for another client now")]
    Full,
    #[error("late: the first line came too late, or the server needed the room")]
    Late,
    #[error("memory: the server has no memory for another client now")]
    Memory,
    #[error("key: no agent has this key. Compare it with the tournament's file")]
    Key,
    #[error("taken: an agent has entered with this key before, and a key serves once")]
    Taken,
    #[error("enter: the agent's first command is another than Enter")]
    Enter,
}

impl Rejection {
    /// Returns whether the server may admit the same agent a moment later: the key is not used up.
    pub fn is_passing(self) -> bool {
        match self {
            Rejection::Full | Rejection::Late | Rejection::Memory => true,
            Rejection::Key | Rejection::Taken | Rejection::Enter => false,
        }
    }
}

/// Returns the reason that a line of the server gives, or None if the line turns nobody away.
pub fn rejection_of(line: &str) -> Option<Rejection> {
    match line {
        "{\"no\":\"full\"}" => Some(Rejection::Full),
        "{\"no\":\"late\"}" => Some(Rejection::Late),
        "{\"no\":\"memory\"}" => Some(Rejection::Memory),
        "{\"no\":\"key\"}" => Some(Rejection::Key),
        "{\"no\":\"taken\"}" => Some(Rejection::Taken),
        "{\"no\":\"enter\"}" => Some(Rejection::Enter),
        _ => None,
    }
}
