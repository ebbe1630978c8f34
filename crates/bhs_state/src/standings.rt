//! Where an agent can stand.

/// What an agent is doing.
#[derive(Clone, Copy, Debug, PartialEq, Eq)]
pub enum Standing {
    /// It has not entered.
    Outside,
    /// The agent is at a node; `came` is the label of its arrival link, None if it entered there.
    Present { node: u16, came: Option<u16> },
    /// The agent is on the link that leaves the node by the port, destroyed or not.
    Away { node: u16, port: u16 },
    /// It has ended.
    Ended,
}
