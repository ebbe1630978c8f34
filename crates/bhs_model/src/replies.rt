//! What an agent is answered.

use bhs_text::Text;

/// What an agent is answered.
#[derive(Clone, Debug, PartialEq, Eq, Drop)]
pub enum Reply {
    /// The agent is at a node with this many ports, came by the link with this label at the node (None
    /// where it entered at the home base), and the whiteboard shows this text.
    Here {
        ports: u16,
        came: Option<u16>,
        board: Text,
    },
    /// The whiteboard shows the new text.
    Written,
    /// The whiteboard showed another text than the expected one, and shows it still.
    Changed {
        board: Text,
    },
    /// The agent has departed; its link carries it.
    Gone,
    /// The accusation stands, right or wrong, and the agent has ended.
    Noted,
    /// The agent has ended.
    Bye,
    /// The match has ended.
    Over,
    /// The command is refused.
    No(Why),
}

/// Why a command is refused. The first that holds, in this order, is the answer.
#[derive(Clone, Copy, Debug, PartialEq, Eq)]
pub enum Why {
    /// The match has no agent of this number.
    Agent = 1,
    /// The agent has not entered.
    Outside = 2,
    /// The agent has entered before.
    Twice = 3,
    /// The agent has ended.
    Ended = 4,
    /// The agent has used its quota of commands.
    Spent = 5,
    /// Refusal: the agent is on a link.
    Away = 6,
    /// The line was no command.
    Line = 7,
    /// Refusal: the node has no such port.
    Port = 8,
    /// The text has more bytes than the whiteboard holds.
    Long = 9,
}
