//! What an agent that searches by a chart holds.

use crate::charts::FoundNode;
use bhs_text::Text;
use std::collections::VecDeque;

/// By what agents can tell how many links the black hole has.
#[derive(Clone, Copy, Debug, PartialEq, Eq)]
pub enum Told {
    /// The network has this number of links.
    Links(u32),
    /// No node has more than three links, and the black hole has two or three.
    Parity,
}

/// What agents know of the network.
#[derive(Clone, Copy, Debug, PartialEq, Eq)]
pub struct NetworkFacts {
    pub nodes: u16,
    pub told: Told,
}

/// A port of the chart: a row, and a port number.
#[derive(Clone, Copy, Debug, PartialEq, Eq)]
pub struct Claim {
    pub row: usize,
    pub port: u16,
}

/// What an agent has seen of a node: the number of its ports and the text on its whiteboard.
#[derive(Debug, Drop)]
pub struct NodeSight {
    pub ports: u16,
    pub text: Text,
}

/// A report for the home base: the claimed port, the node found behind it, and what the agent sees at home.
#[derive(Debug, Drop)]
pub struct Report {
    pub claim: Claim,
    pub found: Option<FoundNode>,
    pub seen: NodeSight,
}

/// The phase of an agent with its data.
#[derive(Debug, Drop)]
pub enum Memory {
    /// It has not entered.
    Begins,
    /// It sleeps at the home base, since no port is free.
    Waits(NodeSight),
    /// It has woken, and looks at the home base's whiteboard.
    Looks,
    /// It writes that it claims a port.
    Claims {
        seen: NodeSight,
        claim: Claim,
    },
    /// The agent walks to its claimed port and crosses it.
    GoesOut {
        claim: Claim,
        ahead: VecDeque<u16>,
        behind: VecDeque<u16>,
    },
    /// It writes a name on the whiteboard of a new node.
    Names {
        claim: Claim,
        ports: u16,
        behind: VecDeque<u16>,
    },
    /// It goes back to the home base.
    GoesBack {
        claim: Claim,
        found: Option<FoundNode>,
        behind: VecDeque<u16>,
    },
    /// The agent reports the node that it has found.
    Reports(Report),
    /// It goes to a port that leads to the black hole.
    GoesToAccuse {
        port: u16,
        ahead: VecDeque<u16>,
    },
    /// It has accused.
    Ends,
}
