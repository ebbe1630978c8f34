//! The limits of a network, and why links make none.

ghost use Rattle.bhs_net.specs.declared.faults.NetFault.TheVariants.{Memory};
ghost use Rattle.std.specs.Prelude.{◌≡◌};

use std::alloc::{AllocError, AllocFailed};
use thiserror::Error;

/// The fewest nodes that a network may have.
pub const MIN_NODES: u16 = 3;

/// The most nodes that a network may have.
pub const MAX_NODES: u16 = 4096;

/// Why a list of links makes no network. The first fault is told: by the order below, and of one kind by the least
/// link (its place in the list) or node.
#[derive(Clone, Copy, Debug, PartialEq, Eq, Error)]
pub enum NetFault {
    /// The number of nodes is not from `MIN_NODES` to `MAX_NODES`.
    #[error("nodes")]
    Nodes,
    /// An end of the link names a node that does not exist.
    #[error("node in link {link}")]
    Node { link: usize },
    /// The link joins a node to itself.
    #[error("loop in link {link}")]
    Loop { link: usize },
    /// An earlier link joins the same two nodes.
    #[error("double link {link}")]
    Double { link: usize },
    /// An earlier link has one of the link's ports.
    #[error("port twice in link {link}")]
    PortTwice { link: usize },
    /// The ports at the node are not 0 to its degree less 1.
    #[error("port gap at node {node}")]
    PortGap { node: u16 },
    /// Some two nodes are not joined by a path.
    #[error("apart")]
    Apart,
    /// Removing the node disconnects two other nodes.
    #[error("cut node {node}")]
    CutNode { node: u16 },
    /// Memory ran out.
    #[error("memory")]
    Memory,
}

impl From<AllocError> for NetFault {
    ghost from_gives = { λ _ e. e ≡ Memory };

    fn from(_: AllocError) -> NetFault {
        NetFault::Memory
    }
}

impl<T: Drop> From<AllocFailed<T>> for NetFault {
    ghost from_gives = { λ _ e. e ≡ Memory };

    fn from(_: AllocFailed<T>) -> NetFault {
        NetFault::Memory
    }
}
