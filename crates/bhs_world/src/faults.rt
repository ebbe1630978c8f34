//! Why a match cannot be set up.

ghost use Rattle.std.specs.Prelude.{◌≡◌};
ghost use Rattle.bhs_world.specs.declared.faults.SetupFault.TheVariants.{Memory};

use std::alloc::AllocError;
use thiserror::Error;

/// Why a setup makes no world. The first that holds, in this order, is told.
#[derive(Clone, Copy, Debug, PartialEq, Eq, Error)]
pub enum SetupFault {
    /// The home base is not a node.
    #[error("home")]
    Home,
    /// A black hole is not a node, or is the home base, or stands twice.
    #[error("hole")]
    Hole,
    /// The number of agents is not from 1 to `MAX_AGENTS`.
    #[error("agents")]
    Agents,
    /// The quota is not from 1 to `MAX_QUOTA`.
    #[error("quota")]
    Quota,
    /// A whiteboard holds more than `MAX_BOARD` bytes.
    #[error("board")]
    Board,
    /// An end of a dark link is no port of a node, or a dark link stands twice.
    #[error("dark")]
    Dark,
    /// Memory ran out.
    #[error("memory")]
    Memory,
}

impl From<AllocError> for SetupFault {
    ghost from_gives = { λ _ fault. fault ≡ Memory };

    fn from(_: AllocError) -> SetupFault {
        SetupFault::Memory
    }
}
