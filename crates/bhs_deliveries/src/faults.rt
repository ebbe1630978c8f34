//! Why links cannot be held.

ghost use Rattle.std.specs.Prelude.{◌≡◌};
ghost use Rattle.bhs_deliveries.specs.declared.faults.HeldFault.TheVariants.{Memory};

use std::alloc::AllocError;
use thiserror::Error;

/// Why a list of pairs holds no links.
#[derive(Clone, Copy, Debug, PartialEq, Eq, Error)]
pub enum HeldFault {
    /// The pair at this place of the list is no port of a node: the first such pair, by places from 0.
    #[error("held link {index}")]
    At { index: usize },
    /// Memory ran out.
    #[error("memory")]
    Memory,
}

impl From<AllocError> for HeldFault {
    ghost from_gives = { λ _ fault. fault ≡ Memory };

    fn from(_: AllocError) -> HeldFault {
        HeldFault::Memory
    }
}
