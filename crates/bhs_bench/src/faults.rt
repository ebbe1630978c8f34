//! Why a benchmark stops.

use bhs_deliveries::HeldFault;
use bhs_net::{Memory, NetFault};
use bhs_stream::WriteFault;
use bhs_world::SetupFault;
use std::alloc::AllocFailed;
use thiserror::Error;

/// Why the benchmark stopped.
#[derive(Clone, Copy, Debug, Error)]
pub enum BenchFault {
    /// The torus was refused.
    #[error("network: {0}")]
    Network(NetFault),
    /// The setup was refused.
    #[error("setup: {0}")]
    Setup(SetupFault),
    /// The held links were refused.
    #[error("held: {0}")]
    Held(HeldFault),
    /// A match did not settle.
    #[error("unsettled")]
    Unsettled,
    /// A write failed.
    #[error("write")]
    Write,
    /// Reading the clock failed.
    #[error("clock")]
    Clock,
    /// Memory ran out.
    #[error("memory")]
    Memory,
}

impl From<Memory> for BenchFault {
    fn from(_memory: Memory) -> BenchFault {
        BenchFault::Memory
    }
}

impl<T: Drop> From<AllocFailed<T>> for BenchFault {
    fn from(_failed: AllocFailed<T>) -> BenchFault {
        BenchFault::Memory
    }
}

impl From<NetFault> for BenchFault {
    fn from(fault: NetFault) -> BenchFault {
        match fault {
            NetFault::Memory => BenchFault::Memory,
            _ => BenchFault::Network(fault),
        }
    }
}

impl From<SetupFault> for BenchFault {
    fn from(fault: SetupFault) -> BenchFault {
        match fault {
            SetupFault::Memory => BenchFault::Memory,
            _ => BenchFault::Setup(fault),
        }
    }
}

impl From<HeldFault> for BenchFault {
    fn from(fault: HeldFault) -> BenchFault {
        match fault {
            HeldFault::Memory => BenchFault::Memory,
            HeldFault::At { .. } => BenchFault::Held(fault),
        }
    }
}

impl From<WriteFault> for BenchFault {
    fn from(_fault: WriteFault) -> BenchFault {
        BenchFault::Write
    }
}
