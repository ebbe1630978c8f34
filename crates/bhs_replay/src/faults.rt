ghost use Rattle.std.specs.Prelude.{◌≡◌};
ghost use Rattle.bhs_replay.specs.declared.faults.ReplayFault.TheVariants.{Memory};

use std::alloc::{AllocError, AllocFailed};
use thiserror::Error;

/// Reasons to refuse a text as a replay. The first fault in the order of the text is reported. Lines are numbered from
/// 1; the head is line 1.
#[derive(Clone, Copy, Debug, PartialEq, Eq, Drop, Error)]
pub enum ReplayFault {
    /// The first line is no head, or its network or its setup is refused.
    #[error("head")]
    Head,
    /// The line is neither an event's nor an end line, or it is an event's behind a close.
    #[error("line {line}")]
    Line { line: usize },
    /// The match does not keep the line's event.
    #[error("event {line}")]
    Event { line: usize },
    /// The event would be kept, and its reply is another than the line's.
    #[error("differs {line}")]
    Differs { line: usize },
    /// The text stops before its end line, or goes on behind it, or the end line stands elsewhere than after a close or
    /// has another number than that of the events.
    #[error("end")]
    End,
    /// A read failed.
    #[error("read")]
    Read,
    /// Memory ran out.
    #[error("memory")]
    Memory,
    /// One more read than the turns allow was needed.
    #[error("turns")]
    Turns,
}

impl From<AllocError> for ReplayFault {
    ghost from_gives = { λ _ fault. fault ≡ Memory };

    fn from(_: AllocError) -> ReplayFault {
        ReplayFault::Memory
    }
}

impl<T: Drop> From<AllocFailed<T>> for ReplayFault {
    ghost from_gives = { λ _ fault. fault ≡ Memory };

    fn from(_: AllocFailed<T>) -> ReplayFault {
        ReplayFault::Memory
    }
}

/// Why a replay was not written whole.
#[derive(Clone, Copy, Debug, PartialEq, Eq, Drop, Error)]
pub enum WritingFault {
    /// A write failed, or took nothing.
    #[error("write")]
    Write,
    /// Memory ran out.
    #[error("memory")]
    Memory,
}
