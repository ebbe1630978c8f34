//! Reasons to refuse a file as a module for agents.

use std::alloc::{AllocError, AllocFailed};
use std::fmt;
use std::fmt::{Display, Formatter};
use thiserror::Error;

/// A reason to refuse a file.
#[derive(Clone, Copy, Debug, PartialEq, Eq, Error)]
pub enum FaultKind {
    /// The program's memory ran out.
    #[error("memory")]
    Memory,
    /// The file, or one of its parts, ends too early.
    #[error("end")]
    End,
    /// A number is too long or too large.
    #[error("number")]
    Number,
    /// A name is not in UTF-8, or two exports have it.
    #[error("name")]
    Name,
    /// It has floating-point numbers.
    #[error("float")]
    Float,
    /// The file has an instruction that agents may not use.
    #[error("opcode {0}")]
    Opcode(u32),
    /// The types of an instruction or a function do not match.
    #[error("type")]
    Type,
    /// It imports something that is no function of `arena`.
    #[error("import")]
    Import,
    /// It imports a function of `arena` with another type.
    #[error("import type")]
    ImportType,
    /// It has a start function.
    #[error("start")]
    Start,
    /// A segment is not active, or lies outside of its memory or table; or the module says another number of them.
    #[error("segment")]
    Segment,
    /// A section is unknown, out of order, or longer than what it holds.
    #[error("section")]
    Section,
    /// The module exceeds a limit.
    #[error("size")]
    Large,
    /// It names a function, type, local, global, memory or table that it does not have.
    #[error("index")]
    Index,
    /// Its blocks do not match.
    #[error("block")]
    Block,
    /// An instruction assumes a greater alignment than its size.
    #[error("alignment")]
    Alignment,
    /// It exports no function `run`, and nothing named `main`.
    #[error("run")]
    Run,
    /// Its function `run` has parameters or results.
    #[error("run type")]
    RunType,
    /// It exports no function `run`, but something named `main`, which nobody calls.
    #[error("main")]
    Main,
}

/// Why a file is refused.
#[derive(Debug, Drop)]
pub enum ModuleFault {
    /// It does not begin as a WebAssembly module, version 1.
    Head,
    /// A fault after the head, with the offset of its byte, and the import's name if an import is at fault.
    Inside {
        kind: FaultKind,
        at: usize,
        import: String,
    },
}

/// What an import is named is a stranger's text, and shown escaped.
impl Display for ModuleFault {
    fn fmt<W: fmt::Write>(&self, f: &mut Formatter<W>) -> fmt::Result {
        match self {
            ModuleFault::Head => f.write_str("head at byte 0"),
            ModuleFault::Inside { kind, at, import } => match *kind {
                FaultKind::Memory => f.write_str("memory"),
                FaultKind::Import | FaultKind::ImportType => {
                    write!(
                        f,
                        "{} {} at byte {}",
                        *kind,
                        import.as_str().escape_debug(),
                        *at
                    )
                }
                kind => write!(f, "{kind} at byte {}", *at),
            },
        }
    }
}

impl From<AllocError> for FaultKind {
    fn from(_: AllocError) -> FaultKind {
        FaultKind::Memory
    }
}

impl<T: Drop> From<AllocFailed<T>> for FaultKind {
    fn from(_: AllocFailed<T>) -> FaultKind {
        FaultKind::Memory
    }
}
