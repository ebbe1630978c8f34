//! Reads WebAssembly modules: the binary format, validation, and branches that name the instruction they lead to.
#![tactic(auto)]

mod blocks;
mod bodies;
mod bytes;
mod code_section;
mod control;
mod declarations;
mod faults;
mod module_types;
mod modules;
mod opcodes;
mod sections;
mod segments;

pub use faults::{FaultKind, ModuleFault};
pub use modules::module_of;
