//! WebAssembly modules, without floating-point numbers, and the interpreter that runs them.
#![tactic(auto)]

mod control_instructions;
mod execution;
mod instructions;
mod integers;
mod interpreters;
mod memories;
mod memory_instructions;
mod modules;
mod numeric_instructions;
mod operators;
mod stacks;

pub use instructions::{AccessSize, HostFunction, Instruction};
pub use integers::{binary32, binary64, unary32, unary64};
pub use interpreters::{Frame, Interpreter, LastReply, Progress};
pub use modules::{Function, Module};
pub use operators::{Binary, Unary};
