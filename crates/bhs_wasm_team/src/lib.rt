//! WebAssembly modules as the agents of a match.
#![tactic(auto)]

mod agents;
mod commands;
mod explore;
mod failures;
mod laws;
mod memory_table;
mod packed_memory;

pub use agents::{Agents, FUEL, Role, Roles};
pub use explore::{draw_module, explore_module};
pub use failures::{FailureCause, ModuleFailure};
pub use laws::{findings_of_modules_agree, modules_answer, modules_solve};
pub use memory_table::{MemoryTable, Saved, Status};
