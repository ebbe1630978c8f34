//! Scripts of rehearsals: what the lines of one mean, and how what its connections are sent is printed.
#![tactic(auto)]

mod faults;
mod instructions;
mod meanings;
mod numbers;
mod output;
mod script;

pub use faults::ScriptFault;
pub use instructions::{CONNECTIONS, Instruction};
pub use meanings::Meaning;
pub use numbers::number_of;
pub use output::push_printed;
pub use script::{instructions_in, meaning_of};
