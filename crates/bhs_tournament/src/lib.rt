//! What a tournament and its networks make together: matches that are ready to play, and the keys of their agents.
#![tactic(auto)]

mod assembly;
mod key_table;

pub use assembly::assemble;
