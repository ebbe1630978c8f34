//! The command `attest`: a replay is compared with what the modules of its agents say.
#![tactic(auto)]

mod agents;
mod attest;
mod lines;

pub use attest::attest_named;
