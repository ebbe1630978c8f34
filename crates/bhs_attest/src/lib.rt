//! Attestation: compares the log of a closed match with the strategies of its agents.
#![tactic(auto)]

mod follow;
mod followers;
pub mod laws;
mod turns;

pub use follow::{Attestation, attest, each_match_has_ended};
