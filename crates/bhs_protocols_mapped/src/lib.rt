//! A search of any network by two agents that have a map of it.
#![tactic(auto)]

pub mod laws;
