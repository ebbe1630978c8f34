//! A search of an unknown network by agents that draw a chart of it.

#![tactic(auto)]

pub mod agent;
pub mod charts;
pub mod decisions;
pub mod laws;
pub mod memories;
