//! Search protocols, proved for networks of all sizes, and impossibility results.

#![tactic(auto)]

pub mod halves;
pub mod laws;
pub mod shuttle;
