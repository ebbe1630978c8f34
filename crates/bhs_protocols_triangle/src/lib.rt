//! The smallest search that is proved: a template of a proof by an invariant.

#![tactic(auto)]

pub mod laws;
