//! Time in a match. Under the oblivious schedule the turn of an arrival depends on words, on the agent's number and
//! on the turn of its departure alone; the laws of isolation in time say what follows.
#![tactic(auto)]

mod delays;
mod kinds;
pub mod laws;

pub use delays::{Delays, MAX_SCALES};
pub use kinds::ScheduleKind;
