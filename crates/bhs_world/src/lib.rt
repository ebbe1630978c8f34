//! The world of one match: where each agent is and what each whiteboard shows, changed event by event.
#![tactic(auto)]

mod answers;
mod faults;
pub mod laws;
mod setup_checks;
mod worlds;

pub use faults::SetupFault;
pub use worlds::World;
