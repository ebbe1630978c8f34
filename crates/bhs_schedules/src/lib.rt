//! The schedules of a match that deterministic agents play: what agents do, when each may have a turn, and what every
//! schedule comes to. A search is in `bhs_explore`, and protocols that are proved for all sizes in `bhs_protocols`.
#![tactic(auto)]

mod answers;
mod faults;
mod laws;
mod results;
mod teams;

pub use answers::{Latest, Step, TeamAnswer, TeamFault};
pub use faults::ExploreFault;
pub use laws::worked_examples;
pub use results::{Bounds, Failure, Finding};
pub use teams::Team;
