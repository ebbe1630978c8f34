//! The state of an agent (position, used quota, whether it is lost) and of a whiteboard (one text, changed by
//! compare-and-swap).
#![tactic(auto)]

mod agents;
mod boards;
mod standings;
mod swaps;

pub use agents::Agent;
pub use boards::Board;
pub use standings::Standing;
pub use swaps::Swap;
