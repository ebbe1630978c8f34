//! Why an agent saw what it saw, in a match that has ended: the causal past of an agent, closed sets of places played
//! by themselves, and twins, which no agent can tell apart.
#![tactic(auto)]

mod cuts;
mod entries;
pub mod laws;
mod needed;
mod playback;
mod restriction;
mod twins;

pub use cuts::{cut_and_looks, cut_of};
pub use restriction::{RestrictFault, restrict};
pub use twins::{Twin, TwinFault, twin_of};
