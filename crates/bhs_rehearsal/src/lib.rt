//! Rehearsals: many clients at once, in memory, as a script says. Each connection acts as a session does.
#![tactic(auto)]

mod choices;
mod connections;
mod entries;
mod faults;
mod holders;
mod instructions;
mod items;
mod moves;
mod outs;
mod rehearsals;
mod takings;

pub use faults::RehearsalFault;
pub use outs::Out;
pub use rehearsals::Rehearsal;
