//! The theorems: what is true of every contest, rehearsal and script. Each is the contract of a function that does
//! nothing, over the definitions that the contracts of the working functions cite.
#![tactic(auto)]

pub mod appeals;
pub mod contests;
pub mod locks;
pub mod rehearsals;
pub mod scripts;
