//! A tournament that is ready to play: matches on their networks with the links that are held, and the keys that let
//! agents enter.
#![tactic(auto)]

mod key_table;
mod lineups;

pub use key_table::Keys;
pub use lineups::{Lineup, Ready};
