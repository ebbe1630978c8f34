//! The referee: the verdict on a match that has ended.
#![tactic(auto)]

mod laws;
mod links;
mod looks;
mod verdict;
mod verdicts;
mod walks;

pub use laws::verdicts_stand;
pub use links::is_dark;
pub use verdict::{judge, outcome_by};
pub use verdicts::{Outcome, Verdict};
pub use walks::Walk;
