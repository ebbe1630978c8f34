//! A contest: the matches of a tournament under locks, the pace of their turns, and the table of their verdicts.
#![tactic(auto)]

mod contest;
mod pace;
mod progress;
mod table;
mod verdicts;

pub use contest::{Hosted, contest_of};
pub use pace::Steady;
pub use progress::Progress;
pub use table::{standings, table_by};
