//! The commands that say what came of matches, by their replays, and why: `judge`, `table`, `explain`, `twin` and
//! `recover` of a contest.
#![tactic(auto)]

mod appeal;
mod contests;
mod explain;
mod held_links;
mod judge;
mod left_turns;
mod recover;
mod table;
mod twin;

pub use appeal::print_appealed_verdict;
pub use contests::print_contest_table;
pub use explain::{OutputKind, print_past};
pub use judge::{print_verdict, verdict_line};
pub use recover::recover_matches;
pub use table::print_table;
pub use twin::print_twin;
