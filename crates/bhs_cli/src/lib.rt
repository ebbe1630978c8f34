//! What the commands of the program share: why one stops and with which exit status, how texts are printed, how a
//! tournament is read, and the files of matches. `check`, and `recover` of one part, need no more and are here too.
#![tactic(auto)]

mod laws;
mod match_files;
mod reporting;
mod streams;
mod tournaments;

pub use laws::worked_turns;
pub use match_files::parts::{
    is_free, match_of_part, part_name, print_recovered, put_aside, put_earlier_aside,
    turns_part_name,
};
pub use match_files::private_files::private_options;
pub use match_files::replays::{
    file_name, first_status, match_of, put_in_place, read_match, write_replays, write_sealed,
};
pub use match_files::turn_files::{read_part_of_turns, turns_name, turns_of, write_turns};
pub use match_files::turns::{turns_in, turns_text};
pub use reporting::appeal_faults::AppealFault;
pub use reporting::faults::{Fault, report, report_with_cause};
pub use reporting::names::Shown;
pub use reporting::statuses::{
    DONE, FAILED_STREAM, FAILING, NO_MEMORY, NO_THREADS, REFUSED_MATCH, REFUSED_TEXT, REFUSED_WORDS,
};
pub use streams::line_by_line::passed_on;
pub use streams::lines::{LineState, MAX_READS, take_line};
pub use streams::output::{show_made, show_text};
pub use tournaments::built_in_tournament::built_in;
pub use tournaments::check::{check, lineup_of, told_lineup_of};
