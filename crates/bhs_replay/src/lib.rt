//! Replays: a match that has ended as a text that anyone can read again.
#![tactic(auto)]

mod beginnings;
mod event_reader;
mod events;
mod faults;
mod first_line;
mod head_parts;
mod heads;
mod laws;
mod lines;
mod links;
mod read;
mod reader;
mod sights;
mod steps;
mod writer;

pub use event_reader::reply_in;
pub use events::each_event_is_typed;
pub use faults::{ReplayFault, WritingFault};
pub use heads::{Version, head_of};
pub use laws::{
    a_match_has_ended, every_replay_is_read, fronts_are_parts, one_reading, one_spelling,
    only_replays_are_read,
};
pub use lines::{event_line, line_of};
pub use read::{read_part, read_replay};
pub use writer::{write_part, write_replay};
