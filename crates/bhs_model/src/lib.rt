//! The model of black hole search that every agent plays under: what an agent may say, what may happen
//! in a match, and what is answered.
#![tactic(auto)]

mod clones;
mod commands;
mod dark_links;
mod destroyers;
mod events;
mod holes;
pub mod laws;
mod limits;
mod marks;
mod port_marks;
mod replies;
mod schedules;
mod setups;
mod small;

pub use bhs_text::Text;
pub use commands::Command;
pub use dark_links::DarkLinks;
pub use destroyers::Destroyers;
pub use events::Event;
pub use holes::Holes;
pub use limits::{
    MAX_AGENTS, MAX_BOARD, MAX_LINE, MAX_QUOTA, MAX_TEXT, MAX_TURNS, SEED_BYTES, SMALL_BOARD,
    SMALL_NODES, SMALL_QUOTA,
};
pub use marks::{Kept, Mark, read, text_at, text_shared};
pub use port_marks::{is_port_marked, make_room, mark_port, no_port_marks};
pub use replies::{Reply, Why};
pub use schedules::{Objective, Scheduler};
pub use setups::Setup;
pub use small::is_small;
