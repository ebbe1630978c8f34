//! The command `serve`: a tournament is served to agents that connect, and what came of it is recorded, written and
//! told. A contest that did not come to its end is recovered from its parts.
#![tactic(auto)]

mod console;
mod contest_host;
mod judged;
mod line_files;
mod locked_files;
mod log;
mod log_lines;
mod machines;
mod operator;
mod options;
mod parts;
mod recorder;
mod recover;
mod requests;
mod results;
mod serve;
mod statuses;

pub use console::{Console, ConsoleInput};
pub use contest_host::{ContestFiles, host};
pub use locked_files::Keep;
pub use log::Log;
pub use machines::Machine;
pub use options::{ServeOptions, options_of};
pub use parts::PartFiles;
pub use recover::recover_named;
pub use serve::serve_named;
