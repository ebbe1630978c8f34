//! The dispatch of the program: it parses its words and runs the command.
#![tactic(auto)]

mod orders;
mod words;

pub use orders::run;
pub use words::words_of;
