//! The command `rehearse`: the matches of a tournament are played by a script, which is read as a whole or as it comes.
#![tactic(auto)]

mod interactive;
mod laws;
mod play;
mod whole_interactive;
mod whole_rehearsals;
mod whole_script;

pub use interactive::rehearse_interactively;
pub use laws::{answers_are_transcripts, known_answers};
pub use whole_interactive::rehearse_interactively_named;
pub use whole_rehearsals::rehearse_named;
pub use whole_script::rehearse;
