//! A match: its log, and data derived from the log, such as the news of each agent and the pool of agents on links.
#![tactic(auto)]

mod answers;
mod arenas;
mod games;
pub mod laws;
mod news;
mod pools;
mod seals;
mod sites;
mod texts;

pub use answers::Answer;
pub use arenas::{Arena, ArenaFault};
pub use games::Match;
pub use pools::Bound;
pub use seals::Sealed;
pub use sites::Site;
