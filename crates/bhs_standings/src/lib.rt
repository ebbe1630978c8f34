//! Tables of verdicts: who comes first, and the text; and verdicts that threads show each other, each at most once.
#![tactic(auto)]

mod notes;
mod ranks;
mod rows;
mod showcase;
mod text;

pub use notes::ShowNote;
pub use ranks::rank;
pub use rows::Row;
pub use showcase::{Show, Showcase};
pub use text::{outcome_text, table};
