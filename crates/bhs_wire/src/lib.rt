//! The lines that clients send and get: what a line says, and the line of each reply.
#![tactic(auto)]

mod commands;
mod denials;
mod kinds;
mod laws;
mod lent;
mod numbers;
mod pieces;
mod plain_writes;
mod replies;
mod said;
mod short_lines;
mod streams;
mod tokens;

pub use commands::{First, LineReader};
pub use denials::{Denial, denial_of};
pub use kinds::{LineKind, kind_of};
pub use laws::{any_pieces, held_is_enough, line_by_line, one_meaning};
pub use lent::LentReply;
pub use pieces::{Raw, split_line, whole_line};
pub use replies::{push_line, word_of};
pub use streams::Lines;
pub use tokens::{write_number, write_text};
