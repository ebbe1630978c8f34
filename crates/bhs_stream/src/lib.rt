//! Bytes in and bytes out: a whole text read from a reader, and bytes sent to a writer.
#![tactic(auto)]

mod laws;
mod reader;
mod streams;
mod writer;

pub use laws::{known_faults, known_parts, known_sends, known_texts};
pub use reader::{BUFFER, ReadFault, read_text};
pub use streams::{Input, Output};
pub use writer::{WriteFault, finish, send};
