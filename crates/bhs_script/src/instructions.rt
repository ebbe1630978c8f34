//! The instructions of a script.

use std::borrow::CowSlice;

/// How many connections the program's rehearsal has.
pub const CONNECTIONS: u16 = 256;

/// How many numbers an agent may have in a script.
pub(crate) const AGENTS: usize = 65_536;

/// An instruction: the meaning of a line of a script.
#[derive(Drop)]
pub enum Instruction<'s> {
    /// Feeds these bytes to a connection: those of a line and its line feed as they stand in the script.
    Feed { conn: u16, bytes: CowSlice<'s, u8> },
    /// Ends the input of a connection.
    End { conn: u16 },
    /// Draws a delivery in a match by a word.
    Draw { game: u32, word: u32 },
    /// Delivers an agent of a match, unless its link is held.
    Deliver { game: u32, agent: u16 },
    /// Ends a match.
    Close { game: u32 },
}
