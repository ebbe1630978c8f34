//! What a line of a script means.

use crate::instructions::Instruction;

/// What a line of a script means.
#[derive(Drop)]
pub enum Meaning<'s> {
    /// It is skipped.
    Skipped,
    /// It gives this instruction.
    Gives(Instruction<'s>),
    /// The line is invalid.
    Refused,
}
