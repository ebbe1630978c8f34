//! The records that shared matches, locked matches and passes share.

use crate::kept_command::KeptCommand;
use bhs_model::{Mark, Reply, Text};

/// Where a heard command stands in the log, and what it was answered.
#[derive(Debug, Drop)]
pub struct Receipt {
    pub place: u32,
    pub reply: Reply,
}

/// A command's reply, with its log place; None for refused commands.
#[derive(Debug, Drop)]
pub struct Answer {
    pub place: Option<u32>,
    pub reply: Reply,
}

/// How many commands of an agent were heard, and whether it has ended.
#[derive(Clone, Copy, Debug)]
pub(crate) struct Tally {
    pub(crate) commands: usize,
    pub(crate) ended: bool,
}

/// What came of a command: its place, the mark that stands for its reply, and the reply.
#[derive(Drop)]
pub(crate) struct Effect {
    pub(crate) place: Option<u32>,
    pub(crate) mark: Mark,
    pub(crate) reply: Reply,
}

/// What is taken from memory before a command is told, so that nothing is taken after it.
#[derive(Drop)]
pub(crate) struct Spare {
    /// The text of the whiteboard that the agent sees, if the reply will speak of it, for the answer.
    pub(crate) text: Text,
    /// The same for the receipt.
    pub(crate) again: Text,
    /// The command's future stored form.
    pub(crate) kept: KeptCommand,
}
