//! What agents do.

use bhs_model::{Command, Mark};

/// What an agent does next.
#[derive(Clone, Debug, PartialEq, Eq, Drop)]
pub enum Step {
    /// It says a command.
    Says(Command),
    /// It sleeps until the whiteboard in front of it changes.
    Sleeps,
    /// It does nothing any more, but for arriving.
    Stops,
    /// It has failed: it raised an exception, or it broke a rule.
    Fails,
}

/// What has happened to an agent last: it has woken, or has heard a reply, at an arrival too.
#[derive(Clone, Copy, Debug, PartialEq, Eq)]
pub enum Latest {
    Woke,
    Heard(Mark),
}

/// The number of what an agent's program holds, and what it does next. Where programs hold the same, the numbers are
/// equal.
#[derive(Drop)]
pub struct TeamAnswer {
    pub memory: u32,
    pub step: Step,
}

/// A team does not say what its agents do next.
#[derive(Clone, Copy, Debug, PartialEq, Eq)]
pub struct TeamFault;
