//! The answer of a match to an event.

use bhs_model::Mark;

/// What came of an event.
#[derive(Clone, Copy, Debug, PartialEq, Eq)]
pub struct Answer {
    /// The event's place in the log, or None for a dropped event.
    pub place: Option<u32>,
    /// The reply, to be read in the log; None if nobody is answered.
    pub mark: Option<Mark>,
}
