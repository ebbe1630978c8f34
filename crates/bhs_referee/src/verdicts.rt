//! Verdicts.

/// What came of a match.
#[derive(Clone, Copy, Debug, PartialEq, Eq)]
pub enum Outcome {
    /// The accusations are right and leave nothing out.
    Solved,
    /// The accusations are right, but no agent arrived at this node (the least such node), so the black hole could be
    /// there.
    Guess { node: u16 },
    /// Some agent was at a node when the match closed.
    Unfinished,
    /// Nobody accused, or no accusation names some black hole or dark link.
    Silent,
    /// An accusation names a link that neither is dark nor leads to a black hole.
    Wrong,
}

/// The result of a match that has ended.
#[derive(Clone, Copy, Debug, PartialEq, Eq)]
pub struct Verdict {
    pub outcome: Outcome,
    /// How many Departs were answered Gone.
    pub moves: u32,
    /// How many agents were destroyed.
    pub lost: u16,
}
