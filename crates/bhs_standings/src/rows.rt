//! The row of a team.

use bhs_referee::Verdict;

/// A team with the verdict on its match.
#[derive(Debug, Drop)]
pub struct Row {
    pub team: String,
    pub verdict: Verdict,
}
