//! The agents in a contest's matches, and the state of the matches.

use bhs_net::Memory;
use bhs_referee::Verdict;
use bhs_shared_match::SharedMatch;
use bhs_standings::Showcase;
use std::alloc::Global;
use std::sync::{Mutex, Wait};

/// The data of a match beside its events.
#[derive(Clone, Drop)]
pub(crate) struct MatchStatus {
    /// The agents that have not entered, in order.
    pub(crate) missing: Vec<u16>,
    /// The number of turns at its close; None while the match is open.
    pub(crate) closed: Option<u32>,
}

/// The data of a contest's matches, by number.
#[derive(Drop)]
pub(crate) struct MatchStatuses {
    all: Mutex<Vec<MatchStatus>>,
    /// The verdicts on closed matches.
    verdicts: Showcase,
}

impl MatchStatuses {
    /// Of matches that are open, none of whose agents has entered.
    pub(crate) fn new(
        alloc: Global,
        shared_matches: &[SharedMatch],
    ) -> Result<MatchStatuses, Memory> {
        let mut all = Vec::with_capacity(alloc, shared_matches.len())?;
        for shared_match in shared_matches {
            all.push(MatchStatus {
                missing: agents_of(alloc, shared_match)?,
                closed: None,
            })?;
        }
        let games = u32::try_from(shared_matches.len()).unwrap_or(u32::MAX);
        Ok(MatchStatuses {
            all: Mutex::new(all),
            verdicts: Showcase::new(alloc, games)?,
        })
    }

    /// An agent of a match has entered.
    pub(crate) fn entered<R: Wait>(&self, rt: &R, game: u32, agent: u16) {
        if let Some(standing) = self.all.lock(rt).get_mut(game as usize) {
            standing.missing.retain(|missing| *missing != agent);
        }
    }

    /// A match was closed after this number of turns.
    pub(crate) fn closed<R: Wait>(&self, rt: &R, game: u32, turns: u32) {
        if let Some(standing) = self.all.lock(rt).get_mut(game as usize) {
            standing.closed = Some(turns);
        }
    }

    /// Shows the verdict on a closed match, unless memory runs out.
    pub(crate) fn show(&self, game: u32, verdict: Verdict) {
        if let Some(mut note) = self.verdicts.note(game) {
            let _shown = self.verdicts.show(game, verdict, &mut note);
        }
    }

    /// Returns the verdict that is shown on a match, if any.
    pub(crate) fn verdict(&self, game: u32) -> Option<Verdict> {
        let mut note = self.verdicts.note(game)?;
        self.verdicts.shown(game, &mut note)
    }

    /// A copy of what is known now.
    pub(crate) fn copied<R: Wait>(&self, rt: &R) -> Result<Vec<MatchStatus>, Memory> {
        self.all.lock(rt).clone()
    }
}

// The agents of a match.
fn agents_of(alloc: Global, shared_match: &SharedMatch) -> Result<Vec<u16>, Memory> {
    let agents = shared_match.setup().agents;
    let mut all = Vec::with_capacity(alloc, usize::from(agents))?;
    for agent in 0..agents {
        all.push(agent)?;
    }
    Ok(all)
}
