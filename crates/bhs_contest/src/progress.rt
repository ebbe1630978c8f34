//! How far the matches of a contest are, and which of them take no more turns because the operator closes them.

use bhs_net::Memory;
use std::alloc::Global;
use std::sync::{Condvar, Mutex, Wait};
use std::thread;
use std::time::{Clock, Duration};

// How far a match is.
#[derive(Clone, Copy)]
struct MatchProgress {
    /// How many turns it has taken.
    turns: u32,
    /// Whether the match takes no more turns.
    is_called_off: bool,
}

// A match, as those see it who pace and close it.
#[derive(Drop)]
struct PacedMatch {
    progress: Mutex<MatchProgress>,
    changed: Condvar,
}

impl PacedMatch {
    // Has the match take no more turns. Returns whether the match might have taken more turns.
    fn call_off<R: Wait>(&self, rt: &R) -> bool {
        let mut progress = self.progress.lock(rt);
        let was_on = !progress.is_called_off;
        progress.is_called_off = true;
        self.changed.notify_all();
        was_on
    }
}

/// How far the matches of a contest are, by their numbers. A match that is called off takes no more turns, and waits
/// for none of its agents: its dealer closes it as after its last turn.
#[derive(Drop)]
pub struct Progress {
    matches: Vec<PacedMatch>,
}

impl Progress {
    /// The progress of this many matches, none of which has taken a turn or was called off.
    pub fn new(alloc: Global, count: usize) -> Result<Progress, Memory> {
        let mut matches = Vec::with_capacity(alloc, count)?;
        for _ in 0..count {
            matches.push(PacedMatch {
                progress: Mutex::new(MatchProgress {
                    turns: 0,
                    is_called_off: false,
                }),
                changed: Condvar::new(),
            })?;
        }
        Ok(Progress { matches })
    }

    /// Calls off the match with this number. Returns whether the call changed anything: the match exists and was not
    /// called off earlier.
    pub fn call_off<R: Wait>(&self, rt: &R, game: u32) -> bool {
        match self.matches.get(game as usize) {
            Some(paced) => paced.call_off(rt),
            None => false,
        }
    }

    /// Calls off all matches. Returns whether the call changed anything.
    pub fn call_all_off<R: Wait>(&self, rt: &R) -> bool {
        let mut were_on = false;
        for paced in &self.matches {
            were_on = paced.call_off(rt) || were_on;
        }
        were_on
    }

    /// How many turns the match of this number has taken.
    pub fn turns<R: Wait>(&self, rt: &R, game: usize) -> u32 {
        match self.matches.get(game) {
            Some(paced) => paced.progress.lock(rt).turns,
            None => 0,
        }
    }

    // Whether the match of this number may take turns.
    pub(crate) fn is_on<R: Wait>(&self, rt: &R, game: u32) -> bool {
        match self.matches.get(game as usize) {
            Some(paced) => !paced.progress.lock(rt).is_called_off,
            None => true,
        }
    }

    // Notes that a match has taken this number of turns, and pauses before the next one. Returns whether the match may
    // take this turn.
    pub(crate) fn pause<R: Wait + Clock>(
        &self,
        rt: &R,
        game: u32,
        turns: u32,
        pause: Duration,
    ) -> bool {
        let Some(paced) = self.matches.get(game as usize) else {
            return true;
        };
        let mut progress = paced.progress.lock(rt);
        progress.turns = turns;
        if pause.is_zero() {
            let goes_on = !progress.is_called_off;
            drop(progress);
            // between two turns the agents may have the processor
            thread::yield_now();
            return goes_on;
        }
        let progress = paced
            .changed
            .wait_timeout_while(rt, progress, pause, |progress| !progress.is_called_off)
            .0;
        !progress.is_called_off
    }
}
