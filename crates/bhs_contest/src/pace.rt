//! The pace of the turns.

ghost use Rattle.std.specs.Prelude.{◌≡◌};
ghost use Rattle.bhs_contest.specs.Pacing.{MayStep, step_after};

use crate::progress::Progress;
use bhs_server::{Pace, PaceStep};
use std::marker::Model;
use std::sync::Wait;
use std::time::{Clock, Duration};

/// Takes this many turns in each match, and pauses before each. A match that is called off takes no more.
#[derive(Drop)]
pub struct Steady<'a, R> {
    rt: &'a R,
    progress: &'a Progress,
    turns: u32,
    pause: u32,
}

// Contracts see it as how many turns it takes, and how many milliseconds it pauses before each.
impl<'a, R> Model for Steady<'a, R> {
    ghost use Rattle.bhs_contest.specs.Pacing.{Beat};

    ghost Value = { Beat };

    ghost view = { λ steady. record { turns = steady.turns; pause = steady.pause } };
}

impl<'a, R> Steady<'a, R> {
    /// Takes this number of turns in each match, and pauses before each for this number of milliseconds. It notes how
    /// far the matches are, and closes those that are called off.
    pub fn new(rt: &'a R, progress: &'a Progress, turns: u32, pause: u32) -> Steady<'a, R>
        ensures { result ≡ record { turns = turns; pause = pause } }
    {
        Steady {
            rt,
            progress,
            turns,
            pause,
        }
    }
}

impl<R: Wait + Clock> Pace for Steady<'_, R> {
    ghost says = { λ steady game turn step. MayStep steady.turns turn step };

    fn next(&self, game: u32, turn: u32) -> PaceStep {
        let step = step_after(self.turns, turn);
        let pause = Duration::from_millis(u64::from(self.pause));
        if step == PaceStep::Turn && !self.progress.pause(self.rt, game, turn, pause) {
            return PaceStep::Close;
        }
        step
    }

    fn gathers(&self, game: u32) -> bool {
        self.progress.is_on(self.rt, game)
    }
}

// What comes after a turn, if a match has this number of turns.
fn step_after(turns: u32, turn: u32) -> PaceStep
    ensures { result ≡ step_after turns turn }
{
    if turn < turns {
        PaceStep::Turn
    } else {
        PaceStep::Close
    }
}
