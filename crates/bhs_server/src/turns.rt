//! The turns of a match.

ghost use Rattle.std.specs.Prelude.{ℕ, ◌≡◌, ◌<◌, ◌-◌, ◌^◌, IsTrue, false};
ghost use Rattle.bhs_server.specs.Dealing.{moved_by, MayClose};

use crate::pace::{Pace, PaceStep};
use bhs_deliveries::Dealer;
use bhs_shared_match::SharedMatch;
use std::sync::Wait;
use std::time::{Clock, Duration, Instant};
use std::{io, thread};

// How many milliseconds pass between two looks at whether all agents have entered.
const EVERY: u32 = 5;

/// Waits until all agents of a match have entered, the pace says that it waits no more, or `most` milliseconds have
/// passed.
pub(crate) fn gather<R: Wait + Clock, P: Pace>(
    rt: &R,
    pace: &P,
    game: u32,
    shared_match: &SharedMatch,
    most: u32,
) {
    let begin = Instant::now(rt);
    for _ in 0..most / EVERY {
        if !pace.gathers(game) || shared_match.is_gathered(rt) || has_passed(rt, &begin, most) {
            return;
        }
        thread::sleep(rt, Duration::from_millis(u64::from(EVERY)));
    }
}

// Whether this many milliseconds have passed. A sleep may take longer than it is asked to.
fn has_passed<R: Clock>(rt: &R, begin: &io::Result<Instant>, most: u32) -> bool {
    let Ok(begin) = begin else {
        return false;
    };
    match begin.elapsed(rt) {
        Ok(passed) => passed >= Duration::from_millis(u64::from(most)),
        Err(_) => false,
    }
}

/// Takes the turns of a match until the pace says that it is to be closed, or `u32::MAX` turns are taken, and closes
/// it; with `early`, also once each agent has ended or is lost. Answers how many turns were taken: each uses the
/// dealer's next word.
pub fn deal<R: Wait, P: Pace>(
    rt: &R,
    pace: &P,
    early: bool,
    game: u32,
    shared_match: &SharedMatch,
    dealer: &mut Dealer,
) -> u32
    ensures words { dealer.new ≡ moved_by result dealer.old }
    ensures paced { (turn : ℕ) → turn < result → P.says pace.now game turn PaceStep.Turn }
    ensures closes { MayClose (P.says pace.now game result PaceStep.Close) early shared_match.now result }
{
    let mut turns = 0;
    while goes_on(rt, pace, early, game, shared_match, turns) {
        shared_match.turn(rt, dealer);
        turns += 1;
    }
    shared_match.close(rt);
    turns
}

// Whether a match takes another turn after these.
fn goes_on<R: Wait, P: Pace>(
    rt: &R,
    pace: &P,
    early: bool,
    game: u32,
    shared_match: &SharedMatch,
    turns: u32,
) -> bool
    ensures paced { IsTrue result → P.says pace.now game turns PaceStep.Turn }
    ensures more { IsTrue result → turns < 2 ^ 32 - 1 }
    ensures closes { result ≡ false → MayClose (P.says pace.now game turns PaceStep.Close) early shared_match.now
        turns }
{
    if turns == u32::MAX || (early && shared_match.is_decided(rt)) {
        return false;
    }
    match pace.next(game, turns) {
        PaceStep::Turn => true,
        PaceStep::Close => false,
    }
}
