//! The verdict on a match that has ended.

ghost use Rattle.std.specs.Prelude.{◌≡◌, ℕ};
ghost use Rattle.bhs_model.specs.Runs.{Position};
ghost use Rattle.bhs_referee.specs.Verdicts.{is_unfinished as is_unfinished_at};
ghost use Rattle.bhs_model.specs.Setups.{world_of};
ghost use Rattle.bhs_match.specs.Matches.{state_of};
ghost use Rattle.bhs_referee.specs.Verdicts.{outcome_of, verdict_of};
ghost use Rattle.bhs_referee.specs.Walks.{found_in};

use crate::looks::{first_unreached, is_past_dark, is_silent, is_unfinished, is_wrong, lost};
use crate::verdicts::{Outcome, Verdict};
use crate::walks::{Walk, walked};
use bhs_match::Sealed;
use bhs_model::Setup;
use bhs_net::Net;

/// The verdict on a match that has ended. Takes no memory, and one pass over the log.
pub fn judge(sealed: &Sealed) -> Verdict
    ensures { result ≡ verdict_of sealed.now }
{
    let net = sealed.net();
    let setup = sealed.setup();
    // A network says how many nodes it has: no more than the walk has places for.
    let _nodes = net.nodes();
    let walk = walked(sealed.log(), sealed.sites());
    Verdict {
        outcome: outcome(net, setup, sealed, &walk),
        moves: walk.moves,
        lost: lost(setup, sealed),
    }
}

// The outcome that a walk over the whole log leads to.
fn outcome(net: &Net, setup: &Setup, sealed: &Sealed, walk: &Walk) -> Outcome
    ensures { result ≡ outcome_of (world_of net.now setup.now) (state_of sealed.now).position (found_in walk.now) }
{
    outcome_by(net, setup, is_unfinished(net, setup, sealed), walk)
}

/// Computes the outcome from the findings, and from whether some agent stands at a node.
pub fn outcome_by(net: &Net, setup: &Setup, is_unfinished: bool, walk: &Walk) -> Outcome
    ensures { (position : ℕ → Position) → is_unfinished ≡ is_unfinished_at (world_of net.now setup.now) position
        → result ≡ outcome_of (world_of net.now setup.now) position (found_in walk.now) }
{
    if is_wrong(net, setup, walk) {
        return Outcome::Wrong;
    }
    if is_silent(net, setup, walk) {
        return Outcome::Silent;
    }
    if is_unfinished {
        return Outcome::Unfinished;
    }
    if !is_past_dark(net, setup, walk) {
        return Outcome::Solved;
    }
    match first_unreached(net, setup, walk) {
        Some(node) => Outcome::Guess { node },
        None => Outcome::Solved,
    }
}
