//! Checks that what is counted of drawn schedules goes with the one that is told.

ghost use Rattle.std.specs.Prelude.{◌≡◌, IsTrue, false};
ghost use Rattle.bhs_explore.specs.Counting.{AreUpTo, GoesWith, IsWorst, is_excess, is_failure};

use crate::sampler::{SampleRequest, SampleResult};
use bhs_model::Objective;
use bhs_schedules::Finding;

/// Whether each schedule was counted, one is told that fails exactly if some failed, and else the worst is told. An
/// agent that wants more commands than its quota ends the drawing, so then nothing is asked.
pub(crate) fn goes_with(sample: &SampleResult, request: SampleRequest) -> bool
    ensures { IsTrue result → is_excess sample.now.found ≡ false → GoesWith request sample.now }
{
    if is_excess(&sample.found) {
        return true;
    }
    if u64::from(sample.solved) + u64::from(sample.failed) != u64::from(request.schedules) {
        return false;
    }
    if is_failure(&sample.found) != (sample.failed > 0) {
        return false;
    }
    is_worst(
        request.objective,
        &sample.found,
        &sample.moves,
        &sample.lost,
    )
}

// Whether a schedule is told that fails, or under which an agent fails.
fn is_failure(found: &Finding) -> bool
    ensures { result ≡ is_failure found.now }
{
    matches!(found, Finding::Fails { .. } | Finding::Breaks { .. })
}

// Whether an agent is told that may want more commands than its quota.
fn is_excess(found: &Finding) -> bool
    ensures { result ≡ is_excess found.now }
{
    matches!(found, Finding::Exceeds { .. })
}

// Returns whether no counted schedule is worse than a reported schedule that is solved.
fn is_worst(
    objective: Option<Objective>,
    found: &Finding,
    moves: &[(u32, u32)],
    lost: &[(u32, u32)],
) -> bool
    ensures { IsTrue result → IsWorst objective found.now moves.now lost.now }
{
    let Finding::Comes { verdict, .. } = found else {
        return true;
    };
    match objective {
        Some(Objective::Lost) => are_up_to(u32::from(verdict.lost), lost),
        Some(Objective::Moves) => are_up_to(verdict.moves, moves),
        None => are_up_to(verdict.moves, moves),
    }
}

// Whether no number of these pairs is larger.
fn are_up_to(most: u32, pairs: &[(u32, u32)]) -> bool
    ensures { IsTrue result → AreUpTo most pairs.now }
{
    for pair in pairs {
        if pair.0 > most {
            return false;
        }
    }
    true
}
