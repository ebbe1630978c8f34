//! Settling the matches of a contest once its sessions have ended.

ghost use Rattle.std.specs.Prelude.{◌≡◌, IfOk, MatchOption, length, map, option_map, slice_get};
ghost use Rattle.bhs_server.specs.Settling.{HasFared, HaveFared, IsAstray, IsTimely, at_start};
ghost use Rattle.bhs_server.specs.Settling.{AreSettledBy, IsSettledBy, others_than, passes_in, sessions_on};

use crate::sessions::Session;
use bhs_deliveries::{Dealer, Schedule, Untimely, first_untimely};
use bhs_net::Memory;
use bhs_session::Ended;
use bhs_shared_match::{Pass, Settlement, SharedMatch, settle};
use bhs_time::ScheduleKind;
use std::alloc::Global;

/// Reasons why a match has no result.
#[derive(Debug, Drop)]
pub enum Refused {
    /// The match disagrees with the passes of its sessions.
    Unsettled(bhs_shared_match::Unsettled),
    /// It settles, and with its turn the event at this place of the log belongs to no timed execution.
    Untimely {
        settlement: Settlement,
        place: usize,
        why: Untimely,
    },
}

/// A match's result: the match as answered to its sessions, with turns, or the reason for having none.
pub type Settled = Result<Settlement, Refused>;

/// How the sessions on matches below this number ended, in order.
#[tactic(auto, unfolding(crate::specs::Settling::sessions_on))]
pub(crate) fn endings(
    alloc: Global,
    matches: usize,
    sessions: &[Session],
) -> Result<Vec<Ended>, Memory>
    ensures { IfOk result (λ ended. ended.items
        ≡ map (λ session. session.ended) (sessions_on matches sessions.now)) }
{
    sessions
        .iter()
        .filter(|session| (session.played.game as usize) < matches)
        .map(|session| session.ended)
        .collect(alloc)
}

// Separates the passes of the sessions on the match with this number from the other sessions.
fn parted(
    alloc: Global,
    number: usize,
    sessions: Vec<Session>,
) -> Result<(Vec<Pass>, Vec<Session>), Memory>
    ensures own { IfOk result (λ parts. parts.0.items ≡ passes_in number sessions.items) }
    ensures others { IfOk result (λ parts. parts.1.items ≡ others_than number sessions.items) }
{
    let mut own = Vec::new(alloc);
    let mut others = Vec::with_capacity(alloc, sessions.len())?;
    for session in sessions {
        let is_own = session.played.game as usize == number;
        if is_own {
            own.push(session.played.pass)?;
        } else {
            others.push(session)?;
        }
    }
    Ok((own, others))
}

/// Settles each shared match, in order, with the passes of its sessions and the dealer of its number.
pub(crate) fn settle_all(
    alloc: Global,
    shared_matches: Vec<SharedMatch>,
    dealers: &[Dealer],
    sessions: Vec<Session>,
) -> Result<Vec<Settled>, Memory>
    ensures fared { IfOk result (λ settled. HaveFared shared_matches.items dealers.now settled.items) }
    ensures passes { IfOk result (λ settled. AreSettledBy 0 shared_matches.items sessions.items settled.items) }
{
    let mut settled = Vec::with_capacity(alloc, shared_matches.len())?;
    let mut left = sessions;
    for shared_match in shared_matches {
        let number = settled.len();
        let (own, others) = parted(alloc, number, left)?;
        left = others;
        let dealer = copy_at(dealers, number);
        settled.push(settled_by(alloc, shared_match, dealer, own)?)?;
    }
    Ok(settled)
}

// Returns a copy of the dealer with this number in its initial state, if there is one.
fn copy_at(dealers: &[Dealer], number: usize) -> Option<Dealer>
    ensures { result ≡ option_map at_start (slice_get dealers.now number) }
{
    if number < dealers.len() {
        Some(dealers[number].at(0))
    } else {
        None
    }
}

// What came of a match whose turns were by this dealer.
fn settled_by(
    alloc: Global,
    shared_match: SharedMatch,
    dealer: Option<Dealer>,
    passes: Vec<Pass>,
) -> Result<Settled, Memory>
    ensures fared { IfOk result (HasFared shared_match dealer) }
    ensures passes { IfOk result (IsSettledBy shared_match passes.items) }
{
    let schedule = shared_match.schedule();
    let settlement = match settle(shared_match, passes) {
        Ok(settlement) => settlement,
        Err(unsettled) => return Ok(Err(Refused::Unsettled(unsettled))),
    };
    match astray(alloc, schedule, dealer, &settlement)? {
        Some((place, why)) => Ok(Err(Refused::Untimely {
            settlement,
            place,
            why,
        })),
        None => Ok(Ok(settlement)),
    }
}

// The first event of a match that belongs to no timed execution.
fn astray(
    alloc: Global,
    schedule: ScheduleKind,
    dealer: Option<Dealer>,
    settlement: &Settlement,
) -> Result<Option<(usize, Untimely)>, Memory>
    requires { length settlement.now.turns.items ≡ length settlement.now.sealed.log }
    ensures { IfOk result (λ found. MatchOption found
        (IsTimely schedule dealer settlement.now.held settlement.now.sealed settlement.now.turns.items)
        (λ at. IsAstray schedule dealer settlement.now.held settlement.now.sealed settlement.now.turns.items
        at.0 at.1)) }
{
    let Some(dealer) = dealer else {
        return Ok(None);
    };
    match schedule {
        ScheduleKind::Adaptive => Ok(None),
        ScheduleKind::Oblivious(delays) => first_untimely(
            alloc,
            &settlement.sealed,
            &settlement.turns,
            &Schedule {
                dealer: &dealer,
                delays,
                held: &settlement.held,
            },
        ),
    }
}

/// Dealers of the same seeds and streams, each at its start.
pub(crate) fn again(alloc: Global, dealers: &[Dealer]) -> Result<Vec<Dealer>, Memory>
    ensures { IfOk result (λ copies. copies.items ≡ map at_start dealers.now) }
{
    let mut copies = Vec::with_capacity(alloc, dealers.len())?;
    for dealer in dealers {
        copies.push(dealer.at(0))?;
    }
    Ok(copies)
}
