//! The verdict on a match that stands under its lock.

use bhs_match::Match;
use bhs_model::Event;
use bhs_net::Memory;
use bhs_referee::{Verdict, judge};
use bhs_shared_match::SharedMatch;
use std::alloc::Global;
use std::sync::Wait;

/// How many events of a match are copied under its lock at once.
pub(crate) const FEW: usize = 64;

/// How often events of a match are copied at one look, which are more than a match can have: each agent's commands,
/// as many arrivals, and the close.
pub(crate) const TIMES: usize = 131_073;

/// Returns the number of events of a match and its verdict, or None while the match is open. Judges a copy, so that the
/// lock is held only while a few events are copied.
pub(crate) fn judged<R: Wait>(
    rt: &R,
    alloc: Global,
    shared_match: &SharedMatch,
) -> Result<Option<(usize, Verdict)>, Memory> {
    let copy = copied(rt, alloc, shared_match)?;
    let events = copy.log().len();
    Ok(copy.sealed().ok().map(|sealed| (events, judge(&sealed))))
}

/// The verdict on a match if it were closed now, on a copy as well.
pub(crate) fn judged_now<R: Wait>(
    rt: &R,
    alloc: Global,
    shared_match: &SharedMatch,
) -> Result<Verdict, Memory> {
    let mut copy = copied(rt, alloc, shared_match)?;
    copy.apply(Event::Close);
    match copy.sealed() {
        Ok(sealed) => Ok(judge(&sealed)),
        Err(_) => Err(Memory),
    }
}

// Returns a copy of a shared match. Holds the lock only while copying a few events at a time.
fn copied<R: Wait>(rt: &R, alloc: Global, shared_match: &SharedMatch) -> Result<Match, Memory> {
    let mut copy = blank(alloc, shared_match)?;
    for _ in 0..TIMES {
        let found = shared_match.copies(rt, alloc, copy.log().len(), FEW)?;
        if found.is_empty() {
            break;
        }
        for one in found {
            copy.apply(one.event);
        }
    }
    Ok(copy)
}

// Returns a match with a shared match's network and setup, and an empty log.
fn blank(alloc: Global, shared_match: &SharedMatch) -> Result<Match, Memory> {
    let net = shared_match.net().try_clone(alloc)?;
    let setup = shared_match.setup().try_clone()?;
    match Match::new(alloc, net, setup) {
        Ok(blank) => Ok(blank),
        Err(_) => Err(Memory),
    }
}
