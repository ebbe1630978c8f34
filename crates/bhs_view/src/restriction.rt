//! A match restricted to some of its events.

ghost use Rattle.std.specs.Prelude.{ℕ, ◌≡◌, ◌<◌, ◌⊎◌, ◌^◌, [], None, Some, IfOk, IfErr, OnOk, length, slice_index_or};
ghost use Rattle.std.specs.Prelude.{nat_eq, false};
ghost use Rattle.std.specs.List.{list_any};
ghost use Rattle.bhs_net.specs.Network.{IsNetwork};
ghost use Rattle.bhs_view.specs.Places.{misplaced};
ghost use Rattle.bhs_view.specs.Restrictions.{unclosed_from, set_in, first_fault, IsRestricted};
ghost use Rattle.bhs_view.specs.Walks.{footprints_at, AreInRange, AreNeeded};
ghost use Rattle.bhs_view.specs.declared.restriction.RestrictFault.TheVariants.{Memory as OutOfMemory};

use crate::entries::{Reading, read, site_at};
use crate::needed::Needed;
use crate::playback::{begun, replay};
use bhs_match::{Sealed, Site};
use bhs_model::Kept;
use bhs_net::Memory;
use std::alloc::Global;
use thiserror::Error;

/// Why places of a log are not played by themselves. The first that holds, in this order, is told.
#[derive(Clone, Copy, Debug, PartialEq, Eq, Error)]
pub enum RestrictFault {
    /// The place at this index does not exceed its predecessor, or lies beyond the log.
    #[error("places at {index}")]
    Places { index: usize },
    /// The list lacks this place, and one of its places needs it; it is the least such place.
    #[error("not closed: {place}")]
    NotClosed { place: u32 },
    /// Memory ran out.
    #[error("memory")]
    Memory,
}

impl From<Memory> for RestrictFault {
    ghost from_gives = { λ _ fault. fault ≡ OutOfMemory };

    fn from(_: Memory) -> RestrictFault {
        RestrictFault::Memory
    }
}

/// Replays the events at a closed set of log places, then a Close. Every event keeps its reply.
pub fn restrict(alloc: Global, sealed: &Sealed, places: &[u32]) -> Result<Sealed, RestrictFault>
    ensures played { IfOk result (λ part. IsRestricted sealed.now places.now part) }
    ensures fit { OnOk result (first_fault sealed.now places.now ≡ None) }
    ensures fault { IfErr result (λ fault. (fault ≡ OutOfMemory) ⊎ (first_fault sealed.now places.now ≡ Some fault)) }
{
    let set = closed_set(alloc, sealed, places)?;
    let setup = sealed.setup().try_clone()?;
    let game = begun(alloc, sealed.net(), setup)?;
    Ok(replay(game, sealed.log(), &set)?)
}

// The places as a set, if they ascend and are closed; otherwise the first fault.
fn closed_set(alloc: Global, sealed: &Sealed, places: &[u32]) -> Result<Vec<bool>, RestrictFault>
    ensures set { IfOk result (λ set. set.items ≡ set_in sealed.now places.now) }
    ensures network { OnOk result (IsNetwork sealed.now.net) }
    ensures fit { OnOk result (first_fault sealed.now places.now ≡ None) }
    ensures fault { IfErr result (λ fault. (fault ≡ OutOfMemory) ⊎ (first_fault sealed.now places.now ≡ Some fault)) }
{
    let Reading {
        net,
        setup,
        log,
        sites,
    } = read(sealed);
    let nodes = net.nodes();
    if let Some(index) = misplaced(places, log.len()) {
        return Err(RestrictFault::Places { index });
    }
    let set = set_of(alloc, places, log.len())?;
    let needed = Needed::new(alloc, setup.agents, nodes)?;
    if let Some(place) = unclosed(needed, log, sites, &set) {
        return Err(RestrictFault::NotClosed { place });
    }
    Ok(set)
}

// Returns the index of the first place that does not exceed its predecessor, or lies beyond the end.
fn misplaced(places: &[u32], count: usize) -> Option<usize>
    ensures { result ≡ misplaced count places.now }
{
    let mut least = 0;
    for index in 0..places.len() {
        let place = places[index] as usize;
        if place < least || place >= count {
            return Some(index);
        }
        least = place + 1;
    }
    None
}

// Returns the places as a set of `count` flags.
fn set_of(alloc: Global, places: &[u32], count: usize) -> Result<Vec<bool>, Memory>
    ensures length { IfOk result (λ set. length set.items ≡ count) }
    ensures marks { IfOk result (λ set. (place : ℕ) → place < count → slice_index_or set.items place false
        ≡ list_any (nat_eq place) places.now) }
{
    let mut set = vec![in alloc; false; count]?;
    for place in places {
        if let Some(mark) = set.get_mut(*place as usize) {
            *mark = true;
        }
    }
    Ok(set)
}

// The least place that the set lacks and that one of its places needs.
fn unclosed(mut needed: Needed, log: &[Kept], sites: &[Site], set: &[bool]) -> Option<u32>
    requires small { length log.now < 2 ^ 32 }
    requires sites { length sites.now ≡ length log.now }
    requires set { length set.now ≡ length log.now }
    requires range { AreInRange (length needed.agents) (length needed.nodes) (footprints_at log.now sites.now) }
    requires needed { AreNeeded needed None [] }
    ensures { result ≡ unclosed_from 0 (footprints_at log.now sites.now) set.now }
{
    let mut least = None;
    for place in (0..log.len()).rev() {
        let kept = &log[place];
        let site = site_at(sites, place);
        if set[place] {
            needed.add(kept, site);
        } else if needed.has(kept, site) {
            least = Some(place as u32);
        }
    }
    least
}
