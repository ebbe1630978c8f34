//! The causal past of an agent.

ghost use Rattle.std.specs.Prelude.{◌≡◌, ◌≤◌, ◌^◌, ◌<◌, [], Some, IfOk, length};
ghost use Rattle.bhs_model.specs.Cuts.{footprints, cut};
ghost use Rattle.bhs_model.specs.Marks.{events_of};
ghost use Rattle.bhs_match.specs.Matches.{world_in};
ghost use Rattle.bhs_view.specs.Places.{places_of};
ghost use Rattle.bhs_view.specs.Walks.{footprints_at, AreInRange, AreNeeded};

use crate::entries::{Reading, read, site_at};
use crate::needed::Needed;
use bhs_match::{Sealed, Site};
use bhs_model::Kept;
use bhs_net::Memory;
use std::alloc::Global;

/// Computes an agent's causal past as ascending places: the least closed set of places of the log that contains all
/// places of the agent. Returns None if no agent has this number. Takes one pass over the log, from its end.
pub fn cut_of(alloc: Global, sealed: &Sealed, agent: u16) -> Result<Vec<u32>, Memory>
    ensures cut { IfOk result (λ places. places.items
        ≡ places_of (cut agent (footprints (world_in sealed.now) (events_of sealed.now.log)))) }
    ensures stranger { sealed.now.setup.agents ≤ agent → IfOk result (λ places. places.items ≡ []) }
{
    let (places, _) = cut_and_looks(alloc, sealed, agent)?;
    Ok(places)
}

/// The places of the agent's causal past, and how many places of the log the walk back looked at: each once, and none
/// for a number without an agent.
pub fn cut_and_looks(alloc: Global, sealed: &Sealed, agent: u16) -> Result<(Vec<u32>, u32), Memory>
    ensures cut { IfOk result (λ found. found.0.items
        ≡ places_of (cut agent (footprints (world_in sealed.now) (events_of sealed.now.log)))) }
    ensures stranger { sealed.now.setup.agents ≤ agent → IfOk result (λ found. (found.0.items ≡ []) × (found.1 ≡ 0)) }
    ensures looks { agent < sealed.now.setup.agents → IfOk result (λ found. found.1 ≡ length sealed.now.log) }
{
    let Reading {
        net,
        setup,
        log,
        sites,
    } = read(sealed);
    let nodes = net.nodes();
    if agent >= setup.agents {
        return Ok((Vec::new(alloc), 0));
    }
    let mut needed = Needed::new(alloc, setup.agents, nodes)?;
    needed.add_agent(agent);
    walk_back(alloc, needed, log, sites, agent)
}

// Walks back over a log whose places have these sites, and chooses what is needed. Counts the places that it looks at.
fn walk_back(
    alloc: Global,
    mut needed: Needed,
    log: &[Kept],
    sites: &[Site],
    agent: u16,
) -> Result<(Vec<u32>, u32), Memory>
    requires small { length log.now < 2 ^ 32 }
    requires sites { length sites.now ≡ length log.now }
    requires range { AreInRange (length needed.agents) (length needed.nodes) (footprints_at log.now sites.now) }
    requires needed { AreNeeded needed (Some agent) [] }
    ensures cut { IfOk result (λ found. found.0.items ≡ places_of (cut agent (footprints_at log.now sites.now))) }
    ensures looks { IfOk result (λ found. found.1 ≡ length log.now) }
{
    let mut places = Vec::new(alloc);
    let mut looks = 0;
    for place in (0..log.len()).rev() {
        let kept = &log[place];
        let site = site_at(sites, place);
        looks += 1;
        if needed.has(kept, site) {
            needed.add(kept, site);
            places.push(place as u32)?;
        }
    }
    places.reverse();
    Ok((places, looks))
}
