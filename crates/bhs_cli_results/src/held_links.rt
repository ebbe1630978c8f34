//! Whether a delivery of a match went over a held link.

ghost use Rattle.std.specs.Prelude.{◌≡◌, IfOk, length};
ghost use Rattle.bhs_cli_results.specs.HeldLinks.{first_held, goes_over_held, held_from, links_after};

use bhs_deliveries::Held;
use bhs_match::{Sealed, Site};
use bhs_model::{Command, Event, Kept};
use bhs_net::Memory;
use std::alloc::Global;

// A node and the port by which it was left, once an agent has departed.
type Left = Option<(u16, u16)>;

/// The place of the first delivery of a match that went over a held link. None if none did.
pub(crate) fn first_held(
    alloc: Global,
    sealed: &Sealed,
    held: &Held,
) -> Result<Option<usize>, Memory>
    ensures { IfOk result (λ place. place ≡ first_held held.now sealed.now) }
{
    let mut links = Vec::from_elem(alloc, None, usize::from(sealed.setup().agents))?;
    Ok(first_by(held, &mut links, sealed.log(), sealed.sites()))
}

// The first place of a delivery over a held link; `links` has the links of the departures before it.
fn first_by(held: &Held, links: &mut [Left], log: &[Kept], sites: &[Site]) -> Option<usize>
    requires { length sites.now ≡ length log.now }
    ensures { result ≡ held_from held.now links.old 0 log.now sites.now }
{
    for place in 0..log.len() {
        let event = &log[place].event;
        if goes_over_held(held, links, event) {
            return Some(place);
        }
        note(links, event, sites[place].node());
    }
    None
}

// Whether an event is a delivery over a held link.
fn goes_over_held(held: &Held, links: &[Left], event: &Event) -> bool
    ensures { result ≡ goes_over_held held.now links.now event.now }
{
    let Event::Deliver { agent } = event else {
        return false;
    };
    match links.get(usize::from(*agent)) {
        Some(Some((node, port))) => held.has(*node, *port),
        _ => false,
    }
}

// Notes the link of a departure.
#[tactic(auto, using(std::proofs::lemmas::List::set_past))]
fn note(links: &mut [Left], event: &Event, site: Option<u16>)
    ensures { links.new ≡ links_after links.old event.now site }
{
    if let (
        Event::Tell {
            agent,
            command: Command::Depart { port },
        },
        Some(node),
    ) = (event, site)
    {
        if usize::from(*agent) < links.len() {
            links[usize::from(*agent)] = Some((node, *port));
        }
    }
}
