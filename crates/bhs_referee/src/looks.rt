//! What a match that has ended says, and a walk over its log.

ghost use Rattle.std.specs.Prelude.{◌≡◌, not, true, count_by};
ghost use Rattle.std.specs.List.{range_with_len, list_any};
ghost use Rattle.bhs_model.specs.Setups.{world_of};
ghost use Rattle.bhs_referee.specs.Verdicts.{accuses, is_right, is_over_dark, is_hole_accused, is_dark_accused};
ghost use Rattle.bhs_referee.specs.Verdicts.{is_silent, is_unfinished, is_unreached, first_unreached};
ghost use Rattle.bhs_model.specs.Kept.{lost};
ghost use Rattle.bhs_model.specs.Marks.{events_of};
ghost use Rattle.bhs_match.specs.Matches.{world_in, state_of};
ghost use Rattle.bhs_referee.specs.Walks.{found_in};

use crate::links::{is_dark, is_right, is_same_link};
use crate::walks::Walk;
use bhs_match::Sealed;
use bhs_model::Setup;
use bhs_net::Net;
use bhs_state::Standing;

/// Whether some accusation is wrong.
pub(crate) fn is_wrong(net: &Net, setup: &Setup, walk: &Walk) -> bool
    ensures { result ≡ accuses (world_of net.now setup.now) (found_in walk.now)
        (λ link. not (is_right (world_of net.now setup.now) link)) }
{
    (0..setup.agents).any(|agent| match walk.accused(agent) {
        Some(link) => !is_right(net, setup, link),
        None => false,
    })
}

// Whether some agent accused.
fn accuses(net: &Net, setup: &Setup, walk: &Walk) -> bool
    ensures { result ≡ accuses (world_of net.now setup.now) (found_in walk.now) (λ link. true) }
{
    (0..setup.agents).any(|agent| walk.accused(agent).is_some())
}

// Whether some accusation's link leads to this black hole.
fn is_hole_accused(net: &Net, setup: &Setup, walk: &Walk, hole: u16) -> bool
    ensures { result ≡ is_hole_accused (world_of net.now setup.now) (found_in walk.now) hole }
{
    (0..setup.agents).any(|agent| match walk.accused(agent) {
        Some(link) => hole == net.far_end(link).0,
        None => false,
    })
}

// Whether some accusation goes over this dark link.
fn is_dark_accused(net: &Net, setup: &Setup, walk: &Walk, end: (u16, u16)) -> bool
    ensures { result ≡ is_dark_accused (world_of net.now setup.now) (found_in walk.now) end }
{
    (0..setup.agents).any(|agent| match walk.accused(agent) {
        Some(link) => is_same_link(net, setup, link, end),
        None => false,
    })
}

// Whether some black hole was not accused.
fn leaves_hole(net: &Net, setup: &Setup, walk: &Walk) -> bool
    ensures { result ≡ list_any (λ hole. not (is_hole_accused (world_of net.now setup.now) (found_in walk.now) hole))
        setup.now.holes }
{
    setup
        .holes
        .nodes()
        .iter()
        .any(|hole| !is_hole_accused(net, setup, walk, *hole))
}

// Whether some dark link was not accused.
fn leaves_link(net: &Net, setup: &Setup, walk: &Walk) -> bool
    ensures { result ≡ list_any (λ end. not (is_dark_accused (world_of net.now setup.now) (found_in walk.now) end))
        setup.now.dark }
{
    setup
        .dark
        .ends()
        .iter()
        .any(|end| !is_dark_accused(net, setup, walk, *end))
}

/// Whether nobody accused, or a black hole or a dark link was not accused.
pub(crate) fn is_silent(net: &Net, setup: &Setup, walk: &Walk) -> bool
    ensures { result ≡ is_silent (world_of net.now setup.now) (found_in walk.now) }
{
    !accuses(net, setup, walk) || leaves_hole(net, setup, walk) || leaves_link(net, setup, walk)
}

/// Returns whether some agent stands at a node.
pub(crate) fn is_unfinished(net: &Net, setup: &Setup, sealed: &Sealed) -> bool
    ensures { result ≡ is_unfinished (world_of net.now setup.now) (state_of sealed.now).position }
{
    (0..setup.agents).any(|agent| matches!(sealed.standing(agent), Standing::Present { .. }))
}

/// Whether some accusation's link is not dark.
pub(crate) fn is_past_dark(net: &Net, setup: &Setup, walk: &Walk) -> bool
    ensures { result ≡ accuses (world_of net.now setup.now) (found_in walk.now)
        (λ link. not (is_over_dark (world_of net.now setup.now) link)) }
{
    (0..setup.agents).any(|agent| match walk.accused(agent) {
        Some(link) => !is_dark(net, setup, link),
        None => false,
    })
}

// Whether no agent arrived at a node that is neither the home base nor a black hole.
fn is_unreached(net: &Net, setup: &Setup, walk: &Walk, node: u16) -> bool
    ensures { result ≡ is_unreached (world_of net.now setup.now) (found_in walk.now) node }
{
    node != setup.home && !setup.holes.contains(node) && !walk.is_reached(node)
}

/// The least such node.
pub(crate) fn first_unreached(net: &Net, setup: &Setup, walk: &Walk) -> Option<u16>
    ensures { result ≡ first_unreached (world_of net.now setup.now) (found_in walk.now) }
{
    (0..net.nodes()).find(|node| is_unreached(net, setup, walk, *node))
}

/// How many agents are lost.
pub(crate) fn lost(setup: &Setup, sealed: &Sealed) -> u16
    ensures { result ≡ count_by (lost (world_in sealed.now) (events_of sealed.now.log))
        (range_with_len 0 setup.now.agents) }
{
    let mut lost = 0;
    for agent in 0..setup.agents {
        if sealed.is_lost(agent) {
            lost += 1;
        }
    }
    lost
}
