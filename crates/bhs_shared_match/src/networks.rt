//! Comparing a match with the network and setup of a shared match.

ghost use Rattle.std.specs.Prelude.{◌≡◌, ◌<◌, ◌↔◌, IsTrue};
ghost use Rattle.bhs_net.specs.Network.{nodes_of, row_of};
ghost use Rattle.bhs_shared_match.specs.Settling.{IsOfWorld};

use bhs_match::Match;
use bhs_model::Setup;
use bhs_net::Net;

/// Returns whether a match has this network and this setup.
pub(crate) fn is_of_world(play: &Match, net: &Net, setup: &Setup) -> bool
    ensures { IsTrue result ↔ IsOfWorld net.now setup.now play.now }
{
    is_same_network(play.net(), net) && *play.setup() == *setup
}

// Returns whether two networks are equal.
fn is_same_network(one: &Net, two: &Net) -> bool
    ensures { IsTrue result ↔ (one.now ≡ two.now) }
{
    let nodes = one.nodes();
    if nodes != two.nodes() {
        return false;
    }
    for node in 0..nodes {
        if !has_same_row(one, two, node) {
            return false;
        }
    }
    true
}

// Whether the ports of a node lead to the same ends in both networks.
fn has_same_row(one: &Net, two: &Net, node: u16) -> bool
    requires in_one { node < nodes_of one.now }
    requires in_two { node < nodes_of two.now }
    ensures { IsTrue result ↔ (row_of one.now node ≡ row_of two.now node) }
{
    let ports = one.degree(node);
    if ports != two.degree(node) {
        return false;
    }
    for port in 0..ports {
        if one.far(node, port) != two.far(node, port) {
            return false;
        }
    }
    true
}
