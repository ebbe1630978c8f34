//! The links of a network, as a head lists them.

ghost use Rattle.std.specs.Prelude.{◌≡◌, ◌<◌, ◌++◌, true, map, IfOk, OnOk};
ghost use Rattle.bhs_net.specs.Network.{nodes_of};
ghost use Rattle.bhs_model.specs.Setups.{links_at};
ghost use Rattle.bhs_replay.specs.Head.{link_from, links_of};

use bhs_net::{Link, Memory, Net};
use std::alloc::Global;

/// The links, each once, from its end at the lesser node, in order.
pub(crate) fn links_of(alloc: Global, net: &Net) -> Result<Vec<Link>, Memory>
    ensures { IfOk result (λ links. links.items ≡ links_of net.now) }
{
    let mut links = Vec::new(alloc);
    for node in 0..net.nodes() {
        add_links_at(net, node, &mut links)?;
    }
    Ok(links)
}

// Adds the links whose lesser end is at this node.
fn add_links_at(net: &Net, node: u16, links: &mut Vec<Link>) -> Result<(), Memory>
    requires { node < nodes_of net.now }
    ensures { OnOk result (links.new.items
        ≡ links.old.items ++ map (link_from net.now) (links_at net.now (λ node port. true) node)) }
{
    for port in 0..net.degree(node) {
        let (w, q) = net.far(node, port);
        if node < w {
            links.push(Link {
                v: node,
                p: port,
                w,
                q,
            })?;
        }
    }
    Ok(())
}
