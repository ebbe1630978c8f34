//! The links of a match over which nobody arrives, as a list.

ghost use Rattle.std.specs.Prelude.{◌≡◌, ◌<◌, ◌==◌, ◌&&◌, ◌||◌, ℕ, nat_lt, IfOk, OnOk};
ghost use Rattle.bhs_net.specs.Network.{degree_of, nodes_of};
ghost use Rattle.bhs_deliveries.specs.Links.{held_in};
ghost use Rattle.bhs_explore.specs.Answers.{is_held};
ghost use Rattle.bhs_cli_explore.specs.Discoveries.{AreLinks};

use bhs_net::Memory;
use bhs_setups::Ready;
use std::alloc::Global;

/// The links of a match that are held.
pub(crate) fn held_links(alloc: Global, ready: &Ready) -> Result<Vec<(u16, u16)>, Memory>
    ensures { IfOk result (λ links. AreLinks ready.now links.items) }
{
    let mut links = Vec::new(alloc);
    for node in 0..ready.game.net().nodes() {
        add_links(ready, node, &mut links)?;
    }
    Ok(links)
}

// Adds the held links of a node.
fn add_links(ready: &Ready, node: u16, links: &mut Vec<(u16, u16)>) -> Result<(), Memory>
    requires { node < nodes_of ready.now.game.net }
    ensures { OnOk result ((v p : ℕ) → is_held links.new.items v p ≡ (is_held links.old.items v p
        || (node == v && (nat_lt p (degree_of ready.now.game.net node) && held_in ready.now.held v p)))) }
{
    for port in 0..ready.game.net().degree(node) {
        if ready.held.has(node, port) {
            links.push((node, port))?;
        }
    }
    Ok(())
}
