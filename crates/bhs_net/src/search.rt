//! Whether rows are connected, and still so when any one node is removed. An order of the nodes shows that, in time in
//! the number of ports. If no order is found, searches say why. A depth-first search shows that most nodes cut nothing;
//! the others are removed in turn, up to the first that cuts the network.

ghost use Rattle.std.specs.Prelude.{◌≡◌, ◌≢◌, ◌<◌, ◌⊎◌, true, length, IfOk, IfErr, OnOk, MatchBool};
ghost use Rattle.bhs_net.specs.Network.{network_of, IsPortLabelled, IsNetwork, IsConnected, AreJoinedWithout};
ghost use Rattle.bhs_net.specs.Search.{MarksReached, ReachesAll, MissesSome, IsApartIn, IsCutIn};
ghost use Rattle.bhs_net.specs.Listing.{TellsLeast};
ghost use Rattle.bhs_net.specs.Trees.{IsTree};

use crate::depth_first_search::{DepthFirst, depth_first, order_of};
use crate::faults::NetFault;
use crate::link_rows::End;
use std::alloc::{AllocError, Global};

// Marks the nodes to which paths lead from `start` that keep off the node `removed`.
fn reached(
    alloc: Global,
    rows: &[Vec<End>],
    start: usize,
    removed: usize,
) -> Result<Vec<bool>, AllocError>
    requires labelled { IsPortLabelled (network_of rows.now) }
    requires node { start < length rows.now }
    requires kept { start ≢ removed }
    ensures { IfOk result
        (λ marks. MarksReached (network_of rows.now) start removed marks.items) }
{
    let mut marks = vec![in alloc; false; rows.len()]?;
    let mut found = Vec::new(alloc);
    marks[start] = true;
    found.push(start)?;
    for next in 0..rows.len() {
        if next == found.len() {
            break;
        }
        let node = found[next];
        for end in &rows[node] {
            let other = usize::from(end.0);
            if other != removed && !marks[other] {
                marks[other] = true;
                found.push(other)?;
            }
        }
    }
    Ok(marks)
}

// Whether paths that keep off `removed` lead from `start` to every other node.
fn reaches_all(
    alloc: Global,
    rows: &[Vec<End>],
    start: usize,
    removed: usize,
) -> Result<bool, AllocError>
    requires labelled { IsPortLabelled (network_of rows.now) }
    requires node { start < length rows.now }
    requires kept { start ≢ removed }
    ensures { IfOk result
        (λ all. MatchBool all
        (ReachesAll (network_of rows.now) start removed)
        (MissesSome (network_of rows.now) start removed)) }
{
    let marks = reached(alloc, rows, start, removed)?;
    for (node, is_marked) in marks.iter().enumerate() {
        if !*is_marked && node != removed {
            return Ok(false);
        }
    }
    Ok(true)
}

// Whether paths that keep off a node join all others.
fn joins_others(alloc: Global, rows: &[Vec<End>], node: usize) -> Result<bool, AllocError>
    requires labelled { IsPortLabelled (network_of rows.now) }
    requires node { node < length rows.now }
    ensures { IfOk result
        (λ all. MatchBool all (AreJoinedWithout (network_of rows.now) node) (IsCutIn (network_of rows.now) node)) }
{
    let start = if node == 0 { 1 } else { 0 };
    reaches_all(alloc, rows, start, node)
}

// Whether all nodes but one stay joined without it, as the tree of a search shows, or a search without that node.
fn stay_joined(
    alloc: Global,
    rows: &[Vec<End>],
    search: &DepthFirst,
    is_tree: bool,
    node: usize,
) -> Result<bool, AllocError>
    requires labelled { IsPortLabelled (network_of rows.now) }
    requires node { node < length rows.now }
    requires tree { is_tree ≡ true → IsTree (network_of rows.now) search.now }
    ensures { IfOk result
        (λ all. MatchBool all (AreJoinedWithout (network_of rows.now) node) (IsCutIn (network_of rows.now) node)) }
{
    if is_tree && search.all_lead_past(rows.len(), node) {
        return Ok(true);
    }
    joins_others(alloc, rows, node)
}

/// Looks for an order that shows a network; and where it finds none, for two nodes that no path joins, and then for the
/// least node without which no path joins some two others.
pub fn check_paths(alloc: Global, rows: &[Vec<End>]) -> Result<(), NetFault>
    requires { IsPortLabelled (network_of rows.now) }
    ensures ok { OnOk result (IsNetwork (network_of rows.now)) }
    ensures err { IfErr result (λ fault. (fault ≡ NetFault.Memory)
        ⊎ (((fault ≡ NetFault.Apart) × IsApartIn (network_of rows.now))
        ⊎ (IsConnected (network_of rows.now)
        × TellsLeast NetFault.CutNode (IsCutIn (network_of rows.now)) fault))) }
{
    let search = depth_first(rows);
    if order_of(&search).shows_network(rows) {
        return Ok(());
    }
    let nodes = rows.len();

    // `nodes` is the number of no node, so this search removes none.
    if !reaches_all(alloc, rows, 0, nodes)? {
        return Err(NetFault::Apart);
    }
    let is_tree = search.is_tree(rows);
    for node in 0..nodes {
        if !stay_joined(alloc, rows, &search, is_tree, node)? {
            return Err(NetFault::CutNode { node: node as u16 });
        }
    }
    Ok(())
}
