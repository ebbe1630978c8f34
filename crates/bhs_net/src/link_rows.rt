//! From a list of links to rows of far ends. The rows of links that have no fault are filled at once. Others take one
//! pass over the links for each fault, since a fault that is told first may stand later in the list; there the ends
//! stand in a map by node and port, so that nothing is as large as the largest port. With n links the cost is O(n),
//! or O(n log n) if there is a fault, and O(n) memory.

ghost use Rattle.std.specs.Prelude.{◌≡◌, ℕ, ◌<◌, ◌≤◌, ◌⊎◌, length, OnOk, IfOk, IfErr, min};
ghost use Rattle.std.specs.Option.{option_map_or};
ghost use Rattle.bhs_net.specs.Network.{network_of, HasPort, degree_of};
ghost use Rattle.bhs_net.specs.Faults.{IsStray, IsLoop, IsDouble, IsPortTwice, Lists, Refuses, place_of};
ghost use Rattle.bhs_net.specs.Listing.{TellsLeast, MapsEnds, IsRowOf, AreRowsOf, HasAllPorts, IsBeyond};

use crate::fast_rows::filled;
use crate::faults::{MAX_NODES, MIN_NODES, NetFault};
use crate::links::Link;
use std::alloc::{AllocError, Global};
use std::collections::{BTreeMap, BTreeSet};

/// A link's end: a node with one of its ports.
pub type End = (u16, u16);

fn check_nodes(nodes: u16) -> Result<(), NetFault>
    ensures ok { OnOk result ((MIN_NODES ≤ nodes) × (nodes ≤ MAX_NODES)) }
    ensures err { IfErr result
        (λ fault. (fault ≡ NetFault.Nodes) × ((nodes < MIN_NODES) ⊎ (MAX_NODES < nodes))) }
{
    if nodes < MIN_NODES || nodes > MAX_NODES {
        return Err(NetFault::Nodes);
    }
    Ok(())
}

fn check_ends(nodes: u16, links: &[Link]) -> Result<(), NetFault>
    ensures ok { OnOk result ((place : ℕ) → ¬ IsStray nodes links.now place) }
    ensures err { IfErr result (TellsLeast NetFault.Node (IsStray nodes links.now)) }
{
    for (place, link) in links.iter().enumerate() {
        if link.v >= nodes || link.w >= nodes {
            return Err(NetFault::Node { link: place });
        }
    }
    Ok(())
}

/// Refuses the first link that joins a node to itself.
pub fn check_loops(links: &[Link]) -> Result<(), NetFault>
    ensures ok { OnOk result ((place : ℕ) → ¬ IsLoop links.now place) }
    ensures err { IfErr result (TellsLeast NetFault.Loop (IsLoop links.now)) }
{
    for (place, link) in links.iter().enumerate() {
        if link.v == link.w {
            return Err(NetFault::Loop { link: place });
        }
    }
    Ok(())
}

fn check_doubles(alloc: Global, links: &[Link]) -> Result<(), NetFault>
    ensures ok { OnOk result ((place : ℕ) → ¬ IsDouble links.now place) }
    ensures err { IfErr result
        (λ fault. (fault ≡ NetFault.Memory) ⊎ TellsLeast NetFault.Double (IsDouble links.now) fault) }
{
    let mut joined = BTreeSet::new(alloc);
    for (place, link) in links.iter().enumerate() {
        let nodes = (link.v.min(link.w), link.v.max(link.w));
        if !joined.insert(nodes)? {
            return Err(NetFault::Double { link: place });
        }
    }
    Ok(())
}

// The far end of each end that is listed.
fn far_ends(alloc: Global, links: &[Link]) -> Result<BTreeMap<End, End>, NetFault>
    requires { (place : ℕ) → ¬ IsLoop links.now place }
    ensures once { OnOk result ((place : ℕ) → ¬ IsPortTwice links.now place) }
    ensures map { IfOk result (MapsEnds links.now) }
    ensures err { IfErr result
        (λ fault. (fault ≡ NetFault.Memory) ⊎ TellsLeast NetFault.PortTwice (IsPortTwice links.now) fault) }
{
    let mut far_ends = BTreeMap::new(alloc);
    for (place, link) in links.iter().enumerate() {
        let near = (link.v, link.p);
        let far = (link.w, link.q);
        if far_ends.contains_key(&near) || far_ends.contains_key(&far) {
            return Err(NetFault::PortTwice { link: place });
        }
        far_ends.insert(near, far)?;
        far_ends.insert(far, near)?;
    }
    Ok(far_ends)
}

// The far ends of a node's ports from port 0 to the first that is not listed.
fn row(alloc: Global, far_ends: &BTreeMap<End, End>, node: u16) -> Result<Vec<End>, AllocError>
    ensures { IfOk result (λ row. IsRowOf far_ends.now node row.items) }
{
    let mut row = Vec::new(alloc);
    for port in 0..=u16::MAX {
        match far_ends.get(&(node, port)) {
            Some(far) => row.push(*far)?,
            None => return Ok(row),
        }
    }
    Ok(row)
}

fn rows(
    alloc: Global,
    far_ends: &BTreeMap<End, End>,
    nodes: u16,
) -> Result<Vec<Vec<End>>, AllocError>
    ensures { IfOk result (λ rows. AreRowsOf far_ends.now nodes (network_of rows.items)) }
{
    let mut rows = Vec::new(alloc);
    for node in 0..nodes {
        rows.push(row(alloc, far_ends, node)?)?;
    }
    Ok(rows)
}

// The lesser of `least` and the node, where the port lies beyond the node's row.
fn with_end(rows: &[Vec<End>], least: Option<u16>, node: u16, port: u16) -> Option<u16>
    requires { node < length rows.now }
    ensures small { port < 65536 }
    ensures kept { HasPort (network_of rows.now) (node, port) → result ≡ least }
    ensures beyond { degree_of (network_of rows.now) node ≤ port
        → result ≡ Some (option_map_or (λ gap. min gap node) least node) }
{
    if usize::from(port) < rows[usize::from(node)].len() {
        return least;
    }
    match least {
        Some(gap) => Some(gap.min(node)),
        None => Some(node),
    }
}

fn check_gaps(links: &[Link], rows: &[Vec<End>]) -> Result<(), NetFault>
    requires { (place : ℕ) → ¬ IsStray (length rows.now) links.now place }
    ensures ok { OnOk result (HasAllPorts links.now (network_of rows.now)) }
    ensures err { IfErr result
        (TellsLeast NetFault.PortGap (IsBeyond links.now (network_of rows.now))) }
    ensures short { IfErr result
        (λ fault. degree_of (network_of rows.now) (place_of fault) < 65536) }
{
    let mut least = None;
    for link in links {
        least = with_end(rows, least, link.v, link.p);
        least = with_end(rows, least, link.w, link.q);
    }
    match least {
        Some(node) => Err(NetFault::PortGap { node }),
        None => Ok(()),
    }
}

/// The rows of the network that the links make, if none of the first six faults holds.
pub fn listed(alloc: Global, nodes: u16, links: &[Link]) -> Result<Vec<Vec<End>>, NetFault>
    ensures ok { IfOk result (λ rows. Lists nodes links.now (network_of rows.items)) }
    ensures err { IfErr result (Refuses nodes links.now) }
{
    check_nodes(nodes)?;
    if let Some(filled_rows) = filled(alloc, nodes, links)? {
        return Ok(filled_rows);
    }
    check_ends(nodes, links)?;
    check_loops(links)?;
    check_doubles(alloc, links)?;
    let far_ends = far_ends(alloc, links)?;
    let rows = rows(alloc, &far_ends, nodes)?;
    check_gaps(links, &rows)?;
    Ok(rows)
}
