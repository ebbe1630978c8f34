//! The rows of links without a fault, computed in time linear in the number of links. An index maps each end to the
//! place of its link in the list, and each port is filled from that link. How the index is made is not proved; the
//! index is checked. It misses one of two links that collide on a place, and links beyond the first 65,536, which
//! exceed the limits of a network.

ghost use Rattle.std.specs.Prelude.{◌≡◌, ◌<◌, ◌≤◌, true, false, length, IfOk, IfSome};
ghost use Rattle.bhs_net.specs.declared.faults.TheConstants.{MIN_NODES, MAX_NODES};
ghost use Rattle.bhs_net.specs.Links.{AreJoined};
ghost use Rattle.bhs_net.specs.Network.{network_of};
ghost use Rattle.bhs_net.specs.Faults.{Lists};
ghost use Rattle.bhs_net.specs.Filling.{index_of, place_at, AreIndexed, IsFilled, AreFilled};
ghost use Rattle.bhs_net.specs.Filling.{IsFirst, LeadsApart, AllLeadApart};

use crate::depth_first_search::NODES;
use crate::link_rows::{End, check_loops};
use crate::links::Link;
use std::alloc::{AllocError, Global};

// Writes the place of a link into the index, if that has room for this end.
fn set_place(index: &mut Vec<Vec<u16>>, node: u16, port: u16, place: u16)
    ensures size { length index.new.items ≡ length index.old.items }
{
    let (node, port) = (usize::from(node), usize::from(port));
    if node < index.len() && port < index[node].len() {
        index[node][port] = place;
    }
}

// The index of links: for each node as many places as links end at it, in the order of their ports.
fn indexed(alloc: Global, nodes: u16, links: &[Link]) -> Result<Vec<Vec<u16>>, AllocError>
    ensures size { IfOk result (λ index. length index.items ≡ nodes) }
{
    let mut degrees: Vec<usize> = vec![in alloc; 0; usize::from(nodes)]?;
    // No degree is more than twice the length of the list, so none wraps.
    for link in links {
        for node in [link.v, link.w] {
            if let Some(degree) = degrees.get_mut(usize::from(node)) {
                *degree = degree.wrapping_add(1);
            }
        }
    }
    let mut index = Vec::with_capacity(alloc, degrees.len())?;
    for degree in &degrees {
        index.push(vec![in alloc; 0; *degree]?)?;
    }
    for (place, link) in links.iter().enumerate() {
        let Ok(place) = u16::try_from(place) else {
            break;
        };
        set_place(&mut index, link.v, link.p, place);
        set_place(&mut index, link.w, link.q, place);
    }
    Ok(index)
}

// Returns the place of an end's link in the list, according to the index.
fn place_at(index: &[Vec<u16>], node: u16, port: u16) -> Option<usize>
    ensures { result ≡ place_at (index_of index.now) (node, port) }
{
    match index.get(usize::from(node)) {
        Some(row) => match row.get(usize::from(port)) {
            Some(place) => Some(usize::from(*place)),
            None => None,
        },
        None => None,
    }
}

// Returns whether the index contains each link under both ends.
fn are_indexed(links: &[Link], index: &[Vec<u16>]) -> bool
    ensures { result ≡ true → AreIndexed links.now (index_of index.now) }
{
    for (place, link) in links.iter().enumerate() {
        let near = place_at(index, link.v, link.p);
        let far = place_at(index, link.w, link.q);
        if near != Some(place) || far != Some(place) {
            return false;
        }
    }
    true
}

// Returns the opposite end of the link at this place of the list, provided that the link has this end.
fn other_end(links: &[Link], place: usize, node: usize, port: usize) -> Option<End>
    ensures { IfSome result (λ other. AreJoined links.now (node, port) other) }
{
    let link = links.get(place)?;
    if usize::from(link.v) == node && usize::from(link.p) == port {
        Some((link.w, link.q))
    } else if usize::from(link.w) == node && usize::from(link.q) == port {
        Some((link.v, link.p))
    } else {
        None
    }
}

// The far ends of a node's ports, if the links at these places have the ports in turn.
fn filled_row(
    alloc: Global,
    links: &[Link],
    node: usize,
    places: &[u16],
) -> Result<Option<Vec<End>>, AllocError>
    ensures { IfOk result (λ found. IfSome found (λ row. IsFilled links.now node places.now row.items)) }
{
    let mut row = Vec::with_capacity(alloc, places.len())?;
    for (port, place) in places.iter().enumerate() {
        match other_end(links, usize::from(*place), node, port) {
            Some(end) => row.push(end)?,
            None => return Ok(None),
        }
    }
    Ok(Some(row))
}

fn filled_rows(
    alloc: Global,
    links: &[Link],
    index: &[Vec<u16>],
) -> Result<Option<Vec<Vec<End>>>, AllocError>
    ensures { IfOk result
        (λ found. IfSome found (λ rows. AreFilled links.now (index_of index.now) (network_of rows.items))) }
{
    let mut rows = Vec::with_capacity(alloc, index.len())?;
    for (node, places) in index.iter().enumerate() {
        match filled_row(alloc, links, node, places)? {
            Some(row) => rows.push(row)?,
            None => return Ok(None),
        }
    }
    Ok(Some(rows))
}

// Rows of so many ports are searched for a second way to a node; marks of all nodes cost more to clear than that.
const FEW: usize = 32;

// Whether an earlier port of the row leads to the node of this one.
fn leads_again(row: &[End], port: usize) -> bool
    requires within { port < length row.now }
    ensures { result ≡ false → IsFirst row.now port }
{
    let (node, _) = row[port];
    for other in 0..port {
        if row[other].0 == node {
            return true;
        }
    }
    false
}

// Whether no two ports of the row lead to one node, by a look at each pair.
fn pairs_apart(row: &[End]) -> bool
    ensures { result ≡ true → LeadsApart row.now }
{
    for port in 0..row.len() {
        if leads_again(row, port) {
            return false;
        }
    }
    true
}

// Whether no two ports of the row lead to one node, by a mark for each node.
fn marks_apart(row: &[End]) -> bool
    ensures { result ≡ true → LeadsApart row.now }
{
    let mut marks = [false; NODES];
    for end in row {
        let node = usize::from(end.0);
        if node >= NODES || marks[node] {
            return false;
        }
        marks[node] = true;
    }
    true
}

// Whether no two ports of the row lead to one node.
fn leads_apart(row: &[End]) -> bool
    ensures { result ≡ true → LeadsApart row.now }
{
    if row.len() <= FEW {
        pairs_apart(row)
    } else {
        marks_apart(row)
    }
}

fn all_lead_apart(rows: &[Vec<End>]) -> bool
    ensures { result ≡ true → AllLeadApart (network_of rows.now) }
{
    for row in rows {
        if !leads_apart(row) {
            return false;
        }
    }
    true
}

/// Returns the rows of the network of these links, or None if the links have one of the first six faults; that
/// direction is not proved.
pub fn filled(
    alloc: Global,
    nodes: u16,
    links: &[Link],
) -> Result<Option<Vec<Vec<End>>>, AllocError>
    requires few { MIN_NODES ≤ nodes }
    requires many { nodes ≤ MAX_NODES }
    ensures { IfOk result (λ found. IfSome found (λ rows. Lists nodes links.now (network_of rows.items))) }
{
    if let Err(_) = check_loops(links) {
        return Ok(None);
    }
    let index = indexed(alloc, nodes, links)?;
    if !are_indexed(links, &index) {
        return Ok(None);
    }
    match filled_rows(alloc, links, &index)? {
        Some(rows) => {
            if all_lead_apart(&rows) {
                Ok(Some(rows))
            } else {
                Ok(None)
            }
        }
        None => Ok(None),
    }
}
