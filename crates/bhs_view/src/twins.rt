//! Twins: the same match with a black hole elsewhere.

ghost use Rattle.std.specs.Prelude.{◌≡◌, ◌⊎◌, ◌<◌, ◌^◌, None, Some, [], IfOk, IfErr, OnOk, find, length};
ghost use Rattle.std.specs.List.{range_with_len};
ghost use Rattle.std.specs.Option.{option_or};
ghost use Rattle.bhs_net.specs.Network.{nodes_of};
ghost use Rattle.bhs_model.specs.Setups.{world_of, nodes_where};
ghost use Rattle.bhs_model.specs.Worlds.{is_hole};
ghost use Rattle.bhs_view.specs.Twins.{hole_beyond, is_moved, places_left, twin_fault, twin_setup, HasTwin};
ghost use Rattle.bhs_view.specs.TwinWalks.{hole_at, first_hole, is_bound_for, left_at, is_arrival_at, first_arrival_at};
ghost use Rattle.bhs_view.specs.declared.twins.TwinFault.TheVariants.{Memory as OutOfMemory};

use crate::entries::{Reading, read};
use crate::playback::begun;
use bhs_match::{Match, Sealed, Site};
use bhs_model::{Command, Event, Holes, Kept, Mark, Setup};
use bhs_net::{Memory, Net};
use bhs_referee::is_dark;
use std::alloc::Global;
use thiserror::Error;

/// Why a match has no twin with a black hole at a node. The first that holds, in this order, is told.
#[derive(Clone, Copy, Debug, PartialEq, Eq, Error)]
pub enum TwinFault {
    /// There is no such node.
    #[error("node")]
    Node,
    /// It is the home base.
    #[error("home")]
    Home,
    /// It is a black hole already.
    #[error("same")]
    Same,
    /// An agent arrived there, first at this place.
    #[error("reached {place}")]
    Reached { place: u32 },
    /// Memory ran out.
    #[error("memory")]
    Memory,
}

impl From<Memory> for TwinFault {
    ghost from_gives = { λ _ fault. fault ≡ OutOfMemory };

    fn from(_: Memory) -> TwinFault {
        TwinFault::Memory
    }
}

/// A twin of a match.
#[derive(Debug, Drop)]
pub struct Twin {
    /// The twin before anything happened.
    pub start: Match,
    /// Which places of the match are left in the twin.
    pub left: Vec<bool>,
}

/// Returns the twin: a match with a black hole at this node, indistinguishable for every agent. It removes the black
/// hole that an intact link accused first, otherwise the least black hole, where one exists. It drops each Deliver of
/// an agent bound for the removed black hole. The remaining events keep their replies, without a replay.
pub fn twin_of(alloc: Global, sealed: &Sealed, node: u16) -> Result<Twin, TwinFault>
    ensures start { IfOk result (λ twin. twin.start
        ≡ record { net = sealed.now.net; setup = twin_setup sealed.now node; log = [] }) }
    ensures left { IfOk result (λ twin. twin.left.items ≡ places_left sealed.now) }
    ensures count { IfOk result (λ twin. length twin.left.items ≡ length sealed.now.log) }
    ensures twin { OnOk result (HasTwin sealed.now node) }
    ensures fit { OnOk result (twin_fault sealed.now node ≡ None) }
    ensures fault { IfErr result (λ fault. (fault ≡ OutOfMemory) ⊎ (twin_fault sealed.now node ≡ Some fault)) }
{
    let Reading {
        net,
        setup,
        log,
        sites,
    } = read(sealed);
    let nodes = net.nodes();
    if node >= nodes {
        return Err(TwinFault::Node);
    }
    if node == setup.home {
        return Err(TwinFault::Home);
    }
    if setup.holes.contains(node) {
        return Err(TwinFault::Same);
    }
    if let Some(place) = first_arrival(log, sites, node) {
        return Err(TwinFault::Reached { place });
    }
    let old = replaced(net, setup, log, sites);
    let left = left(alloc, log, sites, old)?;
    let holes = moved_holes(alloc, net, setup, old, node)?;
    let start = begun(
        alloc,
        net,
        Setup {
            holes,
            ..setup.try_clone()?
        },
    )?;
    Ok(Twin { start, left })
}

// The place of the first arrival at a node.
fn first_arrival(log: &[Kept], sites: &[Site], node: u16) -> Option<u32>
    requires small { length log.now < 2 ^ 32 }
    requires sites { length sites.now ≡ length log.now }
    ensures { result ≡ first_arrival_at node 0 log.now sites.now }
{
    for place in 0..log.len() {
        if is_arrival(&log[place], sites[place].node(), node) {
            return Some(place as u32);
        }
    }
    None
}

// Returns whether the event at a place with this site is an arrival at the node.
fn is_arrival(kept: &Kept, site: Option<u16>, node: u16) -> bool
    ensures { result ≡ is_arrival_at kept.now site node }
{
    match (&kept.event, kept.mark, site) {
        (Event::Deliver { .. }, Some(_), Some(there)) => node == there,
        _ => false,
    }
}

// The black hole that gives way.
fn replaced(net: &Net, setup: &Setup, log: &[Kept], sites: &[Site]) -> Option<u16>
    requires sites { length sites.now ≡ length log.now }
    ensures { result ≡ option_or (first_hole (world_of net.now setup.now) log.now sites.now)
        (find (is_hole setup.now.holes) (range_with_len 0 (nodes_of net.now))) }
{
    match first_hole(net, setup, log, sites) {
        Some(hole) => Some(hole),
        None => least_hole(net, setup),
    }
}

fn least_hole(net: &Net, setup: &Setup) -> Option<u16>
    ensures { result ≡ find (is_hole setup.now.holes) (range_with_len 0 (nodes_of net.now)) }
{
    (0..net.nodes()).find(|node| setup.holes.contains(*node))
}

// The black hole that was first accused by a link that is not dark.
fn first_hole(net: &Net, setup: &Setup, log: &[Kept], sites: &[Site]) -> Option<u16>
    requires sites { length sites.now ≡ length log.now }
    ensures { result ≡ first_hole (world_of net.now setup.now) log.now sites.now }
{
    for place in 0..log.len() {
        let hole = hole_at(net, setup, &log[place], sites[place].node());
        if hole.is_some() {
            return hole;
        }
    }
    None
}

// The black hole that a place with this site accuses by a link that is not dark.
fn hole_at(net: &Net, setup: &Setup, kept: &Kept, site: Option<u16>) -> Option<u16>
    ensures { result ≡ hole_at (world_of net.now setup.now) kept.now site }
{
    match (&kept.event, kept.mark, site) {
        (
            Event::Tell {
                command: Command::Accuse { port },
                ..
            },
            Some(Mark::Noted),
            Some(node),
        ) => hole_beyond(net, setup, node, *port),
        _ => None,
    }
}

// The black hole that the link at a port leads to, where the link is not dark.
fn hole_beyond(net: &Net, setup: &Setup, node: u16, port: u16) -> Option<u16>
    ensures { result ≡ hole_beyond (world_of net.now setup.now) node port }
{
    let (there, _) = net.far_end((node, port));
    if setup.holes.contains(there) && !is_dark(net, setup, (node, port)) {
        Some(there)
    } else {
        None
    }
}

// The set of the places that are left when each Deliver that finds its agent bound for a node is taken out.
fn left(alloc: Global, log: &[Kept], sites: &[Site], node: Option<u16>) -> Result<Vec<bool>, Memory>
    requires sites { length sites.now ≡ length log.now }
    ensures { IfOk result (λ set. set.items ≡ left_at node log.now sites.now) }
{
    let mut set = Vec::with_capacity(alloc, log.len())?;
    for place in 0..log.len() {
        set.push(!is_bound_for(&log[place].event, sites[place].node(), node))?;
    }
    Ok(set)
}

// Whether a Deliver with this site finds its agent bound for a node.
fn is_bound_for(event: &Event, site: Option<u16>, node: Option<u16>) -> bool
    ensures { result ≡ is_bound_for event.now site node }
{
    match (event, site, node) {
        (Event::Deliver { .. }, Some(there), Some(node)) => node == there,
        _ => false,
    }
}

// The black holes once one has given way to another.
fn moved_holes(
    alloc: Global,
    net: &Net,
    setup: &Setup,
    old: Option<u16>,
    new: u16,
) -> Result<Holes, Memory>
    ensures { IfOk result (λ holes. holes ≡ nodes_where net.now (is_moved setup.now.holes old new)) }
{
    let mut nodes = Vec::new(alloc);
    for node in 0..net.nodes() {
        if is_moved(setup, old, new, node) {
            nodes.push(node)?;
        }
    }
    Ok(Holes::from(nodes))
}

// Whether a node is a black hole once one has given way to another.
fn is_moved(setup: &Setup, old: Option<u16>, new: u16, node: u16) -> bool
    ensures { result ≡ is_moved setup.now.holes old new node }
{
    node == new || setup.holes.contains(node) && old != Some(node)
}
