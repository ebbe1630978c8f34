//! Checking a setup.

ghost use Rattle.std.specs.Prelude.{◌≡◌, ◌⊎◌, IfOk, IfErr, OnOk, IsTrue, None, Some, [], replicate};
ghost use Rattle.bhs_net.specs.Network.{nodes_of};
ghost use Rattle.bhs_model.specs.Destroyers.{AreSignsOf};
ghost use Rattle.bhs_model.specs.Setups.{normal};
ghost use Rattle.bhs_state.specs.Agents.{newcomer};
ghost use Rattle.bhs_world.specs.Faults.{first_fault, is_hole_fit, are_holes_fit, is_port_of, are_links_fit};
ghost use Rattle.bhs_world.specs.Faults.{IsWithinLimits};

use crate::faults::SetupFault;
use bhs_model::{Destroyers, MAX_AGENTS, MAX_BOARD, MAX_QUOTA, Setup};
use bhs_net::Net;
use bhs_state::{Agent, Board};
use std::alloc::{AllocError, Global};

// Whether a black hole is a node other than home.
fn is_hole_fit(nodes: u16, home: u16, hole: u16) -> bool
    ensures { result ≡ is_hole_fit nodes home hole }
{
    hole < nodes && hole != home
}

// Marks the black holes. Tells whether each is a node other than home, and stands but once.
fn mark_holes(destroyers: &mut Destroyers, net: &Net, home: u16, holes: &[u16]) -> bool
    requires { AreSignsOf net.now [] [] destroyers.old }
    ensures fit { result ≡ are_holes_fit (nodes_of net.now) home [] holes.now }
    ensures signs { IsTrue result → AreSignsOf net.now holes.now [] destroyers.new }
{
    for hole in holes {
        if !is_hole_fit(net.nodes(), home, *hole) || destroyers.is_hole(*hole) {
            return false;
        }
        destroyers.add_hole(*hole);
    }
    true
}

fn is_port(net: &Net, end: (u16, u16)) -> bool
    ensures { result ≡ is_port_of net.now end }
{
    let (node, port) = end;
    node < net.nodes() && port < net.degree(node)
}

// Marks the dark links. Tells whether each end is a port of a node, and each link stands but once.
fn mark_links(destroyers: &mut Destroyers, net: &Net, setup: &Setup) -> Result<bool, AllocError>
    requires { AreSignsOf net.now setup.now.holes [] destroyers.old }
    ensures fit { IfOk result (λ are_fit. are_fit ≡ are_links_fit net.now [] setup.now.dark) }
    ensures signs { IfOk result
        (λ are_fit. IsTrue are_fit → AreSignsOf net.now setup.now.holes setup.now.dark destroyers.new) }
{
    for end in setup.dark.ends() {
        if !is_port(net, *end) || destroyers.is_dark(end.0, end.1) {
            return Ok(false);
        }
        destroyers.add_link(net, end.0, end.1)?;
    }
    Ok(true)
}

/// What destroys, if the setup is within the limits; else its first fault. Memory is told only if memory was
/// refused.
pub(crate) fn judged(alloc: Global, net: &Net, setup: &Setup) -> Result<Destroyers, SetupFault>
    ensures fit { OnOk result ((first_fault net.now setup.now ≡ None) × IsWithinLimits net.now setup.now) }
    ensures signs { IfOk result (AreSignsOf net.now setup.now.holes setup.now.dark) }
    ensures fault { IfErr result (λ fault. (fault ≡ SetupFault.Memory) ⊎ (first_fault net.now setup.now ≡ Some fault)) }
{
    let mut destroyers = Destroyers::none(alloc, net)?;
    if setup.home >= net.nodes() {
        return Err(SetupFault::Home);
    }
    if !mark_holes(&mut destroyers, net, setup.home, setup.holes.nodes()) {
        return Err(SetupFault::Hole);
    }
    if !(1..=MAX_AGENTS).contains(&setup.agents) {
        return Err(SetupFault::Agents);
    }
    if !(1..=MAX_QUOTA).contains(&setup.quota) {
        return Err(SetupFault::Quota);
    }
    if setup.board > MAX_BOARD {
        return Err(SetupFault::Board);
    }
    let are_fit = mark_links(&mut destroyers, net, setup)?;
    if !are_fit {
        return Err(SetupFault::Dark);
    }
    Ok(destroyers)
}

/// The normal form of a setup.
pub(crate) fn in_order(
    alloc: Global,
    net: &Net,
    destroyers: &Destroyers,
    setup: &Setup,
) -> Result<Setup, AllocError>
    requires { AreSignsOf net.now setup.now.holes setup.now.dark destroyers.now }
    ensures { IfOk result (λ ordered. ordered ≡ normal net.now setup.now) }
{
    Ok(Setup {
        home: setup.home,
        holes: destroyers.holes(alloc, net)?,
        dark: destroyers.dark(alloc, net)?,
        agents: setup.agents,
        quota: setup.quota,
        board: setup.board,
    })
}

/// As many agents, none of which has entered.
pub(crate) fn newcomers(alloc: Global, count: u16) -> Result<Vec<Agent>, AllocError>
    ensures { IfOk result (λ agents. agents.items ≡ replicate count newcomer) }
{
    let mut agents = Vec::with_capacity(alloc, usize::from(count))?;
    for _ in 0..count {
        agents.push(Agent::new())?;
    }
    Ok(agents)
}

/// As many whiteboards, each of which shows the empty text.
pub(crate) fn empty_boards(alloc: Global, count: u16, limit: u16) -> Result<Vec<Board>, AllocError>
    ensures { IfOk result (λ boards. boards.items ≡ replicate count (record { limit = limit; last = None })) }
{
    let mut boards = Vec::with_capacity(alloc, usize::from(count))?;
    for _ in 0..count {
        boards.push(Board::new(limit))?;
    }
    Ok(boards)
}
