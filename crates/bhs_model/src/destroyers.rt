//! Which arrivals destroy an agent.

ghost use Rattle.std.specs.Prelude.{◌≡◌, ◌<◌, ◌++◌, ◌∷◌, [], ℕ, List, length, IfOk, OnOk, OnErr};
ghost use Rattle.bhs_net.specs.Network.{Network, nodes_of, degree_of};
ghost use Rattle.bhs_model.specs.Worlds.{doomed};
ghost use Rattle.bhs_model.specs.Setups.{world_of, nodes_where, links_where, links_at, is_lesser_end};
ghost use Rattle.bhs_model.specs.declared.setups.Setup.{Setup as SetupData};
ghost use Rattle.bhs_model.specs.PortMarks.{mark_at};
ghost use Rattle.bhs_model.specs.Destroyers.{Signs, is_marked, is_signed, AreSignsOf};

use crate::dark_links::DarkLinks;
use crate::holes::Holes;
use crate::port_marks::{is_port_marked, make_room, mark_port, no_port_marks};
use bhs_net::Net;
use std::alloc::{AllocError, Global};
use std::marker::Model;

/// The destroying nodes and links of a network: a mark for each black hole, and a mark for each port of a dark link, so
/// that a lookup takes one step. No other part of the program knows what destroys agents. A node's row of port marks is
/// as long as its dark links need.
#[derive(Debug, Drop)]
pub struct Destroyers {
    nodes: Vec<bool>,
    ports: Vec<Vec<bool>>,
}

impl Model for Destroyers {
    ghost use Rattle.bhs_model.specs.PortMarks.{marks_of};
    ghost use Rattle.bhs_model.specs.Destroyers.{Signs};

    ghost Value = { Signs };

    ghost view = { λ destroyers. record { nodes = destroyers.nodes.items; ports = marks_of destroyers.ports.items } };
}

impl Destroyers {
    /// Nothing that destroys.
    pub fn none(alloc: Global, net: &Net) -> Result<Destroyers, AllocError>
        ensures { IfOk result (AreSignsOf net.now [] []) }
    {
        let nodes = vec![in alloc; false; usize::from(net.nodes())]?;
        let ports = no_port_marks(alloc, net.nodes())?;
        Ok(Destroyers { nodes, ports })
    }

    /// Adds a black hole.
    pub fn add_hole(&mut self, node: u16)
        requires { node < length self.old.nodes }
        ensures { (net : Network) (holes : List ℕ) (dark : List (ℕ × ℕ)) → AreSignsOf net holes dark self.old
            → AreSignsOf net (holes ++ node ∷ []) dark self.new }
    {
        self.nodes[usize::from(node)] = true;
    }

    /// Adds a dark link, by one of its ends. If memory is refused, nothing else destroys than before.
    pub fn add_link(&mut self, net: &Net, node: u16, port: u16) -> Result<(), AllocError>
        requires port { port < degree_of net.now node }
        requires signs { (holes : List ℕ) × (dark : List (ℕ × ℕ)) × AreSignsOf net.now holes dark self.old }
        ensures ok { OnOk result ((holes : List ℕ) (dark : List (ℕ × ℕ)) → AreSignsOf net.now holes dark self.old
            → AreSignsOf net.now holes (dark ++ (node, port) ∷ []) self.new) }
        ensures err { OnErr result ((holes : List ℕ) (dark : List (ℕ × ℕ)) → AreSignsOf net.now holes dark self.old
            → AreSignsOf net.now holes dark self.new) }
    {
        let (far, label) = net.far(node, port);
        make_room(&mut self.ports, node, port)?;
        make_room(&mut self.ports, far, label)?;
        mark_port(&mut self.ports, node, port);
        mark_port(&mut self.ports, far, label);
        Ok(())
    }

    /// Whether a node is a black hole.
    pub fn is_hole(&self, node: u16) -> bool
        ensures { result ≡ is_marked self.now node }
    {
        self.nodes.get(usize::from(node)).copied().unwrap_or(false)
    }

    /// Whether the link at a port is dark.
    pub fn is_dark(&self, node: u16, port: u16) -> bool
        ensures { result ≡ mark_at self.now.ports node port }
    {
        is_port_marked(&self.ports, node, port)
    }

    /// Whether the link that leaves the node by the port destroys who travels on it.
    pub fn is_doomed(&self, net: &Net, node: u16, port: u16) -> bool
        requires { port < degree_of net.now node }
        ensures signed { result ≡ is_signed net.now self.now node port }
        ensures doomed { (setup : SetupData) → AreSignsOf net.now setup.holes setup.dark self.now → result
            ≡ doomed (world_of net.now setup) node port }
    {
        self.is_hole(net.far(node, port).0) || self.is_dark(node, port)
    }

    /// The black holes, in order.
    pub fn holes(&self, alloc: Global, net: &Net) -> Result<Holes, AllocError>
        ensures { IfOk result (λ holes. holes ≡ nodes_where net.now (is_marked self.now)) }
    {
        let mut nodes = Vec::new(alloc);
        for node in 0..net.nodes() {
            if self.is_hole(node) {
                nodes.push(node)?;
            }
        }
        Ok(Holes::from(nodes))
    }

    /// The dark links, each by its end at the lesser node, in order.
    pub fn dark(&self, alloc: Global, net: &Net) -> Result<DarkLinks, AllocError>
        ensures { IfOk result (λ dark. dark ≡ links_where net.now (mark_at self.now.ports)) }
    {
        let mut ends = Vec::new(alloc);
        for node in 0..net.nodes() {
            self.add_dark_at(net, node, &mut ends)?;
        }
        Ok(DarkLinks::from(ends))
    }

    // Adds the dark links whose lesser end is at this node.
    fn add_dark_at(
        &self,
        net: &Net,
        node: u16,
        ends: &mut Vec<(u16, u16)>,
    ) -> Result<(), AllocError>
        requires { node < nodes_of net.now }
        ensures { IfOk result (λ _. ends.new.items ≡ ends.old.items ++ links_at net.now (mark_at self.now.ports) node) }
    {
        for port in 0..net.degree(node) {
            if self.is_lesser_end(net, node, port) {
                ends.push((node, port))?;
            }
        }
        Ok(())
    }

    // Whether this is the lesser end of a dark link.
    fn is_lesser_end(&self, net: &Net, node: u16, port: u16) -> bool
        requires { port < degree_of net.now node }
        ensures { result ≡ is_lesser_end net.now (mark_at self.now.ports) (node, port) }
    {
        self.is_dark(node, port) && node < net.far(node, port).0
    }
}
