//! A port-labelled network.

ghost use Rattle.std.specs.Prelude.{◌≡◌, ◌<◌, ◌*◌, length, IfOk, IfErr};
ghost use Rattle.bhs_net.specs.Network.{nodes_of, degree_of, far_of, ports_of, IsNetwork, Makes};
ghost use Rattle.bhs_net.specs.Faults.{Refuses};

use crate::faults::NetFault;
use crate::link_rows::{End, listed};
use crate::links::Link;
use crate::search::check_paths;
use std::alloc::{AllocError, Global};
use std::marker::Model;

/// A network: a simple graph of nodes 0 to `nodes() - 1`, connected, and still connected when any one node is removed.
/// At each node the links carry distinct labels, the ports 0 to `degree(v) - 1`; the two labels of one link need not
/// agree.
#[derive(Debug, Drop)]
pub struct Net {
    rows: Vec<Vec<End>>,
    links: usize,
}

impl Model for Net {
    ghost use Rattle.std.specs.Prelude.{◌≡◌, ◌*◌};
    ghost use Rattle.bhs_net.specs.Network.{Network, network_of, ports_of, IsNetwork};

    ghost Value = { Network };

    ghost view = { λ net. network_of net.rows.items };

    ghost invariant = { λ net. IsNetwork (network_of net.rows.items)
        × (ports_of (network_of net.rows.items) ≡ 2 * net.links) };
}

impl Net {
    /// Builds the network of `nodes` nodes from these links. The list may have ports in any order, and each link from
    /// either end. Fails with the first fault, or with `NetFault::Memory` if memory runs out.
    pub fn try_new(alloc: Global, nodes: u16, links: &[Link]) -> Result<Net, NetFault>
        ensures made { IfOk result (Makes nodes links.now) }
        ensures count { IfOk result (λ net. ports_of net ≡ 2 * length links.now) }
        ensures refused { IfErr result (Refuses nodes links.now) }
    {
        let rows = listed(alloc, nodes, links)?;
        check_paths(alloc, &rows)?;
        Ok(Net {
            rows,
            links: links.len(),
        })
    }

    /// How many nodes there are, from `MIN_NODES` to `MAX_NODES`.
    pub fn nodes(&self) -> u16
        ensures count { result ≡ nodes_of self.now }
        ensures network { IsNetwork self.now }
    {
        self.rows.len() as u16
    }

    /// How many links there are: half as many as ports.
    pub fn links(&self) -> usize
        ensures { ports_of self.now ≡ 2 * result }
    {
        self.links
    }

    /// How many ports the node has.
    pub fn degree(&self, v: u16) -> u16
        requires { v < nodes_of self.now }
        ensures count { result ≡ degree_of self.now v }
        ensures network { IsNetwork self.now }
    {
        self.rows[usize::from(v)].len() as u16
    }

    /// The far end of the link at port `p` of node `v`: its node, and its port there. Only a node has ports.
    pub fn far(&self, v: u16, p: u16) -> (u16, u16)
        requires { p < degree_of self.now v }
        ensures end { result ≡ far_of self.now v p }
        ensures node { result.0 < nodes_of self.now }
        ensures network { IsNetwork self.now }
    {
        self.rows[usize::from(v)][usize::from(p)]
    }

    /// Returns the far end of the link at an end (a node and a port), or (0, 0) if the node has no such port.
    pub fn far_end(&self, end: (u16, u16)) -> (u16, u16)
        ensures { result ≡ far_of self.now end.0 end.1 }
    {
        let (node, port) = end;
        if node < self.nodes() && port < self.degree(node) {
            self.far(node, port)
        } else {
            (0, 0)
        }
    }

    /// An equal network of its own.
    pub fn try_clone(&self, alloc: Global) -> Result<Net, AllocError>
        ensures { IfOk result (λ net. net ≡ self.now) }
    {
        let mut rows = Vec::new(alloc);
        for row in &self.rows {
            rows.push(Vec::from_slice(alloc, row)?)?;
        }
        Ok(Net {
            rows,
            links: self.links,
        })
    }
}
