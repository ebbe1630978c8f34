//! The network of the benchmark: a torus, a square of nodes in rows, each joined to the next in its row and in its
//! column, and the last to the first.

ghost use Rattle.std.specs.Prelude.{◌<◌};

use crate::faults::BenchFault;
use bhs_model::{DarkLinks, Holes, Setup};
use bhs_net::{Link, Net};
use std::alloc::Global;

// How many nodes a row has, and a column.
const SIDE: u16 = 16;

/// The number of nodes: a network's largest.
pub const NODES: u16 = 256;

/// How many commands an agent may use.
pub const QUOTA: u16 = 1000;

/// The number of ports of each node: right, left, down and up.
pub const PORTS: u16 = 4;

// The node of a row and a column, which go on at the first behind the last.
fn node_at(row: u16, column: u16) -> u16
    ensures { result < NODES }
{
    row % SIDE * SIDE + column % SIDE
}

/// Returns the links of the torus: for each node the links to the right and down.
pub fn links(alloc: Global) -> Result<Vec<Link>, BenchFault> {
    let mut links = Vec::new(alloc);
    for row in 0..SIDE {
        for column in 0..SIDE {
            let node = node_at(row, column);
            links.push(Link {
                v: node,
                p: 0,
                w: node_at(row, column + 1),
                q: 1,
            })?;
            links.push(Link {
                v: node,
                p: 2,
                w: node_at(row + 1, column),
                q: 3,
            })?;
        }
    }
    Ok(links)
}

/// The torus.
pub fn torus(alloc: Global) -> Result<Net, BenchFault> {
    Ok(Net::try_new(alloc, NODES, links(alloc)?.as_slice())?)
}

/// A match of this number of agents on the torus. No node destroys and no link is dark, so that each agent plays until
/// its quota is spent.
pub fn setup(alloc: Global, agents: u16) -> Setup {
    Setup {
        home: 0,
        holes: Holes::from(Vec::new(alloc)),
        dark: DarkLinks::from(Vec::new(alloc)),
        agents,
        quota: QUOTA,
        board: 1024,
    }
}
