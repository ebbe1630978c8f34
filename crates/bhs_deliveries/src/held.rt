//! The links over which no agent arrives.

ghost use Rattle.std.specs.Prelude.{◌≡◌, ◌⊎◌, ℕ, IfOk, OnOk, IfErr, None, Some};
ghost use Rattle.bhs_deliveries.specs.Links.{first_strange, held_in};

use crate::faults::HeldFault;
use crate::marks::{check, marks};
use bhs_model::is_port_marked;
use bhs_net::Net;
use std::alloc::Global;
use std::marker::Model;

/// The directed links over which no draw lets an agent arrive: each a node and the port by which it is left. Contracts
/// see them as the list of pairs that they were made from.
#[derive(Debug, Drop)]
pub struct Held {
    pairs: Vec<(u16, u16)>,
    marks: Vec<Vec<bool>>,
}

impl Model for Held {
    ghost use Rattle.std.specs.Prelude.{ℕ, List};

    ghost Value = { List (ℕ × ℕ) };

    ghost use Rattle.bhs_model.specs.PortMarks.{marks_of};
    ghost use Rattle.bhs_deliveries.specs.Marking.{AreMarksOf};

    ghost view = { λ held. held.pairs.items };

    ghost invariant = { λ held. AreMarksOf held.pairs.items (marks_of held.marks.items) };
}

impl Held {
    /// The links that these pairs of a node and a port name. `HeldFault::At` tells the first pair that is no port of a
    /// node of the network; a pair may stand there more than once. A node has as many marks as its held links need.
    pub fn new(alloc: Global, net: &Net, pairs: &[(u16, u16)]) -> Result<Held, HeldFault>
        ensures ok { IfOk result (λ held. held ≡ pairs.now) }
        ensures ports { OnOk result (first_strange net.now pairs.now ≡ None) }
        ensures err { IfErr result (λ fault. (fault ≡ HeldFault.Memory)
            ⊎ ((index : ℕ) × (fault ≡ HeldFault.At index) × (first_strange net.now pairs.now ≡ Some index))) }
    {
        check(net, pairs)?;
        let marks = marks(alloc, net, pairs)?;
        let pairs = Vec::from_slice(alloc, pairs)?;
        Ok(Held { pairs, marks })
    }

    /// Whether the link that leaves the node by the port is held.
    pub fn has(&self, node: u16, port: u16) -> bool
        ensures { result ≡ held_in self.now node port }
    {
        is_port_marked(&self.marks, node, port)
    }
}
