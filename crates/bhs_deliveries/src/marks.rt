//! The pairs that name held links, and marks at them, by which a link is looked up in one step.

ghost use Rattle.std.specs.Prelude.{◌≡◌, ℕ, IfOk, OnOk, IfErr, None, Some};
ghost use Rattle.bhs_deliveries.specs.Links.{first_strange, is_port_of};
ghost use Rattle.bhs_model.specs.PortMarks.{marks_of};
ghost use Rattle.bhs_deliveries.specs.Marking.{AreMarksOf};

use crate::faults::HeldFault;
use bhs_model::{make_room, mark_port, no_port_marks};
use bhs_net::Net;
use std::alloc::{AllocError, Global};

pub(crate) fn is_port(net: &Net, pair: (u16, u16)) -> bool
    ensures { result ≡ is_port_of net.now pair }
{
    let (node, port) = pair;
    node < net.nodes() && port < net.degree(node)
}

// The place of the first pair that is no port of a node.
fn first_strange(net: &Net, pairs: &[(u16, u16)]) -> Option<usize>
    ensures { result ≡ first_strange net.now pairs.now }
{
    pairs.iter().position(|pair| !is_port(net, *pair))
}

/// Refuses the first pair that names no existing port.
pub(crate) fn check(net: &Net, pairs: &[(u16, u16)]) -> Result<(), HeldFault>
    ensures ok { OnOk result (first_strange net.now pairs.now ≡ None) }
    ensures err { IfErr result (λ fault. (index : ℕ) × (fault ≡ HeldFault.At index)
        × (first_strange net.now pairs.now ≡ Some index)) }
{
    match first_strange(net, pairs) {
        Some(index) => Err(HeldFault::At { index }),
        None => Ok(()),
    }
}

/// Marks at the links that the pairs name. Each pair is a port of a node.
pub(crate) fn marks(
    alloc: Global,
    net: &Net,
    pairs: &[(u16, u16)],
) -> Result<Vec<Vec<bool>>, AllocError>
    requires { first_strange net.now pairs.now ≡ None }
    ensures { IfOk result (λ marks. AreMarksOf pairs.now (marks_of marks.items)) }
{
    let mut marks = no_port_marks(alloc, net.nodes())?;
    for pair in pairs {
        make_room(&mut marks, pair.0, pair.1)?;
        mark_port(&mut marks, pair.0, pair.1);
    }
    Ok(marks)
}
