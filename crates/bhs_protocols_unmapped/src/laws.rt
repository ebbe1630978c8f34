//! What no team can do that is told the number of nodes and the greatest degree only.

#![tactic(auto)]

ghost use Rattle.bhs_protocols_unmapped.specs.Ambiguity.{NobodyFinds, NobodySolves};
ghost use Rattle.bhs_protocols_unmapped.specs.Degrees.{LinksTell, ParityTells, TheSquareTells};
ghost use Rattle.bhs_protocols_unmapped.specs.Lookalikes.{TheThreeLookAlike};

/// No team of any number of agents finds the black hole on all networks of a greatest degree of 4 or more without a
/// map, so none solves them all.
pub fn nobody_finds()
    ensures finds { NobodyFinds }
    ensures solves { NobodySolves }
{}

/// What tells agents how many links the black hole has, once they have seen all other nodes: the number of links of the
/// network, or that no node has more than three.
pub fn the_other_nodes_tell()
    ensures links { LinksTell }
    ensures parity { ParityTells }
    ensures worked { TheSquareTells }
{}

/// Three networks of ten nodes, worked out: they have one greatest degree, and all nodes but one have as many ports
/// together, but that node has four links on the first, and two on the others.
pub fn three_networks_look_alike()
    ensures { TheThreeLookAlike }
{}
