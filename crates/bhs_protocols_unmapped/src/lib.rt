//! How many agents a search without a map needs. The functions do nothing: their contracts are laws.

#![tactic(auto)]

ghost use Rattle.bhs_protocols_unmapped.specs.Unmapped.{HalvesSolveNetworks, ManyAgentsAreNeeded};
ghost use Rattle.bhs_protocols_unmapped.specs.Unmapped.{ManyAgentsAreNeededToFind};
ghost use Rattle.bhs_protocols_unmapped.specs.Unmapped.{ManyAgentsAreNeededToFindWithLinks};
ghost use Rattle.bhs_protocols_unmapped.specs.Unmapped.{ManyAgentsAreNeededWithLinks};

pub mod laws;

/// No team of as many agents as a node has links finds the black hole on all networks of this degree without a map, so
/// none solves them all. This also holds of teams that are told the number of links.
pub fn many_agents_are_needed()
    ensures finds { ManyAgentsAreNeededToFind }
    ensures solves { ManyAgentsAreNeeded }
    ensures finds_with_links { ManyAgentsAreNeededToFindWithLinks }
    ensures solves_with_links { ManyAgentsAreNeededWithLinks }
{}

/// Two agents that search by halves solve all networks whose greatest degree is 2.
pub fn two_agents_suffice_on_rings()
    ensures { HalvesSolveNetworks }
{}
