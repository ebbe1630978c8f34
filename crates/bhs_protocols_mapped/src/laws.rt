//! What holds under every schedule of agents that have a map. The functions do nothing: their contracts are laws.

ghost use Rattle.bhs_protocols_mapped.specs.Cuts.{NoTeamLooksBehindACut, NoTeamPassesACut};
ghost use Rattle.bhs_protocols_mapped.specs.Diamond.{TheDiamondHasATour, TheDiamondIsSolved, TheDiamondIsToured};
ghost use Rattle.bhs_protocols_mapped.specs.Guides.{NetworksHaveGuides, OnlyNetworksHaveGuides};
ghost use Rattle.bhs_protocols_mapped.specs.MapLaws.{GuidedAgentsAttain, GuidedAgentsSolve, GuidedMovesAreFew};
ghost use Rattle.bhs_protocols_mapped.specs.MapLaws.{OneLossIsNeededAndSuffices, StandardRingsAreSetAt};
ghost use Rattle.bhs_protocols_mapped.specs.MapLaws.{TwoAgentsWithAMapSolve};
ghost use Rattle.bhs_protocols_mapped.specs.Parts.{PartsAttain, PartsSuffice};
ghost use Rattle.bhs_protocols_mapped.specs.Tours.{HalvesAttainWithATour, HalvesSolveWithATour};

/// Each network of a file has a guide from each home base, and only these networks have.
pub fn networks_have_guides()
    ensures all { NetworksHaveGuides }
    ensures only { OnlyNetworksHaveGuides }
{}

/// Two agents with a guide solve the match wherever the black hole is, within the moves of this bound: each agent walks
/// to every node of its side and returns by the same route. Some schedule makes them spend the bound exactly; it is at
/// most the shuttle's bound on a ring.
pub fn guided_agents_solve()
    ensures solves { GuidedAgentsSolve }
    ensures attained { GuidedAgentsAttain }
    ensures few { GuidedMovesAreFew }
{}

/// Two agents that have a map solve each network of a file, from each home base and with each black hole. Standard
/// rings are matches of which that speaks.
pub fn two_agents_with_a_map_solve()
    ensures solves { TwoAgentsWithAMapSolve }
    ensures rings { StandardRingsAreSetAt }
{}

/// They solve with every black hole, and so one loss is needed and suffices on each network of a file.
pub fn one_loss_is_needed_and_suffices()
    ensures { OneLossIsNeededAndSuffices }
{}

/// No team solves a network with the black hole at a node without which it falls apart, and on such a network no team
/// finds the black hole whichever node it is.
pub fn no_team_passes_a_cut()
    ensures solves { NoTeamPassesACut }
    ensures finds { NoTeamLooksBehindACut }
{}

/// What strategies do on a part of a network, agents that have a map can do on the network: so two of them search a
/// network with a tour by halves.
pub fn tours_suffice()
    ensures parts { PartsSuffice }
    ensures moves { PartsAttain }
    ensures halves { HalvesSolveWithATour }
    ensures attained { HalvesAttainWithATour }
{}

/// A search by a guide, and one of a ring in the same network, worked out by hand.
pub fn worked_examples()
    ensures guided { TheDiamondIsSolved }
    ensures tour { TheDiamondHasATour }
    ensures toured { TheDiamondIsToured }
{}
