//! What holds under every schedule, of protocols and of any team. The functions do nothing: their contracts are laws.

ghost use Rattle.bhs_protocols.specs.AllRings.{RingsAreRings, ShuttleSolvesAllRings};
ghost use Rattle.bhs_protocols.specs.Alone.{OneAloneFails, OneAloneFailsOnNetworks};
ghost use Rattle.bhs_protocols.specs.Attained.{HalvesAttain, HalvesAttainOnAllRings, HalvesAttainOnStandardRings};
ghost use Rattle.bhs_protocols.specs.Attained.{ShuttleAttains, ShuttleAttainsOnAllRings, ShuttleAttainsSquares};
ghost use Rattle.bhs_protocols.specs.Attained.{WorstDistances, WorstIsWithin};
ghost use Rattle.bhs_protocols.specs.Endless.{RepeatersDoNotRest, RepeatersSolveAtRest};
ghost use Rattle.bhs_protocols.specs.HalvesExamples.{OnFive, OnFour, OnSix, OnThree};
ghost use Rattle.bhs_protocols.specs.HalvesLaws.{HalvesSolve, HalvesSolveAllRings, TurnsAreFew};
ghost use Rattle.bhs_protocols.specs.Halving.{LastWaysArePaid, MovesAre, MovesAreFew, RoundsAreLeast, RoundsReach};
ghost use Rattle.bhs_protocols.specs.Halving.{WaysArePaid};
ghost use Rattle.bhs_protocols.specs.LastWord.{AccusationsComeLast, SolversFind};
ghost use Rattle.bhs_protocols.specs.Losses.{ALossIsNeeded, ALossIsNeededOnNetworks, EachBlackHoleDestroys};
ghost use Rattle.bhs_protocols.specs.Losses.{TheHalvesSolveEverywhere};
ghost use Rattle.bhs_protocols.specs.Laws.{InvariantsSolve, ConfigurationsFollow, ShuttleSolves};
ghost use Rattle.bhs_protocols.specs.Quotas.{HalvesHaveTheirQuota, ShuttlesHaveTheirQuota};
ghost use Rattle.bhs_protocols.specs.Sizes.{NoTeamFindsOnTwoSizes, NoTeamSolvesTwoSizes};
ghost use Rattle.bhs_protocols.specs.StandardRings.{MovesAreSquares, ShuttleSolvesStandardRings, StandardRings};
ghost use Rattle.bhs_protocols.specs.StandardRings.{StandardRingsAreNetworks, StandardRingsAreSet, TheTriangleIsSolved};

/// A match that is played can be followed without its events and without pasts.
pub fn configurations_follow()
    ensures { ConfigurationsFollow }
{}

/// An invariant with a number that falls shows that agents solve a match under every schedule.
pub fn invariants_solve()
    ensures { InvariantsSolve }
{}

/// The shuttle solves every ring, within bounds by the distances of the black hole.
pub fn the_shuttle_solves()
    ensures { ShuttleSolves }
{}

/// The standard ring of each size is a ring, so the shuttle solves it, in fewer moves than the squares of the distances
/// of the black hole make together.
pub fn the_shuttle_solves_standard_rings()
    ensures are_rings { StandardRings }
    ensures solves { ShuttleSolvesStandardRings }
    ensures moves { MovesAreSquares }
{}

/// The standard ring of each size that a file can name is a network of a file, so the theorems on rings of files speak
/// of it.
pub fn standard_rings_are_networks()
    ensures networks { StandardRingsAreNetworks }
    ensures set { StandardRingsAreSet }
{}

/// The shuttle on a triangle, worked out by hand.
pub fn worked_examples()
    ensures { TheTriangleIsSolved }
{}

/// One agent alone that comes to rest does not solve the match with every black hole.
pub fn one_alone_fails()
    ensures fails { OneAloneFails }
    ensures on_networks { OneAloneFailsOnNetworks }
{}

/// The shuttle solves each network of a file whose nodes have two links each, however its ports are numbered.
pub fn the_shuttle_solves_all_rings()
    ensures are_rings { RingsAreRings }
    ensures solves { ShuttleSolvesAllRings }
{}

/// The bound of the shuttle is attained: on each ring, with each black hole, some schedule makes all those moves.
pub fn the_shuttle_bound_is_attained()
    ensures attained { ShuttleAttains }
    ensures squares { ShuttleAttainsSquares }
    ensures all_rings { ShuttleAttainsOnAllRings }
{}

/// A team that finds the black hole whichever node it is has reached all the others before it accuses.
pub fn accusations_come_last()
    ensures { AccusationsComeLast }
{}

/// A team that solves the match whichever node is the black hole finds it: what it accuses is right, and no schedule
/// keeps it from accusing.
pub fn solvers_find()
    ensures { SolversFind }
{}

/// A team that solves the match whichever node is the black hole loses an agent to each of them under some schedule.
pub fn a_loss_is_needed()
    ensures each { EachBlackHoleDestroys }
    ensures needed { ALossIsNeeded }
    ensures on_networks { ALossIsNeededOnNetworks }
    ensures halves { TheHalvesSolveEverywhere }
{}

/// A team that is not told how many nodes a ring has finds the black holes of no two sizes of rings, so it does not
/// solve them.
pub fn no_team_solves_two_sizes()
    ensures finds { NoTeamFindsOnTwoSizes }
    ensures solves { NoTeamSolvesTwoSizes }
{}

/// Agents that say Enter for ever solve a match under every schedule that comes to rest, so `IsSolved` also says that
/// schedules end.
pub fn repeaters_solve()
    ensures said { RepeatersSolveAtRest }
    ensures but { RepeatersDoNotRest }
{}

/// What a search by halves costs: each way is paid for, and all that is paid for is order n log n.
pub fn halving_costs()
    ensures paid { WaysArePaid }
    ensures last { LastWaysArePaid }
    ensures all { MovesAre }
    ensures few { MovesAreFew }
    ensures least { RoundsAreLeast }
    ensures reach { RoundsReach }
{}

/// Up to which size a file can set the quota that the searches ask for.
pub fn quotas_of_files()
    ensures halves { HalvesHaveTheirQuota }
    ensures shuttle { ShuttlesHaveTheirQuota }
{}

/// The search by halves on small rings, worked out.
pub fn halves_examples()
    ensures three { OnThree }
    ensures four { OnFour }
    ensures five { OnFive }
    ensures six { OnSix }
{}

/// The bound of the search by halves is attained: on each ring some schedule makes all those moves.
pub fn the_halves_bound_is_attained()
    ensures within { WorstIsWithin }
    ensures attained { HalvesAttain }
    ensures standard { HalvesAttainOnStandardRings }
    ensures all_rings { HalvesAttainOnAllRings }
    ensures distances { WorstDistances }
{}

/// The search by halves solves every ring, in order n log n moves.
pub fn the_halves_solve()
    ensures solves { HalvesSolve }
    ensures few { TurnsAreFew }
{}

/// The search by halves solves each network of a file whose nodes have two links each, however its ports are numbered.
pub fn the_halves_solve_all_rings()
    ensures { HalvesSolveAllRings }
{}
