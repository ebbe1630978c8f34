//! Laws on a search of any network with a map: two agents need order n log n moves. The functions have no body; their
//! contracts are the theorems.

#![tactic(auto)]

ghost use Rattle.bhs_protocols_divided.specs.DividedBound.{IsOrderNLogN};
ghost use Rattle.bhs_protocols_divided.specs.DividedDiamond.{OneDivides, OneGoesAhead, OneIsTold, SmallRows};
ghost use Rattle.bhs_protocols_divided.specs.DividedDiamond.{TheDiamondHasAPlan, TheDiamondIsSolvedAlways};
ghost use Rattle.bhs_protocols_divided.specs.DividingLaws.{DividersSolve, TwoAgentsDivide};
ghost use Rattle.bhs_protocols_divided.specs.Plans.{NetworksHavePlans};

/// Two agents that follow a plan for a network of n nodes solve the match under every schedule, whichever node is the
/// black hole, within 6 (n - 2) R + 2 (n - 1) moves, where R is the least number with n - 1 ≤ 2^R.
pub fn dividers_solve()
    ensures { DividersSolve }
{}

/// Each network of a file has a plan from each home base. The plan depends on the network and the home base alone.
pub fn networks_have_plans()
    ensures { NetworksHavePlans }
{}

/// Two agents that have a map solve each network of a file in order n log n moves, from each home base, with each black
/// hole, and under every schedule.
pub fn two_agents_divide()
    ensures { TwoAgentsDivide }
{}

/// Order n log n moves are necessary and sufficient for two agents with a map: those that suffice on each network of n
/// nodes are at most seven times those that every team of two needs on the ring of n nodes.
pub fn order_n_log_n()
    ensures { IsOrderNLogN }
{}

/// A search by a plan of a square with one link across, worked out by hand.
pub fn worked_examples()
    ensures ahead { OneGoesAhead }
    ensures divides { OneDivides }
    ensures told { OneIsTold }
    ensures plan { TheDiamondHasAPlan }
    ensures always { TheDiamondIsSolvedAlways }
    ensures rows { SmallRows }
{}
