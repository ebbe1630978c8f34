//! The laws of the search by a chart. The functions have empty bodies: their contracts are the laws.

#![tactic(auto)]

ghost use Rattle.bhs_protocols_charts.specs.ChartLaws.{ChartersSolve};
ghost use Rattle.bhs_protocols_charts.specs.Exactly.{ExactlyFour, ExactlyFourFind, ExactlyOneMore, ExactlyOneMoreFinds};
ghost use Rattle.bhs_protocols_charts.specs.Exactly.{LinksSuffice, RegularNetworksSuffice, ThreeLinksSuffice};
ghost use Rattle.bhs_protocols_charts.specs.Square.{TheSquareIsSolved};

/// More agents than the black hole has links solve a match on any network without a map, if they can tell how many
/// links these are.
pub fn charters_solve()
    ensures { ChartersSolve }
{}

/// One agent more than the greatest degree suffices for all networks of a size without a map, if the agents are told
/// the number of links, if no node has more than three, or if all nodes have the same number and the agents are told
/// it.
pub fn one_more_suffices()
    ensures links { LinksSuffice }
    ensures three { ThreeLinksSuffice }
    ensures regular { RegularNetworksSuffice }
{}

/// Four agents solve all networks of eight nodes and greatest degree 3. No team of fewer agents solves them all, or
/// finds each black hole.
pub fn exactly_four()
    ensures solves { ExactlyFour }
    ensures finds { ExactlyFourFind }
{}

/// At certain sizes and numbers of links, one agent more than the greatest degree suffices for all networks with this
/// degree if the agents are told both numbers. No team of fewer agents solves them all, or finds each black hole.
pub fn exactly_one_more()
    ensures solves { ExactlyOneMore }
    ensures finds { ExactlyOneMoreFinds }
{}

/// Four agents on a network of four nodes, worked out under one schedule.
pub fn the_square_is_solved()
    ensures { TheSquareIsSolved }
{}
