//! How many moves two agents have to make on a ring, whatever they are. The functions do nothing: their contracts are
//! laws.

#![tactic(auto)]

ghost use Rattle.bhs_protocols_bounds.specs.Bound.{EveryTeamMoves, EveryTeamMovesMore, HalvesSolveWithinTwice};
ghost use Rattle.bhs_protocols_bounds.specs.Bound.{TwoMustMove};
ghost use Rattle.bhs_protocols_bounds.specs.Bound.{TwoMustMoveAtRest, TwoMustMoveMore, TwoMustMoveOnAllRings};
ghost use Rattle.bhs_protocols_bounds.specs.BoundExamples.{HalvesOnEight};

/// Two agents that find the black hole on a ring of n nodes, wherever it is, make R (n - 2) + 1 moves or more with some
/// black hole under some schedule.
pub fn two_must_move()
    ensures finds { TwoMustMove }
    ensures on_all_rings { TwoMustMoveOnAllRings }
    ensures at_rest { TwoMustMoveAtRest }
    ensures more { TwoMustMoveMore }
{}

/// So the search by halves makes at most twice the moves that every team must.
pub fn the_halves_are_within_two()
    ensures every_team { EveryTeamMoves }
    ensures more { EveryTeamMovesMore }
    ensures halves { HalvesSolveWithinTwice }
{}

/// The search by halves on the ring of eight nodes meets what these laws ask.
pub fn worked_examples()
    ensures { HalvesOnEight }
{}
