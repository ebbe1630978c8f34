//! The law of appeals to one's own contest.

ghost use Rattle.bhs_theorems_isolation.specs.OwnAppeals.{OwnMatchesStandTheirAppeal};

/// Each match that a contest under the oblivious schedule gives back settled stands an appeal to the tournament's match
/// of its number.
pub fn own_matches_stand_their_appeal()
    ensures { OwnMatchesStandTheirAppeal }
{}
