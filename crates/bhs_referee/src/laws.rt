//! Laws of the definitions alone. The functions do nothing.

ghost use Rattle.bhs_referee.specs.Rest.{DecidedMatchesAreDone, VerdictsAreAfterEvents, VerdictsStand};

/// Once each agent has ended or is lost, no further event changes the verdict. This is the case where a match's
/// `is_decided` returns true.
pub fn verdicts_stand()
    ensures stand { VerdictsStand }
    ensures decided { DecidedMatchesAreDone }
    ensures given { VerdictsAreAfterEvents }
{}
