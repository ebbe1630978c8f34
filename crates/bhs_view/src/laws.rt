//! The laws of matches that have ended. Each holds for every such match; the functions do nothing.

ghost use Rattle.bhs_view.specs.Guesses.{GuessesAreRefuted, SolvedIsNotRefuted};
ghost use Rattle.bhs_view.specs.Laws.{CutsTellAll, EqualPastsAreAnsweredAlike, HolesLookSlow, TwinsLookAlike};

/// The cut of an agent tells all that it saw, and a closed set of places is answered by itself as it was.
pub fn cuts_tell_all()
    ensures { CutsTellAll }
{}

/// Agents with equal pasts were answered alike.
pub fn equal_pasts()
    ensures { EqualPastsAreAnsweredAlike }
{}

/// No agent can tell a match from its twin.
pub fn twins_look_alike()
    ensures { TwinsLookAlike }
{}

/// No agent can tell a match with black holes and dark links from one with slow links.
pub fn holes_look_slow()
    ensures { HolesLookSlow }
{}

/// A twin refutes a guess, and no twin refutes a match that is solved.
pub fn guesses_are_refuted()
    ensures guess { GuessesAreRefuted }
    ensures solved { SolvedIsNotRefuted }
{}
