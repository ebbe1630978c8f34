//! Deadlock freedom by ranks, and progress in rounds.

#![tactic(auto)]

ghost use Rattle.bhs_progress.specs.Locks.{WaitsEnd};
ghost use Rattle.bhs_progress.specs.Rounds.{RoundsSuffice};
ghost use Rattle.bhs_progress.specs.Sessions.{EachLineIsAnswered, ThreeRounds};

/// Deadlock freedom: if a thread waits only for locks of a higher rank than those that it holds, each chain of waiting
/// threads ends at a thread that waits for no lock.
pub fn nobody_waits_in_a_circle()
    ensures { WaitsEnd }
{}

/// The proof rule for progress: let a measure never grow, and let the turn of one thread, which stays the same until
/// then, decrease it. Then the measure is 0 after as many rounds as its value.
pub fn rounds_suffice<S>()
    ensures { RoundsSuffice S }
{}

/// A session has answered each line that it has read, or has ended, after two rounds for each unanswered line, one for
/// each turn that the match has left, its close among them, and one more. This holds for all agents, networks, draws
/// and clients.
pub fn each_line_is_answered()
    ensures { EachLineIsAnswered }
{}

/// Three rounds of a match with two sessions, by computation.
pub fn worked_rounds()
    ensures { ThreeRounds }
{}
