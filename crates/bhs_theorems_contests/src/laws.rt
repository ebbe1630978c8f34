//! What a team solves under every schedule it solves in a contest. The functions do nothing.

ghost use Rattle.bhs_theorems_contests.specs.AttestedMatches.{AttestedMatchesAreNeverWrong, AttestedMatchesAreSolved};
ghost use Rattle.bhs_theorems_contests.specs.AttestedMatches.{LogsOfSchedulesAreNeverWrong, LogsOfSchedulesAreSolved};
ghost use Rattle.bhs_theorems_contests.specs.Contests.{ContestsAreNeverWrong, ContestsAreSolved, ContestsStayWithin};
ghost use Rattle.bhs_theorems_contests.specs.Contests.{WaitersAreOrderly};
ghost use Rattle.bhs_theorems_contests.specs.Example.{ItIsASchedule, ItIsSolved, TheLawSpeaksOfIt};
ghost use Rattle.bhs_theorems_contests.specs.Instances.{ChartersSolveContests, DividersSolveContests};
ghost use Rattle.bhs_theorems_contests.specs.Instances.{HalvesSolveContests, MapsSolveContests};
ghost use Rattle.bhs_theorems_contests.specs.Instances.{ProgramsWait, ShuttleSolvesContests};
ghost use Rattle.bhs_theorems_contests.specs.ModuleContests.{ModulesAreNeverWrong, ModulesSolveContests};

/// Let every schedule solve a match for the strategies of its agents, and a contest give this match back settled, where
/// a client played each agent by its strategy, line by line. If all agents have ended or are lost, the contest solved
/// the match within the same moves and lost agents. Whenever it ended, no accusation was wrong, and no more moves were
/// made and no more agents lost.
pub fn contests_are_solved()
    ensures solved { ContestsAreSolved }
    ensures never_wrong { ContestsAreNeverWrong }
    ensures within { ContestsStayWithin }
{}

/// Teams whose agents first say Enter, and wait once they have departed, are orderly in each match.
pub fn waiters_are_orderly()
    ensures { WaitersAreOrderly }
{}

/// Agents that search by halves or by the shuttle, follow a guide or a plan, draw a chart, or run a module wait once
/// they have departed.
pub fn programs_wait()
    ensures { ProgramsWait }
{}

/// Two clients that search a ring of a file by halves solve it in a contest, within M moves, one agent lost.
pub fn the_halves_solve_contests()
    ensures { HalvesSolveContests }
{}

/// Two clients that search a ring of a file by the shuttle solve it in a contest, within (n - 1)^2 moves, one agent
/// lost.
pub fn the_shuttle_solves_contests()
    ensures { ShuttleSolvesContests }
{}

/// On each network of a file there is a guide by which two clients that follow it solve each contest, within (n - 1)^2
/// moves, one agent lost.
pub fn maps_solve_contests()
    ensures { MapsSolveContests }
{}

/// Two clients that follow a plan for a network solve each contest there, within 6 (n - 2) R + 2 (n - 1) moves, where R
/// is the binary logarithm of n - 1, rounded up; one agent is lost. Each network of a file has a plan.
pub fn dividers_solve_contests()
    ensures { DividersSolveContests }
{}

/// Clients that draw a chart of a network of a file, more than the black hole has links, solve it in a contest, within
/// 2 (n - 1) s + a (n - 2) moves, as many agents lost as the black hole has links.
pub fn charters_solve_contests()
    ensures { ChartersSolveContests }
{}

/// What `arena explore --module` told that every schedule solves, a settled contest solves within the moves and lost
/// agents that were told, if each agent was played by the file of its line and first says Enter, and all agents have
/// ended or are lost. Whenever it ended, no accusation was wrong, and no more moves were made and no more agents lost.
pub fn modules_solve_contests()
    ensures solved { ModulesSolveContests }
    ensures never_wrong { ModulesAreNeverWrong }
{}

/// Let the log of a match be a schedule of some strategies, and let every schedule of them solve the match. If all
/// agents have ended or are lost, the match is solved within the same moves and lost agents. Whenever it ended, no
/// accusation was wrong, and no more moves were made and no more agents lost. Nothing is assumed of clients.
pub fn logs_of_schedules_are_solved()
    ensures solved { LogsOfSchedulesAreSolved }
    ensures never_wrong { LogsOfSchedulesAreNeverWrong }
{}

/// What `arena explore --module` reported that every schedule solves, a match that `arena attest` has attested for the
/// same files, arguments and spurious wake-ups solves within the reported moves and lost agents, if all agents have
/// ended or are lost. Whenever it ended, no accusation was wrong, and no more moves were made and no more agents lost.
pub fn attested_matches_are_solved()
    ensures solved { AttestedMatchesAreSolved }
    ensures never_wrong { AttestedMatchesAreNeverWrong }
{}

/// A contest of two agents on the triangle, worked out by hand: the laws speak of it and of its log, and its verdict.
pub fn worked_contest()
    ensures law { TheLawSpeaksOfIt }
    ensures schedule { ItIsASchedule }
    ensures verdict { ItIsSolved }
{}
