//! The laws of what stands under the lock of a match.

ghost use Rattle.bhs_theorems_isolation.specs.Timely.{EqualWaitsUnderLocks, HallsAreTimedExecutions};

/// Under the oblivious schedule a match under its lock is a timed execution, whatever calls are made of it.
pub fn locked_matches_are_timed_executions()
    ensures { HallsAreTimedExecutions }
{}

/// Agents with equal timed views arrive after equally many turns, in one match under its lock as in another with the
/// same schedule.
pub fn equal_waits_under_locks()
    ensures { EqualWaitsUnderLocks }
{}
