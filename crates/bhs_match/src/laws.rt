//! The laws of a match. Each holds for every world and every list of events; the functions do nothing.

ghost use Rattle.bhs_match.specs.Laws.{ArrivalsAreBounded, LogsAreBounded, LogsGrow, LogsTellAll, PoolsAreOfAgents};

/// What a match does not keep in its log changes nothing: pasts, positions, last writes and the pool of all that
/// happened are those of the log, and so is what the kept events were answered.
pub fn logs_tell_all()
    ensures { LogsTellAll }
{}

/// Hence replies after the log equal replies after all events, and the log keeps growing by the kept events.
pub fn logs_grow()
    ensures { LogsGrow }
{}

/// Every log fits into its reserved memory.
pub fn logs_are_bounded()
    ensures { LogsAreBounded }
{}

/// No agent has more arrivals than its quota.
pub fn arrivals_are_bounded()
    ensures { ArrivalsAreBounded }
{}

/// The pool agrees with the model's pool and contains each agent at most once.
pub fn pools_are_of_agents()
    ensures { PoolsAreOfAgents }
{}
