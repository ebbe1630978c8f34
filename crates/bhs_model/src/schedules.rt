//! How schedules of a match are drawn, and which kind of schedule is searched for.

/// How the next agent is drawn among those that can move.
#[derive(Clone, Copy, Debug, PartialEq, Eq)]
pub enum Scheduler {
    /// Each is as likely.
    Fair,
    /// Agents go as far as they can, and of those on links the one arrives that departed last.
    LastDeparted,
    /// One agent moves only if no other agent can: the agent with the schedule's number, modulo the team's size.
    Starved,
    /// Some agents are slow to be answered, and some to arrive, for the whole schedule; sleepers wake seldom.
    SlowAgents,
    /// Some links are slow, each in its two directions, for the whole schedule.
    SlowLinks,
}

/// What a schedule that does not fail shall have most of: moves, or lost agents.
#[derive(Clone, Copy, Debug, PartialEq, Eq)]
pub enum Objective {
    Moves,
    Lost,
}
