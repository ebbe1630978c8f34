//! The law of attested logs, and a worked instance. The functions do nothing.

ghost use Rattle.bhs_attest.specs.Example.{ItIsASchedule, ItIsFollowed};
ghost use Rattle.bhs_attest.specs.Laws.{FollowedLogsAreSchedules};

/// Let each agent of a closed match follow its strategy through the log. Then some schedule of these strategies has the
/// log: the match keeps these events of the schedule, and the last event is a Close.
pub fn followed_logs_are_schedules()
    ensures { FollowedLogsAreSchedules }
{}

/// A match of one agent that sleeps once, enters and leaves: its log is followed, and it is a schedule.
pub fn worked_log()
    ensures followed { ItIsFollowed }
    ensures schedule { ItIsASchedule }
{}
