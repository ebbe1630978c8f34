//! The laws of time. Each holds for every world, every oblivious schedule and every timed execution; the functions do
//! nothing.

ghost use Rattle.bhs_time.specs.Contests.{MatchesAreApartInTime};
ghost use Rattle.bhs_time.specs.Leaving.{CutsSufficeInTime, TheUnseenMayBeLeftOut};
ghost use Rattle.bhs_time.specs.Rows.{
  ADepartureKeepsItsTurn,
  AHeldLinkHolds,
  ALogWithItsTurns,
  AnArrivalInAPast,
  APickThatDoesNothing,
  AWalkWithItsTurns,
  HowLongALinkTakes,
  OthersShowInNoTurn,
  ThePoolTells,
  WhoIsReleased,
};
ghost use Rattle.bhs_time.specs.Stamps.{DeliveriesInTimeArrivePunctually, EqualWaitsInLogs, EveryArrivalInLogs};
ghost use Rattle.bhs_time.specs.Stamps.{TurnsSayWhatWasMet};
ghost use Rattle.bhs_time.specs.TimedLogs.{TimedLogsAreInTime, TimedLogsAscend, TimedLogsCrossNoHeldLink};
ghost use Rattle.bhs_time.specs.TimedLogs.{TimedLogsMayBeCut};
ghost use Rattle.bhs_time.specs.Laws.{
  ArrivalsAreByTheWords,
  ClocksOnlyStamp,
  EqualPastsInTime,
  EqualWaits,
  HolesDoNotShowInTime,
  HolesLookSlowInTime,
  IsolatedInTime,
};

/// Without its turns a timed execution is the match of its events.
pub fn clocks_only_stamp()
    ensures { ClocksOnlyStamp }
{}

/// An agent arrives at the first turn since its departure that releases it.
pub fn arrivals_are_by_the_words()
    ensures { ArrivalsAreByTheWords }
{}

/// An agent with the same timed view in two matches waits for the same number of turns, whatever else differs.
pub fn equal_waits_in_time()
    ensures { EqualWaits }
{}

/// Isolation in time: agents that met the same at the same turns arrive at the same turns.
pub fn isolated_in_time()
    ensures { IsolatedInTime }
{}

/// Agents that met the same at the same turns are answered alike.
pub fn equal_pasts_in_time()
    ensures { EqualPastsInTime }
{}

/// What watched agents do not see may be left out: their pasts stay the same, with all turns.
pub fn the_unseen_may_be_left_out()
    ensures { TheUnseenMayBeLeftOut }
{}

/// What is said outside an agent's cut changes neither its past nor any turn in it.
pub fn cuts_suffice_in_time()
    ensures { CutsSufficeInTime }
{}

/// Unreached black holes and uncrossed dark links show in no turn of an agent's past.
pub fn holes_do_not_show_in_time()
    ensures { HolesDoNotShowInTime }
{}

/// No agent can tell black holes and dark links from links that are held for good, whatever turns it counts.
pub fn holes_look_slow_in_time()
    ensures { HolesLookSlowInTime }
{}

/// Non-interference in time: a match of a contest behaves as it does alone, with equal turns.
pub fn matches_are_apart_in_time()
    ensures { MatchesAreApartInTime }
{}

/// The events of a match with their turns say all that its agents met, and when.
pub fn turns_say_what_was_met()
    ensures { TurnsSayWhatWasMet }
{}

/// In a log whose deliveries were made in time, each arrival was at the first turn that released its agent.
pub fn deliveries_in_time_arrive_punctually()
    ensures { DeliveriesInTimeArrivePunctually }
{}

/// Agents with equal timed views arrive after equally many turns, in one log as in another, if the deliveries of both
/// were made in time.
pub fn equal_waits_in_logs()
    ensures { EqualWaitsInLogs }
{}

/// Every arrival, anywhere in the past of an agent: equal turns of departure give equal turns of arrival.
pub fn every_arrival_in_logs()
    ensures { EveryArrivalInLogs }
{}

/// A log that a timed execution leaves has each delivery in time.
pub fn timed_logs_are_in_time()
    ensures { TimedLogsAreInTime }
{}

/// The turns of a log that a timed execution leaves ascend.
pub fn timed_logs_ascend()
    ensures { TimedLogsAscend }
{}

/// No delivery in a log that a timed execution leaves is over a held link.
pub fn timed_logs_cross_no_held_link()
    ensures { TimedLogsCrossNoHeldLink }
{}

/// A log that a timed execution leaves may be cut short.
pub fn timed_logs_may_be_cut()
    ensures { TimedLogsMayBeCut }
{}

/// What the definitions give on a triangle, worked out by hand.
pub fn worked_rows()
    ensures how_long_a_link_takes { HowLongALinkTakes }
    ensures who_is_released { WhoIsReleased }
    ensures a_walk_with_its_turns { AWalkWithItsTurns }
    ensures others_show_in_no_turn { OthersShowInNoTurn }
    ensures a_pick_that_does_nothing { APickThatDoesNothing }
    ensures a_departure_keeps_its_turn { ADepartureKeepsItsTurn }
    ensures a_held_link_holds { AHeldLinkHolds }
    ensures a_log_with_its_turns { ALogWithItsTurns }
    ensures an_arrival_in_a_past { AnArrivalInAPast }
    ensures the_pool_tells { ThePoolTells }
{}
