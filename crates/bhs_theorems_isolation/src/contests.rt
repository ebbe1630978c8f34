//! What a session wrote is a function of its agent's past. Each contract is a law; the functions do nothing.

ghost use Rattle.bhs_theorems_isolation.specs.ContestExample.{AllIsInTurn, TheArrivalIsThis, TheHeadlineSpeaksOfIt};
ghost use Rattle.bhs_theorems_isolation.specs.ContestExample.{TheReceiptsAreThese};
ghost use Rattle.bhs_theorems_isolation.specs.ContestExample.{ThePastIsOfWhatWasMet, TheTextIsOfWhatWasMet};
ghost use Rattle.bhs_theorems_isolation.specs.ContestExample.{TheHeadlineSpeaksOfTheOther, ThePastsAreEqual};
ghost use Rattle.bhs_theorems_isolation.specs.ContestExample.{TheSameWasFed};
ghost use Rattle.bhs_theorems_isolation.specs.ContestExample.{TheHeadlineSpeaksOfWhoIsOnALink};
ghost use Rattle.bhs_theorems_isolation.specs.ContestMet.{AttendedTookPart, EqualPastsAreSentEqualBytes, SentAsMet};
ghost use Rattle.bhs_theorems_isolation.specs.ContestTime.{EqualWaitsInContests, EveryArrivalInContests};
ghost use Rattle.bhs_theorems_isolation.specs.ServedSessions.{ServedSessionsTookPart};
ghost use Rattle.bhs_theorems_isolation.specs.TimeExample.{TheTheoremOfTimeSpeaksOfThem};

use bhs_stream::{Input, Output};

/// A session that `attend` served took part in its match, once the shared match settled with the session's pass.
pub fn attended_sessions_took_part<I: Input, O: Output>()
    ensures { AttendedTookPart I.gives O.takes }
{}

/// Each session that a server keeps took part in its match, if the match settled: the contract of `run_server` gives
/// the sessions, and each carries the proof that `attend` served it. Its pass has the quota of its match.
pub fn served_sessions_took_part()
    ensures { ServedSessionsTookPart }
{}

/// A session whose pass settled with its match wrote the bytes of what its agent met in the log, and behind them at
/// most one line; or a front of that, if a write failed or memory ran out.
pub fn sent_as_met()
    ensures { SentAsMet }
{}

/// Two sessions of any two contests, in matches of equal quota and whiteboards of equal size, whose agents have equal
/// pasts in the logs that settled and that were fed equal commands, wrote equal bytes, if each was told all that its
/// agent met: it ended by a Bye, an accusation, or the end of its input or turns, or was told that the match is over
/// while its agent was on a link, as each agent is that was destroyed.
pub fn equal_pasts_are_sent_equal_bytes()
    ensures { EqualPastsAreSentEqualBytes }
{}

/// Agents with equal timed views arrive after equally many turns, in a match of one contest as in a match of another
/// with the same schedule, if both settled.
pub fn equal_waits_in_contests()
    ensures { EqualWaitsInContests }
{}

/// Every arrival, anywhere in the past of an agent, in two matches of any two contests with one schedule, if both
/// settled: equal turns of departure give equal turns of arrival.
pub fn every_arrival_in_contests()
    ensures { EveryArrivalInContests }
{}

/// Worked examples: the session of a client; a session in a match on another network, with other black holes and
/// another number of agents, for which the headline theorem gives the same output; and a session whose agent is on a
/// link at the close.
pub fn worked_session()
    ensures text { TheTextIsOfWhatWasMet }
    ensures receipts { TheReceiptsAreThese }
    ensures arrival { TheArrivalIsThis }
    ensures turns { AllIsInTurn }
    ensures past { ThePastIsOfWhatWasMet }
    ensures headline { TheHeadlineSpeaksOfIt }
    ensures other { TheHeadlineSpeaksOfTheOther }
    ensures equal_pasts { ThePastsAreEqual }
    ensures equal_commands { TheSameWasFed }
    ensures on_a_link { TheHeadlineSpeaksOfWhoIsOnALink }
{}

/// Two matches under one oblivious schedule, on different networks and with any law of delays, worked out by hand: the
/// theorem over every arrival speaks of them.
pub fn worked_walk()
    ensures { TheTheoremOfTimeSpeaksOfThem }
{}
