//! What is kept and reported of a contest while it goes on: parts of its replays in files, and lines for the operator.

use crate::judged::{judged, judged_now};
use crate::locked_files::Keep;
use crate::log::Log;
use crate::log_lines::{
    absent_line, closed_line, judged_line, missing_line, open_line, outsiders_line, played_line,
    plays_line, sessions_line, standings_lines, stray_words, strays_line, unjudged_line,
    unknown_line, unplayed_line,
};
use crate::operator::Operator;
use crate::parts::PartFiles;
use crate::statuses::{MatchStatus, MatchStatuses};
use bhs_contest::table_by;
use bhs_model::Text;
use bhs_net::Memory;
use bhs_referee::Verdict;
use bhs_server::{Outside, Strays, Watch};
use bhs_session::Ended;
use bhs_shared_match::SharedMatch;
use std::alloc::Global;
use std::net::SocketAddr;
use std::sync::{Mutex, Wait};
use std::time::Clock;

// How many looks lie between two reports of how far the matches are. There are two looks a second.
const LOOKS: u32 = 120;

// The log reports at most this many clients that were not let in. Then it counts them until the next report.
const OUTSIDERS: u32 = 64;

// How many looks lie between two reports of the clients that were counted.
const COUNTED: u32 = 20;

/// The state of a running contest, and the recipients of its reports.
#[derive(Clone, Copy, Drop)]
pub(crate) struct RunningContest<'a> {
    /// Whether events of the contest are reported. Write failures, and the answers to an operator's requests, are
    /// always reported.
    pub(crate) is_reporting: bool,
    /// How many turns a match takes at most.
    pub(crate) turns: u32,
    /// The teams, by the numbers of their matches.
    pub(crate) teams: &'a [Text],
    pub(crate) log: &'a Log,
    pub(crate) operator: &'a Operator,
}

/// Keeps the parts of the replays, and reports to the operator what happens.
#[derive(Drop)]
pub(crate) struct Recorder<'a, R> {
    rt: &'a R,
    alloc: Global,
    running: RunningContest<'a>,
    standings: MatchStatuses,
    parts: &'a PartFiles,
    state: Mutex<RecorderState>,
}

// What goes on.
#[derive(Clone, Copy)]
struct RecorderState {
    /// How many sessions go on whose agents have entered.
    sessions: u32,
    /// How many looks there were since it was reported how far the matches are.
    looks: u32,
    /// How many clients came and how many were not let in, since it was reported how many more there were.
    came: u32,
    outside: u32,
}

impl<'a, R> Recorder<'a, R> {
    /// Of matches with these parts, which stand so. Nothing goes on yet.
    pub(crate) fn new(
        rt: &'a R,
        alloc: Global,
        running: RunningContest<'a>,
        standings: MatchStatuses,
        parts: &'a PartFiles,
    ) -> Recorder<'a, R> {
        Recorder {
            rt,
            alloc,
            running,
            standings,
            parts,
            state: Mutex::new(RecorderState {
                sessions: 0,
                looks: 0,
                came: 0,
                outside: 0,
            }),
        }
    }

    // The team of the match of this number.
    fn team(&self, game: usize) -> &str {
        match self.running.teams.get(game) {
            Some(team) => team.as_str(),
            None => "",
        }
    }
}

impl<R: Keep + Wait + Clock> Recorder<'_, R> {
    // Reports a line, if the operator wants reports.
    fn report(&self, made: Result<String, Memory>) {
        if self.running.is_reporting {
            self.running.log.report(self.rt, made);
        }
    }

    // Returns the line on a session's lines that were no commands.
    fn strays_reported(&self, session: u32, strays: &Strays) -> Result<String, Memory> {
        let first = stray_words(self.alloc, &strays.first)?;
        strays_line(self.alloc, session, strays.lines, first.as_str())
    }

    // Reports how far the matches are, and who has not entered.
    fn report_stand(&self, sessions: u32) {
        let log = self.running.log;
        let Ok(standings) = self.standings.copied(self.rt) else {
            log.report(self.rt, Err(Memory));
            return;
        };
        let mut missing: usize = 0;
        let mut open: usize = 0;
        for standing in standings.iter() {
            missing = missing.saturating_add(standing.missing.len());
            if standing.closed.is_none() {
                open = open.saturating_add(1);
            }
        }
        log.report(self.rt, sessions_line(self.alloc, sessions, missing, open));
        for (game, standing) in standings.iter().enumerate() {
            self.report_match(game, self.parts.events(self.rt, game), standing);
        }
    }

    // Tells how far a match is whose part has this number of events, and who has not entered.
    fn report_match(&self, game: usize, events: usize, standing: &MatchStatus) {
        let log = self.running.log;
        let team = self.team(game);
        log.report(
            self.rt,
            match standing.closed {
                Some(turns) => closed_line(self.alloc, game, team, turns, events),
                None => {
                    let turns = self.running.operator.progress().turns(self.rt, game);
                    open_line(self.alloc, game, team, turns, self.running.turns, events)
                }
            },
        );
        if !standing.missing.is_empty() {
            log.report(
                self.rt,
                missing_line(self.alloc, game, team, &standing.missing),
            );
        }
    }

    // Tells what the operator asked for.
    fn answer(&self, shared_matches: &[SharedMatch], sessions: u32) {
        let asks = self.running.operator.take_asks(self.rt);
        if asks.unknown > 0 {
            let line = unknown_line(self.alloc, asks.unknown, shared_matches.len());
            self.running.log.report(self.rt, line);
        }
        if asks.status {
            self.report_stand(sessions);
            self.running
                .log
                .report(self.rt, self.standings_now(shared_matches));
        }
    }

    // How the teams would be ranked if all matches were closed now. Those that nobody has entered for follow, without a
    // rank: a team that waits is no better than one that plays.
    fn standings_now(&self, shared_matches: &[SharedMatch]) -> Result<String, Memory> {
        let statuses = self.standings.copied(self.rt)?;
        let mut teams = Vec::with_capacity(self.alloc, shared_matches.len())?;
        let mut verdicts = Vec::with_capacity(self.alloc, shared_matches.len())?;
        let mut absent = String::new(self.alloc);
        for (game, shared_match) in shared_matches.iter().enumerate() {
            let team = self.team(game);
            if is_absent(&statuses, game, shared_match) {
                absent.push_str(absent_line(self.alloc, game, team)?.as_str())?;
                continue;
            }
            let number = u32::try_from(game).unwrap_or(u32::MAX);
            verdicts.push(self.verdict_now(number, shared_match)?)?;
            teams.push(Text::new(self.alloc, team)?)?;
        }
        if verdicts.len() != teams.len() {
            return Err(Memory);
        }
        let table = table_by(self.alloc, &teams, &verdicts)?;
        standings_lines(self.alloc, table.as_str(), absent.as_str())
    }

    // Returns the verdict that a match would get if it were closed now. A closed match was judged when it closed, if
    // that was reported.
    fn verdict_now(&self, game: u32, shared_match: &SharedMatch) -> Result<Verdict, Memory> {
        match self.standings.verdict(game) {
            Some(verdict) => Ok(verdict),
            None => judged_now(self.rt, self.alloc, shared_match),
        }
    }

    // Counts a look: what went on before it.
    fn counted(&self) -> RecorderState {
        let mut state = self.state.lock(self.rt);
        state.looks = state.looks.saturating_add(1);
        let counted = *state;
        if state.looks % COUNTED == 0 {
            state.came = 0;
            state.outside = 0;
        }
        if state.looks >= LOOKS {
            state.looks = 0;
        }
        counted
    }
}

impl<R: Keep + Wait + Clock> Watch for Recorder<'_, R> {
    fn came(&self, session: u32, peer: SocketAddr) {
        let mut state = self.state.lock(self.rt);
        state.came = state.came.saturating_add(1);
        if state.came <= OUTSIDERS {
            self.report(format!(in self.alloc; "serve: session {session} from {peer}\n"));
        }
    }

    fn let_in(&self, session: u32, game: u32, agent: u16) {
        let mut state = self.state.lock(self.rt);
        state.sessions = state.sessions.saturating_add(1);
        self.standings.entered(self.rt, game, agent);
        let team = self.team(game as usize);
        self.report(plays_line(self.alloc, session, game, team, agent));
    }

    fn ended(&self, session: u32, ended: Ended, game: u32, agent: u16) {
        let mut state = self.state.lock(self.rt);
        state.sessions = state.sessions.saturating_sub(1);
        let team = self.team(game as usize);
        self.report(played_line(self.alloc, session, game, team, agent, ended));
    }

    fn strayed(&self, session: u32, strays: &Strays) {
        if self.running.is_reporting {
            self.report(self.strays_reported(session, strays));
        }
    }

    fn left_outside(&self, session: u32, why: Outside) {
        let mut state = self.state.lock(self.rt);
        state.outside = state.outside.saturating_add(1);
        if state.outside <= OUTSIDERS {
            self.report(unplayed_line(self.alloc, session, why));
        }
    }

    fn closed(&self, game: u32, turns: u32, shared_match: &SharedMatch) {
        self.standings.closed(self.rt, game, turns);
        // The operator is not told to close what is closed.
        self.running.operator.progress().call_off(self.rt, game);
        if self.running.is_reporting {
            let team = self.team(game as usize);
            let judged = judged(self.rt, self.alloc, shared_match);
            self.report(match judged {
                Ok(Some((events, verdict))) => {
                    self.standings.show(game, verdict);
                    judged_line(self.alloc, game, team, turns, events, verdict)
                }
                _ => unjudged_line(self.alloc, game, team, turns),
            });
        }
    }

    fn look(&self, shared_matches: &[SharedMatch]) {
        self.parts
            .write_on(self.rt, self.alloc, shared_matches, self.running.log);
        let counted = self.counted();
        if counted.looks % COUNTED == 0 && counted.outside > OUTSIDERS {
            self.report(outsiders_line(self.alloc, counted.outside.saturating_sub(OUTSIDERS)));
        }
        if counted.looks >= LOOKS && self.running.is_reporting {
            self.report_stand(counted.sessions);
        }
        self.answer(shared_matches, counted.sessions);
    }
}

// Whether no agent of a match has entered.
fn is_absent(statuses: &[MatchStatus], game: usize, shared_match: &SharedMatch) -> bool {
    match statuses.get(game) {
        Some(status) => status.missing.len() >= usize::from(shared_match.setup().agents),
        None => false,
    }
}
