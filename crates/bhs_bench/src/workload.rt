//! Matches on a large torus, one after the other, whose events are picked by words.

ghost use Rattle.std.specs.Prelude.{◌≡◌, OnOk};

use crate::deeds::{BenchStep, deed_of};
use crate::faults::BenchFault;
use crate::torus::{PORTS, setup, torus};
use bhs_deliveries::{Dealer, Held, draw};
use bhs_match::Match;
use bhs_model::{Command, Event, Text};
use bhs_net::{Memory, Net};
use std::alloc::Global;

// How many events a match has: about as many as use up the quotas of its agents. The first let each agent enter, and
// the last one closes the match.
const EVENTS_OF_A_MATCH: u16 = 28_000;

// How many agents play.
const AGENTS: u16 = 16;

// The seed of the words.
const SEED: [u8; 32] = [7; 32];

/// What was counted. A count that would need more than 64 bits stays at the most that they hold.
#[derive(Clone, Copy)]
pub struct Counts {
    /// The events that were kept in the logs.
    pub kept: u64,
    /// The arrivals of agents at nodes.
    pub arrivals: u64,
    /// The matches that were begun.
    pub matches: u64,
}

impl Counts {
    // Adds the counts of one match.
    fn with(self, game: &Match) -> Counts {
        let mut arrivals = self.arrivals;
        for agent in 0..AGENTS {
            arrivals = arrivals.saturating_add(game.news(agent).len() as u64);
        }
        Counts {
            kept: self.kept.saturating_add(game.log().len() as u64),
            arrivals,
            matches: self.matches.saturating_add(1),
        }
    }
}

/// The match in progress, and the counts of earlier matches.
#[derive(Drop)]
pub struct Workload {
    net: Net,
    held: Held,
    words: Dealer,
    game: Match,
    events: u16,
    before: Counts,
}

impl Workload {
    /// The first match, before its first event.
    pub fn new(alloc: Global) -> Result<Workload, BenchFault> {
        let net = torus(alloc)?;
        let held = Held::new(alloc, &net, &[])?;
        let game = Match::new(alloc, net.try_clone(alloc)?, setup(alloc, AGENTS))?;
        Ok(Workload {
            net,
            held,
            words: Dealer::new(SEED, 0),
            game,
            events: 0,
            before: Counts {
                kept: 0,
                arrivals: 0,
                matches: 0,
            },
        })
    }

    /// Plays this number of events, on one match after the other.
    pub fn play_events(&mut self, alloc: Global, events: u64) -> Result<(), BenchFault> {
        for _ in 0..events {
            self.step(alloc)?;
        }
        Ok(())
    }

    // Begins the next match, with what was counted in this one.
    fn begin_next(&mut self, alloc: Global) -> Result<(), BenchFault>
        ensures { OnOk result (self.new.events ≡ 0) }
    {
        let next = Match::new(alloc, self.net.try_clone(alloc)?, setup(alloc, AGENTS))?;
        self.before = self.before.with(&self.game);
        self.game = next;
        self.events = 0;
        Ok(())
    }

    fn step(&mut self, alloc: Global) -> Result<(), BenchFault> {
        if self.events >= EVENTS_OF_A_MATCH {
            self.begin_next(alloc)?;
        }
        self.events += 1;
        if self.events <= AGENTS {
            let agent = self.events - 1;
            self.apply_command(agent, Command::Enter);
        } else if self.events == EVENTS_OF_A_MATCH {
            self.game.apply(Event::Close);
        } else {
            let step = deed_of(self.words.next());
            self.perform(alloc, step)?;
        }
        Ok(())
    }

    fn apply_command(&mut self, agent: u16, command: Command) {
        self.game.apply(Event::Tell { agent, command });
    }

    fn perform(&mut self, alloc: Global, step: BenchStep) -> Result<(), Memory> {
        match step {
            BenchStep::Look { agent } => self.apply_command(agent, Command::Look),
            BenchStep::Write { agent } => {
                let expect = self.game.seen(agent)?;
                let word = self.words.next();
                let put = Text::new(alloc, format!(in alloc; "{word}")?.as_str())?;
                self.apply_command(agent, Command::Write { expect, put });
            }
            BenchStep::Depart { agent, port } => self.apply_command(
                agent,
                Command::Depart { port },
            ),
            BenchStep::Accuse { agent } => self.apply_command(
                agent,
                Command::Accuse { port: PORTS },
            ),
            BenchStep::Draw { word } => {
                draw(&mut self.game, &self.held, word);
            }
        }
        Ok(())
    }

    /// What was counted so far.
    pub fn counts(&self) -> Counts {
        self.before.with(&self.game)
    }
}
