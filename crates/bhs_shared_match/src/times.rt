//! The turns of a match under its lock.

ghost use Rattle.std.specs.Prelude.{◌≡◌, ◌≤◌, length, IfOk, vec_capacity};
ghost use Rattle.bhs_match.specs.Matches.{state_of};
ghost use Rattle.bhs_deliveries.specs.Dealer.{moved_on};
ghost use Rattle.bhs_deliveries.specs.Drawing.{IsPlayedIf};
ghost use Rattle.bhs_deliveries.specs.Links.{held_in};
ghost use Rattle.bhs_shared_match.specs.Timing.{at_first, told_at, stepped, turned, stamped_to, arrived_by};
ghost use Rattle.bhs_shared_match.specs.Timing.{event_of_turn, drawn_in_turn};

use bhs_deliveries::{Dealer, Drawn, Held, Waits, draw, draw_oblivious};
use bhs_match::Match;
use bhs_net::Memory;
use bhs_time::{Delays, ScheduleKind};
use std::alloc::Global;
use std::marker::Model;

/// How many turns of a match have passed, and of each agent, after how many it took its newest step that was not on a
/// link: for an agent on a link, after how many it departed.
#[derive(Debug, Drop)]
pub(crate) struct Times {
    turn: u32,
    departed: Vec<u32>,
}

impl Model for Times {
    ghost use Rattle.bhs_shared_match.specs.Timing.{Timed};

    ghost Value = { Timed };

    ghost view = { λ times. record { turn = times.turn; departed = times.departed.items } };
}

impl Times {
    /// The times of a match before anything happens.
    pub(crate) fn new(alloc: Global, agents: u16) -> Result<Times, Memory>
        ensures { IfOk result (λ times. times ≡ at_first agents) }
    {
        let departed = Vec::from_elem(alloc, 0, usize::from(agents))?;
        Ok(Times { turn: 0, departed })
    }

    /// How many turns have passed.
    pub(crate) fn turn(&self) -> u32
        ensures { result ≡ self.now.turn }
    {
        self.turn
    }

    /// An agent took a step that was not on a link.
    fn step(&mut self, agent: u16)
        ensures { self.new ≡ stepped agent self.old }
    {
        if usize::from(agent) < self.departed.len() {
            self.departed[usize::from(agent)] = self.turn;
        }
    }

    /// Updates the times after a command that was heard, from an agent on a link or elsewhere.
    pub(crate) fn told(&mut self, agent: u16, was_away: bool)
        ensures { self.new ≡ told_at was_away agent self.old }
    {
        if !was_away {
            self.step(agent);
        }
    }

    /// A turn passes, in which this agent arrives.
    pub(crate) fn pass(&mut self, arrived: Option<u16>)
        ensures { self.new ≡ turned arrived self.old }
    {
        if let Some(agent) = arrived {
            self.step(agent);
        }
        self.turn = self.turn.saturating_add(1);
    }

    /// What the oblivious schedule knows of the match.
    fn waits(&self, delays: Delays) -> Waits<'_>
        ensures { (result.delays ≡ delays) × (result.turn ≡ self.now.turn)
            × (result.departed.now ≡ self.now.departed) }
    {
        Waits {
            delays,
            turn: self.turn,
            departed: &self.departed,
        }
    }
}

/// Notes the turn of the newest event of a log that has this many events, unless it is noted.
pub(crate) fn stamp(turns: &mut Vec<u32>, events: usize, turn: u32)
    requires { events ≤ vec_capacity turns.old }
    ensures items { turns.new.items ≡ stamped_to events turn turns.old.items }
    ensures capacity { vec_capacity turns.new ≡ vec_capacity turns.old }
{
    if turns.len() < events {
        turns.push_reserved(turn);
    }
}

/// Plays what a turn delivers, at most one delivery. Takes no memory.
pub(crate) fn deliver_by(
    play: &mut Match,
    held: &Held,
    schedule: ScheduleKind,
    dealer: &mut Dealer,
    times: &Times,
) -> Drawn
    requires { play.old.setup.agents ≤ length times.now.departed }
    ensures drawn { result ≡ drawn_in_turn schedule (held_in held.now) play.old times.now dealer.old }
    ensures played { IsPlayedIf play.old (event_of_turn schedule (held_in held.now) play.old times.now dealer.old)
        play.new }
    ensures dealer { dealer.new ≡ moved_on dealer.old }
{
    match schedule {
        ScheduleKind::Adaptive => draw(play, held, dealer.next()),
        ScheduleKind::Oblivious(delays) => {
            draw_oblivious(play, held, dealer, &times.waits(delays))
        }
    }
}

/// The agent that arrived by what was drawn.
pub(crate) fn arrived(play: &Match, drawn: Drawn) -> Option<u16>
    ensures { result ≡ arrived_by (state_of play.now) drawn }
{
    match drawn {
        Drawn::Delivered { agent } if !play.is_away(agent) => Some(agent),
        _ => None,
    }
}
