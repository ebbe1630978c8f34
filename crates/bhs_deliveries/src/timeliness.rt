//! Whether a log with turns is that of a timed execution under the oblivious schedule.

ghost use Rattle.std.specs.Prelude.{ℕ, ◌≡◌, ◌<◌, ◌≤◌, ◌-◌, IsTrue, length, slice_set, IfOk, MatchOption, None};
ghost use Rattle.bhs_time.specs.TimedLogs.{IsTimedLog, turn_behind};
ghost use Rattle.bhs_match.specs.Matches.{world_in};
ghost use Rattle.bhs_deliveries.specs.Links.{held_in};
ghost use Rattle.bhs_deliveries.specs.Scheduling.{words_by, whole_schedule, stamps_in};
ghost use Rattle.bhs_deliveries.specs.Timeliness.{due_after, due_on, due_of, is_due, delivered_by, first_delivery};
ghost use Rattle.bhs_deliveries.specs.Timeliness.{is_agent};
ghost use Rattle.bhs_deliveries.specs.Timeliness.{dues_after, late_in, untimely, untimely_from, IsUntimelyAt};

use crate::dealers::Dealer;
use crate::held::Held;
use crate::marks::is_port;
use bhs_match::{Sealed, Site};
use bhs_model::{Command, Event, Kept};
use bhs_net::{Memory, Net};
use bhs_time::Delays;
use std::alloc::Global;
use std::marker::Model;

/// What decides the deliveries of a match under the oblivious schedule.
#[derive(Drop)]
pub struct Schedule<'a> {
    /// A dealer of the match's seed and stream, wherever it stands.
    pub dealer: &'a Dealer,
    pub delays: Delays,
    pub held: &'a Held,
}

/// The reason why an event of a log, with its turn, cannot follow the events before it.
#[derive(Clone, Copy, Debug, PartialEq, Eq)]
pub enum Untimely {
    /// Its turn has passed: an arrival has ended it, or the event before happened in a later turn.
    Early,
    /// Before it, this turn delivers this agent, and the log has no such delivery.
    LeftOut { agent: u16, turn: u64 },
    /// A delivery that its turn does not make.
    Late,
}

// What is fixed of a match whose log is looked through.
#[derive(Drop)]
struct DeliveryTerms<'a> {
    dealer: &'a Dealer,
    delays: Delays,
    held: &'a Held,
    net: &'a Net,
    agents: u16,
}

impl<'a> Model for DeliveryTerms<'a> {
    ghost use Rattle.bhs_deliveries.specs.Timeliness.{DeliveryTerms as Terms};

    ghost Value = { Terms };

    ghost view = { λ terms. record {
      dealer = terms.dealer.now;
      law = terms.delays;
      held = terms.held.now;
      net = terms.net.now;
      agents = terms.agents;
    } };
}

impl DeliveryTerms<'_> {
    // After how many turns an agent that departs after this many is ready to arrive.
    fn due_after(&self, agent: u16, departed: u32) -> u64
        ensures { result ≡ due_after self.now agent departed }
    {
        let delay = self.delays.by_word(self.dealer.delay_word(agent, departed));
        u64::from(departed) + u64::from(delay)
    }

    // The due of an agent that departs by a port of a node.
    fn due_on(&self, node: u16, port: u16, agent: u16, turn: u32) -> Option<u64>
        ensures { result ≡ due_on self.now node port agent turn }
    {
        if self.held.has(node, port) {
            None
        } else {
            Some(self.due_after(agent, turn))
        }
    }

    // The agent that a turn with this word delivers, if it delivers one.
    fn delivered(&self, dues: &[Option<u64>], word: u32, turn: u64) -> Option<u16>
        requires agents { 0 < self.now.agents }
        requires word { word ≡ (words_by self.now.dealer).picks turn }
        ensures { result ≡ delivered_by self.now dues.now turn }
    {
        let agent = (word % u32::from(self.agents)) as u16;
        if is_due(due_of(dues, agent), turn) {
            Some(agent)
        } else {
            None
        }
    }

    // Returns the first delivery in a range of turns, with its turn.
    fn first_delivery(&self, dues: &[Option<u64>], from: u64, end: u32) -> Option<(u16, u64)>
        requires agents { 0 < self.now.agents }
        requires order { from ≤ end }
        ensures { result ≡ first_delivery self.now dues.now from (end - from) }
    {
        let end = u64::from(end);
        if from == end {
            return None;
        }
        if nobody_waits(dues) {
            return None;
        }
        let mut words = self.dealer.at(from as u32);
        for turn in from..end {
            let delivered = self.delivered(dues, words.next(), turn);
            if let Some(agent) = delivered {
                return Some((agent, turn));
            }
        }
        None
    }

    // What is wrong with an event in its own turn.
    fn late(&self, dues: &[Option<u64>], event: &Event, turn: u32) -> Option<Untimely>
        requires { 0 < self.now.agents }
        ensures { result ≡ late_in self.now dues.now event.now turn }
    {
        let Event::Deliver { agent } = event else {
            return None;
        };
        let word = self.dealer.at(turn).next();
        if is_agent(self.delivered(dues, word, u64::from(turn)), *agent) {
            None
        } else {
            Some(Untimely::Late)
        }
    }

    // What is wrong with an event at its turn, if this many turns have passed before it.
    fn untimely(&self, dues: &[Option<u64>], now: u64, event: &Event, turn: u32) -> Option<Untimely>
        requires { 0 < self.now.agents }
        ensures { result ≡ untimely self.now dues.now now event.now turn }
    {
        if u64::from(turn) < now {
            return Some(Untimely::Early);
        }
        match self.first_delivery(dues, now, turn) {
            Some((agent, turn)) => Some(Untimely::LeftOut { agent, turn }),
            None => self.late(dues, event, turn),
        }
    }

    // Notes what an event with this site and turn makes of the dues.
    #[tactic(auto, using(std::proofs::lemmas::List::set_past))]
    fn note(&self, dues: &mut [Option<u64>], event: &Event, site: Option<u16>, turn: u32)
        ensures { dues.new ≡ dues_after self.now dues.old event.now site turn }
    {
        match event {
            Event::Tell {
                agent,
                command: Command::Depart { port },
            } => {
                if let Some(node) = site {
                    if is_port(self.net, (node, *port)) {
                        set(dues, *agent, self.due_on(node, *port, *agent, turn));
                    }
                }
            }
            Event::Tell {
                agent,
                command: Command::Leave,
            }
            | Event::Deliver { agent } => set(dues, *agent, None),
            _ => {}
        }
    }

    // The first event that is wrong, with its place; `dues` has those of the match before it begins.
    fn first_untimely(
        &self,
        dues: &mut [Option<u64>],
        log: &[Kept],
        sites: &[Site],
        turns: &[u32],
    ) -> Option<(usize, Untimely)>
        requires agents { 0 < self.now.agents }
        requires sites { length sites.now ≡ length log.now }
        requires turns { length turns.now ≡ length log.now }
        ensures { result ≡ untimely_from self.now dues.old 0 0 log.now sites.now turns.now }
    {
        let mut now = 0;
        for place in 0..log.len() {
            let event = &log[place].event;
            let turn = turns[place];
            if let Some(why) = self.untimely(dues, now, event, turn) {
                return Some((place, why));
            }
            self.note(dues, event, sites[place].node(), turn);
            now = turn_behind(event, turn);
        }
        None
    }
}

fn due_of(dues: &[Option<u64>], agent: u16) -> Option<u64>
    ensures { result ≡ due_of dues.now agent }
{
    match dues.get(usize::from(agent)) {
        Some(due) => *due,
        None => None,
    }
}

fn is_due(due: Option<u64>, turn: u64) -> bool
    ensures { result ≡ is_due due turn }
{
    match due {
        Some(due) => due <= turn,
        None => false,
    }
}

fn is_agent(found: Option<u16>, agent: u16) -> bool
    ensures { result ≡ is_agent found agent }
{
    match found {
        Some(other) => agent == other,
        None => false,
    }
}

// Whether there is no due: then no turn delivers anybody.
fn nobody_waits(dues: &[Option<u64>]) -> bool
    ensures { IsTrue result → (agent : ℕ) → due_of dues.now agent ≡ None }
{
    for due in dues {
        if due.is_some() {
            return false;
        }
    }
    true
}

#[tactic(auto, using(std::proofs::lemmas::List::set_past))]
fn set(dues: &mut [Option<u64>], agent: u16, due: Option<u64>)
    ensures { dues.new ≡ slice_set dues.old agent due }
{
    if usize::from(agent) < dues.len() {
        dues[usize::from(agent)] = due;
    }
}

// How many turns have passed when the next event may happen.
fn turn_behind(event: &Event, turn: u32) -> u64
    ensures { result ≡ turn_behind event.now turn }
{
    match event {
        Event::Deliver { .. } => u64::from(turn) + 1,
        _ => u64::from(turn),
    }
}

/// The first event of a log that, with its turn, does not belong to a timed execution, with its place; None if the log
/// is that of a timed execution under this schedule.
pub fn first_untimely(
    alloc: Global,
    sealed: &Sealed,
    turns: &[u32],
    schedule: &Schedule,
) -> Result<Option<(usize, Untimely)>, Memory>
    requires { length turns.now ≡ length sealed.now.log }
    ensures { IfOk result (λ found. MatchOption found
        (IsTimedLog (world_in sealed.now) (held_in schedule.now.held.now)
        (whole_schedule schedule.now.dealer.now sealed.now.setup.agents schedule.now.delays)
        (stamps_in sealed.now.log turns.now))
        (λ at. IsUntimelyAt (world_in sealed.now) (held_in schedule.now.held.now)
        (whole_schedule schedule.now.dealer.now sealed.now.setup.agents schedule.now.delays)
        (stamps_in sealed.now.log turns.now) at.0 at.1)) }
{
    let agents = sealed.setup().agents;
    let terms = DeliveryTerms {
        dealer: schedule.dealer,
        delays: schedule.delays,
        held: schedule.held,
        net: sealed.net(),
        agents,
    };
    let mut dues = Vec::from_elem(alloc, None, usize::from(agents))?;
    Ok(terms.first_untimely(&mut dues, sealed.log(), sealed.sites(), turns))
}
