//! What the session of an agent was answered.

ghost use Rattle.std.specs.Prelude.{◌≡◌, ◌<◌, ◌+◌, [], true, IfOk, OnErr, length, slice_get, map};
ghost use Rattle.std.specs.Prelude.{option_map, option_and_then};
ghost use Rattle.std.specs.Prelude.{Some, IfSome, IsTrue, ◌↔◌};
ghost use Rattle.bhs_match.specs.Matches.{world_in, state_of, shown_at};
ghost use Rattle.bhs_shared_match.specs.Passes.{Passed, empty_pass, is_end, tally_in, Ascend};
ghost use Rattle.std.specs.Prelude.{MatchOption};
ghost use Rattle.bhs_shared_match.specs.Comparing.{entry_of, receipted, IsFirstDifference};
ghost use Rattle.bhs_shared_match.specs.LockedMatches.{is_below, spoken, IsSpareFor, IsTold, IsOfBoard, IsHeard};
ghost use Rattle.bhs_shared_match.specs.Settling.{arrived_by};
ghost use Rattle.bhs_shared_match.specs.Arrivals.{arrival_at, receipt_at, is_here, IsGiven};
ghost use Rattle.bhs_model.specs.Marks.{read};

use crate::comparisons::{is_entry, reads_as};
use crate::kept_command::KeptCommand;
use crate::model::{Effect, Receipt, Spare, Tally};
use bhs_match::{Answer, Match};
use bhs_model::{Command, Event, Kept, Mark, Reply, Text};
use bhs_net::Memory;
use std::alloc::Global;
use std::marker::Model;

/// What one agent was told, and leave to tell for it.
#[derive(Debug, Drop)]
pub struct Pass {
    game: u32,
    quota: u16,
    agent: u16,
    ended: bool,
    receipts: Vec<Receipt>,
    commands: Vec<KeptCommand>,
    arrivals: Vec<Receipt>,
}

impl Model for Pass {
    ghost use Rattle.std.specs.Prelude.{◌≡◌, ◌≤◌, ◌+◌};
    ghost use Rattle.std.specs.Prelude.{length, vec_capacity};
    ghost use Rattle.std.specs.List.{list_any};
    ghost use Rattle.bhs_shared_match.specs.Passes.{Passed, is_last, Ascend};

    ghost Value = { Passed };

    ghost view = { λ p. record {
      game = p.game;
      quota = p.quota;
      agent = p.agent;
      receipts = p.receipts.items;
      commands = p.commands.items;
      arrivals = p.arrivals.items;
    } };

    // There is room for an Enter, the quota, and a Leave.
    ghost invariant = { λ p. ((p.ended ≡ list_any is_last p.receipts.items)
        × (length p.receipts.items ≡ length p.commands.items) × Ascend 0 p.receipts.items)
        × ((p.quota + 2 ≤ vec_capacity p.receipts) × (p.quota + 2 ≤ vec_capacity p.commands)) };
}

impl Pass {
    /// Creates a pass without receipts, with room for all that its agent can get.
    pub(crate) fn new(alloc: Global, game: u32, quota: u16, agent: u16) -> Result<Pass, Memory>
        ensures { IfOk result (λ pass. pass ≡ empty_pass game quota agent) }
    {
        let room = usize::from(quota) + 2;
        Ok(Pass {
            game,
            quota,
            agent,
            ended: false,
            receipts: Vec::with_capacity(alloc, room)?,
            commands: Vec::with_capacity(alloc, room)?,
            arrivals: Vec::with_capacity(alloc, usize::from(quota))?,
        })
    }

    pub(crate) fn game(&self) -> u32
        ensures { result ≡ self.now.game }
    {
        self.game
    }

    /// The most commands that its agent may tell, Enter and Leave aside.
    pub fn quota(&self) -> u16
        ensures { result ≡ self.now.quota }
    {
        self.quota
    }

    /// Returns the agent that the pass belongs to.
    pub fn agent(&self) -> u16
        ensures { result ≡ self.now.agent }
    {
        self.agent
    }

    /// The places and replies of the commands that were heard, in order.
    pub fn receipts(&self) -> &[Receipt]
        ensures receipts { result.now ≡ self.now.receipts }

        // Their places ascend.
        ensures order { Ascend 0 self.now.receipts }

        // Each has its command.
        ensures paired { length self.now.receipts ≡ length self.now.commands }
    {
        &self.receipts
    }

    /// The places and replies of the arrivals that were told, in order.
    pub fn arrivals(&self) -> &[Receipt]
        ensures { result.now ≡ self.now.arrivals }
    {
        &self.arrivals
    }

    /// How many commands were heard.
    pub(crate) fn commands_heard(&self) -> usize
        ensures { result ≡ length (receipted self.now.receipts self.now.commands) }
    {
        self.receipts.as_slice().len()
    }

    /// Returns whether the pass has this receipt, for a command of the log, at this index.
    pub(crate) fn says(
        &self,
        index: usize,
        log: &[Kept],
        place: usize,
        command: &Command,
        mark: &Option<Mark>,
    ) -> bool
        ensures { IsTrue result ↔ (slice_get (receipted self.now.receipts self.now.commands) index
            ≡ Some (entry_of log.now place command.now mark.now)) }
    {
        match (self.receipts.get(index), self.commands.get(index)) {
            (Some(receipt), Some(kept)) => is_entry(log, place, command, mark, receipt, kept),
            _ => false,
        }
    }

    /// How many commands were heard, and whether the agent has ended.
    pub(crate) fn tally(&self) -> Tally
        ensures { result ≡ tally_in self.now.receipts }
    {
        Tally {
            commands: self.receipts.len(),
            ended: self.ended,
        }
    }

    /// Tells a match a command of the pass's agent. Memory is taken before anything changes, and only if the reply
    /// will speak of a whiteboard.
    pub(crate) fn submit_to(&mut self, play: &mut Match, command: Command) -> Result<Effect, Memory>
        requires order { is_below self.old.receipts (length play.old.log) ≡ true }
        requires room { IsHeard play.old self.old.agent command → length self.old.receipts < self.old.quota + 2 }
        ensures done { IfOk result (λ step. IsTold play.old self.old command step.place step.mark step.reply
            play.new self.new) }
        ensures memory { OnErr result (IsOfBoard play.old self.old.agent command) }
        ensures failed { OnErr result ((self.new ≡ self.old) × (play.new ≡ play.old)) }
    {
        let agent = self.agent;
        let Spare { text, again, kept } = spare(*self.receipts.allocator(), play, agent, &command)?;
        let Answer { place, mark } = play.apply(Event::Tell { agent, command });
        let Some(mark) = mark else { unreachable!() };
        let reply = spoken(mark, text);
        let Some(place) = place else {
            return Ok(Effect {
                place: None,
                mark,
                reply,
            });
        };
        self.ended |= is_end(&reply);
        self.commands.push_reserved(kept);
        self.receipts.push_reserved(Receipt {
            place,
            reply: spoken(mark, again),
        });
        Ok(Effect {
            place: Some(place),
            mark,
            reply,
        })
    }
}

impl Pass {
    /// Takes over the agent's next arrival, which is answered; None if there is none.
    pub(crate) fn hear_news(&mut self, play: &Match) -> Result<Option<Reply>, Memory>
        ensures given { IfOk result (λ said. IsGiven play.now self.old said self.new) }
        ensures here { IfOk result (λ said. IfSome said (λ reply. is_here reply ≡ true)) }
        ensures failed { OnErr result (self.new ≡ self.old) }
    {
        let log = play.log();
        let Some((place, mark)) = arrival_of(play.news(self.agent), log, self.arrivals.len()) else {
            return Ok(None);
        };
        self.arrivals.reserve(1)?;
        let reply = play.reply(&mark)?;
        let again = play.reply(&mark)?;
        self.arrivals.push_reserved(Receipt {
            place,
            reply: again,
        });
        Ok(Some(reply))
    }
}

impl Pass {
    /// Returns the least index at which an arrival in the pass differs from its agent's arrivals in the log, if any.
    pub(crate) fn stray(&self, play: &Match) -> Option<usize>
        ensures { MatchOption result ((arrived_by play.now self.now).logged ≡ (arrived_by play.now self.now).said)
            (IsFirstDifference (arrived_by play.now self.now).logged (arrived_by play.now self.now).said) }
    {
        let places = play.news(self.agent);
        let log = play.log();
        for (index, receipt) in self.arrivals.iter().enumerate() {
            if !is_arrival(places, log, index, receipt) {
                return Some(index);
            }
        }
        None
    }
}

// Whether the arrival of this index, of an agent whose arrivals stand at these places, is this receipt.
fn is_arrival(places: &[u32], log: &[Kept], index: usize, receipt: &Receipt) -> bool
    ensures { IsTrue result ↔ (slice_get (map (receipt_at log.now) places.now) index ≡ Some (Some receipt.now)) }
{
    match arrival_of(places, log, index) {
        Some((place, mark)) => receipt.place == place && reads_as(log, &mark, &receipt.reply),
        None => false,
    }
}

// The place and the mark of the arrival of this index, of an agent whose arrivals stand at these places.
fn arrival_of(places: &[u32], log: &[Kept], index: usize) -> Option<(u32, Mark)>
    ensures { option_map (λ found. record { place = found.0; reply = read log.now found.1 }) result
        ≡ option_and_then (receipt_at log.now) (slice_get places.now index) }
{
    let place = *places.get(index)?;
    let mark = arrival_at(log, place)?;
    Some((place, mark))
}

// The mark of the arrival at a place of a log.
fn arrival_at(log: &[Kept], place: u32) -> Option<Mark>
    ensures { result ≡ arrival_at log.now place }
{
    let one = log.get(place as usize)?;
    match one.event {
        Event::Deliver { .. } => one.mark,
        _ => None,
    }
}

// Reserves the memory that the reply to a command may need.
fn spare(alloc: Global, play: &Match, agent: u16, command: &Command) -> Result<Spare, Memory>
    ensures spare { IfOk result (IsSpareFor play.now agent command.now) }
    ensures memory { OnErr result (IsOfBoard play.now agent command.now) }
{
    if play.shows(agent, command) {
        Ok(Spare {
            text: play.seen(agent)?,
            again: play.seen(agent)?,
            kept: KeptCommand::copy_of(alloc, command)?,
        })
    } else {
        Ok(Spare {
            text: Text::empty(),
            again: Text::empty(),
            kept: KeptCommand::kind_of(command),
        })
    }
}

// The reply of a mark whose whiteboard shows this text.
#[inline(always)]
fn spoken(mark: Mark, text: Text) -> Reply
    ensures { result ≡ spoken mark text }
{
    match mark {
        Mark::Here { ports, came, .. } => Reply::Here {
            ports,
            came,
            board: text,
        },
        Mark::Written => Reply::Written,
        Mark::Changed { .. } => Reply::Changed { board: text },
        Mark::Gone => Reply::Gone,
        Mark::Noted => Reply::Noted,
        Mark::Bye => Reply::Bye,
        Mark::Over => Reply::Over,
        Mark::No(why) => Reply::No(why),
    }
}

// Returns whether the reply shows that the agent has ended.
#[inline(always)]
fn is_end(reply: &Reply) -> bool
    ensures { result ≡ is_end reply.now }
{
    matches!(reply, Reply::Noted | Reply::Bye)
}
