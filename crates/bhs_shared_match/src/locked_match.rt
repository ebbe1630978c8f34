//! What stands under the lock of a match.

ghost use Rattle.std.specs.Prelude.{◌≡◌, ◌≤◌, [], true, IfOk, IfSome, OnErr, length, replicate, vec_capacity};
ghost use Rattle.bhs_shared_match.specs.LockedMatches.{agrees, same_tally, is_below, empty_locked_match};
ghost use Rattle.bhs_shared_match.specs.LockedMatches.{IsAnswered, IsOfBoard};
ghost use Rattle.bhs_shared_match.specs.Tallies.{IsLegalHistory, nothing};
ghost use Rattle.bhs_shared_match.specs.Recording.{IsSubmitted, MayWantMemory};
ghost use Rattle.bhs_shared_match.specs.Passes.{passes_of};
ghost use Rattle.bhs_shared_match.specs.Arrivals.{is_here, IsGiven};
ghost use Rattle.bhs_match.specs.Matches.{state_of, most_kept};
ghost use Rattle.bhs_match.specs.Games.{IsPlayed};
ghost use Rattle.bhs_match.specs.declared.answers.Answer.{Answer as MatchAnswer};
ghost use Rattle.bhs_deliveries.specs.Dealer.{moved_on};
ghost use Rattle.bhs_deliveries.specs.Links.{held_in};
ghost use Rattle.bhs_deliveries.specs.Drawing.{IsPlayedIf};
ghost use Rattle.bhs_shared_match.specs.Timing.{at_first, turned, stamped_to, arrived_by, event_of_turn, drawn_in_turn};

use crate::model::{Answer, Receipt, Tally};
use crate::pass::Pass;
use crate::times::{Times, arrived, deliver_by, stamp};
use bhs_deliveries::{Dealer, Drawn, Held};
use bhs_match::{Match, Sealed};
use bhs_model::{Command, Event, Reply, Setup, Why};
use bhs_net::Memory;
use bhs_time::ScheduleKind;
use std::alloc::Global;
use std::marker::Model;

/// What stands under the lock: the match, and of each agent how many commands were heard and whether it has ended.
#[derive(Debug, Drop)]
pub struct LockedMatch {
    game: u32,
    play: Match,
    tallies: Vec<Tally>,
    times: Times,
    /// The turn of each event of the log.
    turns: Vec<u32>,
}

impl Model for LockedMatch {
    ghost use Rattle.bhs_shared_match.specs.LockedMatches.{LockedState};
    ghost use Rattle.bhs_shared_match.specs.Tallies.{IsLegalHistory};
    ghost use Rattle.bhs_shared_match.specs.Fitting.{AreFit};

    ghost Value = { LockedState };

    ghost view = { λ inner. record {
      game = inner.game;
      play = inner.play;
      tallies = inner.tallies.items;
      times = inner.times;
      turns = inner.turns.items;
    } };

    ghost use Rattle.std.specs.Prelude.{◌≡◌, length, vec_capacity};
    ghost use Rattle.bhs_shared_match.specs.Timing.{HaveTurns};

    ghost invariant = { λ inner. (IsLegalHistory inner.play inner.tallies.items × AreFit inner.play)
        × ((length inner.times.departed ≡ inner.play.setup.agents)
        × HaveTurns inner.play (length inner.turns.items) (vec_capacity inner.turns)) };
}

impl LockedMatch {
    /// Creates the state of a match with an empty log, and a pass for each agent, in order, with room for all its
    /// receipts.
    pub fn new(alloc: Global, game: u32, play: Match) -> Result<(LockedMatch, Vec<Pass>), Memory>
        requires { play.log ≡ [] }
        ensures inner { IfOk result (λ made. made.0 ≡ empty_locked_match game play) }
        ensures passes { IfOk result (λ made. made.1.items ≡ passes_of game play.setup.quota play.setup.agents) }
    {
        let (tallies, passes) = unheard_and_passes(alloc, game, play.setup())?;
        let times = Times::new(alloc, play.setup().agents)?;
        let turns = no_turns(alloc, play.setup())?;
        Ok((
            LockedMatch::alone(game, play, tallies, times, turns),
            passes,
        ))
    }

    /// Wraps a match with an empty log, with the tallies of agents that were never heard. Takes no memory.
    pub(crate) fn alone(
        game: u32,
        play: Match,
        tallies: Vec<Tally>,
        times: Times,
        turns: Vec<u32>,
    ) -> LockedMatch
        requires log { play.log ≡ [] }
        requires tallies { tallies.items ≡ replicate play.setup.agents nothing }
        requires times { times ≡ at_first play.setup.agents }
        requires turns { (turns.items ≡ []) × (most_kept play.setup.agents play.setup.quota ≤ vec_capacity turns) }
        ensures { result ≡ empty_locked_match game play }
    {
        // The proof needs what the log says of itself.
        let _legal = play.log();
        LockedMatch {
            game,
            play,
            tallies,
            times,
            turns,
        }
    }

    /// Returns the match, which is always a legal history.
    pub fn state(&self) -> &Match
        ensures play { result.now ≡ self.now.play }
        ensures legal { IsLegalHistory self.now.play self.now.tallies }
    {
        &self.play
    }

    /// The turn of each event of the log.
    pub fn turns(&self) -> &[u32]
        ensures turns { result.now ≡ self.now.turns }
        ensures count { length result.now ≡ length self.now.play.log }
    {
        &self.turns
    }

    /// The match for reading alone, and the turn of each event of its log, if it has ended. Takes no memory.
    pub(crate) fn into_sealed(self) -> (Sealed, Vec<u32>)
        requires { (state_of self.play).closed ≡ true }
        ensures sealed { result.0 ≡ self.play }
        ensures turns { result.1.items ≡ self.turns }
        ensures count { length result.1.items ≡ length self.play.log }
    {
        let LockedMatch {
            game: _,
            play,
            tallies: _,
            times: _,
            turns,
        } = self;
        match play.sealed() {
            Ok(sealed) => (sealed, turns),
            Err(_) => unreachable!(),
        }
    }

    // Returns whether a pass belongs to this match and agrees with its log.
    fn agrees(&self, pass: &Pass) -> bool
        ensures { result ≡ agrees self.now pass.now }
    {
        let agent = pass.agent();
        pass.game() == self.game
            && pass.quota() == self.play.setup().quota
            && agent < self.play.setup().agents
            && same_tally(self.tallies[usize::from(agent)], pass.tally())
            && is_below(pass.receipts(), self.play.log().len())
            && is_below(pass.arrivals(), self.play.log().len())
    }

    /// Submits a command of a pass to the match.
    pub fn submit(&mut self, pass: &mut Pass, command: Command) -> Result<Answer, Memory>
        ensures done { IfOk result (λ answer. IsAnswered (agrees self.old pass.old) self.old pass.old command answer
            self.new pass.new) }

        // What the pass itself says of it.
        ensures submitted { IfOk result (λ answer. IsSubmitted pass.old command answer.place answer.reply pass.new) }

        // Memory is wanted only for a reply that says what a whiteboard shows, or that it was written.
        ensures memory { OnErr result (IsOfBoard self.old.play pass.old.agent command) }
        ensures wanting { OnErr result (MayWantMemory pass.old command) }

        // If memory runs out, nothing changes.
        ensures failed { OnErr result ((self.new ≡ self.old) × (pass.new ≡ pass.old)) }
    {
        if !self.agrees(pass) {
            return Ok(Answer {
                place: None,
                reply: Reply::No(Why::Agent),
            });
        }
        let agent = pass.agent();
        let was_away = self.play.is_away(agent);
        // The proof needs that the places of the receipts ascend.
        let _order = pass.receipts();
        let step = pass.submit_to(&mut self.play, command)?;
        // The proof needs what the log says of itself.
        let legal = self.play.log();
        stamp(&mut self.turns, legal.len(), self.times.turn());
        if step.place.is_some() {
            self.tallies[usize::from(agent)] = pass.tally();
            self.times.told(agent, was_away);
        }
        Ok(Answer {
            place: step.place,
            reply: step.reply,
        })
    }

    /// Takes a turn: plays at most one delivery, that of the schedule by the dealer's words. Takes no memory.
    pub fn turn(&mut self, held: &Held, schedule: ScheduleKind, dealer: &mut Dealer) -> Drawn
        ensures drawn { result
            ≡ drawn_in_turn schedule (held_in held.now) self.old.play self.old.times dealer.old }
        ensures played { IsPlayedIf self.old.play
            (event_of_turn schedule (held_in held.now) self.old.play self.old.times dealer.old) self.new.play }
        ensures times { self.new.times ≡ turned (arrived_by (state_of self.new.play) result) self.old.times }
        ensures turns { self.new.turns ≡ stamped_to (length self.new.play.log) self.old.times.turn self.old.turns }
        ensures dealer { dealer.new ≡ moved_on dealer.old }
        ensures game { self.new.game ≡ self.old.game }
    {
        let drawn = deliver_by(&mut self.play, held, schedule, dealer, &self.times);
        // The proof needs what the log says of itself.
        let legal = self.play.log();
        stamp(&mut self.turns, legal.len(), self.times.turn());
        let arrived = arrived(&self.play, drawn);
        self.times.pass(arrived);
        drawn
    }

    /// Ends the match. Takes no memory.
    pub(crate) fn close(&mut self)
        ensures closed { (answer : MatchAnswer) × IsPlayed self.old.play Event.Close answer self.new.play }
        ensures game { self.new.game ≡ self.old.game }
        ensures times { self.new.times ≡ self.old.times }
        ensures turns { self.new.turns ≡ stamped_to (length self.new.play.log) self.old.times.turn self.old.turns }
    {
        self.play.apply(Event::Close);
        // The proof needs what the log says of itself.
        let legal = self.play.log();
        stamp(&mut self.turns, legal.len(), self.times.turn());
    }

    /// Gives a pass its agent's next arrival, which is answered; None if there is none.
    pub(crate) fn give(&self, pass: &mut Pass) -> Result<Option<Reply>, Memory>
        ensures legal { IsLegalHistory self.now.play self.now.tallies }
        ensures given { IfOk result (λ said. IsGiven self.now.play pass.old said pass.new) }
        ensures here { IfOk result (λ said. IfSome said (λ reply. is_here reply ≡ true)) }
        ensures failed { OnErr result (pass.new ≡ pass.old) }
    {
        pass.hear_news(&self.play)
    }
}

// What stands under the lock of agents that were not heard yet, and their passes.
fn unheard_and_passes(
    alloc: Global,
    game: u32,
    setup: &Setup,
) -> Result<(Vec<Tally>, Vec<Pass>), Memory>
    ensures tallies { IfOk result (λ made. made.0.items ≡ replicate setup.now.agents nothing) }
    ensures passes { IfOk result (λ made. made.1.items ≡ passes_of game setup.now.quota setup.now.agents) }
{
    let tallies = unheard(alloc, setup.agents)?;
    let passes = empty_passes(alloc, game, setup.quota, setup.agents)?;
    Ok((tallies, passes))
}

/// No turns, with room for the turn of each event that a match may keep.
pub(crate) fn no_turns(alloc: Global, setup: &Setup) -> Result<Vec<u32>, Memory>
    ensures items { IfOk result (λ turns. turns.items ≡ []) }
    ensures room { IfOk result (λ turns. most_kept setup.now.agents setup.now.quota ≤ vec_capacity turns) }
{
    let agents = usize::from(setup.agents);
    let quota = usize::from(setup.quota);
    Vec::with_capacity(alloc, agents * (2 * quota + 2) + 1)
}

/// What stands under the lock of agents that were not heard yet.
pub(crate) fn unheard(alloc: Global, agents: u16) -> Result<Vec<Tally>, Memory>
    ensures { IfOk result (λ tallies. tallies.items ≡ replicate agents nothing) }
{
    let nothing = Tally {
        commands: 0,
        ended: false,
    };
    Vec::from_elem(alloc, nothing, usize::from(agents))
}

// One pass for each agent, in order.
fn empty_passes(alloc: Global, game: u32, quota: u16, agents: u16) -> Result<Vec<Pass>, Memory>
    ensures { IfOk result (λ passes. passes.items ≡ passes_of game quota agents) }
{
    let mut passes = Vec::with_capacity(alloc, usize::from(agents))?;
    for agent in 0..agents {
        passes.push(Pass::new(alloc, game, quota, agent)?)?;
    }
    Ok(passes)
}

fn same_tally(one: Tally, two: Tally) -> bool
    ensures { result ≡ same_tally one two }
{
    one.commands == two.commands && (if one.ended { two.ended } else { !two.ended })
}

// Returns whether the last receipt, if any, has a place below this length.
fn is_below(receipts: &[Receipt], length: usize) -> bool
    ensures { result ≡ is_below receipts.now length }
{
    match receipts.last() {
        Some(receipt) => (receipt.place as usize) < length,
        None => true,
    }
}
