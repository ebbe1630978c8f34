//! A match that threads share.

ghost use Rattle.std.specs.Prelude.{◌≡◌, ◌≤◌, ◌↔◌, [], IfOk, IfSome, IsTrue, OnErr, replicate, vec_capacity, vec_len};
ghost use Rattle.bhs_match.specs.Matches.{most_kept};
ghost use Rattle.bhs_match.specs.Decided.{AreAllDone, HaveAllEntered};
ghost use Rattle.bhs_deliveries.specs.Dealer.{moved_on};
ghost use Rattle.bhs_shared_match.specs.Recording.{IsSubmitted, MayWantMemory};
ghost use Rattle.bhs_shared_match.specs.Tallies.{nothing};
ghost use Rattle.bhs_shared_match.specs.Timing.{at_first};
ghost use Rattle.bhs_shared_match.specs.Unclaimed.{IsFresh};
ghost use Rattle.bhs_shared_match.specs.SharedMatches.{IsNews};
ghost use Rattle.bhs_shared_match.specs.Copies.{AreCopies, AreTurns};
ghost use Rattle.bhs_shared_match.specs.Deciding.{WasSeen};
ghost use Rattle.bhs_shared_match.specs.Settling.{IsOfWorld};

use crate::copies::{Copied, copies, turns_from};
use crate::lock_hooks::LockHooks;
use crate::locked_match::{LockedMatch, no_turns, unheard};
use crate::model::{Answer, Tally};
use crate::networks::is_of_world;
use crate::parts::Parts;
use crate::pass::Pass;
use crate::times::Times;
use crate::unclaimed::Unclaimed;
use bhs_deliveries::{Dealer, Drawn, Held};
use bhs_match::Match;
use bhs_model::{Command, Reply, Setup};
use bhs_net::{Memory, Net};
use bhs_time::ScheduleKind;
use std::alloc::Global;
use std::marker::Model;
use std::sync::{Condvar, Mutex, Wait};

/// A match that threads share. Whatever is done with it is done under its lock, and what stands under the lock is
/// always a legal history.
#[derive(Drop)]
pub struct SharedMatch {
    game: u32,
    inner: Mutex<LockedMatch>,
    unclaimed: Mutex<Unclaimed>,
    /// A condition variable for each agent, notified of the agent's arrivals and of the close.
    news: Vec<Condvar>,
    held: Held,
    schedule: ScheduleKind,
    net: Net,
    setup: Setup,
}

impl Model for SharedMatch {
    ghost use Rattle.std.specs.Prelude.{◌≡◌, vec_len};
    ghost use Rattle.bhs_shared_match.specs.SharedMatches.{Given};

    ghost Value = { Given };

    ghost view = { λ shared_match. record {
      game = shared_match.game;
      net = shared_match.net;
      setup = shared_match.setup;
      held = shared_match.held;
      schedule = shared_match.schedule;
    } };

    // Each agent has its condition variable.
    ghost invariant = { λ shared_match. vec_len shared_match.news ≡ shared_match.setup.agents };
}

impl SharedMatch {
    ghost use Rattle.bhs_shared_match.specs.SharedMatches.{Given};

    /// Shares a match with an empty log, whose turns are of this schedule and let nobody arrive over the held links.
    /// Keeps a copy of the network and the setup, and takes all memory that the match and its passes need.
    pub fn new(
        alloc: Global,
        game: u32,
        play: Match,
        held: Held,
        schedule: ScheduleKind,
    ) -> Result<SharedMatch, Memory>
        requires { play.log ≡ [] }
        ensures { IfOk result (λ shared_match. shared_match
            ≡ record { game = game; net = play.net; setup = play.setup; held = held; schedule = schedule }) }
    {
        let Frame {
            net,
            setup,
            news,
            unclaimed,
            tallies,
            times,
            turns,
        } = Frame::new(alloc, game, &play)?;
        Ok(SharedMatch {
            game,
            inner: Mutex::new(LockedMatch::alone(game, play, tallies, times, turns)),
            unclaimed: Mutex::new(unclaimed),
            news,
            held,
            schedule,
            net,
            setup,
        })
    }

    /// Returns the network of the match.
    pub fn net(&self) -> &Net
        ensures { result.now ≡ self.now.net }
    {
        &self.net
    }

    /// Returns the setup of the match.
    pub fn setup(&self) -> &Setup
        ensures { result.now ≡ self.now.setup }
    {
        &self.setup
    }

    /// How the turns of the match choose whom they deliver.
    pub fn schedule(&self) -> ScheduleKind
        ensures { result ≡ self.now.schedule }
    {
        self.schedule
    }

    /// The pass of an agent in this match, once; None for a number without an agent, and for an agent whose pass was
    /// claimed before.
    pub fn claim<R: Wait>(&self, rt: &R, agent: u16) -> Option<Pass>
        ensures fresh { IfSome result (IsFresh agent) }
        ensures game { IfSome result (λ pass. pass.game ≡ self.now.game) }
        ensures quota { IfSome result (λ pass. pass.quota ≡ self.now.setup.quota) }
    {
        self.unclaimed
            .lock(rt)
            .take(self.game, self.setup.quota, agent)
    }

    /// Tells a command for the agent of a pass, under the match's lock. The answer has a place in the log exactly if
    /// the command was heard, and the pass gains its receipt then; else the pass is as it was. A pass that does not
    /// agree with what stands under the lock is answered as no agent's.
    pub fn submit<R: Wait, G: LockHooks>(
        &self,
        rt: &R,
        lock_hooks: &G,
        pass: &mut Pass,
        command: Command,
    ) -> Result<Answer, Memory>
        ensures submitted { IfOk result (λ answer. IsSubmitted pass.old command answer.place answer.reply pass.new) }

        // Memory is wanted only for a reply that says what a whiteboard shows, or that it was written.
        ensures memory { OnErr result (MayWantMemory pass.old command) }
        ensures failed { OnErr result (pass.new ≡ pass.old) }
    {
        let agent = pass.agent();
        lock_hooks.asked(self.game, agent);
        let answer = {
            let mut inner = self.inner.lock(rt);
            lock_hooks.locked(self.game, agent);
            inner.submit(pass, command)
        };
        lock_hooks.answered(self.game, agent);
        answer
    }

    /// Waits for the next arrival of a pass's agent, whose receipt the pass gets, or until the match is over and no
    /// arrival is left. A pass of another match gets the reply that the match is over.
    pub fn news<R: Wait>(&self, rt: &R, pass: &mut Pass) -> Result<Reply, Memory>
        ensures news { IfOk result (λ said. IsNews self.now pass.old said pass.new) }
        ensures failed { OnErr result (pass.new ≡ pass.old) }
    {
        match self.news.get(usize::from(pass.agent())) {
            Some(bell) if pass.game() == self.game => self.awaited(rt, bell, pass),
            _ => Ok(Reply::Over),
        }
    }

    // The news of an agent of the match, whose condition variable this is.
    fn awaited<R: Wait>(&self, rt: &R, bell: &Condvar, pass: &mut Pass) -> Result<Reply, Memory>
        ensures news { IfOk result (λ said. IsNews self.now pass.old said pass.new) }
        ensures failed { OnErr result (pass.new ≡ pass.old) }
    {
        let mut inner = self.inner.lock(rt);
        for _ in rt.forever() {
            if let Some(reply) = inner.give(pass)? {
                return Ok(reply);
            }
            if inner.state().closed() && self.is_of(&inner) {
                return Ok(Reply::Over);
            }
            inner = bell.wait(rt, inner);
        }
        unreachable!()
    }

    // Returns whether the state under the lock is of this match. It always is, but a proof knows only its type;
    // callers that need the match's network and setup compare them by this function.
    fn is_of(&self, inner: &LockedMatch) -> bool
        ensures { IsTrue result ↔ IsOfWorld self.now.net self.now.setup inner.now.play }
    {
        is_of_world(inner.state(), &self.net, &self.setup)
    }

    /// Takes a turn with the dealer's next word: plays at most one delivery, and wakes the agent that it delivered.
    /// Takes no memory.
    pub fn turn<R: Wait>(&self, rt: &R, dealer: &mut Dealer) -> Drawn
        ensures { dealer.new ≡ moved_on dealer.old }
    {
        let drawn = self.inner.lock(rt).turn(&self.held, self.schedule, dealer);
        if let Drawn::Delivered { agent } = drawn {
            if let Some(bell) = self.news.get(usize::from(agent)) {
                bell.notify_all();
            }
        }
        drawn
    }

    /// Whether all agents have entered.
    pub fn is_gathered<R: Wait>(&self, rt: &R) -> bool
        ensures { IsTrue result → WasSeen self.now.net self.now.setup HaveAllEntered }
    {
        let inner = self.inner.lock(rt);
        inner.state().is_gathered() && self.is_of(&inner)
    }

    /// Whether each agent has ended or is lost: then nothing that may still happen changes the verdict.
    pub fn is_decided<R: Wait>(&self, rt: &R) -> bool
        ensures { IsTrue result → WasSeen self.now.net self.now.setup AreAllDone }
    {
        let inner = self.inner.lock(rt);
        inner.state().is_decided() && self.is_of(&inner)
    }

    /// Copies at most `most` kept events from this place of the log on. Holds the lock only while copying.
    pub fn copies<R: Wait>(
        &self,
        rt: &R,
        alloc: Global,
        from: usize,
        most: usize,
    ) -> Result<Vec<Copied>, Memory>
        ensures { IfOk result (λ found. AreCopies from most found.items) }
    {
        let inner = self.inner.lock(rt);
        copies(alloc, inner.state(), from, most)
    }

    /// Copies of the turns of the same events. The turn of an event is there once the event is.
    pub fn turns<R: Wait>(
        &self,
        rt: &R,
        alloc: Global,
        from: usize,
        most: usize,
    ) -> Result<Vec<u32>, Memory>
        ensures { IfOk result (λ found. AreTurns from most found.items) }
    {
        let inner = self.inner.lock(rt);
        // The proof needs what the match says of itself.
        let _legal = inner.state();
        turns_from(alloc, inner.turns(), from, most)
    }

    /// Ends the match, and wakes all who wait for news. Takes no memory.
    pub fn close<R: Wait>(&self, rt: &R) {
        self.inner.lock(rt).close();
        for bell in &self.news {
            bell.notify_all();
        }
    }

    /// The parts of a shared match that no thread shares any more.
    pub fn into_parts(self) -> Parts
        ensures { (result.game ≡ self.game) × (result.net ≡ self.net) × (result.setup ≡ self.setup)
            × (result.held ≡ self.held) × (result.schedule ≡ self.schedule) }
    {
        let SharedMatch {
            game,
            inner,
            unclaimed,
            news: _,
            held,
            schedule,
            net,
            setup,
        } = self;
        Parts {
            game,
            inner: inner.into_inner(),
            left: unclaimed.into_inner().into_left(),
            net,
            setup,
            held,
            schedule,
        }
    }
}

// The parts of a new shared match besides the match itself. Takes all memory that a shared match needs.
struct Frame {
    net: Net,
    setup: Setup,
    news: Vec<Condvar>,
    unclaimed: Unclaimed,
    tallies: Vec<Tally>,
    times: Times,
    turns: Vec<u32>,
}

impl Frame {
    // The frame for a match in which no agent was heard yet.
    fn new(alloc: Global, game: u32, play: &Match) -> Result<Frame, Memory>
        ensures net { IfOk result (λ frame. frame.net ≡ play.now.net) }
        ensures setup { IfOk result (λ frame. frame.setup ≡ play.now.setup) }
        ensures tallies { IfOk result (λ frame. frame.tallies.items ≡ replicate play.now.setup.agents nothing) }
        ensures times { IfOk result (λ frame. frame.times ≡ at_first play.now.setup.agents) }
        ensures turns { IfOk result (λ frame. (frame.turns.items ≡ [])
            × (most_kept play.now.setup.agents play.now.setup.quota ≤ vec_capacity frame.turns)) }
        ensures news { IfOk result (λ frame. vec_len frame.news ≡ play.now.setup.agents) }
    {
        let agents = play.setup().agents;
        let tallies = unheard(alloc, agents)?;
        let times = Times::new(alloc, agents)?;
        let turns = no_turns(alloc, play.setup())?;
        let news = bells(alloc, agents)?;
        let setup = play.setup().try_clone()?;
        let net = play.net().try_clone(alloc)?;
        Ok(Frame {
            unclaimed: Unclaimed::new(alloc, game, setup.quota, agents)?,
            net,
            setup,
            news,
            tallies,
            times,
            turns,
        })
    }
}

fn bells(alloc: Global, agents: u16) -> Result<Vec<Condvar>, Memory>
    ensures { IfOk result (λ bells. vec_len bells ≡ agents) }
{
    let mut bells = Vec::with_capacity(alloc, usize::from(agents))?;
    for _agent in 0..agents {
        bells.push(Condvar::new())?;
    }
    Ok(bells)
}
