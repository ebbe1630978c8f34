//! A match that goes on.

ghost use Rattle.std.specs.Prelude.{◌≡◌, ◌<◌, ◌≤◌, List, [], length, Some, None, Ok, Err, IfSome, IfOk, IfErr, OnOk};
ghost use Rattle.std.specs.Prelude.{if◌then◌else◌, ◌⊎◌, ◌↔◌, IsTrue, map, option_and_then, replicate, vec_capacity};
ghost use Rattle.std.specs.List.{All};
ghost use Rattle.bhs_net.specs.Network.{nodes_of};
ghost use Rattle.bhs_model.specs.declared.limits.TheConstants.{MAX_AGENTS, MAX_QUOTA};
ghost use Rattle.bhs_model.specs.declared.events.Event.{Event as EventData};
ghost use Rattle.bhs_model.specs.Kept.{kept, lost};
ghost use Rattle.bhs_model.specs.KeptReplies.{kept_replies};
ghost use Rattle.bhs_model.specs.Places.{written, named, names};
ghost use Rattle.bhs_model.specs.Marks.{events_of, read, read_if, text_at, board_of};
ghost use Rattle.bhs_model.specs.Runs.{reply, is_bound};
ghost use Rattle.bhs_model.specs.InOrder.{replies};
ghost use Rattle.bhs_model.specs.Sites.{sites};
ghost use Rattle.bhs_model.specs.Setups.{normal, IsNormal};
ghost use Rattle.bhs_state.specs.Agents.{position_of};
ghost use Rattle.bhs_world.specs.Faults.{first_fault, IsWithinLimits};
ghost use Rattle.bhs_world.specs.Tables.{keeps_next, log_after, is_of_board_if};
ghost use Rattle.bhs_match.specs.Matches.{world_in, state_of, most_kept, arrivals, bounds, shown_at};
ghost use Rattle.bhs_match.specs.Keeping.{node_seen};
ghost use Rattle.bhs_match.specs.Laws.{IsLogOf};
ghost use Rattle.bhs_match.specs.Decided.{AreAllDone, HaveAllEntered, has_entered, has_entered_at};
ghost use Rattle.bhs_match.specs.Decided.{is_done, is_done_at};

use crate::answers::Answer;
use crate::news::{News, no_news, note, places};
use crate::pools::{Bound, link, link_by, settle};
use crate::seals::Sealed;
use crate::sites::{Site, site_of};
use crate::texts;
use bhs_model::{Command, Event, Kept, Mark, Reply, Setup, Text, read, text_shared};
use bhs_net::{Memory, Net};
use bhs_state::{Agent, Standing};
use bhs_world::{SetupFault, World};
use std::alloc::{AllocError, Global};
use std::marker::Model;

/// A match: a network, how the match is set up, and its log. The log holds the events that changed something, each
/// with the mark of its reply, and beside it the site of each.
#[derive(Debug, Drop)]
pub struct Match {
    world: World,
    log: Vec<Kept>,
    sites: Vec<Site>,
    pool: Vec<Bound>,
    news: Vec<News>,
}

impl Model for Match {
    ghost use Rattle.bhs_match.specs.Matches.{Play};

    ghost Value = { Play };

    ghost use Rattle.std.specs.Prelude.{vec_capacity};
    ghost use Rattle.bhs_match.specs.Keeping.{IsInOrder, AreSites, HasRoom};

    ghost view = { λ game. record { net = game.world.net; setup = game.world.setup; log = game.log.items } };

    ghost invariant = { λ game. IsInOrder game.world game.log.items game.pool.items game.news.items
        × (AreSites game.world game.log.items game.sites.items
        × HasRoom game.world.setup (vec_capacity game.log) (vec_capacity game.sites) (vec_capacity game.pool)) };
}

impl Match {
    /// A match with an empty log, set up by the normal form of the setup. The first fault of the setup is told; Memory
    /// is told only if memory was refused. All memory that the match needs is taken here.
    pub fn new(alloc: Global, net: Net, setup: Setup) -> Result<Match, SetupFault>
        ensures fit { OnOk result ((first_fault net setup ≡ None) × IsWithinLimits net setup) }
        ensures given { IfOk result (λ game. game ≡ record { net = net; setup = normal net setup; log = [] }) }
        ensures fault { IfErr result (λ fault. (fault ≡ SetupFault.Memory) ⊎ (first_fault net setup ≡ Some fault)) }
    {
        let world = World::new(alloc, net, setup)?;
        let (log, sites) = no_events(alloc, world.setup().agents, world.setup().quota)?;
        let (pool, news) = nobody(alloc, world.setup().agents, world.setup().quota)?;
        Ok(Match {
            world,
            log,
            sites,
            pool,
            news,
        })
    }

    /// Plays an event. Takes no memory; it takes as long as comparing the texts of one Write, and looking through the
    /// pool.
    pub fn apply(&mut self, event: Event) -> Answer
        // The answer is the reply of the definitions, read in the log.
        ensures reply { read_if self.new.log result.mark ≡ reply (world_in self.old) (state_of self.old) event }

        // The log grows by the event where the definitions keep it, and the place is its index there.
        ensures log { self.new.log ≡ log_after (world_in self.old) self.old.log event result.mark }
        ensures place { result.place ≡ (if keeps_next (world_in self.old) self.old.log event
            then Some (length self.old.log) else None) }

        // A mark that shows a whiteboard names the last Write there that was answered Written.
        ensures shown { option_and_then board_of result.mark
            ≡ named (world_in self.old) (state_of self.old) (written (world_in self.old) (events_of self.old.log))
            event }
        ensures same { (self.new.net ≡ self.old.net) × (self.new.setup ≡ self.old.setup) }
    {
        if !self.world.keeps(&event) {
            let mark = self.world.step(&self.log, &event);
            return Answer { place: None, mark };
        }
        let was = link_by(&self.world, &event);
        let site = site_of(&self.world, &event);
        let mark = self.world.step(&self.log, &event);
        let now = link_by(&self.world, &event);
        let place = self.log.len() as u32;
        settle(&mut self.pool, &event, was, now);
        note(&mut self.news, &event, mark, place);
        self.log.push_reserved(Kept { event, mark });
        self.sites.push_reserved(site);
        Answer {
            place: Some(place),
            mark,
        }
    }

    /// The events that were kept, in order, each with the mark of its reply.
    pub fn log(&self) -> &[Kept]
        ensures log { result.now ≡ self.now.log }

        // It holds what the definitions keep, with what they reply.
        ensures kept { kept (world_in self.now) (events_of self.now.log) ≡ events_of self.now.log }
        ensures replies { map (λ one. read_if self.now.log one.mark) self.now.log
            ≡ replies (world_in self.now) (events_of self.now.log) }

        // The log's replies are those that the kept events got among all events.
        ensures heard { (events : List EventData) → IsLogOf (world_in self.now) events self.now.log
            → map (λ one. read_if self.now.log one.mark) self.now.log ≡ kept_replies (world_in self.now) events }

        // A mark that shows a whiteboard names the last Write there that was answered Written.
        ensures shown { map (λ one. option_and_then board_of one.mark) self.now.log
            ≡ names (world_in self.now) (events_of self.now.log) }
        ensures bound { length self.now.log ≤ most_kept self.now.setup.agents self.now.setup.quota }
    {
        &self.log
    }

    /// The places, in the log, of the agent's arrivals, in order; none for a number without an agent.
    pub fn news(&self, agent: u16) -> &[u32]
        ensures places { result.now ≡ arrivals agent self.now.log }
        ensures bound { length result.now ≤ self.now.setup.quota }
        ensures stranger { self.now.setup.agents ≤ agent → result.now ≡ [] }
    {
        places(&self.news, agent)
    }

    /// The agents on a link, destroyed ones too, in the order of their last departure.
    pub fn pool(&self) -> &[Bound]
        ensures { result.now ≡ bounds (state_of self.now) }
    {
        &self.pool
    }

    /// Returns the text of the whiteboard that the agent faces: its node's; the home base's before it enters, and for a
    /// number without an agent; the empty text on a link and after its end. The text shares its bytes with the log.
    pub fn seen(&self, agent: u16) -> Result<Text, Memory>
        ensures { IfOk result (λ text. text
            ≡ shown_at (world_in self.now) (state_of self.now) ((state_of self.now).position agent)) }
    {
        match node_seen(&self.world, agent) {
            Some(node) => text_shared(&self.log, self.world.last(node)),
            None => Ok(Text::empty()),
        }
    }

    /// Whether the reply to a command, if it were told now, would say what a whiteboard shows or that it was written.
    /// No other reply needs a text.
    pub fn shows(&self, agent: u16, command: &Command) -> bool
        ensures { result ≡ is_of_board_if (reply (world_in self.now) (state_of self.now)
            (Event.Tell agent command.now)) }
    {
        self.world.shows(agent, command)
    }

    /// Returns whether the agent travels on a link, destroyed or not; false for a number without an agent.
    pub fn is_away(&self, agent: u16) -> bool
        ensures { result ≡ is_bound ((state_of self.now).position agent) }
    {
        link(&self.world, agent).is_some()
    }

    /// Whether the agent has ended or is lost.
    pub fn is_done(&self, agent: u16) -> bool
        requires { agent < self.now.setup.agents }
        ensures { result ≡ is_done self.now agent }
    {
        is_done_at(self.world.agent(agent))
    }

    /// Whether each agent has ended or is lost: then nothing that may still happen changes the verdict.
    pub fn is_decided(&self) -> bool
        ensures { IsTrue result ↔ AreAllDone self.now }
    {
        for agent in 0..self.setup().agents {
            if !self.is_done(agent) {
                return false;
            }
        }
        true
    }

    // Whether the agent has entered.
    fn has_entered(&self, agent: u16) -> bool
        requires { agent < self.now.setup.agents }
        ensures { result ≡ has_entered self.now agent }
    {
        has_entered_at(self.world.agent(agent))
    }

    /// Whether each agent has entered.
    pub fn is_gathered(&self) -> bool
        ensures { IsTrue result ↔ HaveAllEntered self.now }
    {
        for agent in 0..self.setup().agents {
            if !self.has_entered(agent) {
                return false;
            }
        }
        true
    }

    /// Returns the whiteboard text of a mark of this log, or the empty text for a mark without a whiteboard.
    pub fn text(&self, mark: &Mark) -> &str
        ensures { result.now ≡ text_at self.now.log (board_of mark.now) }
    {
        texts::text(&self.log, mark)
    }

    /// Returns the reply that a mark of this log stands for.
    pub fn reply(&self, mark: &Mark) -> Result<Reply, Memory>
        ensures { IfOk result (λ reply. reply ≡ read self.now.log mark.now) }
    {
        read(&self.log, mark)
    }

    /// Returns the site of each event of the log: the node at which the agent spoke, or the target node of a Deliver.
    pub fn sites(&self) -> &[Site]
        ensures sites { result.now ≡ sites (world_in self.now) (events_of self.now.log) }
        ensures count { length result.now ≡ length self.now.log }
        ensures range { All (λ site. IfSome site (λ node. node < nodes_of self.now.net)) result.now }
    {
        &self.sites
    }

    /// Returns the agent's standing, `Outside` for unknown agents.
    pub fn standing(&self, agent: u16) -> Standing
        ensures { position_of result ≡ (state_of self.now).position agent }
    {
        if agent >= self.world.setup().agents {
            return Standing::Outside;
        }
        self.world.agent(agent).standing()
    }

    /// Returns whether the agent is lost; false if there is no such agent.
    pub fn is_lost(&self, agent: u16) -> bool
        ensures { result ≡ lost (world_in self.now) (events_of self.now.log) agent }
    {
        if agent >= self.world.setup().agents {
            return false;
        }
        self.world.agent(agent).lost()
    }

    /// Whether the match has ended.
    pub fn closed(&self) -> bool
        ensures { result ≡ (state_of self.now).closed }
    {
        self.world.closed()
    }

    /// The network.
    pub fn net(&self) -> &Net
        ensures { result.now ≡ self.now.net }
    {
        self.world.net()
    }

    /// How the match is set up, in normal form.
    pub fn setup(&self) -> &Setup
        ensures setup { result.now ≡ self.now.setup }
        ensures normal { IsNormal self.now.net self.now.setup }
        ensures within { IsWithinLimits self.now.net self.now.setup }
    {
        self.world.setup()
    }

    /// Turns a match that has ended into a read-only match, or returns the match unchanged. Allocates no memory.
    pub fn sealed(self) -> Result<Sealed, Match>
        ensures { result ≡ (if (state_of self).closed then Ok self else Err self) }
    {
        if self.closed() {
            Ok(Sealed { game: self })
        } else {
            Err(self)
        }
    }
}

// The node whose whiteboard an agent sees.
fn node_seen(world: &World, agent: u16) -> Option<u16>
    ensures node { result ≡ node_seen world.now agent }
    ensures range { IfSome result (λ node. node < nodes_of world.now.net) }
{
    if agent >= world.setup().agents {
        return Some(world.setup().home);
    }
    match world.agent(agent).standing() {
        Standing::Outside => Some(world.setup().home),
        Standing::Present { node, .. } => Some(node),
        _ => None,
    }
}

// Whether an agent has ended or is lost.
fn is_done_at(agent: &Agent) -> bool
    ensures { result ≡ is_done_at agent.now.position agent.now.lost }
{
    match agent.standing() {
        Standing::Ended => true,
        _ => agent.lost(),
    }
}

// Whether an agent has entered.
fn has_entered_at(agent: &Agent) -> bool
    ensures { result ≡ has_entered_at agent.now.position }
{
    match agent.standing() {
        Standing::Outside => false,
        _ => true,
    }
}

// An empty log and no sites, with room for all that may happen.
fn no_events(alloc: Global, agents: u16, quota: u16) -> Result<(Vec<Kept>, Vec<Site>), AllocError>
    requires agents { agents ≤ MAX_AGENTS }
    requires quota { quota ≤ MAX_QUOTA }
    ensures log { IfOk result (λ made. (made.0.items ≡ []) × (most_kept agents quota ≤ vec_capacity made.0)) }
    ensures sites { IfOk result (λ made. (made.1.items ≡ []) × (most_kept agents quota ≤ vec_capacity made.1)) }
{
    let log = Vec::with_capacity(alloc, most_kept(agents, quota))?;
    let sites = Vec::with_capacity(alloc, most_kept(agents, quota))?;
    Ok((log, sites))
}

// An empty pool and no news, with room for all that may happen.
fn nobody(alloc: Global, agents: u16, quota: u16) -> Result<(Vec<Bound>, Vec<News>), AllocError>
    ensures pool { IfOk result (λ made. (made.0.items ≡ []) × (agents ≤ vec_capacity made.0)) }
    ensures news { IfOk result (λ made. made.1.items ≡ replicate agents (record { places = []; room = quota })) }
{
    let pool = Vec::with_capacity(alloc, usize::from(agents))?;
    Ok((pool, no_news(alloc, agents, quota)?))
}

// The most events that a log may hold.
fn most_kept(agents: u16, quota: u16) -> usize
    requires agents { agents ≤ MAX_AGENTS }
    requires quota { quota ≤ MAX_QUOTA }
    ensures { result ≡ most_kept agents quota }
{
    usize::from(agents) * (2 * usize::from(quota) + 2) + 1
}
