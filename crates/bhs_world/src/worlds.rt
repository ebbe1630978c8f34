//! A match without its log: network, setup, whiteboards and agents.

ghost use Rattle.std.specs.Prelude.{◌≡◌, ◌<◌, ◌^◌, List, length, [], Some, None, IfOk, IfErr, true};
ghost use Rattle.std.specs.Prelude.{IsTrue, IsFalse, OnOk, slice_set, if◌then◌else◌, ◌⊎◌, nat_lt, option_and_then};
ghost use Rattle.bhs_net.specs.Network.{nodes_of};
ghost use Rattle.bhs_model.specs.Worlds.{doomed};
ghost use Rattle.bhs_model.specs.declared.marks.Kept.{Kept as KeptData};
ghost use Rattle.bhs_model.specs.Marks.{events_of, read_if, board_of};
ghost use Rattle.bhs_model.specs.Places.{written, named};
ghost use Rattle.bhs_model.specs.Runs.{Bound, run, reply};
ghost use Rattle.bhs_model.specs.Setups.{normal, IsNormal};
ghost use Rattle.bhs_world.specs.Faults.{first_fault, IsWithinLimits};
ghost use Rattle.bhs_world.specs.Tables.{agent_at, board_at, world_in, StandsFor, keeps_next, log_after};
ghost use Rattle.bhs_world.specs.Tables.{is_of_board_if};
ghost use Rattle.bhs_model.specs.Standings.{standing_at};
ghost use Rattle.bhs_state.specs.Agents.{newcomer, position_of};
ghost use Rattle.bhs_world.specs.Steps.{IsSound, IsPlaced, refusal_of, hears_in, table_heard, mark_heard, table_after};
ghost use Rattle.bhs_world.specs.Steps.{mark_after, mark_of_command, heard_in, keeps_delivered, keeps_in, shows_in};

use crate::answers::{advance, answer, here, refusal, shows_from};
use crate::faults::SetupFault;
use crate::setup_checks::{empty_boards, in_order, judged, newcomers};
use bhs_model::{Command, Destroyers, Event, Kept, Mark, Setup, Why};
use bhs_net::Net;
use bhs_state::{Agent, Board, Standing};
use std::alloc::Global;
use std::marker::Model;

/// The world of one match. It keeps no text: a whiteboard names the place, in the log, of the Write that
/// put its text, and so does an answer.
#[derive(Debug, Drop)]
pub struct World {
    net: Net,
    setup: Setup,
    destroyers: Destroyers,
    agents: Vec<Agent>,
    boards: Vec<Board>,
    closed: bool,
}

impl Model for World {
    ghost use Rattle.bhs_world.specs.Tables.{Table};

    ghost Value = { Table };

    ghost use Rattle.bhs_world.specs.Steps.{IsSound};
    ghost use Rattle.bhs_model.specs.Destroyers.{AreSignsOf};

    ghost view = { λ world. record {
      net = world.net;
      setup = world.setup;
      agents = world.agents.items;
      boards = world.boards.items;
      closed = world.closed;
    } };

    ghost invariant = { λ world. IsSound (record {
      net = world.net;
      setup = world.setup;
      agents = world.agents.items;
      boards = world.boards.items;
      closed = world.closed;
    }) × AreSignsOf world.net world.setup.holes world.setup.dark world.destroyers };
}

impl World {
    /// A world at the start of a match, set up by the normal form of the setup. The first fault of the setup is told;
    /// Memory is told only if memory was refused.
    pub fn new(alloc: Global, net: Net, setup: Setup) -> Result<World, SetupFault>
        ensures fit { OnOk result ((first_fault net setup ≡ None) × IsWithinLimits net setup) }
        ensures given { IfOk result (λ world. (world.net ≡ net) × (world.setup ≡ normal net setup)) }
        ensures stands { IfOk result (λ world. StandsFor world []) }
        ensures fault { IfErr result (λ fault. (fault ≡ SetupFault.Memory) ⊎ (first_fault net setup ≡ Some fault)) }
    {
        let destroyers = judged(alloc, &net, &setup)?;
        let setup = in_order(alloc, &net, &destroyers, &setup)?;
        let agents = newcomers(alloc, setup.agents)?;
        let boards = empty_boards(alloc, net.nodes(), setup.board)?;
        Ok(World {
            net,
            setup,
            destroyers,
            agents,
            boards,
            closed: false,
        })
    }

    /// The network.
    pub fn net(&self) -> &Net
        ensures { result.now ≡ self.now.net }
    {
        &self.net
    }

    /// How the match is set up, in normal form.
    pub fn setup(&self) -> &Setup
        ensures setup { result.now ≡ self.now.setup }
        ensures normal { IsNormal self.now.net self.now.setup }
        ensures within { IsWithinLimits self.now.net self.now.setup }
    {
        &self.setup
    }

    /// The agent of this number.
    pub fn agent(&self, agent: u16) -> &Agent
        requires { agent < self.now.setup.agents }
        ensures agent { result.now ≡ agent_at self.now.agents agent }
        ensures place { IsPlaced self.now.net result.now.position }
    {
        &self.agents[usize::from(agent)]
    }

    /// The place, in the log, of the Write whose text the whiteboard of the node shows; None if no Write was
    /// answered Written there.
    pub fn last(&self, node: u16) -> Option<u32>
        requires { node < nodes_of self.now.net }
        ensures kept { result ≡ (board_at self.now.boards node).last }

        // The last Write there that was answered Written.
        ensures place { (log : List KeptData) → StandsFor self.now log → result
            ≡ written (world_in self.now) (events_of log) node }
    {
        self.boards[usize::from(node)].last()
    }

    /// Sets an agent's standing, with nothing of its quota used. Returns whether the agent and its place exist; if not,
    /// changes nothing.
    pub fn place(&mut self, agent: u16, standing: Standing) -> bool
        ensures placed { IsTrue result → self.new ≡ record self.old {
          agents = slice_set self.old.agents agent (record newcomer { position = position_of standing });
        } }
        ensures stands { IsTrue result → agent_at self.new.agents agent
            ≡ record newcomer { position = position_of standing } }
        ensures kept { IsFalse result → self.new ≡ self.old }
        ensures same { (self.new.net ≡ self.old.net) × (self.new.setup ≡ self.old.setup) }
    {
        if agent >= self.setup.agents || !is_placed(&self.net, standing) {
            return false;
        }
        self.agents[usize::from(agent)] = Agent::standing_so(standing);
        true
    }

    /// Sets the log place whose text a node's whiteboard shows. Returns whether the node exists; if not, changes
    /// nothing.
    pub fn show(&mut self, node: u16, last: Option<u32>) -> bool
        ensures shown { IsTrue result → self.new ≡ record self.old {
          boards = slice_set self.old.boards node (record { limit = self.old.setup.board; last = last });
        } }
        ensures shows { IsTrue result → board_at self.new.boards node
            ≡ record { limit = self.old.setup.board; last = last } }
        ensures kept { IsFalse result → self.new ≡ self.old }
        ensures same { (self.new.net ≡ self.old.net) × (self.new.setup ≡ self.old.setup) }
    {
        if node >= self.net.nodes() {
            return false;
        }
        self.boards[usize::from(node)] = Board::showing(self.setup.board, last);
        true
    }

    /// Returns whether the link at a port destroys agents; false if the port does not exist.
    pub fn is_doomed(&self, node: u16, port: u16) -> bool
        ensures link { IsPlaced self.now.net (Bound node port) → result ≡ doomed (world_in self.now) node port }
        ensures only { IsTrue result → doomed (world_in self.now) node port ≡ true }
    {
        node < self.net.nodes()
            && port < self.net.degree(node)
            && self.destroyers.is_doomed(&self.net, node, port)
    }

    /// Whether the match has ended.
    pub fn closed(&self) -> bool
        ensures { result ≡ self.now.closed }
    {
        self.closed
    }

    /// Whether the next event is kept: a heard command, an arrival, the first Deliver that destroys its agent,
    /// the first Close. Nothing else changes the match.
    pub fn keeps(&self, event: &Event) -> bool
        ensures { (log : List KeptData) → StandsFor self.now log → result
            ≡ keeps_next (world_in self.now) log event.now }
    {
        self.keeps_event(event)
    }

    /// Whether the answer to a command, if it were told now, would say what a whiteboard shows or that it was written.
    /// No other answer needs a text.
    pub fn shows(&self, agent: u16, command: &Command) -> bool
        ensures { (log : List KeptData) → StandsFor self.now log → result
            ≡ is_of_board_if (reply (world_in self.now) (run (world_in self.now) (events_of log))
            (Event.Tell agent command.now)) }
    {
        self.shows_board(agent, command)
    }

    /// Plays an event, and answers the mark of its reply, which is read in the log with the event and this mark
    /// at its end, if the event is kept. `log` is what the world stands for. Takes no memory; it takes as long
    /// as comparing the texts of one Write.
    pub fn step(&mut self, log: &[Kept], event: &Event) -> Option<Mark>
        requires stands { StandsFor self.old log.now }
        requires room { length log.now < 2 ^ 32 }

        // The answer is the reply of the definitions.
        ensures reply { let world = world_in self.old in
            read_if (log_after world log.now event.now result) result
            ≡ reply world (run world (events_of log.now)) event.now }
        ensures stands { StandsFor self.new (log_after (world_in self.old) log.now event.now result) }

        // A mark that shows a whiteboard names the last Write there that was answered Written.
        ensures shown { let world = world_in self.old in
            option_and_then board_of result
            ≡ named world (run world (events_of log.now)) (written world (events_of log.now)) event.now }
        ensures same { (self.new.net ≡ self.old.net) × (self.new.setup ≡ self.old.setup) }
    {
        self.play_event(log, event)
    }

    // Plays a command that is heard.
    fn hear(&mut self, log: &[Kept], agent: u16, command: &Command) -> Mark
        requires room { length log.now < 2 ^ 32 }
        requires agent { agent < self.old.setup.agents }
        requires heard { IsTrue (hears_in self.old agent command.now) }
        ensures mark { result ≡ mark_heard self.old log.now agent command.now }
        ensures world { self.new ≡ table_heard self.old log.now agent command.now }
    {
        let agent = &mut self.agents[usize::from(agent)];
        let mark = answer(
            &self.net,
            &self.setup,
            &mut self.boards,
            log,
            agent.standing(),
            command,
        );
        advance(agent, &self.net, &self.setup, command);
        mark
    }

    // Why a command is not heard of an agent, the match being open.
    fn refusal(&self, agent: u16, command: &Command) -> Option<Why>
        requires { agent < self.now.setup.agents }
        ensures { result ≡ refusal_of (standing_at (agent_at self.now.agents agent).position)
            (nat_lt (agent_at self.now.agents agent).used self.now.setup.quota) command.now }
    {
        let agent = &self.agents[usize::from(agent)];
        refusal(agent.standing(), agent.used() < self.setup.quota, command)
    }

    /// Answers a command, and plays it if it is heard, where the whiteboards name places of this log. A Write that is
    /// answered Written names the place behind the last.
    pub fn tell(&mut self, log: &[Kept], agent: u16, command: &Command) -> Mark
        requires room { length log.now < 2 ^ 32 }
        ensures mark { result ≡ mark_of_command self.old log.now agent command.now }
        ensures world { self.new ≡ (if heard_in self.old agent command.now then table_heard self.old log.now agent
            command.now else self.old) }
        ensures sound { IsSound self.old }
    {
        if agent >= self.setup.agents {
            return Mark::No(Why::Agent);
        }
        if self.closed {
            return Mark::Over;
        }
        match self.refusal(agent, command) {
            Some(why) => Mark::No(why),
            None => self.hear(log, agent, command),
        }
    }

    /// Lets an agent through on its link: it arrives, or it is destroyed.
    pub fn deliver(&mut self, agent: u16) -> Option<Mark>
        ensures mark { result ≡ mark_after self.old [] (Event.Deliver agent) }
        ensures world { self.new ≡ table_after self.old [] (Event.Deliver agent) }
        ensures sound { IsSound self.old }
    {
        if self.closed || agent >= self.setup.agents {
            return None;
        }
        let agent = &mut self.agents[usize::from(agent)];
        let (node, port) = agent.bound()?;
        if self.destroyers.is_doomed(&self.net, node, port) {
            agent.lose();
            return None;
        }
        let (node, label) = self.net.far(node, port);
        agent.arrive(node, label);
        Some(here(&self.net, &self.boards, &self.setup, node, Some(label)))
    }

    // Plays an event, and says what is answered.
    fn play_event(&mut self, log: &[Kept], event: &Event) -> Option<Mark>
        requires room { length log.now < 2 ^ 32 }
        ensures mark { result ≡ mark_after self.old log.now event.now }
        ensures world { self.new ≡ table_after self.old log.now event.now }
        ensures sound { IsSound self.old }
    {
        match event {
            Event::Tell { agent, command } => Some(self.tell(log, *agent, command)),
            Event::Deliver { agent } => self.deliver(*agent),
            Event::Close => {
                self.closed = true;
                None
            }
        }
    }

    // Whether a command is heard.
    fn hears(&self, agent: u16, command: &Command) -> bool
        ensures { result ≡ heard_in self.now agent command.now }
    {
        agent < self.setup.agents && !self.closed && self.refusal(agent, command).is_none()
    }

    fn keeps_event(&self, event: &Event) -> bool
        ensures { result ≡ keeps_in self.now event.now }
    {
        match event {
            Event::Tell { agent, command } => self.hears(*agent, command),
            Event::Deliver { agent } => {
                !self.closed && *agent < self.setup.agents && self.keeps_delivered(*agent)
            }
            Event::Close => !self.closed,
        }
    }

    fn shows_board(&self, agent: u16, command: &Command) -> bool
        ensures shows { result ≡ shows_in self.now agent command.now }
        ensures sound { IsSound self.now }
    {
        self.hears(agent, command)
            && shows_from(
                self.setup.board,
                self.agents[usize::from(agent)].standing(),
                command,
            )
    }

    // Whether a Deliver of the agent is kept: it arrives, or is destroyed for the first time.
    fn keeps_delivered(&self, agent: u16) -> bool
        requires { agent < self.now.setup.agents }
        ensures { result ≡ keeps_delivered (world_in self.now) (agent_at self.now.agents agent)
            (agent_at self.now.agents agent).position }
    {
        let agent = &self.agents[usize::from(agent)];
        match agent.bound() {
            Some((node, port)) => !self.destroyers.is_doomed(&self.net, node, port)
                || !agent.lost(),
            None => false,
        }
    }
}

// Returns whether the standing names an existing node or port.
fn is_placed(net: &Net, standing: Standing) -> bool
    ensures { IsTrue result → IsPlaced net.now (position_of standing) }
{
    match standing {
        Standing::Present { node, .. } => node < net.nodes(),
        Standing::Away { node, port } => node < net.nodes() && port < net.degree(node),
        _ => true,
    }
}
