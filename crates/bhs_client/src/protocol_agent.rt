//! Agents that run a protocol.

ghost use Rattle.std.specs.Prelude.{◌≡◌, ◌-◌, ◌/◌, ◌==◌, if◌then◌else◌, [], IfOk};
ghost use Rattle.bhs_schedules.specs.Strategies.{Heard};
ghost use Rattle.bhs_protocols.specs.Halves as halves_specs;
ghost use Rattle.bhs_protocols.specs.Shuttle as shuttle_specs;
ghost use Rattle.bhs_client.specs.Protocols as specs;
ghost use Rattle.bhs_agents.specs.Searchers.{observation_of};

use bhs_agents::{AgentNews, Searcher, SearcherFault};
use bhs_model::Reply;
use bhs_protocols::{halves, shuttle};
use bhs_schedules::Step;
use std::alloc::Global;

// The proofs of both protocols need numbers below this bound.
const MOST: u16 = 4094;

/// How two agents search a ring that know its number of nodes. Each protocol is proved to solve every ring.
#[derive(Clone, Copy, Debug, PartialEq, Eq, Drop)]
pub enum Protocol {
    /// The agents divide what is left into halves.
    Halves,
    /// Each agent comes back to the home base after each node.
    Shuttle,
}

/// What an agent holds.
#[derive(Clone, Copy, Debug, PartialEq, Eq, Drop)]
pub enum ProtocolMemory {
    Halves(halves::Memory),
    Shuttle(shuttle::Memory),
}

/// An agent that runs a protocol on a ring of this number of nodes, its number, 0 or 1, and what it holds.
#[derive(Drop)]
pub struct ProtocolAgent {
    pub alloc: Global,
    pub protocol: Protocol,
    pub nodes: u16,
    pub number: u16,
    pub memory: ProtocolMemory,
}

impl ProtocolAgent {
    /// An agent at its start.
    pub fn new(alloc: Global, protocol: Protocol, nodes: u16, number: u16) -> ProtocolAgent
        ensures { (result.protocol ≡ protocol) × (result.nodes ≡ nodes) × (result.number ≡ number) }
    {
        ProtocolAgent {
            alloc,
            protocol,
            nodes,
            number,
            memory: begun(protocol, nodes, number),
        }
    }
}

impl Searcher for ProtocolAgent {
    ghost use Rattle.bhs_client.specs.Protocols.{Holds, strategy_of_agent};

    ghost strategy = { strategy_of_agent };

    ghost has_met = { Holds };

    fn begin(&mut self) -> Result<Step, SearcherFault> {
        self.memory = begun(self.protocol, self.nodes, self.number);
        step_of(self.alloc, self.nodes, self.memory)
    }

    fn next(&mut self, news: &AgentNews) -> Result<Step, SearcherFault> {
        self.memory = after(self.nodes, self.memory, news)?;
        step_of(self.alloc, self.nodes, self.memory)
    }
}

// What agent 0 or 1 of a protocol holds at the start.
fn begun(protocol: Protocol, nodes: u16, agent: u16) -> ProtocolMemory
    ensures { result ≡ specs.held_by protocol nodes agent [] }
{
    match protocol {
        Protocol::Halves => ProtocolMemory::Halves(halves::Memory {
            side: agent,
            mine: 0,
            theirs: 0,
            target: first_target(nodes, agent),
            own: 0,
            other: 0,
            phase: halves::Phase::Begins,
        }),
        Protocol::Shuttle => ProtocolMemory::Shuttle(shuttle::Memory {
            side: agent,
            mine: 0,
            theirs: 0,
            phase: shuttle::Phase::Begins,
        }),
    }
}

// How far an agent is to explore at first: agent 0 takes the greater half.
fn first_target(nodes: u16, agent: u16) -> u16
    ensures { result ≡ (if agent == 0 then nodes / 2 else (nodes - 1) / 2) }
{
    if agent == 0 {
        nodes / 2
    } else {
        nodes.saturating_sub(1) / 2
    }
}

// What an agent that holds this does next on a ring of this number of nodes.
fn step_of(alloc: Global, nodes: u16, held: ProtocolMemory) -> Result<Step, SearcherFault>
    ensures { IfOk result (λ step. step ≡ specs.does_in nodes held) }
{
    match held {
        ProtocolMemory::Halves(memory) => {
            if memory.mine >= MOST || memory.own >= MOST || memory.other >= MOST {
                return Err(SearcherFault::Size);
            }
            Ok(halves::does(alloc, nodes, memory)?)
        }
        ProtocolMemory::Shuttle(memory) => {
            if memory.mine >= MOST || memory.theirs >= MOST {
                return Err(SearcherFault::Size);
            }
            Ok(shuttle::does(alloc, nodes, memory)?)
        }
    }
}

// What an agent that holds this holds once this has happened. A protocol knows no refusals.
fn after(
    nodes: u16,
    held: ProtocolMemory,
    news: &AgentNews,
) -> Result<ProtocolMemory, SearcherFault>
    ensures { IfOk result (λ more. more ≡ specs.after_in nodes held (observation_of news.now)) }
{
    match news {
        AgentNews::Heard(Reply::No(why)) => Err(SearcherFault::Refused(*why)),
        AgentNews::Heard(reply) => after_reply(nodes, held, reply),
        AgentNews::Woke => Ok(held),
    }
}

// The memory of an agent after a reply.
fn after_reply(
    nodes: u16,
    held: ProtocolMemory,
    reply: &Reply,
) -> Result<ProtocolMemory, SearcherFault>
    ensures { IfOk result (λ more. more ≡ specs.after_in nodes held (Heard reply.now)) }
{
    match held {
        ProtocolMemory::Halves(memory) => {
            if memory.mine >= MOST || halves_steps(memory.phase) >= MOST {
                return Err(SearcherFault::Size);
            }
            Ok(ProtocolMemory::Halves(halves::after(nodes, memory, reply)))
        }
        ProtocolMemory::Shuttle(memory) => {
            if memory.mine >= MOST || shuttle_steps(memory.phase) >= MOST {
                return Err(SearcherFault::Size);
            }
            Ok(ProtocolMemory::Shuttle(shuttle::after(memory, reply)))
        }
    }
}

fn halves_steps(phase: halves::Phase) -> u16
    ensures { result ≡ halves_specs.steps_of phase }
{
    use halves::Phase;
    match phase {
        Phase::GoesOut { steps, port: _ }
        | Phase::GoesHome { steps, port: _ }
        | Phase::Follows { steps, port: _ }
        | Phase::Tells { steps, port: _ }
        | Phase::ComesHome { steps, port: _ } => steps,
        Phase::Leaves { steps } | Phase::NearsHome { steps } => steps,
        Phase::Passes { steps } | Phase::NearsBack { steps } => steps,
        Phase::Begins | Phase::Tries | Phase::Returns | Phase::Ends => 0,
        Phase::Turns { port: _ } | Phase::Writes { port: _ } => 0,
    }
}

fn shuttle_steps(phase: shuttle::Phase) -> u16
    ensures { result ≡ shuttle_specs.steps_of phase }
{
    use shuttle::Phase;
    match phase {
        Phase::GoesOut { steps, port: _ } | Phase::ComesBack { steps, port: _ } => steps,
        Phase::Leaves { steps } | Phase::Returns { steps } => steps,
        Phase::Begins | Phase::Writes | Phase::Ends => 0,
    }
}
