//! Whose turn is next in a drawn schedule.

use crate::lookups::{get, set};
use crate::state_graph::StateGraph;
use bhs_model::Scheduler;
use bhs_schedules::Step;
use bhs_state::Standing;
use bhs_world::World;
use rand_chacha::ChaCha8Rng;
use rand_core::SeedableRng;
use rand_core::utils::NextWord;
use std::alloc::{AllocError, Global};

// The weights of agents and of links, from slow to fast.
const SPEEDS: [u32; 5] = [2, 30, 100, 100, 500];

// The weights of sleepers.
const WAKINGS: [u32; 2] = [1, 10];

/// Draws whose turn it is. What is drawn for a schedule is a function of the seed and of the schedule's number.
#[derive(Drop)]
pub struct SchedulerState {
    seed: u64,
    scheduler: Scheduler,
    words: ChaCha8Rng,
    // The number of the agent that is starved.
    starved: usize,
    waking: u32,
    // For each agent, weights for its answers and its arrivals.
    answers: Vec<u32>,
    arrivals: Vec<u32>,
    // Of each node the place of its first port among all ports, and of each port the weight of its link.
    ports: Vec<u32>,
    links: Vec<u32>,
    // Of each agent the weight of its turn.
    weights: Vec<u32>,
    // Of each agent how many turns there had been when it departed last.
    pub departed: Vec<u32>,
}

impl SchedulerState {
    /// Lots of this seed, for matches in this world.
    pub(crate) fn new(
        alloc: Global,
        world: &World,
        seed: u64,
        scheduler: Scheduler,
    ) -> Result<SchedulerState, AllocError> {
        let agents = usize::from(world.setup().agents);
        let nodes = world.net().nodes();
        let mut ports = vec![in alloc; 0; usize::from(nodes)]?;
        let mut count = 0u32;
        for node in 0..nodes {
            set(&mut ports, usize::from(node), count);
            count = count.wrapping_add(u32::from(world.net().degree(node)));
        }
        Ok(SchedulerState {
            seed,
            scheduler,
            words: ChaCha8Rng::seed_from_u64(seed),
            starved: 0,
            waking: 0,
            answers: vec![in alloc; 0; agents]?,
            arrivals: vec![in alloc; 0; agents]?,
            ports,
            links: vec![in alloc; 0; count as usize]?,
            weights: vec![in alloc; 0; agents]?,
            departed: vec![in alloc; 0; agents]?,
        })
    }

    /// Begins the schedule of this number.
    pub(crate) fn begin(&mut self, number: u32) {
        self.words = ChaCha8Rng::seed_from_u64(self.seed);
        self.words.set_stream(u64::from(number));
        self.departed.fill(0);
        match self.scheduler {
            Scheduler::Fair | Scheduler::LastDeparted => {}
            Scheduler::Starved => {
                let agents = self.weights.len();
                if agents > 0 {
                    self.starved = number as usize % agents;
                }
            }
            Scheduler::SlowAgents => {
                self.waking = one_of(&mut self.words, &WAKINGS);
                draw_all(&mut self.words, &mut self.answers);
                draw_all(&mut self.words, &mut self.arrivals);
            }
            Scheduler::SlowLinks => draw_all(&mut self.words, &mut self.links),
        }
    }

    /// A drawn number below `most`; 0 if `most` is 0.
    pub(crate) fn below(&mut self, most: u32) -> u32 {
        let word = self.words.next_word();
        if most == 0 { 0 } else { word % most }
    }

    /// The agent whose turn is next in a row, if any can move.
    pub(crate) fn next(&mut self, graph: &StateGraph, row: &[u32]) -> Option<u16> {
        let total = self.weigh(graph, row);
        if total == 0 {
            return self.last(graph, row);
        }
        let mut left = self.below(total);
        for (weight, agent) in self.weights.iter().zip(0u16..) {
            if left < *weight {
                return Some(agent);
            }
            left = left.wrapping_sub(*weight);
        }
        None
    }

    // Weighs the turns of all agents, and adds them up.
    fn weigh(&mut self, graph: &StateGraph, row: &[u32]) -> u32 {
        let mut total = 0u32;
        for agent in 0..self.weights.len() {
            let local = get(row, agent);
            let weight = if graph.summary(local).is_still {
                0
            } else {
                self.weight(graph, local, agent)
            };
            set(&mut self.weights, agent, weight);
            total = total.saturating_add(weight);
        }
        total
    }

    // The weight of a turn of an agent that can move.
    fn weight(&self, graph: &StateGraph, local: u32, agent: usize) -> u32 {
        match self.scheduler {
            Scheduler::Fair => 1,
            Scheduler::Starved => u32::from(agent != self.starved),
            Scheduler::LastDeparted => u32::from(port_of(graph, local).is_none()),
            Scheduler::SlowAgents => self.weight_of_agent(graph, local, agent),
            Scheduler::SlowLinks => match port_of(graph, local) {
                Some((node, port)) => {
                    let first = get(&self.ports, usize::from(node)) as usize;
                    get(&self.links, first.wrapping_add(usize::from(port)))
                }
                None => 100,
            },
        }
    }

    fn weight_of_agent(&self, graph: &StateGraph, local: u32, agent: usize) -> u32 {
        if port_of(graph, local).is_some() {
            return get(&self.arrivals, agent);
        }
        match graph.local(local).memory {
            Some(memory) => match graph.memories.step(memory) {
                Some(Step::Sleeps) => self.waking,
                _ => get(&self.answers, agent),
            },
            None => 1,
        }
    }

    // The agent that departed last of those that can move; it is next if no turn weighs anything.
    fn last(&self, graph: &StateGraph, row: &[u32]) -> Option<u16> {
        let mut found = None;
        let mut latest = 0;
        for (departed, agent) in self.departed.iter().zip(0u16..) {
            if graph.summary(get(row, usize::from(agent))).is_still {
                continue;
            }
            if found.is_none() || *departed > latest {
                found = Some(agent);
                latest = *departed;
            }
        }
        found
    }
}

// The link on which an agent is with this local state.
fn port_of(graph: &StateGraph, local: u32) -> Option<(u16, u16)> {
    match graph.local(local).standing {
        Standing::Away { node, port } => Some((node, port)),
        _ => None,
    }
}

// One of these weights.
fn one_of(words: &mut ChaCha8Rng, weights: &[u32]) -> u32 {
    let word = words.next_word();
    if weights.is_empty() {
        return 1;
    }
    get(weights, word as usize % weights.len())
}

// Draws all these weights.
fn draw_all(words: &mut ChaCha8Rng, weights: &mut [u32]) {
    for weight in weights {
        *weight = one_of(words, &SPEEDS);
    }
}
