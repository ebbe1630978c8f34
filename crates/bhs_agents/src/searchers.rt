//! Agents that follow a strategy.

ghost use Rattle.std.specs.Prelude.{◌≡◌, [], ◌∷◌, IfOk};
ghost use Rattle.bhs_schedules.specs.Strategies.{History, Strategy};
ghost use Rattle.bhs_agents.specs.Searchers.{KeepsTo, observation_of};

use bhs_model::{Reply, Why};
use bhs_schedules::{Step, TeamFault};
use std::alloc::{AllocError, AllocFailed};

/// An observation of an agent.
#[derive(Debug, PartialEq, Eq, Drop)]
pub enum AgentNews {
    /// The agent has read a reply; an arrival is one.
    Heard(Reply),
    /// The agent has woken from a sleep.
    Woke,
}

/// An agent that follows a strategy.
pub trait Searcher {
    // Its strategy.
    ghost strategy: { Self → Strategy };
    // In this state this has happened to it, the newest first.
    ghost has_met: { Self → History → Type 0 };

    /// The first step. The agent forgets its history.
    fn begin(&mut self) -> Result<Step, SearcherFault>
        ensures { IfOk result (λ step. KeepsTo strategy has_met self.old [] step self.new) };

    /// What it does next, once this has happened.
    fn next(&mut self, news: &AgentNews) -> Result<Step, SearcherFault>
        ensures { IfOk result (λ step. (history : History) → has_met self.old history
            → KeepsTo strategy has_met self.old (observation_of news.now ∷ history) step self.new) };
}

/// How long an agent plays.
#[derive(Clone, Copy, Debug, PartialEq, Eq, Drop)]
pub struct PlayLimits {
    /// The agent hears a reply or wakes at most this often.
    pub turns: u64,
    /// The spurious wake-ups in a row that the agent may have. One wake-up more, and the agent sleeps until the close.
    pub spurious_wakeups: u32,
}

/// Why an agent cannot go on.
#[derive(Clone, Copy, Debug, PartialEq, Eq)]
pub enum SearcherFault {
    /// A number has come to 4,094 or more: the network has too many nodes, or a whiteboard has a strange text.
    Size,
    /// Its protocol knows no refusals.
    Refused(Why),
    /// Memory ran out.
    Memory,
}

impl From<AllocError> for SearcherFault {
    fn from(_refused: AllocError) -> SearcherFault {
        SearcherFault::Memory
    }
}

impl<T: Drop> From<AllocFailed<T>> for SearcherFault {
    fn from(_refused: AllocFailed<T>) -> SearcherFault {
        SearcherFault::Memory
    }
}

/// A module answers nothing only if memory is lacking.
impl From<TeamFault> for SearcherFault {
    fn from(_fault: TeamFault) -> SearcherFault {
        SearcherFault::Memory
    }
}
