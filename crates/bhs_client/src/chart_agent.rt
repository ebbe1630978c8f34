//! Agents that search an unknown network by a chart.

ghost use Rattle.std.specs.Prelude.{◌≡◌, IfOk};
ghost use Rattle.bhs_protocols_charts.specs.Charting as charting;
ghost use Rattle.bhs_protocols_charts.specs.Programs.{charting_of, tells_of};
ghost use Rattle.bhs_agents.specs.Searchers.{observation_of};
ghost use Rattle.bhs_client.specs.Charters.{searcher_fault};

use bhs_agents::{AgentNews, Searcher, SearcherFault};
use bhs_model::Reply;
use bhs_protocols_charts::agent::{after, after_waking, does};
use bhs_protocols_charts::charts::ChartFault;
use bhs_protocols_charts::memories::{Memory, NetworkFacts};
use bhs_schedules::Step;
use std::alloc::Global;
use std::mem::replace;

/// An agent that draws a chart: the facts that it was told of the network, and its memory.
#[derive(Drop)]
pub struct ChartAgent {
    pub alloc: Global,
    pub known: NetworkFacts,
    pub memory: Memory,
    /// Whether it has departed and not yet arrived.
    pub has_departed: bool,
}

impl ChartAgent {
    /// An agent at its start.
    pub fn new(alloc: Global, known: NetworkFacts) -> ChartAgent
        ensures { result.known ≡ known }
    {
        ChartAgent {
            alloc,
            known,
            memory: Memory::Begins,
            has_departed: false,
        }
    }
}

impl Searcher for ChartAgent {
    ghost use Rattle.bhs_client.specs.Charters.{HoldsChart, strategy_of_charter};

    ghost strategy = { strategy_of_charter };

    ghost has_met = { HoldsChart };

    fn begin(&mut self) -> Result<Step, SearcherFault> {
        self.memory = Memory::Begins;
        self.has_departed = false;
        does(self.alloc, &self.memory).map_err(searcher_fault)
    }

    fn next(&mut self, news: &AgentNews) -> Result<Step, SearcherFault> {
        let held = replace(&mut self.memory, Memory::Begins);
        self.memory = after_news(self.alloc, self.known, held, news)?;
        self.has_departed = is_gone(news);
        if self.has_departed {
            return Ok(Step::Stops);
        }
        does(self.alloc, &self.memory).map_err(searcher_fault)
    }
}

// Whether it has departed.
fn is_gone(news: &AgentNews) -> bool
    ensures { result ≡ charting.is_gone (observation_of news.now) }
{
    matches!(news, AgentNews::Heard(Reply::Gone))
}

// What an agent that holds this holds once this has happened. A protocol knows no refusals.
fn after_news(
    alloc: Global,
    known: NetworkFacts,
    held: Memory,
    news: &AgentNews,
) -> Result<Memory, SearcherFault>
    ensures { IfOk result (λ next. charting_of next
        ≡ charting.after_in known.nodes (tells_of known.told) (charting_of held) (observation_of news.now)) }
{
    match news {
        AgentNews::Heard(Reply::No(why)) => Err(SearcherFault::Refused(*why)),
        AgentNews::Heard(reply) => after(alloc, known, held, reply).map_err(searcher_fault),
        AgentNews::Woke => Ok(after_waking(held)),
    }
}

// A chart is not written only if a number is too large, or memory is lacking.
fn searcher_fault(fault: ChartFault) -> SearcherFault
    ensures { result ≡ searcher_fault fault }
{
    match fault {
        ChartFault::TooLarge => SearcherFault::Size,
        ChartFault::Memory => SearcherFault::Memory,
    }
}
