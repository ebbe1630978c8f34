//! Agents that run a WebAssembly module.

ghost use Rattle.std.specs.Prelude.{◌≡◌, IfOk, OnOk};
ghost use Rattle.bhs_schedules.specs.Dialogues.{item_with, reply_with};
ghost use Rattle.bhs_agents.specs.Searchers.{observation_of};

use crate::searchers::{AgentNews, Searcher, SearcherFault};
use bhs_model::{Mark, Reply};
use bhs_schedules::{Latest, Step, Team, TeamAnswer};
use bhs_wasm::Module;
use bhs_wasm_team::{Agents, MemoryTable, Role, Roles};
use std::alloc::{AllocError, Global};

/// An agent that runs a module: the team that runs it, and the number of the agent's memory.
#[derive(Drop)]
pub struct ModuleAgent {
    pub agents: Agents,
    pub memory: u32,
}

impl ModuleAgent {
    ghost use Rattle.bhs_agents.specs.Modules.{RunsTheSame};
    ghost use Rattle.bhs_wasm_team.specs.Tables.{saved_at};

    /// An agent that runs a module with these arguments. From one command to the next it executes at most `fuel`
    /// instructions.
    pub fn new(
        alloc: Global,
        program: Module,
        arguments: Vec<u32>,
        fuel: u32,
    ) -> Result<ModuleAgent, AllocError>
        ensures { IfOk result (λ agent. (agent.agents.roles.first ≡ record { program = program; arguments = arguments })
            × (agent.agents.fuel ≡ fuel)) }
    {
        let roles = Roles::one(alloc, Role { program, arguments });
        Ok(ModuleAgent {
            agents: Agents::new(alloc, roles, fuel)?,
            memory: 0,
        })
    }

    // Takes what a team answers of the agent, and forgets all memories but the agent's, which none needs any more.
    fn take(&mut self, answer: TeamAnswer) -> Result<Step, SearcherFault>
        ensures step { IfOk result (λ step. step ≡ answer.step) }
        ensures same { OnOk result (RunsTheSame self.old.agents self.new.agents) }
        ensures memory { OnOk result (saved_at self.new.agents.table.states.items self.new.memory
            ≡ saved_at self.old.agents.table.states.items answer.memory) }
    {
        let TeamAnswer { memory, step } = answer;
        let MemoryTable {
            alloc: _,
            states,
            index,
        } = &mut self.agents.table;
        if memory as usize >= states.len() {
            return Err(SearcherFault::Memory);
        }
        let own = states.swap_remove(memory as usize);
        states.clear();
        states.push(own)?;
        index.clear();
        self.memory = 0;
        Ok(step)
    }
}

impl Searcher for ModuleAgent {
    ghost use Rattle.bhs_agents.specs.Modules.{Remembers, strategy_of_module};

    ghost strategy = { strategy_of_module };

    ghost has_met = { Remembers };

    fn begin(&mut self) -> Result<Step, SearcherFault> {
        let answer = self.agents.begin(0)?;
        self.take(answer)
    }

    fn next(&mut self, news: &AgentNews) -> Result<Step, SearcherFault> {
        let (latest, shown) = latest_of(news);
        let answer = self.agents.next(self.memory, latest, shown)?;
        self.take(answer)
    }
}

// What has happened, as a team is told it: the text of the whiteboard is told apart from the reply that shows it.
fn latest_of<'h>(news: &'h AgentNews) -> (Latest, &'h str)
    ensures { item_with result.0 result.1.now ≡ observation_of news.now }
{
    match news {
        AgentNews::Woke => (Latest::Woke, ""),
        AgentNews::Heard(reply) => {
            let (mark, shown) = mark_of(reply);
            (Latest::Heard(mark), shown)
        }
    }
}

// The mark of a reply that shows this text, if it shows one.
fn mark_of<'r>(reply: &'r Reply) -> (Mark, &'r str)
    ensures { reply_with result.0 result.1.now ≡ reply.now }
{
    match reply {
        Reply::Here { ports, came, board } => {
            let here = Mark::Here {
                ports: *ports,
                came: *came,
                board: None,
            };
            (here, board.as_str())
        }
        Reply::Changed { board } => (Mark::Changed { board: None }, board.as_str()),
        Reply::Written => (Mark::Written, ""),
        Reply::Gone => (Mark::Gone, ""),
        Reply::Noted => (Mark::Noted, ""),
        Reply::Bye => (Mark::Bye, ""),
        Reply::Over => (Mark::Over, ""),
        Reply::No(why) => (Mark::No(*why), ""),
    }
}
