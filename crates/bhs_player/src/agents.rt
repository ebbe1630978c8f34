//! Agents that the program plays.

ghost use Rattle.std.specs.Prelude.{◌≡◌, ℕ, List, IfOk, Some};
ghost use Rattle.bhs_wasm.specs.Contents.{contents_of};
ghost use Rattle.bhs_wasm_read.specs.Modules.{module_in};
ghost use Rattle.bhs_player.specs.Agents.{IsChosen};

use crate::words::AgentChoice;
use bhs_agents::ModuleAgent;
use bhs_cli_words::AgentModule;
use bhs_client::{ChartAgent, PlayFault, ProtocolAgent};
use bhs_model::{MAX_TEXT, MAX_TURNS};
use bhs_stream::{ReadFault, read_text};
use bhs_wasm_read::{ModuleFault, module_of};
use bhs_wasm_team::{FUEL, FailureCause};
use std::alloc::{AllocError, Global};
use std::rt::Files;
use std::{fs, io};
use thiserror::Error;

/// An agent that is played.
#[derive(Drop)]
pub enum PlayedAgent {
    Protocol(ProtocolAgent),
    Chart(ChartAgent),
    Module(ModuleAgent),
}

/// Why a module's file yields no agent.
#[derive(Debug, Drop, Error)]
pub enum AgentFault {
    #[error("{0}")]
    Open(io::Error),
    #[error("{0}")]
    Read(ReadFault),
    #[error("{0}")]
    Module(ModuleFault),
    #[error("memory")]
    Memory,
}

impl From<io::Error> for AgentFault {
    fn from(error: io::Error) -> AgentFault {
        AgentFault::Open(error)
    }
}

impl From<ReadFault> for AgentFault {
    fn from(fault: ReadFault) -> AgentFault {
        AgentFault::Read(fault)
    }
}

impl From<ModuleFault> for AgentFault {
    fn from(fault: ModuleFault) -> AgentFault {
        AgentFault::Module(fault)
    }
}

impl From<AllocError> for AgentFault {
    fn from(_refused: AllocError) -> AgentFault {
        AgentFault::Memory
    }
}

/// The agent that runs this, at its start. The file of a module is read.
pub fn agent_of<F: Files>(
    alloc: Global,
    files: &F,
    runs: &AgentChoice,
) -> Result<PlayedAgent, AgentFault>
    ensures { IfOk result (IsChosen runs.now) }
{
    match runs {
        AgentChoice::Protocol {
            protocol,
            nodes,
            side,
        } => {
            let agent = ProtocolAgent::new(alloc, *protocol, *nodes, *side);
            Ok(PlayedAgent::Protocol(agent))
        }
        AgentChoice::Chart(known) => Ok(PlayedAgent::Chart(ChartAgent::new(alloc, *known))),
        AgentChoice::Module(module) => Ok(PlayedAgent::Module(module_agent(alloc, files, module)?)),
    }
}

fn module_agent<F: Files>(
    alloc: Global,
    files: &F,
    module: &AgentModule,
) -> Result<ModuleAgent, AgentFault>
    ensures { IfOk result (λ agent. (agent.agents.roles.first.arguments.items ≡ module.now.arguments)
        × (agent.agents.fuel ≡ FUEL)
        × ((file : List ℕ) × (module_in file ≡ Some (contents_of agent.agents.roles.first.program)))) }
{
    let mut file = fs::open(files, module.file.as_str())?;
    let bytes = read_text(alloc, &mut file, MAX_TEXT, MAX_TURNS)?;
    let program = module_of(alloc, &bytes)?;
    let arguments = Vec::from_slice(alloc, module.arguments.all())?;
    Ok(ModuleAgent::new(alloc, program, arguments, FUEL)?)
}

/// Why a module failed, and in which function, counted as in the file, if an agent broke off for this reason.
pub fn failure_of(
    alloc: Global,
    agent: &PlayedAgent,
    fault: PlayFault,
) -> Result<Option<String>, AllocError> {
    let (PlayedAgent::Module(agent), PlayFault::Failed) = (agent, fault) else {
        return Ok(None);
    };
    let Some(failure) = agent.agents.failure_in(0) else {
        return Ok(None);
    };
    let (cause, function) = (word_of(failure.cause), failure.function);
    Ok(Some(format!(in alloc; "{cause} in function {function}")?))
}

fn word_of(cause: FailureCause) -> &'static str {
    match cause {
        FailureCause::Fuel => "fuel",
        FailureCause::Trap => "trap",
        FailureCause::Command => "command",
    }
}
