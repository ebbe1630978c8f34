//! Agents of a replay, each compared with its module.

ghost use Rattle.std.specs.Prelude.{◌≡◌, ◌<◌, IfOk, length, map, string_bytes};
ghost use Rattle.bhs_wasm.specs.Contents.{Contents};
ghost use Rattle.bhs_wasm_read.specs.Modules.{module_in};
ghost use Rattle.bhs_cli_explore.specs.ModuleExploration.{AreFor};
ghost use Rattle.bhs_cli_attest.specs.Attesting.{IsAttestReport, attest_status, module_number};
ghost use Rattle.bhs_cli_attest.specs.Comparing.{IsCompared};
ghost use Rattle.bhs_cli_attest.specs.Reports.{AreLinesOf, IsLineOf};

use crate::lines::{agent_line, follows, last_line};
use bhs_agents::{ModuleAgent, PlayLimits};
use bhs_attest::{Attestation, attest, each_match_has_ended};
use bhs_cli::{DONE, FAILING, Fault};
use bhs_cli_explore::ModuleFile;
use bhs_match::Sealed;
use bhs_net::Memory;
use bhs_wasm_read::module_of;
use bhs_wasm_team::FUEL;
use std::alloc::Global;

// How many turns an agent may take beside those with an event of the log.
const MAX_IDLE_TURNS: u64 = 1_000_000;

/// Returns the report on a replay and the exit status. One file has the module of all agents, or each agent has a file.
pub(crate) fn report_on(
    alloc: Global,
    sealed: &Sealed,
    files: &[ModuleFile],
    wakeups: u16,
) -> Result<(String, u8), Memory>
    requires { AreFor sealed.now.setup.agents (length files.now) }
    ensures { IfOk result (λ told. IsAttestReport sealed.now wakeups
        (map (λ file. file.arguments.items) files.now) (string_bytes told.0) told.1) }
{
    each_match_has_ended(sealed);
    let (mut text, is_attested) = lines_of(alloc, sealed, files, wakeups)?;
    let last = last_line(alloc, is_attested, sealed.setup().agents, wakeups)?;
    text.push_str(last.as_str())?;
    Ok((text, status_of(is_attested)))
}

// The exit status by whether a replay is attested.
fn status_of(is_attested: bool) -> u8
    ensures { result ≡ attest_status is_attested }
{
    if is_attested { DONE } else { FAILING }
}

// Writes the lines of the agents, up to the first difference. Returns whether all agents follow their modules.
fn lines_of(
    alloc: Global,
    sealed: &Sealed,
    files: &[ModuleFile],
    wakeups: u16,
) -> Result<(String, bool), Memory>
    requires { AreFor sealed.now.setup.agents (length files.now) }
    ensures { IfOk result (λ told. AreLinesOf sealed.now wakeups
        (map (λ file. file.arguments.items) files.now) (string_bytes told.0) told.1) }
{
    let mut text = String::new(alloc);
    for agent in 0..sealed.setup().agents {
        let (line, is_attested) = line_of(alloc, sealed, agent, files, wakeups)?;
        text.push_str(line.as_str())?;
        if !is_attested {
            return Ok((text, false));
        }
    }
    Ok((text, true))
}

// The line of an agent, and whether it follows its module.
fn line_of(
    alloc: Global,
    sealed: &Sealed,
    agent: u16,
    files: &[ModuleFile],
    wakeups: u16,
) -> Result<(String, bool), Memory>
    requires range { module_number (length files.now) agent < length files.now }
    ensures { IfOk result (λ told. IsLineOf sealed.now wakeups (map (λ file. file.arguments.items) files.now) agent
        (string_bytes told.0) told.1) }
{
    let file = &files[module_number(files.len(), agent)];
    let attestation = compare(alloc, sealed, agent, file, wakeups)?;
    let line = agent_line(alloc, agent, &file.bytes, &file.arguments, &attestation)?;
    Ok((line, follows(&attestation)))
}

// Which of so many modules an agent runs.
fn module_number(modules: usize, agent: u16) -> usize
    ensures { result ≡ module_number modules agent }
{
    if modules == 1 { 0 } else { usize::from(agent) }
}

// Compares an agent's part of the log with the module of a file. The file was read as a module before, so that only
// memory can lack.
fn compare(
    alloc: Global,
    sealed: &Sealed,
    agent: u16,
    file: &ModuleFile,
    wakeups: u16,
) -> Result<Attestation, Memory>
    ensures { IfOk result (IsCompared sealed.now wakeups agent file.now.bytes.items file.now.arguments.items) }
{
    let Ok(program) = module_of(alloc, &file.bytes) else {
        return Err(Memory);
    };
    let arguments = Vec::from_slice(alloc, &file.arguments)?;
    let player = ModuleAgent::new(alloc, program, arguments, FUEL)?;
    let limits = PlayLimits {
        turns: sealed.log().len() as u64 + MAX_IDLE_TURNS,
        spurious_wakeups: u32::from(wakeups),
    };
    match attest(alloc, sealed, agent, player, limits) {
        Ok(attestation) => Ok(attestation),
        Err(_) => Err(Memory),
    }
}
