//! The schedules of a match whose agents run WebAssembly modules: all of them, or some that are drawn.

ghost use Rattle.std.specs.Prelude.{◌≡◌, ◌<◌, ◌∷◌, ◌++◌, [], ℕ, List, Some, IfErr, IfOk, IfSome, OnOk};
ghost use Rattle.std.specs.Prelude.{false, length, map};
ghost use Rattle.std.specs.Prelude.{string_bytes};
ghost use Rattle.hex.specs.Hex.{encode_lower};
ghost use Rattle.sha2.specs.Sha256.{sha256};
ghost use Rattle.bhs_cli.specs.Fault.{IsOfFault};
ghost use Rattle.bhs_cli_explore.specs.ModuleExploration.{AreFor, ExploresModules, IsFoundOfModules, IsModuleReport};
ghost use Rattle.bhs_cli_explore.specs.ModuleExploration.{IsTeamOf, IsWanted, ModuleLine, PrintsReport};
ghost use Rattle.bhs_cli_explore.specs.ModuleExploration.{cause_text, is_of_one};
ghost use Rattle.bhs_cli_explore.specs.Holes.{match_with};
ghost use Rattle.bhs_cli_explore.specs.declared.discoveries.Discovery.TheVariants.{Tried};
ghost use Rattle.bhs_net.specs.Network.{nodes_of};
ghost use Rattle.bhs_cli_explore.specs.ModuleExploration.{failure_items};
ghost use Rattle.bhs_cli_explore.specs.ModuleExploration.{module_items, module_line, module_lines, programs_of};
ghost use Rattle.bhs_wasm.specs.Contents.{contents_of};
ghost use Rattle.bhs_wasm_read.specs.Modules.{module_in};

use crate::discoveries::{Discovery, found_of, numbers, status_of, text_of};
use crate::explore::draws_of;
use crate::links::held_links;
use crate::worlds::world_of;
use bhs_cli::{DONE, Fault, Shown, lineup_of, report, report_with_cause, show_text};
use bhs_cli_words::{AgentModule, AgentModules, Exploration};
use bhs_explore::Explored;
use bhs_model::{MAX_TEXT, MAX_TURNS, Text};
use bhs_net::Memory;
use bhs_schedules::{ExploreFault, Finding};
use bhs_setups::{Lineup, Ready};
use bhs_stream::{Output, read_text};
use bhs_wasm::Module;
use bhs_wasm_read::{FaultKind, ModuleFault, module_of};
use bhs_wasm_team::{
    Agents, FUEL, FailureCause, ModuleFailure, Role, Roles, draw_module, explore_module,
};
use sha2::{Digest, Sha256};
use std::alloc::Global;
use std::fs;
use std::io::Write;
use std::rt::Files;

/// The file of a module, and the arguments of the agents that run it.
#[derive(Drop)]
pub struct ModuleFile {
    pub bytes: Vec<u8>,
    pub arguments: Vec<u32>,
}

/// The roles of agents that run the modules of files, and these files in the order of the roles.
#[derive(Drop)]
pub(crate) struct FileRoles {
    pub(crate) roles: Roles,
    pub(crate) files: Vec<ModuleFile>,
}

impl FileRoles {
    // One role more.
    fn add(&mut self, role: Role, file: ModuleFile) -> Result<(), Memory>
        ensures first { self.new.roles.first ≡ self.old.roles.first }
        ensures others { OnOk result
            (self.new.roles.others.items ≡ self.old.roles.others.items ++ role ∷ []) }
        ensures files { OnOk result (self.new.files.items ≡ self.old.files.items ++ file ∷ []) }
    {
        self.roles.others.push(role)?;
        self.files.push(file)?;
        Ok(())
    }
}

/// Reads a tournament as `check` does, then the modules of its agents, and tries every schedule of one of its matches,
/// or draws some. It then prints the finding, and a line for each module. A fault goes to `errors` and ends it. Now and
/// then a line there says how far the search is. The answer is the exit status.
pub fn explore_modules_named<F: Files, W: Output, E: Write>(
    alloc: Global,
    files: &F,
    tournament: Text,
    modules: AgentModules,
    exploration: Exploration,
    writer: &mut W,
    errors: &mut E,
) -> u8
    ensures { ExploresModules W.takes W.flushes (map (λ it. it.arguments) modules) exploration writer.old writer.new
        result }
{
    let name = tournament.as_str();
    let lineup = match lineup_of(alloc, files, name, errors) {
        Ok(lineup) => lineup,
        Err(status) => return status,
    };
    let (ready, first, others) = match wanted(&lineup, name, &modules, exploration.game, errors) {
        Ok(wanted) => wanted,
        Err(status) => return status,
    };
    let FileRoles { roles, files } = match team_of(alloc, files, first, others, errors) {
        Ok(team) => team,
        Err(status) => return status,
    };
    let search = ModuleSearch {
        ready,
        exploration,
        files: &files,
    };
    match search.report(alloc, None, roles, errors) {
        Ok((text, status)) => print_report(text.as_str(), status, writer, errors),
        Err(fault) => report(first.file.as_str(), fault, errors),
    }
}

/// The match of this number, the first module, and the further ones. Why they do not go together goes to `errors`; the
/// answer is then its exit status.
pub(crate) fn wanted<'l, E: Write>(
    lineup: &'l Lineup,
    name: &str,
    modules: &'l AgentModules,
    game: u16,
    errors: &mut E,
) -> Result<(&'l Ready, &'l AgentModule, &'l [AgentModule]), u8>
    ensures wanted { IfOk result (λ found. IsWanted lineup.now game modules.now found.0.now) }
    ensures modules { IfOk result (λ found. found.1.now ∷ found.2.now ≡ modules.now) }
    ensures fault { IfErr result IsOfFault }
{
    let Some(ready) = lineup.ready.get(usize::from(game)) else {
        return Err(report(name, Fault::NoMatch { game }, errors));
    };
    let agents = ready.game.setup().agents;
    match modules_for(agents, modules.all()) {
        Some((first, others)) => Ok((ready, first, others)),
        None => Err(report_count(name, modules.all().len(), agents, errors)),
    }
}

/// Prints what was found, whose exit status is given.
pub fn print_report<W: Output, E: Write>(
    text: &str,
    status: u8,
    writer: &mut W,
    errors: &mut E,
) -> u8
    ensures { PrintsReport W.takes W.flushes text.now status writer.old writer.new result }
{
    let printed = show_text(text, writer, errors);
    if printed == DONE { status } else { printed }
}

/// Splits the list of modules into its first element and the rest. A command needs one module for all agents, or one
/// for each agent.
pub fn modules_for<'m>(
    agents: u16,
    modules: &'m [AgentModule],
) -> Option<(&'m AgentModule, &'m [AgentModule])>
    ensures { IfSome result (λ parts. (parts.0.now ∷ parts.1.now ≡ modules.now)
        × AreFor agents (length modules.now)) }
{
    match modules {
        [first, others @ ..] => {
            if others.is_empty() || modules.len() == usize::from(agents) {
                Some((first, others))
            } else {
                None
            }
        }
        [] => None,
    }
}

/// Reports how many modules were given for how many agents, and what to change. Answers the exit status.
pub fn report_count<E: Write>(name: &str, modules: usize, agents: u16, errors: &mut E) -> u8
    ensures { IsOfFault result }
{
    let status = report(name, Fault::Modules { modules, agents }, errors);
    let _ = writeln!(
        errors,
        "  give --module once for all agents, or {agents} times, once for each"
    );
    status
}

/// The roles of agents that run the modules of files: the first one and others. Why they cannot be goes to `errors`;
/// the answer is then its exit status.
pub(crate) fn team_of<F: Files, E: Write>(
    alloc: Global,
    files: &F,
    first: &AgentModule,
    others: &[AgentModule],
    errors: &mut E,
) -> Result<FileRoles, u8>
    ensures team { IfOk result (IsTeamOf (first.now ∷ others.now)) }
    ensures fault { IfErr result IsOfFault }
{
    let (role, file) = match role_of(alloc, files, first, errors) {
        Ok(both) => both,
        Err(status) => return Err(status),
    };
    let mut team = match begun_team(alloc, role, file) {
        Ok(team) => team,
        Err(_) => return Err(report(first.file.as_str(), Fault::Memory, errors)),
    };
    for agent_module in others {
        let (role, file) = match role_of(alloc, files, agent_module, errors) {
            Ok(both) => both,
            Err(status) => return Err(status),
        };
        if team.add(role, file).is_err() {
            return Err(report(agent_module.file.as_str(), Fault::Memory, errors));
        }
    }
    Ok(team)
}

// A team of one role.
fn begun_team(alloc: Global, role: Role, file: ModuleFile) -> Result<FileRoles, Memory>
    ensures role { IfOk result (λ team. (team.roles.first ≡ role) × (team.roles.others.items ≡ [])) }
    ensures file { IfOk result (λ team. team.files.items ≡ file ∷ []) }
{
    let mut files = Vec::new(alloc);
    files.push(file)?;
    Ok(FileRoles {
        roles: Roles::one(alloc, role),
        files,
    })
}

// The role of agents that run the module of a file, and the file. Why it cannot be goes to `errors`; the answer is then
// its exit status.
fn role_of<F: Files, E: Write>(
    alloc: Global,
    files: &F,
    agent_module: &AgentModule,
    errors: &mut E,
) -> Result<(Role, ModuleFile), u8>
    ensures role { IfOk result (λ made. made.0.arguments.items ≡ agent_module.now.arguments) }
    ensures file { IfOk result (λ made. made.1.arguments.items ≡ agent_module.now.arguments) }
    ensures is { IfOk result (λ made. module_in made.1.bytes.items ≡ Some (contents_of made.0.program)) }
    ensures fault { IfErr result IsOfFault }
{
    let name = agent_module.file.as_str();
    let bytes = match file_of(alloc, files, name) {
        Ok(bytes) => bytes,
        Err(fault) => return Err(report_with_cause(files, name, fault, errors)),
    };
    let program = match module_of(alloc, &bytes) {
        Ok(program) => program,
        Err(fault) => return Err(report_module(name, &fault, errors)),
    };
    match role_in(alloc, program, bytes, agent_module.arguments.all()) {
        Ok(made) => Ok(made),
        Err(_) => Err(report(name, Fault::Memory, errors)),
    }
}

// The role of agents that run the module that a file is, and the file.
fn role_in(
    alloc: Global,
    program: Module,
    bytes: Vec<u8>,
    arguments: &[u32],
) -> Result<(Role, ModuleFile), Memory>
    ensures role { IfOk result (λ made. made.0.arguments.items ≡ arguments.now) }
    ensures file { IfOk result (λ made. made.1.arguments.items ≡ arguments.now) }
    ensures program { IfOk result (λ made. made.0.program ≡ program) }
    ensures bytes { IfOk result (λ made. made.1.bytes ≡ bytes) }
{
    let role = Role {
        program,
        arguments: Vec::from_slice(alloc, arguments)?,
    };
    let file = ModuleFile {
        bytes,
        arguments: Vec::from_slice(alloc, arguments)?,
    };
    Ok((role, file))
}

// Adds the line of each module, with how the first agent in its role failed that did.
fn push_lines(
    alloc: Global,
    files: &[ModuleFile],
    agents: &Agents,
    text: &mut String,
) -> Result<(), Memory>
    ensures { OnOk result ((lines : List ModuleLine)
        × (map (λ line. line.arguments) lines ≡ map (λ file. file.arguments.items) files.now)
        × (map (λ line. module_in line.file) lines ≡ map (λ file. module_in file.bytes.items) files.now)
        × (string_bytes text.new ≡ string_bytes text.old ++ module_lines lines)) }
{
    let mut role = 0u32;
    for file in files {
        let line = line_of(alloc, file, agents.failure_in(role))?;
        text.push_str(line.as_str())?;
        role = role.wrapping_add(1);
    }
    Ok(())
}

// The line of a module, with how the first agent that failed did.
fn line_of(
    alloc: Global,
    file: &ModuleFile,
    failure: Option<ModuleFailure>,
) -> Result<String, Memory>
    ensures { IfOk result (λ line. string_bytes line ≡ module_line (record {
      file = file.now.bytes.items;
      arguments = file.now.arguments.items;
      failure = failure;
    })) }
{
    let mut line = begun_line(alloc, &file.bytes, &file.arguments)?;
    let end = failure_of(alloc, failure)?;
    line.push_str(end.as_str())?;
    Ok(line)
}

/// The line that names the module of a file, up to what is told of its agents.
pub fn begun_line(alloc: Global, file: &[u8], arguments: &[u32]) -> Result<String, Memory>
    ensures { IfOk result (λ line. string_bytes line ≡ module_items file.now arguments.now) }
{
    let digest = digest_of(alloc, file)?;
    let arguments = numbers(alloc, arguments)?;
    let (digest, arguments) = (digest.as_str(), arguments.as_str());
    format!(in alloc; "{{\"module\":\"{digest}\",\"arguments\":{arguments}")
}

// The SHA-256 of a file, in hexadecimal digits.
fn digest_of(alloc: Global, file: &[u8]) -> Result<String, Memory>
    ensures { IfOk result (λ text. string_bytes text ≡ encode_lower (sha256 file.now)) }
{
    Ok(hex::encode(alloc, Sha256::digest(file))?)
}

// The end of a line: how the first agent that failed did.
fn failure_of(alloc: Global, failure: Option<ModuleFailure>) -> Result<String, Memory>
    ensures { IfOk result (λ text. string_bytes text ≡ failure_items failure) }
{
    let Some(failure) = failure else {
        return String::from_str(alloc, "}\n");
    };
    let (cause, function) = (cause_text(failure.cause), failure.function);
    format!(in alloc; ",\"failure\":\"{cause}\",\"function\":{function}}}\n")
}

// The word for why an agent failed.
fn cause_text(cause: FailureCause) -> &'static str
    ensures { result.now ≡ cause_text cause }
{
    match cause {
        FailureCause::Fuel => "fuel",
        FailureCause::Trap => "trap",
        FailureCause::Command => "command",
    }
}

/// The bytes of a module's file.
pub fn file_of<F: Files>(alloc: Global, files: &F, name: &str) -> Result<Vec<u8>, Fault> {
    let mut file = fs::open(files, name)?;
    Ok(read_text(alloc, &mut file, MAX_TEXT, MAX_TURNS)?)
}

/// Reports why a file is no module of agents, and answers the exit status.
pub fn report_module<E: Write>(name: &str, fault: &ModuleFault, errors: &mut E) -> u8
    ensures { IsOfFault result }
{
    if let ModuleFault::Inside {
        kind: FaultKind::Memory,
        at: _,
        import: _,
    } = fault
    {
        return report(name, Fault::Memory, errors);
    }
    let place = Shown { name };
    let _ = writeln!(errors, "{place}: {fault}");
    Fault::Text.status()
}

/// A match that is searched, and the files of the modules that its agents run. Threads may share it.
#[derive(Drop)]
pub(crate) struct ModuleSearch<'m> {
    pub(crate) ready: &'m Ready,
    pub(crate) exploration: Exploration,
    pub(crate) files: &'m [ModuleFile],
}

impl ModuleSearch<'_> {
    /// Searches the match, with this node as its only black hole if one is given. Returns the printed report and the
    /// exit status.
    pub(crate) fn report<E: Write>(
        &self,
        alloc: Global,
        hole: Option<u16>,
        roles: Roles,
        errors: &mut E,
    ) -> Result<(String, u8), Fault>
        requires hole { IfSome hole (λ hole. hole < nodes_of self.now.ready.now.game.net) }
        requires roles { map (λ file. module_in file.bytes.items) self.now.files.now ≡ programs_of roles }
        ensures { IfOk result (λ told. IsModuleReport (match_with self.now.ready.now hole) self.now.exploration roles
            (map (λ file. file.arguments.items) self.now.files.now) (string_bytes told.0) told.1) }
    {
        let mut agents = agents_in(alloc, roles)?;
        let found = self.discovered(alloc, hole, &mut agents, errors)?;
        let mut text = text_of(alloc, &found)?;
        push_lines(alloc, self.files, &agents, &mut text)?;
        Ok((text, status_of(found_of(&found))))
    }

    // Searches the match, with this node as its only black hole if one is given.
    fn discovered<E: Write>(
        &self,
        alloc: Global,
        hole: Option<u16>,
        agents: &mut Agents,
        errors: &mut E,
    ) -> Result<Discovery, Fault>
        requires { IfSome hole (λ hole. hole < nodes_of self.now.ready.now.game.net) }
        ensures { IfOk result (IsFoundOfModules (match_with self.now.ready.now hole) self.now.exploration
            agents.old.roles agents.old.fuel) }
    {
        let held = held_links(alloc, self.ready)?;
        let world = world_of(alloc, self.ready, hole)?;
        let Exploration {
            wakeups,
            states,
            ..
        } = self.exploration;
        match self.exploration.drawing {
            None => match explore_module(world, held, wakeups, agents, states, errors) {
                Ok(explored) => tried(explored),
                Err(fault) => Err(fault_of(fault)),
            },
            Some(drawing) => {
                let draws = draws_of(drawing, states);
                match draw_module(world, held, wakeups, agents, draws) {
                    Ok(drawn) => Ok(Discovery::Drawn(drawn)),
                    Err(fault) => Err(fault_of(fault)),
                }
            }
        }
    }
}

// Agents in these roles.
fn agents_in(alloc: Global, roles: Roles) -> Result<Agents, Memory>
    ensures { IfOk result (λ agents. (agents.roles ≡ roles) × (agents.fuel ≡ FUEL)) }
{
    Ok(Agents::new(alloc, roles, FUEL)?)
}

// The finding of a search of all schedules. It speaks of no single schedule; the check of that is for the contract.
fn tried(explored: Explored) -> Result<Discovery, Fault>
    ensures found { IfOk result (λ found. found ≡ Tried explored) }
    ensures all { IfOk result (λ found. is_of_one explored.found ≡ false) }
{
    if is_of_one(&explored.found) {
        return Err(Fault::from(ExploreFault::Check));
    }
    Ok(Discovery::Tried(explored))
}

fn is_of_one(found: &Finding) -> bool
    ensures { result ≡ is_of_one found.now }
{
    matches!(found, Finding::Comes { .. })
}

// Why an exploration ended: a module answers nothing only if memory is lacking.
fn fault_of(fault: ExploreFault) -> Fault {
    match fault {
        ExploreFault::Team => Fault::Memory,
        _ => Fault::from(fault),
    }
}
