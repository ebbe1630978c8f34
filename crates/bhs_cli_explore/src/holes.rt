//! A match whose schedules are explored with each node other than the home base as the only black hole in turn.

ghost use Rattle.std.specs.Prelude.{◌≡◌, ◌<◌, ◌∷◌, [], None, Some, IfOk};
ghost use Rattle.std.specs.Prelude.{length, map, slice_index, string_bytes};
ghost use Rattle.std.specs.List.{AllByRecursion};
ghost use Rattle.bhs_net.specs.Network.{nodes_of};
ghost use Rattle.bhs_cli.specs.declared.reporting.statuses.TheConstants.{DONE};
ghost use Rattle.bhs_cli_explore.specs.Holes.{ExploresHoles, TellsHoles, hole_line};
ghost use Rattle.bhs_cli_explore.specs.Holes.{other_nodes};
ghost use Rattle.bhs_cli_explore.specs.HoleResults.{IsReportOf, IsTold};
ghost use Rattle.bhs_cli.specs.Fault.{status};
ghost use Rattle.bhs_cli_explore.specs.ModuleExploration.{arguments_of, programs_of};
ghost use Rattle.bhs_wasm.specs.Contents.{contents_of};
ghost use Rattle.bhs_wasm_read.specs.Modules.{module_in};

use crate::modules::{ModuleFile, ModuleSearch, print_report, team_of, wanted};
use bhs_cli::{DONE, Fault, lineup_of, report};
use bhs_cli_words::{AgentModules, Exploration};
use bhs_model::Text;
use bhs_net::Memory;
use bhs_setups::Ready;
use bhs_stream::Output;
use bhs_wasm_read::module_of;
use bhs_wasm_team::{Role, Roles};
use std::alloc::Global;
use std::io::Write;
use std::rt::Files;
use std::thread::Threads;
use std::{io, thread};

// What came of a search with a black hole: its report and the exit status, or the fault that ended it.
#[derive(Drop)]
struct HoleResult {
    hole: u16,
    told: Result<(String, u8), Fault>,
}

/// Reads a tournament as `check` does, then the modules of its agents, and tries every schedule of one of its matches,
/// or draws some, with each node other than the home base as the only black hole in turn. What was found is printed in
/// the order of the nodes, up to the first black hole with which a schedule fails. A fault goes to `errors` and ends
/// it. The searches share the processors. The answer is the exit status.
pub fn explore_holes_named<R: Files + Threads + Sync, W: Output, E: Write>(
    alloc: Global,
    rt: &R,
    tournament: Text,
    modules: AgentModules,
    exploration: Exploration,
    writer: &mut W,
    errors: &mut E,
) -> u8
    ensures { ExploresHoles W.takes W.flushes (map (λ it. it.arguments) modules) exploration writer.old writer.new
        result }
{
    let name = tournament.as_str();
    let lineup = match lineup_of(alloc, rt, name, errors) {
        Ok(lineup) => lineup,
        Err(status) => return status,
    };
    let (ready, first, others) = match wanted(&lineup, name, &modules, exploration.game, errors) {
        Ok(wanted) => wanted,
        Err(status) => return status,
    };
    let team = match team_of(alloc, rt, first, others, errors) {
        Ok(team) => team,
        Err(status) => return status,
    };
    let Ok(holes) = other_nodes(alloc, ready) else {
        return report(name, Fault::Memory, errors);
    };
    let search = ModuleSearch {
        ready,
        exploration,
        files: &team.files,
    };
    let searches = HoleSearches {
        search,
        name: first.file.as_str(),
    };
    searches.print_all(alloc, rt, &holes, writer, errors)
}

// The nodes of a match other than its home base.
fn other_nodes(alloc: Global, ready: &Ready) -> Result<Vec<u16>, Memory>
    ensures { IfOk result (λ nodes. nodes.items ≡ other_nodes ready.now) }
{
    let home = ready.game.setup().home;
    let mut nodes = Vec::new(alloc);
    for node in 0..ready.game.net().nodes() {
        if node != home {
            nodes.push(node)?;
        }
    }
    Ok(nodes)
}

// The searches of a match with one black hole after the other, and the file that faults name. Threads share them.
#[derive(Drop)]
struct HoleSearches<'m> {
    search: ModuleSearch<'m>,
    name: &'m str,
}

impl HoleSearches<'_> {
    // Searches with these black holes, as many at a time as there are processors, and prints what was found.
    fn print_all<R: Threads + Sync, W: Output, E: Write>(
        &self,
        alloc: Global,
        rt: &R,
        holes: &[u16],
        writer: &mut W,
        errors: &mut E,
    ) -> u8
        requires { AllByRecursion (λ hole. hole < nodes_of self.now.search.ready.now.game.net) holes.now }
        ensures { TellsHoles W.takes W.flushes (IsReportOf self.now.search) writer.new result holes.now writer.old }
    {
        let most = processors(rt);
        let mut rest = holes;
        while !rest.is_empty() {
            let (few, others) = rest.split_at(rest.len().min(most));
            let status = self.print_few(alloc, rt, few, writer, errors);
            if status != DONE {
                return status;
            }
            rest = others;
        }
        DONE
    }

    // Searches with these black holes, each on a thread of its own, and prints what was found.
    fn print_few<R: Threads + Sync, W: Output, E: Write>(
        &self,
        alloc: Global,
        rt: &R,
        holes: &[u16],
        writer: &mut W,
        errors: &mut E,
    ) -> u8
        requires some { 0 < length holes.now }
        requires nodes { AllByRecursion (λ hole. hole < nodes_of self.now.search.ready.now.game.net) holes.now }
        ensures { TellsHoles W.takes W.flushes (IsReportOf self.now.search) writer.new result holes.now writer.old }
    {
        match self.results_of(alloc, rt, holes) {
            Ok(results) => self.print_results(&results, writer, errors),
            Err(_) => report(self.name, Fault::Memory, errors),
        }
    }

    // What comes of the searches with these black holes, each on a thread of its own.
    fn results_of<R: Threads + Sync>(
        &self,
        alloc: Global,
        rt: &R,
        holes: &[u16],
    ) -> Result<Vec<HoleResult>, Memory>
        requires { AllByRecursion (λ hole. hole < nodes_of self.now.search.ready.now.game.net) holes.now }
        ensures { IfOk result (λ results. (map (λ it. it.hole) results.items ≡ holes.now)
            × AllByRecursion (IsTold self.now.search) results.items) }
    {
        thread::map_indices(
            rt,
            alloc,
            holes.len(),
            &|index| -> HoleResult
                requires { (index < length holes.now)
                    × AllByRecursion (λ hole. hole < nodes_of self.now.search.ready.now.game.net) holes.now }
                ensures { (result.hole ≡ slice_index holes.entry.now index) × IsTold self.entry.now.search result }
            { self.result_with(alloc, holes[index]) },
        )
    }

    // What comes of the search with a black hole. It tells nobody how far it is.
    fn result_with(&self, alloc: Global, hole: u16) -> HoleResult
        requires { hole < nodes_of self.now.search.ready.now.game.net }
        ensures { (result.hole ≡ hole) × IsTold self.now.search result }
    {
        HoleResult {
            hole,
            told: self.told_of(alloc, hole),
        }
    }

    // The line that names a black hole and what is found with it, as it is printed, and the exit status.
    fn told_of(&self, alloc: Global, hole: u16) -> Result<(String, u8), Fault>
        requires { hole < nodes_of self.now.search.ready.now.game.net }
        ensures { IfOk result (λ told. IsReportOf self.now.search hole (string_bytes told.0) told.1) }
    {
        let roles = roles_of(alloc, self.search.files)?;
        let (found, status) = self
            .search
            .report(alloc, Some(hole), roles, &mut io::sink())?;
        let mut text = hole_line(alloc, hole)?;
        text.push_str(found.as_str())?;
        Ok((text, status))
    }

    // Prints the results in order, up to the first search that was not done.
    fn print_results<W: Output, E: Write>(
        &self,
        results: &[HoleResult],
        writer: &mut W,
        errors: &mut E,
    ) -> u8
        requires { AllByRecursion (IsTold self.now.search) results.now }
        ensures { TellsHoles W.takes W.flushes (IsReportOf self.now.search) writer.new result
            (map (λ it. it.hole) results.now) writer.old }
    {
        for found in results {
            let status = self.print_result(found, writer, errors);
            if status != DONE {
                return status;
            }
        }
        DONE
    }

    // Prints a result, or reports the fault that ended its search.
    fn print_result<W: Output, E: Write>(
        &self,
        found: &HoleResult,
        writer: &mut W,
        errors: &mut E,
    ) -> u8
        requires { IsTold self.now.search found.now }
        ensures { TellsHoles W.takes W.flushes (IsReportOf self.now.search) writer.new result
            (found.now.hole ∷ []) writer.old }
    {
        match &found.told {
            Ok((text, status)) => print_report(text.as_str(), *status, writer, errors),
            Err(fault) => report_hole(self.name, *fault, found.hole, errors),
        }
    }
}

// Reports the fault that ended the search with a black hole, and which. Answers the exit status.
fn report_hole<E: Write>(name: &str, fault: Fault, hole: u16, errors: &mut E) -> u8
    ensures { result ≡ status fault }
{
    let status = report(name, fault, errors);
    let _ = writeln!(errors, "  with node {hole} as the black hole");
    status
}

// How many threads can run at the same time.
fn processors<R: Threads>(rt: &R) -> usize
    ensures { 0 < result }
{
    match thread::available_parallelism(rt) {
        Ok(count) => count.get(),
        Err(_) => 1,
    }
}

// The line that names a black hole.
fn hole_line(alloc: Global, hole: u16) -> Result<String, Memory>
    ensures { IfOk result (λ text. string_bytes text ≡ hole_line hole) }
{
    format!(in alloc; "{{\"hole\":{hole}}}\n")
}

// The roles of agents that run the modules of these files.
fn roles_of(alloc: Global, files: &[ModuleFile]) -> Result<Roles, Memory>
    ensures arguments { IfOk result (λ roles. arguments_of roles ≡ map (λ file. file.arguments.items) files.now) }
    ensures programs { IfOk result (λ roles. programs_of roles ≡ map (λ file. module_in file.bytes.items) files.now) }
{
    match files {
        [first, others @ ..] => Ok(Roles {
            first: role_of(alloc, first)?,
            others: roles_in(alloc, others)?,
        }),
        [] => Err(Memory),
    }
}

// Makes a role for each module file.
fn roles_in(alloc: Global, files: &[ModuleFile]) -> Result<Vec<Role>, Memory>
    ensures arguments { IfOk result (λ roles. map (λ role. role.arguments.items) roles.items
        ≡ map (λ file. file.arguments.items) files.now) }
    ensures programs { IfOk result (λ roles. map (λ role. Some (contents_of role.program)) roles.items
        ≡ map (λ file. module_in file.bytes.items) files.now) }
{
    let mut roles = Vec::new(alloc);
    for file in files {
        roles.push(role_of(alloc, file)?)?;
    }
    Ok(roles)
}

// The role of agents that run the module of a file. The file was valid when it was read, so the only fault is memory.
fn role_of(alloc: Global, file: &ModuleFile) -> Result<Role, Memory>
    ensures arguments { IfOk result (λ role. role.arguments.items ≡ file.now.arguments.items) }
    ensures program { IfOk result (λ role. Some (contents_of role.program) ≡ module_in file.now.bytes.items) }
{
    let Ok(program) = module_of(alloc, &file.bytes) else {
        return Err(Memory);
    };
    Ok(Role {
        program,
        arguments: Vec::from_slice(alloc, &file.arguments)?,
    })
}
