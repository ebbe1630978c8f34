//! The command `attest`.

ghost use Rattle.std.specs.Prelude.{◌≡◌, IfErr, IfOk, map};
ghost use Rattle.bhs_cli.specs.Fault.{IsOfFault};
ghost use Rattle.bhs_cli_attest.specs.Attesting.{AttestsReplay};

use crate::agents::report_on;
use bhs_cli::{Fault, match_of, report, report_with_cause};
use bhs_cli_explore::{
    ModuleFile, file_of, modules_for, print_report, report_count, report_module,
};
use bhs_cli_words::{AgentModule, AgentModules};
use bhs_net::Memory;
use bhs_stream::Output;
use bhs_wasm_read::module_of;
use std::alloc::Global;
use std::io::Write;
use std::rt::Files;

/// Reads a replay, then the modules of its agents, and compares each agent's part of the log with what its module says.
/// It then prints a line for each agent, up to the first that differs, and a last line. A fault goes to `errors` and
/// ends it. The answer is the exit status.
pub fn attest_named<F: Files, W: Output, E: Write>(
    alloc: Global,
    files: &F,
    replay: &str,
    modules: &AgentModules,
    wakeups: u16,
    writer: &mut W,
    errors: &mut E,
) -> u8
    ensures { AttestsReplay W.takes W.flushes (map (λ it. it.arguments) modules.now) wakeups writer.old writer.new
        result }
{
    let sealed = match match_of(alloc, files, replay, errors) {
        Ok(sealed) => sealed,
        Err(status) => return status,
    };
    let agents = sealed.setup().agents;
    let Some(_) = modules_for(agents, modules.all()) else {
        return report_count(replay, modules.all().len(), agents, errors);
    };
    let module_files = match files_of(alloc, files, modules.all(), errors) {
        Ok(module_files) => module_files,
        Err(status) => return status,
    };
    match report_on(alloc, &sealed, &module_files, wakeups) {
        Ok((text, status)) => print_report(text.as_str(), status, writer, errors),
        Err(Memory) => report(replay, Fault::Memory, errors),
    }
}

// The files of modules. Why one is no module goes to `errors`; the answer is then its exit status.
fn files_of<F: Files, E: Write>(
    alloc: Global,
    files: &F,
    modules: &[AgentModule],
    errors: &mut E,
) -> Result<Vec<ModuleFile>, u8>
    ensures arguments { IfOk result (λ all. map (λ file. file.arguments.items) all.items
        ≡ map (λ it. it.arguments) modules.now) }
    ensures fault { IfErr result IsOfFault }
{
    let mut all = Vec::new(alloc);
    for agent_module in modules {
        let file = match read_file(alloc, files, agent_module, errors) {
            Ok(file) => file,
            Err(status) => return Err(status),
        };
        if all.push(file).is_err() {
            return Err(report(agent_module.file.as_str(), Fault::Memory, errors));
        }
    }
    Ok(all)
}

// The file of a module. Why it is none goes to `errors`; the answer is then its exit status.
fn read_file<F: Files, E: Write>(
    alloc: Global,
    files: &F,
    agent_module: &AgentModule,
    errors: &mut E,
) -> Result<ModuleFile, u8>
    ensures arguments { IfOk result (λ file. file.arguments.items ≡ agent_module.now.arguments) }
    ensures fault { IfErr result IsOfFault }
{
    let name = agent_module.file.as_str();
    let bytes = match file_of(alloc, files, name) {
        Ok(bytes) => bytes,
        Err(fault) => return Err(report_with_cause(files, name, fault, errors)),
    };
    if let Err(fault) = module_of(alloc, &bytes) {
        return Err(report_module(name, &fault, errors));
    }
    match Vec::from_slice(alloc, agent_module.arguments.all()) {
        Ok(arguments) => Ok(ModuleFile { bytes, arguments }),
        Err(_) => Err(report(name, Fault::Memory, errors)),
    }
}
