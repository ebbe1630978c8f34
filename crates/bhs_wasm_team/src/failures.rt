//! How agents fail that run a module.

use bhs_wasm::Module;

/// Why an agent fails.
#[derive(Clone, Copy, Debug, PartialEq, Eq)]
pub enum FailureCause {
    /// It executed too many instructions without a command.
    Fuel,
    /// An instruction trapped.
    Trap,
    /// A port is no port, a text lies outside of the memory or is not in UTF-8, or the line of a Write is longer than a
    /// server takes.
    Command,
}

/// How an agent of a role failed, and in which function of its module.
#[derive(Clone, Copy, Debug, PartialEq, Eq)]
pub struct ModuleFailure {
    pub role: u32,
    pub cause: FailureCause,
    pub function: u32,
}

/// Returns the function that contains an instruction. Functions are numbered as in the file, imports first.
pub(crate) fn function_at(program: &Module, instruction: u32) -> u32 {
    let mut count = program.imports;
    for function in program.functions.iter().skip(1) {
        if function.start <= instruction {
            count = count.wrapping_add(1);
        }
    }
    count
}
