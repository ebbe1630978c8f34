//! Modules.

use crate::instructions::Instruction;

/// A function: its first instruction, how many parameters and other locals it has, and the number of its type. Equal
/// types have one number.
#[derive(Clone, Copy, Debug, PartialEq, Eq)]
pub struct Function {
    pub start: u32,
    pub parameters: u32,
    pub locals: u32,
    pub function_type: u32,
}

/// A module in the initial state of its instances: its element and data segments are in the table and the memory.
#[derive(Drop)]
pub struct Module {
    pub code: Vec<Instruction>,
    pub functions: Vec<Function>,
    /// The functions that `call_indirect` calls.
    pub table: Vec<Option<u32>>,
    pub globals: Vec<u64>,
    /// The first bytes of the memory. All others are zero.
    pub memory: Vec<u8>,
    pub pages: u32,
    pub max_pages: u32,
    /// The function that it exports as `run`.
    pub entry: u32,
    /// How many functions it imports.
    pub imports: u32,
}
