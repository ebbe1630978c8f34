//! The instructions that a module consists of.

ghost use Rattle.std.specs.Prelude.{◌≡◌};

use crate::operators::{Binary, Unary};

/// The functions that a module may import from `arena`. Those up to `Sleep` are commands: the module waits in them for
/// the reply. The others answer at once, from the last reply and the arguments.
#[derive(Clone, Copy, Debug, PartialEq, Eq, Hash)]
pub enum HostFunction {
    Enter,
    Look,
    Write,
    Depart,
    Accuse,
    Leave,
    Sleep,
    Ports,
    Came,
    Board,
    Argument,
}

impl HostFunction {
    ghost use Rattle.bhs_wasm.specs.States.{parameters_of};

    /// How many parameters it has. They and its result are integers of 32 bits.
    pub fn parameters(self) -> u32
        ensures { result ≡ parameters_of self }
    {
        match self {
            HostFunction::Write => 4,
            HostFunction::Board => 2,
            HostFunction::Depart | HostFunction::Accuse | HostFunction::Argument => 1,
            _ => 0,
        }
    }
}

/// How many bytes an instruction loads or stores.
#[derive(Clone, Copy, Debug, PartialEq, Eq)]
pub enum AccessSize {
    One,
    Two,
    Four,
    Eight,
}

/// An instruction. There are no blocks: a branch names the instruction it continues at, how many values it keeps from
/// the top of the stack, and the height, counted from the first local, to which it cuts the stack below them.
#[derive(Clone, Copy, Debug, PartialEq, Eq)]
pub enum Instruction {
    Unreachable,
    Const(u64),
    Unary32(Unary),
    Unary64(Unary),
    Binary32(Binary),
    Binary64(Binary),
    Drop,
    Select,
    LocalGet(u32),
    LocalSet(u32),
    LocalTee(u32),
    GlobalGet(u32),
    GlobalSet(u32),
    /// Loads this many bytes, with zeros in front of them.
    Load { bytes: AccessSize, offset: u32 },
    /// Stores the lowest bytes of a value.
    Store { bytes: AccessSize, offset: u32 },
    MemorySize,
    MemoryGrow,
    MemoryCopy,
    MemoryFill,
    /// Jumps past the `else` part of an `if`, at the end of its first part.
    Jump { to: u32 },
    /// Jumps to the `else` part of an `if`, or past its end, if the value on top of the stack is 0.
    JumpIfZero { to: u32 },
    Branch { to: u32, keep: u32, height: u32 },
    BranchIf { to: u32, keep: u32, height: u32 },
    /// Continues at one of the branches that follow it: there are `count` labels, and then the default.
    BranchTable { count: u32 },
    Return { keep: u32 },
    Call(u32),
    CallIndirect { function_type: u32 },
    CallHost(HostFunction),
}
