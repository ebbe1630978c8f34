//! The interpreter: an instance of a module, and how far it has run.

ghost use Rattle.std.specs.Prelude.{◌≡◌, take, OnOk, IfOk};

use crate::instructions::HostFunction;
use crate::stacks::cut_stack;
use std::alloc::{AllocError, Global};

/// The most values on the stack, and the most calls that have not returned.
pub(crate) const MAX_VALUES: usize = 65_536;

pub(crate) const MAX_FRAMES: usize = 4_096;

/// A call that has not returned: the instruction at which the caller continues, and where its locals begin.
#[derive(Clone, Copy, Debug, PartialEq, Eq, Hash)]
pub struct Frame {
    pub return_to: u32,
    pub base: u32,
}

/// What the last reply says: how many ports the node has, the port of arrival, and the text of the whiteboard.
#[derive(Drop)]
pub struct LastReply {
    pub ports: u32,
    pub came: u32,
    pub board: Vec<u8>,
}

/// What came of an instruction: the next one follows, the module waits in a command, it has returned, or it traps.
#[derive(Clone, Copy, Debug, PartialEq, Eq)]
pub enum Progress {
    Continues,
    Waits(HostFunction),
    Ends,
    Traps,
}

/// The whole state of an instance: where it is, its frames, locals and operands, globals and memory.
#[derive(Drop)]
pub struct Interpreter {
    pub alloc: Global,
    pub program_counter: u32,
    pub base: u32,
    pub frames: Vec<Frame>,
    pub stack: Vec<u64>,
    pub globals: Vec<u64>,
    /// The memory up to the last written byte. Later bytes are zero.
    pub memory: Vec<u8>,
    pub pages: u32,
    pub last_reply: LastReply,
    pub arguments: Vec<u32>,
    /// Whether the last run used up its fuel. This flag is not part of the semantic state.
    pub is_out_of_fuel: bool,
}

impl LastReply {
    // Returns the whiteboard, truncated to the room.
    pub(crate) fn front(&self, alloc: Global, room: u32) -> Result<Vec<u8>, AllocError>
        ensures { IfOk result (λ front. front.items ≡ take room self.now.board.items) }
    {
        let room = room as usize;
        if room < self.board.len() {
            Vec::from_slice(alloc, &self.board[..room])
        } else {
            Vec::from_slice(alloc, &self.board)
        }
    }
}

impl Interpreter {
    ghost use Rattle.bhs_wasm.specs.States as specs;
    ghost use Rattle.bhs_wasm.specs.States.{state_of};

    /// An interpreter that has run nothing.
    pub fn new(alloc: Global) -> Interpreter {
        Interpreter {
            alloc,
            program_counter: 0,
            base: 0,
            frames: Vec::new(alloc),
            stack: Vec::new(alloc),
            globals: Vec::new(alloc),
            memory: Vec::new(alloc),
            pages: 0,
            last_reply: LastReply {
                ports: 0,
                came: 0,
                board: Vec::new(alloc),
            },
            arguments: Vec::new(alloc),
            is_out_of_fuel: false,
        }
    }

    // Continues at the next instruction.
    pub(crate) fn advance(&mut self) -> Progress
        ensures said { result ≡ Progress.Continues }
        ensures next { state_of self.new ≡ specs.next (state_of self.old) }
    {
        self.program_counter = self.program_counter.wrapping_add(1);
        Progress::Continues
    }

    // Pops the value on top of the stack.
    pub(crate) fn pop(&mut self) -> Option<u64>
        ensures top { result ≡ specs.top (state_of self.old) }
        ensures below { state_of self.new ≡ specs.below (state_of self.old) }
    {
        let top = self.stack.last().copied();
        let _ = self.stack.pop();
        top
    }

    // Pushes a value and continues; traps if the stack is full.
    pub(crate) fn push(&mut self, value: u64) -> Result<Progress, AllocError>
        ensures { specs.Gives (specs.pushed value (state_of self.old)) result (state_of self.new) }
    {
        if self.stack.len() < MAX_VALUES {
            self.stack.push(value)?;
            Ok(self.advance())
        } else {
            Ok(Progress::Traps)
        }
    }

    // Cuts the stack to a height, counted from the first local, and keeps this many values of its top.
    pub(crate) fn cut(&mut self, height: u32, keep: u32) -> Result<(), AllocError>
        ensures { OnOk result (state_of self.new ≡ specs.cut height keep (state_of self.old)) }
    {
        let to = self.base as usize + height as usize;
        let keep = keep as usize;
        let length = self.stack.len();
        if to + keep < length {
            cut_stack(self.alloc, &mut self.stack, to, length - keep)?;
        }
        Ok(())
    }
}
