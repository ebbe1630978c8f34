//! The interpreter, one instruction after another.

ghost use Rattle.std.specs.Prelude.{◌≡◌, IfOk, option_map};
ghost use Rattle.bhs_wasm.specs.States as specs;

use crate::instructions::Instruction;
use crate::interpreters::{Interpreter, Progress};
use crate::modules::Module;
use crate::stacks::{low, push_zeros};
use std::alloc::AllocError;

impl Interpreter {
    ghost use Rattle.bhs_wasm.specs.Contents.{contents_of};
    ghost use Rattle.bhs_wasm.specs.States.{state_of};

    /// Runs until the module waits in a command, returns or traps. It traps also where the fuel does not pay for the
    /// next instruction.
    #[tactic(auto, unfolding(crate::specs::States::burned))]
    pub fn run(&mut self, program: &Module, fuel: u32) -> Result<Progress, AllocError>
        ensures { specs.Gives (specs.run (contents_of program.now) fuel (state_of self.old)) result
            (state_of self.new) }
    {
        self.is_out_of_fuel = false;
        let mut left = u64::from(fuel);
        for _ in 0..fuel {
            let next = self.next_in(program);
            let cost = self.cost_of(program.max_pages, next);
            if left < cost {
                self.is_out_of_fuel = true;
                return Ok(Progress::Traps);
            }
            left -= cost;
            let progress = self.step(program, next)?;
            match progress {
                Progress::Continues => {}
                Progress::Waits(_) => return Ok(progress),
                Progress::Ends => return Ok(progress),
                Progress::Traps => return Ok(progress),
            }
        }
        self.is_out_of_fuel = true;
        Ok(Progress::Traps)
    }

    /// Instantiates a module, and calls the function that it exports as `run`. `argument` answers from the arguments.
    pub fn instantiate(
        &mut self,
        program: &Module,
        arguments: &[u32],
    ) -> Result<Progress, AllocError>
        ensures { specs.Gives (specs.instantiated (contents_of program.now) arguments.now) result (state_of self.new) }
    {
        self.forget();
        self.frames.clear();
        self.stack.clear();
        self.globals.clear();
        self.globals.extend_from_slice(&program.globals)?;
        self.memory.clear();
        self.pages = program.pages;
        self.arguments.clear();
        self.arguments.extend_from_slice(arguments)?;
        self.base = 0;
        self.program_counter = 0;
        if !self.put(0, &program.memory)? {
            return Ok(Progress::Traps);
        }
        match program.functions.get(program.entry as usize).copied() {
            Some(function) => {
                push_zeros(&mut self.stack, function.locals)?;
                Ok(self.jump(function.start))
            }
            None => Ok(Progress::Traps),
        }
    }

    /// Forgets what the last reply says.
    pub fn forget(&mut self)
        ensures { state_of self.new ≡ specs.forgotten (state_of self.old) }
    {
        self.last_reply.ports = 0;
        self.last_reply.came = 0;
        self.last_reply.board.clear();
    }

    /// Returns from the command in which the module waits: pops its parameters, and pushes its result.
    pub fn answer(&mut self, parameters: u32, value: u32) -> Result<Progress, AllocError>
        ensures { specs.Gives (specs.answered parameters value (state_of self.old)) result (state_of self.new) }
    {
        let parameters = parameters as usize;
        let length = self.stack.len();
        if parameters <= length {
            self.stack.truncate(length - parameters);
            self.push(u64::from(value))
        } else {
            Ok(Progress::Traps)
        }
    }

    /// Returns the operand at a depth of the stack as an i32; depth 0 is the top. Returns 0 if the stack is lower.
    pub fn operand(&self, depth: usize) -> u32
        ensures { result ≡ specs.operand depth (state_of self.now) }
    {
        if depth < self.stack.len() {
            low(self.stack[self.stack.len() - 1 - depth])
        } else {
            0
        }
    }

    /// Returns memory bytes starting at an address, or None beyond the memory's end.
    pub fn bytes(&self, at: u32, count: u32) -> Result<Option<Vec<u8>>, AllocError>
        ensures { IfOk result (λ found. option_map (λ bytes. bytes.items) found
            ≡ specs.bytes_in at count (state_of self.now)) }
    {
        if self.is_within(u64::from(at), u64::from(count)) {
            Ok(Some(self.copied(u64::from(at), u64::from(count))?))
        } else {
            Ok(None)
        }
    }

    // The next instruction.
    fn next_in(&self, program: &Module) -> Option<Instruction>
        ensures { result ≡ specs.instruction_in (contents_of program.now) (state_of self.now) }
    {
        program.code.get(self.program_counter as usize).copied()
    }

    // The fuel that the next instruction burns.
    fn cost_of(&self, max_pages: u32, next: Option<Instruction>) -> u64
        ensures { result ≡ specs.cost_of max_pages next (state_of self.now) }
    {
        match next {
            Some(Instruction::MemoryCopy) => 1 + u64::from(self.operand(0)) / 64,
            Some(Instruction::MemoryFill) => 1 + u64::from(self.operand(0)) / 64,
            Some(Instruction::MemoryGrow) => 1 + 1_024 * u64::from(self.added_pages(max_pages)),
            _ => 1,
        }
    }

    // The pages that a growth adds.
    fn added_pages(&self, max_pages: u32) -> u32
        ensures { result ≡ specs.added_pages max_pages (state_of self.now) }
    {
        let more = self.operand(0);
        if u64::from(self.pages) + u64::from(more) <= u64::from(max_pages) {
            more
        } else {
            0
        }
    }

    // Executes the next instruction.
    fn step(&mut self, program: &Module, next: Option<Instruction>) -> Result<Progress, AllocError>
        ensures { specs.Gives (specs.do_next (contents_of program.now) next (state_of self.old)) result
            (state_of self.new) }
    {
        match next {
            Some(instruction) => self.execute(program, instruction),
            None => Ok(Progress::Traps),
        }
    }

    // Executes an instruction.
    fn execute(
        &mut self,
        program: &Module,
        instruction: Instruction,
    ) -> Result<Progress, AllocError>
        ensures { specs.Gives (specs.do_instruction (contents_of program.now) instruction (state_of self.old)) result
            (state_of self.new) }
    {
        match instruction {
            Instruction::Unreachable => Ok(Progress::Traps),
            Instruction::Const(value) => self.push(value),
            Instruction::Unary32(op) => self.do_unary32(op),
            Instruction::Unary64(op) => self.do_unary64(op),
            Instruction::Binary32(op) => self.do_binary32(op),
            Instruction::Binary64(op) => self.do_binary64(op),
            Instruction::Drop => self.do_drop(),
            Instruction::Select => self.do_select(),
            Instruction::LocalGet(local) => self.do_local_get(local),
            Instruction::LocalSet(local) => self.do_local_set(local),
            Instruction::LocalTee(local) => self.do_local_tee(local),
            Instruction::GlobalGet(global) => self.do_global_get(global),
            Instruction::GlobalSet(global) => self.do_global_set(global),
            Instruction::Load { bytes, offset } => self.do_load(bytes, offset),
            Instruction::Store { bytes, offset } => self.do_store(bytes, offset),
            Instruction::MemorySize => self.push(u64::from(self.pages)),
            Instruction::MemoryGrow => self.do_memory_grow(program.max_pages),
            Instruction::MemoryCopy => self.do_memory_copy(),
            Instruction::MemoryFill => self.do_memory_fill(),
            Instruction::Jump { to } => Ok(self.jump(to)),
            Instruction::JumpIfZero { to } => self.do_jump_if_zero(to),
            Instruction::Branch { to, keep, height } => self.branch(to, keep, height),
            Instruction::BranchIf { to, keep, height } => self.do_branch_if(to, keep, height),
            Instruction::BranchTable { count } => self.do_branch_table(count),
            Instruction::Return { keep } => self.do_return(keep),
            Instruction::Call(function) => self.do_call(program, function),
            Instruction::CallIndirect { function_type } => {
                self.do_call_indirect(program, function_type)
            }
            Instruction::CallHost(function) => self.do_call_host(function),
        }
    }
}
