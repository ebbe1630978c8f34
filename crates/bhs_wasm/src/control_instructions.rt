//! The control instructions: jumps, branches and calls.

ghost use Rattle.std.specs.Prelude.{◌≡◌};
ghost use Rattle.bhs_wasm.specs.States as specs;

use crate::instructions::HostFunction;
use crate::interpreters::{Frame, Interpreter, MAX_FRAMES, MAX_VALUES, Progress};
use crate::modules::{Function, Module};
use crate::stacks::{low, push_zeros};
use std::alloc::AllocError;

impl Interpreter {
    ghost use Rattle.bhs_wasm.specs.Contents.{contents_of};
    ghost use Rattle.bhs_wasm.specs.States.{state_of};

    pub(crate) fn jump(&mut self, to: u32) -> Progress
        ensures said { result ≡ Progress.Continues }
        ensures jumps { state_of self.new ≡ specs.jumped to (state_of self.old) }
    {
        self.program_counter = to;
        Progress::Continues
    }

    pub(crate) fn do_jump_if_zero(&mut self, to: u32) -> Result<Progress, AllocError>
        ensures { specs.Gives (specs.do_jump_if_zero to (state_of self.old)) result (state_of self.new) }
    {
        let Some(value) = self.pop() else {
            return Ok(Progress::Traps);
        };
        if low(value) == 0 {
            Ok(self.jump(to))
        } else {
            Ok(self.advance())
        }
    }

    pub(crate) fn branch(&mut self, to: u32, keep: u32, height: u32) -> Result<Progress, AllocError>
        ensures { specs.Gives (specs.Continues (specs.branch to keep height (state_of self.old))) result
            (state_of self.new) }
    {
        self.cut(height, keep)?;
        Ok(self.jump(to))
    }

    pub(crate) fn do_branch_if(
        &mut self,
        to: u32,
        keep: u32,
        height: u32,
    ) -> Result<Progress, AllocError>
        ensures { specs.Gives (specs.do_branch_if to keep height (state_of self.old)) result (state_of self.new) }
    {
        let Some(value) = self.pop() else {
            return Ok(Progress::Traps);
        };
        if low(value) == 0 {
            Ok(self.advance())
        } else {
            self.branch(to, keep, height)
        }
    }

    pub(crate) fn do_branch_table(&mut self, count: u32) -> Result<Progress, AllocError>
        ensures { specs.Gives (specs.do_branch_table count (state_of self.old)) result (state_of self.new) }
    {
        let Some(value) = self.pop() else {
            return Ok(Progress::Traps);
        };
        let chosen = if low(value) < count {
            low(value)
        } else {
            count
        };
        Ok(self.jump(self.program_counter.wrapping_add(1).wrapping_add(chosen)))
    }

    pub(crate) fn do_return(&mut self, keep: u32) -> Result<Progress, AllocError>
        ensures { specs.Gives (specs.do_return keep (state_of self.old)) result (state_of self.new) }
    {
        self.cut(0, keep)?;
        let last = self.frames.last().copied();
        let _ = self.frames.pop();
        match last {
            Some(frame) => {
                self.base = frame.base;
                Ok(self.jump(frame.return_to))
            }
            None => Ok(Progress::Ends),
        }
    }

    pub(crate) fn do_call(
        &mut self,
        program: &Module,
        function: u32,
    ) -> Result<Progress, AllocError>
        ensures { specs.Gives (specs.do_call (contents_of program.now) function (state_of self.old)) result
            (state_of self.new) }
    {
        match program.functions.get(function as usize).copied() {
            Some(function) => self.enter(function),
            None => Ok(Progress::Traps),
        }
    }

    // Enters a function whose arguments are on the stack. Traps if the stack or the frames have no room.
    fn enter(&mut self, function: Function) -> Result<Progress, AllocError>
        ensures { specs.Gives (specs.entered function (state_of self.old)) result (state_of self.new) }
    {
        let (length, parameters) = (self.stack.len(), function.parameters as usize);
        let is_free = self.frames.len() < MAX_FRAMES && parameters <= length;
        if !(is_free && length + function.locals as usize <= MAX_VALUES) {
            return Ok(Progress::Traps);
        }
        self.frames.push(Frame {
            return_to: self.program_counter.wrapping_add(1),
            base: self.base,
        })?;
        push_zeros(&mut self.stack, function.locals)?;
        self.base = (length - parameters) as u32;
        Ok(self.jump(function.start))
    }

    pub(crate) fn do_call_indirect(
        &mut self,
        program: &Module,
        function_type: u32,
    ) -> Result<Progress, AllocError>
        ensures { specs.Gives (specs.do_call_indirect (contents_of program.now) function_type (state_of self.old))
            result (state_of self.new) }
    {
        let Some(value) = self.pop() else {
            return Ok(Progress::Traps);
        };
        let Some(Some(function)) = program.table.get(low(value) as usize).copied() else {
            return Ok(Progress::Traps);
        };
        match program.functions.get(function as usize).copied() {
            Some(function) => {
                if function.function_type == function_type {
                    self.enter(function)
                } else {
                    Ok(Progress::Traps)
                }
            }
            None => Ok(Progress::Traps),
        }
    }

    // Answers from the last reply and the arguments, or waits in a command.
    pub(crate) fn do_call_host(&mut self, function: HostFunction) -> Result<Progress, AllocError>
        ensures { specs.Gives (specs.do_call_host function (state_of self.old)) result (state_of self.new) }
    {
        match function {
            HostFunction::Ports => self.push(u64::from(self.last_reply.ports)),
            HostFunction::Came => self.push(u64::from(self.last_reply.came)),
            HostFunction::Board => self.do_board(),
            HostFunction::Argument => self.do_argument(),
            HostFunction::Enter | HostFunction::Look | HostFunction::Write | HostFunction::Depart =>
                Ok(Progress::Waits(function)),
            HostFunction::Accuse | HostFunction::Leave | HostFunction::Sleep => Ok(Progress::Waits(
                function,
            )),
        }
    }

    fn do_argument(&mut self) -> Result<Progress, AllocError>
        ensures { specs.Gives (specs.do_argument (state_of self.old)) result (state_of self.new) }
    {
        let Some(number) = self.pop() else {
            return Ok(Progress::Traps);
        };
        let value = match self.arguments.get(low(number) as usize) {
            Some(value) => *value,
            None => 0,
        };
        self.push(u64::from(value))
    }

    fn do_board(&mut self) -> Result<Progress, AllocError>
        ensures { specs.Gives (specs.do_board (state_of self.old)) result (state_of self.new) }
    {
        let Some(room) = self.pop() else {
            return Ok(Progress::Traps);
        };
        let Some(to) = self.pop() else {
            return Ok(Progress::Traps);
        };
        let length = self.last_reply.board.len() as u64;
        let front = self.last_reply.front(self.alloc, low(room))?;
        if self.put(u64::from(low(to)), &front)? {
            self.push(length)
        } else {
            Ok(Progress::Traps)
        }
    }
}
