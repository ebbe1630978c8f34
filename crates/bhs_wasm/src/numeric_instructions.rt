//! The numeric, parametric and variable instructions.

ghost use Rattle.bhs_wasm.specs.States as specs;

use crate::integers::{binary32, binary64, unary32, unary64};
use crate::interpreters::{Interpreter, Progress};
use crate::operators::{Binary, Unary};
use crate::stacks::low;
use std::alloc::AllocError;

impl Interpreter {
    ghost use Rattle.bhs_wasm.specs.States.{state_of};

    pub(crate) fn do_unary32(&mut self, op: Unary) -> Result<Progress, AllocError>
        ensures { specs.Gives (specs.do_unary32 op (state_of self.old)) result (state_of self.new) }
    {
        let Some(a) = self.pop() else {
            return Ok(Progress::Traps);
        };
        self.push(u64::from(unary32(op, low(a))))
    }

    pub(crate) fn do_unary64(&mut self, op: Unary) -> Result<Progress, AllocError>
        ensures { specs.Gives (specs.do_unary64 op (state_of self.old)) result (state_of self.new) }
    {
        let Some(a) = self.pop() else {
            return Ok(Progress::Traps);
        };
        self.push(unary64(op, a))
    }

    pub(crate) fn do_binary32(&mut self, op: Binary) -> Result<Progress, AllocError>
        ensures { specs.Gives (specs.do_binary32 op (state_of self.old)) result (state_of self.new) }
    {
        let Some(b) = self.pop() else {
            return Ok(Progress::Traps);
        };
        let Some(a) = self.pop() else {
            return Ok(Progress::Traps);
        };
        match binary32(op, low(a), low(b)) {
            Some(x) => self.push(u64::from(x)),
            None => Ok(Progress::Traps),
        }
    }

    pub(crate) fn do_binary64(&mut self, op: Binary) -> Result<Progress, AllocError>
        ensures { specs.Gives (specs.do_binary64 op (state_of self.old)) result (state_of self.new) }
    {
        let Some(b) = self.pop() else {
            return Ok(Progress::Traps);
        };
        let Some(a) = self.pop() else {
            return Ok(Progress::Traps);
        };
        match binary64(op, a, b) {
            Some(x) => self.push(x),
            None => Ok(Progress::Traps),
        }
    }

    pub(crate) fn do_drop(&mut self) -> Result<Progress, AllocError>
        ensures { specs.Gives (specs.do_drop (state_of self.old)) result (state_of self.new) }
    {
        match self.pop() {
            Some(_) => Ok(self.advance()),
            None => Ok(Progress::Traps),
        }
    }

    pub(crate) fn do_select(&mut self) -> Result<Progress, AllocError>
        ensures { specs.Gives (specs.do_select (state_of self.old)) result (state_of self.new) }
    {
        let Some(chosen) = self.pop() else {
            return Ok(Progress::Traps);
        };
        let Some(b) = self.pop() else {
            return Ok(Progress::Traps);
        };
        let Some(a) = self.pop() else {
            return Ok(Progress::Traps);
        };
        self.push(if low(chosen) == 0 { b } else { a })
    }

    pub(crate) fn do_local_get(&mut self, local: u32) -> Result<Progress, AllocError>
        ensures { specs.Gives (specs.do_local_get local (state_of self.old)) result (state_of self.new) }
    {
        let at = self.base as usize + local as usize;
        let Some(value) = self.stack.get(at).copied() else {
            return Ok(Progress::Traps);
        };
        self.push(value)
    }

    pub(crate) fn do_local_set(&mut self, local: u32) -> Result<Progress, AllocError>
        ensures { specs.Gives (specs.do_local_set local (state_of self.old)) result (state_of self.new) }
    {
        let Some(value) = self.pop() else {
            return Ok(Progress::Traps);
        };
        self.write_local(local, value)
    }

    pub(crate) fn do_local_tee(&mut self, local: u32) -> Result<Progress, AllocError>
        ensures { specs.Gives (specs.do_local_tee local (state_of self.old)) result (state_of self.new) }
    {
        let Some(value) = self.stack.last().copied() else {
            return Ok(Progress::Traps);
        };
        self.write_local(local, value)
    }

    // Writes to a local and continues; traps if there is none.
    fn write_local(&mut self, local: u32, value: u64) -> Result<Progress, AllocError>
        ensures { specs.Gives (specs.with_local local value (state_of self.old)) result (state_of self.new) }
    {
        let at = self.base as usize + local as usize;
        if at < self.stack.len() {
            self.stack[at] = value;
            Ok(self.advance())
        } else {
            Ok(Progress::Traps)
        }
    }

    pub(crate) fn do_global_get(&mut self, global: u32) -> Result<Progress, AllocError>
        ensures { specs.Gives (specs.do_global_get global (state_of self.old)) result (state_of self.new) }
    {
        let Some(value) = self.globals.get(global as usize).copied() else {
            return Ok(Progress::Traps);
        };
        self.push(value)
    }

    pub(crate) fn do_global_set(&mut self, global: u32) -> Result<Progress, AllocError>
        ensures { specs.Gives (specs.do_global_set global (state_of self.old)) result (state_of self.new) }
    {
        let Some(value) = self.pop() else {
            return Ok(Progress::Traps);
        };
        let at = global as usize;
        if at < self.globals.len() {
            self.globals[at] = value;
            Ok(self.advance())
        } else {
            Ok(Progress::Traps)
        }
    }
}
