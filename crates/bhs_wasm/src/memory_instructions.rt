//! The memory instructions.

ghost use Rattle.bhs_wasm.specs.States as specs;

use crate::instructions::AccessSize;
use crate::interpreters::{Interpreter, Progress};
use crate::memories::count_of;
use crate::stacks::low;
use std::alloc::AllocError;

impl Interpreter {
    ghost use Rattle.bhs_wasm.specs.States.{state_of};

    pub(crate) fn do_load(&mut self, bytes: AccessSize, offset: u32) -> Result<Progress, AllocError>
        ensures { specs.Gives (specs.do_load bytes offset (state_of self.old)) result (state_of self.new) }
    {
        let Some(at) = self.pop() else {
            return Ok(Progress::Traps);
        };
        match self.load(bytes, u64::from(low(at)) + u64::from(offset)) {
            Some(value) => self.push(value),
            None => Ok(Progress::Traps),
        }
    }

    pub(crate) fn do_store(
        &mut self,
        bytes: AccessSize,
        offset: u32,
    ) -> Result<Progress, AllocError>
        ensures { specs.Gives (specs.do_store bytes offset (state_of self.old)) result (state_of self.new) }
    {
        let Some(value) = self.pop() else {
            return Ok(Progress::Traps);
        };
        let Some(at) = self.pop() else {
            return Ok(Progress::Traps);
        };
        let eight = value.to_le_bytes();
        let shown = &eight[..count_of(bytes) as usize];
        if self.put(u64::from(low(at)) + u64::from(offset), shown)? {
            Ok(self.advance())
        } else {
            Ok(Progress::Traps)
        }
    }

    pub(crate) fn do_memory_grow(&mut self, max_pages: u32) -> Result<Progress, AllocError>
        ensures { specs.Gives (specs.do_memory_grow max_pages (state_of self.old)) result (state_of self.new) }
    {
        let Some(more) = self.pop() else {
            return Ok(Progress::Traps);
        };
        let had = self.pages;
        let wanted = u64::from(had) + u64::from(low(more));
        if wanted <= u64::from(max_pages) {
            self.pages = wanted as u32;
            self.push(u64::from(had))
        } else {
            self.push(0xffff_ffff)
        }
    }

    pub(crate) fn do_memory_copy(&mut self) -> Result<Progress, AllocError>
        ensures { specs.Gives (specs.do_memory_copy (state_of self.old)) result (state_of self.new) }
    {
        let Some(count) = self.pop() else {
            return Ok(Progress::Traps);
        };
        let Some(from) = self.pop() else {
            return Ok(Progress::Traps);
        };
        let Some(to) = self.pop() else {
            return Ok(Progress::Traps);
        };
        if !self.is_within(u64::from(low(from)), u64::from(low(count))) {
            return Ok(Progress::Traps);
        }
        let bytes = self.copied(u64::from(low(from)), u64::from(low(count)))?;
        if self.put(u64::from(low(to)), &bytes)? {
            Ok(self.advance())
        } else {
            Ok(Progress::Traps)
        }
    }

    pub(crate) fn do_memory_fill(&mut self) -> Result<Progress, AllocError>
        ensures { specs.Gives (specs.do_memory_fill (state_of self.old)) result (state_of self.new) }
    {
        let Some(count) = self.pop() else {
            return Ok(Progress::Traps);
        };
        let Some(value) = self.pop() else {
            return Ok(Progress::Traps);
        };
        let Some(to) = self.pop() else {
            return Ok(Progress::Traps);
        };
        if !self.is_within(u64::from(low(to)), u64::from(low(count))) {
            return Ok(Progress::Traps);
        }
        let bytes = self.same((value % 256) as u8, u64::from(low(count)))?;
        if self.put(u64::from(low(to)), &bytes)? {
            Ok(self.advance())
        } else {
            Ok(Progress::Traps)
        }
    }
}
