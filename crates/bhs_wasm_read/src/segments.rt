//! What a module puts into its table and its memory.

ghost use Rattle.std.specs.Prelude.{◌≡◌, ◌+◌, ◌-◌, ◌≤◌, ◌++◌, length, slice_set, IfOk, OnOk};
ghost use Rattle.bhs_wasm.specs.States.{put_at, zeros};
ghost use Rattle.bhs_wasm_read.specs.Modules as modules;
ghost use Rattle.bhs_wasm_read.specs.Modules.{parts_of};
ghost use Rattle.bhs_wasm_read.specs.Values.{ReadsTo, ReadsAs, over};

use crate::blocks::number_of;
use crate::bytes::Bytes;
use crate::declarations::constant;
use crate::faults::FaultKind;
use crate::opcodes::ValueType;
use crate::sections::Sections;

const PAGE: u64 = 65_536;

impl Sections {
    // Returns the function that an element of a table refers to: one of the module's own or, after them, the caller of
    // an import.
    fn callee(&self, number: u32) -> Result<u32, FaultKind>
        ensures { IfOk result (λ function. function ≡ modules.callee (parts_of self.now) number) }
    {
        let imports = self.imports.len();
        if (number as usize) < imports {
            return number_of(self.functions.len().saturating_add(number as usize));
        }
        let function = (number as usize).saturating_sub(imports);
        if function < self.functions.len() {
            number_of(function)
        } else {
            Err(FaultKind::Index)
        }
    }

    pub(crate) fn add_elements(&mut self, bytes: &mut Bytes<'_>) -> Result<(), FaultKind>
        ensures { ReadsTo (modules.element_entry (parts_of self.old) bytes.old.left.now) result (parts_of self.new)
            bytes.new.left.now }
    {
        let flags = bytes.u32()?;
        if (flags != 0 && flags != 2 && flags != 4) || !self.has_table {
            return Err(FaultKind::Segment);
        }
        if table_number(flags, bytes)? != 0 {
            return Err(FaultKind::Segment);
        }
        let first = constant(bytes, ValueType::I32)?;
        if element_kind(flags, bytes)? != 0 {
            return Err(FaultKind::Segment);
        }
        let count = bytes.u32()?;
        if first.saturating_add(u64::from(count)) > self.module.table.len() as u64 {
            return Err(FaultKind::Segment);
        }
        self.put_elements(flags, count, first as usize, bytes)
    }

    #[tactic(auto, unfolding(crate::specs::Values::over))]
    fn put_elements(
        &mut self,
        flags: u32,
        count: u32,
        first: usize,
        bytes: &mut Bytes<'_>,
    ) -> Result<(), FaultKind>
        ensures { ReadsTo (over (modules.placed_element flags) count (parts_of self.old, first) bytes.old.left.now)
            result (parts_of self.new, first + count) bytes.new.left.now }
    {
        for k in 0..count {
            let element = self.element(flags, bytes)?;
            let Some(place) = first.checked_add(k as usize) else {
                return Err(FaultKind::Segment);
            };
            self.put_element(place, element)?;
        }
        Ok(())
    }

    fn put_element(&mut self, place: usize, element: Option<u32>) -> Result<(), FaultKind>
        ensures { OnOk result (parts_of self.new ≡ modules.with_table
            (slice_set (parts_of self.old).table place element) (parts_of self.old)) }
    {
        match self.module.table.get_mut(place) {
            Some(cell) => {
                *cell = element;
                Ok(())
            }
            None => Err(FaultKind::Segment),
        }
    }

    // Returns the function that an element of the table gets.
    fn element(&self, flags: u32, bytes: &mut Bytes<'_>) -> Result<Option<u32>, FaultKind>
        ensures { ReadsAs (λ element. element) (modules.element_of flags (parts_of self.now) bytes.old.left.now) result
            bytes.new.left.now }
    {
        if flags != 4 {
            let number = bytes.u32()?;
            return Ok(Some(self.callee(number)?));
        }
        let element = self.expression(bytes)?;
        if bytes.byte()? != 0x0b {
            return Err(FaultKind::Type);
        }
        Ok(element)
    }

    // A reference to a function, or null.
    fn expression(&self, bytes: &mut Bytes<'_>) -> Result<Option<u32>, FaultKind>
        ensures { ReadsAs (λ element. element) (modules.expression (parts_of self.now) bytes.old.left.now) result
            bytes.new.left.now }
    {
        match bytes.byte()? {
            0xd2 => {
                let number = bytes.u32()?;
                Ok(Some(self.callee(number)?))
            }
            0xd0 => {
                if bytes.byte()? != 0x70 {
                    return Err(FaultKind::Type);
                }
                Ok(None)
            }
            _ => Err(FaultKind::Type),
        }
    }

    pub(crate) fn add_data(&mut self, bytes: &mut Bytes<'_>) -> Result<(), FaultKind>
        ensures { ReadsTo (modules.data_entry (parts_of self.old) bytes.old.left.now) result (parts_of self.new)
            bytes.new.left.now }
    {
        self.segments = self.segments.saturating_add(1);
        let flags = bytes.u32()?;
        if flags == 2 {
            if bytes.u32()? != 0 {
                return Err(FaultKind::Segment);
            }
        } else if flags != 0 {
            return Err(FaultKind::Segment);
        }
        self.add_data_at(bytes)
    }

    fn add_data_at(&mut self, bytes: &mut Bytes<'_>) -> Result<(), FaultKind>
        ensures { ReadsTo (modules.data_at (parts_of self.old) bytes.old.left.now) result (parts_of self.new)
            bytes.new.left.now }
    {
        if !self.has_memory {
            return Err(FaultKind::Segment);
        }
        let first = constant(bytes, ValueType::I32)?;
        let count = bytes.u32()?;
        let data = bytes.take(count)?;
        let end = first.saturating_add(u64::from(count));
        if end > u64::from(self.module.pages) * PAGE {
            return Err(FaultKind::Segment);
        }
        reach(&mut self.module.memory, end as usize)?;
        put_into(&mut self.module.memory, data, first as usize)
    }
}

// The number of the table that a segment names.
fn table_number(flags: u32, bytes: &mut Bytes<'_>) -> Result<u32, FaultKind>
    ensures { ReadsAs (λ number. number) (modules.table_number flags bytes.old.left.now) result bytes.new.left.now }
{
    if flags == 2 { bytes.u32() } else { Ok(0) }
}

// The kind of element that a segment names.
fn element_kind(flags: u32, bytes: &mut Bytes<'_>) -> Result<u8, FaultKind>
    ensures { ReadsAs (λ kind. kind) (modules.element_kind flags bytes.old.left.now) result bytes.new.left.now }
{
    if flags == 2 { bytes.byte() } else { Ok(0) }
}

// Extends the first bytes of a memory to an address.
#[tactic(auto, unfolding(bhs_wasm::specs::States::zeros))]
fn reach(memory: &mut Vec<u8>, end: usize) -> Result<(), FaultKind>
    ensures { OnOk result (memory.new.items ≡ memory.old.items ++ zeros (end - length memory.old.items)) }
{
    let more = end.saturating_sub(memory.len());
    for _ in 0..more {
        memory.push(0)?;
    }
    Ok(())
}

// Writes bytes at an address.
fn put_into(memory: &mut [u8], bytes: &[u8], first: usize) -> Result<(), FaultKind>
    ensures { OnOk result (memory.new ≡ put_at memory.old bytes.now first) }
{
    if first.saturating_add(bytes.len()) > memory.len() {
        return Err(FaultKind::Segment);
    }
    put_within(memory, bytes, first);
    Ok(())
}

#[tactic(auto, unfolding(bhs_wasm::specs::States::put_at))]
fn put_within(memory: &mut [u8], bytes: &[u8], first: usize)
    requires { first + length bytes.now ≤ length memory.old }
    ensures { memory.new ≡ put_at memory.old bytes.now first }
{
    let mut place = first;
    for byte in bytes {
        memory[place] = *byte;
        place += 1;
    }
}
