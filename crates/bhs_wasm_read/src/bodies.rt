//! The instructions of a body.

ghost use Rattle.std.specs.Prelude.{◌≡◌, ◌&&◌, nat_le, length, slice_index, OnOk, IfOk};
ghost use Rattle.bhs_wasm_read.specs.Bodies as specs;
ghost use Rattle.bhs_wasm_read.specs.Bodies.{flow_of};
ghost use Rattle.bhs_wasm_read.specs.Opcodes.{numeric};
ghost use Rattle.bhs_wasm_read.specs.Values.{ReadsAs, ReadsTo};

use crate::blocks::{Block, BlockKind, BlockType, Body, Context};
use crate::bytes::Bytes;
use crate::faults::FaultKind;
use crate::module_types::value_type;
use crate::opcodes::{
    Access, Numeric, ValueType, alignment_of, is_float, load_of, numeric_of, store_of,
};
use bhs_wasm::Instruction;

/// The most instructions of a module.
const MAX_CODE: usize = 1_048_576;

impl<'m> Body<'m> {
    /// A body of a function of this type begins, with these parameters and other locals.
    pub(crate) fn begun(
        context: Context<'m>,
        own_type: u32,
        locals: Vec<ValueType>,
        start: u32,
    ) -> Result<Body<'m>, FaultKind>
        ensures { IfOk result (λ body. flow_of body ≡ specs.begun (specs.around_of context.entry) own_type
            (length locals.items) start) }
    {
        let mut labels = Vec::new(context.alloc);
        labels.push(0)?;
        Ok(Body {
            context,
            locals,
            operands: Vec::new(context.alloc),
            block: Block {
                kind: BlockKind::Function,
                block_type: BlockType::Function(own_type),
                height: 0,
                is_entered: true,
                is_unreachable: false,
                label: 0,
            },
            outer: Vec::new(context.alloc),
            is_done: false,
            start,
            code: Vec::new(context.alloc),
            labels,
        })
    }

    /// Reads instructions up to the end of the body.
    #[tactic(auto, unfolding(crate::specs::Bodies::instructions))]
    pub(crate) fn instructions(&mut self, bytes: &mut Bytes<'_>) -> Result<(), FaultKind>
        ensures { ReadsTo (specs.instructions (length bytes.old.left.now) (flow_of self.old) bytes.old.left.now) result
            (flow_of self.new) bytes.new.left.now }
    {
        for _ in 0..bytes.left() {
            if (self.start as usize).saturating_add(self.code.len()) > MAX_CODE {
                return Err(FaultKind::Large);
            }
            bytes.begin();
            self.instruction(bytes)?;
            if self.is_done {
                return Ok(());
            }
        }
        Err(FaultKind::Block)
    }

    /// Adds the instructions to those of the module, each with the place that its label leads to.
    pub(crate) fn append_to(&self, code: &mut Vec<Instruction>) -> Result<(), FaultKind>
        ensures { OnOk result (code.new.items ≡ specs.appended code.old.items (flow_of self.now)) }
    {
        for instruction in &self.code {
            code.push(led(&self.labels, *instruction))?;
        }
        Ok(())
    }

    #[tactic(auto, unfolding(crate::specs::Bodies::instruction_of))]
    fn instruction(&mut self, bytes: &mut Bytes<'_>) -> Result<(), FaultKind>
        ensures { ReadsTo (specs.instruction_of (flow_of self.old) bytes.old.left.now) result (flow_of self.new)
            bytes.new.left.now }
    {
        let opcode = bytes.byte()?;
        if opcode == 0x00 {
            self.emit(Instruction::Unreachable)?;
            return self.become_unreachable();
        }
        if opcode == 0x01 {
            return Ok(());
        }
        if is_control(opcode) {
            self.control(opcode, bytes)
        } else {
            self.plain(opcode, bytes)
        }
    }

    fn control(&mut self, opcode: u8, bytes: &mut Bytes<'_>) -> Result<(), FaultKind>
        ensures { ReadsTo (specs.control opcode (flow_of self.old) bytes.old.left.now) result (flow_of self.new)
            bytes.new.left.now }
    {
        match opcode {
            0x02 => {
                let block_type = self.block_type(bytes)?;
                self.open(BlockKind::Block, block_type)
            }
            0x03 => {
                let block_type = self.block_type(bytes)?;
                self.open(BlockKind::Loop, block_type)
            }
            0x04 => {
                let block_type = self.block_type(bytes)?;
                self.open_if(block_type)
            }
            0x05 => self.go_on_with_else(),
            0x0b => self.close(),
            0x0c => {
                let depth = bytes.u32()?;
                self.branch(depth)?;
                self.become_unreachable()
            }
            0x0d => {
                let depth = bytes.u32()?;
                self.branch_if(depth)
            }
            0x0e => self.branch_table(bytes),
            0x0f => self.leave(),
            0x10 => {
                let number = bytes.u32()?;
                self.call(number)
            }
            0x11 => {
                let own = bytes.u32()?;
                if bytes.u32()? != 0 || !self.context.has_table {
                    return Err(FaultKind::Index);
                }
                self.call_indirect(own)
            }
            _ => Err(FaultKind::Opcode(u32::from(opcode))),
        }
    }

    #[tactic(auto, unfolding(crate::specs::Bodies::less))]
    fn plain(&mut self, opcode: u8, bytes: &mut Bytes<'_>) -> Result<(), FaultKind>
        ensures { ReadsTo (specs.plain opcode (flow_of self.old) bytes.old.left.now) result (flow_of self.new)
            bytes.new.left.now }
    {
        match opcode {
            0x1a => {
                self.pop_any()?;
                self.emit(Instruction::Drop)
            }
            0x1b => self.select(None),
            0x1c => {
                if bytes.u32()? != 1 {
                    return Err(FaultKind::Type);
                }
                let value = value_type(bytes.byte()?)?;
                self.select(Some(value))
            }
            0x20 => {
                let local = bytes.u32()?;
                self.local_get(local)
            }
            0x21 => {
                let local = bytes.u32()?;
                self.local_set(local)
            }
            0x22 => {
                let local = bytes.u32()?;
                self.local_tee(local)
            }
            0x23 => {
                let global = bytes.u32()?;
                self.global_get(global)
            }
            0x24 => {
                let global = bytes.u32()?;
                self.global_set(global)
            }
            0x3f => {
                self.memory(bytes)?;
                self.push(ValueType::I32)?;
                self.emit(Instruction::MemorySize)
            }
            0x40 => {
                self.memory(bytes)?;
                self.pop(ValueType::I32)?;
                self.push(ValueType::I32)?;
                self.emit(Instruction::MemoryGrow)
            }
            0x41 => {
                let value = bytes.s32()?;
                self.push(ValueType::I32)?;
                self.emit(Instruction::Const(value))
            }
            0x42 => {
                let value = bytes.s64()?;
                self.push(ValueType::I64)?;
                self.emit(Instruction::Const(value))
            }
            0xfc => {
                let number = bytes.u32()?;
                self.bulk(number, bytes)
            }
            _ => self.numeric(opcode, bytes),
        }
    }

    // Chooses between two values, of this type if it is given.
    #[tactic(auto, unfolding(crate::specs::Bodies::less))]
    fn select(&mut self, wanted: Option<ValueType>) -> Result<(), FaultKind>
        ensures { OnOk result (flow_of self.new ≡ specs.selected (flow_of self.old)) }
    {
        self.pop(ValueType::I32)?;
        let value = self.pop_any()?;
        let other = self.pop(wanted.unwrap_or(value))?;
        self.push(chosen_type(wanted, value, other)?)?;
        self.emit(Instruction::Select)
    }

    // The type of a local.
    fn local_type(&self, local: u32) -> Result<ValueType, FaultKind> {
        self.locals
            .get(local as usize)
            .copied()
            .ok_or(FaultKind::Index)
    }

    #[tactic(auto, unfolding(crate::specs::Bodies::less))]
    fn local_get(&mut self, local: u32) -> Result<(), FaultKind>
        ensures { OnOk result (flow_of self.new ≡ specs.acts 0 1 (Instruction.LocalGet local) (flow_of self.old)) }
    {
        let value = self.local_type(local)?;
        self.push(value)?;
        self.emit(Instruction::LocalGet(local))
    }

    fn local_set(&mut self, local: u32) -> Result<(), FaultKind>
        ensures { OnOk result (flow_of self.new ≡ specs.acts 1 0 (Instruction.LocalSet local) (flow_of self.old)) }
    {
        let value = self.local_type(local)?;
        self.pop(value)?;
        self.emit(Instruction::LocalSet(local))
    }

    fn local_tee(&mut self, local: u32) -> Result<(), FaultKind>
        ensures { OnOk result (flow_of self.new ≡ specs.acts 1 1 (Instruction.LocalTee local) (flow_of self.old)) }
    {
        let value = self.local_type(local)?;
        self.pop(value)?;
        self.push(value)?;
        self.emit(Instruction::LocalTee(local))
    }

    // Returns the type of a global, and whether the global is mutable.
    fn global_type(&self, global: u32) -> Result<(ValueType, bool), FaultKind> {
        self.context
            .globals
            .get(global as usize)
            .copied()
            .ok_or(FaultKind::Index)
    }

    #[tactic(auto, unfolding(crate::specs::Bodies::less))]
    fn global_get(&mut self, global: u32) -> Result<(), FaultKind>
        ensures { OnOk result (flow_of self.new ≡ specs.acts 0 1 (Instruction.GlobalGet global) (flow_of self.old)) }
    {
        let (value, _) = self.global_type(global)?;
        self.push(value)?;
        self.emit(Instruction::GlobalGet(global))
    }

    fn global_set(&mut self, global: u32) -> Result<(), FaultKind>
        ensures { OnOk result (flow_of self.new ≡ specs.acts 1 0 (Instruction.GlobalSet global) (flow_of self.old)) }
    {
        let (value, is_mutable) = self.global_type(global)?;
        if !is_mutable {
            return Err(FaultKind::Type);
        }
        self.pop(value)?;
        self.emit(Instruction::GlobalSet(global))
    }

    // The index of the memory that an instruction names: there is one memory at most.
    fn memory(&self, bytes: &mut Bytes<'_>) -> Result<(), FaultKind>
        ensures { ReadsTo (specs.memory_zero bytes.old.left.now) result 0 bytes.new.left.now }
    {
        if bytes.byte()? == 0 && self.context.has_memory {
            Ok(())
        } else {
            Err(FaultKind::Index)
        }
    }

    // The instructions whose opcode has a second number.
    #[tactic(auto, unfolding(crate::specs::Bodies::less))]
    fn bulk(&mut self, number: u32, bytes: &mut Bytes<'_>) -> Result<(), FaultKind>
        ensures { ReadsTo (specs.bulk (flow_of self.old) number bytes.old.left.now) result (flow_of self.new)
            bytes.new.left.now }
    {
        let instruction = match number {
            0..=7 => return Err(FaultKind::Float),
            10 => {
                self.memory(bytes)?;
                Instruction::MemoryCopy
            }
            11 => Instruction::MemoryFill,
            _ => return Err(FaultKind::Opcode(0xfc00u32.wrapping_add(number))),
        };
        self.memory(bytes)?;
        self.pop(ValueType::I32)?;
        self.pop(ValueType::I32)?;
        self.pop(ValueType::I32)?;
        self.emit(instruction)
    }

    fn numeric(&mut self, opcode: u8, bytes: &mut Bytes<'_>) -> Result<(), FaultKind>
        ensures { ReadsTo (specs.numeric_of (numeric opcode) opcode (flow_of self.old) bytes.old.left.now) result
            (flow_of self.new) bytes.new.left.now }
    {
        if is_float(opcode) {
            return Err(FaultKind::Float);
        }
        if let Some(numeric) = numeric_of(opcode) {
            return self.compute(numeric);
        }
        if let Some(access) = load_of(opcode) {
            let offset = self.offset(access, bytes)?;
            return self.load(access, offset);
        }
        if let Some(access) = store_of(opcode) {
            let offset = self.offset(access, bytes)?;
            return self.store(access, offset);
        }
        Err(FaultKind::Opcode(u32::from(opcode)))
    }

    // An instruction on numbers.
    fn compute(&mut self, numeric: Numeric) -> Result<(), FaultKind>
        ensures { OnOk result (flow_of self.new
            ≡ specs.acts numeric.operands 1 numeric.instruction (flow_of self.old)) }
    {
        self.pop_alike(numeric.operands, numeric.operand)?;
        self.push(numeric.result)?;
        self.emit(numeric.instruction)
    }

    // Pops so many operands of one type.
    #[tactic(auto, unfolding(crate::specs::Bodies::less))]
    pub(crate) fn pop_alike(&mut self, count: u32, value: ValueType) -> Result<(), FaultKind>
        ensures { OnOk result (flow_of self.new ≡ specs.lowered count (flow_of self.old)) }
    {
        for _ in 0..count {
            self.pop(value)?;
        }
        Ok(())
    }

    fn load(&mut self, access: Access, offset: u32) -> Result<(), FaultKind>
        ensures { OnOk result (flow_of self.new ≡ specs.extended access.extends
            (specs.acts 1 1 (Instruction.Load access.bytes offset) (flow_of self.old))) }
    {
        self.pop(ValueType::I32)?;
        self.push(access.value)?;
        self.emit(Instruction::Load {
            bytes: access.bytes,
            offset,
        })?;
        match access.extends {
            Some(extends) => self.emit(extends),
            None => Ok(()),
        }
    }

    #[tactic(auto, unfolding(crate::specs::Bodies::less))]
    fn store(&mut self, access: Access, offset: u32) -> Result<(), FaultKind>
        ensures { OnOk result (flow_of self.new
            ≡ specs.acts 2 0 (Instruction.Store access.bytes offset) (flow_of self.old)) }
    {
        self.pop(access.value)?;
        self.pop(ValueType::I32)?;
        self.emit(Instruction::Store {
            bytes: access.bytes,
            offset,
        })
    }

    // The offset of an access to the memory.
    fn offset(&self, access: Access, bytes: &mut Bytes<'_>) -> Result<u32, FaultKind>
        ensures { ReadsAs (λ offset. offset) (specs.offset bytes.old.left.now) result bytes.new.left.now }
    {
        let alignment = bytes.u32()?;
        let offset = bytes.u32()?;
        if !self.context.has_memory {
            return Err(FaultKind::Index);
        }
        if alignment > alignment_of(access.bytes) {
            return Err(FaultKind::Alignment);
        }
        Ok(offset)
    }
}

// Whether an opcode is one of blocks, branches and calls.
fn is_control(opcode: u8) -> bool
    ensures { result ≡ (nat_le 0x02 opcode && nat_le opcode 0x11) }
{
    matches!(opcode, 0x02..=0x11)
}

// The type of what is chosen between two values: the wanted type, or else the known type of one of the values.
fn chosen_type(
    wanted: Option<ValueType>,
    value: ValueType,
    other: ValueType,
) -> Result<ValueType, FaultKind> {
    let own = wanted.unwrap_or(value);
    if value != own && value != ValueType::Unknown {
        return Err(FaultKind::Type);
    }
    Ok(if own == ValueType::Unknown {
        other
    } else {
        own
    })
}

// An instruction with the place that its label leads to.
fn led(labels: &[u32], instruction: Instruction) -> Instruction
    ensures { result ≡ specs.led labels.now instruction }
{
    match instruction {
        Instruction::Jump { to } => Instruction::Jump {
            to: place_in(labels, to),
        },
        Instruction::JumpIfZero { to } => Instruction::JumpIfZero {
            to: place_in(labels, to),
        },
        Instruction::Branch { to, keep, height } => Instruction::Branch {
            to: place_in(labels, to),
            keep,
            height,
        },
        Instruction::BranchIf { to, keep, height } => Instruction::BranchIf {
            to: place_in(labels, to),
            keep,
            height,
        },
        other => other,
    }
}

fn place_in(labels: &[u32], label: u32) -> u32
    ensures { result ≡ slice_index labels.now label }
{
    match labels.get(label as usize) {
        Some(place) => *place,
        None => 0,
    }
}
