//! The body of a function while it is read: its blocks, its labels, and the types of its operands.

ghost use Rattle.std.specs.Prelude.{◌≡◌, ◌+◌, length, IfOk, OnOk};
ghost use Rattle.bhs_wasm_read.specs.Bodies as specs;
ghost use Rattle.bhs_wasm_read.specs.Bodies.{flow_of};
ghost use Rattle.bhs_wasm_read.specs.Values.{ReadsAs};

use crate::bytes::Bytes;
use crate::faults::FaultKind;
use crate::module_types::{FunctionType, MAX_LOCALS, value_type};
use crate::opcodes::ValueType;
use bhs_wasm::{HostFunction, Instruction};
use std::alloc::Global;

/// The context of a function body: the module's types, functions, table, memory and globals.
#[derive(Clone, Copy)]
pub(crate) struct Context<'m> {
    pub(crate) alloc: Global,
    pub(crate) types: &'m [FunctionType],
    /// The number of the first type that is equal to each.
    pub(crate) first_types: &'m [u32],
    pub(crate) imports: &'m [HostFunction],
    /// The types of the module's own functions.
    pub(crate) functions: &'m [u32],
    /// The types of global variables, with their mutability.
    pub(crate) globals: &'m [(ValueType, bool)],
    pub(crate) has_memory: bool,
    pub(crate) has_table: bool,
}

/// A block, with what branches to it need.
#[derive(Clone, Copy, Debug, PartialEq, Eq)]
pub(crate) enum BlockKind {
    Function,
    Block,
    /// Branches lead to its first instruction.
    Loop,
    /// An `if`'s first part. This label names the start of the second part.
    If(u32),
}

/// The type of a block.
#[derive(Clone, Copy, Debug, PartialEq, Eq)]
pub(crate) enum BlockType {
    Empty,
    Result(ValueType),
    Function(u32),
}

/// A block that is open.
#[derive(Clone, Copy)]
pub(crate) struct Block {
    pub(crate) kind: BlockKind,
    pub(crate) block_type: BlockType,
    /// The number of operands below the block.
    pub(crate) height: usize,
    /// Whether code reached the block's start. Unreachable blocks emit no instructions.
    pub(crate) is_entered: bool,
    /// Whether no code reaches what is read now.
    pub(crate) is_unreachable: bool,
    /// The label that branches to it lead to.
    pub(crate) label: u32,
}

/// A body that is read.
#[derive(Drop)]
pub(crate) struct Body<'m> {
    pub(crate) context: Context<'m>,
    pub(crate) locals: Vec<ValueType>,
    pub(crate) operands: Vec<ValueType>,
    /// The innermost block, and those around it, the outermost first.
    pub(crate) block: Block,
    pub(crate) outer: Vec<Block>,
    /// Whether the body's own block has ended.
    pub(crate) is_done: bool,
    /// The number of its first instruction in the module.
    pub(crate) start: u32,
    /// Its instructions. The target of a branch is the number of a label.
    pub(crate) code: Vec<Instruction>,
    /// The number of the instruction that each label leads to. Until the end of a block is read its label leads to its
    /// beginning.
    pub(crate) labels: Vec<u32>,
}

/// A length, as the number of the next item.
pub(crate) fn number_of(length: usize) -> Result<u32, FaultKind>
    ensures { IfOk result (λ number. number ≡ length) }
{
    match u32::try_from(length) {
        Ok(number) => Ok(number),
        Err(_) => Err(FaultKind::Large),
    }
}

impl<'m> Body<'m> {
    /// The number of the next instruction.
    pub(crate) fn place(&self) -> Result<u32, FaultKind>
        ensures { IfOk result (λ place. place ≡ specs.place (flow_of self.now)) }
    {
        number_of((self.start as usize).saturating_add(self.code.len()))
    }

    /// Whether code reaches what is read now.
    pub(crate) fn is_reached(&self) -> bool
        ensures { result ≡ specs.is_reached (flow_of self.now) }
    {
        self.block.is_entered && !self.block.is_unreachable
    }

    /// Adds an instruction, if code reaches it.
    pub(crate) fn emit(&mut self, instruction: Instruction) -> Result<(), FaultKind>
        ensures { OnOk result (flow_of self.new ≡ specs.emitted instruction (flow_of self.old)) }
    {
        if self.is_reached() {
            self.code.push(instruction)?;
        }
        Ok(())
    }

    /// Adds a label, and answers its number.
    pub(crate) fn add_label(&mut self, to: u32) -> Result<u32, FaultKind>
        ensures number { IfOk result (λ label. label ≡ length self.old.labels.items) }
        ensures flow { OnOk result (flow_of self.new ≡ specs.with_label to (flow_of self.old)) }
    {
        let label = number_of(self.labels.len())?;
        self.labels.push(to)?;
        Ok(label)
    }

    /// Lets a label lead to the next instruction.
    pub(crate) fn label_here(&mut self, label: u32) -> Result<(), FaultKind>
        ensures { OnOk result (flow_of self.new ≡ specs.label_here label (flow_of self.old)) }
    {
        let place = self.place()?;
        match self.labels.get_mut(label as usize) {
            Some(to) => {
                *to = place;
                Ok(())
            }
            None => Err(FaultKind::Block),
        }
    }

    pub(crate) fn push(&mut self, value: ValueType) -> Result<(), FaultKind>
        ensures { OnOk result (flow_of self.new ≡ specs.raised 1 (flow_of self.old)) }
    {
        if self.operands.len() >= MAX_LOCALS as usize {
            return Err(FaultKind::Large);
        }
        self.operands.push(value)?;
        Ok(())
    }

    /// Pops an operand of any type.
    #[tactic(auto, unfolding(crate::specs::Bodies::less))]
    pub(crate) fn pop_any(&mut self) -> Result<ValueType, FaultKind>
        ensures { OnOk result (flow_of self.new ≡ specs.lowered 1 (flow_of self.old)) }
    {
        if self.operands.len() > self.block.height {
            return self.operands.pop().ok_or(FaultKind::Type);
        }
        if self.block.is_unreachable {
            Ok(ValueType::Unknown)
        } else {
            Err(FaultKind::Type)
        }
    }

    /// Pops an operand of this type. After unreachable code the operand may have an unknown type.
    pub(crate) fn pop(&mut self, wanted: ValueType) -> Result<ValueType, FaultKind>
        ensures { OnOk result (flow_of self.new ≡ specs.lowered 1 (flow_of self.old)) }
    {
        let value = self.pop_any()?;
        if value == wanted || value == ValueType::Unknown || wanted == ValueType::Unknown {
            Ok(value)
        } else {
            Err(FaultKind::Type)
        }
    }

    pub(crate) fn push_all(&mut self, values: &[ValueType]) -> Result<(), FaultKind>
        ensures { OnOk result (flow_of self.new ≡ specs.raised (length values.now) (flow_of self.old)) }
    {
        for value in values {
            self.push(*value)?;
        }
        Ok(())
    }

    #[tactic(auto, unfolding(crate::specs::Bodies::less))]
    pub(crate) fn pop_all(&mut self, values: &[ValueType]) -> Result<(), FaultKind>
        ensures { OnOk result (flow_of self.new ≡ specs.lowered (length values.now) (flow_of self.old)) }
    {
        for k in 0..values.len() {
            self.pop(values[values.len() - 1 - k])?;
        }
        Ok(())
    }

    /// Pops operands of these types, and pushes what was popped: an operand of unknown type stays so.
    pub(crate) fn pop_and_push(&mut self, values: &[ValueType]) -> Result<(), FaultKind>
        ensures { OnOk result (flow_of self.new
            ≡ specs.raised (length values.now) (specs.lowered (length values.now) (flow_of self.old))) }
    {
        let mut popped = Vec::new(self.context.alloc);
        self.pop_into(values, &mut popped)?;
        self.push_back(&popped)
    }

    // Pops operands of these types. What was popped last stands last.
    #[tactic(auto, unfolding(crate::specs::Bodies::less))]
    fn pop_into(
        &mut self,
        values: &[ValueType],
        popped: &mut Vec<ValueType>,
    ) -> Result<(), FaultKind>
        ensures flow { OnOk result (flow_of self.new ≡ specs.lowered (length values.now) (flow_of self.old)) }
        ensures popped { OnOk result (length popped.new.items ≡ length popped.old.items + length values.now) }
    {
        for k in 0..values.len() {
            let value = self.pop(values[values.len() - 1 - k])?;
            popped.push(value)?;
        }
        Ok(())
    }

    // Pushes what was popped, the last first.
    fn push_back(&mut self, popped: &[ValueType]) -> Result<(), FaultKind>
        ensures { OnOk result (flow_of self.new ≡ specs.raised (length popped.now) (flow_of self.old)) }
    {
        for k in 0..popped.len() {
            self.push(popped[popped.len() - 1 - k])?;
        }
        Ok(())
    }

    /// No code reaches what follows in this block.
    pub(crate) fn become_unreachable(&mut self) -> Result<(), FaultKind>
        ensures { OnOk result (flow_of self.new ≡ specs.unreached (flow_of self.old)) }
    {
        if self.operands.len() < self.block.height {
            return Err(FaultKind::Type);
        }
        self.operands.truncate(self.block.height);
        self.block.is_unreachable = true;
        Ok(())
    }

    /// The type of a block.
    pub(crate) fn block_type(&self, bytes: &mut Bytes<'_>) -> Result<BlockType, FaultKind>
        ensures { ReadsAs (λ own. own) (specs.block_type bytes.old.left.now) result bytes.new.left.now }
    {
        match bytes.next()? {
            0x40 => {
                bytes.byte()?;
                Ok(BlockType::Empty)
            }
            0x7c..=0x7f => Ok(BlockType::Result(value_type(bytes.byte()?)?)),
            _ => {
                let number = bytes.index_of_type()?;
                match self.context.types.get(number as usize) {
                    Some(_) => Ok(BlockType::Function(number)),
                    None => Err(FaultKind::Index),
                }
            }
        }
    }

    /// The types of the values that a block takes.
    pub(crate) fn parameters(&self, block_type: BlockType) -> Result<Vec<ValueType>, FaultKind>
        ensures { IfOk result (λ values. length values.items ≡ specs.takes (flow_of self.now).around block_type) }
    {
        match block_type {
            BlockType::Empty | BlockType::Result(_) => Ok(Vec::new(self.context.alloc)),
            BlockType::Function(number) => match self.context.types.get(number as usize) {
                Some(own) => Ok(Vec::from_slice(self.context.alloc, &own.parameters)?),
                None => Err(FaultKind::Index),
            },
        }
    }

    /// The types of the values that a block gives.
    pub(crate) fn results(&self, block_type: BlockType) -> Result<Vec<ValueType>, FaultKind>
        ensures { IfOk result (λ values. length values.items ≡ specs.gives (flow_of self.now).around block_type) }
    {
        match block_type {
            BlockType::Empty => Ok(Vec::new(self.context.alloc)),
            BlockType::Result(value) => Ok(Vec::from_slice(self.context.alloc, &[value])?),
            BlockType::Function(number) => match self.context.types.get(number as usize) {
                Some(own) => Ok(Vec::from_slice(self.context.alloc, &own.results)?),
                None => Err(FaultKind::Index),
            },
        }
    }

    /// The block that a branch out of this many blocks leads to.
    pub(crate) fn target(&self, depth: u32) -> Result<Block, FaultKind>
        ensures { IfOk result (λ block. specs.target depth (flow_of self.now) ≡ Some block) }
    {
        if depth == 0 {
            return Ok(self.block);
        }
        let Some(place) = self.outer.len().checked_sub(depth as usize) else {
            return Err(FaultKind::Index);
        };
        self.outer.get(place).copied().ok_or(FaultKind::Index)
    }

    /// The types of the values that a branch to a block takes along.
    pub(crate) fn label(&self, block: Block) -> Result<Vec<ValueType>, FaultKind>
        ensures { IfOk result (λ values. length values.items
            ≡ specs.arity (flow_of self.now).around block.kind block.block_type) }
    {
        match block.kind {
            BlockKind::Loop => self.parameters(block.block_type),
            _ => self.results(block.block_type),
        }
    }
}
