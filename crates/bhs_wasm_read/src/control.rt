//! Blocks and branches: each branch names a label, and each label the instruction that it leads to.

ghost use Rattle.std.specs.Prelude.{◌≡◌, ◌+◌, OnOk, slice_get};
ghost use Rattle.bhs_wasm.specs.States.{parameters_of};
ghost use Rattle.bhs_wasm_read.specs.Bodies as specs;
ghost use Rattle.bhs_wasm_read.specs.Bodies.{flow_of};
ghost use Rattle.bhs_wasm_read.specs.Values.{ReadsTo, over};

use crate::blocks::{Block, BlockKind, BlockType, Body, number_of};
use crate::bytes::Bytes;
use crate::faults::FaultKind;
use crate::opcodes::ValueType;
use bhs_wasm::{HostFunction, Instruction};

impl<'m> Body<'m> {
    /// Opens a block.
    pub(crate) fn open(&mut self, kind: BlockKind, block_type: BlockType) -> Result<(), FaultKind>
        ensures { OnOk result (flow_of self.new ≡ specs.opened kind block_type (flow_of self.old)) }
    {
        let parameters = self.parameters(block_type)?;
        self.pop_all(&parameters)?;
        let is_entered = self.is_reached();
        let place = self.place()?;
        let label = self.add_label(place)?;
        self.outer.push(self.block)?;
        self.block = Block {
            kind,
            block_type,
            height: self.operands.len(),
            is_entered,
            is_unreachable: false,
            label,
        };
        self.push_all(&parameters)
    }

    /// Opens an `if`.
    pub(crate) fn open_if(&mut self, block_type: BlockType) -> Result<(), FaultKind>
        ensures { OnOk result (flow_of self.new ≡ specs.opened_if block_type (flow_of self.old)) }
    {
        self.pop(ValueType::I32)?;
        let place = self.place()?;
        let label = self.add_label(place)?;
        self.emit(Instruction::JumpIfZero { to: label })?;
        self.open(BlockKind::If(label), block_type)
    }

    // Pops what a block gives, at its end or at that of the first part of an `if`: nothing else is left.
    fn pop_results(&mut self) -> Result<(), FaultKind>
        ensures { OnOk result (flow_of self.new
            ≡ specs.with_height (flow_of self.old).block.height (flow_of self.old)) }
    {
        let results = self.results(self.block.block_type)?;
        self.pop_all(&results)?;
        if self.operands.len() == self.block.height {
            Ok(())
        } else {
            Err(FaultKind::Type)
        }
    }

    /// Starts the second part of an `if`.
    pub(crate) fn go_on_with_else(&mut self) -> Result<(), FaultKind>
        ensures { OnOk result (specs.gone_on (flow_of self.old).block.kind (flow_of self.old)
            ≡ Some (flow_of self.new)) }
    {
        let BlockKind::If(second) = self.block.kind else {
            return Err(FaultKind::Block);
        };
        self.pop_results()?;
        self.emit(Instruction::Jump {
            to: self.block.label,
        })?;
        self.label_here(second)?;
        self.block.kind = BlockKind::Block;
        self.block.is_unreachable = false;
        let parameters = self.parameters(self.block.block_type)?;
        self.push_all(&parameters)
    }

    // Lets the labels that lead to the end of the innermost block lead to the next instruction.
    fn end_labels(&mut self) -> Result<(), FaultKind>
        ensures { OnOk result (flow_of self.new
            ≡ specs.ended_labels (flow_of self.old).block.kind (flow_of self.old).block.label (flow_of self.old)) }
    {
        match self.block.kind {
            BlockKind::Loop => Ok(()),
            BlockKind::Function | BlockKind::Block => self.label_here(self.block.label),
            BlockKind::If(second) => {
                self.label_here(self.block.label)?;
                self.label_here(second)
            }
        }
    }

    // An `if` without a second part gives what it takes.
    fn check_second_part(&self, results: &[ValueType]) -> Result<(), FaultKind> {
        if let BlockKind::If(_) = self.block.kind {
            let parameters = self.parameters(self.block.block_type)?;
            if parameters.as_slice() != results {
                return Err(FaultKind::Type);
            }
        }
        Ok(())
    }

    /// Closes the innermost block.
    pub(crate) fn close(&mut self) -> Result<(), FaultKind>
        ensures { OnOk result (flow_of self.new ≡ specs.closed (flow_of self.old)) }
    {
        let results = self.results(self.block.block_type)?;
        self.pop_results()?;
        self.check_second_part(&results)?;
        self.end_labels()?;
        match self.outer.pop() {
            None => {
                self.is_done = true;
                let keep = number_of(results.len())?;
                self.code.push(Instruction::Return { keep })?;
                Ok(())
            }
            Some(around) => {
                self.block = around;
                self.push_all(&results)
            }
        }
    }

    // Adds a branch to a block, which keeps this many values.
    fn branch_to(&mut self, block: Block, keep: u32) -> Result<(), FaultKind>
        ensures { OnOk result (flow_of self.new
            ≡ specs.emitted (specs.branch_to block.kind block.label keep
            ((flow_of self.old).locals + block.height)) (flow_of self.old)) }
    {
        let height = number_of(self.locals.len().saturating_add(block.height))?;
        match block.kind {
            BlockKind::Function => self.emit(Instruction::Return { keep }),
            _ => self.emit(Instruction::Branch {
                to: block.label,
                keep,
                height,
            }),
        }
    }

    /// Adds a branch out of this many blocks. Its values stay operands.
    pub(crate) fn branch(&mut self, depth: u32) -> Result<(), FaultKind>
        ensures { OnOk result (specs.branched depth (flow_of self.old) ≡ Some (flow_of self.new)) }
    {
        let block = self.target(depth)?;
        let label = self.label(block)?;
        self.pop_and_push(&label)?;
        let keep = number_of(label.len())?;
        self.branch_to(block, keep)
    }

    // Adds a branch to a block if the value was not 0.
    fn branch_if_to(&mut self, block: Block, keep: u32) -> Result<(), FaultKind>
        ensures { OnOk result (flow_of self.new
            ≡ specs.branched_if_to block.kind block.label keep
            ((flow_of self.old).locals + block.height) (flow_of self.old)) }
    {
        let height = number_of(self.locals.len().saturating_add(block.height))?;
        match block.kind {
            // Flat code has no conditional return, so a jump skips the return.
            BlockKind::Function => {
                let place = self.place()?;
                let label = self.add_label(number_of((place as usize).saturating_add(2))?)?;
                self.emit(Instruction::JumpIfZero { to: label })?;
                self.emit(Instruction::Return { keep })
            }
            _ => self.emit(Instruction::BranchIf {
                to: block.label,
                keep,
                height,
            }),
        }
    }

    /// Adds a branch out of this many blocks that is taken if the value is not 0.
    pub(crate) fn branch_if(&mut self, depth: u32) -> Result<(), FaultKind>
        ensures { OnOk result (specs.branched_if depth (flow_of self.old) ≡ Some (flow_of self.new)) }
    {
        self.pop(ValueType::I32)?;
        let block = self.target(depth)?;
        let label = self.label(block)?;
        self.pop_all(&label)?;
        self.push_all(&label)?;
        let keep = number_of(label.len())?;
        self.branch_if_to(block, keep)
    }

    // Adds a branch of a table, and answers how many values it keeps.
    fn one_branch(&mut self, bytes: &mut Bytes<'_>) -> Result<usize, FaultKind>
        ensures { ReadsTo (specs.one_branch (flow_of self.old) bytes.old.left.now) result (flow_of self.new)
            bytes.new.left.now }
    {
        let depth = bytes.u32()?;
        let block = self.target(depth)?;
        let length = self.label(block)?.len();
        self.branch(depth)?;
        Ok(length)
    }

    // Adds the branches of a table, all of which keep as many values.
    #[tactic(auto, unfolding(crate::specs::Values::over))]
    fn branches(&mut self, count: u32, bytes: &mut Bytes<'_>) -> Result<(), FaultKind>
        ensures { ReadsTo (over specs.one_branch (count + 1) (flow_of self.old) bytes.old.left.now) result
            (flow_of self.new) bytes.new.left.now }
    {
        let mut arity = None;
        for _ in 0..u64::from(count) + 1 {
            let length = self.one_branch(bytes)?;
            if arity.unwrap_or(length) != length {
                return Err(FaultKind::Type);
            }
            arity = Some(length);
        }
        Ok(())
    }

    pub(crate) fn branch_table(&mut self, bytes: &mut Bytes<'_>) -> Result<(), FaultKind>
        ensures { ReadsTo (specs.branch_table (flow_of self.old) bytes.old.left.now) result (flow_of self.new)
            bytes.new.left.now }
    {
        self.pop(ValueType::I32)?;
        let count = bytes.u32()?;
        if count as usize > bytes.left() {
            return Err(FaultKind::End);
        }
        self.emit(Instruction::BranchTable { count })?;
        self.branches(count, bytes)?;
        self.become_unreachable()
    }

    pub(crate) fn leave(&mut self) -> Result<(), FaultKind>
        ensures { OnOk result (specs.left_body (flow_of self.old) ≡ Some (flow_of self.new)) }
    {
        let outermost = number_of(self.outer.len())?;
        self.branch(outermost)?;
        self.become_unreachable()
    }

    // Calls a function that is imported.
    fn call_host(&mut self, function: HostFunction) -> Result<(), FaultKind>
        ensures { OnOk result (flow_of self.new ≡ specs.acts (parameters_of function) 1
            (Instruction.CallHost function) (flow_of self.old)) }
    {
        self.pop_alike(function.parameters(), ValueType::I32)?;
        self.push(ValueType::I32)?;
        self.emit(Instruction::CallHost(function))
    }

    pub(crate) fn call(&mut self, number: u32) -> Result<(), FaultKind>
        ensures { OnOk result (specs.called_either (slice_get (flow_of self.old).around.imports number) number
            (flow_of self.old) ≡ Some (flow_of self.new)) }
    {
        if let Some(function) = self.context.imports.get(number as usize).copied() {
            return self.call_host(function);
        }
        let function = number_of((number as usize).saturating_sub(self.context.imports.len()))?;
        let Some(own) = self.context.functions.get(function as usize).copied() else {
            return Err(FaultKind::Index);
        };
        self.apply(own)?;
        self.emit(Instruction::Call(function))
    }

    pub(crate) fn call_indirect(&mut self, own: u32) -> Result<(), FaultKind>
        ensures { OnOk result (specs.called_indirect own (slice_get (flow_of self.old).around.first_types own)
            (flow_of self.old) ≡ Some (flow_of self.new)) }
    {
        let Some(function_type) = self.context.first_types.get(own as usize).copied() else {
            return Err(FaultKind::Index);
        };
        self.pop(ValueType::I32)?;
        self.apply(own)?;
        self.emit(Instruction::CallIndirect { function_type })
    }

    // Pops the parameters of a function of this type, and pushes its results.
    fn apply(&mut self, own: u32) -> Result<(), FaultKind>
        ensures { OnOk result (flow_of self.new
            ≡ specs.raised (specs.gives (flow_of self.old).around (BlockType.Function own))
            (specs.lowered (specs.takes (flow_of self.old).around (BlockType.Function own)) (flow_of self.old))) }
    {
        let block_type = BlockType::Function(own);
        let parameters = self.parameters(block_type)?;
        let results = self.results(block_type)?;
        self.pop_all(&parameters)?;
        self.push_all(&results)
    }
}
