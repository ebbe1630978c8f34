//! What the sections of a module say.

ghost use Rattle.std.specs.Prelude.{◌≡◌, ◌+◌, ◌-◌, ◌++◌, length, slice_get, IfOk, OnOk};
ghost use Rattle.bhs_wasm.specs.Contents.{contents_of};
ghost use Rattle.bhs_wasm_read.specs.Modules as modules;
ghost use Rattle.bhs_wasm_read.specs.Modules.{parts_of};
ghost use Rattle.bhs_wasm_read.specs.Values.{ReadsTo, over};

use crate::blocks::number_of;
use crate::bytes::Bytes;
use crate::faults::FaultKind;
use crate::module_types::FunctionType;
use crate::opcodes::ValueType;
use bhs_wasm::{Function, HostFunction, Instruction, Module};
use std::alloc::Global;
use std::collections::BTreeSet;

/// The parts of a module that were read so far.
#[derive(Drop)]
pub(crate) struct Sections {
    pub(crate) alloc: Global,
    pub(crate) types: Vec<FunctionType>,
    /// The number of the first type that is equal to each.
    pub(crate) first_types: Vec<u32>,
    pub(crate) imports: Vec<HostFunction>,
    /// The types of the imports.
    pub(crate) import_types: Vec<u32>,
    /// The types of the module's own functions.
    pub(crate) functions: Vec<u32>,
    pub(crate) globals: Vec<(ValueType, bool)>,
    pub(crate) has_memory: bool,
    pub(crate) has_table: bool,
    // Names are in order, so that no choice of them makes their look-up slow.
    pub(crate) exports: BTreeSet<String>,
    /// Whether there is an export named `main`.
    pub(crate) has_main: bool,
    pub(crate) entry: Option<u32>,
    /// The number of data segments so far, and the number that the module declares, if it does.
    pub(crate) segments: u32,
    pub(crate) data_count: Option<u32>,
    pub(crate) module: Module,
    /// The import that is refused.
    pub(crate) import: String,
}

impl Sections {
    pub(crate) fn new(alloc: Global) -> Sections
        ensures { parts_of result ≡ modules.no_parts }
    {
        Sections {
            alloc,
            types: Vec::new(alloc),
            first_types: Vec::new(alloc),
            imports: Vec::new(alloc),
            import_types: Vec::new(alloc),
            functions: Vec::new(alloc),
            globals: Vec::new(alloc),
            has_memory: false,
            has_table: false,
            exports: BTreeSet::new(alloc),
            has_main: false,
            entry: None,
            segments: 0,
            data_count: None,
            module: Module {
                code: Vec::new(alloc),
                functions: Vec::new(alloc),
                table: Vec::new(alloc),
                globals: Vec::new(alloc),
                memory: Vec::new(alloc),
                pages: 0,
                max_pages: 0,
                entry: 0,
                imports: 0,
            },
            import: String::new(alloc),
        }
    }

    /// Returns the module if all its required parts are present.
    pub(crate) fn whole(mut self) -> Result<Module, FaultKind>
        ensures { IfOk result (λ it. modules.whole (parts_of self) (parts_of self).entry
            ≡ Some (contents_of it)) }
    {
        let Some(entry) = self.entry else {
            return Err(if self.has_main {
                FaultKind::Main
            } else {
                FaultKind::Run
            });
        };
        if self.module.functions.len() != self.functions.len() {
            return Err(FaultKind::Index);
        }
        if self.data_count.unwrap_or(self.segments) != self.segments {
            return Err(FaultKind::Segment);
        }
        self.add_callers()?;
        let imports = number_of(self.imports.len())?;
        let mut module = self.module;
        module.entry = entry;
        module.imports = imports;
        Ok(module)
    }

    // Adds a function for each import, which calls it: elements of tables name them.
    #[tactic(auto, unfolding(crate::specs::Modules::callers))]
    fn add_callers(&mut self) -> Result<(), FaultKind>
        ensures { OnOk result (modules.callers (length self.old.imports.items) (parts_of self.old)
            ≡ Some (parts_of self.new)) }
    {
        for k in 0..self.imports.len() {
            self.add_caller(k)?;
        }
        Ok(())
    }

    fn add_caller(&mut self, k: usize) -> Result<(), FaultKind>
        ensures imports { self.new.imports ≡ self.old.imports }
        ensures import_types { self.new.import_types ≡ self.old.import_types }
        ensures parts { OnOk result (modules.called_by (slice_get self.old.imports.items k)
            (slice_get self.old.import_types.items k) (parts_of self.old) ≡ Some (parts_of self.new)) }
    {
        let Some(function) = self.imports.get(k).copied() else {
            return Err(FaultKind::Index);
        };
        let Some(own) = self.import_types.get(k).copied() else {
            return Err(FaultKind::Index);
        };
        let start = number_of(self.module.code.len())?;
        let function_type = self.first_type(own)?;
        push_call(function, &mut self.module.code)?;
        self.module.functions.push(Function {
            start,
            parameters: function.parameters(),
            locals: 0,
            function_type,
        })?;
        Ok(())
    }

    /// The number of the first type that is equal to one.
    pub(crate) fn first_type(&self, own: u32) -> Result<u32, FaultKind>
        ensures { IfOk result (λ first. slice_get self.now.first_types.items own ≡ Some first) }
    {
        self.first_types
            .get(own as usize)
            .copied()
            .ok_or(FaultKind::Index)
    }

    /// Reads a section.
    #[tactic(auto, unfolding(crate::specs::Modules::content))]
    pub(crate) fn section(&mut self, number: u8, bytes: &mut Bytes<'_>) -> Result<(), FaultKind>
        ensures { ReadsTo (modules.content number (parts_of self.old) bytes.old.left.now) result (parts_of self.new)
            bytes.new.left.now }
    {
        if number == 8 {
            return Err(FaultKind::Start);
        }
        let count = bytes.u32()?;
        if number == 12 {
            self.data_count = Some(count);
            return Ok(());
        }
        if count as usize > bytes.left() {
            return Err(FaultKind::End);
        }
        self.entries(number, count, bytes)
    }

    #[tactic(auto, unfolding(crate::specs::Values::over))]
    fn entries(&mut self, number: u8, count: u32, bytes: &mut Bytes<'_>) -> Result<(), FaultKind>
        ensures { ReadsTo (over (modules.entry number) count (parts_of self.old) bytes.old.left.now) result
            (parts_of self.new) bytes.new.left.now }
    {
        for _ in 0..count {
            bytes.begin();
            self.entry(number, bytes)?;
        }
        Ok(())
    }

    fn entry(&mut self, number: u8, bytes: &mut Bytes<'_>) -> Result<(), FaultKind>
        ensures { ReadsTo (modules.entry number (parts_of self.old) bytes.old.left.now) result (parts_of self.new)
            bytes.new.left.now }
    {
        match number {
            1 => self.add_type(bytes),
            2 => self.add_import(bytes),
            3 => self.add_function(bytes),
            4 => self.add_table(bytes),
            5 => self.add_memory(bytes),
            6 => self.add_global(bytes),
            7 => self.add_export(bytes),
            9 => self.add_elements(bytes),
            10 => self.add_body(bytes),
            11 => self.add_data(bytes),
            _ => Err(FaultKind::Section),
        }
    }
}

// Adds a call of an import with the parameters of a function.
#[tactic(auto, unfolding(crate::specs::Modules::pushes_locals))]
fn push_call(function: HostFunction, code: &mut Vec<Instruction>) -> Result<(), FaultKind>
    ensures { OnOk result (code.new.items ≡ code.old.items ++ modules.calls_import function) }
{
    for k in 0..function.parameters() {
        code.push(Instruction::LocalGet(k))?;
    }
    code.push(Instruction::CallHost(function))?;
    code.push(Instruction::Return { keep: 1 })?;
    Ok(())
}
