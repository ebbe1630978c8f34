//! Types, imports, functions, tables, memories, globals and exports.

ghost use Rattle.std.specs.Prelude.{◌≡◌, ◌-◌, map, position, IfOk};
ghost use Rattle.bhs_wasm_read.specs.Modules as modules;
ghost use Rattle.bhs_wasm_read.specs.Modules.{parts_of};
ghost use Rattle.bhs_wasm_read.specs.Types as specs;
ghost use Rattle.bhs_wasm_read.specs.Types.{signature_of};
ghost use Rattle.bhs_wasm_read.specs.Values.{Gives, ReadsTo};

use crate::blocks::number_of;
use crate::bytes::Bytes;
use crate::faults::FaultKind;
use crate::module_types::{FunctionType, host_function_of, value_type};
use crate::opcodes::ValueType;
use crate::sections::Sections;
use bhs_wasm::HostFunction;
use std::alloc::Global;

// Limits: the pages of an agent's memory, the pages of any memory, and the elements of a table.
const MAX_PAGES: u32 = 1_024;

const ALL_PAGES: u32 = 65_536;

const MAX_ELEMENTS: u32 = 65_536;

impl Sections {
    pub(crate) fn add_type(&mut self, bytes: &mut Bytes<'_>) -> Result<(), FaultKind>
        ensures { ReadsTo (modules.type_entry (parts_of self.old) bytes.old.left.now) result (parts_of self.new)
            bytes.new.left.now }
    {
        let own = FunctionType::read(self.alloc, bytes)?;
        let first = type_number(&own, &self.types)?;
        self.types.push(own)?;
        self.first_types.push(first)?;
        Ok(())
    }

    pub(crate) fn add_import(&mut self, bytes: &mut Bytes<'_>) -> Result<(), FaultKind>
        ensures { ReadsTo (modules.import_entry (parts_of self.old) bytes.old.left.now) result (parts_of self.new)
            bytes.new.left.now }
    {
        let from = bytes.name()?;
        let name = bytes.name()?;
        let kind = bytes.byte()?;
        self.note_import(from, name)?;
        if from != "arena" || kind != 0 {
            return Err(FaultKind::Import);
        }
        let Some(function) = host_function_of(name) else {
            return Err(FaultKind::Import);
        };
        let number = bytes.u32()?;
        self.check_import(function, number)?;
        self.imports.push(function)?;
        self.import_types.push(number)?;
        Ok(())
    }

    // Notes which import is read, for a fault.
    fn note_import(&mut self, from: &str, name: &str) -> Result<(), FaultKind>
        ensures { parts_of self.new ≡ parts_of self.old }
    {
        let mut import = String::from_str(self.alloc, from)?;
        import.push_str(".")?;
        import.push_str(name)?;
        self.import = import;
        Ok(())
    }

    // An import has the type that the host's function has.
    fn check_import(&self, function: HostFunction, number: u32) -> Result<(), FaultKind> {
        let Some(own) = self.types.get(number as usize) else {
            return Err(FaultKind::Index);
        };
        if own.is_of_host(function.parameters() as usize) {
            Ok(())
        } else {
            Err(FaultKind::ImportType)
        }
    }

    pub(crate) fn add_function(&mut self, bytes: &mut Bytes<'_>) -> Result<(), FaultKind>
        ensures { ReadsTo (modules.function_entry (parts_of self.old) bytes.old.left.now) result (parts_of self.new)
            bytes.new.left.now }
    {
        let own = bytes.u32()?;
        if own as usize >= self.types.len() {
            return Err(FaultKind::Index);
        }
        self.functions.push(own)?;
        Ok(())
    }

    pub(crate) fn add_table(&mut self, bytes: &mut Bytes<'_>) -> Result<(), FaultKind>
        ensures { ReadsTo (modules.table_entry (parts_of self.old) bytes.old.left.now) result (parts_of self.new)
            bytes.new.left.now }
    {
        if bytes.byte()? != 0x70 {
            return Err(FaultKind::Type);
        }
        let (least, _) = limits(bytes)?;
        if least > MAX_ELEMENTS || self.has_table {
            return Err(FaultKind::Large);
        }
        self.has_table = true;
        self.module.table = nulls(self.alloc, least)?;
        Ok(())
    }

    pub(crate) fn add_memory(&mut self, bytes: &mut Bytes<'_>) -> Result<(), FaultKind>
        ensures { ReadsTo (modules.memory_entry (parts_of self.old) bytes.old.left.now) result (parts_of self.new)
            bytes.new.left.now }
    {
        let (least, most) = limits(bytes)?;
        if least > MAX_PAGES || most.unwrap_or(0) > ALL_PAGES || self.has_memory {
            return Err(FaultKind::Large);
        }
        self.has_memory = true;
        self.module.pages = least;
        self.module.max_pages = match most {
            Some(most) => most.min(MAX_PAGES),
            None => MAX_PAGES,
        };
        Ok(())
    }

    pub(crate) fn add_global(&mut self, bytes: &mut Bytes<'_>) -> Result<(), FaultKind>
        ensures { ReadsTo (modules.global_entry (parts_of self.old) bytes.old.left.now) result (parts_of self.new)
            bytes.new.left.now }
    {
        let value = value_type(bytes.byte()?)?;
        let mutable = bytes.byte()?;
        if mutable > 1 {
            return Err(FaultKind::Type);
        }
        let initial = constant(bytes, value)?;
        self.module.globals.push(initial)?;
        self.globals.push((value, mutable == 1))?;
        Ok(())
    }

    pub(crate) fn add_export(&mut self, bytes: &mut Bytes<'_>) -> Result<(), FaultKind>
        ensures { ReadsTo (modules.export_entry (parts_of self.old) bytes.old.left.now) result (parts_of self.new)
            bytes.new.left.now }
    {
        let name = bytes.name()?;
        self.note_export(name)?;
        let kind = bytes.byte()?;
        let number = bytes.u32()?;
        if !self.has_export(kind, number as usize) {
            return Err(FaultKind::Index);
        }
        if name != "run" || kind != 0 {
            return Ok(());
        }
        let Some(function) = (number as usize).checked_sub(self.imports.len()) else {
            return Err(FaultKind::Index);
        };
        self.check_run(function)?;
        self.entry = Some(number_of(function)?);
        Ok(())
    }

    // No two exports have one name. One named `main` is noted, for a fault.
    fn note_export(&mut self, name: &str) -> Result<(), FaultKind>
        ensures { parts_of self.new ≡ parts_of self.old }
    {
        if self.exports.insert(String::from_str(self.alloc, name)?)? {
            self.has_main = self.has_main || name == "main";
            Ok(())
        } else {
            Err(FaultKind::Name)
        }
    }

    // The function that is exported as `run` takes nothing and gives nothing.
    fn check_run(&self, function: usize) -> Result<(), FaultKind> {
        let Some(own) = self.functions.get(function) else {
            return Err(FaultKind::Index);
        };
        match self.types.get(*own as usize) {
            Some(own) if own.parameters.is_empty() && own.results.is_empty() => Ok(()),
            _ => Err(FaultKind::RunType),
        }
    }

    // Returns whether a function, table, memory or global with this number exists.
    fn has_export(&self, kind: u8, number: usize) -> bool {
        match kind {
            0 => number < self.imports.len().saturating_add(self.functions.len()),
            1 => self.has_table && number == 0,
            2 => self.has_memory && number == 0,
            3 => number < self.globals.len(),
            _ => false,
        }
    }
}

// The number of the first type that is equal to one.
fn type_number(own: &FunctionType, types: &[FunctionType]) -> Result<u32, FaultKind>
    ensures { IfOk result (λ first. first ≡ modules.type_number (signature_of own.now) (map signature_of types.now)) }
{
    match first_equal(own, types) {
        Some(first) => number_of(first),
        None => number_of(types.len()),
    }
}

// The place of the first type that is equal to one.
fn first_equal(own: &FunctionType, types: &[FunctionType]) -> Option<usize>
    ensures { result ≡ position (λ other. modules.is_same (signature_of other) (signature_of own.now)) types.now }
{
    types.iter().position(|other| other.is_equal(own))
}

// So many elements that are null.
#[tactic(auto, unfolding(crate::specs::Modules::nulls))]
fn nulls(alloc: Global, count: u32) -> Result<Vec<Option<u32>>, FaultKind>
    ensures { IfOk result (λ table. table.items ≡ modules.nulls count) }
{
    let mut table = Vec::new(alloc);
    for _ in 0..count {
        table.push(None)?;
    }
    Ok(table)
}

// Reads the limits of a table or a memory: minimum and optional maximum.
fn limits(bytes: &mut Bytes<'_>) -> Result<(u32, Option<u32>), FaultKind>
    ensures { Gives (specs.limits bytes.old.left.now) result bytes.new.left.now }
{
    let flags = bytes.byte()?;
    let least = bytes.u32()?;
    match flags {
        0 => Ok((least, None)),
        1 => {
            let most = bytes.u32()?;
            if most < least {
                Err(FaultKind::Large)
            } else {
                Ok((least, Some(most)))
            }
        }
        _ => Err(FaultKind::Type),
    }
}

/// Reads a constant expression of this type with its `end`.
pub(crate) fn constant(bytes: &mut Bytes<'_>, wanted: ValueType) -> Result<u64, FaultKind>
    ensures { Gives (specs.constant wanted bytes.old.left.now) result bytes.new.left.now }
{
    let opcode = bytes.byte()?;
    let (value, own) = match opcode {
        0x41 => (bytes.s32()?, ValueType::I32),
        0x42 => (bytes.s64()?, ValueType::I64),
        0x43 | 0x44 => return Err(FaultKind::Float),
        other => return Err(FaultKind::Opcode(u32::from(other))),
    };
    if own != wanted || bytes.byte()? != 0x0b {
        return Err(FaultKind::Type);
    }
    Ok(value)
}
