//! The bodies of functions.

ghost use Rattle.std.specs.Prelude.{◌≡◌, ◌-◌, length, slice_get};
ghost use Rattle.bhs_wasm_read.specs.Bodies.{locals_behind, group, body, around_of};
ghost use Rattle.bhs_wasm_read.specs.Modules as modules;
ghost use Rattle.bhs_wasm_read.specs.Modules.{parts_of};
ghost use Rattle.bhs_wasm_read.specs.Values.{ReadsTo, over};

use crate::blocks::{Body, Context, number_of};
use crate::bytes::Bytes;
use crate::faults::FaultKind;
use crate::module_types::{MAX_LOCALS, value_type};
use crate::opcodes::ValueType;
use crate::sections::Sections;
use bhs_wasm::{Function, Instruction};

impl Sections {
    pub(crate) fn add_body(&mut self, bytes: &mut Bytes<'_>) -> Result<(), FaultKind>
        ensures { ReadsTo (modules.body_entry (parts_of self.old) bytes.old.left.now) result (parts_of self.new)
            bytes.new.left.now }
    {
        let length = bytes.u32()?;
        let rest = bytes.enter(length)?;
        let Some(own) = self.functions.get(self.module.functions.len()).copied() else {
            return Err(FaultKind::Index);
        };
        self.body(own, bytes)?;
        bytes.leave(rest)
    }

    // Reads the body of a function of this type.
    fn body(&mut self, own: u32, bytes: &mut Bytes<'_>) -> Result<(), FaultKind>
        ensures { ReadsTo (modules.body_of (parts_of self.old) own (slice_get (parts_of self.old).types own)
            bytes.old.left.now) result (parts_of self.new) bytes.new.left.now }
    {
        let Some(own_type) = self.types.get(own as usize) else {
            return Err(FaultKind::Index);
        };
        let mut locals = Vec::from_slice(self.alloc, &own_type.parameters)?;
        let parameters = number_of(locals.len())?;
        read_locals(bytes, &mut locals)?;
        let function_type = self.first_type(own)?;
        let start = number_of(self.module.code.len())?;
        let all = number_of(locals.len())?;
        self.instructions(own, locals, start, bytes)?;
        self.module.functions.push(Function {
            start,
            parameters,
            locals: all.saturating_sub(parameters),
            function_type,
        })?;
        Ok(())
    }

    // Reads the instructions of a body, and adds them to those of the module.
    fn instructions(
        &mut self,
        own: u32,
        locals: Vec<ValueType>,
        start: u32,
        bytes: &mut Bytes<'_>,
    ) -> Result<(), FaultKind>
        requires { start ≡ length self.old.module.code.items }
        ensures read { ReadsTo (body (modules.around (parts_of self.old)) own (length locals.items)
            (parts_of self.old).code bytes.old.left.now) result self.new.module.code.items bytes.new.left.now }
        ensures parts { parts_of self.new ≡ modules.with_code self.new.module.code.items (parts_of self.old) }
    {
        let context = Context {
            alloc: self.alloc,
            types: &self.types,
            first_types: &self.first_types,
            imports: &self.imports,
            functions: &self.functions,
            globals: &self.globals,
            has_memory: self.has_memory,
            has_table: self.has_table,
        };
        add_body(context, own, locals, start, bytes, &mut self.module.code)
    }
}

// Reads the instructions of a body, and adds them to those of the module.
fn add_body(
    context: Context<'_>,
    own: u32,
    locals: Vec<ValueType>,
    start: u32,
    bytes: &mut Bytes<'_>,
    code: &mut Vec<Instruction>,
) -> Result<(), FaultKind>
    requires { start ≡ length code.old.items }
    ensures { ReadsTo (body (around_of context.entry) own (length locals.items) code.old.items bytes.old.left.now)
        result code.new.items bytes.new.left.now }
{
    let mut body = Body::begun(context, own, locals, start)?;
    body.instructions(bytes)?;
    body.append_to(code)
}

// Reads the locals of a function, and puts them behind its parameters.
#[tactic(auto, unfolding(crate::specs::Values::over))]
fn read_locals(bytes: &mut Bytes<'_>, locals: &mut Vec<ValueType>) -> Result<(), FaultKind>
    ensures { ReadsTo (locals_behind (length locals.old.items) bytes.old.left.now) result (length locals.new.items)
        bytes.new.left.now }
{
    let groups = bytes.u32()?;
    if groups as usize > bytes.left() {
        return Err(FaultKind::End);
    }
    for _ in 0..groups {
        read_group(bytes, locals)?;
    }
    Ok(())
}

// Reads locals of one type.
fn read_group(bytes: &mut Bytes<'_>, locals: &mut Vec<ValueType>) -> Result<(), FaultKind>
    ensures { ReadsTo (group (length locals.old.items) bytes.old.left.now) result (length locals.new.items)
        bytes.new.left.now }
{
    let count = bytes.u32()?;
    let value = value_type(bytes.byte()?)?;
    let length = (count as usize).saturating_add(locals.len());
    if length > MAX_LOCALS as usize {
        return Err(FaultKind::Large);
    }
    locals.resize(length, value)?;
    Ok(())
}
