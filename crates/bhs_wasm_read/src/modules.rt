//! Modules, section by section.

ghost use Rattle.std.specs.Prelude.{◌≡◌, ℕ, ◌<◌, ◌≤◌, true, false, [], drop, length};
ghost use Rattle.std.specs.Prelude.{IsOk, IfOk, IfErr, OnOk, OnErr};
ghost use Rattle.bhs_wasm_read.specs.Modules as modules;
ghost use Rattle.bhs_wasm.specs.Contents.{contents_of};
ghost use Rattle.bhs_wasm_read.specs.Modules.{module_in, parts_of};
ghost use Rattle.bhs_wasm_read.specs.Values.{ReadsTo};
ghost use Rattle.bhs_wasm_read.specs.Files as specs;
ghost use Rattle.bhs_wasm_read.specs.Files.{AreInOrder, has_head, place_of};

use crate::bytes::Bytes;
use crate::faults::{FaultKind, ModuleFault};
use crate::sections::Sections;
use bhs_wasm::Module;
use std::alloc::Global;

/// Decodes a file as a module. Refuses files that are not valid modules, and modules that agents may not use.
pub fn module_of(alloc: Global, file: &[u8]) -> Result<Module, ModuleFault>
    // Only files with the head, followed by sections in their order, are accepted.
    ensures head { IsOk result → has_head file.now ≡ true }
    ensures sections { IsOk result → AreInOrder (drop 8 file.now) }
    // The module is the decoding of the file.
    ensures contents { IfOk result (λ it. module_in file.now ≡ Some (contents_of it)) }
    // A file without the head is refused with `Head`, and no other file is. Other faults lie in the sections.
    ensures lacks_head { has_head file.now ≡ false → result ≡ Err ModuleFault.Head }
    ensures refused_head { result ≡ Err ModuleFault.Head → has_head file.now ≡ false }
    ensures within { IfErr result (λ fault. place_of fault ≤ length file.now) }
{
    if !file.starts_with(b"\0asm\x01\0\0\0".as_slice()) {
        return Err(ModuleFault::Head);
    }
    let mut bytes = Bytes::new(&file[8..]);
    let mut sections = Sections::new(alloc);
    match read(&mut bytes, &mut sections) {
        Ok(()) => {}
        Err(kind) => {
            return Err(ModuleFault::Inside {
                kind,
                at: file.len().saturating_sub(bytes.start),
                import: sections.import,
            });
        }
    }
    match sections.whole() {
        Ok(module) => Ok(module),
        Err(kind) => Err(ModuleFault::Inside {
            kind,
            at: file.len(),
            import: String::new(alloc),
        }),
    }
}

fn read(bytes: &mut Bytes<'_>, sections: &mut Sections) -> Result<(), FaultKind>
    ensures order { OnOk result (AreInOrder bytes.old.left.now) }
    ensures parts { OnOk result ((most : ℕ) → length bytes.old.left.now ≤ most
        → modules.sections most 0 (parts_of sections.old) bytes.old.left.now ≡ Ok (parts_of sections.new, [])) }
{
    let mut last = 0;
    while bytes.left() > 0 {
        bytes.begin();
        last = read_section(last, bytes, sections)?;
    }
    Ok(())
}

// Reads a section that comes after a rank in the order, and returns the section's own rank.
fn read_section(last: u8, bytes: &mut Bytes<'_>, sections: &mut Sections) -> Result<u8, FaultKind>
    ensures read { IfOk result (λ own. specs.section last bytes.old.left.now ≡ Ok (own, bytes.new.left.now)) }
    ensures parts { IfOk result (λ own. modules.section last (parts_of sections.old) bytes.old.left.now
        ≡ Ok ((own, parts_of sections.new), bytes.new.left.now)) }
    ensures shorter { OnOk result (length bytes.new.left.now < length bytes.old.left.now) }
{
    let number = bytes.byte()?;
    let count = bytes.u32()?;
    let rest = bytes.enter(count)?;
    if number == 0 {
        let _name = bytes.name()?;
        bytes.skip();
        bytes.leave(rest)?;
        return Ok(last);
    }
    let own = rank_of(number)?;
    if own <= last {
        return Err(FaultKind::Section);
    }
    sections.section(number, bytes)?;
    bytes.leave(rest)?;
    Ok(own)
}

// The place of a section in the order of sections. The number of data segments stands before the code.
fn rank_of(number: u8) -> Result<u8, FaultKind>
    ensures ok { IfOk result (λ own. specs.rank number ≡ Some own) }
    ensures err { IfErr result (λ kind. kind ≡ FaultKind.Section) }
    ensures none { OnErr result (specs.rank number ≡ None) }
{
    match number {
        1..=9 => Ok(number),
        12 => Ok(10),
        10 => Ok(11),
        11 => Ok(12),
        _ => Err(FaultKind::Section),
    }
}
