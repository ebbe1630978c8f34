//! What connections are sent, as it is printed.

ghost use Rattle.std.specs.Prelude.{◌≡◌, ◌++◌, ◌∷◌, [], true, OnOk};
ghost use Rattle.bhs_script.specs.Transcript.{begun_with, printed};

use bhs_net::Memory;
use bhs_wire::{split_line, whole_line};
use itoa::Buffer;

/// Adds what a connection is sent, each line behind the connection's number and a space.
pub fn push_printed(text: &mut Vec<u8>, conn: u16, bytes: &[u8]) -> Result<(), Memory>
    ensures { OnOk result (text.new.items ≡ text.old.items ++ printed conn bytes.now) }
{
    let mut digits = Buffer::new();
    push_lines(text, digits.format(conn).as_bytes(), bytes)
}

// Adds a text, each line behind these bytes and a space. Most texts are one line.
fn push_lines(text: &mut Vec<u8>, number: &[u8], bytes: &[u8]) -> Result<(), Memory>
    ensures { OnOk result (text.new.items ≡ text.old.items ++ begun_with (number.now ++ 32 ∷ []) true bytes.now) }
{
    match whole_line(bytes) {
        Some(_) => push_begun(text, number, bytes),
        None => push_all_lines(text, number, bytes),
    }
}

fn push_all_lines(text: &mut Vec<u8>, number: &[u8], bytes: &[u8]) -> Result<(), Memory>
    ensures { OnOk result (text.new.items ≡ text.old.items ++ begun_with (number.now ++ 32 ∷ []) true bytes.now) }
{
    let mut after = bytes;
    while let Some((line, more)) = split_line(after) {
        push_begun(text, number, line)?;
        text.push(b'\n')?;
        after = more;
    }
    if !after.is_empty() {
        push_begun(text, number, after)?;
    }
    Ok(())
}

#[inline(always)]
fn push_begun(text: &mut Vec<u8>, number: &[u8], line: &[u8]) -> Result<(), Memory>
    ensures { OnOk result (text.new.items ≡ (text.old.items ++ (number.now ++ 32 ∷ [])) ++ line.now) }
{
    text.extend_from_slice(number)?;
    text.push(b' ')?;
    text.extend_from_slice(line)
}
