//! Parsers for beginnings of lines; each also returns the remaining bytes. They allocate nothing.

ghost use Rattle.std.specs.Prelude.{◌≡◌, ◌<◌, ◌+◌, ◌∷◌, ◌++◌, decimal, IfSome};
ghost use Rattle.std.specs.Bool.{OnTrue};
ghost use Rattle.json.specs.Print.{escape};
ghost use Rattle.bhs_wire.specs.Reply.{quoted_text};

/// What stands behind this part; None if the line begins with something else. Where the part has a known length this
/// is a compare or two.
#[inline]
pub(crate) fn after<'l, const N: usize>(line: &'l [u8], part: &[u8; N]) -> Option<&'l [u8]>
    ensures { IfSome result (λ rest. line.now ≡ part.now ++ rest.now) }
{
    let (front, rest) = line.split_first_chunk::<N>()?;
    if front == part { Some(rest) } else { None }
}

/// A number in plain decimal, and what stands behind it.
pub(crate) fn seen_number(line: &[u8]) -> Option<(u16, &[u8])>
    ensures { IfSome result (λ seen. line.now ≡ decimal seen.0 ++ seen.1.now) }
{
    let (mut number, mut rest) = seen_digit(line)?;
    while let Some((digit, more)) = seen_digit(rest) {
        if number == 0 {
            return None;
        }
        number = number.checked_mul(10)?.checked_add(digit)?;
        rest = more;
    }
    Some((number, rest))
}

// Parses a digit; returns the bytes after it.
#[inline]
fn seen_digit(line: &[u8]) -> Option<(u16, &[u8])>
    ensures { IfSome result (λ seen. (seen.0 < 10) × (line.now ≡ (48 + seen.0) ∷ seen.1.now)) }
{
    let (byte, rest) = line.split_first()?;
    let digit = u16::from(*byte).checked_sub(48)?;
    if digit < 10 {
        Some((digit, rest))
    } else {
        None
    }
}

/// Parses a text without escapes; returns the bytes after it. Most whiteboards are empty.
pub(crate) fn seen_text(line: &[u8]) -> Option<(&str, &[u8])>
    ensures { IfSome result (λ seen. line.now ≡ quoted_text seen.0.now ++ seen.1.now) }
{
    if let Some(rest) = after(line, b"\"\"") {
        return Some(("", rest));
    }
    let line = after(line, b"\"")?;
    let end = memchr::memchr2(b'"', b'\\', line)?;
    let (bytes, line) = line.split_at_checked(end)?;
    let rest = after(line, b"\"")?;
    if !is_plain(bytes) {
        return None;
    }
    let text = str::from_utf8(bytes).ok()?;
    Some((text, rest))
}

// Returns whether a text needs no escape. The loop does not stop early, so that it is vectorised.
fn is_plain(text: &[u8]) -> bool
    ensures { OnTrue result (escape text.now ≡ text.now) }
{
    let mut has_escape = false;
    for &byte in text {
        has_escape |= (byte < 0x20) | (byte == b'"') | (byte == b'\\');
    }
    !has_escape
}
