//! Texts of strangers as a terminal is to show them.
#![tactic(auto)]

ghost use Rattle.std.specs.Prelude.{◌≡◌, ◌<◌, ◌/◌, ◌%◌, ◌^◌, [], ◌∷◌, ◌++◌, IfOk, IsTrue, OnOk, string_bytes};
ghost use Rattle.std.specs.List.{list_all};
ghost use Rattle.bhs_terminal.specs.Visible.{controls, escaped, hex_digit, is_plain, visible, visible_character};
ghost use Rattle.bhs_terminal.specs.Visible.{WorkedExamples};

use std::alloc::{AllocError, Global};

/// Whether a character controls a terminal, or turns the direction in which a text is shown: the control characters C0,
/// Delete and C1, and Unicode's controls of direction.
pub fn controls(character: char) -> bool
    ensures same { result ≡ controls character }
    ensures small { IsTrue result → character < 2 ^ 16 }
{
    matches!(
        character,
        '\0'..='\u{1f}'
            | '\u{7f}'..='\u{9f}'
            | '\u{61c}'
            | '\u{200e}'..='\u{200f}'
            | '\u{202a}'..='\u{202e}'
            | '\u{2066}'..='\u{2069}'
    )
}

/// Lines whose terminal control characters are escaped as in JSON strings: `\u` with four hexadecimal digits. JSON
/// keeps its meaning. All other characters, line feeds included, are unchanged.
pub fn visible(alloc: Global, text: &str) -> Result<String, AllocError>
    ensures { IfOk result (λ shown. string_bytes shown ≡ visible text.now) }
{
    if is_plain(text) {
        return String::from_str(alloc, text);
    }
    visible_by_character(alloc, text)
}

// Whether a text is of printable ASCII, as most lines are. Bytes are looked at several times faster than characters.
fn is_plain(text: &str) -> bool
    ensures { result ≡ list_all is_plain text.now }
{
    text.as_bytes()
        .iter()
        .all(|byte| matches!(*byte, b' '..=b'~'))
}

fn visible_by_character(alloc: Global, text: &str) -> Result<String, AllocError>
    ensures { IfOk result (λ shown. string_bytes shown ≡ visible text.now) }
{
    let mut shown = String::new(alloc);
    for character in text.chars() {
        push(&mut shown, character)?;
    }
    Ok(shown)
}

fn push(shown: &mut String, character: char) -> Result<(), AllocError>
    ensures { OnOk result (string_bytes shown.new ≡ string_bytes shown.old ++ visible_character character) }
{
    if controls(character) && character != '\n' {
        push_escaped(shown, character)
    } else {
        shown.push(character)
    }
}

fn push_escaped(shown: &mut String, character: char) -> Result<(), AllocError>
    requires { character < 2 ^ 16 }
    ensures { OnOk result (string_bytes shown.new ≡ string_bytes shown.old ++ escaped character) }
{
    let code = u32::from(character);
    shown.push_str("\\u")?;
    push_digit(shown, code / 4096)?;
    push_digit(shown, code / 256 % 16)?;
    push_digit(shown, code / 16 % 16)?;
    push_digit(shown, code % 16)
}

fn push_digit(shown: &mut String, number: u32) -> Result<(), AllocError>
    requires { number < 16 }
    ensures { OnOk result (string_bytes shown.new ≡ string_bytes shown.old ++ hex_digit number ∷ []) }
{
    shown.push(char::from(hex_digit(number)))
}

fn hex_digit(number: u32) -> u8
    requires { number < 16 }
    ensures digit { result ≡ hex_digit number }
    ensures ascii { result < 128 }
{
    if number < 10 {
        b'0' + number as u8
    } else {
        b'a' + (number - 10) as u8
    }
}

/// Worked examples of the definitions.
pub fn worked_examples()
    ensures { WorkedExamples }
{}
