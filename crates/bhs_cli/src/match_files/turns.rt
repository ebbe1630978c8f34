//! The text of the turns of a match's events.

ghost use Rattle.std.specs.Prelude.{◌≡◌, ◌≢◌, ◌<◌, ◌^◌, ℕ, decimal, IfOk, IfErr, MatchOption, string_bytes};
ghost use Rattle.bhs_cli.specs.Turns.{turn_line, turns_text, IsRefusedText};
ghost use Rattle.bhs_cli.specs.declared.reporting.faults.Fault.TheVariants as faults;

use crate::reporting::faults::Fault;
use bhs_net::Memory;
use bhs_wire::split_line;
use std::alloc::Global;

/// A decimal line for each turn.
pub fn turns_text(alloc: Global, turns: &[u32]) -> Result<String, Memory>
    ensures { IfOk result (λ text. string_bytes text ≡ turns_text turns.now) }
{
    let mut text = String::new(alloc);
    for turn in turns {
        let line = turn_line(alloc, *turn)?;
        text.push_str(line.as_str())?;
    }
    Ok(text)
}

fn turn_line(alloc: Global, turn: u32) -> Result<String, Memory>
    ensures { IfOk result (λ text. string_bytes text ≡ turn_line turn) }
{
    format!(in alloc; "{turn}\n")
}

/// The turns that a text spells, or the number of its first wrong line, counted from 1.
pub fn turns_in(alloc: Global, text: &[u8]) -> Result<Vec<u32>, Fault>
    ensures read { IfOk result (λ turns. turns_text turns.items ≡ text.now) }
    ensures refused { IfErr result (IsRefusedText text.now) }
{
    let mut turns = Vec::new(alloc);
    let mut after = text;
    while let Some((line, more)) = split_line(after) {
        let Some(turn) = turn_in(alloc, line)? else {
            return Err(wrong_line(&turns));
        };
        if turns.push(turn).is_err() {
            return Err(Fault::Memory);
        }
        after = more;
    }
    if after.is_empty() {
        Ok(turns)
    } else {
        Err(wrong_line(&turns))
    }
}

// Returns the fault of the line after those of these turns.
fn wrong_line(turns: &[u32]) -> Fault
    ensures { (line : ℕ) × (result ≡ faults.Line line) }
{
    Fault::Line {
        line: turns.len().saturating_add(1),
    }
}

// The turn that a line spells, without its line feed.
fn turn_in(alloc: Global, line: &[u8]) -> Result<Option<u32>, Memory>
    ensures { IfOk result (λ turn. MatchOption turn ((n : ℕ) → n < 2 ^ 32 → decimal n ≢ line.now)
        (λ n. decimal n ≡ line.now)) }
{
    let Ok(text) = str::from_utf8(line) else {
        return Ok(None);
    };
    let Ok(turn) = text.parse::<u32>() else {
        return Ok(None);
    };
    let spelled = format!(in alloc; "{turn}")?;
    if spelled.as_str() == text {
        Ok(Some(turn))
    } else {
        Ok(None)
    }
}
