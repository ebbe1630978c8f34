//! Reading a script.

ghost use Rattle.std.specs.Prelude.{◌≡◌, ◌+◌, ◌<◌, ◌∷◌, ◌++◌, [], length, map, option_map};
ghost use Rattle.std.specs.Prelude.{IfOk, IfSome, MatchResult};
ghost use Rattle.std.specs.List.{position};
ghost use Rattle.std.specs.Option.{option_map_or};
ghost use Rattle.bhs_script.specs.Script.{meaning, lines_of, is_space, instructions_of, instruction_in, parted};
ghost use Rattle.bhs_script.specs.Script.{number_below, bytes_of, feeds_line, feeds_bytes, ends_input, draws, closes};
ghost use Rattle.bhs_script.specs.Script.{deliveries};
ghost use Rattle.bhs_script.specs.Instructions.{IsEnded, seen, seen_as};
ghost use Rattle.bhs_script.specs.declared.instructions.TheConstants.{CONNECTIONS};
ghost use Rattle.bhs_script.specs.ScriptFault.{Refuses};

use crate::faults::ScriptFault;
use crate::instructions::{AGENTS, CONNECTIONS, Instruction};
use crate::meanings::Meaning;
use crate::numbers::number_of;
use bhs_net::Memory;
use bhs_wire::split_line;
use hex::FromHexError;
use std::alloc::Global;
use std::borrow::CowSlice;

/// Parses a script's line, for a rehearsal with this number of matches. `ended` is the line including its line feed,
/// where present.
pub fn meaning_of<'s>(
    alloc: Global,
    games: usize,
    line: &'s [u8],
    ended: &'s [u8],
) -> Result<Meaning<'s>, Memory>
    requires { IsEnded line.now ended.now }
    ensures { IfOk result (λ m. seen_as m ≡ meaning games line.now) }
{
    if let [] | [b'#', ..] = line {
        return Ok(Meaning::Skipped);
    }
    Ok(match instruction_in(alloc, games, line, ended)? {
        Some(instruction) => Meaning::Gives(instruction),
        None => Meaning::Refused,
    })
}

fn instruction_in<'s>(
    alloc: Global,
    games: usize,
    line: &'s [u8],
    ended: &'s [u8],
) -> Result<Option<Instruction<'s>>, Memory>
    requires { IsEnded line.now ended.now }
    ensures { IfOk result (λ found. option_map seen found ≡ instruction_in games line.now) }
{
    let Some((word, rest)) = parted(line) else {
        return Ok(None);
    };
    if word == b"hex".as_slice() {
        feed_bytes(alloc, rest)
    } else if word == b"end".as_slice() {
        Ok(end_input(rest))
    } else if word == b"draw".as_slice() {
        Ok(draw(games, rest))
    } else if word == b"deliver".as_slice() {
        Ok(deliver(games, rest))
    } else if word == b"close".as_slice() {
        Ok(close(games, rest))
    } else {
        feed_line(alloc, word, rest, &ended[word.len() + 1..])
    }
}

// Splits a line at its first space.
fn parted(text: &[u8]) -> Option<(&[u8], &[u8])>
    ensures whole { IfSome result (λ parts. text.now ≡ parts.0.now ++ 32 ∷ parts.1.now) }
    ensures parts { option_map (λ parts. (parts.0.now, parts.1.now)) result ≡ parted text.now }
{
    match space_in(text) {
        Some(end) => Some((&text[..end], &text[end + 1..])),
        None => None,
    }
}

// A function of its own, whose loop keeps all in registers.
#[inline(never)]
fn space_in(text: &[u8]) -> Option<usize>
    ensures place { result ≡ position is_space text.now }
    ensures within { IfSome result (λ end. end < length text.now) }
{
    text.iter().position(|byte| *byte == b' ')
}

// Feeds a line's text after its word. `ended` includes the line feed, where present.
fn feed_line<'s>(
    alloc: Global,
    word: &[u8],
    rest: &[u8],
    ended: &'s [u8],
) -> Result<Option<Instruction<'s>>, Memory>
    requires { IsEnded rest.now ended.now }
    ensures { IfOk result (λ found. option_map seen found ≡ feeds_line word.now rest.now) }
{
    let Some(conn) = connection_in(word) else {
        return Ok(None);
    };
    let bytes = if ended.len() > rest.len() {
        CowSlice::Borrowed(ended)
    } else {
        CowSlice::Owned(with_line_feed(alloc, rest)?)
    };
    Ok(Some(Instruction::Feed { conn, bytes }))
}

fn with_line_feed(alloc: Global, line: &[u8]) -> Result<Vec<u8>, Memory>
    ensures { IfOk result (λ bytes. bytes.items ≡ line.now ++ 10 ∷ []) }
{
    let mut bytes = Vec::with_capacity(alloc, line.len() + 1)?;
    bytes.extend_from_slice(line)?;
    bytes.push(b'\n')?;
    Ok(bytes)
}

fn feed_bytes<'s>(alloc: Global, rest: &[u8]) -> Result<Option<Instruction<'s>>, Memory>
    ensures { IfOk result (λ found. option_map seen found ≡ feeds_bytes rest.now) }
{
    let Some((number, digits)) = parted(rest) else {
        return Ok(None);
    };
    let Some(conn) = connection_in(number) else {
        return Ok(None);
    };
    let Some(bytes) = bytes_of(alloc, digits)? else {
        return Ok(None);
    };
    let bytes = CowSlice::Owned(bytes);
    Ok(Some(Instruction::Feed { conn, bytes }))
}

fn bytes_of(alloc: Global, digits: &[u8]) -> Result<Option<Vec<u8>>, Memory>
    ensures { IfOk result (λ found. option_map (λ bytes. bytes.items) found ≡ bytes_of digits.now) }
{
    if digits.is_empty() {
        return Ok(None);
    }
    match hex::decode(alloc, digits) {
        Ok(bytes) => Ok(Some(bytes)),
        Err(FromHexError::OutOfMemory) => Err(Memory),
        Err(_) => Ok(None),
    }
}

fn end_input<'s>(rest: &[u8]) -> Option<Instruction<'s>>
    ensures { option_map seen result ≡ ends_input rest.now }
{
    let conn = connection_in(rest)?;
    Some(Instruction::End { conn })
}

fn draw<'s>(games: usize, rest: &[u8]) -> Option<Instruction<'s>>
    ensures { option_map seen result ≡ draws games rest.now }
{
    let (number, digits) = parted(rest)?;
    let game = number_below(games, number)?;
    let word = number_of(digits)?;
    Some(Instruction::Draw { game, word })
}

fn deliver<'s>(games: usize, rest: &[u8]) -> Option<Instruction<'s>>
    ensures { option_map seen result ≡ deliveries games rest.now }
{
    let (number, digits) = parted(rest)?;
    let game = number_below(games, number)?;
    let agent = number_below(AGENTS, digits)? as u16;
    Some(Instruction::Deliver { game, agent })
}

fn close<'s>(games: usize, rest: &[u8]) -> Option<Instruction<'s>>
    ensures { option_map seen result ≡ closes games rest.now }
{
    let game = number_below(games, rest)?;
    Some(Instruction::Close { game })
}

fn connection_in(text: &[u8]) -> Option<u16>
    ensures { result ≡ number_below CONNECTIONS text.now }
{
    let number = number_below(usize::from(CONNECTIONS), text)?;
    Some(number as u16)
}

fn number_below(bound: usize, text: &[u8]) -> Option<u32>
    ensures number { result ≡ number_below bound text.now }
    ensures below { IfSome result (λ n. n < bound) }
{
    number_of(text).filter(|number| (*number as usize) < bound)
}

/// The instructions of a script in a rehearsal of this number of matches, or its first line that is wrong.
pub fn instructions_in<'s>(
    alloc: Global,
    games: usize,
    script: &'s [u8],
) -> Result<Vec<Instruction<'s>>, ScriptFault>
    ensures { MatchResult result (λ found. instructions_of games script.now ≡ Ok (map seen found.items))
        (Refuses (instructions_of games script.now)) }
{
    let mut found = Vec::new(alloc);
    let mut rest = Some(script);
    let mut number = 0;
    while let Some(text) = rest {
        let (line, ended, others) = first_line(text);
        number += 1;
        match meaning_of(alloc, games, line, ended)? {
            Meaning::Skipped => {}
            Meaning::Gives(instruction) => found.push(instruction)?,
            Meaning::Refused => return Err(ScriptFault::Line { line: number }),
        }
        rest = others;
    }
    Ok(found)
}

// Returns the first line, the same with its line feed, if it has one, and the bytes after it.
fn first_line(text: &[u8]) -> (&[u8], &[u8], Option<&[u8]>)
    ensures lines { lines_of text.now ≡ result.0.now ∷ option_map_or (λ rest. lines_of rest.now) result.2 [] }
    ensures ended { IsEnded result.0.now result.1.now }
    ensures shorter { IfSome result.2 (λ rest. length rest.now < length text.now) }
{
    match split_line(text) {
        Some((line, rest)) => (line, &text[..line.len() + 1], Some(rest)),
        None => (text, text, None),
    }
}
