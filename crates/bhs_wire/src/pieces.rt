//! Lines in a piece of a stream.

ghost use Rattle.std.specs.Prelude.{◌≡◌, ◌+◌, ◌≤◌, ℕ, List, [], ◌∷◌, ◌++◌, length, map, false};
ghost use Rattle.std.specs.Prelude.{option_map, option_and_then, MatchOption, IsOk, IfOk, IfSome, IsSome, OnOk, OnErr};
ghost use Rattle.std.specs.List.{list_any, position};
ghost use Rattle.std.specs.Option.{ForSome};
ghost use Rattle.std.specs.Cow.{cow_slice_items};
ghost use Rattle.bhs_wire.specs.Lines.{Line, seen, given, is_line_feed, as_held, lines, rest, ended_by};

use crate::commands::{First, LineReader};
use crate::kinds::is_blank;
use bhs_model::{Command, MAX_LINE};
use bhs_net::Memory;
use std::alloc::Global;
use std::borrow::CowSlice;
use std::collections::VecDeque;

/// A line that a client sent, without its line feed.
#[derive(Drop)]
pub enum Raw<'p> {
    /// The bytes of a line that is neither blank nor too long; borrowed from the piece if the line lies within one
    /// piece.
    Whole(CowSlice<'p, u8>),
    /// A line of more than `MAX_LINE` bytes.
    Over,
}

impl Raw<'_> {
    ghost use Rattle.bhs_wire.specs.Lines.{said_by};

    /// What the client means by the line.
    pub fn said(&self, reader: &mut LineReader) -> Result<First, Memory>
        ensures said { IfOk result (λ first. first ≡ said_by (seen self.now)) }
        // An overlong line takes no memory.
        ensures unread { self.now ≡ Raw.Over → IsOk result }
    {
        match self {
            Raw::Whole(line) => reader.command_of(line.as_slice()),
            Raw::Over => Ok(First::Tell(Command::Bad)),
        }
    }
}

/// Splits bytes at the first line feed, which belongs to neither part; None without a line feed.
pub fn split_line(bytes: &[u8]) -> Option<(&[u8], &[u8])>
    ensures { MatchOption result (list_any is_line_feed bytes.now ≡ false)
        (λ parts. (bytes.now ≡ parts.0.now ++ 10 ∷ parts.1.now) × (list_any is_line_feed parts.0.now ≡ false)) }
{
    let end = line_end(bytes)?;
    Some((&bytes[..end], &bytes[end + 1..]))
}

/// The line, if the bytes are one with its line feed.
pub fn whole_line(bytes: &[u8]) -> Option<&[u8]>
    ensures line { IfSome result (λ line. (bytes.now ≡ line.now ++ 10 ∷ [])
        × (list_any is_line_feed line.now ≡ false)) }
    ensures none { (line : List ℕ) → bytes.now ≡ line ++ 10 ∷ [] → list_any is_line_feed line ≡ false
        → IsSome result }
{
    match bytes {
        [line @ .., b'\n'] if !line.contains(&b'\n') => Some(line),
        _ => None,
    }
}

fn line_end(bytes: &[u8]) -> Option<usize>
    ensures { result ≡ position is_line_feed bytes.now }
{
    memchr::memchr(b'\n', bytes)
}

// Adds what the line gives that was held in part, and ends here.
pub(crate) fn push_first<'p>(
    alloc: Global,
    found: &mut VecDeque<Raw<'p>>,
    held: &Option<Vec<u8>>,
    end: &'p [u8],
) -> Result<(), Memory>
    requires { ForSome held.now (λ line. length line.items ≤ MAX_LINE) }
    ensures found { OnOk result (map seen found.new.items ≡ map seen found.old.items
        ++ ended_by (option_map (λ line. line.items) held.now) end.now) }
    ensures front { (more : List Line) × (map seen found.new.items ≡ map seen found.old.items ++ more) }
{
    match held {
        Some(front) => push_line(alloc, found, front, end)?,
        None => found.push_back(Raw::Over)?,
    }
    Ok(())
}

// Adds the lines that end in the bytes, and gives what stands after the last line feed.
pub(crate) fn push_lines<'p>(
    alloc: Global,
    found: &mut VecDeque<Raw<'p>>,
    bytes: &'p [u8],
) -> Result<&'p [u8], Memory>
    ensures found { OnOk result (map seen found.new.items ≡ map seen found.old.items ++ lines bytes.now) }
    ensures front { (more : List Line) × (map seen found.new.items ≡ map seen found.old.items ++ more) }
    ensures rest { IfOk result (λ after. after.now ≡ rest bytes.now) }
{
    let mut after = bytes;
    while let Some((line, more)) = split_line(after) {
        push_line(alloc, found, &[], line)?;
        after = more;
    }
    Ok(after)
}

// Adds the result of a line in two parts. Overlong lines are not joined.
fn push_line<'p>(
    alloc: Global,
    found: &mut VecDeque<Raw<'p>>,
    front: &[u8],
    end: &'p [u8],
) -> Result<(), Memory>
    requires { length front.now ≤ MAX_LINE }
    ensures found { OnOk result (map seen found.new.items
        ≡ map seen found.old.items ++ given (front.now ++ end.now)) }
    ensures front { (more : List Line) × (map seen found.new.items ≡ map seen found.old.items ++ more) }
{
    if end.len() > MAX_LINE - front.len() {
        found.push_back(Raw::Over)?;
        return Ok(());
    }
    if is_blank(front) && is_blank(end) {
        return Ok(());
    }
    let line = joined(alloc, front, end)?;
    found.push_back(Raw::Whole(line))?;
    Ok(())
}

// Joins a line in two parts; copies only if the first part is not empty.
fn joined<'p>(alloc: Global, front: &[u8], end: &'p [u8]) -> Result<CowSlice<'p, u8>, Memory>
    requires { length front.now + length end.now ≤ MAX_LINE }
    ensures { IfOk result (λ line. cow_slice_items line ≡ front.now ++ end.now) }
{
    if front.is_empty() {
        return Ok(CowSlice::Borrowed(end));
    }
    let mut line = Vec::with_capacity(alloc, front.len() + end.len())?;
    line.extend_from_slice(front)?;
    line.extend_from_slice(end)?;
    Ok(CowSlice::Owned(line))
}

// Holds more of an unfinished line, or none of it once it is too long.
pub(crate) fn hold(held: &mut Option<Vec<u8>>, piece: &[u8]) -> Result<(), Memory>
    requires { ForSome held.old (λ line. length line.items ≤ MAX_LINE) }
    ensures ok { OnOk result (option_map (λ line. line.items) held.new
        ≡ option_and_then (λ line. as_held (line.items ++ piece.now)) held.old) }
    ensures err { OnErr result (option_map (λ line. line.items) held.new
        ≡ option_map (λ line. line.items) held.old) }
    ensures bound { ForSome held.new (λ line. length line.items ≤ MAX_LINE) }
{
    if let Some(line) = held {
        if piece.len() > MAX_LINE - line.len() {
            *held = None;
        } else {
            line.extend_from_slice(piece)?;
        }
    }
    Ok(())
}

// An unfinished line, held from its start.
pub(crate) fn keep(alloc: Global, line: &[u8]) -> Result<Option<Vec<u8>>, Memory>
    ensures held { IfOk result (λ held. option_map (λ bytes. bytes.items) held ≡ as_held line.now) }
    ensures bound { IfOk result (λ held. ForSome held (λ bytes. length bytes.items ≤ MAX_LINE)) }
{
    if line.len() > MAX_LINE {
        return Ok(None);
    }
    Ok(Some(Vec::from_slice(alloc, line)?))
}
