//! The lines of replies.

ghost use Rattle.std.specs.Prelude.{◌≡◌, ℕ, List, ◌++◌, codes, decimal, OnOk};
ghost use Rattle.bhs_model.specs.declared.replies.Reply.TheVariants.{Here, Changed, No};
ghost use Rattle.bhs_wire.specs.LentReply.{reply_of};
ghost use Rattle.bhs_wire.specs.Reply.{line, label, quoted_text};
ghost use Rattle.bhs_wire.specs.Why.{word};

use crate::lent::LentReply;
use crate::plain_writes::is_plain;
use bhs_model::Why;
use bhs_net::Memory;
use itoa::Buffer;
use json::Writer;
use std::alloc::Global;
use std::mem::replace;

// The most bytes of a text that is looked through byte by byte.
const SHORT: usize = 32;

/// Appends the line of a reply to a text, without its line feed. On `Err`, a part of the line may have been appended.
#[inline]
pub fn push_line(alloc: Global, text: &mut Vec<u8>, reply: LentReply<'_>) -> Result<(), Memory>
    ensures line { OnOk result (text.new.items ≡ text.old.items ++ line (reply_of reply.entry)) }
    ensures front { (more : List ℕ) × (text.new.items ≡ text.old.items ++ more) }
{
    match reply {
        LentReply::Here { ports, came, board } => push_here(alloc, text, ports, came, board),
        LentReply::Written => text.extend_from_slice(b"{\"ok\":\"written\"}"),
        LentReply::Changed { board } => push_changed(alloc, text, board),
        LentReply::Gone => text.extend_from_slice(b"{\"ok\":\"gone\"}"),
        LentReply::Noted => text.extend_from_slice(b"{\"ok\":\"noted\"}"),
        LentReply::Bye => text.extend_from_slice(b"{\"ok\":\"bye\"}"),
        LentReply::Over => text.extend_from_slice(b"{\"ok\":\"over\"}"),
        LentReply::No(why) => push_refusal(text, why),
    }
}

#[inline]
fn push_here(
    alloc: Global,
    text: &mut Vec<u8>,
    ports: u16,
    came: Option<u16>,
    board: &str,
) -> Result<(), Memory>
    ensures line { OnOk result (text.new.items ≡ text.old.items ++ line (Here ports came board.now)) }
    ensures front { (more : List ℕ) × (text.new.items ≡ text.old.items ++ more) }
{
    push_board(alloc, text, board)?;
    text.extend_from_slice(b",\"from\":")?;
    push_label(text, came)?;
    text.extend_from_slice(b",\"ok\":\"here\",\"ports\":")?;
    push_number(text, ports)?;
    Ok(text.push(b'}')?)
}

fn push_changed(alloc: Global, text: &mut Vec<u8>, board: &str) -> Result<(), Memory>
    ensures line { OnOk result (text.new.items ≡ text.old.items ++ line (Changed board.now)) }
    ensures front { (more : List ℕ) × (text.new.items ≡ text.old.items ++ more) }
{
    push_board(alloc, text, board)?;
    text.extend_from_slice(b",\"ok\":\"changed\"}")
}

fn push_refusal(text: &mut Vec<u8>, why: Why) -> Result<(), Memory>
    ensures line { OnOk result (text.new.items ≡ text.old.items ++ line (No why)) }
    ensures front { (more : List ℕ) × (text.new.items ≡ text.old.items ++ more) }
{
    text.extend_from_slice(b"{\"no\":\"")?;
    text.extend_from_slice(word_of(why).as_bytes())?;
    text.extend_from_slice(b"\"}")
}

// Adds the first member of an object: what a whiteboard shows.
#[inline(always)]
fn push_board(alloc: Global, text: &mut Vec<u8>, board: &str) -> Result<(), Memory>
    ensures board { OnOk result (text.new.items ≡ text.old.items
        ++ (codes "{\"board\":" ++ quoted_text board.now)) }
    ensures front { (more : List ℕ) × (text.new.items ≡ text.old.items ++ more) }
{
    text.extend_from_slice(b"{\"board\":")?;
    push_quoted(alloc, text, board)
}

// Adds a text between quotes, with its escapes. Most texts are short and have none.
#[inline(always)]
fn push_quoted(alloc: Global, text: &mut Vec<u8>, quoted: &str) -> Result<(), Memory>
    ensures quoted { OnOk result (text.new.items ≡ text.old.items ++ quoted_text quoted.now) }
    ensures front { (more : List ℕ) × (text.new.items ≡ text.old.items ++ more) }
{
    if quoted.len() > SHORT || !is_plain(quoted.as_bytes()) {
        return push_escaped(alloc, text, quoted);
    }
    text.push(b'"')?;
    text.extend_from_slice(quoted.as_bytes())?;
    Ok(text.push(b'"')?)
}

// The same by the writer of JSON.
#[inline(never)]
fn push_escaped(alloc: Global, text: &mut Vec<u8>, quoted: &str) -> Result<(), Memory>
    ensures quoted { OnOk result (text.new.items ≡ text.old.items ++ quoted_text quoted.now) }
    ensures front { (more : List ℕ) × (text.new.items ≡ text.old.items ++ more) }
{
    let mut out = Writer::new(replace(text, Vec::new(alloc)));
    let written = out.string(quoted);
    *text = out.into_inner();
    written
}

#[inline(always)]
fn push_label(text: &mut Vec<u8>, came: Option<u16>) -> Result<(), Memory>
    ensures label { OnOk result (text.new.items ≡ text.old.items ++ label came) }
    ensures front { (more : List ℕ) × (text.new.items ≡ text.old.items ++ more) }
{
    match came {
        Some(port) => push_number(text, port),
        None => text.extend_from_slice(b"null"),
    }
}

// Adds a number. Most are digits.
#[inline(always)]
fn push_number(text: &mut Vec<u8>, number: u16) -> Result<(), Memory>
    ensures number { OnOk result (text.new.items ≡ text.old.items ++ decimal number) }
    ensures front { (more : List ℕ) × (text.new.items ≡ text.old.items ++ more) }
{
    if number < 10 {
        return Ok(text.push(b'0' + number as u8)?);
    }
    let mut digits = Buffer::new();
    text.extend_from_slice(digits.format(number).as_bytes())
}

/// The word that tells a client why a command is refused. Takes no memory.
pub fn word_of(why: Why) -> &'static str
    ensures { result.now ≡ word why }
{
    match why {
        Why::Agent => "agent",
        Why::Outside => "outside",
        Why::Twice => "twice",
        Why::Ended => "ended",
        Why::Spent => "spent",
        Why::Away => "away",
        Why::Line => "line",
        Why::Port => "port",
        Why::Long => "long",
    }
}
