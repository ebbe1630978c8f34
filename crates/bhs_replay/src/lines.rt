ghost use Rattle.std.specs.Prelude.{ℕ, List, ◌≡◌, ◌<◌, ◌++◌, length, decimal, slice_get, Option, option_map, Some};
ghost use Rattle.std.specs.Prelude.{IfSome, IfOk, OnOk, string_bytes};
ghost use Rattle.bhs_model.specs.Marks.{read_if};
ghost use Rattle.bhs_model.specs.declared.replies.Reply.{Reply as ReplyData};
ghost use Rattle.bhs_wire.specs.LentReply.{reply_of};
ghost use Rattle.bhs_wire.specs.Reply.{quoted_text};
ghost use Rattle.bhs_replay.specs.EventLine.{event_line, said, answered, reply_part};
ghost use Rattle.bhs_replay.specs.Played.{IsTyped};

use crate::events::{each_event_is_typed, each_reply_is_typed};
use bhs_match::Sealed;
use bhs_model::{Command, Event, Kept, Mark, Reply};
use bhs_net::Memory;
use bhs_wire::{LentReply, push_line};
use itoa::Buffer;
use json::Writer;
use std::alloc::Global;
use std::mem::replace;

// The bytes that are taken for a line at first: as many as a line without long texts has.
const ROOM: usize = 128;

/// The line of the event at a place of the log, without its line feed.
pub fn event_line(alloc: Global, sealed: &Sealed, place: u32) -> Result<String, Memory>
    requires { place < length sealed.now.log }
    ensures { IfOk result (λ text. IfSome (slice_get sealed.now.log place)
        (λ one. string_bytes text ≡ event_line one.event (read_if sealed.now.log one.mark))) }
{
    line_in(alloc, sealed, &sealed.log()[place as usize])
}

// The line of an event of the log, without its line feed.
fn line_in(alloc: Global, sealed: &Sealed, one: &Kept) -> Result<String, Memory>
    ensures { IfOk result (λ text. string_bytes text
        ≡ event_line one.now.event (read_if sealed.now.log one.now.mark)) }
{
    line_with(alloc, &one.event, reply_in(sealed, &one.mark))
}

/// Appends the line of a logged event, without its line feed. An `Err` may leave a partial line.
pub(crate) fn add_line_in(
    alloc: Global,
    text: &mut Vec<u8>,
    sealed: &Sealed,
    one: &Kept,
) -> Result<(), Memory>
    ensures line { OnOk result (text.new.items ≡ text.old.items
        ++ event_line one.now.event (read_if sealed.now.log one.now.mark)) }
    ensures typed { IsTyped one.now.event }
{
    each_event_is_typed(&one.event);
    add_line(alloc, text, &one.event, reply_in(sealed, &one.mark))
}

// The reply that a mark of the log stands for.
fn reply_in<'s>(sealed: &'s Sealed, mark: &Option<Mark>) -> Option<LentReply<'s>>
    ensures { option_map reply_of result ≡ read_if sealed.now.log mark.now }
{
    match mark {
        Some(mark) => Some(LentReply::of_mark(*mark, sealed.text(mark))),
        None => None,
    }
}

/// The line of an event and its reply, without its line feed.
pub fn line_of(alloc: Global, event: &Event, reply: &Option<Reply>) -> Result<String, Memory>
    ensures { IfOk result (λ text. string_bytes text ≡ event_line event.now reply.now) }
{
    line_with(alloc, event, lent(reply))
}

/// A reply, lent.
pub(crate) fn lent(reply: &Option<Reply>) -> Option<LentReply<'_>>
    ensures { option_map reply_of result ≡ reply.now }
{
    match reply {
        Some(reply) => Some(LentReply::of_reply(reply)),
        None => None,
    }
}

/// The line of an event and a lent reply, without its line feed.
pub(crate) fn line_with(
    alloc: Global,
    event: &Event,
    reply: Option<LentReply<'_>>,
) -> Result<String, Memory>
    ensures { IfOk result (λ text. string_bytes text
        ≡ event_line event.now (option_map reply_of reply.entry)) }
{
    each_event_is_typed(event);
    each_reply_is_typed(reply);
    let mut text = Vec::with_capacity(alloc, ROOM)?;
    add_line(alloc, &mut text, event, reply)?;
    Ok(String::from_utf8(text).unwrap())
}

// Adds the line of an event and its reply.
fn add_line(
    alloc: Global,
    text: &mut Vec<u8>,
    event: &Event,
    reply: Option<LentReply<'_>>,
) -> Result<(), Memory>
    ensures { OnOk result (text.new.items ≡ text.old.items
        ++ event_line event.now (option_map reply_of reply.entry)) }
{
    add_event(alloc, text, event)?;
    add(text, b",\"reply\":")?;
    add_answer(alloc, text, reply)?;
    Ok(text.extend_from_slice(b"}")?)
}

fn add_event(alloc: Global, text: &mut Vec<u8>, event: &Event) -> Result<(), Memory>
    ensures { (reply : Option ReplyData) → OnOk result (text.new.items ++ reply_part reply
        ≡ text.old.items ++ event_line event.now reply) }
{
    match event {
        Event::Tell { agent, command } => {
            add(text, b"{\"agent\":")?;
            add_number(text, *agent)?;
            add(text, b",\"do\":")?;
            add_command(alloc, text, command)
        }
        Event::Deliver { agent } => {
            add(text, b"{\"agent\":")?;
            add_number(text, *agent)?;
            add(text, b",\"do\":\"deliver\"")
        }
        Event::Close => add(text, b"{\"do\":\"close\""),
    }
}

fn add_command(alloc: Global, text: &mut Vec<u8>, command: &Command) -> Result<(), Memory>
    ensures { (more : List ℕ) → OnOk result (text.new.items ++ more
        ≡ text.old.items ++ (said command.now ++ more)) }
{
    match command {
        Command::Enter => add(text, b"\"enter\""),
        Command::Look => add(text, b"\"look\""),
        Command::Write { expect, put } => add_write(alloc, text, expect.as_str(), put.as_str()),
        Command::Depart { port } => {
            add(text, b"\"depart\",\"port\":")?;
            add_number(text, *port)
        }
        Command::Accuse { port } => {
            add(text, b"\"accuse\",\"port\":")?;
            add_number(text, *port)
        }
        Command::Leave => add(text, b"\"leave\""),
        Command::Bad => add(text, b"\"bad\""),
    }
}

fn add_write(alloc: Global, text: &mut Vec<u8>, expect: &str, put: &str) -> Result<(), Memory>
    ensures { (more : List ℕ) → OnOk result (text.new.items ++ more
        ≡ text.old.items ++ (said (Command.Write expect.now put.now) ++ more)) }
{
    add(text, b"\"write\",\"expect\":")?;
    add_text(alloc, text, expect)?;
    add(text, b",\"put\":")?;
    add_text(alloc, text, put)
}

// Adds a reply, or null.
fn add_answer(alloc: Global, text: &mut Vec<u8>, reply: Option<LentReply<'_>>) -> Result<(), Memory>
    ensures { (more : List ℕ) → OnOk result (text.new.items ++ more
        ≡ text.old.items ++ (answered (option_map reply_of reply.entry) ++ more)) }
{
    match reply {
        Some(reply) => push_line(alloc, text, reply),
        None => add(text, b"null"),
    }
}

// Adds a text with its quotes and its escapes.
fn add_text(alloc: Global, text: &mut Vec<u8>, added: &str) -> Result<(), Memory>
    ensures { (more : List ℕ) → OnOk result (text.new.items ++ more
        ≡ text.old.items ++ (quoted_text added.now ++ more)) }
{
    let mut out = Writer::new(replace(text, Vec::new(alloc)));
    let written = out.string(added);
    *text = out.into_inner();
    Ok(written?)
}

fn add_number(text: &mut Vec<u8>, number: u16) -> Result<(), Memory>
    ensures { (more : List ℕ) → OnOk result (text.new.items ++ more
        ≡ text.old.items ++ (decimal number ++ more)) }
{
    let mut digits = Buffer::new();
    add(text, digits.format(number).as_bytes())
}

// Adds bytes as they are.
fn add(text: &mut Vec<u8>, bytes: &[u8]) -> Result<(), Memory>
    ensures { (more : List ℕ) → OnOk result (text.new.items ++ more
        ≡ text.old.items ++ (bytes.now ++ more)) }
{
    Ok(text.extend_from_slice(bytes)?)
}
