//! The event and the reply of a line that is written as event lines are, read part by part.
//!
//! Fast recognition of lines. A recognised line means exactly what this module returns; a line that it does not
//! recognise may still be an event's line, for example one whose texts have escapes.

ghost use Rattle.std.specs.Prelude.{◌≡◌, ◌++◌, codes, option_map, IfOk, IfSome, Option};
ghost use Rattle.bhs_model.specs.declared.commands.Command.TheVariants.{Write};
ghost use Rattle.bhs_model.specs.declared.replies.Reply.{Reply as ReplyData};
ghost use Rattle.bhs_wire.specs.LentReply.{reply_of};
ghost use Rattle.bhs_wire.specs.Reply.{label, line as reply_line};
ghost use Rattle.bhs_replay.specs.EventLine.{answered, event_line, reply_part, said};
ghost use Rattle.bhs_replay.specs.Sights.{command_of, event_of};

use crate::beginnings::{after, seen_number, seen_text};
use crate::event_reader::why_by;
use bhs_model::{Command, Event, Text};
use bhs_net::Memory;
use bhs_wire::LentReply;
use std::alloc::Global;

/// A command whose texts are lent.
#[derive(Clone, Copy)]
pub(crate) enum LentCommand<'l> {
    Enter,
    Look,
    Write { expect: &'l str, put: &'l str },
    Depart { port: u16 },
    Accuse { port: u16 },
    Leave,
    Bad,
}

/// An event whose texts are lent.
#[derive(Clone, Copy)]
pub(crate) enum LentEvent<'l> {
    Tell {
        agent: u16,
        command: LentCommand<'l>,
    },
    Deliver {
        agent: u16,
    },
    Close,
}

impl LentEvent<'_> {
    /// The event with texts of its own.
    pub(crate) fn owned(self, alloc: Global) -> Result<Event, Memory>
        ensures { IfOk result (λ event. event ≡ event_of self.entry) }
    {
        Ok(match self {
            LentEvent::Tell { agent, command } => Event::Tell {
                agent,
                command: command.owned(alloc)?,
            },
            LentEvent::Deliver { agent } => Event::Deliver { agent },
            LentEvent::Close => Event::Close,
        })
    }
}

impl LentCommand<'_> {
    fn owned(self, alloc: Global) -> Result<Command, Memory>
        ensures { IfOk result (λ command. command ≡ command_of self.entry) }
    {
        Ok(match self {
            LentCommand::Enter => Command::Enter,
            LentCommand::Look => Command::Look,
            LentCommand::Write { expect, put } => Command::Write {
                expect: Text::new(alloc, expect)?,
                put: Text::new(alloc, put)?,
            },
            LentCommand::Depart { port } => Command::Depart { port },
            LentCommand::Accuse { port } => Command::Accuse { port },
            LentCommand::Leave => Command::Leave,
            LentCommand::Bad => Command::Bad,
        })
    }
}

/// The event and the reply of a line, given without its line feed.
pub(crate) fn seen(line: &[u8]) -> Option<(LentEvent<'_>, Option<LentReply<'_>>)>
    ensures { IfSome result (λ seen. line.now ≡ event_line (event_of seen.0) (option_map reply_of seen.1)) }
{
    let (event, rest) = seen_event(line)?;
    let rest = after(rest, b",\"reply\":")?;
    let (reply, rest) = seen_answer(rest)?;
    if rest == b"}".as_slice() {
        Some((event, reply))
    } else {
        None
    }
}

// Recognises an event; returns the bytes after it.
fn seen_event(line: &[u8]) -> Option<(LentEvent<'_>, &[u8])>
    ensures { (reply : Option ReplyData) → IfSome result (λ seen. seen.1.now ≡ reply_part reply
        → line.now ≡ event_line (event_of seen.0) reply) }
{
    let Some(line) = after(line, b"{\"agent\":") else {
        let rest = after(line, b"{\"do\":\"close\"")?;
        return Some((LentEvent::Close, rest));
    };
    let (agent, line) = seen_number(line)?;
    if let Some(rest) = after(line, b",\"do\":\"deliver\"") {
        return Some((LentEvent::Deliver { agent }, rest));
    }
    let (command, rest) = seen_command(after(line, b",\"do\":")?)?;
    Some((LentEvent::Tell { agent, command }, rest))
}

// Recognises a command; returns the bytes after it.
fn seen_command(line: &[u8]) -> Option<(LentCommand<'_>, &[u8])>
    ensures { IfSome result (λ seen. line.now ≡ said (command_of seen.0) ++ seen.1.now) }
{
    if let Some(rest) = after(line, b"\"depart\",\"port\":") {
        let (port, rest) = seen_number(rest)?;
        return Some((LentCommand::Depart { port }, rest));
    }
    if let Some(rest) = after(line, b"\"look\"") {
        return Some((LentCommand::Look, rest));
    }
    if let Some(rest) = after(line, b"\"write\",\"expect\":") {
        return seen_write(rest);
    }
    if let Some(rest) = after(line, b"\"accuse\",\"port\":") {
        let (port, rest) = seen_number(rest)?;
        return Some((LentCommand::Accuse { port }, rest));
    }
    if let Some(rest) = after(line, b"\"enter\"") {
        return Some((LentCommand::Enter, rest));
    }
    if let Some(rest) = after(line, b"\"leave\"") {
        return Some((LentCommand::Leave, rest));
    }
    let rest = after(line, b"\"bad\"")?;
    Some((LentCommand::Bad, rest))
}

// Recognises a Write from its first text on; returns the bytes after it.
fn seen_write(line: &[u8]) -> Option<(LentCommand<'_>, &[u8])>
    ensures { IfSome result (λ seen. codes "\"write\",\"expect\":" ++ line.now
        ≡ said (command_of seen.0) ++ seen.1.now) }
{
    let (expect, line) = seen_text(line)?;
    let line = after(line, b",\"put\":")?;
    let (put, rest) = seen_text(line)?;
    Some((LentCommand::Write { expect, put }, rest))
}

// Recognises a reply or null; returns the bytes after it.
fn seen_answer(line: &[u8]) -> Option<(Option<LentReply<'_>>, &[u8])>
    ensures { IfSome result (λ seen. line.now ≡ answered (option_map reply_of seen.0) ++ seen.1.now) }
{
    if let Some(rest) = after(line, b"null") {
        return Some((None, rest));
    }
    let (reply, rest) = seen_reply(line)?;
    Some((Some(reply), rest))
}

// Recognises a reply; returns the bytes after it.
fn seen_reply(line: &[u8]) -> Option<(LentReply<'_>, &[u8])>
    ensures { IfSome result (λ seen. line.now ≡ reply_line (reply_of seen.0) ++ seen.1.now) }
{
    if let Some(rest) = after(line, b"{\"board\":") {
        return seen_board(rest);
    }
    if let Some(rest) = after(line, b"{\"ok\":\"gone\"}") {
        return Some((LentReply::Gone, rest));
    }
    if let Some(rest) = after(line, b"{\"ok\":\"written\"}") {
        return Some((LentReply::Written, rest));
    }
    if let Some(rest) = after(line, b"{\"ok\":\"noted\"}") {
        return Some((LentReply::Noted, rest));
    }
    if let Some(rest) = after(line, b"{\"ok\":\"bye\"}") {
        return Some((LentReply::Bye, rest));
    }
    if let Some(rest) = after(line, b"{\"ok\":\"over\"}") {
        return Some((LentReply::Over, rest));
    }
    seen_refusal(line)
}

// Recognises a reply with a whiteboard, from the text on; returns the bytes after it.
fn seen_board(line: &[u8]) -> Option<(LentReply<'_>, &[u8])>
    ensures { IfSome result (λ seen. codes "{\"board\":" ++ line.now
        ≡ reply_line (reply_of seen.0) ++ seen.1.now) }
{
    let (board, line) = seen_text(line)?;
    let Some(line) = after(line, b",\"from\":") else {
        let rest = after(line, b",\"ok\":\"changed\"}")?;
        return Some((LentReply::Changed { board }, rest));
    };
    let (came, line) = seen_label(line)?;
    let line = after(line, b",\"ok\":\"here\",\"ports\":")?;
    let (ports, line) = seen_number(line)?;
    let rest = after(line, b"}")?;
    Some((LentReply::Here { ports, came, board }, rest))
}

// Recognises a refusal; returns the bytes after it.
fn seen_refusal(line: &[u8]) -> Option<(LentReply<'_>, &[u8])>
    ensures { IfSome result (λ seen. line.now ≡ reply_line (reply_of seen.0) ++ seen.1.now) }
{
    let line = after(line, b"{\"no\":")?;
    let (word, line) = seen_text(line)?;
    let why = why_by(word)?;
    let rest = after(line, b"}")?;
    Some((LentReply::No(why), rest))
}

// Recognises a link's label or null; returns the bytes after it.
fn seen_label(line: &[u8]) -> Option<(Option<u16>, &[u8])>
    ensures { IfSome result (λ seen. line.now ≡ label seen.0 ++ seen.1.now) }
{
    if let Some(rest) = after(line, b"null") {
        return Some((None, rest));
    }
    let (port, rest) = seen_number(line)?;
    Some((Some(port), rest))
}
