//! Writing replies to a client.

ghost use Rattle.std.specs.Prelude.{◌≡◌, ℕ, List, Bool, OnOk, OnErr, IfErr, ◌++◌};
ghost use Rattle.bhs_stream.specs.Sending.{PutsAll, PutsPart};
ghost use Rattle.bhs_wire.specs.LentReply.{reply_of};
ghost use Rattle.bhs_session.specs.Phase.{answered_by, waiting, reached, Sends, Owes, Finished, phase_of};
ghost use Rattle.bhs_session.specs.Texts.{text_of, denial_text};
ghost use Rattle.bhs_session.specs.Moves.{StopsAtLines};
ghost use Rattle.bhs_session.specs.Sent.{SentBut};

use crate::endings::{Ended, Stop, ending_of};
use crate::last_line::LastLine;
use bhs_model::Reply;
use bhs_net::Memory;
use bhs_stream::{Output, WriteFault, send};
use bhs_wire::{Denial, LentReply, denial_of, push_line};
use std::alloc::Global;

// The bytes that the line of a reply takes at most besides its whiteboard.
const ROOM: usize = 128;

// Writes the line of an answer. It stops the session if the answer ends it, or a fault does.
pub(crate) fn write_reply<W: Output>(
    last: &mut LastLine,
    writer: &mut W,
    reply: Reply,
) -> Result<(), Stop>
    ensures sends { (waits : Bool) → (more : List ℕ)
        × Sends W.takes writer.old (Owes (text_of reply) (answered_by waits reply)) more writer.new
        (reached (waiting waits reply) result) }
    ensures cause { IfErr result StopsAtLines }
{
    let ended = ending_of(LentReply::of_reply(&reply));
    match (send_reply(last, writer, reply), ended) {
        (Ok(()), None) => Ok(()),
        (Ok(()), Some(ended)) => Err(Stop::Finished(ended)),
        (Err(cause), None) => Err(Stop::Leaves(cause)),
        (Err(cause), Some(_)) => Err(Stop::Finished(cause)),
    }
}

#[inline(always)]
fn send_reply<W: Output>(last: &mut LastLine, writer: &mut W, reply: Reply) -> Result<(), Ended>
    ensures ok { OnOk result (PutsAll W.takes writer.old (text_of reply) writer.new) }
    ensures err { IfErr result (λ cause. SentBut W.takes cause writer.old (text_of reply) writer.new) }
{
    if last.put(reply).is_err() {
        return Err(Ended::Memory);
    }
    match send(writer, last.line()) {
        Ok(()) => Ok(()),
        Err(WriteFault) => Err(Ended::WriteFault),
    }
}

/// Appends a reply's line with its line feed. An `Err` may leave a partial line.
#[inline(always)]
pub fn push_reply(alloc: Global, reply: LentReply<'_>, text: &mut Vec<u8>) -> Result<(), Memory>
    ensures sent { OnOk result (text.new.items ≡ text.old.items ++ text_of (reply_of reply.entry)) }
    ensures front { (more : List ℕ) × (text.new.items ≡ text.old.items ++ more) }
{
    text.reserve(room_of(reply))?;
    push_line(alloc, text, reply)?;
    Ok(text.push(b'\n')?)
}

// How many bytes the line of a reply takes, unless its whiteboard has characters that JSON escapes.
fn room_of(reply: LentReply<'_>) -> usize {
    match reply {
        LentReply::Here { board, .. } | LentReply::Changed { board } => ROOM.saturating_add(
            board.len(),
        ),
        _ => ROOM,
    }
}

// Writes the line that tells a client why it is not let in.
pub(crate) fn write_denial<W: Output>(writer: &mut W, denial: Denial) -> Stop
    ensures sends { (more : List ℕ)
        × Sends W.takes writer.old (Owes (denial_text denial)
        (Finished Ended.Denied)) more writer.new (phase_of result) }
    ensures cause { StopsAtLines result }
{
    match send_denial(writer, denial) {
        Ok(()) => Stop::Finished(Ended::Denied),
        Err(WriteFault) => Stop::Finished(Ended::WriteFault),
    }
}

fn send_denial<W: Output>(writer: &mut W, denial: Denial) -> Result<(), WriteFault>
    ensures ok { OnOk result (PutsAll W.takes writer.old (denial_text denial) writer.new) }
    ensures err { OnErr result (PutsPart W.takes writer.old (denial_text denial) writer.new) }
{
    send(writer, denial_of(denial).as_bytes())?;
    send(writer, b"\n")
}

/// Appends the rejection line for a client, with its line feed. An `Err` may leave a partial line.
pub fn push_denial(denial: Denial, text: &mut Vec<u8>) -> Result<(), Memory>
    ensures sent { OnOk result (text.new.items ≡ text.old.items ++ denial_text denial) }
    ensures front { (more : List ℕ) × (text.new.items ≡ text.old.items ++ more) }
{
    text.extend_from_slice(denial_of(denial).as_bytes())?;
    Ok(text.push(b'\n')?)
}
