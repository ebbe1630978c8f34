//! Writing a replay.

ghost use Rattle.std.specs.Prelude.{ℕ, List, ◌≡◌, ◌∷◌, ◌++◌, [], length, string_bytes, IfOk, IfErr, IsOk, OnOk};
ghost use Rattle.bhs_stream.specs.Sending.{PutsAll};
ghost use Rattle.bhs_model.specs.Marks.{events_of, read_if};
ghost use Rattle.bhs_replay.specs.EventLine.{event_line};
ghost use Rattle.bhs_replay.specs.Played.{IsTyped};
ghost use Rattle.bhs_replay.specs.Replay.{end_line, replay_of, replay_of_part};
ghost use Rattle.bhs_replay.specs.Stages.{Ends, Comes};
ghost use Rattle.bhs_replay.specs.Writing.{Breaks};

use crate::faults::WritingFault;
use crate::heads::head_of;
use crate::lines::add_line_in;
use bhs_match::{Match, Sealed};
use bhs_model::Kept;
use bhs_net::Memory;
use bhs_stream::{Output, WriteFault, send};
use json::Writer;
use std::alloc::Global;

/// Writes the replay of a match, line by line. It takes the memory of one line.
pub fn write_replay<W: Output>(
    alloc: Global,
    sealed: &Sealed,
    writer: &mut W,
) -> Result<(), WritingFault>
    ensures ok { OnOk result (PutsAll W.takes writer.old (replay_of sealed.now) writer.new) }
    ensures err { IfErr result (λ fault. Breaks W.takes writer.old (replay_of sealed.now) fault writer.new) }

    // What was written is read as this match.
    ensures read { OnOk result (Comes (replay_of sealed.now)
        (Ends sealed.now.net sealed.now.setup (events_of sealed.now.log))) }
{
    let log = sealed.log();
    send_line(head_of(alloc, sealed.net(), sealed.setup()), writer)?;
    let mut line = Vec::new(alloc);
    for one in log {
        send_event(alloc, &mut line, sealed, one, writer)?;
    }
    send_line(end_line(alloc, log.len()), writer)
}

/// Writes the replay of a match that begins so, in which the events at these places of another match happened, each
/// with the reply that it had there. It takes the memory of one line.
pub fn write_part<W: Output>(
    alloc: Global,
    start: &Match,
    sealed: &Sealed,
    places: &[bool],
    writer: &mut W,
) -> Result<(), WritingFault>
    requires { length places.now ≡ length sealed.now.log }
    ensures ok { OnOk result (PutsAll W.takes writer.old
        (replay_of_part start.now.net start.now.setup sealed.now.log places.now) writer.new) }
    ensures err { IfErr result (λ fault. Breaks W.takes writer.old
        (replay_of_part start.now.net start.now.setup sealed.now.log places.now) fault writer.new) }
{
    let log = sealed.log();
    send_line(head_of(alloc, start.net(), start.setup()), writer)?;
    let mut line = Vec::new(alloc);
    let mut count: usize = 0;
    for place in 0..log.len() {
        if places[place] {
            send_event(alloc, &mut line, sealed, &log[place], writer)?;
            count += 1;
        }
    }
    send_line(end_line(alloc, count), writer)
}

// The end line, without its line feed.
pub(crate) fn end_line(alloc: Global, count: usize) -> Result<String, Memory>
    ensures { IfOk result (λ text. string_bytes text ≡ end_line count) }
{
    let mut out = Writer::new(Vec::new(alloc));
    out.begin_object()?;
    out.key("end")?;
    out.u64(count as u64)?;
    out.end_object()?;
    Ok(String::from_utf8(out.into_inner()).unwrap())
}

// Sends the line of an event of the log, with its line feed. The line is put together in the place of the last one.
fn send_event<W: Output>(
    alloc: Global,
    line: &mut Vec<u8>,
    sealed: &Sealed,
    one: &Kept,
    writer: &mut W,
) -> Result<(), WritingFault>
    ensures ok { OnOk result (PutsAll W.takes writer.old
        (event_line one.now.event (read_if sealed.now.log one.now.mark) ++ 10 ∷ []) writer.new) }
    ensures err { IfErr result (λ fault. Breaks W.takes writer.old
        (event_line one.now.event (read_if sealed.now.log one.now.mark) ++ 10 ∷ []) fault writer.new) }
    ensures typed { IsTyped one.now.event }
{
    line.clear();
    if add_line_in(alloc, line, sealed, one).is_err() || line.push(b'\n').is_err() {
        return Err(WritingFault::Memory);
    }
    match send(writer, line) {
        Ok(()) => Ok(()),
        Err(WriteFault) => Err(WritingFault::Write),
    }
}

// Sends a line, with its line feed, if there was memory to make it.
fn send_line<W: Output>(made: Result<String, Memory>, writer: &mut W) -> Result<(), WritingFault>
    ensures ok { (line : List ℕ) → IfOk made (λ text. string_bytes text ≡ line)
        → OnOk result (PutsAll W.takes writer.old (line ++ 10 ∷ []) writer.new) }
    ensures err { (line : List ℕ) → IfOk made (λ text. string_bytes text ≡ line)
        → IfErr result (λ fault. Breaks W.takes writer.old (line ++ 10 ∷ []) fault writer.new) }
    ensures made { OnOk result (IsOk made) }
{
    let Ok(mut text) = made else {
        return Err(WritingFault::Memory);
    };
    if text.push('\n').is_err() {
        return Err(WritingFault::Memory);
    }
    match send(writer, text.as_bytes()) {
        Ok(()) => Ok(()),
        Err(WriteFault) => Err(WritingFault::Write),
    }
}
