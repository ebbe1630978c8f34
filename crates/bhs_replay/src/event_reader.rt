ghost use Rattle.std.specs.Prelude.{◌≡◌, ◌&&◌, ℕ, List, Some, bytes_eq, option_map, IfOk};
ghost use Rattle.std.specs.Bool.{OnTrue};
ghost use Rattle.serde_json.specs.View.{view};
ghost use Rattle.bhs_wire.specs.First.{text_at, port_at};
ghost use Rattle.bhs_wire.specs.LentReply.{reply_of};
ghost use Rattle.bhs_replay.specs.Spelling.{spelled, spelled_in, event_in, event_by, agents_by, command_by, answer_in};
ghost use Rattle.bhs_replay.specs.Spelling.{reply_in, ok_by, refusal_in, here_in, changed_in, why_by, write_in};
ghost use Rattle.bhs_replay.specs.Spelling.{may_stand};
ghost use Rattle.bhs_replay.specs.EventLine.{event_line};

use crate::events::{each_event_is_typed, each_reply_is_typed};
use crate::lines::{lent, line_with};
use bhs_model::{Command, Event, Reply, Text, Why};
use bhs_net::Memory;
use bhs_wire::LentReply;
use serde_json::Value;
use std::alloc::Global;

/// An event and its reply, as a line spells them.
pub type Spelled = (Event, Option<Reply>);

/// Returns whether a reply can answer an event; in this case the canonical line spells both.
pub(crate) fn spells(event: &Event, reply: Option<LentReply<'_>>) -> bool
    ensures { (line : List ℕ) → line ≡ event_line event.now (option_map reply_of reply.entry)
        → OnTrue result (spelled line ≡ Some (event.now, option_map reply_of reply.entry)) }
{
    each_event_is_typed(event);
    each_reply_is_typed(reply);
    may_stand(event, reply)
}

/// The event and the reply that a line spells, given without its line feed; None if it is the line of none.
pub fn read_event(alloc: Global, line: &[u8]) -> Result<Option<Spelled>, Memory>
    ensures { IfOk result (λ found. found ≡ spelled line.now) }
{
    match Value::from_slice(alloc, line) {
        Ok(value) => spelled_in(alloc, line, &value),
        Err(error) if error.is_memory() => Err(Memory),
        Err(_) => Ok(None),
    }
}

fn spelled_in(alloc: Global, line: &[u8], value: &Value) -> Result<Option<Spelled>, Memory>
    ensures { IfOk result (λ found. found ≡ spelled_in line.now (view value.now)) }
{
    let Some(event) = event_in(alloc, value)? else {
        return Ok(None);
    };
    let reply = answer_in(alloc, value)?;
    if is_spelled(alloc, line, &event, lent(&reply))? {
        return Ok(Some((event, reply)));
    }
    Ok(None)
}

// Returns whether a line is the canonical line of an event and a reply that can answer it.
fn is_spelled(
    alloc: Global,
    line: &[u8],
    event: &Event,
    reply: Option<LentReply<'_>>,
) -> Result<bool, Memory>
    ensures { IfOk result (λ is. is ≡ (may_stand event.now (option_map reply_of reply.entry)
        && bytes_eq line.now (event_line event.now (option_map reply_of reply.entry)))) }
{
    if !may_stand(event, reply) {
        return Ok(false);
    }
    let text = line_with(alloc, event, reply)?;
    Ok(line == text.as_bytes())
}

fn may_stand(event: &Event, reply: Option<LentReply<'_>>) -> bool
    ensures { result ≡ may_stand event.now (option_map reply_of reply.entry) }
{
    match event {
        Event::Tell { .. } => reply.is_some(),
        Event::Deliver { .. } => true,
        Event::Close => reply.is_none(),
    }
}

fn event_in(alloc: Global, value: &Value) -> Result<Option<Event>, Memory>
    ensures { IfOk result (λ event. event ≡ event_in (view value.now)) }
{
    match text_of(value, "do") {
        Some(word) => event_by(alloc, word, value),
        None => Ok(None),
    }
}

fn event_by(alloc: Global, word: &str, value: &Value) -> Result<Option<Event>, Memory>
    ensures { IfOk result (λ event. event ≡ event_by word.now (view value.now)) }
{
    if word == "close" {
        return Ok(Some(Event::Close));
    }
    match port_of(value, "agent") {
        Some(agent) => agents_by(alloc, word, value, agent),
        None => Ok(None),
    }
}

fn agents_by(alloc: Global, word: &str, value: &Value, agent: u16) -> Result<Option<Event>, Memory>
    ensures { IfOk result (λ event. event ≡ agents_by word.now (view value.now) agent) }
{
    if word == "deliver" {
        return Ok(Some(Event::Deliver { agent }));
    }
    match command_by(alloc, word, value)? {
        Some(command) => Ok(Some(Event::Tell { agent, command })),
        None => Ok(None),
    }
}

fn command_by(alloc: Global, word: &str, value: &Value) -> Result<Option<Command>, Memory>
    ensures { IfOk result (λ command. command ≡ command_by word.now (view value.now)) }
{
    Ok(match word {
        "enter" => Some(Command::Enter),
        "look" => Some(Command::Look),
        "write" => write_in(alloc, value)?,
        "depart" => match port_of(value, "port") {
            Some(port) => Some(Command::Depart { port }),
            None => None,
        },
        "accuse" => match port_of(value, "port") {
            Some(port) => Some(Command::Accuse { port }),
            None => None,
        },
        "leave" => Some(Command::Leave),
        "bad" => Some(Command::Bad),
        _ => None,
    })
}

fn write_in(alloc: Global, value: &Value) -> Result<Option<Command>, Memory>
    ensures { IfOk result (λ command. command ≡ write_in (view value.now)) }
{
    let (Some(expect), Some(put)) = (text_of(value, "expect"), text_of(value, "put")) else {
        return Ok(None);
    };
    Ok(Some(Command::Write {
        expect: copied(alloc, expect)?,
        put: copied(alloc, put)?,
    }))
}

fn answer_in(alloc: Global, value: &Value) -> Result<Option<Reply>, Memory>
    ensures { IfOk result (λ reply. reply ≡ answer_in (view value.now)) }
{
    match value.get("reply") {
        Some(reply) => reply_in(alloc, reply),
        None => Ok(None),
    }
}

/// Returns the reply in an object, or None if the object is no reply. Ignores other keys.
pub fn reply_in(alloc: Global, value: &Value) -> Result<Option<Reply>, Memory>
    ensures { IfOk result (λ reply. reply ≡ reply_in (view value.now)) }
{
    match text_of(value, "ok") {
        Some(word) => ok_by(alloc, word, value),
        None => Ok(refusal_in(value)),
    }
}

fn ok_by(alloc: Global, word: &str, value: &Value) -> Result<Option<Reply>, Memory>
    ensures { IfOk result (λ reply. reply ≡ ok_by word.now (view value.now)) }
{
    Ok(match word {
        "here" => here_in(alloc, value)?,
        "written" => Some(Reply::Written),
        "changed" => changed_in(alloc, value)?,
        "gone" => Some(Reply::Gone),
        "noted" => Some(Reply::Noted),
        "bye" => Some(Reply::Bye),
        "over" => Some(Reply::Over),
        _ => None,
    })
}

fn here_in(alloc: Global, value: &Value) -> Result<Option<Reply>, Memory>
    ensures { IfOk result (λ reply. reply ≡ here_in (view value.now)) }
{
    let (Some(ports), Some(board)) = (port_of(value, "ports"), text_of(value, "board")) else {
        return Ok(None);
    };
    Ok(Some(Reply::Here {
        ports,
        came: port_of(value, "from"),
        board: copied(alloc, board)?,
    }))
}

fn changed_in(alloc: Global, value: &Value) -> Result<Option<Reply>, Memory>
    ensures { IfOk result (λ reply. reply ≡ changed_in (view value.now)) }
{
    match text_of(value, "board") {
        Some(board) => Ok(Some(Reply::Changed {
            board: copied(alloc, board)?,
        })),
        None => Ok(None),
    }
}

fn refusal_in(value: &Value) -> Option<Reply>
    ensures { result ≡ refusal_in (view value.now) }
{
    let why = why_by(text_of(value, "no")?)?;
    Some(Reply::No(why))
}

pub(crate) fn why_by(word: &str) -> Option<Why>
    ensures { result ≡ why_by word.now }
{
    Some(match word {
        "agent" => Why::Agent,
        "outside" => Why::Outside,
        "twice" => Why::Twice,
        "ended" => Why::Ended,
        "spent" => Why::Spent,
        "away" => Why::Away,
        "line" => Why::Line,
        "port" => Why::Port,
        "long" => Why::Long,
        _ => return None,
    })
}

fn copied(alloc: Global, text: &str) -> Result<Text, Memory>
    ensures { IfOk result (λ copy. copy ≡ text.now) }
{
    Ok(Text::new(alloc, text)?)
}

fn text_of<'v>(value: &'v Value, key: &str) -> Option<&'v str>
    ensures { option_map (λ text. text.now) result ≡ text_at key.now (view value.now) }
{
    value.get(key).and_then(Value::as_str)
}

pub(crate) fn port_of(value: &Value, key: &str) -> Option<u16>
    ensures { result ≡ port_at key.now (view value.now) }
{
    let number = value.get(key).and_then(Value::as_u64)?;
    u16::try_from(number).ok()
}
