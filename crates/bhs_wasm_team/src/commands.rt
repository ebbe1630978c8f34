//! What agents say, and what replies tell them.

ghost use Rattle.std.specs.Prelude.{◌≡◌, ◌-◌, ℕ, nat_le, List, length, IfOk, OnOk, if◌then◌else◌, Some, None};
ghost use Rattle.std.specs.Str.{is_utf8};
ghost use Rattle.json.specs.Print.{escape, escape_byte};
ghost use Rattle.bhs_model.specs.declared.limits.TheConstants.{MAX_LINE};
ghost use Rattle.bhs_schedules.specs.Dialogues.{item_with};
ghost use Rattle.bhs_wasm.specs.States.{state_of};
ghost use Rattle.bhs_wasm_team.specs.Agents as specs;

use bhs_model::{Command, MAX_LINE, Mark, Text};
use bhs_schedules::{Latest, Step};
use bhs_wasm::{HostFunction, Interpreter};
use std::alloc::{AllocError, Global};

// How many bytes the line by which a client writes has beside the texts: its braces, keys and quotation marks.
const WRITE_FRAME: usize = 35;

/// Notes what a reply says.
pub(crate) fn see(
    interpreter: &mut Interpreter,
    latest: Latest,
    shown: &str,
) -> Result<(), AllocError>
    ensures { OnOk result
        (state_of interpreter.new ≡ specs.seen (item_with latest shown.now) (state_of interpreter.old)) }
{
    match latest {
        Latest::Heard(
            Mark::Here {
                ports,
                came,
                board: _,
            },
        ) => {
            interpreter.last_reply.ports = u32::from(ports);
            interpreter.last_reply.came = match came {
                Some(came) => u32::from(came),
                None => u32::MAX,
            };
            interpreter.last_reply.board.clear();
            interpreter
                .last_reply
                .board
                .extend_from_slice(shown.as_bytes())?;
            Ok(())
        }
        Latest::Heard(Mark::Changed { board: _ }) => {
            interpreter.last_reply.board.clear();
            interpreter
                .last_reply
                .board
                .extend_from_slice(shown.as_bytes())?;
            Ok(())
        }
        _ => Ok(()),
    }
}

/// Whether an agent departs by a command.
pub(crate) fn is_depart(function: HostFunction) -> bool
    ensures { result ≡ specs.is_depart function }
{
    match function {
        HostFunction::Depart => true,
        _ => false,
    }
}

/// Returns whether the observation is that the agent has departed.
pub(crate) fn is_gone(latest: Latest) -> bool
    ensures { (shown : List ℕ) → result ≡ specs.is_gone (item_with latest shown) }
{
    match latest {
        Latest::Heard(Mark::Gone) => true,
        _ => false,
    }
}

/// The number that a command returns.
pub(crate) fn number_of(latest: Latest) -> u32
    ensures { (shown : List ℕ) → result ≡ specs.number_by (item_with latest shown) }
{
    match latest {
        Latest::Woke => 0,
        Latest::Heard(
            Mark::Here {
                ports: _,
                came: _,
                board: _,
            },
        ) => 1,
        Latest::Heard(Mark::Written) => 2,
        Latest::Heard(Mark::Changed { board: _ }) => 3,
        Latest::Heard(Mark::Gone) => 4,
        Latest::Heard(Mark::Noted) => 5,
        Latest::Heard(Mark::Bye) => 6,
        Latest::Heard(Mark::Over) => 7,
        Latest::Heard(Mark::No(why)) => u32::MAX - (u32::from(why as u8) - 1),
    }
}

/// Returns the step of an agent that has called a host function. None if the function is no command, the port is out of
/// range, a text is invalid, or the line of a Write exceeds the server's limit.
pub(crate) fn said_by(
    alloc: Global,
    interpreter: &Interpreter,
    function: HostFunction,
) -> Result<Option<Step>, AllocError>
    ensures { IfOk result (λ step. step ≡ specs.said function (state_of interpreter.now)) }
{
    match function {
        HostFunction::Enter => Ok(Some(Step::Says(Command::Enter))),
        HostFunction::Look => Ok(Some(Step::Says(Command::Look))),
        HostFunction::Leave => Ok(Some(Step::Says(Command::Leave))),
        HostFunction::Sleep => Ok(Some(Step::Sleeps)),
        HostFunction::Depart => {
            let port = interpreter.operand(0);
            if port < 65_536 {
                Ok(Some(Step::Says(Command::Depart { port: port as u16 })))
            } else {
                Ok(None)
            }
        }
        HostFunction::Accuse => {
            let port = interpreter.operand(0);
            if port < 65_536 {
                Ok(Some(Step::Says(Command::Accuse { port: port as u16 })))
            } else {
                Ok(None)
            }
        }
        HostFunction::Write => written(alloc, interpreter),
        HostFunction::Ports | HostFunction::Came | HostFunction::Board | HostFunction::Argument =>
            Ok(None),
    }
}

fn written(alloc: Global, interpreter: &Interpreter) -> Result<Option<Step>, AllocError>
    ensures { IfOk result (λ step. step ≡ specs.said HostFunction.Write (state_of interpreter.now)) }
{
    let expect = text_at(
        alloc,
        interpreter,
        interpreter.operand(3),
        interpreter.operand(2),
    )?;
    let put = text_at(
        alloc,
        interpreter,
        interpreter.operand(1),
        interpreter.operand(0),
    )?;
    let (Some(expect), Some(put)) = (expect, put) else {
        return Ok(None);
    };
    if !is_line(expect.as_str(), put.as_str()) {
        return Ok(None);
    }
    Ok(Some(Step::Says(Command::Write { expect, put })))
}

// Whether a server takes the line by which a client writes.
fn is_line(expect: &str, put: &str) -> bool
    ensures { result ≡ nat_le (specs.write_length expect.now put.now) MAX_LINE }
{
    match room_after(MAX_LINE - WRITE_FRAME, expect) {
        Some(room) => room_after(room, put).is_some(),
        None => false,
    }
}

// What is left of this many bytes after a text in a JSON string. None if the text needs more.
fn room_after(room: usize, text: &str) -> Option<usize>
    ensures { result ≡ (if nat_le (length (escape text.now)) room then Some (room - length (escape text.now))
        else None) }
{
    let mut left = room;
    for byte in text.as_bytes() {
        let width = width_of(*byte);
        if width > left {
            return None;
        }
        left -= width;
    }
    Some(left)
}

// How many bytes stand for a byte in a JSON string.
#[tactic(auto, unfolding(json::specs::Print::escape_byte))]
fn width_of(byte: u8) -> usize
    ensures { result ≡ length (escape_byte byte) }
{
    match byte {
        8 | 9 | 10 | 12 | 13 | b'"' | b'\\' => 2,
        0..32 => 6,
        _ => 1,
    }
}

// Returns a text from an instance's memory, or None if it lies outside or is not valid UTF-8.
fn text_at(
    alloc: Global,
    interpreter: &Interpreter,
    at: u32,
    count: u32,
) -> Result<Option<Text>, AllocError>
    ensures { IfOk result (λ text. text ≡ specs.text_in at count (state_of interpreter.now)) }
{
    if count > 65_536 {
        return Ok(None);
    }
    match interpreter.bytes(at, count)? {
        Some(bytes) => text_of(alloc, &bytes),
        None => Ok(None),
    }
}

fn text_of(alloc: Global, bytes: &[u8]) -> Result<Option<Text>, AllocError>
    ensures { IfOk result (λ text. text ≡ (if is_utf8 bytes.now then Some bytes.now else None)) }
{
    match str::from_utf8(bytes) {
        Ok(text) => Ok(Some(Text::new(alloc, text)?)),
        Err(_) => Ok(None),
    }
}
