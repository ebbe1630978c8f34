//! Serving one client to its end.

ghost use Rattle.bhs_session.specs.Phase.{Finished, phase_of};
ghost use Rattle.bhs_session.specs.Session.{Serves};

use crate::endings::{Ended, Stop};
use crate::last_line::LastLine;
use crate::lines::take_lines;
use crate::port::Port;
use crate::reader::{PIECE, read_lines};
use bhs_model::Command;
use bhs_stream::{Input, Output};
use bhs_wire::{LineReader, Lines};
use std::alloc::Global;

/// Serves one client to its end, by at most `turns` reads: takes its lines one by one, tells them to the port,
/// and writes what the port answers.
///
/// The first line must be an enter with a key that the port lets in; else the client is written why it is
/// denied. Where the answer to a line is Gone, news are asked for and written before the next line is taken.
/// It reads only when no whole line is left. Bye, Noted and Over are written and end the session; where
/// anything else ends it and its agent has entered, the agent is told to leave, once and last, and what that
/// answers is not written. A line is written by as many writes as it takes.
///
/// `ReadFault` comes only after a read that failed, `WriteFault` only after a write that failed or took nothing,
/// `InputEnded` only after a read that gave nothing, and `Turns` only if one more read was needed.
pub fn serve<R: Input, W: Output, P: Port>(
    alloc: Global,
    reader: &mut R,
    writer: &mut W,
    port: &mut P,
    turns: u32,
) -> Ended
    ensures { Serves R.gives W.takes P.calls reader.old reader.new
        writer.old writer.new port.old port.new turns (Finished result) }
{
    match take_all_lines(alloc, reader, writer, port, turns) {
        Stop::Finished(ended) => ended,
        Stop::Leaves(ended) => {
            let _ = port.tell(Command::Leave);
            ended
        }
    }
}

// Takes lines until the session stops.
fn take_all_lines<R: Input, W: Output, P: Port>(
    alloc: Global,
    reader: &mut R,
    writer: &mut W,
    port: &mut P,
    turns: u32,
) -> Stop
    ensures { Serves R.gives W.takes P.calls reader.old reader.new
        writer.old writer.new port.old port.new turns (phase_of result) }
{
    let mut lines = Lines::new(alloc);
    let mut line_reader = LineReader::new(alloc);
    let mut last = LastLine::new(alloc);
    let mut buffer = [0u8; PIECE];
    let mut has_entered = false;
    for _ in 0..turns {
        let found = match read_lines(reader, &mut lines, &mut buffer) {
            Ok(found) => found,
            Err(cause) => return Stop::between_lines(has_entered, cause),
        };
        match take_lines(
            &mut last,
            &mut line_reader,
            writer,
            port,
            has_entered,
            &found,
        ) {
            Ok(entered) => has_entered = entered,
            Err(stop) => return stop,
        }
    }
    Stop::between_lines(has_entered, Ended::Turns)
}
