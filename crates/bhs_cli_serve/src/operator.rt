//! The operator of a contest, who closes matches and asks how they stand, by lines on standard input. A thread of its
//! own hears them, and nothing waits for it.

use crate::console::{Console, ConsoleInput};
use crate::log::Log;
use crate::log_lines::{all_closing_line, closing_line};
use crate::requests::{OperatorRequest, asked_in};
use bhs_contest::Progress;
use bhs_net::Memory;
use std::alloc::Global;
use std::sync::{Mutex, Wait};
use std::thread;
use std::time::{Clock, Duration};

// How many bytes of a line are kept. A line that asks for something is shorter.
const LINE: usize = 64;

// How many bytes are taken at once, and how many milliseconds nothing is taken after that: a flood of lines holds
// nothing up.
const ROOM: usize = 1024;

const REST: u64 = 10;

// How many milliseconds one wait for standard input takes at most.
const EVERY: u16 = 500;

/// What the operator asked for that is still to be reported.
#[derive(Clone, Copy)]
pub(crate) struct Asks {
    /// Whether the operator has asked for a status report.
    pub(crate) status: bool,
    /// How many lines asked for nothing.
    pub(crate) unknown: u32,
}

const NOTHING: Asks = Asks {
    status: false,
    unknown: 0,
};

/// The operator of a contest.
#[derive(Drop)]
pub(crate) struct Operator {
    matches: usize,
    progress: Progress,
    asks: Mutex<Asks>,
}

impl Operator {
    /// Of this number of matches. Nothing is asked for yet.
    pub(crate) fn new(alloc: Global, matches: usize) -> Result<Operator, Memory> {
        Ok(Operator {
            matches,
            progress: Progress::new(alloc, matches)?,
            asks: Mutex::new(NOTHING),
        })
    }

    /// Returns the progress of the matches, including their closes.
    pub(crate) fn progress(&self) -> &Progress {
        &self.progress
    }

    /// Returns the operator's requests since the previous call.
    pub(crate) fn take_asks<R: Wait>(&self, rt: &R) -> Asks {
        let mut asks = self.asks.lock(rt);
        let taken = *asks;
        *asks = NOTHING;
        taken
    }

    /// Does what the lines of standard input ask for, until it ends. Its end asks for nothing, nor does what stands
    /// behind the last line feed.
    pub(crate) fn listen<R: Console + Wait + Clock>(&self, rt: &R, alloc: Global, log: &Log) {
        let Ok(mut line) = Vec::with_capacity(alloc, LINE) else {
            return;
        };
        let mut room = [0; ROOM];
        for _ in rt.forever() {
            match rt.hear(&mut room, EVERY) {
                ConsoleInput::End => return,
                ConsoleInput::Nothing => {}
                ConsoleInput::Bytes(count) => {
                    for byte in &room[..count] {
                        self.take(rt, alloc, log, &mut line, *byte);
                    }
                    thread::sleep(rt, Duration::from_millis(REST));
                }
            }
        }
        unreachable!()
    }

    // Takes a byte of a line. A line feed ends the line.
    fn take<R: Wait + Clock>(
        &self,
        rt: &R,
        alloc: Global,
        log: &Log,
        line: &mut Vec<u8>,
        byte: u8,
    ) {
        if byte == b'\n' {
            self.obey(rt, alloc, log, line);
            line.clear();
        } else if line.len() < LINE {
            let _ = line.push(byte);
        }
    }

    // Carries out the request of a line. An empty line is no request and no mistake.
    fn obey<R: Wait + Clock>(&self, rt: &R, alloc: Global, log: &Log, line: &[u8]) {
        if line.is_empty() {
            return;
        }
        match asked_in(self.matches, line) {
            Some(OperatorRequest::CloseAll) => {
                if self.progress.call_all_off(rt) {
                    log.report(rt, all_closing_line(alloc));
                }
            }
            Some(OperatorRequest::Close(game)) => {
                if self.progress.call_off(rt, game) {
                    log.report(rt, closing_line(alloc, game));
                }
            }
            Some(OperatorRequest::Status) => self.asks.lock(rt).status = true,
            None => {
                let mut asks = self.asks.lock(rt);
                asks.unknown = asks.unknown.saturating_add(1);
            }
        }
    }
}
