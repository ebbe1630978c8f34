//! Standard input, on which an operator may ask for something while a contest goes on, and what standard output is.

ghost use Rattle.std.specs.Prelude.{[]};
ghost use Rattle.bhs_cli_serve.specs.Hearing.{IsHeardIn};

use bhs_cli_results::OutputKind;
use libc::net::{POLLIN, POLLNVAL, poll};
use libc::types::pollfd;
use libc::{STDIN_FILENO, getpgrp, isatty, tcgetpgrp};
use std::io::{ErrorKind, IsTerminal, Read};
use std::thread;
use std::time::Duration;

/// What came of standard input.
#[derive(Clone, Copy, Debug, PartialEq, Eq)]
pub enum ConsoleInput {
    /// Nothing yet.
    Nothing,
    /// This many bytes.
    Bytes(usize),
    /// It has ended.
    End,
}

/// The standard input and output of a machine. A thread that outlives its caller can have a copy.
pub trait Console {
    /// Returns whether standard input is open. Must be called before any file is opened, since a file could get the
    /// descriptor of a closed standard input.
    fn has_input(&self) -> bool;

    /// Waits for standard input for at most this many milliseconds, and takes what came into `room`.
    fn hear(&self, room: &mut [u8], longest: u16) -> ConsoleInput
        ensures { IsHeardIn room.new result };

    /// What standard output is.
    fn output_kind(&self) -> OutputKind;
}

impl Console for HostRuntime {
    fn has_input(&self) -> bool {
        let mut asked = [asked_of_input()];
        poll(&mut asked, 0) >= 0 && asked[0].revents & POLLNVAL == 0
    }

    fn hear(&self, room: &mut [u8], longest: u16) -> ConsoleInput {
        let mut asked = [asked_of_input()];
        if poll(&mut asked, i32::from(longest)) <= 0 {
            return ConsoleInput::Nothing;
        }
        if is_for_others() {
            thread::sleep(self, Duration::from_millis(u64::from(longest)));
            return ConsoleInput::Nothing;
        }
        match self.stdin().read(room) {
            Ok(0) => ConsoleInput::End,
            Ok(count) => ConsoleInput::Bytes(count),
            Err(error) => after(error.kind()),
        }
    }

    fn output_kind(&self) -> OutputKind {
        if self.stdout().is_terminal() {
            OutputKind::Terminal
        } else {
            OutputKind::Plain
        }
    }
}

// What came of standard input where a read failed.
fn after(kind: ErrorKind) -> ConsoleInput
    ensures { IsHeardIn [] result }
{
    match kind {
        ErrorKind::WouldBlock | ErrorKind::Interrupted => ConsoleInput::Nothing,
        _ => ConsoleInput::End,
    }
}

fn asked_of_input() -> pollfd {
    pollfd {
        fd: STDIN_FILENO,
        events: POLLIN,
        revents: 0,
    }
}

// Whether standard input is a terminal that other programs of the operator read. Who reads there in the background is
// stopped by the system.
fn is_for_others() -> bool {
    if isatty(STDIN_FILENO) != 1 {
        return false;
    }
    let reader = tcgetpgrp(STDIN_FILENO);
    reader != -1 && reader != getpgrp()
}
