//! A connection to a server, line by line.

ghost use Rattle.std.specs.Prelude.{◌≡◌, ◌++◌, false, string_bytes, IfOk, IfSome, None};
ghost use Rattle.std.specs.List.{list_any};
ghost use Rattle.bhs_wire.specs.Lines.{is_line_feed};
ghost use Rattle.bhs_player.specs.Wires.{IsCut, IsHeard, IsSaid, IsUnheard, ended};

use crate::rejections::{Rejection, rejection_of};
use bhs_client::{Lost, ServerConnection};
use bhs_stream::{BUFFER, Input, Output, finish, send};
use bhs_wire::split_line;
use std::thread;
use std::time::Duration;

// The milliseconds that an agent sleeps at first. It sleeps twice as long each time that it wakes in a row.
const FIRST_SLEEP: u64 = 1_000;

// The most milliseconds that an agent sleeps.
const LONGEST_SLEEP: u64 = 8_000;

// By how many reads a line comes, at most.
const MOST_READS: u32 = 16_777_216;

/// Where lines come from and go to. What was read behind the last line is held.
#[derive(Drop)]
pub struct Wire<'r, R, W> {
    pub rt: &'r HostRuntime,
    pub reader: R,
    pub held: Vec<u8>,
    pub writer: W,
    /// Why the server has turned the agent away, if the last line says so.
    pub rejection: Option<Rejection>,
}

impl<R: Input + Drop, W: Output + Drop> Wire<'_, R, W> {
    // The first line of what is held, if it is whole. It is held no more.
    fn held_line(&mut self) -> Result<Option<String>, Lost>
        ensures same { (self.new.reader ≡ self.old.reader) × (self.new.writer ≡ self.old.writer) }
        ensures line { IfOk result (λ found. IfSome found (λ line.
            (self.old.held.items ≡ ended (string_bytes line) ++ self.new.held.items)
            × (list_any is_line_feed (string_bytes line) ≡ false))) }
        ensures none { IfOk result (λ found. found ≡ None → self.new.held ≡ self.old.held) }
    {
        let alloc = self.rt.alloc();
        let Some((text, rest)) = split_line(&self.held) else {
            return Ok(None);
        };
        let Ok(text) = str::from_utf8(text) else {
            return Err(Lost);
        };
        let line = String::from_str(alloc, text).map_err(|_| Lost)?;
        let rest = Vec::from_slice(alloc, rest).map_err(|_| Lost)?;
        self.held = rest;
        Ok(Some(line))
    }
}

impl<R: Input + Drop, W: Output + Drop> ServerConnection for Wire<'_, R, W> {
    ghost says = { IsSaid W.takes W.flushes };

    ghost hears = { IsHeard R.gives };

    ghost cuts = { IsCut W.takes W.flushes };

    ghost loses = { IsUnheard };

    fn say(&mut self, line: &str) -> Result<(), Lost> {
        let Ok(text) = format!(in self.rt.alloc(); "{line}\n") else {
            return Err(Lost);
        };
        send(&mut self.writer, text.as_bytes()).map_err(|_| Lost)?;
        finish(&mut self.writer).map_err(|_| Lost)
    }

    fn hear(&mut self) -> Result<String, Lost> {
        let mut buffer = [0u8; BUFFER];
        for _ in 0..MOST_READS {
            if let Some(line) = self.held_line()? {
                self.rejection = rejection_of(line.as_str());
                return Ok(line);
            }
            let Ok(count) = self.reader.read_some(&mut buffer) else {
                return Err(Lost);
            };
            if count == 0 || self.held.extend_from_slice(&buffer[..count]).is_err() {
                return Err(Lost);
            }
        }
        Err(Lost)
    }

    fn sleep(&self, in_a_row: u64) {
        thread::sleep(self.rt, Duration::from_millis(sleep_after(in_a_row)));
    }

    fn report_sleep(&self, in_a_row: u64) {
        let _ = eprintln!(self.rt;
            "bhs_player: the agent has woken {in_a_row} times in a row and read nothing new. It \
            sleeps until its match is over. --spurious-wakeups lets it wake more often; explore it with the same number"
        );
    }
}

// The milliseconds that an agent sleeps which has woken this often in a row.
fn sleep_after(in_a_row: u64) -> u64 {
    match in_a_row {
        0 => FIRST_SLEEP,
        1 => 2 * FIRST_SLEEP,
        2 => 4 * FIRST_SLEEP,
        _ => LONGEST_SLEEP,
    }
}
