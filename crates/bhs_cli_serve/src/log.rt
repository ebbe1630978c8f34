//! Lines for the operator. A thread of its own writes them to standard error, so that nothing waits for who reads them.

use crate::log_lines::{timed_line, unread_line};
use bhs_net::Memory;
use std::alloc::Global;
use std::collections::VecDeque;
use std::io::Eprint;
use std::sync::{Condvar, Mutex, Wait};
use std::time::{Clock, Duration};

// How many lines wait at most to be written.
const MOST: usize = 1024;

// How many milliseconds the end waits for lines to be written.
const LEFT: u64 = 1000;

// The lines that wait to be written.
#[derive(Drop)]
struct Waiting {
    lines: VecDeque<String>,
    /// How many lines were dropped since one was taken.
    dropped: u32,
    /// Whether a thread is writing a line.
    is_writing: bool,
    is_over: bool,
}

impl Waiting {
    // Has a text wait, unless too many do or there was no memory: whether it waits.
    fn keeps(&mut self, made: Result<String, Memory>) -> bool {
        let Ok(text) = made else {
            return false;
        };
        if self.lines.len() >= MOST {
            return false;
        }
        self.lines.push_back(text).is_ok()
    }
}

/// Lines for the operator that wait to be written.
#[derive(Drop)]
pub struct Log {
    alloc: Global,
    /// The start of the contest, or None without a readable clock.
    began: Option<Duration>,
    waiting: Mutex<Waiting>,
    changed: Condvar,
}

impl Log {
    /// No lines. The contest begins now.
    pub(crate) fn new<C: Clock>(clock: &C, alloc: Global) -> Result<Log, Memory> {
        Ok(Log {
            alloc,
            began: clock.monotonic().ok(),
            waiting: Mutex::new(Waiting {
                lines: VecDeque::with_capacity(alloc, MOST)?,
                dropped: 0,
                is_writing: false,
                is_over: false,
            }),
            changed: Condvar::new(),
        })
    }

    /// Queues a text with the current time. Drops the text if too many are queued, or if memory ran out for it.
    pub(crate) fn report<R: Wait + Clock>(&self, rt: &R, made: Result<String, Memory>) {
        let made = self.timed(rt, made);
        let mut waiting = self.waiting.lock(rt);
        if !waiting.keeps(made) {
            waiting.dropped = waiting.dropped.saturating_add(1);
        }
        self.changed.notify_all();
    }

    // Returns a text with the current time before it.
    fn timed<C: Clock>(&self, clock: &C, made: Result<String, Memory>) -> Result<String, Memory> {
        let text = made?;
        timed_line(self.alloc, self.seconds(clock), text.as_str())
    }

    // How many seconds ago the contest began.
    fn seconds<C: Clock>(&self, clock: &C) -> u64 {
        match (self.began, clock.monotonic()) {
            (Some(began), Ok(now)) => now.saturating_sub(began).as_secs(),
            _ => 0,
        }
    }

    /// Writes the lines until the log is over.
    pub(crate) fn write_out<R: Wait + Clock + Eprint>(&self, rt: &R) {
        for _ in rt.forever() {
            let Some(text) = self.next(rt) else {
                return;
            };
            let text = text.as_str();
            let _ = eprint!(rt; "{text}");
        }
        unreachable!()
    }

    // Takes the next text to write: a queued line, or the count of dropped lines. Returns None after the log's end.
    fn next<R: Wait + Clock>(&self, rt: &R) -> Option<String> {
        let mut waiting = self.waiting.lock(rt);
        waiting.is_writing = false;
        self.changed.notify_all();
        let mut waiting = self.changed.wait_while(
            rt,
            waiting,
            |waiting| waiting.lines.is_empty() && waiting.dropped == 0 && !waiting.is_over,
        );
        waiting.is_writing = true;
        if let Some(text) = waiting.lines.pop_front() {
            return Some(text);
        }
        if waiting.dropped == 0 {
            return None;
        }
        let dropped = waiting.dropped;
        waiting.dropped = 0;
        // Without memory for this line the log goes on without it.
        match self.timed(rt, unread_line(self.alloc, dropped)) {
            Ok(text) => Some(text),
            Err(_) => Some(String::new(self.alloc)),
        }
    }

    /// Ends the log, once all lines are written or a second has passed.
    pub(crate) fn finish<R: Wait + Clock>(&self, rt: &R) {
        let waiting = self.waiting.lock(rt);
        let mut waiting = self
            .changed
            .wait_timeout_while(
                rt,
                waiting,
                Duration::from_millis(LEFT),
                |waiting| !waiting.lines.is_empty() || waiting.dropped > 0 || waiting.is_writing,
            )
            .0;
        waiting.is_over = true;
        self.changed.notify_all();
    }
}
