//! What the program needs of the machine.

use crate::console::Console;
use crate::locked_files::Keep;
use std::io::Eprint;
use std::rt::Files;
use std::sync::Wait;
use std::thread::Threads;
use std::time::Clock;

/// The parts of the machine that the program uses, besides sockets: files, threads, a clock, a stream for faults, and
/// the operator's input. A thread that outlives its caller can have a copy. Sockets are a separate bound, since the
/// checker does not see through associated types of a supertrait.
pub trait Machine: Files
    + Threads
    + Wait
    + Clock
    + Eprint
    + Keep
    + Console
    + Copy
    + Send
    + Sync
    + 'static {}

impl<
    R: Files + Threads + Wait + Clock + Eprint + Keep + Console + Copy + Send + Sync + 'static,
> Machine for R {}
