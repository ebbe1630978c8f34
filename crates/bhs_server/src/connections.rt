//! The connection of a client. What the client is to be sent is held back while lines of it are still to be answered,
//! and goes out before its session waits for the client or for an arrival: one call of the system for many lines.

ghost use Rattle.std.specs.Prelude.{IfOk};
ghost use Rattle.std.specs.Counts.{IsPrefixLen};

use crate::contest_end::Ending;
use crate::rejections::{Rejection, reject};
use crate::strays::Strays;
use crate::watch::Watch;
use bhs_net::Memory;
use bhs_wire::{Denial, Raw, denial_of};
use std::alloc::Global;
use std::cell::{Cell, RefCell};
use std::io::{BufReader, Read, Write};
use std::net::TcpStream;
use std::sync::{Arc, Wait};
use std::time::{Clock, Duration};
use std::{io, thread};

// How many bytes are held back at most.
const ROOM: usize = 64 * 1024;

// How many milliseconds a session pauses after each command that was not heard. Such commands use up no quota and are
// answered under the match's lock, so without a pause a client that sends nothing else would slow others in its match.
const UNHEARD_PAUSE: u64 = 1;

// How many bytes are taken from a client at once at most.
const TAKEN: usize = 4 * 1024;

// How many bytes are taken from a client at most until its agent enters: the longest line and some blank lines.
const FIRST: usize = 128 * 1024;

/// Hooks that a session calls while it runs.
pub trait SessionHooks {
    /// The session was let in as this agent of a match. Its Enter has not been played yet.
    fn let_in(&self, game: u32, agent: u16);

    /// A line of the client was no command.
    fn no_command(&self, line: &Raw<'_>);

    /// A command of the agent was answered, and nothing is written to the client yet. A command that was not heard has
    /// used up no quota.
    fn answered(&self, is_heard: bool);

    /// Called before the session waits for an arrival, so that buffered output reaches the client.
    fn before_waiting(&self);
}

/// A TCP connection, whose session runs on one thread.
#[derive(Drop)]
pub(crate) struct Connection {
    stream: Arc<TcpStream, Global>,
    held: RefCell<Vec<u8>>,
    has_failed: Cell<bool>,
    is_in: Cell<bool>,
    rejection: Cell<Option<Rejection>>,
    strays: RefCell<Strays>,
}

impl Connection {
    /// A connection with nothing held back.
    pub(crate) fn new(alloc: Global, stream: Arc<TcpStream, Global>) -> Result<Connection, Memory> {
        Ok(Connection {
            stream,
            held: RefCell::new(Vec::with_capacity(alloc, ROOM)?),
            has_failed: Cell::new(false),
            is_in: Cell::new(false),
            rejection: Cell::new(None),
            strays: RefCell::new(Strays::new(alloc)),
        })
    }

    /// Returns why the client was cut off before its agent entered, or None.
    pub(crate) fn rejection(&self) -> Option<Rejection> {
        self.rejection.get()
    }

    /// Which denial is held back, if one is.
    pub(crate) fn denial(&self) -> Option<Denial> {
        let Ok(held) = self.held.try_borrow_mut() else {
            return None;
        };
        for denial in [Denial::Enter, Denial::Key, Denial::Taken] {
            if held.starts_with(denial_of(denial).as_bytes()) {
                return Some(denial);
            }
        }
        None
    }

    /// Tells the client why it is not served.
    pub(crate) fn reject(&self, why: Rejection) {
        reject(&self.stream, why);
    }

    /// Reports the client's invalid lines to the watcher, unless there were none.
    pub(crate) fn tell_strays<W: Watch>(&self, session: u32, watch: &W) {
        if let Ok(strays) = self.strays.try_borrow_mut() {
            if strays.lines > 0 {
                watch.strayed(session, &strays);
            }
        }
    }

    /// Returns whether sending buffered output has failed.
    pub(crate) fn has_failed(&self) -> bool {
        self.has_failed.get()
    }

    /// Sends what is held back.
    pub(crate) fn send_held(&self) -> io::Result<()> {
        let Ok(mut held) = self.held.try_borrow_mut() else {
            return Ok(());
        };
        if held.is_empty() {
            return Ok(());
        }
        let sent = (&mut &*self.stream).write_all(&held);
        held.clear();
        if sent.is_err() {
            self.has_failed.set(true);
        }
        sent
    }
}

/// The client of a session, and its watcher.
#[derive(Clone, Copy, Drop)]
pub(crate) struct PendingClient<'a, R, W> {
    rt: &'a R,
    session: u32,
    connection: &'a Connection,
    ending: &'a Ending,
    watch: &'a W,
}

impl<'a, R, W> PendingClient<'a, R, W> {
    /// The client of this connection, in the session of this number.
    pub(crate) fn new(
        rt: &'a R,
        session: u32,
        connection: &'a Connection,
        ending: &'a Ending,
        watch: &'a W,
    ) -> PendingClient<'a, R, W> {
        PendingClient {
            rt,
            session,
            connection,
            ending,
            watch,
        }
    }
}

impl<R: Wait + Clock, W: Watch> SessionHooks for PendingClient<'_, R, W> {
    fn let_in(&self, game: u32, agent: u16) {
        self.connection.is_in.set(true);
        self.ending.is_in(self.rt, self.session);
        self.watch.let_in(self.session, game, agent);
    }

    fn no_command(&self, line: &Raw<'_>) {
        if let Ok(mut strays) = self.connection.strays.try_borrow_mut() {
            strays.add(line);
        }
    }

    fn answered(&self, is_heard: bool) {
        if !is_heard {
            thread::sleep(self.rt, Duration::from_millis(UNHEARD_PAUSE));
        }
    }

    fn before_waiting(&self) {
        let _ = self.connection.send_held();
    }
}

impl Write for &Connection {
    fn write(&mut self, bytes: &[u8]) -> io::Result<usize> {
        if let Ok(mut held) = self.held.try_borrow_mut() {
            if bytes.len() <= ROOM.saturating_sub(held.len()) {
                held.extend_from_slice(bytes)?;
                return Ok(bytes.len());
            }
        }
        self.send_held()?;
        (&mut &*self.stream).write(bytes)
    }

    fn flush(&mut self) -> io::Result<()> {
        self.send_held()
    }
}

/// What a client sends over its connection.
#[derive(Drop)]
pub(crate) struct Incoming<'c, R> {
    rt: &'c R,
    session: u32,
    connection: &'c Connection,
    ending: &'c Ending,
    reader: BufReader<&'c TcpStream>,
    /// How many bytes came before its agent entered.
    first: usize,
}

impl<'c, R: Wait> Incoming<'c, R> {
    /// With nothing taken yet.
    pub(crate) fn new(
        rt: &'c R,
        alloc: Global,
        session: u32,
        connection: &'c Connection,
        ending: &'c Ending,
    ) -> Result<Incoming<'c, R>, Memory> {
        match BufReader::with_capacity(alloc, TAKEN, &*connection.stream) {
            Ok(reader) => Ok(Incoming {
                rt,
                session,
                connection,
                ending,
                reader,
                first: 0,
            }),
            Err(_) => Err(Memory),
        }
    }

    // Reads while the first line is still to come. A client that is cut off gives nothing more: where its line has come
    // already it is not taken, so that no key is used up by a session that is cut off.
    fn read_first(&mut self, buffer: &mut [u8]) -> io::Result<usize>
        ensures { IfOk result (λ count. IsPrefixLen count buffer.new) }
    {
        if self.first >= FIRST || !self.ending.waits(self.rt, self.session) {
            self.gives_no_more(Rejection::Late);
            return Ok(0);
        }
        let count = self.reader.read(buffer)?;
        if let Err(why) = self.goes_on(buffer, count) {
            self.gives_no_more(why);
            return Ok(0);
        }
        Ok(count)
    }

    // Sees that a client that gave these bytes is not cut off.
    fn goes_on(&mut self, buffer: &[u8], count: usize) -> Result<(), Rejection> {
        self.first = self.first.saturating_add(count);
        if buffer.iter().take(count).any(|byte| *byte == b'\n') {
            self.ending.enters(self.rt, self.session)
        } else if self.ending.waits(self.rt, self.session) {
            Ok(())
        } else {
            Err(Rejection::Late)
        }
    }

    // The client is cut off before its agent has entered.
    fn gives_no_more(&self, why: Rejection) {
        if !self.ending.is_over() {
            self.connection.rejection.set(Some(why));
        }
    }
}

impl<R: Wait> Read for Incoming<'_, R> {
    fn read(&mut self, buffer: &mut [u8]) -> io::Result<usize> {
        if self.ending.is_over() {
            return Ok(0);
        }
        if self.reader.buffer().is_empty() {
            self.connection.send_held()?;
        }
        if self.connection.is_in.get() {
            self.reader.read(buffer)
        } else {
            self.read_first(buffer)
        }
    }
}
