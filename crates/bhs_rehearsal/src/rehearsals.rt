//! A rehearsal: the matches, the keys and the connections.

ghost use Rattle.std.specs.Prelude.{◌≡◌, [], false, map, IfOk, replicate};
ghost use Rattle.bhs_rehearsal.specs.Connections.{unfed};
ghost use Rattle.bhs_rehearsal.specs.Stages.{Feeds, EndsInput, Draws, Delivers, Closes};
ghost use Rattle.bhs_rehearsal.specs.Rehearsing.{Follows, game_of, made_of, sent_all, sent_once, team_of};
ghost use Rattle.bhs_rehearsal.specs.Takings.{IsConcluded};

use crate::choices::Choice;
use crate::connections::Connection;
use crate::faults::RehearsalFault;
use crate::holders::Holders;
use crate::outs::Out;
use bhs_net::Memory;
use bhs_setups::{Keys, Lineup, Ready};
use bhs_wire::{LineReader, Raw};
use std::alloc::Global;
use std::collections::VecDeque;
use std::marker::Model;
use std::mem::replace;

/// A rehearsal of a tournament in memory: connections are fed bytes, words are drawn and matches are ended, and
/// each call gives what the connections are sent.
///
/// A rehearsal of the matches of a lineup. Each connection behaves as a session: its first line must be an enter with a
/// key that admits an agent; its lines and then its end are taken in order, while its agent is not on a link; after its
/// end its input is ignored. Contracts see the stage, which consists of the matches, the keys and the connections.
///
/// What connections are fed is borrowed, and not copied, while lines of it wait.
///
/// Once memory ran out in a call, the rehearsal has failed: this call and each later one are answered `Memory`.
/// A call that is answered another fault has changed nothing.
#[derive(Drop)]
pub struct Rehearsal<'s> {
    pub(crate) ready: Vec<Ready>,
    pub(crate) keys: Keys,
    pub(crate) connections: Vec<Connection<'s>>,
    pub(crate) holders: Holders,
    pub(crate) line_reader: LineReader,
    // The lines that end in what a connection is fed, before they are queued.
    pub(crate) found: VecDeque<Raw<'s>>,
    // The buffer of the previous output, for reuse.
    pub(crate) spare: Vec<u8>,
    pub(crate) has_failed: bool,
}

impl<'s> Model for Rehearsal<'s> {
    ghost use Rattle.std.specs.Prelude.{◌<◌, ◌^◌, length, map};
    ghost use Rattle.std.specs.List.{All};
    ghost use Rattle.std.specs.Prelude.{◌≡◌};
    ghost use Rattle.bhs_rehearsal.specs.Holders.{AreHeld};
    ghost use Rattle.bhs_rehearsal.specs.Rehearsing.{Rehearsing, stage_of, team_of, IsSeated};

    ghost Value = { Rehearsing };

    ghost view = { λ one. record {
      stage = stage_of one.ready.items one.keys one.connections.items;
      teams = map team_of
          one.ready.items;
      has_failed = one.has_failed;
    } };

    ghost invariant = { λ one. (length one.connections.items < 2 ^ 16)
        × All (λ connection. IsSeated (length one.ready.items) connection.seat) one.connections.items
        × (length one.holders ≡ length one.ready.items)
        × AreHeld one.holders one.connections.items };
}

impl<'s> Rehearsal<'s> {
    /// A rehearsal of these matches, with this number of connections that were fed nothing. A key of a match that is
    /// not in the list lets nobody in.
    pub fn new(alloc: Global, lineup: Lineup, conns: u16) -> Result<Rehearsal<'s>, Memory>
        ensures { IfOk result (λ rehearsal. rehearsal ≡ made_of lineup conns) }
    {
        let connections = no_connections(alloc, conns)?;
        let holders = Holders::new(alloc, lineup.ready.len())?;
        let Lineup { ready, keys, .. } = lineup;
        Ok(Rehearsal {
            ready,
            keys,
            connections,
            holders,
            line_reader: LineReader::new(alloc),
            found: VecDeque::new(alloc),
            spare: Vec::new(alloc),
            has_failed: false,
        })
    }

    /// Feeds bytes to a connection. Fails with `Conn` if the connection does not exist.
    pub fn feed(&mut self, conn: u16, bytes: &'s [u8]) -> Result<Option<Out>, RehearsalFault>
        ensures { Follows sent_once self.old (Feeds conn bytes.now) result self.new }
    {
        if self.has_failed {
            return Err(RehearsalFault::Memory);
        }
        if usize::from(conn) >= self.connections.len() {
            return Err(RehearsalFault::Conn);
        }
        let outs = self.fed(conn, bytes);
        self.settled(outs)
    }

    /// Feeds bytes that are borrowed for this call only; lines that must wait are copied. Fails with `Conn` if the
    /// connection does not exist.
    pub fn feed_copied(&mut self, conn: u16, bytes: &[u8]) -> Result<Option<Out>, RehearsalFault>
        ensures { Follows sent_once self.old (Feeds conn bytes.now) result self.new }
    {
        if self.has_failed {
            return Err(RehearsalFault::Memory);
        }
        if usize::from(conn) >= self.connections.len() {
            return Err(RehearsalFault::Conn);
        }
        let outs = self.fed_copied(conn, bytes);
        self.settled(outs)
    }

    /// Ends the input of a connection. Fails with `Conn` if the connection does not exist.
    pub fn end(&mut self, conn: u16) -> Result<Option<Out>, RehearsalFault>
        ensures { Follows sent_once self.old (EndsInput conn) result self.new }
    {
        if self.has_failed {
            return Err(RehearsalFault::Memory);
        }
        if usize::from(conn) >= self.connections.len() {
            return Err(RehearsalFault::Conn);
        }
        let outs = self.ended(conn);
        self.settled(outs)
    }

    /// Draws a word in a match. Fails with `NoGame` if the match does not exist.
    pub fn draw(&mut self, game: u32, word: u32) -> Result<Option<Out>, RehearsalFault>
        ensures { Follows sent_once self.old (Draws game word) result self.new }
    {
        if self.has_failed {
            return Err(RehearsalFault::Memory);
        }
        if game as usize >= self.ready.len() {
            return Err(RehearsalFault::NoGame);
        }
        let outs = self.drawn(game, Choice::Word(word));
        self.settled(outs)
    }

    /// Delivers an agent of a match, unless its link is held; an agent that does not exist, or is on no link, is not
    /// delivered. Fails with `NoGame` if the match does not exist.
    pub fn deliver(&mut self, game: u32, agent: u16) -> Result<Option<Out>, RehearsalFault>
        ensures { Follows sent_once self.old (Delivers game agent) result self.new }
    {
        if self.has_failed {
            return Err(RehearsalFault::Memory);
        }
        if game as usize >= self.ready.len() {
            return Err(RehearsalFault::NoGame);
        }
        let outs = self.drawn(game, Choice::Agent(agent));
        self.settled(outs)
    }

    /// Closes a match; closing it again has no effect. Fails with `NoGame` if the match does not exist.
    pub fn close(&mut self, game: u32) -> Result<Vec<Out>, RehearsalFault>
        ensures { Follows sent_all self.old (Closes game) result self.new }
    {
        if self.has_failed {
            return Err(RehearsalFault::Memory);
        }
        if game as usize >= self.ready.len() {
            return Err(RehearsalFault::NoGame);
        }
        let outs = self.closed(game);
        self.settled(outs)
    }

    /// Takes back the memory of what a connection was sent, for what the next call gives.
    pub fn take_back(&mut self, out: Out)
        ensures { self.new ≡ self.old }
    {
        self.keep(out.bytes);
    }

    /// Whether memory ran out in a call. Each call after it is answered `Memory`.
    pub fn failed(&self) -> bool
        ensures { result ≡ self.now.has_failed }
    {
        self.has_failed
    }

    /// The matches, given back.
    pub fn into_ready(self) -> Vec<Ready>
        ensures games { map game_of result.items ≡ self.entry.stage.games }
        ensures teams { map team_of result.items ≡ self.entry.teams }
    {
        self.ready
    }

    // Keeps the memory of a text for the next one.
    pub(crate) fn keep(&mut self, text: Vec<u8>)
        ensures { self.new ≡ self.old }
    {
        self.spare = text;
    }

    // A text without a byte, in the memory that was kept.
    pub(crate) fn empty_text(&mut self, alloc: Global) -> Vec<u8>
        ensures text { result.items ≡ [] }
        ensures same { self.new ≡ self.old }
    {
        let mut text = replace(&mut self.spare, Vec::new(alloc));
        text.clear();
        text
    }

    // What a call gives. If memory ran out, the rehearsal has failed.
    fn settled<T: Drop>(&mut self, outs: Result<T, Memory>) -> Result<T, RehearsalFault>
        ensures { IsConcluded self.old outs result self.new }
    {
        match outs {
            Ok(outs) => Ok(outs),
            Err(Memory) => {
                self.has_failed = true;
                Err(RehearsalFault::Memory)
            }
        }
    }
}

fn no_connections<'s>(alloc: Global, count: u16) -> Result<Vec<Connection<'s>>, Memory>
    ensures { IfOk result (λ connections. connections.items ≡ replicate count unfed) }
{
    let mut connections = Vec::with_capacity(alloc, usize::from(count))?;
    for _ in 0..count {
        connections.push(Connection::new(alloc))?;
    }
    Ok(connections)
}
