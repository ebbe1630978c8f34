//! What a connection's items make of a rehearsal.

ghost use Rattle.std.specs.Prelude.{◌<◌, ◌≡◌, [], length, Some, None, false};
ghost use Rattle.std.specs.List.{list_any};
ghost use Rattle.bhs_rehearsal.specs.Rehearsing.{on_stage};
ghost use Rattle.bhs_rehearsal.specs.Stages.{moves, enters, entry, has_seat, plays, shuts, connection_at};
ghost use Rattle.bhs_rehearsal.specs.Takings.{IsMoved};

use crate::entries::{EntryResult, first_entry};
use crate::rehearsals::Rehearsal;
use bhs_net::Memory;
use bhs_session::push_denial;
use std::alloc::Global;

impl<'s> Rehearsal<'s> {
    // Lets a connection take as many of its items as it can, and appends the text that it gets.
    pub(crate) fn moves(
        &mut self,
        alloc: Global,
        conn: u16,
        text: &mut Vec<u8>,
    ) -> Result<(), Memory>
        requires { conn < length self.old.stage.connections }
        ensures { IsMoved self.old (moves self.old.stage conn) text.old.items result text.new.items self.new }
    {
        let connection = &self.connections[usize::from(conn)];
        match connection.seat() {
            Some(seat) => self.plays(alloc, conn, seat, text),
            None => self.enters(alloc, conn, text),
        }
    }

    // The first item of a connection that was not let in.
    fn enters(&mut self, alloc: Global, conn: u16, text: &mut Vec<u8>) -> Result<(), Memory>
        requires conn { conn < length self.old.stage.connections }
        requires outside { (connection_at self.old.stage conn).seat ≡ None }
        ensures { IsMoved self.old (enters self.old.stage conn
            (entry self.old.stage (connection_at self.old.stage conn).queue)) text.old.items result text.new.items
            self.new }
    {
        let entry = first_entry(
            &mut self.line_reader,
            self.ready.len(),
            &self.keys,
            &self.connections,
            usize::from(conn),
        )?;
        match entry {
            EntryResult::Waits => Ok(()),
            EntryResult::Sits(seat) => self.sits(alloc, conn, seat, text),
            EntryResult::Denied(denial) => {
                self.shuts(conn);
                push_denial(denial, text)
            }
            EntryResult::Goes => {
                self.shuts(conn);
                Ok(())
            }
        }
    }

    // The connection is let in to play this agent of this match, which nobody plays, and its items are taken.
    fn sits(
        &mut self,
        alloc: Global,
        conn: u16,
        seat: (u32, u16),
        text: &mut Vec<u8>,
    ) -> Result<(), Memory>
        requires conn { conn < length self.old.stage.connections }
        requires game { seat.0 < length self.old.stage.games }
        requires outside { (connection_at self.old.stage conn).seat ≡ None }
        requires free { list_any (has_seat seat) self.old.stage.connections ≡ false }
        ensures { IsMoved self.old (plays self.old.stage conn seat) text.old.items result text.new.items self.new }
    {
        self.holders.seat(seat, conn)?;
        let ready = &mut self.ready[seat.0 as usize];
        let connection = &mut self.connections[conn as usize];
        connection.take_queued(alloc, &mut self.line_reader, ready, seat, text)
    }

    // The items are taken of a connection that plays this agent of this match.
    fn plays(
        &mut self,
        alloc: Global,
        conn: u16,
        seat: (u32, u16),
        text: &mut Vec<u8>,
    ) -> Result<(), Memory>
        requires conn { conn < length self.old.stage.connections }
        requires game { seat.0 < length self.old.stage.games }
        requires seated { (connection_at self.old.stage conn).seat ≡ Some seat }
        ensures { IsMoved self.old (plays self.old.stage conn seat) text.old.items result text.new.items self.new }
    {
        let ready = &mut self.ready[seat.0 as usize];
        let connection = &mut self.connections[conn as usize];
        connection.take_queued(alloc, &mut self.line_reader, ready, seat, text)
    }

    // The connection takes no more.
    fn shuts(&mut self, conn: u16)
        requires { conn < length self.old.stage.connections }
        ensures { self.new ≡ on_stage self.old (shuts self.old.stage conn []).stage }
    {
        let connection = &mut self.connections[usize::from(conn)];
        connection.shut();
    }
}
