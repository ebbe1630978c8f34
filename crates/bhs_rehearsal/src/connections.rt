//! A connection of a rehearsal.

ghost use Rattle.std.specs.Prelude.{◌≡◌, [], ◌∷◌, ◌++◌, map, false, true, Some, Option, IfOk, OnOk};
ghost use Rattle.std.specs.Prelude.{slice_get, option_map};
ghost use Rattle.bhs_wire.specs.Lines.{seen, found_in, given, left_by};
ghost use Rattle.bhs_rehearsal.specs.Connections.{Says, Ends, unfed, shut, taken, after};
ghost use Rattle.bhs_rehearsal.specs.Stages.{has_seat, waits_in};
ghost use Rattle.bhs_rehearsal.specs.Rehearsing.{game_of, team_of, seen_item};

use crate::items::Item;
use crate::takings::take_items;
use bhs_net::Memory;
use bhs_setups::Ready;
use bhs_wire::{LineKind, LineReader, Lines, Raw, kind_of, whole_line};
use std::alloc::Global;
use std::borrow::CowSlice;
use std::collections::VecDeque;
use std::marker::Model;

// A connection of a rehearsal: the numbers of the match and of the agent that it plays, its unfinished line,
// the items that were not taken, and whether its input has ended.
#[derive(Drop)]
pub(crate) struct Connection<'s> {
    seat: Option<(u32, u16)>,
    // None as long as each line came whole.
    lines: Option<Lines>,
    queue: VecDeque<Item<'s>>,
    ended: bool,
}

impl<'s> Model for Connection<'s> {
    ghost use Rattle.std.specs.Prelude.{[], Some, map, unwrap_or};
    ghost use Rattle.bhs_rehearsal.specs.Connections.{Connection};
    ghost use Rattle.bhs_rehearsal.specs.Rehearsing.{seen_item};

    ghost Value = { Connection };

    ghost view = { λ one. record {
      seat = one.seat;
      unfinished = unwrap_or one.lines (Some []);
      queue = map seen_item one.queue.items;
      ended = one.ended;
    } };
}

impl<'s> Connection<'s> {
    // It was fed nothing. Takes no memory.
    pub(crate) fn new(alloc: Global) -> Connection<'s>
        ensures { result ≡ unfed }
    {
        Connection {
            seat: None,
            lines: None,
            queue: VecDeque::new(alloc),
            ended: false,
        }
    }

    pub(crate) fn seat(&self) -> Option<(u32, u16)>
        ensures { result ≡ self.now.seat }
    {
        self.seat
    }

    pub(crate) fn has_ended(&self) -> bool
        ensures { result ≡ self.now.ended }
    {
        self.ended
    }

    // The first item that was not taken.
    pub(crate) fn first(&self) -> Option<&Item<'s>>
        ensures { option_map (λ item. seen_item item.now) result ≡ slice_get self.now.queue 0 }
    {
        self.queue.front()
    }

    // Whether it plays this agent of this match.
    pub(crate) fn has_seat(&self, seat: (u32, u16)) -> bool
        ensures { result ≡ has_seat seat self.now }
    {
        match self.seat {
            Some((game, agent)) => game == seat.0 && agent == seat.1,
            None => false,
        }
    }

    // Returns whether the connection waits for its agent to arrive in the match with this number.
    pub(crate) fn waits_in(&self, number: u32, ready: &Ready) -> bool
        ensures { result ≡ waits_in number (game_of ready.now) self.now }
    {
        match self.seat {
            Some((game, agent)) => game == number && ready.game.is_away(agent),
            None => false,
        }
    }

    // Takes the next bytes of its input, and queues the lines that end in them. Where they are not one whole line, they
    // are found in `found`, whose memory is kept for the next.
    pub(crate) fn receive(
        &mut self,
        alloc: Global,
        bytes: &'s [u8],
        found: &mut VecDeque<Raw<'s>>,
    ) -> Result<(), Memory>
        ensures queued { OnOk result (self.new ≡ record self.old {
          unfinished = left_by self.old.unfinished bytes.now;
          queue = self.old.queue ++ map Says (found_in self.old.unfinished bytes.now);
        }) }
        ensures seat { self.new.seat ≡ self.old.seat }
    {
        if self.lines.is_none() {
            if let Some(line) = whole_line(bytes) {
                return queue_line(&mut self.queue, line);
            }
        }
        empty(found);
        self.feed(alloc, bytes, found)?;
        queue_lines(&mut self.queue, found)
    }

    // Adds the lines that end in the bytes to those that were found.
    fn feed<'p>(
        &mut self,
        alloc: Global,
        bytes: &'p [u8],
        found: &mut VecDeque<Raw<'p>>,
    ) -> Result<(), Memory>
        ensures found { OnOk result (map seen found.new.items
            ≡ map seen found.old.items ++ found_in self.old.unfinished bytes.now) }
        ensures left { OnOk result (self.new
            ≡ record self.old { unfinished = left_by self.old.unfinished bytes.now }) }
        ensures seat { self.new.seat ≡ self.old.seat }
    {
        let mut lines = match self.lines.take() {
            Some(lines) => lines,
            None => Lines::new(alloc),
        };
        lines.feed_into(bytes, found)?;
        self.lines = Some(lines);
        Ok(())
    }

    // The same of bytes that are lent for this call alone: the lines that end in them are copied.
    pub(crate) fn receive_copied(&mut self, alloc: Global, bytes: &[u8]) -> Result<(), Memory>
        ensures queued { OnOk result (self.new ≡ record self.old {
          unfinished = left_by self.old.unfinished bytes.now;
          queue = self.old.queue ++ map Says (found_in self.old.unfinished bytes.now);
        }) }
        ensures seat { self.new.seat ≡ self.old.seat }
    {
        let mut found = VecDeque::new(alloc);
        self.feed(alloc, bytes, &mut found)?;
        queue_copies(alloc, &mut self.queue, &mut found)
    }

    // Its input ends.
    pub(crate) fn end(&mut self) -> Result<(), Memory>
        ensures ended { OnOk result (self.new
            ≡ record self.old { unfinished = Some []; queue = self.old.queue ++ Ends ∷ []; ended = true }) }
        ensures seat { self.new.seat ≡ self.old.seat }
    {
        self.queue.push_back(Item::Ends)?;
        self.lines = None;
        self.ended = true;
        Ok(())
    }

    // Nothing more is taken of it.
    pub(crate) fn shut(&mut self)
        ensures { self.new ≡ shut self.old }
    {
        self.lines = None;
        self.queue.clear();
        self.ended = true;
    }

    // Takes items, as one that plays this agent of this match, and adds the text that it is sent.
    pub(crate) fn take_queued(
        &mut self,
        alloc: Global,
        line_reader: &mut LineReader,
        ready: &mut Ready,
        seat: (u32, u16),
        text: &mut Vec<u8>,
    ) -> Result<(), Memory>
        ensures game { OnOk result (game_of ready.new ≡ (taken (game_of ready.old) seat.1 self.old.queue).game) }
        ensures text { OnOk result (text.new.items
            ≡ text.old.items ++ (taken (game_of ready.old) seat.1 self.old.queue).text) }
        ensures connection { OnOk result (self.new
            ≡ after (record self.old { seat = Some seat }) (taken (game_of ready.old) seat.1 self.old.queue)) }
        ensures seat { self.new.seat ≡ Some seat }
        ensures team { team_of ready.new ≡ team_of ready.old }
    {
        self.seat = Some(seat);
        if take_items(alloc, line_reader, ready, seat.1, &mut self.queue, text)? {
            self.shut();
        }
        Ok(())
    }
}

// Adds what a line gives.
fn queue_line<'s>(queue: &mut VecDeque<Item<'s>>, line: &'s [u8]) -> Result<(), Memory>
    ensures { OnOk result (map seen_item queue.new.items ≡ map seen_item queue.old.items
        ++ map Says (given line.now)) }
{
    let line = match kind_of(line) {
        LineKind::Over => Raw::Over,
        LineKind::Blank => return Ok(()),
        LineKind::Whole => Raw::Whole(CowSlice::Borrowed(line)),
    };
    Ok(queue.push_back(Item::Says(line))?)
}

// Lines are left if a call failed.
fn empty(found: &mut VecDeque<Raw<'_>>)
    ensures { found.new.items ≡ [] }
{
    if !found.is_empty() {
        found.clear();
    }
}

fn queue_lines<'s>(
    queue: &mut VecDeque<Item<'s>>,
    found: &mut VecDeque<Raw<'s>>,
) -> Result<(), Memory>
    ensures { OnOk result (map seen_item queue.new.items ≡ map seen_item queue.old.items
        ++ map Says (map seen found.old.items)) }
{
    while let Some(line) = found.pop_front() {
        queue.push_back(Item::Says(line))?;
    }
    Ok(())
}

fn queue_copies<'s>(
    alloc: Global,
    queue: &mut VecDeque<Item<'s>>,
    found: &mut VecDeque<Raw<'_>>,
) -> Result<(), Memory>
    ensures { OnOk result (map seen_item queue.new.items ≡ map seen_item queue.old.items
        ++ map Says (map seen found.old.items)) }
{
    while let Some(line) = found.pop_front() {
        let copy = copy_of(alloc, &line)?;
        queue.push_back(Item::Says(copy))?;
    }
    Ok(())
}

fn copy_of<'s>(alloc: Global, line: &Raw<'_>) -> Result<Raw<'s>, Memory>
    ensures { IfOk result (λ copy. seen copy ≡ seen line.now) }
{
    match line {
        Raw::Whole(bytes) => {
            let bytes = Vec::from_slice(alloc, bytes.as_slice())?;
            Ok(Raw::Whole(CowSlice::Owned(bytes)))
        }
        Raw::Over => Ok(Raw::Over),
    }
}
