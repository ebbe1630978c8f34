//! The lines of a stream that comes in pieces.

ghost use Rattle.std.specs.Prelude.{◌≡◌, ◌≤◌, ℕ, List, [], ◌++◌, length, map, Some, IfOk, OnOk, OnErr};
ghost use Rattle.std.specs.Option.{option_map_or};

use crate::pieces::{Raw, hold, keep, push_first, push_lines, split_line};
use bhs_model::MAX_LINE;
use bhs_net::Memory;
use std::alloc::Global;
use std::collections::VecDeque;
use std::marker::Model;

// The bytes of a look, with its line feed: no command has a shorter line.
const SHORTEST: usize = 14;

/// Cuts the bytes that a client sends into lines, in whatever pieces they come. Contracts see the bytes of
/// the unfinished line, or None once they are more than `MAX_LINE`.
#[derive(Drop)]
pub struct Lines {
    alloc: Global,
    held: Option<Vec<u8>>,
}

impl Model for Lines {
    ghost use Rattle.std.specs.Prelude.{◌≤◌, ℕ, List, Option, length, option_map};
    ghost use Rattle.std.specs.Option.{ForSome};
    ghost use Rattle.bhs_model.specs.declared.limits.TheConstants.{MAX_LINE};

    ghost Value = { Option (List ℕ) };

    ghost view = { λ l. option_map (λ line. line.items) l.held };

    ghost invariant = { λ l. ForSome l.held (λ line. length line.items ≤ MAX_LINE) };
}

impl Lines {
    ghost use Rattle.bhs_wire.specs.Lines.{Line, seen, lines, held_of, found_in, left_by};

    /// With nothing held yet. Takes no memory.
    pub fn new(alloc: Global) -> Lines
        ensures { result ≡ Some [] }
    {
        Lines {
            alloc,
            held: Some(Vec::new(alloc)),
        }
    }

    /// How many bytes of the unfinished line are held: none of one that is too long.
    pub fn held(&self) -> usize
        ensures value { result ≡ option_map_or length self.now 0 }
        ensures bound { result ≤ MAX_LINE }
    {
        match &self.held {
            Some(line) => line.len(),
            None => 0,
        }
    }

    /// Takes the next piece, and gives the lines that end in it; those that begin in it too are not copied. A blank
    /// line is skipped, and an overlong one given once, at its line feed. An `Err` changes nothing.
    pub fn feed<'p>(&mut self, piece: &'p [u8]) -> Result<Vec<Raw<'p>>, Memory>
        ensures found { IfOk result (λ found. map seen found.items ≡ found_in self.old piece.now) }
        ensures left { OnOk result (self.new ≡ left_by self.old piece.now) }

        // The same holds for every earlier stream with this buffer.
        ensures lines { (stream : List ℕ) → self.old ≡ held_of stream
            → IfOk result (λ found. lines (stream ++ piece.now) ≡ lines stream ++ map seen found.items) }
        ensures held { (stream : List ℕ) → self.old ≡ held_of stream
            → OnOk result (self.new ≡ held_of (stream ++ piece.now)) }
        ensures err { OnErr result (self.new ≡ self.old) }
    {
        let mut found = VecDeque::with_capacity(self.alloc, piece.len() / SHORTEST + 1)?;
        self.feed_into(piece, &mut found)?;
        Ok(Vec::from(found))
    }

    /// The same, but appends the lines to earlier ones. On `Err`, some lines may have been appended, and the buffer is
    /// unchanged.
    pub fn feed_into<'p>(
        &mut self,
        piece: &'p [u8],
        found: &mut VecDeque<Raw<'p>>,
    ) -> Result<(), Memory>
        ensures found { OnOk result (map seen found.new.items
            ≡ map seen found.old.items ++ found_in self.old piece.now) }
        ensures front { (more : List Line) × (map seen found.new.items ≡ map seen found.old.items ++ more) }
        ensures left { OnOk result (self.new ≡ left_by self.old piece.now) }
        ensures err { OnErr result (self.new ≡ self.old) }
    {
        let Some((end, more)) = split_line(piece) else {
            hold(&mut self.held, piece)?;
            return Ok(());
        };
        push_first(self.alloc, found, &self.held, end)?;
        let rest = push_lines(self.alloc, found, more)?;
        self.held = keep(self.alloc, rest)?;
        Ok(())
    }
}
