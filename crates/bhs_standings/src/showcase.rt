//! Verdicts that threads share.

ghost use Rattle.std.specs.Prelude.{◌≡◌, None, Some, IfOk, IfSome, IfNone, OnErr, length, slice_get};
ghost use Rattle.bhs_standings.specs.Shown.{IsOf, IsShown, Shows};

use crate::notes::ShowNote;
use bhs_net::Memory;
use bhs_referee::Verdict;
use once_cell::race::OnceBox;
use std::alloc::Global;
use std::marker::Model;

/// A place for the verdict on each match. A verdict is shown there once, by whichever thread comes first, and every
/// thread sees that one from then on. Nothing here waits.
#[derive(Drop)]
pub struct Showcase {
    cells: Vec<OnceBox<Verdict>>,
}

/// What came of showing a verdict.
#[derive(Clone, Copy, Debug, PartialEq, Eq)]
pub enum Show {
    /// No match has this number.
    NoGame,
    /// The verdict is shown from now on.
    Set,
    /// An earlier verdict was shown and stays.
    Taken,
}

// Contracts see a showcase as the names of its places, by the numbers of the matches.
impl Model for Showcase {
    ghost use Rattle.std.specs.Prelude.{ℕ, List, map};
    ghost use Rattle.once_cell.specs.Once.{cell_name};

    ghost Value = { List ℕ };

    ghost view = { λ showcase. map cell_name showcase.cells.items };
}

impl Showcase {
    /// A showcase for this many matches, with nothing in it.
    pub fn new(alloc: Global, games: u32) -> Result<Showcase, Memory>
        ensures { IfOk result (λ showcase. length showcase ≡ games) }
    {
        let mut cells = Vec::with_capacity(alloc, games as usize)?;
        for _ in 0..games {
            cells.push(OnceBox::new(alloc))?;
        }
        Ok(Showcase { cells })
    }

    /// A note of the verdict on a match that has seen nothing; None for a number of no match.
    pub fn note(&self, game: u32) -> Option<ShowNote>
        ensures note { IfSome result (λ note. slice_get self.now game ≡ Some note.place) }
        ensures fresh { IfSome result (λ note. note.verdict ≡ None) }
        ensures none { IfNone result (slice_get self.now game ≡ None) }
    {
        let cell = self.cells.get(game as usize)?;
        Some(ShowNote { note: cell.note() })
    }

    /// Shows a verdict on a match, unless a verdict is shown already. For an existing match, the note must belong to
    /// the match, and records the shown verdict. An unknown match, or exhausted memory, shows nothing and leaves the
    /// note unchanged.
    pub fn show(&self, game: u32, verdict: Verdict, note: &mut ShowNote) -> Result<Show, Memory>
        requires { IsOf self.now game note.old }
        ensures shown { IfOk result (λ show. Shows (slice_get self.now game) verdict note.old show note.new) }
        ensures failed { OnErr result (note.new ≡ note.old) }
    {
        let Some(cell) = self.cells.get(game as usize) else {
            return Ok(Show::NoGame);
        };
        let boxed = Box::new(*self.cells.allocator(), verdict)?;
        match cell.set_as(boxed, &mut note.note) {
            Ok(()) => Ok(Show::Set),
            Err(_) => Ok(Show::Taken),
        }
    }

    /// Returns the verdict that is shown on a match, if any. If the match exists, the note must belong to it, and
    /// records the verdict; a note that has seen a verdict gets the same verdict for ever. Allocates no memory.
    pub fn shown(&self, game: u32, note: &mut ShowNote) -> Option<Verdict>
        requires { IsOf self.now game note.old }
        ensures { IsShown (slice_get self.now game) note.old result note.new }
    {
        let cell = self.cells.get(game as usize)?;
        cell.get_as(&mut note.note).copied()
    }
}
