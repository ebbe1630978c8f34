//! The whiteboard of a node.

ghost use Rattle.std.specs.Prelude.{◌≡◌, None};
ghost use Rattle.bhs_model.specs.Replying.{swapped};
ghost use Rattle.bhs_state.specs.Boards.{swap_of, last_after, shown_after};

use crate::swaps::Swap;
use std::marker::Model;

/// A whiteboard. It keeps no text: it names the place, in a log, of the write whose text it shows.
#[derive(Debug, Drop)]
pub struct Board {
    limit: u16,
    last: Option<u32>,
}

impl Model for Board {
    ghost use Rattle.bhs_state.specs.Boards.{Whiteboard};

    ghost Value = { Whiteboard };

    ghost view = { λ board. record { limit = board.limit; last = board.last } };
}

impl Board {
    /// A whiteboard that holds up to this many bytes, and shows the empty text.
    pub fn new(limit: u16) -> Board
        ensures limit { result.limit ≡ limit }
        ensures last { result.last ≡ None }
    {
        Board { limit, last: None }
    }

    /// A whiteboard that holds up to this many bytes, and shows the text of this place.
    pub fn showing(limit: u16, last: Option<u32>) -> Board
        ensures limit { result.limit ≡ limit }
        ensures last { result.last ≡ last }
    {
        Board { limit, last }
    }

    /// The place of the write whose text is shown; None while no write has changed the whiteboard.
    pub fn last(&self) -> Option<u32>
        ensures { result ≡ self.now.last }
    {
        self.last
    }

    /// Puts a text in place of the expected one. `now` is the text that is shown, the one that `last`
    /// names, and `place` is where this write will stand in the log. Takes no memory.
    pub fn swap(&mut self, now: &str, expect: &str, put: &str, place: u32) -> Swap
        ensures swap { result ≡ swap_of self.old.limit now.now expect.now put.now }
        ensures limit { self.new.limit ≡ self.old.limit }
        ensures last { self.new.last ≡ last_after result self.old.last place }

        // The whiteboard shows what the model says of a write.
        ensures shown { shown_after result now.now put.now ≡ swapped self.old.limit now.now expect.now put.now }
    {
        if put.len() > usize::from(self.limit) {
            return Swap::Long;
        }
        if now != expect {
            return Swap::Differs;
        }
        self.last = Some(place);
        Swap::Took
    }
}
