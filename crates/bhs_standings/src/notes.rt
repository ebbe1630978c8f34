//! What a thread has seen of a verdict.

ghost use Rattle.std.specs.Prelude.{◌≡◌};
ghost use Rattle.bhs_standings.specs.Shown.{Agree};

use bhs_referee::Verdict;
use once_cell::race::Note;
use std::marker::Model;

/// What its owner has seen of the verdict on one match. A note that has seen a verdict sees no other for good. It takes
/// no bytes.
#[derive(Drop)]
pub struct ShowNote {
    pub(crate) note: Note<Verdict>,
}

impl Model for ShowNote {
    ghost use Rattle.bhs_standings.specs.Shown.{Seen};

    ghost Value = { Seen };

    ghost view = { λ note. record { place = note.note.cell; verdict = note.note.known } };
}

impl ShowNote {
    /// A second note that has seen the same, as for another thread.
    pub fn again(&mut self) -> ShowNote
        ensures { (self.new ≡ self.old) × (result ≡ self.old) }
    {
        ShowNote {
            note: self.note.again(),
        }
    }

    /// Two notes of one match that have seen a verdict have seen the same one.
    pub fn compare(&mut self, other: ShowNote)
        requires { other.place ≡ self.old.place }
        ensures same { self.new ≡ self.old }
        ensures agree { Agree self.old.verdict other.verdict }
    {
        let ShowNote { note } = other;
        self.note.compare(note);
    }
}
