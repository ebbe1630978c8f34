//! When the turns of a match come.

ghost use Rattle.std.specs.Prelude.{ℕ};
ghost use Rattle.bhs_server.specs.declared.pace.PaceStep.{PaceStep as DealerStep};

/// What a match's dealer does next.
#[derive(Clone, Copy, Debug, PartialEq, Eq)]
pub enum PaceStep {
    /// It takes a turn: draws with its next word.
    Turn,
    /// It closes the match.
    Close,
}

/// Decides when a server's dealers take turns, possibly after a pause.
pub trait Pace {
    // The possible decisions for the match with this number after this number of turns.
    ghost says: { Self → ℕ → ℕ → DealerStep → Type 0 };

    /// What the dealer of match `game` does after this number of turns.
    fn next(&self, game: u32, turn: u32) -> PaceStep
        ensures { says self.now game turn result };

    /// Whether match `game` still waits for its agents to enter, before its turns begin.
    fn gathers(&self, game: u32) -> bool;
}
