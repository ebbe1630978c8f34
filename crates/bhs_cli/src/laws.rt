//! A worked text of turns. The function does nothing.

ghost use Rattle.std.specs.Prelude.{◌≡◌, [], ◌∷◌, codes};
ghost use Rattle.bhs_cli.specs.Turns.{turns_text};

/// The text of three turns, as a file of turns has it.
pub fn worked_turns()
    ensures { turns_text (0 ∷ 12 ∷ 4294967295 ∷ []) ≡ codes "0\n12\n4294967295\n" }
{}
