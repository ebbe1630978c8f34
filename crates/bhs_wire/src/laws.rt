//! Laws of lines.

ghost use Rattle.std.specs.Prelude.{◌≡◌, ℕ, List, [], ◌∷◌, ◌++◌, false, Option, option_to_list, map};
ghost use Rattle.std.specs.List.{list_any};
ghost use Rattle.bhs_wire.specs.First.{says};
ghost use Rattle.bhs_wire.specs.Lines.{given, is_line_feed, said_by, lines, held_of, found_in, left_by};

/// A line is the bytes before a line feed: this gives the lines of every stream.
pub fn line_by_line()
    ensures first { (line more : List ℕ) → list_any is_line_feed line ≡ false
        → lines (line ++ 10 ∷ more) ≡ given line ++ lines more }
    ensures last { (bytes : List ℕ) → list_any is_line_feed bytes ≡ false → lines bytes ≡ [] }
{}

/// However bytes are cut into pieces, the same lines are found in them, and the same is held after them.
pub fn any_pieces()
    ensures found { (held : Option (List ℕ)) (piece more : List ℕ) → found_in held (piece ++ more)
        ≡ found_in held piece ++ found_in (left_by held piece) more }
    ensures left { (held : Option (List ℕ)) (piece more : List ℕ) → left_by held (piece ++ more)
        ≡ left_by (left_by held piece) more }
{}

/// What is held of a stream is enough to find the lines that end in the next piece.
pub fn held_is_enough()
    ensures lines { (stream piece : List ℕ) → lines (stream ++ piece)
        ≡ lines stream ++ found_in (held_of stream) piece }
    ensures held { (stream piece : List ℕ) → held_of (stream ++ piece)
        ≡ left_by (held_of stream) piece }
{}

/// A client means the same by a line that is found in a stream and by one that is given whole.
pub fn one_meaning()
    ensures { (line : List ℕ) → map said_by (given line) ≡ option_to_list (says line) }
{}
