//! The texts that marks name in a log.

ghost use Rattle.std.specs.Prelude.{◌≡◌};
ghost use Rattle.bhs_model.specs.Marks.{text_at, board_of};

use bhs_model::{Kept, Mark, text_at};

// The place that a mark names.
fn board(mark: &Mark) -> Option<u32>
    ensures { result ≡ board_of mark.now }
{
    match mark {
        Mark::Here { board, .. } | Mark::Changed { board } => *board,
        _ => None,
    }
}

/// The text that the mark's whiteboard shows.
pub(crate) fn text<'a>(log: &'a [Kept], mark: &Mark) -> &'a str
    ensures { result.now ≡ text_at log.now (board_of mark.now) }
{
    text_at(log, board(mark))
}
