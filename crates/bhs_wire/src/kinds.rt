//! Blank lines, overlong lines, and lines that are read.

ghost use Rattle.std.specs.Prelude.{◌≡◌};
ghost use Rattle.std.specs.List.{list_all};
ghost use Rattle.bhs_wire.specs.LineKind.{line_kind, is_space};

use bhs_model::MAX_LINE;

/// What a line of a client is, before anyone reads it.
#[derive(Clone, Copy, Debug, PartialEq, Eq)]
pub enum LineKind {
    /// It has more than `MAX_LINE` bytes, and is taken as a bad command whatever they are.
    Over,
    /// It has nothing but spaces, tabs and carriage returns, and is skipped.
    Blank,
    /// It is read.
    Whole,
}

/// Judges a line, given without its line feed: first its length, then whether it is blank.
pub fn kind_of(line: &[u8]) -> LineKind
    ensures { result ≡ line_kind line.now }
{
    if line.len() > MAX_LINE {
        LineKind::Over
    } else if is_blank(line) {
        LineKind::Blank
    } else {
        LineKind::Whole
    }
}

pub(crate) fn is_blank(line: &[u8]) -> bool
    ensures { result ≡ list_all is_space line.now }
{
    line.iter().all(|byte| matches!(byte, b' ' | b'\t' | b'\r'))
}
