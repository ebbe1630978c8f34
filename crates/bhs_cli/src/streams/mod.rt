//! Lines that are read piece by piece, and texts that are written and passed on.

pub(crate) mod line_by_line;
pub(crate) mod lines;
pub(crate) mod output;
