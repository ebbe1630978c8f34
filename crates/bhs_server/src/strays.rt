//! Lines of a client that were no commands.

use bhs_wire::Raw;
use std::alloc::Global;

// How many bytes of the first such line are kept at most.
const STRAY: usize = 400;

/// A client's lines, after its first one, that were no commands.
#[derive(Drop)]
pub struct Strays {
    /// How many they are.
    pub lines: u32,
    /// The first bytes, at most 400, of the first such line. Empty if the line was too long, or if memory ran out.
    pub first: Vec<u8>,
}

impl Strays {
    /// None yet.
    pub(crate) fn new(alloc: Global) -> Strays {
        Strays {
            lines: 0,
            first: Vec::new(alloc),
        }
    }

    /// One line more.
    pub(crate) fn add(&mut self, line: &Raw<'_>) {
        if self.lines == 0 {
            self.keep(line);
        }
        self.lines = self.lines.saturating_add(1);
    }

    // Stores the first bytes of a line, unless memory runs out.
    fn keep(&mut self, line: &Raw<'_>) {
        if let Raw::Whole(line) = line {
            let bytes = line.as_slice();
            let _ = self
                .first
                .extend_from_slice(&bytes[..STRAY.min(bytes.len())]);
        }
    }
}
