//! What contracts say of streams.

// Where bytes come from and go to. Contracts see each call.
ghost use Rattle.std.specs.Prelude.{ℕ, List, Bool, ◌<◌, ◌≤◌, length, IfOk};
ghost use Rattle.std.specs.Io.KnownBytes.{Keeps};
ghost use Rattle.bhs_stream.specs.Streams.{Chunk, chunk_of, WriteAnswer, taken_by, went, known_gives, known_takes};

use std::io;
use std::io::{Read, Write};

/// Where bytes come from. Contracts see the reads as steps from one state to the next.
pub trait Input {
    // From the first state a read may bring this, and the input is then in the second state.
    ghost gives: { Self → Chunk → Self → Type 0 };

    /// Reads once, into the front of the buffer. 0 bytes are the end.
    fn read_some(&mut self, buffer: &mut [u8]) -> io::Result<usize>
        requires { 0 < length buffer.old }
        ensures bound { IfOk result (λ count. count ≤ length buffer.new) }
        ensures gives { gives self.old (chunk_of result buffer.new) self.new };
}

/// Where bytes go to. Contracts see the writes as steps from one state to the next.
pub trait Output {
    // From the first state a write of these bytes may be answered so, and the output is then in the second state.
    ghost takes: { Self → List ℕ → WriteAnswer → Self → Type 0 };
    // The same of a flush.
    ghost flushes: { Self → Bool → Self → Type 0 };

    /// Writes once.
    fn write_some(&mut self, bytes: &[u8]) -> io::Result<usize>
        ensures bound { IfOk result (λ count. count ≤ length bytes.now) }
        ensures takes { takes self.old bytes.now (taken_by result) self.new };

    /// Passes on what is held back.
    fn pass_on(&mut self) -> io::Result<()>
        ensures { flushes self.old (went result) self.new };
}

impl<R: Read> Input for R {
    ghost gives = { known_gives R.remaining };

    fn read_some(&mut self, buffer: &mut [u8]) -> io::Result<usize> {
        self.read(buffer)
    }
}

impl<W: Write> Output for W {
    ghost takes = { known_takes W.contents };

    ghost flushes = { λ old done new. Keeps (W.contents old) (W.contents new) };

    fn write_some(&mut self, bytes: &[u8]) -> io::Result<usize> {
        self.write(bytes)
    }

    fn pass_on(&mut self) -> io::Result<()> {
        self.flush()
    }
}
