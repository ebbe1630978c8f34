//! Reading a text to its end.

// A text read to the end of its input.
ghost use Rattle.std.specs.Prelude.{IfOk, IfErr};
ghost use Rattle.bhs_stream.specs.Streams.{End};
ghost use Rattle.bhs_stream.specs.Reading.{Closes, EndsBy};

use crate::streams::Input;
use std::alloc::Global;
use thiserror::Error;

/// The most bytes that one read asks for.
pub const BUFFER: usize = 16 * 1024;

/// Why reading a text failed.
#[derive(Clone, Copy, Debug, PartialEq, Eq, Drop, Error)]
pub enum ReadFault {
    /// A read failed. Reads that a signal interrupted are not repeated.
    #[error("read")]
    Read,
    /// The text has more bytes than the limit.
    #[error("text")]
    Text,
    /// Memory ran out.
    #[error("memory")]
    Memory,
    /// One more read than the turns allow was needed.
    #[error("turns")]
    Turns,
}

/// Reads a whole text: until a read answers 0 bytes, by at most `turns` reads, that last one among them.
/// A text has at most `limit` bytes. The read that brings more is the last one, so that at most `BUFFER`
/// bytes beyond the limit are read. With no turns nothing is read.
///
/// The clauses follow the reads one by one: `Read` comes only after a read that failed, and `Turns` only
/// after as many reads as the turns allow, each of which brought bytes.
pub fn read_text<R: Input>(
    alloc: Global,
    reader: &mut R,
    limit: usize,
    turns: u32,
) -> Result<Vec<u8>, ReadFault>
    ensures text { IfOk result (λ text. Closes R.gives reader.old limit turns text.items End reader.new) }
    ensures fault { IfErr result (λ fault. EndsBy R.gives reader.old limit turns fault reader.new) }
{
    let mut text = Vec::new(alloc);
    let mut buffer = [0u8; BUFFER];
    for _ in 0..turns {
        let Ok(count) = reader.read_some(&mut buffer) else {
            return Err(ReadFault::Read);
        };
        if count == 0 {
            return Ok(text);
        }
        if count > limit - text.len() {
            return Err(ReadFault::Text);
        }
        if text.extend_from_slice(&buffer[..count]).is_err() {
            return Err(ReadFault::Memory);
        }
    }
    Err(ReadFault::Turns)
}
