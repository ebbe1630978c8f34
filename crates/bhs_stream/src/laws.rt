//! What reads and writes come to where the bytes of a reader or a writer are known. The functions do nothing.

ghost use Rattle.std.specs.Prelude.{ℕ, List};
ghost use Rattle.std.specs.Io.KnownBytes.{Appends, Consumes, IsAtEnd};
ghost use Rattle.bhs_stream.specs.Known.{AppendsPart, StoppedBy};
ghost use Rattle.bhs_stream.specs.Reading.{Closes, EndsBy};
ghost use Rattle.bhs_stream.specs.Sending.{PutsAll, PutsPart};
ghost use Rattle.bhs_stream.specs.Streams.{End, known_gives, known_takes};
ghost use Rattle.bhs_stream.specs.declared.reader.ReadFault.{ReadFault};

use std::io::{Read, Write};

/// A text that was read to the end consists of all remaining bytes of the reader.
pub fn known_texts<R: Read>()
    ensures { (old new : R) (limit turns : ℕ) (text : List ℕ)
        → Closes (known_gives R.remaining) old limit turns text End new
        → Consumes (R.remaining old) (R.remaining new) text × IsAtEnd (R.remaining new) }
{}

/// A fault of reading says how many bytes the reader gave before it.
pub fn known_faults<R: Read>()
    ensures { (old new : R) (limit turns : ℕ) (fault : ReadFault)
        → EndsBy (known_gives R.remaining) old limit turns fault new
        → (bytes : List ℕ) × Consumes (R.remaining old) (R.remaining new) bytes × StoppedBy fault limit turns bytes }
{}

/// Bytes that were all sent are what the writer has more.
pub fn known_sends<W: Write>()
    ensures { (old new : W) (bytes : List ℕ) → PutsAll (known_takes W.contents) old bytes new
        → Appends (W.contents old) (W.contents new) bytes }
{}

/// Where a write failed or took nothing, the writer has the first of the bytes more, and the last of them is missing.
pub fn known_parts<W: Write>()
    ensures { (old new : W) (bytes : List ℕ) → PutsPart (known_takes W.contents) old bytes new
        → AppendsPart (W.contents old) (W.contents new) bytes }
{}
