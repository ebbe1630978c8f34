//! Writing a text whole.

// Bytes sent to a writer.
ghost use Rattle.std.specs.Prelude.{true, false, OnOk, OnErr};
ghost use Rattle.bhs_stream.specs.Sending.{PutsAll, PutsPart};

use crate::streams::Output;
use thiserror::Error;

/// A write failed, or took none of the bytes that were left. A write that a signal interrupted is not made
/// again.
#[derive(Clone, Copy, Debug, PartialEq, Eq, Drop, Error)]
#[error("write")]
pub struct WriteFault;

/// Writes all the bytes, by as many writes as it takes. No bytes are no write.
///
/// At a fault the writer has the first of the bytes, those that its writes took, and never all; the last
/// write failed or took none.
pub fn send<W: Output>(writer: &mut W, bytes: &[u8]) -> Result<(), WriteFault>
    ensures ok { OnOk result (PutsAll W.takes writer.old bytes.now writer.new) }
    ensures err { OnErr result (PutsPart W.takes writer.old bytes.now writer.new) }
{
    let mut sent = 0;
    while sent < bytes.len() {
        match writer.write_some(&bytes[sent..]) {
            Ok(0) | Err(_) => return Err(WriteFault),
            Ok(count) => sent += count,
        }
    }
    Ok(())
}

/// Has a writer that holds bytes back, as a `BufWriter` does, pass them on. Where such a writer is dropped
/// it passes them on too, and a write that then fails goes unseen. Standard output itself holds none back.
pub fn finish<W: Output>(writer: &mut W) -> Result<(), WriteFault>
    ensures ok { OnOk result (W.flushes writer.old true writer.new) }
    ensures err { OnErr result (W.flushes writer.old false writer.new) }
{
    writer.pass_on().map_err(|_| WriteFault)
}
