//! The end of a text that is written line by line.

ghost use Rattle.std.specs.Prelude.{ℕ, List, IfErr, OnOk};
ghost use Rattle.bhs_stream.specs.Sending.{PutsAll};
ghost use Rattle.bhs_cli.specs.Playing.{StopsPlaying};
ghost use Rattle.bhs_cli.specs.Showing.{PrintsByLine};

use crate::reporting::faults::{Fault, report};
use crate::reporting::statuses::DONE;
use bhs_stream::{Output, finish};
use std::io::Write;

/// Sees that a text is out that was written line by line, if no fault came before, and answers the exit status.
pub fn passed_on<W: Output, E: Write>(
    written: Result<(), Fault>,
    writer: &mut W,
    errors: &mut E,
) -> u8
    ensures { (start : W) (text : List ℕ) → OnOk written (PutsAll W.takes start text writer.old)
        → IfErr written (StopsPlaying W.takes text start writer.old)
        → PrintsByLine W.takes W.flushes text start writer.new result }
{
    if let Err(fault) = written {
        return report("output", fault, errors);
    }
    match finish(writer) {
        Ok(()) => DONE,
        Err(_) => report("output", Fault::Write, errors),
    }
}
