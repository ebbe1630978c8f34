//! Texts that are written to an output and passed on.

ghost use Rattle.std.specs.Prelude.{◌≡◌, IfOk, OnOk, OnErr, true, false, ◌⊎◌, string_bytes};
ghost use Rattle.bhs_stream.specs.Sending.{PutsPart};
ghost use Rattle.bhs_cli.specs.Showing.{Prints, Shows};
ghost use Rattle.bhs_cli.specs.declared.reporting.statuses.TheConstants.{NO_MEMORY};

use crate::reporting::faults::{Fault, report};
use crate::reporting::statuses::DONE;
use bhs_net::Memory;
use bhs_stream::{Output, WriteFault, finish, send};
use std::io::Write;

// Writes a text and flushes the output.
fn show<W: Output>(text: &str, writer: &mut W) -> Result<(), WriteFault>
    ensures ok { OnOk result (Shows W.takes W.flushes text.now true writer.old writer.new) }
    ensures err { OnErr result (PutsPart W.takes writer.old text.now writer.new
        ⊎ Shows W.takes W.flushes text.now false writer.old writer.new) }
{
    send(writer, text.as_bytes())?;
    finish(writer)
}

/// Writes a text and flushes the output. Reports faults to `errors`. Returns the exit status.
pub fn show_text<W: Output, E: Write>(text: &str, writer: &mut W, errors: &mut E) -> u8
    ensures { Prints W.takes W.flushes text.now writer.old writer.new result }
{
    match show(text, writer) {
        Ok(()) => DONE,
        Err(_) => report("output", Fault::Write, errors),
    }
}

/// Shows a text as `show_text` does, if there was memory to make it; else that goes to `errors`. The answer is the exit
/// status.
pub fn show_made<W: Output, E: Write>(
    made: Result<String, Memory>,
    writer: &mut W,
    errors: &mut E,
) -> u8
    ensures shown { IfOk made (λ text. Prints W.takes W.flushes (string_bytes text) writer.old writer.new result) }
    ensures lacks { OnErr made ((result ≡ NO_MEMORY) × (writer.new ≡ writer.old)) }
{
    match made {
        Ok(text) => show_text(text.as_str(), writer, errors),
        Err(_) => report("output", Fault::Memory, errors),
    }
}
