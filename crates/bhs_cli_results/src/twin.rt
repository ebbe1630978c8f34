//! The replay of a twin.

ghost use Rattle.std.specs.Prelude.{◌≡◌, ◌⊎◌, length, IfErr, OnOk};
ghost use Rattle.bhs_stream.specs.Sending.{PutsAll};
ghost use Rattle.bhs_replay.specs.Replay.{replay_of_part};
ghost use Rattle.bhs_cli.specs.Filing.{IsReplayed};
ghost use Rattle.bhs_cli.specs.Playing.{StopsPlaying};
ghost use Rattle.bhs_cli_results.specs.Reports.{HasNoTwin, IsTwinReplay};
ghost use Rattle.bhs_cli.specs.Showing.{PrintsByLine, Reports};

use bhs_cli::{Fault, match_of, passed_on, report};
use bhs_match::Sealed;
use bhs_replay::write_part;
use bhs_stream::Output;
use bhs_view::{Twin, twin_of};
use std::alloc::Global;
use std::io::Write;
use std::rt::Files;

/// Reads a replay and prints the replay of its match's twin with a black hole at this node. Reports faults to `errors`,
/// also that no such twin exists. Returns the exit status.
pub fn print_twin<F: Files, W: Output, E: Write>(
    alloc: Global,
    files: &F,
    name: &str,
    node: u16,
    writer: &mut W,
    errors: &mut E,
) -> u8
    ensures { Reports (PrintsByLine W.takes W.flushes) (IsTwinReplay node) writer.old writer.new result
        ⊎ HasNoTwin node writer.old writer.new result }
{
    match match_of(alloc, files, name, errors) {
        Ok(sealed) => print_twin_of(alloc, &sealed, node, writer, errors),
        Err(status) => status,
    }
}

// Prints the replay of the twin of a match, or reports why no twin exists.
fn print_twin_of<W: Output, E: Write>(
    alloc: Global,
    sealed: &Sealed,
    node: u16,
    writer: &mut W,
    errors: &mut E,
) -> u8
    requires { IsReplayed sealed.now }
    ensures { Reports (PrintsByLine W.takes W.flushes) (IsTwinReplay node) writer.old writer.new result
        ⊎ HasNoTwin node writer.old writer.new result }
{
    match twin_of(alloc, sealed, node) {
        Ok(twin) => passed_on(write_twin(alloc, sealed, &twin, writer), writer, errors),
        Err(fault) => report("twin", Fault::from(fault), errors),
    }
}

// Writes the replay of a twin of a match.
fn write_twin<W: Output>(
    alloc: Global,
    sealed: &Sealed,
    twin: &Twin,
    writer: &mut W,
) -> Result<(), Fault>
    requires { length twin.now.left.items ≡ length sealed.now.log }
    ensures ok { OnOk result (PutsAll W.takes writer.old
        (replay_of_part twin.now.start.net twin.now.start.setup sealed.now.log twin.now.left.items) writer.new) }
    ensures err { IfErr result (StopsPlaying W.takes
        (replay_of_part twin.now.start.net twin.now.start.setup sealed.now.log twin.now.left.items)
        writer.old writer.new) }
{
    write_part(alloc, &twin.start, sealed, &twin.left, writer)?;
    Ok(())
}
