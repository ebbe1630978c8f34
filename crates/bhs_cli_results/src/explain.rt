//! The causal past of an agent, line by line.

ghost use Rattle.std.specs.Prelude.{◌≡◌, IfOk, IfErr, OnOk, string_bytes};
ghost use Rattle.bhs_stream.specs.Sending.{PutsAll};
ghost use Rattle.bhs_cli.specs.Playing.{StopsPlaying};
ghost use Rattle.bhs_cli_results.specs.Reports.{IsPast, displayed, line_at, lines_at, past_of};
ghost use Rattle.bhs_cli.specs.Showing.{PrintsByLine, Reports};

use bhs_cli::{Fault, match_of, passed_on};
use bhs_match::Sealed;
use bhs_net::Memory;
use bhs_replay::event_line;
use bhs_stream::{Output, send};
use bhs_terminal::visible;
use bhs_view::cut_of;
use std::alloc::{AllocError, Global};
use std::io::Write;
use std::rt::Files;

/// What standard output is, by which lines of a replay are spelled.
#[derive(Clone, Copy, Debug, PartialEq, Eq)]
pub enum OutputKind {
    /// A terminal: characters that control it are spelled as `visible` says.
    Terminal,
    /// A file or another program: each line is the replay's, byte for byte.
    Plain,
}

/// Reads a replay, and prints the causal past of an agent of its match: a line for each place, with its number and its
/// line of the replay, as `OutputKind` says; nothing if there is no such agent. The answer is the exit status.
pub fn print_past<F: Files, W: Output, E: Write>(
    alloc: Global,
    files: &F,
    name: &str,
    agent: u16,
    kind: OutputKind,
    writer: &mut W,
    errors: &mut E,
) -> u8
    ensures { Reports (PrintsByLine W.takes W.flushes) (IsPast kind agent) writer.old writer.new result }
{
    match match_of(alloc, files, name, errors) {
        Ok(sealed) => {
            let written = write_past(alloc, &sealed, agent, kind, writer);
            passed_on(written, writer, errors)
        }
        Err(status) => status,
    }
}

fn write_past<W: Output>(
    alloc: Global,
    sealed: &Sealed,
    agent: u16,
    kind: OutputKind,
    writer: &mut W,
) -> Result<(), Fault>
    ensures ok { OnOk result (PutsAll W.takes writer.old (past_of kind sealed.now agent) writer.new) }
    ensures err { IfErr result (StopsPlaying W.takes (past_of kind sealed.now agent) writer.old writer.new) }
{
    let places = cut_of(alloc, sealed, agent)?;
    write_lines(alloc, sealed, &places, kind, writer)
}

fn write_lines<W: Output>(
    alloc: Global,
    sealed: &Sealed,
    places: &[u32],
    kind: OutputKind,
    writer: &mut W,
) -> Result<(), Fault>
    ensures ok { OnOk result (PutsAll W.takes writer.old (lines_at kind sealed.now places.now) writer.new) }
    ensures err { IfErr result (StopsPlaying W.takes (lines_at kind sealed.now places.now) writer.old writer.new) }
{
    for place in places {
        let line = line_at(alloc, sealed, *place, kind)?;
        send(writer, line.as_bytes())?;
    }
    Ok(())
}

// The line of a place; nothing past the end of the log.
fn line_at(alloc: Global, sealed: &Sealed, place: u32, kind: OutputKind) -> Result<String, Memory>
    ensures { IfOk result (λ text. string_bytes text ≡ line_at kind sealed.now place) }
{
    if place as usize >= sealed.log().len() {
        return Ok(String::new(alloc));
    }
    let line = displayed(alloc, event_line(alloc, sealed, place)?, kind)?;
    format!(in alloc; "{place} {line}\n")
}

fn displayed(alloc: Global, line: String, kind: OutputKind) -> Result<String, AllocError>
    ensures { IfOk result (λ shown. string_bytes shown ≡ displayed kind (string_bytes line)) }
{
    match kind {
        OutputKind::Terminal => visible(alloc, line.as_str()),
        OutputKind::Plain => Ok(line),
    }
}
