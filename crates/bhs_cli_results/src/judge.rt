//! The verdict on the match of a replay.

ghost use Rattle.std.specs.Prelude.{◌≡◌, IfOk, string_bytes};
ghost use Rattle.bhs_cli_results.specs.Reports.{IsJudgement, verdict_line};
ghost use Rattle.bhs_cli.specs.Showing.{Prints, Reports};

use bhs_cli::{match_of, show_made};
use bhs_net::Memory;
use bhs_referee::{Verdict, judge};
use bhs_standings::outcome_text;
use bhs_stream::Output;
use std::alloc::Global;
use std::io::Write;
use std::rt::Files;

/// Reads a replay, and prints the verdict on its match as a line. A fault goes to `errors` and ends it. The answer is
/// the exit status.
pub fn print_verdict<F: Files, W: Output, E: Write>(
    alloc: Global,
    files: &F,
    name: &str,
    writer: &mut W,
    errors: &mut E,
) -> u8
    ensures { Reports (Prints W.takes W.flushes) IsJudgement writer.old writer.new result }
{
    match match_of(alloc, files, name, errors) {
        Ok(sealed) => show_made(verdict_line(alloc, judge(&sealed)), writer, errors),
        Err(status) => status,
    }
}

/// The line of a verdict.
pub fn verdict_line(alloc: Global, verdict: Verdict) -> Result<String, Memory>
    ensures { IfOk result (λ text. string_bytes text ≡ verdict_line verdict) }
{
    let outcome = outcome_text(alloc, verdict.outcome)?;
    let outcome = outcome.as_str();
    let moves = verdict.moves;
    let lost = verdict.lost;
    format!(in alloc; "{outcome} moves {moves} lost {lost}\n")
}
