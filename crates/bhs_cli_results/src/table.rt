//! The table of teams, by the replays of their matches.

ghost use Rattle.std.specs.Prelude.{IfOk, IfErr};
ghost use Rattle.bhs_cli.specs.Fault.{IsOfFault};
ghost use Rattle.bhs_cli_results.specs.Reports.{AreRows, IsRow, IsTable};
ghost use Rattle.bhs_cli.specs.Showing.{Prints, Reports};

use bhs_cli::{Fault, match_of, report, show_made};
use bhs_cli_words::TableEntry;
use bhs_referee::judge;
use bhs_standings::{Row, table};
use bhs_stream::Output;
use std::alloc::Global;
use std::io::Write;
use std::rt::Files;

/// Reads the replays, each judged before the next is read, and prints the table of their teams. The first fault goes to
/// `errors` and ends it. The answer is the exit status.
pub fn print_table<F: Files, W: Output, E: Write>(
    alloc: Global,
    files: &F,
    entries: &[TableEntry],
    writer: &mut W,
    errors: &mut E,
) -> u8
    ensures { Reports (Prints W.takes W.flushes) (IsTable entries.now) writer.old writer.new result }
{
    match rows_of(alloc, files, entries, errors) {
        Ok(rows) => show_made(table(alloc, &rows), writer, errors),
        Err(status) => status,
    }
}

// The rows of entries, or the exit status of a fault that was reported.
fn rows_of<F: Files, E: Write>(
    alloc: Global,
    files: &F,
    entries: &[TableEntry],
    errors: &mut E,
) -> Result<Vec<Row>, u8>
    ensures rows { IfOk result (λ rows. AreRows entries.now rows.items) }
    ensures fault { IfErr result IsOfFault }
{
    let mut rows = Vec::new(alloc);
    for entry in entries {
        let row = row_of(alloc, files, entry, errors)?;
        if rows.push(row).is_err() {
            return Err(report(entry.replay.as_str(), Fault::Memory, errors));
        }
    }
    Ok(rows)
}

fn row_of<F: Files, E: Write>(
    alloc: Global,
    files: &F,
    entry: &TableEntry,
    errors: &mut E,
) -> Result<Row, u8>
    ensures row { IfOk result (IsRow entry.now) }
    ensures fault { IfErr result IsOfFault }
{
    let name = entry.replay.as_str();
    let verdict = judge(&match_of(alloc, files, name, errors)?);
    let Ok(team) = String::from_str(alloc, entry.team.as_str()) else {
        return Err(report(name, Fault::Memory, errors));
    };
    Ok(Row { team, verdict })
}
