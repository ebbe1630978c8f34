//! The table of a contest, from the replays of its matches that exist.

ghost use Rattle.std.specs.Prelude.{◌≡◌, ◌++◌, IfOk, IfErr, OnOk, string_bytes};
ghost use Rattle.bhs_cli_results.specs.ContestTables.{AreFound, IsContestRow, IsOf, IsTableOf, TablesContest};
ghost use Rattle.bhs_cli_results.specs.ContestTables.{TablesMatches};
ghost use Rattle.bhs_cli_results.specs.ContestTables.{row_in, status_in};
ghost use Rattle.bhs_cli.specs.Fault.{IsOfFault};
ghost use Rattle.bhs_cli.specs.Showing.{Prints, Reports};

use crate::appeal::is_same_match;
use bhs_cli::{
    AppealFault, DONE, Fault, file_name, first_status, lineup_of, read_match, report, show_made,
};
use bhs_match::Sealed;
use bhs_net::Memory;
use bhs_referee::judge;
use bhs_setups::Ready;
use bhs_standings::{Row, table};
use bhs_stream::Output;
use std::alloc::Global;
use std::io::Write;
use std::rt::Files;

/// Under which name the files of a match stand.
#[derive(Drop)]
pub(crate) struct MatchFileName<'a> {
    pub(crate) prefix: &'a str,
    pub(crate) number: usize,
}

// The results of matches: the rows of those that have one, and the exit status of the first match without a row.
#[derive(Drop)]
struct Found {
    rows: Vec<Row>,
    status: u8,
}

/// Reads a tournament and the replays of its matches, whose names begin with the prefix, and prints the table of their
/// teams. A match whose replay is not there, is refused or is that of another match goes to `errors`, and the others
/// count. The answer is the exit status.
pub fn print_contest_table<F: Files, W: Output, E: Write>(
    alloc: Global,
    files: &F,
    name: &str,
    prefix: &str,
    writer: &mut W,
    errors: &mut E,
) -> u8
    ensures { TablesContest W.takes W.flushes writer.old writer.new result }
{
    match lineup_of(alloc, files, name, errors) {
        Ok(lineup) => print_matches(alloc, files, prefix, &lineup.ready, writer, errors),
        Err(status) => status,
    }
}

/// The same of these matches of a tournament.
pub(crate) fn print_matches<F: Files, W: Output, E: Write>(
    alloc: Global,
    files: &F,
    prefix: &str,
    ready: &[Ready],
    writer: &mut W,
    errors: &mut E,
) -> u8
    ensures { TablesMatches W.takes W.flushes ready.now writer.old writer.new result }
{
    let found = match found_of(alloc, files, prefix, ready, errors) {
        Ok(found) => found,
        Err(status) => return status,
    };
    let printed = print_rows(alloc, &found.rows, writer, errors);
    first_status(found.status, printed)
}

// Prints the table of these rows.
fn print_rows<W: Output, E: Write>(
    alloc: Global,
    rows: &[Row],
    writer: &mut W,
    errors: &mut E,
) -> u8
    ensures { Reports (Prints W.takes W.flushes) (IsTableOf rows.now) writer.old writer.new result }
{
    show_made(table(alloc, rows), writer, errors)
}

// Returns the results of matches in order, or the exit status if memory ran out, which is reported.
fn found_of<F: Files, E: Write>(
    alloc: Global,
    files: &F,
    prefix: &str,
    ready: &[Ready],
    errors: &mut E,
) -> Result<Found, u8>
    ensures found { IfOk result (λ found. AreFound ready.now found.rows.items found.status) }
    ensures fault { IfErr result IsOfFault }
{
    let mut rows = Vec::new(alloc);
    let mut status = DONE;
    for (number, one) in ready.iter().enumerate() {
        let file = MatchFileName { prefix, number };
        let found = row_of_match(alloc, files, &file, one, errors);
        let Ok(code) = added(&mut rows, found) else {
            return Err(report(prefix, Fault::Memory, errors));
        };
        status = first_status(status, code);
    }
    Ok(Found { rows, status })
}

// Adds a match's row, where one exists. Returns the exit status of the result.
fn added(rows: &mut Vec<Row>, found: Result<Row, u8>) -> Result<u8, Memory>
    ensures rows { OnOk result (rows.new.items ≡ rows.old.items ++ row_in found) }
    ensures status { IfOk result (λ code. code ≡ status_in found) }
{
    match found {
        Ok(row) => {
            rows.push(row)?;
            Ok(DONE)
        }
        Err(code) => Ok(code),
    }
}

// The row of a match, or the exit status of a fault that was reported.
fn row_of_match<F: Files, E: Write>(
    alloc: Global,
    files: &F,
    file: &MatchFileName<'_>,
    ready: &Ready,
    errors: &mut E,
) -> Result<Row, u8>
    ensures row { IfOk result (IsContestRow ready.now) }
    ensures fault { IfErr result IsOfFault }
{
    let Ok(name) = file_name(alloc, file.prefix, file.number) else {
        return Err(report(file.prefix, Fault::Memory, errors));
    };
    match read_row(alloc, files, name.as_str(), file.number, ready) {
        Ok(row) => Ok(row),
        Err(fault) => Err(report_left_out(name.as_str(), fault, file.number, ready, errors)),
    }
}

// Reports why a match has no row, and names the match. Returns the exit status.
fn report_left_out<E: Write>(
    name: &str,
    fault: Fault,
    number: usize,
    ready: &Ready,
    errors: &mut E,
) -> u8
    ensures { IsOfFault result }
{
    let status = report(name, fault, errors);
    let team = ready.team.as_str();
    let _ = writeln!(errors, "  match {number} ({team}) is left out of the table");
    status
}

fn read_row<F: Files>(
    alloc: Global,
    files: &F,
    name: &str,
    number: usize,
    ready: &Ready,
) -> Result<Row, Fault>
    ensures { IfOk result (IsContestRow ready.now) }
{
    let sealed = read_match(alloc, files, name)?;
    see_same(alloc, &sealed, number, ready)?;
    let Ok(team) = String::from_str(alloc, ready.team.as_str()) else {
        return Err(Fault::Memory);
    };
    Ok(Row {
        team,
        verdict: judge(&sealed),
    })
}

/// Sees that a match that has ended has the network and the setup of a tournament's match of this number.
pub(crate) fn see_same(
    alloc: Global,
    sealed: &Sealed,
    number: usize,
    ready: &Ready,
) -> Result<(), Fault>
    ensures { OnOk result (IsOf ready.now sealed.now) }
{
    if is_same_match(alloc, sealed, ready)? {
        return Ok(());
    }
    let game = u16::try_from(number).unwrap_or(u16::MAX);
    Err(Fault::Appeal(AppealFault::Other { game }))
}
