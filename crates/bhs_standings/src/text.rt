//! The text of a table.

ghost use Rattle.std.specs.Prelude.{◌≡◌, IfOk, ℕ, List, slice_get, string_bytes};
ghost use Rattle.bhs_standings.specs.Tables.{outcome_text, line, line_of, table_of};
ghost use Rattle.bhs_standings.specs.Ranks.{IsRanking};

use crate::ranks::rank;
use crate::rows::Row;
use bhs_net::Memory;
use bhs_referee::Outcome;
use std::alloc::Global;

/// How an outcome is printed.
pub fn outcome_text(alloc: Global, outcome: Outcome) -> Result<String, Memory>
    ensures { IfOk result (λ text. string_bytes text ≡ outcome_text outcome) }
{
    match outcome {
        Outcome::Solved => format!(in alloc; "solved"),
        Outcome::Guess { node } => format!(in alloc; "guess {node}"),
        Outcome::Unfinished => format!(in alloc; "unfinished"),
        Outcome::Silent => format!(in alloc; "silent"),
        Outcome::Wrong => format!(in alloc; "wrong"),
    }
}

// Formats the line of a row; ranks count from 1.
fn line(alloc: Global, place: usize, row: &Row) -> Result<String, Memory>
    ensures { IfOk result (λ text. string_bytes text ≡ line place row.now) }
{
    let outcome = outcome_text(alloc, row.verdict.outcome)?;
    let outcome = outcome.as_str();
    let team = row.team.as_str();
    let moves = row.verdict.moves;
    let lost = row.verdict.lost;
    format!(in alloc; "{place:>3} {team:<16} {outcome:<10} {moves:>6} {lost:>4}\n")
}

// The line of the row at a place of the list, with its place from 1 in the table; nothing past the end of the list.
fn line_at(alloc: Global, place: usize, rows: &[Row], at: usize) -> Result<String, Memory>
    ensures { IfOk result (λ text. string_bytes text ≡ line_of place (slice_get rows.now at)) }
{
    match rows.get(at) {
        Some(row) => line(alloc, place, row),
        None => Ok(String::new(alloc)),
    }
}

/// The table of these rows, the best first: a head line, and then a line for each row.
pub fn table(alloc: Global, rows: &[Row]) -> Result<String, Memory>
    ensures { IfOk result (λ text. (places : List ℕ) × IsRanking rows.now places
        × (string_bytes text ≡ table_of rows.now places)) }
{
    let places = rank(alloc, rows)?;
    let mut text = String::from_str(alloc, "  # team             outcome     moves lost\n")?;
    for (ahead, place) in places.iter().enumerate() {
        let line = line_at(alloc, ahead + 1, rows, *place)?;
        text.push_str(line.as_str())?;
    }
    Ok(text)
}
