//! Who comes before whom.

ghost use Rattle.std.specs.Prelude.{◌≡◌, IfOk};
ghost use Rattle.bhs_standings.specs.Ranks.{rank_of, compare, compare_at, IsRanking};

use crate::rows::Row;
use bhs_net::Memory;
use bhs_referee::Outcome;
use std::alloc::Global;
use std::cmp::Ordering;

/// The places of the rows, the best first: by outcome, then by fewer moves, then by fewer lost agents, then by the
/// team's bytes. Rows that tie stand in the order of the list.
pub fn rank(alloc: Global, rows: &[Row]) -> Result<Vec<usize>, Memory>
    ensures { IfOk result (λ places. IsRanking rows.now places.items) }
{
    let mut places = Vec::with_capacity(alloc, rows.len())?;
    for place in 0..rows.len() {
        places.push(place)?;
    }
    places.sort_by(|one, other| compare_at(rows, *one, *other))?;
    Ok(places)
}

// Which of the rows at two places comes first.
fn compare_at(rows: &[Row], one: usize, other: usize) -> Ordering
    ensures { result ≡ compare_at rows.now one other }
{
    match (rows.get(one), rows.get(other)) {
        (Some(one), Some(other)) => compare(one, other),
        (Some(_), None) => Ordering::Greater,
        (None, Some(_)) => Ordering::Less,
        (None, None) => Ordering::Equal,
    }
}

// Which of two rows comes first.
fn compare(one: &Row, other: &Row) -> Ordering
    ensures { result ≡ compare one.now other.now }
{
    rank_of(one.verdict.outcome)
        .cmp(&rank_of(other.verdict.outcome))
        .then(one.verdict.moves.cmp(&other.verdict.moves))
        .then(one.verdict.lost.cmp(&other.verdict.lost))
        .then(one.team.as_bytes().cmp(other.team.as_bytes()))
}

// The rank of an outcome, the best first.
fn rank_of(outcome: Outcome) -> u8
    ensures { result ≡ rank_of outcome }
{
    match outcome {
        Outcome::Solved => 0,
        Outcome::Guess { .. } => 1,
        Outcome::Unfinished => 2,
        Outcome::Silent => 3,
        Outcome::Wrong => 4,
    }
}
