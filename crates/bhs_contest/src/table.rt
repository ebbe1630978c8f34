//! The table of a contest.

ghost use Rattle.std.specs.Prelude.{◌≡◌, IfOk, length, map, string_bytes};
ghost use Rattle.bhs_contest.specs.Hosting.{IsStandings, IsTableBy};

use crate::verdicts::verdicts_of;
use bhs_match::Sealed;
use bhs_model::Text;
use bhs_net::Memory;
use bhs_referee::Verdict;
use bhs_standings::{Row, table};
use std::alloc::Global;
use std::thread::Threads;

/// The table of teams by the verdicts on their matches, each match judged on a thread of its own.
pub fn standings<R: Threads + Sync>(
    rt: &R,
    alloc: Global,
    teams: &[Text],
    sealed: &[Sealed],
) -> Result<String, Memory>
    requires { length teams.now ≡ length sealed.now }
    ensures { IfOk result (λ text. IsStandings teams.now sealed.now (string_bytes text)) }
{
    let verdicts = verdicts_of(rt, alloc, sealed)?;
    let rows = rows_of(alloc, teams, &verdicts)?;
    table(alloc, &rows)
}

/// The table of teams by these verdicts on their matches.
pub fn table_by(alloc: Global, teams: &[Text], verdicts: &[Verdict]) -> Result<String, Memory>
    requires { length teams.now ≡ length verdicts.now }
    ensures { IfOk result (λ text. IsTableBy teams.now verdicts.now (string_bytes text)) }
{
    let rows = rows_of(alloc, teams, verdicts)?;
    table(alloc, &rows)
}

// The rows of these teams with their verdicts, in order.
fn rows_of(alloc: Global, teams: &[Text], verdicts: &[Verdict]) -> Result<Vec<Row>, Memory>
    requires { length teams.now ≡ length verdicts.now }
    ensures teams { IfOk result (λ rows. map (λ row. string_bytes row.team) rows.items ≡ teams.now) }
    ensures verdicts { IfOk result (λ rows. map (λ row. row.verdict) rows.items ≡ verdicts.now) }
{
    let mut rows = Vec::with_capacity(alloc, teams.len())?;
    for (place, team) in teams.iter().enumerate() {
        rows.push(Row {
            team: String::from_str(alloc, team.as_str())?,
            verdict: verdicts[place],
        })?;
    }
    Ok(rows)
}
