//! Reading a tournament file.

ghost use Rattle.std.specs.Prelude.{◌≡◌, ◌<◌, ◌^◌, IfOk, map, vec_len, length};
ghost use Rattle.toml.specs.View.{table_view};
ghost use Rattle.bhs_files.specs.Reading.{GivesUnlessMemory};
ghost use Rattle.bhs_files.specs.Tournaments.{planned, plan, match_in, matches_in, plan_in, tournament_in};

use crate::faults::FileFault;
use crate::file_keys::FileKey;
use crate::fixtures::Fixture;
use crate::limits::TOURNAMENT_VERSION;
use crate::tournaments::Tournament;
use crate::{documents, shapes, tables};
use bhs_model::Text;
use bhs_net::Memory;
use std::alloc::Global;
use toml::Table;

fn copies(alloc: Global, team: &str, network: &str) -> Result<(Text, Text), Memory>
    ensures { IfOk result (λ both. both ≡ (team.now, network.now)) }
{
    let team = shapes::copied(alloc, team)?;
    Ok((team, shapes::copied(alloc, network)?))
}

#[tactic(auto, unfolding(crate::specs::Tournaments::match_in))]
fn fixture(alloc: Global, version: u16, game: u32, table: &Table) -> Result<Fixture, FileFault>
    ensures { GivesUnlessMemory planned result (match_in version game (table_view table.now)) }
{
    let place = Some(game);
    tables::check_keys(version, place, table)?;
    let team = tables::team(place, table)?;
    let network = tables::network(place, table)?;
    let home = tables::number(place, FileKey::Home, table)?;
    let (holes, dark) = tables::dangers(alloc, version, place, table)?;
    let quota = tables::number(place, FileKey::Quota, table)?;
    let board = tables::number(place, FileKey::Board, table)?;
    let keys = tables::keys(alloc, place, table)?;
    let held = tables::ends(alloc, place, FileKey::Held, table)?;
    let (team, network) = copies(alloc, team, network)?;
    Ok(Fixture {
        version,
        team,
        network,
        home,
        holes,
        dark,
        quota,
        board,
        keys,
        held,
    })
}

fn fixtures(alloc: Global, version: u16, tables: &[&Table]) -> Result<Vec<Fixture>, FileFault>
    requires { length tables.now < 2 ^ 32 }
    ensures reads { GivesUnlessMemory (λ fixtures. map planned fixtures.items) result
        (matches_in version 0 (map (λ table. table_view table.now) tables.now)) }
    ensures len { IfOk result (λ fixtures. vec_len fixtures ≡ length tables.now) }
{
    let mut fixtures = Vec::new(alloc);
    for (game, table) in tables.iter().enumerate() {
        fixtures.push(fixture(alloc, version, game as u32, table)?)?;
    }
    Ok(fixtures)
}

#[tactic(auto, unfolding(crate::specs::Tournaments::plan_in))]
fn tournament(alloc: Global, version: u16, table: &Table) -> Result<Tournament, FileFault>
    ensures { GivesUnlessMemory plan result (plan_in (version, table_view table.now)) }
{
    tables::check_keys(version, None, table)?;
    let seed = tables::seed(table)?;
    let schedule = tables::schedule(version, table)?;
    let matches = tables::matches(alloc, table)?;
    Ok(Tournament {
        seed,
        schedule,
        matches: fixtures(alloc, version, &matches)?,
    })
}

/// Reads a tournament file of version 1, 2 or 3. The fault is the first in this order, whatever the order in the file:
/// the text is not TOML; `version`; an unknown key; `seed`; `schedule`, and for the oblivious schedule `delay_scales`
/// and `delay_odds`; `match`. Then match by match: an unknown key; `team`, `network`, `home`, `holes` and `dark` (in
/// version 1 `hole`), `quota`, `board`, `keys` and `held`. Version 3 alone has a schedule and refuses unknown keys;
/// versions 1 and 2 ignore them.
#[tactic(auto, unfolding(crate::specs::Tournaments::tournament_in))]
pub fn read_tournament(alloc: Global, text: &str) -> Result<Tournament, FileFault>
    ensures { GivesUnlessMemory plan result (tournament_in text.now) }
{
    let (version, table) = documents::document(alloc, text, TOURNAMENT_VERSION)?;
    tournament(alloc, version, &table)
}
