//! What a table says at each key, or the fault of the key.

ghost use Rattle.std.specs.Prelude.{◌≡◌, ◌≤◌, false, Some, None, IfOk, [], option_map};
ghost use Rattle.std.specs.Prelude.{option_copied, option_to_list, vec_len, map};
ghost use Rattle.toml.specs.Data.{get_member};
ghost use Rattle.toml.specs.View.{view, table_view};
ghost use Rattle.bhs_files.specs.Words.{word};
ghost use Rattle.bhs_files.specs.Reading.{Gives, GivesUnlessMemory, present, shaped, required, optional};
ghost use Rattle.bhs_files.specs.Shapes as shapes;
ghost use Rattle.bhs_files.specs.Tournaments.{dangers_in, delays_in, schedule_in, schedule_if};
ghost use Rattle.bhs_files.specs.Tournaments.{checked_keys, is_known, known_keys, unknown_key};
ghost use Rattle.bhs_files.specs.declared.file_keys.FileKey.TheVariants as keys;

use crate::faults::FileFault;
use crate::file_keys::FileKey;
use crate::limits::{MAX_KEYS, MAX_MATCHES};
use crate::shapes;
use bhs_model::{DarkLinks, Holes, SEED_BYTES, Text};
use bhs_net::Memory;
use bhs_time::{Delays, ScheduleKind};
use std::alloc::Global;
use toml::{Table, Value};

/// The value of a key, if the table has the key.
pub fn lookup<'a>(table: &'a Table, key: &str) -> Option<&'a Value>
    ensures { option_map (λ value. view value.now) result ≡ get_member key.now (table_view table.now) }
{
    table.get(key)
}

/// Returns the known keys at the top level, or of a match, in a file of this version.
pub fn known_keys(version: u16, game: Option<u32>) -> &'static [FileKey]
    ensures { result.now ≡ known_keys version game }
{
    match game {
        None => keys_of_tournament(version),
        Some(_) => keys_of_match(version),
    }
}

fn keys_of_tournament(version: u16) -> &'static [FileKey]
    ensures { result.now ≡ known_keys version None }
{
    if version < 3 {
        &[FileKey::Version, FileKey::Seed, FileKey::Match]
    } else {
        &[
            FileKey::Version,
            FileKey::Seed,
            FileKey::Schedule,
            FileKey::DelayScales,
            FileKey::DelayOdds,
            FileKey::Match,
        ]
    }
}

fn keys_of_match(version: u16) -> &'static [FileKey]
    ensures { result.now ≡ known_keys version (Some 0) }
{
    if version == 1 {
        &[
            FileKey::Team,
            FileKey::Network,
            FileKey::Home,
            FileKey::Hole,
            FileKey::Quota,
            FileKey::Board,
            FileKey::Keys,
            FileKey::Held,
        ]
    } else {
        &[
            FileKey::Team,
            FileKey::Network,
            FileKey::Home,
            FileKey::Holes,
            FileKey::Dark,
            FileKey::Quota,
            FileKey::Board,
            FileKey::Keys,
            FileKey::Held,
        ]
    }
}

/// Returns whether a word is a known key, at the top level or of a match, in a file of this version.
pub fn is_known(version: u16, game: Option<u32>, word: &str) -> bool
    ensures { result ≡ is_known version game word.now }
{
    known_keys(version, game)
        .iter()
        .any(|known| word == known.word())
}

/// Returns the first unknown key of a table, at the top level or of a match, in a file of this version.
pub fn unknown_key(version: u16, game: Option<u32>, table: &Table) -> Option<&str>
    ensures { option_copied result ≡ unknown_key version game (table_view table.now) }
{
    let key = table
        .keys()
        .find(|key| !is_known(version, game, key.as_str()))?;
    Some(key.as_str())
}

/// From version 3 of a tournament's file on, its tables have no unknown key.
pub fn check_keys(version: u16, game: Option<u32>, table: &Table) -> Result<(), FileFault>
    ensures { result ≡ checked_keys version game (table_view table.now) }
{
    if 3 <= version && unknown_key(version, game, table).is_some() {
        return Err(FileFault::Unknown { game });
    }
    Ok(())
}

/// Returns the value of a required key, or the fault that it is absent.
pub fn present(game: Option<u32>, key: FileKey, table: &Table) -> Result<&Value, FileFault>
    ensures { Gives (λ value. view value.now) result
        (present game key (get_member (word key) (table_view table.now))) }
{
    match lookup(table, key.word()) {
        Some(value) => Ok(value),
        None => Err(FileFault::Missing { game, key }),
    }
}

/// What the value of a key stands for, if it has the key's shape.
pub fn shaped<T: Drop>(game: Option<u32>, key: FileKey, value: Option<T>) -> Result<T, FileFault>
    ensures { result ≡ shaped game key value }
{
    value.ok_or(FileFault::Shape { game, key })
}

pub fn number(game: Option<u32>, key: FileKey, table: &Table) -> Result<u16, FileFault>
    ensures { result ≡ required game key shapes.number (table_view table.now) }
{
    shaped(game, key, shapes::number(present(game, key, table)?))
}

pub fn seed(table: &Table) -> Result<[u8; SEED_BYTES], FileFault>
    ensures { result ≡ required None keys.Seed shapes.seed (table_view table.now) }
{
    shaped(
        None,
        FileKey::Seed,
        shapes::seed(present(None, FileKey::Seed, table)?),
    )
}

fn delays(table: &Table) -> Result<Delays, FileFault>
    ensures { result ≡ delays_in (table_view table.now) }
{
    let value = present(None, FileKey::DelayScales, table)?;
    let scales = shaped(None, FileKey::DelayScales, shapes::delay_scales(value))?;
    let value = present(None, FileKey::DelayOdds, table)?;
    let odds = shaped(None, FileKey::DelayOdds, shapes::delay_odds(scales, value))?;
    Ok(Delays::new(scales, odds))
}

/// Whether the table names the oblivious schedule. It may name none.
pub fn is_oblivious(table: &Table) -> Result<bool, FileFault>
    ensures { result ≡ optional None keys.Schedule shapes.is_oblivious false (table_view table.now) }
{
    match lookup(table, FileKey::Schedule.word()) {
        Some(value) => shaped(None, FileKey::Schedule, shapes::is_oblivious(value)),
        None => Ok(false),
    }
}

/// The schedule of a tournament, in a file of this version.
pub fn schedule(version: u16, table: &Table) -> Result<ScheduleKind, FileFault>
    ensures { result ≡ schedule_in version (table_view table.now) }
{
    if version < 3 || !is_oblivious(table)? {
        return Ok(ScheduleKind::Adaptive);
    }
    Ok(ScheduleKind::Oblivious(delays(table)?))
}

pub fn matches(alloc: Global, table: &Table) -> Result<Vec<&Table>, FileFault>
    ensures reads { GivesUnlessMemory (λ tables. map (λ table. table_view table.now) tables.items) result
        (required None keys.Match shapes.matches (table_view table.now)) }
    ensures few { IfOk result (λ tables. vec_len tables ≤ MAX_MATCHES) }
{
    let value = present(None, FileKey::Match, table)?;
    shaped(None, FileKey::Match, shapes::matches(alloc, value)?)
}

pub fn team(game: Option<u32>, table: &Table) -> Result<&str, FileFault>
    ensures { Gives (λ name. name.now) result
        (required game keys.Team shapes.team (table_view table.now)) }
{
    shaped(
        game,
        FileKey::Team,
        shapes::team(present(game, FileKey::Team, table)?),
    )
}

pub fn network(game: Option<u32>, table: &Table) -> Result<&str, FileFault>
    ensures { Gives (λ name. name.now) result
        (required game keys.Network shapes.network_name (table_view table.now)) }
{
    shaped(
        game,
        FileKey::Network,
        shapes::network_name(present(game, FileKey::Network, table)?),
    )
}

fn hole(game: Option<u32>, table: &Table) -> Result<Option<u16>, FileFault>
    ensures { result ≡ required game keys.Hole shapes.hole (table_view table.now) }
{
    shaped(
        game,
        FileKey::Hole,
        shapes::hole(present(game, FileKey::Hole, table)?),
    )
}

fn one_hole(alloc: Global, hole: Option<u16>) -> Result<Holes, Memory>
    ensures { IfOk result (λ holes. holes ≡ option_to_list hole) }
{
    let mut holes = Vec::new(alloc);
    if let Some(hole) = hole {
        holes.push(hole)?;
    }
    Ok(Holes::from(holes))
}

fn holes(alloc: Global, game: Option<u32>, table: &Table) -> Result<Vec<u16>, FileFault>
    ensures { GivesUnlessMemory (λ holes. holes.items) result
        (required game keys.Holes shapes.holes (table_view table.now)) }
{
    let value = present(game, FileKey::Holes, table)?;
    shaped(game, FileKey::Holes, shapes::holes(alloc, value)?)
}

/// The black holes and the dark links of a match, in a file of this version.
pub fn dangers(
    alloc: Global,
    version: u16,
    game: Option<u32>,
    table: &Table,
) -> Result<(Holes, DarkLinks), FileFault>
    ensures { GivesUnlessMemory (λ dangers. dangers) result
        (dangers_in version game (table_view table.now)) }
{
    if version == 1 {
        let holes = one_hole(alloc, hole(game, table)?)?;
        Ok((holes, DarkLinks::from(Vec::new(alloc))))
    } else {
        let holes = holes(alloc, game, table)?;
        let dark = ends(alloc, game, FileKey::Dark, table)?;
        Ok((Holes::from(holes), DarkLinks::from(dark)))
    }
}

pub fn keys(alloc: Global, game: Option<u32>, table: &Table) -> Result<Vec<Text>, FileFault>
    ensures reads { GivesUnlessMemory (λ keys. keys.items) result
        (required game keys.Keys shapes.keys (table_view table.now)) }
    ensures few { IfOk result (λ keys. vec_len keys ≤ MAX_KEYS) }
{
    let value = present(game, FileKey::Keys, table)?;
    shaped(game, FileKey::Keys, shapes::keys(alloc, value)?)
}

/// The links that a key lists; none if the table lacks the key.
pub fn ends(
    alloc: Global,
    game: Option<u32>,
    key: FileKey,
    table: &Table,
) -> Result<Vec<(u16, u16)>, FileFault>
    ensures { GivesUnlessMemory (λ ends. ends.items) result
        (optional game key shapes.ends [] (table_view table.now)) }
{
    match lookup(table, key.word()) {
        Some(value) => shaped(game, key, shapes::ends(alloc, value)?),
        None => Ok(Vec::new(alloc)),
    }
}
