//! The ignored keys of a tournament's file, each with advice on what was meant.

ghost use Rattle.std.specs.Prelude.{◌≡◌, ◌++◌, ◌<◌, ◌≤◌, ◌^◌, ◌&&◌, vec_len, drop, length, map, is_none};
ghost use Rattle.std.specs.Prelude.{IfOk, OnOk};
ghost use Rattle.toml.specs.Data.{get_member};
ghost use Rattle.toml.specs.View.{table_view};
ghost use Rattle.bhs_files.specs.Words.{word};
ghost use Rattle.bhs_files.specs.IgnoredKeys as specs;
ghost use Rattle.bhs_files.specs.Reading.{GivesUnlessMemory};
ghost use Rattle.bhs_files.specs.declared.limits.TheConstants.{MAX_MATCHES};

use crate::faults::FileFault;
use crate::file_keys::FileKey;
use crate::limits::TOURNAMENT_VERSION;
use crate::{documents, shapes, tables};
use bhs_model::Text;
use bhs_net::Memory;
use std::alloc::Global;
use toml::Table;

/// Advice on an ignored key: what its author may have meant.
#[derive(Clone, Copy, Debug, PartialEq, Eq)]
pub enum Advice {
    /// Delays belong to the oblivious schedule, which the file does not name.
    Oblivious,
    /// A file of this version has the key in this place.
    Version(u16),
    /// The key belongs into the other place: the top level of the file, or a match.
    OtherPlace,
    /// The table lacks this key, whose word is near.
    Near(FileKey),
    /// No key is like it.
    Unlike,
}

/// A key that is ignored in a file of this version. In `game` stands the number of a match; None is the top level of
/// the file.
#[derive(Debug, Drop)]
pub struct IgnoredKey {
    pub version: u16,
    pub game: Option<u32>,
    pub key: Text,
    pub advice: Advice,
}

// The word without its first letter.
fn without_first(word: &[u8]) -> &[u8]
    ensures { result.now ≡ drop 1 word.now }
{
    match word {
        [] => word,
        [_, rest @ ..] => rest,
    }
}

fn is_exchanged(one: &[u8], other: &[u8]) -> bool
    ensures { result ≡ specs.is_exchanged one.now other.now }
{
    match (one, other) {
        ([a, b, rest @ ..], [c, d, others @ ..]) => a == d && b == c && rest == others,
        _ => false,
    }
}

fn differs_at_front(one: &[u8], other: &[u8]) -> bool
    ensures { result ≡ specs.differs_at_front one.now other.now }
{
    let shorter = without_first(one);
    let shortened = without_first(other);
    shorter == other || one == shortened || shorter == shortened || is_exchanged(one, other)
}

fn is_near(one: &[u8], other: &[u8]) -> bool
    ensures { result ≡ specs.is_near one.now other.now }
{
    match (one, other) {
        ([a, rest @ ..], [b, others @ ..]) if a == b => is_near(rest, others),
        _ => differs_at_front(one, other),
    }
}

fn near_key(version: u16, game: Option<u32>, table: &Table, key: &str) -> Option<FileKey>
    ensures { result ≡ specs.near_key version game (table_view table.now) key.now }
{
    tables::known_keys(version, game)
        .iter()
        .copied()
        .find(|known| is_meant(table, key, *known))
}

// Returns whether a known key that the table lacks is spelled nearly like this key.
fn is_meant(table: &Table, key: &str, known: FileKey) -> bool
    ensures { result ≡ (specs.is_near key.now (word known)
        && is_none (get_member (word known) (table_view table.now))) }
{
    is_near(key.as_bytes(), known.word().as_bytes())
        && tables::lookup(table, known.word()).is_none()
}

// Returns the other place of a key: the top level for a match, a match for the top level.
fn other_place(game: Option<u32>) -> Option<u32>
    ensures { result ≡ specs.other_place game }
{
    match game {
        None => Some(0),
        Some(_) => None,
    }
}

fn advice_on(version: u16, game: Option<u32>, table: &Table, key: &str) -> Advice
    ensures { result ≡ specs.advice_on version game (table_view table.now) key.now }
{
    if version >= 3 {
        return Advice::Oblivious;
    }
    if tables::is_known(TOURNAMENT_VERSION, game, key) {
        return Advice::Version(TOURNAMENT_VERSION);
    }
    if tables::is_known(1, game, key) {
        return Advice::Version(1);
    }
    if tables::is_known(version, other_place(game), key) {
        return Advice::OtherPlace;
    }
    match near_key(version, game, table, key) {
        Some(known) => Advice::Near(known),
        None => Advice::Unlike,
    }
}

// The context of a table: its file's version, whether delays are allowed, and its place (top level or match).
#[derive(Clone, Copy)]
struct Place {
    version: u16,
    has_delays: bool,
    game: Option<u32>,
}

fn is_ignored(place: Place, key: &str) -> bool
    ensures { result ≡ specs.is_ignored place.version place.game place.has_delays key.now }
{
    if place.version < 3 {
        return !tables::is_known(place.version, place.game, key);
    }
    place.game.is_none()
        && !place.has_delays
        && (key == FileKey::DelayScales.word() || key == FileKey::DelayOdds.word())
}

// Adds the keys of a table that are ignored.
fn add_ignored(
    alloc: Global,
    place: Place,
    table: &Table,
    found: &mut Vec<IgnoredKey>,
) -> Result<(), Memory>
    ensures { OnOk result (found.new.items ≡ found.old.items
        ++ specs.ignored_in_table place.version place.game place.has_delays (table_view table.now)) }
{
    for key in table.keys() {
        if is_ignored(place, key.as_str()) {
            found.push(ignored_key(alloc, place, table, key.as_str())?)?;
        }
    }
    Ok(())
}

fn ignored_key(alloc: Global, place: Place, table: &Table, key: &str) -> Result<IgnoredKey, Memory>
    ensures { IfOk result (λ it. it
        ≡ specs.ignored_key place.version place.game (table_view table.now) key.now) }
{
    let Place { version, game, .. } = place;
    let advice = advice_on(version, game, table, key);
    let key = shapes::copied(alloc, key)?;
    Ok(IgnoredKey {
        version,
        game,
        key,
        advice,
    })
}

/// The keys of a tournament's file that are ignored, first those of its top level, then match by match. The fault is
/// that the text is not TOML, or `version`.
pub fn ignored_keys(alloc: Global, text: &str) -> Result<Vec<IgnoredKey>, FileFault>
    ensures { GivesUnlessMemory (λ found. found.items) result (specs.ignored_in text.now) }
{
    let (version, table) = documents::document(alloc, text, TOURNAMENT_VERSION)?;
    let has_delays = tables::is_oblivious(&table).unwrap_or(true);
    let top = Place {
        version,
        has_delays,
        game: None,
    };
    let mut found = Vec::new(alloc);
    add_ignored(alloc, top, &table, &mut found)?;
    add_of_matches(alloc, top, &match_tables(alloc, &table)?, &mut found)?;
    Ok(found)
}

// Adds the keys of the tables of matches that are ignored.
fn add_of_matches(
    alloc: Global,
    top: Place,
    matches: &[&Table],
    found: &mut Vec<IgnoredKey>,
) -> Result<(), Memory>
    requires { length matches.now < 2 ^ 32 }
    ensures { OnOk result (found.new.items ≡ found.old.items ++ specs.ignored_in_matches top.version 0
        top.has_delays (map (λ one. table_view one.now) matches.now)) }
{
    for (number, one) in matches.iter().enumerate() {
        let game = Some(number as u32);
        add_ignored(alloc, Place { game, ..top }, one, found)?;
    }
    Ok(())
}

// The tables of the matches; none where the key has another shape.
fn match_tables(alloc: Global, table: &Table) -> Result<Vec<&Table>, Memory>
    ensures reads { IfOk result (λ tables. map (λ one. table_view one.now) tables.items
        ≡ specs.match_tables (table_view table.now)) }
    ensures few { IfOk result (λ tables. vec_len tables ≤ MAX_MATCHES) }
{
    let Some(value) = tables::lookup(table, FileKey::Match.word()) else {
        return Ok(Vec::new(alloc));
    };
    match shapes::matches(alloc, value)? {
        Some(tables) => Ok(tables),
        None => Ok(Vec::new(alloc)),
    }
}
