//! The keys of a tournament.

ghost use Rattle.std.specs.Prelude.{◌≤◌, ◌<◌, ◌^◌, [], ◌∷◌, map, length};
ghost use Rattle.bhs_files.specs.Reading.{GivesUnlessMemory};
ghost use Rattle.bhs_files.specs.declared.limits.TheConstants.{MAX_KEYS};
ghost use Rattle.bhs_tournament.specs.KeyTable.{distinct, seats_of_match, key_table};

use bhs_files::{FileFault, Fixture};
use bhs_model::Text;
use bhs_setups::Keys;
use std::alloc::Global;

/// The keys of all matches. The first key, by match and agent, that equals an earlier one of any match is the fault
/// `KeyTwice`.
pub fn keys_of(alloc: Global, matches: &[Fixture]) -> Result<Keys, FileFault>
    requires { length matches.now < 2 ^ 32 }
    ensures { GivesUnlessMemory (λ keys. keys) result
        (key_table (map (λ fixture. fixture.keys.items) matches.now)) }
{
    let mut table = Keys::new(alloc);
    for (game, fixture) in matches.iter().enumerate() {
        add_keys(alloc, &mut table, game as u32, &fixture.keys)?;
    }
    Ok(table)
}

// Adds the keys of a match.
fn add_keys(alloc: Global, table: &mut Keys, game: u32, keys: &[Text]) -> Result<(), FileFault>
    requires { length keys.now ≤ MAX_KEYS }
    ensures { GivesUnlessMemory (λ _. table.new) result
        (distinct table.old (seats_of_match game 0 keys.now)) }
{
    for (agent, key) in keys.iter().enumerate() {
        add_key(alloc, table, (game, agent as u16), key)?;
    }
    Ok(())
}

// Adds a key that no earlier agent has.
fn add_key(alloc: Global, table: &mut Keys, seat: (u32, u16), key: &Text) -> Result<(), FileFault>
    ensures { GivesUnlessMemory (λ _. table.new) result
        (distinct table.old ((key.now, seat) ∷ [])) }
{
    let (game, agent) = seat;
    let key = String::from_str(alloc, key.as_str())?;
    if table.insert(key, seat)? {
        Ok(())
    } else {
        Err(FileFault::KeyTwice { game, agent })
    }
}
