//! Which agent of which match each key lets in.

ghost use Rattle.std.specs.Prelude.{◌≡◌, [], not, string_bytes, IfOk, OnErr};
ghost use Rattle.bhs_setups.specs.KeyTable.{seat_at, has_key, with_seat};

use bhs_net::Memory;
use indexmap::IndexMap;
use std::alloc::Global;
use std::marker::Model;

/// The keys of a tournament; each key admits one agent of one match. Contracts see a list of the keys in the order of
/// their insertion, each as bytes with the numbers of its match and agent.
#[derive(Debug, Drop)]
pub struct Keys {
    seats: IndexMap<String, (u32, u16)>,
}

impl Model for Keys {
    ghost use Rattle.std.specs.Prelude.{List};
    ghost use Rattle.bhs_setups.specs.KeyTable.{Seat};
    ghost use Rattle.bhs_setups.specs.Seats.{by_bytes};

    ghost Value = { List Seat };

    ghost view = { λ keys. by_bytes keys.seats.entries };
}

impl Keys {
    /// No keys.
    pub fn new(alloc: Global) -> Keys
        ensures { result ≡ [] }
    {
        Keys {
            seats: IndexMap::new(alloc),
        }
    }

    /// Adds a key that admits an agent; returns false for a duplicate key. The numbers identify the match and its
    /// agent.
    pub fn insert(&mut self, key: String, seat: (u32, u16)) -> Result<bool, Memory>
        ensures added { IfOk result (λ added. added ≡ not (has_key (string_bytes key) self.old)) }
        ensures seats { IfOk result (λ _. self.new ≡ with_seat self.old (string_bytes key, seat)) }
        ensures err { OnErr result (self.new ≡ self.old) }
    {
        if self.seats.contains_key(key.as_str()) {
            return Ok(false);
        }
        self.seats.insert(key, seat)?;
        Ok(true)
    }

    /// Returns the numbers of the match and the agent that a key admits, or None if the key is unknown.
    pub fn find(&self, key: &str) -> Option<(u32, u16)>
        ensures { result ≡ seat_at key.now self.now }
    {
        self.seats.get(key).copied()
    }
}
