//! A tournament as described by its file.

ghost use Rattle.std.specs.Prelude.{◌≡◌, ◌≤◌, ℕ, List, IfOk, map, vec_len};
ghost use Rattle.bhs_files.specs.declared.limits.TheConstants.{MAX_MATCHES};
ghost use Rattle.bhs_files.specs.Names.{first_seen, is_among};

use crate::fixtures::Fixture;
use bhs_model::SEED_BYTES;
use bhs_net::Memory;
use bhs_time::ScheduleKind;
use indexmap::IndexSet;
use std::alloc::Global;

/// What a tournament file says.
#[derive(Drop)]
pub struct Tournament {
    /// The seed from which the deliveries are drawn.
    pub seed: [u8; SEED_BYTES],
    /// How its turns choose whom they deliver.
    pub schedule: ScheduleKind,
    /// The matches, by number.
    pub matches: Vec<Fixture>,
    ghost few_matches: { vec_len matches ≤ MAX_MATCHES },
}

impl Tournament {
    /// The names of the networks' files, in the order in which the matches first name them.
    pub fn networks(&self, alloc: Global) -> Result<IndexSet<&str>, Memory>
        ensures exact { IfOk result (λ names. map (λ name. name.now) names.keys
            ≡ first_seen (map (λ fixture. fixture.network) self.now.matches.items)) }

        // The set consists of exactly the matches' network names.
        ensures all { IfOk result (λ names. (name : List ℕ) → is_among (map (λ name. name.now) names.keys) name
            ≡ is_among (map (λ fixture. fixture.network) self.now.matches.items) name) }
    {
        let mut names = IndexSet::new(alloc);
        for fixture in &self.matches {
            names.insert(fixture.network.as_str())?;
        }
        Ok(names)
    }
}
