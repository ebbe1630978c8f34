//! The matches of a tournament, ready to begin.

use crate::key_table::Keys;
use bhs_deliveries::Held;
use bhs_match::Match;
use bhs_model::{SEED_BYTES, Text};
use bhs_time::ScheduleKind;

/// A match that is ready to be played.
#[derive(Debug, Drop)]
pub struct Ready {
    /// The team that plays.
    pub team: Text,
    /// The match, before anything happens.
    pub game: Match,
    /// The links over which no draw lets an agent arrive.
    pub held: Held,
}

/// A tournament that is ready to be played.
#[derive(Debug, Drop)]
pub struct Lineup {
    /// The seed from which the deliveries are drawn.
    pub seed: [u8; SEED_BYTES],
    /// How the turns choose whom they deliver.
    pub schedule: ScheduleKind,
    /// The matches, by number.
    pub ready: Vec<Ready>,
    /// Which agent of which match each key lets in.
    pub keys: Keys,
}
