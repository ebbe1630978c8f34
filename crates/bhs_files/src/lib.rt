//! The files of a tournament: networks and matches in TOML.
#![tactic(auto)]

mod documents;
mod faults;
mod file_keys;
mod fixtures;
mod ignored;
pub mod laws;
mod limits;
mod network_files;
mod shapes;
mod tables;
mod tournament_files;
mod tournaments;

pub use faults::FileFault;
pub use file_keys::FileKey;
pub use fixtures::Fixture;
pub use ignored::{Advice, IgnoredKey, ignored_keys};
pub use limits::{
    MAX_KEY, MAX_KEYS, MAX_MATCHES, MAX_NETWORK_NAME, NETWORK_VERSION, TOURNAMENT_VERSION,
};
pub use network_files::read_network;
pub use tables::{known_keys, unknown_key};
pub use tournament_files::read_tournament;
pub use tournaments::Tournament;
