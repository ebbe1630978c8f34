//! A match as its tournament's file has it.

ghost use Rattle.std.specs.Prelude.{◌≤◌, vec_len};
ghost use Rattle.bhs_files.specs.declared.limits.TheConstants.{MAX_KEYS};

use bhs_model::{DarkLinks, Holes, Text};

/// One match of a tournament, as its file describes it.
#[derive(Drop)]
pub struct Fixture {
    /// The version of the file. The earlier ones allow smaller quotas and whiteboards than a match may have.
    pub version: u16,
    /// The team that plays.
    pub team: Text,
    /// The name of the network's file.
    pub network: Text,
    /// The node at which every agent enters.
    pub home: u16,
    /// The nodes that destroy each agent that arrives.
    pub holes: Holes,
    /// The links that destroy whoever is delivered over them, in either direction.
    pub dark: DarkLinks,
    /// How many commands each agent may use, Enter and Leave not counted.
    pub quota: u16,
    /// How many bytes a whiteboard holds.
    pub board: u16,
    /// The key of each agent, by number.
    pub keys: Vec<Text>,
    /// The links over which no draw lets an agent arrive, each as a node and the port by which it is left.
    pub held: Vec<(u16, u16)>,
    ghost few_keys: { vec_len keys ≤ MAX_KEYS },
}
