//! The setup of a match.

use crate::dark_links::DarkLinks;
use crate::holes::Holes;

/// The parameters of a match apart from its network.
#[derive(Clone, Debug, PartialEq, Eq, Drop)]
pub struct Setup {
    /// The node at which every agent enters.
    pub home: u16,
    /// The nodes that destroy each agent that arrives; none in a practice match.
    pub holes: Holes,
    /// The links that destroy whoever is delivered over them, in either direction.
    pub dark: DarkLinks,
    /// The number of agents.
    pub agents: u16,
    /// How many commands each agent may use, Enter and Leave not counted.
    pub quota: u16,
    /// How many bytes a whiteboard holds.
    pub board: u16,
}
