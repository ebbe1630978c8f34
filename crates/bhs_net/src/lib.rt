//! Networks: simple graphs whose nodes number their links by ports.
#![tactic(auto)]

mod depth_first_search;
mod fast_rows;
mod faults;
mod laws;
mod link_rows;
mod links;
mod network;
mod search;
mod trees;

pub use faults::{MAX_NODES, MIN_NODES, NetFault};
pub use laws::{no_network_with_fault, one_network};
pub use links::Link;
pub use network::Net;
/// The error of a call in which memory ran out.
pub use std::alloc::AllocError as Memory;
