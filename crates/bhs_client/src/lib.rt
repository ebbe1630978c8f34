//! Agents as clients of a server, among them those that run a protocol that is proved for every size.
#![tactic(auto)]

mod chart_agent;
mod commands;
mod laws;
mod player;
mod protocol_agent;
mod replies;

pub use chart_agent::ChartAgent;
pub use commands::line_of;
pub use laws::{replies_are_read, writes_have_this_length};
pub use player::{Lost, PlayEnd, PlayFault, ServerConnection, play};
pub use protocol_agent::{Protocol, ProtocolAgent, ProtocolMemory};
pub use replies::reply_of;
