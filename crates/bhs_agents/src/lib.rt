//! Agents that follow a strategy, one step after another, and agents that run WebAssembly modules.
#![tactic(auto)]

mod module_agent;
mod searchers;
mod wake_ups;

pub use module_agent::ModuleAgent;
pub use searchers::{AgentNews, PlayLimits, Searcher, SearcherFault};
pub use wake_ups::WakeUps;
