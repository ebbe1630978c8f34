//! Whom a delivery delivers.

/// How a delivery chooses its agent.
#[derive(Clone, Copy)]
pub(crate) enum Choice {
    /// The agent that a word picks out of the pool.
    Word(u32),
    /// This agent.
    Agent(u16),
}
