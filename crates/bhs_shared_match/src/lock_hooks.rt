//! Hooks for every command, before and under the lock.

/// Hooks that are called before, under and after a match's lock for each submitted command. Tests use them to make
/// threads wait for each other.
pub trait LockHooks {
    /// Before the lock of match `game` is asked for, for a command of `agent`.
    fn asked(&self, game: u32, agent: u16);

    /// While the lock is held, before the command is submitted.
    fn locked(&self, game: u32, agent: u16);

    /// After the lock was released.
    fn answered(&self, game: u32, agent: u16);
}

/// The hooks that do nothing.
#[derive(Clone, Copy, Debug)]
pub struct NoHooks;

impl LockHooks for NoHooks {
    fn asked(&self, _game: u32, _agent: u16) {}

    fn locked(&self, _game: u32, _agent: u16) {}

    fn answered(&self, _game: u32, _agent: u16) {}
}
