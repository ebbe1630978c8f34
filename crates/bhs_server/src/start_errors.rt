//! Errors that stop a contest from starting.

ghost use Rattle.std.specs.Prelude.{◌≡◌};
ghost use Rattle.bhs_server.specs.declared.start_errors.StartError.TheVariants as start_errors;

use bhs_net::Memory as NoMemory;

/// An error that stops a contest from starting.
#[derive(Clone, Copy, Debug, PartialEq, Eq)]
pub enum StartError {
    /// There was not enough memory.
    Memory,
    /// A thread that plays a match could not be started.
    Thread,
}

impl From<NoMemory> for StartError {
    ghost from_gives = { λ _ error. error ≡ start_errors.Memory };

    fn from(_memory: NoMemory) -> StartError {
        StartError::Memory
    }
}
