//! The exit statuses of the program.

/// The exit status if all was done.
pub const DONE: u8 = 0;

/// The exit status if a schedule fails, or may go on for ever.
pub const FAILING: u8 = 1;

/// The exit status if the command line was refused.
pub const REFUSED_WORDS: u8 = 2;

/// The exit status if a script or a file was refused.
pub const REFUSED_TEXT: u8 = 3;

/// The exit status if no match has the events of a replay, or a match has no such twin.
pub const REFUSED_MATCH: u8 = 4;

/// The exit status if memory ran out.
pub const NO_MEMORY: u8 = 5;

/// The exit status if reading or writing failed, or needed too many turns.
pub const FAILED_STREAM: u8 = 6;

/// The exit status if a thread could not be started.
pub const NO_THREADS: u8 = 7;
