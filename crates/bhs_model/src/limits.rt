//! The limits of the model.

/// The most agents that a match may have. The least is 1.
pub const MAX_AGENTS: u16 = 64;

/// The most commands that an agent may be granted, Enter and Leave not counted. The least is 1.
pub const MAX_QUOTA: u16 = 65_535;

/// The most bytes that a whiteboard may be set up to hold. The least is 0.
pub const MAX_BOARD: u16 = 65_535;

/// The most nodes of a network in files and replays of the earlier versions.
pub const SMALL_NODES: u16 = 256;

/// The largest quota in files and replays of the earlier versions.
pub const SMALL_QUOTA: u16 = 1000;

/// The most bytes of a whiteboard in files and replays of the earlier versions.
pub const SMALL_BOARD: u16 = 4096;

/// The most bytes of a client's line, without its line feed.
pub const MAX_LINE: usize = 65_536;

/// The most bytes of a text that is read whole, as a script.
pub const MAX_TEXT: usize = 1_048_576;

/// The most reads of one rehearsal or one session.
pub const MAX_TURNS: u32 = 16_777_216;

/// How many bytes the seed of a tournament has.
pub const SEED_BYTES: usize = 32;
