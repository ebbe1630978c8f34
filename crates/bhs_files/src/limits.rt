//! The limits of the files.

/// The latest version of network files. Version 1 is read as well, and has fewer nodes.
pub const NETWORK_VERSION: u16 = 2;

/// The latest version of tournament files. Versions 1 and 2 are read as well, and have smaller quotas and whiteboards.
pub const TOURNAMENT_VERSION: u16 = 3;

/// The most matches of a tournament. The least is 1.
pub const MAX_MATCHES: usize = 64;

/// The most bytes of the name of a network's file. The least is 1.
pub const MAX_NETWORK_NAME: usize = 255;

/// The most bytes of a key that lets an agent enter. The least is 1.
pub const MAX_KEY: usize = 64;

/// The most keys of one match.
pub const MAX_KEYS: usize = 65_535;
