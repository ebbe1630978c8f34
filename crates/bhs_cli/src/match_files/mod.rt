//! The files of matches: replays, turns and parts.

pub(crate) mod parts;
pub(crate) mod private_files;
pub(crate) mod replays;
pub(crate) mod turn_files;
pub(crate) mod turns;
