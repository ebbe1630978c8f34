//! Reasons to refuse a file.

ghost use Rattle.std.specs.Prelude.{◌≡◌};
ghost use Rattle.bhs_files.specs.declared.faults.FileFault.TheVariants.{Memory};
ghost use Rattle.bhs_files.specs.NetworkFiles.{of_network};

use crate::file_keys::FileKey;
use bhs_net::NetFault;
use bhs_world::SetupFault;
use std::alloc::{AllocError, AllocFailed};
use std::error::Error;
use std::fmt;

/// Why a file, or what files say together, is refused. In `game` stands the number of a match; None is the
/// top level of a file.
#[derive(Clone, Copy, Debug, PartialEq, Eq)]
pub enum FileFault {
    /// The text is no TOML document.
    Toml,
    /// The file lacks `version`, or it is none of its kind: 1 up to `NETWORK_VERSION` or `TOURNAMENT_VERSION`.
    Version,
    /// A table of a file of version 3 has an unknown key.
    Unknown { game: Option<u32> },
    /// A key is absent.
    Missing { game: Option<u32>, key: FileKey },
    /// The value of a key has the wrong type or range.
    Shape { game: Option<u32>, key: FileKey },
    /// The links make no network.
    Net(NetFault),
    /// The setup of a match violates the limits for its network.
    Setup { game: u32, fault: SetupFault },
    /// The key of this agent is that of an earlier agent of the tournament.
    KeyTwice { game: u32, agent: u16 },
    /// The held link at this place of the match's list is no port of a node.
    Held { game: u32, index: usize },
    /// Memory ran out.
    Memory,
}

impl fmt::Display for FileFault {
    fn fmt<W: fmt::Write>(&self, f: &mut fmt::Formatter<W>) -> fmt::Result {
        match self {
            FileFault::Toml => f.write_str("toml"),
            FileFault::Version => f.write_str("version"),
            FileFault::Unknown { game: None } => f.write_str("unknown key"),
            FileFault::Unknown { game: Some(game) } => write!(f, "match {game} unknown key"),
            FileFault::Missing { game: None, key } => write!(f, "missing {key}"),
            FileFault::Missing {
                game: Some(game),
                key,
            } => write!(f, "match {game} missing {key}"),
            FileFault::Shape { game: None, key } => write!(f, "shape {key}"),
            FileFault::Shape {
                game: Some(game),
                key,
            } => write!(f, "match {game} shape {key}"),
            FileFault::Net(fault) => write!(f, "{fault}"),
            FileFault::Setup { game, fault } => write!(f, "match {game} {fault}"),
            FileFault::KeyTwice { game, agent } => write!(f, "match {game} key {agent} twice"),
            FileFault::Held { game, index } => write!(f, "match {game} held {index}"),
            FileFault::Memory => f.write_str("memory"),
        }
    }
}

impl Error for FileFault {}

impl From<AllocError> for FileFault {
    ghost from_gives = { λ _ fault. fault ≡ Memory };

    fn from(_: AllocError) -> FileFault {
        FileFault::Memory
    }
}

impl<T: Drop> From<AllocFailed<T>> for FileFault {
    ghost from_gives = { λ _ fault. fault ≡ Memory };

    fn from(_: AllocFailed<T>) -> FileFault {
        FileFault::Memory
    }
}

impl From<NetFault> for FileFault {
    ghost from_gives = { λ fault found. found ≡ of_network fault };

    fn from(fault: NetFault) -> FileFault {
        match fault {
            NetFault::Memory => FileFault::Memory,
            _ => FileFault::Net(fault),
        }
    }
}
