//! The words and options of `attest`.

use crate::commands::explore::{MODULE, WAKEUPS};
use crate::commands::{REPLAY, Subcommand};
use crate::help::attest::HELP;

pub(crate) const COMMAND: Subcommand = Subcommand {
    name: "attest",
    help: HELP,
    arguments: &[REPLAY, MODULE, WAKEUPS],
};

/// What is told where no module is given.
pub(crate) const NEED_MODULE: &str =
    "attest needs --module <FILE[:N,..]>, once for all agents or once for each";
