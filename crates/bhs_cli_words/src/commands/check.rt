//! The words and options of `check`.

use crate::commands::{Subcommand, TOURNAMENT};
use crate::help::check::HELP;

pub(crate) const COMMAND: Subcommand = Subcommand {
    name: "check",
    help: HELP,
    arguments: &[TOURNAMENT],
};
