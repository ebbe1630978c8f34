//! The words and options of `explain`.

use crate::commands::{Argument, Need, REPLAY, Subcommand, Takes};
use crate::help::explain::HELP;

pub(crate) const COMMAND: Subcommand = Subcommand {
    name: "explain",
    help: HELP,
    arguments: &[REPLAY, AGENT],
};

pub(crate) const AGENT: Argument = Argument {
    id: "agent",
    option: None,
    name: "AGENT",
    need: Need::Required,
    takes: Takes::Number {
        least: 0,
        most: 65_535,
    },
    help: "The agent's number, from 0",
};
