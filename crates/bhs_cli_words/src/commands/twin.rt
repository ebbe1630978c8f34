//! The words and options of `twin`.

use crate::commands::{Argument, Need, REPLAY, Subcommand, Takes};
use crate::help::twin::HELP;

pub(crate) const COMMAND: Subcommand = Subcommand {
    name: "twin",
    help: HELP,
    arguments: &[REPLAY, NODE],
};

pub(crate) const NODE: Argument = Argument {
    id: "node",
    option: None,
    name: "NODE",
    need: Need::Required,
    takes: Takes::Number {
        least: 0,
        most: 65_535,
    },
    help: "The node that is the black hole of the twin",
};
