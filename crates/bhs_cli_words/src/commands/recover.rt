//! The words and options of `recover`.

use crate::commands::{Argument, Need, Subcommand, Takes};
use crate::help::recover::HELP;

pub(crate) const COMMAND: Subcommand = Subcommand {
    name: "recover",
    help: HELP,
    arguments: &[FILE, PREFIX],
};

pub(crate) const FILE: Argument = Argument {
    id: "file",
    option: None,
    name: "FILE",
    need: Need::Required,
    takes: Takes::Text,
    help: "\
The part's file, or with --replay that of the tournament, as a path from the working directory",
};

pub(crate) const PREFIX: Argument = Argument {
    id: "prefix",
    option: Some("replay"),
    name: "PREFIX",
    need: Need::Optional,
    takes: Takes::Text,
    help: "\
Finishes a contest of this tournament: writes the replays PREFIXM.jsonl that are missing, and prints the table",
};
