//! The words and options of `rehearse`.

use crate::commands::{Argument, Need, Subcommand, Takes};
use crate::help::rehearse::HELP;

pub(crate) const COMMAND: Subcommand = Subcommand {
    name: "rehearse",
    help: HELP,
    arguments: &[TOURNAMENT, PREFIX, INTERACTIVE],
};

pub(crate) const TOURNAMENT: Argument = Argument {
    id: "tournament",
    option: None,
    name: "TOURNAMENT",
    need: Need::Optional,
    takes: Takes::Text,
    help: "The tournament's file, as a path from the working directory; without it the built-in one",
};

pub(crate) const PREFIX: Argument = Argument {
    id: "prefix",
    option: Some("replay"),
    name: "PREFIX",
    need: Need::Optional,
    takes: Takes::Text,
    help: "Writes the replay of each match M that has ended to the file PREFIXM.jsonl",
};

pub(crate) const INTERACTIVE: Argument = Argument {
    id: "interactive",
    option: Some("interactive"),
    name: "",
    need: Need::Switch,
    takes: Takes::Text,
    help: "Plays each line as it comes, and ends each answer by an empty line",
};
