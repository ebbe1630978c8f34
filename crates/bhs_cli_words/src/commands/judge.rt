//! The words and options of `judge`.

use crate::commands::{Argument, Need, REPLAY, Subcommand, Takes};
use crate::help::judge::HELP;

pub(crate) const COMMAND: Subcommand = Subcommand {
    name: "judge",
    help: HELP,
    arguments: &[REPLAY, TURNS, TOURNAMENT, GAME],
};

pub(crate) const TURNS: Argument = Argument {
    id: "turns",
    option: Some("turns"),
    name: "TURNS",
    need: Need::Optional,
    takes: Takes::Text,
    help: "Checks the deliveries by this file, which has the turn of each event",
};

pub(crate) const TOURNAMENT: Argument = Argument {
    id: "tournament",
    option: Some("tournament"),
    name: "TOURNAMENT",
    need: Need::Optional,
    takes: Takes::Text,
    help: "The file of the tournament whose seed made the deliveries",
};

pub(crate) const GAME: Argument = Argument {
    id: "match",
    option: Some("match"),
    name: "MATCH",
    need: Need::Optional,
    takes: Takes::Number {
        least: 0,
        most: 65_535,
    },
    help: "The match's number in the tournament, from 0",
};

/// The message for an incomplete group of options.
pub(crate) const TOGETHER: &str =
    "--turns <TURNS>, --tournament <TOURNAMENT> and --match <MATCH> go together";
