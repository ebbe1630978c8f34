//! The words and options of `table`.

use crate::commands::{Argument, Need, Subcommand, Takes};
use crate::help::table::HELP;

pub(crate) const COMMAND: Subcommand = Subcommand {
    name: "table",
    help: HELP,
    arguments: &[ENTRIES, PREFIX],
};

pub(crate) const ENTRIES: Argument = Argument {
    id: "entry",
    option: None,
    name: "TEAM=REPLAY",
    need: Need::OneOrMore,
    takes: Takes::TableEntry,
    help: "\
A team, and the file of the replay of its match; they are split at the first =. With --replay only one word: the file \
of the tournament",
};

pub(crate) const PREFIX: Argument = Argument {
    id: "prefix",
    option: Some("replay"),
    name: "PREFIX",
    need: Need::Optional,
    takes: Takes::Text,
    help: "\
Prints the table of a contest of this tournament: the replay of match M is the file PREFIXM.jsonl",
};

/// What is told where --replay has more words.
pub(crate) const ONE_WORD: &str =
    "--replay <PREFIX> goes with one word, which is the file of the tournament";
