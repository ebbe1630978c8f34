//! The words and options of `serve`.

use crate::commands::{Argument, Need, Subcommand, TOURNAMENT, Takes};
use crate::help::serve::HELP;
use crate::orders::MAX_SESSIONS;

pub(crate) const COMMAND: Subcommand = Subcommand {
    name: "serve",
    help: HELP,
    arguments: &[
        TOURNAMENT, PORT, SESSIONS, TURNS, PAUSE, PREFIX, GRACE, GATHER, EARLY, ADDRESS, LOG,
    ],
};

pub(crate) const PORT: Argument = Argument {
    id: "port",
    option: Some("port"),
    name: "PORT",
    need: Need::Default("4000"),
    takes: Takes::Number {
        least: 1,
        most: 65_535,
    },
    help: "The port to listen on, 1 to 65535",
};

pub(crate) const SESSIONS: Argument = Argument {
    id: "sessions",
    option: Some("sessions"),
    name: "SESSIONS",
    need: Need::Default("1024"),
    takes: Takes::Number {
        least: 1,
        most: MAX_SESSIONS,
    },
    help: "How many agents may play at a time, 1 to 1024",
};

pub(crate) const TURNS: Argument = Argument {
    id: "turns",
    option: Some("turns"),
    name: "TURNS",
    need: Need::Default("100000"),
    takes: Takes::Number {
        least: 0,
        most: 4_294_967_295,
    },
    help: "After how many turns each match is closed",
};

pub(crate) const PAUSE: Argument = Argument {
    id: "pause",
    option: Some("pause"),
    name: "PAUSE",
    need: Need::Default("5"),
    takes: Takes::Number {
        least: 0,
        most: 4_294_967_295,
    },
    help: "How many milliseconds pass before each turn",
};

pub(crate) const PREFIX: Argument = Argument {
    id: "prefix",
    option: Some("replay"),
    name: "PREFIX",
    need: Need::Optional,
    takes: Takes::Text,
    help: "\
Writes the replay of each match M to the file PREFIXM.jsonl; without it the file of the tournament gives PREFIX, the \
matches gather and end early, and the log is told",
};

pub(crate) const GRACE: Argument = Argument {
    id: "grace",
    option: Some("grace"),
    name: "MS",
    need: Need::Default("10000"),
    takes: Takes::Number {
        least: 0,
        most: 4_294_967_295,
    },
    help: "How many milliseconds sessions may last once all matches are closed",
};

pub(crate) const GATHER: Argument = Argument {
    id: "gather",
    option: Some("gather"),
    name: "MS",
    need: Need::Default("0"),
    takes: Takes::Number {
        least: 0,
        most: 4_294_967_295,
    },
    help: "\
How many milliseconds a match waits for its agents to enter before its turns begin",
};

pub(crate) const EARLY: Argument = Argument {
    id: "early",
    option: Some("early"),
    name: "",
    need: Need::Switch,
    takes: Takes::Text,
    help: "Closes a match as soon as each of its agents has ended or is lost",
};

pub(crate) const ADDRESS: Argument = Argument {
    id: "address",
    option: Some("address"),
    name: "ADDRESS",
    need: Need::Default("127.0.0.1"),
    takes: Takes::Text,
    help: "The address to listen on, of IPv4 or IPv6",
};

pub(crate) const LOG: Argument = Argument {
    id: "log",
    option: Some("log"),
    name: "",
    need: Need::Switch,
    takes: Takes::Text,
    help: "Tells on standard error who plays, and how sessions and matches end",
};
