//! The commands of the program. Each command has a row for each of its words and options, with name, range, default and
//! help; the whole command line is derived from these rows.

pub(crate) mod attest;
pub(crate) mod check;
pub(crate) mod explain;
pub(crate) mod explore;
pub(crate) mod judge;
pub(crate) mod recover;
pub(crate) mod rehearse;
pub(crate) mod serve;
pub(crate) mod table;
pub(crate) mod twin;

use crate::help::Help;

/// A command of the program.
#[derive(Clone, Copy)]
pub(crate) struct Subcommand {
    pub(crate) name: &'static str,
    pub(crate) help: Help,
    /// Its words and options, in the order of its help.
    pub(crate) arguments: &'static [Argument],
}

/// A word or an option of a command.
#[derive(Clone, Copy)]
pub(crate) struct Argument {
    /// By what clap finds the word.
    pub(crate) id: &'static str,
    /// The option, without its hyphens; None of a word that stands by its place.
    pub(crate) option: Option<&'static str>,
    /// What help and faults call the word; empty if the option takes none.
    pub(crate) name: &'static str,
    pub(crate) need: Need,
    pub(crate) takes: Takes,
    pub(crate) help: &'static str,
}

/// Whether a word is required.
#[derive(Clone, Copy)]
pub(crate) enum Need {
    Required,
    /// One word or more must be given.
    OneOrMore,
    Optional,
    /// No word, one or more may be given.
    AnyNumber,
    /// The default, if the word is omitted.
    Default(&'static str),
    /// The option takes no word.
    Switch,
}

/// What a word may be.
#[derive(Clone, Copy)]
pub(crate) enum Takes {
    Text,
    /// A number from `least` to `most`.
    Number { least: u32, most: u32 },
    /// The name of a scheduler.
    Scheduler,
    /// The name of an objective.
    Objective,
    /// A team and its replay.
    TableEntry,
    /// A module's file and its arguments.
    Module,
}

/// The commands, in the order of the help.
pub(crate) const COMMANDS: [Subcommand; 10] = [
    rehearse::COMMAND,
    check::COMMAND,
    judge::COMMAND,
    table::COMMAND,
    explain::COMMAND,
    twin::COMMAND,
    recover::COMMAND,
    explore::COMMAND,
    attest::COMMAND,
    serve::COMMAND,
];

/// The tournament that a command works on.
pub(crate) const TOURNAMENT: Argument = Argument {
    id: "tournament",
    option: None,
    name: "TOURNAMENT",
    need: Need::Required,
    takes: Takes::Text,
    help: "The tournament's file, as a path from the working directory",
};

/// The replay that a command works on.
pub(crate) const REPLAY: Argument = Argument {
    id: "replay",
    option: None,
    name: "REPLAY",
    need: Need::Required,
    takes: Takes::Text,
    help: "The replay's file, as a path from the working directory",
};
