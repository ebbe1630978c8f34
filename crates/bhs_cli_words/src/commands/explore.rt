//! The words and options of `explore`.

use crate::commands::{Argument, Need, Subcommand, TOURNAMENT, Takes};
use crate::help::explore::HELP;

pub(crate) const COMMAND: Subcommand = Subcommand {
    name: "explore",
    help: HELP,
    arguments: &[
        TOURNAMENT, GAME, MODULE, ALL_HOLES, STATES, WAKEUPS, DRAWS, SEED, SCHEDULER, OBJECTIVE,
    ],
};

pub(crate) const GAME: Argument = Argument {
    id: "match",
    option: None,
    name: "MATCH",
    need: Need::Required,
    takes: Takes::Number {
        least: 0,
        most: 65_535,
    },
    help: "The match's number, from 0",
};

pub(crate) const MODULE: Argument = Argument {
    id: "module",
    option: Some("module"),
    name: "FILE[:N,..]",
    need: Need::AnyNumber,
    takes: Takes::Module,
    help: "All agents run this WebAssembly module, with these numbers as its arguments; no host is asked. Given \
        once for each agent, each runs its own",
};

pub(crate) const ALL_HOLES: Argument = Argument {
    id: "all-holes",
    option: Some("all-holes"),
    name: "",
    need: Need::Switch,
    takes: Takes::Text,
    help: "With --module each node but the home base is the only black hole in turn, on all processors",
};

pub(crate) const STATES: Argument = Argument {
    id: "max-states",
    option: Some("max-states"),
    name: "N",
    need: Need::Default("10000000"),
    takes: Takes::Number {
        least: 1,
        most: 4_294_967_295,
    },
    help: "Visits at most this many states; a million take about 50 megabytes. With --draws the most \
        turns of a schedule",
};

pub(crate) const WAKEUPS: Argument = Argument {
    id: "spurious-wakeups",
    option: Some("spurious-wakeups"),
    name: "N",
    need: Need::Default("2"),
    takes: Takes::Number {
        least: 0,
        most: 65_535,
    },
    help: "How often a sleeping agent may wake again though nothing has changed in front of it",
};

pub(crate) const DRAWS: Argument = Argument {
    id: "draws",
    option: Some("draws"),
    name: "N",
    need: Need::Optional,
    takes: Takes::Number {
        least: 1,
        most: 4_294_967_295,
    },
    help: "Draws this many schedules instead of trying all; for networks with too many states",
};

pub(crate) const SEED: Argument = Argument {
    id: "seed",
    option: Some("seed"),
    name: "S",
    need: Need::Optional,
    takes: Takes::Number {
        least: 0,
        most: 4_294_967_295,
    },
    help: "Draws from this seed; without it from 0",
};

pub(crate) const SCHEDULER: Argument = Argument {
    id: "scheduler",
    option: Some("scheduler"),
    name: "NAME",
    need: Need::Optional,
    takes: Takes::Scheduler,
    help: "Whose turn it is among the agents that can move; without it fair",
};

pub(crate) const OBJECTIVE: Argument = Argument {
    id: "objective",
    option: Some("objective"),
    name: "WHAT",
    need: Need::Optional,
    takes: Takes::Objective,
    help: "Begins every second schedule as the worst so far began: moves or lost",
};

/// What is told where schedules are not drawn.
pub(crate) const NEED_DRAWS: &str =
    "--seed <S>, --scheduler <NAME> and --objective <WHAT> need --draws <N>";

/// What is told where a host plays the agents and all black holes are wanted.
pub(crate) const NEED_MODULE: &str = "--all-holes needs --module <FILE[:N,..]>";

/// The names of schedulers.
pub(crate) const SCHEDULERS: &str = "fair, last-departed, starved, slow-agents, slow-links";

/// The names of objectives.
pub(crate) const HUNTS: &str = "moves, lost";
