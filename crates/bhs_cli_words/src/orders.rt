//! The orders that the program can carry out.

ghost use Rattle.std.specs.Prelude.{◌≡◌};

use bhs_model::{Objective, Scheduler};
use bhs_text::Text;
use std::marker::Model;

/// An order to the program.
#[derive(Drop)]
pub enum Order {
    /// Plays the script on standard input with the tournament of this file; None selects the built-in tournament. A
    /// prefix makes the program write the replays of ended matches to files whose names begin with the prefix.
    Rehearse {
        tournament: Option<Text>,
        prefix: Option<Text>,
    },
    /// The same, but the script is played as it comes, each of its lines answered before more is read.
    RehearseInteractively {
        tournament: Option<Text>,
        prefix: Option<Text>,
    },
    /// Reads the tournament file of this name and the networks that it names, and says what its matches are.
    Check {
        tournament: Text,
    },
    /// Says the verdict on the match of the replay of this name.
    Judge {
        replay: Text,
    },
    /// Says it if each delivery of the match was made at its turn.
    Appeal {
        replay: Text,
        appeal: Appeal,
    },
    /// Prints the table of these teams, by the verdicts on the matches of their replays.
    Table {
        entries: Entries,
    },
    /// Prints the table of the teams of the tournament of this file, by the replays whose names begin with the prefix.
    ContestTable {
        tournament: Text,
        prefix: Text,
    },
    /// Prints the causal past of this agent in the match of the replay.
    Explain {
        replay: Text,
        agent: u16,
    },
    /// Writes the replay of the twin of the match whose black hole is this node.
    Twin {
        replay: Text,
        node: u16,
    },
    /// Prints the replay of the match of a part, which is the file of this name.
    Recover {
        part: Text,
    },
    /// Writes the replays that are missing of a contest of the tournament of this file, by the parts whose names begin
    /// with the prefix, and prints its table.
    RecoverContest {
        tournament: Text,
        prefix: Text,
    },
    /// Tries every schedule, or schedules that are drawn, of a match of the tournament of this file, whose agents a
    /// host plays.
    Explore {
        tournament: Text,
        exploration: Exploration,
    },
    /// The same with agents that run modules: one module for all agents, or one for each.
    ExploreModules {
        tournament: Text,
        modules: AgentModules,
        exploration: Exploration,
    },
    /// The same, but each node other than the home base is the only black hole in turn.
    ExploreAllHoles {
        tournament: Text,
        modules: AgentModules,
        exploration: Exploration,
    },
    /// Compares the log of the replay with what modules say: one module for all agents, or one for each. An agent that
    /// sleeps may wake again so often although nothing has changed in front of it.
    Attest {
        replay: Text,
        modules: AgentModules,
        wakeups: u16,
    },
    /// Serves the tournament of this file to agents that connect.
    Serve {
        tournament: Text,
        hosting: Hosting,
    },
}

/// The most sessions that are served.
pub const MAX_SESSIONS: u32 = 1024;

/// How a contest is served.
#[derive(Drop)]
pub struct Hosting {
    /// The TCP port to listen on, from 1.
    pub port: u16,
    /// How many sessions are served, 1 to 1024.
    pub sessions: u32,
    /// After how many turns each match is closed.
    pub turns: u32,
    /// How many milliseconds pass before each turn.
    pub pause: u32,
    /// How many milliseconds sessions may last once all matches are closed.
    pub grace: u32,
    /// How many milliseconds a match waits for its agents to enter before its turns begin.
    pub gather: u32,
    /// Whether a match is closed as soon as each of its agents has ended or is lost.
    pub early: bool,
    /// Whether it is told on standard error what happens.
    pub log: bool,
    /// The address to listen on.
    pub address: Text,
    /// With what the names of the replays begin.
    pub prefix: Text,
}

/// What shows whether the deliveries of a replay were made at their turns.
#[derive(Drop)]
pub struct Appeal {
    /// The file of the turns of its events.
    pub turns: Text,
    /// The file of the tournament.
    pub tournament: Text,
    /// The match, by its number in the tournament.
    pub game: u16,
}

/// Which schedules are drawn.
#[derive(Clone, Copy, Debug, PartialEq, Eq)]
pub struct Drawing {
    /// How many schedules, 1 or more.
    pub schedules: u32,
    /// The seed of the random schedules.
    pub seed: u32,
    /// Whose turn it is.
    pub scheduler: Scheduler,
    /// The optional quantity to maximise over schedules that succeed.
    pub objective: Option<Objective>,
}

/// Which schedules are tried: drawn ones, or all.
#[derive(Clone, Copy, Debug, PartialEq, Eq)]
pub struct Exploration {
    /// The match, by its number in the tournament.
    pub game: u16,
    /// How many states are visited at most, or how many turns a drawn schedule has at most; 1 or more.
    pub states: u32,
    /// How often an agent that sleeps may wake again though nothing has changed in front of it.
    pub wakeups: u16,
    /// The parameters of drawn schedules; None to try all schedules.
    pub drawing: Option<Drawing>,
}

/// The most arguments of a module.
pub const MAX_ARGUMENTS: u32 = 16;

/// The module that an agent runs, or all agents of a match.
#[derive(Drop)]
pub struct AgentModule {
    /// The module's file.
    pub file: Text,
    pub arguments: ModuleArguments,
}

/// The modules that the agents of a match run. Contracts see them as a list.
#[derive(Drop)]
pub struct AgentModules {
    all: Vec<AgentModule>,
}

impl Model for AgentModules {
    ghost use Rattle.std.specs.Prelude.{List};
    ghost use Rattle.bhs_cli_words.specs.declared.orders.AgentModule.{AgentModule};

    ghost Value = { List AgentModule };

    ghost view = { λ modules. modules.all.items };
}

impl AgentModules {
    /// The modules, in the order of the words.
    pub fn all(&self) -> &[AgentModule]
        ensures { result.now ≡ self.now }
    {
        &self.all
    }
}

impl From<Vec<AgentModule>> for AgentModules {
    ghost from_gives = { λ all modules. modules ≡ all.items };

    fn from(all: Vec<AgentModule>) -> AgentModules {
        AgentModules { all }
    }
}

/// The arguments of a module, at most `MAX_ARGUMENTS`. Contracts see them as a list.
#[derive(Drop)]
pub struct ModuleArguments {
    all: Vec<u32>,
}

impl Model for ModuleArguments {
    ghost use Rattle.std.specs.Prelude.{List, ℕ};

    ghost Value = { List ℕ };

    ghost view = { λ arguments. arguments.all.items };
}

impl ModuleArguments {
    /// The arguments, in the order of the word.
    pub fn all(&self) -> &[u32]
        ensures { result.now ≡ self.now }
    {
        &self.all
    }
}

impl From<Vec<u32>> for ModuleArguments {
    ghost from_gives = { λ all arguments. arguments ≡ all.items };

    fn from(all: Vec<u32>) -> ModuleArguments {
        ModuleArguments { all }
    }
}

/// A team of a table, with the name of the replay of its match.
#[derive(Drop)]
pub struct TableEntry {
    pub team: Text,
    pub replay: Text,
}

/// The teams of a table. Contracts see them as a list.
#[derive(Drop)]
pub struct Entries {
    all: Vec<TableEntry>,
}

impl Model for Entries {
    ghost use Rattle.std.specs.Prelude.{List};
    ghost use Rattle.bhs_cli_words.specs.declared.orders.TableEntry.{TableEntry};

    ghost Value = { List TableEntry };

    ghost view = { λ entries. entries.all.items };
}

impl Entries {
    /// The entries, in the order of the words.
    pub fn all(&self) -> &[TableEntry]
        ensures { result.now ≡ self.now }
    {
        &self.all
    }
}

impl From<Vec<TableEntry>> for Entries {
    ghost from_gives = { λ all entries. entries ≡ all.items };

    fn from(all: Vec<TableEntry>) -> Entries {
        Entries { all }
    }
}
