//! The texts of the help, but those of single words and options.

pub(crate) mod attest;
pub(crate) mod check;
pub(crate) mod explain;
pub(crate) mod explore;
pub(crate) mod judge;
pub(crate) mod recover;
pub(crate) mod rehearse;
pub(crate) mod serve;
pub(crate) mod table;
pub(crate) mod twin;

/// The texts of a command's help.
#[derive(Clone, Copy)]
pub(crate) struct Help {
    /// One line, for the list of commands.
    pub(crate) about: &'static str,
    /// What stands in front of the words and options.
    pub(crate) at_length: &'static str,
    /// What stands behind them.
    pub(crate) example: &'static str,
}

pub(crate) const ARENA: &str = "A contest server for black hole search by mobile agents";

pub(crate) const ARENA_AT_LENGTH: &str = "\
A contest server for black hole search by mobile agents.

Agents explore an anonymous network. Its nodes have no names: at a node an agent
sees how many ports there are, by which of them it came, and what is written on
the whiteboard. A node may be a black hole, and a link may be dark: these destroy
every agent that arrives, and leave no trace. An agent is a stream of JSON lines,
and is told no more than this model allows.

The program serves a contest to agents that connect over TCP, and writes the
replay of each match. It also rehearses: it plays a script that has the lines of
many clients. It judges replays, ranks teams by them, and explains why an agent
saw what it saw. It reads the files of a tournament, and says what is wrong with
them.";
