//! The help of `attest`.

use crate::help::Help;

pub(crate) const HELP: Help = Help {
    about: "Says whether the agents of a replay did what WebAssembly modules say",
    at_length: AT_LENGTH,
    example: EXAMPLE,
};

const AT_LENGTH: &str = "\
Reads a replay and the modules of its agents, and runs each module along the log:
wherever the log has a command of an agent, its module must say this command after
the replies before it. If all agents do so, the replay is attested: its log is a
schedule of these modules. What `explore` reports of every schedule of the match
holds of this replay then, whoever sent the commands.

A client in another language is attested if it said what the module says. A replay
of a match that was closed early is compared up to its close. The part that a killed
server leaves has to be recovered first. An agent that slept is taken to have woken
as seldom as its module allows.";

const EXAMPLE: &str = "\
Example:

  arena attest cup0.jsonl --module chart.wasm:2,0

prints a line for each agent, up to the first that differs, and then one for all:

  {\"module\":\"SHA-256\",\"arguments\":[2,0],\"agent\":0,\"wake_ups\":3,\"in_a_row\":1}
  {\"module\":\"SHA-256\",\"arguments\":[2,0],\"agent\":1,\"wake_ups\":0,\"in_a_row\":0}
  {\"attested\":true,\"agents\":2,\"spurious_wakeups\":2}

Of an agent that differs its line has the event's place in the log, from 0, and what
the module does there: \"event\":17,\"step\":\"sleeps\", or \"step\":\"says\" and the
command as a line of a replay. A step \"turns\" means that before this event the module
woke, or said commands that are refused, more than a million times. Modules are named
by the SHA-256 of their files, as `explore` names them. Give both commands the same
--spurious-wakeups.

Exit status:

  0  The replay is attested
  1  An agent differs from its module
  2  The command line was refused
  3  A file is no replay or no module, or the number of modules is wrong
  4  The replay could not have happened
  5  Memory ran out
  6  Reading or writing failed";
