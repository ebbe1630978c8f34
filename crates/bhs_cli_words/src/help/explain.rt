//! The help of `explain`.

use crate::help::Help;

pub(crate) const HELP: Help = Help {
    about: "Prints the causal past of an agent: why it saw what it saw",
    at_length: AT_LENGTH,
    example: EXAMPLE,
};

const AT_LENGTH: &str = "\
Reads a replay, and prints each event of the match that the agent could know of,
as `PLACE LINE`: the event's place in the match, from 0, and its line of the
replay. These are the agent's own events, what it read on whiteboards, what those
who wrote there had seen, and so on. Played alone, they get the same answers. If
no agent has this number, nothing is printed. On a terminal, characters that
would control it are spelled, as in `\\u001b`.";

const EXAMPLE: &str = "\
Example:

  arena explain cup0.jsonl 0

prints, if agent 0 accused from its home base,

  0 {\"agent\":0,\"do\":\"enter\",\"reply\":{\"board\":\"\",\"from\":null,\"ok\":\"here\",\"ports\":2}}
  1 {\"agent\":0,\"do\":\"accuse\",\"port\":1,\"reply\":{\"ok\":\"noted\"}}

Exit status:

  0  The past was printed
  2  The command line was refused
  3  The file is not a replay: head, line or end
  4  The replay could not have happened: event or differs
  5  Memory ran out
  6  Reading or writing failed";
