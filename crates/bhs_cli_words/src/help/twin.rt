//! The help of `twin`.

use crate::help::Help;

pub(crate) const HELP: Help = Help {
    about: "Writes the replay of a twin: a black hole elsewhere, and nobody could tell",
    at_length: AT_LENGTH,
    example: EXAMPLE,
};

const AT_LENGTH: &str = "\
Reads a replay, and prints the replay of its twin: the same match, with a black
hole at this node in place of another one, the first that was accused over a link
that is not dark, or else the least. In the twin each agent saw what it saw in
the match. A node has such a twin if no agent arrived there and it is neither the
home base nor a black hole. The twin refutes a guess: `arena judge` calls it
`wrong`.

If there is no such twin, standard error tells why, as `twin: FAULT`:

  node       The node does not exist
  home       The node is the home base
  same       It is a black hole already
  reached K  An agent arrived there, first at place K";

const EXAMPLE: &str = "\
Example:

  arena twin cup0.jsonl 1 > twin0.jsonl
  arena judge twin0.jsonl

prints, if `arena judge cup0.jsonl` prints guess 1 moves 0 lost 0,

  wrong moves 0 lost 0

Exit status:

  0  The twin was written
  2  The command line was refused
  3  The file is not a replay: head, line or end
  4  The replay could not have happened: event or differs; or there is no such
     twin
  5  Memory ran out
  6  Reading or writing failed";
