//! The help of `table`.

use crate::help::Help;

pub(crate) const HELP: Help = Help {
    about: "Prints the table of teams, by the replays of their matches",
    at_length: AT_LENGTH,
    example: EXAMPLE,
};

const AT_LENGTH: &str = "\
Reads the replays that the words name, one after the other, judges each, and
prints the table of the teams: the best first, by the outcome, then by fewer
moves, then by fewer lost agents, then by the team's name. `arena judge --help`
says what the outcomes are. A team is 1 to 16 of a to z, 0 to 9 and -.

With --replay the only word is the file of a tournament, and the table is that
of its contest: the replay of match M is PREFIXM.jsonl, as `arena serve` writes
it. A match whose replay cannot be read, or is that of another match, is told on
standard error and left out; the others count. `arena judge --help` has the
faults of a replay, and `arena check --help` those of a tournament.";

const EXAMPLE: &str = "\
Examples:

  arena table blue=blue0.jsonl red=red0.jsonl

prints

    # team             outcome     moves lost
    1 red              solved          1    0
    2 blue             guess 1         0    0

and this prints the table of a contest once more:

  arena table cup.toml --replay cup

Exit status:

  0  The table was printed
  2  The command line was refused
  3  A file is not a replay: head, line or end; or the tournament was refused
  4  A replay could not have happened: event or differs; or it is not that of
     its match
  5  Memory ran out
  6  Reading or writing failed";
