//! The help of `recover`.

use crate::help::Help;

pub(crate) const HELP: Help = Help {
    about: "Saves a match, or a whole contest, whose server was killed",
    at_length: AT_LENGTH,
    example: EXAMPLE,
};

const AT_LENGTH: &str = "\
While `arena serve` runs, it writes what happens in match M to the file
PREFIXM.jsonl.part: all but about the last second. At the end the whole replay
stands in PREFIXM.jsonl, and the part is removed. So a part that is left means
that its server was killed, or that the disk was full. Under the oblivious
schedule the turns of the events are in PREFIXM.turns.part.

This command reads a part, and prints the replay of its match as if the match
had been closed where the part ends. A last line that is torn counts for
nothing. The other commands read what it prints. Faults are told as by `arena
judge`.

With --replay the file is that of a tournament, and its contest is finished. For
each match M without a replay PREFIXM.jsonl, but with a part, the replay is
written, with its turns PREFIXM.turns if there is a part of them, and the parts
are removed. Turns with which the match does not stand its appeal are told, and
stay where they are. A replay that is there is never replaced. Then the table is
printed as `arena table TOURNAMENT --replay PREFIX` prints it. If a server still
writes the parts, that is told as `busy`, and nothing is written.

`arena judge --help` has the faults of replays and turns, and `arena check
--help` those of a tournament.";

const EXAMPLE: &str = "\
Examples:

  arena recover cup.toml --replay cup

writes the replays that are missing, and prints the table.

  arena recover cup0.jsonl.part > match0.jsonl
  arena judge match0.jsonl

prints the replay of one match, and then says its verdict.

Exit status:

  0  The replay was printed; or each match has a replay, and the table was
     printed
  2  The command line was refused
  3  The file is not a part of a replay: head, line or end; or the tournament
     was refused
  4  The part could not have happened: event or differs; or a part or a replay
     is not that of its match, or does not stand its appeal
  5  Memory ran out
  6  Reading or writing failed";
