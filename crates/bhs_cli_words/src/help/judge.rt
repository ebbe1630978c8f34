//! The help of `judge`.

use crate::help::Help;

pub(crate) const HELP: Help = Help {
    about: "Says the verdict on the match of a replay",
    at_length: AT_LENGTH,
    example: EXAMPLE,
};

const AT_LENGTH: &str = "\
Reads a replay, and prints the verdict on its match: the outcome, how many moves
the agents made, and how many agents were lost.

  solved      The accusations are right, and leave no black hole or dark link out
  guess V     They are right, but no agent arrived at node V, which could as well
              be the black hole
  unfinished  An agent was at a node when the match was closed
  silent      Nobody accused, or some black hole or dark link was not accused
  wrong       An accused link leads to no black hole and is not dark

A replay is read line by line, and the first line that is wrong is told on
standard error, as `FILE: FAULT`:

  head       The first line is not the head of a replay
  line N     Line N is not a line of a replay
  event N    The event of line N cannot happen there
  differs N  The event of line N has another answer
  end        The replay ends too early, or goes on behind its end

A contest under the oblivious schedule has the file PREFIXM.turns beside the
replay of match M: for each event the number of turns after which it happened.
With --turns, --tournament and --match the turns are checked too. The words of
the tournament's seed say for each turn which agent arrives in it, if any, and
the replay must have exactly these arrivals, each before the events of later
turns. What does not fit is told as `FILE: FAULT`, and there is no verdict;
places are counted from 0, as `arena explain` prints them:

  no match M            The tournament has no match M
  adaptive              Its schedule is adaptive, which has no turns
  not match M           The replay is of another network or setup
  line N                Line N of the turns is no number of turns
  N turns, E events     There must be as many turns as events
  turn of place K       The turn at place K has passed: it is less than the one
                        before it, or an arrival has ended it
  agent A arrives in turn T, before place K
                        The replay lacks this arrival
  late at place K       The delivery at place K is not the one of its turn
  held link at place K  It went over a link that the tournament holds

`arena check --help` has the faults of a tournament.";

const EXAMPLE: &str = "\
Example:

  arena judge cup0.jsonl

prints, if one agent accused from its home base,

  guess 1 moves 0 lost 0

and so does, after a contest under the oblivious schedule,

  arena judge cup0.jsonl --turns cup0.turns --tournament cup.toml --match 0

Exit status:

  0  The verdict was printed
  2  The command line was refused
  3  The file is not a replay: head, line or end; or the tournament or the turns
     were refused
  4  The replay could not have happened: event or differs; or the turns do not
     fit, or a delivery was not made at its turn
  5  Memory ran out
  6  Reading or writing failed";
