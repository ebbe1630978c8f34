//! The help of `serve`.

use crate::help::Help;

pub(crate) const HELP: Help = Help {
    about: "Serves a tournament to agents that connect over TCP",
    at_length: AT_LENGTH,
    example: EXAMPLE,
};

const AT_LENGTH: &str = "\
Serves the matches of a tournament to agents that connect over TCP. At the end
each match is judged, and the table of the teams is printed.

A first contest: write cup.toml (docs/FORMATS.md says how), see that
`arena check cup.toml` takes it, and give each team the keys of its agents. Then
start

  arena serve cup.toml

and have the teams start their agents within a minute. Each agent connects to
port 4000. Turns begin when all agents of a match have entered. A match ends
when each of its agents has ended or is lost, and at the latest after 100,000
turns of 5 milliseconds. The table is printed once all agents have ended, and
at the latest 10 seconds after the last match. The replays are cup0.jsonl,
cup1.jsonl and so on. Nobody can hold this up, with or without a key. For agents
on other machines add the address to listen on, as --address 192.0.2.7; lines
are not encrypted.

This is what --port 4000 --turns 100000 --pause 5 --gather 60000 --early --log
--replay cup says. If --replay is given, then --gather, --early and --log hold
only where they are given, too.

The server listens on port PORT, prints `listening PORT`, and serves all clients
that connect. A client's first line is the enter of an agent with its key, and
each later line is one of the agent's commands. `arena rehearse --help` says
what the lines are. Each is answered by a line, and an arrival comes as a line
too. While the agent is on a link its lines wait.

A client that has not entered uses up nothing. At most 256 of them wait to be
let in, each for 10 seconds at most. If more come, one is cut off in the network
and at the address where most wait, but not the only one that waits at an
address from which an agent has entered before. At most SESSIONS agents play at
a time. A client that is not served is told why in a line, and may come again:
`full` if SESSIONS agents play or too many wait where it comes from, `late` if
its first line did not come in time, `memory` if there is no memory or thread
for one more.

Without --gather all matches begin at once, when the server listens. In each
match a turn comes every PAUSE milliseconds: one of the agents on a link
arrives, and the seed of the tournament draws which. After TURNS turns the match
is closed. TURNS should be several times the moves that a search needs. On one
machine a PAUSE of 0 to 20 will do. With 0 the turns come as fast as they can.

After the close a session is answered `over`: at its next line, or at once if
its agent is on a link. Once all matches are closed, the server waits until the
sessions of all agents have ended, or SESSIONS of them if there are fewer, but
no longer than the grace period of --grace. Then it accepts no more connections
and cuts off those that are left.

The operator may write to the server's standard input while a contest goes on:
`close` closes all matches, `close M` closes match M, and `status` tells how the
matches stand. A match that is closed so is judged like any other. The end of
standard input changes nothing.

While a contest goes on, what happens in match M is written to the file
PREFIXM.jsonl.part, about once a second, and under the oblivious schedule the
turns to PREFIXM.turns.part. At the end the replay is written to PREFIXM.jsonl,
its turns to PREFIXM.turns, and the parts are removed. If the server is killed,
`arena recover TOURNAMENT --replay PREFIX` writes the replays and turns that are
missing by the parts, and prints the table. Earlier files of these names are
never replaced: before the contest begins they get .old behind their names, or
.old2 and so on if that is there. Then each match is judged, and the table is
printed as `arena table` prints it. Files that appear meanwhile are not replaced
either. The server locks each part, so that no other one writes files of these
names. Only the owner may read parts and replays, since they name the black
holes: chmod a+r shows them to others.

Memory: until the end the server keeps each command as it came, twice, and each
answer with the whiteboard that it shows. A line has up to 64 KiB. So a match of
A agents with quota Q and whiteboards of B bytes takes up to A Q (B + 128 KiB),
and up to 5 A Q B if no agent says longer texts than a whiteboard holds. Each
session takes up to 96 KiB.

What is wrong with a file is told on standard error, as `FILE: FAULT`, and what
is wrong with the server as `serve: FAULT`:

  listen       ADDRESS is not an address of this machine, or another program
               listens on the port
  busy         Another server writes this part: give another --replay
  write        A part or a replay could not be written
  threads      The system has no thread for each match: end other programs, or
               let this user have more of them
  unsettled M  The log of match M is not what its agents were answered; there is
               no table, and the other matches have their replays
  memory       Memory ran out";

const EXAMPLE: &str = "\
Example:

  arena serve cup.toml --port 4000 --sessions 2 --turns 1000 --pause 5 \\
    --replay cup

prints

  listening 4000

and about 5 seconds later, if one agent accused from its home base and the other
one left,

    # team             outcome     moves lost
    1 red              guess 1         0    0

Exit status:

  0  Each replay was written, and the table was printed
  2  The command line was refused
  3  A file was refused, and nothing was served
  4  A match is unsettled
  5  Memory ran out
  6  Listening, reading or writing failed
  7  Threads ran out";
