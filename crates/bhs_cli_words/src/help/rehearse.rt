//! The help of `rehearse`.

use crate::help::Help;

pub(crate) const HELP: Help = Help {
    about: "Plays the script on standard input on a tournament",
    at_length: AT_LENGTH,
    example: EXAMPLE,
};

const AT_LENGTH: &str = "\
Plays the script on standard input on the matches of a tournament: the file that
is named, or the built-in one. The built-in tournament has one match on the
triangle, whose nodes 0, 1 and 2 have two ports each. Its two agents have the
keys ka and kb, enter at node 0 and may say 10 commands more. Node 2 is the black
hole. A whiteboard holds 8 bytes. `arena check --help` has the faults of a
tournament.

Each line of the script is one of these:

  N REST        The client of connection N sends the line REST. N is 0 to 255
  hex N DIGITS  It sends the bytes that the hexadecimal digits give
  end N         Its input ends
  draw G W      A delivery is drawn in match G. W is any word from 0 to 4294967295
  deliver G A   Agent A of match G arrives, unless its link is held or destroys it
  close G       Match G is ended

Empty lines and lines that begin with # are skipped.

REST is one of these. A client begins with its enter:

  {\"do\":\"enter\",\"key\":\"ka\"}   Enters the network with the key ka
  {\"do\":\"look\"}               Looks again at the node
  {\"do\":\"write\",\"expect\":\"\",\"put\":\"a\"}
                              Writes a on a whiteboard that shows nothing
  {\"do\":\"depart\",\"port\":0}    Departs by port 0 of the node
  {\"do\":\"accuse\",\"port\":1}    Says that port 1 leads to a black hole, and ends
  {\"do\":\"leave\"}              Ends

Each line that the client of connection N is sent is printed as `N LINE`. While its
agent is on a link its lines wait.

With --replay each match M that the script has ended is written to the file
PREFIXM.jsonl, once all lines are printed. A file of that name is replaced. If
one cannot be written, the others still are.

With --interactive each line is played as it comes, so that a program can choose
the next line by the answers. What the clients are sent is printed, and then an
empty line, before more is read; an empty line and a # line are answered by the
empty line alone. A script may be of any length, a line of it at most 1048576 bytes. A
line that is refused ends the rehearsal, and what was printed before stays.";

const EXAMPLE: &str = "\
Example:

  printf '%s\\n' \\
    '0 {\"do\":\"enter\",\"key\":\"ka\"}' \\
    '0 {\"do\":\"depart\",\"port\":0}' \\
    'draw 0 0' | arena rehearse

prints

  0 {\"board\":\"\",\"from\":null,\"ok\":\"here\",\"ports\":2}
  0 {\"ok\":\"gone\"}
  0 {\"board\":\"\",\"from\":0,\"ok\":\"here\",\"ports\":2}

Exit status:

  0  The script was played, and each replay was written
  2  The command line was refused
  3  The script or a file was refused, and nothing was played
  5  Memory ran out
  6  Reading or writing failed";
