//! The help of `explore`.

use crate::help::Help;

pub(crate) const HELP: Help = Help {
    about: "Tries every schedule of a match whose agents run a module, or are played by a host",
    at_length: AT_LENGTH,
    example: EXAMPLE,
};

const AT_LENGTH: &str = "\
Tries every schedule of match MATCH of the tournament, and says whether each one
solves it.

With --module FILE all agents run the WebAssembly module of this file. Give the
option once for each agent if they differ: agent 0 runs the first module, agent 1
the second. A module imports nothing but functions of `arena`, and exports `run`;
in a clone examples/agents/wasm/arena.h declares them for C. Numbers behind a
colon are its arguments: ring.wasm:8. Agents fail whose module traps, or that
burn more fuel than 10,000,000 from one command to the next: 1 an instruction,
1 more for each 64 bytes of a fill or copy, 1,024 more for each page that a memory
grows. Standard error tells now and then how far a long search is. A file that is
no such module is told as `FILE: FAULT at byte N`:

  head       It does not begin as a module, version 1
  end        It, or a part of it, ends too soon
  number     A number is too long or too large
  name       A name is not in UTF-8, or stands twice
  float      It has floating-point numbers
  opcode N   It has an instruction that agents do without
  type       Types do not fit the instructions or functions
  import NAME
             It imports something else than the functions of `arena`
  import type NAME
             It imports this function of `arena` with another type
  start      It has a start function
  segment    A segment is not active, or out of its memory or table
  section    A section is unknown, out of order, or too long
  size       It is larger than a limit
  index      It names something that it does not have
  block      Its blocks do not match
  alignment  An instruction assumes too large an alignment
  run        It exports no function `run`
  run type   Its function `run` has parameters or results
  main       It exports no function `run`, but `main`, which nobody calls

A tournament without this match is told as `no match M`, and one of A agents with
N modules, neither one nor A, as `N modules, A agents`.

With --all-holes each node but the home base is the only black hole in turn, in
the order of the nodes, on the network of the match and with the agents, the quota
and the whiteboards of the match; no link is dark. As many searches run at a time
as there are processors, each within --max-states. What was found is printed in
the order of the nodes, up to the first black hole with which a schedule fails.

Without it the agents are played by a host at the other end of standard input and
output, as `arena-lab explore` is one. An agent must be deterministic: what
it does next is a function of what its program holds. The host gives each thing
that a program may hold a number, its memory, counted from 0 in the order in
which they are met. The program asks, a line for each question, and waits for the
answer before it goes on:

  {\"begin\":A}             What does agent A hold at the start?
  {\"ask\":M,\"hears\":REPLY} What does an agent hold that held M, and then heard
                          this reply? REPLY is what a server sends
  {\"ask\":M,\"wakes\":true}  The same of one that slept and wakes

Each question is asked once. The answer is a line, N being the memory:

  N says                  and on the next line what the client sends then, as
                          {\"do\":\"look\"}; the key of an enter is not looked at
  N sleeps                The agent waits until the whiteboard in front of it
                          changes; it may also wake --spurious-wakeups times
                          more
  N stops                 It sends nothing more, but it may still arrive
  N fails                 Its program raised an exception, or broke a rule

Programs of agents that hold the same may share a memory. Each memory must always
have the same step. A long search also tells how far it is, by lines that have no
answer: {\"visited\":STATES,\"depth\":TURNS}.

A network with too many states ends this at --max-states. Then draw schedules:
with --draws N the program draws N of them from the seed of --seed, and plays
them by the same answers: a hundred thousand take seconds once the host has
answered. It keeps the first that fails, or else the one with the most moves.
--scheduler NAME says whose turn it is among the agents that can move:

  fair           each is as likely
  last-departed  agents go as far as they can, and of those on links the one
                 arrives that departed last
  starved        one agent moves only if no other can; schedule number I starves
                 agent I, counted round the team
  slow-agents    some agents are slow to be answered, and some to arrive;
                 sleepers wake seldom
  slow-links     some links are slow, each in its two directions

--objective moves looks for more moves: every second schedule begins as the worst
so far began, and goes on by chance. --objective lost looks for more agents lost,
and keeps that schedule. No drawn schedule has more than --max-states turns.";

const EXAMPLE: &str = "\
At the end comes a line of what was found, and one of how much was visited:

  {\"found\":\"solves\",\"moves\":M,\"lost\":L,\"turns\":T,\"naps\":N,
   \"commands\":[C,..]}
      in one line: every schedule comes to rest after at most T turns that change
      anything, and the match is then solved, in at most M moves, with at most L
      agents lost; agent A uses at most the A-th of these commands. All this holds
      if agents nap at most N times in a row: nothing is said of longer waits
  {\"found\":\"fails\",\"outcome\":O,\"moves\":M,\"lost\":L,\"schedule\":[A,..]}
      If the agents have their turns in this order, nothing more can happen, and
      the match is not solved
  {\"found\":\"breaks\",\"agent\":A,\"failure\":F,\"schedule\":[A,..]}
      Under this schedule agent A fails: its program does (program), or it says
      a command other than Enter before it has entered (outside), or it would fail
      once it is told that the match is over (close), or it sleeps and has not
      entered, where nothing more can happen (asleep)
  {\"found\":\"endless\",\"schedule\":[A,..],\"round\":[A,..],\"fair\":B}
      After the schedule this round may go on for ever. It is fair (true) if each
      agent that can move throughout it has a turn in it. In an unfair round
      (false) agents may wait for one that never has a turn
  {\"found\":\"exceeds\",\"agent\":A,\"commands\":C}
      An agent may use more commands than its quota, as one may that asks again
      and again, so nothing is said
  {\"states\":S,\"memories\":M,\"stances\":T,\"boards\":B}

With --all-holes these lines come for each black hole, behind one that names it:

  {\"hole\":NODE}

With --draws these are `fails`, `breaks` or `exceeds`, or

  {\"found\":\"comes\",\"moves\":M,\"lost\":L,\"schedule\":[A,..]}
      Under this schedule the match is solved; no drawn one fails
  {\"solved\":S,\"failed\":F,\"turns\":T,\"moves\":[[M,C],..],
   \"lost\":[[L,C],..],\"memories\":M,\"stances\":T}
      in one line: how many of the schedules are solved and fail, their turns,
      and how many come to M moves, or lose L agents

With --module comes one more line for each module, in which how an agent failed
may be missing:

  {\"module\":SHA256,\"arguments\":[N,..],\"failure\":F,\"function\":N}
      Which file the module has; and how the first agent that failed in it did, in
      the function of this number: it executed too many instructions (fuel), it
      trapped (trap), or it called a command with a port or a text that is none
      (command)

What is found is proved of all agents that do as was answered, and of agents that
run the modules that were read; that a file is read rightly is tested. What is
counted, and how an agent failed, is not proved. The program cannot know whether
the agents of a host do as it answered.

Example: on the triangle of `arena check --help` an agent that stops at once:

  printf '%s\\n' '0 stops' '0 stops' | arena explore cup.toml 0

prints

  {\"begin\":0}
  {\"begin\":1}
  {\"found\":\"fails\",\"outcome\":\"silent\",\"moves\":0,\"lost\":0,\"schedule\":[]}
  {\"states\":1,\"memories\":1,\"stances\":1,\"boards\":1}

Exit status:

  0  Every schedule solves the match, or each that was drawn; with --all-holes that
     holds for each black hole
  1  A schedule fails, or may go on for ever
  2  The command line was refused
  3  A file or an answer was refused, or nothing can be said
  5  Memory ran out
  6  Reading or writing failed";
