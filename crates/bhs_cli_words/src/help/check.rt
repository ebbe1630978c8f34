//! The help of `check`.

use crate::help::Help;

pub(crate) const HELP: Help = Help {
    about: "Reads a tournament and its networks, and says what its matches are",
    at_length: AT_LENGTH,
    example: EXAMPLE,
};

const AT_LENGTH: &str = "\
Reads a tournament's file and the files of the networks that it names, and
prints a line for each match: its number, its team, and how many nodes, links
and agents there are. What is wrong with a file is told on standard error, as
`FILE: FAULT`, and the first fault is the only one.

A tournament's file is TOML:

  version = 3
  seed = \"00..\"            64 hexadecimal digits
  schedule = \"oblivious\"   or \"adaptive\", the default
  delay_scales = 10         for how many scales there are delays, 0 to 24
  delay_odds = 32           of how many words one delays by a scale, 1 to 65535

  [[match]]                 one for each match, 1 to 64
  team = \"red\"              1 to 16 of a to z, 0 to 9 and -
  network = \"tri.toml\"      a file: see below
  home = 0                  the node where the agents enter
  holes = [2]               the black holes; [] in a practice match
  dark = []                 dark links, each by [node, port] of one end
  quota = 10                how many commands an agent may say, 1 to 65535
  board = 8                 how many bytes a whiteboard holds, 0 to 65535
  keys = [\"ka\", \"kb\"]       a key for each agent, 1 to 64; none stands twice
  held = []                 links [node, port] over which no agent arrives

A network is named by a path from the working directory or, if nothing is there,
from the folder of the tournament. Version 3 refuses keys that it does not know.
Versions 1 and 2 ignore them: they have no schedule, which is adaptive, quotas
up to 1000 and whiteboards up to 4096.

A network's file is TOML too. A link [v, p, w, q] joins port p of node v and
port q of node w:

  version = 1
  nodes = 3
  links = [[0,0,1,0],[1,1,2,0],[2,1,0,1]]

With `version = 2` a network may have up to 4096 nodes, otherwise it has at most
256. A match reserves some 90 bytes for each event that it may have:
64 agents with 65535 commands each reserve 740 MB of addresses, and use what
they need of it. Where `ulimit -v` allows less, that is `memory`.

A node with D links has the ports 0 to D - 1. At most one link joins two nodes,
and the network stays connected without any one node.

Faults of a tournament, of which `match M` begins those of match M:

  toml, version         It is not TOML, or of another version
  unknown key           Version 3 has no such key
  missing KEY           The key is absent
  shape KEY             It holds something else
  home, hole, agents, quota, board, dark
                        Match M is set up out of its limits
  key A twice           Another agent has the key of agent A
  held K                The held link at place K is no port

Faults of a network:

  nodes                 It has too few nodes or too many
  node in link K        The link at place K joins a node that is not there
  loop in link K        It joins a node with itself
  double link K         Another link joins the same nodes
  port twice in link K  Another link has one of its ports
  port gap at node V    The ports of node V are not 0 to D - 1
  apart                 Some nodes are not reached from others
  cut node V            Without node V the others fall apart";

const EXAMPLE: &str = "\
Example:

  arena check cup.toml

prints, if cup.toml and tri.toml are the files above,

  match 0 red nodes 3 links 3 agents 2

Exit status:

  0  The tournament can be played
  2  The command line was refused
  3  A file was refused
  5  Memory ran out
  6  Reading or writing failed";
