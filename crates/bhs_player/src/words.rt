//! The words that the program is run with.

ghost use Rattle.std.specs.Prelude.{◌≡◌, IfOk, map, option_map, string_bytes};
ghost use Rattle.bhs_cli_words.specs.Arguments.{number_within};
ghost use Rattle.bhs_player.specs.Entrants as entrants;

use bhs_cli_words::{AgentModule, module_in, number_within};
use bhs_client::Protocol;
use bhs_net::{MAX_NODES, MIN_NODES};
use bhs_protocols_charts::memories::{NetworkFacts, Told};
use std::alloc::{AllocError, Global};

/// The default of `arena explore --spurious-wakeups`.
pub const MODULE_WAKEUPS: u32 = 2;

/// Where an agent plays, with which key, and what it runs.
#[derive(Drop)]
pub struct Entrant<'w> {
    /// The server's host; `-` stands for standard input and output.
    pub host: &'w str,
    pub port: u16,
    pub key: &'w str,
    /// How many spurious wake-ups in a row the agent may have.
    pub spurious_wakeups: u32,
    pub runs: AgentChoice,
}

/// What an agent runs.
#[derive(Drop)]
pub enum AgentChoice {
    /// A protocol, on a ring of this number of nodes, as the agent of this side.
    Protocol {
        protocol: Protocol,
        nodes: u16,
        side: u16,
    },
    /// The search of an unknown network by a chart.
    Chart(NetworkFacts),
    /// The module of a file.
    Module(AgentModule),
}

/// The usage text, printed for words that are not understood.
pub const USAGE: &str = "\
usage: bhs_player HOST PORT KEY [--spurious-wakeups N] PROTOCOL NODES SIDE
       bhs_player HOST PORT KEY [--spurious-wakeups N] chart NODES LINKS
       bhs_player HOST PORT KEY [--spurious-wakeups N] --module FILE[:N,..]

An agent as the client of a server: one that searches a ring by a protocol that is proved to solve every ring, one that
draws a chart of an unknown network, or one that runs a WebAssembly module, as `arena explore --module` tries it. Run a
protocol twice, with the sides 0 and 1, and a chart once more than the black hole has links.

  HOST      the server's name or address, or - to talk over standard input and output
  PORT      its port, 1 to 65535; 0 with -
  KEY       the agent's key
  PROTOCOL  halves (the fewest moves) or shuttle (the simplest)
  NODES     how many nodes the ring or the network has, 3 to 4096
  SIDE      0 or 1: the port of the home base behind which the agent begins
  LINKS     how many links the network has, or 0 if no node has more than three
  N         how often in a row the agent may wake again though it reads nothing new, 0 to 4294967295; then it sleeps
            until its match is over. The default is 2 for a module, as of `arena explore`, and else 4294967295
  FILE      the module's file, and behind a colon its arguments, numbers below 2^32 with commas between them";

/// What the words say, if they are fit.
pub fn entrant_of<'w>(alloc: Global, words: &'w [String]) -> Result<Option<Entrant<'w>>, AllocError>
    ensures { IfOk result (λ entrant. option_map entrants.seen entrant
        ≡ entrants.entrant_in (map string_bytes words.now)) }
{
    let [host, port, key, what @ ..] = words else {
        return Ok(None);
    };
    let Some(port) = number_of(port.as_str(), 0, u16::MAX) else {
        return Ok(None);
    };
    let Some((limit, what)) = limit_of(what) else {
        return Ok(None);
    };
    Ok(choice_of(alloc, what)?.map(|runs| Entrant {
        host: host.as_str(),
        port,
        key: key.as_str(),
        spurious_wakeups: limit.unwrap_or(default_limit(&runs)),
        runs,
    }))
}

// Splits off the option --spurious-wakeups: returns its number, where given, with the remaining words. Returns None for
// numbers of 2^32 or more.
fn limit_of(words: &[String]) -> Option<(Option<u32>, &[String])>
    ensures { option_map (λ it. (it.0, map string_bytes it.1.now)) result
        ≡ entrants.limit_in (map string_bytes words.now) }
{
    if let [option, number, rest @ ..] = words {
        if option.as_str() == "--spurious-wakeups" {
            return Some((Some(number_within(0, u32::MAX, number.as_str())?), rest));
        }
    }
    Some((None, words))
}

fn default_limit(runs: &AgentChoice) -> u32
    ensures { result ≡ entrants.default_limit runs.now }
{
    match runs {
        AgentChoice::Module(_) => MODULE_WAKEUPS,
        AgentChoice::Protocol { .. } | AgentChoice::Chart(_) => u32::MAX,
    }
}

fn choice_of(alloc: Global, words: &[String]) -> Result<Option<AgentChoice>, AllocError>
    ensures { IfOk result (λ runs. runs ≡ entrants.choice_in (map string_bytes words.now)) }
{
    match words {
        [option, word] => {
            if option.as_str() != "--module" {
                return Ok(None);
            }
            Ok(module_in(alloc, word.as_str())?.map(AgentChoice::Module))
        }
        [protocol, nodes, number] => {
            let (nodes, number) = (nodes.as_str(), number.as_str());
            if protocol.as_str() == "chart" {
                return Ok(chart_of(nodes, number));
            }
            Ok(search_of(protocol.as_str(), nodes, number))
        }
        _ => Ok(None),
    }
}

fn search_of(protocol: &str, nodes: &str, side: &str) -> Option<AgentChoice>
    ensures { result ≡ entrants.search_in protocol.now nodes.now side.now }
{
    Some(AgentChoice::Protocol {
        protocol: protocol_of(protocol)?,
        nodes: number_of(nodes, MIN_NODES, MAX_NODES)?,
        side: number_of(side, 0, 1)?,
    })
}

fn chart_of(nodes: &str, links: &str) -> Option<AgentChoice>
    ensures { result ≡ entrants.chart_in nodes.now links.now }
{
    let nodes = number_of(nodes, MIN_NODES, MAX_NODES)?;
    let links = number_within(0, u32::MAX, links)?;
    let told = if links == 0 {
        Told::Parity
    } else {
        Told::Links(links)
    };
    Some(AgentChoice::Chart(NetworkFacts { nodes, told }))
}

fn protocol_of(word: &str) -> Option<Protocol>
    ensures { result ≡ entrants.protocol_in word.now }
{
    match word {
        "halves" => Some(Protocol::Halves),
        "shuttle" => Some(Protocol::Shuttle),
        _ => None,
    }
}

fn number_of(word: &str, least: u16, most: u16) -> Option<u16>
    ensures { result ≡ number_within least most word.now }
{
    let number = number_within(u32::from(least), u32::from(most), word)?;
    Some(number as u16)
}
