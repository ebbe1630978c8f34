//! An agent as a client of any server: one that searches a ring by a protocol that is proved for every size, one that
//! draws a chart of an unknown network, or one that runs a WebAssembly module.
#![tactic(auto)]

pub mod agents;
pub mod laws;
pub mod play;
pub mod rejections;
pub mod wire;
pub mod words;

use agents::{PlayedAgent, agent_of, failure_of};
use bhs_client::{PlayEnd, PlayFault};
use bhs_stream::{Input, Output};
use play::played;
use rejections::Rejection;
use std::fmt::Display;
use std::net::TcpStream;
use std::process::ExitCode;
use std::time::Duration;
use std::{env, io, thread};
use wire::Wire;
use words::{AgentChoice, Entrant, USAGE, entrant_of};

// How often an agent connects that the server turns away for the moment, and the milliseconds in between.
const MOST_TRIES: u32 = 60;

const PAUSE: u64 = 1_000;

// The reason for an unfinished match.
enum EntryFault {
    Played(PlayFault),
    Rejected(Rejection),
}

// How one try has ended: with this exit status, or turned away for the moment.
enum Attempt {
    Ended(u8),
    Rejected(Rejection),
}

fn main(rt: HostRuntime) -> ExitCode {
    ExitCode::from(match started(&rt) {
        Ok(status) => status,
        Err(_) => 1,
    })
}

fn started(rt: &HostRuntime) -> io::Result<u8> {
    let alloc = rt.alloc();
    let words: Vec<String> = env::args(rt)?.skip(1).collect(alloc)?;
    let Some(entrant) = entrant_of(alloc, words.as_slice())? else {
        eprintln!(rt; "{USAGE}")?;
        return Ok(2);
    };
    for tries in 0..MOST_TRIES {
        match try_once(rt, &entrant)? {
            Attempt::Ended(status) => return Ok(status),
            Attempt::Rejected(rejection) => {
                if tries == 0 {
                    eprintln!(rt;
                        "bhs_player: {rejection}; it tries again, up to {MOST_TRIES} times"
                    )?;
                }
                thread::sleep(rt, Duration::from_millis(PAUSE));
            }
        }
    }
    eprintln!(rt; "bhs_player: the server has turned the agent away {MOST_TRIES} times")?;
    Ok(1)
}

// Plays the agent from its start. A rejection that may pass is returned, and any other fault reported.
fn try_once(rt: &HostRuntime, entrant: &Entrant<'_>) -> io::Result<Attempt> {
    let alloc = rt.alloc();
    let mut agent = match agent_of(alloc, rt, &entrant.runs) {
        Ok(agent) => agent,
        Err(fault) => {
            tell_of_agent(rt, entrant, fault)?;
            return Ok(Attempt::Ended(1));
        }
    };
    match entered(rt, entrant, &mut agent) {
        Ok(PlayEnd::Accused | PlayEnd::Over) => return Ok(Attempt::Ended(0)),
        Err(EntryFault::Rejected(rejection)) => {
            if rejection.is_passing() && entrant.host != "-" {
                return Ok(Attempt::Rejected(rejection));
            }
            eprintln!(rt; "bhs_player: {rejection}")?;
        }
        Err(EntryFault::Played(fault)) => match failure_of(alloc, &agent, fault)? {
            Some(failure) => tell_of_agent(rt, entrant, failure)?,
            None => eprintln!(rt; "bhs_player: {fault}")?,
        },
    }
    Ok(Attempt::Ended(1))
}

// Prints a fault of an agent, after the name of its module's file if it runs one.
fn tell_of_agent<D: Display + Drop>(
    rt: &HostRuntime,
    entrant: &Entrant<'_>,
    fault: D,
) -> io::Result<()> {
    match &entrant.runs {
        AgentChoice::Module(module) => {
            let file = module.file.as_str();
            eprintln!(rt; "bhs_player: {}: {fault}", file.escape_debug())
        }
        AgentChoice::Protocol {
            protocol: _,
            nodes: _,
            side: _,
        } => eprintln!(rt; "bhs_player: {fault}"),
        AgentChoice::Chart(_) => eprintln!(rt; "bhs_player: {fault}"),
    }
}

// Plays an agent where the words say.
fn entered(
    rt: &HostRuntime,
    entrant: &Entrant<'_>,
    agent: &mut PlayedAgent,
) -> Result<PlayEnd, EntryFault> {
    if entrant.host == "-" {
        return over(rt, rt.reader(), io::writer(rt), entrant, agent);
    }
    match connected(rt, entrant) {
        Ok(stream) => over(rt, &stream, &stream, entrant, agent),
        Err(_) => Err(EntryFault::Played(PlayFault::Lost)),
    }
}

// Plays an agent over a reader and a writer.
fn over<R: Input + Drop, W: Output + Drop>(
    rt: &HostRuntime,
    reader: R,
    writer: W,
    entrant: &Entrant<'_>,
    agent: &mut PlayedAgent,
) -> Result<PlayEnd, EntryFault> {
    let mut wire = Wire {
        rt,
        reader,
        held: Vec::new(rt.alloc()),
        writer,
        rejection: None,
    };
    match played(&mut wire, entrant.key, entrant.spurious_wakeups, agent) {
        Ok(end) => Ok(end),
        Err(fault) => Err(match (fault, wire.rejection) {
            (PlayFault::Line, Some(rejection)) => EntryFault::Rejected(rejection),
            (fault, _) => EntryFault::Played(fault),
        }),
    }
}

fn connected(rt: &HostRuntime, entrant: &Entrant<'_>) -> io::Result<TcpStream> {
    let address = format!(in rt.alloc(); "{}:{}", entrant.host, entrant.port)?;
    let stream = TcpStream::connect(rt, address.as_str())?;
    let _ = stream.set_nodelay(true);
    Ok(stream)
}
