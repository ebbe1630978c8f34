//! Commands that are told for the agents of matches, under a lock by several threads, or without one.

ghost use Rattle.std.specs.Prelude.{◌≡◌, [], IfOk};

use crate::faults::BenchFault;
use crate::torus::{PORTS, QUOTA, setup, torus};
use bhs_deliveries::Held;
use bhs_match::Match;
use bhs_model::{Command, Text};
use bhs_net::Memory;
use bhs_shared_match::{LockedMatch, NoHooks, Pass, SharedMatch, settle};
use bhs_time::ScheduleKind;
use std::alloc::Global;
use std::sync::Wait;
use std::thread;
use std::thread::Threads;
use std::time::{Clock, Duration, Instant};

// How many agents play, on all matches of a run together.
const AGENTS: u16 = 64;

// How many commands each agent is told: an Enter, and as many others as its quota.
const COMMANDS: u16 = QUOTA + 1;

// How many commands are told in a run.
fn commands() -> u64 {
    u64::from(AGENTS) * u64::from(COMMANDS)
}

/// Who tells the commands of a run.
#[derive(Clone, Copy)]
pub enum Sharing {
    /// A single thread submits them to one match without a lock.
    Unlocked,
    /// Threads share one match.
    One { threads: u16 },
    /// Each thread has a match of its own.
    Many { threads: u16 },
}

/// The runs in the order of printing.
pub const RUNS: [Sharing; 6] = [
    Sharing::Unlocked,
    Sharing::One { threads: 1 },
    Sharing::One { threads: 4 },
    Sharing::One { threads: 16 },
    Sharing::Many { threads: 4 },
    Sharing::Many { threads: 16 },
];

/// The measurements of a run.
#[derive(Clone, Copy)]
pub struct Measured {
    /// The commands that were told.
    pub commands: u64,
    /// The number of commands that the logs keep.
    pub kept: u64,
    /// How long telling them took.
    pub time: Duration,
}

impl Measured {
    /// Before any run.
    pub fn none() -> Measured {
        Measured {
            commands: 0,
            kept: 0,
            time: Duration::from_millis(0),
        }
    }

    /// Adds the measurements of another run. Counters saturate.
    pub fn with(self, other: Measured) -> Measured {
        Measured {
            commands: self.commands.saturating_add(other.commands),
            kept: self.kept.saturating_add(other.kept),
            time: self.time.saturating_add(other.time),
        }
    }
}

// Some passes of one match, which one thread plays.
#[derive(Drop)]
struct Share {
    shared_match: usize,
    passes: Vec<Pass>,
}

/// Does a run once.
pub fn run_once<R: Threads + Wait + Clock + Sync>(
    rt: &R,
    alloc: Global,
    sharing: Sharing,
) -> Result<Measured, BenchFault> {
    match sharing {
        Sharing::Unlocked => told_without_lock(rt, alloc),
        Sharing::One { threads } => told_under_locks(rt, alloc, 1, threads),
        Sharing::Many { threads } => told_under_locks(rt, alloc, threads, 1),
    }
}

// A match of this number of agents on the torus, in which no node destroys.
fn game(alloc: Global, agents: u16) -> Result<Match, BenchFault>
    ensures { IfOk result (λ play. play.log ≡ []) }
{
    Ok(Match::new(alloc, torus(alloc)?, setup(alloc, agents))?)
}

// The command of this place: an Enter, then in turn a Write, an Accuse of a port that no node has, and two Looks.
fn command_of(alloc: Global, place: u16) -> Result<Command, Memory> {
    if place == 0 {
        return Ok(Command::Enter);
    }
    Ok(match place % 4 {
        1 => Command::Write {
            expect: Text::empty(),
            put: Text::new(alloc, "to the east")?,
        },
        2 => Command::Accuse { port: PORTS },
        _ => Command::Look,
    })
}

fn told_without_lock<C: Clock>(clock: &C, alloc: Global) -> Result<Measured, BenchFault> {
    let (mut inner, mut passes) = LockedMatch::new(alloc, 0, game(alloc, AGENTS)?)?;
    told_in(clock, alloc, &mut inner, &mut passes)
}

fn told_in<C: Clock>(
    clock: &C,
    alloc: Global,
    inner: &mut LockedMatch,
    passes: &mut [Pass],
) -> Result<Measured, BenchFault> {
    let begin = Instant::now(clock).map_err(|_| BenchFault::Clock)?;
    tell_all(alloc, inner, passes)?;
    let time = begin.elapsed(clock).map_err(|_| BenchFault::Clock)?;
    Ok(Measured {
        commands: commands(),
        kept: inner.state().log().len() as u64,
        time,
    })
}

fn tell_all(alloc: Global, inner: &mut LockedMatch, passes: &mut [Pass]) -> Result<(), Memory> {
    for place in 0..COMMANDS {
        for pass in passes.iter_mut() {
            inner.submit(pass, command_of(alloc, place)?)?;
        }
    }
    Ok(())
}

// Each of these matches is shared by this number of threads. The agents are dealt out evenly.
fn told_under_locks<R: Threads + Wait + Clock + Sync>(
    rt: &R,
    alloc: Global,
    matches: u16,
    threads: u16,
) -> Result<Measured, BenchFault> {
    let agents = AGENTS / matches.max(1);
    let shared_matches = shared_matches(alloc, matches, agents)?;
    let shares = shares(rt, alloc, &shared_matches, agents, agents / threads.max(1))?;
    let begin = Instant::now(rt).map_err(|_| BenchFault::Clock)?;
    let played = thread::map_vec(
        rt,
        shares,
        &|share| played(rt, alloc, &shared_matches, share),
    )?;
    let time = begin.elapsed(rt).map_err(|_| BenchFault::Clock)?;
    Ok(Measured {
        commands: commands(),
        kept: settled(rt, alloc, shared_matches, played)?,
        time,
    })
}

fn shared_matches(
    alloc: Global,
    matches: u16,
    agents: u16,
) -> Result<Vec<SharedMatch>, BenchFault> {
    let mut shared_matches = Vec::new(alloc);
    for number in 0..matches {
        let play = game(alloc, agents)?;
        let held = Held::new(alloc, play.net(), &[])?;
        shared_matches.push(SharedMatch::new(
            alloc,
            u32::from(number),
            play,
            held,
            ScheduleKind::Adaptive,
        )?)?;
    }
    Ok(shared_matches)
}

// The passes of all shared matches, in shares of this size.
fn shares<R: Wait>(
    rt: &R,
    alloc: Global,
    shared_matches: &[SharedMatch],
    agents: u16,
    size: u16,
) -> Result<Vec<Share>, BenchFault> {
    let mut shares = Vec::new(alloc);
    for (shared_match, shared) in shared_matches.iter().enumerate() {
        let mut passes = Vec::new(alloc);
        for agent in 0..agents {
            if passes.len() >= usize::from(size) {
                shares.push(Share {
                    shared_match,
                    passes,
                })?;
                passes = Vec::new(alloc);
            }
            if let Some(pass) = shared.claim(rt, agent) {
                passes.push(pass)?;
            }
        }
        shares.push(Share {
            shared_match,
            passes,
        })?;
    }
    Ok(shares)
}

// Tells the commands of a share.
fn played<R: Wait>(
    rt: &R,
    alloc: Global,
    shared_matches: &[SharedMatch],
    mut share: Share,
) -> Result<Share, Memory> {
    if let Some(shared_match) = shared_matches.get(share.shared_match) {
        submit_all(rt, alloc, shared_match, &mut share.passes)?;
    }
    Ok(share)
}

fn submit_all<R: Wait>(
    rt: &R,
    alloc: Global,
    shared_match: &SharedMatch,
    passes: &mut [Pass],
) -> Result<(), Memory> {
    for place in 0..COMMANDS {
        for pass in passes.iter_mut() {
            shared_match.submit(rt, &NoHooks, pass, command_of(alloc, place)?)?;
        }
    }
    Ok(())
}

// Ends and settles the matches, and answers how many events were kept.
fn settled<R: Wait>(
    rt: &R,
    alloc: Global,
    shared_matches: Vec<SharedMatch>,
    shares: Vec<Result<Share, Memory>>,
) -> Result<u64, BenchFault> {
    let handed = handed(alloc, shared_matches.len(), shares)?;
    let mut kept: u64 = 0;
    for (shared_match, passes) in shared_matches.into_iter().zip(handed) {
        shared_match.close(rt);
        let settlement = settle(shared_match, passes).map_err(|_| BenchFault::Unsettled)?;
        kept = kept.saturating_add(settlement.sealed.log().len() as u64);
    }
    Ok(kept)
}

// The passes of all shares, by the index of their shared match.
fn handed(
    alloc: Global,
    shared_matches: usize,
    shares: Vec<Result<Share, Memory>>,
) -> Result<Vec<Vec<Pass>>, Memory> {
    let mut handed = no_passes(alloc, shared_matches)?;
    for share in shares {
        hand(&mut handed, share?)?;
    }
    Ok(handed)
}

fn no_passes(alloc: Global, shared_matches: usize) -> Result<Vec<Vec<Pass>>, Memory> {
    let mut handed = Vec::new(alloc);
    for _ in 0..shared_matches {
        handed.push(Vec::new(alloc))?;
    }
    Ok(handed)
}

fn hand(handed: &mut [Vec<Pass>], share: Share) -> Result<(), Memory> {
    let Share {
        shared_match,
        passes,
    } = share;
    let Some(all) = handed.get_mut(shared_match) else {
        return Ok(());
    };
    for pass in passes {
        all.push(pass)?;
    }
    Ok(())
}
