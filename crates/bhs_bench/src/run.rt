//! Carrying out the benchmark that the command line names.

use crate::faults::BenchFault;
use crate::orders::{BenchOrder, USAGE, order_of};
use crate::report::{print_counts, print_run, print_stage, print_time};
use crate::stages::{STAGES, lasted};
use crate::submissions::{Measured, RUNS, run_once};
use crate::workload::{Counts, Workload};
use bhs_stream::{finish, send};
use std::alloc::Global;
use std::io::Write;
use std::sync::Wait;
use std::thread::Threads;
use std::time::{Clock, Duration, Instant};

/// The exit status if all was done.
pub const DONE: u8 = 0;

/// The exit status if the command line was refused.
pub const REFUSED_WORDS: u8 = 2;

/// The exit status if the match of the benchmark was refused.
pub const REFUSED_MATCH: u8 = 3;

/// The exit status if memory ran out.
pub const NO_MEMORY: u8 = 5;

/// The exit status if writing failed, or the clock.
pub const FAILED_STREAM: u8 = 6;

/// Does what the words after the program's name order, and answers the exit status. What is asked for goes to
/// `writer`; why it could not be done goes to `errors`.
pub fn run<R: Threads + Wait + Clock + Sync, W: Write, E: Write>(
    alloc: Global,
    rt: &R,
    words: &[String],
    writer: &mut W,
    errors: &mut E,
) -> u8 {
    let done = match order_of(words) {
        Some(BenchOrder::Help) => show(writer),
        Some(BenchOrder::Step { events, is_timed }) => step(alloc, rt, writer, events, is_timed),
        Some(BenchOrder::Submit { rounds, is_timed }) => submit(
            alloc, rt, writer, rounds, is_timed,
        ),
        Some(BenchOrder::Stages { rounds, is_timed }) => stages(
            alloc, rt, writer, rounds, is_timed,
        ),
        None => {
            let _ = send(errors, USAGE.as_bytes());
            return REFUSED_WORDS;
        }
    };
    match done {
        Ok(()) => DONE,
        Err(fault) => report(fault, errors),
    }
}

fn show<W: Write>(writer: &mut W) -> Result<(), BenchFault> {
    send(writer, USAGE.as_bytes())?;
    finish(writer)?;
    Ok(())
}

fn step<C: Clock, W: Write>(
    alloc: Global,
    clock: &C,
    writer: &mut W,
    events: u64,
    is_timed: bool,
) -> Result<(), BenchFault> {
    let (counts, time) = played(alloc, clock, events)?;
    print_counts(alloc, writer, events, counts)?;
    if is_timed {
        print_time(alloc, writer, events, time)?;
    }
    finish(writer)?;
    Ok(())
}

// What this number of events count, and how long they take.
fn played<C: Clock>(
    alloc: Global,
    clock: &C,
    events: u64,
) -> Result<(Counts, Duration), BenchFault> {
    let mut workload = Workload::new(alloc)?;
    let time = time_of_playing(alloc, clock, &mut workload, events)?;
    Ok((workload.counts(), time))
}

fn time_of_playing<C: Clock>(
    alloc: Global,
    clock: &C,
    workload: &mut Workload,
    events: u64,
) -> Result<Duration, BenchFault> {
    let begin = Instant::now(clock).map_err(|_| BenchFault::Clock)?;
    workload.play_events(alloc, events)?;
    begin.elapsed(clock).map_err(|_| BenchFault::Clock)
}

fn submit<R: Threads + Wait + Clock + Sync, W: Write>(
    alloc: Global,
    rt: &R,
    writer: &mut W,
    rounds: u64,
    is_timed: bool,
) -> Result<(), BenchFault> {
    for sharing in RUNS {
        let mut all = Measured::none();
        for _ in 0..rounds {
            all = all.with(run_once(rt, alloc, sharing)?);
        }
        print_run(alloc, writer, sharing, all, is_timed)?;
    }
    finish(writer)?;
    Ok(())
}

fn stages<C: Clock, W: Write>(
    alloc: Global,
    clock: &C,
    writer: &mut W,
    rounds: u64,
    is_timed: bool,
) -> Result<(), BenchFault> {
    for stage in STAGES {
        let time = lasted(alloc, clock, stage, rounds)?;
        print_stage(alloc, writer, stage, rounds, is_timed.then_some(time))?;
    }
    finish(writer)?;
    Ok(())
}

fn report<E: Write>(fault: BenchFault, errors: &mut E) -> u8 {
    let _ = writeln!(errors, "bhs_bench: {fault}");
    match fault {
        BenchFault::Network(_)
        | BenchFault::Setup(_)
        | BenchFault::Held(_)
        | BenchFault::Unsettled => REFUSED_MATCH,
        BenchFault::Memory => NO_MEMORY,
        BenchFault::Write | BenchFault::Clock => FAILED_STREAM,
    }
}
