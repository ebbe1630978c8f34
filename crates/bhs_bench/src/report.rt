//! What is printed.

use crate::faults::BenchFault;
use crate::stages::{BenchMatch, EACH_ROUND};
use crate::submissions::{Measured, Sharing};
use crate::workload::Counts;
use bhs_stream::send;
use std::alloc::Global;
use std::io::Write;
use std::time::Duration;

/// Prints the counts, a line for each.
pub fn print_counts<W: Write>(
    alloc: Global,
    writer: &mut W,
    events: u64,
    counts: Counts,
) -> Result<(), BenchFault> {
    let Counts {
        kept,
        arrivals,
        matches,
    } = counts;
    let text = format!(in alloc;
        "events {events}\nkept {kept}\narrivals {arrivals}\nmatches {matches}\n"
    )?;
    Ok(send(writer, text.as_bytes())?)
}

/// Prints how long the events took, and how many were done in a second.
pub fn print_time<W: Write>(
    alloc: Global,
    writer: &mut W,
    events: u64,
    time: Duration,
) -> Result<(), BenchFault> {
    let rate = rate(events, time);
    let seconds = time.as_secs();
    let millis = time.subsec_millis();
    let text = format!(in alloc; "seconds {seconds}.{millis:03}\nevents in a second {rate}\n")?;
    Ok(send(writer, text.as_bytes())?)
}

// How many were done in a second.
fn rate(number: u64, time: Duration) -> u128 {
    let micros = time.as_micros().max(1);
    u128::from(number) * 1_000_000 / micros
}

/// Prints what was measured in a run, in one line.
pub fn print_run<W: Write>(
    alloc: Global,
    writer: &mut W,
    sharing: Sharing,
    measured: Measured,
    is_timed: bool,
) -> Result<(), BenchFault> {
    let (lock, threads, matches) = match sharing {
        Sharing::Unlocked => ("no", 1, 1),
        Sharing::One { threads } => ("yes", threads, 1),
        Sharing::Many { threads } => ("yes", threads, threads),
    };
    let Measured {
        commands,
        kept,
        time,
    } = measured;
    let text = format!(in alloc;
        "lock {lock} threads {threads} matches {matches} commands {commands} kept {kept}"
    )?;
    send(writer, text.as_bytes())?;
    if is_timed {
        let rate = rate(commands, time);
        let text = format!(in alloc; " in a second {rate}")?;
        send(writer, text.as_bytes())?;
    }
    Ok(send(writer, b"\n")?)
}

/// Prints what was done in a stage, and how long one line or event of it took, in one line.
pub fn print_stage<W: Write>(
    alloc: Global,
    writer: &mut W,
    stage: BenchMatch,
    rounds: u64,
    time: Option<Duration>,
) -> Result<(), BenchFault> {
    let what = match stage {
        BenchMatch::Reading => "read lines",
        BenchMatch::Playing => "played events",
        BenchMatch::Writing => "written lines",
        BenchMatch::Printing => "printed lines",
    };
    let number = rounds.saturating_mul(EACH_ROUND);
    let text = format!(in alloc; "{what} {number}")?;
    send(writer, text.as_bytes())?;
    if let Some(time) = time {
        let nanos = time.as_nanos() / u128::from(number.max(1));
        let text = format!(in alloc; " nanoseconds {nanos}")?;
        send(writer, text.as_bytes())?;
    }
    Ok(send(writer, b"\n")?)
}
