//! The stages of a line of a client, each by itself.

use crate::faults::BenchFault;
use crate::workload::Workload;
use bhs_model::{Reply, Text, Why};
use bhs_net::Memory;
use bhs_script::push_printed;
use bhs_wire::{First, LentReply, LineReader, push_line};
use std::alloc::Global;
use std::time::{Clock, Duration, Instant};

/// How a line is processed.
#[derive(Clone, Copy)]
pub enum BenchMatch {
    /// The line is read.
    Reading,
    /// What it says is played.
    Playing,
    /// The reply is written.
    Writing,
    /// The reply is printed behind the number of its connection.
    Printing,
}

/// The stages, in their order.
pub const STAGES: [BenchMatch; 4] = [
    BenchMatch::Reading,
    BenchMatch::Playing,
    BenchMatch::Writing,
    BenchMatch::Printing,
];

// The lines that are read in a round. A reader remembers none of them: they have texts, or spaces that make them
// longer than what it remembers.
const LINES: [&[u8]; 4] = [
    b"{\"do\":\"look\"}                    ",
    b"{\"do\":\"depart\",\"port\":3}         ",
    b"{\"do\":\"write\",\"expect\":\"\",\"put\":\"been here\"}",
    b"{\"do\":\"loook\"}                   ",
];

// The lines that are printed in each round.
const PRINTED: [&[u8]; 4] = [
    b"{\"board\":\"been here\",\"from\":1,\"ok\":\"here\",\"ports\":4}\n",
    b"{\"ok\":\"gone\"}\n",
    b"{\"ok\":\"written\"}\n",
    b"{\"no\":\"line\"}\n",
];

/// How many lines, or events, a round has.
pub const EACH_ROUND: u64 = 4;

/// How long a stage takes, done this number of times.
pub fn lasted<C: Clock>(
    alloc: Global,
    clock: &C,
    stage: BenchMatch,
    rounds: u64,
) -> Result<Duration, BenchFault> {
    let begin = Instant::now(clock).map_err(|_| BenchFault::Clock)?;
    match stage {
        BenchMatch::Reading => read(alloc, rounds)?,
        BenchMatch::Playing => play_rounds(alloc, rounds)?,
        BenchMatch::Writing => write(alloc, rounds)?,
        BenchMatch::Printing => print(alloc, rounds)?,
    }
    begin.elapsed(clock).map_err(|_| BenchFault::Clock)
}

fn read(alloc: Global, rounds: u64) -> Result<(), Memory> {
    let mut reader = LineReader::new(alloc);
    for _ in 0..rounds {
        for line in LINES {
            let _: First = reader.command_of(line)?;
        }
    }
    Ok(())
}

fn play_rounds(alloc: Global, rounds: u64) -> Result<(), BenchFault> {
    Workload::new(alloc)?.play_events(alloc, rounds.saturating_mul(EACH_ROUND))
}

fn write(alloc: Global, rounds: u64) -> Result<(), Memory> {
    let replies = replies(alloc)?;
    let mut text = Vec::new(alloc);
    for _ in 0..rounds {
        text.clear();
        for reply in &replies {
            push_line(alloc, &mut text, LentReply::of_reply(reply))?;
        }
    }
    Ok(())
}

fn replies(alloc: Global) -> Result<Vec<Reply>, Memory> {
    let here = Reply::Here {
        ports: 4,
        came: Some(1),
        board: Text::new(alloc, "been here")?,
    };
    Ok(vec![in alloc; here, Reply::Gone, Reply::Written, Reply::No(Why::Line)]?)
}

fn print(alloc: Global, rounds: u64) -> Result<(), Memory> {
    let mut text = Vec::new(alloc);
    for _ in 0..rounds {
        text.clear();
        for line in PRINTED {
            push_printed(&mut text, 12, line)?;
        }
    }
    Ok(())
}
