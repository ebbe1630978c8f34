//! The program `bhs_bench`: how many steps of a match are done in a second, how many commands under its lock, and how
//! long each stage of a line takes.
#![tactic(auto)]

mod deeds;
mod faults;
mod orders;
mod report;
mod run;
mod stages;
mod submissions;
mod torus;
mod workload;

use run::{FAILED_STREAM, NO_MEMORY};
use std::io::{BufWriter, ErrorKind};
use std::process::ExitCode;
use std::{env, io};

// The runtime gives threads to `main` alone, so what needs them is called here.
fn main(rt: HostRuntime) -> ExitCode {
    let alloc = rt.alloc();
    let words = match words(&rt) {
        Ok(words) => words,
        Err(error) => return ExitCode::from(status_of(error)),
    };
    let mut writer = match BufWriter::new(alloc, io::writer(&rt)) {
        Ok(writer) => writer,
        Err(error) => return ExitCode::from(status_of(error)),
    };
    let mut errors = rt.stderr();
    ExitCode::from(run::run(alloc, &rt, words.as_slice(), &mut writer, &mut errors))
}

// The words after the program's name.
fn words(rt: &HostRuntime) -> io::Result<Vec<String>> {
    Ok(env::args(rt)?.skip(1).collect(rt.alloc())?)
}

fn status_of(error: io::Error) -> u8 {
    if error.kind() == ErrorKind::OutOfMemory {
        NO_MEMORY
    } else {
        FAILED_STREAM
    }
}
