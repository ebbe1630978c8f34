//! Finishing a contest whose server was killed.

ghost use Rattle.std.specs.Prelude.{◌≡◌, IfErr};
ghost use Rattle.bhs_stream.specs.Streams.{known_takes};
ghost use Rattle.bhs_cli.specs.Fault.{IsOfFault};
ghost use Rattle.bhs_cli_results.specs.Recovery.{RecoversContest};

use crate::locked_files::Keep;
use crate::parts::report_part;
use bhs_cli::{Fault, lineup_of, part_name, report, turns_part_name};
use bhs_cli_results::recover_matches;
use bhs_stream::Output;
use std::alloc::Global;
use std::fs::File;
use std::io::Write;
use std::rt::Files;

/// Reads a tournament and its networks, and locks the parts of its matches, whose names begin with the prefix. Then the
/// replays and turns that are missing are written by the parts, and the table is printed. The answer is the exit
/// status. If a server writes one of the parts, all files are left alone.
pub fn recover_named<R: Files + Keep, W: Output, E: Write>(
    alloc: Global,
    rt: &R,
    name: &str,
    prefix: &str,
    writer: &mut W,
    errors: &mut E,
) -> u8
    ensures { RecoversContest (known_takes R.File.contents) W.takes W.flushes writer.old writer.new result }
{
    let lineup = match lineup_of(alloc, rt, name, errors) {
        Ok(lineup) => lineup,
        Err(status) => return status,
    };
    let _locks = match locked_parts(alloc, rt, prefix, lineup.ready.len(), errors) {
        Ok(locks) => locks,
        Err(status) => return status,
    };
    recover_matches(alloc, rt, prefix, &lineup, writer, errors)
}

// The parts that are there of this number of matches, locked; or the exit status of a fault that was reported.
fn locked_parts<K: Keep, E: Write>(
    alloc: Global,
    rt: &K,
    prefix: &str,
    matches: usize,
    errors: &mut E,
) -> Result<Vec<Locked>, u8>
    ensures { IfErr result IsOfFault }
{
    let mut locks = Vec::new(alloc);
    for number in 0..matches {
        let added = match locked_part(alloc, rt, prefix, number) {
            Ok(lock) => locks.push(lock).is_ok(),
            Err(fault) => return Err(report_part(alloc, prefix, number, fault, errors)),
        };
        if !added {
            return Err(report(prefix, Fault::Memory, errors));
        }
    }
    Ok(locks)
}

// The locked part of a match, and that of its turns, if they exist.
#[derive(Drop)]
struct Locked {
    _part: Option<File>,
    _turns: Option<File>,
}

fn locked_part<K: Keep>(
    alloc: Global,
    rt: &K,
    prefix: &str,
    number: usize,
) -> Result<Locked, Fault> {
    let part = part_name(alloc, prefix, number)?;
    let turns = turns_part_name(alloc, prefix, number)?;
    Ok(Locked {
        _part: lock(rt, part.as_str())?,
        _turns: lock(rt, turns.as_str())?,
    })
}

// Opens and locks a file, if it exists.
fn lock<K: Keep>(rt: &K, name: &str) -> Result<Option<File>, Fault> {
    match rt.lock(name) {
        Ok(lock) => Ok(lock),
        Err(Fault::Busy) => Err(Fault::Busy),
        Err(_) => Err(Fault::Read),
    }
}
