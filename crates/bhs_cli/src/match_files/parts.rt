//! Parts: what stands in files of the replays and turns of matches that go on, so that a server that is killed loses no
//! results.

ghost use Rattle.std.specs.Prelude.{◌≡◌, IfOk, string_bytes};
ghost use Rattle.bhs_replay.specs.Parts.{IsOfPart};
ghost use Rattle.bhs_cli.specs.Parts.{IsRecovered};
ghost use Rattle.bhs_cli.specs.Naming.{old_name, part_name, turns_part_name};
ghost use Rattle.bhs_cli.specs.Showing.{PrintsByLine, Reports};

use crate::match_files::replays::{file_name, write_match};
use crate::match_files::turn_files::turns_name;
use crate::reporting::faults::{Fault, report_with_cause};
use crate::streams::line_by_line::passed_on;
use bhs_match::Sealed;
use bhs_model::MAX_TURNS;
use bhs_net::Memory;
use bhs_replay::read_part;
use bhs_stream::Output;
use std::alloc::Global;
use std::fs;
use std::io::{ErrorKind, Write};
use std::rt::Files;

/// The name of the file that has the part of a match's replay: that of the replay's file with `.part`.
pub fn part_name(alloc: Global, prefix: &str, number: usize) -> Result<String, Memory>
    ensures { IfOk result (λ name. string_bytes name ≡ part_name prefix.now number) }
{
    format!(in alloc; "{prefix}{number}.jsonl.part")
}

/// The name of the file that has the part of the turns of a match's events: that of the turns' file with `.part`.
pub fn turns_part_name(alloc: Global, prefix: &str, number: usize) -> Result<String, Memory>
    ensures { IfOk result (λ name. string_bytes name ≡ turns_part_name prefix.now number) }
{
    format!(in alloc; "{prefix}{number}.turns.part")
}

/// Renames the files of an earlier contest under the names of a match's replay, turns and parts. They get `.old` behind
/// their names, or `.old2`, or the next number that is free: so none is taken for a new one, and none is ever replaced.
pub fn put_earlier_aside<F: Files>(
    alloc: Global,
    files: &F,
    prefix: &str,
    number: usize,
) -> Result<(), Fault> {
    put_aside(alloc, files, file_name(alloc, prefix, number)?.as_str())?;
    put_aside(alloc, files, turns_name(alloc, prefix, number)?.as_str())?;
    put_aside(alloc, files, part_name(alloc, prefix, number)?.as_str())?;
    put_aside(
        alloc,
        files,
        turns_part_name(alloc, prefix, number)?.as_str(),
    )
}

// How many earlier contests with one prefix are kept at most.
const EARLIER: u32 = 1_000_000;

/// Renames a file, if it exists, to the first free name.
pub fn put_aside<F: Files>(alloc: Global, files: &F, name: &str) -> Result<(), Fault> {
    if is_free(files, name)? {
        return Ok(());
    }
    for number in 1..EARLIER {
        let old = old_name(alloc, name, number)?;
        if is_free(files, old.as_str())? {
            return match fs::rename(files, name, old.as_str()) {
                Ok(()) => Ok(()),
                Err(_) => Err(Fault::Write),
            };
        }
    }
    Err(Fault::Write)
}

// The name of this number that the file of an earlier contest may get.
fn old_name(alloc: Global, name: &str, number: u32) -> Result<String, Memory>
    ensures { IfOk result (λ old. string_bytes old ≡ old_name name.now number) }
{
    if number == 1 {
        format!(in alloc; "{name}.old")
    } else {
        format!(in alloc; "{name}.old{number}")
    }
}

/// Whether nothing stands under a name.
pub fn is_free<F: Files>(files: &F, name: &str) -> Result<bool, Fault> {
    match fs::symlink_metadata(files, name) {
        Ok(_) => Ok(false),
        Err(error) if error.kind() == ErrorKind::NotFound => Ok(true),
        Err(_) => Err(Fault::Write),
    }
}

/// Removes the part of a match's replay, if it is there.
pub(crate) fn remove_part<F: Files>(alloc: Global, files: &F, prefix: &str, number: usize) {
    if let Ok(name) = part_name(alloc, prefix, number) {
        let _ = fs::remove_file(files, name.as_str());
    }
}

/// Removes the part of the turns of a match's events, if it is there.
pub(crate) fn remove_turns_part<F: Files>(alloc: Global, files: &F, prefix: &str, number: usize) {
    if let Ok(name) = turns_part_name(alloc, prefix, number) {
        let _ = fs::remove_file(files, name.as_str());
    }
}

/// Reads a part, and prints the replay of the match of its whole lines, which is closed where they stop. Any fault goes
/// to `errors`. The answer is the exit status.
pub fn print_recovered<F: Files, W: Output, E: Write>(
    alloc: Global,
    files: &F,
    name: &str,
    writer: &mut W,
    errors: &mut E,
) -> u8
    ensures { Reports (PrintsByLine W.takes W.flushes) IsRecovered writer.old writer.new result }
{
    match match_of_part(alloc, files, name) {
        Ok(sealed) => print_replay(alloc, &sealed, writer, errors),
        Err(fault) => report_with_cause(files, name, fault, errors),
    }
}

/// The match of a part, closed where its whole lines stop.
pub fn match_of_part<F: Files>(alloc: Global, files: &F, name: &str) -> Result<Sealed, Fault>
    ensures { IfOk result IsOfPart }
{
    let mut file = fs::open(files, name)?;
    Ok(read_part(alloc, &mut file, MAX_TURNS)?)
}

// Prints the replay of a match that was read of a part.
fn print_replay<W: Output, E: Write>(
    alloc: Global,
    sealed: &Sealed,
    writer: &mut W,
    errors: &mut E,
) -> u8
    requires { IsOfPart sealed.now }
    ensures { Reports (PrintsByLine W.takes W.flushes) IsRecovered writer.old writer.new result }
{
    passed_on(write_match(alloc, sealed, writer), writer, errors)
}
