//! Reading the replays that words name, and writing those of a rehearsal.

ghost use Rattle.std.specs.Prelude.{◌≡◌, ◌⊎◌, IfOk, IfErr, IsOk, OnOk, map, string_bytes};
ghost use Rattle.std.specs.List.{AllByRecursion};
ghost use Rattle.bhs_stream.specs.Streams.{known_takes};
ghost use Rattle.bhs_stream.specs.Sending.{PutsAll};
ghost use Rattle.bhs_rehearsal.specs.Rehearsing.{game_of};
ghost use Rattle.bhs_replay.specs.Replay.{replay_of};
ghost use Rattle.bhs_cli.specs.Fault.{IsOfFault};
ghost use Rattle.bhs_cli.specs.Filing.{first_status};
ghost use Rattle.bhs_cli.specs.Naming.{new_name, replay_name};
ghost use Rattle.bhs_cli.specs.Playing.{StopsPlaying};
ghost use Rattle.bhs_cli.specs.Filing.{IsFiled};
ghost use Rattle.bhs_cli.specs.Filing.{IsReplayed};
ghost use Rattle.bhs_cli.specs.Showing.{Took};
ghost use Rattle.bhs_cli.specs.declared.reporting.statuses.TheConstants.{DONE};

use crate::match_files::parts::remove_part;
use crate::match_files::private_files::made;
use crate::reporting::faults::{Fault, report, report_with_cause};
use crate::reporting::names::folder_of;
use crate::reporting::statuses::DONE;
use bhs_match::Sealed;
use bhs_model::MAX_TURNS;
use bhs_net::Memory;
use bhs_replay::{read_replay, write_replay};
use bhs_setups::Ready;
use bhs_stream::Output;
use std::alloc::Global;
use std::fs;
use std::fs::OpenFile;
use std::io::{ErrorKind, Write};
use std::rt::Files;

/// The match of a replay's file, or the exit status of a fault that was reported.
pub fn match_of<F: Files, E: Write>(
    alloc: Global,
    files: &F,
    name: &str,
    errors: &mut E,
) -> Result<Sealed, u8>
    ensures read { IfOk result IsReplayed }
    ensures fault { IfErr result IsOfFault }
{
    match read_match(alloc, files, name) {
        Ok(sealed) => Ok(sealed),
        Err(fault) => Err(report_with_cause(files, name, fault, errors)),
    }
}

/// The match of a replay's file.
pub fn read_match<F: Files>(alloc: Global, files: &F, name: &str) -> Result<Sealed, Fault>
    ensures { IfOk result IsReplayed }
{
    let mut file = fs::open(files, name)?;
    Ok(read_replay(alloc, &mut file, MAX_TURNS)?)
}

/// Writes the replay of each match that has ended, as `write_sealed` does.
pub fn write_replays<F: Files, E: Write>(
    alloc: Global,
    files: &F,
    prefix: &str,
    ready: Vec<Ready>,
    errors: &mut E,
) -> u8
    ensures filed { result ≡ DONE → AllByRecursion (IsFiled (known_takes F.File.contents)) (map game_of ready.items) }
    ensures status { result ≡ DONE ⊎ IsOfFault result }
{
    let mut status = DONE;
    let mut number: usize = 0;
    for one in ready {
        let code = write_ended(alloc, files, prefix, number, one, errors);
        status = first_status(status, code);
        number = number.saturating_add(1);
    }
    status
}

/// Writes the replay of the match of this number to a file, whose name is the prefix with the number and `.jsonl`, and
/// then removes its part. Any fault is reported, and leaves the part. The answer is the exit status.
pub fn write_sealed<F: Files, E: Write>(
    alloc: Global,
    files: &F,
    prefix: &str,
    number: usize,
    sealed: &Sealed,
    errors: &mut E,
) -> u8
    ensures filed { result ≡ DONE → Took (known_takes F.File.contents) (replay_of sealed.now) }
    ensures status { result ≡ DONE ⊎ IsOfFault result }
{
    let status = write_numbered(alloc, files, prefix, number, sealed, errors);
    if status == DONE {
        remove_part(alloc, files, prefix, number);
    }
    status
}

/// The exit status of two things that were both tried: that of the first that failed, and `DONE` if none did.
pub fn first_status(first: u8, second: u8) -> u8
    ensures { result ≡ first_status first second }
{
    if first == DONE { second } else { first }
}

// Writes the replay of a match, if it has ended.
fn write_ended<F: Files, E: Write>(
    alloc: Global,
    files: &F,
    prefix: &str,
    number: usize,
    ready: Ready,
    errors: &mut E,
) -> u8
    ensures filed { result ≡ DONE → IsFiled (known_takes F.File.contents) (game_of ready) }
    ensures status { result ≡ DONE ⊎ IsOfFault result }
{
    match ready.game.sealed() {
        Ok(sealed) => write_numbered(alloc, files, prefix, number, &sealed, errors),
        Err(_) => DONE,
    }
}

// Writes the replay of the match of this number.
fn write_numbered<F: Files, E: Write>(
    alloc: Global,
    files: &F,
    prefix: &str,
    number: usize,
    sealed: &Sealed,
    errors: &mut E,
) -> u8
    ensures filed { result ≡ DONE → Took (known_takes F.File.contents) (replay_of sealed.now) }
    ensures status { result ≡ DONE ⊎ IsOfFault result }
{
    let Ok(name) = file_name(alloc, prefix, number) else {
        return report(prefix, Fault::Memory, errors);
    };
    match write_file(alloc, files, name.as_str(), sealed) {
        Ok(()) => DONE,
        Err(fault) => report_with_cause(files, name.as_str(), fault, errors),
    }
}

/// The name of the file of a match's replay.
pub fn file_name(alloc: Global, prefix: &str, number: usize) -> Result<String, Memory>
    ensures { IfOk result (λ name. string_bytes name ≡ replay_name prefix.now number) }
{
    format!(in alloc; "{prefix}{number}.jsonl")
}

// Writes a replay to a file atomically: the file has the whole text or its old contents.
fn write_file<F: Files>(alloc: Global, files: &F, name: &str, sealed: &Sealed) -> Result<(), Fault>
    ensures { OnOk result (Took (known_takes F.File.contents) (replay_of sealed.now)) }
{
    let new = new_name(alloc, name)?;
    let written = write_new(alloc, files, new.as_str(), sealed);
    put_or_removed(files, new.as_str(), name, written)
}

/// The name of the file into which a file of this name is written first.
pub(crate) fn new_name(alloc: Global, name: &str) -> Result<String, Memory>
    ensures { IfOk result (λ new. string_bytes new ≡ new_name name.now) }
{
    format!(in alloc; "{name}.new")
}

/// Gives a new file its name, if it was written; otherwise removes it, and tells the fault.
pub(crate) fn put_or_removed<F: Files>(
    files: &F,
    new: &str,
    name: &str,
    written: Result<(), Fault>,
) -> Result<(), Fault>
    ensures { OnOk result (IsOk written) }
{
    match written {
        Ok(()) => put_in_place(files, new, name),
        Err(fault) => {
            let _ = fs::remove_file(files, new);
            Err(fault)
        }
    }
}

/// Gives a file that was written its name, once its text is on the disk, and sees that the name is there too.
pub fn put_in_place<F: Files>(files: &F, new: &str, name: &str) -> Result<(), Fault> {
    let Ok(file) = fs::open(files, new) else {
        return Err(Fault::Write);
    };
    if file.sync_all().is_err() || fs::rename(files, new, name).is_err() {
        return Err(Fault::Write);
    }
    synced_folder(files, folder_of(name))
}

// Sees that the names in a folder are on the disk. A folder that cannot be read, or whose file system syncs no folders,
// leaves that to the system.
fn synced_folder<F: Files>(files: &F, folder: &str) -> Result<(), Fault> {
    let Ok(folder) = fs::open(files, folder) else {
        return Ok(());
    };
    match folder.sync_all() {
        Err(error) if error.kind() != ErrorKind::InvalidInput => Err(Fault::Write),
        _ => Ok(()),
    }
}

// Writes a replay to a new file of this name.
fn write_new<F: Files>(alloc: Global, files: &F, name: &str, sealed: &Sealed) -> Result<(), Fault>
    ensures { OnOk result (Took (known_takes F.File.contents) (replay_of sealed.now)) }
{
    let mut file = made(files, name)?;
    write_match(alloc, sealed, &mut file)
}

// Writes the replay of a match.
pub(crate) fn write_match<W: Output>(
    alloc: Global,
    sealed: &Sealed,
    writer: &mut W,
) -> Result<(), Fault>
    ensures ok { OnOk result (PutsAll W.takes writer.old (replay_of sealed.now) writer.new) }
    ensures err { IfErr result (StopsPlaying W.takes (replay_of sealed.now) writer.old writer.new) }
{
    write_replay(alloc, sealed, writer)?;
    Ok(())
}
