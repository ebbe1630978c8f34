//! Files that are written on while a contest goes on, and that no other server touches meanwhile.

use bhs_cli::{Fault, private_options, put_aside, put_in_place};
use std::alloc::Global;
use std::fs::{File, OpenOptions, TryLockError};
use std::io::ErrorKind;
use std::os::unix::fs::MetadataExt;
use std::rt::Files;

/// What a contest keeps on a machine. Threads share it, which the check does not let them do with the files of a
/// machine in general.
pub trait Keep {
    /// Opens and locks a file, if it exists. The lock is held until the file is closed.
    fn lock(&self, name: &str) -> Result<Option<File>, Fault>;

    /// Creates a file for appending that only its owner may read, and locks it until it is closed. Fails if the file
    /// exists.
    fn begin(&self, name: &str) -> Result<File, Fault>;

    /// Gives a file another name, once what was written to it is on the disk. If a file of that name is there, it gets
    /// `.old` behind its name, or the next such name that is free.
    fn rename(&self, alloc: Global, name: &str, new: &str) -> Result<(), Fault>;

    /// Puts the file of this name aside in the same way, if it is there and another one than `own`.
    fn put_others_aside(&self, alloc: Global, name: &str, own: &File) -> Result<(), Fault>;
}

impl Keep for HostRuntime {
    fn lock(&self, name: &str) -> Result<Option<File>, Fault> {
        match OpenOptions::new().read(true).open(self, name) {
            Ok(file) => Ok(Some(locked(self, file, name)?)),
            Err(error) if error.kind() == ErrorKind::NotFound => Ok(None),
            Err(_) => Err(Fault::Write),
        }
    }

    fn begin(&self, name: &str) -> Result<File, Fault> {
        match private_options().append(true).open(self, name) {
            Ok(file) => locked(self, file, name),
            Err(error) if error.kind() == ErrorKind::AlreadyExists => Err(Fault::Busy),
            Err(_) => Err(Fault::Write),
        }
    }

    fn rename(&self, alloc: Global, name: &str, new: &str) -> Result<(), Fault> {
        put_aside(alloc, self, new)?;
        put_in_place(self, name, new)
    }

    fn put_others_aside(&self, alloc: Global, name: &str, own: &File) -> Result<(), Fault> {
        if is_at(self, own, name) {
            return Ok(());
        }
        put_aside(alloc, self, name)
    }
}

// A file that was opened under this name, and now is locked.
fn locked<F: Files>(files: &F, file: File, name: &str) -> Result<File, Fault> {
    match file.try_lock() {
        Ok(()) if is_at(files, &file, name) => Ok(file),
        Ok(()) | Err(TryLockError::WouldBlock) => Err(Fault::Busy),
        Err(_) => Err(Fault::Write),
    }
}

// Whether a file that was opened is still the one of this name: another server may have renamed it meanwhile.
fn is_at<F: Files>(files: &F, file: &File, name: &str) -> bool {
    match (file.metadata(), files.metadata(name)) {
        (Ok(own), Ok(named)) => own.ino() == named.ino() && own.dev() == named.dev(),
        _ => false,
    }
}
