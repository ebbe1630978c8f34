//! Files that only their owner may read: the head of a replay names the black holes, and its events show who was lost.

use crate::reporting::faults::Fault;
use std::fs;
use std::fs::OpenOptions;
use std::io::ErrorKind;
use std::os::unix::fs::OpenOptionsExt;
use std::rt::Files;

// The mode of private files: the owner may read and write.
const OWNER: u32 = 0o600;

/// Returns the options that create a file which only its owner may read; an existing file makes the creation fail.
pub fn private_options() -> OpenOptions {
    let mut options = OpenOptions::new();
    options.create_new(true).mode(OWNER);
    options
}

/// Makes a file of this name to write to, which only its owner may read. What a program that was killed left under the
/// name is removed first, since others may be allowed to read it.
pub(crate) fn made<F: Files>(files: &F, name: &str) -> Result<F::File, Fault> {
    match fs::remove_file(files, name) {
        Err(error) if error.kind() != ErrorKind::NotFound => return Err(Fault::Write),
        _ => {}
    }
    let mut options = private_options();
    options.write(true);
    options.open(files, name).map_err(|_| Fault::Write)
}
