//! Why a file could not be read or created, according to a second request to the system.

use crate::reporting::names::folder_of;
use std::fs;
use std::io::ErrorKind;
use std::rt::Files;

pub(crate) const ABSENT: &str = "there is no such file";

const FOLDER: &str = "it is a folder";

const FORBIDDEN: &str = "the system does not allow it";

const NOWHERE: &str = "there is no such folder to write it to";

/// Why a file of this name cannot be read, if the system says.
pub(crate) fn cause_of_no_read<F: Files>(files: &F, name: &str) -> Option<&'static str> {
    match fs::metadata(files, name) {
        Ok(found) if found.is_dir() => Some(FOLDER),
        // a pipe would wait for its other end
        Ok(found) if found.is_file() => match fs::open(files, name) {
            Ok(_) => None,
            Err(error) => cause_in(error.kind(), ABSENT),
        },
        Ok(_) => None,
        Err(error) => cause_in(error.kind(), ABSENT),
    }
}

/// Why a file of this name cannot be made, if the system says.
pub(crate) fn cause_of_no_file<F: Files>(files: &F, name: &str) -> Option<&'static str> {
    match (
        fs::metadata(files, folder_of(name)),
        fs::metadata(files, name),
    ) {
        (Err(error), _) => cause_in(error.kind(), NOWHERE),
        (Ok(found), _) if !found.is_dir() => Some(NOWHERE),
        (_, Ok(found)) if found.is_dir() => Some(FOLDER),
        _ => None,
    }
}

fn cause_in(kind: ErrorKind, absent: &'static str) -> Option<&'static str> {
    match kind {
        ErrorKind::NotFound | ErrorKind::NotADirectory => Some(absent),
        ErrorKind::PermissionDenied => Some(FORBIDDEN),
        _ => None,
    }
}
