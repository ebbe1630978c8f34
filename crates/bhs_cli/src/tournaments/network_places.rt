//! The folders in which a network's file is searched.

use bhs_net::Memory;
use std::alloc::Global;
use std::fs;
use std::rt::Files;

/// The file of a network of this name in a tournament, whose own file is `own`: the name is a path from the working
/// directory, and if nothing is there, from the folder of the tournament's file.
pub(crate) fn place_of<F: Files>(
    alloc: Global,
    files: &F,
    own: &str,
    name: &str,
) -> Result<String, Memory> {
    if let Some(folder) = other_folder(own, name) {
        let near = format!(in alloc; "{folder}{name}")?;
        if !is_there(files, name) && is_there(files, near.as_str()) {
            return Ok(near);
        }
    }
    Ok(String::from_str(alloc, name)?)
}

/// Returns the folder of a tournament's file, with a final slash, which is searched for the network's file as well;
/// None if the tournament has no folder in its name, or the network's path is absolute.
pub(crate) fn other_folder<'a>(own: &'a str, name: &str) -> Option<&'a str> {
    if name.starts_with('/') {
        return None;
    }
    let (folder, _) = own.rsplit_once('/')?;
    own.get(..folder.len() + 1)
}

fn is_there<F: Files>(files: &F, name: &str) -> bool {
    fs::metadata(files, name).is_ok()
}
