//! Names of files, as they are printed, and their folders.

use bhs_terminal::controls;
use std::fmt;
use std::fmt::{Display, Formatter};

/// A name as it stands in a line: characters that control a terminal are escaped, so that no name ends the line or
/// hides a part of it, and an empty name is shown as `''`.
#[derive(Drop)]
pub struct Shown<'a> {
    pub name: &'a str,
}

impl Display for Shown<'_> {
    fn fmt<W: fmt::Write>(&self, f: &mut Formatter<W>) -> fmt::Result {
        if self.name.is_empty() {
            return f.write_str("''");
        }
        for character in self.name.chars() {
            if controls(character) {
                write!(f, "{}", character.escape_default())?;
            } else {
                f.write_char(character)?;
            }
        }
        Ok(())
    }
}

/// The folder in which a name stands.
pub(crate) fn folder_of(name: &str) -> &str {
    match name.rsplit_once('/') {
        Some(("", _)) => "/",
        Some((folder, _)) => folder,
        None => ".",
    }
}
