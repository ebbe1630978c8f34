//! What both files begin with.

ghost use Rattle.std.specs.Prelude.{◌≡◌};
ghost use Rattle.toml.specs.Parse.{parse_document};
ghost use Rattle.toml.specs.View.{table_view};
ghost use Rattle.bhs_files.specs.Reading.{GivesUnlessMemory};
ghost use Rattle.bhs_files.specs.Documents.{version_in, document_in};

use crate::faults::FileFault;
use crate::{shapes, tables};
use std::alloc::Global;
use toml::Table;

// Returns the version of a file, from 1 to the latest.
fn version_in(latest: u16, table: &Table) -> Option<u16>
    ensures { result ≡ version_in latest (table_view table.now) }
{
    let version = shapes::number(tables::lookup(table, "version")?)?;
    if 1 <= version && version <= latest {
        Some(version)
    } else {
        None
    }
}

/// Parses a text as a versioned document: returns its version, from 1 to the latest, and its table.
pub fn document(alloc: Global, text: &str, latest: u16) -> Result<(u16, Table), FileFault>
    ensures { GivesUnlessMemory (λ read. (read.0, table_view read.1)) result
        (document_in latest (parse_document text.now)) }
{
    match toml::table_from_str(alloc, text) {
        Ok(table) => match version_in(latest, &table) {
            Some(version) => Ok((version, table)),
            None => Err(FileFault::Version),
        },
        Err(error) => {
            if error.is_memory() {
                Err(FileFault::Memory)
            } else {
                Err(FileFault::Toml)
            }
        }
    }
}
