//! Files that are written on by whole lines while a contest goes on.

use crate::locked_files::Keep;
use bhs_cli::Fault;
use std::fs::File;
use std::io::Write;

/// A file with lines of the events of a match. It stays open, so that it is written on while descriptors are used up.
#[derive(Drop)]
pub(crate) struct LineFile {
    file: File,
    /// How many bytes of the file are whole lines. What stands behind them is cut away before more is written.
    bytes: u64,
    /// Of how many events it has the lines.
    events: usize,
    /// Of how many events the lines are on the disk.
    synced: usize,
    /// Whether the last write failed, so that the file may end in a line that is not whole.
    is_torn: bool,
}

impl LineFile {
    /// Creates and locks a file with this head. Fails if the file exists.
    pub(crate) fn begun<K: Keep>(rt: &K, name: &str, head: &[u8]) -> Result<LineFile, Fault> {
        let mut file = rt.begin(name)?;
        if file.write_all(head).is_err() || file.sync_all().is_err() {
            return Err(Fault::Write);
        }
        Ok(LineFile {
            file,
            bytes: head.len() as u64,
            events: 0,
            synced: 0,
            is_torn: false,
        })
    }

    pub(crate) fn file(&self) -> &File {
        &self.file
    }

    pub(crate) fn events(&self) -> usize {
        self.events
    }

    pub(crate) fn synced(&self) -> usize {
        self.synced
    }

    /// Appends lines of this number of events, behind the lines that are whole.
    pub(crate) fn append(&mut self, lines: &[u8], events: usize) -> Result<(), Fault> {
        if self.is_torn && self.file.set_len(self.bytes).is_err() {
            return Err(Fault::Write);
        }
        self.is_torn = self.file.write_all(lines).is_err();
        if self.is_torn {
            return Err(Fault::Write);
        }
        self.bytes = self.bytes.saturating_add(lines.len() as u64);
        self.events = self.events.saturating_add(events);
        Ok(())
    }

    /// Syncs the file to the disk.
    pub(crate) fn sync(&mut self) -> Result<(), Fault> {
        if self.synced != self.events {
            if self.file.sync_data().is_err() {
                return Err(Fault::Write);
            }
            self.synced = self.events;
        }
        Ok(())
    }
}
