//! A file of the system whose bytes are put.
use crate::listing::{Attributes, attributes_of};
use std::fs::File;
use std::io::{self, Read};

/// A file that is read from its first byte on.
#[derive(Drop)]
pub(crate) struct Reading {
    file: File,
    pub(crate) shown: String,
    size: u64,
    changed: i64,
    bytes: u64,
}

impl Reading {
    /// Opens a file, unless another one has its name by now.
    pub(crate) fn open(
        rt: &HostRuntime,
        shown: String,
        attributes: &Attributes,
    ) -> io::Result<Option<Reading>> {
        let file = File::open(rt, shown.as_str())?;
        let found = attributes_of(&file.metadata()?);
        if found.identity != attributes.identity {
            return Ok(None);
        }
        Ok(Some(Reading {
            file,
            shown,
            size: found.size,
            changed: found.changed,
            bytes: 0,
        }))
    }

    /// Reads the next bytes: fewer than there is room for only at the end of the file.
    pub(crate) fn read(&mut self, into: &mut [u8]) -> io::Result<usize> {
        let count = fill(&mut self.file, into)?;
        self.bytes = self.bytes.saturating_add(count as u64);
        Ok(count)
    }

    /// Whether the file was changed while it was read.
    pub(crate) fn is_changed(&self) -> bool {
        match self.file.metadata() {
            Ok(found) => {
                let found = attributes_of(&found);
                found.changed != self.changed || found.size != self.size || self.bytes != self.size
            }
            Err(_) => true,
        }
    }
}

/// Reads until there is no more room or no more bytes.
pub(crate) fn fill<R: Read>(from: &mut R, into: &mut [u8]) -> io::Result<usize> {
    let mut done: usize = 0;
    for _ in 0..u64::MAX {
        if done >= into.len() {
            break;
        }
        let count = from.read(&mut into[done..])?;
        if count == 0 {
            break;
        }
        done = done.saturating_add(count);
    }
    Ok(done)
}
