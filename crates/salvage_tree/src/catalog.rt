//! The records of the catalog that were found.

use crate::field::{number16, number32};
use crate::leaves::{Length, Takes};
use cat_records::{CatRecord, EntryFields, FileRecord, RecordFault, read_catalog};
use hx_bytes::Units;
use std::alloc::{AllocError, Global};
use std::collections::BTreeMap;

/// A name in a folder.
#[derive(Drop)]
pub struct Placed {
    pub parent: u32,
    pub name: Units,
}

/// A folder by its own record.
#[derive(Drop)]
pub struct FoundFolder {
    pub placed: Placed,
    pub fields: EntryFields,
}

/// A file by its own record.
#[derive(Drop)]
pub struct FoundFile {
    pub placed: Placed,
    pub record: FileRecord,
}

/// What the leaves of a catalog tell, each record as it stands there.
#[derive(Drop)]
pub struct Catalog {
    alloc: Global,
    /// The folders, by their ids.
    pub folders: BTreeMap<u32, FoundFolder>,
    /// Where the thread of an id says that it is.
    pub threads: BTreeMap<u32, Placed>,
    pub files: Vec<FoundFile>,
}

const KEY_FRONT: usize = 6;

const MOST_NAME: usize = 255;

const FOLDER: u16 = 1;

pub(crate) const FILE: u16 = 2;

const FOLDER_THREAD: u16 = 3;

const FILE_THREAD: u16 = 4;

const FOLDER_LENGTH: usize = 88;

const FILE_LENGTH: usize = 248;

const THREAD_FRONT: usize = 10;

impl Catalog {
    pub(crate) fn new(alloc: Global) -> Catalog {
        Catalog {
            alloc,
            folders: BTreeMap::new(alloc),
            threads: BTreeMap::new(alloc),
            files: Vec::new(alloc),
        }
    }

    fn take_file(&mut self, placed: Placed, record: FileRecord) -> Result<(), AllocError> {
        self.files.push(FoundFile { placed, record })?;
        Ok(())
    }

    // The first record of an id is kept.
    fn take_folder(&mut self, placed: Placed, fields: EntryFields) -> Result<(), AllocError> {
        if !self.folders.contains_key(&fields.id) {
            self.folders
                .insert(fields.id, FoundFolder { placed, fields })?;
        }
        Ok(())
    }

    fn take_thread(&mut self, id: u32, placed: Placed) -> Result<(), AllocError> {
        if !self.threads.contains_key(&id) {
            self.threads.insert(id, placed)?;
        }
        Ok(())
    }
}

// The bytes of the value that begins at a place (TN1150, "Catalog File Data").
fn value_length(bytes: &[u8], at: usize) -> Option<usize> {
    match number16(bytes, at)? {
        FOLDER => Some(FOLDER_LENGTH),
        FILE => Some(FILE_LENGTH),
        FOLDER_THREAD | FILE_THREAD => {
            let units = usize::from(number16(bytes, at.saturating_add(8))?);
            Some(THREAD_FRONT.saturating_add(units.saturating_mul(2)))
        }
        _ => None,
    }
}

// The name in a key.
fn name_of(alloc: Global, key: &[u8]) -> Result<Units, AllocError> {
    let mut units = Vec::new(alloc);
    if let Some(bytes) = key.get(KEY_FRONT..) {
        for pair in bytes.chunks_exact(2) {
            if let [high, low] = pair {
                units.push(u16::from_be_bytes([*high, *low]))?;
            }
        }
    }
    Ok(Units::from_vec(units))
}

/// The lengths of the record of a catalog that begins at a place, if one does.
pub(crate) fn record_length(bytes: &[u8], at: usize) -> Option<Length> {
    let key = usize::from(number16(bytes, at)?);
    let units = usize::from(number16(bytes, at.saturating_add(6))?);
    if units > MOST_NAME || key != KEY_FRONT + 2 * units {
        return None;
    }
    let value = value_length(bytes, at.saturating_add(2).saturating_add(key))?;
    Some(Length { key, value })
}

impl Takes for Catalog {
    fn length(&self, bytes: &[u8], at: usize) -> Option<Length> {
        record_length(bytes, at)
    }

    fn take(&mut self, key: &[u8], value: &[u8]) -> Result<(), AllocError> {
        let Some(parent) = number32(key, 0) else {
            return Ok(());
        };
        let name = name_of(self.alloc, key)?;
        let record = match read_catalog(self.alloc, value) {
            Ok(record) => record,
            Err(RecordFault::Memory) => return Err(AllocError),
            Err(RecordFault::BadRecord { .. }) => return Ok(()),
        };
        match record {
            CatRecord::Folder(folder) => self.take_folder(Placed { parent, name }, folder.fields),
            CatRecord::File(file) => self.take_file(Placed { parent, name }, file),
            CatRecord::Thread(thread) => {
                let placed = Placed {
                    parent: thread.parent,
                    name: thread.name,
                };
                self.take_thread(parent, placed)
            }
        }
    }
}
