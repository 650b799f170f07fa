//! What the records of files say that no reply of the server tells: symbolic links, resource forks, compressed bytes.

use crate::catalog::{FILE, record_length};
use crate::field::number16;
use crate::leaves::{Length, Takes};
use crate::overflow::Overflow;
use crate::reading::{catalog_fork, extents_fork};
use crate::source::Sectors;
use crate::tree::{TreeFile, take_in_order};
use crate::volume::{Copy, read_volume};
use cat_records::{CatRecord, FileRecord, RecordFault, read_catalog};
use std::alloc::{AllocError, Global};
use std::collections::BTreeMap;

/// What a file has besides its bytes, or instead of them.
#[derive(Clone, Copy, Debug, PartialEq, Eq)]
pub struct Extra {
    /// Whether it is a symbolic link, and its bytes are the path to which it leads.
    pub is_symlink: bool,
    /// Whether its bytes stand compressed in an attribute or in its resource fork.
    pub is_compressed: bool,
    /// How many bytes its resource fork has.
    pub resources: u64,
}

impl Extra {
    /// That of a file which is its bytes alone.
    pub fn none() -> Extra {
        Extra {
            is_symlink: false,
            is_compressed: false,
            resources: 0,
        }
    }

    /// What a file's record says.
    pub fn of(file: &FileRecord) -> Extra {
        Extra {
            is_symlink: file.fields.mode & KIND == SYMLINK,
            is_compressed: file.fields.owner_flags & COMPRESSED != 0
                && file.data_fork.logical_size == 0,
            resources: file.resource_fork.logical_size,
        }
    }
}

/// The files that have something besides their bytes, by their ids.
pub type Extras = BTreeMap<u32, Extra>;

/// The kind of a file in its mode (TN1150, "HFS Plus Permissions").
const KIND: u16 = 0xF000;

const SYMLINK: u16 = 0xA000;

/// The owner's flag of a file whose bytes are compressed; its data fork is empty then.
const COMPRESSED: u8 = 0x20;

/// The taker of a catalog's records that keeps what is unusual of files.
#[derive(Drop)]
struct Unusual {
    alloc: Global,
    extras: Extras,
}

/// Reads what the files of a sound volume have besides their bytes, leaf by leaf.
pub fn read_extras<S: Sectors>(alloc: Global, source: &mut S) -> Result<Extras, AllocError> {
    let mut unusual = Unusual {
        alloc,
        extras: BTreeMap::new(alloc),
    };
    let Some(volume) = read_volume(source, Copy::First) else {
        return Ok(unusual.extras);
    };
    let mut overflow = Overflow::new(alloc);
    let fork = extents_fork(alloc, &volume)?;
    let file = TreeFile {
        per_block: volume.per_block,
        extents: fork.extents.as_slice(),
    };
    take_in_order(alloc, source, file, &mut overflow)?;
    let fork = catalog_fork(alloc, &overflow, &volume)?;
    let file = TreeFile {
        per_block: volume.per_block,
        extents: fork.extents.as_slice(),
    };
    take_in_order(alloc, source, file, &mut unusual)?;
    Ok(unusual.extras)
}

impl Takes for Unusual {
    fn length(&self, bytes: &[u8], at: usize) -> Option<Length> {
        record_length(bytes, at)
    }

    fn take(&mut self, _key: &[u8], value: &[u8]) -> Result<(), AllocError> {
        if number16(value, 0) != Some(FILE) {
            return Ok(());
        }
        match read_catalog(self.alloc, value) {
            Ok(CatRecord::File(file)) => self.keep(&file),
            Err(RecordFault::Memory) => Err(AllocError),
            _ => Ok(()),
        }
    }
}

impl Unusual {
    // Keeps what is unusual of a file, if anything is.
    fn keep(&mut self, file: &FileRecord) -> Result<(), AllocError> {
        let extra = Extra::of(file);
        if extra != Extra::none() {
            self.extras.insert(file.fields.id, extra)?;
        }
        Ok(())
    }
}
