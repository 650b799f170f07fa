//! The extents behind the first eight of a fork.

use crate::field::{number16, number32};
use crate::leaves::{Length, Takes};
use hx_bytes::{Extent, ExtentRecord, read_extents};
use std::alloc::{AllocError, Global};
use std::collections::BTreeMap;

/// The records of the extents overflow file that were found, by the file's id, its fork and the block of the fork at which they begin.
#[derive(Drop)]
pub struct Overflow {
    records: BTreeMap<(u32, u8, u32), ExtentRecord>,
}

const VALUE_LENGTH: usize = 64;

impl Overflow {
    pub(crate) fn new(alloc: Global) -> Overflow {
        Overflow {
            records: BTreeMap::new(alloc),
        }
    }

    /// The record of a fork from a block on, if there is one.
    pub(crate) fn from(&self, id: u32, fork: u8, start: u64) -> Option<ExtentRecord> {
        let Ok(start) = u32::try_from(start) else {
            return None;
        };
        self.records.get(&(id, fork, start)).copied()
    }
}

// The bytes of an extents key: the fork, the file's id and the block.
fn key_of(key: &[u8]) -> Option<(u32, u8, u32)> {
    let fork = *key.get(0)?;
    let id = number32(key, 2)?;
    let start = number32(key, 6)?;
    Some((id, fork, start))
}

impl Takes for Overflow {
    fn length(&self, bytes: &[u8], at: usize) -> Option<Length> {
        if number16(bytes, at)? != 10 {
            return None;
        }
        Some(Length {
            key: 10,
            value: VALUE_LENGTH,
        })
    }

    fn take(&mut self, key: &[u8], value: &[u8]) -> Result<(), AllocError> {
        if value.len() < VALUE_LENGTH {
            return Ok(());
        }
        if let Some(key) = key_of(key) {
            if !self.records.contains_key(&key) {
                self.records.insert(key, read_extents(value, 0))?;
            }
        }
        Ok(())
    }
}

/// Adds the extents of a record up to the first that is empty, and says how many blocks these have.
pub(crate) fn add_extents(
    extents: &mut Vec<Extent>,
    record: &ExtentRecord,
) -> Result<u64, AllocError> {
    let mut blocks: u64 = 0;
    for extent in record.extents {
        if extent.count == 0 {
            break;
        }
        extents.push(extent)?;
        blocks = blocks.saturating_add(u64::from(extent.count));
    }
    Ok(blocks)
}
