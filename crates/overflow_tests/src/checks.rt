//! Forks held against their lists, and their records against the format (TN1150, "Extents Overflow File").
use crate::flaw::{Flaw, wanted};
use crate::fork::{Fork, count_records};
use crate::forks::Forks;
use fork_map::ExtentList;
use hx_bytes::OutOfMemory;
use std::alloc::Global;

fn append(list: &mut Vec<u8>, bytes: &[u8]) -> Result<(), OutOfMemory> {
    for byte in bytes {
        list.push(*byte)?;
    }
    Ok(())
}

/// The key of the record of a fork that begins behind so many blocks: ten bytes behind the length, the fork's kind, a byte of zero,
/// the file's CNID and the start.
fn key_of(alloc: Global, fork: &Fork, start: u32) -> Result<Vec<u8>, OutOfMemory> {
    let kind = if fork.of_resources { 0xFF } else { 0 };
    let mut key = Vec::new(alloc);
    append(&mut key, &[0, 10, kind, 0])?;
    append(&mut key, &fork.id.to_be_bytes())?;
    append(&mut key, &start.to_be_bytes())?;
    Ok(key)
}

/// The value of the record with the extents from a place on: eight of them, each with its first block and its number of blocks.
fn value_of(alloc: Global, fork: &Fork, at: usize) -> Result<Vec<u8>, OutOfMemory> {
    let mut value = Vec::new(alloc);
    for place in 0..8usize {
        let extent = fork.extent(at.wrapping_add(place));
        append(&mut value, &extent.start.to_be_bytes())?;
        append(&mut value, &extent.count.to_be_bytes())?;
    }
    Ok(value)
}

/// Whether the record that storing gave has the first eight extents.
fn has_front(fork: &Fork) -> bool {
    for (place, extent) in fork.rec.extents.extents.iter().enumerate() {
        if *extent != fork.extent(place) {
            return false;
        }
    }
    true
}

/// Looks for each overflow record of a fork.
fn check_records(alloc: Global, forks: &mut Forks, fork: &Fork) -> Result<(), Flaw> {
    let mut start = 0u32;
    for at in 0..fork.list.len() {
        if at >= 8 && at % 8 == 0 {
            let key = key_of(alloc, fork, start)?;
            let value = value_of(alloc, fork, at)?;
            let found = forks.has(key.as_slice(), value.as_slice())?;
            wanted(found, Flaw::Record(fork.id, start))?;
        }
        start = start.wrapping_add(fork.extent(at).count);
    }
    Ok(())
}

/// Loads a fork, and looks for its records.
fn check_fork(alloc: Global, forks: &mut Forks, fork: &Fork) -> Result<(), Flaw> {
    wanted(has_front(fork), Flaw::Front(fork.id))?;
    let found = forks.load(alloc, fork)?;
    wanted(
        found.as_slice() == fork.list.as_slice(),
        Flaw::Extents(fork.id),
    )?;
    check_records(alloc, forks, fork)
}

/// Loads each fork, looks for its records, and counts them.
pub fn check(alloc: Global, forks: &mut Forks, held: &[Fork]) -> Result<(), Flaw> {
    let mut many = 0usize;
    for fork in held {
        check_fork(alloc, forks, fork)?;
        many = many.wrapping_add(count_records(fork.list.len()));
    }
    let found = forks.shape().leaf_records;
    wanted(found as usize == many, Flaw::Count(found))
}

/// Gives a fork another list.
pub fn store(
    alloc: Global,
    forks: &mut Forks,
    fork: &mut Fork,
    new: ExtentList,
) -> Result<(), Flaw> {
    fork.rec = forks.store(alloc, fork, &new)?;
    fork.list = new;
    check_fork(alloc, forks, fork)
}
