//! Commands on a file, each beside the plain array.
use crate::calls::{grow_over, is_as_told, shrink, write_at};
use crate::file::File;
use crate::making::BLOCKS;
use crate::plain::{overwritten, pattern, resized};
use fork_map::ExtentList;
use std::alloc::Global;
use std::process::Abort;
use std::test::Fail;

/// Gives all blocks back, so that the file is empty.
pub fn clear(rt: &impl Abort, alloc: Global, file: &mut File) -> Result<(), Fail> {
    file.size = 0;
    file.plain.clear();
    for _ in 0..BLOCKS {
        if file.fork.block_of(0).is_some() {
            shrink(rt, alloc, file, 0)?;
        }
    }
    file.map.keep();
    file.map.settle();
    assert!(rt; file.fork.block_of(0).is_none());
    Ok(())
}

/// Ends a command: the file has these blocks and bytes, and the old blocks are free.
pub fn end_command(
    rt: &impl Abort,
    alloc: Global,
    file: &mut File,
    fork: ExtentList,
    plain: Vec<u8>,
) -> Result<(), Fail> {
    file.fork = fork;
    file.size = plain.len() as u64;
    file.plain = plain;
    file.map.keep();
    file.map.settle();
    is_as_told(rt, alloc, file)
}

/// Writes a value. With the old blocks the file still has its old bytes, and with the new ones the new bytes.
pub fn put_value(
    rt: &impl Abort,
    alloc: Global,
    file: &mut File,
    from: u64,
    value: &[u8],
) -> Result<(), Fail> {
    let fork = write_at(rt, alloc, file, from, value)?;
    is_as_told(rt, alloc, file)?;
    if value.is_empty() {
        assert_eq!(rt; fork.len(), file.fork.len());
        return Ok(());
    }
    let plain = overwritten(alloc, file.plain.as_slice(), from, value)?;
    end_command(rt, alloc, file, fork, plain)
}

pub fn put(
    rt: &impl Abort,
    alloc: Global,
    file: &mut File,
    from: u64,
    length: u64,
    seed: u8,
) -> Result<(), Fail> {
    let value = pattern(alloc, length, seed)?;
    put_value(rt, alloc, file, from, value.as_slice())
}

/// Makes the file shorter, and takes its last blocks.
pub fn cut_to(rt: &impl Abort, alloc: Global, file: &mut File, small: u64) -> Result<(), Fail> {
    let block = file.block.max(1) as u64;
    let keep = (small.saturating_add(block - 1) / block).min(BLOCKS as u64) as u32;
    let plain = resized(alloc, file.plain.as_slice(), small)?;
    file.size = small;
    file.plain = plain;
    shrink(rt, alloc, file, keep)?;
    is_as_told(rt, alloc, file)
}

/// Makes the file longer: what is new is zeros.
pub fn extend_to(rt: &impl Abort, alloc: Global, file: &mut File, large: u64) -> Result<(), Fail> {
    extend_over(rt, alloc, file, large, 0)
}

/// The same where so many of its zero blocks hold zeros already.
pub fn extend_over(
    rt: &impl Abort,
    alloc: Global,
    file: &mut File,
    large: u64,
    zeroed: u32,
) -> Result<(), Fail> {
    let fork = grow_over(rt, alloc, file, large, zeroed)?;
    is_as_told(rt, alloc, file)?;
    let plain = resized(alloc, file.plain.as_slice(), large)?;
    end_command(rt, alloc, file, fork, plain)
}
