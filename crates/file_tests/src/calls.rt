//! The calls of files behind gates that look up what they need.
ghost use Rattle.std.specs.Prelude.{◌≡◌, ◌≤◌, ◌^◌};
ghost use Rattle.std.specs.List.{All};

use crate::file::File;
use crate::gates::{has_room, has_zeros, holds_file, is_block_size, may_spill, uses};
use crate::sectors::Sectors;
use alloc_bitmap::Bitmap;
use file_io::{grow_step, read, shrink_step, write, zero_step};
use fork_map::ExtentList;
use hx_bytes::{Bytes, Trouble};
use std::alloc::Global;
use std::process::Abort;
use std::test::Fail;

pub fn read_part(
    rt: &impl Abort,
    alloc: Global,
    file: &mut File,
    from: u64,
    count: u32,
) -> Result<Bytes, Trouble> {
    assert!(rt; is_block_size(file.block));
    assert!(rt;
        holds_file(
            &file.fork,
            file.block,
            file.space.list.len() as u64,
            file.size
        )
    );
    read(
        alloc,
        &mut file.space,
        &file.fork,
        file.block,
        file.size,
        from,
        count,
    )
}

pub fn write_at(
    rt: &impl Abort,
    alloc: Global,
    file: &mut File,
    from: u64,
    value: &[u8],
) -> Result<ExtentList, Trouble> {
    assert!(rt; from <= 1 << 39 && value.len() <= 1 << 39);
    assert!(rt; is_block_size(file.block));
    assert!(rt;
        holds_file(
            &file.fork,
            file.block,
            file.space.list.len() as u64,
            file.size
        )
    );
    assert!(rt; uses(&file.map, file.fork.as_slice()));
    assert!(rt; has_room(&file.map, file.block, from + value.len() as u64));
    assert!(rt; may_spill(&file.map, file.block, &file.space));
    write(
        alloc,
        &mut file.space,
        &mut file.map,
        &file.fork,
        file.block,
        file.size,
        from,
        value,
        0,
    )
}

/// Makes a file longer, of whose zero blocks so many hold zeros already.
pub fn grow_over(
    rt: &impl Abort,
    alloc: Global,
    file: &mut File,
    to: u64,
    zeroed: u32,
) -> Result<ExtentList, Trouble> {
    assert!(rt; file.size <= to && to <= 1 << 40);
    assert!(rt; is_block_size(file.block));
    assert!(rt;
        holds_file(
            &file.fork,
            file.block,
            file.space.list.len() as u64,
            file.size
        )
    );
    assert!(rt; uses(&file.map, file.fork.as_slice()));
    assert!(rt; has_room(&file.map, file.block, to));
    assert!(rt; has_zeros(file.block, file.size, to, zeroed));
    assert!(rt; may_spill(&file.map, file.block, &file.space));
    grow_step(
        alloc,
        &mut file.space,
        &mut file.map,
        &file.fork,
        file.block,
        file.size,
        to,
        zeroed,
    )
}

/// Fills blocks with zeros that the next `count` blocks to be taken have, from a place up to another.
pub fn fill(
    rt: &impl Abort,
    alloc: Global,
    space: &mut Sectors,
    map: &mut Bitmap,
    block: u32,
    count: u32,
    from: u32,
    behind: u32,
) -> Result<(), Trouble> {
    if !is_block_size(block) {
        panic!(rt; "a block has 512 to 65,536 bytes");
    }
    if !may_spill(map, block, space) {
        panic!(rt; "a free block lies outside the space");
    }
    assert!(rt; from <= behind && behind <= count);
    assert!(rt; count <= map.count_free());
    let picked = map.pick(alloc, count)?;
    assert!(rt; holds_file(&picked, block, space.list.len() as u64, 0));
    zero_step(space, &picked, block, from, behind - from)?;
    Ok(())
}

pub fn shrink(rt: &impl Abort, alloc: Global, file: &mut File, keep: u32) -> Result<(), Fail> {
    assert!(rt; uses(&file.map, file.fork.as_slice()));
    let list = shrink_step(alloc, &mut file.map, &file.fork, keep)?;
    file.fork = list;
    Ok(())
}

/// Looks whether the file has the bytes that it ought to have.
pub fn is_as_told(rt: &impl Abort, alloc: Global, file: &mut File) -> Result<(), Fail> {
    let all = read_part(rt, alloc, file, 0, u32::MAX)?;
    assert!(rt; all.as_slice() == file.plain.as_slice());
    Ok(())
}
