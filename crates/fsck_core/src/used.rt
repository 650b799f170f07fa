//! The extents of what uses a volume's blocks.
ghost use Rattle.std.specs.Prelude.{◌≡◌, ◌≤◌, ◌+◌, ◌-◌, ◌*◌, ◌/◌, ◌^◌, ◌++◌, map, IfOk, OnOk};
ghost use Rattle.std.specs.List.{flat_map};
ghost use Rattle.fork_map.specs.Blocks.{blocks_of};
ghost use Rattle.hfs_volume.specs.Blocks.{IsGoodHeader, forks_of, used_in};
ghost use Rattle.hfs_volume.specs.Content.{VolumeState, overflow_in_volume};
ghost use Rattle.hfs_volume.specs.Forks.{blocks_owned, in_use};
ghost use Rattle.hfs_volume.specs.Records.{attribute_of, spelled_value};
ghost use Rattle.hfs_volume.specs.Values.{blocks_of_values, extents_in};
ghost use Rattle.fsck_core.specs.Overflows.{overflows_in};
ghost use Rattle.fsck_core.specs.Owners.{owned_all};
ghost use Rattle.fsck_core.specs.UsedExtents.{reserved_extents, bad_in};

use crate::follow::OwnedFork;
use crate::overflow::{OverflowRow, push_used};
use crate::stretch::{are_in_order, own_extents};
use cat_records::{AttrRecord, RecordFault, read_attr};
use fork_map::ExtentList;
use fsck_scan::Pairs;
use hx_bytes::{Extent, OutOfMemory};
use std::alloc::Global;
use volume_header::VolumeHeader;

/// The CNID of the bad blocks, which have no fork.
const BAD_BLOCKS: u32 = 5;

/// The bytes at a volume's start whose blocks are reserved, and those at its end.
const FRONT: u32 = 1536;

const BACK: u64 = 1024;

/// How many blocks of so many bytes the reserved bytes at a volume's start take.
fn front_blocks(size: u32) -> u32
    requires least { 512 ≤ size }
    requires most { size ≤ 65536 }
    ensures { result ≡ (1536 + size - 1) / size }
{
    (FRONT + size - 1) / size
}

/// The block that holds the first of the reserved bytes at the end of a volume of so many sectors.
fn back_block(sectors: u64, size: u32) -> u32
    requires least { 512 ≤ size }
    requires few { sectors ≤ 2 ^ 31 }
    ensures { result ≡ (sectors * 512 - 1024) / size }
{
    ((sectors * 512).saturating_sub(BACK) / size as u64) as u32
}

/// The reserved blocks of a volume of so many sectors, whose header keeps rule 1 (TN1150, "Volume Header").
pub fn read_reserved(
    alloc: Global,
    sectors: u64,
    head: &VolumeHeader,
) -> Result<ExtentList, OutOfMemory>
    requires { IsGoodHeader sectors head.now }
    ensures { IfOk result (λ list. list ≡ reserved_extents sectors head.now) }
{
    let front = front_blocks(head.block_size);
    let back = back_block(sectors, head.block_size);
    let mut list = ExtentList::new(alloc);
    list.push(Extent {
        start: 0,
        count: front,
    })?;
    list.push(Extent {
        start: back,
        count: head.total_blocks.saturating_sub(back),
    })?;
    Ok(list)
}

/// Adds extents behind those that are there.
fn add_extents(list: &mut ExtentList, extents: &[Extent]) -> Result<(), OutOfMemory>
    ensures { OnOk result (list.new ≡ list.old ++ extents.now) }
{
    for extent in extents {
        list.push(*extent)?;
    }
    Ok(())
}

/// Adds all extents of each fork.
fn add_owned(
    alloc: Global,
    list: &mut ExtentList,
    rows: &[OverflowRow],
    forks: &[OwnedFork],
) -> Result<(), OutOfMemory>
    ensures { OnOk result (blocks_of list.new ≡ blocks_of list.old ++ flat_map (blocks_owned (overflows_in rows.now)) (owned_all forks.now)) }
{
    let in_order = are_in_order(rows);
    for owned in forks {
        let extents = own_extents(alloc, rows, in_order, owned)?;
        add_extents(list, extents.as_slice())?;
    }
    Ok(())
}

/// Adds the extents of a row, if it is one of bad blocks.
fn add_bad_row(list: &mut ExtentList, row: &OverflowRow) -> Result<(), OutOfMemory>
    ensures { OnOk result (list.new ≡ list.old ++ bad_in row.now) }
{
    if row.id != BAD_BLOCKS {
        return Ok(());
    }
    add_extents(list, &row.extents.extents)
}

/// Adds the extents of bad blocks.
fn add_bad(list: &mut ExtentList, rows: &[OverflowRow]) -> Result<(), OutOfMemory>
    ensures { OnOk result (list.new ≡ list.old ++ flat_map bad_in rows.now) }
{
    for row in rows {
        add_bad_row(list, row)?;
    }
    Ok(())
}

/// Adds the extents in use of a record of the attributes file.
fn add_value(alloc: Global, list: &mut ExtentList, value: &[u8]) -> Result<(), OutOfMemory>
    ensures { OnOk result (list.new ≡ list.old ++ in_use (extents_in (spelled_value value.now))) }
{
    match read_attr(alloc, value) {
        Ok(AttrRecord::Fork(fork)) => push_used(list, &fork.extents.extents),
        Ok(AttrRecord::More(more)) => push_used(list, &more.extents),
        Ok(AttrRecord::Inline(_)) => Ok(()),
        Err(RecordFault::Memory) => Err(OutOfMemory),
        Err(RecordFault::BadRecord { .. }) => Ok(()),
    }
}

/// Adds the extents of the values of attributes.
fn add_values(alloc: Global, list: &mut ExtentList, attributes: &Pairs) -> Result<(), OutOfMemory>
    ensures { OnOk result (blocks_of list.new ≡ blocks_of list.old ++ blocks_of_values (map attribute_of attributes.now)) }
{
    for at in 0..attributes.len() {
        add_value(alloc, list, attributes.value(at))?;
    }
    Ok(())
}

/// The extents of all that uses blocks of a volume of so many sectors, whose header keeps rule 1: its reserved blocks, its forks, its bad
/// blocks, and the values of its attributes.
pub fn read_used(
    alloc: Global,
    sectors: u64,
    head: &VolumeHeader,
    rows: &[OverflowRow],
    forks: &[OwnedFork],
    attributes: &Pairs,
) -> Result<ExtentList, OutOfMemory>
    requires { IsGoodHeader sectors head.now }
    ensures { (volume : VolumeState) → sectors ≡ volume.sectors → head.now ≡ volume.head → overflows_in rows.now ≡ overflow_in_volume volume → owned_all forks.now ≡ forks_of volume → attributes.now ≡ volume.attribute_pairs
        → IfOk result (λ list. blocks_of list ≡ used_in volume) }
{
    let mut list = read_reserved(alloc, sectors, head)?;
    add_owned(alloc, &mut list, rows, forks)?;
    add_bad(&mut list, rows)?;
    add_values(alloc, &mut list, attributes)?;
    Ok(list)
}
