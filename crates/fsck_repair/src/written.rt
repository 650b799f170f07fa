//! The blocks that a repair may write.
ghost use Rattle.std.specs.Prelude.{◌≡◌, ◌↔◌, ◌≤◌, ◌+◌, ◌++◌, IsTrue, All, IfOk, OnOk};
ghost use Rattle.fork_map.specs.Blocks.{blocks_of};
ghost use Rattle.hfs_volume.specs.Blocks.{IsGoodHeader};
ghost use Rattle.hfs_volume.specs.Content.{VolumeState, overflow_in_volume};
ghost use Rattle.hfs_volume.specs.Forks.{extents_of, allocation_id, catalog_id, data_kind};
ghost use Rattle.fsck_core.specs.Overflows.{overflows_in};
ghost use Rattle.volume_repair.specs.Repair.{blocks_written};

use fork_map::ExtentList;
use fsck_core::{OverflowRow, fork_extents, read_reserved};
use hx_bytes::{Extent, OutOfMemory};
use std::alloc::Global;
use volume_header::VolumeHeader;

/// The CNIDs of the special files (TN1150, "Reserved Catalog Node IDs").
const CATALOG_FILE: u32 = 4;

const ALLOCATION_FILE: u32 = 6;

const DATA: u8 = 0;

/// The extents of the allocation file.
pub(crate) fn allocation_extents(
    alloc: Global,
    head: &VolumeHeader,
    rows: &[OverflowRow],
) -> Result<ExtentList, OutOfMemory>
    ensures { IfOk result (λ list. list ≡ extents_of (overflows_in rows.now) allocation_id data_kind head.now.allocation_fork) }
{
    fork_extents(alloc, rows, ALLOCATION_FILE, DATA, &head.allocation_fork)
}

/// The extents of the catalog file.
pub(crate) fn catalog_extents(
    alloc: Global,
    head: &VolumeHeader,
    rows: &[OverflowRow],
) -> Result<ExtentList, OutOfMemory>
    ensures { IfOk result (λ list. list ≡ extents_of (overflows_in rows.now) catalog_id data_kind head.now.catalog_fork) }
{
    fork_extents(alloc, rows, CATALOG_FILE, DATA, &head.catalog_fork)
}

/// Whether each extent ends inside a volume of so many blocks.
pub(crate) fn lie_inside(total: u32, extents: &[Extent]) -> bool
    ensures { IsTrue result ↔ All (λ extent. extent.start + extent.count ≤ total) extents.now }
{
    extents.iter().all(|extent| extent.start as u64 + extent.count as u64 <= total as u64)
}

/// Adds extents behind those that are there.
fn add_extents(list: &mut ExtentList, extents: &[Extent]) -> Result<(), OutOfMemory>
    ensures { OnOk result (list.new ≡ list.old ++ extents.now) }
{
    for extent in extents {
        list.push(*extent)?;
    }
    Ok(())
}

/// The extents that a repair may write: those of the allocation file, of the catalog file, and the reserved ones.
pub(crate) fn written_extents(
    alloc: Global,
    sectors: u64,
    head: &VolumeHeader,
    rows: &[OverflowRow],
) -> Result<ExtentList, OutOfMemory>
    requires { IsGoodHeader sectors head.now }
    ensures { (volume : VolumeState) → sectors ≡ volume.sectors → head.now ≡ volume.head → overflows_in rows.now ≡ overflow_in_volume volume → IfOk result (λ list. blocks_of list ≡ blocks_written volume) }
{
    let mut list = allocation_extents(alloc, head, rows)?;
    let catalog = catalog_extents(alloc, head, rows)?;
    add_extents(&mut list, catalog.as_slice())?;
    let reserved = read_reserved(alloc, sectors, head)?;
    add_extents(&mut list, reserved.as_slice())?;
    Ok(list)
}
