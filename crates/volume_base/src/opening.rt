//! The other special files of a volume that comes into service.
ghost use Rattle.std.specs.Prelude.{◌≡◌, ◌<◌, ◌≤◌, ◌/◌, IsTrue, IfOk, length, Contains};
ghost use Rattle.std.specs.List.{All};
ghost use Rattle.flag_rows.specs.Bits.{sectors_for};
ghost use Rattle.alloc_bitmap.specs.Fork.{HoldsBits};
ghost use Rattle.alloc_bitmap.specs.Map.{none};
ghost use Rattle.btree_node.specs.Keys.{IsCatalogKey, catalog_cmp, anything};
ghost use Rattle.btree_node.specs.TreeFile.{catalog_form};
ghost use Rattle.btree_edit.specs.Causes.{HasTroubleCause};
ghost use Rattle.btree_file.specs.Held.{HoldsNodes, file_in};
ghost use Rattle.fork_map.specs.Blocks.{fork_sectors};
ghost use Rattle.btree_file.specs.Standing.{HoldsTree, LiesOpen, pairs_in};
ghost use Rattle.btree_file.specs.State.{sectors_of_tree};
ghost use Rattle.jnl_format.specs.Recovery.{header_of_volume};
ghost use Rattle.hfs_volume.specs.Content.{overflow_of_content, sectors_in};
ghost use Rattle.hfs_volume.specs.Entries.{AreSpelled};
ghost use Rattle.hfs_volume.specs.Forks.{data_kind, extents_id, extents_of, special_forks, allocation_id};
ghost use Rattle.hfs_volume.specs.Links.{private_id};
ghost use Rattle.hfs_volume.specs.Records.{placed_in};
ghost use Rattle.volume_base.specs.Opening.{IsFileOf, IsServable, folder_found};
ghost use Rattle.volume_base.specs.Service.{IsTreeInService, KeepsTree};
ghost use Rattle.volume_base.specs.Standing.{AreWhole, own_sectors_in};
ghost use Rattle.volume_base.specs.Touching.{Looks};

use crate::attaching::attach_tree;
use crate::extents::inside_or_none;
use crate::looking::{load_extents, lookup_record};
use crate::names::private_folder;
use crate::volume::{ROOT, Tree};
use alloc_bitmap::Bitmap;
use cat_records::CatRecord;
use fork_map::ExtentList;
use hx_bytes::{ForkRecord, Trouble};
use sector_disk::SectorSpace;
use std::alloc::Global;
use volume_header::VolumeHeader;

/// The CNID of the allocation file (TN1150, "Catalog Node IDs").
pub(crate) const ALLOCATION_FILE: u32 = 6;

/// The kind of a data fork.
pub const DATA: u8 = 0;

/// A tree in a special file, whose extents the extents overflow file tells.
pub(crate) fn attach_special<P: SectorSpace>(
    alloc: Global,
    space: &mut P,
    extents: &mut Tree,
    id: u32,
    fork: &ForkRecord,
    block: u32,
) -> Result<Tree, Trouble>
    requires least { 512 ≤ block }
    requires most { block ≤ 65536 }
    requires service { IsTreeInService extents.old (P.SectorView.space space.old) }
    requires open { LiesOpen extents.old.file (P.SectorView.space space.old) }
    requires servable { IsTrue (P.SectorView.space space.old).tells → IsServable (P.SectorView.space space.old).content }
    requires file { IsTrue (P.SectorView.space space.old).tells → IsFileOf extents_id (header_of_volume (P.SectorView.space space.old).content).extents_fork extents.old.file (P.SectorView.space space.old).content }
    requires special { IsTrue (P.SectorView.space space.old).tells → Contains (special_forks (header_of_volume (P.SectorView.space space.old).content)) (record { id = id; kind = data_kind; fork = fork.now }) }
    requires block { IsTrue (P.SectorView.space space.old).tells → block ≡ (header_of_volume (P.SectorView.space space.old).content).block_size }
    ensures file { IsTrue (P.SectorView.space space.old).tells
        → HoldsNodes (sectors_in (P.SectorView.space space.old).content (extents_of (overflow_of_content (P.SectorView.space space.old).content) id data_kind fork.now))
        (file_in (sectors_in (P.SectorView.space space.old).content (extents_of (overflow_of_content (P.SectorView.space space.old).content) id data_kind fork.now)) (P.SectorView.space space.old).content)
        → IfOk result (λ tree. IsFileOf id fork.now tree.file (P.SectorView.space space.old).content) }
    ensures service { IfOk result (λ tree. IsTreeInService tree (P.SectorView.space space.old)) }
    ensures keeps { KeepsTree (P.SectorView.space space.old).tells extents.old extents.new }
    ensures looks { Looks (λ at. Contains (own_sectors_in (P.SectorView.space space.old).content) at) (P.SectorView.space space.old) (P.SectorView.space space.new) }
    ensures below { P.SectorView.follows space.old space.new }
    ensures cause { HasTroubleCause (P.SectorView.space space.old).faults (P.SectorView.space space.new).faults result }
{
    let list = load_extents(
        alloc,
        &mut extents.file,
        &mut extents.desk,
        space,
        id,
        DATA,
        fork,
    )?;
    attach_tree(alloc, space, list, block)
}

/// As many blocks as these, or none where the bitmap's file has no bit for some of them.
fn blocks_told(fork: &ExtentList, per_block: u32, total: u32) -> u32
    requires { per_block ≤ 128 }
    ensures long { sectors_for result ≤ length (fork_sectors fork.now per_block) }
    ensures same { sectors_for total ≤ length (fork_sectors fork.now per_block) → result ≡ total }
{
    let sectors = (u64::from(total) + 4095) / 4096;
    if sectors == 0 {
        return total;
    }
    match fork.sector_at(per_block, sectors - 1) {
        Some(_) => total,
        None => 0,
    }
}

/// The bitmap that a header names.
pub(crate) fn load_map<P: SectorSpace>(
    alloc: Global,
    space: &mut P,
    extents: &mut Tree,
    header: &VolumeHeader,
) -> Result<Bitmap, Trouble>
    requires least { 512 ≤ header.now.block_size }
    requires most { header.now.block_size ≤ 65536 }
    requires service { IsTreeInService extents.old (P.SectorView.space space.old) }
    requires open { LiesOpen extents.old.file (P.SectorView.space space.old) }
    requires servable { IsTrue (P.SectorView.space space.old).tells → IsServable (P.SectorView.space space.old).content }
    requires file { IsTrue (P.SectorView.space space.old).tells → IsFileOf extents_id (header_of_volume (P.SectorView.space space.old).content).extents_fork extents.old.file (P.SectorView.space space.old).content }
    requires head { IsTrue (P.SectorView.space space.old).tells → header.now ≡ header_of_volume (P.SectorView.space space.old).content }
    ensures map { IsTrue (P.SectorView.space space.old).tells → IfOk result (λ map. (map.fork ≡ extents_of (overflow_of_content (P.SectorView.space space.old).content) allocation_id data_kind header.now.allocation_fork)
        × (length map.used ≡ header.now.total_blocks) × HoldsBits (P.SectorView.space space.old).content (fork_sectors map.fork map.per_block) map.used) }
    // No block is held, and nothing is changed.
    ensures rest { IfOk result (λ map. map ≡ record { used = map.used; held = none (length map.used); changed = none (sectors_for (length map.used)); kept_used = map.used; kept_held = none (length map.used); fork = map.fork; per_block = header.now.block_size / 512 }) }
    ensures inside { IfOk result (λ map. All (λ at. at < (P.SectorView.space space.old).sectors) (fork_sectors map.fork map.per_block)) }
    ensures long { IfOk result (λ map. sectors_for (length map.used) ≤ length (fork_sectors map.fork map.per_block)) }
    ensures keeps { KeepsTree (P.SectorView.space space.old).tells extents.old extents.new }
    ensures looks { Looks (λ at. Contains (own_sectors_in (P.SectorView.space space.old).content) at) (P.SectorView.space space.old) (P.SectorView.space space.new) }
    ensures below { P.SectorView.follows space.old space.new }
    ensures cause { HasTroubleCause (P.SectorView.space space.old).faults (P.SectorView.space space.new).faults result }
{
    let list = load_extents(
        alloc,
        &mut extents.file,
        &mut extents.desk,
        space,
        ALLOCATION_FILE,
        DATA,
        &header.allocation_fork,
    )?;
    let per_block = header.block_size / 512;
    let list = inside_or_none(alloc, list, per_block, space.sectors());
    let total = blocks_told(&list, per_block, header.total_blocks);
    Bitmap::load(alloc, space, &list, total, header.block_size)
}

/// The CNID of a folder that was found.
fn folder_found(found: Option<CatRecord>) -> Option<u32>
    ensures { result ≡ folder_found found }
{
    match found {
        Some(CatRecord::Folder(folder)) => Some(folder.fields.id),
        _ => None,
    }
}

/// The CNID of the private folder, where there is one.
pub(crate) fn find_private<P: SectorSpace>(
    alloc: Global,
    space: &mut P,
    catalog: &mut Tree,
) -> Result<Option<u32>, Trouble>
    requires service { IsTreeInService catalog.old (P.SectorView.space space.old) }
    requires open { LiesOpen catalog.old.file (P.SectorView.space space.old) }
    requires holds { IsTrue (P.SectorView.space space.old).tells → HoldsTree catalog_form IsCatalogKey anything catalog_cmp catalog.old.file (P.SectorView.space space.old).content }
    requires whole { IsTrue (P.SectorView.space space.old).tells → AreWhole (P.SectorView.space space.old).content }
    requires spelled { IsTrue (P.SectorView.space space.old).tells → AreSpelled (pairs_in (sectors_of_tree catalog.old.file) (P.SectorView.space space.old).content) }
    ensures private { IsTrue (P.SectorView.space space.old).tells → IfOk result (λ found. found ≡ private_id (placed_in (pairs_in (sectors_of_tree catalog.old.file) (P.SectorView.space space.old).content))) }
    ensures keeps { KeepsTree (P.SectorView.space space.old).tells catalog.old catalog.new }
    ensures looks { Looks (λ at. Contains (sectors_of_tree catalog.old.file) at) (P.SectorView.space space.old) (P.SectorView.space space.new) }
    ensures below { P.SectorView.follows space.old space.new }
    ensures cause { HasTroubleCause (P.SectorView.space space.old).faults (P.SectorView.space space.new).faults result }
{
    let name = private_folder(alloc)?;
    let found = lookup_record(
        alloc,
        &mut catalog.file,
        &mut catalog.desk,
        space,
        ROOT,
        &name,
    )?;
    Ok(folder_found(found))
}
