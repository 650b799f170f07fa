//! The catalog of a volume in service, which gets more nodes.
ghost use Rattle.std.specs.Prelude.{◌≡◌, ◌<◌, ◌≤◌, ◌+◌, ◌*◌, ◌^◌, ◌∷◌, ℕ, [], true, false, IsTrue, IfOk, OnOk, OnErr, length, slice_index_or};
ghost use Rattle.std.specs.List.{Contains};
ghost use Rattle.sector_disk.specs.Lists.{Content};
ghost use Rattle.alloc_bitmap.specs.Map.{free_of};
ghost use Rattle.flag_rows.specs.Bits.{count_set, sectors_for};
ghost use Rattle.btree_edit.specs.Causes.{HasTroubleCause};
ghost use Rattle.hx_bytes.specs.Fork.{FitsExtent, FitsExtents, FitsFork};
ghost use Rattle.hfs_volume.specs.Aside.{IsJournalSector};
ghost use Rattle.hfs_volume.specs.Content.{volume_of};
ghost use Rattle.hfs_volume.specs.Forks.{catalog_id};
ghost use Rattle.hfs_volume.specs.Reclaim.{GrowsTrees};
ghost use Rattle.hfs_volume.specs.TreeOf.{tree_of};
ghost use Rattle.overflow.specs.Records.{eight_at, no_extent};
ghost use Rattle.volume_header.specs.Header.{FitsHeader};
ghost use Rattle.volume_space.specs.Growing.{CanGrowCatalog, GrowsCatalog, HeadGrows, HasFreeRun, IsOwnOrFree, KeepsForks, Lengthens, TakesRun, blocks_filled, growth_load, longer_fork, nodes_load, run_load, with_catalog};
ghost use Rattle.volume_base.specs.Mapping.{HoldsUnchanged, changed_sectors};
ghost use Rattle.volume_base.specs.Service.{IsInService};
ghost use Rattle.volume_base.specs.Holding.{HoldsOn};
ghost use Rattle.volume_base.specs.Standing.{IsSettled, StandsOver, own_sectors};
ghost use Rattle.volume_base.specs.Touching.{Touches};

use crate::growable::count_blocks;
use alloc_bitmap::Bitmap;
use hfs_volume::growth_keeps_the_tree;
use hx_bytes::{Extent, ExtentRecord, ForkRecord, OutOfMemory, Trouble};
use sector_disk::SectorSpace;
use std::alloc::Global;
use volume_base::{Volume, put_map};
use volume_header::VolumeHeader;

/// An extent as it is: both its numbers have 32 bits.
fn known(extent: Extent) -> Extent
    ensures same { result ≡ extent }
    ensures fits { FitsExtent result }
{
    extent
}

/// An extent of a list, or an unused one where the list has no more.
fn extent_or_none(extents: &[Extent], at: usize) -> Extent
    ensures same { result ≡ slice_index_or extents.now at no_extent }
    ensures fits { FitsExtent result }
{
    match extents.get(at) {
        Some(extent) => known(*extent),
        None => Extent { start: 0, count: 0 },
    }
}

/// The first eight extents of a list, with unused ones where it has fewer.
pub fn first_eight(extents: &[Extent]) -> ExtentRecord
    ensures same { result ≡ eight_at extents.now 0 }
    ensures fits { FitsExtents result }
{
    ExtentRecord {
        extents: [
            extent_or_none(extents, 0),
            extent_or_none(extents, 1),
            extent_or_none(extents, 2),
            extent_or_none(extents, 3),
            extent_or_none(extents, 4),
            extent_or_none(extents, 5),
            extent_or_none(extents, 6),
            extent_or_none(extents, 7),
        ],
    }
}

/// A fork that goes on in so many blocks more of this size, with these extents.
pub(crate) fn longer_fork(
    fork: ForkRecord,
    extents: &[Extent],
    count: u32,
    block: u32,
) -> ForkRecord
    requires blocks { fork.total_blocks + count < 2 ^ 32 }
    requires bytes { fork.logical_size + count * block < 2 ^ 64 }
    ensures same { result ≡ longer_fork count block extents.now fork }
    ensures fits { FitsFork result }
{
    ForkRecord {
        logical_size: fork.logical_size + u64::from(count) * u64::from(block),
        clump_size: fork.clump_size,
        total_blocks: fork.total_blocks + count,
        extents: first_eight(extents),
    }
}

/// A header whose catalog goes on in so many blocks more, with these extents (TN1150, "Volume Header").
pub(crate) fn with_catalog(head: &VolumeHeader, extents: &[Extent], count: u32) -> VolumeHeader
    requires blocks { head.now.catalog_fork.total_blocks + count < 2 ^ 32 }
    requires bytes { head.now.catalog_fork.logical_size + count * head.now.block_size < 2 ^ 64 }
    requires free { count ≤ head.now.free_blocks }
    ensures same { result ≡ with_catalog count extents.now head.now }
    ensures fits { FitsHeader head.now → FitsHeader result }
{
    let mut grown = *head;
    grown.free_blocks = head.free_blocks - count;
    grown.catalog_fork = longer_fork(head.catalog_fork, extents, count, head.block_size);
    grown
}

/// Takes so many blocks, of which there are enough in a row.
pub(crate) fn take_run(map: &mut Bitmap, alloc: Global, count: u32) -> Result<Extent, OutOfMemory>
    requires some { 0 < count }
    requires enough { count ≤ count_set (free_of map.old) }
    requires run { HasFreeRun count (free_of map.old) }
    ensures takes { IfOk result (λ run. TakesRun count run map.old map.new) }
    ensures same { OnErr result (map.new ≡ map.old) }
{
    let list = map.take(alloc, count)?;
    Ok(list.get(0))
}

/// Takes a run of blocks for so many nodes more of the catalog, puts the nodes that this changes, and counts them in the header; neither
/// header nor bitmap is put. The volume stands as before.
fn lengthen_catalog<P: SectorSpace>(
    volume: &mut Volume,
    alloc: Global,
    space: &mut P,
    more: u32,
) -> Result<(), Trouble>
    requires stands { StandsOver volume.old (P.SectorView.space space.old) }
    requires settled { IsTrue (P.SectorView.space space.old).tells → IsSettled volume.old (P.SectorView.space space.old).content }
    requires can { CanGrowCatalog more volume.old (P.SectorView.space space.old) }
    requires closed { IsTrue (P.SectorView.space space.old).tells → (at : ℕ) → (P.SectorView.space space.old).closed at → IsJournalSector (P.SectorView.space space.old).content at }
    ensures stands { OnOk result (StandsOver volume.new (P.SectorView.space space.new)) }
    ensures lengthens { IsTrue (P.SectorView.space space.old).tells → OnOk result (Lengthens more volume.old volume.new (P.SectorView.space space.old) (P.SectorView.space space.new)) }
    ensures unchanged { IsTrue (P.SectorView.space space.old).tells → OnOk result (HoldsUnchanged volume.new (P.SectorView.space space.new).content) }
    ensures marks { OnOk result (length volume.new.map.changed ≡ sectors_for (length volume.new.map.used)) }
    ensures held { volume.new.map.held ≡ volume.old.map.held }
    ensures size { length volume.new.map.used ≡ length volume.old.map.used }
    ensures still { (k : ℕ) → slice_index_or volume.old.map.used k false ≡ true → slice_index_or volume.new.map.used k false ≡ true }
    ensures same { (volume.new.private ≡ volume.old.private) × (volume.new.shrunk ≡ volume.old.shrunk) × (volume.new.capacity ≡ volume.old.capacity) }
    ensures own { IsTrue (P.SectorView.space space.old).tells → (s : ℕ) → Contains (own_sectors volume.old) s → Contains (own_sectors volume.new) s }
    ensures gained { IsTrue (P.SectorView.space space.old).tells → (s : ℕ) → Contains (own_sectors volume.new) s → IsOwnOrFree volume.old s }
    ensures service { IsInService volume.new (P.SectorView.space space.new) }
    ensures touches { (committed : Content) → Touches committed (λ s. Contains (own_sectors volume.new) s) (P.SectorView.space space.old) (P.SectorView.space space.new) }
    ensures spent { (P.SectorView.space space.old).spare ≤ (P.SectorView.space space.new).spare + nodes_load volume.old.catalog.file more }
    ensures map { OnOk result (length (changed_sectors volume.new) ≤ run_load volume.old (blocks_filled volume.old.catalog.file more)) }
    ensures below { P.SectorView.follows space.old space.new }
    ensures cause { HasTroubleCause (P.SectorView.space space.old).faults (P.SectorView.space space.new).faults result }
{
    let blocks = count_blocks(&volume.catalog.file, more);
    let run = take_run(&mut volume.map, alloc, blocks as u32)?;
    volume.catalog.file.grow(alloc, space, run)?;
    volume.header = with_catalog(
        &volume.header,
        volume.catalog.file.fork().as_slice(),
        run.count,
    );
    Ok(())
}

/// Grows the catalog by so many nodes, in blocks that are free and not held, which follow one another (TN1150, "Allocation
/// File", "Node Allocation"). Its records stay what they are. `Memory` comes where memory is wanting, `Disk` where a read failed.
pub fn grow_catalog<P: SectorSpace>(
    volume: &mut Volume,
    alloc: Global,
    space: &mut P,
    more: u32,
) -> Result<(), Trouble>
    requires stands { StandsOver volume.old (P.SectorView.space space.old) }
    requires settled { IsTrue (P.SectorView.space space.old).tells → IsSettled volume.old (P.SectorView.space space.old).content }
    requires can { CanGrowCatalog more volume.old (P.SectorView.space space.old) }
    // Only the journal's sectors are closed.
    requires closed { IsTrue (P.SectorView.space space.old).tells → (at : ℕ) → (P.SectorView.space space.old).closed at → IsJournalSector (P.SectorView.space space.old).content at }
    ensures stands { OnOk result (StandsOver volume.new (P.SectorView.space space.new)) }
    ensures settled { IsTrue (P.SectorView.space space.old).tells → OnOk result (IsSettled volume.new (P.SectorView.space space.new).content) }
    // Told, the tree that it stands for is as it was, and each tree of the volume has just these nodes more.
    ensures tree { IsTrue (P.SectorView.space space.old).tells → OnOk result (tree_of (P.SectorView.space space.new).content ≡ tree_of (P.SectorView.space space.old).content) }
    ensures grows { IsTrue (P.SectorView.space space.old).tells → OnOk result (GrowsTrees (0 ∷ more ∷ 0 ∷ []) (volume_of (P.SectorView.space space.old).content) (volume_of (P.SectorView.space space.new).content)) }
    // Every other fork and each value of an attribute has the blocks that it had.
    ensures files { IsTrue (P.SectorView.space space.old).tells → OnOk result (KeepsForks catalog_id (volume_of (P.SectorView.space space.old).content) (volume_of (P.SectorView.space space.new).content)) }
    // Of the header the number of free blocks and a fork alone are others, and the journal lies where it lay.
    ensures head { IsTrue (P.SectorView.space space.old).tells → OnOk result (HeadGrows (volume_of (P.SectorView.space space.old).content).head (volume_of (P.SectorView.space space.new).content).head) }
    ensures journal { IsTrue (P.SectorView.space space.old).tells → OnOk result ((volume_of (P.SectorView.space space.new).content).journal ≡ (volume_of (P.SectorView.space space.old).content).journal) }
    // The new blocks are taken, and none is given up; the bits that were changed are put.
    ensures volume { IsTrue (P.SectorView.space space.old).tells → OnOk result (GrowsCatalog more volume.old volume.new) }
    // The bitmap keeps for each of its file's sectors whether it was changed.
    ensures marks { OnOk result (length volume.new.map.changed ≡ sectors_for (length volume.new.map.used)) }
    ensures holds { (committed : Content) → HoldsOn committed volume.old → HoldsOn committed volume.new }
    ensures same { (volume.new.private ≡ volume.old.private) × (volume.new.shrunk ≡ volume.old.shrunk) × (volume.new.capacity ≡ volume.old.capacity) }
    ensures service { IsInService volume.new (P.SectorView.space space.new) }
    // On a fault too, it puts sectors that are the volume's own now, whatever was committed last; those that were its own still are.
    ensures touches { (committed : Content) → Touches committed (λ s. Contains (own_sectors volume.new) s) (P.SectorView.space space.old) (P.SectorView.space space.new) }
    ensures own { IsTrue (P.SectorView.space space.old).tells → (s : ℕ) → Contains (own_sectors volume.old) s → Contains (own_sectors volume.new) s }
    // What is its own besides lies in blocks that were free.
    ensures gained { IsTrue (P.SectorView.space space.old).tells → (s : ℕ) → Contains (own_sectors volume.new) s → IsOwnOrFree volume.old s }
    ensures spent { (P.SectorView.space space.old).spare ≤ (P.SectorView.space space.new).spare + growth_load volume.old volume.old.catalog.file more }
    ensures below { P.SectorView.follows space.old space.new }
    ensures cause { HasTroubleCause (P.SectorView.space space.old).faults (P.SectorView.space space.new).faults result }
{
    growth_keeps_the_tree();
    lengthen_catalog(volume, alloc, space, more)?;
    put_map(volume, space);
    volume.put_header(space);
    Ok(())
}
