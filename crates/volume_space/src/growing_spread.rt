//! The catalog of a volume in service, which gets more nodes where its fork has eight extents or more: those behind the eight of the header's record stand in overflow records (TN1150, "Extents Overflow File").
ghost use Rattle.std.specs.Prelude.{◌≡◌, ◌⊎◌, ◌<◌, ◌≤◌, ◌+◌, ◌*◌, ◌∷◌, ℕ, List, [], false, true, IsTrue, OnOk, length, slice_index_or};
ghost use Rattle.std.specs.List.{Contains};
ghost use Rattle.sector_disk.specs.Lists.{Content};
ghost use Rattle.btree_node.specs.Keys.{IsExtentKey, extent_cmp, is_eight_extents};
ghost use Rattle.btree_node.specs.TreeFile.{extents_form};
ghost use Rattle.btree_edit.specs.Causes.{HasTroubleCause};
ghost use Rattle.btree_edit.specs.Edits.{EditRoom};
ghost use Rattle.btree_file.specs.Frame.{FollowsOn};
ghost use Rattle.btree_file.specs.Standing.{HoldsTree, pairs_in};
ghost use Rattle.btree_file.specs.State.{sectors_of_tree, state_of};
ghost use Rattle.hfs_volume.specs.Aside.{IsJournalSector};
ghost use Rattle.hfs_volume.specs.Content.{overflow_in_volume, volume_of};
ghost use Rattle.hfs_volume.specs.Forks.{catalog_id, data_kind};
ghost use Rattle.hfs_volume.specs.Reclaim.{GrowsTrees};
ghost use Rattle.hfs_volume.specs.TreeOf.{tree_of};
ghost use Rattle.overflow.specs.Reading.{HasExtents};
ghost use Rattle.overflow.specs.Records.{eight_at};
ghost use Rattle.volume_space.specs.Growing.{HeadGrows, IsOwnOrFree, KeepsForks, Lengthens, blocks_filled, nodes_load, run_load};
ghost use Rattle.volume_base.specs.Mapping.{changed_sectors};
ghost use Rattle.volume_space.specs.SpreadGrowth.{CanGrowSpread, GoesOnInRun, HasRoomBehind, StandsButOver, TakesBlocks, growth_room_spread};
ghost use Rattle.volume_space.specs.Spreading.{edits_load};
ghost use Rattle.volume_base.specs.Holding.{HoldsOn};
ghost use Rattle.volume_space.specs.declared.ahead.WhichTree.TheVariants as which;
ghost use Rattle.volume_base.specs.Lists.{lists_of};
ghost use Rattle.volume_base.specs.Service.{IsInService};
ghost use Rattle.volume_base.specs.Spreading.{StoresFork};
ghost use Rattle.volume_base.specs.Standing.{IsSettled, StandsOver, own_sectors};
ghost use Rattle.volume_base.specs.Touching.{Touches};

use crate::growable::{count_blocks, count_map_sectors};
use crate::growing::{take_run, with_catalog};
use crate::storing::{are_few, store_records};
use fork_map::ExtentList;
use hfs_volume::growth_keeps_the_tree;
use hx_bytes::Trouble;
use sector_disk::SectorSpace;
use std::alloc::Global;
use tree_weights::{a_load_is_of_parts, a_load_says_enough, commands_have_room};
use volume_base::{Volume, put_map};

/// The CNID of the catalog (TN1150, "Special Files").
const CATALOG_FILE: u32 = 4;

/// Takes a run of blocks for so many nodes more of the catalog, puts the nodes that this changes, and counts them in the header; neither
/// header nor bitmap is put, and the overflow records of its fork aren't stored yet. But for these the volume stands as before.
fn lengthen_catalog_spread<P: SectorSpace>(
    volume: &mut Volume,
    alloc: Global,
    space: &mut P,
    more: u32,
) -> Result<(), Trouble>
    requires stands { StandsOver volume.old (P.SectorView.space space.old) }
    requires settled { IsTrue (P.SectorView.space space.old).tells → IsSettled volume.old (P.SectorView.space space.old).content }
    requires can { CanGrowSpread more volume.old.catalog.file volume.old.header.catalog_fork volume.old (P.SectorView.space space.old) }
    requires closed { IsTrue (P.SectorView.space space.old).tells → (at : ℕ) → (P.SectorView.space space.old).closed at → IsJournalSector (P.SectorView.space space.old).content at }
    ensures but { OnOk result (StandsButOver catalog_id volume.new (P.SectorView.space space.new)) }
    ensures lengthens { IsTrue (P.SectorView.space space.old).tells → OnOk result (Lengthens more volume.old volume.new (P.SectorView.space space.old) (P.SectorView.space space.new)) }
    ensures records { IsTrue (P.SectorView.space space.old).tells → OnOk result (HasExtents (overflow_in_volume (lists_of volume.new (P.SectorView.space space.new).content)) catalog_id data_kind volume.old.catalog.file.fork) }
    ensures extents { volume.new.extents ≡ volume.old.extents }
    ensures held { volume.new.map.held ≡ volume.old.map.held }
    ensures size { length volume.new.map.used ≡ length volume.old.map.used }
    ensures still { (k : ℕ) → slice_index_or volume.old.map.used k false ≡ true → slice_index_or volume.new.map.used k false ≡ true }
    ensures same { (volume.new.private ≡ volume.old.private) × (volume.new.shrunk ≡ volume.old.shrunk) × (volume.new.capacity ≡ volume.old.capacity) }
    ensures own { IsTrue (P.SectorView.space space.old).tells → (s : ℕ) → Contains (own_sectors volume.old) s → Contains (own_sectors volume.new) s }
    ensures gained { IsTrue (P.SectorView.space space.old).tells → (s : ℕ) → Contains (own_sectors volume.new) s → IsOwnOrFree volume.old s }
    ensures service { IsInService volume.new (P.SectorView.space space.new) }
    ensures touches { (committed : Content) → Touches committed (λ s. Contains (own_sectors volume.new) s) (P.SectorView.space space.old) (P.SectorView.space space.new) }
    ensures spent { (P.SectorView.space space.old).spare ≤ (P.SectorView.space space.new).spare + nodes_load volume.old.catalog.file more }
    ensures map { OnOk result (length (changed_sectors volume.new) ≤ run_load volume.old (blocks_filled volume.old.catalog.file more)) }
    ensures below { P.SectorView.follows space.old space.new }
    ensures cause { HasTroubleCause (P.SectorView.space space.old).faults (P.SectorView.space space.new).faults result }
{
    let blocks = count_blocks(&volume.catalog.file, more);
    let run = take_run(&mut volume.map, alloc, blocks as u32)?;
    volume.catalog.file.grow(alloc, space, run)?;
    volume.header = with_catalog(
        &volume.header,
        volume.catalog.file.fork().as_slice(),
        run.count,
    );
    Ok(())
}

/// Makes the overflow records of the catalog's fork those of its extents, which were these before a run came behind them. Then the volume stands.
fn store_catalog_run<P: SectorSpace>(
    volume: &mut Volume,
    alloc: Global,
    space: &mut P,
    before: &ExtentList,
) -> Result<(), Trouble>
    requires but { StandsButOver catalog_id volume.old (P.SectorView.space space.old) }
    requires service { IsInService volume.old (P.SectorView.space space.old) }
    requires records { IsTrue (P.SectorView.space space.old).tells → HasExtents (overflow_in_volume (lists_of volume.old (P.SectorView.space space.old).content)) catalog_id data_kind before.now }
    requires longer { IsTrue (P.SectorView.space space.old).tells → GoesOnInRun before.now volume.old.catalog.file.fork }
    requires head { IsTrue (P.SectorView.space space.old).tells → volume.old.header.catalog_fork.extents ≡ eight_at volume.old.catalog.file.fork 0 }
    requires one { (names : List ℕ) → IsTrue (P.SectorView.space space.old).tells → EditRoom 1 10 (state_of names volume.old.extents.file (P.SectorView.space space.old)) }
    ensures stands { OnOk result (StandsOver volume.new (P.SectorView.space space.new)) }
    ensures service { IsInService volume.new (P.SectorView.space space.new) }
    ensures rest { volume.new ≡ record volume.old { extents = volume.new.extents } }
    ensures own { own_sectors volume.new ≡ own_sectors volume.old }
    ensures touches { (committed : Content) → Touches committed (λ s. Contains (own_sectors volume.old) s) (P.SectorView.space space.old) (P.SectorView.space space.new) }
    ensures follows { FollowsOn volume.old.extents.file volume.new.extents.file (P.SectorView.space space.old) (P.SectorView.space space.new) }
    ensures tree { IsTrue (P.SectorView.space space.old).tells → OnOk result (HoldsTree extents_form IsExtentKey is_eight_extents extent_cmp volume.new.extents.file (P.SectorView.space space.new).content) }
    ensures stores { IsTrue (P.SectorView.space space.old).tells → OnOk result (StoresFork catalog_id data_kind volume.old.catalog.file.fork (pairs_in (sectors_of_tree volume.old.extents.file) (P.SectorView.space space.old).content) (pairs_in (sectors_of_tree volume.old.extents.file) (P.SectorView.space space.new).content)) }
    // Told, it puts no more than the load counts for an edit of the extents overflow file.
    ensures spent { IsTrue (P.SectorView.space space.old).tells → (P.SectorView.space space.old).spare ≤ (P.SectorView.space space.new).spare + edits_load volume.old.extents.file.shape 1 }
    ensures below { P.SectorView.follows space.old space.new }
    ensures cause { HasTroubleCause (P.SectorView.space space.old).faults (P.SectorView.space space.new).faults result }
{
    let list = volume.catalog.file.fork();
    if !are_few(list) {
        return Err(Trouble::Memory);
    }
    store_records(
        alloc,
        &mut volume.extents.file,
        &mut volume.extents.desk,
        space,
        CATALOG_FILE,
        0,
        before,
        list,
    )?;
    Ok(())
}

/// Grows the catalog, whose fork may have eight extents or more, by so many nodes, in blocks that are free and not held, which follow one another (TN1150,
/// "Allocation File", "Extents Overflow File"). Its records stay what they are. `Memory` comes where memory is wanting, `Disk` where a read failed.
pub(crate) fn grow_catalog_spread<P: SectorSpace>(
    volume: &mut Volume,
    alloc: Global,
    space: &mut P,
    more: u32,
) -> Result<(), Trouble>
    requires stands { StandsOver volume.old (P.SectorView.space space.old) }
    requires settled { IsTrue (P.SectorView.space space.old).tells → IsSettled volume.old (P.SectorView.space space.old).content }
    requires can { CanGrowSpread more volume.old.catalog.file volume.old.header.catalog_fork volume.old (P.SectorView.space space.old) }
    requires records { HasRoomBehind more volume.old.catalog.file volume.old (P.SectorView.space space.old) }
    // Only the journal's sectors are closed.
    requires closed { IsTrue (P.SectorView.space space.old).tells → (at : ℕ) → (P.SectorView.space space.old).closed at → IsJournalSector (P.SectorView.space space.old).content at }
    ensures stands { OnOk result (StandsOver volume.new (P.SectorView.space space.new)) }
    ensures settled { IsTrue (P.SectorView.space space.old).tells → OnOk result (IsSettled volume.new (P.SectorView.space space.new).content) }
    // Told, the tree that it stands for is as it was, and each tree of the volume has just these nodes more.
    ensures tree { IsTrue (P.SectorView.space space.old).tells → OnOk result (tree_of (P.SectorView.space space.new).content ≡ tree_of (P.SectorView.space space.old).content) }
    ensures grows { IsTrue (P.SectorView.space space.old).tells → OnOk result (GrowsTrees (0 ∷ more ∷ 0 ∷ []) (volume_of (P.SectorView.space space.old).content) (volume_of (P.SectorView.space space.new).content)) }
    // Every other fork and each value of an attribute has the blocks that it had.
    ensures files { IsTrue (P.SectorView.space space.old).tells → OnOk result (KeepsForks catalog_id (volume_of (P.SectorView.space space.old).content) (volume_of (P.SectorView.space space.new).content)) }
    // Of the header the number of free blocks and a fork alone are others, and the journal lies where it lay.
    ensures head { IsTrue (P.SectorView.space space.old).tells → OnOk result (HeadGrows (volume_of (P.SectorView.space space.old).content).head (volume_of (P.SectorView.space space.new).content).head) }
    ensures journal { IsTrue (P.SectorView.space space.old).tells → OnOk result ((volume_of (P.SectorView.space space.new).content).journal ≡ (volume_of (P.SectorView.space space.old).content).journal) }
    // The new blocks are taken, and none is given up.
    ensures taken { IsTrue (P.SectorView.space space.old).tells → OnOk result (TakesBlocks (blocks_filled volume.old.catalog.file more) volume.old volume.new) }
    ensures holds { (committed : Content) → HoldsOn committed volume.old → HoldsOn committed volume.new }
    ensures same { (volume.new.private ≡ volume.old.private) × (volume.new.shrunk ≡ volume.old.shrunk) × (volume.new.capacity ≡ volume.old.capacity) }
    ensures service { IsInService volume.new (P.SectorView.space space.new) }
    // On a fault too, it puts sectors that are the volume's own now, whatever was committed last.
    ensures touches { (committed : Content) → Touches committed (λ s. Contains (own_sectors volume.new) s) (P.SectorView.space space.old) (P.SectorView.space space.new) }
    // What is its own besides lies in blocks that were free.
    ensures gained { IsTrue (P.SectorView.space space.old).tells → (s : ℕ) → Contains (own_sectors volume.new) s → IsOwnOrFree volume.old s }
    // Told, it puts no more than such a growth with an edit of the extents overflow file.
    ensures spent { IsTrue (P.SectorView.space space.old).tells → (P.SectorView.space space.old).spare ≤ (P.SectorView.space space.new).spare + growth_room_spread which.Catalog more volume.old }
    ensures below { P.SectorView.follows space.old space.new }
    ensures cause { HasTroubleCause (P.SectorView.space space.old).faults (P.SectorView.space space.new).faults result }
{
    growth_keeps_the_tree();
    commands_have_room();
    a_load_says_enough();
    a_load_is_of_parts();
    let before = volume.catalog.file.fork().copy(alloc)?;
    let blocks = count_blocks(&volume.catalog.file, more);
    let sectors = count_map_sectors(volume.map.total(), blocks);
    lengthen_catalog_spread(volume, alloc, space, more)?;
    store_catalog_run(volume, alloc, space, &before)?;
    if space.spare() <= sectors {
        return Err(Trouble::Memory);
    }
    put_map(volume, space);
    volume.put_header(space);
    Ok(())
}
