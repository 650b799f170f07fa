//! Blocks at the end of a file's fork, given back.
ghost use Rattle.std.specs.Prelude.{◌≡◌, ◌<◌, ◌≤◌, ◌+◌, ◌-◌, ◌^◌, Some, true, false, IsTrue, IfOk, IfSome, OnOk, OnErr, length, slice_index_or, take};
ghost use Rattle.std.specs.List.{Contains};
ghost use Rattle.sector_disk.specs.Lists.{Content};
ghost use Rattle.alloc_bitmap.specs.Map.{none};
ghost use Rattle.btree_edit.specs.Causes.{HasTroubleCause};
ghost use Rattle.cat_records.specs.Fits.{FitsFile, FitsRecord};
ghost use Rattle.cat_records.specs.declared.record.CatRecord.TheVariants.{File};
ghost use Rattle.catalog.specs.Entries.{IsOfKind};
ghost use Rattle.catalog.specs.Pairs.{value_at};
ghost use Rattle.file_io.specs.Places.{AreUsed};
ghost use Rattle.flag_rows.specs.Bits.{sectors_for};
ghost use Rattle.fork_map.specs.Blocks.{AreNumbers, blocks_of};
ghost use Rattle.hfs_volume.specs.Changes.{with_fork};
ghost use Rattle.hfs_volume.specs.Records.{id_in, is_link_type, is_thread};
ghost use Rattle.hx_bytes.specs.Fork.{FitsFork};
ghost use Rattle.hfs_model.specs.Step.{is_private_name};
ghost use Rattle.overflow.specs.Records.{no_extent};
ghost use Rattle.volume_header.specs.Header.{FitsHeader};
ghost use Rattle.volume_base.specs.Frame.{Edits, MayUpdate};
ghost use Rattle.volume_base.specs.Changing.{ReplacesRecord, catalog_node};
ghost use Rattle.volume_space.specs.Cutting.{CutsOne, IsForkOf, IsSplit, MayCut, MayGive, PutsGiven, given_back, given_load, trim_load};
ghost use Rattle.volume_base.specs.Cutting.{kind_of};
ghost use Rattle.volume_base.specs.Holding.{KeepsUsed};
ghost use Rattle.volume_base.specs.Cutting.{IsCutOf, IsLastCut, cut_fork_of, fork_at, shorter_fork, with_freed};
ghost use Rattle.volume_base.specs.Keeping.{shrunk_of};
ghost use Rattle.volume_base.specs.Lists.{lists_of};
ghost use Rattle.volume_base.specs.Service.{IsInService};
ghost use Rattle.volume_base.specs.Standing.{IsSettled, StandsOver, own_sectors};
ghost use Rattle.volume_base.specs.Touching.{Touches};

use crate::growing::first_eight;
use crate::storing::{count_spread_sectors, fits_spread, store_extents};
use alloc_bitmap::Bitmap;
use cat_records::{CatRecord, FileRecord};
use fork_map::ExtentList;
use hfs_volume::{
    cut_of_a_shrunk_file_keeps_the_tree, cut_of_an_orphan_keeps_the_tree,
    other_files_keep_their_bytes,
};
use hx_bytes::{Extent, ForkRecord, OutOfMemory, Trouble};
use sector_disk::SectorSpace;
use std::alloc::Global;
use volume_base::{Cut, Entry, ForkKind, Volume, fork_of, number_of, put_map};
use volume_header::VolumeHeader;

/// How many blocks a step cuts at most.
const MOST_BLOCKS: u128 = 32_768;

/// The record of a file that has another fork.
fn with_fork(kind: ForkKind, file: &FileRecord, fork: ForkRecord) -> CatRecord
    ensures same { result ≡ File (with_fork (kind_of kind) fork file.now) }
    ensures alike { IsOfKind result (File file.now) }
    ensures kind { is_thread result ≡ false }
    ensures fits { FitsFile file.now → FitsFork fork → FitsRecord result }
{
    let other = match kind {
        ForkKind::Data => FileRecord {
            fields: file.fields,
            data_fork: fork,
            resource_fork: file.resource_fork,
        },
        ForkKind::Resource => FileRecord {
            fields: file.fields,
            data_fork: file.data_fork,
            resource_fork: fork,
        },
    };
    CatRecord::File(other)
}

/// A fork that has so many blocks of this size, in these extents, and no bytes past them.
fn shorter_fork(fork: ForkRecord, extents: &[Extent], blocks: u32, block: u32) -> ForkRecord
    ensures same { result ≡ shorter_fork blocks block extents.now fork }
    ensures fits { FitsFork result }
{
    ForkRecord {
        logical_size: fork.logical_size.min(u64::from(blocks) * u64::from(block)),
        clump_size: fork.clump_size,
        total_blocks: blocks,
        extents: first_eight(extents),
    }
}

/// A header that counts so many free blocks more.
fn with_freed(head: &VolumeHeader, count: u32) -> VolumeHeader
    requires { head.now.free_blocks + count < 2 ^ 32 }
    ensures same { result ≡ with_freed count head.now }
    ensures fits { FitsHeader head.now → FitsHeader result }
{
    let mut freed = *head;
    freed.free_blocks = head.free_blocks + count;
    freed
}

/// How many blocks extents have.
pub(crate) fn count_blocks(extents: &[Extent]) -> u128
    ensures { result ≡ length (blocks_of extents.now) }
{
    let mut count: u128 = 0;
    for extent in extents {
        count += u128::from(extent.count);
    }
    count
}

/// Whether all blocks of these extents are in use.
fn are_used(map: &Bitmap, extents: &[Extent]) -> bool
    ensures { IsTrue result → AreUsed map.now (blocks_of extents.now) }
{
    for extent in extents {
        if !map.have(*extent, true) {
            return false;
        }
    }
    true
}

/// Whether all blocks of a list of extents are in use.
fn all_used(map: &Bitmap, list: &ExtentList) -> bool
    ensures { IsTrue result → AreUsed map.now (blocks_of list.now) }
{
    are_used(map, list.as_slice())
}

/// Whether a list has one extent.
fn is_one(list: &ExtentList) -> bool
    ensures { IsTrue result → length list.now ≡ 1 }
{
    list.len() == 1
}

/// Whether a run has a block.
fn has_block(run: Extent) -> bool
    ensures { IsTrue result → 0 < run.count }
{
    0 < run.count
}

/// Whether extents have so many blocks.
fn are_so_many(list: &ExtentList, total: u32) -> bool
    ensures { IsTrue result → length (blocks_of list.now) ≡ total }
{
    count_blocks(list.as_slice()) == u128::from(total)
}

/// Whether extents have blocks behind the first so many.
fn have_more(list: &ExtentList, keep: u128) -> bool
    ensures { IsTrue result → keep < length (blocks_of list.now) }
{
    keep < count_blocks(list.as_slice())
}

/// Whether these two numbers together are one of 32 bits.
fn fit_count(first: u32, second: u32) -> bool
    ensures { IsTrue result → first + second < 2 ^ 32 }
{
    u64::from(first) + u64::from(second) <= 0xFFFF_FFFF
}

/// Whether so many sectors can be put.
fn fit_load(load: u64, spare: u64) -> bool
    ensures fits { IsTrue result → load ≤ spare }
    ensures short { result ≡ false → spare < load }
{
    if spare < load {
        return false;
    }
    true
}

/// The last extent of a list, or one without blocks where there is none.
fn last_extent(extents: &[Extent]) -> Extent
    ensures { result ≡ slice_index_or extents.now (length extents.now - 1) no_extent }
{
    match extents.get(extents.len().saturating_sub(1)) {
        Some(last) => *last,
        None => Extent { start: 0, count: 0 },
    }
}

/// How many blocks of the last extent lie behind the first so many blocks, or as many of them as a step cuts.
fn count_last(list: &ExtentList, keep: u128) -> u32
    ensures least { keep < length (blocks_of list.now) → keep + result ≤ length (blocks_of list.now) }
    ensures near { length (blocks_of (take (length list.now - 1) list.now)) + result ≤ length (blocks_of list.now) }
    ensures most { result ≤ 32768 }
{
    let extents = list.as_slice();
    let behind = count_blocks(extents).saturating_sub(keep);
    let last = last_extent(extents);
    behind.min(u128::from(last.count)).min(MOST_BLOCKS) as u32
}

/// A list in two parts, of which the second has so many blocks and goes; none where that has no block, or they don't follow one another.
fn split_last(alloc: Global, list: &ExtentList, count: u32) -> Result<Option<Cut>, OutOfMemory>
    requires numbers { AreNumbers (blocks_of list.now) }
    ensures split { IfOk result (λ found. IfSome found (λ cut. IsSplit count list.now cut)) }
{
    let (stays, rest) = list.cut_tail(alloc, count)?;
    if !is_one(&rest) {
        return Ok(None);
    }
    let goes = rest.get(0);
    if !has_block(goes) {
        return Ok(None);
    }
    Ok(Some(Cut { stays, goes }))
}

/// Whether the blocks of a run are in use, and the header can count them as free.
fn may_give(volume: &Volume, run: Extent) -> bool
    ensures { IsTrue result → run.count ≤ 32768 → MayGive run volume.now }
{
    if !fit_count(volume.header.free_blocks, run.count) {
        return false;
    }
    volume.map.have(run, true)
}

/// What goes of these extents, which are those of a fork behind the first so many blocks.
fn cut_last(
    volume: &Volume,
    alloc: Global,
    list: &ExtentList,
    keep: u128,
) -> Result<Cut, OutOfMemory>
    requires more { keep < length (blocks_of list.now) }
    requires used { AreUsed volume.now.map (blocks_of list.now) }
    ensures cut { IfOk result (λ cut. IsLastCut keep list.now cut) }
    ensures gives { IfOk result (λ cut. MayGive cut.goes volume.now) }
{
    let count = count_last(list, keep);
    let _total = volume.map.total();
    let found = split_last(alloc, list, count)?;
    let Some(cut) = found else {
        return Err(OutOfMemory);
    };
    if !may_give(volume, cut.goes) {
        return Err(OutOfMemory);
    }
    Ok(cut)
}

/// What goes of a fork in these extents behind its first so many blocks. Memory is said to be wanting too where blocks aren't as those of a
/// sound volume.
pub(crate) fn cut_of(
    volume: &Volume,
    alloc: Global,
    list: &ExtentList,
    fork: &ForkRecord,
    keep: u128,
) -> Result<Cut, OutOfMemory>
    ensures cut { IfOk result (λ cut. IsCutOf list.now fork.now keep cut) }
    ensures gives { IfOk result (λ cut. MayGive cut.goes volume.now) }
{
    if !are_so_many(list, fork.total_blocks) {
        return Err(OutOfMemory);
    }
    if !have_more(list, keep) {
        return Err(OutOfMemory);
    }
    if !all_used(&volume.map, list) {
        return Err(OutOfMemory);
    }
    cut_last(volume, alloc, list, keep)
}

/// How many sectors of the bitmap a run puts at most.
fn count_given_sectors(volume: &Volume) -> u64
    ensures { result ≡ given_load volume.now }
{
    let all = (u64::from(volume.map.total()) + 4095) / 4096;
    all.min(10)
}

/// Whether there is room to cut a fork.
pub(crate) fn fits_cut<P: SectorSpace>(volume: &Volume, space: &P) -> bool
    ensures fits { IsTrue result → trim_load volume.now ≤ (P.SectorView.space space.now).spare }
    ensures short { result ≡ false → (P.SectorView.space space.now).spare < trim_load volume.now }
{
    let node = u64::from(volume.catalog.file.shape().node_size / 512);
    let load = count_given_sectors(volume) + 1 + count_spread_sectors(volume) + node;
    fit_load(load, space.spare())
}

/// Gives a run back, and counts its blocks in the header; neither header nor bitmap is put.
fn give_back(volume: &mut Volume, alloc: Global, run: Extent) -> Result<(), OutOfMemory>
    requires { MayGive run volume.old }
    ensures gives { OnOk result (volume.new ≡ given_back run volume.old) }
    ensures fits { OnOk result (FitsHeader volume.old.header → FitsHeader volume.new.header) }
    ensures same { OnErr result (volume.new ≡ volume.old) }
{
    volume.map.give(alloc, run)?;
    volume.header = with_freed(&volume.header, run.count);
    Ok(())
}

/// Gives a run back, and puts bitmap and header (TN1150, "Allocation File").
fn put_back<P: SectorSpace>(
    volume: &mut Volume,
    alloc: Global,
    space: &mut P,
    run: Extent,
) -> Result<(), Trouble>
    requires stands { StandsOver volume.old (P.SectorView.space space.old) }
    requires settled { IsTrue (P.SectorView.space space.old).tells → IsSettled volume.old (P.SectorView.space space.old).content }
    requires gives { MayGive run volume.old }
    requires unchanged { volume.old.map.changed ≡ none (sectors_for (length volume.old.map.used)) }
    requires room { given_load volume.old + 1 ≤ (P.SectorView.space space.old).spare }
    ensures stands { OnOk result (StandsOver volume.new (P.SectorView.space space.new)) }
    ensures gives { OnOk result (volume.new ≡ given_back run volume.old) }
    ensures puts { IsTrue (P.SectorView.space space.old).tells → OnOk result (PutsGiven volume.new (P.SectorView.space space.old).content (P.SectorView.space space.new).content) }
    ensures used { KeepsUsed volume.old volume.new }
    ensures service { IsInService volume.new (P.SectorView.space space.new) }
    ensures touches { (committed : Content) → Touches committed (λ s. Contains (own_sectors volume.old) s) (P.SectorView.space space.old) (P.SectorView.space space.new) }
    ensures spent { (P.SectorView.space space.old).spare ≤ (P.SectorView.space space.new).spare + (given_load volume.old + 1) }
    ensures below { P.SectorView.follows space.old space.new }
    ensures cause { HasTroubleCause (P.SectorView.space space.old).faults (P.SectorView.space space.new).faults result }
{
    give_back(volume, alloc, run)?;
    put_map(volume, space);
    volume.put_header(space);
    Ok(())
}

/// Puts the record of a file whose fork has these extents left.
fn put_shorter<P: SectorSpace>(
    volume: &mut Volume,
    alloc: Global,
    space: &mut P,
    entry: &Entry,
    file: &FileRecord,
    kind: ForkKind,
    cut: &Cut,
) -> Result<(), Trouble>
    requires ready { MayUpdate volume.old entry.now (P.SectorView.space space.old) }
    requires is { entry.now.rec ≡ File file.now }
    requires fits { FitsFile file.now }
    requires less { cut.now.goes.count ≤ (fork_at (kind_of kind) file.now).total_blocks }
    ensures rest { volume.new ≡ record volume.old { catalog = volume.new.catalog } }
    ensures replaces { IsTrue (P.SectorView.space space.old).tells → OnOk result (ReplacesRecord entry.now (File (with_fork (kind_of kind) (cut_fork_of volume.old.header.block_size (fork_at (kind_of kind) file.now) cut.now) file.now)) volume.old volume.new (P.SectorView.space space.old).content (P.SectorView.space space.new).content) }
    ensures edits { Edits P.SectorView.space P.SectorView.follows (catalog_node volume.old) volume.old volume.new space.old space.new result }
{
    let stored = fork_of(kind, file);
    let left = stored.total_blocks - cut.goes.count;
    let shorter = shorter_fork(stored, cut.stays.as_slice(), left, volume.header.block_size);
    let rec = with_fork(kind, file, shorter);
    volume.replace(alloc, space, entry, &rec)
}

/// Cuts a file's fork: what goes is given back, bitmap and header are put, then the overflow records of what stays, and the file's record. The
/// volume is settled again, and its tree is as it was. Memory is said to be wanting too where there is no room for them.
pub(crate) fn cut_fork<P: SectorSpace>(
    volume: &mut Volume,
    alloc: Global,
    space: &mut P,
    entry: &Entry,
    file: &FileRecord,
    kind: ForkKind,
    _keep: u128,
    list: &ExtentList,
    cut: &Cut,
) -> Result<(), Trouble>
    requires stands { StandsOver volume.old (P.SectorView.space space.old) }
    requires settled { IsTrue (P.SectorView.space space.old).tells → IsSettled volume.old (P.SectorView.space space.old).content }
    requires name { length entry.now.name ≤ 255 }
    requires is { entry.now.rec ≡ File file.now }
    requires there { IsTrue (P.SectorView.space space.old).tells → value_at (lists_of volume.old (P.SectorView.space space.old).content).catalog_pairs entry.now.parent entry.now.name ≡ Some entry.now.rec }
    requires fits { FitsFile file.now }
    requires number { 16 ≤ file.now.fields.id }
    requires list { IsTrue (P.SectorView.space space.old).tells → IsForkOf list.now (kind_of kind) file.now (P.SectorView.space space.old).content }
    requires cut { IsCutOf list.now (fork_at (kind_of kind) file.now) _keep cut.now }
    requires gives { MayGive cut.now.goes volume.old }
    requires no_link { is_link_type file.now.fields ≡ false }
    requires user { (entry.now.parent ≡ 2) × (is_private_name entry.now.name ≡ true) → ⊥ }
    requires may { IsTrue (P.SectorView.space space.old).tells → MayCut (P.SectorView.space space.old).content (id_in entry.now.rec) (kind_of kind) _keep }
    requires unchanged { volume.old.map.changed ≡ none (sectors_for (length volume.old.map.used)) }
    requires room { trim_load volume.old ≤ (P.SectorView.space space.old).spare }
    ensures stands { OnOk result (StandsOver volume.new (P.SectorView.space space.new)) }
    ensures cuts { IsTrue (P.SectorView.space space.old).tells
        → OnOk result (IsSettled volume.new (P.SectorView.space space.new).content × CutsOne (id_in entry.now.rec) (kind_of kind) _keep (P.SectorView.space space.old).content (P.SectorView.space space.new).content) }
    ensures used { KeepsUsed volume.old volume.new }
    ensures service { IsInService volume.new (P.SectorView.space space.new) }
    ensures touches { (committed : Content) → Touches committed (λ s. Contains (own_sectors volume.old) s) (P.SectorView.space space.old) (P.SectorView.space space.new) }
    // On a fault too, it puts no more sectors than a cut puts at most.
    ensures spent { IsTrue (P.SectorView.space space.old).tells → (P.SectorView.space space.old).spare ≤ (P.SectorView.space space.new).spare + trim_load volume.old }
    ensures below { P.SectorView.follows space.old space.new }
    ensures cause { HasTroubleCause (P.SectorView.space space.old).faults (P.SectorView.space space.new).faults result }
{
    cut_of_a_shrunk_file_keeps_the_tree();
    cut_of_an_orphan_keeps_the_tree();
    other_files_keep_their_bytes();
    put_back(volume, alloc, space, cut.goes)?;
    if !fits_spread(volume, space) {
        return Err(Trouble::Memory);
    }
    let id = file.fields.id;
    store_extents(volume, alloc, space, id, number_of(kind), list, &cut.stays)?;
    if !volume.fits_update(space) {
        return Err(Trouble::Memory);
    }
    put_shorter(volume, alloc, space, entry, file, kind, cut)
}
