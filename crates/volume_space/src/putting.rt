//! Data put into a file of a volume in service.
ghost use Rattle.std.specs.Prelude.{◌≡◌, ◌⊎◌, ◌<◌, ◌≤◌, ◌+◌, ◌-◌, ◌*◌, ◌/◌, ◌%◌, ◌^◌, ℕ, None, Some, true, false, max, min, nat_le, IsTrue, IfNone, IfOk, IfSome, OnOk, length};
ghost use Rattle.std.specs.List.{Contains};
ghost use Rattle.sector_disk.specs.Lists.{Content};
ghost use Rattle.sector_disk.specs.Space.{SameSpace};
ghost use Rattle.alloc_bitmap.specs.Map.{free_of, none};
ghost use Rattle.btree_edit.specs.Causes.{HasTroubleCause};
ghost use Rattle.cat_records.specs.Fits.{FitsFile, FitsRecord};
ghost use Rattle.cat_records.specs.declared.record.CatRecord.TheVariants.{File};
ghost use Rattle.cat_records.specs.declared.record.FileRecord.{FileRecord};
ghost use Rattle.catalog.specs.Pairs.{value_at};
ghost use Rattle.file_io.specs.Bytes.{HoldZeros, sectors_in};
ghost use Rattle.file_io.specs.Places.{blocks_for, first_block, fresh_of, given, middle, new_blocks, old_end, taken, zero_blocks, zeros_at};
ghost use Rattle.flag_rows.specs.Bits.{count_set, sectors_for};
ghost use Rattle.flag_rows.specs.Runs.{fewest_of};
ghost use Rattle.hfs_model.specs.declared.plain.PlainNode.{PlainNode};
ghost use Rattle.hfs_volume.specs.TreeOf.{tree_of};
ghost use Rattle.hfs_volume.specs.Weight.{Data, free_runs, needs_cut_in};
ghost use Rattle.hfs_volume.specs.Aside.{IsJournalSector};
ghost use Rattle.volume_cost.specs.Sizes.{AreSmall};
ghost use Rattle.volume_base.specs.Changing.{catalog_node};
ghost use Rattle.volume_base.specs.Frame.{Looked, Serves};
ghost use Rattle.volume_base.specs.Lists.{lists_of};
ghost use Rattle.hfs_volume.specs.Content.{records_of, volume_of};
ghost use Rattle.hfs_volume.specs.Cost.{overflow_records};
ghost use Rattle.volume_base.specs.Cutting.{fork_at};
ghost use Rattle.volume_base.specs.Cutting.{kind_of};
ghost use Rattle.hfs_volume.specs.Records.{is_thread};
ghost use Rattle.volume_base.specs.Reading.{HasFile};
ghost use Rattle.volume_base.specs.Service.{IsInService};
ghost use Rattle.volume_space.specs.Recording.{records_in};
ghost use Rattle.volume_base.specs.Holding.{IsLaidOutAs};
ghost use Rattle.volume_space.specs.Spreading.{edits_load, is_met_extents};
ghost use Rattle.volume_base.specs.Holding.{HoldsOn};
ghost use Rattle.volume_base.specs.Standing.{IsSettled, StandsOver, own_sectors};
ghost use Rattle.volume_base.specs.Touching.{Touches};
ghost use Rattle.volume_space.specs.Writing.{AreHad, IsAt, IsSureToPut, IsToldFile, PlacesData, PutsAt, PutsValue, are_apart, blocks_put, bytes_at, can_put, cost_to_put, data_load, ends_before, extents_in, fork_with, has_more, is_apart_from, is_data_met_in, is_put_met, is_put_now_in, may_overflow, most_extents, needs_of_put, put_load, record_with, records_load_in, spread_put_load};
ghost use Rattle.volume_space.specs.Zeroing.{HasFilled};

use crate::growing::first_eight;
use crate::resizing::with_change;
use crate::spilling::spill;
use crate::storing::{count_edits, count_records, fork_extents, is_met, store_later};
use crate::zeroing::{blocks_for, done_within};
use alloc_bitmap::Bitmap;
use cat_records::{CatRecord, FileRecord};
use fork_map::ExtentList;
use hfs_volume::{Needs, other_files_keep_their_bytes};
use hx_bytes::{Extent, ForkRecord, Trouble};
use sector_disk::SectorSpace;
use std::alloc::Global;
use tree_weights::{a_load_says_enough, trees_grow_by_enough};
use volume_base::{
    Entry, ForkKind, FreeBlocks, Volume, all_inside, fork_of, is_measured, number_of, put_map,
    size_held,
};
use volume_cost::cost;

/// What is put into a file: the size that it has, and the bytes that are new, from a place up to an end.
#[derive(Clone, Copy)]
struct Place {
    size: u64,
    from: u64,
    end: u64,
}

/// How many blocks data takes, and in whose place of the file's they come.
#[derive(Clone, Copy)]
struct Counts {
    fresh: u64,
    freed: u64,
}

/// How many blocks are free, and how many a file has.
#[derive(Clone, Copy)]
struct Sums {
    free: u32,
    total: u32,
}

/// How many blocks so much data takes, and in whose place they come.
fn count_blocks(block: u32, place: Place) -> Counts
    requires { 0 < block }
    ensures fresh { result.fresh ≡ new_blocks block place.size place.from place.end }
    ensures freed { result.freed ≡ old_end block place.size place.end - first_block block place.size place.from }
    ensures less { result.freed ≤ result.fresh }
{
    let first = place.from.min(place.size) / u64::from(block);
    let end = blocks_for(block, place.end);
    let old_end = end.min(blocks_for(block, place.size));
    Counts {
        fresh: end.saturating_sub(first),
        freed: old_end.saturating_sub(first),
    }
}

/// So many blocks less, and so many more, if there are so many.
fn exchanged(blocks: u32, less: u64, more: u64) -> Option<u32>
    ensures { IfSome result (λ left. (left + less ≡ blocks + more) × (left < 2 ^ 32)) }
{
    let left = u64::from(blocks).checked_sub(less)?;
    let now = left.checked_add(more)?;
    if now > 0xFFFF_FFFF {
        return None;
    }
    Some(now as u32)
}

/// How many blocks are free behind a put, of so many, and how many the file has, of so many; none where one of them has no 32 bits.
fn count_sums(free: u32, blocks: u32, counts: Counts) -> Option<Sums>
    ensures { IfSome result (λ sums. (sums.free + counts.fresh ≡ free + counts.freed) × (sums.total + counts.freed ≡ blocks + counts.fresh)) }
{
    let free = exchanged(free, counts.fresh, counts.freed)?;
    let total = exchanged(blocks, counts.freed, counts.fresh)?;
    Some(Sums { free, total })
}

/// Whether these counts have 32 bits.
fn are_small(counts: Counts) -> bool
    ensures fresh { IsTrue result → counts.fresh < 2 ^ 32 }
    ensures freed { IsTrue result → counts.freed < 2 ^ 32 }
{
    if counts.fresh > 0xFFFF_FFFF {
        return false;
    }
    if counts.freed > 0xFFFF_FFFF {
        return false;
    }
    true
}

/// Whether so many sectors may be put, and another one.
fn has_room(sectors: u64, spare: u64) -> bool
    ensures { IsTrue result → sectors + 1 ≤ spare }
{
    if spare <= sectors {
        return false;
    }
    true
}

/// Whether a file of this size that grows to an end has more blocks than its size wants.
fn has_more(size: u64, end: u64, wanted: u64, total: u32) -> bool
    ensures { result ≡ has_more size end wanted total }
{
    size < end && wanted < u64::from(total)
}

/// Whether one number is at most another.
fn is_at_most(number: u64, other: u64) -> bool
    ensures exact { result ≡ nat_le number other }
    ensures sure { IsTrue result → number ≤ other }
    ensures met { number ≤ other → IsTrue result }
{
    number <= other
}

/// Whether a fork of so many extents may get more than its record holds, with blocks of so many runs.
fn may_overflow(extents: usize, runs: u32) -> bool
    requires { extents < 2 ^ 60 }
    ensures { result ≡ may_overflow extents runs }
{
    8 < extents as u64 + 1 + u64::from(runs)
}

/// The most extents that a fork of so many may have behind a put, with blocks of so many runs in place of some.
fn most_extents(extents: usize, runs: u32) -> u64
    requires { extents < 2 ^ 60 }
    ensures { result ≡ most_extents extents runs }
{
    extents as u64 + 1 + u64::from(runs)
}

/// What so much data needs with so many edits of the extents overflow file, whose blocks are of so many runs.
fn needs_of_data(edits: u32, counts: Counts, runs: u32) -> Needs
    requires fresh { counts.fresh < 2 ^ 32 }
    requires freed { counts.freed < 2 ^ 32 }
    ensures same { result ≡ needs_of_put edits counts.fresh counts.freed runs }
    ensures small { AreSmall result }
{
    Needs {
        ids: 0,
        edits: [edits as u64, 0, 0],
        updates: 1,
        new_blocks: counts.fresh,
        old_blocks: counts.freed,
        runs: runs as u64,
    }
}

/// Whether so many extents can be counted with those that are to come.
fn are_countable(extents: usize) -> bool
    ensures { IsTrue result → extents < 2 ^ 60 }
{
    if extents >= 1 << 60 {
        return false;
    }
    true
}

/// Whether a block has whole sectors.
pub(crate) fn is_whole(block: u32) -> bool
    ensures { IsTrue result → block % 512 ≡ 0 }
{
    block % 512 == 0
}

/// Whether so many blocks of so many sectors lie in so many.
pub(crate) fn is_inside(blocks: u32, per_block: u32, sectors: u64) -> bool
    ensures { IsTrue result → blocks * per_block ≤ sectors }
{
    u64::from(blocks) * u64::from(per_block) <= sectors
}

/// Whether two sizes are the same.
fn is_same(size: u64, other: u64) -> bool
    ensures { IsTrue result → size ≡ other }
{
    size == other
}

/// Whether the blocks of these extents are all in use.
fn are_used(map: &Bitmap, extents: &[Extent]) -> bool
    ensures { IsTrue result → AreHad map.now extents.now }
{
    for extent in extents {
        if !map.have(*extent, true) {
            return false;
        }
    }
    true
}

/// Whether the blocks of the first extent lie before those of the second.
fn ends_before(first: Extent, second: Extent) -> bool
    ensures { result ≡ ends_before first second }
{
    u64::from(first.start) + u64::from(first.count) <= u64::from(second.start)
}

/// Whether an extent has no block in common with others.
fn is_apart_from(extent: Extent, others: &[Extent]) -> bool
    ensures { result ≡ is_apart_from extent others.now }
{
    others.iter().all(|other| ends_before(*other, extent) || ends_before(extent, *other))
}

/// Whether no two extents have a block in common.
fn are_apart(extents: &[Extent]) -> bool
    ensures { IsTrue result → are_apart extents.now ≡ true }
{
    for at in 0..extents.len() {
        if !is_apart_from(extents[at], &extents[at + 1..]) {
            return false;
        }
    }
    true
}

/// The record of a file whose fork has this size in so many blocks of these extents, since this moment.
fn with_data(
    kind: ForkKind,
    moment: u32,
    size: u64,
    total: u32,
    extents: &[Extent],
    file: &FileRecord,
) -> FileRecord
    ensures same { result ≡ record_with (kind_of kind) moment (fork_with size total extents.now (fork_at (kind_of kind) file.now)) file.now }
    ensures fits { FitsFile file.now → FitsFile result }
{
    let old = fork_of(kind, file);
    let fork = ForkRecord {
        logical_size: size,
        clump_size: old.clump_size,
        total_blocks: total,
        extents: first_eight(extents),
    };
    let fields = with_change(moment, &file.fields);
    match kind {
        ForkKind::Data => FileRecord {
            fields,
            data_fork: fork,
            resource_fork: file.resource_fork,
        },
        ForkKind::Resource => FileRecord {
            fields,
            data_fork: file.data_fork,
            resource_fork: fork,
        },
    }
}

/// How many sectors of the bitmap a put of data changes at most.
fn count_bits(volume: &Volume, counts: Counts) -> u64
    requires fresh { counts.fresh < 2 ^ 32 }
    requires freed { counts.freed < 2 ^ 32 }
    ensures few { result ≤ 2 ^ 32 }
    ensures exact { result ≡ min (sectors_for (length volume.now.map.used)) (counts.fresh / 4096 + 2 * fewest_of counts.fresh (free_runs (free_of volume.now.map)) + counts.freed) }
{
    let all = (u64::from(volume.map.total()) + 4095) / 4096;
    let runs = volume.map.fewest(counts.fresh as u32);
    let bits = counts.fresh / 4096 + 2 * u64::from(runs) + counts.freed;
    all.min(bits)
}

/// How many sectors a put of data puts at most.
fn count_data_sectors(volume: &Volume, counts: Counts) -> u64
    requires fresh { counts.fresh < 2 ^ 32 }
    requires freed { counts.freed < 2 ^ 32 }
    ensures { result ≡ 1 + catalog_node volume.now + min (sectors_for (length volume.now.map.used)) (counts.fresh / 4096 + 2 * fewest_of counts.fresh (free_runs (free_of volume.now.map)) + counts.freed) }
{
    let node = u64::from(volume.catalog.file.shape().node_size / 512);
    1 + node + count_bits(volume, counts)
}

/// Whether so many bytes can be put into a file of this size from a place on, which has so many blocks, in these extents: none of them is
/// past its size, or it doesn't grow; there are free blocks, and room; and its record holds the extents that it may get.
fn is_put_now<P: SectorSpace>(
    volume: &Volume,
    space: &P,
    extents: usize,
    total: u32,
    size: u64,
    from: u64,
    long: usize,
) -> bool
    requires service { IsInService volume.now (P.SectorView.space space.now) }
    requires few { extents < 2 ^ 60 }
    requires small { from + long ≤ 2 ^ 40 }
    ensures { result ≡ can_put volume.now (P.SectorView.space space.now).spare extents total size from long }
{
    let block = volume.header.block_size;
    let end = from + long as u64;
    let wanted = blocks_for(block, size);
    if has_more(size, end, wanted, total) {
        return false;
    }
    let counts = count_blocks(block, Place { size, from, end });
    if !is_at_most(counts.fresh, u64::from(volume.map.count_free())) {
        return false;
    }
    if !is_at_most(count_data_sectors(volume, counts), space.spare()) {
        return false;
    }
    let runs = volume.map.fewest(counts.fresh as u32);
    !may_overflow(extents, runs)
}

/// Whether a transaction has room for what a put of so much data costs whose fork has so many extents in its record and so many overflow records,
/// and may get more than its record holds.
fn affords_spread<P: SectorSpace>(
    volume: &Volume,
    space: &P,
    extents: usize,
    records: u64,
    counts: Counts,
    runs: u32,
) -> bool
    requires serves { Serves volume.now (P.SectorView.space space.now) }
    requires few { extents < 2 ^ 60 }
    requires fresh { counts.fresh < 2 ^ 32 }
    requires freed { counts.freed < 2 ^ 32 }
    ensures met { IsTrue (P.SectorView.space space.now).tells → may_overflow extents runs ≡ true → is_met_extents (cost_to_put volume.now (volume_of (P.SectorView.space space.now).content) records extents counts.fresh counts.freed runs) (P.SectorView.space space.now).spare ≡ true → IsTrue result }
{
    a_load_says_enough();
    trees_grow_by_enough();
    let room = volume.room(FreeBlocks::Takable);
    // A space that tells its sectors has a volume with usual numbers.
    if !is_measured(&room) {
        return false;
    }
    let Some(edits) = count_edits(records, extents + 1 + runs as usize) else {
        return false;
    };
    is_met(
        cost(&needs_of_data(edits, counts, runs), &room),
        space.spare(),
    )
}

/// Whether so many bytes can be put into a file of this size from a place on, which has so many blocks, in these extents, with so many overflow
/// records, though its record may not hold those that it gets: none of its blocks is past its size, or it doesn't grow; there are free blocks, and
/// room.
fn is_put_spread<P: SectorSpace>(
    volume: &Volume,
    space: &P,
    extents: usize,
    records: u64,
    total: u32,
    size: u64,
    from: u64,
    long: usize,
) -> bool
    requires serves { Serves volume.now (P.SectorView.space space.now) }
    requires few { extents < 2 ^ 60 }
    requires small { from + long ≤ 2 ^ 40 }
    ensures cut { IsTrue result → has_more size (from + long) (blocks_for volume.now.header.block_size size) total ≡ false }
    ensures free { IsTrue result → blocks_put volume.now size from long ≤ count_set (free_of volume.now.map) }
    ensures room { IsTrue result → put_load volume.now size from long ≤ (P.SectorView.space space.now).spare }
    ensures spread { IsTrue result → may_overflow extents (fewest_of (blocks_put volume.now size from long) (free_runs (free_of volume.now.map))) ≡ true }
    ensures met { IsTrue (P.SectorView.space space.now).tells → may_overflow extents (fewest_of (blocks_put volume.now size from long) (free_runs (free_of volume.now.map))) ≡ true
        → is_put_met volume.now (volume_of (P.SectorView.space space.now).content) (P.SectorView.space space.now).spare records extents total size from long ≡ true → IsTrue result }
{
    a_load_says_enough();
    let block = volume.header.block_size;
    let end = from + long as u64;
    let wanted = blocks_for(block, size);
    if has_more(size, end, wanted, total) {
        return false;
    }
    let counts = count_blocks(block, Place { size, from, end });
    if !is_at_most(counts.fresh, u64::from(volume.map.count_free())) {
        return false;
    }
    if !is_at_most(count_data_sectors(volume, counts), space.spare()) {
        return false;
    }
    let runs = volume.map.fewest(counts.fresh as u32);
    if !may_overflow(extents, runs) {
        return false;
    }
    affords_spread(volume, space, extents, records, counts, runs)
}

/// Whether so many bytes can be put now into a file as `is_put_now` and `is_put_spread` say, and if so whether its record may not hold the
/// extents that it gets.
fn how_to_put<P: SectorSpace>(
    volume: &Volume,
    space: &P,
    extents: usize,
    records: u64,
    total: u32,
    size: u64,
    from: u64,
    long: usize,
) -> Option<bool>
    requires serves { Serves volume.now (P.SectorView.space space.now) }
    requires few { extents < 2 ^ 60 }
    requires small { from + long ≤ 2 ^ 40 }
    ensures cut { IfSome result (λ spread. has_more size (from + long) (blocks_for volume.now.header.block_size size) total ≡ false) }
    ensures free { IfSome result (λ spread. blocks_put volume.now size from long ≤ count_set (free_of volume.now.map)) }
    ensures room { IfSome result (λ spread. put_load volume.now size from long ≤ (P.SectorView.space space.now).spare) }
    ensures short { IfSome result (λ spread. spread ≡ false → extents < 8) }
    ensures flat { IfSome result (λ spread. may_overflow extents (fewest_of (blocks_put volume.now size from long) (free_runs (free_of volume.now.map))) ≡ false
        → (spread ≡ false) × (can_put volume.now (P.SectorView.space space.now).spare extents total size from long ≡ true)) }
    ensures exactly { IfNone result (can_put volume.now (P.SectorView.space space.now).spare extents total size from long ≡ false) }
    ensures met { IsTrue (P.SectorView.space space.now).tells → IfNone result (is_put_met volume.now (volume_of (P.SectorView.space space.now).content) (P.SectorView.space space.now).spare records extents total size from long ≡ false) }
{
    a_load_says_enough();
    if is_put_now(volume, space, extents, total, size, from, long) {
        return Some(false);
    }
    if is_put_spread(volume, space, extents, records, total, size, from, long) {
        return Some(true);
    }
    None
}

/// Whether the extents of a file of this size are such as a sound volume's: they lie in the space, hold its bytes, and are in use; and
/// so is the block of the header.
pub(crate) fn is_sure<P: SectorSpace>(
    volume: &Volume,
    space: &P,
    list: &ExtentList,
    size: u64,
) -> bool
    requires service { IsInService volume.now (P.SectorView.space space.now) }
    ensures { IsTrue result → IsSureToPut list.now size volume.now (P.SectorView.space space.now) }
{
    let block = volume.header.block_size;
    if !is_whole(block) {
        return false;
    }
    let per_block = block / 512;
    let sectors = space.sectors();
    if !is_inside(volume.map.total(), per_block, sectors) {
        return false;
    }
    let header = Extent {
        start: 2 / per_block,
        count: 1,
    };
    if !volume.map.have(header, true) {
        return false;
    }
    let extents = list.as_slice();
    if !all_inside(extents, per_block, sectors) {
        return false;
    }
    let held = size_held(list, per_block, size);
    if !is_same(held, size) {
        return false;
    }
    if !are_apart(extents) {
        return false;
    }
    are_used(&volume.map, extents)
}

/// Spills a value for a file of these extents, and gives the file its new record; bitmap and header say so in memory, and neither is put.
fn place_data<P: SectorSpace>(
    volume: &mut Volume,
    alloc: Global,
    space: &mut P,
    entry: &Entry,
    file: &FileRecord,
    kind: ForkKind,
    list: &ExtentList,
    from: u64,
    value: &[u8],
    zeroed: u32,
    total: u32,
    free: u32,
    spread: bool,
    records: u64,
    most: u64,
) -> Result<(), Trouble>
    requires stands { StandsOver volume.old (P.SectorView.space space.old) }
    requires settled { IsTrue (P.SectorView.space space.old).tells → IsSettled volume.old (P.SectorView.space space.old).content }
    requires few_zeros { zeroed ≤ zero_blocks volume.old.header.block_size (fork_at (kind_of kind) file.now).logical_size (from / volume.old.header.block_size) }
    requires zeros { IsTrue (P.SectorView.space space.old).tells →
        HoldZeros (P.SectorView.space space.old).content (sectors_in volume.old.header.block_size (fresh_of volume.old.map (blocks_put volume.old (fork_at (kind_of kind) file.now).logical_size from (length value.now)))) (zeros_at volume.old.header.block_size (fork_at (kind_of kind) file.now).logical_size from (from + length value.now) * (volume.old.header.block_size / 512)) (zeroed * (volume.old.header.block_size / 512)) }
    requires closed { IsTrue (P.SectorView.space space.old).tells → (at : ℕ) → (P.SectorView.space space.old).closed at → IsJournalSector (P.SectorView.space space.old).content at }
    requires sure { IsSureToPut list.now (fork_at (kind_of kind) file.now).logical_size volume.old (P.SectorView.space space.old) }
    requires some { 0 < length value.now }
    requires small { from + length value.now ≤ 2 ^ 40 }
    requires free { blocks_put volume.old (fork_at (kind_of kind) file.now).logical_size from (length value.now) ≤ count_set (free_of volume.old.map) }
    requires name { length entry.now.name ≤ 255 }
    requires there { IsTrue (P.SectorView.space space.old).tells → value_at (lists_of volume.old (P.SectorView.space space.old).content).catalog_pairs entry.now.parent entry.now.name ≡ Some entry.now.rec }
    requires kind { entry.now.rec ≡ File file.now }
    requires fits { FitsFile file.now }
    requires told { IsTrue (P.SectorView.space space.old).tells → IsToldFile (kind_of kind) file.now list.now (P.SectorView.space space.old).content }
    requires short { spread ≡ false → length list.now < 8 }
    requires counted { IsTrue (P.SectorView.space space.old).tells → records ≡ records_in (kind_of kind) (lists_of volume.old (P.SectorView.space space.old).content) file.now.fields.id }
    ensures growth { OnOk result (volume.new.filling ≡ volume.old.filling) }
    ensures stands { OnOk result (StandsOver volume.new (P.SectorView.space space.new)) }
    ensures service { IsInService volume.new (P.SectorView.space space.new) }
    ensures places { IsTrue (P.SectorView.space space.old).tells → OnOk result (PlacesData (kind_of kind) entry.now file.now list.now from value.now total free volume.old volume.new (P.SectorView.space space.old).content (P.SectorView.space space.new).content) }
    ensures map { OnOk result (volume.new.map ≡ given (middle (first_block volume.old.header.block_size (fork_at (kind_of kind) file.now).logical_size from) (old_end volume.old.header.block_size (fork_at (kind_of kind) file.now).logical_size (from + length value.now)) list.now) (taken (blocks_put volume.old (fork_at (kind_of kind) file.now).logical_size from (length value.now)) volume.old.map)) }
    ensures own { own_sectors volume.new ≡ own_sectors volume.old }
    ensures same { (volume.new.private ≡ volume.old.private) × (volume.new.shrunk ≡ volume.old.shrunk) × (volume.new.capacity ≡ volume.old.capacity) }
    ensures commit { (committed : Content) → HoldsOn committed volume.old → IsLaidOutAs committed volume.old → Touches committed (λ s. Contains (own_sectors volume.old) s) (P.SectorView.space space.old) (P.SectorView.space space.new) }
    ensures spent { IsTrue (P.SectorView.space space.old).tells → (P.SectorView.space space.old).spare ≤ (P.SectorView.space space.new).spare + catalog_node volume.old + edits_load volume.old.extents.file.shape (records + overflow_records most) }
    ensures space { SameSpace (P.SectorView.space space.old) (P.SectorView.space space.new) }
    ensures below { P.SectorView.follows space.old space.new }
    ensures cause { HasTroubleCause (P.SectorView.space space.old).faults (P.SectorView.space space.new).faults result }
{
    let moment = volume.header.modify_date;
    let fork = fork_of(kind, file);
    let size = fork.logical_size;
    let long = size.max(from + value.len() as u64);
    let later = spill(volume, alloc, space, list, size, from, value, zeroed)?;
    store_later(
        volume,
        alloc,
        space,
        file.fields.id,
        number_of(kind),
        list,
        &later,
        spread,
        records,
        most,
    )?;
    if !volume.fits_update(space) {
        return Err(Trouble::Memory);
    }
    let rec = with_data(kind, moment, long, total, later.as_slice(), file);
    volume.replace(alloc, space, entry, &CatRecord::File(rec))?;
    volume.header.free_blocks = free;
    Ok(())
}

/// Puts a value into a file of these extents: its bytes, its record, the bitmap and the header. The first `zeroed` zero blocks hold zeros already.
fn put_zeroed<P: SectorSpace>(
    volume: &mut Volume,
    alloc: Global,
    space: &mut P,
    entry: &Entry,
    file: &FileRecord,
    kind: ForkKind,
    list: &ExtentList,
    from: u64,
    value: &[u8],
    zeroed: u32,
    spread: bool,
    records: u64,
) -> Result<(), Trouble>
    requires stands { StandsOver volume.old (P.SectorView.space space.old) }
    requires settled { IsTrue (P.SectorView.space space.old).tells → IsSettled volume.old (P.SectorView.space space.old).content }
    requires few_zeros { zeroed ≤ zero_blocks volume.old.header.block_size (fork_at (kind_of kind) file.now).logical_size (from / volume.old.header.block_size) }
    requires zeros { IsTrue (P.SectorView.space space.old).tells →
        HoldZeros (P.SectorView.space space.old).content (sectors_in volume.old.header.block_size (fresh_of volume.old.map (blocks_put volume.old (fork_at (kind_of kind) file.now).logical_size from (length value.now)))) (zeros_at volume.old.header.block_size (fork_at (kind_of kind) file.now).logical_size from (from + length value.now) * (volume.old.header.block_size / 512)) (zeroed * (volume.old.header.block_size / 512)) }
    requires closed { IsTrue (P.SectorView.space space.old).tells → (at : ℕ) → (P.SectorView.space space.old).closed at → IsJournalSector (P.SectorView.space space.old).content at }
    requires unchanged { volume.old.map.changed ≡ none (sectors_for (length volume.old.map.used)) }
    requires some { 0 < length value.now }
    requires small { from + length value.now ≤ 2 ^ 40 }
    requires countable { length list.now < 2 ^ 60 }
    requires free { blocks_put volume.old (fork_at (kind_of kind) file.now).logical_size from (length value.now) ≤ count_set (free_of volume.old.map) }
    requires short { spread ≡ false → length list.now < 8 }
    requires name { length entry.now.name ≤ 255 }
    requires there { IsTrue (P.SectorView.space space.old).tells → value_at (lists_of volume.old (P.SectorView.space space.old).content).catalog_pairs entry.now.parent entry.now.name ≡ Some entry.now.rec }
    requires kind { entry.now.rec ≡ File file.now }
    requires fits { FitsFile file.now }
    requires told { IsTrue (P.SectorView.space space.old).tells → IsToldFile (kind_of kind) file.now list.now (P.SectorView.space space.old).content }
    requires room { put_load volume.old (fork_at (kind_of kind) file.now).logical_size from (length value.now) ≤ (P.SectorView.space space.old).spare }
    requires counted { IsTrue (P.SectorView.space space.old).tells → records ≡ records_in (kind_of kind) (lists_of volume.old (P.SectorView.space space.old).content) file.now.fields.id }
    ensures growth { OnOk result (volume.new.filling ≡ volume.old.filling) }
    ensures stands { OnOk result (StandsOver volume.new (P.SectorView.space space.new)) }
    ensures service { IsInService volume.new (P.SectorView.space space.new) }
    ensures puts { IsTrue (P.SectorView.space space.old).tells → OnOk result (PutsValue (kind_of kind) file.now from value.now volume.old volume.new (P.SectorView.space space.old).content (P.SectorView.space space.new).content) }
    ensures same { (volume.new.private ≡ volume.old.private) × (volume.new.shrunk ≡ volume.old.shrunk) × (volume.new.capacity ≡ volume.old.capacity) }
    ensures commit { (committed : Content) → HoldsOn committed volume.old → IsLaidOutAs committed volume.old → Touches committed (λ s. Contains (own_sectors volume.old) s) (P.SectorView.space space.old) (P.SectorView.space space.new) }
    ensures holds { (committed : Content) → HoldsOn committed volume.old → OnOk result (HoldsOn committed volume.new) }
    ensures spent { IsTrue (P.SectorView.space space.old).tells → (P.SectorView.space space.old).spare ≤ (P.SectorView.space space.new).spare + put_load volume.old (fork_at (kind_of kind) file.now).logical_size from (length value.now) + spread_put_load volume.old records (length list.now) (fork_at (kind_of kind) file.now).logical_size from (length value.now) }
    ensures space { SameSpace (P.SectorView.space space.old) (P.SectorView.space space.new) }
    ensures below { P.SectorView.follows space.old space.new }
    ensures cause { HasTroubleCause (P.SectorView.space space.old).faults (P.SectorView.space space.new).faults result }
{
    other_files_keep_their_bytes();
    let fork = fork_of(kind, file);
    let size = fork.logical_size;
    let end = from + value.len() as u64;
    if !is_sure(volume, space, list, size) {
        return Err(Trouble::Memory);
    }
    let counts = count_blocks(volume.header.block_size, Place { size, from, end });
    let head = volume.header.free_blocks;
    let Some(sums) = count_sums(head, fork.total_blocks, counts) else {
        return Err(Trouble::Memory);
    };
    if !are_small(counts) {
        return Err(Trouble::Memory);
    }
    let bits = count_bits(volume, counts);
    let runs = volume.map.fewest(counts.fresh as u32);
    let most = most_extents(list.len(), runs);
    place_data(
        volume, alloc, space, entry, file, kind, list, from, value, zeroed, sums.total, sums.free,
        spread, records, most,
    )?;
    if !has_room(bits, space.spare()) {
        return Err(Trouble::Memory);
    }
    put_map(volume, space);
    volume.put_header(space);
    Ok(())
}

/// Puts a value into a file of these extents: its bytes, its record, the bitmap and the header. Of its zero blocks it fills those alone that weren't filled
/// ahead of it; no growth is in hand any more.
fn put_over<P: SectorSpace>(
    volume: &mut Volume,
    alloc: Global,
    space: &mut P,
    entry: &Entry,
    file: &FileRecord,
    kind: ForkKind,
    list: &ExtentList,
    from: u64,
    value: &[u8],
    spread: bool,
    records: u64,
) -> Result<(), Trouble>
    requires stands { StandsOver volume.old (P.SectorView.space space.old) }
    requires settled { IsTrue (P.SectorView.space space.old).tells → IsSettled volume.old (P.SectorView.space space.old).content }
    requires filled { HasFilled volume.old (P.SectorView.space space.old) }
    requires closed { IsTrue (P.SectorView.space space.old).tells → (at : ℕ) → (P.SectorView.space space.old).closed at → IsJournalSector (P.SectorView.space space.old).content at }
    requires unchanged { volume.old.map.changed ≡ none (sectors_for (length volume.old.map.used)) }
    requires some { 0 < length value.now }
    requires small { from + length value.now ≤ 2 ^ 40 }
    requires countable { length list.now < 2 ^ 60 }
    requires free { blocks_put volume.old (fork_at (kind_of kind) file.now).logical_size from (length value.now) ≤ count_set (free_of volume.old.map) }
    requires short { spread ≡ false → length list.now < 8 }
    requires name { length entry.now.name ≤ 255 }
    requires there { IsTrue (P.SectorView.space space.old).tells → value_at (lists_of volume.old (P.SectorView.space space.old).content).catalog_pairs entry.now.parent entry.now.name ≡ Some entry.now.rec }
    requires kind { entry.now.rec ≡ File file.now }
    requires fits { FitsFile file.now }
    requires told { IsTrue (P.SectorView.space space.old).tells → IsToldFile (kind_of kind) file.now list.now (P.SectorView.space space.old).content }
    requires room { put_load volume.old (fork_at (kind_of kind) file.now).logical_size from (length value.now) ≤ (P.SectorView.space space.old).spare }
    requires counted { IsTrue (P.SectorView.space space.old).tells → records ≡ records_in (kind_of kind) (lists_of volume.old (P.SectorView.space space.old).content) file.now.fields.id }
    ensures dropped { OnOk result (volume.new.filling ≡ None) }
    ensures stands { OnOk result (StandsOver volume.new (P.SectorView.space space.new)) }
    ensures service { IsInService volume.new (P.SectorView.space space.new) }
    ensures puts { IsTrue (P.SectorView.space space.old).tells → OnOk result (PutsValue (kind_of kind) file.now from value.now volume.old volume.new (P.SectorView.space space.old).content (P.SectorView.space space.new).content) }
    ensures same { (volume.new.private ≡ volume.old.private) × (volume.new.shrunk ≡ volume.old.shrunk) × (volume.new.capacity ≡ volume.old.capacity) }
    ensures commit { (committed : Content) → HoldsOn committed volume.old → IsLaidOutAs committed volume.old → Touches committed (λ s. Contains (own_sectors volume.old) s) (P.SectorView.space space.old) (P.SectorView.space space.new) }
    ensures holds { (committed : Content) → HoldsOn committed volume.old → OnOk result (HoldsOn committed volume.new) }
    ensures spent { IsTrue (P.SectorView.space space.old).tells → (P.SectorView.space space.old).spare ≤ (P.SectorView.space space.new).spare + put_load volume.old (fork_at (kind_of kind) file.now).logical_size from (length value.now) + spread_put_load volume.old records (length list.now) (fork_at (kind_of kind) file.now).logical_size from (length value.now) }
    ensures space { SameSpace (P.SectorView.space space.old) (P.SectorView.space space.new) }
    ensures below { P.SectorView.follows space.old space.new }
    ensures cause { HasTroubleCause (P.SectorView.space space.old).faults (P.SectorView.space space.new).faults result }
{
    let block = volume.header.block_size;
    let fork = fork_of(kind, file);
    let size = fork.logical_size;
    let end = from + value.len() as u64;
    let gap = (from / u64::from(block)).saturating_sub(blocks_for(block, size));
    let zeroed = done_within(volume, file.fields.id, size, size.max(end), gap);
    volume.filling = None;
    put_zeroed(
        volume, alloc, space, entry, file, kind, list, from, value, zeroed, spread, records,
    )
}

/// The extents of a file's fork, and how many overflow records it has.
#[derive(Drop)]
struct FoundFork {
    list: ExtentList,
    records: u64,
}

/// A fork of a file.
fn find_fork<P: SectorSpace>(
    volume: &mut Volume,
    alloc: Global,
    space: &mut P,
    file: &FileRecord,
    kind: ForkKind,
) -> Result<FoundFork, Trouble>
    requires serves { Serves volume.old (P.SectorView.space space.old) }
    requires fits { FitsFile file.now }
    requires told { IsTrue (P.SectorView.space space.old).tells → IsToldFile (kind_of kind) file.now (extents_in (kind_of kind) (P.SectorView.space space.old).content file.now) (P.SectorView.space space.old).content }
    ensures found { IsTrue (P.SectorView.space space.old).tells → IfOk result (λ fork. fork.list ≡ extents_in (kind_of kind) (P.SectorView.space space.old).content file.now) }
    ensures counted { IsTrue (P.SectorView.space space.old).tells → IfOk result (λ fork. fork.records ≡ records_in (kind_of kind) (volume_of (P.SectorView.space space.old).content) file.now.fields.id) }
    ensures looked { Looked P.SectorView.space P.SectorView.follows volume.old volume.new space.old space.new result }
    ensures serves { Serves volume.new (P.SectorView.space space.new) }
{
    let list = fork_extents(volume, alloc, space, file, kind)?;
    let records = count_records(list.len());
    Ok(FoundFork { list, records })
}

/// Puts a value into a file where that can be done now, and says whether it did.
fn put_in_file<P: SectorSpace>(
    volume: &mut Volume,
    alloc: Global,
    space: &mut P,
    entry: &Entry,
    file: &FileRecord,
    kind: ForkKind,
    from: u64,
    value: &[u8],
) -> Result<bool, Trouble>
    requires stands { StandsOver volume.old (P.SectorView.space space.old) }
    requires settled { IsTrue (P.SectorView.space space.old).tells → IsSettled volume.old (P.SectorView.space space.old).content }
    requires filled { HasFilled volume.old (P.SectorView.space space.old) }
    requires closed { IsTrue (P.SectorView.space space.old).tells → (at : ℕ) → (P.SectorView.space space.old).closed at → IsJournalSector (P.SectorView.space space.old).content at }
    requires unchanged { volume.old.map.changed ≡ none (sectors_for (length volume.old.map.used)) }
    requires some { 0 < length value.now }
    requires small { from + length value.now ≤ 2 ^ 40 }
    requires name { length entry.now.name ≤ 255 }
    requires there { IsTrue (P.SectorView.space space.old).tells → value_at (lists_of volume.old (P.SectorView.space space.old).content).catalog_pairs entry.now.parent entry.now.name ≡ Some entry.now.rec }
    requires kind { entry.now.rec ≡ File file.now }
    requires fits { FitsFile file.now }
    requires told { IsTrue (P.SectorView.space space.old).tells → IsToldFile (kind_of kind) file.now (extents_in (kind_of kind) (P.SectorView.space space.old).content file.now) (P.SectorView.space space.old).content }
    ensures filled { OnOk result (HasFilled volume.new (P.SectorView.space space.new)) }
    ensures stands { OnOk result (StandsOver volume.new (P.SectorView.space space.new)) }
    ensures service { IsInService volume.new (P.SectorView.space space.new) }
    ensures exactly { IsTrue (P.SectorView.space space.old).tells → IfOk result (λ put. put ≡ false → can_put volume.old (P.SectorView.space space.old).spare (length (extents_in (kind_of kind) (P.SectorView.space space.old).content file.now)) (fork_at (kind_of kind) file.now).total_blocks (fork_at (kind_of kind) file.now).logical_size from (length value.now) ≡ false) }
    ensures met { IsTrue (P.SectorView.space space.old).tells → IfOk result (λ put. put ≡ false → is_put_met volume.old (volume_of (P.SectorView.space space.old).content) (P.SectorView.space space.old).spare (records_in (kind_of kind) (volume_of (P.SectorView.space space.old).content) file.now.fields.id) (length (extents_in (kind_of kind) (P.SectorView.space space.old).content file.now)) (fork_at (kind_of kind) file.now).total_blocks (fork_at (kind_of kind) file.now).logical_size from (length value.now) ≡ false) }
    ensures no_cut { IsTrue (P.SectorView.space space.old).tells → IfOk result (λ put. IsTrue put → has_more (fork_at (kind_of kind) file.now).logical_size (from + length value.now) (blocks_for volume.old.header.block_size (fork_at (kind_of kind) file.now).logical_size) (fork_at (kind_of kind) file.now).total_blocks ≡ false) }
    ensures puts { IsTrue (P.SectorView.space space.old).tells → IfOk result (λ put. IsTrue put → PutsValue (kind_of kind) file.now from value.now volume.old volume.new (P.SectorView.space space.old).content (P.SectorView.space space.new).content) }
    ensures waits { IsTrue (P.SectorView.space space.old).tells → IfOk result (λ put. put ≡ false → IsSettled volume.new (P.SectorView.space space.new).content × ((P.SectorView.space space.new).content ≡ (P.SectorView.space space.old).content)) }
    ensures same { (volume.new.private ≡ volume.old.private) × (volume.new.shrunk ≡ volume.old.shrunk) × (volume.new.capacity ≡ volume.old.capacity) }
    ensures commit { (committed : Content) → HoldsOn committed volume.old → IsLaidOutAs committed volume.old → Touches committed (λ s. Contains (own_sectors volume.old) s) (P.SectorView.space space.old) (P.SectorView.space space.new) }
    ensures holds { (committed : Content) → HoldsOn committed volume.old → OnOk result (HoldsOn committed volume.new) }
    ensures spent { IsTrue (P.SectorView.space space.old).tells → ((P.SectorView.space space.old).spare ≤ (P.SectorView.space space.new).spare) ⊎ ((has_more (fork_at (kind_of kind) file.now).logical_size (from + length value.now) (blocks_for volume.old.header.block_size (fork_at (kind_of kind) file.now).logical_size) (fork_at (kind_of kind) file.now).total_blocks ≡ false) × ((P.SectorView.space space.old).spare ≤ (P.SectorView.space space.new).spare + put_load volume.old (fork_at (kind_of kind) file.now).logical_size from (length value.now) + spread_put_load volume.old (records_in (kind_of kind) (volume_of (P.SectorView.space space.old).content) file.now.fields.id) (length (extents_in (kind_of kind) (P.SectorView.space space.old).content file.now)) (fork_at (kind_of kind) file.now).logical_size from (length value.now))) }
    ensures space { SameSpace (P.SectorView.space space.old) (P.SectorView.space space.new) }
    ensures below { P.SectorView.follows space.old space.new }
    ensures cause { HasTroubleCause (P.SectorView.space space.old).faults (P.SectorView.space space.new).faults result }
{
    let fork = fork_of(kind, file);
    let found = find_fork(volume, alloc, space, file, kind)?;
    let extents = found.list.len();
    if !are_countable(extents) {
        return Err(Trouble::Memory);
    }
    let how = how_to_put(
        volume,
        space,
        extents,
        found.records,
        fork.total_blocks,
        fork.logical_size,
        from,
        value.len(),
    );
    if let Some(spread) = how {
        put_over(
            volume,
            alloc,
            space,
            entry,
            file,
            kind,
            &found.list,
            from,
            value,
            spread,
            found.records,
        )?;
        return Ok(true);
    }
    Ok(false)
}

/// Puts a value into the file of an entry where that can be done now, and says whether it did.
fn put_in_entry<P: SectorSpace>(
    volume: &mut Volume,
    alloc: Global,
    space: &mut P,
    entry: &Entry,
    kind: ForkKind,
    from: u64,
    value: &[u8],
) -> Result<bool, Trouble>
    requires stands { StandsOver volume.old (P.SectorView.space space.old) }
    requires settled { IsTrue (P.SectorView.space space.old).tells → IsSettled volume.old (P.SectorView.space space.old).content }
    requires filled { HasFilled volume.old (P.SectorView.space space.old) }
    requires closed { IsTrue (P.SectorView.space space.old).tells → (at : ℕ) → (P.SectorView.space space.old).closed at → IsJournalSector (P.SectorView.space space.old).content at }
    requires unchanged { volume.old.map.changed ≡ none (sectors_for (length volume.old.map.used)) }
    requires some { 0 < length value.now }
    requires small { from + length value.now ≤ 2 ^ 40 }
    requires name { length entry.now.name ≤ 255 }
    requires there { IsTrue (P.SectorView.space space.old).tells → value_at (lists_of volume.old (P.SectorView.space space.old).content).catalog_pairs entry.now.parent entry.now.name ≡ Some entry.now.rec }
    requires fits { is_thread entry.now.rec ≡ false → FitsRecord entry.now.rec }
    requires told { IsTrue (P.SectorView.space space.old).tells → (file : FileRecord) → entry.now.rec ≡ File file → IsToldFile (kind_of kind) file (extents_in (kind_of kind) (P.SectorView.space space.old).content file) (P.SectorView.space space.old).content }
    ensures filled { OnOk result (HasFilled volume.new (P.SectorView.space space.new)) }
    ensures stands { OnOk result (StandsOver volume.new (P.SectorView.space space.new)) }
    ensures service { IsInService volume.new (P.SectorView.space space.new) }
    ensures exactly { IsTrue (P.SectorView.space space.old).tells → (file : FileRecord) → entry.now.rec ≡ File file
        → IfOk result (λ put. put ≡ false → can_put volume.old (P.SectorView.space space.old).spare (length (extents_in (kind_of kind) (P.SectorView.space space.old).content file)) (fork_at (kind_of kind) file).total_blocks (fork_at (kind_of kind) file).logical_size from (length value.now) ≡ false) }
    ensures met { IsTrue (P.SectorView.space space.old).tells → (file : FileRecord) → entry.now.rec ≡ File file
        → IfOk result (λ put. put ≡ false → is_put_met volume.old (volume_of (P.SectorView.space space.old).content) (P.SectorView.space space.old).spare (records_in (kind_of kind) (volume_of (P.SectorView.space space.old).content) file.fields.id) (length (extents_in (kind_of kind) (P.SectorView.space space.old).content file)) (fork_at (kind_of kind) file).total_blocks (fork_at (kind_of kind) file).logical_size from (length value.now) ≡ false) }
    ensures no_cut { IsTrue (P.SectorView.space space.old).tells → (file : FileRecord) → entry.now.rec ≡ File file
        → IfOk result (λ put. IsTrue put → has_more (fork_at (kind_of kind) file).logical_size (from + length value.now) (blocks_for volume.old.header.block_size (fork_at (kind_of kind) file).logical_size) (fork_at (kind_of kind) file).total_blocks ≡ false) }
    ensures puts { IsTrue (P.SectorView.space space.old).tells → (file : FileRecord) → entry.now.rec ≡ File file → IfOk result (λ put. IsTrue put → PutsValue (kind_of kind) file from value.now volume.old volume.new (P.SectorView.space space.old).content (P.SectorView.space space.new).content) }
    ensures waits { IsTrue (P.SectorView.space space.old).tells → IfOk result (λ put. put ≡ false → IsSettled volume.new (P.SectorView.space space.new).content × ((P.SectorView.space space.new).content ≡ (P.SectorView.space space.old).content)) }
    ensures same { (volume.new.private ≡ volume.old.private) × (volume.new.shrunk ≡ volume.old.shrunk) × (volume.new.capacity ≡ volume.old.capacity) }
    ensures commit { (committed : Content) → HoldsOn committed volume.old → IsLaidOutAs committed volume.old → Touches committed (λ s. Contains (own_sectors volume.old) s) (P.SectorView.space space.old) (P.SectorView.space space.new) }
    ensures holds { (committed : Content) → HoldsOn committed volume.old → OnOk result (HoldsOn committed volume.new) }
    ensures spent { IsTrue (P.SectorView.space space.old).tells → (file : FileRecord) → entry.now.rec ≡ File file → ((P.SectorView.space space.old).spare ≤ (P.SectorView.space space.new).spare) ⊎ ((has_more (fork_at (kind_of kind) file).logical_size (from + length value.now) (blocks_for volume.old.header.block_size (fork_at (kind_of kind) file).logical_size) (fork_at (kind_of kind) file).total_blocks ≡ false) × ((P.SectorView.space space.old).spare ≤ (P.SectorView.space space.new).spare + put_load volume.old (fork_at (kind_of kind) file).logical_size from (length value.now) + spread_put_load volume.old (records_in (kind_of kind) (volume_of (P.SectorView.space space.old).content) file.fields.id) (length (extents_in (kind_of kind) (P.SectorView.space space.old).content file)) (fork_at (kind_of kind) file).logical_size from (length value.now))) }
    ensures space { SameSpace (P.SectorView.space space.old) (P.SectorView.space space.new) }
    ensures below { P.SectorView.follows space.old space.new }
    ensures cause { HasTroubleCause (P.SectorView.space space.old).faults (P.SectorView.space space.new).faults result }
{
    match &entry.rec {
        CatRecord::Folder(_folder) => Ok(false),
        CatRecord::File(file) => put_in_file(volume, alloc, space, entry, file, kind, from, value),
        CatRecord::Thread(_thread) => Ok(false),
    }
}

/// Puts a value into the file with a CNID where that can be done now, and says whether it did.
pub fn put_data<P: SectorSpace>(
    volume: &mut Volume,
    alloc: Global,
    space: &mut P,
    id: u32,
    kind: ForkKind,
    from: u64,
    value: &[u8],
) -> Result<bool, Trouble>
    requires stands { StandsOver volume.old (P.SectorView.space space.old) }
    requires settled { IsTrue (P.SectorView.space space.old).tells → IsSettled volume.old (P.SectorView.space space.old).content }
    requires filled { HasFilled volume.old (P.SectorView.space space.old) }
    requires closed { IsTrue (P.SectorView.space space.old).tells → (at : ℕ) → (P.SectorView.space space.old).closed at → IsJournalSector (P.SectorView.space space.old).content at }
    requires some { 0 < length value.now }
    requires small { from + length value.now ≤ 2 ^ 40 }
    requires there { IsTrue (P.SectorView.space space.old).tells → (node : PlainNode) × Contains (tree_of (P.SectorView.space space.old).content).nodes node × (node.id ≡ id) × (node.folder ≡ false) }
    ensures filled { OnOk result (HasFilled volume.new (P.SectorView.space space.new)) }
    ensures stands { OnOk result (StandsOver volume.new (P.SectorView.space space.new)) }
    ensures service { IsInService volume.new (P.SectorView.space space.new) }
    ensures exactly { IsTrue (P.SectorView.space space.old).tells → (node : PlainNode) → Contains (tree_of (P.SectorView.space space.old).content).nodes node → node.id ≡ id → node.folder ≡ false
        → (put : Data) → put.id ≡ id → IsAt put (length (bytes_at (kind_of kind) node)) from (from + length value.now) → IfOk result (λ said. said ≡ false → is_put_now_in (kind_of kind) volume.old (P.SectorView.space space.old).spare (volume_of (P.SectorView.space space.old).content) (Some put) ≡ false) }
    ensures met { IsTrue (P.SectorView.space space.old).tells → (node : PlainNode) → Contains (tree_of (P.SectorView.space space.old).content).nodes node → node.id ≡ id → node.folder ≡ false
        → (put : Data) → put.id ≡ id → IsAt put (length (bytes_at (kind_of kind) node)) from (from + length value.now) → IfOk result (λ said. said ≡ false → is_data_met_in (kind_of kind) volume.old (P.SectorView.space space.old).spare (volume_of (P.SectorView.space space.old).content) (Some put) ≡ false) }
    ensures no_cut { IsTrue (P.SectorView.space space.old).tells → (node : PlainNode) → Contains (tree_of (P.SectorView.space space.old).content).nodes node → node.id ≡ id → node.folder ≡ false
        → (put : Data) → put.id ≡ id → IsAt put (length (bytes_at (kind_of kind) node)) from (from + length value.now) → IfOk result (λ said. IsTrue said → needs_cut_in (kind_of kind) (volume_of (P.SectorView.space space.old).content) (Some put) ≡ false) }
    ensures puts { IsTrue (P.SectorView.space space.old).tells → IfOk result (λ said. IsTrue said → PutsAt (kind_of kind) id from value.now volume.old volume.new (P.SectorView.space space.old).content (P.SectorView.space space.new).content) }
    ensures waits { IsTrue (P.SectorView.space space.old).tells → IfOk result (λ said. said ≡ false → IsSettled volume.new (P.SectorView.space space.new).content × ((P.SectorView.space space.new).content ≡ (P.SectorView.space space.old).content)) }
    ensures same { (volume.new.private ≡ volume.old.private) × (volume.new.shrunk ≡ volume.old.shrunk) × (volume.new.capacity ≡ volume.old.capacity) }
    ensures commit { (committed : Content) → HoldsOn committed volume.old → IsLaidOutAs committed volume.old → Touches committed (λ s. Contains (own_sectors volume.old) s) (P.SectorView.space space.old) (P.SectorView.space space.new) }
    ensures holds { (committed : Content) → HoldsOn committed volume.old → OnOk result (HoldsOn committed volume.new) }
    ensures spent { IsTrue (P.SectorView.space space.old).tells → (node : PlainNode) → Contains (tree_of (P.SectorView.space space.old).content).nodes node → node.id ≡ id → node.folder ≡ false → (put : Data) → put.id ≡ id → IsAt put (length (bytes_at (kind_of kind) node)) from (from + length value.now)
        → ((P.SectorView.space space.old).spare ≤ (P.SectorView.space space.new).spare) ⊎ ((needs_cut_in (kind_of kind) (volume_of (P.SectorView.space space.old).content) (Some put) ≡ false) × ((P.SectorView.space space.old).spare ≤ (P.SectorView.space space.new).spare + data_load volume.old put + records_load_in (kind_of kind) volume.old (volume_of (P.SectorView.space space.old).content) put)) }
    ensures space { SameSpace (P.SectorView.space space.old) (P.SectorView.space space.new) }
    ensures below { P.SectorView.follows space.old space.new }
    ensures cause { HasTroubleCause (P.SectorView.space space.old).faults (P.SectorView.space space.new).faults result }
{
    volume.keep();
    match volume.entry(alloc, space, id)? {
        Some(entry) => put_in_entry(volume, alloc, space, &entry, kind, from, value),
        None => Ok(false),
    }
}
