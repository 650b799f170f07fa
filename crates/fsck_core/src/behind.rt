//! The bits of the allocation file behind those of blocks (rule 3).
ghost use Rattle.std.specs.Prelude.{◌≡◌, ◌<◌, ◌≤◌, ◌-◌, ◌*◌, ◌/◌, ◌^◌, ◌+◌, ℕ, min, max, length, replicate, IsTrue, IfOk, IsErrOf};
ghost use Rattle.std.specs.List.{count_by, range_with_len};
ghost use Rattle.hx_bytes.specs.declared.faults.Trouble.TheVariants.{Disk};
ghost use Rattle.sector_disk.specs.Cause.{HasCause, Rose};
ghost use Rattle.fork_map.specs.Blocks.{fork_sectors};
ghost use Rattle.jnl_format.specs.Recovery.{header_of_volume};
ghost use Rattle.flag_rows.specs.Bits.{bit_of};
ghost use Rattle.btree_file.specs.Frame.{ReadsSpace};
ghost use Rattle.hfs_volume.specs.Blocks.{IsGoodHeader};
ghost use Rattle.hfs_volume.specs.Broken.{bits_behind};
ghost use Rattle.hfs_volume.specs.Content.{volume_of, overflow_of_content};
ghost use Rattle.fsck_core.specs.Behind.{set_between, set_up_to, all_blocks, HasSums, IsWhole, IsExtentAt};
ghost use Rattle.fsck_core.specs.Overflows.{overflows_in};

use crate::overflow::{OverflowRow, fork_extents};
use crate::sums::{BlockSum, blocks_inside, extent_ends, next_end, push_sum, sums_between};
use flag_rows::bytes::bit;
use fork_map::{ExtentList, SummedFork};
use fsck_scan::{Fork, read_sector};
use hx_bytes::{Extent, Failed, Sector, Trouble};
use sector_disk::SectorView;
use std::alloc::Global;
use volume_header::VolumeHeader;

/// The CNID of the allocation file.
const ALLOCATION_FILE: u32 = 6;

const DATA: u8 = 0;

/// How many bits of the first so many bytes are set.
fn count_bytes(bytes: &[u8], count: usize) -> u64
    requires inside { count ≤ length bytes.now }
    requires few { count ≤ 512 }
    ensures value { result ≡ count_by (bit_of bytes.now) (range_with_len 0 (8 * count)) }
    ensures few { result ≤ 8 * count }
{
    // A sum of 16 bits, so that eight are counted at once.
    let mut set: u16 = 0;
    for k in 0..count {
        set += bytes[k].count_ones() as u16;
    }
    set as u64
}

/// Whether no bit of a sector is set.
fn is_blank(sector: &Sector) -> bool
    ensures { IsTrue result → sector.now ≡ replicate 512 0 }
{
    // All bytes are looked at, which takes less than looking for the first that has a bit.
    let mut bits = 0;
    for byte in sector {
        bits |= *byte;
    }
    bits == 0
}

/// How many bits of a sector are set, from one place up to another.
fn count_bits(sector: &Sector, from: usize, to: usize) -> u64
    requires { to ≤ 4096 }
    ensures value { result ≡ count_by (bit_of sector.now) (range_with_len from (to - from)) }
    ensures few { result ≤ 4096 }
{
    if is_blank(sector) {
        return 0;
    }
    let rest = to % 8;
    if from == 0 {
        if rest == 0 {
            return count_bytes(sector, to / 8);
        }
    }
    let mut count = 0;
    for k in from..to {
        if bit(sector, k) {
            count += 1;
        }
    }
    count
}

/// Where the bits behind so many begin in a sector of them, from that of the first such bit on.
fn bits_from(total: u32, at: u64) -> usize
    requires { total / 4096 ≤ at }
    ensures value { result ≡ total - at * 4096 }
    ensures few { result ≤ 4096 }
{
    let first = (total / 4096) as u64;
    if at == first {
        (total % 4096) as usize
    } else {
        0
    }
}

/// Where the bits of so many bytes end in a sector of them.
fn bits_to(size: u64, at: u64) -> usize
    requires { at * 512 < size }
    ensures value { result ≡ min (8 * size - at * 4096) 4096 }
    ensures few { result ≤ 4096 }
{
    let left = size - at * 512;
    left.min(512) as usize * 8
}

/// Adds to a count how many of a fork's bits are set in the sectors from one place up to another; no more than the largest number is told.
fn count_stretch<V: SectorView>(
    view: &mut V,
    fork: &Fork,
    total: u32,
    size: u64,
    from: u64,
    to: u64,
    before: u64,
) -> Result<u64, Failed>
    requires per_block { fork.now.per_block ≤ 2 ^ 23 }
    requires first { total / 4096 ≤ from }
    requires end { to ≤ (size + 511) / 512 }
    ensures value { IsTrue (V.space view.old).tells
        → before ≡ min (set_up_to (V.space view.old).content fork.now.limit (fork_sectors fork.now.extents.now fork.now.per_block) total (8 * size) from) (2 ^ 64 - 1)
        → IfOk result (λ count. count ≡ min (set_up_to (V.space view.old).content fork.now.limit (fork_sectors fork.now.extents.now fork.now.per_block) total (8 * size) (max from to)) (2 ^ 64 - 1)) }
    ensures reads { ReadsSpace (V.space view.old) (V.space view.new) }
    ensures below { V.follows view.old view.new }
    ensures cause { HasCause (V.space view.old).faults (V.space view.new).faults result }
{
    let mut sector = [0; 512];
    let mut count = before;
    for at in from..to {
        read_sector(view, fork, at, &mut sector)?;
        count = count.saturating_add(count_bits(&sector, bits_from(total, at), bits_to(size, at)));
    }
    Ok(count)
}

/// The place of the first sector behind so many blocks of a fork, or an end that comes before it.
fn place_behind(blocks: u128, per_block: u32, end: u64) -> u64
    requires { blocks < 2 ^ 96 }
    ensures { result ≡ min end (blocks * per_block) }
{
    (blocks * per_block as u128).min(end as u128) as u64
}

/// Whether the blocks of an extent that lie in the volume are whole sectors of what is counted.
fn is_whole(
    total: u32,
    per_block: u32,
    size: u64,
    inside: u32,
    front: u128,
    at: u64,
    upto: u64,
) -> bool
    requires { front < 2 ^ 95 }
    ensures { IsTrue result → IsWhole total per_block size inside front at upto }
{
    if at as u128 != front * per_block as u128 {
        return false;
    }
    if upto as u128 != (front + inside as u128) * per_block as u128 {
        return false;
    }
    if at < total.div_ceil(4096) as u64 {
        return false;
    }
    if upto > size / 512 {
        return false;
    }
    true
}

/// Adds to a count how many bits are set in the blocks of an extent that lie in the volume. Where the numbers of bits before its ends are told,
/// no sector is read.
fn count_extent<V: SectorView>(
    view: &mut V,
    fork: &Fork,
    total: u32,
    size: u64,
    sums: &[BlockSum],
    start: u32,
    inside: u32,
    front: u128,
    at: u64,
    upto: u64,
    before: u64,
) -> Result<u64, Failed>
    requires per_block { fork.now.per_block ≤ 128 }
    requires some { 0 < fork.now.per_block }
    requires first { total / 4096 ≤ at }
    requires end { upto ≤ (size + 511) / 512 }
    requires front { front < 2 ^ 95 }
    ensures value { IsTrue (V.space view.old).tells → (index : ℕ) → IsExtentAt fork.now.extents.now index total start inside front
        → HasSums (V.space view.old).content fork.now.limit total fork.now.per_block sums.now
        → before ≡ min (set_up_to (V.space view.old).content fork.now.limit (fork_sectors fork.now.extents.now fork.now.per_block) total (8 * size) at) (2 ^ 64 - 1)
        → IfOk result (λ count. count ≡ min (set_up_to (V.space view.old).content fork.now.limit (fork_sectors fork.now.extents.now fork.now.per_block) total (8 * size) (max at upto)) (2 ^ 64 - 1)) }
    ensures reads { ReadsSpace (V.space view.old) (V.space view.new) }
    ensures below { V.follows view.old view.new }
    ensures cause { HasCause (V.space view.old).faults (V.space view.new).faults result }
{
    if is_whole(total, fork.per_block, size, inside, front, at, upto) {
        if let Some(bits) = sums_between(sums, start, inside) {
            return Ok(before.saturating_add(bits));
        }
    }
    count_stretch(view, fork, total, size, at, upto, before)
}

/// The numbers of bits that are set before some blocks of a volume, read in one pass.
#[tactic(auto, using(crate::proofs::BehindSums::ends_inside))]
fn sum_bits<V: SectorView>(
    alloc: Global,
    view: &mut V,
    whole: &Fork,
    total: u32,
    ends: &[u32],
) -> Result<Vec<BlockSum>, Trouble>
    requires few { whole.now.per_block ≤ 128 }
    ensures value { IsTrue (V.space view.old).tells → whole.now.extents.now ≡ all_blocks total → IfOk result (λ sums. HasSums (V.space view.old).content whole.now.limit total whole.now.per_block sums.items) }
    ensures reads { ReadsSpace (V.space view.old) (V.space view.new) }
    ensures below { V.follows view.old view.new }
    ensures disk { IsErrOf result Disk → Rose (V.space view.old).faults (V.space view.new).faults }
{
    let per_block = whole.per_block as u64;
    let size = total as u64 * per_block * 512;
    let mut sums = Vec::new(alloc);
    let mut count = 0;
    let mut done = 0;
    for k in 0..ends.len() {
        let end = next_end(ends[k], done, total);
        let at = done as u64 * per_block;
        let upto = end as u64 * per_block;
        count = count_stretch(view, whole, 0, size, at, upto, count)?;
        push_sum(
            &mut sums,
            BlockSum {
                block: end as u64,
                bits: count,
            },
        )?;
        done = end;
    }
    Ok(sums)
}

/// Whether so few sectors of a fork hold bits behind those of blocks that reading them all reads the volume once at most.
fn has_few(fork: &Fork, total: u32, size: u64) -> bool {
    let end = size.div_ceil(512);
    let per_block = fork.per_block as u64;
    let mut at = (total / 4096) as u64;
    let mut front: u64 = 0;
    let mut left = fork.limit;
    for extent in fork.extents.as_slice() {
        let inside = blocks_inside(*extent, total) as u64;
        let upto = front
            .saturating_add(inside)
            .saturating_mul(per_block)
            .min(end);
        let sectors = upto.saturating_sub(at);
        if sectors > left {
            return false;
        }
        left -= sectors;
        front = front.saturating_add(extent.count as u64);
        let behind = front.saturating_mul(per_block).min(end);
        at = at.max(upto).max(behind);
    }
    true
}

/// The numbers of bits that are set before the ends of a fork's extents, where more sectors of it hold bits behind those of blocks than the volume
/// has; none for any other fork, of which each of these sectors is read.
fn read_sums<V: SectorView>(
    alloc: Global,
    view: &mut V,
    fork: &Fork,
    total: u32,
    size: u64,
) -> Result<Vec<BlockSum>, Trouble>
    requires few { fork.now.per_block ≤ 128 }
    ensures value { IsTrue (V.space view.old).tells → IfOk result (λ sums. HasSums (V.space view.old).content fork.now.limit total fork.now.per_block sums.items) }
    ensures reads { ReadsSpace (V.space view.old) (V.space view.new) }
    ensures below { V.follows view.old view.new }
    ensures disk { IsErrOf result Disk → Rose (V.space view.old).faults (V.space view.new).faults }
{
    if has_few(fork, total, size) {
        return Ok(Vec::new(alloc));
    }
    let mut list = ExtentList::new(alloc);
    list.push(Extent {
        start: 0,
        count: total,
    })?;
    let extents = SummedFork::from_list(alloc, list)?;
    let whole = Fork {
        extents: &extents,
        per_block: fork.per_block,
        limit: fork.limit,
    };
    let ends = extent_ends(alloc, fork.extents, total)?;
    sum_bits(alloc, view, &whole, total, &ends)
}

/// How many of a fork's bits are set behind so many, up to the end of so many bytes; no more than the largest number is told. Blocks outside
/// the volume are zeros, and aren't looked at one by one.
fn count_past<V: SectorView>(
    view: &mut V,
    fork: &Fork,
    total: u32,
    size: u64,
    sums: &[BlockSum],
) -> Result<u64, Failed>
    requires few { fork.now.per_block ≤ 128 }
    requires some { 0 < fork.now.per_block }
    requires limit { fork.now.limit ≡ total * fork.now.per_block }
    ensures value { IsTrue (V.space view.old).tells → HasSums (V.space view.old).content fork.now.limit total fork.now.per_block sums.now → IfOk result (λ count. count ≡ min (set_between (V.space view.old).content fork.now.limit (fork_sectors fork.now.extents.now fork.now.per_block) total (8 * size)) (2 ^ 64 - 1)) }
    ensures reads { ReadsSpace (V.space view.old) (V.space view.new) }
    ensures below { V.follows view.old view.new }
    ensures cause { HasCause (V.space view.old).faults (V.space view.new).faults result }
{
    let end = size.div_ceil(512);
    let mut at = (total / 4096) as u64;
    let mut count = 0;
    let mut front: u128 = 0;
    for extent in fork.extents.as_slice() {
        let inside = blocks_inside(*extent, total);
        let upto = place_behind(front + inside as u128, fork.per_block, end);
        count = count_extent(
            view,
            fork,
            total,
            size,
            sums,
            extent.start,
            inside,
            front,
            at,
            upto,
            count,
        )?;
        front += extent.count as u128;
        at = at.max(upto).max(place_behind(front, fork.per_block, end));
    }
    Ok(count)
}

/// How many bits of the allocation file are set behind those of blocks, where the header keeps rule 1 and these are the volume's overflow
/// records; no more than the largest number is told.
pub fn count_behind<V: SectorView>(
    alloc: Global,
    view: &mut V,
    head: &VolumeHeader,
    rows: &[OverflowRow],
) -> Result<u64, Trouble>
    requires good { IsGoodHeader (V.space view.old).sectors head.now }
    ensures value { IsTrue (V.space view.old).tells → head.now ≡ header_of_volume (V.space view.old).content → overflows_in rows.now ≡ overflow_of_content (V.space view.old).content
        → IfOk result (λ count. count ≡ min (bits_behind (volume_of (V.space view.old).content)) (2 ^ 64 - 1)) }
    ensures reads { ReadsSpace (V.space view.old) (V.space view.new) }
    ensures below { V.follows view.old view.new }
    ensures disk { IsErrOf result Disk → Rose (V.space view.old).faults (V.space view.new).faults }
{
    let list = fork_extents(alloc, rows, ALLOCATION_FILE, DATA, &head.allocation_fork)?;
    let extents = SummedFork::from_list(alloc, list)?;
    let per_block = head.block_size / 512;
    let fork = Fork {
        extents: &extents,
        per_block,
        limit: head.total_blocks as u64 * per_block as u64,
    };
    let total = head.total_blocks;
    let size = head.allocation_fork.logical_size;
    let sums = read_sums(alloc, view, &fork, total, size)?;
    let count = count_past(view, &fork, total, size, &sums)?;
    Ok(count)
}
