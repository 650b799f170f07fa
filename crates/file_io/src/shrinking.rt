//! Blocks past the end of a file given back.
ghost use Rattle.std.specs.Prelude.{◌≡◌, ◌<◌, ◌≤◌, ◌+◌, ◌-◌, ◌*◌, ◌/◌, ◌^◌, ℕ, length, take, drop, min, OnOk, IfOk};
ghost use Rattle.fork_map.specs.Blocks.{blocks_of};
ghost use Rattle.fork_map.specs.Cut.{front, back};
ghost use Rattle.alloc_bitmap.specs.Apart.{AreApart};
ghost use Rattle.flag_rows.specs.Bits.{count_set, sectors_for};
ghost use Rattle.file_io.specs.Places.{given, AreUsed, KeepsMap, LosesNone};

use alloc_bitmap::Bitmap;
use fork_map::ExtentList;
use hx_bytes::{Extent, OutOfMemory};
use std::alloc::Global;

/// Gives extents back whose blocks are used.
pub fn give_all(alloc: Global, map: &mut Bitmap, list: &[Extent]) -> Result<(), OutOfMemory>
    ensures given { AreApart (blocks_of list.now) → AreUsed map.old (blocks_of list.now) → OnOk result (map.new ≡ given list.now map.old) }
    // Also where it fails, it is a bitmap of the same volume.
    ensures keeps { length map.old.changed ≡ sectors_for (length map.old.used) → KeepsMap map.old map.new }
    // Each block that was used or held is used or held, also where it fails.
    ensures none_lost { LosesNone map.old map.new }
    // At most one sector of the bitmap for each block has bits that were changed, then too.
    ensures few { count_set map.new.changed ≤ count_set map.old.changed + length (blocks_of list.now) }
{
    for extent in list {
        if map.have(*extent, true) {
            map.give(alloc, *extent)?;
        }
    }
    Ok(())
}

/// How many extents a record holds: the file's own, and each record of the extents that don't fit there.
const IN_RECORD: usize = 8;

/// How many blocks a step cuts at most.
const MOST_BLOCKS: u64 = 32768;

/// Cuts blocks from the end of a fork, which lie past the end of its file, and gives them back: at least one where the fork has
/// more than `keep`, at most 32,768, and none of the first `keep`. Extents stand in records of eight; only the last record that
/// has blocks loses some.
pub fn shrink_step(
    alloc: Global,
    map: &mut Bitmap,
    fork: &ExtentList,
    keep: u32,
) -> Result<ExtentList, OutOfMemory>
    requires used { AreUsed map.old (blocks_of fork.now) }
    ensures stays { IfOk result (λ list. list ≡ front (length (blocks_of list)) fork.now) }
    ensures kept { IfOk result (λ list. min keep (length (blocks_of fork.now)) ≤ length (blocks_of list)) }
    ensures some { IfOk result (λ list. keep < length (blocks_of fork.now) → length (blocks_of list) < length (blocks_of fork.now)) }
    ensures most { IfOk result (λ list. length (blocks_of fork.now) ≤ length (blocks_of list) + 32768) }
    // Where extents behind the first n records have blocks, those of the first n records stay.
    ensures last_record { IfOk result (λ list. (n : ℕ) → 0 < length (blocks_of (drop (8 * n) fork.now)) → length (blocks_of (take (8 * n) fork.now)) ≤ length (blocks_of list)) }
    ensures given { AreApart (blocks_of fork.now) → IfOk result (λ list. map.new ≡ given (back (length (blocks_of list)) fork.now) map.old) }
    // Also where it fails, it is a bitmap of the same volume.
    ensures keeps { length map.old.changed ≡ sectors_for (length map.old.used) → KeepsMap map.old map.new }
{
    let _total = map.total();
    let items = fork.as_slice();
    let surplus = blocks_in(items)
        .saturating_sub(keep as u64)
        .min(MOST_BLOCKS);
    let last = last_record(items);
    let cut = blocks_in(&items[last..]).min(surplus) as u32;
    let (stays, goes) = fork.cut_tail(alloc, cut)?;
    give_all(alloc, map, goes.as_slice())?;
    Ok(stays)
}

/// How many blocks extents have; at most the largest `u64` is said.
pub fn blocks_in(items: &[Extent]) -> u64
    ensures { result ≡ min (length (blocks_of items.now)) (2 ^ 64 - 1) }
{
    let mut count: u64 = 0;
    for extent in items {
        count = count.saturating_add(extent.count as u64);
    }
    count
}

/// Where the last record begins that has a block.
fn last_record(items: &[Extent]) -> usize
    ensures inside { result ≤ length items.now }
    ensures last { (n : ℕ) → 0 < length (blocks_of (drop (8 * n) items.now)) → 8 * n ≤ result }
    ensures some { 0 < length (blocks_of items.now) → 0 < length (blocks_of (drop result items.now)) }
{
    let mut behind = items.len();
    while behind > 0 {
        if items[behind - 1].count > 0 {
            return (behind - 1) / IN_RECORD * IN_RECORD;
        }
        behind -= 1;
    }
    0
}
