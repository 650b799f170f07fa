//! How many bits of the allocation file are set before some blocks of a volume, each read as the whole volume's.
ghost use Rattle.std.specs.Prelude.{◌≡◌, ◌≤◌, ◌+◌, ◌-◌, ◌++◌, ◌∷◌, ℕ, [], min, IfSome, OnOk};
ghost use Rattle.jnl_format.specs.Recovery.{Content};
ghost use Rattle.fsck_core.specs.Behind.{told_before, HasSums};

use fork_map::SummedFork;
use hx_bytes::{Extent, OutOfMemory};
use std::alloc::Global;

/// How many bits are set before a block of a volume.
#[derive(Clone, Copy)]
pub struct BlockSum {
    pub block: u64,
    pub bits: u64,
}

/// How many blocks of an extent lie in a volume of so many.
pub(crate) fn blocks_inside(extent: Extent, total: u32) -> u32
    ensures { result ≡ min extent.count (total - extent.start) }
{
    extent.count.min(total.saturating_sub(extent.start))
}

/// The blocks at which the extents of a fork begin and end in a volume of so many, in order.
pub(crate) fn extent_ends(
    alloc: Global,
    extents: &SummedFork,
    total: u32,
) -> Result<Vec<u32>, OutOfMemory> {
    let mut ends = Vec::new(alloc);
    for extent in extents.as_slice() {
        ends.push(extent.start)?;
        ends.push(extent.start.saturating_add(blocks_inside(*extent, total)))?;
    }
    ends.sort_unstable();
    Ok(ends)
}

/// The end of the blocks that are looked at next, where so many were: no earlier one, and none outside the volume.
pub(crate) fn next_end(end: u32, done: u32, total: u32) -> u32
    requires { done ≤ total }
    ensures low { done ≤ result }
    ensures high { result ≤ total }
{
    end.min(total).max(done)
}

pub(crate) fn push_sum(sums: &mut Vec<BlockSum>, sum: BlockSum) -> Result<(), OutOfMemory>
    ensures { OnOk result (sums.new.items ≡ sums.old.items ++ sum ∷ []) }
{
    sums.push(sum)?;
    Ok(())
}

/// The number of bits before a block, where it is one of these. They stand in the order of their blocks.
#[tactic(auto, using(crate::proofs::BehindSums::found_sum))]
fn find_sum(sums: &[BlockSum], block: u64) -> Option<u64>
    ensures { (content : Content) (limit total per : ℕ) → HasSums content limit total per sums.now → IfSome result (λ bits. bits ≡ told_before content limit total per block) }
{
    let mut low = 0;
    let mut high = sums.len();
    while low < high {
        let middle = low + (high - low) / 2;
        if sums[middle].block < block {
            low = middle + 1;
        } else {
            high = middle;
        }
    }
    if low >= sums.len() {
        return None;
    }
    let found = sums[low];
    if found.block != block {
        return None;
    }
    Some(found.bits)
}

/// How many bits are set in so many blocks of a volume, where the numbers before the first of them and behind the last are told.
pub(crate) fn sums_between(sums: &[BlockSum], start: u32, inside: u32) -> Option<u64>
    ensures { (content : Content) (limit total per : ℕ) → HasSums content limit total per sums.now
        → IfSome result (λ bits. bits ≡ told_before content limit total per (start + inside) - told_before content limit total per start) }
{
    let Some(before) = find_sum(sums, start as u64) else {
        return None;
    };
    let Some(upto) = find_sum(sums, start as u64 + inside as u64) else {
        return None;
    };
    Some(upto.saturating_sub(before))
}
