//! The blocks that something uses, each once (rule 18).
ghost use Rattle.std.specs.Prelude.{◌≡◌, ◌≢◌, ◌≤◌, ◌<◌, ◌+◌, ◌^◌, ◌⊎◌, ◌↔◌, ◌++◌, ◌∷◌, [], ℕ, Bool, true, false, not, List, length, replicate, slice_index_or, IsTrue, IfOk, OnOk};
ghost use Rattle.std.specs.List.{range_with_len};
ghost use Rattle.std.specs.List.Sorted.{IsNonDecreasingBy};
ghost use Rattle.flag_rows.specs.Bits.{has};
ghost use Rattle.fork_map.specs.Blocks.{blocks_of};
ghost use Rattle.alloc_bitmap.specs.Apart.{times, AreApart};
ghost use Rattle.hfs_volume.specs.Content.{VolumeState};
ghost use Rattle.hfs_volume.specs.Blocks.{used_in};
ghost use Rattle.hfs_volume.specs.Broken.{use_wants};
ghost use Rattle.fsck_list.specs.declared.finding.Finding.{Finding as Listed};
ghost use Rattle.fsck_core.specs.Judged.{AddsUnmet};
ghost use Rattle.fsck_core.specs.Flags.{AreUsed};
ghost use Rattle.fsck_core.specs.Uses.{use_want, uses_of, HasMarked, HasSwept};

use crate::flags::bit;
use crate::want::{Want, judge_wants};
use fsck_list::{Findings, MOST, Marks};
use hx_bytes::{Extent, OutOfMemory};
use std::alloc::Global;

/// Whether an extent has a block.
fn has_block(extent: Extent, block: u64) -> bool
    ensures { result ≡ has extent block }
{
    let start = extent.start as u64;
    start <= block && block < start + extent.count as u64
}

/// How many of these extents have a block.
fn count_uses(extents: &[Extent], block: u64) -> u64
    ensures { result ≡ times block (blocks_of extents.now) }
{
    let mut count = 0;
    for extent in extents {
        let one = bit(has_block(*extent, block));
        count += one;
    }
    count
}

/// Marks the blocks from one up to another that are blocks of the volume. None of them is marked yet.
fn mark_stretch(used: &mut Marks, from: u64, to: u64) -> Result<(), OutOfMemory>
    requires { length used.old ≤ 2 ^ 32 }
    ensures long { length used.new ≡ length used.old }
    ensures sets { OnOk result (((k : ℕ) → from ≤ k → slice_index_or used.old k false ≡ false) → (k : ℕ) → from ≤ k → k < to → k < length used.old → slice_index_or used.new k false ≡ true) }
    ensures keeps { (k : ℕ) → (k < from) ⊎ (to ≤ k) → slice_index_or used.new k false ≡ slice_index_or used.old k false }
{
    used.mark_stretch(from, to)?;
    Ok(())
}

/// Adds a finding for a block that these extents have more than once. Where there are as many findings as are kept, none is added.
fn tell_use(extents: &[Extent], block: u64, out: &mut Findings) -> Result<(), OutOfMemory>
    ensures found { times block (blocks_of extents.now) ≢ 1 → OnOk result (0 < length out.new) }
    ensures each { AddsUnmet 18 (use_want (blocks_of extents.now) block ∷ []) out.old out.new }
{
    if out.len() >= MOST {
        return Ok(());
    }
    let found = count_uses(extents, block);
    judge_wants(
        18,
        &[Want {
            place: block,
            found,
            wanted: 1,
        }],
        out,
    )?;
    Ok(())
}

/// How far extents in the order of their starts were looked at.
#[derive(Clone, Copy, Debug, PartialEq, Eq)]
pub(crate) struct Sweep {
    /// The block behind all that they have.
    pub end: u64,
    /// The last block that was told to be used twice.
    pub told: u64,
    /// Whether no block was seen twice.
    pub met: bool,
}

/// Looks at one extent more, which begins no earlier than those before it.
fn sweep_extent(
    extents: &[Extent],
    extent: Extent,
    sweep: Sweep,
    used: &mut Marks,
    out: &mut Findings,
) -> Result<Sweep, OutOfMemory>
    requires { length used.old ≤ 2 ^ 32 }
    ensures long { IfOk result (λ _. length used.new ≡ length used.old) }
    ensures swept { (total last : ℕ) (front : List ℕ) (first : List Listed) → HasSwept total (blocks_of extents.now) front first used.old out.old sweep last → last ≤ extent.start
        → ((k : ℕ) → times k front + times k (range_with_len extent.start extent.count) ≤ times k (blocks_of extents.now))
        → IfOk result (λ next. HasSwept total (blocks_of extents.now) (front ++ range_with_len extent.start extent.count) first used.new out.new next extent.start) }
    ensures each { (total last : ℕ) (front : List ℕ) (first : List Listed) → HasSwept total (blocks_of extents.now) front first used.old out.old sweep last → last ≤ extent.start
        → ((k : ℕ) → times k front + times k (range_with_len extent.start extent.count) ≤ times k (blocks_of extents.now))
        → AddsUnmet 18 (uses_of (blocks_of extents.now)) first out.new }
{
    if extent.count == 0 {
        return Ok(sweep);
    }
    let start = extent.start as u64;
    let stop = start + extent.count as u64;
    let from = start.max(sweep.end);
    mark_stretch(used, from, stop)?;
    let end = stop.max(sweep.end);
    if start >= sweep.end {
        return Ok(Sweep { end, ..sweep });
    }
    if !sweep.met {
        if sweep.told == start {
            return Ok(Sweep { end, ..sweep });
        }
    }
    tell_use(extents, start, out)?;
    Ok(Sweep {
        end,
        told: start,
        met: false,
    })
}

/// Extents in the order of their starts.
fn sort_extents(alloc: Global, extents: &[Extent]) -> Result<Vec<Extent>, OutOfMemory>
    ensures order { IfOk result (λ sorted. IsNonDecreasingBy (λ extent. extent.start) sorted.items) }
    ensures same { IfOk result (λ sorted. (block : ℕ) → times block (blocks_of sorted.items) ≡ times block (blocks_of extents.now)) }
{
    let mut sorted = Vec::from_slice(alloc, extents)?;
    sorted.sort_unstable_by_key(|extent| extent.start);
    Ok(sorted)
}

/// Looks at extents in the order of their starts, and tells whether no block is used twice.
fn sweep_extents(
    extents: &[Extent],
    sorted: &[Extent],
    used: &mut Marks,
    out: &mut Findings,
) -> Result<bool, OutOfMemory>
    requires { length used.old ≤ 2 ^ 32 }
    ensures marked { IsNonDecreasingBy (λ extent. extent.start) sorted.now → ((block : ℕ) → times block (blocks_of sorted.now) ≡ times block (blocks_of extents.now)) → used.old ≡ replicate (length used.old) false
        → IfOk result (λ met. HasMarked (length used.old) (blocks_of extents.now) (blocks_of sorted.now) out.old used.new out.new met) }
    ensures each { IsNonDecreasingBy (λ extent. extent.start) sorted.now → ((block : ℕ) → times block (blocks_of sorted.now) ≡ times block (blocks_of extents.now)) → used.old ≡ replicate (length used.old) false
        → AddsUnmet 18 (uses_of (blocks_of extents.now)) out.old out.new }
{
    let mut sweep = Sweep {
        end: 0,
        told: 0,
        met: true,
    };
    for extent in sorted {
        sweep = sweep_extent(extents, *extent, sweep, used, out)?;
    }
    Ok(sweep.met)
}

/// Judges that no block is used twice, and marks those that are used. The extents are all that the files of a volume use, and its reserved
/// blocks; the flags are one for each block of it, and none is set yet. Where many blocks are used twice, the first of each extent are told.
pub fn judge_uses(
    alloc: Global,
    extents: &[Extent],
    used: &mut Marks,
    out: &mut Findings,
) -> Result<bool, OutOfMemory>
    requires { length used.old ≤ 2 ^ 32 }
    ensures met { (volume : VolumeState) → blocks_of extents.now ≡ used_in volume → used.old ≡ replicate volume.head.total_blocks false → IfOk result (λ met. IsTrue met ↔ AreApart (used_in volume)) }
    ensures marks { (volume : VolumeState) → blocks_of extents.now ≡ used_in volume → used.old ≡ replicate volume.head.total_blocks false → IfOk result (λ _. AreUsed volume used.new) }
    ensures found { (volume : VolumeState) → blocks_of extents.now ≡ used_in volume → used.old ≡ replicate volume.head.total_blocks false → IfOk result (λ met. met ≡ false → 0 < length out.new) }
    ensures each { (volume : VolumeState) → blocks_of extents.now ≡ used_in volume → used.old ≡ replicate volume.head.total_blocks false → AddsUnmet 18 (use_wants volume) out.old out.new }
{
    let sorted = sort_extents(alloc, extents)?;
    sweep_extents(extents, &sorted, used, out)
}
