//! Whether the blocks that a repair may write have one use each.
ghost use Rattle.std.specs.Prelude.{◌≡◌, ◌↔◌, ◌<◌, ◌≤◌, ◌+◌, ◌++◌, ◌^◌, ℕ, All, IsTrue, IfOk, OnOk, MatchOption};
ghost use Rattle.std.specs.List.Sorted.{IsNonDecreasingBy};
ghost use Rattle.alloc_bitmap.specs.Apart.{times};
ghost use Rattle.fork_map.specs.Blocks.{blocks_of};
ghost use Rattle.fsck_repair.specs.Once.{as_uses, times_used, times_written, used_hits, written_hits, HasSwept, IsTwice, with_blocks};

use fork_map::ExtentList;
use hx_bytes::{Extent, OutOfMemory};
use std::alloc::Global;

/// An extent of what uses a volume's blocks, or of the blocks that a repair may write.
#[derive(Clone, Copy)]
pub(crate) struct Use {
    pub extent: Extent,
    /// Whether a repair may write its blocks.
    pub written: bool,
}

/// How far extents in the order of their starts were looked at: the block behind all that were used, behind those that were used twice, and
/// behind those that a repair may write.
#[derive(Clone, Copy)]
pub(crate) struct Sweep {
    pub used: u64,
    pub twice: u64,
    pub written: u64,
}

/// Looks at blocks that are used, unless one of them was used already that a repair may write.
fn sweep_used(sweep: Sweep, extent: Extent) -> Option<Sweep>
    requires some { 0 < extent.count }
    ensures { (Used Written : ℕ → ℕ) (last : ℕ) → HasSwept Used Written sweep last → last ≤ extent.start
        → MatchOption result (IsTwice (with_blocks Used extent.start extent.count) Written) (λ next. HasSwept (with_blocks Used extent.start extent.count) Written next extent.start) }
{
    let start = extent.start as u64;
    let stop = start + extent.count as u64;
    let used = stop.max(sweep.used);
    if start >= sweep.used {
        return Some(Sweep { used, ..sweep });
    }
    if start < sweep.written {
        return None;
    }
    let twice = stop.min(sweep.used).max(sweep.twice);
    Some(Sweep {
        used,
        twice,
        ..sweep
    })
}

/// Looks at blocks that a repair may write, unless one of them was used twice.
fn sweep_written(sweep: Sweep, extent: Extent) -> Option<Sweep>
    requires some { 0 < extent.count }
    ensures { (Used Written : ℕ → ℕ) (last : ℕ) → HasSwept Used Written sweep last → last ≤ extent.start
        → MatchOption result (IsTwice Used (with_blocks Written extent.start extent.count)) (λ next. HasSwept Used (with_blocks Written extent.start extent.count) next extent.start) }
{
    let start = extent.start as u64;
    let stop = start + extent.count as u64;
    if start < sweep.twice {
        return None;
    }
    let written = stop.max(sweep.written);
    Some(Sweep { written, ..sweep })
}

/// Looks at one extent more, which begins no earlier than those before it.
fn sweep_one(sweep: Sweep, one: Use) -> Option<Sweep>
    ensures { (Used Written : ℕ → ℕ) (last : ℕ) → HasSwept Used Written sweep last → last ≤ one.extent.start
        → MatchOption result (IsTwice (λ k. Used k + used_hits k one) (λ k. Written k + written_hits k one)) (λ next. HasSwept (λ k. Used k + used_hits k one) (λ k. Written k + written_hits k one) next one.extent.start) }
{
    if one.extent.count == 0 {
        return Some(sweep);
    }
    if one.written {
        return sweep_written(sweep, one.extent);
    }
    sweep_used(sweep, one.extent)
}

/// Looks at extents in the order of their starts, and tells whether no block that a repair may write is used twice.
fn sweep_all(uses: &[Use]) -> bool
    ensures { IsNonDecreasingBy (λ one. one.extent.start) uses.now → IsTrue result ↔ ((k : ℕ) → 0 < times_written uses.now k → times_used uses.now k ≤ 1) }
{
    let mut sweep = Sweep {
        used: 0,
        twice: 0,
        written: 0,
    };
    for one in uses {
        let Some(next) = sweep_one(sweep, *one) else {
            return false;
        };
        sweep = next;
    }
    true
}

/// Adds extents to a list of uses.
fn add_uses(uses: &mut Vec<Use>, extents: &[Extent], written: bool) -> Result<(), OutOfMemory>
    ensures { OnOk result (uses.new.items ≡ uses.old.items ++ as_uses written extents.now) }
{
    for extent in extents {
        uses.push(Use {
            extent: *extent,
            written,
        })?;
    }
    Ok(())
}

/// Whether no block of those that a repair may write is used twice.
pub(crate) fn are_used_once(
    alloc: Global,
    used: &ExtentList,
    written: &ExtentList,
) -> Result<bool, OutOfMemory>
    ensures { IfOk result (λ met. IsTrue met ↔ All (λ block. times block (blocks_of used.now) ≤ 1) (blocks_of written.now)) }
{
    let mut uses = Vec::new(alloc);
    add_uses(&mut uses, used.as_slice(), false)?;
    add_uses(&mut uses, written.as_slice(), true)?;
    uses.sort_unstable_by_key(|one| one.extent.start);
    Ok(sweep_all(&uses))
}
