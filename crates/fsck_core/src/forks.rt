//! The forks of a volume: each is as long as it says, and its extents lie in the volume (rule 16).
ghost use Rattle.std.specs.Prelude.{◌≡◌, ◌+◌, ◌*◌, ◌∷◌, ◌++◌, ◌↔◌, [], ℕ, min, length, All, IsTrue, IfOk};
ghost use Rattle.std.specs.List.{flat_map};
ghost use Rattle.std.specs.List.Sorted.{IsNonDecreasingBy};
ghost use Rattle.hfs_volume.specs.Forks.{blocks_owned};
ghost use Rattle.hfs_volume.specs.Blocks.{GoesOn, HasSizes, LieInside, forks_of};
ghost use Rattle.hfs_volume.specs.Broken.{want, extent_wants, fork_wants, overflow_wants};
ghost use Rattle.hfs_volume.specs.Content.{VolumeState, overflow_in_volume};
ghost use Rattle.fsck_core.specs.Judged.{Judged, AddsUnmet};
ghost use Rattle.fsck_core.specs.Overflows.{overflows_in};
ghost use Rattle.fsck_core.specs.Owners.{owned_in, owned_all, extent_want, number_wants, own_wants, row_wants};

use crate::follow::OwnedFork;
use crate::overflow::OverflowRow;
use crate::stretch::{are_in_order, follow_own};
use crate::want::{Want, both, judge_wants};
use fsck_list::Findings;
use hx_bytes::{Extent, OutOfMemory};
use volume_header::VolumeHeader;

/// Judges an extent: one that has blocks ends inside the volume.
fn judge_extent(
    id: u32,
    total: u32,
    extent: Extent,
    out: &mut Findings,
) -> Result<bool, OutOfMemory>
    ensures judged { IfOk result (λ met. Judged 16 (extent_want id total extent) out.old out.new met) }
    ensures each { AddsUnmet 16 (extent_want id total extent) out.old out.new }
{
    if extent.count == 0 {
        return Ok(true);
    }
    let end = extent.start as u64 + extent.count as u64;
    let wanted = end.min(total as u64);
    judge_wants(
        16,
        &[Want {
            place: id as u64,
            found: end,
            wanted,
        }],
        out,
    )
}

/// Judges the extents of a record.
pub(crate) fn judge_extents(
    id: u32,
    total: u32,
    extents: &[Extent],
    out: &mut Findings,
) -> Result<bool, OutOfMemory>
    ensures judged { IfOk result (λ met. Judged 16 (extent_wants id total extents.now) out.old out.new met) }
    ensures each { AddsUnmet 16 (extent_wants id total extents.now) out.old out.new }
{
    let mut met = true;
    for extent in extents {
        let one = judge_extent(id, total, *extent, out)?;
        met = both(one, met);
    }
    Ok(met)
}

/// How many blocks a fork has whose overflow records go on behind its record.
fn count_owned(rows: &[OverflowRow], in_order: bool, owned: &OwnedFork) -> u64
    requires { IsTrue in_order → IsNonDecreasingBy (λ row. row.id) rows.now }
    ensures { GoesOn (overflows_in rows.now) (owned_in owned.now) → result ≡ length (blocks_owned (overflows_in rows.now) (owned_in owned.now)) }
{
    let Some(blocks) = follow_own(rows, in_order, owned) else {
        return 0;
    };
    blocks
}

/// How many bytes so many blocks hold.
fn bytes_held(blocks: u32, block_size: u32) -> u64
    ensures { result ≡ blocks * block_size }
{
    blocks as u64 * block_size as u64
}

/// Judges the numbers of a fork: it has as many blocks as it says, and they hold its bytes.
fn judge_numbers(
    head: &VolumeHeader,
    rows: &[OverflowRow],
    in_order: bool,
    owned: &OwnedFork,
    out: &mut Findings,
) -> Result<bool, OutOfMemory>
    requires { IsTrue in_order → IsNonDecreasingBy (λ row. row.id) rows.now }
    ensures judged { GoesOn (overflows_in rows.now) (owned_in owned.now) → IfOk result (λ met. Judged 16 (number_wants head.now (overflows_in rows.now) (owned_in owned.now)) out.old out.new met) }
    ensures each { GoesOn (overflows_in rows.now) (owned_in owned.now) → AddsUnmet 16 (number_wants head.now (overflows_in rows.now) (owned_in owned.now)) out.old out.new }
{
    let blocks = count_owned(rows, in_order, owned);
    let held = bytes_held(owned.fork.total_blocks, head.block_size);
    let most = owned.fork.logical_size.min(held);
    judge_wants(
        16,
        &[
            Want {
                place: owned.id as u64,
                found: owned.fork.total_blocks as u64,
                wanted: blocks,
            },
            Want {
                place: owned.id as u64,
                found: owned.fork.logical_size,
                wanted: most,
            },
        ],
        out,
    )
}

/// Judges a fork.
fn judge_fork(
    head: &VolumeHeader,
    rows: &[OverflowRow],
    in_order: bool,
    owned: &OwnedFork,
    out: &mut Findings,
) -> Result<bool, OutOfMemory>
    requires { IsTrue in_order → IsNonDecreasingBy (λ row. row.id) rows.now }
    ensures judged { GoesOn (overflows_in rows.now) (owned_in owned.now) → IfOk result (λ met. Judged 16 (own_wants head.now (overflows_in rows.now) (owned_in owned.now)) out.old out.new met) }
    ensures each { GoesOn (overflows_in rows.now) (owned_in owned.now) → AddsUnmet 16 (own_wants head.now (overflows_in rows.now) (owned_in owned.now)) out.old out.new }
{
    let one = judge_numbers(head, rows, in_order, owned, out)?;
    let other = judge_extents(
        owned.id,
        head.total_blocks,
        &owned.fork.extents.extents,
        out,
    )?;
    Ok(both(other, one))
}

/// Judges each fork.
fn judge_own_forks(
    head: &VolumeHeader,
    rows: &[OverflowRow],
    forks: &[OwnedFork],
    out: &mut Findings,
) -> Result<bool, OutOfMemory>
    ensures judged { All (λ row. GoesOn (overflows_in rows.now) (owned_in row)) forks.now
        → IfOk result (λ met. Judged 16 (flat_map (λ row. own_wants head.now (overflows_in rows.now) (owned_in row)) forks.now) out.old out.new met) }
    ensures each { All (λ row. GoesOn (overflows_in rows.now) (owned_in row)) forks.now
        → AddsUnmet 16 (flat_map (λ row. own_wants head.now (overflows_in rows.now) (owned_in row)) forks.now) out.old out.new }
{
    let in_order = are_in_order(rows);
    let mut met = true;
    for owned in forks {
        let one = judge_fork(head, rows, in_order, owned, out)?;
        met = both(one, met);
    }
    Ok(met)
}

/// Judges the extents of each overflow record.
fn judge_rows(total: u32, rows: &[OverflowRow], out: &mut Findings) -> Result<bool, OutOfMemory>
    ensures judged { IfOk result (λ met. Judged 16 (flat_map (row_wants total) rows.now) out.old out.new met) }
    ensures each { AddsUnmet 16 (flat_map (row_wants total) rows.now) out.old out.new }
{
    let mut met = true;
    for row in rows {
        let one = judge_extents(row.id, total, &row.extents.extents, out)?;
        met = both(one, met);
    }
    Ok(met)
}

/// Judges the forks of a volume whose overflow records go on behind them (rule 17 holds): each has as many blocks as it says, they hold its
/// bytes, and each extent ends inside the volume, those of overflow records too (TN1150, "Fork Data Structure").
pub fn judge_forks(
    head: &VolumeHeader,
    rows: &[OverflowRow],
    forks: &[OwnedFork],
    out: &mut Findings,
) -> Result<bool, OutOfMemory>
    ensures met { (volume : VolumeState) → head.now ≡ volume.head → overflows_in rows.now ≡ overflow_in_volume volume → owned_all forks.now ≡ forks_of volume → All (GoesOn (overflow_in_volume volume)) (forks_of volume)
        → IfOk result (λ met. IsTrue met ↔ All (HasSizes volume.head (overflow_in_volume volume)) (forks_of volume) × All (λ more. LieInside volume.head.total_blocks more.extents) (overflow_in_volume volume)) }
    ensures judged { (volume : VolumeState) → head.now ≡ volume.head → overflows_in rows.now ≡ overflow_in_volume volume → owned_all forks.now ≡ forks_of volume → All (GoesOn (overflow_in_volume volume)) (forks_of volume)
        → IfOk result (λ met. Judged 16 (flat_map (fork_wants volume) (forks_of volume) ++ flat_map (overflow_wants volume) (overflow_in_volume volume)) out.old out.new met) }
    ensures each { (volume : VolumeState) → head.now ≡ volume.head → overflows_in rows.now ≡ overflow_in_volume volume → owned_all forks.now ≡ forks_of volume → All (GoesOn (overflow_in_volume volume)) (forks_of volume)
        → AddsUnmet 16 (flat_map (fork_wants volume) (forks_of volume) ++ flat_map (overflow_wants volume) (overflow_in_volume volume)) out.old out.new }
{
    let one = judge_own_forks(head, rows, forks, out)?;
    let other = judge_rows(head.total_blocks, rows, out)?;
    Ok(both(other, one))
}
