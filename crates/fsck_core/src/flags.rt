//! The bits of blocks, and the number of free ones (rules 13 and 14).
ghost use Rattle.std.specs.Prelude.{◌≡◌, ◌≤◌, ◌∷◌, [], IfOk};
ghost use Rattle.hfs_volume.specs.Content.{VolumeState};
ghost use Rattle.hfs_volume.specs.Broken.{want, bit, bit_wants, free_wants};
ghost use Rattle.fsck_core.specs.Judged.{Judged, AddsUnmet};
ghost use Rattle.fsck_core.specs.Flags.{AreBits, AreUsed};

use crate::want::{Want, both, judge_wants};
use flag_rows::Bits;
use fsck_list::{Findings, Marks};
use hx_bytes::OutOfMemory;
use volume_header::VolumeHeader;

/// A bit as a number.
pub(crate) fn bit(set: bool) -> u64
    ensures value { result ≡ bit set }
    ensures few { result ≤ 1 }
{
    if set { 1 } else { 0 }
}

/// Judges the bit of a block.
fn judge_bit(block: u64, set: bool, used: bool, out: &mut Findings) -> Result<bool, OutOfMemory>
    ensures judged { IfOk result (λ met. Judged 13 (want block (bit set) (bit used) ∷ []) out.old out.new met) }
    ensures each { AddsUnmet 13 (want block (bit set) (bit used) ∷ []) out.old out.new }
{
    let found = bit(set);
    let wanted = bit(used);
    judge_wants(
        13,
        &[Want {
            place: block,
            found,
            wanted,
        }],
        out,
    )
}

/// Judges the bit of each block: it is set where something uses the block, and only there (TN1150, "Allocation File"). Where as many findings
/// are kept as there may be, and those of later blocks would come behind them, these aren't looked at.
pub fn judge_bits(flags: &Bits, used: &Marks, out: &mut Findings) -> Result<bool, OutOfMemory>
    ensures judged { (volume : VolumeState) → AreBits volume flags.now → AreUsed volume used.now → IfOk result (λ met. Judged 13 (bit_wants volume) out.old out.new met) }
    ensures each { (volume : VolumeState) → AreBits volume flags.now → AreUsed volume used.now → AddsUnmet 13 (bit_wants volume) out.old out.new }
{
    let mut met = true;
    for block in 0..flags.len() {
        let one = judge_bit(block as u64, flags.get(block), used.has(block as u32), out)?;
        if !one {
            if out.is_full_before(13, block as u64 + 1) {
                return Ok(false);
            }
        }
        met = both(one, met);
    }
    Ok(met)
}

/// Judges the number of free blocks in the volume header: those that nothing uses (TN1150, "Volume Header").
pub fn judge_free(
    head: &VolumeHeader,
    used: &Marks,
    out: &mut Findings,
) -> Result<bool, OutOfMemory>
    ensures judged { (volume : VolumeState) → volume.head ≡ head.now → AreUsed volume used.now → IfOk result (λ met. Judged 14 (free_wants volume) out.old out.new met) }
    ensures each { (volume : VolumeState) → volume.head ≡ head.now → AreUsed volume used.now → AddsUnmet 14 (free_wants volume) out.old out.new }
{
    let wanted = (head.total_blocks as u64).saturating_sub(used.count() as u64);
    judge_wants(
        14,
        &[Want {
            place: 48,
            found: head.free_blocks as u64,
            wanted,
        }],
        out,
    )
}
