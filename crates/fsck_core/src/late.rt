//! The counts and the bits of a volume (rules 11 to 14), of which each place is listed.
ghost use Rattle.std.specs.Prelude.{◌≡◌, IfOk};
ghost use Rattle.std.specs.List.Sorted.{IsNonDecreasingBy};
ghost use Rattle.hfs_volume.specs.Content.{VolumeState, records_of};
ghost use Rattle.hfs_volume.specs.Records.{entries_of};
ghost use Rattle.fsck_core.specs.Flags.{AreBits, AreUsed};
ghost use Rattle.fsck_core.specs.Passed.{Passed, IsBrokenList, ListsLate, HaveCounts};
ghost use Rattle.fsck_core.specs.Rows.{rows_of};
ghost use Rattle.fsck_core.specs.Decided.{StaysListed};

use crate::entries::{judge_counts, judge_valences};
use crate::flags::{judge_bits, judge_free};
use crate::rows::Row;
use flag_rows::Bits;
use fsck_list::{Findings, Marks};
use hx_bytes::OutOfMemory;
use volume_header::VolumeHeader;

/// Judges the valence of each folder, the numbers of files and folders, the bit of each block and the number of free ones. The rows stand in
/// the order of their parents, and the marks tell which blocks something uses.
pub(crate) fn judge_late(
    head: &VolumeHeader,
    rows: &[Row],
    flags: &Bits,
    used: &Marks,
    out: &mut Findings,
) -> Result<(), OutOfMemory>
    ensures passed { (volume : VolumeState) → head.now ≡ volume.head → rows.now ≡ rows_of (entries_of (records_of volume)) → IsNonDecreasingBy (λ row. row.parent) rows.now
        → AreBits volume flags.now → AreUsed volume used.now → IfOk result (λ _. Passed (IsBrokenList volume) (HaveCounts volume) out.old out.new) }
    ensures listed { (volume : VolumeState) → head.now ≡ volume.head → rows.now ≡ rows_of (entries_of (records_of volume)) → IsNonDecreasingBy (λ row. row.parent) rows.now
        → AreBits volume flags.now → AreUsed volume used.now → IfOk result (λ _. ListsLate volume out.new) }
    ensures still { (volume : VolumeState) → head.now ≡ volume.head → rows.now ≡ rows_of (entries_of (records_of volume)) → IsNonDecreasingBy (λ row. row.parent) rows.now
        → AreBits volume flags.now → AreUsed volume used.now → IfOk result (λ _. StaysListed out.old out.new) }
{
    judge_valences(rows, out)?;
    judge_counts(head, rows, out)?;
    judge_bits(flags, used, out)?;
    judge_free(head, used, out)?;
    Ok(())
}
