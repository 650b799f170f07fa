//! The allocation file, with a bit for each block that is used.
ghost use Rattle.std.specs.Prelude.{◌≡◌, ◌≤◌, ◌<◌, ◌*◌, ◌^◌, ℕ, length, false, slice_index_or, slice_get, Some, OnOk, IsErrOf};
ghost use Rattle.hx_bytes.specs.declared.faults.Trouble.TheVariants.{Disk};
ghost use Rattle.fork_map.specs.Blocks.{fork_sectors};
ghost use Rattle.sector_disk.specs.Cause.{Rose};
ghost use Rattle.jnl_format.specs.Recovery.{Content};
ghost use Rattle.btree_file.specs.Frame.{ReadsSpace};
ghost use Rattle.hfs_volume.specs.Broken.{bit};
ghost use Rattle.fsck_core.specs.Shown.{Shows};
ghost use Rattle.volume_repair.specs.Repair.{byte_of_bits};
ghost use Rattle.fsck_repair.specs.Changing.{Notes};
ghost use Rattle.fsck_repair.specs.Counted.{IsSkipped, IsPlain};
ghost use Rattle.fsck_repair.specs.Bitmap.{bits_written, IsPlainPlace, MendsBitmap};

use crate::mend::Change;
use crate::noting::note;
use crate::skipped::Skipped;
use fork_map::SummedFork;
use fsck_list::Marks;
use hx_bytes::{Sector, Trouble};
use sector_disk::SectorView;

/// The byte behind all that have the bit of a block.
const BYTES: u64 = 536_870_912;

/// A bit of a byte.
fn weight(set: bool, value: u8) -> u8
    ensures { result ≡ value * bit set }
{
    if set { value } else { 0 }
}

/// The byte of the bits of eight blocks, of which the first has the highest.
fn byte_of(used: &Marks, byte: u64) -> u8
    ensures { length used.now ≤ 2 ^ 32 → result ≡ byte_of_bits (λ k. slice_index_or used.now k false) byte }
{
    if byte >= BYTES {
        return 0;
    }
    let first = byte as u32 * 8;
    weight(used.has(first), 128)
        + weight(used.has(first + 1), 64)
        + weight(used.has(first + 2), 32)
        + weight(used.has(first + 3), 16)
        + weight(used.has(first + 4), 8)
        + weight(used.has(first + 5), 4)
        + weight(used.has(first + 6), 2)
        + weight(used.has(first + 7), 1)
}

/// The sector at a place of the allocation file, which has so many bytes: those behind them stay.
fn write_bits(sector: &mut Sector, used: &Marks, size: u64, place: u64)
    requires inside { place * 512 < size }
    ensures { length used.now ≤ 2 ^ 32 → sector.new ≡ bits_written (λ k. slice_index_or used.now k false) size place sector.old }
{
    let first = place * 512;
    let room = size - first;
    for i in 0..512 {
        if (i as u64) < room {
            sector[i] = byte_of(used, first + i as u64);
        }
    }
}

/// Notes what changes in a sector of the allocation file.
fn mend_bits<V: SectorView>(
    view: &mut V,
    used: &Marks,
    size: u64,
    place: u64,
    at: u64,
    changes: &mut Vec<Change>,
) -> Result<(), Trouble>
    requires inside { place * 512 < size }
    requires there { at < (V.space view.old).sectors }
    ensures notes { (content : Content) → length used.now ≤ 2 ^ 32 → Shows (V.space view.old) content → MendsBitmap content (λ k. slice_index_or used.now k false) size place at
        → OnOk result (Notes content (λ s. s ≡ at) changes.old.items changes.new.items) }
    ensures reads { ReadsSpace (V.space view.old) (V.space view.new) }
    ensures below { V.follows view.old view.new }
    ensures disk { IsErrOf result Disk → Rose (V.space view.old).faults (V.space view.new).faults }
{
    let mut old = [0; 512];
    view.get(at, &mut old)?;
    let mut new = old;
    write_bits(&mut new, used, size, place);
    note(changes, at, &old, &new)?;
    Ok(())
}

/// Notes what changes in the sector at a place of the allocation file, if the volume has it and it isn't skipped.
fn mend_place<V: SectorView>(
    view: &mut V,
    used: &Marks,
    size: u64,
    place: u64,
    at: u64,
    skipped: Skipped,
    changes: &mut Vec<Change>,
) -> Result<(), Trouble>
    requires inside { place * 512 < size }
    ensures notes { (content : Content) → length used.now ≤ 2 ^ 32 → Shows (V.space view.old) content → IsSkipped content skipped → (IsPlain content at → MendsBitmap content (λ k. slice_index_or used.now k false) size place at)
        → OnOk result (Notes content (λ s. (s ≡ at) × IsPlain content s) changes.old.items changes.new.items) }
    ensures reads { ReadsSpace (V.space view.old) (V.space view.new) }
    ensures below { V.follows view.old view.new }
    ensures disk { IsErrOf result Disk → Rose (V.space view.old).faults (V.space view.new).faults }
{
    if at >= view.sectors() {
        return Ok(());
    }
    if skipped.has(at) {
        return Ok(());
    }
    mend_bits(view, used, size, place, at, changes)
}

/// Notes what changes in the allocation file, which has so many bytes. The sectors that are skipped are none of its.
pub(crate) fn mend_bitmap<V: SectorView>(
    view: &mut V,
    fork: &SummedFork,
    per_block: u32,
    size: u64,
    used: &Marks,
    skipped: Skipped,
    changes: &mut Vec<Change>,
) -> Result<(), Trouble>
    requires per_block { per_block ≤ 2 ^ 23 }
    ensures notes { (content : Content) → length used.now ≤ 2 ^ 32 → Shows (V.space view.old) content → IsSkipped content skipped
        → ((place at : ℕ) → place * 512 < size → slice_get (fork_sectors fork.now per_block) place ≡ Some at → IsPlain content at → MendsBitmap content (λ k. slice_index_or used.now k false) size place at)
        → OnOk result (Notes content (IsPlainPlace content size (fork_sectors fork.now per_block)) changes.old.items changes.new.items) }
    ensures reads { ReadsSpace (V.space view.old) (V.space view.new) }
    ensures below { V.follows view.old view.new }
    ensures disk { IsErrOf result Disk → Rose (V.space view.old).faults (V.space view.new).faults }
{
    for place in 0..size.div_ceil(512) {
        let Some(at) = fork.sector_at(per_block, place) else {
            return Ok(());
        };
        mend_place(view, used, size, place, at, skipped, changes)?;
    }
    Ok(())
}
