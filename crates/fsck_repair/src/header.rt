//! The volume header and its copy, with what they count.
ghost use Rattle.std.specs.Prelude.{◌≡◌, ◌<◌, ◌-◌, ℕ, length, not, true, IsTrue, OnOk, IsErrOf};
ghost use Rattle.hx_bytes.specs.declared.faults.Trouble.TheVariants.{Disk};
ghost use Rattle.hx_bytes.specs.Field.{big};
ghost use Rattle.sector_disk.specs.Cause.{Rose, HasCause};
ghost use Rattle.jnl_format.specs.Recovery.{Content, sector};
ghost use Rattle.volume_header.specs.Refusal.{is_volume_size};
ghost use Rattle.btree_file.specs.Frame.{ReadsSpace};
ghost use Rattle.fsck_core.specs.Shown.{Shows};
ghost use Rattle.volume_repair.specs.Recount.{agrees, with_word};
ghost use Rattle.fsck_repair.specs.Changing.{Notes};
ghost use Rattle.fsck_repair.specs.Counted.{IsHeaderSector, HasNumbers, HasHeaders};

use crate::mend::Change;
use crate::noting::note;
use crate::numbers::Numbers;
use fsck_core::Headers;
use hx_bytes::{Failed, Sector, Trouble, write_be32};
use sector_disk::SectorView;
use volume_header::VolumeHeader;

/// Puts numbers into the sector of a volume header (TN1150, "Volume Header").
pub(crate) fn write_numbers(sector: &mut Sector, numbers: Numbers)
    ensures { sector.new ≡ with_word 32 numbers.files (with_word 36 numbers.folders (with_word 48 numbers.free sector.old)) }
{
    write_be32(sector.as_mut_slice(), 48, numbers.free);
    write_be32(sector.as_mut_slice(), 36, numbers.folders);
    write_be32(sector.as_mut_slice(), 32, numbers.files);
}

/// Whether the alternate header agrees in what the volume is.
pub(crate) fn agrees(head: &VolumeHeader, alternate: &VolumeHeader) -> bool
    ensures { result ≡ agrees head.now alternate.now }
{
    alternate.signature == head.signature
        && (alternate.version == head.version
            && (alternate.block_size == head.block_size
                && alternate.total_blocks == head.total_blocks))
}

/// Reads a sector of a view.
fn read_at<V: SectorView>(view: &mut V, at: u64, into: &mut Sector) -> Result<(), Failed>
    requires { at < (V.space view.old).sectors }
    ensures value { IsTrue (V.space view.old).tells → OnOk result (into.new ≡ sector (V.space view.old).content at) }
    ensures reads { ReadsSpace (V.space view.old) (V.space view.new) }
    ensures below { V.follows view.old view.new }
    ensures cause { HasCause (V.space view.old).faults (V.space view.new).faults result }
{
    view.get(at, into)
}

/// Notes what changes in the header's sector, and in that of its copy where it doesn't agree.
pub(crate) fn mend_headers<V: SectorView>(
    view: &mut V,
    headers: &Headers,
    numbers: Numbers,
    changes: &mut Vec<Change>,
) -> Result<(), Trouble>
    requires size { is_volume_size (V.space view.old).sectors ≡ true }
    ensures notes { (content : Content) → Shows (V.space view.old) content → HasHeaders content headers.now → HasNumbers content numbers
        → OnOk result (Notes content (IsHeaderSector content) changes.old.items changes.new.items) }
    ensures reads { ReadsSpace (V.space view.old) (V.space view.new) }
    ensures below { V.follows view.old view.new }
    ensures disk { IsErrOf result Disk → Rose (V.space view.old).faults (V.space view.new).faults }
{
    let mut old = [0; 512];
    read_at(view, 2, &mut old)?;
    let mut new = old;
    write_numbers(&mut new, numbers);
    note(changes, 2, &old, &new)?;
    if agrees(&headers.head, &headers.alternate) {
        return Ok(());
    }
    let last = view.sectors() - 2;
    read_at(view, last, &mut old)?;
    note(changes, last, &old, &new)?;
    Ok(())
}
