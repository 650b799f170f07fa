//! Changes that were found in a content, as they serve after a mount.
ghost use Rattle.std.specs.Prelude.{◌≡◌, ◌==◌, ◌||◌, ℕ, length, true, IsTrue, IfOk};
ghost use Rattle.std.specs.List.Sorted.{IsNonDecreasingBy};
ghost use Rattle.hx_bytes.specs.Field.{big_at};
ghost use Rattle.sector_disk.specs.Cause.{HasCause};
ghost use Rattle.sector_disk.specs.Lists.{Content};
ghost use Rattle.volume_header.specs.Header.{header_of};
ghost use Rattle.volume_header.specs.Refusal.{is_volume_size};
ghost use Rattle.btree_file.specs.Frame.{ReadsSpace};
ghost use Rattle.volume_repair.specs.Differing.{differing};
ghost use Rattle.volume_repair.specs.Remount.{with_counts_of};
ghost use Rattle.volume_repair.specs.Repair.{IsRepair};
ghost use Rattle.fsck_repair.specs.Overlay.{overlaid, places_of, ChangesOnce};
ghost use Rattle.fsck_repair.specs.Renewing.{IsMountOf, IsRenewedHeader, IsSoundRepair, with_header, with_headers};

use crate::header::write_numbers;
use crate::mend::{Change, Mend};
use crate::numbers::Numbers;
use crate::overlay::find_change;
use hx_bytes::{Failed, Sector, read_be32};
use sector_disk::SectorView;
use volume_repair::{repair_is_renewed, repair_stays_remounted};

/// The numbers in the sector of a volume header (TN1150, "Volume Header").
fn numbers_in(sector: &Sector) -> Numbers
    ensures files { result.files ≡ big_at 4 sector.now 32 }
    ensures folders { result.folders ≡ big_at 4 sector.now 36 }
    ensures free { result.free ≡ big_at 4 sector.now 48 }
{
    Numbers {
        files: read_be32(sector.as_slice(), 32),
        folders: read_be32(sector.as_slice(), 36),
        free: read_be32(sector.as_slice(), 48),
    }
}

/// Puts the counts of a volume header's sector into that of another.
fn copy_counts(from: &Sector, into: &mut Sector)
    ensures { into.new ≡ with_counts_of (header_of from.now) into.old }
{
    write_numbers(into, numbers_in(from));
}

/// Puts the counts that were found into the sector of the header as it stands now, where they changed.
fn renew_header(changes: &[Change], head: &mut Sector)
    requires { IsNonDecreasingBy (λ change. change.at) changes.now }
    ensures { IsRenewedHeader changes.now head.old head.new }
{
    let mut found = [0; 512];
    if !find_change(changes, 2, &mut found) {
        return;
    }
    copy_counts(&found, head);
}

/// Whether this is the header's sector or that of its copy.
fn is_header(at: u64, last: u64) -> bool
    ensures { result ≡ (at == 2) || (at == last) }
{
    at == 2 || at == last
}

/// A change with these bytes, where it is of the header's sector or of its copy's.
fn with_header(change: Change, last: u64, head: &Sector) -> Change
    ensures { result ≡ with_header last head.now change }
{
    let at = change.at;
    let bytes = if is_header(at, last) {
        *head
    } else {
        change.bytes
    };
    Change { at, bytes }
}

/// Gives these bytes to the changes of the header's sector and of its copy's.
fn change_headers(changes: &mut [Change], last: u64, head: &Sector)
    ensures { changes.new ≡ with_headers last head.now changes.old }
{
    for change in changes.iter_mut() {
        *change = with_header(*change, last, head);
    }
}

impl Mend {
    /// Makes the changes that were found in a content serve after a mount, which has written its version into the header and has used the journal: the header
    /// takes the counts that were found, and its copy, where it changes, is the header. All else stays as it was found. It reads the header's sector alone.
    pub fn renewed<V: SectorView>(self, view: &mut V) -> Result<Mend, Failed>
        requires { is_volume_size (V.space view.old).sectors ≡ true }
        // Through them the repair is seen.
        ensures repair { IsTrue (V.space view.old).tells → (start : Content) → IsSoundRepair start self.changes.items → IsMountOf start (V.space view.old).content
            → IfOk result (λ mend. IsRepair (V.space view.old).content (overlaid mend.changes.items (V.space view.old).content)) }
        // There are as many as differ.
        ensures differ { IsTrue (V.space view.old).tells → (start : Content) → IsSoundRepair start self.changes.items → IsMountOf start (V.space view.old).content
            → IfOk result (λ mend. length mend.changes.items ≡ differing (V.space view.old).content (overlaid mend.changes.items (V.space view.old).content)) }
        ensures once { ChangesOnce self.changes.items → IfOk result (λ mend. ChangesOnce mend.changes.items) }
        // They are of the same sectors.
        ensures places { IfOk result (λ mend. places_of mend.changes.items ≡ places_of self.changes.items) }
        ensures reads { ReadsSpace (V.space view.old) (V.space view.new) }
        ensures below { V.follows view.old view.new }
        ensures cause { HasCause (V.space view.old).faults (V.space view.new).faults result }
    {
        repair_is_renewed();
        repair_stays_remounted();
        let mut head = [0; 512];
        view.get(2, &mut head)?;
        let last = view.sectors() - 2;
        let Mend { mut changes, .. } = self;
        renew_header(changes.as_slice(), &mut head);
        change_headers(changes.as_mut_slice(), last, &head);
        Ok(Mend { changes })
    }
}
