//! The attribute date of what a command did something to.
ghost use Rattle.std.specs.Prelude.{ℕ, ◌≡◌, ◌+◌, Some, false, IsTrue, OnOk};
ghost use Rattle.cat_records.specs.Fits.{FitsRecord};
ghost use Rattle.hfs_volume.specs.Entries.{AreThreaded};
ghost use Rattle.hfs_volume.specs.Records.{id_in, is_thread};
ghost use Rattle.volume_names.specs.Changing.{DatesEntry, HasEntry};
ghost use Rattle.volume_base.specs.Changing.{HasRoomToUpdate, HasRoomToUpdates, catalog_node};
ghost use Rattle.volume_base.specs.Frame.{Edits, MayUpdate};
ghost use Rattle.volume_base.specs.Lists.{lists_of};
ghost use Rattle.volume_base.specs.Standing.{StandsOver};

use crate::fields::dated;
use hx_bytes::Trouble;
use sector_disk::SectorSpace;
use std::alloc::Global;
use volume_base::{Entry, Volume};

/// Dates a folder or file that was found.
fn put_dated<P: SectorSpace>(
    volume: &mut Volume,
    alloc: Global,
    space: &mut P,
    entry: &Entry,
) -> Result<(), Trouble>
    requires ready { MayUpdate volume.old entry.now (P.SectorView.space space.old) }
    requires fits { is_thread entry.now.rec ≡ false → FitsRecord entry.now.rec }
    ensures dates { IsTrue (P.SectorView.space space.old).tells → is_thread entry.now.rec ≡ false → OnOk result (DatesEntry (id_in entry.now.rec) volume.old volume.new (P.SectorView.space space.old).content (P.SectorView.space space.new).content) }
    ensures edits { Edits P.SectorView.space P.SectorView.follows (catalog_node volume.old) volume.old volume.new space.old space.new result }
    // What is left of the room for so many updates suffices for the others.
    ensures room { (many : ℕ) → HasRoomToUpdates (many + 1) volume.old (P.SectorView.space space.old) → OnOk result (HasRoomToUpdates many volume.new (P.SectorView.space space.new)) }
{
    let Some(rec) = dated(volume.header.modify_date, &entry.rec) else {
        return Ok(());
    };
    volume.replace(alloc, space, entry, &rec)
}

/// Says of the folder or file with a CNID that something was done to it at the volume's moment, but not to what it
/// holds. The volume stands as before, with this one change of its catalog.
pub(crate) fn date<P: SectorSpace>(
    volume: &mut Volume,
    alloc: Global,
    space: &mut P,
    id: u32,
) -> Result<(), Trouble>
    requires stands { StandsOver volume.old (P.SectorView.space space.old) }
    requires threads { IsTrue (P.SectorView.space space.old).tells → AreThreaded (lists_of volume.old (P.SectorView.space space.old).content).catalog_pairs }
    requires there { IsTrue (P.SectorView.space space.old).tells → HasEntry id (lists_of volume.old (P.SectorView.space space.old).content).catalog_pairs }
    requires room { HasRoomToUpdate volume.old (P.SectorView.space space.old) }
    ensures dates { IsTrue (P.SectorView.space space.old).tells → OnOk result (DatesEntry id volume.old volume.new (P.SectorView.space space.old).content (P.SectorView.space space.new).content) }
    ensures edits { Edits P.SectorView.space P.SectorView.follows (catalog_node volume.old) volume.old volume.new space.old space.new result }
    // What is left of the room for so many updates suffices for the others.
    ensures room { (many : ℕ) → HasRoomToUpdates (many + 1) volume.old (P.SectorView.space space.old) → OnOk result (HasRoomToUpdates many volume.new (P.SectorView.space space.new)) }
{
    match volume.entry(alloc, space, id)? {
        Some(entry) => put_dated(volume, alloc, space, &entry),
        None => Ok(()),
    }
}
