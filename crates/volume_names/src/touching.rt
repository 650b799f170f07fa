//! The folder above what a command removes, and the room that its count leaves for edits.
ghost use Rattle.std.specs.Prelude.{ℕ, ◌≡◌, ◌+◌, IsTrue, OnOk};
ghost use Rattle.btree_file.specs.Standing.{numbers_of};
ghost use Rattle.hfs_volume.specs.Entries.{AreThreaded};
ghost use Rattle.volume_base.specs.Changing.{HasFolder, HasRoomToUpdate, HasRoomToUpdates, TouchesFolder, catalog_node};
ghost use Rattle.volume_base.specs.Frame.{Edits};
ghost use Rattle.volume_base.specs.Lists.{lists_of};
ghost use Rattle.volume_base.specs.Standing.{StandsOver};
ghost use Rattle.volume_names.specs.EditsLeft.{LeavesBeside};

use hx_bytes::Trouble;
use sector_disk::SectorSpace;
use std::alloc::Global;
use volume_base::Volume;

/// Lets the folder with a CNID count so many entries more, and so many less, at the volume's moment. The volume stands as
/// before, with this one change of its catalog.
pub(crate) fn touch<P: SectorSpace>(
    volume: &mut Volume,
    alloc: Global,
    space: &mut P,
    id: u32,
    up: u32,
    down: u32,
) -> Result<(), Trouble>
    requires stands { StandsOver volume.old (P.SectorView.space space.old) }
    requires threads { IsTrue (P.SectorView.space space.old).tells → AreThreaded (lists_of volume.old (P.SectorView.space space.old).content).catalog_pairs }
    requires there { IsTrue (P.SectorView.space space.old).tells → HasFolder id up (lists_of volume.old (P.SectorView.space space.old).content).catalog_pairs }
    requires room { HasRoomToUpdate volume.old (P.SectorView.space space.old) }
    ensures counts { IsTrue (P.SectorView.space space.old).tells → OnOk result (TouchesFolder id up down volume.old volume.new (P.SectorView.space space.old).content (P.SectorView.space space.new).content) }
    ensures edits { Edits P.SectorView.space P.SectorView.follows (catalog_node volume.old) volume.old volume.new space.old space.new result }
    // What is left of the room for so many updates suffices for the others; edits that had room beside a node have it still.
    ensures room { (many : ℕ) → HasRoomToUpdates (many + 1) volume.old (P.SectorView.space space.old) → OnOk result (HasRoomToUpdates many volume.new (P.SectorView.space space.new)) }
    ensures left { OnOk result (LeavesBeside volume.old (P.SectorView.space space.old) volume.new (P.SectorView.space space.new)) }
    ensures size { (numbers_of volume.new.catalog.file).node_size ≡ (numbers_of volume.old.catalog.file).node_size }
{
    match volume.entry(alloc, space, id)? {
        Some(entry) => volume.put_touched(alloc, space, &entry, up, down),
        None => Ok(()),
    }
}
