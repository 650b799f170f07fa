//! The entry of a file that lost its last name, dropped from the private folder.
ghost use Rattle.std.specs.Prelude.{◌≤◌, ◌+◌, IsTrue, length, OnOk};
ghost use Rattle.btree_file.specs.Standing.{numbers_of};
ghost use Rattle.volume_base.specs.Frame.{Edits, Serves};
ghost use Rattle.volume_base.specs.Changing.{HasRoomToUpdate};
ghost use Rattle.volume_base.specs.Keeping.{shrunk_of};
ghost use Rattle.volume_base.specs.Making.{entry_load};
ghost use Rattle.volume_space.specs.Orphans.{DropsFile, DropsWaiting, IsToDrop};
ghost use Rattle.volume_base.specs.Removing.{HasRoomToRemove, remove_load};
ghost use Rattle.volume_base.specs.Standing.{IsSettled};

use hfs_volume::{header_may_change, reclaim_drops_an_entry, soundness_has_two_halves};
use hx_bytes::Trouble;
use sector_disk::SectorSpace;
use std::alloc::Global;
use tree_weights::{edits_have_room, edits_take_their_load};
use volume_base::{Entry, Volume};

/// Removes a file's entry from the private folder, and counts the file off.
fn take_out<P: SectorSpace>(
    volume: &mut Volume,
    alloc: Global,
    space: &mut P,
    entry: &Entry,
) -> Result<(), Trouble>
    requires serves { Serves volume.old (P.SectorView.space space.old) }
    requires size { 4096 ≤ (numbers_of volume.old.catalog.file).node_size }
    requires some { 1 ≤ length entry.now.name }
    requires name { length entry.now.name ≤ 255 }
    requires waits { IsTrue (P.SectorView.space space.old).tells → IsToDrop (shrunk_of volume.old) (P.SectorView.space space.old).content entry.now }
    requires room { HasRoomToRemove volume.old (P.SectorView.space space.old) }
    ensures drops { IsTrue (P.SectorView.space space.old).tells → OnOk result (DropsFile entry.now.parent entry.now.name volume.old volume.new (P.SectorView.space space.old).content (P.SectorView.space space.new).content) }
    ensures room { OnOk result (HasRoomToUpdate volume.new (P.SectorView.space space.new)) }
    ensures edits { Edits P.SectorView.space P.SectorView.follows (1 + entry_load volume.old) volume.old volume.new space.old space.new result }
{
    edits_have_room();
    edits_take_their_load();
    volume.count_file_off(space);
    volume.remove(alloc, space, entry.parent, &entry.name)?;
    Ok(())
}

/// Drops the entry of a file that waits to be removed. The volume is settled again, and its tree is as it was.
pub(crate) fn drop_waiting<P: SectorSpace>(
    volume: &mut Volume,
    alloc: Global,
    space: &mut P,
    entry: &Entry,
) -> Result<(), Trouble>
    requires serves { Serves volume.old (P.SectorView.space space.old) }
    requires size { 4096 ≤ (numbers_of volume.old.catalog.file).node_size }
    requires some { 1 ≤ length entry.now.name }
    requires name { length entry.now.name ≤ 255 }
    requires waits { IsTrue (P.SectorView.space space.old).tells → IsToDrop (shrunk_of volume.old) (P.SectorView.space space.old).content entry.now }
    requires room { HasRoomToRemove volume.old (P.SectorView.space space.old) }
    ensures does { IsTrue (P.SectorView.space space.old).tells
        → OnOk result (IsSettled volume.new (P.SectorView.space space.new).content × DropsWaiting (shrunk_of volume.old) (P.SectorView.space space.old).content (P.SectorView.space space.new).content) }
    ensures edits { Edits P.SectorView.space P.SectorView.follows (remove_load volume.old) volume.old volume.new space.old space.new result }
{
    reclaim_drops_an_entry();
    soundness_has_two_halves();
    header_may_change();
    take_out(volume, alloc, space, entry)?;
    volume.touch(alloc, space, entry.parent, 0, 1)
}
