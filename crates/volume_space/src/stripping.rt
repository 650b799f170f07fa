//! An attribute of a file that lost its last name, dropped.
ghost use Rattle.std.specs.Prelude.{◌≡◌, ◌≤◌, ◌+◌, ℕ, true, false, Option, Some, IsTrue, IfOk, IfSome, length, List, OnOk};
ghost use Rattle.alloc_bitmap.specs.Map.{free_of, none};
ghost use Rattle.flag_rows.specs.Bits.{sectors_for};
ghost use Rattle.attributes.specs.Owned.{names_of};
ghost use Rattle.btree_file.specs.Standing.{numbers_of};
ghost use Rattle.hfs_volume.specs.Content.{has_attributes, records_of, volume_of};
ghost use Rattle.hfs_volume.specs.Cost.{cost_of};
ghost use Rattle.hfs_volume.specs.Links.{orphans_of};
ghost use Rattle.hfs_volume.specs.Reclaim.{DropAttribute, has_surplus_left, least, next_reclaim};
ghost use Rattle.hfs_volume.specs.Weight.{room_with, value_change};
ghost use Rattle.volume_runs.specs.Rest.{IsHeldUp};
ghost use Rattle.volume_base.specs.Attributing.{HasRoomForValue};
ghost use Rattle.volume_base.specs.Frame.{Edits, Looked, Serves};
ghost use Rattle.volume_base.specs.Keeping.{shrunk_of};
ghost use Rattle.volume_base.specs.Lists.{lists_of};
ghost use Rattle.volume_space.specs.Orphans.{AffordsStep, BaresWaiting, TidiesAs, bare_edits, PutsNext, strip_load};
ghost use Rattle.volume_base.specs.Frame.{Frees};
ghost use Rattle.volume_base.specs.Orphans.{IsFirstName, is_blockless};
ghost use Rattle.volume_base.specs.Room.{capacity_of, free_in};
ghost use Rattle.volume_base.specs.Weighing.{AreUsual, needs_valued};
ghost use Rattle.volume_base.specs.declared.room.FreeBlocks.TheVariants as blocks;
ghost use Rattle.volume_base.specs.Standing.{IsSettled};

use crate::orphans::is_blockless;
use crate::tidying::{Tidying, grows_none, is_refused};
use crate::trimming::tidy_blocks;
use hfs_volume::{
    Cost, ValueChange, reclaim_drops_an_attribute, reclaim_drops_attributes_of_orphans,
    reclaim_drops_entries_of_bare_orphans,
};
use hx_bytes::{OutOfMemory, Trouble, Units};
use sector_disk::SectorSpace;
use std::alloc::Global;
use tree_weights::{edits_have_room, edits_take_their_load};
use volume_base::{Entry, FreeBlocks, Volume, copy_name};

/// The first of these names, if there is one.
fn first_name(alloc: Global, names: &[Units]) -> Result<Option<Units>, OutOfMemory>
    ensures { IfOk result (λ found. IfSome found (λ name. IsFirstName name names.now)) }
{
    if names.is_empty() {
        return Ok(None);
    }
    let name = copy_name(alloc, &names[0])?;
    Ok(Some(name))
}

/// The name of a file's first attribute, where it has no blocks.
fn first_owned<P: SectorSpace>(
    volume: &mut Volume,
    alloc: Global,
    space: &mut P,
    id: u32,
    entry: &Entry,
) -> Result<Option<Units>, Trouble>
    requires serves { Serves volume.old (P.SectorView.space space.old) }
    ensures first { IsTrue (P.SectorView.space space.old).tells
        → IfOk result (λ found. IfSome found (λ name. (is_blockless entry.now.rec ≡ true) × IsFirstName name (names_of id (lists_of volume.old (P.SectorView.space space.old).content).attribute_pairs))) }
    ensures looked { Looked P.SectorView.space P.SectorView.follows volume.old volume.new space.old space.new result }
    ensures serves { Serves volume.new (P.SectorView.space space.new) }
{
    if !is_blockless(&entry.rec) {
        return Ok(None);
    }
    let owned = volume.list_attributes(alloc, space, id)?;
    let name = first_name(alloc, owned.as_slice())?;
    Ok(name)
}

/// The name of the first attribute of the file with the least CNID of those that wait, where it has no blocks.
pub(crate) fn next_owned<P: SectorSpace>(
    volume: &mut Volume,
    alloc: Global,
    space: &mut P,
    id: u32,
) -> Result<Option<Units>, Trouble>
    requires serves { Serves volume.old (P.SectorView.space space.old) }
    requires lowest { IsTrue (P.SectorView.space space.old).tells → least (orphans_of (records_of (volume_of (P.SectorView.space space.old).content))) ≡ Some id }
    ensures found { IsTrue (P.SectorView.space space.old).tells → (shrunk : Option ℕ) → has_surplus_left (volume_of (P.SectorView.space space.old).content) shrunk ≡ false → IfOk result (λ found. IfSome found (λ name. next_reclaim (volume_of (P.SectorView.space space.old).content) shrunk ≡ Some (DropAttribute id name))) }
    ensures looked { Looked P.SectorView.space P.SectorView.follows volume.old volume.new space.old space.new result }
    ensures serves { Serves volume.new (P.SectorView.space space.new) }
{
    reclaim_drops_entries_of_bare_orphans();
    match volume.entry(alloc, space, id)? {
        Some(entry) => first_owned(volume, alloc, space, id, &entry),
        None => Ok(None),
    }
}

/// What the drop of an attribute with this change of its value costs where all free blocks may be taken.
pub(crate) fn cost_of_bare<P: SectorSpace>(volume: &Volume, space: &P, change: ValueChange) -> Cost
    requires serves { Serves volume.now (P.SectorView.space space.now) }
    requires has { IsTrue (has_attributes volume.now.header) }
    requires small { IsTrue (P.SectorView.space space.now).tells → AreUsual 1 change }
    ensures { IsTrue (P.SectorView.space space.now).tells → result ≡ cost_of (needs_valued (free_in blocks.All volume.now.map) bare_edits change) (room_with (capacity_of volume.now) (free_in blocks.All volume.now.map) (volume_of (P.SectorView.space space.now).content)) }
{
    let edits = volume_base::Edits {
        ids: 0,
        catalog: 0,
        attributes: 1,
        updates: 1,
    };
    volume.cost_of_values(space, FreeBlocks::All, edits, change)
}

/// Whether something is missing for the drop of an attribute with this change of its value.
fn lacks_bare<P: SectorSpace>(volume: &Volume, space: &P, change: ValueChange) -> bool
    requires serves { Serves volume.now (P.SectorView.space space.now) }
    requires has { IsTrue (has_attributes volume.now.header) }
    requires small { IsTrue (P.SectorView.space space.now).tells → AreUsual 1 change }
    ensures held_up { IsTrue (P.SectorView.space space.now).tells → IsTrue result → (id : ℕ) (name : List ℕ) → change ≡ value_change (volume_of (P.SectorView.space space.now).content) id name 0 → IsHeldUp (capacity_of volume.now) (volume_of (P.SectorView.space space.now).content) (DropAttribute id name) }
{
    is_refused(cost_of_bare(volume, space, change))
}

/// Whether all free blocks suffice for the drop of an attribute with this change of its value, and no tree has to grow for it.
fn affords_bare<P: SectorSpace>(volume: &Volume, space: &P, change: ValueChange) -> bool
    requires serves { Serves volume.now (P.SectorView.space space.now) }
    requires has { IsTrue (has_attributes volume.now.header) }
    requires small { IsTrue (P.SectorView.space space.now).tells → AreUsual 1 change }
    ensures affords { IsTrue (P.SectorView.space space.now).tells → IsTrue result → (id : ℕ) (name : List ℕ) → change ≡ value_change (volume_of (P.SectorView.space space.now).content) id name 0 → AffordsStep (capacity_of volume.now) (P.SectorView.space space.now).content (DropAttribute id name) }
{
    grows_none(cost_of_bare(volume, space, change))
}

/// How many records an attribute with this change of its value has.
fn count_records(change: ValueChange) -> u32
    requires usual { AreUsual 1 change }
    ensures { result ≡ 1 + change.records }
{
    1 + change.records as u32
}

/// Drops an attribute of a file that waits to be removed, and gives the blocks of its value back. The volume is settled again, and its tree is as it
/// was.
fn strip<P: SectorSpace>(
    volume: &mut Volume,
    alloc: Global,
    space: &mut P,
    id: u32,
    name: &Units,
    change: ValueChange,
) -> Result<(), Trouble>
    requires serves { Serves volume.old (P.SectorView.space space.old) }
    requires unchanged { volume.old.map.changed ≡ none (sectors_for (length volume.old.map.used)) }
    requires has { IsTrue (has_attributes volume.old.header) }
    requires size { 4096 ≤ (numbers_of volume.old.attributes.file).node_size }
    requires name { length name.now ≤ 127 }
    requires waits { IsTrue (P.SectorView.space space.old).tells → next_reclaim (volume_of (P.SectorView.space space.old).content) (shrunk_of volume.old) ≡ Some (DropAttribute id name.now) }
    requires change { IsTrue (P.SectorView.space space.old).tells → change ≡ value_change (volume_of (P.SectorView.space space.old).content) id name.now 0 }
    requires usual { AreUsual 1 change }
    requires room { HasRoomForValue 1 change volume.old (P.SectorView.space space.old) }
    ensures does { IsTrue (P.SectorView.space space.old).tells
        → OnOk result (IsSettled volume.new (P.SectorView.space space.new).content × ((waiting : BaresWaiting (shrunk_of volume.old) (P.SectorView.space space.old).content (P.SectorView.space space.new).content) × (waiting.id ≡ id) × (waiting.name ≡ name.now))) }
    ensures spent { IsTrue (P.SectorView.space space.old).tells → (P.SectorView.space space.old).spare ≤ (P.SectorView.space space.new).spare + strip_load change volume.old }
    ensures frees { Frees P.SectorView.space P.SectorView.follows volume.old volume.new space.old space.new result }
{
    reclaim_drops_an_attribute();
    reclaim_drops_attributes_of_orphans();
    edits_have_room();
    edits_take_their_load();
    let old = volume.delete(alloc, space, id, name, count_records(change))?;
    volume.trade_blocks(alloc, space, &old, 0)?;
    Ok(())
}

/// Drops an attribute of a file that waits, where nothing is missing for it with this change of its value.
fn strip_now<P: SectorSpace>(
    volume: &mut Volume,
    alloc: Global,
    space: &mut P,
    id: u32,
    name: &Units,
    change: ValueChange,
) -> Result<Tidying, Trouble>
    requires serves { Serves volume.old (P.SectorView.space space.old) }
    requires has { IsTrue (has_attributes volume.old.header) }
    requires size { 4096 ≤ (numbers_of volume.old.attributes.file).node_size }
    requires name { length name.now ≤ 127 }
    requires waits { IsTrue (P.SectorView.space space.old).tells → next_reclaim (volume_of (P.SectorView.space space.old).content) (shrunk_of volume.old) ≡ Some (DropAttribute id name.now) }
    requires change { IsTrue (P.SectorView.space space.old).tells → change ≡ value_change (volume_of (P.SectorView.space space.old).content) id name.now 0 }
    requires usual { AreUsual 1 change }
    ensures tidied { IsTrue (P.SectorView.space space.old).tells → IfOk result (λ came. TidiesAs came (capacity_of volume.old) (shrunk_of volume.old) (free_of volume.old.map) (P.SectorView.space space.old).spare (P.SectorView.space space.old).content (P.SectorView.space space.new).content) }
    ensures spent { IsTrue (P.SectorView.space space.old).tells → PutsNext (capacity_of volume.old) (shrunk_of volume.old) (volume_of (P.SectorView.space space.old).content) (P.SectorView.space space.old).spare (P.SectorView.space space.new).spare }
    ensures frees { Frees P.SectorView.space P.SectorView.follows volume.old volume.new space.old space.new result }
    ensures serves { OnOk result (Serves volume.new (P.SectorView.space space.new)) }
{
    if lacks_bare(volume, space, change) {
        return Ok(Tidying::Rest);
    }
    // A tree that had to grow for it has grown before.
    if !affords_bare(volume, space, change) {
        return Err(Trouble::Memory);
    }
    if !volume.fits_value(space, 1, change) {
        return Ok(Tidying::CommitFirst);
    }
    volume.keep();
    strip(volume, alloc, space, id, name, change)?;
    Ok(Tidying::Made)
}

/// Drops an attribute of a file that waits, where nothing is missing for it.
fn tidy_attribute<P: SectorSpace>(
    volume: &mut Volume,
    alloc: Global,
    space: &mut P,
    id: u32,
    name: &Units,
) -> Result<Tidying, Trouble>
    requires serves { Serves volume.old (P.SectorView.space space.old) }
    requires waits { IsTrue (P.SectorView.space space.old).tells → next_reclaim (volume_of (P.SectorView.space space.old).content) (shrunk_of volume.old) ≡ Some (DropAttribute id name.now) }
    ensures tidied { IsTrue (P.SectorView.space space.old).tells → IfOk result (λ came. TidiesAs came (capacity_of volume.old) (shrunk_of volume.old) (free_of volume.old.map) (P.SectorView.space space.old).spare (P.SectorView.space space.old).content (P.SectorView.space space.new).content) }
    ensures spent { IsTrue (P.SectorView.space space.old).tells → PutsNext (capacity_of volume.old) (shrunk_of volume.old) (volume_of (P.SectorView.space space.old).content) (P.SectorView.space space.old).spare (P.SectorView.space space.new).spare }
    ensures frees { Frees P.SectorView.space P.SectorView.follows volume.old volume.new space.old space.new result }
    ensures serves { OnOk result (Serves volume.new (P.SectorView.space space.new)) }
{
    // No name is longer (TN1150, "Attributes File").
    if name.len() > 127 {
        return Err(Trouble::Memory);
    }
    if volume.header.attributes_fork.logical_size == 0 {
        return Err(Trouble::Memory);
    }
    // The least node size that the format allows the attributes file (TN1150, "Attributes File").
    if volume.attributes.file.shape().node_size < 4096 {
        return Err(Trouble::Memory);
    }
    let change = volume.value_change(alloc, space, id, name, 0)?;
    strip_now(volume, alloc, space, id, name, change)
}

/// The next step for the file with the least CNID of those that wait, which has attributes or blocks.
pub(crate) fn tidy_owner<P: SectorSpace>(
    volume: &mut Volume,
    alloc: Global,
    space: &mut P,
    id: u32,
) -> Result<Tidying, Trouble>
    requires serves { Serves volume.old (P.SectorView.space space.old) }
    requires lowest { IsTrue (P.SectorView.space space.old).tells → least (orphans_of (records_of (volume_of (P.SectorView.space space.old).content))) ≡ Some id }
    requires kept { IsTrue (P.SectorView.space space.old).tells → has_surplus_left (volume_of (P.SectorView.space space.old).content) (shrunk_of volume.old) ≡ false }
    ensures tidied { IsTrue (P.SectorView.space space.old).tells → IfOk result (λ came. TidiesAs came (capacity_of volume.old) (shrunk_of volume.old) (free_of volume.old.map) (P.SectorView.space space.old).spare (P.SectorView.space space.old).content (P.SectorView.space space.new).content) }
    ensures spent { IsTrue (P.SectorView.space space.old).tells → PutsNext (capacity_of volume.old) (shrunk_of volume.old) (volume_of (P.SectorView.space space.old).content) (P.SectorView.space space.old).spare (P.SectorView.space space.new).spare }
    ensures frees { Frees P.SectorView.space P.SectorView.follows volume.old volume.new space.old space.new result }
    ensures serves { OnOk result (Serves volume.new (P.SectorView.space space.new)) }
{
    match next_owned(volume, alloc, space, id)? {
        Some(name) => tidy_attribute(volume, alloc, space, id, &name),
        None => tidy_blocks(volume, alloc, space, id),
    }
}
