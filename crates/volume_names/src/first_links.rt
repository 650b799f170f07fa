//! `ln` of a file with one name: what is done in the catalog, and the private folder made where there is none.
ghost use Rattle.std.specs.Prelude.{◌≡◌, ◌≤◌, ◌<◌, ◌+◌, ◌*◌, ◌^◌, ℕ, List, None, Some, IsTrue, length, OnOk};
ghost use Rattle.btree_file.specs.Standing.{numbers_of};
ghost use Rattle.hfs_language.specs.declared.command.Command.TheVariants as command;
ghost use Rattle.hfs_model.specs.Step.{step};
ghost use Rattle.hfs_model.specs.declared.plain.PlainEntry.{PlainEntry};
ghost use Rattle.hfs_volume.specs.Content.{volume_of};
ghost use Rattle.hfs_volume.specs.Links.{node_name};
ghost use Rattle.hfs_volume.specs.Naming.{LinksFirst};
ghost use Rattle.hfs_volume.specs.Records.{placed_in, record_at};
ghost use Rattle.hfs_volume.specs.TreeOf.{tree_of};
ghost use Rattle.volume_names.specs.LinkLoads.{PutsItsLoad};
ghost use Rattle.volume_base.specs.Changing.{catalog_node};
ghost use Rattle.volume_base.specs.Frame.{Edits, Serves};
ghost use Rattle.volume_base.specs.Linking.{IsLinking};
ghost use Rattle.volume_names.specs.Linking.{LinksAnew};
ghost use Rattle.volume_base.specs.Lists.{lists_of};
ghost use Rattle.volume_base.specs.Losing.{IsOnlyName};
ghost use Rattle.volume_base.specs.Making.{HasRoomToMake, free_place};
ghost use Rattle.volume_names.specs.EditsLeft.{FirstLinkFits, HasEditsLeft, IsReadyToShare, to_put_header};
ghost use Rattle.volume_base.specs.Standing.{IsSettled};

use crate::fitting::{fits_first, fits_share};
use crate::linking::link_date;
use crate::node_names::{free_number, node_name};
use crate::private_folder::open_private;
use crate::sharing::{say_two, share};
use hfs_volume::{header_may_change, ln_does_its_step, sound_has_plain_tree};
use hx_bytes::{Trouble, Units};
use sector_disk::SectorSpace;
use std::alloc::Global;
use tree_weights::edits_have_room;
use volume_base::{Route, Volume, has_sector};

/// Gives a file with one name another one: it goes to the private folder under a number that is free there. The volume is
/// settled again, and its tree has the name.
fn link_under<P: SectorSpace>(
    volume: &mut Volume,
    alloc: Global,
    space: &mut P,
    way: &Route,
    old: &Units,
    name: &Units,
    private: u32,
    node: &Units,
    number: u32,
    created: u32,
) -> Result<(), Trouble>
    requires serves { Serves volume.old (P.SectorView.space space.old) }
    requires some { 1 ≤ length name.now }
    requires name { length name.now ≤ 255 }
    requires some_old { 1 ≤ length old.now }
    requires old_name { length old.now ≤ 255 }
    requires size { 4096 ≤ (numbers_of volume.old.catalog.file).node_size }
    requires some_node { 1 ≤ length node.now }
    requires node_short { length node.now ≤ 255 }
    requires node { node.now ≡ node_name number }
    requires private { volume.old.private ≡ Some private }
    requires free { IsTrue (P.SectorView.space space.old).tells → record_at (placed_in (lists_of volume.old (P.SectorView.space space.old).content).catalog_pairs) private (node_name number) ≡ None }
    requires only { IsTrue (P.SectorView.space space.old).tells → IsOnlyName (record { parent = way.now.parent; name = old.now }) (lists_of volume.old (P.SectorView.space space.old).content).catalog_pairs }
    requires links { IsTrue (P.SectorView.space space.old).tells → (from to : List (List ℕ)) × (at : PlainEntry) × IsLinking (tree_of (P.SectorView.space space.old).content) from to at way.now.parent old.now way.now.id way.now.folder name.now }
    requires room { IsReadyToShare volume.old (P.SectorView.space space.old) }
    ensures does { IsTrue (P.SectorView.space space.old).tells → (from to : List (List ℕ)) (at : PlainEntry) → IsLinking (tree_of (P.SectorView.space space.old).content) from to at way.now.parent old.now way.now.id way.now.folder name.now
        → OnOk result (IsSettled volume.new (P.SectorView.space space.new).content × (tree_of (P.SectorView.space space.new).content ≡ (step (tree_of (P.SectorView.space space.old).content) (command.Ln from to)).1)
        × LinksFirst at (free_place way.now.folder name.now) (volume_of (P.SectorView.space space.old).content) (volume_of (P.SectorView.space space.new).content)) }
    ensures edits { Edits P.SectorView.space P.SectorView.follows (P.SectorView.space space.old).spare volume.old volume.new space.old space.new result }
    // Sectors that its edits have room beside are left, on a fault too, but for those of three updates.
    ensures leaves { IsTrue (P.SectorView.space space.old).tells → (beside : ℕ) → HasEditsLeft 7 (to_put_header (P.SectorView.space space.old) + beside) volume.old (P.SectorView.space space.old) → beside ≤ (P.SectorView.space space.new).spare + 3 * catalog_node volume.old }
{
    ln_does_its_step();
    share(
        volume, alloc, space, way, old, name, private, node, number, created,
    )?;
    volume.touch(alloc, space, private, 1, 0)?;
    say_two(volume, alloc, space, way.id)?;
    volume.touch(alloc, space, way.folder, 1, 0)
}

/// Gives a file with one name another one, where the private folder is there and the edits have room; links get this create date.
/// `Memory` is answered too where no number is free.
fn link_ready<P: SectorSpace>(
    volume: &mut Volume,
    alloc: Global,
    space: &mut P,
    way: &Route,
    old: &Units,
    name: &Units,
    private: u32,
    created: u32,
) -> Result<(), Trouble>
    requires serves { Serves volume.old (P.SectorView.space space.old) }
    requires some { 1 ≤ length name.now }
    requires name { length name.now ≤ 255 }
    requires some_old { 1 ≤ length old.now }
    requires old_name { length old.now ≤ 255 }
    requires private { volume.old.private ≡ Some private }
    requires only { IsTrue (P.SectorView.space space.old).tells → IsOnlyName (record { parent = way.now.parent; name = old.now }) (lists_of volume.old (P.SectorView.space space.old).content).catalog_pairs }
    requires links { IsTrue (P.SectorView.space space.old).tells → (from to : List (List ℕ)) × (at : PlainEntry) × IsLinking (tree_of (P.SectorView.space space.old).content) from to at way.now.parent old.now way.now.id way.now.folder name.now }
    requires ids { IsTrue (P.SectorView.space space.old).tells → volume.old.header.next_catalog_id + 2 < 2 ^ 32 }
    requires left { FirstLinkFits volume.old (P.SectorView.space space.old) }
    ensures does { IsTrue (P.SectorView.space space.old).tells → (from to : List (List ℕ)) (at : PlainEntry) → IsLinking (tree_of (P.SectorView.space space.old).content) from to at way.now.parent old.now way.now.id way.now.folder name.now
        → OnOk result (IsSettled volume.new (P.SectorView.space space.new).content × (tree_of (P.SectorView.space space.new).content ≡ (step (tree_of (P.SectorView.space space.old).content) (command.Ln from to)).1)
        × LinksFirst at (free_place way.now.folder name.now) (volume_of (P.SectorView.space space.old).content) (volume_of (P.SectorView.space space.new).content)) }
    ensures edits { Edits P.SectorView.space P.SectorView.follows (P.SectorView.space space.old).spare volume.old volume.new space.old space.new result }
    // Sectors that its edits have room beside are left, on a fault too, but for those of three updates.
    ensures leaves { IsTrue (P.SectorView.space space.old).tells → (beside : ℕ) → HasEditsLeft 7 (to_put_header (P.SectorView.space space.old) + beside) volume.old (P.SectorView.space space.old) → beside ≤ (P.SectorView.space space.new).spare + 3 * catalog_node volume.old }
{
    // The least node size that the format allows the catalog (TN1150, "Catalog File").
    if volume.catalog.file.shape().node_size < 4096 {
        return Ok(());
    }
    let number = free_number(volume, alloc, space, private, way.id)?;
    let node = node_name(alloc, number)?;
    // A space that tells has it by the room for the edits.
    if !has_sector(space.spare()) {
        return Err(Trouble::Memory);
    }
    link_under(
        volume, alloc, space, way, old, name, private, &node, number, created,
    )
}

/// Gives a file with one name another one, where the private folder is there; links get this create date. `Memory` is answered
/// too where there is no room for the edits, or no number is free.
fn link_first<P: SectorSpace>(
    volume: &mut Volume,
    alloc: Global,
    space: &mut P,
    way: &Route,
    old: &Units,
    name: &Units,
    private: u32,
    created: u32,
) -> Result<(), Trouble>
    requires serves { Serves volume.old (P.SectorView.space space.old) }
    requires some { 1 ≤ length name.now }
    requires name { length name.now ≤ 255 }
    requires some_old { 1 ≤ length old.now }
    requires old_name { length old.now ≤ 255 }
    requires private { volume.old.private ≡ Some private }
    requires only { IsTrue (P.SectorView.space space.old).tells → IsOnlyName (record { parent = way.now.parent; name = old.now }) (lists_of volume.old (P.SectorView.space space.old).content).catalog_pairs }
    requires links { IsTrue (P.SectorView.space space.old).tells → (from to : List (List ℕ)) × (at : PlainEntry) × IsLinking (tree_of (P.SectorView.space space.old).content) from to at way.now.parent old.now way.now.id way.now.folder name.now }
    ensures does { IsTrue (P.SectorView.space space.old).tells → (from to : List (List ℕ)) (at : PlainEntry) → IsLinking (tree_of (P.SectorView.space space.old).content) from to at way.now.parent old.now way.now.id way.now.folder name.now
        → OnOk result (IsSettled volume.new (P.SectorView.space space.new).content × (tree_of (P.SectorView.space space.new).content ≡ (step (tree_of (P.SectorView.space space.old).content) (command.Ln from to)).1)
        × LinksFirst at (free_place way.now.folder name.now) (volume_of (P.SectorView.space space.old).content) (volume_of (P.SectorView.space space.new).content)) }
    ensures edits { Edits P.SectorView.space P.SectorView.follows (P.SectorView.space space.old).spare volume.old volume.new space.old space.new result }
    // On a fault too, it puts no more sectors than its load names.
    ensures loads { IsTrue (P.SectorView.space space.old).tells → (from to : List (List ℕ)) (at : PlainEntry) → IsLinking (tree_of (P.SectorView.space space.old).content) from to at way.now.parent old.now way.now.id way.now.folder name.now
        → PutsItsLoad (command.Ln from to) volume.old (P.SectorView.space space.old) (P.SectorView.space space.new) }
{
    edits_have_room();
    if !fits_share(volume, space) {
        return Err(Trouble::Memory);
    }
    link_ready(volume, alloc, space, way, old, name, private, created)
}

/// The same with the create date of the private folder.
fn link_dated<P: SectorSpace>(
    volume: &mut Volume,
    alloc: Global,
    space: &mut P,
    way: &Route,
    old: &Units,
    name: &Units,
    private: u32,
) -> Result<(), Trouble>
    requires serves { Serves volume.old (P.SectorView.space space.old) }
    requires some { 1 ≤ length name.now }
    requires name { length name.now ≤ 255 }
    requires some_old { 1 ≤ length old.now }
    requires old_name { length old.now ≤ 255 }
    requires private { volume.old.private ≡ Some private }
    requires only { IsTrue (P.SectorView.space space.old).tells → IsOnlyName (record { parent = way.now.parent; name = old.now }) (lists_of volume.old (P.SectorView.space space.old).content).catalog_pairs }
    requires links { IsTrue (P.SectorView.space space.old).tells → (from to : List (List ℕ)) × (at : PlainEntry) × IsLinking (tree_of (P.SectorView.space space.old).content) from to at way.now.parent old.now way.now.id way.now.folder name.now }
    requires ids { IsTrue (P.SectorView.space space.old).tells → volume.old.header.next_catalog_id + 2 < 2 ^ 32 }
    requires left { FirstLinkFits volume.old (P.SectorView.space space.old) }
    ensures does { IsTrue (P.SectorView.space space.old).tells → (from to : List (List ℕ)) (at : PlainEntry) → IsLinking (tree_of (P.SectorView.space space.old).content) from to at way.now.parent old.now way.now.id way.now.folder name.now
        → OnOk result (IsSettled volume.new (P.SectorView.space space.new).content × (tree_of (P.SectorView.space space.new).content ≡ (step (tree_of (P.SectorView.space space.old).content) (command.Ln from to)).1)
        × LinksFirst at (free_place way.now.folder name.now) (volume_of (P.SectorView.space space.old).content) (volume_of (P.SectorView.space space.new).content)) }
    ensures edits { Edits P.SectorView.space P.SectorView.follows (P.SectorView.space space.old).spare volume.old volume.new space.old space.new result }
    // Sectors that its edits have room beside are left, on a fault too, but for those of three updates.
    ensures leaves { IsTrue (P.SectorView.space space.old).tells → (beside : ℕ) → HasEditsLeft 7 (to_put_header (P.SectorView.space space.old) + beside) volume.old (P.SectorView.space space.old) → beside ≤ (P.SectorView.space space.new).spare + 3 * catalog_node volume.old }
{
    let created = link_date(volume, alloc, space)?;
    link_ready(volume, alloc, space, way, old, name, private, created)
}

/// Gives a file with one name another one, where there is no private folder: it is made before. `Memory` is answered too where
/// there is no room for the edits of both.
fn link_anew<P: SectorSpace>(
    volume: &mut Volume,
    alloc: Global,
    space: &mut P,
    way: &Route,
    old: &Units,
    name: &Units,
) -> Result<(), Trouble>
    requires serves { Serves volume.old (P.SectorView.space space.old) }
    requires some { 1 ≤ length name.now }
    requires name { length name.now ≤ 255 }
    requires some_old { 1 ≤ length old.now }
    requires old_name { length old.now ≤ 255 }
    requires absent { volume.old.private ≡ None }
    requires only { IsTrue (P.SectorView.space space.old).tells → IsOnlyName (record { parent = way.now.parent; name = old.now }) (lists_of volume.old (P.SectorView.space space.old).content).catalog_pairs }
    requires links { IsTrue (P.SectorView.space space.old).tells → (from to : List (List ℕ)) × (at : PlainEntry) × IsLinking (tree_of (P.SectorView.space space.old).content) from to at way.now.parent old.now way.now.id way.now.folder name.now }
    requires room { HasRoomToMake volume.old (P.SectorView.space space.old) }
    ensures does { IsTrue (P.SectorView.space space.old).tells → (from to : List (List ℕ)) (at : PlainEntry) → IsLinking (tree_of (P.SectorView.space space.old).content) from to at way.now.parent old.now way.now.id way.now.folder name.now
        → OnOk result (IsSettled volume.new (P.SectorView.space space.new).content × (tree_of (P.SectorView.space space.new).content ≡ (step (tree_of (P.SectorView.space space.old).content) (command.Ln from to)).1)
        × LinksAnew at (free_place way.now.folder name.now) (P.SectorView.space space.old).content (P.SectorView.space space.new).content) }
    ensures edits { Edits P.SectorView.space P.SectorView.follows (P.SectorView.space space.old).spare volume.old volume.new space.old space.new result }
    // On a fault too, it puts no more sectors than its load names.
    ensures loads { IsTrue (P.SectorView.space space.old).tells → (from to : List (List ℕ)) (at : PlainEntry) → IsLinking (tree_of (P.SectorView.space space.old).content) from to at way.now.parent old.now way.now.id way.now.folder name.now
        → PutsItsLoad (command.Ln from to) volume.old (P.SectorView.space space.old) (P.SectorView.space space.new) }
{
    header_may_change();
    sound_has_plain_tree();
    if !fits_first(volume, space) {
        return Err(Trouble::Memory);
    }
    open_private(volume, alloc, space)?;
    match volume.private {
        Some(private) => link_dated(volume, alloc, space, way, old, name, private),
        None => Err(Trouble::Memory),
    }
}

/// Gives a file with one name another one: the first links to it. Links get this create date, where the private folder is
/// there.
pub(crate) fn link_own<P: SectorSpace>(
    volume: &mut Volume,
    alloc: Global,
    space: &mut P,
    way: &Route,
    old: &Units,
    name: &Units,
    created: u32,
) -> Result<(), Trouble>
    requires serves { Serves volume.old (P.SectorView.space space.old) }
    requires some { 1 ≤ length name.now }
    requires name { length name.now ≤ 255 }
    requires some_old { 1 ≤ length old.now }
    requires old_name { length old.now ≤ 255 }
    requires only { IsTrue (P.SectorView.space space.old).tells → IsOnlyName (record { parent = way.now.parent; name = old.now }) (lists_of volume.old (P.SectorView.space space.old).content).catalog_pairs }
    requires links { IsTrue (P.SectorView.space space.old).tells → (from to : List (List ℕ)) × (at : PlainEntry) × IsLinking (tree_of (P.SectorView.space space.old).content) from to at way.now.parent old.now way.now.id way.now.folder name.now }
    requires room { HasRoomToMake volume.old (P.SectorView.space space.old) }
    ensures does { IsTrue (P.SectorView.space space.old).tells → (from to : List (List ℕ)) (at : PlainEntry) → IsLinking (tree_of (P.SectorView.space space.old).content) from to at way.now.parent old.now way.now.id way.now.folder name.now
        → OnOk result (IsSettled volume.new (P.SectorView.space space.new).content × (tree_of (P.SectorView.space space.new).content ≡ (step (tree_of (P.SectorView.space space.old).content) (command.Ln from to)).1)
        × LinksAnew at (free_place way.now.folder name.now) (P.SectorView.space space.old).content (P.SectorView.space space.new).content) }
    ensures edits { Edits P.SectorView.space P.SectorView.follows (P.SectorView.space space.old).spare volume.old volume.new space.old space.new result }
    // On a fault too, it puts no more sectors than its load names.
    ensures loads { IsTrue (P.SectorView.space space.old).tells → (from to : List (List ℕ)) (at : PlainEntry) → IsLinking (tree_of (P.SectorView.space space.old).content) from to at way.now.parent old.now way.now.id way.now.folder name.now
        → PutsItsLoad (command.Ln from to) volume.old (P.SectorView.space space.old) (P.SectorView.space space.new) }
{
    match volume.private {
        Some(private) => link_first(volume, alloc, space, way, old, name, private, created),
        None => link_anew(volume, alloc, space, way, old, name),
    }
}
