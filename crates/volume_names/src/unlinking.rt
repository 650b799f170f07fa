//! `rm` of a link, where its file has others.
ghost use Rattle.std.specs.Prelude.{◌≡◌, ◌≤◌, ◌<◌, ◌+◌, ◌*◌, ℕ, List, Some, true, false, IsTrue, IfSome, length, OnOk};
ghost use Rattle.btree_edit.specs.Edits.{EditRoom};
ghost use Rattle.btree_file.specs.Standing.{numbers_of};
ghost use Rattle.btree_file.specs.State.{state_of};
ghost use Rattle.catalog.specs.Entries.{IsOfKind};
ghost use Rattle.cat_records.specs.Fits.{FitsEntry, FitsRecord};
ghost use Rattle.hard_links.specs.Linking.{NamesLink};
ghost use Rattle.hfs_language.specs.declared.command.Command.TheVariants as command;
ghost use Rattle.hfs_model.specs.Step.{step};
ghost use Rattle.hfs_model.specs.declared.plain.PlainEntry.{PlainEntry};
ghost use Rattle.hfs_volume.specs.Entries.{AreThreaded};
ghost use Rattle.hfs_volume.specs.Records.{id_in, is_file, is_thread};
ghost use Rattle.hfs_volume.specs.TreeOf.{tree_of};
ghost use Rattle.volume_base.specs.Changing.{HasRoomToUpdate, HasRoomToUpdates, catalog_node};
ghost use Rattle.volume_base.specs.Entering.{entry_by_id};
ghost use Rattle.volume_names.specs.Linking.{CountsUp};
ghost use Rattle.volume_base.specs.Frame.{Edits, MayUpdate, Serves};
ghost use Rattle.volume_base.specs.Lists.{lists_of};
ghost use Rattle.volume_base.specs.Losing.{IsLoss};
ghost use Rattle.volume_names.specs.EditsLeft.{HasEditsLeft, HasLoadFor, LeavesBeside};
ghost use Rattle.volume_names.specs.LossLoads.{LeavesOthers, LeavesShared, NoneOr, SpendsFor, SpendsShared};
ghost use Rattle.volume_base.specs.Making.{entry_load};
ghost use Rattle.volume_base.specs.Removing.{HasRoomToRemove};
ghost use Rattle.volume_base.specs.Standing.{IsSettled, StandsOver};
ghost use Rattle.volume_names.specs.Unlinking.{CountsDown, DropsName, HasShared, IsLastOf, LosesLink, SaysLinks, Unlinks, UnlinksLast, is_plain, links_in, relinked, with_links};
ghost use Rattle.volume_base.specs.Unlinking.{HasRoomToUnlinkLast};

use crate::fitting::fits_unlink_last;
use crate::orphaning::set_aside;
use crate::touching::touch;
use cat_records::{CatRecord, EntryFields, FileRecord};
use hard_links::EntryAt;
use hfs_volume::rm_does_its_step;
use hx_bytes::Trouble;
use sector_disk::SectorSpace;
use std::alloc::Global;
use tree_weights::{edits_have_room, edits_take_their_load};
use volume_base::{Entry, Volume, copy_name};

/// The fields of a file that has so many links from this moment on.
fn with_links(moment: u32, links: u32, fields: &EntryFields) -> EntryFields
    ensures same { result ≡ with_links moment links fields.now }
    ensures fits { FitsEntry fields.now → FitsEntry result }
{
    let mut changed = *fields;
    changed.special = links;
    changed.attribute = moment;
    changed
}

/// The record of such a file; none of a folder or a thread.
fn relinked(moment: u32, links: u32, rec: &CatRecord) -> Option<CatRecord>
    ensures same { result ≡ relinked moment links rec.now }
    ensures alike { IfSome result (λ changed. IsOfKind changed rec.now) }
    ensures fits { (is_thread rec.now ≡ false → FitsRecord rec.now) → IfSome result (λ changed. FitsRecord changed) }
    ensures kind { IfSome result (λ changed. is_thread changed ≡ false) }
{
    match rec {
        CatRecord::Folder(_) => None,
        CatRecord::File(file) => Some(CatRecord::File(FileRecord {
            fields: with_links(moment, links, &file.fields),
            data_fork: file.data_fork,
            resource_fork: file.resource_fork,
        })),
        CatRecord::Thread(_) => None,
    }
}

/// How many links a file says that it has.
fn links_in(rec: &CatRecord) -> u32
    ensures { result ≡ links_in rec.now }
{
    match rec {
        CatRecord::Folder(_) => 0,
        CatRecord::File(file) => file.fields.special,
        CatRecord::Thread(_) => 0,
    }
}

/// Removes a link from the folder that it stands in, and counts its record off.
fn drop_name<P: SectorSpace>(
    volume: &mut Volume,
    alloc: Global,
    space: &mut P,
    at: &EntryAt,
) -> Result<(), Trouble>
    requires serves { Serves volume.old (P.SectorView.space space.old) }
    requires size { 4096 ≤ (numbers_of volume.old.catalog.file).node_size }
    requires some { 1 ≤ length at.now.name }
    requires name { length at.now.name ≤ 255 }
    requires link { IsTrue (P.SectorView.space space.old).tells → NamesLink at.now (lists_of volume.old (P.SectorView.space space.old).content).catalog_pairs }
    requires room { HasRoomToRemove volume.old (P.SectorView.space space.old) }
    ensures drops { IsTrue (P.SectorView.space space.old).tells → OnOk result (DropsName at.now.parent at.now.name volume.old volume.new (P.SectorView.space space.old).content (P.SectorView.space space.new).content) }
    ensures room { OnOk result (HasRoomToUpdate volume.new (P.SectorView.space space.new)) }
    ensures size { OnOk result ((numbers_of volume.new.catalog.file).node_size ≡ (numbers_of volume.old.catalog.file).node_size) }
    // What is left of the room for five edits suffices for three.
    ensures more { HasRoomToUnlinkLast volume.old (P.SectorView.space space.old) → OnOk result ((names : List ℕ) → IsTrue (P.SectorView.space space.new).tells → EditRoom 3 516 (state_of names volume.new.catalog.file (P.SectorView.space space.new))) }
    // Where the load of two edits more has room beside the header's sector and these sectors, the others have room beside these behind it.
    ensures leaves { (edits beside : ℕ) → HasLoadFor (2 + edits) (1 + beside) volume.old (P.SectorView.space space.old) → OnOk result (HasEditsLeft edits beside volume.new (P.SectorView.space space.new)) }
    // On a fault too, these sectors are left.
    ensures beside { (edits beside : ℕ) → HasLoadFor (2 + edits) (1 + beside) volume.old (P.SectorView.space space.old) → IsTrue (P.SectorView.space space.old).tells → beside ≤ (P.SectorView.space space.new).spare }
    ensures edits { Edits P.SectorView.space P.SectorView.follows (1 + entry_load volume.old) volume.old volume.new space.old space.new result }
{
    edits_have_room();
    edits_take_their_load();
    volume.count_file_off(space);
    volume.remove(alloc, space, at.parent, &at.name)?;
    Ok(())
}

/// Lets a file that was found say that it has so many links.
pub(crate) fn put_links<P: SectorSpace>(
    volume: &mut Volume,
    alloc: Global,
    space: &mut P,
    entry: &Entry,
    links: u32,
) -> Result<(), Trouble>
    requires ready { MayUpdate volume.old entry.now (P.SectorView.space space.old) }
    requires fits { is_thread entry.now.rec ≡ false → FitsRecord entry.now.rec }
    // What is left of the room for so many updates suffices for the others.
    ensures room { (many : ℕ) → HasRoomToUpdates (many + 1) volume.old (P.SectorView.space space.old) → OnOk result (HasRoomToUpdates many volume.new (P.SectorView.space space.new)) }
    ensures counts { IsTrue (P.SectorView.space space.old).tells → is_file entry.now.rec ≡ true → is_plain entry.now.rec ≡ true
        → OnOk result (SaysLinks (id_in entry.now.rec) links (links_in entry.now.rec) volume.old volume.new (P.SectorView.space space.old).content (P.SectorView.space space.new).content) }
    ensures edits { Edits P.SectorView.space P.SectorView.follows (catalog_node volume.old) volume.old volume.new space.old space.new result }
    ensures left { OnOk result (LeavesBeside volume.old (P.SectorView.space space.old) volume.new (P.SectorView.space space.new)) }
{
    let Some(rec) = relinked(volume.header.modify_date, links, &entry.rec) else {
        return Ok(());
    };
    volume.replace(alloc, space, entry, &rec)
}

/// Lets a file that was found say that it has one link less. `Memory` is answered where that would be none.
fn put_link_less<P: SectorSpace>(
    volume: &mut Volume,
    alloc: Global,
    space: &mut P,
    entry: &Entry,
) -> Result<(), Trouble>
    requires ready { MayUpdate volume.old entry.now (P.SectorView.space space.old) }
    requires fits { is_thread entry.now.rec ≡ false → FitsRecord entry.now.rec }
    ensures counts { IsTrue (P.SectorView.space space.old).tells → is_file entry.now.rec ≡ true → is_plain entry.now.rec ≡ true
        → OnOk result (CountsDown (id_in entry.now.rec) volume.old volume.new (P.SectorView.space space.old).content (P.SectorView.space space.new).content) }
    ensures edits { Edits P.SectorView.space P.SectorView.follows (catalog_node volume.old) volume.old volume.new space.old space.new result }
    ensures left { OnOk result (LeavesBeside volume.old (P.SectorView.space space.old) volume.new (P.SectorView.space space.new)) }
{
    let links = links_in(&entry.rec);
    if links < 2 {
        return Err(Trouble::Memory);
    }
    put_links(volume, alloc, space, entry, links - 1)
}

/// Lets a file that was found say that it has one link more. `Memory` is answered where it can't say so.
pub(crate) fn put_link_more<P: SectorSpace>(
    volume: &mut Volume,
    alloc: Global,
    space: &mut P,
    entry: &Entry,
) -> Result<(), Trouble>
    requires ready { MayUpdate volume.old entry.now (P.SectorView.space space.old) }
    requires fits { is_thread entry.now.rec ≡ false → FitsRecord entry.now.rec }
    ensures counts { IsTrue (P.SectorView.space space.old).tells → is_file entry.now.rec ≡ true → is_plain entry.now.rec ≡ true
        → OnOk result (CountsUp (id_in entry.now.rec) volume.old volume.new (P.SectorView.space space.old).content (P.SectorView.space space.new).content) }
    ensures edits { Edits P.SectorView.space P.SectorView.follows (catalog_node volume.old) volume.old volume.new space.old space.new result }
{
    let links = links_in(&entry.rec);
    if links > 0xFFFF_FFFE {
        return Err(Trouble::Memory);
    }
    put_links(volume, alloc, space, entry, links + 1)
}

/// Lets the file with a CNID say that it has one link less, at the volume's moment. `Memory` is answered too where that would
/// be none.
fn count_down<P: SectorSpace>(
    volume: &mut Volume,
    alloc: Global,
    space: &mut P,
    id: u32,
) -> Result<(), Trouble>
    requires stands { StandsOver volume.old (P.SectorView.space space.old) }
    requires threads { IsTrue (P.SectorView.space space.old).tells → AreThreaded (lists_of volume.old (P.SectorView.space space.old).content).catalog_pairs }
    requires there { IsTrue (P.SectorView.space space.old).tells → HasShared id (lists_of volume.old (P.SectorView.space space.old).content).catalog_pairs }
    requires room { HasRoomToUpdate volume.old (P.SectorView.space space.old) }
    ensures counts { IsTrue (P.SectorView.space space.old).tells → OnOk result (CountsDown id volume.old volume.new (P.SectorView.space space.old).content (P.SectorView.space space.new).content) }
    ensures edits { Edits P.SectorView.space P.SectorView.follows (catalog_node volume.old) volume.old volume.new space.old space.new result }
    ensures left { OnOk result (LeavesBeside volume.old (P.SectorView.space space.old) volume.new (P.SectorView.space space.new)) }
{
    match volume.entry(alloc, space, id)? {
        Some(entry) => put_link_less(volume, alloc, space, &entry),
        None => Ok(()),
    }
}

/// Removes a link to the file with a CNID, which has others: the volume is settled again, and its tree is without the name.
/// `Memory` is answered too where it has no other, and where the room that is left doesn't suffice for the next record.
fn unlink<P: SectorSpace>(
    volume: &mut Volume,
    alloc: Global,
    space: &mut P,
    id: u32,
    at: &EntryAt,
) -> Result<(), Trouble>
    requires serves { Serves volume.old (P.SectorView.space space.old) }
    requires some { 1 ≤ length at.now.name }
    requires name { length at.now.name ≤ 255 }
    requires link { IsTrue (P.SectorView.space space.old).tells → NamesLink at.now (lists_of volume.old (P.SectorView.space space.old).content).catalog_pairs }
    requires loses { IsTrue (P.SectorView.space space.old).tells → (path : List (List ℕ)) × (entry : PlainEntry) × IsLoss (tree_of (P.SectorView.space space.old).content) path entry at.now × (entry.id ≡ id) }
    requires room { HasRoomToRemove volume.old (P.SectorView.space space.old) }
    ensures does { IsTrue (P.SectorView.space space.old).tells → (path : List (List ℕ)) (entry : PlainEntry) → IsLoss (tree_of (P.SectorView.space space.old).content) path entry at.now → entry.id ≡ id
        → OnOk result (IsSettled volume.new (P.SectorView.space space.new).content × (tree_of (P.SectorView.space space.new).content ≡ (step (tree_of (P.SectorView.space space.old).content) (command.Rm path)).1)
        × Unlinks entry (P.SectorView.space space.old).content (P.SectorView.space space.new).content) }
    ensures edits { Edits P.SectorView.space P.SectorView.follows (1 + entry_load volume.old + 2 * catalog_node volume.old) volume.old volume.new space.old space.new result }
    ensures leaves { IsTrue (P.SectorView.space space.old).tells → OnOk result (LeavesOthers 2 volume.old (P.SectorView.space space.old) volume.new (P.SectorView.space space.new)) }
{
    rm_does_its_step();
    // The least node size that the format allows the catalog (TN1150, "Catalog File").
    if volume.catalog.file.shape().node_size < 4096 {
        return Ok(());
    }
    drop_name(volume, alloc, space, at)?;
    count_down(volume, alloc, space, id)?;
    if !volume.fits_update(space) {
        return Err(Trouble::Memory);
    }
    touch(volume, alloc, space, at.parent, 0, 1)
}

/// Removes the last link to a file, whose record stands at a place in the private folder: it waits there to be removed. `Memory`
/// is answered too where the room that there is doesn't suffice.
fn unlink_last<P: SectorSpace>(
    volume: &mut Volume,
    alloc: Global,
    space: &mut P,
    private: u32,
    at: &EntryAt,
    file: &EntryAt,
    id: u32,
) -> Result<(), Trouble>
    requires serves { Serves volume.old (P.SectorView.space space.old) }
    requires some { 1 ≤ length at.now.name }
    requires name { length at.now.name ≤ 255 }
    requires some_file { 1 ≤ length file.now.name }
    requires file_name { length file.now.name ≤ 255 }
    requires private { volume.old.private ≡ Some private }
    requires link { IsTrue (P.SectorView.space space.old).tells → NamesLink at.now (lists_of volume.old (P.SectorView.space space.old).content).catalog_pairs }
    requires last { IsTrue (P.SectorView.space space.old).tells → IsLastOf id file.now (lists_of volume.old (P.SectorView.space space.old).content).catalog_pairs }
    requires loses { IsTrue (P.SectorView.space space.old).tells → (path : List (List ℕ)) × (entry : PlainEntry) × IsLoss (tree_of (P.SectorView.space space.old).content) path entry at.now × (entry.id ≡ id) }
    requires room { HasRoomToRemove volume.old (P.SectorView.space space.old) }
    ensures does { IsTrue (P.SectorView.space space.old).tells → (path : List (List ℕ)) (entry : PlainEntry) → IsLoss (tree_of (P.SectorView.space space.old).content) path entry at.now → entry.id ≡ id
        → OnOk result (IsSettled volume.new (P.SectorView.space space.new).content × (tree_of (P.SectorView.space space.new).content ≡ (step (tree_of (P.SectorView.space space.old).content) (command.Rm path)).1)
        × UnlinksLast entry (P.SectorView.space space.old).content (P.SectorView.space space.new).content) }
    ensures edits { Edits P.SectorView.space P.SectorView.follows (P.SectorView.space space.old).spare volume.old volume.new space.old space.new result }
    ensures spends { IsTrue (P.SectorView.space space.old).tells → NoneOr (SpendsFor 5 volume.old (P.SectorView.space space.old) (P.SectorView.space space.new)) (P.SectorView.space space.old) (P.SectorView.space space.new) }
    ensures leaves { IsTrue (P.SectorView.space space.old).tells → OnOk result (LeavesOthers 5 volume.old (P.SectorView.space space.old) volume.new (P.SectorView.space space.new)) }
{
    rm_does_its_step();
    // The least node size that the format allows the catalog (TN1150, "Catalog File").
    if volume.catalog.file.shape().node_size < 4096 {
        return Ok(());
    }
    if !fits_unlink_last(volume, space) {
        return Err(Trouble::Memory);
    }
    drop_name(volume, alloc, space, at)?;
    set_aside(volume, alloc, space, private, file)?;
    if !volume.fits_update(space) {
        return Err(Trouble::Memory);
    }
    touch(volume, alloc, space, at.parent, 0, 1)
}

/// Removes a link to a file that was found by its CNID.
fn lose_one_of<P: SectorSpace>(
    volume: &mut Volume,
    alloc: Global,
    space: &mut P,
    id: u32,
    at: &EntryAt,
    file: &Entry,
) -> Result<(), Trouble>
    requires serves { Serves volume.old (P.SectorView.space space.old) }
    requires some { 1 ≤ length at.now.name }
    requires name { length at.now.name ≤ 255 }
    requires link { IsTrue (P.SectorView.space space.old).tells → NamesLink at.now (lists_of volume.old (P.SectorView.space space.old).content).catalog_pairs }
    requires loses { IsTrue (P.SectorView.space space.old).tells → (path : List (List ℕ)) × (entry : PlainEntry) × IsLoss (tree_of (P.SectorView.space space.old).content) path entry at.now × (entry.id ≡ id) }
    requires found { IsTrue (P.SectorView.space space.old).tells → Some file.now ≡ entry_by_id (lists_of volume.old (P.SectorView.space space.old).content).catalog_pairs id }
    requires file_name { length file.now.name ≤ 255 }
    requires room { HasRoomToRemove volume.old (P.SectorView.space space.old) }
    ensures does { IsTrue (P.SectorView.space space.old).tells → (path : List (List ℕ)) (entry : PlainEntry) → IsLoss (tree_of (P.SectorView.space space.old).content) path entry at.now → entry.id ≡ id
        → OnOk result (IsSettled volume.new (P.SectorView.space space.new).content × (tree_of (P.SectorView.space space.new).content ≡ (step (tree_of (P.SectorView.space space.old).content) (command.Rm path)).1)
        × LosesLink entry (P.SectorView.space space.old).content (P.SectorView.space space.new).content) }
    ensures edits { Edits P.SectorView.space P.SectorView.follows (P.SectorView.space space.old).spare volume.old volume.new space.old space.new result }
    ensures spends { IsTrue (P.SectorView.space space.old).tells → NoneOr (SpendsShared id volume.old (P.SectorView.space space.old) (P.SectorView.space space.new)) (P.SectorView.space space.old) (P.SectorView.space space.new) }
    ensures leaves { IsTrue (P.SectorView.space space.old).tells → OnOk result (LeavesShared id volume.old (P.SectorView.space space.old) volume.new (P.SectorView.space space.new)) }
{
    if links_in(&file.rec) > 1 {
        return unlink(volume, alloc, space, id, at);
    }
    if file.name.is_empty() {
        return Err(Trouble::Memory);
    }
    match volume.private {
        Some(private) => {
            let place = EntryAt {
                parent: file.parent,
                name: copy_name(alloc, &file.name)?,
            };
            unlink_last(volume, alloc, space, private, at, &place, id)
        }
        None => Err(Trouble::Memory),
    }
}

/// Removes a link to the file with a CNID: the file says that it has one less, and behind its last one it waits in the private
/// folder to be removed. `Memory` is answered too where the room that there is doesn't suffice.
pub(crate) fn lose_one<P: SectorSpace>(
    volume: &mut Volume,
    alloc: Global,
    space: &mut P,
    id: u32,
    at: &EntryAt,
) -> Result<(), Trouble>
    requires serves { Serves volume.old (P.SectorView.space space.old) }
    requires some { 1 ≤ length at.now.name }
    requires name { length at.now.name ≤ 255 }
    requires link { IsTrue (P.SectorView.space space.old).tells → NamesLink at.now (lists_of volume.old (P.SectorView.space space.old).content).catalog_pairs }
    requires loses { IsTrue (P.SectorView.space space.old).tells → (path : List (List ℕ)) × (entry : PlainEntry) × IsLoss (tree_of (P.SectorView.space space.old).content) path entry at.now × (entry.id ≡ id) }
    requires room { HasRoomToRemove volume.old (P.SectorView.space space.old) }
    ensures does { IsTrue (P.SectorView.space space.old).tells → (path : List (List ℕ)) (entry : PlainEntry) → IsLoss (tree_of (P.SectorView.space space.old).content) path entry at.now → entry.id ≡ id
        → OnOk result (IsSettled volume.new (P.SectorView.space space.new).content × (tree_of (P.SectorView.space space.new).content ≡ (step (tree_of (P.SectorView.space space.old).content) (command.Rm path)).1)
        × LosesLink entry (P.SectorView.space space.old).content (P.SectorView.space space.new).content) }
    ensures edits { Edits P.SectorView.space P.SectorView.follows (P.SectorView.space space.old).spare volume.old volume.new space.old space.new result }
    ensures spends { IsTrue (P.SectorView.space space.old).tells → NoneOr (SpendsShared id volume.old (P.SectorView.space space.old) (P.SectorView.space space.new)) (P.SectorView.space space.old) (P.SectorView.space space.new) }
    ensures leaves { IsTrue (P.SectorView.space space.old).tells → OnOk result (LeavesShared id volume.old (P.SectorView.space space.old) volume.new (P.SectorView.space space.new)) }
{
    match volume.entry(alloc, space, id)? {
        Some(file) => lose_one_of(volume, alloc, space, id, at, &file),
        None => Err(Trouble::Memory),
    }
}
