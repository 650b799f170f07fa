//! `ln`: another name of a file.
ghost use Rattle.std.specs.Prelude.{◌≡◌, ◌≤◌, ◌<◌, ◌+◌, ℕ, List, Ok, Some, None, false, true, IsTrue, IfOk, length, OnOk};
ghost use Rattle.btree_edit.specs.Causes.{HasTroubleCause};
ghost use Rattle.btree_file.specs.Standing.{numbers_of, pairs_in};
ghost use Rattle.btree_file.specs.State.{sectors_of_tree};
ghost use Rattle.cat_records.specs.Fits.{FitsEntry, FitsRecord};
ghost use Rattle.cat_records.specs.declared.record.CatRecord.TheVariants.{File};
ghost use Rattle.catalog.specs.Pairs.{value_at};
ghost use Rattle.hard_links.specs.Linking.{created_in, link_date, link_fields, link_record};
ghost use Rattle.hfs_language.specs.Written.{FitsPath};
ghost use Rattle.hfs_language.specs.declared.command.Command.TheVariants as command;
ghost use Rattle.hfs_language.specs.declared.reply.Reply.TheVariants as reply;
ghost use Rattle.hfs_model.specs.Step.{is_refusal, step, step_line};
ghost use Rattle.hfs_model.specs.declared.plain.PlainEntry.{PlainEntry};
ghost use Rattle.hfs_volume.specs.Entries.{AreThreaded};
ghost use Rattle.hfs_volume.specs.Records.{id_in, is_thread, placed_in, record_at};
ghost use Rattle.hfs_volume.specs.TreeOf.{tree_of};
ghost use Rattle.volume_names.specs.LinkLoads.{PutsItsLoad};
ghost use Rattle.volume_base.specs.Changing.{HasRoomToUpdate, catalog_node};
ghost use Rattle.volume_names.specs.Linking.{AddsName, CountsUp, HasLinked, LinksAgain, LinksName};
ghost use Rattle.volume_base.specs.Frame.{Edits, Looked, Serves};
ghost use Rattle.volume_base.specs.Linking.{IsLinkTo, IsLinking, name_record};
ghost use Rattle.volume_base.specs.Lists.{lists_of};
ghost use Rattle.volume_base.specs.Looking.{IsCatalogOver, ReadsTree};
ghost use Rattle.volume_base.specs.Making.{HasRoomToMake, entry_load, free_place, path_to};
ghost use Rattle.volume_base.specs.Refusing.{refusal_in};
ghost use Rattle.volume_base.specs.Standing.{IsSettled, StandsOver};
ghost use Rattle.volume_names.specs.Unlinking.{HasShared};

use crate::changing::add;
use crate::first_links::link_own;
use crate::losing::is_link;
use crate::making::draw;
use crate::unlinking::put_link_more;
use btree_edit::Desk;
use btree_file::TreeFile;
use cat_records::{CatRecord, EntryFields, FileRecord};
use hfs_language::{Path, Reply};
use hfs_volume::{ln_does_its_step, sound_has_plain_tree};
use hx_bytes::{Trouble, Units};
use sector_disk::SectorSpace;
use std::alloc::Global;
use tree_weights::{edits_have_room, edits_take_their_load};
use volume_base::{EMPTY, NameRecord, Route, Volume, lookup_record, private_folder};

/// The CNID of the root.
const ROOT: u32 = 2;

/// `hlnk` and `hfs+`, the type and the creator of a link (TN1150, "Hard Links"), and zeros.
const LINK_FINDER: [u8; 32] = [
    104, 108, 110, 107, 104, 102, 115, 43, 0, 0, 0, 0, 0, 0, 0, 0, 0, 0, 0, 0, 0, 0, 0, 0, 0, 0, 0,
    0, 0, 0, 0, 0,
];

/// What the record of a file under its name is.
fn file_record(file: &FileRecord) -> NameRecord
    ensures { result ≡ name_record (Some (File file.now)) }
{
    if is_link(&file.fields) {
        return NameRecord::Link(file.fields.special);
    }
    NameRecord::Own
}

fn name_record(found: &Option<CatRecord>) -> NameRecord
    ensures { result ≡ name_record found.now }
{
    match found {
        Some(CatRecord::File(file)) => file_record(file),
        Some(CatRecord::Folder(_)) => NameRecord::Other,
        Some(CatRecord::Thread(_)) => NameRecord::Other,
        None => NameRecord::Other,
    }
}

/// The fields of a link: a thread exists, and the mode is that of a new file.
fn link_fields(id: u32, reference: u32, created: u32) -> EntryFields
    ensures value { result ≡ link_fields id reference created }
    ensures fits { FitsEntry result }
{
    EntryFields {
        flags: 2,
        count: 0,
        id,
        created: created,
        changed: created,
        attribute: created,
        accessed: created,
        backup: 0,
        owner: 0,
        group: 0,
        admin_flags: 0,
        owner_flags: 0,
        mode: 0o100_644,
        special: reference,
        finder: LINK_FINDER,
        encoding: 0,
        rest: 0,
    }
}

/// The record of a link with a CNID, to the file with a number.
pub(crate) fn link_record(id: u32, reference: u32, created: u32) -> CatRecord
    ensures same { result ≡ File (link_record id reference created) }
    ensures fits { FitsRecord result }
    ensures kind { is_thread result ≡ false }
    ensures id { id_in result ≡ id }
{
    CatRecord::File(FileRecord {
        fields: link_fields(id, reference, created),
        data_fork: EMPTY,
        resource_fork: EMPTY,
    })
}

/// The create date in a record; 0 where there is none.
fn created_in(found: &Option<CatRecord>) -> u32
    ensures { result ≡ created_in found.now }
{
    match found {
        Some(CatRecord::Folder(folder)) => folder.fields.created,
        Some(CatRecord::File(file)) => file.fields.created,
        Some(CatRecord::Thread(_)) => 0,
        None => 0,
    }
}

/// What the record under a name of a folder is.
fn find_name_record<P: SectorSpace>(
    alloc: Global,
    tree: &mut TreeFile,
    desk: &mut Desk,
    space: &mut P,
    parent: u32,
    name: &Units,
) -> Result<NameRecord, Trouble>
    requires over { IsCatalogOver tree.old desk.old (P.SectorView.space space.old) }
    requires name { length name.now ≤ 255 }
    ensures found { IsTrue (P.SectorView.space space.old).tells → IfOk result (λ it. it ≡ name_record (value_at (pairs_in (sectors_of_tree tree.old) (P.SectorView.space space.old).content) parent name.now)) }
    ensures over { IsCatalogOver tree.new desk.new (P.SectorView.space space.new) }
    ensures reads { ReadsTree tree.old tree.new (P.SectorView.space space.old) (P.SectorView.space space.new) }
    ensures below { P.SectorView.follows space.old space.new }
    ensures cause { HasTroubleCause (P.SectorView.space space.old).faults (P.SectorView.space space.new).faults result }
{
    let found = lookup_record(alloc, tree, desk, space, parent, name)?;
    Ok(name_record(&found))
}

/// The create date of the private folder, which links have.
fn find_link_date<P: SectorSpace>(
    alloc: Global,
    tree: &mut TreeFile,
    desk: &mut Desk,
    space: &mut P,
) -> Result<u32, Trouble>
    requires over { IsCatalogOver tree.old desk.old (P.SectorView.space space.old) }
    ensures found { IsTrue (P.SectorView.space space.old).tells → IfOk result (λ it. it ≡ link_date (pairs_in (sectors_of_tree tree.old) (P.SectorView.space space.old).content)) }
    ensures over { IsCatalogOver tree.new desk.new (P.SectorView.space space.new) }
    ensures reads { ReadsTree tree.old tree.new (P.SectorView.space space.old) (P.SectorView.space space.new) }
    ensures below { P.SectorView.follows space.old space.new }
    ensures cause { HasTroubleCause (P.SectorView.space space.old).faults (P.SectorView.space space.new).faults result }
{
    let name = private_folder(alloc)?;
    let found = lookup_record(alloc, tree, desk, space, ROOT, &name)?;
    Ok(created_in(&found))
}

/// What the record under a name of a folder is.
fn find_name<P: SectorSpace>(
    volume: &mut Volume,
    alloc: Global,
    space: &mut P,
    parent: u32,
    name: &Units,
) -> Result<NameRecord, Trouble>
    requires serves { Serves volume.old (P.SectorView.space space.old) }
    requires name { length name.now ≤ 255 }
    ensures found { IsTrue (P.SectorView.space space.old).tells → IfOk result (λ it. it ≡ name_record (value_at (lists_of volume.old (P.SectorView.space space.old).content).catalog_pairs parent name.now)) }
    ensures looked { Looked P.SectorView.space P.SectorView.follows volume.old volume.new space.old space.new result }
    ensures serves { Serves volume.new (P.SectorView.space space.new) }
{
    find_name_record(
        alloc,
        &mut volume.catalog.file,
        &mut volume.catalog.desk,
        space,
        parent,
        name,
    )
}

/// The create date of the private folder, which links have.
pub(crate) fn link_date<P: SectorSpace>(
    volume: &mut Volume,
    alloc: Global,
    space: &mut P,
) -> Result<u32, Trouble>
    requires serves { Serves volume.old (P.SectorView.space space.old) }
    ensures found { IsTrue (P.SectorView.space space.old).tells → IfOk result (λ it. it ≡ link_date (lists_of volume.old (P.SectorView.space space.old).content).catalog_pairs) }
    ensures looked { Looked P.SectorView.space P.SectorView.follows volume.old volume.new space.old space.new result }
    ensures serves { Serves volume.new (P.SectorView.space space.new) }
{
    find_link_date(
        alloc,
        &mut volume.catalog.file,
        &mut volume.catalog.desk,
        space,
    )
}

/// Adds a link to the file with a number to a folder, with the next CNID, and counts it in the header.
fn add_name<P: SectorSpace>(
    volume: &mut Volume,
    alloc: Global,
    space: &mut P,
    folder: u32,
    name: &Units,
    reference: u32,
    created: u32,
) -> Result<(), Trouble>
    requires serves { Serves volume.old (P.SectorView.space space.old) }
    requires size { 4096 ≤ (numbers_of volume.old.catalog.file).node_size }
    requires some { 1 ≤ length name.now }
    requires name { length name.now ≤ 255 }
    requires free { IsTrue (P.SectorView.space space.old).tells → record_at (placed_in (lists_of volume.old (P.SectorView.space space.old).content).catalog_pairs) folder name.now ≡ None }
    requires room { HasRoomToMake volume.old (P.SectorView.space space.old) }
    ensures adds { IsTrue (P.SectorView.space space.old).tells → OnOk result (AddsName folder name.now reference created volume.old volume.new (P.SectorView.space space.old).content (P.SectorView.space space.new).content) }
    ensures room { OnOk result (HasRoomToUpdate volume.new (P.SectorView.space space.new)) }
    ensures edits { Edits P.SectorView.space P.SectorView.follows (1 + entry_load volume.old) volume.old volume.new space.old space.new result }
{
    edits_have_room();
    edits_take_their_load();
    let rec = link_record(volume.header.next_catalog_id, reference, created);
    draw(volume, space, false);
    add(volume, alloc, space, folder, name, &rec)?;
    Ok(())
}

/// Lets the file with a CNID say that it has one link more, at the volume's moment. `Memory` is answered too where it says that
/// it has as many as it can say.
fn count_up<P: SectorSpace>(
    volume: &mut Volume,
    alloc: Global,
    space: &mut P,
    id: u32,
) -> Result<(), Trouble>
    requires stands { StandsOver volume.old (P.SectorView.space space.old) }
    requires threads { IsTrue (P.SectorView.space space.old).tells → AreThreaded (lists_of volume.old (P.SectorView.space space.old).content).catalog_pairs }
    requires there { IsTrue (P.SectorView.space space.old).tells → HasShared id (lists_of volume.old (P.SectorView.space space.old).content).catalog_pairs }
    requires room { HasRoomToUpdate volume.old (P.SectorView.space space.old) }
    ensures counts { IsTrue (P.SectorView.space space.old).tells → OnOk result (CountsUp id volume.old volume.new (P.SectorView.space space.old).content (P.SectorView.space space.new).content) }
    ensures edits { Edits P.SectorView.space P.SectorView.follows (catalog_node volume.old) volume.old volume.new space.old space.new result }
{
    match volume.entry(alloc, space, id)? {
        Some(entry) => put_link_more(volume, alloc, space, &entry),
        None => Ok(()),
    }
}

/// Gives a file that has links another one: the volume is settled again, and its tree has the name. `Memory` is answered too where
/// the room that is left doesn't suffice for the next record.
fn link_again<P: SectorSpace>(
    volume: &mut Volume,
    alloc: Global,
    space: &mut P,
    way: &Route,
    old: &Units,
    name: &Units,
    reference: u32,
    created: u32,
) -> Result<(), Trouble>
    requires serves { Serves volume.old (P.SectorView.space space.old) }
    requires some { 1 ≤ length name.now }
    requires name { length name.now ≤ 255 }
    requires link { IsTrue (P.SectorView.space space.old).tells → IsLinkTo way.now.parent old.now reference (lists_of volume.old (P.SectorView.space space.old).content).catalog_pairs }
    requires links { IsTrue (P.SectorView.space space.old).tells → (from to : List (List ℕ)) × (at : PlainEntry) × IsLinking (tree_of (P.SectorView.space space.old).content) from to at way.now.parent old.now way.now.id way.now.folder name.now }
    requires room { HasRoomToMake volume.old (P.SectorView.space space.old) }
    ensures does { IsTrue (P.SectorView.space space.old).tells → (from to : List (List ℕ)) (at : PlainEntry) → IsLinking (tree_of (P.SectorView.space space.old).content) from to at way.now.parent old.now way.now.id way.now.folder name.now
        → OnOk result (IsSettled volume.new (P.SectorView.space space.new).content × (tree_of (P.SectorView.space space.new).content ≡ (step (tree_of (P.SectorView.space space.old).content) (command.Ln from to)).1)
        × LinksAgain at (free_place way.now.folder name.now) (P.SectorView.space space.old).content (P.SectorView.space space.new).content) }
    ensures edits { Edits P.SectorView.space P.SectorView.follows (P.SectorView.space space.old).spare volume.old volume.new space.old space.new result }
    // On a fault too, it puts no more sectors than its load names.
    ensures loads { IsTrue (P.SectorView.space space.old).tells → (from to : List (List ℕ)) (at : PlainEntry) → IsLinking (tree_of (P.SectorView.space space.old).content) from to at way.now.parent old.now way.now.id way.now.folder name.now
        → PutsItsLoad (command.Ln from to) volume.old (P.SectorView.space space.old) (P.SectorView.space space.new) }
{
    ln_does_its_step();
    // The least node size that the format allows the catalog (TN1150, "Catalog File").
    if volume.catalog.file.shape().node_size < 4096 {
        return Ok(());
    }
    add_name(volume, alloc, space, way.folder, name, reference, created)?;
    count_up(volume, alloc, space, way.id)?;
    if !volume.fits_update(space) {
        return Err(Trouble::Memory);
    }
    volume.touch(alloc, space, way.folder, 1, 0)
}

/// Gives a file another name, by the record of the name that it has; links get this create date, where the private folder is
/// there.
fn link_named<P: SectorSpace>(
    volume: &mut Volume,
    alloc: Global,
    space: &mut P,
    way: &Route,
    old: &Units,
    name: &Units,
    created: u32,
) -> Result<(), Trouble>
    requires serves { Serves volume.old (P.SectorView.space space.old) }
    requires some { 1 ≤ length name.now }
    requires name { length name.now ≤ 255 }
    requires some_old { 1 ≤ length old.now }
    requires old_name { length old.now ≤ 255 }
    requires links { IsTrue (P.SectorView.space space.old).tells → (from to : List (List ℕ)) × (at : PlainEntry) × IsLinking (tree_of (P.SectorView.space space.old).content) from to at way.now.parent old.now way.now.id way.now.folder name.now }
    requires room { HasRoomToMake volume.old (P.SectorView.space space.old) }
    ensures does { IsTrue (P.SectorView.space space.old).tells → (from to : List (List ℕ)) (at : PlainEntry) → IsLinking (tree_of (P.SectorView.space space.old).content) from to at way.now.parent old.now way.now.id way.now.folder name.now
        → OnOk result (IsSettled volume.new (P.SectorView.space space.new).content × (tree_of (P.SectorView.space space.new).content ≡ (step (tree_of (P.SectorView.space space.old).content) (command.Ln from to)).1)
        × LinksName at (free_place way.now.folder name.now) (P.SectorView.space space.old).content (P.SectorView.space space.new).content) }
    ensures edits { Edits P.SectorView.space P.SectorView.follows (P.SectorView.space space.old).spare volume.old volume.new space.old space.new result }
    // On a fault too, it puts no more sectors than its load names.
    ensures loads { IsTrue (P.SectorView.space space.old).tells → (from to : List (List ℕ)) (at : PlainEntry) → IsLinking (tree_of (P.SectorView.space space.old).content) from to at way.now.parent old.now way.now.id way.now.folder name.now
        → PutsItsLoad (command.Ln from to) volume.old (P.SectorView.space space.old) (P.SectorView.space space.new) }
{
    match find_name(volume, alloc, space, way.parent, old)? {
        NameRecord::Link(reference) => {
            link_again(volume, alloc, space, way, old, name, reference, created)
        }
        NameRecord::Own => link_own(volume, alloc, space, way, old, name, created),
        NameRecord::Other => Err(Trouble::Memory),
    }
}

/// Gives a file another name.
fn link_way<P: SectorSpace>(
    volume: &mut Volume,
    alloc: Global,
    space: &mut P,
    way: &Route,
    old: &Units,
    name: &Units,
) -> Result<(), Trouble>
    requires serves { Serves volume.old (P.SectorView.space space.old) }
    requires some { 1 ≤ length name.now }
    requires name { length name.now ≤ 255 }
    requires some_old { 1 ≤ length old.now }
    requires old_name { length old.now ≤ 255 }
    requires links { IsTrue (P.SectorView.space space.old).tells → (from to : List (List ℕ)) × (at : PlainEntry) × IsLinking (tree_of (P.SectorView.space space.old).content) from to at way.now.parent old.now way.now.id way.now.folder name.now }
    requires room { HasRoomToMake volume.old (P.SectorView.space space.old) }
    ensures does { IsTrue (P.SectorView.space space.old).tells → (from to : List (List ℕ)) (at : PlainEntry) → IsLinking (tree_of (P.SectorView.space space.old).content) from to at way.now.parent old.now way.now.id way.now.folder name.now
        → OnOk result (IsSettled volume.new (P.SectorView.space space.new).content × (tree_of (P.SectorView.space space.new).content ≡ (step (tree_of (P.SectorView.space space.old).content) (command.Ln from to)).1)
        × LinksName at (free_place way.now.folder name.now) (P.SectorView.space space.old).content (P.SectorView.space space.new).content) }
    ensures edits { Edits P.SectorView.space P.SectorView.follows (P.SectorView.space space.old).spare volume.old volume.new space.old space.new result }
    // On a fault too, it puts no more sectors than its load names.
    ensures loads { IsTrue (P.SectorView.space space.old).tells → (from to : List (List ℕ)) (at : PlainEntry) → IsLinking (tree_of (P.SectorView.space space.old).content) from to at way.now.parent old.now way.now.id way.now.folder name.now
        → PutsItsLoad (command.Ln from to) volume.old (P.SectorView.space space.old) (P.SectorView.space space.new) }
{
    let created = link_date(volume, alloc, space)?;
    link_named(volume, alloc, space, way, old, name, created)
}

/// Gives the file that a path stands for a name under another path, where the step refuses nothing.
fn ln_under<P: SectorSpace>(
    volume: &mut Volume,
    alloc: Global,
    space: &mut P,
    from: &Path,
    to: &Path,
    above: &[Units],
    old: &Units,
    under: &[Units],
    name: &Units,
) -> Result<Reply, Trouble>
    requires serves { Serves volume.old (P.SectorView.space space.old) }
    requires from_fits { FitsPath from.now }
    requires to_fits { FitsPath to.now }
    requires split { from.now ≡ path_to above.now old.now }
    requires goal_split { to.now ≡ path_to under.now name.now }
    requires fine { IsTrue (P.SectorView.space space.old).tells → None ≡ refusal_in (step_line (tree_of (P.SectorView.space space.old).content) (Ok (command.Ln from.now to.now))).0 }
    requires room { HasRoomToMake volume.old (P.SectorView.space space.old) }
    ensures reply { IsTrue (P.SectorView.space space.old).tells → IfOk result (λ reply. reply ≡ (step_line (tree_of (P.SectorView.space space.old).content) (Ok (command.Ln from.now to.now))).0) }
    ensures tree { IsTrue (P.SectorView.space space.old).tells → OnOk result (tree_of (P.SectorView.space space.new).content ≡ (step_line (tree_of (P.SectorView.space space.old).content) (Ok (command.Ln from.now to.now))).1) }
    ensures refused { IsTrue (P.SectorView.space space.old).tells → IfOk result (λ reply. is_refusal reply ≡ true → (P.SectorView.space space.new).content ≡ (P.SectorView.space space.old).content) }
    ensures lists { IsTrue (P.SectorView.space space.old).tells → IfOk result (λ said. said ≡ reply.Ok → HasLinked from.now to.now (P.SectorView.space space.old).content (P.SectorView.space space.new).content) }
    ensures serves { OnOk result (Serves volume.new (P.SectorView.space space.new)) }
    ensures edits { Edits P.SectorView.space P.SectorView.follows (P.SectorView.space space.old).spare volume.old volume.new space.old space.new result }
    ensures loads { IsTrue (P.SectorView.space space.old).tells → PutsItsLoad (command.Ln from.now to.now) volume.old (P.SectorView.space space.old) (P.SectorView.space space.new) }
{
    sound_has_plain_tree();
    match volume.route(alloc, space, from.as_slice(), above, under, name)? {
        Ok(way) => {
            link_way(volume, alloc, space, &way, old, name)?;
            Ok(Reply::Ok)
        }
        Err(_why) => Err(Trouble::Memory),
    }
}

/// Gives the file that a path stands for a name under another path, where the step refuses nothing.
fn ln_fine<P: SectorSpace>(
    volume: &mut Volume,
    alloc: Global,
    space: &mut P,
    from: &Path,
    to: &Path,
) -> Result<Reply, Trouble>
    requires serves { Serves volume.old (P.SectorView.space space.old) }
    requires from_fits { FitsPath from.now }
    requires to_fits { FitsPath to.now }
    requires fine { IsTrue (P.SectorView.space space.old).tells → None ≡ refusal_in (step_line (tree_of (P.SectorView.space space.old).content) (Ok (command.Ln from.now to.now))).0 }
    requires room { HasRoomToMake volume.old (P.SectorView.space space.old) }
    ensures reply { IsTrue (P.SectorView.space space.old).tells → IfOk result (λ reply. reply ≡ (step_line (tree_of (P.SectorView.space space.old).content) (Ok (command.Ln from.now to.now))).0) }
    ensures tree { IsTrue (P.SectorView.space space.old).tells → OnOk result (tree_of (P.SectorView.space space.new).content ≡ (step_line (tree_of (P.SectorView.space space.old).content) (Ok (command.Ln from.now to.now))).1) }
    ensures refused { IsTrue (P.SectorView.space space.old).tells → IfOk result (λ reply. is_refusal reply ≡ true → (P.SectorView.space space.new).content ≡ (P.SectorView.space space.old).content) }
    ensures lists { IsTrue (P.SectorView.space space.old).tells → IfOk result (λ said. said ≡ reply.Ok → HasLinked from.now to.now (P.SectorView.space space.old).content (P.SectorView.space space.new).content) }
    ensures serves { OnOk result (Serves volume.new (P.SectorView.space space.new)) }
    ensures edits { Edits P.SectorView.space P.SectorView.follows (P.SectorView.space space.old).spare volume.old volume.new space.old space.new result }
    ensures loads { IsTrue (P.SectorView.space space.old).tells → PutsItsLoad (command.Ln from.now to.now) volume.old (P.SectorView.space space.old) (P.SectorView.space space.new) }
{
    match from.as_slice().split_last() {
        Some((old, above)) => match to.as_slice().split_last() {
            Some((name, under)) => {
                ln_under(volume, alloc, space, from, to, above, old, under, name)
            }
            None => Err(Trouble::Memory),
        },
        None => Err(Trouble::Memory),
    }
}

/// `ln`: gives the file that a path stands for another name, where nothing is yet, and dates the file and the folder of the new
/// name by the volume's moment; or tells the first reason against it. A file that has one name goes to the private folder, which is
/// made where there is none, and links stand at both names. A path that begins with a name of the volume's own is refused. A refused
/// command changes nothing. `Memory` comes where memory is wanting, where the edits of a file's first link have no room, and where
/// what is left of the room behind an edit of another one doesn't suffice for the next; `Disk` where a read failed.
pub fn ln<P: SectorSpace>(
    volume: &mut Volume,
    alloc: Global,
    space: &mut P,
    from: &Path,
    to: &Path,
) -> Result<Reply, Trouble>
    requires serves { Serves volume.old (P.SectorView.space space.old) }
    requires from_fits { FitsPath from.now }
    requires to_fits { FitsPath to.now }
    // There is a CNID for a link, and room for what it puts; the catalog needn't grow before.
    requires room { HasRoomToMake volume.old (P.SectorView.space space.old) }
    // Told, reply and tree are those of the plain tree's step.
    ensures reply { IsTrue (P.SectorView.space space.old).tells → IfOk result (λ reply. reply ≡ (step_line (tree_of (P.SectorView.space space.old).content) (Ok (command.Ln from.now to.now))).0) }
    ensures tree { IsTrue (P.SectorView.space space.old).tells → OnOk result (tree_of (P.SectorView.space space.new).content ≡ (step_line (tree_of (P.SectorView.space space.old).content) (Ok (command.Ln from.now to.now))).1) }
    ensures refused { IsTrue (P.SectorView.space space.old).tells → IfOk result (λ reply. is_refusal reply ≡ true → (P.SectorView.space space.new).content ≡ (P.SectorView.space space.old).content) }
    // The content's lists have the new name, the file's number of links and date, and the folder's count. Nothing else of them is changed.
    ensures lists { IsTrue (P.SectorView.space space.old).tells → IfOk result (λ said. said ≡ reply.Ok → HasLinked from.now to.now (P.SectorView.space space.old).content (P.SectorView.space space.new).content) }
    ensures serves { OnOk result (Serves volume.new (P.SectorView.space space.new)) }
    ensures edits { Edits P.SectorView.space P.SectorView.follows (P.SectorView.space space.old).spare volume.old volume.new space.old space.new result }
    // On a fault too, it puts no more sectors than its load names.
    ensures loads { IsTrue (P.SectorView.space space.old).tells → PutsItsLoad (command.Ln from.now to.now) volume.old (P.SectorView.space space.old) (P.SectorView.space space.new) }
{
    match volume.refused_ln(alloc, space, from, to)? {
        Some(why) => Ok(Reply::No(why)),
        None => ln_fine(volume, alloc, space, from, to),
    }
}
