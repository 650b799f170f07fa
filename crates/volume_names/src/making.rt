//! `mkdir` and `create`: a new folder or file.
ghost use Rattle.std.specs.Prelude.{◌≡◌, ◌<◌, ◌≤◌, ◌+◌, ◌^◌, ◌∷◌, ℕ, List, [], Ok, None, Some, false, true, IsTrue, IfOk, length, OnOk};
ghost use Rattle.btree_file.specs.Frame.{PutsWithin};
ghost use Rattle.btree_file.specs.Standing.{numbers_of};
ghost use Rattle.catalog.specs.Pairs.{value_at};
ghost use Rattle.cat_records.specs.Fits.{FitsRecord};
ghost use Rattle.hfs_language.specs.Written.{FitsPath};
ghost use Rattle.hfs_language.specs.declared.command.Command.TheVariants as command;
ghost use Rattle.hfs_model.specs.Step.{made, refuses, step_line, to_make};
ghost use Rattle.hfs_volume.specs.Changes.{with_numbers};
ghost use Rattle.hfs_volume.specs.Commands.{MakesEntry, with_made};
ghost use Rattle.hfs_volume.specs.Content.{volume_of};
ghost use Rattle.hfs_volume.specs.Records.{id_in, is_thread, placed_in, record_at};
ghost use Rattle.hfs_volume.specs.TreeOf.{tree_of};
ghost use Rattle.hfs_volume.specs.Weight.{weight};
ghost use Rattle.hfs_volume.specs.declared.cost.Cost.TheVariants as cost;
ghost use Rattle.volume_base.specs.Changing.{HasRoomToUpdate, PutsHeader};
ghost use Rattle.volume_base.specs.Frame.{Edits, Serves};
ghost use Rattle.volume_base.specs.Lists.{lists_of};
ghost use Rattle.volume_base.specs.Making.{AddsNew, AddsRecord, HasRoomToMake, IsSite, entry_load, free_place, make_load, making, new_value, path_to};
ghost use Rattle.volume_names.specs.EditsLeft.{HasEditsLeft, HasLoadFor};
ghost use Rattle.volume_names.specs.Making.{HasNew, Makes};
ghost use Rattle.volume_base.specs.Room.{capacity_of};
ghost use Rattle.volume_base.specs.Standing.{IsSettled, StandsOver};
ghost use Rattle.volume_runs.specs.Told.{of_made};

use crate::changing::add;
use crate::new_entries::{new_record, with_made};
use cat_records::CatRecord;
use hfs_language::{ChangeKind, Changes, Path};
use hfs_volume::{create_does_its_step, mkdir_does_its_step, sound_has_plain_tree};
use hx_bytes::{Trouble, Units};
use sector_disk::SectorSpace;
use std::alloc::Global;
use tree_weights::{edits_have_room, edits_take_their_load};
use volume_base::{Volume, one_change};

/// Counts a new folder or file in the header, which gives it the next CNID, and puts the header.
pub(crate) fn draw<P: SectorSpace>(volume: &mut Volume, space: &mut P, folder: bool)
    requires stands { StandsOver volume.old (P.SectorView.space space.old) }
    requires some { 1 ≤ (P.SectorView.space space.old).spare }
    ensures stands { StandsOver volume.new (P.SectorView.space space.new) }
    ensures rest { volume.new ≡ record volume.old { header = with_numbers volume.old.header volume.new.header } }
    ensures header { volume.old.header.next_catalog_id + 1 < 2 ^ 32 → volume.old.header.folder_count + 1 < 2 ^ 32 → volume.old.header.file_count + 1 < 2 ^ 32 → volume.new.header ≡ with_made folder volume.old.header }
    ensures put { IsTrue (P.SectorView.space space.old).tells → PutsHeader volume.new (P.SectorView.space space.old).content (P.SectorView.space space.new).content }
    ensures within { PutsWithin (2 ∷ []) (P.SectorView.space space.old) (P.SectorView.space space.new) }
    ensures spent { (P.SectorView.space space.old).spare ≤ (P.SectorView.space space.new).spare + 1 }
    ensures is_put { IsTrue (P.SectorView.space space.old).tells → IsTrue ((P.SectorView.space space.new).put 2) }
    ensures faults { (P.SectorView.space space.new).faults ≡ (P.SectorView.space space.old).faults }
    ensures below { P.SectorView.follows space.old space.new }
{
    volume.header = with_made(folder, &volume.header);
    volume.put_header(space);
}

/// Adds an entry with this record, which has the next CNID, to a folder, with its thread; the header counts one folder (true) or file more. `Memory`
/// comes where memory is wanting, `Disk` where a read failed.
pub fn add_record<P: SectorSpace>(
    volume: &mut Volume,
    alloc: Global,
    space: &mut P,
    id: u32,
    name: &Units,
    folder: bool,
    rec: &CatRecord,
) -> Result<(), Trouble>
    requires stands { StandsOver volume.old (P.SectorView.space space.old) }
    // Nothing has the next CNID, and the header's counts can go up by one.
    requires unused { IsTrue (P.SectorView.space space.old).tells → record_at (placed_in (lists_of volume.old (P.SectorView.space space.old).content).catalog_pairs) volume.old.header.next_catalog_id [] ≡ None }
    requires counts { IsTrue (P.SectorView.space space.old).tells → (volume.old.header.folder_count + 1 < 2 ^ 32) × (volume.old.header.file_count + 1 < 2 ^ 32) }
    requires size { 4096 ≤ (numbers_of volume.old.catalog.file).node_size }
    requires some { 1 ≤ length name.now }
    requires name { length name.now ≤ 255 }
    requires free { IsTrue (P.SectorView.space space.old).tells → record_at (placed_in (lists_of volume.old (P.SectorView.space space.old).content).catalog_pairs) id name.now ≡ None }
    requires room { HasRoomToMake volume.old (P.SectorView.space space.old) }
    requires fits { FitsRecord rec.now }
    requires kind { is_thread rec.now ≡ false }
    requires drawn { id_in rec.now ≡ volume.old.header.next_catalog_id }
    ensures adds { IsTrue (P.SectorView.space space.old).tells → OnOk result (AddsRecord folder rec.now id name.now volume.old volume.new (P.SectorView.space space.old).content (P.SectorView.space space.new).content) }
    ensures room { OnOk result (HasRoomToUpdate volume.new (P.SectorView.space space.new)) }
    ensures is_put { IsTrue (P.SectorView.space space.old).tells → OnOk result (IsTrue ((P.SectorView.space space.new).put 2)) }
    ensures edits { Edits P.SectorView.space P.SectorView.follows (1 + entry_load volume.old) volume.old volume.new space.old space.new result }
    // Where the load of two edits more has room beside the header's sector and these sectors, the others have room beside these behind it.
    ensures left { (edits beside : ℕ) → HasLoadFor (2 + edits) (1 + beside) volume.old (P.SectorView.space space.old) → OnOk result (HasEditsLeft edits beside volume.new (P.SectorView.space space.new)) }
    // On a fault too, these sectors are left.
    ensures beside { (edits beside : ℕ) → HasLoadFor (2 + edits) (1 + beside) volume.old (P.SectorView.space space.old) → IsTrue (P.SectorView.space space.old).tells → beside ≤ (P.SectorView.space space.new).spare }
{
    edits_have_room();
    edits_take_their_load();
    draw(volume, space, folder);
    add(volume, alloc, space, id, name, rec)?;
    Ok(())
}

/// Adds a new folder or file to a folder, with the next CNID.
pub(crate) fn add_new<P: SectorSpace>(
    volume: &mut Volume,
    alloc: Global,
    space: &mut P,
    id: u32,
    name: &Units,
    folder: bool,
) -> Result<(), Trouble>
    requires serves { Serves volume.old (P.SectorView.space space.old) }
    requires size { 4096 ≤ (numbers_of volume.old.catalog.file).node_size }
    requires some { 1 ≤ length name.now }
    requires name { length name.now ≤ 255 }
    requires free { IsTrue (P.SectorView.space space.old).tells → record_at (placed_in (lists_of volume.old (P.SectorView.space space.old).content).catalog_pairs) id name.now ≡ None }
    requires room { HasRoomToMake volume.old (P.SectorView.space space.old) }
    ensures adds { IsTrue (P.SectorView.space space.old).tells → OnOk result (AddsNew folder id name.now volume.old volume.new (P.SectorView.space space.old).content (P.SectorView.space space.new).content) }
    ensures room { OnOk result (HasRoomToUpdate volume.new (P.SectorView.space space.new)) }
    ensures is_put { IsTrue (P.SectorView.space space.old).tells → OnOk result (IsTrue ((P.SectorView.space space.new).put 2)) }
    ensures edits { Edits P.SectorView.space P.SectorView.follows (1 + entry_load volume.old) volume.old volume.new space.old space.new result }
    // Where the load of two edits more has room beside the header's sector and these sectors, the others have room beside these behind it.
    ensures left { (edits beside : ℕ) → HasLoadFor (2 + edits) (1 + beside) volume.old (P.SectorView.space space.old) → OnOk result (HasEditsLeft edits beside volume.new (P.SectorView.space space.new)) }
    // On a fault too, these sectors are left.
    ensures beside { (edits beside : ℕ) → HasLoadFor (2 + edits) (1 + beside) volume.old (P.SectorView.space space.old) → IsTrue (P.SectorView.space space.old).tells → beside ≤ (P.SectorView.space space.new).spare }
{
    let rec = new_record(
        folder,
        volume.header.next_catalog_id,
        volume.header.modify_date,
    );
    add_record(volume, alloc, space, id, name, folder, &rec)
}

/// Makes a folder or file of this name in the folder with this CNID.
fn make_in<P: SectorSpace>(
    volume: &mut Volume,
    alloc: Global,
    space: &mut P,
    id: u32,
    name: &Units,
    folder: bool,
) -> Result<(), Trouble>
    requires serves { Serves volume.old (P.SectorView.space space.old) }
    requires some { 1 ≤ length name.now }
    requires name { length name.now ≤ 255 }
    requires site { IsTrue (P.SectorView.space space.old).tells → IsSite (tree_of (P.SectorView.space space.old).content) id name.now }
    requires room { HasRoomToMake volume.old (P.SectorView.space space.old) }
    ensures does { IsTrue (P.SectorView.space space.old).tells
        → OnOk result (IsSettled volume.new (P.SectorView.space space.new).content × (tree_of (P.SectorView.space space.new).content ≡ made folder (free_place id name.now) (tree_of (P.SectorView.space space.old).content))
        × (value_at (lists_of volume.new (P.SectorView.space space.new).content).catalog_pairs id name.now ≡ Some (new_value folder volume.old.header.next_catalog_id volume.old.header.modify_date))
        × MakesEntry folder (free_place id name.now) (volume_of (P.SectorView.space space.old).content) (volume_of (P.SectorView.space space.new).content)) }
    ensures edits { Edits P.SectorView.space P.SectorView.follows (make_load volume.old) volume.old volume.new space.old space.new result }
{
    mkdir_does_its_step();
    create_does_its_step();
    // The least node size that the format allows the catalog (TN1150, "Catalog File").
    if volume.catalog.file.shape().node_size < 4096 {
        return Ok(());
    }
    add_new(volume, alloc, space, id, name, folder)?;
    volume.touch(alloc, space, id, 1, 0)
}

/// Makes a folder or file of this name under a path, where nothing stands against it, and says what it changed.
fn make_under<P: SectorSpace>(
    volume: &mut Volume,
    alloc: Global,
    space: &mut P,
    line: u64,
    above: &[Units],
    name: &Units,
    folder: bool,
) -> Result<Changes, Trouble>
    requires serves { Serves volume.old (P.SectorView.space space.old) }
    requires fits { FitsPath (path_to above.now name.now) }
    requires fine { IsTrue (P.SectorView.space space.old).tells → refuses (tree_of (P.SectorView.space space.old).content) (Ok (making folder (path_to above.now name.now))) ≡ false }
    requires room { HasRoomToMake volume.old (P.SectorView.space space.old) }
    ensures told { IsTrue (P.SectorView.space space.old).tells → IfOk result (λ changes. changes ≡ of_made line (tree_of (P.SectorView.space space.old).content) (to_make (tree_of (P.SectorView.space space.old).content) (path_to above.now name.now))) }
    ensures tree { IsTrue (P.SectorView.space space.old).tells → OnOk result (tree_of (P.SectorView.space space.new).content ≡ (step_line (tree_of (P.SectorView.space space.old).content) (Ok (making folder (path_to above.now name.now)))).1) }
    ensures entry { IsTrue (P.SectorView.space space.old).tells → OnOk result (HasNew folder (path_to above.now name.now) volume.old.header (lists_of volume.new (P.SectorView.space space.new).content).catalog_pairs) }
    ensures lists { IsTrue (P.SectorView.space space.old).tells → OnOk result (Makes folder (path_to above.now name.now) (P.SectorView.space space.old).content (P.SectorView.space space.new).content) }
    ensures serves { OnOk result (Serves volume.new (P.SectorView.space space.new)) }
    ensures edits { Edits P.SectorView.space P.SectorView.follows (make_load volume.old) volume.old volume.new space.old space.new result }
{
    sound_has_plain_tree();
    let next = volume.header.next_catalog_id;
    match volume.folder(alloc, space, above)? {
        Ok(id) => {
            make_in(volume, alloc, space, id, name, folder)?;
            Ok(one_change(alloc, line, ChangeKind::Made, next, id, name)?)
        }
        Err(_why) => Err(Trouble::Memory),
    }
}

/// Makes a folder or file at a path, where nothing stands against it, and says what it changed.
fn make<P: SectorSpace>(
    volume: &mut Volume,
    alloc: Global,
    space: &mut P,
    line: u64,
    path: &Path,
    folder: bool,
) -> Result<Changes, Trouble>
    requires serves { Serves volume.old (P.SectorView.space space.old) }
    requires fits { FitsPath path.now }
    requires fine { IsTrue (P.SectorView.space space.old).tells → refuses (tree_of (P.SectorView.space space.old).content) (Ok (making folder path.now)) ≡ false }
    requires room { HasRoomToMake volume.old (P.SectorView.space space.old) }
    ensures told { IsTrue (P.SectorView.space space.old).tells → IfOk result (λ changes. changes ≡ of_made line (tree_of (P.SectorView.space space.old).content) (to_make (tree_of (P.SectorView.space space.old).content) path.now)) }
    ensures tree { IsTrue (P.SectorView.space space.old).tells → OnOk result (tree_of (P.SectorView.space space.new).content ≡ (step_line (tree_of (P.SectorView.space space.old).content) (Ok (making folder path.now))).1) }
    ensures entry { IsTrue (P.SectorView.space space.old).tells → OnOk result (HasNew folder path.now volume.old.header (lists_of volume.new (P.SectorView.space space.new).content).catalog_pairs) }
    ensures lists { IsTrue (P.SectorView.space space.old).tells → OnOk result (Makes folder path.now (P.SectorView.space space.old).content (P.SectorView.space space.new).content) }
    ensures serves { OnOk result (Serves volume.new (P.SectorView.space space.new)) }
    ensures edits { Edits P.SectorView.space P.SectorView.follows (make_load volume.old) volume.old volume.new space.old space.new result }
{
    match path.as_slice().split_last() {
        Some((name, above)) => make_under(volume, alloc, space, line, above, name, folder),
        None => Err(Trouble::Memory),
    }
}

/// `mkdir`, against which nothing stands: makes a folder at a path, with mode 0755, in a folder that is there, and says what it changed, for
/// watchers. `Memory` comes where memory is wanting, and may come where the command is refused; `Disk` where a read failed.
pub fn mkdir<P: SectorSpace>(
    volume: &mut Volume,
    alloc: Global,
    space: &mut P,
    line: u64,
    path: &Path,
) -> Result<Changes, Trouble>
    requires serves { Serves volume.old (P.SectorView.space space.old) }
    requires fits { FitsPath path.now }
    // The step doesn't refuse it.
    requires fine { IsTrue (P.SectorView.space space.old).tells → refuses (tree_of (P.SectorView.space space.old).content) (Ok (command.Mkdir path.now)) ≡ false }
    // There is a CNID for it, and room for what it puts; the catalog needn't grow before.
    requires room { HasRoomToMake volume.old (P.SectorView.space space.old) }
    // Told, it is what watchers are told of it, and the tree is that of the plain tree's step.
    ensures told { IsTrue (P.SectorView.space space.old).tells → IfOk result (λ changes. changes ≡ of_made line (tree_of (P.SectorView.space space.old).content) (to_make (tree_of (P.SectorView.space space.old).content) path.now)) }
    ensures tree { IsTrue (P.SectorView.space space.old).tells → OnOk result (tree_of (P.SectorView.space space.new).content ≡ (step_line (tree_of (P.SectorView.space space.old).content) (Ok (command.Mkdir path.now))).1) }
    // Its record stands in the catalog, as new ones are.
    ensures entry { IsTrue (P.SectorView.space space.old).tells → OnOk result (HasNew true path.now volume.old.header (lists_of volume.new (P.SectorView.space space.new).content).catalog_pairs) }
    // The content's lists have its entry with its thread, one entry more in the folder above, and the header's numbers; nothing else of them is changed.
    ensures lists { IsTrue (P.SectorView.space space.old).tells → OnOk result (Makes true path.now (P.SectorView.space space.old).content (P.SectorView.space space.new).content) }
    ensures serves { OnOk result (Serves volume.new (P.SectorView.space space.new)) }
    ensures edits { Edits P.SectorView.space P.SectorView.follows (make_load volume.old) volume.old volume.new space.old space.new result }
    // What its load names bounds the sectors that it puts.
    ensures loads { IsTrue (P.SectorView.space space.old).tells → (n : ℕ) (grow : List ℕ) → weight (capacity_of volume.old) (volume_of (P.SectorView.space space.old).content) (tree_of (P.SectorView.space space.old).content) (command.Mkdir path.now) ≡ cost.Load n grow
        → (P.SectorView.space space.old).spare ≤ (P.SectorView.space space.new).spare + n }
{
    make(volume, alloc, space, line, path, true)
}

/// `create`, against which nothing stands: makes an empty file at a path, with mode 0644, in a folder that is there, and says what it changed,
/// for watchers. `Memory` comes where memory is wanting, and may come where the command is refused; `Disk` where a read failed.
pub fn create<P: SectorSpace>(
    volume: &mut Volume,
    alloc: Global,
    space: &mut P,
    line: u64,
    path: &Path,
) -> Result<Changes, Trouble>
    requires serves { Serves volume.old (P.SectorView.space space.old) }
    requires fits { FitsPath path.now }
    // The step doesn't refuse it.
    requires fine { IsTrue (P.SectorView.space space.old).tells → refuses (tree_of (P.SectorView.space space.old).content) (Ok (command.Create path.now)) ≡ false }
    // There is a CNID for it, and room for what it puts; the catalog needn't grow before.
    requires room { HasRoomToMake volume.old (P.SectorView.space space.old) }
    // Told, it is what watchers are told of it, and the tree is that of the plain tree's step.
    ensures told { IsTrue (P.SectorView.space space.old).tells → IfOk result (λ changes. changes ≡ of_made line (tree_of (P.SectorView.space space.old).content) (to_make (tree_of (P.SectorView.space space.old).content) path.now)) }
    ensures tree { IsTrue (P.SectorView.space space.old).tells → OnOk result (tree_of (P.SectorView.space space.new).content ≡ (step_line (tree_of (P.SectorView.space space.old).content) (Ok (command.Create path.now))).1) }
    // Its record stands in the catalog, as new ones are.
    ensures entry { IsTrue (P.SectorView.space space.old).tells → OnOk result (HasNew false path.now volume.old.header (lists_of volume.new (P.SectorView.space space.new).content).catalog_pairs) }
    // The content's lists have its entry with its thread, one entry more in the folder above, and the header's numbers; nothing else of them is changed.
    ensures lists { IsTrue (P.SectorView.space space.old).tells → OnOk result (Makes false path.now (P.SectorView.space space.old).content (P.SectorView.space space.new).content) }
    ensures serves { OnOk result (Serves volume.new (P.SectorView.space space.new)) }
    ensures edits { Edits P.SectorView.space P.SectorView.follows (make_load volume.old) volume.old volume.new space.old space.new result }
    // What its load names bounds the sectors that it puts.
    ensures loads { IsTrue (P.SectorView.space space.old).tells → (n : ℕ) (grow : List ℕ) → weight (capacity_of volume.old) (volume_of (P.SectorView.space space.old).content) (tree_of (P.SectorView.space space.old).content) (command.Create path.now) ≡ cost.Load n grow
        → (P.SectorView.space space.old).spare ≤ (P.SectorView.space space.new).spare + n }
{
    make(volume, alloc, space, line, path, false)
}
