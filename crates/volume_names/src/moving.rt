//! `mv`: a folder or file under another name.
ghost use Rattle.std.specs.Prelude.{◌≡◌, ◌<◌, ◌≤◌, ◌+◌, ◌*◌, ℕ, List, Ok, false, true, IsTrue, IfOk, length, OnOk};
ghost use Rattle.btree_file.specs.Standing.{numbers_of};
ghost use Rattle.hfs_language.specs.Written.{FitsPath};
ghost use Rattle.hfs_language.specs.declared.command.Command.TheVariants as command;
ghost use Rattle.hfs_language.specs.declared.reply.Reply.TheVariants as reply;
ghost use Rattle.hfs_model.specs.Step.{is_below, is_private_path, is_refusal, step, step_line};
ghost use Rattle.hfs_model.specs.declared.plain.PlainEntry.{PlainEntry};
ghost use Rattle.hfs_volume.specs.Content.{volume_of};
ghost use Rattle.hfs_volume.specs.Entries.{AreThreaded};
ghost use Rattle.hfs_volume.specs.Naming.{MovesName};
ghost use Rattle.hfs_volume.specs.TreeOf.{tree_of};
ghost use Rattle.volume_names.specs.Changing.{HasEntry};
ghost use Rattle.volume_base.specs.Changing.{HasFolder, catalog_node};
ghost use Rattle.volume_base.specs.Frame.{Edits, Serves};
ghost use Rattle.volume_base.specs.Lists.{lists_of};
ghost use Rattle.volume_base.specs.Making.{free_place, path_to};
ghost use Rattle.volume_names.specs.LinkLoads.{PutsItsLoad};
ghost use Rattle.volume_names.specs.EditsLeft.{HasEditsLeft};
ghost use Rattle.volume_names.specs.LossLoads.{NoneOr};
ghost use Rattle.volume_names.specs.Moving.{Arrives, HasMoved, HasPlace, Leaves, TellsMove, WasRead};
ghost use Rattle.volume_base.specs.Moving.{HasRoomToMove, IsMove, leave_load, move_load};
ghost use Rattle.volume_base.specs.Standing.{IsSettled, StandsOver};

use crate::relocating::relocate;
use crate::replacing::mv_over;
use crate::stamping::date;
use hfs_language::{Path, Refusal, Reply};
use hfs_volume::{mv_does_its_step, sound_has_plain_tree};
use hx_bytes::{Trouble, Units};
use sector_disk::SectorSpace;
use std::alloc::Global;
use tree_weights::{edits_have_room, edits_take_their_load};
use volume_base::{Route, Volume, is_below, is_exists, is_private_path};

/// Moves a folder or file, and lets its old folder count it no more. `Memory` is answered too where the room that is left
/// doesn't suffice for the folder's record.
fn leave<P: SectorSpace>(
    volume: &mut Volume,
    alloc: Global,
    space: &mut P,
    way: &Route,
    old: &Units,
    name: &Units,
) -> Result<(), Trouble>
    requires serves { Serves volume.old (P.SectorView.space space.old) }
    requires size { 4096 ≤ (numbers_of volume.old.catalog.file).node_size }
    requires some { 1 ≤ length old.now }
    requires old_name { length old.now ≤ 255 }
    requires some_new { 1 ≤ length name.now }
    requires name { length name.now ≤ 255 }
    requires moves { IsTrue (P.SectorView.space space.old).tells → (from to : List (List ℕ)) × (at : PlainEntry) × IsMove (tree_of (P.SectorView.space space.old).content) from to at way.now.parent old.now way.now.id way.now.folder name.now }
    requires left { HasEditsLeft 3 0 volume.old (P.SectorView.space space.old) }
    ensures leaves { IsTrue (P.SectorView.space space.old).tells → OnOk result (Leaves way.now.parent old.now way.now.folder name.now volume.old volume.new (P.SectorView.space space.old).content (P.SectorView.space space.new).content) }
    ensures edits { Edits P.SectorView.space P.SectorView.follows (leave_load volume.old) volume.old volume.new space.old space.new result }
    // Sectors that its edits have room beside are left, on a fault too, but for those of an update.
    ensures beside { IsTrue (P.SectorView.space space.old).tells → (beside : ℕ) → HasEditsLeft 3 beside volume.old (P.SectorView.space space.old) → beside ≤ (P.SectorView.space space.new).spare + catalog_node volume.old }
    ensures size { OnOk result ((numbers_of volume.new.catalog.file).node_size ≡ (numbers_of volume.old.catalog.file).node_size) }
{
    edits_take_their_load();
    relocate(volume, alloc, space, way.parent, old, way.folder, name)?;
    if !volume.fits_update(space) {
        return Err(Trouble::Memory);
    }
    volume.touch(alloc, space, way.parent, 0, 1)
}

/// Lets the folder to which something was moved count it, and dates what was moved. `Memory` is answered too where the room
/// that is left doesn't suffice for the next of these records.
fn arrive<P: SectorSpace>(
    volume: &mut Volume,
    alloc: Global,
    space: &mut P,
    way: &Route,
) -> Result<(), Trouble>
    requires stands { StandsOver volume.old (P.SectorView.space space.old) }
    requires size { 4096 ≤ (numbers_of volume.old.catalog.file).node_size }
    requires threads { IsTrue (P.SectorView.space space.old).tells → AreThreaded (lists_of volume.old (P.SectorView.space space.old).content).catalog_pairs }
    requires goal { IsTrue (P.SectorView.space space.old).tells → HasFolder way.now.folder 1 (lists_of volume.old (P.SectorView.space space.old).content).catalog_pairs }
    requires there { IsTrue (P.SectorView.space space.old).tells → HasEntry way.now.id (lists_of volume.old (P.SectorView.space space.old).content).catalog_pairs }
    ensures arrives { IsTrue (P.SectorView.space space.old).tells → OnOk result (Arrives way.now.folder way.now.id volume.old volume.new (P.SectorView.space space.old).content (P.SectorView.space space.new).content) }
    ensures edits { Edits P.SectorView.space P.SectorView.follows (2 * catalog_node volume.old) volume.old volume.new space.old space.new result }
{
    if !volume.fits_update(space) {
        return Err(Trouble::Memory);
    }
    volume.touch(alloc, space, way.folder, 1, 0)?;
    if !volume.fits_update(space) {
        return Err(Trouble::Memory);
    }
    date(volume, alloc, space, way.id)
}

/// Moves a folder or file.
fn move_in<P: SectorSpace>(
    volume: &mut Volume,
    alloc: Global,
    space: &mut P,
    way: &Route,
    old: &Units,
    name: &Units,
) -> Result<(), Trouble>
    requires serves { Serves volume.old (P.SectorView.space space.old) }
    requires some { 1 ≤ length old.now }
    requires old_name { length old.now ≤ 255 }
    requires some_new { 1 ≤ length name.now }
    requires name { length name.now ≤ 255 }
    requires moves { IsTrue (P.SectorView.space space.old).tells → (from to : List (List ℕ)) × (at : PlainEntry) × IsMove (tree_of (P.SectorView.space space.old).content) from to at way.now.parent old.now way.now.id way.now.folder name.now }
    requires left { HasEditsLeft 3 0 volume.old (P.SectorView.space space.old) }
    ensures does { IsTrue (P.SectorView.space space.old).tells → (from to : List (List ℕ)) (at : PlainEntry) → IsMove (tree_of (P.SectorView.space space.old).content) from to at way.now.parent old.now way.now.id way.now.folder name.now
        → OnOk result (IsSettled volume.new (P.SectorView.space space.new).content × (tree_of (P.SectorView.space space.new).content ≡ (step (tree_of (P.SectorView.space space.old).content) (command.Mv from to)).1)
        × MovesName at (free_place way.now.folder name.now) (volume_of (P.SectorView.space space.old).content) (volume_of (P.SectorView.space space.new).content)) }
    ensures edits { Edits P.SectorView.space P.SectorView.follows (move_load volume.old) volume.old volume.new space.old space.new result }
    // Sectors that its edits have room beside are left, on a fault too, but for those of three updates.
    ensures beside { IsTrue (P.SectorView.space space.old).tells → (beside : ℕ) → HasEditsLeft 3 beside volume.old (P.SectorView.space space.old) → beside ≤ (P.SectorView.space space.new).spare + 3 * catalog_node volume.old }
{
    mv_does_its_step();
    // The least node size that the format allows the catalog (TN1150, "Catalog File").
    if volume.catalog.file.shape().node_size < 4096 {
        return Ok(());
    }
    leave(volume, alloc, space, way, old, name)?;
    arrive(volume, alloc, space, way)
}

/// Moves what a path stands for, with its name apart, to a name under another path where nothing stands; or tells the first reason
/// against it, and changes nothing.
pub(crate) fn move_free<P: SectorSpace>(
    volume: &mut Volume,
    alloc: Global,
    space: &mut P,
    from: &Path,
    to: &Path,
    above: &[Units],
    old: &Units,
    under: &[Units],
    name: &Units,
) -> Result<Result<(), Refusal>, Trouble>
    requires serves { Serves volume.old (P.SectorView.space space.old) }
    requires from_fits { FitsPath from.now }
    requires to_fits { FitsPath to.now }
    requires split { from.now ≡ path_to above.now old.now }
    requires goal_split { to.now ≡ path_to under.now name.now }
    requires not_own { is_private_path from.now ≡ false }
    requires goal_not_own { is_private_path to.now ≡ false }
    requires left { HasEditsLeft 3 0 volume.old (P.SectorView.space space.old) }
    ensures moves { IsTrue (P.SectorView.space space.old).tells → IfOk result (λ said. TellsMove said from.now to.now (P.SectorView.space space.old).content (P.SectorView.space space.new).content) }
    ensures read { IfOk result (λ said. WasRead said volume.old volume.new (P.SectorView.space space.old) (P.SectorView.space space.new)) }
    ensures serves { OnOk result (Serves volume.new (P.SectorView.space space.new)) }
    ensures edits { Edits P.SectorView.space P.SectorView.follows (move_load volume.old) volume.old volume.new space.old space.new result }
    // Sectors were put only where there is a free place to move to; those that its edits have room beside are left, but for those of three updates.
    ensures spends { IsTrue (P.SectorView.space space.old).tells → NoneOr (HasPlace (tree_of (P.SectorView.space space.old).content) from.now to.now) (P.SectorView.space space.old) (P.SectorView.space space.new) }
    ensures beside { IsTrue (P.SectorView.space space.old).tells → (beside : ℕ) → HasEditsLeft 3 beside volume.old (P.SectorView.space space.old) → beside ≤ (P.SectorView.space space.new).spare + 3 * catalog_node volume.old }
{
    sound_has_plain_tree();
    match volume.route(alloc, space, from.as_slice(), above, under, name)? {
        Ok(way) => {
            if is_below(to.as_slice(), from.as_slice()) {
                return Ok(Err(Refusal::Inside));
            }
            move_in(volume, alloc, space, &way, old, name)?;
            Ok(Ok(()))
        }
        Err(why) => Ok(Err(why)),
    }
}

/// Moves what a path stands for, with its name apart, to a name under another path; or tells the first reason against it.
fn mv_under<P: SectorSpace>(
    volume: &mut Volume,
    alloc: Global,
    space: &mut P,
    from: &Path,
    to: &Path,
    above: &[Units],
    old: &Units,
    under: &[Units],
    name: &Units,
) -> Result<Reply, Trouble>
    requires serves { Serves volume.old (P.SectorView.space space.old) }
    requires from_fits { FitsPath from.now }
    requires to_fits { FitsPath to.now }
    requires split { from.now ≡ path_to above.now old.now }
    requires goal_split { to.now ≡ path_to under.now name.now }
    requires not_own { is_private_path from.now ≡ false }
    requires goal_not_own { is_private_path to.now ≡ false }
    requires room { HasRoomToMove volume.old (P.SectorView.space space.old) }
    ensures reply { IsTrue (P.SectorView.space space.old).tells → IfOk result (λ reply. reply ≡ (step_line (tree_of (P.SectorView.space space.old).content) (Ok (command.Mv from.now to.now))).0) }
    ensures tree { IsTrue (P.SectorView.space space.old).tells → OnOk result (tree_of (P.SectorView.space space.new).content ≡ (step_line (tree_of (P.SectorView.space space.old).content) (Ok (command.Mv from.now to.now))).1) }
    ensures refused { IsTrue (P.SectorView.space space.old).tells → IfOk result (λ reply. is_refusal reply ≡ true → (P.SectorView.space space.new).content ≡ (P.SectorView.space space.old).content) }
    ensures lists { IsTrue (P.SectorView.space space.old).tells → IfOk result (λ said. said ≡ reply.Ok → HasMoved from.now to.now (P.SectorView.space space.old).content (P.SectorView.space space.new).content) }
    ensures serves { OnOk result (Serves volume.new (P.SectorView.space space.new)) }
    ensures edits { Edits P.SectorView.space P.SectorView.follows (P.SectorView.space space.old).spare volume.old volume.new space.old space.new result }
    ensures loads { IsTrue (P.SectorView.space space.old).tells → PutsItsLoad (command.Mv from.now to.now) volume.old (P.SectorView.space space.old) (P.SectorView.space space.new) }
{
    edits_have_room();
    let said = move_free(volume, alloc, space, from, to, above, old, under, name)?;
    match said {
        Ok(_done) => Ok(Reply::Ok),
        Err(why) => {
            if is_exists(why) {
                return mv_over(volume, alloc, space, from, to, above, old, under, name);
            }
            Ok(Reply::No(why))
        }
    }
}

/// `mv`: gives what a path stands for another place and name, where nothing is yet or a file that a file replaces, and dates it and both folders by
/// the volume's moment; or tells the first reason against it. The file that is replaced loses its name as by `rm`; two names of one file stay
/// as they are. A path that begins with a name of the volume's own is refused. A refused command changes nothing. `Memory` comes where memory
/// is wanting, where there is no room for a removal and a move together, and where what is left of the room behind an edit doesn't suffice for
/// the next one by numbers alone; `Disk` where a read failed.
pub fn mv<P: SectorSpace>(
    volume: &mut Volume,
    alloc: Global,
    space: &mut P,
    from: &Path,
    to: &Path,
) -> Result<Reply, Trouble>
    requires serves { Serves volume.old (P.SectorView.space space.old) }
    requires from_fits { FitsPath from.now }
    requires to_fits { FitsPath to.now }
    // There is room for what it puts; the catalog needn't grow before.
    requires room { HasRoomToMove volume.old (P.SectorView.space space.old) }
    // Told, reply and tree are those of the plain tree's step.
    ensures reply { IsTrue (P.SectorView.space space.old).tells → IfOk result (λ reply. reply ≡ (step_line (tree_of (P.SectorView.space space.old).content) (Ok (command.Mv from.now to.now))).0) }
    ensures tree { IsTrue (P.SectorView.space space.old).tells → OnOk result (tree_of (P.SectorView.space space.new).content ≡ (step_line (tree_of (P.SectorView.space space.old).content) (Ok (command.Mv from.now to.now))).1) }
    ensures refused { IsTrue (P.SectorView.space space.old).tells → IfOk result (λ reply. is_refusal reply ≡ true → (P.SectorView.space space.new).content ≡ (P.SectorView.space space.old).content) }
    // The content's lists have it at its new place, both folders' counts, and its date; nothing else of them is changed.
    ensures lists { IsTrue (P.SectorView.space space.old).tells → IfOk result (λ said. said ≡ reply.Ok → HasMoved from.now to.now (P.SectorView.space space.old).content (P.SectorView.space space.new).content) }
    ensures serves { OnOk result (Serves volume.new (P.SectorView.space space.new)) }
    ensures edits { Edits P.SectorView.space P.SectorView.follows (P.SectorView.space space.old).spare volume.old volume.new space.old space.new result }
    // What its load names bounds the sectors that it puts.
    ensures loads { IsTrue (P.SectorView.space space.old).tells → PutsItsLoad (command.Mv from.now to.now) volume.old (P.SectorView.space space.old) (P.SectorView.space space.new) }
{
    if is_private_path(from) {
        return Ok(Reply::No(Refusal::Private));
    }
    if is_private_path(to) {
        return Ok(Reply::No(Refusal::Private));
    }
    match from.as_slice().split_last() {
        Some((old, above)) => match to.as_slice().split_last() {
            Some((name, under)) => {
                mv_under(volume, alloc, space, from, to, above, old, under, name)
            }
            None => Ok(Reply::No(Refusal::Root)),
        },
        None => Ok(Reply::No(Refusal::Root)),
    }
}
