//! `rmdir`: a folder is removed.
ghost use Rattle.std.specs.Prelude.{◌≡◌, ◌≤◌, ◌+◌, ◌∷◌, ℕ, List, [], Ok, false, true, IsTrue, IfOk, length, OnOk};
ghost use Rattle.alloc_bitmap.specs.Map.{none};
ghost use Rattle.attributes.specs.Owned.{names_of};
ghost use Rattle.btree_file.specs.Frame.{PutsWithin};
ghost use Rattle.btree_file.specs.Standing.{numbers_of};
ghost use Rattle.hfs_language.specs.Written.{FitsPath};
ghost use Rattle.hfs_language.specs.declared.command.Command.TheVariants as command;
ghost use Rattle.hfs_language.specs.declared.reply.Reply.TheVariants as reply;
ghost use Rattle.hfs_model.specs.Step.{is_private_path, is_refusal, removed_folder, step_line};
ghost use Rattle.volume_header.specs.Header.{FitsHeader};
ghost use Rattle.hfs_volume.specs.Changes.{with_numbers};
ghost use Rattle.hfs_volume.specs.Commands.{with_folder_removed};
ghost use Rattle.hfs_volume.specs.Content.{volume_of};
ghost use Rattle.hfs_volume.specs.TreeOf.{tree_of};
ghost use Rattle.hfs_volume.specs.Weight.{weight};
ghost use Rattle.hfs_volume.specs.declared.cost.Cost.TheVariants as cost;
ghost use Rattle.volume_base.specs.Changing.{HasRoomToUpdate, PutsHeader};
ghost use Rattle.flag_rows.specs.Bits.{sectors_for};
ghost use Rattle.std.specs.List.{Contains};
ghost use Rattle.volume_base.specs.Frame.{Edits, Frees, Ran, Serves};
ghost use Rattle.volume_base.specs.Holding.{KeepsUsed};
ghost use Rattle.volume_base.specs.Lists.{lists_of};
ghost use Rattle.volume_base.specs.Making.{entry_load, path_to};
ghost use Rattle.volume_base.specs.Removing.{DropsFolder, HasNoAttributes, HasRoomToRemove, IsLeaving, TakesFolder, bare_load, folder_at, owned_at, records_owned, remove_load};
ghost use Rattle.volume_names.specs.Removing.{HasRemoved, counting_header};
ghost use Rattle.volume_base.specs.Room.{capacity_of};
ghost use Rattle.volume_base.specs.Standing.{IsSettled, StandsOver, own_sectors};
ghost use Rattle.volume_base.specs.Values.{values_owned};
ghost use Rattle.volume_base.specs.Weighing.{AreUsual};

use crate::baring::bare;
use crate::fitting::fits_owner;
use hfs_language::{Path, Refusal, Reply};
use hfs_volume::{rmdir_does_its_step, sound_has_plain_tree};
use hx_bytes::{Trouble, Units};
use sector_disk::SectorSpace;
use std::alloc::Global;
use tree_weights::{edits_have_room, edits_take_their_load};
use volume_base::{Leaving, OwnedValues, Volume, is_private_path};
use volume_header::VolumeHeader;

/// The header after a folder was removed.
fn with_folder_removed(head: &VolumeHeader) -> VolumeHeader
    ensures same { result ≡ with_folder_removed head.now }
    ensures fits { FitsHeader head.now → FitsHeader result }
{
    let mut less = *head;
    less.folder_count = head.folder_count.saturating_sub(1);
    less
}

/// Counts a folder less in the header, and puts it.
fn count_off<P: SectorSpace>(volume: &mut Volume, space: &mut P)
    requires stands { StandsOver volume.old (P.SectorView.space space.old) }
    requires some { 1 ≤ (counting_header (P.SectorView.space space.old)).spare }
    ensures stands { StandsOver volume.new (P.SectorView.space space.new) }
    ensures rest { volume.new ≡ record volume.old { header = with_numbers volume.old.header volume.new.header } }
    ensures header { volume.new.header ≡ with_folder_removed volume.old.header }
    ensures put { IsTrue (P.SectorView.space space.old).tells → PutsHeader volume.new (P.SectorView.space space.old).content (P.SectorView.space space.new).content }
    ensures within { PutsWithin (2 ∷ []) (P.SectorView.space space.old) (P.SectorView.space space.new) }
    // Where it was put before, it takes no room.
    ensures spent { (counting_header (P.SectorView.space space.old)).spare ≤ (P.SectorView.space space.new).spare + 1 }
    ensures faults { (P.SectorView.space space.new).faults ≡ (P.SectorView.space space.old).faults }
    ensures below { P.SectorView.follows space.old space.new }
{
    volume.header = with_folder_removed(&volume.header);
    volume.put_header(space);
}

/// Removes a folder from the folder that it stands in, and counts it off.
fn take_off<P: SectorSpace>(
    volume: &mut Volume,
    alloc: Global,
    space: &mut P,
    at: Leaving,
    name: &Units,
) -> Result<(), Trouble>
    requires serves { Serves volume.old (P.SectorView.space space.old) }
    requires size { 4096 ≤ (numbers_of volume.old.catalog.file).node_size }
    requires some { 1 ≤ length name.now }
    requires name { length name.now ≤ 255 }
    requires leaving { IsTrue (P.SectorView.space space.old).tells → IsLeaving (tree_of (P.SectorView.space space.old).content) at name.now }
    requires room { HasRoomToRemove volume.old (counting_header (P.SectorView.space space.old)) }
    ensures drops { IsTrue (P.SectorView.space space.old).tells → OnOk result (DropsFolder at.parent name.now volume.old volume.new (P.SectorView.space space.old).content (P.SectorView.space space.new).content) }
    ensures room { OnOk result (HasRoomToUpdate volume.new (P.SectorView.space space.new)) }
    ensures edits { Edits P.SectorView.space P.SectorView.follows (1 + entry_load volume.old) volume.old volume.new space.old space.new result }
    ensures counted { IsTrue (P.SectorView.space space.old).tells → (counting_header (P.SectorView.space space.old)).spare ≤ (P.SectorView.space space.new).spare + (1 + entry_load volume.old) }
{
    edits_have_room();
    edits_take_their_load();
    count_off(volume, space);
    volume.remove(alloc, space, at.parent, name)?;
    Ok(())
}

/// Removes a folder without entries and without attributes. The volume is settled again, and its tree is without the
/// folder.
fn remove_folder<P: SectorSpace>(
    volume: &mut Volume,
    alloc: Global,
    space: &mut P,
    at: Leaving,
    name: &Units,
) -> Result<(), Trouble>
    requires serves { Serves volume.old (P.SectorView.space space.old) }
    requires some { 1 ≤ length name.now }
    requires name { length name.now ≤ 255 }
    requires leaving { IsTrue (P.SectorView.space space.old).tells → IsLeaving (tree_of (P.SectorView.space space.old).content) at name.now }
    requires bare { IsTrue (P.SectorView.space space.old).tells → HasNoAttributes at.id (volume_of (P.SectorView.space space.old).content).attribute_pairs }
    requires room { HasRoomToRemove volume.old (counting_header (P.SectorView.space space.old)) }
    ensures takes { IsTrue (P.SectorView.space space.old).tells → OnOk result (TakesFolder at.id (volume_of (P.SectorView.space space.old).content) (volume_of (P.SectorView.space space.new).content)) }
    ensures does { IsTrue (P.SectorView.space space.old).tells
        → OnOk result (IsSettled volume.new (P.SectorView.space space.new).content × (tree_of (P.SectorView.space space.new).content ≡ removed_folder (folder_at at name.now) (tree_of (P.SectorView.space space.old).content))) }
    ensures edits { Edits P.SectorView.space P.SectorView.follows (remove_load volume.old) volume.old volume.new space.old space.new result }
    ensures counted { IsTrue (P.SectorView.space space.old).tells → (counting_header (P.SectorView.space space.old)).spare ≤ (P.SectorView.space space.new).spare + remove_load volume.old }
{
    rmdir_does_its_step();
    sound_has_plain_tree();
    // The least node size that the format allows the catalog (TN1150, "Catalog File").
    if volume.catalog.file.shape().node_size < 4096 {
        return Ok(());
    }
    take_off(volume, alloc, space, at, name)?;
    volume.touch(alloc, space, at.parent, 0, 1)
}

/// How many records these attributes have.
fn count_records(owned: OwnedValues) -> u32
    requires usual { AreUsual owned.count owned.change }
    ensures { result ≡ records_owned owned }
{
    owned.count + owned.change.records as u32
}

/// Removes a folder without entries, after its attributes, whose values' blocks are given back. `Memory` is answered too where the room that there is
/// doesn't suffice for all of this, by what it costs.
fn remove_owner<P: SectorSpace>(
    volume: &mut Volume,
    alloc: Global,
    space: &mut P,
    at: Leaving,
    name: &Units,
    owned: OwnedValues,
) -> Result<(), Trouble>
    requires serves { Serves volume.old (P.SectorView.space space.old) }
    requires unchanged { volume.old.map.changed ≡ none (sectors_for (length volume.old.map.used)) }
    requires some { 1 ≤ length name.now }
    requires name { length name.now ≤ 255 }
    requires leaving { IsTrue (P.SectorView.space space.old).tells → IsLeaving (tree_of (P.SectorView.space space.old).content) at name.now }
    requires counted { IsTrue (P.SectorView.space space.old).tells → owned.count ≡ length (names_of at.id (lists_of volume.old (P.SectorView.space space.old).content).attribute_pairs) }
    requires change { IsTrue (P.SectorView.space space.old).tells → owned.change ≡ values_owned (volume_of (P.SectorView.space space.old).content) at.id }
    requires usual { AreUsual owned.count owned.change }
    requires gone { owned.change.blocks ≡ 0 }
    requires room { HasRoomToRemove volume.old (P.SectorView.space space.old) }
    ensures takes { IsTrue (P.SectorView.space space.old).tells → OnOk result (TakesFolder at.id (volume_of (P.SectorView.space space.old).content) (volume_of (P.SectorView.space space.new).content)) }
    ensures does { IsTrue (P.SectorView.space space.old).tells
        → OnOk result (IsSettled volume.new (P.SectorView.space space.new).content × (tree_of (P.SectorView.space space.new).content ≡ removed_folder (folder_at at name.now) (tree_of (P.SectorView.space space.old).content))) }
    ensures ran { Ran P.SectorView.space P.SectorView.follows (λ s. Contains (own_sectors volume.old) s) (bare_load owned volume.old + remove_load volume.old) volume.new space.old space.new result }
    ensures used { KeepsUsed volume.old volume.new }
{
    edits_have_room();
    edits_take_their_load();
    rmdir_does_its_step();
    if volume.header.attributes_fork.logical_size == 0 {
        return Err(Trouble::Memory);
    }
    // The least node size that the format allows the attributes file (TN1150, "Attributes File").
    if volume.attributes.file.shape().node_size < 4096 {
        return Err(Trouble::Memory);
    }
    if !fits_owner(volume, space, owned) {
        return Err(Trouble::Memory);
    }
    let old = bare(volume, alloc, space, at.id, count_records(owned))?;
    volume.trade_blocks(alloc, space, &old, 0)?;
    if space.spare() == 0 {
        return Err(Trouble::Memory);
    }
    remove_folder(volume, alloc, space, at, name)
}

/// Removes a folder without entries, with its attributes.
fn remove_bare<P: SectorSpace>(
    volume: &mut Volume,
    alloc: Global,
    space: &mut P,
    at: Leaving,
    name: &Units,
) -> Result<(), Trouble>
    requires serves { Serves volume.old (P.SectorView.space space.old) }
    requires some { 1 ≤ length name.now }
    requires name { length name.now ≤ 255 }
    requires leaving { IsTrue (P.SectorView.space space.old).tells → IsLeaving (tree_of (P.SectorView.space space.old).content) at name.now }
    requires room { HasRoomToRemove volume.old (P.SectorView.space space.old) }
    ensures takes { IsTrue (P.SectorView.space space.old).tells → OnOk result (TakesFolder at.id (volume_of (P.SectorView.space space.old).content) (volume_of (P.SectorView.space space.new).content)) }
    ensures does { IsTrue (P.SectorView.space space.old).tells
        → OnOk result (IsSettled volume.new (P.SectorView.space space.new).content × (tree_of (P.SectorView.space space.new).content ≡ removed_folder (folder_at at name.now) (tree_of (P.SectorView.space space.old).content))) }
    ensures spent { IsTrue (P.SectorView.space space.old).tells → (P.SectorView.space space.old).spare ≤ (P.SectorView.space space.new).spare + (bare_load (owned_at at.id (volume_of (P.SectorView.space space.old).content)) volume.old + remove_load volume.old) }
    ensures frees { Frees P.SectorView.space P.SectorView.follows volume.old volume.new space.old space.new result }
{
    let owned = volume.owned_values(alloc, space, at.id)?;
    if owned.count == 0 {
        return remove_folder(volume, alloc, space, at, name);
    }
    volume.keep();
    remove_owner(volume, alloc, space, at, name, owned)
}

/// Removes the folder of a name under a path, or tells the first reason against it.
fn rmdir_under<P: SectorSpace>(
    volume: &mut Volume,
    alloc: Global,
    space: &mut P,
    above: &[Units],
    name: &Units,
) -> Result<Reply, Trouble>
    requires serves { Serves volume.old (P.SectorView.space space.old) }
    requires fits { FitsPath (path_to above.now name.now) }
    requires not_own { is_private_path (path_to above.now name.now) ≡ false }
    requires room { HasRoomToRemove volume.old (P.SectorView.space space.old) }
    ensures reply { IsTrue (P.SectorView.space space.old).tells → IfOk result (λ reply. reply ≡ (step_line (tree_of (P.SectorView.space space.old).content) (Ok (command.Rmdir (path_to above.now name.now)))).0) }
    ensures tree { IsTrue (P.SectorView.space space.old).tells → OnOk result (tree_of (P.SectorView.space space.new).content ≡ (step_line (tree_of (P.SectorView.space space.old).content) (Ok (command.Rmdir (path_to above.now name.now)))).1) }
    ensures refused { IsTrue (P.SectorView.space space.old).tells → IfOk result (λ reply. is_refusal reply ≡ true → (P.SectorView.space space.new).content ≡ (P.SectorView.space space.old).content) }
    ensures lists { IsTrue (P.SectorView.space space.old).tells → IfOk result (λ said. said ≡ reply.Ok → HasRemoved (path_to above.now name.now) (P.SectorView.space space.old).content (P.SectorView.space space.new).content) }
    ensures serves { OnOk result (Serves volume.new (P.SectorView.space space.new)) }
    ensures frees { Frees P.SectorView.space P.SectorView.follows volume.old volume.new space.old space.new result }
    ensures loads { IsTrue (P.SectorView.space space.old).tells → (n : ℕ) (grow : List ℕ) → weight (capacity_of volume.old) (volume_of (P.SectorView.space space.old).content) (tree_of (P.SectorView.space space.old).content) (command.Rmdir (path_to above.now name.now)) ≡ cost.Load n grow
        → (P.SectorView.space space.old).spare ≤ (P.SectorView.space space.new).spare + n }
{
    sound_has_plain_tree();
    rmdir_does_its_step();
    match volume.leaving(alloc, space, above, name)? {
        Ok(at) => {
            remove_bare(volume, alloc, space, at, name)?;
            Ok(Reply::Ok)
        }
        Err(why) => Ok(Reply::No(why)),
    }
}

/// `rmdir`: removes the folder at a path, which has no entries; or tells the first reason against it. A path that begins
/// with a name of the volume's own is refused. A refused command changes nothing. Its attributes go before it, and the blocks of their values are given
/// back. Where the room doesn't suffice for them by what they cost, `Memory` is answered. It comes too where memory is wanting, `Disk` where a read
/// failed.
pub fn rmdir<P: SectorSpace>(
    volume: &mut Volume,
    alloc: Global,
    space: &mut P,
    path: &Path,
) -> Result<Reply, Trouble>
    requires serves { Serves volume.old (P.SectorView.space space.old) }
    requires fits { FitsPath path.now }
    // There is room for what it puts; the catalog needn't grow before.
    requires room { HasRoomToRemove volume.old (P.SectorView.space space.old) }
    // Told, reply and tree are those of the plain tree's step.
    ensures reply { IsTrue (P.SectorView.space space.old).tells → IfOk result (λ reply. reply ≡ (step_line (tree_of (P.SectorView.space space.old).content) (Ok (command.Rmdir path.now))).0) }
    ensures tree { IsTrue (P.SectorView.space space.old).tells → OnOk result (tree_of (P.SectorView.space space.new).content ≡ (step_line (tree_of (P.SectorView.space space.old).content) (Ok (command.Rmdir path.now))).1) }
    ensures refused { IsTrue (P.SectorView.space space.old).tells → IfOk result (λ reply. is_refusal reply ≡ true → (P.SectorView.space space.new).content ≡ (P.SectorView.space space.old).content) }
    // The content's lists are without its attributes and its entry, with one entry less in the folder above, and the header's numbers;
    // nothing else of them is changed.
    ensures lists { IsTrue (P.SectorView.space space.old).tells → IfOk result (λ said. said ≡ reply.Ok → HasRemoved path.now (P.SectorView.space space.old).content (P.SectorView.space space.new).content) }
    ensures serves { OnOk result (Serves volume.new (P.SectorView.space space.new)) }
    // No block that a content has in use is lost, and it puts sectors of its own alone.
    ensures frees { Frees P.SectorView.space P.SectorView.follows volume.old volume.new space.old space.new result }
    // What its load names bounds the sectors that it puts.
    ensures loads { IsTrue (P.SectorView.space space.old).tells → (n : ℕ) (grow : List ℕ) → weight (capacity_of volume.old) (volume_of (P.SectorView.space space.old).content) (tree_of (P.SectorView.space space.old).content) (command.Rmdir path.now) ≡ cost.Load n grow
        → (P.SectorView.space space.old).spare ≤ (P.SectorView.space space.new).spare + n }
{
    if is_private_path(path) {
        return Ok(Reply::No(Refusal::Private));
    }
    match path.as_slice().split_last() {
        Some((name, above)) => rmdir_under(volume, alloc, space, above, name),
        None => Ok(Reply::No(Refusal::Root)),
    }
}
