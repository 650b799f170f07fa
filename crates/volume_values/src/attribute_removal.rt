//! `delattr`: an attribute of a folder or file, deleted.
ghost use Rattle.std.specs.Prelude.{◌≡◌, ◌≤◌, ◌+◌, ℕ, List, Ok, Some, false, true, IsTrue, IfNone, IfOk, IfSome, length, OnOk};
ghost use Rattle.std.specs.List.{Contains};
ghost use Rattle.alloc_bitmap.specs.Map.{free_of, none};
ghost use Rattle.catalog.specs.Pairs.{value_at};
ghost use Rattle.cat_records.specs.Fits.{FitsRecord};
ghost use Rattle.flag_rows.specs.Bits.{sectors_for};
ghost use Rattle.hfs_language.specs.Written.{FitsPath};
ghost use Rattle.hfs_language.specs.declared.command.Command.TheVariants as command;
ghost use Rattle.hfs_language.specs.declared.reply.Reply.TheVariants as reply;
ghost use Rattle.hfs_model.specs.Step.{step, step_line, to_attribute, is_refusal, refuses};
ghost use Rattle.hfs_model.specs.declared.plain.PlainAttribute.{PlainAttribute};
ghost use Rattle.hfs_model.specs.declared.plain.PlainNode.{PlainNode};
ghost use Rattle.hfs_volume.specs.Content.{volume_of, has_attributes};
ghost use Rattle.hfs_volume.specs.Records.{is_thread};
ghost use Rattle.hfs_volume.specs.TreeOf.{tree_of};
ghost use Rattle.hfs_volume.specs.Weight.{value_change, weight_with};
ghost use Rattle.hfs_volume.specs.declared.cost.Cost.TheVariants as cost;
ghost use Rattle.volume_base.specs.Attributing.{HasRoomForValue, value_load};
ghost use Rattle.hfs_volume.specs.Attributing.{DeletesAttribute};
ghost use Rattle.hfs_volume.specs.Data.{PutsInValues};
ghost use Rattle.volume_base.specs.Fitting.{IsMetNow};
ghost use Rattle.volume_base.specs.Frame.{Frees, Ran, Serves};
ghost use Rattle.volume_base.specs.Holding.{KeepsUsed};
ghost use Rattle.volume_base.specs.Lists.{lists_of};
ghost use Rattle.volume_base.specs.Room.{capacity_of};
ghost use Rattle.volume_base.specs.Standing.{IsSettled, own_sectors};
ghost use Rattle.volume_values.specs.Valuing.{DeletesAs, HasDeleted, TakesValue};

use crate::marking::give_and_mark;
use hfs_language::{Path, Refusal, Reply};
use hfs_volume::{
    ValueChange, delattr_does_its_step, sound_has_plain_tree, soundness_has_two_halves,
};
use hx_bytes::{Trouble, Units};
use sector_disk::SectorSpace;
use std::alloc::Global;
use tree_weights::{edits_have_room, edits_take_their_load};
use volume_base::{Entry, Volume, is_private_path};

/// Deletes an attribute of a folder or file that was found, gives the blocks of its value back, and marks the folder or file as one that has others, or
/// none.
fn remove_value<P: SectorSpace>(
    volume: &mut Volume,
    alloc: Global,
    space: &mut P,
    entry: &Entry,
    id: u32,
    name: &Units,
    others: bool,
    change: ValueChange,
) -> Result<(), Trouble>
    requires serves { Serves volume.old (P.SectorView.space space.old) }
    requires unchanged { volume.old.map.changed ≡ none (sectors_for (length volume.old.map.used)) }
    requires has { IsTrue (has_attributes volume.old.header) }
    requires entry_name { length entry.now.name ≤ 255 }
    requires there { IsTrue (P.SectorView.space space.old).tells → value_at (lists_of volume.old (P.SectorView.space space.old).content).catalog_pairs entry.now.parent entry.now.name ≡ Some entry.now.rec }
    requires fits { is_thread entry.now.rec ≡ false → FitsRecord entry.now.rec }
    requires name { length name.now ≤ 127 }
    requires change { IsTrue (P.SectorView.space space.old).tells → change ≡ value_change (volume_of (P.SectorView.space space.old).content) id name.now 0 }
    requires room { HasRoomForValue 1 change volume.old (P.SectorView.space space.old) }
    ensures deletes { IsTrue (P.SectorView.space space.old).tells → is_thread entry.now.rec ≡ false → OnOk result (TakesValue id name.now others entry.now volume.old volume.new (P.SectorView.space space.old).content (P.SectorView.space space.new).content) }
    ensures ran { Ran P.SectorView.space P.SectorView.follows (λ s. Contains (own_sectors volume.old) s) (value_load 1 change volume.old) volume.new space.old space.new result }
    ensures used { KeepsUsed volume.old volume.new }
{
    edits_have_room();
    edits_take_their_load();
    // The least node size that the format allows the attributes file (TN1150, "Attributes File").
    if volume.attributes.file.shape().node_size < 4096 {
        return Err(Trouble::Memory);
    }
    if change.records > 0xFFFF_FFFE {
        return Err(Trouble::Memory);
    }
    let most = change.records as u32 + 1;
    let old = volume.delete(alloc, space, id, name, most)?;
    give_and_mark(volume, alloc, space, entry, &old, 0, others)
}

/// Deletes an attribute of the folder or file with a CNID, which has others or not.
fn delete_from<P: SectorSpace>(
    volume: &mut Volume,
    alloc: Global,
    space: &mut P,
    id: u32,
    name: &Units,
    others: bool,
    change: ValueChange,
) -> Result<(), Trouble>
    requires serves { Serves volume.old (P.SectorView.space space.old) }
    requires has { IsTrue (has_attributes volume.old.header) }
    requires name { length name.now ≤ 127 }
    requires there { IsTrue (P.SectorView.space space.old).tells → (node : PlainNode) × Contains (tree_of (P.SectorView.space space.old).content).nodes node × (node.id ≡ id) }
    requires change { IsTrue (P.SectorView.space space.old).tells → change ≡ value_change (volume_of (P.SectorView.space space.old).content) id name.now 0 }
    requires room { HasRoomForValue 1 change volume.old (P.SectorView.space space.old) }
    ensures does { IsTrue (P.SectorView.space space.old).tells → (path : List (List ℕ)) (node : PlainNode) (attribute : PlainAttribute) → to_attribute (tree_of (P.SectorView.space space.old).content) path name.now ≡ Ok (node, attribute) → node.id ≡ id
        → OnOk result (IsSettled volume.new (P.SectorView.space space.new).content × (tree_of (P.SectorView.space space.new).content ≡ (step (tree_of (P.SectorView.space space.old).content) (command.DelAttr path name.now)).1)
        × DeletesAttribute id name.now (volume_of (P.SectorView.space space.old).content) (volume_of (P.SectorView.space space.new).content) × PutsInValues (tree_of (P.SectorView.space space.old).content) (command.DelAttr path name.now) (volume_of (P.SectorView.space space.old).content) (volume_of (P.SectorView.space space.new).content)) }
    ensures ran { Ran P.SectorView.space P.SectorView.follows (λ s. Contains (own_sectors volume.old) s) (value_load 1 change volume.old) volume.new space.old space.new result }
    ensures used { KeepsUsed volume.old volume.new }
{
    delattr_does_its_step();
    soundness_has_two_halves();
    volume.keep();
    match volume.entry(alloc, space, id)? {
        Some(entry) => remove_value(volume, alloc, space, &entry, id, name, others, change),
        None => Ok(()),
    }
}

/// Deletes an attribute of the folder or file with a CNID, which has others or not; where it can't be done now, nothing is answered.
fn delete_now<P: SectorSpace>(
    volume: &mut Volume,
    alloc: Global,
    space: &mut P,
    id: u32,
    name: &Units,
    others: bool,
) -> Result<Option<Reply>, Trouble>
    requires serves { Serves volume.old (P.SectorView.space space.old) }
    requires has { IsTrue (has_attributes volume.old.header) }
    requires name { length name.now ≤ 127 }
    requires there { IsTrue (P.SectorView.space space.old).tells → (node : PlainNode) × Contains (tree_of (P.SectorView.space space.old).content).nodes node × (node.id ≡ id) }
    ensures answer { IsTrue (P.SectorView.space space.old).tells → (path : List (List ℕ)) (node : PlainNode) (attribute : PlainAttribute) → to_attribute (tree_of (P.SectorView.space space.old).content) path name.now ≡ Ok (node, attribute) → node.id ≡ id
        → IfOk result (λ said. DeletesAs path name.now said volume.old volume.new (P.SectorView.space space.old) (P.SectorView.space space.new)) }
    ensures loads { IsTrue (P.SectorView.space space.old).tells → (path : List (List ℕ)) (node : PlainNode) (attribute : PlainAttribute) (n : ℕ) (grow : List ℕ) → to_attribute (tree_of (P.SectorView.space space.old).content) path name.now ≡ Ok (node, attribute) → node.id ≡ id
        → weight_with (capacity_of volume.old) (free_of volume.old.map) (volume_of (P.SectorView.space space.old).content) (tree_of (P.SectorView.space space.old).content) (command.DelAttr path name.now) ≡ cost.Load n grow → (P.SectorView.space space.old).spare ≤ (P.SectorView.space space.new).spare + n }
    ensures frees { Frees P.SectorView.space P.SectorView.follows volume.old volume.new space.old space.new result }
{
    let change = volume.value_change(alloc, space, id, name, 0)?;
    if !volume.fits_value(space, 1, change) {
        return Ok(None);
    }
    delete_from(volume, alloc, space, id, name, others, change)?;
    Ok(Some(Reply::Ok))
}

/// `delattr`: deletes an attribute of the folder or file that a path stands for, and dates its attributes by the volume's
/// moment; or tells the first reason against it, of which `NoAttribute` comes last. The blocks that its value had are given back. A path that begins with
/// a name of the volume's own is refused. A refused command changes nothing. Nothing is told and nothing done where room for what is put is wanting.
/// `Memory` comes where memory is wanting, `Disk` where a read failed.
pub fn delattr<P: SectorSpace>(
    volume: &mut Volume,
    alloc: Global,
    space: &mut P,
    path: &Path,
    name: &Units,
) -> Result<Option<Reply>, Trouble>
    requires serves { Serves volume.old (P.SectorView.space space.old) }
    requires fits { FitsPath path.now }
    requires name { length name.now ≤ 127 }
    // Told, reply and tree are those of the plain tree's step.
    ensures reply { IsTrue (P.SectorView.space space.old).tells → IfOk result (λ said. IfSome said (λ reply. reply ≡ (step_line (tree_of (P.SectorView.space space.old).content) (Ok (command.DelAttr path.now name.now))).0)) }
    ensures tree { IsTrue (P.SectorView.space space.old).tells → IfOk result (λ said. IfSome said (λ reply. tree_of (P.SectorView.space space.new).content ≡ (step_line (tree_of (P.SectorView.space space.old).content) (Ok (command.DelAttr path.now name.now))).1)) }
    ensures refused { IsTrue (P.SectorView.space space.old).tells → IfOk result (λ said. IfSome said (λ reply. is_refusal reply ≡ true → (P.SectorView.space space.new).content ≡ (P.SectorView.space space.old).content)) }
    // Where it isn't refused, the folder or file hasn't the attribute in the content's lists and is marked, the blocks of its value are free, and nothing else
    // of them is changed.
    ensures lists { IsTrue (P.SectorView.space space.old).tells → IfOk result (λ said. said ≡ Some reply.Ok → HasDeleted path.now name.now (P.SectorView.space space.old).content (P.SectorView.space space.new).content) }
    // Nothing is answered only where the step doesn't refuse it, and what it costs of the blocks that may be taken isn't met; and then nothing is changed.
    ensures waits { IsTrue (P.SectorView.space space.old).tells → IfOk result (λ said. IfNone said ((P.SectorView.space space.new).content ≡ (P.SectorView.space space.old).content)) }
    ensures waiting { IsTrue (P.SectorView.space space.old).tells → IfOk result (λ said. IfNone said (refuses (tree_of (P.SectorView.space space.old).content) (Ok (command.DelAttr path.now name.now)) ≡ false)) }
    ensures unmet { IsTrue (P.SectorView.space space.old).tells → IfOk result (λ said. IfNone said (IsMetNow (command.DelAttr path.now name.now) volume.old (P.SectorView.space space.old) → ⊥)) }
    ensures serves { OnOk result (Serves volume.new (P.SectorView.space space.new)) }
    // No block that a content has in use is lost, and it puts sectors of its own alone.
    ensures frees { Frees P.SectorView.space P.SectorView.follows volume.old volume.new space.old space.new result }
    // What its load names bounds the sectors that it puts, on a fault too.
    ensures loads { IsTrue (P.SectorView.space space.old).tells → (n : ℕ) (grow : List ℕ) → weight_with (capacity_of volume.old) (free_of volume.old.map) (volume_of (P.SectorView.space space.old).content) (tree_of (P.SectorView.space space.old).content) (command.DelAttr path.now name.now) ≡ cost.Load n grow
        → (P.SectorView.space space.old).spare ≤ (P.SectorView.space space.new).spare + n }
{
    if is_private_path(path) {
        return Ok(Some(Reply::No(Refusal::Private)));
    }
    sound_has_plain_tree();
    match volume.owner(alloc, space, path)? {
        Ok(id) => match volume.owned(alloc, space, id, name)? {
            Some(others) => delete_now(volume, alloc, space, id, name, others),
            None => Ok(Some(Reply::No(Refusal::NoAttribute))),
        },
        Err(why) => Ok(Some(Reply::No(why))),
    }
}
