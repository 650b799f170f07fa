//! `setattr`: an attribute of a folder or file, set to a value that stands in its record or in blocks.
ghost use Rattle.std.specs.Prelude.{◌≡◌, ◌<◌, ◌≤◌, ◌+◌, ℕ, List, Ok, Some, true, false, IsTrue, IfNone, IfOk, IfSome, length, OnOk};
ghost use Rattle.std.specs.List.{Contains};
ghost use Rattle.alloc_bitmap.specs.Map.{free_of, none};
ghost use Rattle.attributes.specs.Values.{extents_at, records_at};
ghost use Rattle.catalog.specs.Pairs.{value_at};
ghost use Rattle.cat_records.specs.Fits.{FitsRecord};
ghost use Rattle.flag_rows.specs.Bits.{count_set, sectors_for};
ghost use Rattle.hfs_language.specs.Written.{FitsPath};
ghost use Rattle.hfs_language.specs.declared.command.Command.TheVariants as command;
ghost use Rattle.hfs_language.specs.declared.reply.Reply.TheVariants as reply;
ghost use Rattle.hfs_model.specs.Step.{step, step_line, to_node, is_private_path, is_refusal, refuses};
ghost use Rattle.hfs_model.specs.declared.plain.PlainNode.{PlainNode};
ghost use Rattle.hfs_volume.specs.Aside.{IsJournalSector};
ghost use Rattle.hfs_volume.specs.Content.{volume_of, has_attributes};
ghost use Rattle.hfs_volume.specs.Data.{PutsInValues};
ghost use Rattle.hfs_volume.specs.Records.{is_thread};
ghost use Rattle.hfs_volume.specs.TreeOf.{tree_of};
ghost use Rattle.hfs_volume.specs.Weight.{blocks_for_value, value_change, weight_with};
ghost use Rattle.hfs_volume.specs.declared.cost.Cost.TheVariants as cost;
ghost use Rattle.volume_base.specs.Attributing.{HasRoomForValue, set_answer, value_load};
ghost use Rattle.volume_base.specs.Fitting.{IsMetNow};
ghost use Rattle.volume_base.specs.Frame.{Serves, Spills};
ghost use Rattle.volume_base.specs.Lists.{lists_of};
ghost use Rattle.volume_base.specs.Mapping.{HoldsUnchanged};
ghost use Rattle.volume_base.specs.Room.{capacity_of};
ghost use Rattle.volume_base.specs.Standing.{IsSettled};
ghost use Rattle.volume_values.specs.Valuing.{HasRoomToPlace, HasSet, PlacesValue, PutsValue, SetsAs, SetsOwned, place_load, touched_by_value};

use crate::attributing::{set, set_in_blocks};
use crate::marking::give_and_mark;
use fork_map::ExtentList;
use hfs_language::{Path, Refusal, Reply};
use hfs_volume::{
    ValueChange, setattr_does_its_step, setattr_of_a_long_value_does_its_step,
    sound_has_plain_tree, soundness_has_two_halves,
};
use hx_bytes::{Trouble, Units};
use sector_disk::SectorSpace;
use std::alloc::Global;
use tree_weights::{edits_have_room, edits_take_their_load, trees_grow_by_enough};
use volume_base::{Entry, Volume, blocks_for_value, is_private_path, is_short};
use volume_space::spill_value;

/// The most bytes of an attribute's value.
const MOST_BYTES: usize = 131_072;

/// Gives an attribute of a folder or file a value, and answers the blocks that its old one had, which aren't given back. A long one is put into fresh
/// blocks before. Its records are at most `most`.
fn place_value<P: SectorSpace>(
    volume: &mut Volume,
    alloc: Global,
    space: &mut P,
    id: u32,
    name: &Units,
    value: &[u8],
    most: u32,
) -> Result<ExtentList, Trouble>
    requires serves { Serves volume.old (P.SectorView.space space.old) }
    requires closed { IsTrue (P.SectorView.space space.old).tells → (at : ℕ) → (P.SectorView.space space.old).closed at → IsJournalSector (P.SectorView.space space.old).content at }
    requires has { IsTrue (has_attributes volume.old.header) }
    requires size { 4096 ≤ volume.old.attributes.file.shape.node_size }
    requires some { 1 ≤ length name.now }
    requires name { length name.now ≤ 127 }
    requires long { length value.now ≤ 131072 }
    requires few { IsTrue (P.SectorView.space space.old).tells → records_at (lists_of volume.old (P.SectorView.space space.old).content).attribute_pairs id name.now ≤ most }
    requires room { IsTrue (P.SectorView.space space.old).tells → HasRoomToPlace most (length value.now) volume.old (P.SectorView.space space.old) }
    ensures blocks { IsTrue (P.SectorView.space space.old).tells → IfOk result (λ old. old ≡ extents_at (lists_of volume.old (P.SectorView.space space.old).content).attribute_pairs id name.now) }
    ensures puts { IsTrue (P.SectorView.space space.old).tells → OnOk result (PlacesValue id name.now value.now volume.old volume.new (P.SectorView.space space.old).content (P.SectorView.space space.new).content) }
    ensures rest { volume.new ≡ record volume.old { map = volume.new.map; attributes = volume.new.attributes } }
    // The bits that the content has of sectors that weren't changed are as they were.
    ensures unchanged { IsTrue (P.SectorView.space space.old).tells → OnOk result (HoldsUnchanged volume.new (P.SectorView.space space.new).content) }
    ensures long { length volume.new.map.used ≡ length volume.old.map.used }
    ensures touched { volume.old.map.changed ≡ none (sectors_for (length volume.old.map.used)) → OnOk result (count_set volume.new.map.changed ≤ touched_by_value (length value.now) volume.old) }
    ensures spills { Spills P.SectorView.space P.SectorView.follows (place_load most (length value.now) volume.old) volume.old volume.new space.old space.new result }
{
    edits_have_room();
    edits_take_their_load();
    trees_grow_by_enough();
    if is_short(value.len()) {
        return set(volume, alloc, space, id, name, value, most);
    }
    let blocks = blocks_for_value(volume.header.block_size, value.len());
    if u64::from(volume.map.count_free()) < blocks {
        return Err(Trouble::Memory);
    }
    let fork = spill_value(volume, alloc, space, value)?;
    set_in_blocks(
        volume,
        alloc,
        space,
        id,
        name,
        value.len() as u64,
        &fork,
        most,
    )
}

/// How many sectors of the bitmap at most have bits that change where a value of so many bytes takes blocks: none where it takes none.
fn count_touched(volume: &Volume, long: usize) -> u64
    requires service { 512 ≤ volume.now.header.block_size }
    requires long { long ≤ 131072 }
    ensures { result ≡ touched_by_value long volume.now }
{
    let blocks = blocks_for_value(volume.header.block_size, long);
    if blocks == 0 {
        return 0;
    }
    blocks / 4096 + 2 * u64::from(volume.map.fewest(blocks as u32))
}

/// Gives an attribute of a folder or file that was found a value, gives the blocks of its old one back, and marks the folder or file.
fn put_value<P: SectorSpace>(
    volume: &mut Volume,
    alloc: Global,
    space: &mut P,
    entry: &Entry,
    id: u32,
    name: &Units,
    value: &[u8],
    change: ValueChange,
) -> Result<(), Trouble>
    requires serves { Serves volume.old (P.SectorView.space space.old) }
    requires closed { IsTrue (P.SectorView.space space.old).tells → (at : ℕ) → (P.SectorView.space space.old).closed at → IsJournalSector (P.SectorView.space space.old).content at }
    requires unchanged { volume.old.map.changed ≡ none (sectors_for (length volume.old.map.used)) }
    requires has { IsTrue (has_attributes volume.old.header) }
    requires entry_name { length entry.now.name ≤ 255 }
    requires there { IsTrue (P.SectorView.space space.old).tells → value_at (lists_of volume.old (P.SectorView.space space.old).content).catalog_pairs entry.now.parent entry.now.name ≡ Some entry.now.rec }
    requires fits { is_thread entry.now.rec ≡ false → FitsRecord entry.now.rec }
    requires some { 1 ≤ length name.now }
    requires name { length name.now ≤ 127 }
    requires long { length value.now ≤ 131072 }
    requires change { IsTrue (P.SectorView.space space.old).tells → change ≡ value_change (volume_of (P.SectorView.space space.old).content) id name.now (blocks_for_value volume.old.header.block_size (length value.now)) }
    requires room { HasRoomForValue 2 change volume.old (P.SectorView.space space.old) }
    ensures sets { IsTrue (P.SectorView.space space.old).tells → is_thread entry.now.rec ≡ false → OnOk result (PutsValue id name.now value.now entry.now volume.old volume.new (P.SectorView.space space.old).content (P.SectorView.space space.new).content) }
    ensures spills { Spills P.SectorView.space P.SectorView.follows (value_load 2 change volume.old) volume.old volume.new space.old space.new result }
{
    // The least node size that the format allows the attributes file (TN1150, "Attributes File").
    if volume.attributes.file.shape().node_size < 4096 {
        return Err(Trouble::Memory);
    }
    if change.records > 0xFFFF_FFFE {
        return Err(Trouble::Memory);
    }
    let most = change.records as u32 + 1;
    let touched = count_touched(volume, value.len());
    let old = place_value(volume, alloc, space, id, name, value, most)?;
    give_and_mark(volume, alloc, space, entry, &old, touched, true)
}

/// Sets an attribute of the folder or file with a CNID.
fn set_value_of<P: SectorSpace>(
    volume: &mut Volume,
    alloc: Global,
    space: &mut P,
    id: u32,
    name: &Units,
    value: &[u8],
    change: ValueChange,
) -> Result<(), Trouble>
    requires serves { Serves volume.old (P.SectorView.space space.old) }
    requires closed { IsTrue (P.SectorView.space space.old).tells → (at : ℕ) → (P.SectorView.space space.old).closed at → IsJournalSector (P.SectorView.space space.old).content at }
    requires has { IsTrue (has_attributes volume.old.header) }
    requires some { 1 ≤ length name.now }
    requires name { length name.now ≤ 127 }
    requires long { length value.now ≤ 131072 }
    requires there { IsTrue (P.SectorView.space space.old).tells → (node : PlainNode) × Contains (tree_of (P.SectorView.space space.old).content).nodes node × (node.id ≡ id) }
    requires change { IsTrue (P.SectorView.space space.old).tells → change ≡ value_change (volume_of (P.SectorView.space space.old).content) id name.now (blocks_for_value volume.old.header.block_size (length value.now)) }
    requires room { HasRoomForValue 2 change volume.old (P.SectorView.space space.old) }
    ensures does { IsTrue (P.SectorView.space space.old).tells → (path : List (List ℕ)) (node : PlainNode) → to_node (tree_of (P.SectorView.space space.old).content) path ≡ Ok node → node.id ≡ id
        → OnOk result (IsSettled volume.new (P.SectorView.space space.new).content × (tree_of (P.SectorView.space space.new).content ≡ (step (tree_of (P.SectorView.space space.old).content) (command.SetAttr path name.now value.now)).1)
        × SetsOwned id name.now value.now (volume_of (P.SectorView.space space.old).content) (volume_of (P.SectorView.space space.new).content) × PutsInValues (tree_of (P.SectorView.space space.old).content) (command.SetAttr path name.now value.now) (volume_of (P.SectorView.space space.old).content) (volume_of (P.SectorView.space space.new).content)) }
    ensures spills { Spills P.SectorView.space P.SectorView.follows (value_load 2 change volume.old) volume.old volume.new space.old space.new result }
{
    setattr_does_its_step();
    setattr_of_a_long_value_does_its_step();
    soundness_has_two_halves();
    volume.keep();
    match volume.entry(alloc, space, id)? {
        Some(entry) => put_value(volume, alloc, space, &entry, id, name, value, change),
        None => Ok(()),
    }
}

/// Sets an attribute of the folder or file with a CNID, or tells why not; where it can't be done now, nothing is answered.
fn set_or_refuse<P: SectorSpace>(
    volume: &mut Volume,
    alloc: Global,
    space: &mut P,
    id: u32,
    name: &Units,
    value: &[u8],
) -> Result<Option<Reply>, Trouble>
    requires serves { Serves volume.old (P.SectorView.space space.old) }
    requires closed { IsTrue (P.SectorView.space space.old).tells → (at : ℕ) → (P.SectorView.space space.old).closed at → IsJournalSector (P.SectorView.space space.old).content at }
    requires some { 1 ≤ length name.now }
    requires name { length name.now ≤ 127 }
    requires there { IsTrue (P.SectorView.space space.old).tells → (node : PlainNode) × Contains (tree_of (P.SectorView.space space.old).content).nodes node × (node.id ≡ id) }
    ensures answer { IsTrue (P.SectorView.space space.old).tells → (path : List (List ℕ)) (node : PlainNode) → is_private_path path ≡ false → to_node (tree_of (P.SectorView.space space.old).content) path ≡ Ok node → node.id ≡ id
        → IfOk result (λ said. SetsAs path name.now value.now said volume.old volume.new (P.SectorView.space space.old) (P.SectorView.space space.new)) }
    ensures loads { IsTrue (P.SectorView.space space.old).tells → (path : List (List ℕ)) (node : PlainNode) (n : ℕ) (grow : List ℕ) → is_private_path path ≡ false → to_node (tree_of (P.SectorView.space space.old).content) path ≡ Ok node → node.id ≡ id
        → weight_with (capacity_of volume.old) (free_of volume.old.map) (volume_of (P.SectorView.space space.old).content) (tree_of (P.SectorView.space space.old).content) (command.SetAttr path name.now value.now) ≡ cost.Load n grow → (P.SectorView.space space.old).spare ≤ (P.SectorView.space space.new).spare + n }
    ensures spills { Spills P.SectorView.space P.SectorView.follows (P.SectorView.space space.old).spare volume.old volume.new space.old space.new result }
{
    if value.len() > MOST_BYTES {
        return Ok(Some(Reply::No(Refusal::AttributeTooLarge)));
    }
    if volume.header.attributes_fork.logical_size == 0 {
        return Ok(Some(Reply::No(Refusal::NoTree)));
    }
    let blocks = blocks_for_value(volume.header.block_size, value.len());
    let change = volume.value_change(alloc, space, id, name, blocks)?;
    if !volume.fits_value(space, 2, change) {
        return Ok(None);
    }
    set_value_of(volume, alloc, space, id, name, value, change)?;
    Ok(Some(Reply::Ok))
}

/// `setattr`: gives an attribute of the folder or file that a path stands for this value, in place of one that it has,
/// and dates its attributes by the volume's moment; or tells the first reason against it, of which `AttributeTooLarge`
/// comes behind those of the path: it comes of more than 131,072 bytes. A value of at most 1,700 bytes stands in its record, a longer one in blocks that
/// were free. The blocks that the old value had are given back. A path that begins with a name of the volume's own is refused. What is refused by
/// nothing else is refused as `NoTree` by a volume without an attributes file. A refused command changes nothing. Nothing is told and nothing done
/// where free blocks are wanting, or room for what is put. `Memory` comes where memory is wanting, `Disk` where a read or a write failed.
pub fn setattr<P: SectorSpace>(
    volume: &mut Volume,
    alloc: Global,
    space: &mut P,
    path: &Path,
    name: &Units,
    value: &[u8],
) -> Result<Option<Reply>, Trouble>
    requires serves { Serves volume.old (P.SectorView.space space.old) }
    // Only the journal's sectors are closed.
    requires closed { IsTrue (P.SectorView.space space.old).tells → (at : ℕ) → (P.SectorView.space space.old).closed at → IsJournalSector (P.SectorView.space space.old).content at }
    requires fits { FitsPath path.now }
    requires some { 1 ≤ length name.now }
    requires name { length name.now ≤ 127 }
    // Told, the reply is that of the plain tree's step, but for a volume without an attributes file; and so is the tree.
    ensures reply { IsTrue (P.SectorView.space space.old).tells → IfOk result (λ said. IfSome said (λ reply. reply ≡ set_answer (has_attributes volume.old.header) (step_line (tree_of (P.SectorView.space space.old).content) (Ok (command.SetAttr path.now name.now value.now))).0)) }
    ensures tree { IsTrue (P.SectorView.space space.old).tells → IsTrue (has_attributes volume.old.header)
        → IfOk result (λ said. IfSome said (λ reply. tree_of (P.SectorView.space space.new).content ≡ (step_line (tree_of (P.SectorView.space space.old).content) (Ok (command.SetAttr path.now name.now value.now))).1)) }
    ensures refused { IsTrue (P.SectorView.space space.old).tells → IfOk result (λ said. IfSome said (λ reply. is_refusal reply ≡ true → (P.SectorView.space space.new).content ≡ (P.SectorView.space space.old).content)) }
    // Where it isn't refused, the folder or file has the attribute in the content's lists and is marked, blocks are taken and given back for its value alone, and
    // nothing else of them is changed.
    ensures lists { IsTrue (P.SectorView.space space.old).tells → IfOk result (λ said. said ≡ Some reply.Ok → HasSet path.now name.now value.now (P.SectorView.space space.old).content (P.SectorView.space space.new).content) }
    // Nothing is answered only where the step doesn't refuse it, and what it costs of the blocks that may be taken isn't met; and then nothing is changed.
    ensures waits { IsTrue (P.SectorView.space space.old).tells → IfOk result (λ said. IfNone said ((P.SectorView.space space.new).content ≡ (P.SectorView.space space.old).content)) }
    ensures waiting { IsTrue (P.SectorView.space space.old).tells → IfOk result (λ said. IfNone said (refuses (tree_of (P.SectorView.space space.old).content) (Ok (command.SetAttr path.now name.now value.now)) ≡ false)) }
    ensures unmet { IsTrue (P.SectorView.space space.old).tells → IfOk result (λ said. IfNone said (IsMetNow (command.SetAttr path.now name.now value.now) volume.old (P.SectorView.space space.old) → ⊥)) }
    ensures serves { OnOk result (Serves volume.new (P.SectorView.space space.new)) }
    // No block that a content has in use is lost. On a fault too, it puts sectors of its own alone, and spills into blocks that were free at the last
    // commit.
    ensures spills { Spills P.SectorView.space P.SectorView.follows (P.SectorView.space space.old).spare volume.old volume.new space.old space.new result }
    // What its load names bounds the sectors that it puts, on a fault too.
    ensures loads { IsTrue (P.SectorView.space space.old).tells → (n : ℕ) (grow : List ℕ) → weight_with (capacity_of volume.old) (free_of volume.old.map) (volume_of (P.SectorView.space space.old).content) (tree_of (P.SectorView.space space.old).content) (command.SetAttr path.now name.now value.now) ≡ cost.Load n grow
        → (P.SectorView.space space.old).spare ≤ (P.SectorView.space space.new).spare + n }
{
    if is_private_path(path) {
        return Ok(Some(Reply::No(Refusal::Private)));
    }
    sound_has_plain_tree();
    match volume.owner(alloc, space, path)? {
        Ok(id) => set_or_refuse(volume, alloc, space, id, name, value),
        Err(why) => Ok(Some(Reply::No(why))),
    }
}
