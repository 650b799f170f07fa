//! Leaves of the catalog whose records say already what they count.
ghost use Rattle.std.specs.Prelude.{◌≡◌, ◌≤◌, List, length, take, drop, false, IsTrue, IfOk};
ghost use Rattle.btree_node.specs.Node.{IsNode};
ghost use Rattle.btree_node.specs.Levels.{value_of, pair_of};
ghost use Rattle.cat_records.specs.Records.{is_catalog};
ghost use Rattle.hfs_volume.specs.Links.{private_id};
ghost use Rattle.hfs_volume.specs.Records.{Placed, placed_of};
ghost use Rattle.volume_repair.specs.Recount.{value_recounted};
ghost use Rattle.volume_repair.specs.Repair.{leaf_mended};
ghost use Rattle.fsck_repair.specs.Counted.{AreEntriesOf};
ghost use Rattle.fsck_repair.specs.Leaf.{IsGoodItem, IsGoodLeaf};

use crate::counts::Entries;
use crate::leaf::{FILE, FILE_LENGTH, FOLDER, FOLDER_LENGTH, is_record, mend_value, reference_of};
use btree_node::Node;
use hx_bytes::{OutOfMemory, read_be16};
use std::alloc::Global;

/// Whether the value of a record counts something: it is a folder's, or that of a file with several names.
fn counts_something(
    alloc: Global,
    key: &[u8],
    value: &[u8],
    private: Option<u32>,
) -> Result<bool, OutOfMemory>
    ensures { (records : List Placed) → private ≡ private_id records → 8 ≤ length key.now → IsTrue (is_catalog value.now)
        → IfOk result (λ something. something ≡ false → value_recounted records (placed_of (key.now, value.now)) value.now ≡ value.now) }
{
    if is_record(value, FOLDER, FOLDER_LENGTH) {
        return Ok(true);
    }
    if !is_record(value, FILE, FILE_LENGTH) {
        return Ok(false);
    }
    let reference = reference_of(alloc, key, value, private)?;
    Ok(reference.is_some())
}

/// The value of a record with what it counts.
fn counted_value(
    alloc: Global,
    key: &[u8],
    value: &[u8],
    entries: &Entries,
) -> Result<Vec<u8>, OutOfMemory>
    ensures { (records : List Placed) → AreEntriesOf records entries.now → 8 ≤ length key.now → IsTrue (is_catalog value.now)
        → IfOk result (λ counted. counted.items ≡ value_recounted records (placed_of (key.now, value.now)) value.now) }
{
    let mut counted = Vec::from_slice(alloc, value)?;
    mend_value(alloc, key, &mut counted, entries)?;
    Ok(counted)
}

fn is_same(one: &[u8], other: &[u8]) -> bool
    ensures { IsTrue result → one.now ≡ other.now }
{
    one == other
}

/// Whether the value of a record says already what it counts.
fn is_right_value(
    alloc: Global,
    key: &[u8],
    value: &[u8],
    entries: &Entries,
) -> Result<bool, OutOfMemory>
    ensures { (records : List Placed) → AreEntriesOf records entries.now → 8 ≤ length key.now → IsTrue (is_catalog value.now)
        → IfOk result (λ right. IsTrue right → value_recounted records (placed_of (key.now, value.now)) value.now ≡ value.now) }
{
    let something = counts_something(alloc, key, value, entries.private)?;
    if !something {
        return Ok(true);
    }
    let counted = counted_value(alloc, key, value, entries)?;
    Ok(is_same(&counted, value))
}

fn front_of(bytes: &[u8], at: usize) -> &[u8]
    requires { at ≤ length bytes.now }
    ensures { result.now ≡ take at bytes.now }
{
    &bytes[..at]
}

fn rest_of(bytes: &[u8], at: usize) -> &[u8]
    requires { at ≤ length bytes.now }
    ensures { result.now ≡ drop at bytes.now }
{
    &bytes[at..]
}

/// Whether a record says already what it counts, which stands behind its key.
fn is_right_record(alloc: Global, item: &[u8], entries: &Entries) -> Result<bool, OutOfMemory>
    ensures { (records : List Placed) → AreEntriesOf records entries.now → IsGoodItem item.now
        → IfOk result (λ right. IsTrue right → value_recounted records (placed_of (pair_of item.now)) (value_of item.now) ≡ value_of item.now) }
{
    if item.len() < 2 {
        return Ok(false);
    }
    let end = read_be16(item, 0) as usize + 2;
    if end > item.len() {
        return Ok(false);
    }
    let right = is_right_value(alloc, front_of(item, end), rest_of(item, end), entries)?;
    Ok(right)
}

/// Whether all records of a leaf say already what they count, so that it stays as it is.
pub(crate) fn is_right_leaf(
    alloc: Global,
    node: &Node,
    entries: &Entries,
) -> Result<bool, OutOfMemory>
    requires { IsNode node.now }
    ensures { (records : List Placed) → AreEntriesOf records entries.now → IsGoodLeaf node.now → IfOk result (λ right. IsTrue right → leaf_mended records node.now ≡ node.now) }
{
    for i in 0..node.count() {
        let right = is_right_record(alloc, node.item(i), entries)?;
        if !right {
            return Ok(false);
        }
    }
    Ok(true)
}
