//! A leaf of the catalog, with what its records count.
ghost use Rattle.std.specs.Prelude.{◌≡◌, ◌↔◌, ◌≤◌, ◌+◌, ◌*◌, ◌++◌, List, length, false, true, slice_range, IsTrue, IfOk, OnOk, MatchOption, if◌then◌else◌};
ghost use Rattle.hx_bytes.specs.Field.{big_at};
ghost use Rattle.btree_node.specs.Node.{IsNode, offset, record_count};
ghost use Rattle.btree_node.specs.Levels.{key_of, value_of, pair_of};
ghost use Rattle.cat_records.specs.Records.{is_catalog};
ghost use Rattle.hfs_volume.specs.Entries.{count_in};
ghost use Rattle.hfs_volume.specs.Links.{private_id, is_shared_file, reference_of};
ghost use Rattle.hfs_volume.specs.Records.{Placed, entries_of, placed_of};
ghost use Rattle.volume_repair.specs.Recount.{with_word, file_recounted, value_recounted};
ghost use Rattle.volume_repair.specs.Repair.{record_mended, leaf_mended};
ghost use Rattle.fsck_repair.specs.Counted.{AreEntriesOf};
ghost use Rattle.fsck_repair.specs.Leaf.{IsGoodItem, IsGoodLeaf, SameFrom};

use crate::counts::Entries;
use crate::words::low_word;
use btree_node::{count_records, get_offset};
use fsck_core::{count_number, count_under, shared_file};
use hx_bytes::{OutOfMemory, read_be16, read_be32, write_be32};
use std::alloc::Global;

/// The types of records (TN1150, "Catalog Data Record Types"), and their lengths.
pub(crate) const FOLDER: u16 = 1;

pub(crate) const FILE: u16 = 2;

pub(crate) const FOLDER_LENGTH: usize = 88;

pub(crate) const FILE_LENGTH: usize = 248;

/// Sets the valence of a folder's record: the number of its entries (TN1150, "Catalog Folder Records").
fn mend_folder(value: &mut [u8], entries: &Entries)
    requires { 12 ≤ length value.old }
    ensures counted { (records : List Placed) → AreEntriesOf records entries.now → value.new ≡ with_word 4 (count_in (entries_of records) (big_at 4 value.old 8)) value.old }
    ensures size { length value.new ≡ length value.old }
{
    let count = count_under(&entries.rows, read_be32(value, 8));
    write_be32(value, 4, low_word(count));
}

/// The number that the links of a file with several names tell, where a record is one.
pub(crate) fn reference_of(
    alloc: Global,
    key: &[u8],
    value: &[u8],
    private: Option<u32>,
) -> Result<Option<u32>, OutOfMemory>
    requires { IsTrue (is_catalog value.now) }
    ensures { (records : List Placed) → private ≡ private_id records → 8 ≤ length key.now
        → IfOk result (λ o. MatchOption o (is_shared_file records (reference_of (placed_of (key.now, value.now))) (placed_of (key.now, value.now)) ≡ false)
        (λ reference. (is_shared_file records (reference_of (placed_of (key.now, value.now))) (placed_of (key.now, value.now)) ≡ true) × (reference_of (placed_of (key.now, value.now)) ≡ reference))) }
{
    let Some(folder) = private else {
        return Ok(None);
    };
    let Some(file) = shared_file(alloc, folder, key, value)? else {
        return Ok(None);
    };
    Ok(Some(file.reference))
}

/// Sets the number of links in the record of a file with several names (TN1150, "Hard Links").
fn mend_file(
    alloc: Global,
    key: &[u8],
    value: &mut [u8],
    entries: &Entries,
) -> Result<(), OutOfMemory>
    requires spelled { IsTrue (is_catalog value.old) }
    requires long { 48 ≤ length value.old }
    ensures counted { (records : List Placed) → AreEntriesOf records entries.now → 8 ≤ length key.now
        → OnOk result (value.new ≡ (if is_shared_file records (reference_of (placed_of (key.now, value.old))) (placed_of (key.now, value.old)) then file_recounted records (placed_of (key.now, value.old)) value.old else value.old)) }
    ensures size { length value.new ≡ length value.old }
{
    let Some(reference) = reference_of(alloc, key, value, entries.private)? else {
        return Ok(());
    };
    let count = count_number(&entries.links, reference);
    write_be32(value, 44, low_word(count));
    Ok(())
}

/// Whether bytes are a record of this type, which has this length.
pub(crate) fn is_record(value: &[u8], kind: u16, size: usize) -> bool
    requires { 2 ≤ size }
    ensures { IsTrue result ↔ ((length value.now ≡ size) × (big_at 2 value.now 0 ≡ kind)) }
{
    if value.len() != size {
        return false;
    }
    read_be16(value, 0) == kind
}

/// Sets what a record counts.
pub(crate) fn mend_value(
    alloc: Global,
    key: &[u8],
    value: &mut [u8],
    entries: &Entries,
) -> Result<(), OutOfMemory>
    ensures counted { (records : List Placed) → AreEntriesOf records entries.now → 8 ≤ length key.now → IsTrue (is_catalog value.old) → OnOk result (value.new ≡ value_recounted records (placed_of (key.now, value.old)) value.old) }
    ensures size { length value.new ≡ length value.old }
{
    if is_record(value, FOLDER, FOLDER_LENGTH) {
        mend_folder(value, entries);
        return Ok(());
    }
    if !is_record(value, FILE, FILE_LENGTH) {
        return Ok(());
    }
    mend_file(alloc, key, value, entries)
}

/// Sets what a record counts that stands behind its key.
fn mend_record(alloc: Global, item: &mut [u8], entries: &Entries) -> Result<(), OutOfMemory>
    ensures counted { (records : List Placed) → AreEntriesOf records entries.now → IsGoodItem item.old
        → OnOk result (item.new ≡ key_of item.old ++ value_recounted records (placed_of (pair_of item.old)) (value_of item.old)) }
    ensures size { length item.new ≡ length item.old }
{
    if item.len() < 2 {
        return Ok(());
    }
    let end = read_be16(item, 0) as usize + 2;
    if end > item.len() {
        return Ok(());
    }
    let (key, value) = item.split_at_mut(end);
    mend_value(alloc, key, value, entries)
}

/// Sets what a record of a leaf counts.
fn mend_nth(alloc: Global, node: &mut [u8], i: usize, entries: &Entries) -> Result<(), OutOfMemory>
    requires offsets { 2 * (i + 2) ≤ length node.old }
    requires order { offset node.old i ≤ offset node.old (i + 1) }
    requires inside { offset node.old (i + 1) ≤ length node.old }
    ensures counted { (records : List Placed) → AreEntriesOf records entries.now → IsGoodItem (slice_range node.old (offset node.old i) (offset node.old (i + 1))) → OnOk result (node.new ≡ record_mended records node.old i) }
    ensures same { SameFrom (offset node.old (i + 1)) node.old node.new }
{
    let from = get_offset(node, i);
    let to = get_offset(node, i + 1);
    mend_record(alloc, &mut node[from..to], entries)
}

/// Sets what the records of a leaf count.
fn mend_leaf(alloc: Global, node: &mut [u8], entries: &Entries) -> Result<(), OutOfMemory>
    requires long { 512 ≤ length node.old }
    requires well_formed { IsNode node.old }
    ensures counted { (records : List Placed) → AreEntriesOf records entries.now → IsGoodLeaf node.old → OnOk result (node.new ≡ leaf_mended records node.old) }
    ensures size { length node.new ≡ length node.old }
{
    for i in 0..count_records(node) {
        mend_nth(alloc, node, i, entries)?;
    }
    Ok(())
}

/// The bytes of a leaf with what its records count.
pub(crate) fn mended_leaf(
    alloc: Global,
    node: &[u8],
    entries: &Entries,
) -> Result<Vec<u8>, OutOfMemory>
    requires long { 512 ≤ length node.now }
    requires well_formed { IsNode node.now }
    ensures counted { (records : List Placed) → AreEntriesOf records entries.now → IsGoodLeaf node.now → IfOk result (λ bytes. bytes.items ≡ leaf_mended records node.now) }
    ensures size { IfOk result (λ bytes. length bytes.items ≡ length node.now) }
{
    let mut bytes = Vec::from_slice(alloc, node)?;
    mend_leaf(alloc, &mut bytes, entries)?;
    Ok(bytes)
}
