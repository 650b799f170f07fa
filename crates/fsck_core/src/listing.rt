//! The entries of a catalog, read as rows.
ghost use Rattle.std.specs.Prelude.{◌≡◌, ◌≤◌, ◌++◌, ◌+◌, ◌&&◌, ◌==◌, [], length, All, IsTrue, IfOk, OnOk};
ghost use Rattle.std.specs.List.{list_all};
ghost use Rattle.hx_bytes.specs.Field.{big_at};
ghost use Rattle.hx_bytes.specs.Fork.{extent_at, extents_at, fork_at};
ghost use Rattle.cat_records.specs.Records.{is_catalog, catalog_of, entry_of};
ghost use Rattle.cat_records.specs.declared.record.CatRecord.TheVariants.{Folder, File, Thread};
ghost use Rattle.cat_records.specs.declared.record.ThreadRecord.{ThreadRecord};
ghost use Rattle.hfs_volume.specs.Records.{placed_of, placed_in, entries_of};
ghost use Rattle.hfs_volume.specs.Entries.{AreSpelled};
ghost use Rattle.fsck_core.specs.Kinds.{row_in, some_of};
ghost use Rattle.fsck_core.specs.Rows.{row_of, rows_of};

use crate::kinds::{has_no_name, parent_of};
use crate::rows::Row;
use crate::want::both;
use fsck_scan::Pairs;
use hx_bytes::{OutOfMemory, read_be16, read_be32};
use std::alloc::Global;

/// The types of records (TN1150, "Catalog Data Record Types").
const FOLDER: u16 = 1;

const FILE: u16 = 2;

/// `hlnk`, the type of a file that is a further name of another (TN1150, "Hard Links").
const LINK_TYPE: u32 = 0x686C_6E6B;

/// `hfs+`, the creator of such a file.
const LINK_CREATOR: u32 = 0x6866_732B;

/// Whether the Finder's bytes are those of a further name of a file.
fn is_link_type(finder: &[u8]) -> bool
    requires { 8 ≤ length finder.now }
    ensures { result ≡ ((big_at 4 finder.now 0 == 0x686C6E6B) && (big_at 4 finder.now 4 == 0x6866732B)) }
{
    both(
        read_be32(finder, 0) == LINK_TYPE,
        read_be32(finder, 4) == LINK_CREATOR,
    )
}

/// Whether the extent in the 8 bytes from a place on has no block.
fn is_unused(bytes: &[u8], at: usize) -> bool
    requires { at + 8 ≤ length bytes.now }
    ensures { result ≡ ((extent_at bytes.now at).count == 0) }
{
    read_be32(bytes, at + 4) == 0
}

/// Whether no extent of the eight in the 64 bytes from a place on has a block.
fn are_unused(bytes: &[u8], at: usize) -> bool
    requires { at + 64 ≤ length bytes.now }
    ensures { result ≡ list_all (λ extent. extent.count == 0) (extents_at bytes.now at).extents }
{
    let eighth = both(is_unused(bytes, at + 56), true);
    let seventh = both(is_unused(bytes, at + 48), eighth);
    let sixth = both(is_unused(bytes, at + 40), seventh);
    let fifth = both(is_unused(bytes, at + 32), sixth);
    let fourth = both(is_unused(bytes, at + 24), fifth);
    let third = both(is_unused(bytes, at + 16), fourth);
    let second = both(is_unused(bytes, at + 8), third);
    both(is_unused(bytes, at), second)
}

/// The row of a folder's record under a parent.
#[tactic(auto, unfolding(cat_records::specs::Records::entry_of))]
fn folder_row(parent: u32, value: &[u8]) -> Row
    requires { 88 ≤ length value.now }
    ensures { result ≡ row_of (record { parent = parent; name = []; value = Folder (record { fields = entry_of value.now }) }) }
{
    Row {
        parent,
        id: read_be32(value, 8),
        valence: read_be32(value, 4),
        special: read_be32(value, 44),
        folder: true,
        file: false,
        link: false,
        bare: false,
    }
}

/// The row of a file's record under a parent.
#[tactic(auto, unfolding(cat_records::specs::Records::entry_of))]
fn file_row(parent: u32, value: &[u8]) -> Row
    requires { 248 ≤ length value.now }
    ensures { result ≡ row_of (record { parent = parent; name = []; value = File (record { fields = entry_of value.now; data_fork = fork_at value.now 88; resource_fork = fork_at value.now 168 }) }) }
{
    Row {
        parent,
        id: read_be32(value, 8),
        valence: 0,
        special: read_be32(value, 44),
        folder: false,
        file: true,
        link: is_link_type(&value[48..80]),
        bare: both(are_unused(value, 104), are_unused(value, 184)),
    }
}

/// The row of a thread under a parent.
fn thread_row(parent: u32) -> Row
    ensures { (thread : ThreadRecord) → result ≡ row_of (record { parent = parent; name = []; value = Thread thread }) }
{
    Row {
        parent,
        id: 0,
        valence: 0,
        special: 0,
        folder: false,
        file: false,
        link: false,
        bare: false,
    }
}

/// The row of a record under a parent. Of its bytes only those are read that the row has.
fn row_of_record(parent: u32, value: &[u8]) -> Row
    requires { IsTrue (is_catalog value.now) }
    ensures { result ≡ row_of (record { parent = parent; name = []; value = catalog_of value.now }) }
{
    let kind = read_be16(value, 0);
    if kind == FOLDER {
        return folder_row(parent, value);
    }
    if kind == FILE {
        return file_row(parent, value);
    }
    thread_row(parent)
}

/// The row of a pair, where its key has a name.
pub(crate) fn read_row(key: &[u8], value: &[u8]) -> Option<Row>
    requires { IsTrue (is_catalog value.now) }
    ensures { 8 ≤ length key.now → result ≡ row_in (placed_of (key.now, value.now)) }
{
    if has_no_name(key) {
        return None;
    }
    Some(row_of_record(parent_of(key), value))
}

fn add_row(rows: &mut Vec<Row>, row: Option<Row>) -> Result<(), OutOfMemory>
    ensures { OnOk result (rows.new.items ≡ rows.old.items ++ some_of row) }
{
    if let Some(row) = row {
        rows.push(row)?;
    }
    Ok(())
}

/// The folders and files of a catalog whose values all spell records, in the order of their keys.
pub fn read_rows(alloc: Global, pairs: &Pairs) -> Result<Vec<Row>, OutOfMemory>
    requires { AreSpelled pairs.now }
    ensures { All (λ pair. 8 ≤ length pair.0) pairs.now → IfOk result (λ rows. rows.items ≡ rows_of (entries_of (placed_in pairs.now))) }
{
    let mut rows = Vec::new(alloc);
    for i in 0..pairs.len() {
        let row = read_row(pairs.key(i), pairs.value(i));
        add_row(&mut rows, row)?;
    }
    Ok(rows)
}
