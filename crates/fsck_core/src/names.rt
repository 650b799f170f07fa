//! Records of a catalog by their names, and the numbers in names.
ghost use Rattle.std.specs.Prelude.{◌≡◌, ◌≤◌, ◌<◌, ◌^◌, ◌++◌, ◌==◌, ◌&&◌, ℕ, length, decimal, All, Some, None, MatchOption, IfSome, IfOk, IsTrue, OnOk};
ghost use Rattle.std.specs.Str.{bytes_eq};
ghost use Rattle.btree_node.specs.Keys.{catalog_parent, catalog_units};
ghost use Rattle.cat_records.specs.Records.{catalog_of, is_catalog};
ghost use Rattle.hfs_volume.specs.Records.{placed_in, placed_of, record_at, numbered};
ghost use Rattle.hfs_volume.specs.Entries.{AreSpelled};
ghost use Rattle.hfs_volume.specs.Links.{node_name};
ghost use Rattle.fsck_core.specs.Names.{pair_at, value_found, id_found};

use crate::kinds::parent_of;
use cat_records::{CatRecord, RecordFault, read_catalog};
use fsck_scan::Pairs;
use hx_bytes::{OutOfMemory, Units, read_be16};
use itoa::Buffer;
use std::alloc::Global;

/// The CNID of the root folder.
const ROOT: u32 = 2;

/// `iNode`, before the number of a file with several names.
const NODE: [u16; 5] = [105, 78, 111, 100, 101];

/// Whether the name in a key of the catalog is this one.
pub(crate) fn has_name(key: &[u8], name: &[u16]) -> bool
    ensures { result ≡ bytes_eq (catalog_units key.now) name.now }
{
    let mut at = 8;
    for unit in name {
        if at + 2 > key.len() {
            return false;
        }
        if read_be16(key, at) != *unit {
            return false;
        }
        at += 2;
    }
    at + 2 > key.len()
}

/// Whether a key of the catalog is that of this name in the root.
fn stands_in_root(key: &[u8], name: &[u16]) -> bool
    ensures { 8 ≤ length key.now → result ≡ ((catalog_parent key.now == 2) && bytes_eq (catalog_units key.now) name.now) }
{
    if parent_of(key) != ROOT {
        return false;
    }
    has_name(key, name)
}

/// The place of the record with this name in the root, if there is one.
fn find_in_root(pairs: &Pairs, name: &[u16]) -> Option<usize>
    ensures inside { IfSome result (λ at. at < length pairs.now) }
    ensures is { All (λ pair. 8 ≤ length pair.0) pairs.now
        → MatchOption result (record_at (placed_in pairs.now) 2 name.now ≡ None) (λ at. record_at (placed_in pairs.now) 2 name.now ≡ Some (placed_of (pair_at pairs.now at))) }
{
    for at in 0..pairs.len() {
        if stands_in_root(pairs.key(at), name) {
            return Some(at);
        }
    }
    None
}

/// The record in a value of the catalog.
pub(crate) fn read_record(alloc: Global, value: &[u8]) -> Result<CatRecord, OutOfMemory>
    requires { IsTrue (is_catalog value.now) }
    ensures { IfOk result (λ rec. rec ≡ catalog_of value.now) }
{
    match read_catalog(alloc, value) {
        Ok(rec) => Ok(rec),
        Err(RecordFault::Memory) => Err(OutOfMemory),
        Err(RecordFault::BadRecord { .. }) => unreachable!(),
    }
}

/// The record with this name in the root, if there is one.
pub(crate) fn record_in_root(
    alloc: Global,
    pairs: &Pairs,
    name: &[u16],
) -> Result<Option<CatRecord>, OutOfMemory>
    requires { AreSpelled pairs.now }
    ensures { All (λ pair. 8 ≤ length pair.0) pairs.now → IfOk result (λ found. found ≡ value_found (record_at (placed_in pairs.now) 2 name.now)) }
{
    let Some(at) = find_in_root(pairs, name) else {
        return Ok(None);
    };
    let rec = read_record(alloc, pairs.value(at))?;
    Ok(Some(rec))
}

/// The CNID of a record that was found in the root, or that of the root itself.
pub(crate) fn id_found(found: &Option<CatRecord>) -> u32
    ensures { result ≡ id_found found.now }
{
    match found {
        Some(CatRecord::Folder(folder)) => folder.fields.id,
        Some(CatRecord::File(file)) => file.fields.id,
        Some(CatRecord::Thread(_)) => 0,
        None => ROOT,
    }
}

/// The units of the name in a key.
fn key_units(alloc: Global, key: &[u8]) -> Result<Units, OutOfMemory>
    ensures { IfOk result (λ units. units ≡ catalog_units key.now) }
{
    let mut units = Units::new(alloc);
    let mut at = 8;
    while at + 2 <= key.len() {
        units.push(read_be16(key, at))?;
        at += 2;
    }
    Ok(units)
}

fn append_digits(name: &mut Units, digits: &[u8]) -> Result<(), OutOfMemory>
    ensures { OnOk result (name.new ≡ name.old ++ digits.now) }
{
    for digit in digits {
        name.push(u16::from(*digit))?;
    }
    Ok(())
}

/// The name of a file with several names, under this number.
fn node_name(alloc: Global, reference: u32) -> Result<Units, OutOfMemory>
    ensures { IfOk result (λ name. name ≡ node_name reference) }
{
    let mut digits = Buffer::new();
    let mut name = Units::from_vec(Vec::from_slice(alloc, NODE.as_slice())?);
    append_digits(&mut name, digits.format(reference).as_bytes())?;
    Ok(name)
}

/// The number that decimal digits write. Of what isn't the digits of a number below 4,294,967,296 it tells some number.
fn read_number(digits: &[u16]) -> u32
    ensures { (number : ℕ) → number < 2 ^ 32 → digits.now ≡ decimal number → result ≡ number }
{
    let mut number: u32 = 0;
    for digit in digits {
        number = number
            .saturating_mul(10)
            .saturating_add(u32::from(*digit).saturating_sub(48));
    }
    number
}

/// The number in a key whose name is that of a file with several names (TN1150, "Hard Links").
pub(crate) fn node_number(alloc: Global, key: &[u8]) -> Result<Option<u32>, OutOfMemory>
    ensures is { IfOk result (λ found. (number : ℕ) → found ≡ Some number → (number < 2 ^ 32) × (catalog_units key.now ≡ node_name number)) }
    ensures whole { IfOk result (λ found. (number : ℕ) → number < 2 ^ 32 → catalog_units key.now ≡ node_name number → found ≡ Some number) }
{
    let name = key_units(alloc, key)?;
    if name.len() < NODE.len() {
        return Ok(None);
    }
    let number = read_number(&name.as_slice()[5..]);
    let node = node_name(alloc, number)?;
    if !has_name(key, node.as_slice()) {
        return Ok(None);
    }
    Ok(Some(number))
}
