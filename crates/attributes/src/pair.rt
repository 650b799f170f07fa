//! The pairs of the attributes tree, as bytes.
ghost use Rattle.std.specs.Prelude.{◌≡◌, ◌≤◌, ◌<◌, ◌+◌, ◌^◌, ◌↔◌, IsTrue, IfOk, length};
ghost use Rattle.btree_node.specs.Keys.{IsAttrKey, attr_file, attr_start, attr_units};
ghost use Rattle.std.specs.List.{AllByRecursion};
ghost use Rattle.cat_records.specs.Attributes.{attr_bytes};
ghost use Rattle.cat_records.specs.declared.attribute.AttrRecord.TheVariants.{Inline};
ghost use Rattle.attributes.specs.Forks.{SpellsPart, inline_part};
ghost use Rattle.attributes.specs.Values.{IsKeyOf};

use btree_node::{AttrOrder, KeyOrder};
use cat_records::{AttrRecord, attr_key, write_attr};
use hx_bytes::{Bytes, OutOfMemory, Units, read_be16, read_be32};
use std::alloc::Global;

/// A key and a value.
#[derive(Drop)]
pub struct AttributePair {
    pub(crate) key: Bytes,
    pub(crate) value: Bytes,
}

/// Each unit has sixteen bits: what the type says, for proofs.
fn units_fit(units: &[u16])
    ensures { AllByRecursion (λ unit. unit < 2 ^ 16) units.now }
{
    let _first = units.first();
}

/// Whether bytes are a key of an attribute of this folder or file.
pub(crate) fn is_key_of(key: &[u8], id: u32) -> bool
    ensures { IsTrue result ↔ (IsAttrKey key.now × (attr_file key.now ≡ id)) }
{
    AttrOrder::valid(key) && read_be32(key, 4) == id
}

/// Whether two keys of the same length have the same units in their names.
fn has_same_units(key: &[u8], other: &[u8]) -> bool
    requires { length key.now ≡ length other.now }
    ensures { IsTrue result ↔ (attr_units key.now ≡ attr_units other.now) }
{
    let mut at = 14;
    while at + 2 <= key.len() {
        if read_be16(key, at) != read_be16(other, at) {
            return false;
        }
        at += 2;
    }
    true
}

/// Whether two keys are of records of one attribute: they differ in the place of their record alone.
pub(crate) fn is_key_of_name(key: &[u8], other: &[u8]) -> bool
    requires { IsAttrKey other.now }
    ensures { IsTrue result ↔ (IsAttrKey key.now × (attr_file key.now ≡ attr_file other.now) × (attr_units key.now ≡ attr_units other.now)) }
{
    if !AttrOrder::valid(key) {
        return false;
    }
    if key.len() != other.len() {
        return false;
    }
    if read_be32(key, 4) != read_be32(other, 4) {
        return false;
    }
    has_same_units(key, other)
}

/// Whether a key is of a record behind the first one of its attribute.
pub(crate) fn is_later_key(key: &[u8]) -> bool
    requires { IsAttrKey key.now }
    ensures { IsTrue result ↔ (0 < attr_start key.now) }
{
    read_be32(key, 8) != 0
}

/// The key of the record of an attribute that begins with this block of its value.
fn record_key(alloc: Global, id: u32, name: &Units, start: u32) -> Result<Bytes, OutOfMemory>
    requires { length name.now ≤ 127 }
    ensures { IfOk result (λ key. IsKeyOf id name.now start key) }
{
    units_fit(name.as_slice());
    let key = attr_key(alloc, id, name, start)?;
    Ok(key)
}

/// The key of the first record of an attribute of a folder or file; with the empty name it stands before all its attributes.
pub(crate) fn name_key(alloc: Global, id: u32, name: &Units) -> Result<Bytes, OutOfMemory>
    requires { length name.now ≤ 127 }
    ensures { IfOk result (λ key. IsKeyOf id name.now 0 key) }
{
    record_key(alloc, id, name, 0)
}

/// The pair of a record of an attribute, from this block of its value on.
pub(crate) fn record_pair(
    alloc: Global,
    id: u32,
    name: &Units,
    start: u32,
    rec: &AttrRecord,
) -> Result<AttributePair, OutOfMemory>
    requires { length name.now ≤ 127 }
    ensures key { IfOk result (λ pair. IsKeyOf id name.now start pair.key) }
    ensures value { IfOk result (λ pair. pair.value ≡ attr_bytes rec.now) }
{
    let key = record_key(alloc, id, name, start)?;
    let value = write_attr(alloc, rec)?;
    Ok(AttributePair { key, value })
}

/// The pair of an attribute whose value stands in its record.
pub(crate) fn inline_pair(
    alloc: Global,
    id: u32,
    name: &Units,
    value: &[u8],
) -> Result<AttributePair, OutOfMemory>
    requires name { length name.now ≤ 127 }
    requires value { length value.now ≤ 1700 }
    ensures { IfOk result (λ pair. SpellsPart id name.now (inline_part value.now) pair) }
{
    let rec = inline_record(alloc, value)?;
    let pair = record_pair(alloc, id, name, 0, &rec)?;
    Ok(pair)
}

/// The record that holds a value.
fn inline_record(alloc: Global, value: &[u8]) -> Result<AttrRecord, OutOfMemory>
    ensures { IfOk result (λ record_. record_ ≡ Inline value.now) }
{
    let bytes = Bytes::from_vec(Vec::from_slice(alloc, value)?);
    Ok(AttrRecord::Inline(bytes))
}
