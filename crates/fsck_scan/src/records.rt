//! The records of a node, one by one: their keys, their values and their order.
ghost use Rattle.std.specs.Prelude.{◌≡◌, ◌<◌, ◌≤◌, ◌+◌, ◌++◌, ◌∷◌, [], ◌↔◌, All, IsTrue, length, slice_index_or, IfOk, IfSome, IfNone, OnOk};
ghost use Rattle.btree_node.specs.Node.{IsNode, items};
ghost use Rattle.btree_node.specs.Levels.{key_of, value_of, Ascends};
ghost use Rattle.fsck_scan.specs.Good.{IsGoodRecord, GoesOn, Takes, IsFlawed};

use btree_node::{KeyOrder, Node};
use fsck_list::Records;
use hx_bytes::{OutOfMemory, read_be16};

/// What is wrong with a node of a level.
#[derive(Clone, Copy, Debug, PartialEq, Eq)]
pub(crate) enum Flaw {
    /// One of its records isn't one of its height.
    Record,
    /// A key isn't above the one before it.
    Order,
}

/// The key at a record's front, with its length, or all of the record where it is shorter.
#[tactic(auto, unfolding(btree_node::specs::Levels::key_of))]
pub(crate) fn key_part(item: &[u8]) -> &[u8]
    ensures { result.now ≡ key_of item.now }
{
    if item.len() < 2 {
        return item;
    }
    let end = read_be16(item, 0) as usize + 2;
    if end < item.len() { &item[..end] } else { item }
}

/// What stands behind the key.
#[tactic(auto, unfolding(btree_node::specs::Levels::value_of))]
pub(crate) fn value_part(item: &[u8]) -> &[u8]
    ensures { result.now ≡ value_of item.now }
{
    if item.len() < 2 {
        return &item[item.len()..];
    }
    let end = read_be16(item, 0) as usize + 2;
    if end < item.len() {
        &item[end..]
    } else {
        &item[item.len()..]
    }
}

/// Whether a record has a key of the order, isn't too long, and has a value of its height.
fn is_good_record<K: KeyOrder>(most: usize, height: u8, item: &[u8]) -> bool
    ensures { IsTrue result ↔ IsGoodRecord K.is_key K.is_value most height item.now }
{
    if item.len() > most || !K::valid(key_part(item)) {
        return false;
    }
    let value = value_part(item);
    if height == 1 {
        return K::valid_value(value);
    }
    height == 0 || value.len() == 4
}

/// Whether a record may stand behind these: its key is above the last one's.
fn goes_on<K: KeyOrder>(records: &Records, item: &[u8]) -> bool
    requires keys { All (λ item. K.is_key (key_of item)) records.now }
    requires key { K.is_key (key_of item.now) }
    ensures { IsTrue result ↔ GoesOn K.cmp records.now item.now }
{
    let count = records.len();
    if count == 0 {
        return true;
    }
    K::compare(key_part(records.get(count - 1)), key_part(item)).is_lt()
}

/// Adds a node's records to those of its level. The first flaw ends it.
pub(crate) fn take_records<K: KeyOrder>(
    most: usize,
    height: u8,
    node: &Node,
    records: &mut Records,
) -> Result<Option<Flaw>, OutOfMemory>
    requires well_formed { IsNode node.now }
    requires keys { All (λ item. K.is_key (key_of item)) records.old }
    requires rising { Ascends K.cmp records.old }
    ensures taken { IfOk result (λ flaw. IfNone flaw (Takes K.is_key K.is_value K.cmp most height (items node.now) records.old records.new)) }
    ensures flawed { IfOk result (λ flaw. IfSome flaw (IsFlawed K.is_key K.is_value K.cmp most height (items node.now) records.old)) }
{
    for i in 0..node.count() {
        let item = node.item(i);
        if !is_good_record::<K>(most, height, item) {
            return Ok(Some(Flaw::Record));
        }
        if !goes_on::<K>(records, item) {
            return Ok(Some(Flaw::Order));
        }
        records.push(item)?;
    }
    Ok(None)
}
