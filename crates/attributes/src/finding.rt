//! An attribute's value found by its name.
ghost use Rattle.std.specs.Prelude.{◌≡◌, ◌≤◌, ◌+◌, ◌*◌, ◌++◌, IsTrue, IfOk, OnOk, length};
ghost use Rattle.btree_node.specs.Keys.{IsAttrKey, attr_cmp, attr_file, attr_units, attr_start};
ghost use Rattle.btree_node.specs.Tree.{IsTree, pairs_of};
ghost use Rattle.btree_edit.specs.Causes.{HasTroubleCause};
ghost use Rattle.btree_edit.specs.Desk.{IsDeskOf};
ghost use Rattle.btree_edit.specs.Reading.{ReadsNodes};
ghost use Rattle.hfs_volume.specs.Forks.{in_use};
ghost use Rattle.hfs_volume.specs.Records.{spelled_value};
ghost use Rattle.hfs_volume.specs.Values.{extents_in};
ghost use Rattle.attributes.specs.Dropping.{HoldsKey};
ghost use Rattle.attributes.specs.Values.{AreSpelled, AreValued, later_extents, records_at, value_at};

use crate::pair::{is_key_of_name, name_key};
use crate::value::ValueAt;
use btree_edit::{Desk, Found, look, seek, step};
use btree_node::{AttrOrder, NodeStore};
use cat_records::{AttrRecord, RecordFault, read_attr};
use fork_map::ExtentList;
use hx_bytes::{Bytes, OutOfMemory, Trouble, Units};
use overflow::push_used;
use std::alloc::Global;

/// The value of an attribute of a folder or file; none where it has none of the name.
pub fn value_of<N: NodeStore>(
    alloc: Global,
    store: &mut N,
    desk: &mut Desk,
    id: u32,
    name: &Units,
) -> Result<Option<ValueAt>, Trouble>
    requires desk { IsDeskOf (N.state store.old).shape.node_size desk.old }
    requires tree { IsTrue (N.state store.old).tells → IsTree IsAttrKey attr_cmp (N.state store.old) }
    requires form { IsTrue (N.state store.old).tells → AreValued (pairs_of (N.state store.old)) }
    requires name { length name.now ≤ 127 }
    ensures found { IsTrue (N.state store.old).tells → IfOk result (λ found. found ≡ value_at (pairs_of (N.state store.old)) id name.now) }
    // It changes nothing.
    ensures reads { ReadsNodes (2 * (N.state store.old).shape.depth + (N.state store.old).shape.leaf_records) (N.state store.old) (N.state store.new) }
    // It goes down the tree twice at most, and loads at most one node for each record of the attribute, and one behind them.
    ensures loads { IsTrue (N.state store.old).tells → OnOk result ((N.state store.new).loads ≤ (N.state store.old).loads + 2 * (N.state store.old).shape.depth + records_at (pairs_of (N.state store.old)) id name.now + 1) }
    ensures desk { IsDeskOf (N.state store.old).shape.node_size desk.new }
    ensures cause { HasTroubleCause (N.state store.old).faults (N.state store.new).faults result }
    ensures below { N.follows store.old store.new }
{
    let key = name_key(alloc, id, name)?;
    value_under(alloc, store, desk, key.as_slice())
}

/// The value of the attribute whose first record has a key.
fn value_under<N: NodeStore>(
    alloc: Global,
    store: &mut N,
    desk: &mut Desk,
    key: &[u8],
) -> Result<Option<ValueAt>, Trouble>
    requires desk { IsDeskOf (N.state store.old).shape.node_size desk.old }
    requires tree { IsTrue (N.state store.old).tells → IsTree IsAttrKey attr_cmp (N.state store.old) }
    requires form { IsTrue (N.state store.old).tells → AreValued (pairs_of (N.state store.old)) }
    requires key { IsAttrKey key.now }
    requires start { attr_start key.now ≡ 0 }
    ensures found { IsTrue (N.state store.old).tells → IfOk result (λ found. found ≡ value_at (pairs_of (N.state store.old)) (attr_file key.now) (attr_units key.now)) }
    ensures reads { ReadsNodes (2 * (N.state store.old).shape.depth + (N.state store.old).shape.leaf_records) (N.state store.old) (N.state store.new) }
    ensures loads { IsTrue (N.state store.old).tells → OnOk result ((N.state store.new).loads ≤ (N.state store.old).loads + 2 * (N.state store.old).shape.depth + records_at (pairs_of (N.state store.old)) (attr_file key.now) (attr_units key.now) + 1) }
    ensures desk { IsDeskOf (N.state store.old).shape.node_size desk.new }
    ensures cause { HasTroubleCause (N.state store.old).faults (N.state store.new).faults result }
    ensures below { N.follows store.old store.new }
{
    match look::<N, AttrOrder>(store, desk, key)? {
        Found::At { .. } => value_held(alloc, store, desk, key),
        Found::Absent => Ok(None),
    }
}

/// The value that the record on the desk tells, which has this key.
fn value_held<N: NodeStore>(
    alloc: Global,
    store: &mut N,
    desk: &mut Desk,
    key: &[u8],
) -> Result<Option<ValueAt>, Trouble>
    requires desk { IsDeskOf (N.state store.old).shape.node_size desk.old }
    requires tree { IsTrue (N.state store.old).tells → IsTree IsAttrKey attr_cmp (N.state store.old) }
    requires form { IsTrue (N.state store.old).tells → AreValued (pairs_of (N.state store.old)) }
    requires key { IsAttrKey key.now }
    requires start { attr_start key.now ≡ 0 }
    requires held { IsTrue (N.state store.old).tells → HoldsKey key.now (N.state store.old) desk.old }
    ensures found { IsTrue (N.state store.old).tells → IfOk result (λ found. found ≡ value_at (pairs_of (N.state store.old)) (attr_file key.now) (attr_units key.now)) }
    ensures reads { ReadsNodes ((N.state store.old).shape.depth + (N.state store.old).shape.leaf_records) (N.state store.old) (N.state store.new) }
    ensures loads { IsTrue (N.state store.old).tells → OnOk result ((N.state store.new).loads ≤ (N.state store.old).loads + (N.state store.old).shape.depth + records_at (pairs_of (N.state store.old)) (attr_file key.now) (attr_units key.now) + 1) }
    ensures desk { IsDeskOf (N.state store.old).shape.node_size desk.new }
    ensures cause { HasTroubleCause (N.state store.old).faults (N.state store.new).faults result }
    ensures below { N.follows store.old store.new }
{
    match read_record(alloc, desk.value())? {
        AttrRecord::Inline(bytes) => Ok(Some(ValueAt::Inline(bytes))),
        AttrRecord::Fork(fork) => {
            let mut list = ExtentList::new(alloc);
            push_used(&mut list, &fork.extents.extents)?;
            push_further(alloc, store, desk, key, &mut list)?;
            Ok(Some(ValueAt::Blocks {
                size: fork.logical_size,
                fork: list,
            }))
        }
        AttrRecord::More(_) => Ok(None),
    }
}

/// Adds the extents of the further records behind the first one, whose key this is.
fn push_further<N: NodeStore>(
    alloc: Global,
    store: &mut N,
    desk: &mut Desk,
    key: &[u8],
    list: &mut ExtentList,
) -> Result<(), Trouble>
    requires desk { IsDeskOf (N.state store.old).shape.node_size desk.old }
    requires tree { IsTrue (N.state store.old).tells → IsTree IsAttrKey attr_cmp (N.state store.old) }
    requires form { IsTrue (N.state store.old).tells → AreSpelled (pairs_of (N.state store.old)) }
    requires key { IsAttrKey key.now }
    requires start { attr_start key.now ≡ 0 }
    ensures added { IsTrue (N.state store.old).tells → OnOk result (list.new ≡ list.old ++ later_extents (pairs_of (N.state store.old)) (attr_file key.now) (attr_units key.now)) }
    ensures reads { ReadsNodes ((N.state store.old).shape.depth + (N.state store.old).shape.leaf_records) (N.state store.old) (N.state store.new) }
    ensures loads { IsTrue (N.state store.old).tells → OnOk result ((N.state store.new).loads ≤ (N.state store.old).loads + (N.state store.old).shape.depth + records_at (pairs_of (N.state store.old)) (attr_file key.now) (attr_units key.now) + 1) }
    ensures desk { IsDeskOf (N.state store.old).shape.node_size desk.new }
    ensures cause { HasTroubleCause (N.state store.old).faults (N.state store.new).faults result }
    ensures below { N.follows store.old store.new }
{
    let many = store.shape().leaf_records;
    let Some(first) = seek::<N, AttrOrder>(store, desk, key)? else {
        return Ok(());
    };
    let mut at = first;
    for _passed in 0..many {
        let Some(on) = step::<N, AttrOrder>(store, desk, at)? else {
            return Ok(());
        };
        if !is_key_of_name(desk.key(), key) {
            return Ok(());
        }
        push_record(alloc, desk.value(), list)?;
        at = on;
    }
    Ok(())
}

/// Adds the extents in use of an attribute's record; none of a value that stands in it.
pub(crate) fn push_record(
    alloc: Global,
    value: &[u8],
    list: &mut ExtentList,
) -> Result<(), OutOfMemory>
    ensures { OnOk result (list.new ≡ list.old ++ in_use (extents_in (spelled_value value.now))) }
{
    match read_record(alloc, value)? {
        AttrRecord::Inline(_) => Ok(()),
        AttrRecord::Fork(fork) => push_used(list, &fork.extents.extents),
        AttrRecord::More(more) => push_used(list, &more.extents),
    }
}

/// The record that bytes spell; where they spell none, one without a value.
fn read_record(alloc: Global, value: &[u8]) -> Result<AttrRecord, OutOfMemory>
    ensures { IfOk result (λ found. found ≡ spelled_value value.now) }
{
    match read_attr(alloc, value) {
        Ok(found) => Ok(found),
        Err(RecordFault::Memory) => Err(OutOfMemory),
        Err(RecordFault::BadRecord { .. }) => {
            Ok(AttrRecord::Inline(Bytes::from_vec(Vec::new(alloc))))
        }
    }
}
