//! One record removed: the first that an attribute still has, or a folder or file, with the extents that it told.
ghost use Rattle.std.specs.Prelude.{◌≡◌, ◌<◌, ◌+◌, ◌*◌, [], ◌==◌, IsTrue, OnOk, IfOk, if◌then◌else◌};
ghost use Rattle.btree_node.specs.Keys.{IsAttrKey, attr_cmp, attr_file, attr_units, attr_start};
ghost use Rattle.btree_node.specs.Tree.{IsTree, pairs_of};
ghost use Rattle.btree_edit.specs.Causes.{HasTroubleCause};
ghost use Rattle.btree_edit.specs.Desk.{IsDeskOf};
ghost use Rattle.btree_edit.specs.Reading.{ReadsNodes};
ghost use Rattle.btree_edit.specs.Edits.{EditRoom};
ghost use Rattle.attributes.specs.Dropping.{DropsCounted, DropsFirst, FindsCounted, FindsFirst, is_named};
ghost use Rattle.attributes.specs.Owned.{is_of, IsKeyIfAny};
ghost use Rattle.attributes.specs.Values.{AreSpelled};
ghost use Rattle.attributes.specs.Frame.{EditsAtMost, IsEditable};

use crate::edits::remove_key;
use crate::finding::push_record;
use crate::holding::{hold_first, hold_owned};
use crate::pair::is_later_key;
use crate::value::Dropped;
use btree_edit::Desk;
use btree_node::NodeStore;
use fork_map::ExtentList;
use hx_bytes::{Bytes, OutOfMemory, Trouble};
use std::alloc::Global;

/// Removes the first record that an attribute still has, by the key of its first one, and answers whether it had one.
pub(crate) fn drop_first<N: NodeStore>(
    alloc: Global,
    store: &mut N,
    desk: &mut Desk,
    key: &[u8],
    blocks: &mut ExtentList,
) -> Result<bool, Trouble>
    // The least node size that the format allows the attributes file.
    requires ready { IsEditable IsAttrKey attr_cmp 4096 (N.state store.old) desk.old }
    requires form { IsTrue (N.state store.old).tells → AreSpelled (pairs_of (N.state store.old)) }
    requires key { IsAttrKey key.now }
    requires start { attr_start key.now ≡ 0 }
    requires room { IsTrue (N.state store.old).tells → EditRoom 1 266 (N.state store.old) }
    ensures dropped { IsTrue (N.state store.old).tells → IfOk result (λ some. DropsFirst (is_named (attr_file key.now) (attr_units key.now)) (pairs_of (N.state store.old)) (pairs_of (N.state store.new)) blocks.old blocks.new some) }
    ensures form { IsTrue (N.state store.old).tells → OnOk result (AreSpelled (pairs_of (N.state store.new))) }
    ensures frame { EditsAtMost N.state N.follows IsAttrKey attr_cmp 1 266 store.old store.new desk.new result }
    ensures cause { HasTroubleCause (N.state store.old).faults (N.state store.new).faults result }
{
    match first_of(alloc, store, desk, key, blocks)? {
        None => Ok(false),
        Some(own) => {
            remove_key(store, desk, own.as_slice())?;
            Ok(true)
        }
    }
}

/// The key of the first record that an attribute has, whose extents are added to the list; none where it has none.
fn first_of<N: NodeStore>(
    alloc: Global,
    store: &mut N,
    desk: &mut Desk,
    key: &[u8],
    blocks: &mut ExtentList,
) -> Result<Option<Bytes>, Trouble>
    requires desk { IsDeskOf (N.state store.old).shape.node_size desk.old }
    requires tree { IsTrue (N.state store.old).tells → IsTree IsAttrKey attr_cmp (N.state store.old) }
    requires form { IsTrue (N.state store.old).tells → AreSpelled (pairs_of (N.state store.old)) }
    requires key { IsAttrKey key.now }
    requires start { attr_start key.now ≡ 0 }
    ensures found { IsTrue (N.state store.old).tells → IfOk result (λ found. FindsFirst (is_named (attr_file key.now) (attr_units key.now)) (pairs_of (N.state store.old)) blocks.old blocks.new found) }
    ensures key { IfOk result (λ found. IsKeyIfAny found) }
    ensures reads { ReadsNodes (2 * (N.state store.old).shape.depth + 1) (N.state store.old) (N.state store.new) }
    ensures desk { IsDeskOf (N.state store.old).shape.node_size desk.new }
    ensures cause { HasTroubleCause (N.state store.old).faults (N.state store.new).faults result }
    ensures below { N.follows store.old store.new }
{
    if !hold_first(store, desk, key)? {
        return Ok(None);
    }
    push_record(alloc, desk.value(), blocks)?;
    let own = copy_bytes(alloc, desk.key())?;
    Ok(Some(own))
}

/// Removes the first record of a folder or file above a key, and answers whether there was one.
pub(crate) fn drop_next<N: NodeStore>(
    alloc: Global,
    store: &mut N,
    desk: &mut Desk,
    id: u32,
    start: &[u8],
    gone: &mut Dropped,
) -> Result<bool, Trouble>
    requires ready { IsEditable IsAttrKey attr_cmp 4096 (N.state store.old) desk.old }
    requires form { IsTrue (N.state store.old).tells → AreSpelled (pairs_of (N.state store.old)) }
    requires start { IsAttrKey start.now }
    requires before { (attr_file start.now ≡ id) × (attr_units start.now ≡ []) }
    requires room { IsTrue (N.state store.old).tells → EditRoom 1 266 (N.state store.old) }
    ensures dropped { IsTrue (N.state store.old).tells → IfOk result (λ some. DropsCounted (is_of id) (pairs_of (N.state store.old)) (pairs_of (N.state store.new)) gone.old gone.new some) }
    ensures form { IsTrue (N.state store.old).tells → OnOk result (AreSpelled (pairs_of (N.state store.new))) }
    ensures frame { EditsAtMost N.state N.follows IsAttrKey attr_cmp 1 266 store.old store.new desk.new result }
    ensures cause { HasTroubleCause (N.state store.old).faults (N.state store.new).faults result }
{
    match next_owned(alloc, store, desk, id, start, gone)? {
        None => Ok(false),
        Some(own) => {
            remove_key(store, desk, own.as_slice())?;
            Ok(true)
        }
    }
}

/// The key of the first record of a folder or file above a key, whose extents are added to the list and which is counted if it is the first of its attribute;
/// none where there is none.
fn next_owned<N: NodeStore>(
    alloc: Global,
    store: &mut N,
    desk: &mut Desk,
    id: u32,
    start: &[u8],
    gone: &mut Dropped,
) -> Result<Option<Bytes>, Trouble>
    requires desk { IsDeskOf (N.state store.old).shape.node_size desk.old }
    requires tree { IsTrue (N.state store.old).tells → IsTree IsAttrKey attr_cmp (N.state store.old) }
    requires form { IsTrue (N.state store.old).tells → AreSpelled (pairs_of (N.state store.old)) }
    requires start { IsAttrKey start.now }
    requires before { (attr_file start.now ≡ id) × (attr_units start.now ≡ []) }
    ensures found { IsTrue (N.state store.old).tells → IfOk result (λ found. FindsCounted (is_of id) (pairs_of (N.state store.old)) gone.old gone.new found) }
    ensures key { IfOk result (λ found. IsKeyIfAny found) }
    ensures reads { ReadsNodes ((N.state store.old).shape.depth + 1) (N.state store.old) (N.state store.new) }
    ensures desk { IsDeskOf (N.state store.old).shape.node_size desk.new }
    ensures cause { HasTroubleCause (N.state store.old).faults (N.state store.new).faults result }
    ensures below { N.follows store.old store.new }
{
    if !hold_owned(store, desk, id, start)? {
        return Ok(None);
    }
    push_record(alloc, desk.value(), &mut gone.blocks)?;
    gone.count = gone.count.saturating_add(one_if_first(desk.key()));
    let own = copy_bytes(alloc, desk.key())?;
    Ok(Some(own))
}

/// 1 where a key is of the first record of its attribute.
fn one_if_first(key: &[u8]) -> u32
    requires { IsAttrKey key.now }
    ensures { result ≡ (if attr_start key.now == 0 then 1 else 0) }
{
    if is_later_key(key) { 0 } else { 1 }
}

fn copy_bytes(alloc: Global, bytes: &[u8]) -> Result<Bytes, OutOfMemory>
    ensures { IfOk result (λ copy. copy ≡ bytes.now) }
{
    Ok(Bytes::from_vec(Vec::from_slice(alloc, bytes)?))
}
