//! Attributes set and deleted.
ghost use Rattle.std.specs.Prelude.{◌≡◌, ◌≤◌, ◌<◌, ◌+◌, IsTrue, length, OnOk, IfOk};
ghost use Rattle.fork_map.specs.Blocks.{blocks_of};
ghost use Rattle.btree_node.specs.Keys.{IsAttrKey, attr_cmp};
ghost use Rattle.btree_node.specs.Tree.{pairs_of};
ghost use Rattle.btree_edit.specs.Causes.{HasTroubleCause};
ghost use Rattle.btree_edit.specs.Edits.{EditRoom};
ghost use Rattle.hfs_volume.specs.Changes.{AreSortedAttributes, DropsAttribute, SetsFork};
ghost use Rattle.hfs_volume.specs.Cost.{overflow_records};
ghost use Rattle.hfs_volume.specs.Forks.{in_use};
ghost use Rattle.attributes.specs.Values.{AnswersDelete, AreValued, SetsValue, extents_at, records_at, value_at};
ghost use Rattle.attributes.specs.Frame.{EditsAtMost, IsEditable};

use crate::clearing::drop_name;
use crate::edits::{insert_pair, insert_pairs};
use crate::forks::fork_pairs;
use crate::pair::inline_pair;
use crate::value::Deleted;
use btree_edit::Desk;
use btree_node::NodeStore;
use fork_map::ExtentList;
use hx_bytes::{Trouble, Units};
use std::alloc::Global;

/// Gives an attribute of a folder or file a value that stands in its record, and answers the blocks that its old value had. Its records are at
/// most `most`.
pub fn set<N: NodeStore>(
    alloc: Global,
    store: &mut N,
    desk: &mut Desk,
    id: u32,
    name: &Units,
    value: &[u8],
    most: u32,
) -> Result<ExtentList, Trouble>
    // The least node size that the format allows the attributes file.
    requires ready { IsEditable IsAttrKey attr_cmp 4096 (N.state store.old) desk.old }
    requires form { IsTrue (N.state store.old).tells → AreValued (pairs_of (N.state store.old)) }
    requires some { 1 ≤ length name.now }
    requires name { length name.now ≤ 127 }
    requires short { length value.now ≤ 1700 }
    requires few { IsTrue (N.state store.old).tells → records_at (pairs_of (N.state store.old)) id name.now ≤ most }
    requires room { IsTrue (N.state store.old).tells → EditRoom (most + 1) 266 (N.state store.old) }
    ensures blocks { IsTrue (N.state store.old).tells → IfOk result (λ blocks. blocks ≡ extents_at (pairs_of (N.state store.old)) id name.now) }
    // The attribute has the value, and all others are as they were.
    ensures set { IsTrue (N.state store.old).tells → OnOk result (SetsValue id name.now value.now (pairs_of (N.state store.old)) (pairs_of (N.state store.new))) }
    ensures sorted { IsTrue (N.state store.old).tells → OnOk result (AreSortedAttributes (pairs_of (N.state store.new))) }
    ensures form { IsTrue (N.state store.old).tells → OnOk result (AreValued (pairs_of (N.state store.new))) }
    ensures frame { EditsAtMost N.state N.follows IsAttrKey attr_cmp (most + 1) 266 store.old store.new desk.new result }
    ensures cause { HasTroubleCause (N.state store.old).faults (N.state store.new).faults result }
{
    let mut blocks = ExtentList::new(alloc);
    let pair = inline_pair(alloc, id, name, value)?;
    drop_name(alloc, store, desk, id, name, most, &mut blocks)?;
    insert_pair(store, desk, &pair)?;
    Ok(blocks)
}

/// Gives an attribute of a folder or file a value in a fork, and answers the blocks that its old value had. Its records are at most `most`.
pub fn set_fork<N: NodeStore>(
    alloc: Global,
    store: &mut N,
    desk: &mut Desk,
    id: u32,
    name: &Units,
    size: u64,
    fork: &ExtentList,
    most: u32,
) -> Result<ExtentList, Trouble>
    // The least node size that the format allows the attributes file.
    requires ready { IsEditable IsAttrKey attr_cmp 4096 (N.state store.old) desk.old }
    requires form { IsTrue (N.state store.old).tells → AreValued (pairs_of (N.state store.old)) }
    requires some { 1 ≤ length name.now }
    requires name { length name.now ≤ 127 }
    requires long { 1700 < size }
    requires least { size ≤ 131072 }
    // The most blocks that so many bytes have: each has 512 at least.
    requires blocks { length (blocks_of fork.now) ≤ 256 }
    requires few { IsTrue (N.state store.old).tells → records_at (pairs_of (N.state store.old)) id name.now ≤ most }
    requires room { IsTrue (N.state store.old).tells → EditRoom (most + (1 + overflow_records (length (in_use fork.now)))) 266 (N.state store.old) }
    ensures blocks { IsTrue (N.state store.old).tells → IfOk result (λ blocks. blocks ≡ extents_at (pairs_of (N.state store.old)) id name.now) }
    // The attribute has the fork, and all others are as they were.
    ensures set { IsTrue (N.state store.old).tells → OnOk result (SetsFork id name.now size (in_use fork.now) (pairs_of (N.state store.old)) (pairs_of (N.state store.new))) }
    ensures sorted { IsTrue (N.state store.old).tells → OnOk result (AreSortedAttributes (pairs_of (N.state store.new))) }
    ensures form { IsTrue (N.state store.old).tells → OnOk result (AreValued (pairs_of (N.state store.new))) }
    ensures frame { EditsAtMost N.state N.follows IsAttrKey attr_cmp (most + (1 + overflow_records (length (in_use fork.now)))) 266 store.old store.new desk.new result }
    ensures cause { HasTroubleCause (N.state store.old).faults (N.state store.new).faults result }
{
    let mut blocks = ExtentList::new(alloc);
    let pairs = fork_pairs(alloc, id, name, size, fork)?;
    drop_name(alloc, store, desk, id, name, most, &mut blocks)?;
    insert_pairs(store, desk, pairs.as_slice())?;
    Ok(blocks)
}

/// Removes an attribute of a folder or file, whose records are at most `most`.
pub fn delete<N: NodeStore>(
    alloc: Global,
    store: &mut N,
    desk: &mut Desk,
    id: u32,
    name: &Units,
    most: u32,
) -> Result<Deleted, Trouble>
    // The least node size that the format allows the attributes file.
    requires ready { IsEditable IsAttrKey attr_cmp 4096 (N.state store.old) desk.old }
    requires form { IsTrue (N.state store.old).tells → AreValued (pairs_of (N.state store.old)) }
    requires name { length name.now ≤ 127 }
    requires few { IsTrue (N.state store.old).tells → records_at (pairs_of (N.state store.old)) id name.now ≤ most }
    requires room { IsTrue (N.state store.old).tells → EditRoom most 266 (N.state store.old) }
    // NoAttribute exactly where there is none of the name; else Done, with the blocks of its value.
    ensures answer { IsTrue (N.state store.old).tells → IfOk result (λ answer. AnswersDelete (value_at (pairs_of (N.state store.old)) id name.now) (extents_at (pairs_of (N.state store.old)) id name.now) answer) }
    // The attribute isn't there any more, and all others are as they were.
    ensures deleted { IsTrue (N.state store.old).tells → OnOk result (DropsAttribute id name.now (pairs_of (N.state store.old)) (pairs_of (N.state store.new))) }
    ensures sorted { IsTrue (N.state store.old).tells → OnOk result (AreSortedAttributes (pairs_of (N.state store.new))) }
    ensures form { IsTrue (N.state store.old).tells → OnOk result (AreValued (pairs_of (N.state store.new))) }
    ensures frame { EditsAtMost N.state N.follows IsAttrKey attr_cmp most 266 store.old store.new desk.new result }
    ensures cause { HasTroubleCause (N.state store.old).faults (N.state store.new).faults result }
{
    let mut blocks = ExtentList::new(alloc);
    if drop_name(alloc, store, desk, id, name, most, &mut blocks)? == 0 {
        return Ok(Deleted::NoAttribute);
    }
    Ok(Deleted::Done(blocks))
}
