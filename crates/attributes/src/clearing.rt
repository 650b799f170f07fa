//! Attributes removed with all their records: one of them, or all of a folder or file, with the blocks of their values.
ghost use Rattle.std.specs.Prelude.{◌≡◌, ◌≤◌, ◌++◌, [], IsTrue, OnOk, IfOk, count_by, length};
ghost use Rattle.btree_node.specs.Keys.{IsAttrKey, attr_cmp, attr_file, attr_units, attr_start};
ghost use Rattle.btree_node.specs.Tree.{pairs_of};
ghost use Rattle.btree_edit.specs.Causes.{HasTroubleCause};
ghost use Rattle.btree_edit.specs.Edits.{EditRoom};
ghost use Rattle.hfs_model.specs.Sorted.{kept};
ghost use Rattle.hfs_volume.specs.Changes.{AreSortedAttributes, DropsAttribute};
ghost use Rattle.hfs_volume.specs.Commands.{DropsAttributes};
ghost use Rattle.attributes.specs.Dropping.{DropsAll, is_first, is_named};
ghost use Rattle.attributes.specs.Owned.{attributes_at, count_of, extents_owned, is_of};
ghost use Rattle.attributes.specs.Values.{AreSpelled, AreValued, extents_at, records_at};
ghost use Rattle.attributes.specs.Frame.{EditsAtMost, IsEditable};

use crate::dropping::{drop_first, drop_next};
use crate::pair::name_key;
use crate::value::Dropped;
use btree_edit::Desk;
use btree_node::NodeStore;
use fork_map::ExtentList;
use hx_bytes::{Trouble, Units};
use std::alloc::Global;

/// Removes the records of an attribute, of which there are at most `most`, adds the extents of its value to a list, and answers how many records it had.
pub(crate) fn drop_name<N: NodeStore>(
    alloc: Global,
    store: &mut N,
    desk: &mut Desk,
    id: u32,
    name: &Units,
    most: u32,
    blocks: &mut ExtentList,
) -> Result<u32, Trouble>
    // The least node size that the format allows the attributes file.
    requires ready { IsEditable IsAttrKey attr_cmp 4096 (N.state store.old) desk.old }
    requires form { IsTrue (N.state store.old).tells → AreValued (pairs_of (N.state store.old)) }
    requires name { length name.now ≤ 127 }
    requires few { IsTrue (N.state store.old).tells → records_at (pairs_of (N.state store.old)) id name.now ≤ most }
    requires room { IsTrue (N.state store.old).tells → EditRoom most 266 (N.state store.old) }
    ensures count { IsTrue (N.state store.old).tells → IfOk result (λ count. count ≡ records_at (pairs_of (N.state store.old)) id name.now) }
    ensures blocks { IsTrue (N.state store.old).tells → OnOk result (blocks.new ≡ blocks.old ++ extents_at (pairs_of (N.state store.old)) id name.now) }
    ensures dropped { IsTrue (N.state store.old).tells → OnOk result (DropsAttribute id name.now (pairs_of (N.state store.old)) (pairs_of (N.state store.new))) }
    ensures form { IsTrue (N.state store.old).tells → OnOk result (AreValued (pairs_of (N.state store.new))) }
    ensures frame { EditsAtMost N.state N.follows IsAttrKey attr_cmp most 266 store.old store.new desk.new result }
    ensures cause { HasTroubleCause (N.state store.old).faults (N.state store.new).faults result }
{
    let key = name_key(alloc, id, name)?;
    drop_under(alloc, store, desk, key.as_slice(), most, blocks)
}

/// The same by the key of the attribute's first record.
fn drop_under<N: NodeStore>(
    alloc: Global,
    store: &mut N,
    desk: &mut Desk,
    key: &[u8],
    most: u32,
    blocks: &mut ExtentList,
) -> Result<u32, Trouble>
    requires ready { IsEditable IsAttrKey attr_cmp 4096 (N.state store.old) desk.old }
    requires form { IsTrue (N.state store.old).tells → AreSpelled (pairs_of (N.state store.old)) }
    requires key { IsAttrKey key.now }
    requires start { attr_start key.now ≡ 0 }
    requires few { IsTrue (N.state store.old).tells → length (kept (is_named (attr_file key.now) (attr_units key.now)) (pairs_of (N.state store.old))) ≤ most }
    requires room { IsTrue (N.state store.old).tells → EditRoom most 266 (N.state store.old) }
    ensures count { IsTrue (N.state store.old).tells → IfOk result (λ count. count ≡ length (kept (is_named (attr_file key.now) (attr_units key.now)) (pairs_of (N.state store.old)))) }
    ensures dropped { IsTrue (N.state store.old).tells → OnOk result (DropsAll (is_named (attr_file key.now) (attr_units key.now)) (pairs_of (N.state store.old)) (pairs_of (N.state store.new)) blocks.old blocks.new) }
    ensures frame { EditsAtMost N.state N.follows IsAttrKey attr_cmp most 266 store.old store.new desk.new result }
    ensures cause { HasTroubleCause (N.state store.old).faults (N.state store.new).faults result }
{
    for dropped in 0..most {
        if !drop_first(alloc, store, desk, key, blocks)? {
            return Ok(dropped);
        }
    }
    Ok(most)
}

/// Removes the records of all attributes of a folder or file, of which there are at most `most`, and answers how many attributes it had, and their blocks.
pub fn drop_all<N: NodeStore>(
    alloc: Global,
    store: &mut N,
    desk: &mut Desk,
    id: u32,
    most: u32,
) -> Result<Dropped, Trouble>
    // The least node size that the format allows the attributes file.
    requires ready { IsEditable IsAttrKey attr_cmp 4096 (N.state store.old) desk.old }
    requires form { IsTrue (N.state store.old).tells → AreValued (pairs_of (N.state store.old)) }
    requires few { IsTrue (N.state store.old).tells → count_of id (pairs_of (N.state store.old)) ≤ most }
    requires room { IsTrue (N.state store.old).tells → EditRoom most 266 (N.state store.old) }
    // It answers how many attributes the folder or file had: a further record isn't one.
    ensures counted { IsTrue (N.state store.old).tells → IfOk result (λ dropped. dropped.count ≡ attributes_at (pairs_of (N.state store.old)) id) }
    ensures blocks { IsTrue (N.state store.old).tells → IfOk result (λ dropped. dropped.blocks ≡ extents_owned (pairs_of (N.state store.old)) id) }
    // They aren't there any more, and all others are as they were.
    ensures dropped { IsTrue (N.state store.old).tells → OnOk result (DropsAttributes id (pairs_of (N.state store.old)) (pairs_of (N.state store.new))) }
    ensures sorted { IsTrue (N.state store.old).tells → OnOk result (AreSortedAttributes (pairs_of (N.state store.new))) }
    ensures form { IsTrue (N.state store.old).tells → OnOk result (AreValued (pairs_of (N.state store.new))) }
    ensures frame { EditsAtMost N.state N.follows IsAttrKey attr_cmp most 266 store.old store.new desk.new result }
    ensures cause { HasTroubleCause (N.state store.old).faults (N.state store.new).faults result }
{
    let start = name_key(alloc, id, &Units::new(alloc))?;
    let gone = drop_each(alloc, store, desk, id, start.as_slice(), most)?;
    Ok(gone)
}

/// The same by the key before its first attribute.
fn drop_each<N: NodeStore>(
    alloc: Global,
    store: &mut N,
    desk: &mut Desk,
    id: u32,
    start: &[u8],
    most: u32,
) -> Result<Dropped, Trouble>
    requires ready { IsEditable IsAttrKey attr_cmp 4096 (N.state store.old) desk.old }
    requires form { IsTrue (N.state store.old).tells → AreSpelled (pairs_of (N.state store.old)) }
    requires start { IsAttrKey start.now }
    requires before { (attr_file start.now ≡ id) × (attr_units start.now ≡ []) }
    requires few { IsTrue (N.state store.old).tells → length (kept (is_of id) (pairs_of (N.state store.old))) ≤ most }
    requires room { IsTrue (N.state store.old).tells → EditRoom most 266 (N.state store.old) }
    ensures dropped { IsTrue (N.state store.old).tells → IfOk result (λ gone. DropsAll (is_of id) (pairs_of (N.state store.old)) (pairs_of (N.state store.new)) [] gone.blocks) }
    ensures counted { IsTrue (N.state store.old).tells → IfOk result (λ gone. gone.count ≡ count_by is_first (kept (is_of id) (pairs_of (N.state store.old)))) }
    ensures frame { EditsAtMost N.state N.follows IsAttrKey attr_cmp most 266 store.old store.new desk.new result }
    ensures cause { HasTroubleCause (N.state store.old).faults (N.state store.new).faults result }
{
    let mut gone = Dropped {
        count: 0,
        blocks: ExtentList::new(alloc),
    };
    for _dropped in 0..most {
        if !drop_next(alloc, store, desk, id, start, &mut gone)? {
            return Ok(gone);
        }
    }
    Ok(gone)
}
