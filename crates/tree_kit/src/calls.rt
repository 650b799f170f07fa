//! Calls of a tree in such sectors.
ghost use Rattle.std.specs.Prelude.{◌≡◌, ◌≤◌, ◌<◌, ◌+◌, ◌-◌, ◌/◌, ◌^◌, ℕ, length};
ghost use Rattle.btree_edit.specs.Desk.{IsDeskOf};
ghost use Rattle.btree_file.specs.Frame.{SameFile};
ghost use Rattle.btree_file.specs.Growth.{HasWholeNodes, RunInside, nodes_with};
ghost use Rattle.btree_file.specs.Standing.{numbers_of, LiesInside};
ghost use Rattle.alloc_bitmap.specs.Untold.{told_none};

use btree_edit::{Desk, Found, Inserted, Removed, find, insert, next, remove, replace};
use btree_file::{TreeFile, TreeOn};
use btree_node::KeyOrder;
use hx_bytes::{Extent, Failed, Trouble};
use sector_kit::Sectors;
use std::alloc::Global;

/// Adds a pair.
pub fn add<K: KeyOrder>(
    tree: &mut TreeFile,
    space: &mut Sectors,
    desk: &mut Desk,
    key: &[u8],
    value: &[u8],
) -> Result<Inserted, Failed>
    requires desk { IsDeskOf (numbers_of tree.old).node_size desk.old }
    requires inside { LiesInside tree.old (told_none (length space.old.list.items)) }
    requires key { K.is_key key.now }
    requires short { length key.now + length value.now ≤ (numbers_of tree.old).node_size / 2 - 10 }
    ensures file { SameFile tree.old tree.new }
    ensures sectors { length space.new.list.items ≡ length space.old.list.items }
    ensures desk { IsDeskOf (numbers_of tree.old).node_size desk.new }
{
    let mut on = TreeOn { tree, space };
    insert::<TreeOn<Sectors>, K>(&mut on, desk, key, value)
}

/// Removes a pair.
pub fn take_out<K: KeyOrder>(
    tree: &mut TreeFile,
    space: &mut Sectors,
    desk: &mut Desk,
    key: &[u8],
) -> Result<Removed, Failed>
    requires desk { IsDeskOf (numbers_of tree.old).node_size desk.old }
    requires inside { LiesInside tree.old (told_none (length space.old.list.items)) }
    requires key { K.is_key key.now }
    ensures file { SameFile tree.old tree.new }
    ensures sectors { length space.new.list.items ≡ length space.old.list.items }
    ensures desk { IsDeskOf (numbers_of tree.old).node_size desk.new }
{
    let mut on = TreeOn { tree, space };
    remove::<TreeOn<Sectors>, K>(&mut on, desk, key)
}

/// Gives a pair another value.
pub fn change<K: KeyOrder>(
    tree: &mut TreeFile,
    space: &mut Sectors,
    desk: &mut Desk,
    key: &[u8],
    value: &[u8],
) -> Result<Removed, Failed>
    requires desk { IsDeskOf (numbers_of tree.old).node_size desk.old }
    requires inside { LiesInside tree.old (told_none (length space.old.list.items)) }
    requires key { K.is_key key.now }
    requires short { length key.now + length value.now ≤ (numbers_of tree.old).node_size / 2 - 10 }
    ensures file { SameFile tree.old tree.new }
    ensures sectors { length space.new.list.items ≡ length space.old.list.items }
    ensures desk { IsDeskOf (numbers_of tree.old).node_size desk.new }
{
    let mut on = TreeOn { tree, space };
    replace::<TreeOn<Sectors>, K>(&mut on, desk, key, value)
}

/// Finds a pair.
pub fn find_pair<K: KeyOrder>(
    tree: &mut TreeFile,
    space: &mut Sectors,
    desk: &mut Desk,
    key: &[u8],
) -> Result<Found, Failed>
    requires desk { IsDeskOf (numbers_of tree.old).node_size desk.old }
    requires inside { LiesInside tree.old (told_none (length space.old.list.items)) }
    requires key { K.is_key key.now }
    ensures file { SameFile tree.old tree.new }
    ensures sectors { length space.new.list.items ≡ length space.old.list.items }
    ensures desk { IsDeskOf (numbers_of tree.old).node_size desk.new }
{
    let mut on = TreeOn { tree, space };
    find::<TreeOn<Sectors>, K>(&mut on, desk, key)
}

/// Finds the next pair above a key.
pub fn find_next<K: KeyOrder>(
    tree: &mut TreeFile,
    space: &mut Sectors,
    desk: &mut Desk,
    key: &[u8],
) -> Result<bool, Failed>
    requires desk { IsDeskOf (numbers_of tree.old).node_size desk.old }
    requires inside { LiesInside tree.old (told_none (length space.old.list.items)) }
    requires key { K.is_key key.now }
    ensures file { SameFile tree.old tree.new }
    ensures sectors { length space.new.list.items ≡ length space.old.list.items }
    ensures desk { IsDeskOf (numbers_of tree.old).node_size desk.new }
{
    let mut on = TreeOn { tree, space };
    next::<TreeOn<Sectors>, K>(&mut on, desk, key)
}

/// Adds a run of whole nodes to the fork.
pub fn lengthen(
    alloc: Global,
    tree: &mut TreeFile,
    space: &mut Sectors,
    run: Extent,
) -> Result<(), Trouble>
    requires inside { LiesInside tree.old (told_none (length space.old.list.items)) }
    requires run_inside { RunInside tree.old run (told_none (length space.old.list.items)) }
    requires whole { HasWholeNodes tree.old run }
    requires few { nodes_with tree.old run < 2 ^ 32 }
    ensures inside { LiesInside tree.new (told_none (length space.new.list.items)) }
    ensures node_size { (numbers_of tree.new).node_size ≡ (numbers_of tree.old).node_size }
    ensures sectors { length space.new.list.items ≡ length space.old.list.items }
{
    tree.grow(alloc, space, run)
}

/// Reads the header record again.
pub fn read_again(tree: &mut TreeFile, space: &mut Sectors) -> Result<(), Failed>
    requires inside { LiesInside tree.old (told_none (length space.old.list.items)) }
    ensures inside { LiesInside tree.new (told_none (length space.new.list.items)) }
    ensures node_size { (numbers_of tree.new).node_size ≡ (numbers_of tree.old).node_size }
    ensures sectors { length space.new.list.items ≡ length space.old.list.items }
{
    tree.refresh(space)
}
