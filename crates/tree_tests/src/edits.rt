// Single edits, each held against the list and looked through.
use crate::grove::Grove;
use crate::looking::{Flaw, Wanted, look};
use btree_edit::{Inserted, Removed};
use btree_node::{KeyOrder, TreeShape};
use std::alloc::Global;

/// Whether an edit of a tree of this shape kept the bounds on nodes written and taken and on the depth.
fn is_within(tree: &Grove, before: &TreeShape) -> bool {
    let after = tree.shape();
    let depth = u32::from(before.depth);
    let most = depth.wrapping_mul(4).wrapping_add(8);
    tree.store.nodes.count_written() <= most
        && before.free <= after.free.saturating_add(depth).saturating_add(1)
        && after.depth <= before.depth.saturating_add(1)
}

/// Looks through the tree after an edit.
fn look_behind(
    alloc: Global,
    tree: &mut Grove,
    wanted: &Wanted,
    before: &TreeShape,
    number: u32,
) -> Result<(), Flaw> {
    if is_within(tree, before) {
        look(alloc, tree, wanted)
    } else {
        Err(Flaw::TooMuch(number))
    }
}

/// Adds the pair of a number that isn't there, and tries it once more.
pub fn add<K: KeyOrder>(
    alloc: Global,
    tree: &mut Grove,
    wanted: &mut Wanted,
    number: u32,
) -> Result<(), Flaw> {
    let before = tree.start();
    wanted.set(number, 1);
    let key = wanted.key(alloc, number)?;
    let value = wanted.value(alloc, number)?;
    if tree.add::<K>(&key, &value) != Some(Inserted::Done) {
        return Err(Flaw::Refused(number));
    }
    look_behind(alloc, tree, wanted, &before, number)?;
    if tree.add::<K>(&key, &value) != Some(Inserted::Exists) {
        return Err(Flaw::Search(number));
    }
    Ok(())
}

/// Gives the pair of a number the next value.
pub fn change<K: KeyOrder>(
    alloc: Global,
    tree: &mut Grove,
    wanted: &mut Wanted,
    number: u32,
) -> Result<(), Flaw> {
    let before = tree.start();
    wanted.set(number, wanted.version(number).wrapping_add(1).max(1));
    let key = wanted.key(alloc, number)?;
    let value = wanted.value(alloc, number)?;
    if tree.change::<K>(&key, &value) != Some(Removed::Done) {
        return Err(Flaw::Refused(number));
    }
    look_behind(alloc, tree, wanted, &before, number)?;
    if tree.has::<K>(&key, &value) {
        Ok(())
    } else {
        Err(Flaw::Search(number))
    }
}

/// Removes the pair of a number, and tries it once more.
pub fn take_out<K: KeyOrder>(
    alloc: Global,
    tree: &mut Grove,
    wanted: &mut Wanted,
    number: u32,
) -> Result<(), Flaw> {
    let before = tree.start();
    wanted.set(number, 0);
    let key = wanted.key(alloc, number)?;
    if tree.take_out::<K>(&key) != Some(Removed::Done) {
        return Err(Flaw::Refused(number));
    }
    look_behind(alloc, tree, wanted, &before, number)?;
    if tree.take_out::<K>(&key) != Some(Removed::Absent) {
        return Err(Flaw::Search(number));
    }
    Ok(())
}

/// Steps from the key of each number to the next one that is there.
pub fn step_through<K: KeyOrder>(
    alloc: Global,
    tree: &mut Grove,
    wanted: &Wanted,
    many: u32,
) -> Result<(), Flaw> {
    for number in 0..many {
        let key = wanted.key(alloc, number)?;
        let found = match wanted.next_from(number.wrapping_add(1)) {
            Some(next) => {
                let above = wanted.key(alloc, next)?;
                tree.follows::<K>(&key, &above)
            }
            None => tree.is_last::<K>(&key),
        };
        if !found {
            return Err(Flaw::Search(number));
        }
    }
    Ok(())
}
