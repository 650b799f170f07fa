//! Whole forks written: the overflow records of a fork become those of another list of extents.
ghost use Rattle.std.specs.Prelude.{◌≡◌, ◌≢◌, ◌⊎◌, ◌≤◌, ◌<◌, ◌+◌, ◌-◌, ◌*◌, ◌/◌, ◌^◌, true, map, min, not, IsTrue, OnOk, IfOk, length};
ghost use Rattle.btree_node.specs.Keys.{IsExtentKey, extent_cmp, is_eight_extents};
ghost use Rattle.btree_node.specs.Store.{HasCause, SameStore};
ghost use Rattle.btree_node.specs.Tree.{IsTree, HasValues};
ghost use Rattle.btree_edit.specs.Causes.{HasTroubleCause};
ghost use Rattle.btree_edit.specs.Desk.{IsDeskOf};
ghost use Rattle.btree_edit.specs.Editing.{CostsAtMost, edit_writes};
ghost use Rattle.btree_edit.specs.Edits.{EditRoom, TakesEdits, TakesAtMost};
ghost use Rattle.fork_map.specs.Blocks.{blocks_of};
ghost use Rattle.hfs_model.specs.Sorted.{kept};
ghost use Rattle.hfs_volume.specs.Blocks.{GoesOn};
ghost use Rattle.hfs_volume.specs.Forks.{extents_id, extents_of, in_use, is_of};
ghost use Rattle.overflow.specs.Changes.{all_changed, are_light};
ghost use Rattle.overflow.specs.Making.{CanMakeAll};
ghost use Rattle.overflow.specs.Reading.{overflow_in_store, fork_records, HasExtents};
ghost use Rattle.overflow.specs.Records.{front_record, records_for, under};
ghost use Rattle.overflow.specs.Room.{changes_for, edits_for, HasLightRoom, HasStoreRoom};

use crate::changes::{Change, find_changes};
use crate::loading::read_records;
use crate::making::make_change;
use crate::record::{eight_extents, push_used};
use crate::splitting::split;
use btree_edit::Desk;
use btree_node::NodeStore;
use fork_map::ExtentList;
use hx_bytes::{Extent, Failed, ForkRecord, OutOfMemory, Trouble};
use std::alloc::Global;

/// Makes the overflow records of a fork those of another list of extents, and gives the fork's record with the first eight of them, whose
/// sizes the caller sets. Extents without blocks are left out. Want of memory leaves the tree as it was.
pub fn store_fork<N: NodeStore>(
    alloc: Global,
    store: &mut N,
    desk: &mut Desk,
    id: u32,
    fork: u8,
    old: &ExtentList,
    new: &ExtentList,
) -> Result<ForkRecord, Trouble>
    requires desk { IsDeskOf (N.state store.old).shape.node_size desk.old }
    requires kind { (fork ≡ 0) ⊎ (fork ≡ 255) }
    requires file { id ≢ extents_id }
    requires tree { IsTrue (N.state store.old).tells → IsTree IsExtentKey extent_cmp (N.state store.old) }
    requires values { IsTrue (N.state store.old).tells → HasValues is_eight_extents (N.state store.old) }
    // The fork has the old extents.
    requires holds { IsTrue (N.state store.old).tells → HasExtents (overflow_in_store (N.state store.old)) id fork old.now }
    requires few { length (blocks_of new.now) < 2 ^ 32 }
    requires room { IsTrue (N.state store.old).tells → HasStoreRoom (N.state store.old) id fork new.now }
    ensures front { IfOk result (λ rec. rec ≡ front_record (in_use new.now)) }
    // The records are those for the new extents, and with the front record they give these.
    ensures records { IsTrue (N.state store.old).tells → OnOk result (fork_records id fork (N.state store.new) ≡ map (under id fork) (records_for (in_use new.now))) }
    ensures extents { IsTrue (N.state store.old).tells → OnOk result (extents_of (overflow_in_store (N.state store.new)) id fork (front_record (in_use new.now)) ≡ in_use new.now) }
    ensures goes_on { IsTrue (N.state store.old).tells → OnOk result (GoesOn (overflow_in_store (N.state store.new)) (record { id = id; kind = fork; fork = front_record (in_use new.now) })) }
    // Every other record of the tree is as it was.
    ensures others { IsTrue (N.state store.old).tells → OnOk result (kept (λ more. not (is_of id fork more)) (overflow_in_store (N.state store.new)) ≡ kept (λ more. not (is_of id fork more)) (overflow_in_store (N.state store.old))) }
    ensures tree { IsTrue (N.state store.old).tells → OnOk result (IsTree IsExtentKey extent_cmp (N.state store.new)) }
    ensures values { IsTrue (N.state store.old).tells → OnOk result (HasValues is_eight_extents (N.state store.new)) }
    ensures desk { IsDeskOf (N.state store.old).shape.node_size desk.new }
    ensures header { IsTrue (N.state store.old).tells → (N.state store.old).header ≡ (N.state store.old).shape → OnOk result ((N.state store.new).header ≡ (N.state store.new).shape) }
    ensures edits { OnOk result (TakesEdits (edits_for (N.state store.old) id fork new.now) 10 (N.state store.old) (N.state store.new)) }
    ensures takes { TakesAtMost (edits_for (N.state store.old) id fork new.now) 10 (N.state store.old) (N.state store.new) }
    // Where records are only removed and replaced, no free node is taken.
    ensures light { IsTrue (N.state store.old).tells → are_light (changes_for (N.state store.old) id fork new.now) ≡ true
        → CostsAtMost (edits_for (N.state store.old) id fork new.now * edit_writes (N.state store.old).shape.depth) 0 (N.state store.old) (N.state store.new) }
    ensures same { SameStore (N.state store.old) (N.state store.new) }
    ensures cause { HasTroubleCause (N.state store.old).faults (N.state store.new).faults result }
    ensures below { N.follows store.old store.new }
{
    let used = leave_out_unused(alloc, new)?;
    let wanted = split(alloc, used.as_slice())?;
    let leaf_records = store.shape().leaf_records;
    let most = count_most(old.as_slice(), leaf_records);
    let records = read_records(alloc, store, desk, id, fork, most)?;
    let changes = find_changes(alloc, &records, &wanted)?;
    make_changes(store, desk, id, fork, &changes)?;
    Ok(ForkRecord {
        logical_size: 0,
        clump_size: 0,
        total_blocks: 0,
        extents: eight_extents(used.as_slice(), 0),
    })
}

/// The extents of a list that have blocks.
pub fn leave_out_unused(alloc: Global, list: &ExtentList) -> Result<ExtentList, OutOfMemory>
    ensures { IfOk result (λ used. used ≡ in_use list.now) }
{
    let mut used = ExtentList::new(alloc);
    push_used(&mut used, list.as_slice())?;
    Ok(used)
}

/// How many overflow records a fork with these extents may have in a tree of so many records: those that are full, and one that need not be.
fn count_most(extents: &[Extent], leaf_records: u32) -> u32
    ensures { result ≡ min (length extents.now / 8) leaf_records }
{
    (extents.len() / 8).min(leaf_records as usize) as u32
}

/// Makes changes of the records of a fork, one behind the other.
fn make_changes<N: NodeStore>(
    store: &mut N,
    desk: &mut Desk,
    id: u32,
    fork: u8,
    changes: &[Change],
) -> Result<(), Failed>
    requires desk { IsDeskOf (N.state store.old).shape.node_size desk.old }
    requires kind { (fork ≡ 0) ⊎ (fork ≡ 255) }
    requires tree { IsTrue (N.state store.old).tells → IsTree IsExtentKey extent_cmp (N.state store.old) }
    requires values { IsTrue (N.state store.old).tells → HasValues is_eight_extents (N.state store.old) }
    requires fits { IsTrue (N.state store.old).tells → CanMakeAll id fork changes.now (fork_records id fork (N.state store.old)) }
    requires room { IsTrue (N.state store.old).tells → EditRoom (length changes.now) 10 (N.state store.old) ⊎ HasLightRoom changes.now (N.state store.old) }
    ensures records { IsTrue (N.state store.old).tells → OnOk result (fork_records id fork (N.state store.new) ≡ all_changed id fork changes.now (fork_records id fork (N.state store.old))) }
    ensures others { IsTrue (N.state store.old).tells → OnOk result (kept (λ more. not (is_of id fork more)) (overflow_in_store (N.state store.new)) ≡ kept (λ more. not (is_of id fork more)) (overflow_in_store (N.state store.old))) }
    ensures tree { IsTrue (N.state store.old).tells → OnOk result (IsTree IsExtentKey extent_cmp (N.state store.new)) }
    ensures values { IsTrue (N.state store.old).tells → OnOk result (HasValues is_eight_extents (N.state store.new)) }
    ensures desk { IsDeskOf (N.state store.old).shape.node_size desk.new }
    ensures header { IsTrue (N.state store.old).tells → (N.state store.old).header ≡ (N.state store.old).shape → OnOk result ((N.state store.new).header ≡ (N.state store.new).shape) }
    ensures edits { OnOk result (TakesEdits (length changes.now) 10 (N.state store.old) (N.state store.new)) }
    ensures takes { TakesAtMost (length changes.now) 10 (N.state store.old) (N.state store.new) }
    ensures light { IsTrue (N.state store.old).tells → are_light changes.now ≡ true → CostsAtMost (length changes.now * edit_writes (N.state store.old).shape.depth) 0 (N.state store.old) (N.state store.new) }
    ensures same { SameStore (N.state store.old) (N.state store.new) }
    ensures cause { HasCause (N.state store.old).faults (N.state store.new).faults result }
    ensures below { N.follows store.old store.new }
{
    for change in changes {
        make_change(store, desk, id, fork, change)?;
    }
    Ok(())
}
