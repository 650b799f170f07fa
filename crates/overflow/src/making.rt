//! Single changes of the overflow records of a fork, with the room that they need in the extents tree and what they take of it.
ghost use Rattle.std.specs.Prelude.{◌≡◌, ◌≢◌, ◌⊎◌, ◌≤◌, ◌+◌, ◌*◌, true, false, not, IsTrue, OnOk, IfOk, length};
ghost use Rattle.btree_node.specs.Keys.{IsExtentKey, extent_cmp, is_eight_extents};
ghost use Rattle.btree_node.specs.Store.{HasCause, HasRoom, SameStore};
ghost use Rattle.btree_node.specs.Tree.{IsTree, HasValues};
ghost use Rattle.btree_edit.specs.Desk.{IsDeskOf};
ghost use Rattle.btree_edit.specs.Editing.{CostsAtMost, edit_writes};
ghost use Rattle.btree_edit.specs.Edits.{EditRoom, TakesEdits, TakesAtMost};
ghost use Rattle.hfs_model.specs.Sorted.{kept};
ghost use Rattle.hfs_volume.specs.Forks.{is_of};
ghost use Rattle.overflow.specs.Changes.{changed, is_light};
ghost use Rattle.overflow.specs.Making.{CanMake, has_start};
ghost use Rattle.overflow.specs.Reading.{overflow_in_store, fork_records};
ghost use Rattle.overflow.specs.Room.{ChangeRoom};
ghost use Rattle.overflow.specs.declared.changes.Change.TheVariants.{Remove, Insert, Replace};

use crate::changes::Change;
use crate::record::{OverflowRecord, key_of, value_of};
use btree_edit::{Desk, insert, remove, replace};
use btree_node::{ExtentOrder, NodeStore};
use hx_bytes::Failed;

/// Makes one change of the records of a fork.
pub(crate) fn make_change<N: NodeStore>(
    store: &mut N,
    desk: &mut Desk,
    id: u32,
    fork: u8,
    change: &Change,
) -> Result<(), Failed>
    requires desk { IsDeskOf (N.state store.old).shape.node_size desk.old }
    requires kind { (fork ≡ 0) ⊎ (fork ≡ 255) }
    requires tree { IsTrue (N.state store.old).tells → IsTree IsExtentKey extent_cmp (N.state store.old) }
    requires values { IsTrue (N.state store.old).tells → HasValues is_eight_extents (N.state store.old) }
    requires fits { IsTrue (N.state store.old).tells → CanMake id fork change.now (fork_records id fork (N.state store.old)) }
    requires room { IsTrue (N.state store.old).tells → ChangeRoom change.now (N.state store.old) }
    ensures records { IsTrue (N.state store.old).tells → OnOk result (fork_records id fork (N.state store.new) ≡ changed id fork change.now (fork_records id fork (N.state store.old))) }
    ensures others { IsTrue (N.state store.old).tells → OnOk result (kept (λ more. not (is_of id fork more)) (overflow_in_store (N.state store.new)) ≡ kept (λ more. not (is_of id fork more)) (overflow_in_store (N.state store.old))) }
    ensures tree { IsTrue (N.state store.old).tells → OnOk result (IsTree IsExtentKey extent_cmp (N.state store.new)) }
    ensures values { IsTrue (N.state store.old).tells → OnOk result (HasValues is_eight_extents (N.state store.new)) }
    ensures desk { IsDeskOf (N.state store.old).shape.node_size desk.new }
    ensures header { IsTrue (N.state store.old).tells → (N.state store.old).header ≡ (N.state store.old).shape → OnOk result ((N.state store.new).header ≡ (N.state store.new).shape) }
    ensures edits { OnOk result (TakesEdits 1 10 (N.state store.old) (N.state store.new)) }
    ensures takes { TakesAtMost 1 10 (N.state store.old) (N.state store.new) }
    ensures light { IsTrue (N.state store.old).tells → is_light change.now ≡ true → CostsAtMost (edit_writes (N.state store.old).shape.depth) 0 (N.state store.old) (N.state store.new) }
    ensures kept { IsTrue (N.state store.old).tells → is_light change.now ≡ true → OnOk result ((N.state store.new).shape.depth ≤ (N.state store.old).shape.depth) }
    ensures same { SameStore (N.state store.old) (N.state store.new) }
    ensures cause { HasCause (N.state store.old).faults (N.state store.new).faults result }
    ensures below { N.follows store.old store.new }
{
    match change {
        Change::Remove(start) => remove_record(store, desk, id, fork, *start),
        Change::Insert(one) => insert_record(store, desk, id, fork, *one),
        Change::Replace(one) => replace_record(store, desk, id, fork, *one),
    }
}

/// Removes the record of a fork that begins at a place, where there is one.
fn remove_record<N: NodeStore>(
    store: &mut N,
    desk: &mut Desk,
    id: u32,
    fork: u8,
    start: u32,
) -> Result<(), Failed>
    requires desk { IsDeskOf (N.state store.old).shape.node_size desk.old }
    requires kind { (fork ≡ 0) ⊎ (fork ≡ 255) }
    requires tree { IsTrue (N.state store.old).tells → IsTree IsExtentKey extent_cmp (N.state store.old) }
    requires values { IsTrue (N.state store.old).tells → HasValues is_eight_extents (N.state store.old) }
    requires room { IsTrue (N.state store.old).tells → HasRoom (edit_writes (N.state store.old).shape.depth) (N.state store.old) }
    ensures records { IsTrue (N.state store.old).tells → OnOk result (fork_records id fork (N.state store.new) ≡ changed id fork (Remove start) (fork_records id fork (N.state store.old))) }
    ensures others { IsTrue (N.state store.old).tells → OnOk result (kept (λ more. not (is_of id fork more)) (overflow_in_store (N.state store.new)) ≡ kept (λ more. not (is_of id fork more)) (overflow_in_store (N.state store.old))) }
    ensures tree { IsTrue (N.state store.old).tells → OnOk result (IsTree IsExtentKey extent_cmp (N.state store.new)) }
    ensures values { IsTrue (N.state store.old).tells → OnOk result (HasValues is_eight_extents (N.state store.new)) }
    ensures desk { IsDeskOf (N.state store.old).shape.node_size desk.new }
    ensures header { IsTrue (N.state store.old).tells → (N.state store.old).header ≡ (N.state store.old).shape → OnOk result ((N.state store.new).header ≡ (N.state store.new).shape) }
    ensures edits { OnOk result (TakesEdits 1 10 (N.state store.old) (N.state store.new)) }
    ensures takes { TakesAtMost 1 10 (N.state store.old) (N.state store.new) }
    ensures light { CostsAtMost (edit_writes (N.state store.old).shape.depth) 0 (N.state store.old) (N.state store.new) }
    ensures kept { OnOk result ((N.state store.new).shape.depth ≤ (N.state store.old).shape.depth) }
    ensures same { SameStore (N.state store.old) (N.state store.new) }
    ensures cause { HasCause (N.state store.old).faults (N.state store.new).faults result }
    ensures below { N.follows store.old store.new }
{
    let key = key_of(id, fork, start);
    remove::<N, ExtentOrder>(store, desk, &key)?;
    Ok(())
}

/// Inserts a record of a fork where none begins.
fn insert_record<N: NodeStore>(
    store: &mut N,
    desk: &mut Desk,
    id: u32,
    fork: u8,
    one: OverflowRecord,
) -> Result<(), Failed>
    requires desk { IsDeskOf (N.state store.old).shape.node_size desk.old }
    requires kind { (fork ≡ 0) ⊎ (fork ≡ 255) }
    requires tree { IsTrue (N.state store.old).tells → IsTree IsExtentKey extent_cmp (N.state store.old) }
    requires values { IsTrue (N.state store.old).tells → HasValues is_eight_extents (N.state store.old) }
    requires fits { IsTrue (N.state store.old).tells → has_start one.start (fork_records id fork (N.state store.old)) ≡ false }
    requires room { IsTrue (N.state store.old).tells → EditRoom 1 10 (N.state store.old) }
    ensures records { IsTrue (N.state store.old).tells → OnOk result (fork_records id fork (N.state store.new) ≡ changed id fork (Insert one) (fork_records id fork (N.state store.old))) }
    ensures others { IsTrue (N.state store.old).tells → OnOk result (kept (λ more. not (is_of id fork more)) (overflow_in_store (N.state store.new)) ≡ kept (λ more. not (is_of id fork more)) (overflow_in_store (N.state store.old))) }
    ensures tree { IsTrue (N.state store.old).tells → OnOk result (IsTree IsExtentKey extent_cmp (N.state store.new)) }
    ensures values { IsTrue (N.state store.old).tells → OnOk result (HasValues is_eight_extents (N.state store.new)) }
    ensures desk { IsDeskOf (N.state store.old).shape.node_size desk.new }
    ensures header { IsTrue (N.state store.old).tells → (N.state store.old).header ≡ (N.state store.old).shape → OnOk result ((N.state store.new).header ≡ (N.state store.new).shape) }
    ensures edits { OnOk result (TakesEdits 1 10 (N.state store.old) (N.state store.new)) }
    ensures takes { TakesAtMost 1 10 (N.state store.old) (N.state store.new) }
    ensures same { SameStore (N.state store.old) (N.state store.new) }
    ensures cause { HasCause (N.state store.old).faults (N.state store.new).faults result }
    ensures below { N.follows store.old store.new }
{
    let key = key_of(id, fork, one.start);
    let value = value_of(one.extents);
    insert::<N, ExtentOrder>(store, desk, &key, &value)?;
    Ok(())
}

/// Puts a record of a fork in the place of the one that begins where it does.
fn replace_record<N: NodeStore>(
    store: &mut N,
    desk: &mut Desk,
    id: u32,
    fork: u8,
    one: OverflowRecord,
) -> Result<(), Failed>
    requires desk { IsDeskOf (N.state store.old).shape.node_size desk.old }
    requires kind { (fork ≡ 0) ⊎ (fork ≡ 255) }
    requires tree { IsTrue (N.state store.old).tells → IsTree IsExtentKey extent_cmp (N.state store.old) }
    requires values { IsTrue (N.state store.old).tells → HasValues is_eight_extents (N.state store.old) }
    requires fits { IsTrue (N.state store.old).tells → has_start one.start (fork_records id fork (N.state store.old)) ≡ true }
    requires room { IsTrue (N.state store.old).tells → EditRoom 1 10 (N.state store.old) ⊎ HasRoom (edit_writes (N.state store.old).shape.depth) (N.state store.old) }
    ensures records { IsTrue (N.state store.old).tells → OnOk result (fork_records id fork (N.state store.new) ≡ changed id fork (Replace one) (fork_records id fork (N.state store.old))) }
    ensures others { IsTrue (N.state store.old).tells → OnOk result (kept (λ more. not (is_of id fork more)) (overflow_in_store (N.state store.new)) ≡ kept (λ more. not (is_of id fork more)) (overflow_in_store (N.state store.old))) }
    ensures tree { IsTrue (N.state store.old).tells → OnOk result (IsTree IsExtentKey extent_cmp (N.state store.new)) }
    ensures values { IsTrue (N.state store.old).tells → OnOk result (HasValues is_eight_extents (N.state store.new)) }
    ensures desk { IsDeskOf (N.state store.old).shape.node_size desk.new }
    ensures header { IsTrue (N.state store.old).tells → (N.state store.old).header ≡ (N.state store.old).shape → OnOk result ((N.state store.new).header ≡ (N.state store.new).shape) }
    ensures edits { OnOk result (TakesEdits 1 10 (N.state store.old) (N.state store.new)) }
    ensures takes { TakesAtMost 1 10 (N.state store.old) (N.state store.new) }
    ensures light { IsTrue (N.state store.old).tells → CostsAtMost (edit_writes (N.state store.old).shape.depth) 0 (N.state store.old) (N.state store.new) }
    ensures kept { IsTrue (N.state store.old).tells → OnOk result ((N.state store.new).shape.depth ≤ (N.state store.old).shape.depth) }
    ensures same { SameStore (N.state store.old) (N.state store.new) }
    ensures cause { HasCause (N.state store.old).faults (N.state store.new).faults result }
    ensures below { N.follows store.old store.new }
{
    let key = key_of(id, fork, one.start);
    let value = value_of(one.extents);
    replace::<N, ExtentOrder>(store, desk, &key, &value)?;
    Ok(())
}
