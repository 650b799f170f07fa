//! Pairs added, removed and changed.
ghost use Rattle.std.specs.Prelude.{◌≡◌, ◌≤◌, ◌<◌, ◌+◌, ◌-◌, ◌*◌, ◌/◌, ◌^◌, ◌∷◌, [], true, false, IsTrue, length, OnOk, IfOk};
ghost use Rattle.btree_node.specs.Node.{items};
ghost use Rattle.btree_node.specs.Store.{HasRoom, HasCause};
ghost use Rattle.btree_node.specs.Tree.{IsTree, HasValues, pairs_of};
ghost use Rattle.btree_edit.specs.Desk.{IsDeskOf, HasKey};
ghost use Rattle.btree_edit.specs.Editing.{CostsAtMost, edit_writes};
ghost use Rattle.btree_edit.specs.Halves.{record_of};
ghost use Rattle.btree_edit.specs.LevelEdit.{node_room};
ghost use Rattle.btree_edit.specs.Rising.{BoundsRoot, RootHasTwoChildren, MakesTree, IsLeafRecord};
ghost use Rattle.btree_edit.specs.Sorted.{AddsPair, DropsPair, ChangesPair, HoldsKeyOf, InsertsPair, RemovesPair, KeepsFreeNodes, EditsTree};
ghost use Rattle.btree_edit.specs.Way.{LeadsWay};
ghost use Rattle.btree_edit.specs.Ended.{EndsAt};
ghost use Rattle.btree_edit.specs.Answers.{AnswersInsert, AnswersRemove};
ghost use Rattle.btree_edit.specs.declared.edits.Inserted.TheVariants as Inserted;
ghost use Rattle.btree_edit.specs.declared.edits.Removed.TheVariants as Removed;

use crate::climbing::{begin, rebuild};
use crate::desk::Desk;
use crate::finding::{Found, find};
use crate::room::{fits_insert, fits_removal};
use crate::search::read_node;
use crate::tracing::{find_path, trace};
use btree_node::{KeyOrder, NodeStore, TreeShape};
use hx_bytes::Failed;

/// How an insert ended.
#[derive(Clone, Copy, Debug, PartialEq, Eq)]
pub enum Inserted {
    Done,
    Exists,
}

/// How a removal or a replacement ended.
#[derive(Clone, Copy, Debug, PartialEq, Eq)]
pub enum Removed {
    Done,
    Absent,
}

/// How many nodes an edit may take: none where all keys have one length.
fn spare_of(fixed: bool, depth: u16) -> u32
    ensures none { fixed ≡ true → result ≡ 0 }
    ensures some { fixed ≡ false → result ≡ depth + 1 }
{
    if fixed { 0 } else { depth as u32 + 1 }
}

/// How many nodes a tree's file has.
pub(crate) fn total_of(shape: &TreeShape) -> u32
    ensures { result ≡ shape.now.total }
{
    shape.total
}

/// Gives back a root without records, and plants the tree anew.
fn restart_empty<N: NodeStore, K: KeyOrder>(store: &mut N, desk: &mut Desk) -> Result<(), Failed>
    requires desk { IsDeskOf (N.state store.old).shape.node_size desk.old }
    requires room { HasRoom 4 (N.state store.old) }
    requires free { 0 < (N.state store.old).shape.free }
    ensures tree { IsTrue (N.state store.old).tells → IsTree K.is_key K.cmp (N.state store.old) → 0 < (N.state store.old).shape.depth
        → length (items ((N.state store.old).nodes (N.state store.old).shape.root)) ≡ 0 → IsLeafRecord K.is_key (N.state store.old) (record_of desk.old.first)
        → OnOk result (MakesTree K.is_key K.cmp (N.state store.old) (N.state store.new) (record_of desk.old.first ∷ [])) }
    ensures one { IsTrue (N.state store.old).tells → IsTree K.is_key K.cmp (N.state store.old) → 0 < (N.state store.old).shape.depth
        → length (items ((N.state store.old).nodes (N.state store.old).shape.root)) ≡ 0 → OnOk result ((N.state store.new).shape.depth ≡ 1) }
    ensures desk { IsDeskOf (N.state store.old).shape.node_size desk.new }
    ensures records { OnOk result ((N.state store.new).shape.leaf_records ≤ (N.state store.old).shape.leaf_records + 1) }
    ensures header { IsTrue (N.state store.old).tells → (N.state store.old).header ≡ (N.state store.old).shape → OnOk result ((N.state store.new).header ≡ (N.state store.new).shape) }
    ensures depth { OnOk result ((N.state store.new).shape.depth ≤ (N.state store.old).shape.depth + 1) }
    ensures does { CostsAtMost 4 1 (N.state store.old) (N.state store.new) }
    ensures cause { HasCause (N.state store.old).faults (N.state store.new).faults result }
    ensures below { N.follows store.old store.new }
{
    let shape = store.shape();
    let _total = total_of(&shape);
    if !read_node(store, &mut desk.node, shape.root, shape.depth)? {
        return Ok(());
    }
    if desk.node.count() > 0 {
        return Ok(());
    }
    store.give_node(shape.root)?;
    begin::<N, K>(store, desk)
}

/// Adds the pair on the desk, whose key the tree doesn't have, in the leaf to which the way on the desk leads, where there is a way.
fn add<N: NodeStore, K: KeyOrder>(
    store: &mut N,
    desk: &mut Desk,
    key: &[u8],
    has_way: bool,
) -> Result<(), Failed>
    requires desk { IsDeskOf (N.state store.old).shape.node_size desk.old }
    requires key { K.is_key key.now }
    requires tree { IsTrue (N.state store.old).tells → IsTree K.is_key K.cmp (N.state store.old) }
    requires way { IsTrue (N.state store.old).tells → IsTrue has_way → LeadsWay K.cmp key.now (N.state store.old) desk.old.path }
    requires there { IsTrue has_way → EndsAt (N.state store.old) (N.state store.old).shape.depth desk.old.node desk.old.path }
    requires none { IsTrue (N.state store.old).tells → has_way ≡ false → 0 < (N.state store.old).shape.depth → length (items ((N.state store.old).nodes (N.state store.old).shape.root)) ≡ 0 }
    requires some { IsTrue has_way → 0 < (N.state store.old).shape.depth }
    requires records { (N.state store.old).shape.leaf_records < 2 ^ 32 - 1 }
    requires depth { (N.state store.old).shape.depth ≤ 11 }
    requires free { (N.state store.old).shape.depth + 1 ≤ (N.state store.old).shape.free }
    requires room { HasRoom (edit_writes (N.state store.old).shape.depth) (N.state store.old) }
    ensures adds { IsTrue (N.state store.old).tells → 3 * (K.MAX + 8) ≤ node_room (N.state store.old).shape.node_size → desk.old.first.key ≡ key.now
        → length (record_of desk.old.first) ≤ (N.state store.old).shape.node_size / 2 - 10 → (HasKey K.cmp key.now (pairs_of (N.state store.old)) → ⊥)
        → OnOk result (EditsTree K.is_key K.cmp (N.state store.old) (N.state store.new) (λ old new. AddsPair K.cmp key.now desk.old.first.value old new)) }
    ensures roots { IsTrue (N.state store.old).tells → 3 * (K.MAX + 8) ≤ node_room (N.state store.old).shape.node_size → desk.old.first.key ≡ key.now
        → length (record_of desk.old.first) ≤ (N.state store.old).shape.node_size / 2 - 10 → (HasKey K.cmp key.now (pairs_of (N.state store.old)) → ⊥)
        → OnOk result (BoundsRoot K.MAX (N.state store.old) (N.state store.new) (N.state store.new).shape.depth (N.state store.new).shape.root) }
    ensures thick { IsTrue (N.state store.old).tells → 3 * (K.MAX + 8) ≤ node_room (N.state store.old).shape.node_size → desk.old.first.key ≡ key.now
        → length (record_of desk.old.first) ≤ (N.state store.old).shape.node_size / 2 - 10 → (HasKey K.cmp key.now (pairs_of (N.state store.old)) → ⊥)
        → OnOk result (RootHasTwoChildren (N.state store.new) (N.state store.new).shape.depth (N.state store.new).shape.root) }
    ensures desk { IsDeskOf (N.state store.old).shape.node_size desk.new }
    ensures records { OnOk result ((N.state store.new).shape.leaf_records ≤ (N.state store.old).shape.leaf_records + 1) }
    ensures header { IsTrue (N.state store.old).tells → (N.state store.old).header ≡ (N.state store.old).shape → OnOk result ((N.state store.new).header ≡ (N.state store.new).shape) }
    ensures depth { OnOk result ((N.state store.new).shape.depth ≤ (N.state store.old).shape.depth + 1) }
    ensures does { CostsAtMost (edit_writes (N.state store.old).shape.depth) ((N.state store.old).shape.depth + 1) (N.state store.old) (N.state store.new) }
    ensures cause { HasCause (N.state store.old).faults (N.state store.new).faults result }
    ensures below { N.follows store.old store.new }
{
    let mut shape = store.shape();
    let _total = total_of(&shape);
    if shape.depth == 0 {
        return begin::<N, K>(store, desk);
    }
    if !has_way {
        return restart_empty::<N, K>(store, desk);
    }
    let at = desk.path[(shape.depth - 1) as usize].at;
    let spare = spare_of(false, shape.depth);
    let records = shape.leaf_records.saturating_add(1);
    rebuild::<N, K>(store, desk, &mut shape, at, false, 1, spare, records)
}

/// Adds a pair.
pub fn insert<N: NodeStore, K: KeyOrder>(
    store: &mut N,
    desk: &mut Desk,
    key: &[u8],
    value: &[u8],
) -> Result<Inserted, Failed>
    requires desk { IsDeskOf (N.state store.old).shape.node_size desk.old }
    requires key { K.is_key key.now }
    requires tree { IsTrue (N.state store.old).tells → IsTree K.is_key K.cmp (N.state store.old) }
    // The node size is one that the format allows the tree: three index records with the longest keys fit.
    requires wide { IsTrue (N.state store.old).tells → 3 * (K.MAX + 8) ≤ node_room (N.state store.old).shape.node_size }
    requires short { length key.now + length value.now ≤ (N.state store.old).shape.node_size / 2 - 10 }
    requires value { IsTrue (N.state store.old).tells → K.is_value value.now }
    // Where the store tells its nodes there is room; where it doesn't, the call fails for want of it.
    requires records { IsTrue (N.state store.old).tells → (N.state store.old).shape.leaf_records < 2 ^ 32 - 1 }
    requires depth { IsTrue (N.state store.old).tells → (N.state store.old).shape.depth ≤ 11 }
    requires free { IsTrue (N.state store.old).tells → (N.state store.old).shape.depth + 1 ≤ (N.state store.old).shape.free }
    requires room { IsTrue (N.state store.old).tells → HasRoom (edit_writes (N.state store.old).shape.depth) (N.state store.old) }
    // Exists exactly where the tree has the key.
    ensures answer { IsTrue (N.state store.old).tells → IfOk result (λ answer. AnswersInsert K.cmp key.now (N.state store.old) answer) }
    // The pairs are the sorted list with that one pair added.
    ensures pairs { IsTrue (N.state store.old).tells → IfOk result (λ answer. InsertsPair K.cmp key.now value.now (pairs_of (N.state store.old)) (pairs_of (N.state store.new)) answer) }
    // Their values stay such as the order has.
    ensures values { IsTrue (N.state store.old).tells → HasValues K.is_value (N.state store.old) → OnOk result (HasValues K.is_value (N.state store.new)) }
    // They keep the rules of a tree.
    ensures tree { IsTrue (N.state store.old).tells → OnOk result (IsTree K.is_key K.cmp (N.state store.new)) }
    // Nodes that aren't the tree's stay as they were.
    ensures others { IsTrue (N.state store.old).tells → OnOk result (KeepsFreeNodes (N.state store.old) (N.state store.new)) }
    // An index root gets at most one record more; a root above it has two, and comes only where its records are many.
    ensures roots { IsTrue (N.state store.old).tells → OnOk result (BoundsRoot K.MAX (N.state store.old) (N.state store.new) (N.state store.new).shape.depth (N.state store.new).shape.root) }
    // A root index with one record doesn't stay.
    ensures thick { IsTrue (N.state store.old).tells → IfOk result (λ answer. answer ≡ Inserted.Done → RootHasTwoChildren (N.state store.new) (N.state store.new).shape.depth (N.state store.new).shape.root) }
    ensures desk { IsDeskOf (N.state store.old).shape.node_size desk.new }
    // The header node goes on saying the tree's numbers.
    ensures header { IsTrue (N.state store.old).tells → (N.state store.old).header ≡ (N.state store.old).shape → OnOk result ((N.state store.new).header ≡ (N.state store.new).shape) }
    ensures records { OnOk result ((N.state store.new).shape.leaf_records ≤ (N.state store.old).shape.leaf_records + 1) }
    // It raises the tree by at most one level.
    ensures depth { OnOk result ((N.state store.new).shape.depth ≤ (N.state store.old).shape.depth + 1) }
    // It writes and takes at most so many nodes.
    ensures does { CostsAtMost (edit_writes (N.state store.old).shape.depth) ((N.state store.old).shape.depth + 1) (N.state store.old) (N.state store.new) }
    // It fails only where the store did.
    ensures cause { HasCause (N.state store.old).faults (N.state store.new).faults result }
    ensures below { N.follows store.old store.new }
{
    let shape = store.shape();
    let _total = total_of(&shape);
    let traced = trace::<N, K>(store, desk, key)?;
    if traced.has_key {
        return Ok(Inserted::Exists);
    }
    if !fits_insert(store) {
        return Err(store.fail());
    }
    desk.first.put(key, value);
    add::<N, K>(store, desk, key, traced.has_way)?;
    Ok(Inserted::Done)
}

/// Takes away the pair with a key that the tree has, from the leaf to which the way on the desk leads.
fn drop_pair<N: NodeStore, K: KeyOrder>(
    store: &mut N,
    desk: &mut Desk,
    key: &[u8],
    fixed: bool,
    has_way: bool,
) -> Result<(), Failed>
    requires desk { IsDeskOf (N.state store.old).shape.node_size desk.old }
    requires key { K.is_key key.now }
    requires tree { IsTrue (N.state store.old).tells → IsTree K.is_key K.cmp (N.state store.old) }
    requires way { IsTrue (N.state store.old).tells → IsTrue has_way → LeadsWay K.cmp key.now (N.state store.old) desk.old.path }
    requires there { IsTrue has_way → EndsAt (N.state store.old) (N.state store.old).shape.depth desk.old.node desk.old.path }
    requires none { IsTrue (N.state store.old).tells → has_way ≡ false → 0 < (N.state store.old).shape.depth → length (items ((N.state store.old).nodes (N.state store.old).shape.root)) ≡ 0 }
    requires some { IsTrue has_way → 0 < (N.state store.old).shape.depth }
    requires most { IsTrue has_way → (N.state store.old).shape.depth ≤ 12 }
    requires fixed { fixed ≡ K.FIXED }
    requires depth { fixed ≡ false → (N.state store.old).shape.depth ≤ 11 }
    requires free { fixed ≡ false → (N.state store.old).shape.depth + 1 ≤ (N.state store.old).shape.free }
    requires room { HasRoom (edit_writes (N.state store.old).shape.depth) (N.state store.old) }
    ensures drops { IsTrue (N.state store.old).tells → 3 * (K.MAX + 8) ≤ node_room (N.state store.old).shape.node_size → HasKey K.cmp key.now (pairs_of (N.state store.old))
        → OnOk result (EditsTree K.is_key K.cmp (N.state store.old) (N.state store.new) (λ old new. DropsPair K.cmp key.now old new)) }
    ensures roots { IsTrue (N.state store.old).tells → 3 * (K.MAX + 8) ≤ node_room (N.state store.old).shape.node_size → HasKey K.cmp key.now (pairs_of (N.state store.old))
        → OnOk result (BoundsRoot K.MAX (N.state store.old) (N.state store.new) (N.state store.new).shape.depth (N.state store.new).shape.root) }
    ensures thick { IsTrue (N.state store.old).tells → 3 * (K.MAX + 8) ≤ node_room (N.state store.old).shape.node_size → HasKey K.cmp key.now (pairs_of (N.state store.old))
        → OnOk result (RootHasTwoChildren (N.state store.new) (N.state store.new).shape.depth (N.state store.new).shape.root) }
    ensures desk { IsDeskOf (N.state store.old).shape.node_size desk.new }
    ensures records { OnOk result ((N.state store.new).shape.leaf_records ≤ (N.state store.old).shape.leaf_records) }
    ensures header { IsTrue (N.state store.old).tells → (N.state store.old).header ≡ (N.state store.old).shape → OnOk result ((N.state store.new).header ≡ (N.state store.new).shape) }
    ensures depth { OnOk result ((N.state store.new).shape.depth ≤ (N.state store.old).shape.depth + 1) }
    ensures kept { fixed ≡ true → OnOk result ((N.state store.new).shape.depth ≤ (N.state store.old).shape.depth) }
    ensures does { CostsAtMost (edit_writes (N.state store.old).shape.depth) ((N.state store.old).shape.depth + 1) (N.state store.old) (N.state store.new) }
    ensures free { fixed ≡ true → (N.state store.old).shape.free ≤ (N.state store.new).shape.free }
    ensures cause { HasCause (N.state store.old).faults (N.state store.new).faults result }
    ensures below { N.follows store.old store.new }
{
    let mut shape = store.shape();
    let _total = total_of(&shape);
    if !has_way {
        return Ok(());
    }
    let at = desk.path[(shape.depth - 1) as usize].at;
    if at == 0 {
        return Ok(());
    }
    let spare = spare_of(fixed, shape.depth);
    let records = shape.leaf_records.saturating_sub(1);
    rebuild::<N, K>(store, desk, &mut shape, at - 1, true, 0, spare, records)
}

/// Removes the pair with a key.
pub fn remove<N: NodeStore, K: KeyOrder>(
    store: &mut N,
    desk: &mut Desk,
    key: &[u8],
) -> Result<Removed, Failed>
    requires desk { IsDeskOf (N.state store.old).shape.node_size desk.old }
    requires key { K.is_key key.now }
    requires tree { IsTrue (N.state store.old).tells → IsTree K.is_key K.cmp (N.state store.old) }
    // The node size is one that the format allows the tree: three index records with the longest keys fit.
    requires wide { IsTrue (N.state store.old).tells → 3 * (K.MAX + 8) ≤ node_room (N.state store.old).shape.node_size }
    // Where the store tells its nodes there is room; where it doesn't, the call fails for want of it.
    requires depth { IsTrue (N.state store.old).tells → K.FIXED ≡ false → (N.state store.old).shape.depth ≤ 11 }
    requires free { IsTrue (N.state store.old).tells → K.FIXED ≡ false → (N.state store.old).shape.depth + 1 ≤ (N.state store.old).shape.free }
    requires room { IsTrue (N.state store.old).tells → HasRoom (edit_writes (N.state store.old).shape.depth) (N.state store.old) }
    // Absent exactly where the tree doesn't have the key.
    ensures answer { IsTrue (N.state store.old).tells → IfOk result (λ answer. AnswersRemove K.cmp key.now (N.state store.old) answer) }
    // The pairs are the sorted list without that one pair.
    ensures pairs { IsTrue (N.state store.old).tells → IfOk result (λ answer. RemovesPair K.cmp key.now (pairs_of (N.state store.old)) (pairs_of (N.state store.new)) answer) }
    // Their values stay such as the order has.
    ensures values { IsTrue (N.state store.old).tells → HasValues K.is_value (N.state store.old) → OnOk result (HasValues K.is_value (N.state store.new)) }
    // They keep the rules of a tree.
    ensures tree { IsTrue (N.state store.old).tells → OnOk result (IsTree K.is_key K.cmp (N.state store.new)) }
    // Nodes that aren't the tree's stay as they were.
    ensures others { IsTrue (N.state store.old).tells → OnOk result (KeepsFreeNodes (N.state store.old) (N.state store.new)) }
    // An index root gets at most one record more; a root above it has two, and comes only where its records are many.
    ensures roots { IsTrue (N.state store.old).tells → OnOk result (BoundsRoot K.MAX (N.state store.old) (N.state store.new) (N.state store.new).shape.depth (N.state store.new).shape.root) }
    // A tree without a pair has no level.
    ensures bare { IsTrue (N.state store.old).tells → IfOk result (λ answer. answer ≡ Removed.Done → pairs_of (N.state store.new) ≡ [] → (N.state store.new).shape.depth ≡ 0) }
    // A root index with one record doesn't stay.
    ensures thick { IsTrue (N.state store.old).tells → IfOk result (λ answer. answer ≡ Removed.Done → RootHasTwoChildren (N.state store.new) (N.state store.new).shape.depth (N.state store.new).shape.root) }
    ensures desk { IsDeskOf (N.state store.old).shape.node_size desk.new }
    ensures records { OnOk result ((N.state store.new).shape.leaf_records ≤ (N.state store.old).shape.leaf_records) }
    ensures header { IsTrue (N.state store.old).tells → (N.state store.old).header ≡ (N.state store.old).shape → OnOk result ((N.state store.new).header ≡ (N.state store.new).shape) }
    ensures depth { OnOk result ((N.state store.new).shape.depth ≤ (N.state store.old).shape.depth + 1) }
    ensures does { CostsAtMost (edit_writes (N.state store.old).shape.depth) ((N.state store.old).shape.depth + 1) (N.state store.old) (N.state store.new) }
    // In an order of one key length it takes no node, and doesn't raise the tree.
    ensures free { K.FIXED ≡ true → (N.state store.old).shape.free ≤ (N.state store.new).shape.free }
    ensures kept { K.FIXED ≡ true → OnOk result ((N.state store.new).shape.depth ≤ (N.state store.old).shape.depth) }
    ensures cause { HasCause (N.state store.old).faults (N.state store.new).faults result }
    ensures below { N.follows store.old store.new }
{
    let shape = store.shape();
    let _total = total_of(&shape);
    let traced = trace::<N, K>(store, desk, key)?;
    if !traced.has_key {
        return Ok(Removed::Absent);
    }
    if !fits_removal(store, K::FIXED) {
        return Err(store.fail());
    }
    drop_pair::<N, K>(store, desk, key, K::FIXED, traced.has_way)?;
    Ok(Removed::Done)
}

/// Puts the pair on the desk in the place of the pair with its key, whatever its length.
pub(crate) fn change_pair<N: NodeStore, K: KeyOrder>(
    store: &mut N,
    desk: &mut Desk,
    key: &[u8],
) -> Result<(), Failed>
    requires desk { IsDeskOf (N.state store.old).shape.node_size desk.old }
    requires key { K.is_key key.now }
    requires tree { IsTrue (N.state store.old).tells → IsTree K.is_key K.cmp (N.state store.old) }
    requires depth { (N.state store.old).shape.depth ≤ 11 }
    requires free { (N.state store.old).shape.depth + 1 ≤ (N.state store.old).shape.free }
    requires room { HasRoom (edit_writes (N.state store.old).shape.depth) (N.state store.old) }
    ensures changes { IsTrue (N.state store.old).tells → 3 * (K.MAX + 8) ≤ node_room (N.state store.old).shape.node_size
        → HoldsKeyOf K.cmp key.now (N.state store.old) desk.old.first.key → length (record_of desk.old.first) ≤ (N.state store.old).shape.node_size / 2 - 10
        → OnOk result (EditsTree K.is_key K.cmp (N.state store.old) (N.state store.new) (λ old new. ChangesPair K.cmp key.now desk.old.first.value old new)) }
    ensures roots { IsTrue (N.state store.old).tells → 3 * (K.MAX + 8) ≤ node_room (N.state store.old).shape.node_size
        → HoldsKeyOf K.cmp key.now (N.state store.old) desk.old.first.key → length (record_of desk.old.first) ≤ (N.state store.old).shape.node_size / 2 - 10
        → OnOk result (BoundsRoot K.MAX (N.state store.old) (N.state store.new) (N.state store.new).shape.depth (N.state store.new).shape.root) }
    ensures thick { IsTrue (N.state store.old).tells → 3 * (K.MAX + 8) ≤ node_room (N.state store.old).shape.node_size
        → HoldsKeyOf K.cmp key.now (N.state store.old) desk.old.first.key → length (record_of desk.old.first) ≤ (N.state store.old).shape.node_size / 2 - 10
        → OnOk result (RootHasTwoChildren (N.state store.new) (N.state store.new).shape.depth (N.state store.new).shape.root) }
    ensures desk { IsDeskOf (N.state store.old).shape.node_size desk.new }
    ensures records { OnOk result ((N.state store.new).shape.leaf_records ≡ (N.state store.old).shape.leaf_records) }
    ensures header { IsTrue (N.state store.old).tells → (N.state store.old).header ≡ (N.state store.old).shape → OnOk result ((N.state store.new).header ≡ (N.state store.new).shape) }
    ensures depth { OnOk result ((N.state store.new).shape.depth ≤ (N.state store.old).shape.depth + 1) }
    ensures does { CostsAtMost (edit_writes (N.state store.old).shape.depth) ((N.state store.old).shape.depth + 1) (N.state store.old) (N.state store.new) }
    ensures cause { HasCause (N.state store.old).faults (N.state store.new).faults result }
    ensures below { N.follows store.old store.new }
{
    let mut shape = store.shape();
    let _total = total_of(&shape);
    if !find_path::<N, K>(store, desk, key)? {
        return Ok(());
    }
    let at = desk.path[(shape.depth - 1) as usize].at;
    if at == 0 {
        return Ok(());
    }
    let spare = spare_of(false, shape.depth);
    let records = shape.leaf_records;
    rebuild::<N, K>(store, desk, &mut shape, at - 1, true, 1, spare, records)
}
