//! A value in the place of another of its length: the leaf alone is written.
ghost use Rattle.std.specs.Prelude.{◌≡◌, ◌≤◌, ◌<◌, ◌+◌, ◌⊎◌, ◌++◌, IsTrue, length, OnOk, IfOk};
ghost use Rattle.btree_node.specs.Store.{HasRoom, HasCause};
ghost use Rattle.btree_node.specs.Tree.{IsTree, HasValues, pairs_of};
ghost use Rattle.btree_edit.specs.Desk.{IsDeskOf, HoldsLeaf};
ghost use Rattle.btree_edit.specs.Editing.{CostsAtMost};
ghost use Rattle.btree_edit.specs.Edits.{top_of, IsNoHigher};
ghost use Rattle.btree_edit.specs.declared.edits.Removed.TheVariants as Removed;
ghost use Rattle.btree_edit.specs.Halves.{record_of};
ghost use Rattle.btree_edit.specs.Sorted.{ReplacesPair, KeepsFreeNodes};
ghost use Rattle.btree_edit.specs.Swapping.{HasRecord, SwapsRecord, HasNoOtherLength, IsLeafWritten, ChangesLeafAlone};
ghost use Rattle.btree_edit.specs.Answers.{AnswersRemove};

use crate::desk::Desk;
use crate::edits::Removed;
use crate::finding::{Found, find};
use crate::room::fits_value;
use btree_node::{KeyOrder, NodeStore};
use hx_bytes::Failed;

/// Gives the pair with a key another value of the length of the old one, in its leaf alone; its key stays as it stands in the tree.
pub fn swap<N: NodeStore, K: KeyOrder>(
    store: &mut N,
    desk: &mut Desk,
    key: &[u8],
    value: &[u8],
) -> Result<Removed, Failed>
    requires desk { IsDeskOf (N.state store.old).shape.node_size desk.old }
    requires key { K.is_key key.now }
    requires tree { IsTrue (N.state store.old).tells → IsTree K.is_key K.cmp (N.state store.old) }
    requires value { IsTrue (N.state store.old).tells → K.is_value value.now }
    // Where the store tells its nodes the pair with the key, if there is one, has a value of this length, and there is room for one write; where
    // it doesn't, the call fails for want of either.
    requires long { IsTrue (N.state store.old).tells → HasNoOtherLength K.cmp key.now (length value.now) (N.state store.old) }
    requires room { IsTrue (N.state store.old).tells → HasRoom 1 (N.state store.old) ⊎ IsLeafWritten K.cmp key.now (N.state store.old) }
    // Absent exactly where the tree doesn't have the key.
    ensures answer { IsTrue (N.state store.old).tells → IfOk result (λ answer. AnswersRemove K.cmp key.now (N.state store.old) answer) }
    // The pairs are the sorted list with that one value changed.
    ensures pairs { IsTrue (N.state store.old).tells → IfOk result (λ answer. ReplacesPair K.cmp key.now value.now (pairs_of (N.state store.old)) (pairs_of (N.state store.new)) answer) }
    // Their values stay such as the order has.
    ensures values { IsTrue (N.state store.old).tells → HasValues K.is_value (N.state store.old) → OnOk result (HasValues K.is_value (N.state store.new)) }
    // They keep the rules of a tree.
    ensures tree { IsTrue (N.state store.old).tells → OnOk result (IsTree K.is_key K.cmp (N.state store.new)) }
    // Nodes that aren't the tree's stay as they were.
    ensures others { IsTrue (N.state store.old).tells → OnOk result (KeepsFreeNodes (N.state store.old) (N.state store.new)) }
    // The leaf alone is changed, by one write at most, and the tree keeps its shape and its root's records.
    ensures alone { IsTrue (N.state store.old).tells → IfOk result (λ answer. answer ≡ Removed.Done → ChangesLeafAlone K.cmp key.now (N.state store.old) (N.state store.new)) }
    ensures top { IsTrue (N.state store.old).tells → OnOk result (IsNoHigher (top_of (N.state store.new)) (top_of (N.state store.old))) }
    ensures kept { (N.state store.new).shape ≡ (N.state store.old).shape }
    ensures does { CostsAtMost 1 0 (N.state store.old) (N.state store.new) }
    ensures desk { IsDeskOf (N.state store.old).shape.node_size desk.new }
    // The header node goes on saying the tree's numbers.
    ensures header { IsTrue (N.state store.old).tells → (N.state store.old).header ≡ (N.state store.old).shape → OnOk result ((N.state store.new).header ≡ (N.state store.new).shape) }
    // It fails only where the store did.
    ensures cause { HasCause (N.state store.old).faults (N.state store.new).faults result }
    ensures below { N.follows store.old store.new }
{
    match find::<N, K>(store, desk, key)? {
        Found::At { node, index } => {
            if !fits_swap(store, desk, value, node) {
                return Err(store.fail());
            }
            swap_value(store, desk, value, node, index);
            Ok(Removed::Done)
        }
        Found::Absent => Ok(Removed::Absent),
    }
}

/// Whether the pair that was found, which stands in this leaf, may have this value: it has the old one's length, and there is room to write the leaf.
fn fits_swap<N: NodeStore>(store: &N, desk: &Desk, value: &[u8], node: u32) -> bool
    ensures same { IsTrue result → length value.now ≡ length desk.now.held.value }
    ensures room { IsTrue result → HasRoom 1 (N.state store.now) ⊎ IsTrue ((N.state store.now).written node) }
    ensures surely { length value.now ≡ length desk.now.held.value → node < (N.state store.now).shape.total
        → HasRoom 1 (N.state store.now) ⊎ IsTrue ((N.state store.now).written node) → IsTrue result }
{
    if !has_length(desk, value) {
        return false;
    }
    fits_value(store, true, node)
}

/// Whether the value of the pair that was found has the length of another.
pub(crate) fn has_length(desk: &Desk, value: &[u8]) -> bool
    ensures same { IsTrue result → length value.now ≡ length desk.now.held.value }
    ensures surely { length value.now ≡ length desk.now.held.value → IsTrue result }
{
    value.len() == desk.value().len()
}

/// Keeps the key of the pair that was found, with another value.
pub(crate) fn put_value(desk: &mut Desk, value: &[u8])
    ensures node { desk.new.node ≡ desk.old.node }
    ensures other { desk.new.other ≡ desk.old.other }
    ensures held { desk.new.held ≡ desk.old.held }
    ensures key { length desk.old.held.key + length value.now ≤ desk.old.first.room → desk.new.first.key ≡ desk.old.held.key }
    ensures value { length desk.old.held.key + length value.now ≤ desk.old.first.room → desk.new.first.value ≡ value.now }
    ensures first { length desk.old.held.key + length value.now ≤ desk.old.first.room → record_of desk.new.first ≡ desk.old.held.key ++ value.now }
    ensures room { desk.new.first.room ≡ desk.old.first.room }
    ensures second { desk.new.second ≡ desk.old.second }
    ensures path { desk.new.path ≡ desk.old.path }
{
    let key = desk.held.key();
    if key.len() <= desk.first.room()
        && value.len() <= desk.first.room().saturating_sub(key.len())
    {
        desk.first.put(key, value);
    }
}

/// Gives the pair that was found, which stands in the leaf on the desk, another value of its length.
pub(crate) fn swap_value<N: NodeStore>(
    store: &mut N,
    desk: &mut Desk,
    value: &[u8],
    node: u32,
    index: u16,
)
    requires desk { IsDeskOf (N.state store.old).shape.node_size desk.old }
    requires leaf { HoldsLeaf (N.state store.old) desk.old.node node }
    requires room { HasRoom 1 (N.state store.old) ⊎ IsTrue ((N.state store.old).written node) }
    ensures swaps { IsTrue (N.state store.old).tells → HasRecord (N.state store.old) node index (length (desk.old.held.key ++ value.now))
        → SwapsRecord node index (desk.old.held.key ++ value.now) (N.state store.old) (N.state store.new) }
    ensures desk { IsDeskOf (N.state store.old).shape.node_size desk.new }
    ensures shape { (N.state store.new).shape ≡ (N.state store.old).shape }
    ensures does { CostsAtMost 1 0 (N.state store.old) (N.state store.new) }
    ensures below { N.follows store.old store.new }
{
    put_value(desk, value);
    overwrite(store, desk, node, index);
}

/// Puts the pair on the desk in the place of a record of its length in the leaf on the desk.
fn overwrite<N: NodeStore>(store: &mut N, desk: &mut Desk, node: u32, index: u16)
    requires desk { IsDeskOf (N.state store.old).shape.node_size desk.old }
    requires leaf { HoldsLeaf (N.state store.old) desk.old.node node }
    requires room { HasRoom 1 (N.state store.old) ⊎ IsTrue ((N.state store.old).written node) }
    ensures swaps { IsTrue (N.state store.old).tells → HasRecord (N.state store.old) node index (length (record_of desk.old.first))
        → SwapsRecord node index (record_of desk.old.first) (N.state store.old) (N.state store.new) }
    ensures desk { IsDeskOf (N.state store.old).shape.node_size desk.new }
    ensures shape { (N.state store.new).shape ≡ (N.state store.old).shape }
    ensures does { CostsAtMost 1 0 (N.state store.old) (N.state store.new) }
    ensures below { N.follows store.old store.new }
{
    if index >= desk.node.count() {
        return;
    }
    if desk.first.size() > desk.node.item(index).len() + 2 {
        return;
    }
    desk.node
        .replace(index, desk.first.key(), desk.first.value());
    store.save(node, &desk.node);
}
