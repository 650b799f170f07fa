//! A pair's value replaced: in its leaf alone where the new value has the length of the old one.
ghost use Rattle.std.specs.Prelude.{◌≡◌, ◌≢◌, ◌≤◌, ◌<◌, ◌+◌, ◌-◌, ◌*◌, ◌/◌, ◌⊎◌, ◌++◌, IsTrue, length, OnOk, IfOk};
ghost use Rattle.btree_node.specs.Store.{HasRoom, HasCause};
ghost use Rattle.btree_node.specs.Tree.{IsTree, HasValues, pairs_of};
ghost use Rattle.btree_edit.specs.Desk.{IsDeskOf, HoldsLeaf};
ghost use Rattle.btree_edit.specs.Editing.{CostsAtMost, edit_writes};
ghost use Rattle.btree_edit.specs.Halves.{record_of};
ghost use Rattle.btree_edit.specs.LevelEdit.{node_room};
ghost use Rattle.btree_edit.specs.Rising.{BoundsRoot, RootHasTwoChildren};
ghost use Rattle.btree_edit.specs.Sorted.{HoldsKeyOf, ChangesPair, ReplacesPair, KeepsFreeNodes, EditsTree};
ghost use Rattle.btree_edit.specs.Swapping.{HasRecord, SwapsRecord, HasValueOf, IsLeafWritten, ChangesLeafAlone};
ghost use Rattle.btree_edit.specs.Answers.{AnswersRemove};

use crate::desk::Desk;
use crate::edits::{Removed, change_pair, total_of};
use crate::finding::{Found, find};
use crate::room::fits_value;
use crate::swapping::{has_length, put_value, swap_value};
use btree_node::{KeyOrder, NodeStore};
use hx_bytes::Failed;

/// Gives the pair with a key another value; its key stays as it stands in the tree.
pub fn replace<N: NodeStore, K: KeyOrder>(
    store: &mut N,
    desk: &mut Desk,
    key: &[u8],
    value: &[u8],
) -> Result<Removed, Failed>
    requires desk { IsDeskOf (N.state store.old).shape.node_size desk.old }
    requires key { K.is_key key.now }
    requires tree { IsTrue (N.state store.old).tells → IsTree K.is_key K.cmp (N.state store.old) }
    // The node size is one that the format allows the tree: three index records with the longest keys fit.
    requires wide { IsTrue (N.state store.old).tells → 3 * (K.MAX + 8) ≤ node_room (N.state store.old).shape.node_size }
    requires short { length key.now + length value.now ≤ (N.state store.old).shape.node_size / 2 - 10 }
    requires value { IsTrue (N.state store.old).tells → K.is_value value.now }
    // Where the store tells its nodes there is room; where it doesn't, the call fails for want of it. A value of the length of the old one
    // wants no free node, and one write at most.
    requires depth { IsTrue (N.state store.old).tells → HasValueOf K.cmp key.now (length value.now) (N.state store.old) ⊎ ((N.state store.old).shape.depth ≤ 11) }
    requires free { IsTrue (N.state store.old).tells → HasValueOf K.cmp key.now (length value.now) (N.state store.old) ⊎ ((N.state store.old).shape.depth + 1 ≤ (N.state store.old).shape.free) }
    requires room { IsTrue (N.state store.old).tells → (HasValueOf K.cmp key.now (length value.now) (N.state store.old) × (HasRoom 1 (N.state store.old) ⊎ IsLeafWritten K.cmp key.now (N.state store.old)))
        ⊎ HasRoom (edit_writes (N.state store.old).shape.depth) (N.state store.old) }
    // Absent exactly where the tree doesn't have the key.
    ensures answer { IsTrue (N.state store.old).tells → IfOk result (λ answer. AnswersRemove K.cmp key.now (N.state store.old) answer) }
    // The pairs are the sorted list with that one value changed.
    ensures pairs { IsTrue (N.state store.old).tells → IfOk result (λ answer. ReplacesPair K.cmp key.now value.now (pairs_of (N.state store.old)) (pairs_of (N.state store.new)) answer) }
    // Their values stay such as the order has.
    ensures values { IsTrue (N.state store.old).tells → HasValues K.is_value (N.state store.old) → OnOk result (HasValues K.is_value (N.state store.new)) }
    // They keep the rules of a tree.
    ensures tree { IsTrue (N.state store.old).tells → OnOk result (IsTree K.is_key K.cmp (N.state store.new)) }
    // Nodes that aren't the tree's stay as they were.
    ensures others { IsTrue (N.state store.old).tells → OnOk result (KeepsFreeNodes (N.state store.old) (N.state store.new)) }
    // An index root gets at most one record more, and the tree rises only where it has no room for one.
    ensures roots { IsTrue (N.state store.old).tells → OnOk result (BoundsRoot K.MAX (N.state store.old) (N.state store.new) (N.state store.new).shape.depth (N.state store.new).shape.root) }
    // Where the root index had two records or more, it has.
    ensures thick { IsTrue (N.state store.old).tells → RootHasTwoChildren (N.state store.old) (N.state store.old).shape.depth (N.state store.old).shape.root
        → OnOk result (RootHasTwoChildren (N.state store.new) (N.state store.new).shape.depth (N.state store.new).shape.root) }
    // A value of the length of the old one changes the leaf alone, by one write, and keeps the shape.
    ensures alone { HasValueOf K.cmp key.now (length value.now) (N.state store.old) → OnOk result (ChangesLeafAlone K.cmp key.now (N.state store.old) (N.state store.new)) }
    ensures once { HasValueOf K.cmp key.now (length value.now) (N.state store.old) → CostsAtMost 1 0 (N.state store.old) (N.state store.new) }
    ensures kept { HasValueOf K.cmp key.now (length value.now) (N.state store.old) → (N.state store.new).shape ≡ (N.state store.old).shape }
    ensures desk { IsDeskOf (N.state store.old).shape.node_size desk.new }
    // The header node goes on saying the tree's numbers.
    ensures header { IsTrue (N.state store.old).tells → (N.state store.old).header ≡ (N.state store.old).shape → OnOk result ((N.state store.new).header ≡ (N.state store.new).shape) }
    ensures records { OnOk result ((N.state store.new).shape.leaf_records ≡ (N.state store.old).shape.leaf_records) }
    ensures depth { OnOk result ((N.state store.new).shape.depth ≤ (N.state store.old).shape.depth + 1) }
    ensures does { CostsAtMost (edit_writes (N.state store.old).shape.depth) ((N.state store.old).shape.depth + 1) (N.state store.old) (N.state store.new) }
    ensures cause { HasCause (N.state store.old).faults (N.state store.new).faults result }
    ensures below { N.follows store.old store.new }
{
    let shape = store.shape();
    let _total = total_of(&shape);
    match find::<N, K>(store, desk, key)? {
        Found::At { node, index } => {
            if !fits_value(store, has_length(desk, value), node) {
                return Err(store.fail());
            }
            give_value::<N, K>(store, desk, key, value, node, index)?;
            Ok(Removed::Done)
        }
        Found::Absent => Ok(Removed::Absent),
    }
}

/// Gives the pair on the desk, which stands in the leaf there, another value: in the leaf alone where the lengths are the same.
fn give_value<N: NodeStore, K: KeyOrder>(
    store: &mut N,
    desk: &mut Desk,
    key: &[u8],
    value: &[u8],
    node: u32,
    index: u16,
) -> Result<(), Failed>
    requires desk { IsDeskOf (N.state store.old).shape.node_size desk.old }
    requires key { K.is_key key.now }
    requires tree { IsTrue (N.state store.old).tells → IsTree K.is_key K.cmp (N.state store.old) }
    requires leaf { HoldsLeaf (N.state store.old) desk.old.node node }
    requires depth { length value.now ≢ length desk.old.held.value → (N.state store.old).shape.depth ≤ 11 }
    requires free { length value.now ≢ length desk.old.held.value → (N.state store.old).shape.depth + 1 ≤ (N.state store.old).shape.free }
    requires once { length value.now ≡ length desk.old.held.value → HasRoom 1 (N.state store.old) ⊎ IsTrue ((N.state store.old).written node) }
    requires room { length value.now ≢ length desk.old.held.value → HasRoom (edit_writes (N.state store.old).shape.depth) (N.state store.old) }
    ensures swaps { length value.now ≡ length desk.old.held.value → IsTrue (N.state store.old).tells → HasRecord (N.state store.old) node index (length (desk.old.held.key ++ value.now))
        → OnOk result (SwapsRecord node index (desk.old.held.key ++ value.now) (N.state store.old) (N.state store.new)) }
    ensures changes { length value.now ≢ length desk.old.held.value → IsTrue (N.state store.old).tells → 3 * (K.MAX + 8) ≤ node_room (N.state store.old).shape.node_size
        → length (desk.old.held.key ++ value.now) ≤ (N.state store.old).shape.node_size / 2 - 10
        → HoldsKeyOf K.cmp key.now (N.state store.old) desk.old.held.key
        → OnOk result (EditsTree K.is_key K.cmp (N.state store.old) (N.state store.new) (λ before after. ChangesPair K.cmp key.now value.now before after)) }
    ensures roots { length value.now ≢ length desk.old.held.value → IsTrue (N.state store.old).tells → 3 * (K.MAX + 8) ≤ node_room (N.state store.old).shape.node_size
        → length (desk.old.held.key ++ value.now) ≤ (N.state store.old).shape.node_size / 2 - 10 → HoldsKeyOf K.cmp key.now (N.state store.old) desk.old.held.key
        → OnOk result (BoundsRoot K.MAX (N.state store.old) (N.state store.new) (N.state store.new).shape.depth (N.state store.new).shape.root) }
    ensures thick { length value.now ≢ length desk.old.held.value → IsTrue (N.state store.old).tells → 3 * (K.MAX + 8) ≤ node_room (N.state store.old).shape.node_size
        → length (desk.old.held.key ++ value.now) ≤ (N.state store.old).shape.node_size / 2 - 10 → HoldsKeyOf K.cmp key.now (N.state store.old) desk.old.held.key
        → OnOk result (RootHasTwoChildren (N.state store.new) (N.state store.new).shape.depth (N.state store.new).shape.root) }
    ensures header { length value.now ≢ length desk.old.held.value → IsTrue (N.state store.old).tells → (N.state store.old).header ≡ (N.state store.old).shape
        → OnOk result ((N.state store.new).header ≡ (N.state store.new).shape) }
    ensures records { OnOk result ((N.state store.new).shape.leaf_records ≡ (N.state store.old).shape.leaf_records) }
    ensures shape { length value.now ≡ length desk.old.held.value → (N.state store.new).shape ≡ (N.state store.old).shape }
    ensures does_one { length value.now ≡ length desk.old.held.value → CostsAtMost 1 0 (N.state store.old) (N.state store.new) }
    ensures does { CostsAtMost (edit_writes (N.state store.old).shape.depth) ((N.state store.old).shape.depth + 1) (N.state store.old) (N.state store.new) }
    ensures desk { IsDeskOf (N.state store.old).shape.node_size desk.new }
    ensures depth { OnOk result ((N.state store.new).shape.depth ≤ (N.state store.old).shape.depth + 1) }
    ensures cause { HasCause (N.state store.old).faults (N.state store.new).faults result }
    ensures below { N.follows store.old store.new }
{
    if value.len() == desk.value().len() {
        swap_value(store, desk, value, node, index);
        return Ok(());
    }
    put_value(desk, value);
    change_pair::<N, K>(store, desk, key)
}
