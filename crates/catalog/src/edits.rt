//! Single edits of the catalog's tree, with the room that they need and what they take of it.
ghost use Rattle.std.specs.Prelude.{◌≡◌, ◌≤◌, ◌<◌, ◌+◌, ◌-◌, ◌*◌, ◌/◌, ◌^◌, IsTrue, length, OnOk, IfOk};
ghost use Rattle.btree_node.specs.Keys.{IsCatalogKey, catalog_cmp};
ghost use Rattle.btree_node.specs.Store.{HasCause, SameStore};
ghost use Rattle.btree_node.specs.Tree.{IsTree, pairs_of};
ghost use Rattle.btree_edit.specs.Desk.{IsDeskOf};
ghost use Rattle.btree_edit.specs.Answers.{AnswersInsert, AnswersRemove};
ghost use Rattle.btree_edit.specs.Sorted.{InsertsPair, RemovesPair, ReplacesPair};
ghost use Rattle.btree_edit.specs.Edits.{EditRoom, TakesEdits, TakesAtMost};
ghost use Rattle.catalog.specs.Pairs.{IsCatalogPair};

use crate::pair::Pair;
use btree_edit::{Desk, Inserted, Removed, insert, remove, replace};
use btree_node::{CatalogOrder, NodeStore};
use hx_bytes::{Bytes, Failed};

/// Adds a pair.
pub(crate) fn insert_pair<N: NodeStore>(
    store: &mut N,
    desk: &mut Desk,
    pair: &Pair,
) -> Result<Inserted, Failed>
    requires desk { IsDeskOf (N.state store.old).shape.node_size desk.old }
    requires size { 4096 ≤ (N.state store.old).shape.node_size }
    requires tree { IsTrue (N.state store.old).tells → IsTree IsCatalogKey catalog_cmp (N.state store.old) }
    requires pair { IsCatalogPair pair.now }
    requires room { IsTrue (N.state store.old).tells → EditRoom 1 516 (N.state store.old) }
    ensures answer { IsTrue (N.state store.old).tells → IfOk result (λ answer. AnswersInsert catalog_cmp pair.now.key (N.state store.old) answer) }
    ensures pairs { IsTrue (N.state store.old).tells → IfOk result (λ answer. InsertsPair catalog_cmp pair.now.key pair.now.value (pairs_of (N.state store.old)) (pairs_of (N.state store.new)) answer) }
    ensures tree { IsTrue (N.state store.old).tells → OnOk result (IsTree IsCatalogKey catalog_cmp (N.state store.new)) }
    ensures desk { IsDeskOf (N.state store.old).shape.node_size desk.new }
    ensures header { IsTrue (N.state store.old).tells → (N.state store.old).header ≡ (N.state store.old).shape → OnOk result ((N.state store.new).header ≡ (N.state store.new).shape) }
    ensures edits { OnOk result (TakesEdits 1 516 (N.state store.old) (N.state store.new)) }
    ensures takes { TakesAtMost 1 516 (N.state store.old) (N.state store.new) }
    ensures same { SameStore (N.state store.old) (N.state store.new) }
    ensures cause { HasCause (N.state store.old).faults (N.state store.new).faults result }
    ensures below { N.follows store.old store.new }
{
    insert::<N, CatalogOrder>(store, desk, pair.key.as_slice(), pair.value.as_slice())
}

/// Removes the pair with this key.
pub(crate) fn remove_key<N: NodeStore>(
    store: &mut N,
    desk: &mut Desk,
    key: &Bytes,
) -> Result<Removed, Failed>
    requires desk { IsDeskOf (N.state store.old).shape.node_size desk.old }
    requires size { 4096 ≤ (N.state store.old).shape.node_size }
    requires tree { IsTrue (N.state store.old).tells → IsTree IsCatalogKey catalog_cmp (N.state store.old) }
    requires key { IsCatalogKey key.now }
    requires room { IsTrue (N.state store.old).tells → EditRoom 1 516 (N.state store.old) }
    ensures answer { IsTrue (N.state store.old).tells → IfOk result (λ answer. AnswersRemove catalog_cmp key.now (N.state store.old) answer) }
    ensures pairs { IsTrue (N.state store.old).tells → IfOk result (λ answer. RemovesPair catalog_cmp key.now (pairs_of (N.state store.old)) (pairs_of (N.state store.new)) answer) }
    ensures tree { IsTrue (N.state store.old).tells → OnOk result (IsTree IsCatalogKey catalog_cmp (N.state store.new)) }
    ensures desk { IsDeskOf (N.state store.old).shape.node_size desk.new }
    ensures header { IsTrue (N.state store.old).tells → (N.state store.old).header ≡ (N.state store.old).shape → OnOk result ((N.state store.new).header ≡ (N.state store.new).shape) }
    ensures edits { OnOk result (TakesEdits 1 516 (N.state store.old) (N.state store.new)) }
    ensures takes { TakesAtMost 1 516 (N.state store.old) (N.state store.new) }
    ensures same { SameStore (N.state store.old) (N.state store.new) }
    ensures cause { HasCause (N.state store.old).faults (N.state store.new).faults result }
    ensures below { N.follows store.old store.new }
{
    remove::<N, CatalogOrder>(store, desk, key.as_slice())
}

/// Gives the pair with this key another value.
pub(crate) fn replace_pair<N: NodeStore>(
    store: &mut N,
    desk: &mut Desk,
    pair: &Pair,
) -> Result<Removed, Failed>
    requires desk { IsDeskOf (N.state store.old).shape.node_size desk.old }
    requires size { 4096 ≤ (N.state store.old).shape.node_size }
    requires tree { IsTrue (N.state store.old).tells → IsTree IsCatalogKey catalog_cmp (N.state store.old) }
    requires pair { IsCatalogPair pair.now }
    requires room { IsTrue (N.state store.old).tells → EditRoom 1 516 (N.state store.old) }
    ensures answer { IsTrue (N.state store.old).tells → IfOk result (λ answer. AnswersRemove catalog_cmp pair.now.key (N.state store.old) answer) }
    ensures pairs { IsTrue (N.state store.old).tells → IfOk result (λ answer. ReplacesPair catalog_cmp pair.now.key pair.now.value (pairs_of (N.state store.old)) (pairs_of (N.state store.new)) answer) }
    ensures tree { IsTrue (N.state store.old).tells → OnOk result (IsTree IsCatalogKey catalog_cmp (N.state store.new)) }
    ensures desk { IsDeskOf (N.state store.old).shape.node_size desk.new }
    ensures header { IsTrue (N.state store.old).tells → (N.state store.old).header ≡ (N.state store.old).shape → OnOk result ((N.state store.new).header ≡ (N.state store.new).shape) }
    ensures edits { OnOk result (TakesEdits 1 516 (N.state store.old) (N.state store.new)) }
    ensures takes { TakesAtMost 1 516 (N.state store.old) (N.state store.new) }
    ensures same { SameStore (N.state store.old) (N.state store.new) }
    ensures cause { HasCause (N.state store.old).faults (N.state store.new).faults result }
    ensures below { N.follows store.old store.new }
{
    replace::<N, CatalogOrder>(store, desk, pair.key.as_slice(), pair.value.as_slice())
}
