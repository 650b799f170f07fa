//! Single edits of the attributes tree, with the room that they need and what they take of it.
ghost use Rattle.std.specs.Prelude.{◌≡◌, ◌≤◌, ◌+◌, [], ℕ, List, All, IsTrue, length, OnOk, IfOk};
ghost use Rattle.btree_node.specs.Keys.{IsAttrKey, attr_cmp};
ghost use Rattle.btree_node.specs.Store.{HasCause};
ghost use Rattle.btree_node.specs.Tree.{pairs_of};
ghost use Rattle.btree_edit.specs.Answers.{AnswersInsert, AnswersRemove};
ghost use Rattle.btree_edit.specs.Edits.{EditRoom};
ghost use Rattle.btree_edit.specs.Sorted.{InsertsPair, RemovesPair};
ghost use Rattle.hfs_model.specs.Sorted.{kept};
ghost use Rattle.attributes.specs.Dropping.{is_named};
ghost use Rattle.attributes.specs.Forks.{IsShortPair, Part, PutsParts, RisesFrom, SpellParts};
ghost use Rattle.attributes.specs.Values.{AreSpelled};
ghost use Rattle.attributes.specs.Frame.{EditsAtMost, IsEditable};

use crate::pair::AttributePair;
use btree_edit::{Desk, Inserted, Removed, insert, remove};
use btree_node::{AttrOrder, NodeStore};
use hx_bytes::{Bytes, Failed};

/// Adds a pair.
pub(crate) fn insert_pair<N: NodeStore>(
    store: &mut N,
    desk: &mut Desk,
    pair: &AttributePair,
) -> Result<Inserted, Failed>
    requires ready { IsEditable IsAttrKey attr_cmp 4096 (N.state store.old) desk.old }
    requires key { IsAttrKey pair.now.key }
    requires short { length pair.now.key + length pair.now.value ≤ 2038 }
    requires room { IsTrue (N.state store.old).tells → EditRoom 1 266 (N.state store.old) }
    ensures answer { IsTrue (N.state store.old).tells → IfOk result (λ answer. AnswersInsert attr_cmp pair.now.key (N.state store.old) answer) }
    ensures pairs { IsTrue (N.state store.old).tells → IfOk result (λ answer. InsertsPair attr_cmp pair.now.key pair.now.value (pairs_of (N.state store.old)) (pairs_of (N.state store.new)) answer) }
    ensures frame { EditsAtMost N.state N.follows IsAttrKey attr_cmp 1 266 store.old store.new desk.new result }
    ensures cause { HasCause (N.state store.old).faults (N.state store.new).faults result }
{
    insert::<N, AttrOrder>(store, desk, pair.key.as_slice(), pair.value.as_slice())
}

/// Adds pairs, one after another.
pub(crate) fn insert_pairs<N: NodeStore>(
    store: &mut N,
    desk: &mut Desk,
    pairs: &[AttributePair],
) -> Result<(), Failed>
    requires ready { IsEditable IsAttrKey attr_cmp 4096 (N.state store.old) desk.old }
    requires keys { All IsShortPair pairs.now }
    requires room { IsTrue (N.state store.old).tells → EditRoom (length pairs.now) 266 (N.state store.old) }
    // Where they spell the records of one attribute in the order of their keys, and it had none, it has these.
    ensures put { IsTrue (N.state store.old).tells → (id : ℕ) (name : List ℕ) (parts : List Part) → SpellParts id name parts pairs.now → RisesFrom 0 parts → 1 ≤ length name → AreSpelled (pairs_of (N.state store.old))
        → kept (is_named id name) (pairs_of (N.state store.old)) ≡ [] → OnOk result (PutsParts id name pairs.now (pairs_of (N.state store.old)) (pairs_of (N.state store.new))) }
    ensures frame { EditsAtMost N.state N.follows IsAttrKey attr_cmp (length pairs.now) 266 store.old store.new desk.new result }
    ensures cause { HasCause (N.state store.old).faults (N.state store.new).faults result }
{
    for pair in pairs {
        insert_pair(store, desk, pair)?;
    }
    Ok(())
}

/// Removes the pair with this key.
pub(crate) fn remove_key<N: NodeStore>(
    store: &mut N,
    desk: &mut Desk,
    key: &[u8],
) -> Result<Removed, Failed>
    requires ready { IsEditable IsAttrKey attr_cmp 4096 (N.state store.old) desk.old }
    requires key { IsAttrKey key.now }
    requires room { IsTrue (N.state store.old).tells → EditRoom 1 266 (N.state store.old) }
    ensures answer { IsTrue (N.state store.old).tells → IfOk result (λ answer. AnswersRemove attr_cmp key.now (N.state store.old) answer) }
    ensures pairs { IsTrue (N.state store.old).tells → IfOk result (λ answer. RemovesPair attr_cmp key.now (pairs_of (N.state store.old)) (pairs_of (N.state store.new)) answer) }
    ensures form { IsTrue (N.state store.old).tells → AreSpelled (pairs_of (N.state store.old)) → OnOk result (AreSpelled (pairs_of (N.state store.new))) }
    ensures frame { EditsAtMost N.state N.follows IsAttrKey attr_cmp 1 266 store.old store.new desk.new result }
    ensures cause { HasCause (N.state store.old).faults (N.state store.new).faults result }
{
    remove::<N, AttrOrder>(store, desk, key)
}
