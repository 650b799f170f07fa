//! The first record of an attribute, or of a folder or file, brought onto the desk.
ghost use Rattle.std.specs.Prelude.{◌≡◌, ◌+◌, ◌*◌, [], IsTrue, IfOk};
ghost use Rattle.btree_node.specs.Keys.{IsAttrKey, attr_cmp, attr_file, attr_units, attr_start};
ghost use Rattle.btree_node.specs.Store.{HasCause};
ghost use Rattle.btree_node.specs.Tree.{IsTree, pairs_of};
ghost use Rattle.btree_edit.specs.Desk.{HasKey, IsDeskOf};
ghost use Rattle.btree_edit.specs.Reading.{ReadsNodes};
ghost use Rattle.attributes.specs.Dropping.{HoldsFirst, is_named};
ghost use Rattle.attributes.specs.Owned.{is_of};
ghost use Rattle.attributes.specs.Values.{AreSpelled};

use crate::pair::{is_key_of, is_key_of_name};
use btree_edit::{Desk, Found, look, next};
use btree_node::{AttrOrder, NodeStore};
use hx_bytes::Failed;

/// Brings the first record that an attribute has onto the desk, by the key of its first block, and answers whether it has one.
pub(crate) fn hold_first<N: NodeStore>(
    store: &mut N,
    desk: &mut Desk,
    key: &[u8],
) -> Result<bool, Failed>
    requires desk { IsDeskOf (N.state store.old).shape.node_size desk.old }
    requires tree { IsTrue (N.state store.old).tells → IsTree IsAttrKey attr_cmp (N.state store.old) }
    requires key { IsAttrKey key.now }
    requires start { attr_start key.now ≡ 0 }
    ensures first { IsTrue (N.state store.old).tells → IfOk result (λ some. HoldsFirst (is_named (attr_file key.now) (attr_units key.now)) (N.state store.old) desk.new some) }
    ensures key { IfOk result (λ some. IsTrue some → IsAttrKey desk.new.held.key) }
    ensures reads { ReadsNodes (2 * (N.state store.old).shape.depth + 1) (N.state store.old) (N.state store.new) }
    ensures desk { IsDeskOf (N.state store.old).shape.node_size desk.new }
    ensures cause { HasCause (N.state store.old).faults (N.state store.new).faults result }
    ensures below { N.follows store.old store.new }
{
    match look::<N, AttrOrder>(store, desk, key)? {
        Found::At { .. } => Ok(is_key_of_name(desk.key(), key)),
        Found::Absent => hold_later(store, desk, key),
    }
}

/// The same where no record has the key: the first one may be gone, while further ones are there.
fn hold_later<N: NodeStore>(store: &mut N, desk: &mut Desk, key: &[u8]) -> Result<bool, Failed>
    requires desk { IsDeskOf (N.state store.old).shape.node_size desk.old }
    requires tree { IsTrue (N.state store.old).tells → IsTree IsAttrKey attr_cmp (N.state store.old) }
    requires key { IsAttrKey key.now }
    requires start { attr_start key.now ≡ 0 }
    requires absent { IsTrue (N.state store.old).tells → HasKey attr_cmp key.now (pairs_of (N.state store.old)) → ⊥ }
    ensures first { IsTrue (N.state store.old).tells → IfOk result (λ some. HoldsFirst (is_named (attr_file key.now) (attr_units key.now)) (N.state store.old) desk.new some) }
    ensures key { IfOk result (λ some. IsTrue some → IsAttrKey desk.new.held.key) }
    ensures reads { ReadsNodes ((N.state store.old).shape.depth + 1) (N.state store.old) (N.state store.new) }
    ensures desk { IsDeskOf (N.state store.old).shape.node_size desk.new }
    ensures cause { HasCause (N.state store.old).faults (N.state store.new).faults result }
    ensures below { N.follows store.old store.new }
{
    if !next::<N, AttrOrder>(store, desk, key)? {
        return Ok(false);
    }
    Ok(is_key_of_name(desk.key(), key))
}

/// Brings the first record of a folder or file onto the desk, by the key of the empty name, and answers whether it has one.
pub(crate) fn hold_owned<N: NodeStore>(
    store: &mut N,
    desk: &mut Desk,
    id: u32,
    start: &[u8],
) -> Result<bool, Failed>
    requires desk { IsDeskOf (N.state store.old).shape.node_size desk.old }
    requires tree { IsTrue (N.state store.old).tells → IsTree IsAttrKey attr_cmp (N.state store.old) }
    requires form { IsTrue (N.state store.old).tells → AreSpelled (pairs_of (N.state store.old)) }
    requires start { IsAttrKey start.now }
    requires before { (attr_file start.now ≡ id) × (attr_units start.now ≡ []) }
    ensures first { IsTrue (N.state store.old).tells → IfOk result (λ some. HoldsFirst (is_of id) (N.state store.old) desk.new some) }
    ensures key { IfOk result (λ some. IsTrue some → IsAttrKey desk.new.held.key) }
    ensures reads { ReadsNodes ((N.state store.old).shape.depth + 1) (N.state store.old) (N.state store.new) }
    ensures desk { IsDeskOf (N.state store.old).shape.node_size desk.new }
    ensures cause { HasCause (N.state store.old).faults (N.state store.new).faults result }
    ensures below { N.follows store.old store.new }
{
    if !next::<N, AttrOrder>(store, desk, start)? {
        return Ok(false);
    }
    Ok(is_key_of(desk.key(), id))
}
