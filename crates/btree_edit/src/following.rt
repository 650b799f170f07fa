//! The pair behind a key.
ghost use Rattle.std.specs.Prelude.{◌≡◌, ◌≤◌, ◌+◌, ◌-◌, ◌<◌, ◌^◌, IsTrue, IsSome, false, length, IfOk, IfSome, IfNone, slice_index_or, []};
ghost use Rattle.btree_node.specs.Node.{IsNode, items};
ghost use Rattle.btree_node.specs.Levels.{key_of, value_of};
ghost use Rattle.btree_node.specs.Store.{HasCause};
ghost use Rattle.btree_node.specs.Tree.{IsTree};
ghost use Rattle.btree_edit.specs.Desk.{IsDeskOf, FindsNext};
ghost use Rattle.btree_edit.specs.Following.{IsLocated, StepsOver};
ghost use Rattle.btree_edit.specs.Reading.{ReadsNodes};

use crate::desk::Desk;
use crate::finding::descend;
use crate::search::{place, read_node};
use btree_node::{KeyOrder, NodeStore};
use hx_bytes::Failed;

/// Keeps the pair of a record of the leaf on the desk, where it has so many.
pub(crate) fn keep_record(desk: &mut Desk, at: u16) -> bool
    requires well_formed { IsNode desk.old.node }
    requires size { length desk.old.node ≤ desk.old.held.room }
    ensures some { IsTrue result → at < length (items desk.old.node) }
    ensures all { at < length (items desk.old.node) → IsTrue result }
    ensures room_behind { IsTrue result → at + 1 < 2 ^ 16 }
    ensures key { IsTrue result → desk.new.held.key ≡ key_of (slice_index_or (items desk.old.node) at []) }
    ensures value { IsTrue result → desk.new.held.value ≡ value_of (slice_index_or (items desk.old.node) at []) }
    ensures kept { result ≡ false → desk.new.held ≡ desk.old.held }
    ensures node { desk.new.node ≡ desk.old.node }
    ensures other { desk.new.other ≡ desk.old.other }
    ensures room { desk.new.held.room ≡ desk.old.held.room }
    ensures first { desk.new.first ≡ desk.old.first }
    ensures second { desk.new.second ≡ desk.old.second }
    ensures path { desk.new.path ≡ desk.old.path }
{
    if at >= desk.node.count() {
        return false;
    }
    let item = desk.node.item(at);
    desk.held.keep(item);
    true
}

/// Goes to the leaf of a key, and finds its place there; none where the tree has no pair.
pub(crate) fn locate<N: NodeStore, K: KeyOrder>(
    store: &mut N,
    desk: &mut Desk,
    key: &[u8],
) -> Result<Option<u16>, Failed>
    requires desk { IsDeskOf (N.state store.old).shape.node_size desk.old }
    requires key { K.is_key key.now }
    requires tree { IsTrue (N.state store.old).tells → IsTree K.is_key K.cmp (N.state store.old) }
    ensures at { IsTrue (N.state store.old).tells → IfOk result (λ at. IsLocated K.cmp key.now (N.state store.old) desk.new at) }
    ensures well_formed { IfOk result (λ at. IsSome at → IsNode desk.new.node) }
    ensures desk { IsDeskOf (N.state store.old).shape.node_size desk.new }
    ensures held { desk.new.held ≡ desk.old.held }
    ensures reads { ReadsNodes (N.state store.old).shape.depth (N.state store.old) (N.state store.new) }
    ensures cause { HasCause (N.state store.old).faults (N.state store.new).faults result }
    ensures below { N.follows store.old store.new }
{
    let Some(node) = descend::<N, K>(store, desk, key)? else {
        return Ok(None);
    };
    if !read_node(store, &mut desk.node, node, 1)? {
        return Ok(None);
    }
    Ok(place::<K>(desk.node.bytes(), key))
}

/// Keeps the first pair of the leaf behind the one on the desk, where there is such a leaf.
fn step_over<N: NodeStore>(store: &mut N, desk: &mut Desk) -> Result<bool, Failed>
    requires desk { IsDeskOf (N.state store.old).shape.node_size desk.old }
    ensures steps { IsTrue (N.state store.old).tells → IfOk result (λ some. StepsOver (N.state store.old) desk.old desk.new some) }
    ensures desk { IsDeskOf (N.state store.old).shape.node_size desk.new }
    ensures reads { ReadsNodes 1 (N.state store.old) (N.state store.new) }
    ensures cause { HasCause (N.state store.old).faults (N.state store.new).faults result }
    ensures below { N.follows store.old store.new }
{
    let (behind, _) = desk.node.links();
    if behind == 0 {
        return Ok(false);
    }
    if !read_node(store, &mut desk.node, behind, 1)? {
        return Ok(false);
    }
    Ok(keep_record(desk, 0))
}

/// Leaves the least pair above a key on the desk, and answers whether there is one.
pub fn next<N: NodeStore, K: KeyOrder>(
    store: &mut N,
    desk: &mut Desk,
    key: &[u8],
) -> Result<bool, Failed>
    requires desk { IsDeskOf (N.state store.old).shape.node_size desk.old }
    requires key { K.is_key key.now }
    requires tree { IsTrue (N.state store.old).tells → IsTree K.is_key K.cmp (N.state store.old) }
    // It answers true exactly where a pair is above the key, and leaves the least of them.
    ensures next { IsTrue (N.state store.old).tells → IfOk result (λ some. FindsNext K.cmp key.now (N.state store.old) desk.new some) }
    // It changes nothing.
    ensures reads { ReadsNodes ((N.state store.old).shape.depth + 1) (N.state store.old) (N.state store.new) }
    ensures desk { IsDeskOf (N.state store.old).shape.node_size desk.new }
    // It fails only where the store did.
    ensures cause { HasCause (N.state store.old).faults (N.state store.new).faults result }
    ensures below { N.follows store.old store.new }
{
    desk.held.forget();
    let Some(at) = locate::<N, K>(store, desk, key)? else {
        return Ok(false);
    };
    if keep_record(desk, at) {
        return Ok(true);
    }
    let found = step_over(store, desk)?;
    Ok(found)
}
