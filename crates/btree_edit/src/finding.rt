//! The pair with a key.
ghost use Rattle.std.specs.Prelude.{◌≡◌, ◌≤◌, ◌+◌, ◌-◌, ◌<◌, IsTrue, IsSome, length, IfOk};
ghost use Rattle.btree_node.specs.Node.{IsNode, IsNodeOf};
ghost use Rattle.btree_node.specs.Store.{HasCause};
ghost use Rattle.btree_node.specs.Tree.{IsTree, kind_at};
ghost use Rattle.btree_edit.specs.Desk.{IsDeskOf, Finds, IsInTree, KeepsLeaf, Picks};
ghost use Rattle.btree_edit.specs.Reading.{ReadsNodes, LeadsToLeaf};

use crate::desk::{Desk, Held};
use crate::search::{key_part, kind_at, lead, place, read_node};
use btree_node::reads::{is_node_of, record_at};
use btree_node::{KeyOrder, NodeStore};
use hx_bytes::Failed;

/// Where a key stands.
#[derive(Clone, Copy, Debug, PartialEq, Eq)]
pub enum Found {
    At { node: u32, index: u16 },
    Absent,
}

/// Goes down from the root to the leaf into which a key belongs; none where the tree has no leaf.
pub(crate) fn descend<N: NodeStore, K: KeyOrder>(
    store: &mut N,
    desk: &mut Desk,
    key: &[u8],
) -> Result<Option<u32>, Failed>
    requires desk { IsDeskOf (N.state store.old).shape.node_size desk.old }
    requires key { K.is_key key.now }
    requires tree { IsTrue (N.state store.old).tells → IsTree K.is_key K.cmp (N.state store.old) }
    ensures leaf { IsTrue (N.state store.old).tells → IfOk result (λ leaf. LeadsToLeaf K.cmp key.now (N.state store.old) leaf) }
    ensures depth { IfOk result (λ leaf. IsSome leaf → 0 < (N.state store.old).shape.depth) }
    ensures desk { IsDeskOf (N.state store.old).shape.node_size desk.new }
    ensures held { desk.new.held ≡ desk.old.held }
    ensures reads { ReadsNodes ((N.state store.old).shape.depth - 1) (N.state store.old) (N.state store.new) }
    ensures cause { HasCause (N.state store.old).faults (N.state store.new).faults result }
    ensures below { N.follows store.old store.new }
{
    let shape = store.shape();
    let mut node = shape.root;
    let mut height = shape.depth;
    if height == 0 || height > 12 {
        return Ok(None);
    }
    while height > 1 {
        let Some(step) = lead::<N, K>(store, &mut desk.node, node, height, key)? else {
            return Ok(None);
        };
        node = step.child;
        height -= 1;
    }
    Ok(Some(node))
}

/// Looks for a key in a leaf, and keeps its pair.
fn pick<K: KeyOrder>(held: &mut Held, leaf: &[u8], node: u32, key: &[u8]) -> Found
    requires long { 512 ≤ length leaf.now }
    requires well_formed { IsNode leaf.now }
    requires size { length leaf.now ≤ held.old.room }
    requires key { K.is_key key.now }
    ensures picks { Picks K.is_key K.cmp key.now node leaf.now held.old held.new result }
    ensures room { held.new.room ≡ held.old.room }
{
    let Some(place) = place::<K>(leaf, key) else {
        return Found::Absent;
    };
    if place == 0 {
        return Found::Absent;
    }
    let index = place - 1;
    let item = record_at(leaf, index as usize);
    if K::compare(key_part(item), key).is_ne() {
        return Found::Absent;
    }
    held.keep(item);
    Found::At { node, index }
}

/// The same where these are the bytes of a leaf.
fn pick_leaf<K: KeyOrder>(held: &mut Held, leaf: &[u8], node: u32, key: &[u8]) -> Found
    requires long { 512 ≤ length leaf.now }
    requires size { length leaf.now ≤ held.old.room }
    requires key { K.is_key key.now }
    ensures picks { IsNodeOf (kind_at 1) 1 leaf.now → Picks K.is_key K.cmp key.now node leaf.now held.old held.new result }
    ensures room { held.new.room ≡ held.old.room }
{
    if !is_node_of(leaf, kind_at(1), 1) {
        return Found::Absent;
    }
    pick::<K>(held, leaf, node, key)
}

/// The pair with a key, which it leaves on the desk.
pub fn find<N: NodeStore, K: KeyOrder>(
    store: &mut N,
    desk: &mut Desk,
    key: &[u8],
) -> Result<Found, Failed>
    requires desk { IsDeskOf (N.state store.old).shape.node_size desk.old }
    requires key { K.is_key key.now }
    requires tree { IsTrue (N.state store.old).tells → IsTree K.is_key K.cmp (N.state store.old) }
    // It answers At exactly where the tree has the key, and leaves the pair.
    ensures found { IsTrue (N.state store.old).tells → IfOk result (λ found. Finds K.cmp key.now (N.state store.old) desk.new found) }
    // The pair stands in that leaf of the tree.
    ensures place { IsTrue (N.state store.old).tells → IfOk result (λ found. IsInTree (N.state store.old) desk.new found) }
    // That leaf stays on the desk.
    ensures leaf { IfOk result (λ found. KeepsLeaf (N.state store.new) desk.new found) }
    // It loads one node a level, and changes nothing.
    ensures reads { ReadsNodes (N.state store.old).shape.depth (N.state store.old) (N.state store.new) }
    ensures desk { IsDeskOf (N.state store.old).shape.node_size desk.new }
    // It fails only where the store did.
    ensures cause { HasCause (N.state store.old).faults (N.state store.new).faults result }
    ensures below { N.follows store.old store.new }
{
    desk.held.forget();
    let Some(node) = descend::<N, K>(store, desk, key)? else {
        return Ok(Found::Absent);
    };
    if !read_node(store, &mut desk.node, node, 1)? {
        return Ok(Found::Absent);
    }
    Ok(pick::<K>(&mut desk.held, desk.node.bytes(), node, key))
}

/// Looks for a key in a leaf, of whose bytes no copy is made where the store holds them.
fn look_in<N: NodeStore, K: KeyOrder>(
    store: &mut N,
    desk: &mut Desk,
    node: u32,
    key: &[u8],
) -> Result<Found, Failed>
    requires desk { IsDeskOf (N.state store.old).shape.node_size desk.old }
    requires key { K.is_key key.now }
    ensures picks { IsTrue (N.state store.old).tells → node < (N.state store.old).shape.total → IsNodeOf (kind_at 1) 1 ((N.state store.old).nodes node)
        → IfOk result (λ found. Picks K.is_key K.cmp key.now node ((N.state store.old).nodes node) desk.old.held desk.new.held found) }
    ensures reads { ReadsNodes 1 (N.state store.old) (N.state store.new) }
    ensures desk { IsDeskOf (N.state store.old).shape.node_size desk.new }
    ensures cause { HasCause (N.state store.old).faults (N.state store.new).faults result }
    ensures below { N.follows store.old store.new }
{
    if node >= store.shape().total {
        return Ok(Found::Absent);
    }
    if let Some(leaf) = store.held(node) {
        return Ok(pick_leaf::<K>(&mut desk.held, leaf, node, key));
    }
    if !read_node(store, &mut desk.node, node, 1)? {
        return Ok(Found::Absent);
    }
    Ok(pick::<K>(&mut desk.held, desk.node.bytes(), node, key))
}

/// The pair with a key, which it leaves on the desk, as `find` does. Where the store holds the leaf it isn't copied to the desk.
pub fn look<N: NodeStore, K: KeyOrder>(
    store: &mut N,
    desk: &mut Desk,
    key: &[u8],
) -> Result<Found, Failed>
    requires desk { IsDeskOf (N.state store.old).shape.node_size desk.old }
    requires key { K.is_key key.now }
    requires tree { IsTrue (N.state store.old).tells → IsTree K.is_key K.cmp (N.state store.old) }
    // It answers At exactly where the tree has the key, and leaves the pair.
    ensures found { IsTrue (N.state store.old).tells → IfOk result (λ found. Finds K.cmp key.now (N.state store.old) desk.new found) }
    // The pair stands in that leaf of the tree.
    ensures place { IsTrue (N.state store.old).tells → IfOk result (λ found. IsInTree (N.state store.old) desk.new found) }
    // It loads one node a level, and changes nothing.
    ensures reads { ReadsNodes (N.state store.old).shape.depth (N.state store.old) (N.state store.new) }
    ensures desk { IsDeskOf (N.state store.old).shape.node_size desk.new }
    // It fails only where the store did.
    ensures cause { HasCause (N.state store.old).faults (N.state store.new).faults result }
    ensures below { N.follows store.old store.new }
{
    desk.held.forget();
    let Some(node) = descend::<N, K>(store, desk, key)? else {
        return Ok(Found::Absent);
    };
    let found = look_in::<N, K>(store, desk, node, key)?;
    Ok(found)
}
