//! The way from the root to the leaf of a key.
ghost use Rattle.std.specs.Prelude.{◌≡◌, ◌≢◌, ◌≤◌, ◌<◌, ◌-◌, [], false, IsTrue, length, slice_index_or, IfOk};
ghost use Rattle.std.specs.declared.cmp.Ordering.TheVariants.{Equal};
ghost use Rattle.btree_node.specs.Node.{IsNode, items};
ghost use Rattle.btree_node.specs.Levels.{key_of};
ghost use Rattle.btree_node.specs.Store.{HasCause};
ghost use Rattle.btree_node.specs.Tree.{IsTree, IsTreeNode, pairs_of};
ghost use Rattle.btree_edit.specs.Desk.{HasKey, IsDeskOf};
ghost use Rattle.btree_edit.specs.Ended.{EndsAt};
ghost use Rattle.btree_edit.specs.Reading.{ReadsNodes};
ghost use Rattle.btree_edit.specs.Way.{stop_at, LeadsWay};

use crate::desk::{Desk, PathStep};
use crate::search::{key_part, lead, place, read_node};
use btree_node::{KeyOrder, Node, NodeStore};
use hx_bytes::Failed;

/// Goes down from the root to the leaf of a key, and keeps the way. The leaf stays on the desk.
pub(crate) fn find_path<N: NodeStore, K: KeyOrder>(
    store: &mut N,
    desk: &mut Desk,
    key: &[u8],
) -> Result<bool, Failed>
    requires desk { IsDeskOf (N.state store.old).shape.node_size desk.old }
    requires key { K.is_key key.now }
    requires tree { IsTrue (N.state store.old).tells → IsTree K.is_key K.cmp (N.state store.old) }
    ensures way { IsTrue (N.state store.old).tells → IfOk result (λ yes. IsTrue yes → LeadsWay K.cmp key.now (N.state store.old) desk.new.path) }
    ensures leaf { IsTrue (N.state store.old).tells → IfOk result (λ yes. IsTrue yes → desk.new.node ≡ (N.state store.old).nodes (stop_at desk.new.path ((N.state store.old).shape.depth - 1)).node) }
    ensures there { IfOk result (λ yes. IsTrue yes → EndsAt (N.state store.new) (N.state store.new).shape.depth desk.new.node desk.new.path) }
    // There is no way only where the root has no record.
    ensures none { IsTrue (N.state store.old).tells → IfOk result (λ yes. yes ≡ false → 0 < (N.state store.old).shape.depth → length (items ((N.state store.old).nodes (N.state store.old).shape.root)) ≡ 0) }
    ensures well_formed { IfOk result (λ yes. IsTrue yes → IsNode desk.new.node) }
    ensures some { IfOk result (λ yes. IsTrue yes → 0 < (N.state store.old).shape.depth) }
    ensures most { IfOk result (λ yes. IsTrue yes → (N.state store.old).shape.depth ≤ 12) }
    ensures desk { IsDeskOf (N.state store.old).shape.node_size desk.new }
    ensures held { desk.new.held ≡ desk.old.held }
    ensures first { desk.new.first ≡ desk.old.first }
    ensures reads { ReadsNodes (N.state store.old).shape.depth (N.state store.old) (N.state store.new) }
    ensures cause { HasCause (N.state store.old).faults (N.state store.new).faults result }
    ensures below { N.follows store.old store.new }
{
    let shape = store.shape();
    if shape.depth == 0 || shape.depth > 12 {
        return Ok(false);
    }
    let mut node = shape.root;
    for level in 0..shape.depth - 1 {
        let height = shape.depth - level;
        let Some(step) = lead::<N, K>(store, &mut desk.node, node, height, key)? else {
            return Ok(false);
        };
        desk.path[level as usize] = PathStep {
            node,
            at: step.index,
        };
        node = step.child;
    }
    if !read_node(store, &mut desk.node, node, 1)? {
        return Ok(false);
    }
    let Some(at) = place::<K>(desk.node.bytes(), key) else {
        return Ok(false);
    };
    desk.path[(shape.depth - 1) as usize] = PathStep { node, at };
    Ok(true)
}

/// What a way down tells of a key.
#[derive(Clone, Copy)]
pub struct Traced {
    pub(crate) has_way: bool,
    pub(crate) has_key: bool,
}

/// Whether the record before a place of a node has this key.
fn is_before<K: KeyOrder>(node: &Node, key: &[u8], at: u16) -> bool
    requires well_formed { IsNode node.now }
    requires key { K.is_key key.now }
    ensures some { IsTrue result → 0 < at }
    ensures within { IsTrue result → at ≤ length (items node.now) }
    ensures equal { IsTrue result → K.cmp (key_of (slice_index_or (items node.now) (at - 1) [])) key.now ≡ Equal }
    ensures unlike { result ≡ false → 0 < at → at ≤ length (items node.now) → K.is_key (key_of (slice_index_or (items node.now) (at - 1) [])) → K.cmp (key_of (slice_index_or (items node.now) (at - 1) [])) key.now ≢ Equal }
{
    if at == 0 {
        return false;
    }
    if at > node.count() {
        return false;
    }
    let own = key_part(node.item(at - 1));
    if !K::valid(own) {
        return false;
    }
    K::compare(own, key).is_eq()
}

/// Goes down as `find_path` does, and tells whether the leaf has the key.
pub(crate) fn trace<N: NodeStore, K: KeyOrder>(
    store: &mut N,
    desk: &mut Desk,
    key: &[u8],
) -> Result<Traced, Failed>
    requires desk { IsDeskOf (N.state store.old).shape.node_size desk.old }
    requires key { K.is_key key.now }
    requires tree { IsTrue (N.state store.old).tells → IsTree K.is_key K.cmp (N.state store.old) }
    ensures way { IsTrue (N.state store.old).tells → IfOk result (λ it. IsTrue it.has_way → LeadsWay K.cmp key.now (N.state store.old) desk.new.path) }
    ensures there { IfOk result (λ it. IsTrue it.has_way → EndsAt (N.state store.new) (N.state store.new).shape.depth desk.new.node desk.new.path) }
    // There is no way only where the root has no record.
    ensures none { IsTrue (N.state store.old).tells → IfOk result (λ it. it.has_way ≡ false → 0 < (N.state store.old).shape.depth → length (items ((N.state store.old).nodes (N.state store.old).shape.root)) ≡ 0) }
    ensures some { IfOk result (λ it. IsTrue it.has_way → 0 < (N.state store.old).shape.depth) }
    ensures most { IfOk result (λ it. IsTrue it.has_way → (N.state store.old).shape.depth ≤ 12) }
    ensures found { IsTrue (N.state store.old).tells → IfOk result (λ it. IsTrue it.has_key → HasKey K.cmp key.now (pairs_of (N.state store.old))) }
    ensures absent { IsTrue (N.state store.old).tells → IfOk result (λ it. it.has_key ≡ false → HasKey K.cmp key.now (pairs_of (N.state store.old)) → ⊥) }
    ensures desk { IsDeskOf (N.state store.old).shape.node_size desk.new }
    ensures reads { ReadsNodes (N.state store.old).shape.depth (N.state store.old) (N.state store.new) }
    ensures cause { HasCause (N.state store.old).faults (N.state store.new).faults result }
    ensures below { N.follows store.old store.new }
{
    let shape = store.shape();
    if !find_path::<N, K>(store, desk, key)? {
        return Ok(Traced {
            has_way: false,
            has_key: false,
        });
    }
    let at = desk.path[(shape.depth - 1) as usize].at;
    let has_key = is_before::<K>(&desk.node, key, at);
    Ok(Traced {
        has_way: true,
        has_key,
    })
}
