//! Reading a node of the tree, and the place of a key in it.
ghost use Rattle.std.specs.Prelude.{◌≡◌, ◌≢◌, ◌<◌, ◌≤◌, ◌+◌, ◌-◌, ◌∷◌, [], ℕ, IsTrue, length, slice_index_or, IfOk, IfSome, IfNone, ◌⊎◌};
ghost use Rattle.btree_node.specs.Node.{IsNode, IsNodeOf, items};
ghost use Rattle.btree_node.specs.Levels.{key_of, value_of, child_of};
ghost use Rattle.btree_node.specs.Store.{HasCause};
ghost use Rattle.btree_node.specs.Tree.{kind_at};
ghost use Rattle.btree_edit.specs.Reading.{ReadsNodes, IsPlace, HasNoKey, IsLead};

use btree_node::reads::{count, is_node_of, record_at};
use btree_node::{KeyOrder, Node, NodeStore};
use hx_bytes::{Failed, read_be16, read_be32};

/// The key at the front of a record, with its length.
#[tactic(auto, unfolding(btree_node::specs::Levels::key_of))]
pub(crate) fn key_part(item: &[u8]) -> &[u8]
    ensures { result.now ≡ key_of item.now }
{
    if item.len() < 2 {
        return item;
    }
    let end = read_be16(item, 0) as usize + 2;
    if end < item.len() { &item[..end] } else { item }
}

/// The child that an index record names.
pub(crate) fn child_part(item: &[u8]) -> u32
    ensures { 4 ≤ length (value_of item.now) → result ≡ child_of item.now }
{
    let at = key_part(item).len();
    if at + 4 <= item.len() {
        read_be32(item, at)
    } else {
        0
    }
}

/// How many of a node's first records have no key above this one, where its keys rise; none where a record that was looked at has no valid key.
/// It is found by halves.
pub(crate) fn place<K: KeyOrder>(node: &[u8], key: &[u8]) -> Option<u16>
    requires size { 512 ≤ length node.now }
    requires well_formed { IsNode node.now }
    requires key { K.is_key key.now }
    ensures place { IfSome result (λ at. IsPlace K.cmp key.now (items node.now) at) }
    ensures keys { IfSome result (λ at. 0 < at → K.is_key (key_of (slice_index_or (items node.now) (at - 1) []))) }
    ensures no_key { IfNone result (HasNoKey K.is_key (items node.now)) }
{
    let mut low: u16 = 0;
    let mut high = count(node);
    while low < high {
        let middle = low + (high - low) / 2;
        let own = key_part(record_at(node, middle as usize));
        if !K::valid(own) {
            return None;
        }
        if K::compare(own, key).is_gt() {
            high = middle;
        } else {
            low = middle + 1;
        }
    }
    Some(low)
}

/// A step from an index node towards a key.
#[derive(Clone, Copy)]
pub struct ChildStep {
    pub(crate) place: u16,
    pub(crate) index: u16,
    pub(crate) child: u32,
}

/// The record of an index node that leads to a key; none where there is no record, or one without a valid key.
pub(crate) fn step<K: KeyOrder>(node: &[u8], key: &[u8]) -> Option<ChildStep>
    requires size { 512 ≤ length node.now }
    requires well_formed { IsNode node.now }
    requires key { K.is_key key.now }
    ensures step { IfSome result (λ step. IsLead K.cmp key.now (items node.now) step) }
    ensures none { IfNone result (HasNoKey K.is_key (items node.now) ⊎ (items node.now ≡ [])) }
{
    let Some(place) = place::<K>(node, key) else {
        return None;
    };
    if count(node) == 0 {
        return None;
    }
    let index = place.saturating_sub(1);
    let child = child_part(record_at(node, index as usize));
    Some(ChildStep {
        place,
        index,
        child,
    })
}

/// The kind of the nodes at a height.
pub(crate) fn kind_at(height: u16) -> i8
    ensures { result ≡ kind_at height }
{
    if height == 1 { -1 } else { 0 }
}

/// Reads a node, and tells whether it is one of this height.
pub(crate) fn read_node<N: NodeStore>(
    store: &mut N,
    into: &mut Node,
    number: u32,
    height: u16,
) -> Result<bool, Failed>
    requires { length into.old ≡ (N.state store.old).shape.node_size }
    ensures inside { IfOk result (λ yes. IsTrue yes → number < (N.state store.old).shape.total) }
    ensures is_node { IfOk result (λ yes. IsTrue yes → IsNodeOf (kind_at height) height into.new) }
    ensures value { IsTrue (N.state store.old).tells → IfOk result (λ yes. IsTrue yes → into.new ≡ (N.state store.old).nodes number) }
    ensures sound { IsTrue (N.state store.old).tells → number < (N.state store.old).shape.total → IsNodeOf (kind_at height) height ((N.state store.old).nodes number) → height < 256 → IfOk result (λ yes. IsTrue yes) }
    ensures size { length into.new ≡ length into.old }
    ensures reads { ReadsNodes 1 (N.state store.old) (N.state store.new) }
    ensures cause { HasCause (N.state store.old).faults (N.state store.new).faults result }
    ensures below { N.follows store.old store.new }
{
    if height > 255 || number >= store.shape().total {
        return Ok(false);
    }
    store.load(number, into)?;
    Ok(into.check(kind_at(height), height as u8))
}

/// The record of a node of this height that leads to a key; none where these are no such node's bytes, or have no such record.
fn step_in<K: KeyOrder>(node: &[u8], height: u16, key: &[u8]) -> Option<ChildStep>
    requires size { 512 ≤ length node.now }
    requires low { height < 256 }
    requires key { K.is_key key.now }
    ensures step { IfSome result (λ step. IsLead K.cmp key.now (items node.now) step) }
    ensures none { IsNodeOf (kind_at height) height node.now → IfNone result (HasNoKey K.is_key (items node.now) ⊎ (items node.now ≡ [])) }
{
    if !is_node_of(node, kind_at(height), height as u8) {
        return None;
    }
    step::<K>(node, key)
}

/// The record of an index node of this height that leads to a key: of its bytes where the store holds them, or else of those that are read.
pub(crate) fn lead<N: NodeStore, K: KeyOrder>(
    store: &mut N,
    into: &mut Node,
    number: u32,
    height: u16,
    key: &[u8],
) -> Result<Option<ChildStep>, Failed>
    requires size { length into.old ≡ (N.state store.old).shape.node_size }
    requires key { K.is_key key.now }
    ensures step { IsTrue (N.state store.old).tells → IfOk result (λ found. IfSome found (λ step. IsLead K.cmp key.now (items ((N.state store.old).nodes number)) step)) }
    ensures none { IsTrue (N.state store.old).tells → number < (N.state store.old).shape.total → IsNodeOf (kind_at height) height ((N.state store.old).nodes number) → height < 256
        → IfOk result (λ found. IfNone found (HasNoKey K.is_key (items ((N.state store.old).nodes number)) ⊎ (items ((N.state store.old).nodes number) ≡ []))) }
    ensures size { length into.new ≡ length into.old }
    ensures reads { ReadsNodes 1 (N.state store.old) (N.state store.new) }
    ensures cause { HasCause (N.state store.old).faults (N.state store.new).faults result }
    ensures below { N.follows store.old store.new }
{
    if height > 255 || number >= store.shape().total {
        return Ok(None);
    }
    if let Some(bytes) = store.held(number) {
        return Ok(step_in::<K>(bytes, height, key));
    }
    if !read_node(store, into, number, height)? {
        return Ok(None);
    }
    Ok(step::<K>(into.bytes(), key))
}
