//! One node of a level, looked at where it stands.
ghost use Rattle.std.specs.Prelude.{◌≡◌, ◌<◌, ◌↔◌, [], All, IsTrue, length, slice_index_or, IfOk, IfNone, IfSome};
ghost use Rattle.btree_node.specs.Node.{IsNode, IsNodeOf, items, next_of, back_of};
ghost use Rattle.btree_node.specs.Levels.{key_of, Ascends};
ghost use Rattle.btree_node.specs.Tree.{kind_at};
ghost use Rattle.fsck_scan.specs.Level.{first_key_in, IsRight, IsWrong};

use crate::records::{Flaw, key_part, take_records};
use btree_node::{KeyOrder, Node};
use fsck_list::Records;
use hx_bytes::OutOfMemory;

/// Where a node of a level stands: its height, the nodes beside it, and how long its records may be.
#[derive(Clone, Copy)]
pub(crate) struct Place {
    pub(crate) most: usize,
    pub(crate) height: u8,
    pub(crate) next: u32,
    pub(crate) back: u32,
}

/// What is wrong with a node of a level.
#[derive(Clone, Copy, Debug, PartialEq, Eq)]
pub enum Fault {
    /// It isn't a node of its height, or has a record that isn't one.
    Node,
    /// It doesn't name its neighbours, or its keys don't rise.
    Order,
    /// The level above names it by another key than its first.
    Name,
}

/// Whether a node is one of the kind that a height has.
fn is_of_height(node: &Node, height: u8) -> bool
    ensures { IsTrue result ↔ IsNodeOf (kind_at height) height node.now }
{
    if height == 1 {
        node.check(-1, height)
    } else {
        node.check(0, height)
    }
}

/// The first record of a node, or no bytes where it has none.
fn first_item(node: &Node) -> &[u8]
    requires { IsNode node.now }
    ensures { result.now ≡ slice_index_or (items node.now) 0 [] }
{
    if node.count() == 0 {
        return &node.bytes()[..0];
    }
    node.item(0)
}

/// Whether a node has the first key that a record of the level above says, where there is such a record.
fn has_name(node: &Node, names: &Records, k: usize) -> bool
    requires { IsNode node.now }
    ensures { IsTrue result ↔ (k < length names.now → first_key_in node.now ≡ key_of (slice_index_or names.now k [])) }
{
    if k >= names.len() {
        return true;
    }
    key_part(first_item(node)) == key_part(names.get(k))
}

fn has_links(node: &Node, place: &Place) -> bool
    ensures { IsTrue result ↔ ((next_of node.now ≡ place.now.next) × (back_of node.now ≡ place.now.back)) }
{
    let (next, back) = node.links();
    next == place.next && back == place.back
}

/// Looks at a node of a level, and adds its records to those before it. The first fault ends it.
pub(crate) fn look_at<K: KeyOrder>(
    node: &Node,
    place: &Place,
    names: &Records,
    k: usize,
    records: &mut Records,
) -> Result<Option<Fault>, OutOfMemory>
    requires keys { All (λ item. K.is_key (key_of item)) records.old }
    requires rising { Ascends K.cmp records.old }
    ensures right { IfOk result (λ fault. IfNone fault (IsRight K.is_key K.is_value K.cmp place.now names.now k node.now records.old records.new)) }
    ensures wrong { IfOk result (λ fault. IfSome fault (IsWrong K.is_key K.is_value K.cmp place.now names.now k node.now records.old)) }
{
    if !is_of_height(node, place.height) {
        return Ok(Some(Fault::Node));
    }
    if !has_links(node, place) {
        return Ok(Some(Fault::Order));
    }
    if !has_name(node, names, k) {
        return Ok(Some(Fault::Name));
    }
    match take_records::<K>(place.most, place.height, node, records)? {
        None => Ok(None),
        Some(Flaw::Record) => Ok(Some(Fault::Node)),
        Some(Flaw::Order) => Ok(Some(Fault::Order)),
    }
}
