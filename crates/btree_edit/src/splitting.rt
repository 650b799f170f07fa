//! A node that can't hold its records is split: what is behind the middle moves into a fresh node.
ghost use Rattle.std.specs.Prelude.{◌≡◌, ◌≤◌, ◌<◌, ◌+◌, ◌*◌, ◌^◌, [], IsTrue, length, take, drop, insert, remove, slice_index_or};
ghost use Rattle.btree_node.specs.Node.{IsNode, IsNodeOf, SameHead, items, room_beside};
ghost use Rattle.btree_node.specs.Levels.{splice};
ghost use Rattle.btree_edit.specs.Halves.{record_of, put_of, with_put, IsMiddle, IsSplit, AreForTwo};
ghost use Rattle.btree_edit.specs.LevelEdit.{bit, taken, node_room, FitsTwo, HasSixth};

use crate::desk::Held;
use btree_node::Node;

/// Puts a record into a node that has room for it.
pub(crate) fn put(node: &mut Node, kind: i8, height: u8, at: u16, pair: &Held)
    ensures items { IsNodeOf kind height node.old → at ≤ length (items node.old) → length (record_of pair.now) + 2 ≤ room_beside (length node.old) (items node.old) → items node.new ≡ insert (items node.old) at (record_of pair.now) }
    ensures is_node { IsNodeOf kind height node.old → IsNodeOf kind height node.new }
    ensures head { SameHead node.old node.new }
{
    if !node.check(kind, height) || at > node.count() {
        return;
    }
    if pair.size() <= node.room() as usize {
        node.insert(at, pair.key(), pair.value());
    }
}

/// Takes a record out of a node, or none.
pub(crate) fn take_out(node: &mut Node, at: u16, removed: bool)
    requires well_formed { IsNode node.old }
    ensures items { at + bit removed ≤ length (items node.old) → items node.new ≡ splice (items node.old) at (at + bit removed) [] }
    ensures well_formed { IsNode node.new }
    ensures head { SameHead node.old node.new }
{
    if removed && at < node.count() {
        node.remove(at);
    }
}

/// What the records of a node take.
pub(crate) fn node_taken(node: &Node) -> usize
    requires well_formed { IsNode node.now }
    ensures taken { result ≡ taken (items node.now) }
    ensures fits { result + 16 ≤ length node.now }
{
    let size = node.bytes().len();
    size - 16 - node.room() as usize
}

/// What the records that are put take.
pub(crate) fn put_taken(first: &Held, second: &Held, count: u8) -> usize
    requires few { count ≤ 2 }
    requires first { first.now.room ≤ 32768 }
    requires second { second.now.room ≤ 32768 }
    ensures taken { result ≡ taken (put_of count first.now second.now) }
    ensures small { result ≤ 65540 }
{
    match count {
        0 => 0,
        1 => first.size(),
        _ => first.size() + second.size(),
    }
}

/// Puts the records into a node that has room for them.
pub(crate) fn put_all(node: &mut Node, first: &Held, second: &Held, at: u16, count: u8)
    requires well_formed { IsNode node.old }
    requires few { count ≤ 2 }
    requires place { at ≤ length (items node.old) }
    requires room { taken (put_of count first.now second.now) ≤ room_beside (length node.old) (items node.old) }
    ensures items { items node.new ≡ with_put (items node.old) at (put_of count first.now second.now) }
    ensures well_formed { IsNode node.new }
    ensures head { SameHead node.old node.new }
{
    if count > 1 {
        node.insert(at, second.key(), second.value());
    }
    if count > 0 {
        node.insert(at, first.key(), first.value());
    }
}

/// One of the records of a node with others put at a place.
fn joined<'a>(
    node: &'a Node,
    first: &'a Held,
    second: &'a Held,
    at: u16,
    count: u8,
    i: usize,
) -> &'a [u8]
    requires well_formed { IsNode node.now }
    requires few { count ≤ 2 }
    requires place { at ≤ length (items node.now) }
    requires inside { i < length (items node.now) + count }
    ensures { result.now ≡ slice_index_or (with_put (items node.now) at (put_of count first.now second.now)) i [] }
{
    let _records = node.count();
    let place = at as usize;
    if i < place {
        return node.item(i as u16);
    }
    if i >= place + count as usize {
        return node.item((i - count as usize) as u16);
    }
    if i == place {
        first.record()
    } else {
        second.record()
    }
}

/// A place in a list of records, and what those before it take.
#[derive(Clone, Copy)]
struct SplitPoint {
    at: usize,
    front: usize,
}

/// The place nearest to the middle of all that the records take.
fn middle(node: &Node, first: &Held, second: &Held, at: u16, count: u8, total: usize) -> SplitPoint
    requires well_formed { IsNode node.now }
    requires few { count ≤ 2 }
    requires place { at ≤ length (items node.now) }
    requires total { total ≡ taken (with_put (items node.now) at (put_of count first.now second.now)) }
    requires small { total < 2 ^ 20 }
    ensures middle { IsMiddle (with_put (items node.now) at (put_of count first.now second.now)) result.at }
    ensures front { result.front ≡ taken (take result.at (with_put (items node.now) at (put_of count first.now second.now))) }
{
    let many = node.count() as usize + count as usize;
    let mut front = 0;
    for i in 0..many {
        let size = joined(node, first, second, at, count, i).len() + 2;
        if 2 * front + size >= total {
            return SplitPoint { at: i, front };
        }
        front += size;
    }
    SplitPoint { at: many, front }
}

/// Puts the records from a place on into the other node, which is empty.
fn fill_back(
    other: &mut Node,
    node: &Node,
    first: &Held,
    second: &Held,
    at: u16,
    count: u8,
    from: usize,
)
    requires other { IsNode other.old }
    requires empty { items other.old ≡ [] }
    requires well_formed { IsNode node.now }
    requires few { count ≤ 2 }
    requires place { at ≤ length (items node.now) }
    requires from { from ≤ length (items node.now) + count }
    requires fits { 16 + taken (drop from (with_put (items node.now) at (put_of count first.now second.now))) ≤ length other.old }
    ensures items { items other.new ≡ drop from (with_put (items node.now) at (put_of count first.now second.now)) }
    ensures well_formed { IsNode other.new }
    ensures head { SameHead other.old other.new }
{
    let many = node.count() as usize + count as usize;
    for i in from..many {
        other.insert(
            other.count(),
            joined(node, first, second, at, count, i),
            &[],
        );
    }
}

/// Keeps a node's first records.
fn keep_first(node: &mut Node, many: usize)
    requires well_formed { IsNode node.old }
    requires within { many ≤ length (items node.old) }
    ensures items { items node.new ≡ take many (items node.old) }
    ensures well_formed { IsNode node.new }
    ensures head { SameHead node.old node.new }
{
    let all = node.count() as usize;
    for i in many..all {
        node.remove(node.count() - 1);
    }
}

/// Keeps those before a place in the node.
fn keep_front(node: &mut Node, first: &Held, second: &Held, at: u16, count: u8, to: usize)
    requires well_formed { IsNode node.old }
    requires few { count ≤ 2 }
    requires place { at ≤ length (items node.old) }
    requires to { to ≤ length (items node.old) + count }
    requires fits { 16 + taken (take to (with_put (items node.old) at (put_of count first.now second.now))) ≤ length node.old }
    ensures items { items node.new ≡ take to (with_put (items node.old) at (put_of count first.now second.now)) }
    ensures well_formed { IsNode node.new }
    ensures head { SameHead node.old node.new }
{
    let place = at as usize;
    if to <= place {
        keep_first(node, to);
        return;
    }
    let put = to - place;
    if put < count as usize {
        keep_first(node, place);
        put_all(node, first, second, at, put as u8);
        return;
    }
    keep_first(node, to - count as usize);
    put_all(node, first, second, at, count);
}

/// Splits a node into which some records belong at a place: the other takes what is behind the middle. Tells whether both halves fit; if not, the node is as before.
pub(crate) fn split(
    node: &mut Node,
    other: &mut Node,
    kind: i8,
    height: u8,
    at: u16,
    first: &Held,
    second: &Held,
    count: u8,
) -> bool
    requires node { IsNodeOf kind height node.old }
    requires other { length other.old ≡ length node.old }
    requires few { count ≤ 2 }
    requires place { at ≤ length (items node.old) }
    requires first { first.now.room ≤ 32768 }
    requires second { second.now.room ≤ 32768 }
    ensures split { IsTrue result → IsSplit kind height (with_put (items node.old) at (put_of count first.now second.now)) node.old node.new other.new }
    ensures sure { node_room (length node.old) < taken (with_put (items node.old) at (put_of count first.now second.now)) → FitsTwo (length node.old) (with_put (items node.old) at (put_of count first.now second.now)) → IsTrue result }
    ensures sixth { AreForTwo (length node.old) (with_put (items node.old) at (put_of count first.now second.now)) → HasSixth node.new × HasSixth other.new }
    ensures node { length node.new ≡ length node.old }
    ensures other { length other.new ≡ length other.old }
{
    other.clear(kind, height);
    let size = node.bytes().len();
    let total = node_taken(node) + put_taken(first, second, count);
    let cut = middle(node, first, second, at, count, total);
    let many = node.count() as usize + count as usize;
    if cut.at == 0 || cut.at >= many {
        return false;
    }
    if cut.front + 16 > size || total - cut.front + 16 > size {
        return false;
    }
    fill_back(other, node, first, second, at, count, cut.at);
    keep_front(node, first, second, at, count, cut.at);
    true
}
