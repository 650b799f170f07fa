//! One level of an edit: a record of one node is replaced by others, and the level above is told.
ghost use Rattle.std.specs.Prelude.{◌≡◌, ◌≢◌, ◌≤◌, ◌<◌, ◌+◌, ◌-◌, ◌⊎◌, ◌++◌, [], ◌∷◌, ℕ, Bool, true, false, List, min, length, slice_index_or, OnOk, IfOk, IsTrue};
ghost use Rattle.hx_bytes.specs.Field.{big};
ghost use Rattle.btree_node.specs.Node.{IsNode, IsNodeOf, SameHead, items, room_beside, next_of};
ghost use Rattle.btree_node.specs.Levels.{key_of};
ghost use Rattle.btree_node.specs.Store.{HasRoom, HasCause};
ghost use Rattle.btree_node.specs.Tree.{IsTreeNode, kind_at};
ghost use Rattle.btree_edit.specs.Desk.{IsDeskOf};
ghost use Rattle.btree_edit.specs.Editing.{CostsAtMost};
ghost use Rattle.btree_edit.specs.Halves.{record_of};
ghost use Rattle.btree_edit.specs.LevelEdit.{taken, node_room, edited, records_on, CanEdit, MovesEnds, LevelEdit};
ghost use Rattle.btree_edit.specs.Writes.{SetsNext, SetsBack, WritesHalves, IsOpened};

use crate::desk::{Desk, Held};
use crate::search::{key_part, read_node};
use crate::splitting::{put_all, put_taken, split, take_out};
use btree_node::{Node, NodeStore, TreeShape};
use hx_bytes::{Failed, write_be32};

/// What a level hands on: how many records name its nodes now, whether that is news, and how many nodes it wrote.
#[derive(Clone, Copy)]
pub(crate) struct ForParent {
    pub(crate) count: u8,
    pub(crate) changed: bool,
    pub(crate) cost: u32,
}

/// What a level hands on that couldn't be changed.
const NOTHING: ForParent = ForParent {
    count: 1,
    changed: false,
    cost: 0,
};

/// A node's place in the tree.
#[derive(Clone, Copy)]
pub(crate) struct NodePlace {
    pub(crate) node: u32,
    pub(crate) height: u8,
    pub(crate) kind: i8,
}

/// The key of a node's first record.
fn first_key(node: &Node) -> &[u8]
    requires { IsNode node.now }
    ensures key { 0 < length (items node.now) → result.now ≡ key_of (slice_index_or (items node.now) 0 []) }
    ensures size { length result.now + 16 ≤ length node.now }
{
    let _size = node.bytes().len();
    if node.count() == 0 {
        return &[];
    }
    key_part(node.item(0))
}

/// The bytes of a node's number.
fn number_bytes(number: u32) -> [u8; 4]
    ensures { result ≡ big 4 number }
{
    let mut bytes = [0u8; 4];
    write_be32(&mut bytes, 0, number);
    bytes
}

/// Keeps the record that names a node in the level above: its first key and its number.
fn name_node(name: &mut Held, node: &Node, number: u32)
    requires well_formed { IsNode node.now }
    requires room { length node.now ≤ name.old.room }
    ensures room { name.new.room ≡ name.old.room }
    ensures name { 0 < length (items node.now) → record_of name.new ≡ key_of (slice_index_or (items node.now) 0 []) ++ big 4 number }
{
    name.put(first_key(node), &number_bytes(number));
}

/// Sets which node stands behind a node, where there is such a node.
fn set_next<N: NodeStore>(
    store: &mut N,
    desk: &mut Desk,
    height: u8,
    node: u32,
    to: u32,
) -> Result<(), Failed>
    requires desk { IsDeskOf (N.state store.old).shape.node_size desk.old }
    requires room { HasRoom 1 (N.state store.old) }
    ensures next { IsTrue (N.state store.old).tells → (node ≢ 0 → IsTreeNode (N.state store.old) height node) → (node ≢ 0 → (N.state store.old).reserved node ≡ false)
        → OnOk result (SetsNext node to (N.state store.old) (N.state store.new)) }
    ensures shape { (N.state store.new).shape ≡ (N.state store.old).shape }
    ensures desk { IsDeskOf (N.state store.old).shape.node_size desk.new }
    ensures node { desk.new.node ≡ desk.old.node }
    ensures first { desk.new.first ≡ desk.old.first }
    ensures second { desk.new.second ≡ desk.old.second }
    ensures path { desk.new.path ≡ desk.old.path }
    ensures does { CostsAtMost 1 0 (N.state store.old) (N.state store.new) }
    ensures cause { HasCause (N.state store.old).faults (N.state store.new).faults result }
    ensures below { N.follows store.old store.new }
{
    if node == 0 || !read_node(store, &mut desk.other, node, height as u16)? {
        return Ok(());
    }
    let (_next, back) = desk.other.links();
    desk.other.set_links(to, back);
    store.save(node, &desk.other);
    Ok(())
}

/// Sets which node stands before a node, where there is such a node.
fn set_back<N: NodeStore>(
    store: &mut N,
    desk: &mut Desk,
    height: u8,
    node: u32,
    to: u32,
) -> Result<(), Failed>
    requires desk { IsDeskOf (N.state store.old).shape.node_size desk.old }
    requires room { HasRoom 1 (N.state store.old) }
    ensures back { IsTrue (N.state store.old).tells → (node ≢ 0 → IsTreeNode (N.state store.old) height node) → (node ≢ 0 → (N.state store.old).reserved node ≡ false)
        → OnOk result (SetsBack node to (N.state store.old) (N.state store.new)) }
    ensures shape { (N.state store.new).shape ≡ (N.state store.old).shape }
    ensures desk { IsDeskOf (N.state store.old).shape.node_size desk.new }
    ensures node { desk.new.node ≡ desk.old.node }
    ensures first { desk.new.first ≡ desk.old.first }
    ensures second { desk.new.second ≡ desk.old.second }
    ensures path { desk.new.path ≡ desk.old.path }
    ensures does { CostsAtMost 1 0 (N.state store.old) (N.state store.new) }
    ensures cause { HasCause (N.state store.old).faults (N.state store.new).faults result }
    ensures below { N.follows store.old store.new }
{
    if node == 0 || !read_node(store, &mut desk.other, node, height as u16)? {
        return Ok(());
    }
    let (next, _back) = desk.other.links();
    desk.other.set_links(next, to);
    store.save(node, &desk.other);
    Ok(())
}

/// Writes the two halves on the desk with the links between them, and keeps the records that name them. Answers the node behind them.
fn write_halves<N: NodeStore>(store: &mut N, desk: &mut Desk, spot: NodePlace, fresh: u32) -> u32
    requires desk { IsDeskOf (N.state store.old).shape.node_size desk.old }
    requires node { IsNode desk.old.node }
    requires other { IsNode desk.old.other }
    requires inside { spot.node < (N.state store.old).shape.total }
    requires fresh { fresh < (N.state store.old).shape.total }
    requires room { HasRoom 2 (N.state store.old) }
    ensures halves { IsTrue (N.state store.old).tells → spot.node ≢ fresh → (N.state store.old).reserved spot.node ≡ false → (N.state store.old).reserved fresh ≡ false
        → WritesHalves spot.node fresh desk.old.node desk.old.other (N.state store.old) (N.state store.new) }
    ensures next { result ≡ next_of desk.old.node }
    ensures first { 0 < length (items desk.old.node) → record_of desk.new.first ≡ key_of (slice_index_or (items desk.old.node) 0 []) ++ big 4 spot.node }
    ensures second { 0 < length (items desk.old.other) → record_of desk.new.second ≡ key_of (slice_index_or (items desk.old.other) 0 []) ++ big 4 fresh }
    ensures shape { (N.state store.new).shape ≡ (N.state store.old).shape }
    ensures desk { IsDeskOf (N.state store.old).shape.node_size desk.new }
    ensures path { desk.new.path ≡ desk.old.path }
    ensures does { CostsAtMost 2 0 (N.state store.old) (N.state store.new) }
    ensures faults { (N.state store.new).faults ≡ (N.state store.old).faults }
    ensures below { N.follows store.old store.new }
{
    let (next, back) = desk.node.links();
    desk.node.set_links(fresh, back);
    desk.other.set_links(next, spot.node);
    store.save(spot.node, &desk.node);
    store.save(fresh, &desk.other);
    name_node(&mut desk.first, &desk.node, spot.node);
    name_node(&mut desk.second, &desk.other, fresh);
    next
}

/// A leaf that is split may have been the last one.
fn end_behind(shape: &mut TreeShape, spot: NodePlace, fresh: u32)
    ensures ends { (before behind : ℕ) → MovesEnds spot.height spot.node (spot.node ∷ fresh ∷ []) before behind shape.old shape.new }
    ensures depth { shape.new.depth ≡ shape.old.depth }
{
    if spot.height == 1 && shape.last == spot.node {
        shape.last = fresh;
    }
}

/// A leaf that goes may have been the first one or the last one.
fn end_beside(shape: &mut TreeShape, spot: NodePlace, next: u32, back: u32)
    ensures ends { MovesEnds spot.height spot.node [] back next shape.old shape.new }
{
    if spot.height != 1 {
        return;
    }
    if shape.first == spot.node {
        shape.first = next;
    }
    if shape.last == spot.node {
        shape.last = back;
    }
}

/// Splits the node on the desk. Where it can't be cut in two nodes that hold their records, nothing is written.
fn split_node<N: NodeStore>(
    store: &mut N,
    desk: &mut Desk,
    shape: &mut TreeShape,
    spot: NodePlace,
    at: u16,
    count: u8,
) -> Result<ForParent, Failed>
    requires desk { IsDeskOf (N.state store.old).shape.node_size desk.old }
    requires node { IsNodeOf spot.kind spot.height desk.old.node }
    requires few { count ≤ 2 }
    requires place { at ≤ length (items desk.old.node) }
    requires inside { spot.node < (N.state store.old).shape.total }
    requires room { HasRoom 4 (N.state store.old) }
    requires free { 0 < (N.state store.old).shape.free }
    ensures edit { IsTrue (N.state store.old).tells → spot.kind ≡ kind_at spot.height → (removed : Bool) (spare : ℕ)
        → IsOpened (N.state store.old) spot.height spot.node at removed (records_on count desk.old) spare desk.old.node
        → node_room (N.state store.old).shape.node_size < taken (edited (N.state store.old) spot.node at removed (records_on count desk.old))
        → IfOk result (λ handed. LevelEdit (N.state store.old) (N.state store.new) spot.height spot.node at removed (records_on count desk.old) handed.count handed.changed desk.new shape.old shape.new) }
    ensures few { IfOk result (λ handed. handed.count ≤ 2) }
    ensures desk { IsDeskOf (N.state store.old).shape.node_size desk.new }
    ensures path { desk.new.path ≡ desk.old.path }
    ensures depth { shape.new.depth ≡ shape.old.depth }
    ensures thrift { IfOk result (λ handed. (handed.count ≡ 2) ⊎ (handed.cost ≤ 3)) }
    ensures cost { IfOk result (λ handed. handed.cost ≤ 4) }
    ensures done { IfOk result (λ handed. CostsAtMost handed.cost 1 (N.state store.old) (N.state store.new)) }
    ensures does { CostsAtMost 4 1 (N.state store.old) (N.state store.new) }
    ensures cause { HasCause (N.state store.old).faults (N.state store.new).faults result }
    ensures below { N.follows store.old store.new }
{
    let _size = desk.node.bytes().len();
    if !split(
        &mut desk.node,
        &mut desk.other,
        spot.kind,
        spot.height,
        at,
        &desk.first,
        &desk.second,
        count,
    ) {
        return Ok(NOTHING);
    }
    let fresh = store.take_node()?;
    let next = write_halves(store, desk, spot, fresh);
    set_back(store, desk, spot.height, next, fresh)?;
    end_behind(shape, spot, fresh);
    Ok(ForParent {
        count: 2,
        changed: true,
        cost: 4,
    })
}

/// Gives back the node on the desk, which has lost its last record.
fn drop_node<N: NodeStore>(
    store: &mut N,
    desk: &mut Desk,
    shape: &mut TreeShape,
    spot: NodePlace,
) -> Result<ForParent, Failed>
    requires desk { IsDeskOf (N.state store.old).shape.node_size desk.old }
    requires inside { spot.node < (N.state store.old).shape.total }
    requires room { HasRoom 3 (N.state store.old) }
    ensures edit { IsTrue (N.state store.old).tells → (place spare : ℕ) (removed : Bool) (put : List (List ℕ))
        → CanEdit (N.state store.old) spot.height spot.node place removed put spare
        → edited (N.state store.old) spot.node place removed put ≡ []
        → SameHead ((N.state store.old).nodes spot.node) desk.old.node
        → IfOk result (λ handed. LevelEdit (N.state store.old) (N.state store.new) spot.height spot.node place removed put handed.count handed.changed desk.new shape.old shape.new) }
    ensures few { IfOk result (λ handed. handed.count ≤ 2) }
    ensures desk { IsDeskOf (N.state store.old).shape.node_size desk.new }
    ensures path { desk.new.path ≡ desk.old.path }
    ensures depth { shape.new.depth ≡ shape.old.depth }
    ensures cost { IfOk result (λ handed. handed.cost ≡ 3) }
    ensures does { CostsAtMost 3 0 (N.state store.old) (N.state store.new) }
    ensures cause { HasCause (N.state store.old).faults (N.state store.new).faults result }
    ensures below { N.follows store.old store.new }
{
    let (next, back) = desk.node.links();
    set_next(store, desk, spot.height, back, next)?;
    set_back(store, desk, spot.height, next, back)?;
    store.give_node(spot.node)?;
    end_beside(shape, spot, next, back);
    Ok(ForParent {
        count: 0,
        changed: true,
        cost: 3,
    })
}

/// Puts the records on the desk into the node on the desk, and writes it; a node without records is given back.
fn fill_node<N: NodeStore>(
    store: &mut N,
    desk: &mut Desk,
    shape: &mut TreeShape,
    spot: NodePlace,
    at: u16,
    count: u8,
) -> Result<ForParent, Failed>
    requires desk { IsDeskOf (N.state store.old).shape.node_size desk.old }
    requires node { IsNodeOf spot.kind spot.height desk.old.node }
    requires few { count ≤ 2 }
    requires place { at ≤ length (items desk.old.node) }
    requires fits { taken (records_on count desk.old) ≤ room_beside (length desk.old.node) (items desk.old.node) }
    requires inside { spot.node < (N.state store.old).shape.total }
    requires room { HasRoom 4 (N.state store.old) }
    ensures edit { IsTrue (N.state store.old).tells → (removed : Bool) (spare : ℕ)
        → IsOpened (N.state store.old) spot.height spot.node at removed (records_on count desk.old) spare desk.old.node
        → IfOk result (λ handed. LevelEdit (N.state store.old) (N.state store.new) spot.height spot.node at removed (records_on count desk.old) handed.count handed.changed desk.new shape.old shape.new) }
    ensures few { IfOk result (λ handed. handed.count ≤ 2) }
    ensures desk { IsDeskOf (N.state store.old).shape.node_size desk.new }
    ensures path { desk.new.path ≡ desk.old.path }
    ensures depth { shape.new.depth ≡ shape.old.depth }
    ensures cost { IfOk result (λ handed. handed.cost ≤ 3) }
    ensures done { IfOk result (λ handed. CostsAtMost handed.cost 0 (N.state store.old) (N.state store.new)) }
    ensures does { CostsAtMost 4 0 (N.state store.old) (N.state store.new) }
    ensures cause { HasCause (N.state store.old).faults (N.state store.new).faults result }
    ensures below { N.follows store.old store.new }
{
    put_all(&mut desk.node, &desk.first, &desk.second, at, count);
    if desk.node.count() == 0 {
        return drop_node(store, desk, shape, spot);
    }
    store.save(spot.node, &desk.node);
    name_node(&mut desk.first, &desk.node, spot.node);
    Ok(ForParent {
        count: 1,
        changed: at == 0,
        cost: 1,
    })
}

/// Replaces a record of the node on the desk, or none, by the records on the desk. It takes a node only where `spare` is over 0.
pub(crate) fn edit_level<N: NodeStore>(
    store: &mut N,
    desk: &mut Desk,
    shape: &mut TreeShape,
    spot: NodePlace,
    at: u16,
    removed: bool,
    count: u8,
    spare: u32,
) -> Result<ForParent, Failed>
    requires desk { IsDeskOf (N.state store.old).shape.node_size desk.old }
    requires node { IsNodeOf spot.kind spot.height desk.old.node }
    requires few { count ≤ 2 }
    requires inside { spot.node < (N.state store.old).shape.total }
    requires room { HasRoom 4 (N.state store.old) }
    requires free { spare ≤ (N.state store.old).shape.free }
    ensures edit { IsTrue (N.state store.old).tells → desk.old.node ≡ (N.state store.old).nodes spot.node → spot.kind ≡ kind_at spot.height
        → CanEdit (N.state store.old) spot.height spot.node at removed (records_on count desk.old) spare
        → IfOk result (λ handed. LevelEdit (N.state store.old) (N.state store.new) spot.height spot.node at removed (records_on count desk.old) handed.count handed.changed desk.new shape.old shape.new) }
    ensures few { IfOk result (λ handed. handed.count ≤ 2) }
    ensures desk { IsDeskOf (N.state store.old).shape.node_size desk.new }
    ensures path { desk.new.path ≡ desk.old.path }
    ensures depth { shape.new.depth ≡ shape.old.depth }
    ensures cost { IfOk result (λ handed. handed.cost ≤ 4) }
    // Only a node that was split takes four writes.
    ensures thrift { IfOk result (λ handed. (handed.count ≡ 2) ⊎ (handed.cost ≤ 3)) }
    ensures done { IfOk result (λ handed. CostsAtMost handed.cost (min 1 spare) (N.state store.old) (N.state store.new)) }
    ensures does { CostsAtMost 4 (min 1 spare) (N.state store.old) (N.state store.new) }
    ensures cause { HasCause (N.state store.old).faults (N.state store.new).faults result }
    ensures below { N.follows store.old store.new }
{
    let _size = desk.node.bytes().len();
    take_out(&mut desk.node, at, removed);
    if at > desk.node.count() {
        return Ok(NOTHING);
    }
    if put_taken(&desk.first, &desk.second, count) <= desk.node.room() as usize {
        return fill_node(store, desk, shape, spot, at, count);
    }
    if spare == 0 {
        return Ok(NOTHING);
    }
    split_node(store, desk, shape, spot, at, count)
}
