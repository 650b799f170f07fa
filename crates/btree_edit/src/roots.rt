//! The root of a tree: the first leaf, a root above two nodes, and roots that are given back.
ghost use Rattle.std.specs.Prelude.{◌≡◌, ◌≤◌, ◌<◌, ◌+◌, ◌*◌, ◌^◌, ◌++◌, ◌∷◌, [], ℕ, List, IsTrue, length, OnOk};
ghost use Rattle.btree_node.specs.Node.{IsNodeOf, items, next_of, back_of};
ghost use Rattle.btree_node.specs.Store.{Store, HasRoom, HasCause};
ghost use Rattle.btree_node.specs.Tree.{kind_at};
ghost use Rattle.btree_edit.specs.Desk.{IsDeskOf};
ghost use Rattle.btree_edit.specs.Editing.{CostsAtMost};
ghost use Rattle.btree_edit.specs.Halves.{record_of, put_of};
ghost use Rattle.btree_edit.specs.LevelEdit.{taken, node_room};
ghost use Rattle.btree_edit.specs.Rising.{BoundsRoot, RootHasTwoChildren, Climbs, Rises, IsLowering, MakesTree, IsBare, IsLeafRecord};

use crate::desk::{Desk, Held};
use crate::search::{child_part, kind_at, read_node};
use crate::splitting::{put_all, put_taken};
use btree_node::{KeyOrder, Node, NodeStore, TreeShape};
use hx_bytes::Failed;

/// Makes a node without links of the records that fit.
fn make_node(node: &mut Node, height: u16, first: &Held, second: &Held, count: u8)
    requires few { count ≤ 2 }
    requires low { height < 256 }
    requires first { first.now.room ≤ 32768 }
    requires second { second.now.room ≤ 32768 }
    ensures is_node { IsNodeOf (kind_at height) height node.new }
    ensures next { next_of node.new ≡ 0 }
    ensures back { back_of node.new ≡ 0 }
    ensures size { length node.new ≡ length node.old }
    ensures items { taken (put_of count first.now second.now) ≤ node_room (length node.old) → items node.new ≡ put_of count first.now second.now }
{
    node.clear(kind_at(height), height as u8);
    if put_taken(first, second, count) <= node.room() as usize {
        put_all(node, first, second, 0, count);
    }
}

/// Makes the first leaf of an empty tree, with the record on the desk.
pub(crate) fn first_leaf<N: NodeStore, K: KeyOrder>(
    store: &mut N,
    desk: &mut Desk,
    shape: &mut TreeShape,
) -> Result<(), Failed>
    requires desk { IsDeskOf (N.state store.old).shape.node_size desk.old }
    requires room { HasRoom 2 (N.state store.old) }
    requires free { 0 < (N.state store.old).shape.free }
    ensures plants { IsTrue (N.state store.old).tells → IsBare K.is_key K.cmp (N.state store.old) → IsLeafRecord K.is_key (N.state store.old) (record_of desk.old.first)
        → OnOk result (Rises K.is_key K.cmp K.MAX (N.state store.old) (N.state store.new) (record_of desk.old.first ∷ []) shape.new) }
    ensures desk { IsDeskOf (N.state store.old).shape.node_size desk.new }
    ensures depth { OnOk result (shape.new.depth ≡ 1) }
    ensures does { CostsAtMost 2 1 (N.state store.old) (N.state store.new) }
    ensures cause { HasCause (N.state store.old).faults (N.state store.new).faults result }
    ensures below { N.follows store.old store.new }
{
    let _size = desk.node.bytes().len();
    let fresh = store.take_node()?;
    make_node(&mut desk.node, 1, &desk.first, &desk.second, 1);
    store.save(fresh, &desk.node);
    shape.depth = 1;
    shape.root = fresh;
    shape.first = fresh;
    shape.last = fresh;
    Ok(())
}

/// Makes a root above the two nodes that the records on the desk name.
fn add_root<N: NodeStore, K: KeyOrder>(
    store: &mut N,
    desk: &mut Desk,
    shape: &mut TreeShape,
) -> Result<(), Failed>
    requires desk { IsDeskOf (N.state store.old).shape.node_size desk.old }
    requires depth { shape.old.depth ≤ 12 }
    requires room { HasRoom 2 (N.state store.old) }
    requires free { 0 < (N.state store.old).shape.free }
    ensures raises { IsTrue (N.state store.old).tells → (start : Store) (records : List (List ℕ)) (left budget : ℕ) → Climbs K.is_key K.cmp K.MAX start (N.state store.old) records shape.old 2 left desk.old budget → 0 < start.shape.depth
        → 3 * (K.MAX + 8) ≤ node_room (N.state store.old).shape.node_size → OnOk result (Rises K.is_key K.cmp K.MAX start (N.state store.new) records shape.new) }
    ensures desk { IsDeskOf (N.state store.old).shape.node_size desk.new }
    ensures higher { OnOk result (shape.new.depth ≡ shape.old.depth + 1) }
    ensures depth { shape.new.depth ≤ shape.old.depth + 1 }
    ensures does { CostsAtMost 2 1 (N.state store.old) (N.state store.new) }
    ensures cause { HasCause (N.state store.old).faults (N.state store.new).faults result }
    ensures below { N.follows store.old store.new }
{
    let _size = desk.node.bytes().len();
    let fresh = store.take_node()?;
    make_node(
        &mut desk.node,
        shape.depth + 1,
        &desk.first,
        &desk.second,
        2,
    );
    store.save(fresh, &desk.node);
    shape.depth += 1;
    shape.root = fresh;
    Ok(())
}

/// Gives back roots that have one record, at most so many.
fn drop_single_child_roots<N: NodeStore, K: KeyOrder>(
    store: &mut N,
    desk: &mut Desk,
    shape: &mut TreeShape,
    most: u32,
) -> Result<(), Failed>
    requires desk { IsDeskOf (N.state store.old).shape.node_size desk.old }
    requires room { HasRoom most (N.state store.old) }
    ensures lowers { IsTrue (N.state store.old).tells → (start : Store) (records : List (List ℕ)) → (N.state store.old).shape.total ≤ 2 ^ 32 → shape.old.depth ≤ 12
        → IsLowering K.is_key K.cmp K.MAX start (N.state store.old) records shape.old most → OnOk result (Rises K.is_key K.cmp K.MAX start (N.state store.new) records shape.new) }
    ensures thick { IsTrue (N.state store.old).tells → (start : Store) (records : List (List ℕ)) → (N.state store.old).shape.total ≤ 2 ^ 32 → shape.old.depth ≤ 12
        → IsLowering K.is_key K.cmp K.MAX start (N.state store.old) records shape.old most → OnOk result (RootHasTwoChildren (N.state store.new) shape.new.depth shape.new.root) }
    ensures desk { IsDeskOf (N.state store.old).shape.node_size desk.new }
    ensures depth { shape.new.depth ≤ shape.old.depth }
    ensures does { CostsAtMost most 0 (N.state store.old) (N.state store.new) }
    ensures cause { HasCause (N.state store.old).faults (N.state store.new).faults result }
    ensures below { N.follows store.old store.new }
{
    for _done in 0..most {
        if shape.depth < 2 {
            return Ok(());
        }
        if !read_node(store, &mut desk.node, shape.root, shape.depth)? {
            return Ok(());
        }
        if desk.node.count() != 1 {
            return Ok(());
        }
        let child = child_part(desk.node.item(0));
        store.give_node(shape.root)?;
        shape.root = child;
        shape.depth -= 1;
    }
    Ok(())
}

/// How a climb ended: how many records name the nodes of the highest level that was changed, how many writes and how many nodes are left.
#[derive(Clone, Copy)]
pub(crate) struct Propagated {
    pub(crate) count: u8,
    pub(crate) budget: u32,
    pub(crate) left: u32,
}

/// Makes an empty tree of one whose leaves are gone.
fn clear_shape(shape: &mut TreeShape)
    ensures depth { shape.new.depth ≡ 0 }
    ensures root { shape.new.root ≡ 0 }
    ensures first { shape.new.first ≡ 0 }
    ensures last { shape.new.last ≡ 0 }
{
    shape.depth = 0;
    shape.root = 0;
    shape.first = 0;
    shape.last = 0;
}

/// What the root hands on: a new root above two nodes, no root, or roots with one record given back.
pub(crate) fn finish_at_root<N: NodeStore, K: KeyOrder>(
    store: &mut N,
    desk: &mut Desk,
    shape: &mut TreeShape,
    end: Propagated,
) -> Result<(), Failed>
    requires desk { IsDeskOf (N.state store.old).shape.node_size desk.old }
    requires depth { shape.old.depth ≤ 12 }
    requires budget { end.budget ≤ 48 }
    requires room { HasRoom (end.budget + 5) (N.state store.old) }
    requires free { end.left ≤ (N.state store.old).shape.free }
    ensures crowns { IsTrue (N.state store.old).tells → (start : Store) (records : List (List ℕ)) → (N.state store.old).shape.total ≤ 2 ^ 32 → 0 < start.shape.depth
        → 3 * (K.MAX + 8) ≤ node_room (N.state store.old).shape.node_size
        → Climbs K.is_key K.cmp K.MAX start (N.state store.old) records shape.old end.count end.left desk.old end.budget → OnOk result (Rises K.is_key K.cmp K.MAX start (N.state store.new) records shape.new) }
    ensures thick { IsTrue (N.state store.old).tells → (start : Store) (records : List (List ℕ)) → (N.state store.old).shape.total ≤ 2 ^ 32 → 0 < start.shape.depth
        → 3 * (K.MAX + 8) ≤ node_room (N.state store.old).shape.node_size
        → Climbs K.is_key K.cmp K.MAX start (N.state store.old) records shape.old end.count end.left desk.old end.budget → OnOk result (RootHasTwoChildren (N.state store.new) shape.new.depth shape.new.root) }
    ensures desk { IsDeskOf (N.state store.old).shape.node_size desk.new }
    ensures depth { shape.new.depth ≤ shape.old.depth + 1 }
    ensures kept { end.left ≡ 0 → shape.new.depth ≤ shape.old.depth }
    ensures does { CostsAtMost (end.budget + 5) end.left (N.state store.old) (N.state store.new) }
    ensures cause { HasCause (N.state store.old).faults (N.state store.new).faults result }
    ensures below { N.follows store.old store.new }
{
    if end.count == 0 {
        clear_shape(shape);
        return Ok(());
    }
    if end.count == 2 {
        if end.left == 0 {
            return Ok(());
        }
        return add_root::<N, K>(store, desk, shape);
    }
    drop_single_child_roots::<N, K>(store, desk, shape, end.budget + 5)
}

/// Writes the tree's numbers.
pub(crate) fn write_tree_header<N: NodeStore, K: KeyOrder>(store: &mut N, shape: &TreeShape)
    requires { HasRoom 1 (N.state store.old) }
    ensures settles { IsTrue (N.state store.old).tells → (start : Store) (records : List (List ℕ)) → (N.state store.old).shape.total ≤ 2 ^ 32 → shape.now.depth ≤ 12
        → shape.now.leaf_records ≡ length records → Rises K.is_key K.cmp K.MAX start (N.state store.old) records shape.now → MakesTree K.is_key K.cmp start (N.state store.new) records }
    ensures roots { IsTrue (N.state store.old).tells → (start : Store) (records : List (List ℕ)) → Rises K.is_key K.cmp K.MAX start (N.state store.old) records shape.now
        → BoundsRoot K.MAX start (N.state store.new) (N.state store.new).shape.depth (N.state store.new).shape.root }
    ensures thick { IsTrue (N.state store.old).tells → (start : Store) (records : List (List ℕ)) → Rises K.is_key K.cmp K.MAX start (N.state store.old) records shape.now
        → RootHasTwoChildren (N.state store.old) shape.now.depth shape.now.root → RootHasTwoChildren (N.state store.new) (N.state store.new).shape.depth (N.state store.new).shape.root }
    ensures records { (N.state store.new).shape.leaf_records ≡ shape.now.leaf_records }
    ensures header { IsTrue (N.state store.old).tells → (N.state store.new).header ≡ (N.state store.new).shape }
    ensures depth { (N.state store.new).shape.depth ≡ shape.now.depth }
    ensures does { CostsAtMost 1 0 (N.state store.old) (N.state store.new) }
    ensures faults { (N.state store.new).faults ≡ (N.state store.old).faults }
    ensures below { N.follows store.old store.new }
{
    let now = store.shape();
    store.reshape(&TreeShape {
        node_size: now.node_size,
        depth: shape.depth,
        root: shape.root,
        first: shape.first,
        last: shape.last,
        leaf_records: shape.leaf_records,
        total: now.total,
        free: now.free,
    });
}
