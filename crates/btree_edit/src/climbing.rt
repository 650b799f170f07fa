//! An edit from the leaf of a key up to the root.
ghost use Rattle.std.specs.Prelude.{◌≡◌, ◌≢◌, ◌≤◌, ◌<◌, ◌+◌, ◌*◌, ◌-◌, ◌^◌, ◌⊎◌, ◌∷◌, [], IsTrue, length, OnOk, IfOk};
ghost use Rattle.btree_node.specs.Node.{IsNodeOf};
ghost use Rattle.btree_node.specs.Store.{HasRoom, HasCause};
ghost use Rattle.btree_node.specs.Tree.{kind_at};
ghost use Rattle.btree_edit.specs.Desk.{IsDeskOf, HoldsLeaf};
ghost use Rattle.btree_edit.specs.Ended.{EndsAt};
ghost use Rattle.btree_edit.specs.Reading.{ReadsNodes};
ghost use Rattle.btree_edit.specs.Editing.{CostsAtMost};
ghost use Rattle.btree_edit.specs.Halves.{record_of};
ghost use Rattle.btree_edit.specs.LevelEdit.{records_on};
ghost use Rattle.btree_edit.specs.Rising.{leaves_edited, BoundsRoot, RootHasTwoChildren, CanClimb, Climbs, Rises, MakesTree, IsBare, IsLeafRecord};

use crate::desk::Desk;
use crate::levels::{NodePlace, edit_level};
use crate::roots::{Propagated, finish_at_root, first_leaf, write_tree_header};
use crate::search::{kind_at, read_node};
use btree_node::{KeyOrder, Node, NodeStore, TreeShape};
use hx_bytes::Failed;

/// Brings the node at a height of the way to the desk, where the leaf is already, and tells whether it is one of this height.
fn bring_node<N: NodeStore>(
    store: &mut N,
    into: &mut Node,
    number: u32,
    height: u16,
) -> Result<bool, Failed>
    requires size { length into.old ≡ (N.state store.old).shape.node_size }
    requires leaf { height ≡ 1 → HoldsLeaf (N.state store.old) into.old number }
    requires is_leaf { height ≡ 1 → IsNodeOf (kind_at 1) 1 into.old }
    ensures inside { IfOk result (λ yes. IsTrue yes → number < (N.state store.old).shape.total) }
    ensures is_node { IfOk result (λ yes. IsTrue yes → IsNodeOf (kind_at height) height into.new) }
    ensures value { IsTrue (N.state store.old).tells → IfOk result (λ yes. IsTrue yes → into.new ≡ (N.state store.old).nodes number) }
    ensures sound { IsTrue (N.state store.old).tells → number < (N.state store.old).shape.total → IsNodeOf (kind_at height) height ((N.state store.old).nodes number) → height < 256 → IfOk result (λ yes. IsTrue yes) }
    ensures size { length into.new ≡ length into.old }
    ensures reads { ReadsNodes 1 (N.state store.old) (N.state store.new) }
    ensures cause { HasCause (N.state store.old).faults (N.state store.new).faults result }
    ensures below { N.follows store.old store.new }
{
    if height == 1 {
        return Ok(true);
    }
    read_node(store, into, number, height)
}

/// Changes the leaf on the desk, at the end of the way, and then each level above as far as it is told. It takes at most `spare` nodes.
fn propagate<N: NodeStore, K: KeyOrder>(
    store: &mut N,
    desk: &mut Desk,
    shape: &mut TreeShape,
    at: u16,
    removed: bool,
    count: u8,
    spare: u32,
) -> Result<Propagated, Failed>
    requires desk { IsDeskOf (N.state store.old).shape.node_size desk.old }
    requires there { EndsAt (N.state store.old) shape.old.depth desk.old.node desk.old.path }
    requires few { count ≤ 2 }
    requires depth { shape.old.depth ≤ 12 }
    requires room { HasRoom (4 * shape.old.depth) (N.state store.old) }
    requires free { spare ≤ (N.state store.old).shape.free }
    ensures climbs { IsTrue (N.state store.old).tells → shape.old ≡ (N.state store.old).shape → CanClimb K.is_key K.cmp K.MAX (N.state store.old) desk.old.path at removed (records_on count desk.old) spare
        → IfOk result (λ end. Climbs K.is_key K.cmp K.MAX (N.state store.old) (N.state store.new) (leaves_edited (N.state store.old) desk.old.path at removed (records_on count desk.old)) shape.new end.count end.left desk.new end.budget) }
    ensures desk { IsDeskOf (N.state store.old).shape.node_size desk.new }
    ensures depth { shape.new.depth ≡ shape.old.depth }
    ensures left { IfOk result (λ end. end.left ≤ spare) }
    ensures budget { IfOk result (λ end. end.budget ≤ 4 * shape.old.depth) }
    ensures written { IfOk result (λ end. (N.state store.old).unwritten + end.budget ≤ (N.state store.new).unwritten + 4 * shape.old.depth) }
    ensures taken { IfOk result (λ end. (N.state store.old).shape.free + end.left ≤ (N.state store.new).shape.free + spare) }
    ensures does { CostsAtMost (4 * shape.old.depth) spare (N.state store.old) (N.state store.new) }
    ensures cause { HasCause (N.state store.old).faults (N.state store.new).faults result }
    ensures below { N.follows store.old store.new }
{
    let depth = shape.depth;
    let mut next = count;
    let mut gone = removed;
    let mut budget = 4 * depth as u32;
    let mut left = spare;
    for done in 0..depth {
        let height = done + 1;
        let stop = desk.path[(depth - height) as usize];
        if !bring_node(store, &mut desk.node, stop.node, height)? {
            return Ok(Propagated {
                count: 1,
                budget,
                left,
            });
        }
        let spot = NodePlace {
            node: stop.node,
            height: height as u8,
            kind: kind_at(height),
        };
        let place = place_at(height, at, stop.at);
        let handed = edit_level(store, desk, shape, spot, place, gone, next, left)?;
        budget -= handed.cost;
        left = left.saturating_sub(1);
        if !handed.changed {
            return Ok(Propagated {
                count: 1,
                budget,
                left,
            });
        }
        next = handed.count;
        gone = true;
    }
    Ok(Propagated {
        count: next,
        budget,
        left,
    })
}

/// The place in a leaf, or that of the way.
fn place_at(height: u16, at: u16, way: u16) -> u16
    ensures leaf { height ≡ 1 → result ≡ at }
    ensures above { height ≢ 1 → result ≡ way }
{
    if height == 1 { at } else { way }
}

/// A climb, and what the root hands on.
fn propagate_and_finish<N: NodeStore, K: KeyOrder>(
    store: &mut N,
    desk: &mut Desk,
    shape: &mut TreeShape,
    at: u16,
    removed: bool,
    count: u8,
    spare: u32,
) -> Result<(), Failed>
    requires desk { IsDeskOf (N.state store.old).shape.node_size desk.old }
    requires there { EndsAt (N.state store.old) shape.old.depth desk.old.node desk.old.path }
    requires few { count ≤ 2 }
    requires depth { shape.old.depth ≤ 12 }
    requires room { HasRoom (4 * shape.old.depth + 5) (N.state store.old) }
    requires free { spare ≤ (N.state store.old).shape.free }
    ensures rises { IsTrue (N.state store.old).tells → shape.old ≡ (N.state store.old).shape → CanClimb K.is_key K.cmp K.MAX (N.state store.old) desk.old.path at removed (records_on count desk.old) spare
        → OnOk result (Rises K.is_key K.cmp K.MAX (N.state store.old) (N.state store.new) (leaves_edited (N.state store.old) desk.old.path at removed (records_on count desk.old)) shape.new) }
    ensures thick { IsTrue (N.state store.old).tells → shape.old ≡ (N.state store.old).shape → CanClimb K.is_key K.cmp K.MAX (N.state store.old) desk.old.path at removed (records_on count desk.old) spare
        → OnOk result (RootHasTwoChildren (N.state store.new) shape.new.depth shape.new.root) }
    ensures desk { IsDeskOf (N.state store.old).shape.node_size desk.new }
    ensures depth { shape.new.depth ≤ shape.old.depth + 1 }
    ensures kept { spare ≡ 0 → shape.new.depth ≤ shape.old.depth }
    ensures does { CostsAtMost (4 * shape.old.depth + 5) spare (N.state store.old) (N.state store.new) }
    ensures cause { HasCause (N.state store.old).faults (N.state store.new).faults result }
    ensures below { N.follows store.old store.new }
{
    let end = propagate::<N, K>(store, desk, shape, at, removed, count, spare)?;
    finish_at_root::<N, K>(store, desk, shape, end)
}

/// A whole edit along the way on the desk; the tree has so many pairs then.
pub(crate) fn rebuild<N: NodeStore, K: KeyOrder>(
    store: &mut N,
    desk: &mut Desk,
    shape: &mut TreeShape,
    at: u16,
    removed: bool,
    count: u8,
    spare: u32,
    records: u32,
) -> Result<(), Failed>
    requires desk { IsDeskOf (N.state store.old).shape.node_size desk.old }
    requires there { EndsAt (N.state store.old) shape.old.depth desk.old.node desk.old.path }
    requires few { count ≤ 2 }
    requires depth { shape.old.depth ≤ 12 }
    requires room { HasRoom (4 * shape.old.depth + 6) (N.state store.old) }
    requires free { spare ≤ (N.state store.old).shape.free }
    ensures tree { IsTrue (N.state store.old).tells → shape.old ≡ (N.state store.old).shape → CanClimb K.is_key K.cmp K.MAX (N.state store.old) desk.old.path at removed (records_on count desk.old) spare
        → records ≡ length (leaves_edited (N.state store.old) desk.old.path at removed (records_on count desk.old)) → (spare ≡ 0) ⊎ (shape.old.depth ≤ 11)
        → OnOk result (MakesTree K.is_key K.cmp (N.state store.old) (N.state store.new) (leaves_edited (N.state store.old) desk.old.path at removed (records_on count desk.old))) }
    ensures roots { IsTrue (N.state store.old).tells → shape.old ≡ (N.state store.old).shape → CanClimb K.is_key K.cmp K.MAX (N.state store.old) desk.old.path at removed (records_on count desk.old) spare
        → OnOk result (BoundsRoot K.MAX (N.state store.old) (N.state store.new) (N.state store.new).shape.depth (N.state store.new).shape.root) }
    ensures thick { IsTrue (N.state store.old).tells → shape.old ≡ (N.state store.old).shape → CanClimb K.is_key K.cmp K.MAX (N.state store.old) desk.old.path at removed (records_on count desk.old) spare
        → OnOk result (RootHasTwoChildren (N.state store.new) (N.state store.new).shape.depth (N.state store.new).shape.root) }
    ensures desk { IsDeskOf (N.state store.old).shape.node_size desk.new }
    ensures records { OnOk result ((N.state store.new).shape.leaf_records ≡ records) }
    ensures header { IsTrue (N.state store.old).tells → OnOk result ((N.state store.new).header ≡ (N.state store.new).shape) }
    ensures depth { OnOk result ((N.state store.new).shape.depth ≤ shape.old.depth + 1) }
    ensures kept { spare ≡ 0 → OnOk result ((N.state store.new).shape.depth ≤ shape.old.depth) }
    ensures does { CostsAtMost (4 * shape.old.depth + 6) spare (N.state store.old) (N.state store.new) }
    ensures cause { HasCause (N.state store.old).faults (N.state store.new).faults result }
    ensures below { N.follows store.old store.new }
{
    propagate_and_finish::<N, K>(store, desk, shape, at, removed, count, spare)?;
    shape.leaf_records = records;
    write_tree_header::<N, K>(store, shape);
    Ok(())
}

/// Makes the first leaf, and writes the tree's numbers.
pub(crate) fn begin<N: NodeStore, K: KeyOrder>(store: &mut N, desk: &mut Desk) -> Result<(), Failed>
    requires desk { IsDeskOf (N.state store.old).shape.node_size desk.old }
    requires room { HasRoom 3 (N.state store.old) }
    requires free { 0 < (N.state store.old).shape.free }
    ensures tree { IsTrue (N.state store.old).tells → (N.state store.old).shape.total ≤ 2 ^ 32 → IsBare K.is_key K.cmp (N.state store.old) → IsLeafRecord K.is_key (N.state store.old) (record_of desk.old.first)
        → OnOk result (MakesTree K.is_key K.cmp (N.state store.old) (N.state store.new) (record_of desk.old.first ∷ [])) }
    ensures desk { IsDeskOf (N.state store.old).shape.node_size desk.new }
    ensures records { OnOk result ((N.state store.new).shape.leaf_records ≡ 1) }
    ensures header { IsTrue (N.state store.old).tells → OnOk result ((N.state store.new).header ≡ (N.state store.new).shape) }
    ensures depth { OnOk result ((N.state store.new).shape.depth ≡ 1) }
    ensures does { CostsAtMost 3 1 (N.state store.old) (N.state store.new) }
    ensures cause { HasCause (N.state store.old).faults (N.state store.new).faults result }
    ensures below { N.follows store.old store.new }
{
    let mut shape = store.shape();
    first_leaf::<N, K>(store, desk, &mut shape)?;
    shape.leaf_records = 1;
    write_tree_header::<N, K>(store, &shape);
    Ok(())
}
