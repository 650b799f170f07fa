//! A walk over the pairs, leaf by leaf: each leaf is read once.
ghost use Rattle.std.specs.Prelude.{◌≡◌, ◌≤◌, ◌<◌, ◌+◌, ◌-◌, ◌^◌, ℕ, IsTrue, IsSome, length, IfOk, OnOk};
ghost use Rattle.btree_node.specs.Node.{IsNode, items};
ghost use Rattle.btree_node.specs.Store.{HasCause};
ghost use Rattle.btree_node.specs.Tree.{IsTree, pairs_of};
ghost use Rattle.btree_edit.specs.Desk.{IsDeskOf};
ghost use Rattle.btree_edit.specs.Reading.{ReadsNodes};
ghost use Rattle.btree_edit.specs.Walking.{Seeks, StandsAt, StepsOn, Turns, leaves_until};

use crate::desk::Desk;
use crate::following::{keep_record, locate};
use crate::search::read_node;
use btree_node::{KeyOrder, NodeStore};
use hx_bytes::Failed;

/// Goes to the leaf of a key, and answers how many of its records have no greater key; none where the tree has no pair.
pub fn seek<N: NodeStore, K: KeyOrder>(
    store: &mut N,
    desk: &mut Desk,
    key: &[u8],
) -> Result<Option<u16>, Failed>
    requires desk { IsDeskOf (N.state store.old).shape.node_size desk.old }
    requires key { K.is_key key.now }
    requires tree { IsTrue (N.state store.old).tells → IsTree K.is_key K.cmp (N.state store.old) }
    // The walk stands before the least pair above the key.
    ensures seeks { IsTrue (N.state store.old).tells → IfOk result (λ at. Seeks K.cmp key.now (N.state store.new) desk.new at) }
    ensures well_formed { IfOk result (λ at. IsSome at → IsNode desk.new.node) }
    // It loads one node a level, and changes nothing.
    ensures reads { ReadsNodes (N.state store.old).shape.depth (N.state store.old) (N.state store.new) }
    ensures pairs { IsTrue (N.state store.old).tells → pairs_of (N.state store.new) ≡ pairs_of (N.state store.old) }
    ensures tree { IsTrue (N.state store.old).tells → IsTree K.is_key K.cmp (N.state store.new) }
    ensures desk { IsDeskOf (N.state store.old).shape.node_size desk.new }
    // It fails only where the store did.
    ensures cause { HasCause (N.state store.old).faults (N.state store.new).faults result }
    ensures below { N.follows store.old store.new }
{
    locate::<N, K>(store, desk, key)
}

/// Goes to the leaf behind the one on the desk, where there is one.
fn turn<N: NodeStore>(store: &mut N, desk: &mut Desk) -> Result<bool, Failed>
    requires desk { IsDeskOf (N.state store.old).shape.node_size desk.old }
    ensures turns { IsTrue (N.state store.old).tells → IfOk result (λ turned. Turns (N.state store.old) desk.old desk.new turned) }
    ensures well_formed { IfOk result (λ turned. IsTrue turned → IsNode desk.new.node) }
    ensures reads { ReadsNodes 1 (N.state store.old) (N.state store.new) }
    ensures desk { IsDeskOf (N.state store.old).shape.node_size desk.new }
    ensures cause { HasCause (N.state store.old).faults (N.state store.new).faults result }
    ensures below { N.follows store.old store.new }
{
    let (behind, _) = desk.node.links();
    if behind == 0 {
        return Ok(false);
    }
    let turned = read_node(store, &mut desk.node, behind, 1)?;
    Ok(turned)
}

/// Keeps the pair behind so many records of the leaf on the desk, which may be the first of the leaf behind it, and answers how many of
/// its leaf's records are passed with it; none where all pairs are.
pub fn step<N: NodeStore, K: KeyOrder>(
    store: &mut N,
    desk: &mut Desk,
    at: u16,
) -> Result<Option<u16>, Failed>
    requires desk { IsDeskOf (N.state store.old).shape.node_size desk.old }
    requires well_formed { IsNode desk.old.node }
    requires tree { IsTrue (N.state store.old).tells → IsTree K.is_key K.cmp (N.state store.old) }
    // The pair at the walk's place is on the desk, and the walk goes one place on; it ends behind the last pair.
    ensures steps { IsTrue (N.state store.old).tells → (place : ℕ) → StandsAt (N.state store.old) desk.old at place → IfOk result (λ on. StepsOn (N.state store.new) desk.new place on) }
    ensures well_formed { IfOk result (λ on. IsSome on → IsNode desk.new.node) }
    // It loads at most one node, and changes nothing.
    ensures reads { ReadsNodes 1 (N.state store.old) (N.state store.new) }
    // It loads a node only where the pair stands in another leaf than the one before it.
    ensures loads { IsTrue (N.state store.old).tells → (place : ℕ) → StandsAt (N.state store.old) desk.old at place
        → IfOk result (λ on. IsSome on → (N.state store.new).loads + leaves_until (N.state store.old) place ≤ (N.state store.old).loads + leaves_until (N.state store.old) (place + 1)) }
    ensures pairs { IsTrue (N.state store.old).tells → pairs_of (N.state store.new) ≡ pairs_of (N.state store.old) }
    ensures tree { IsTrue (N.state store.old).tells → IsTree K.is_key K.cmp (N.state store.new) }
    ensures desk { IsDeskOf (N.state store.old).shape.node_size desk.new }
    // It fails only where the store did.
    ensures cause { HasCause (N.state store.old).faults (N.state store.new).faults result }
    ensures below { N.follows store.old store.new }
{
    if keep_record(desk, at) {
        return Ok(Some(at + 1));
    }
    if !turn(store, desk)? {
        return Ok(None);
    }
    if keep_record(desk, 0) {
        Ok(Some(1))
    } else {
        Ok(None)
    }
}
