//! A pair added to the tree in a fork.
ghost use Rattle.std.specs.Prelude.{◌≡◌, ◌≤◌, ◌<◌, ◌+◌, ◌-◌, ◌*◌, ◌/◌, ◌^◌, ℕ, List, [], IsTrue, length, OnOk, IfOk};
ghost use Rattle.btree_node.specs.Store.{HasRoom, HasCause};
ghost use Rattle.btree_node.specs.TreeFile.{TreeForm, store_of};
ghost use Rattle.btree_edit.specs.Answers.{AnswersInsert};
ghost use Rattle.btree_edit.specs.Desk.{IsDeskOf};
ghost use Rattle.btree_edit.specs.Editing.{edit_writes};
ghost use Rattle.btree_edit.specs.LevelEdit.{node_room};
ghost use Rattle.btree_edit.specs.Sorted.{InsertsPair};
ghost use Rattle.btree_file.specs.Frame.{FollowsOn};
ghost use Rattle.btree_file.specs.Standing.{HoldsTree, LiesInside, LiesOpen, numbers_of, pairs_in};
ghost use Rattle.btree_file.specs.State.{sectors_of_tree, per_node, state_of};

use btree_edit::{Desk, Inserted, insert};
use btree_file::{TreeFile, TreeOn};
use btree_node::KeyOrder;
use hx_bytes::Failed;
use sector_disk::SectorSpace;

/// Adds a pair to the tree in a fork of a content.
pub fn insert_pair<P: SectorSpace, K: KeyOrder>(
    tree: &mut TreeFile,
    space: &mut P,
    desk: &mut Desk,
    key: &[u8],
    value: &[u8],
) -> Result<Inserted, Failed>
    requires desk { IsDeskOf (numbers_of tree.old).node_size desk.old }
    requires inside { LiesInside tree.old (P.SectorView.space space.old) }
    requires open { LiesOpen tree.old (P.SectorView.space space.old) }
    requires holds { IsTrue (P.SectorView.space space.old).tells → (form : TreeForm) × HoldsTree form K.is_key K.is_value K.cmp tree.old (P.SectorView.space space.old).content }
    requires key { K.is_key key.now }
    requires value { IsTrue (P.SectorView.space space.old).tells → K.is_value value.now }
    requires wide { IsTrue (P.SectorView.space space.old).tells → 3 * (K.MAX + 8) ≤ node_room (numbers_of tree.old).node_size }
    requires short { length key.now + length value.now ≤ (numbers_of tree.old).node_size / 2 - 10 }
    requires records { IsTrue (P.SectorView.space space.old).tells → (numbers_of tree.old).leaf_records < 2 ^ 32 - 1 }
    requires depth { IsTrue (P.SectorView.space space.old).tells → (numbers_of tree.old).depth ≤ 11 }
    requires free { IsTrue (P.SectorView.space space.old).tells → (numbers_of tree.old).depth + 1 ≤ (numbers_of tree.old).free }
    requires room { IsTrue (P.SectorView.space space.old).tells → (names : List ℕ) → HasRoom (edit_writes (numbers_of tree.old).depth) (state_of names tree.old (P.SectorView.space space.old)) }
    // The content has a tree of the same form again.
    ensures holds { IsTrue (P.SectorView.space space.old).tells → (form : TreeForm) → HoldsTree form K.is_key K.is_value K.cmp tree.old (P.SectorView.space space.old).content
        → OnOk result (HoldsTree form K.is_key K.is_value K.cmp tree.new (P.SectorView.space space.new).content) }
    // The pairs of the content are the sorted list with that one pair added.
    ensures pairs { IsTrue (P.SectorView.space space.old).tells → IfOk result (λ answer. InsertsPair K.cmp key.now value.now
        (pairs_in (sectors_of_tree tree.old) (P.SectorView.space space.old).content) (pairs_in (sectors_of_tree tree.old) (P.SectorView.space space.new).content) answer) }
    // Sectors of the fork alone were put, on a fault too.
    ensures frame { FollowsOn tree.old tree.new (P.SectorView.space space.old) (P.SectorView.space space.new) }
    ensures below { P.SectorView.follows space.old space.new }
    // They took at most this room.
    ensures room { (P.SectorView.space space.old).spare ≤ (P.SectorView.space space.new).spare + edit_writes (numbers_of tree.old).depth * per_node (numbers_of tree.old) }
    ensures cause { HasCause (P.SectorView.space space.old).faults (P.SectorView.space space.new).faults result }
{
    let mut on = TreeOn { tree, space };
    insert::<TreeOn<P>, K>(&mut on, desk, key, value)
}
