//! Edits of the attributes file over a space.
ghost use Rattle.std.specs.Prelude.{◌≤◌, ℕ, List, IsTrue, length, OnOk, IfOk};
ghost use Rattle.btree_edit.specs.Edits.{EditRoom};
ghost use Rattle.btree_file.specs.Standing.{pairs_in};
ghost use Rattle.btree_file.specs.State.{sectors_of_tree, state_of};
ghost use Rattle.attributes.specs.Values.{AnswersDelete, extents_at, records_at, value_at};
ghost use Rattle.hfs_volume.specs.Changes.{DropsAttribute};
ghost use Rattle.volume_base.specs.AttributesFile.{EditsAttributes, IsAttributesFile};

use attributes::Deleted;
use btree_edit::Desk;
use btree_file::{TreeFile, TreeOn};
use hx_bytes::{Trouble, Units};
use sector_disk::SectorSpace;
use std::alloc::Global;

/// Deletes an attribute of a folder or file, whose records are at most `most`.
pub(crate) fn delete_value<P: SectorSpace>(
    alloc: Global,
    tree: &mut TreeFile,
    desk: &mut Desk,
    space: &mut P,
    id: u32,
    name: &Units,
    most: u32,
) -> Result<Deleted, Trouble>
    requires ready { IsAttributesFile tree.old desk.old (P.SectorView.space space.old) }
    requires name { length name.now ≤ 127 }
    requires few { IsTrue (P.SectorView.space space.old).tells → records_at (pairs_in (sectors_of_tree tree.old) (P.SectorView.space space.old).content) id name.now ≤ most }
    requires room { (names : List ℕ) → IsTrue (P.SectorView.space space.old).tells → EditRoom most 266 (state_of names tree.old (P.SectorView.space space.old)) }
    ensures answer { IsTrue (P.SectorView.space space.old).tells → IfOk result (λ answer. AnswersDelete (value_at (pairs_in (sectors_of_tree tree.old) (P.SectorView.space space.old).content) id name.now) (extents_at (pairs_in (sectors_of_tree tree.old) (P.SectorView.space space.old).content) id name.now) answer) }
    ensures deleted { IsTrue (P.SectorView.space space.old).tells → OnOk result (DropsAttribute id name.now (pairs_in (sectors_of_tree tree.old) (P.SectorView.space space.old).content) (pairs_in (sectors_of_tree tree.old) (P.SectorView.space space.new).content)) }
    ensures edits { EditsAttributes P.SectorView.space P.SectorView.follows most tree.old tree.new desk.new space.old space.new result }
{
    let mut on = TreeOn { tree, space };
    attributes::delete(alloc, &mut on, desk, id, name, most)
}
