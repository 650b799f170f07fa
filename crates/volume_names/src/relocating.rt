//! A folder or file of a volume in service under another name.
ghost use Rattle.std.specs.Prelude.{◌≡◌, ◌≤◌, ℕ, List, IsTrue, length, OnOk, IfOk};
ghost use Rattle.btree_node.specs.Keys.{IsCatalogKey, catalog_cmp, anything};
ghost use Rattle.btree_node.specs.TreeFile.{catalog_form};
ghost use Rattle.btree_edit.specs.Causes.{HasTroubleCause};
ghost use Rattle.btree_edit.specs.Desk.{IsDeskOf};
ghost use Rattle.btree_edit.specs.Edits.{EditRoom, TakesAtMost, TakesEdits};
ghost use Rattle.btree_file.specs.Frame.{FollowsOn};
ghost use Rattle.btree_file.specs.Standing.{HoldsTree, LiesInside, LiesOpen, numbers_of, pairs_in};
ghost use Rattle.btree_file.specs.State.{sectors_of_tree, state_of};
ghost use Rattle.catalog.specs.Entries.{AnswersMove, Moving};
ghost use Rattle.hfs_volume.specs.Entries.{AreThreaded};
ghost use Rattle.hfs_volume.specs.Records.{placed_in, record_at};
ghost use Rattle.volume_base.specs.Frame.{Edits};
ghost use Rattle.volume_base.specs.Standing.{StandsOver};

use btree_edit::Desk;
use btree_file::{TreeFile, TreeOn};
use catalog::{Moved, move_entry};
use hx_bytes::{Trouble, Units};
use sector_disk::SectorSpace;
use std::alloc::Global;
use volume_base::Volume;

/// Moves an entry to another name, in its folder or another, with its thread.
fn relocate_entry<P: SectorSpace>(
    alloc: Global,
    tree: &mut TreeFile,
    desk: &mut Desk,
    space: &mut P,
    from: u32,
    old: &Units,
    to: u32,
    name: &Units,
) -> Result<Moved, Trouble>
    requires desk { IsDeskOf (numbers_of tree.old).node_size desk.old }
    requires size { 4096 ≤ (numbers_of tree.old).node_size }
    requires inside { LiesInside tree.old (P.SectorView.space space.old) }
    requires open { LiesOpen tree.old (P.SectorView.space space.old) }
    requires holds { IsTrue (P.SectorView.space space.old).tells → HoldsTree catalog_form IsCatalogKey anything catalog_cmp tree.old (P.SectorView.space space.old).content }
    requires threads { IsTrue (P.SectorView.space space.old).tells → AreThreaded (pairs_in (sectors_of_tree tree.old) (P.SectorView.space space.old).content) }
    requires some { 1 ≤ length old.now }
    requires old_name { length old.now ≤ 255 }
    requires some_new { 1 ≤ length name.now }
    requires name { length name.now ≤ 255 }
    requires room { (names : List ℕ) → IsTrue (P.SectorView.space space.old).tells → EditRoom 3 516 (state_of names tree.old (P.SectorView.space space.old)) }
    ensures answer { IsTrue (P.SectorView.space space.old).tells
        → IfOk result (λ answer. AnswersMove (record_at (placed_in (pairs_in (sectors_of_tree tree.old) (P.SectorView.space space.old).content)) from old.now) (record_at (placed_in (pairs_in (sectors_of_tree tree.old) (P.SectorView.space space.old).content)) to name.now) answer) }
    ensures moved { IsTrue (P.SectorView.space space.old).tells → IfOk result (λ answer. Moving from old.now to name.now (pairs_in (sectors_of_tree tree.old) (P.SectorView.space space.old).content) (pairs_in (sectors_of_tree tree.old) (P.SectorView.space space.new).content) answer) }
    ensures holds { IsTrue (P.SectorView.space space.old).tells → OnOk result (HoldsTree catalog_form IsCatalogKey anything catalog_cmp tree.new (P.SectorView.space space.new).content) }
    ensures frame { FollowsOn tree.old tree.new (P.SectorView.space space.old) (P.SectorView.space space.new) }
    // At most three edits were made, on a fault too.
    ensures edits { (names : List ℕ) → OnOk result (TakesEdits 3 516 (state_of names tree.old (P.SectorView.space space.old)) (state_of names tree.new (P.SectorView.space space.new))) }
    ensures takes { (names : List ℕ) → TakesAtMost 3 516 (state_of names tree.old (P.SectorView.space space.old)) (state_of names tree.new (P.SectorView.space space.new)) }
    ensures desk { IsDeskOf (numbers_of tree.new).node_size desk.new }
    ensures below { P.SectorView.follows space.old space.new }
    ensures cause { HasTroubleCause (P.SectorView.space space.old).faults (P.SectorView.space space.new).faults result }
{
    let mut on = TreeOn { tree, space };
    move_entry(alloc, &mut on, desk, from, old, to, name)
}

/// Moves a folder or file to another name, in its folder or another. The volume stands as before, with this one change
/// of its catalog.
pub(crate) fn relocate<P: SectorSpace>(
    volume: &mut Volume,
    alloc: Global,
    space: &mut P,
    from: u32,
    old: &Units,
    to: u32,
    name: &Units,
) -> Result<Moved, Trouble>
    requires stands { StandsOver volume.old (P.SectorView.space space.old) }
    requires size { 4096 ≤ (numbers_of volume.old.catalog.file).node_size }
    requires threads { IsTrue (P.SectorView.space space.old).tells → AreThreaded (pairs_in (sectors_of_tree volume.old.catalog.file) (P.SectorView.space space.old).content) }
    requires some { 1 ≤ length old.now }
    requires old_name { length old.now ≤ 255 }
    requires some_new { 1 ≤ length name.now }
    requires name { length name.now ≤ 255 }
    requires room { (names : List ℕ) → IsTrue (P.SectorView.space space.old).tells → EditRoom 3 516 (state_of names volume.old.catalog.file (P.SectorView.space space.old)) }
    // Nothing else of it is changed.
    ensures rest { volume.new ≡ record volume.old { catalog = volume.new.catalog } }
    ensures answer { IsTrue (P.SectorView.space space.old).tells
        → IfOk result (λ answer. AnswersMove (record_at (placed_in (pairs_in (sectors_of_tree volume.old.catalog.file) (P.SectorView.space space.old).content)) from old.now) (record_at (placed_in (pairs_in (sectors_of_tree volume.old.catalog.file) (P.SectorView.space space.old).content)) to name.now) answer) }
    ensures moved { IsTrue (P.SectorView.space space.old).tells → IfOk result (λ answer. Moving from old.now to name.now (pairs_in (sectors_of_tree volume.old.catalog.file) (P.SectorView.space space.old).content) (pairs_in (sectors_of_tree volume.old.catalog.file) (P.SectorView.space space.new).content) answer) }
    ensures edits { Edits P.SectorView.space P.SectorView.follows (P.SectorView.space space.old).spare volume.old volume.new space.old space.new result }
    ensures frame { FollowsOn volume.old.catalog.file volume.new.catalog.file (P.SectorView.space space.old) (P.SectorView.space space.new) }
    ensures takes_edits { (names : List ℕ) → OnOk result (TakesEdits 3 516 (state_of names volume.old.catalog.file (P.SectorView.space space.old)) (state_of names volume.new.catalog.file (P.SectorView.space space.new))) }
    ensures takes { (names : List ℕ) → TakesAtMost 3 516 (state_of names volume.old.catalog.file (P.SectorView.space space.old)) (state_of names volume.new.catalog.file (P.SectorView.space space.new)) }
{
    relocate_entry(
        alloc,
        &mut volume.catalog.file,
        &mut volume.catalog.desk,
        space,
        from,
        old,
        to,
        name,
    )
}
