//! Edits of the catalog over a space.
ghost use Rattle.std.specs.Prelude.{◌≡◌, ◌≤◌, ◌<◌, ℕ, List, Some, false, IsTrue, length, OnOk, IfOk};
ghost use Rattle.btree_node.specs.Keys.{IsCatalogKey, catalog_cmp, anything};
ghost use Rattle.btree_node.specs.TreeFile.{catalog_form};
ghost use Rattle.btree_node.specs.Store.{HasRoom};
ghost use Rattle.btree_edit.specs.Causes.{HasTroubleCause};
ghost use Rattle.btree_edit.specs.Desk.{IsDeskOf};
ghost use Rattle.btree_edit.specs.Editing.{CostsAtMost};
ghost use Rattle.btree_edit.specs.Edits.{EditRoom, TakesAtMost, TakesEdits};
ghost use Rattle.btree_file.specs.Frame.{FollowsOn};
ghost use Rattle.btree_file.specs.Standing.{HoldsTree, LiesInside, LiesOpen, numbers_of, pairs_in};
ghost use Rattle.btree_file.specs.State.{sectors_of_tree, state_of};
ghost use Rattle.catalog.specs.Entries.{AnswersRemoval, Removing, Updating, IsOfKind};
ghost use Rattle.catalog.specs.Rooms.{TakesUpdates};
ghost use Rattle.cat_records.specs.Fits.{FitsRecord};
ghost use Rattle.hfs_volume.specs.Entries.{AreSpelled, AreThreaded};
ghost use Rattle.hfs_volume.specs.Records.{Placed, placed_in, record_at, is_thread};

use btree_edit::{Desk, Removed};
use btree_file::{TreeFile, TreeOn};
use cat_records::CatRecord;
use hx_bytes::{Trouble, Units};
use sector_disk::SectorSpace;
use std::alloc::Global;

/// Removes a folder or file from a folder, with its thread.
pub(crate) fn remove_entry<P: SectorSpace>(
    alloc: Global,
    tree: &mut TreeFile,
    desk: &mut Desk,
    space: &mut P,
    parent: u32,
    name: &Units,
) -> Result<Removed, Trouble>
    requires desk { IsDeskOf (numbers_of tree.old).node_size desk.old }
    requires size { 4096 ≤ (numbers_of tree.old).node_size }
    requires inside { LiesInside tree.old (P.SectorView.space space.old) }
    requires open { LiesOpen tree.old (P.SectorView.space space.old) }
    requires holds { IsTrue (P.SectorView.space space.old).tells → HoldsTree catalog_form IsCatalogKey anything catalog_cmp tree.old (P.SectorView.space space.old).content }
    requires threads { IsTrue (P.SectorView.space space.old).tells → AreThreaded (pairs_in (sectors_of_tree tree.old) (P.SectorView.space space.old).content) }
    requires some { 1 ≤ length name.now }
    requires name { length name.now ≤ 255 }
    requires room { (names : List ℕ) → IsTrue (P.SectorView.space space.old).tells → EditRoom 2 516 (state_of names tree.old (P.SectorView.space space.old)) }
    ensures answer { IsTrue (P.SectorView.space space.old).tells → IfOk result (λ answer. AnswersRemoval (record_at (placed_in (pairs_in (sectors_of_tree tree.old) (P.SectorView.space space.old).content)) parent name.now) answer) }
    ensures removed { IsTrue (P.SectorView.space space.old).tells → IfOk result (λ answer. Removing parent name.now (pairs_in (sectors_of_tree tree.old) (P.SectorView.space space.old).content) (pairs_in (sectors_of_tree tree.old) (P.SectorView.space space.new).content) answer) }
    ensures holds { IsTrue (P.SectorView.space space.old).tells → OnOk result (HoldsTree catalog_form IsCatalogKey anything catalog_cmp tree.new (P.SectorView.space space.new).content) }
    ensures frame { FollowsOn tree.old tree.new (P.SectorView.space space.old) (P.SectorView.space space.new) }
    // At most two edits were made, on a fault too.
    ensures edits { (names : List ℕ) → OnOk result (TakesEdits 2 516 (state_of names tree.old (P.SectorView.space space.old)) (state_of names tree.new (P.SectorView.space space.new))) }
    ensures takes { (names : List ℕ) → TakesAtMost 2 516 (state_of names tree.old (P.SectorView.space space.old)) (state_of names tree.new (P.SectorView.space space.new)) }
    ensures desk { IsDeskOf (numbers_of tree.new).node_size desk.new }
    ensures below { P.SectorView.follows space.old space.new }
    ensures cause { HasTroubleCause (P.SectorView.space space.old).faults (P.SectorView.space space.new).faults result }
{
    let mut on = TreeOn { tree, space };
    catalog::remove(alloc, &mut on, desk, parent, name)
}

/// Gives a folder or file another record, of its kind and CNID.
pub(crate) fn update_entry<P: SectorSpace>(
    alloc: Global,
    tree: &mut TreeFile,
    desk: &mut Desk,
    space: &mut P,
    parent: u32,
    name: &Units,
    rec: &CatRecord,
) -> Result<Removed, Trouble>
    requires desk { IsDeskOf (numbers_of tree.old).node_size desk.old }
    requires size { 4096 ≤ (numbers_of tree.old).node_size }
    requires inside { LiesInside tree.old (P.SectorView.space space.old) }
    requires open { LiesOpen tree.old (P.SectorView.space space.old) }
    requires holds { IsTrue (P.SectorView.space space.old).tells → HoldsTree catalog_form IsCatalogKey anything catalog_cmp tree.old (P.SectorView.space space.old).content }
    requires spelled { IsTrue (P.SectorView.space space.old).tells → AreSpelled (pairs_in (sectors_of_tree tree.old) (P.SectorView.space space.old).content) }
    requires name { length name.now ≤ 255 }
    requires kind { is_thread rec.now ≡ false }
    requires fits { FitsRecord rec.now }
    requires same_kind { IsTrue (P.SectorView.space space.old).tells → (entry : Placed) → record_at (placed_in (pairs_in (sectors_of_tree tree.old) (P.SectorView.space space.old).content)) parent name.now ≡ Some entry → IsOfKind rec.now entry.value }
    requires room { (names : List ℕ) → IsTrue (P.SectorView.space space.old).tells → HasRoom 1 (state_of names tree.old (P.SectorView.space space.old)) }
    ensures answer { IsTrue (P.SectorView.space space.old).tells → IfOk result (λ answer. AnswersRemoval (record_at (placed_in (pairs_in (sectors_of_tree tree.old) (P.SectorView.space space.old).content)) parent name.now) answer) }
    ensures updated { IsTrue (P.SectorView.space space.old).tells → IfOk result (λ answer. Updating parent name.now rec.now (pairs_in (sectors_of_tree tree.old) (P.SectorView.space space.old).content) (pairs_in (sectors_of_tree tree.old) (P.SectorView.space space.new).content) answer) }
    ensures holds { IsTrue (P.SectorView.space space.old).tells → OnOk result (HoldsTree catalog_form IsCatalogKey anything catalog_cmp tree.new (P.SectorView.space space.new).content) }
    // The tree keeps its numbers, and one node is written at most.
    ensures shape { IsTrue (P.SectorView.space space.old).tells → numbers_of tree.new ≡ numbers_of tree.old }
    ensures takes { (names : List ℕ) → IsTrue (P.SectorView.space space.old).tells → CostsAtMost 1 0 (state_of names tree.old (P.SectorView.space space.old)) (state_of names tree.new (P.SectorView.space space.new)) }
    ensures edits { (names : List ℕ) → OnOk result (TakesUpdates 0 1 516 (state_of names tree.old (P.SectorView.space space.old)) (state_of names tree.new (P.SectorView.space space.new))) }
    ensures frame { FollowsOn tree.old tree.new (P.SectorView.space space.old) (P.SectorView.space space.new) }
    ensures desk { IsDeskOf (numbers_of tree.new).node_size desk.new }
    ensures below { P.SectorView.follows space.old space.new }
    ensures cause { HasTroubleCause (P.SectorView.space space.old).faults (P.SectorView.space space.new).faults result }
{
    let mut on = TreeOn { tree, space };
    catalog::update(alloc, &mut on, desk, parent, name, rec)
}
