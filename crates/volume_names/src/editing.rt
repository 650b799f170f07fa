//! Edits of the catalog over a space.
ghost use Rattle.std.specs.Prelude.{◌≡◌, ◌≤◌, ◌<◌, ℕ, List, [], None, false, IsTrue, length, OnOk, IfOk};
ghost use Rattle.btree_node.specs.Keys.{IsCatalogKey, catalog_cmp, anything};
ghost use Rattle.btree_node.specs.TreeFile.{catalog_form};
ghost use Rattle.btree_edit.specs.Causes.{HasTroubleCause};
ghost use Rattle.btree_edit.specs.Desk.{IsDeskOf};
ghost use Rattle.btree_edit.specs.Edits.{EditRoom, TakesAtMost, TakesEdits};
ghost use Rattle.btree_file.specs.Frame.{FollowsOn};
ghost use Rattle.btree_file.specs.Standing.{HoldsTree, LiesInside, LiesOpen, numbers_of, pairs_in};
ghost use Rattle.btree_file.specs.State.{sectors_of_tree, state_of};
ghost use Rattle.catalog.specs.Entries.{AnswersAdd, Adding};
ghost use Rattle.cat_records.specs.Fits.{FitsRecord};
ghost use Rattle.hfs_volume.specs.Records.{placed_in, record_at, id_in, is_thread};

use btree_edit::{Desk, Inserted};
use btree_file::{TreeFile, TreeOn};
use cat_records::CatRecord;
use hx_bytes::{Trouble, Units};
use sector_disk::SectorSpace;
use std::alloc::Global;

/// Adds a folder or file to a folder, with its thread.
pub(crate) fn add_entry<P: SectorSpace>(
    alloc: Global,
    tree: &mut TreeFile,
    desk: &mut Desk,
    space: &mut P,
    parent: u32,
    name: &Units,
    rec: &CatRecord,
) -> Result<Inserted, Trouble>
    requires desk { IsDeskOf (numbers_of tree.old).node_size desk.old }
    requires size { 4096 ≤ (numbers_of tree.old).node_size }
    requires inside { LiesInside tree.old (P.SectorView.space space.old) }
    requires open { LiesOpen tree.old (P.SectorView.space space.old) }
    requires holds { IsTrue (P.SectorView.space space.old).tells → HoldsTree catalog_form IsCatalogKey anything catalog_cmp tree.old (P.SectorView.space space.old).content }
    requires some { 1 ≤ length name.now }
    requires name { length name.now ≤ 255 }
    requires kind { is_thread rec.now ≡ false }
    requires fits { FitsRecord rec.now }
    requires unused { IsTrue (P.SectorView.space space.old).tells → record_at (placed_in (pairs_in (sectors_of_tree tree.old) (P.SectorView.space space.old).content)) (id_in rec.now) [] ≡ None }
    requires room { (names : List ℕ) → IsTrue (P.SectorView.space space.old).tells → EditRoom 2 516 (state_of names tree.old (P.SectorView.space space.old)) }
    ensures answer { IsTrue (P.SectorView.space space.old).tells → IfOk result (λ answer. AnswersAdd (record_at (placed_in (pairs_in (sectors_of_tree tree.old) (P.SectorView.space space.old).content)) parent name.now) answer) }
    ensures added { IsTrue (P.SectorView.space space.old).tells → IfOk result (λ answer. Adding (record { parent = parent; name = name.now; value = rec.now }) (pairs_in (sectors_of_tree tree.old) (P.SectorView.space space.old).content) (pairs_in (sectors_of_tree tree.old) (P.SectorView.space space.new).content) answer) }
    ensures holds { IsTrue (P.SectorView.space space.old).tells → OnOk result (HoldsTree catalog_form IsCatalogKey anything catalog_cmp tree.new (P.SectorView.space space.new).content) }
    ensures frame { FollowsOn tree.old tree.new (P.SectorView.space space.old) (P.SectorView.space space.new) }
    // At most two edits were made, on a fault too.
    ensures edits { (names : List ℕ) → OnOk result (TakesEdits 2 516 (state_of names tree.old (P.SectorView.space space.old)) (state_of names tree.new (P.SectorView.space space.new))) }
    ensures takes { (names : List ℕ) → TakesAtMost 2 516 (state_of names tree.old (P.SectorView.space space.old)) (state_of names tree.new (P.SectorView.space space.new)) }
    ensures desk { IsDeskOf (numbers_of tree.new).node_size desk.new }
    ensures below { P.SectorView.follows space.old space.new }
    ensures cause { HasTroubleCause (P.SectorView.space space.old).faults (P.SectorView.space space.new).faults result }
{
    let mut on = TreeOn { tree, space };
    catalog::add(alloc, &mut on, desk, parent, name, rec)
}
