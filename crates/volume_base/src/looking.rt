//! Reads of the trees over a space.
ghost use Rattle.std.specs.Prelude.{◌≡◌, ◌⊎◌, ◌≤◌, map, length, false, IsTrue, IfOk, IfSome};
ghost use Rattle.std.specs.List.{Contains};
ghost use Rattle.btree_node.specs.Keys.{IsCatalogKey, IsExtentKey, catalog_cmp, extent_cmp, is_eight_extents, anything};
ghost use Rattle.btree_node.specs.TreeFile.{extents_form, catalog_form};
ghost use Rattle.btree_edit.specs.Causes.{HasTroubleCause};
ghost use Rattle.btree_edit.specs.Desk.{IsDeskOf};
ghost use Rattle.btree_file.specs.Standing.{HoldsTree, LiesInside, LiesOpen, numbers_of, pairs_in};
ghost use Rattle.btree_file.specs.State.{sectors_of_tree};
ghost use Rattle.cat_records.specs.Fits.{FitsRecord};
ghost use Rattle.catalog.specs.Pairs.{value_at};
ghost use Rattle.hfs_volume.specs.Blocks.{GoesOn};
ghost use Rattle.hfs_volume.specs.Entries.{AreSpelled};
ghost use Rattle.hfs_volume.specs.Forks.{extents_of};
ghost use Rattle.hfs_volume.specs.Records.{overflow_of, is_thread};
ghost use Rattle.volume_base.specs.Service.{KeepsFile};
ghost use Rattle.volume_base.specs.Standing.{AreWhole};
ghost use Rattle.volume_base.specs.Touching.{Looks};

use btree_edit::Desk;
use btree_file::{TreeFile, TreeOn};
use cat_records::CatRecord;
use fork_map::ExtentList;
use hx_bytes::{ForkRecord, Trouble, Units};
use overflow::load_fork;
use sector_disk::SectorSpace;
use std::alloc::Global;

/// The extents in use of a fork, by the extents overflow file. The kind of a fork is 0 for data and 255 for resources.
pub fn load_extents<P: SectorSpace>(
    alloc: Global,
    tree: &mut TreeFile,
    desk: &mut Desk,
    space: &mut P,
    id: u32,
    kind: u8,
    rec: &ForkRecord,
) -> Result<ExtentList, Trouble>
    requires desk { IsDeskOf (numbers_of tree.old).node_size desk.old }
    requires inside { LiesInside tree.old (P.SectorView.space space.old) }
    requires open { LiesOpen tree.old (P.SectorView.space space.old) }
    requires kind { (kind ≡ 0) ⊎ (kind ≡ 255) }
    requires holds { IsTrue (P.SectorView.space space.old).tells → HoldsTree extents_form IsExtentKey is_eight_extents extent_cmp tree.old (P.SectorView.space space.old).content }
    requires whole { IsTrue (P.SectorView.space space.old).tells → AreWhole (P.SectorView.space space.old).content }
    requires goes_on { IsTrue (P.SectorView.space space.old).tells → GoesOn (map overflow_of (pairs_in (sectors_of_tree tree.old) (P.SectorView.space space.old).content)) (record { id = id; kind = kind; fork = rec.now }) }
    ensures found { IsTrue (P.SectorView.space space.old).tells → IfOk result (λ list. list ≡ extents_of (map overflow_of (pairs_in (sectors_of_tree tree.old) (P.SectorView.space space.old).content)) id kind rec.now) }
    ensures keeps { KeepsFile (P.SectorView.space space.old).tells tree.old tree.new }
    ensures looks { Looks (λ s. Contains (sectors_of_tree tree.old) s) (P.SectorView.space space.old) (P.SectorView.space space.new) }
    ensures desk { IsDeskOf (numbers_of tree.new).node_size desk.new }
    ensures below { P.SectorView.follows space.old space.new }
    ensures cause { HasTroubleCause (P.SectorView.space space.old).faults (P.SectorView.space space.new).faults result }
{
    let mut on = TreeOn { tree, space };
    load_fork(alloc, &mut on, desk, id, kind, rec)
}

/// The record under a name of a folder, by the catalog.
pub fn lookup_record<P: SectorSpace>(
    alloc: Global,
    tree: &mut TreeFile,
    desk: &mut Desk,
    space: &mut P,
    parent: u32,
    name: &Units,
) -> Result<Option<CatRecord>, Trouble>
    requires desk { IsDeskOf (numbers_of tree.old).node_size desk.old }
    requires inside { LiesInside tree.old (P.SectorView.space space.old) }
    requires open { LiesOpen tree.old (P.SectorView.space space.old) }
    requires holds { IsTrue (P.SectorView.space space.old).tells → HoldsTree catalog_form IsCatalogKey anything catalog_cmp tree.old (P.SectorView.space space.old).content }
    requires whole { IsTrue (P.SectorView.space space.old).tells → AreWhole (P.SectorView.space space.old).content }
    requires spelled { IsTrue (P.SectorView.space space.old).tells → AreSpelled (pairs_in (sectors_of_tree tree.old) (P.SectorView.space space.old).content) }
    requires name { length name.now ≤ 255 }
    ensures found { IsTrue (P.SectorView.space space.old).tells → IfOk result (λ found. found ≡ value_at (pairs_in (sectors_of_tree tree.old) (P.SectorView.space space.old).content) parent name.now) }
    // The record of a folder or file has a spelling.
    ensures fits { IfOk result (λ found. IfSome found (λ rec. is_thread rec ≡ false → FitsRecord rec)) }
    ensures keeps { KeepsFile (P.SectorView.space space.old).tells tree.old tree.new }
    ensures looks { Looks (λ s. Contains (sectors_of_tree tree.old) s) (P.SectorView.space space.old) (P.SectorView.space space.new) }
    ensures desk { IsDeskOf (numbers_of tree.new).node_size desk.new }
    ensures below { P.SectorView.follows space.old space.new }
    ensures cause { HasTroubleCause (P.SectorView.space space.old).faults (P.SectorView.space space.new).faults result }
{
    let mut on = TreeOn { tree, space };
    catalog::lookup(alloc, &mut on, desk, parent, name)
}
