//! A tree in a fork that gets longer.
ghost use Rattle.std.specs.Prelude.{◌≡◌, ◌<◌, ◌^◌, List, IsTrue, OnOk, OnErr, IsErrOf};
ghost use Rattle.hx_bytes.specs.declared.faults.Trouble.TheVariants.{Disk};
ghost use Rattle.sector_disk.specs.Cause.{Rose};
ghost use Rattle.btree_node.specs.TreeFile.{TreeForm};
ghost use Rattle.btree_file.specs.Frame.{PutsWithin, ReadsSpace};
ghost use Rattle.btree_file.specs.Growth.{HasRoomToGrow, HasWholeNodes, RunApart, RunInside, RunOpen, TakesRoomToGrow, nodes_with, sectors_with};
ghost use Rattle.btree_file.specs.Standing.{HoldsTree, LiesInside, LiesOpen, pairs_in};
ghost use Rattle.btree_file.specs.State.{sectors_of_tree};

use btree_file::TreeFile;
use btree_node::KeyOrder;
use hx_bytes::{Extent, Trouble};
use sector_disk::SectorSpace;
use std::alloc::Global;

/// Adds a run of whole nodes to the fork of a tree.
pub fn grow_tree<P: SectorSpace, K: KeyOrder>(
    tree: &mut TreeFile,
    alloc: Global,
    space: &mut P,
    run: Extent,
) -> Result<(), Trouble>
    requires inside { LiesInside tree.old (P.SectorView.space space.old) }
    requires run_inside { RunInside tree.old run (P.SectorView.space space.old) }
    requires open { LiesOpen tree.old (P.SectorView.space space.old) }
    requires run_open { RunOpen tree.old run (P.SectorView.space space.old) }
    requires holds { IsTrue (P.SectorView.space space.old).tells → (form : TreeForm) × HoldsTree form K.is_key K.is_value K.cmp tree.old (P.SectorView.space space.old).content }
    requires apart { IsTrue (P.SectorView.space space.old).tells → RunApart tree.old run }
    requires whole { HasWholeNodes tree.old run }
    requires few { nodes_with tree.old run < 2 ^ 32 }
    requires room { HasRoomToGrow tree.old run (P.SectorView.space space.old) }
    // The content has a tree of the same form, with the same pairs.
    ensures holds { IsTrue (P.SectorView.space space.old).tells → (form : TreeForm) → HoldsTree form K.is_key K.is_value K.cmp tree.old (P.SectorView.space space.old).content
        → OnOk result (HoldsTree form K.is_key K.is_value K.cmp tree.new (P.SectorView.space space.new).content
        × (pairs_in (sectors_of_tree tree.new) (P.SectorView.space space.new).content ≡ pairs_in (sectors_of_tree tree.old) (P.SectorView.space space.old).content)) }
    // Sectors of the longer fork alone were put, within this room.
    ensures frame { PutsWithin (sectors_with tree.old run) (P.SectorView.space space.old) (P.SectorView.space space.new) }
    ensures room { TakesRoomToGrow tree.old run (P.SectorView.space space.old) (P.SectorView.space space.new) }
    ensures below { P.SectorView.follows space.old space.new }
    ensures disk { IsErrOf result Disk → Rose (P.SectorView.space space.old).faults (P.SectorView.space space.new).faults }
{
    tree.grow(alloc, space, run)
}
