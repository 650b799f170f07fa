//! Edits of the attributes file over a space.
ghost use Rattle.std.specs.Prelude.{◌≡◌, ◌<◌, ◌≤◌, ◌+◌, ℕ, List, IsTrue, length, OnOk, IfOk};
ghost use Rattle.btree_edit.specs.Edits.{EditRoom};
ghost use Rattle.btree_file.specs.Standing.{pairs_in};
ghost use Rattle.btree_file.specs.State.{sectors_of_tree, state_of};
ghost use Rattle.fork_map.specs.Blocks.{blocks_of};
ghost use Rattle.attributes.specs.Values.{AreValued, SetsValue, extents_at, records_at};
ghost use Rattle.hfs_volume.specs.Changes.{SetsFork};
ghost use Rattle.hfs_volume.specs.Cost.{overflow_records};
ghost use Rattle.hfs_volume.specs.Forks.{in_use};
ghost use Rattle.volume_base.specs.AttributesFile.{EditsAttributes, IsAttributesFile};

use btree_edit::Desk;
use btree_file::{TreeFile, TreeOn};
use fork_map::ExtentList;
use hx_bytes::{Trouble, Units};
use sector_disk::SectorSpace;
use std::alloc::Global;

/// Gives an attribute of a folder or file a value that stands in its record, and answers the blocks that its old one had. Its records are at most
/// `most`.
pub(crate) fn set_value<P: SectorSpace>(
    alloc: Global,
    tree: &mut TreeFile,
    desk: &mut Desk,
    space: &mut P,
    id: u32,
    name: &Units,
    value: &[u8],
    most: u32,
) -> Result<ExtentList, Trouble>
    requires ready { IsAttributesFile tree.old desk.old (P.SectorView.space space.old) }
    requires some { 1 ≤ length name.now }
    requires name { length name.now ≤ 127 }
    requires short { length value.now ≤ 1700 }
    requires few { IsTrue (P.SectorView.space space.old).tells → records_at (pairs_in (sectors_of_tree tree.old) (P.SectorView.space space.old).content) id name.now ≤ most }
    requires room { (names : List ℕ) → IsTrue (P.SectorView.space space.old).tells → EditRoom (most + 1) 266 (state_of names tree.old (P.SectorView.space space.old)) }
    ensures blocks { IsTrue (P.SectorView.space space.old).tells → IfOk result (λ blocks. blocks ≡ extents_at (pairs_in (sectors_of_tree tree.old) (P.SectorView.space space.old).content) id name.now) }
    ensures set { IsTrue (P.SectorView.space space.old).tells → OnOk result (SetsValue id name.now value.now (pairs_in (sectors_of_tree tree.old) (P.SectorView.space space.old).content) (pairs_in (sectors_of_tree tree.old) (P.SectorView.space space.new).content)) }
    ensures edits { EditsAttributes P.SectorView.space P.SectorView.follows (most + 1) tree.old tree.new desk.new space.old space.new result }
    ensures values { IsTrue (P.SectorView.space space.old).tells → OnOk result (AreValued (pairs_in (sectors_of_tree tree.old) (P.SectorView.space space.new).content)) }
{
    let mut on = TreeOn { tree, space };
    attributes::set(alloc, &mut on, desk, id, name, value, most)
}

/// Gives an attribute of a folder or file a value of so many bytes in these blocks, and answers those that its old one had. Its records are at
/// most `most`.
pub(crate) fn set_value_in_blocks<P: SectorSpace>(
    alloc: Global,
    tree: &mut TreeFile,
    desk: &mut Desk,
    space: &mut P,
    id: u32,
    name: &Units,
    size: u64,
    fork: &ExtentList,
    most: u32,
) -> Result<ExtentList, Trouble>
    requires ready { IsAttributesFile tree.old desk.old (P.SectorView.space space.old) }
    requires some { 1 ≤ length name.now }
    requires name { length name.now ≤ 127 }
    requires long { 1700 < size }
    requires least { size ≤ 131072 }
    requires blocks { length (blocks_of fork.now) ≤ 256 }
    requires few { IsTrue (P.SectorView.space space.old).tells → records_at (pairs_in (sectors_of_tree tree.old) (P.SectorView.space space.old).content) id name.now ≤ most }
    requires room { (names : List ℕ) → IsTrue (P.SectorView.space space.old).tells → EditRoom (most + (1 + overflow_records (length (in_use fork.now)))) 266 (state_of names tree.old (P.SectorView.space space.old)) }
    ensures blocks { IsTrue (P.SectorView.space space.old).tells → IfOk result (λ blocks. blocks ≡ extents_at (pairs_in (sectors_of_tree tree.old) (P.SectorView.space space.old).content) id name.now) }
    ensures set { IsTrue (P.SectorView.space space.old).tells → OnOk result (SetsFork id name.now size (in_use fork.now) (pairs_in (sectors_of_tree tree.old) (P.SectorView.space space.old).content) (pairs_in (sectors_of_tree tree.old) (P.SectorView.space space.new).content)) }
    ensures edits { EditsAttributes P.SectorView.space P.SectorView.follows (most + (1 + overflow_records (length (in_use fork.now)))) tree.old tree.new desk.new space.old space.new result }
    ensures values { IsTrue (P.SectorView.space space.old).tells → OnOk result (AreValued (pairs_in (sectors_of_tree tree.old) (P.SectorView.space space.new).content)) }
{
    let mut on = TreeOn { tree, space };
    attributes::set_fork(alloc, &mut on, desk, id, name, size, fork, most)
}
