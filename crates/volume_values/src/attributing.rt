//! Values of attributes of a volume in service, set.
ghost use Rattle.std.specs.Prelude.{◌≡◌, ◌<◌, ◌≤◌, ◌+◌, ℕ, List, IsTrue, length, IfOk, OnOk};
ghost use Rattle.attributes.specs.Values.{AreValued, SetsValue, extents_at, records_at};
ghost use Rattle.btree_edit.specs.Edits.{EditRoom, TakesAtMost};
ghost use Rattle.btree_file.specs.Frame.{FollowsOn};
ghost use Rattle.btree_file.specs.Standing.{numbers_of};
ghost use Rattle.btree_file.specs.State.{state_of};
ghost use Rattle.fork_map.specs.Blocks.{blocks_of};
ghost use Rattle.hfs_volume.specs.Changes.{SetsFork};
ghost use Rattle.hfs_volume.specs.Content.{has_attributes};
ghost use Rattle.hfs_volume.specs.Cost.{overflow_records};
ghost use Rattle.hfs_volume.specs.Forks.{in_use};
ghost use Rattle.volume_base.specs.Attributing.{ChangesAttributes};
ghost use Rattle.volume_base.specs.Frame.{Edits};
ghost use Rattle.volume_base.specs.Lists.{lists_of};
ghost use Rattle.volume_base.specs.Standing.{StandsOver};

use crate::valuing::{set_value, set_value_in_blocks};
use fork_map::ExtentList;
use hx_bytes::{Trouble, Units};
use sector_disk::SectorSpace;
use std::alloc::Global;
use volume_base::Volume;

/// Gives an attribute of a folder or file a value that stands in its record, and answers the blocks that its old one had, which aren't given back. The
/// volume stands as before, with this one change of its attributes.
pub(crate) fn set<P: SectorSpace>(
    volume: &mut Volume,
    alloc: Global,
    space: &mut P,
    id: u32,
    name: &Units,
    value: &[u8],
    most: u32,
) -> Result<ExtentList, Trouble>
    requires stands { StandsOver volume.old (P.SectorView.space space.old) }
    requires has { IsTrue (has_attributes volume.old.header) }
    requires size { 4096 ≤ (numbers_of volume.old.attributes.file).node_size }
    requires values { IsTrue (P.SectorView.space space.old).tells → AreValued (lists_of volume.old (P.SectorView.space space.old).content).attribute_pairs }
    requires some { 1 ≤ length name.now }
    requires name { length name.now ≤ 127 }
    requires short { length value.now ≤ 1700 }
    requires few { IsTrue (P.SectorView.space space.old).tells → records_at (lists_of volume.old (P.SectorView.space space.old).content).attribute_pairs id name.now ≤ most }
    requires room { (names : List ℕ) → IsTrue (P.SectorView.space space.old).tells → EditRoom (most + 1) 266 (state_of names volume.old.attributes.file (P.SectorView.space space.old)) }
    ensures blocks { IsTrue (P.SectorView.space space.old).tells → IfOk result (λ blocks. blocks ≡ extents_at (lists_of volume.old (P.SectorView.space space.old).content).attribute_pairs id name.now) }
    // Nothing else of it is changed.
    ensures rest { volume.new ≡ record volume.old { attributes = volume.new.attributes } }
    ensures sets { IsTrue (P.SectorView.space space.old).tells → OnOk result (ChangesAttributes (SetsValue id name.now value.now) volume.old volume.new (P.SectorView.space space.old).content (P.SectorView.space space.new).content) }
    ensures edits { Edits P.SectorView.space P.SectorView.follows (P.SectorView.space space.old).spare volume.old volume.new space.old space.new result }
    ensures takes { (names : List ℕ) → TakesAtMost (most + 1) 266 (state_of names volume.old.attributes.file (P.SectorView.space space.old)) (state_of names volume.new.attributes.file (P.SectorView.space space.new)) }
    ensures frame { FollowsOn volume.old.attributes.file volume.new.attributes.file (P.SectorView.space space.old) (P.SectorView.space space.new) }
{
    set_value(
        alloc,
        &mut volume.attributes.file,
        &mut volume.attributes.desk,
        space,
        id,
        name,
        value,
        most,
    )
}

/// The same of a value of so many bytes in these blocks.
pub(crate) fn set_in_blocks<P: SectorSpace>(
    volume: &mut Volume,
    alloc: Global,
    space: &mut P,
    id: u32,
    name: &Units,
    size: u64,
    fork: &ExtentList,
    most: u32,
) -> Result<ExtentList, Trouble>
    requires stands { StandsOver volume.old (P.SectorView.space space.old) }
    requires has { IsTrue (has_attributes volume.old.header) }
    requires size { 4096 ≤ (numbers_of volume.old.attributes.file).node_size }
    requires values { IsTrue (P.SectorView.space space.old).tells → AreValued (lists_of volume.old (P.SectorView.space space.old).content).attribute_pairs }
    requires some { 1 ≤ length name.now }
    requires name { length name.now ≤ 127 }
    requires long { 1700 < size }
    requires least { size ≤ 131072 }
    requires blocks { length (blocks_of fork.now) ≤ 256 }
    requires few { IsTrue (P.SectorView.space space.old).tells → records_at (lists_of volume.old (P.SectorView.space space.old).content).attribute_pairs id name.now ≤ most }
    requires room { (names : List ℕ) → IsTrue (P.SectorView.space space.old).tells → EditRoom (most + (1 + overflow_records (length (in_use fork.now)))) 266 (state_of names volume.old.attributes.file (P.SectorView.space space.old)) }
    ensures blocks { IsTrue (P.SectorView.space space.old).tells → IfOk result (λ blocks. blocks ≡ extents_at (lists_of volume.old (P.SectorView.space space.old).content).attribute_pairs id name.now) }
    // Nothing else of it is changed.
    ensures rest { volume.new ≡ record volume.old { attributes = volume.new.attributes } }
    ensures sets { IsTrue (P.SectorView.space space.old).tells → OnOk result (ChangesAttributes (SetsFork id name.now size (in_use fork.now)) volume.old volume.new (P.SectorView.space space.old).content (P.SectorView.space space.new).content) }
    ensures edits { Edits P.SectorView.space P.SectorView.follows (P.SectorView.space space.old).spare volume.old volume.new space.old space.new result }
    ensures takes { (names : List ℕ) → TakesAtMost (most + (1 + overflow_records (length (in_use fork.now)))) 266 (state_of names volume.old.attributes.file (P.SectorView.space space.old)) (state_of names volume.new.attributes.file (P.SectorView.space space.new)) }
    ensures frame { FollowsOn volume.old.attributes.file volume.new.attributes.file (P.SectorView.space space.old) (P.SectorView.space space.new) }
{
    set_value_in_blocks(
        alloc,
        &mut volume.attributes.file,
        &mut volume.attributes.desk,
        space,
        id,
        name,
        size,
        fork,
        most,
    )
}
