//! The attributes of a folder, removed.
ghost use Rattle.std.specs.Prelude.{◌≡◌, ◌≤◌, ℕ, List, IsTrue, IfOk, OnOk};
ghost use Rattle.attributes.specs.Owned.{count_of, extents_owned};
ghost use Rattle.attributes.specs.Values.{AreValued};
ghost use Rattle.btree_edit.specs.Edits.{EditRoom, TakesAtMost};
ghost use Rattle.btree_file.specs.Frame.{FollowsOn};
ghost use Rattle.btree_file.specs.Standing.{pairs_in};
ghost use Rattle.btree_file.specs.State.{sectors_of_tree, state_of};
ghost use Rattle.hfs_volume.specs.Commands.{DropsAttributes};
ghost use Rattle.hfs_volume.specs.Content.{has_attributes};
ghost use Rattle.volume_base.specs.Attributing.{ChangesAttributes};
ghost use Rattle.volume_base.specs.Frame.{Edits};
ghost use Rattle.volume_base.specs.Lists.{lists_of};
ghost use Rattle.volume_base.specs.Standing.{StandsOver};
ghost use Rattle.volume_base.specs.AttributesFile.{EditsAttributes, IsAttributesFile};

use attributes::drop_all;
use btree_edit::Desk;
use btree_file::{TreeFile, TreeOn};
use fork_map::ExtentList;
use hx_bytes::Trouble;
use sector_disk::SectorSpace;
use std::alloc::Global;
use volume_base::Volume;

/// Removes the attributes of a folder or file, whose records are at most `most`, and answers the blocks that their values had.
fn drop_owned<P: SectorSpace>(
    alloc: Global,
    tree: &mut TreeFile,
    desk: &mut Desk,
    space: &mut P,
    id: u32,
    most: u32,
) -> Result<ExtentList, Trouble>
    requires ready { IsAttributesFile tree.old desk.old (P.SectorView.space space.old) }
    requires few { IsTrue (P.SectorView.space space.old).tells → count_of id (pairs_in (sectors_of_tree tree.old) (P.SectorView.space space.old).content) ≤ most }
    requires room { (names : List ℕ) → IsTrue (P.SectorView.space space.old).tells → EditRoom most 266 (state_of names tree.old (P.SectorView.space space.old)) }
    ensures blocks { IsTrue (P.SectorView.space space.old).tells → IfOk result (λ blocks. blocks ≡ extents_owned (pairs_in (sectors_of_tree tree.old) (P.SectorView.space space.old).content) id) }
    ensures edits { EditsAttributes P.SectorView.space P.SectorView.follows most tree.old tree.new desk.new space.old space.new result }
    ensures dropped { IsTrue (P.SectorView.space space.old).tells → OnOk result (DropsAttributes id (pairs_in (sectors_of_tree tree.old) (P.SectorView.space space.old).content) (pairs_in (sectors_of_tree tree.old) (P.SectorView.space space.new).content)) }
{
    let mut on = TreeOn { tree, space };
    let dropped = drop_all(alloc, &mut on, desk, id, most)?;
    Ok(dropped.blocks)
}

/// Removes the attributes of a folder or file, whose records are at most `most`, and answers the blocks that their values had, which aren't given back.
/// The volume stands as before, without them.
pub(crate) fn bare<P: SectorSpace>(
    volume: &mut Volume,
    alloc: Global,
    space: &mut P,
    id: u32,
    most: u32,
) -> Result<ExtentList, Trouble>
    requires stands { StandsOver volume.old (P.SectorView.space space.old) }
    requires has { IsTrue (has_attributes volume.old.header) }
    requires values { IsTrue (P.SectorView.space space.old).tells → AreValued (lists_of volume.old (P.SectorView.space space.old).content).attribute_pairs }
    requires few { IsTrue (P.SectorView.space space.old).tells → count_of id (lists_of volume.old (P.SectorView.space space.old).content).attribute_pairs ≤ most }
    requires size { 4096 ≤ volume.old.attributes.file.shape.node_size }
    requires room { (names : List ℕ) → IsTrue (P.SectorView.space space.old).tells → EditRoom most 266 (state_of names volume.old.attributes.file (P.SectorView.space space.old)) }
    ensures blocks { IsTrue (P.SectorView.space space.old).tells → IfOk result (λ blocks. blocks ≡ extents_owned (lists_of volume.old (P.SectorView.space space.old).content).attribute_pairs id) }
    // Nothing else of it is changed.
    ensures rest { volume.new ≡ record volume.old { attributes = volume.new.attributes } }
    ensures bares { IsTrue (P.SectorView.space space.old).tells → OnOk result (ChangesAttributes (DropsAttributes id) volume.old volume.new (P.SectorView.space space.old).content (P.SectorView.space space.new).content) }
    ensures edits { Edits P.SectorView.space P.SectorView.follows (P.SectorView.space space.old).spare volume.old volume.new space.old space.new result }
    ensures takes { (names : List ℕ) → TakesAtMost most 266 (state_of names volume.old.attributes.file (P.SectorView.space space.old)) (state_of names volume.new.attributes.file (P.SectorView.space space.new)) }
    ensures frame { FollowsOn volume.old.attributes.file volume.new.attributes.file (P.SectorView.space space.old) (P.SectorView.space space.new) }
{
    drop_owned(
        alloc,
        &mut volume.attributes.file,
        &mut volume.attributes.desk,
        space,
        id,
        most,
    )
}
