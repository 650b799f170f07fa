//! Tree files that come into service.
ghost use Rattle.std.specs.Prelude.{◌≡◌, ◌≤◌, ◌/◌, true, IsTrue, IfOk};
ghost use Rattle.std.specs.List.{list_all};
ghost use Rattle.btree_edit.specs.Causes.{HasTroubleCause};
ghost use Rattle.btree_file.specs.Frame.{ReadsSpace};
ghost use Rattle.btree_file.specs.Held.{HoldsNodes, file_in};
ghost use Rattle.btree_file.specs.Place.{AreApart};
ghost use Rattle.fork_map.specs.Blocks.{fork_sectors};
ghost use Rattle.btree_file.specs.Standing.{Stands};
ghost use Rattle.jnl_format.specs.Recovery.{header_of_volume};
ghost use Rattle.hfs_volume.specs.Forks.{extents_id};
ghost use Rattle.volume_base.specs.Opening.{IsFileOf, IsServable, ends_inside};
ghost use Rattle.volume_base.specs.Service.{IsTreeInService};

use crate::extents::{extents_in_use, inside_or_none};
use crate::volume::Tree;
use btree_edit::Desk;
use btree_file::TreeFile;
use fork_map::ExtentList;
use hx_bytes::Trouble;
use sector_disk::SectorSpace;
use std::alloc::Global;
use volume_header::VolumeHeader;

/// The tree in these extents, in blocks of so many bytes; one without a node where no tree's nodes are there.
pub(crate) fn attach_tree<P: SectorSpace>(
    alloc: Global,
    space: &mut P,
    extents: ExtentList,
    block: u32,
) -> Result<Tree, Trouble>
    requires least { 512 ≤ block }
    requires most { block ≤ 65536 }
    ensures stands { IsTrue (P.SectorView.space space.old).tells → list_all (ends_inside (block / 512) (P.SectorView.space space.old).sectors) extents ≡ true → AreApart (fork_sectors extents (block / 512))
        → HoldsNodes (fork_sectors extents (block / 512)) (file_in (fork_sectors extents (block / 512)) (P.SectorView.space space.old).content)
        → IfOk result (λ tree. Stands tree.file (P.SectorView.space space.old).content × (tree.file.fork ≡ extents) × (tree.file.per_block ≡ block / 512)) }
    ensures service { IfOk result (λ tree. IsTreeInService tree (P.SectorView.space space.old)) }
    ensures reads { ReadsSpace (P.SectorView.space space.old) (P.SectorView.space space.new) }
    ensures below { P.SectorView.follows space.old space.new }
    ensures cause { HasTroubleCause (P.SectorView.space space.old).faults (P.SectorView.space space.new).faults result }
{
    let extents = inside_or_none(alloc, extents, block / 512, space.sectors());
    let file = TreeFile::attach(alloc, space, &extents, block)?;
    let desk = Desk::new(alloc, file.shape().node_size)?;
    Ok(Tree { file, desk })
}

/// The extents overflow file that a header names.
pub(crate) fn attach_extents<P: SectorSpace>(
    alloc: Global,
    space: &mut P,
    header: &VolumeHeader,
) -> Result<Tree, Trouble>
    requires least { 512 ≤ header.now.block_size }
    requires most { header.now.block_size ≤ 65536 }
    ensures file { IsTrue (P.SectorView.space space.old).tells → IsServable (P.SectorView.space space.old).content → header.now ≡ header_of_volume (P.SectorView.space space.old).content
        → IfOk result (λ tree. IsFileOf extents_id header.now.extents_fork tree.file (P.SectorView.space space.old).content) }
    ensures service { IfOk result (λ tree. IsTreeInService tree (P.SectorView.space space.old)) }
    ensures reads { ReadsSpace (P.SectorView.space space.old) (P.SectorView.space space.new) }
    ensures below { P.SectorView.follows space.old space.new }
    ensures cause { HasTroubleCause (P.SectorView.space space.old).faults (P.SectorView.space space.new).faults result }
{
    let extents = extents_in_use(alloc, &header.extents_fork.extents)?;
    attach_tree(alloc, space, extents, header.block_size)
}
