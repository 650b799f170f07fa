//! The first files of a volume that comes into service: its header, and its three trees.
ghost use Rattle.std.specs.Prelude.{◌≤◌, ℕ, IsTrue, IfOk, OnOk, Contains};
ghost use Rattle.btree_edit.specs.Causes.{HasTroubleCause};
ghost use Rattle.jnl_format.specs.Recovery.{header_of_volume};
ghost use Rattle.hfs_volume.specs.Aside.{IsJournalSector};
ghost use Rattle.hfs_volume.specs.Content.{has_attributes};
ghost use Rattle.hfs_volume.specs.Forks.{attributes_id, catalog_id};
ghost use Rattle.volume_base.specs.Opening.{HasBegun, IsFileOf, IsServable};
ghost use Rattle.volume_base.specs.Service.{IsTreeInService};
ghost use Rattle.volume_header.specs.Header.{FitsHeader};
ghost use Rattle.volume_base.specs.Standing.{own_sectors_in};
ghost use Rattle.volume_base.specs.Touching.{Looks};

use crate::attaching::attach_extents;
use crate::header::read_volume_header;
use crate::opening::attach_special;
use crate::volume::Tree;
use hx_bytes::Trouble;
use sector_disk::SectorSpace;
use std::alloc::Global;
use volume_header::VolumeHeader;

/// The CNIDs of special files (TN1150, "Catalog Node IDs").
const CATALOG_FILE: u32 = 4;

const ATTRIBUTES_FILE: u32 = 8;

/// A header, and the extents overflow file that it names.
#[derive(Drop)]
pub struct Front {
    pub header: VolumeHeader,
    pub extents: Tree,
}

/// The catalog and the attributes file.
#[derive(Drop)]
pub struct Trees {
    pub catalog: Tree,
    pub attributes: Tree,
}

/// The header of a space, and the extents overflow file that it names.
pub(crate) fn attach_front<P: SectorSpace>(alloc: Global, space: &mut P) -> Result<Front, Trouble>
    requires servable { IsTrue (P.SectorView.space space.old).tells → IsServable (P.SectorView.space space.old).content }
    ensures begun { IfOk result (λ front. HasBegun (P.SectorView.space space.old) (P.SectorView.space space.new) front.header front.extents) }
    ensures fits { IfOk result (λ front. FitsHeader front.header) }
    ensures least { IfOk result (λ front. 512 ≤ front.header.block_size) }
    ensures most { IfOk result (λ front. front.header.block_size ≤ 65536) }
    ensures looks { Looks (λ at. Contains (own_sectors_in (P.SectorView.space space.old).content) at) (P.SectorView.space space.old) (P.SectorView.space space.new) }
    ensures below { P.SectorView.follows space.old space.new }
    ensures cause { HasTroubleCause (P.SectorView.space space.old).faults (P.SectorView.space space.new).faults result }
{
    let header = read_volume_header(space)?;
    let extents = attach_extents(alloc, space, &header)?;
    Ok(Front { header, extents })
}

/// The catalog and the attributes file of a space whose header and extents overflow file were read.
pub(crate) fn attach_trees<P: SectorSpace>(
    alloc: Global,
    space: &mut P,
    header: &VolumeHeader,
    extents: &mut Tree,
) -> Result<Trees, Trouble>
    requires least { 512 ≤ header.now.block_size }
    requires most { header.now.block_size ≤ 65536 }
    requires servable { IsTrue (P.SectorView.space space.old).tells → IsServable (P.SectorView.space space.old).content }
    requires closed { IsTrue (P.SectorView.space space.old).tells → (at : ℕ) → (P.SectorView.space space.old).closed at → IsJournalSector (P.SectorView.space space.old).content at }
    requires begun { HasBegun (P.SectorView.space space.old) (P.SectorView.space space.old) header.now extents.old }
    ensures begun { OnOk result (HasBegun (P.SectorView.space space.old) (P.SectorView.space space.new) header.now extents.new) }
    ensures catalog { IsTrue (P.SectorView.space space.old).tells → IfOk result (λ trees. IsFileOf catalog_id (header_of_volume (P.SectorView.space space.old).content).catalog_fork trees.catalog.file (P.SectorView.space space.old).content) }
    ensures attributes { IsTrue (P.SectorView.space space.old).tells → IsTrue (has_attributes (header_of_volume (P.SectorView.space space.old).content))
        → IfOk result (λ trees. IsFileOf attributes_id (header_of_volume (P.SectorView.space space.old).content).attributes_fork trees.attributes.file (P.SectorView.space space.old).content) }
    ensures service { IfOk result (λ trees. IsTreeInService trees.catalog (P.SectorView.space space.new) × IsTreeInService trees.attributes (P.SectorView.space space.new)) }
    ensures looks { Looks (λ at. Contains (own_sectors_in (P.SectorView.space space.old).content) at) (P.SectorView.space space.old) (P.SectorView.space space.new) }
    ensures below { P.SectorView.follows space.old space.new }
    ensures cause { HasTroubleCause (P.SectorView.space space.old).faults (P.SectorView.space space.new).faults result }
{
    let block = header.block_size;
    let catalog = attach_special(
        alloc,
        space,
        extents,
        CATALOG_FILE,
        &header.catalog_fork,
        block,
    )?;
    let attributes = attach_special(
        alloc,
        space,
        extents,
        ATTRIBUTES_FILE,
        &header.attributes_fork,
        block,
    )?;
    Ok(Trees {
        catalog,
        attributes,
    })
}
