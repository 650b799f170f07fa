//! The header records of the three trees' files.
ghost use Rattle.std.specs.Prelude.{◌≡◌, IfOk, IsErrOf};
ghost use Rattle.hx_bytes.specs.declared.faults.Trouble.TheVariants.{Disk};
ghost use Rattle.sector_disk.specs.Cause.{Rose};
ghost use Rattle.jnl_format.specs.Recovery.{Content, header_of_volume};
ghost use Rattle.btree_file.specs.Frame.{ReadsSpace};
ghost use Rattle.hfs_volume.specs.Blocks.{IsGoodHeader};
ghost use Rattle.hfs_volume.specs.Content.{overflow_of_content, catalog_file, extents_file, attributes_file};
ghost use Rattle.fsck_scan.specs.Form.{head_in};
ghost use Rattle.fsck_core.specs.Overflows.{overflows_in};
ghost use Rattle.fsck_core.specs.Shown.{Shows};

use crate::overflow::{OverflowRow, fork_extents};
use fsck_scan::{Head, read_tree_head};
use hx_bytes::Trouble;
use sector_disk::SectorView;
use std::alloc::Global;
use volume_header::VolumeHeader;

/// The CNIDs of the special files that hold trees (TN1150, "Reserved Catalog Node IDs").
const EXTENTS_FILE: u32 = 3;

const CATALOG_FILE: u32 = 4;

const ATTRIBUTES_FILE: u32 = 8;

const DATA: u8 = 0;

/// Reads the header record of the extents overflow file of a volume whose header keeps rule 1 (TN1150, "Header Record").
pub fn read_extents_head<V: SectorView>(
    alloc: Global,
    view: &mut V,
    head: &VolumeHeader,
) -> Result<Head, Trouble>
    requires good { IsGoodHeader (V.space view.old).sectors head.now }
    ensures value { (content : Content) → Shows (V.space view.old) content → head.now ≡ header_of_volume content → IfOk result (λ tree. head_in tree ≡ (extents_file content).head) }
    ensures reads { ReadsSpace (V.space view.old) (V.space view.new) }
    ensures below { V.follows view.old view.new }
    ensures disk { IsErrOf result Disk → Rose (V.space view.old).faults (V.space view.new).faults }
{
    let fork = fork_extents(alloc, &[], EXTENTS_FILE, DATA, &head.extents_fork)?;
    read_tree_head(alloc, view, &fork, head.block_size)
}

/// Reads the header record of the catalog file of a volume whose header keeps rule 1 and whose overflow records are these.
pub fn read_catalog_head<V: SectorView>(
    alloc: Global,
    view: &mut V,
    head: &VolumeHeader,
    rows: &[OverflowRow],
) -> Result<Head, Trouble>
    requires good { IsGoodHeader (V.space view.old).sectors head.now }
    ensures value { (content : Content) → Shows (V.space view.old) content → head.now ≡ header_of_volume content → overflows_in rows.now ≡ overflow_of_content content → IfOk result (λ tree. head_in tree ≡ (catalog_file content).head) }
    ensures reads { ReadsSpace (V.space view.old) (V.space view.new) }
    ensures below { V.follows view.old view.new }
    ensures disk { IsErrOf result Disk → Rose (V.space view.old).faults (V.space view.new).faults }
{
    let fork = fork_extents(alloc, rows, CATALOG_FILE, DATA, &head.catalog_fork)?;
    read_tree_head(alloc, view, &fork, head.block_size)
}

/// Reads the header record of the attributes file of a volume whose header keeps rule 1 and whose overflow records are these.
pub fn read_attributes_head<V: SectorView>(
    alloc: Global,
    view: &mut V,
    head: &VolumeHeader,
    rows: &[OverflowRow],
) -> Result<Head, Trouble>
    requires good { IsGoodHeader (V.space view.old).sectors head.now }
    ensures value { (content : Content) → Shows (V.space view.old) content → head.now ≡ header_of_volume content → overflows_in rows.now ≡ overflow_of_content content → IfOk result (λ tree. head_in tree ≡ (attributes_file content).head) }
    ensures reads { ReadsSpace (V.space view.old) (V.space view.new) }
    ensures below { V.follows view.old view.new }
    ensures disk { IsErrOf result Disk → Rose (V.space view.old).faults (V.space view.new).faults }
{
    let fork = fork_extents(alloc, rows, ATTRIBUTES_FILE, DATA, &head.attributes_fork)?;
    read_tree_head(alloc, view, &fork, head.block_size)
}
