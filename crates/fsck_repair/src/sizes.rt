//! The sizes of the special files (rule 3), and how the catalog compares keys (rule 4).
ghost use Rattle.std.specs.Prelude.{◌≡◌, ◌↔◌, ◌≤◌, ◌*◌, MatchOption, IfOk, IsErrOf, IsTrue};
ghost use Rattle.hx_bytes.specs.declared.faults.Trouble.TheVariants.{Disk};
ghost use Rattle.sector_disk.specs.Cause.{Rose};
ghost use Rattle.jnl_format.specs.Recovery.{Content, header_of_volume};
ghost use Rattle.btree_node.specs.TreeFile.{TreeFile};
ghost use Rattle.btree_file.specs.Frame.{ReadsSpace};
ghost use Rattle.hfs_volume.specs.Blocks.{IsGoodHeader, HasTreeSize};
ghost use Rattle.hfs_volume.specs.Content.{facts_of, volume_of, overflow_of_content};
ghost use Rattle.fsck_scan.specs.Form.{head_in};
ghost use Rattle.fsck_core.specs.Overflows.{overflows_in};
ghost use Rattle.fsck_core.specs.Shown.{Shows};
ghost use Rattle.volume_repair.specs.Repair.{IsMendable};
ghost use Rattle.fsck_repair.specs.Counted.{Decides, HasAttributesSize, IsSizedCatalog, AreSized};

use fsck_core::{
    OverflowRow, judge_compare, judge_size, read_attributes_head, read_catalog_head,
    read_extents_head,
};
use fsck_list::Findings;
use fsck_scan::Head;
use hx_bytes::{ForkRecord, OutOfMemory, Trouble};
use sector_disk::SectorView;
use std::alloc::Global;
use volume_header::VolumeHeader;

/// The CNIDs of the special files that hold trees (TN1150, "Reserved Catalog Node IDs").
const EXTENTS_FILE: u32 = 3;

const CATALOG_FILE: u32 = 4;

const ATTRIBUTES_FILE: u32 = 8;

/// Whether a tree's file has whole blocks and whole nodes.
fn is_size(
    alloc: Global,
    id: u32,
    head: &VolumeHeader,
    fork: &ForkRecord,
    tree: &Head,
) -> Result<bool, OutOfMemory>
    ensures { (file : TreeFile) → head_in tree.now ≡ file.head → IfOk result (λ met. IsTrue met ↔ HasTreeSize head.now fork.now (facts_of file)) }
{
    let mut out = Findings::new(alloc);
    judge_size(id, head, fork, tree, &mut out)
}

/// Whether keys are compared as they are in `HX` volumes.
fn is_binary(alloc: Global, tree: &Head) -> Result<bool, OutOfMemory>
    ensures { (file : TreeFile) → head_in tree.now ≡ file.head → IfOk result (λ met. IsTrue met ↔ file.head.compare ≡ 0xBC) }
{
    let mut out = Findings::new(alloc);
    judge_compare(tree, &mut out)
}

/// Whether the extents overflow file has whole blocks and whole nodes.
fn has_extents_size<V: SectorView>(
    alloc: Global,
    view: &mut V,
    head: &VolumeHeader,
) -> Result<bool, Trouble>
    requires good { IsGoodHeader (V.space view.old).sectors head.now }
    ensures met { (content : Content) → Shows (V.space view.old) content → head.now ≡ header_of_volume content → IfOk result (Decides content (HasTreeSize (volume_of content).head (volume_of content).head.extents_fork (volume_of content).extents_tree)) }
    ensures reads { ReadsSpace (V.space view.old) (V.space view.new) }
    ensures below { V.follows view.old view.new }
    ensures disk { IsErrOf result Disk → Rose (V.space view.old).faults (V.space view.new).faults }
{
    let tree = read_extents_head(alloc, view, head)?;
    let met = is_size(alloc, EXTENTS_FILE, head, &head.extents_fork, &tree)?;
    Ok(met)
}

/// Whether the attributes file has whole blocks and whole nodes, where the volume has one.
fn has_attributes_size<V: SectorView>(
    alloc: Global,
    view: &mut V,
    head: &VolumeHeader,
    rows: &[OverflowRow],
) -> Result<bool, Trouble>
    requires good { IsGoodHeader (V.space view.old).sectors head.now }
    ensures met { (content : Content) → Shows (V.space view.old) content → head.now ≡ header_of_volume content → overflows_in rows.now ≡ overflow_of_content content → IfOk result (Decides content (HasAttributesSize content)) }
    ensures reads { ReadsSpace (V.space view.old) (V.space view.new) }
    ensures below { V.follows view.old view.new }
    ensures disk { IsErrOf result Disk → Rose (V.space view.old).faults (V.space view.new).faults }
{
    if head.attributes_fork.logical_size == 0 {
        return Ok(true);
    }
    let tree = read_attributes_head(alloc, view, head, rows)?;
    let met = is_size(alloc, ATTRIBUTES_FILE, head, &head.attributes_fork, &tree)?;
    Ok(met)
}

/// Reads the header record of the catalog file, if the file has whole blocks and whole nodes, and keys are compared as in `HX` volumes.
fn read_sized_catalog<V: SectorView>(
    alloc: Global,
    view: &mut V,
    head: &VolumeHeader,
    rows: &[OverflowRow],
) -> Result<Option<Head>, Trouble>
    requires good { IsGoodHeader (V.space view.old).sectors head.now }
    ensures found { (content : Content) → Shows (V.space view.old) content → head.now ≡ header_of_volume content → overflows_in rows.now ≡ overflow_of_content content → IfOk result (λ o. MatchOption o (¬ IsMendable content) (IsSizedCatalog content)) }
    ensures reads { ReadsSpace (V.space view.old) (V.space view.new) }
    ensures below { V.follows view.old view.new }
    ensures disk { IsErrOf result Disk → Rose (V.space view.old).faults (V.space view.new).faults }
{
    let tree = read_catalog_head(alloc, view, head, rows)?;
    let size = is_size(alloc, CATALOG_FILE, head, &head.catalog_fork, &tree)?;
    if !size {
        return Ok(None);
    }
    let compare = is_binary(alloc, &tree)?;
    if !compare {
        return Ok(None);
    }
    Ok(Some(tree))
}

/// Whether the allocation file has a bit for each block.
fn has_bits(head: &VolumeHeader) -> bool
    ensures { IsTrue result ↔ head.now.total_blocks ≤ 8 * head.now.allocation_fork.logical_size }
{
    (head.total_blocks as u64 + 7) / 8 <= head.allocation_fork.logical_size
}

/// Reads the header record of the catalog file, if the special files have the sizes that they say, and keys are compared as in `HX` volumes.
/// Bits behind those of blocks may be set.
pub(crate) fn read_sizes<V: SectorView>(
    alloc: Global,
    view: &mut V,
    head: &VolumeHeader,
    rows: &[OverflowRow],
) -> Result<Option<Head>, Trouble>
    requires good { IsGoodHeader (V.space view.old).sectors head.now }
    ensures found { (content : Content) → Shows (V.space view.old) content → head.now ≡ header_of_volume content → overflows_in rows.now ≡ overflow_of_content content → IfOk result (λ o. MatchOption o (¬ IsMendable content) (AreSized content)) }
    ensures reads { ReadsSpace (V.space view.old) (V.space view.new) }
    ensures below { V.follows view.old view.new }
    ensures disk { IsErrOf result Disk → Rose (V.space view.old).faults (V.space view.new).faults }
{
    if !has_bits(head) {
        return Ok(None);
    }
    let extents = has_extents_size(alloc, view, head)?;
    if !extents {
        return Ok(None);
    }
    let attributes = has_attributes_size(alloc, view, head, rows)?;
    if !attributes {
        return Ok(None);
    }
    read_sized_catalog(alloc, view, head, rows)
}
