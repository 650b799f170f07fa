//! All that changes in a volume whose counts were made anew.
ghost use Rattle.std.specs.Prelude.{◌≡◌, ℕ, true, length, IsTrue, IfOk, OnOk, IsErrOf};
ghost use Rattle.hx_bytes.specs.declared.faults.Trouble.TheVariants.{Disk};
ghost use Rattle.sector_disk.specs.Cause.{Rose};
ghost use Rattle.jnl_format.specs.Recovery.{Content};
ghost use Rattle.volume_header.specs.Refusal.{is_volume_size};
ghost use Rattle.btree_file.specs.Frame.{ReadsSpace};
ghost use Rattle.hfs_volume.specs.Blocks.{IsGoodHeader};
ghost use Rattle.fsck_core.specs.Shown.{Shows};
ghost use Rattle.fsck_repair.specs.Changing.{AreRight, IsSettled, Notes};
ghost use Rattle.fsck_repair.specs.Counted.{IsCounted, IsSkipped};
ghost use Rattle.fsck_repair.specs.Leaf.{IsCatalogSector};
ghost use Rattle.btree_node.specs.Node.{IsNodeSize};

use crate::bitmap::mend_bitmap;
use crate::counts::Counts;
use crate::header::{agrees, mend_headers};
use crate::leaves::mend_leaves;
use crate::mend::Change;
use crate::numbers::numbers_of;
use crate::skipped::Skipped;
use btree_node::Node;
use fsck_scan::Fork;
use hx_bytes::Trouble;
use sector_disk::SectorView;
use std::alloc::Global;

/// The sector of the header's copy in a volume of so many sectors, where that is to be written.
fn skipped_in(sectors: u64, counts: &Counts) -> Skipped
    requires size { is_volume_size sectors ≡ true }
    ensures { (content : Content) → sectors ≡ length content → IsCounted content counts.now → IsSkipped content result }
{
    if agrees(&counts.headers.head, &counts.headers.alternate) {
        return Skipped { copy: None };
    }
    Skipped {
        copy: Some(sectors - 2),
    }
}

/// Whether a node can have this size: a power of two from 512 to 32,768.
fn is_node_size(size: u32) -> bool
    ensures { IsTrue result → IsNodeSize size }
{
    size == 512
        || (size == 1024
            || (size == 2048
                || (size == 4096 || (size == 8192 || (size == 16384 || size == 32768)))))
}

/// Notes what changes in the leaves of the catalog. A catalog whose nodes have no size that nodes have is told as want of memory: one that keeps
/// its rules has one.
fn mend_catalog<V: SectorView>(
    alloc: Global,
    view: &mut V,
    counts: &Counts,
    skipped: Skipped,
    changes: &mut Vec<Change>,
) -> Result<(), Trouble>
    requires good { IsGoodHeader (V.space view.old).sectors counts.now.headers.head }
    ensures notes { (content : Content) → Shows (V.space view.old) content → IsCounted content counts.now → IsSkipped content skipped → OnOk result (Notes content (IsCatalogSector content) changes.old.items changes.new.items) }
    ensures reads { ReadsSpace (V.space view.old) (V.space view.new) }
    ensures below { V.follows view.old view.new }
    ensures disk { IsErrOf result Disk → Rose (V.space view.old).faults (V.space view.new).faults }
{
    let head = &counts.headers.head;
    let per_block = head.block_size / 512;
    let fork = Fork {
        extents: &counts.catalog,
        per_block,
        limit: head.total_blocks as u64 * per_block as u64,
    };
    let shape = counts.tree.shape;
    if !is_node_size(shape.node_size) {
        return Err(Trouble::Memory);
    }
    let mut node = Node::new(alloc, shape.node_size)?;
    mend_leaves(
        alloc,
        view,
        &fork,
        shape.first,
        shape.total,
        &mut node,
        &counts.entries,
        skipped,
        changes,
    )
}

/// The changes of the headers, of the allocation file and of the catalog.
pub(crate) fn all_changes<V: SectorView>(
    alloc: Global,
    view: &mut V,
    counts: &Counts,
) -> Result<Vec<Change>, Trouble>
    requires size { is_volume_size (V.space view.old).sectors ≡ true }
    requires good { IsGoodHeader (V.space view.old).sectors counts.now.headers.head }
    ensures changes { (content : Content) → Shows (V.space view.old) content → IsCounted content counts.now → IfOk result (λ changes. AreRight content changes.items × ((at : ℕ) → IsSettled content changes.items at)) }
    ensures reads { ReadsSpace (V.space view.old) (V.space view.new) }
    ensures below { V.follows view.old view.new }
    ensures disk { IsErrOf result Disk → Rose (V.space view.old).faults (V.space view.new).faults }
{
    let head = &counts.headers.head;
    let skipped = skipped_in(view.sectors(), counts);
    let numbers = numbers_of(head.total_blocks, &counts.entries, &counts.used);
    let mut changes = Vec::new(alloc);
    mend_headers(view, &counts.headers, numbers, &mut changes)?;
    mend_bitmap(
        view,
        &counts.allocation,
        head.block_size / 512,
        head.allocation_fork.logical_size,
        &counts.used,
        skipped,
        &mut changes,
    )?;
    mend_catalog(alloc, view, counts, skipped, &mut changes)?;
    Ok(changes)
}
