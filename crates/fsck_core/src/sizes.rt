//! What the special files are like: the sizes of their forks (rule 3), and how the catalog compares keys (rule 4).
ghost use Rattle.std.specs.Prelude.{◌≡◌, ◌<◌, ◌-◌, ◌*◌, ◌/◌, ◌^◌, ◌∷◌, ◌++◌, [], min, IfOk};
ghost use Rattle.jnl_format.specs.Recovery.{Content};
ghost use Rattle.btree_node.specs.TreeFile.{TreeFile};
ghost use Rattle.hfs_volume.specs.Broken.{want, node_place, size_wants, file_wants, bits_behind};
ghost use Rattle.hfs_volume.specs.Content.{facts_of, volume_of};
ghost use Rattle.hfs_volume.specs.Forks.{catalog_id};
ghost use Rattle.fsck_scan.specs.Form.{head_in};
ghost use Rattle.fsck_core.specs.Judged.{Judged, AddsUnmet};
ghost use Rattle.fsck_core.specs.Files.{attributes_wants, bitmap_wants, HasSpecialHeads};

use crate::want::{Want, both, judge_wants};
use fsck_list::Findings;
use fsck_scan::Head;
use hx_bytes::{ForkRecord, OutOfMemory};
use volume_header::VolumeHeader;

/// The CNIDs of the special files (TN1150, "Reserved Catalog Node IDs").
const EXTENTS_FILE: u32 = 3;

const CATALOG_FILE: u32 = 4;

const ALLOCATION_FILE: u32 = 6;

const ATTRIBUTES_FILE: u32 = 8;

/// The place of the header record of the catalog file: node 0 of the tree with CNID 4.
const CATALOG_HEADER: u64 = 17_179_869_184;

/// Keys of the catalog are compared unit by unit (TN1150, "HFSX", `kHFSBinaryCompare`).
const BINARY_COMPARE: u64 = 0xBC;

fn product(one: u32, other: u32) -> u64
    ensures { result ≡ one * other }
{
    one as u64 * other as u64
}

/// Judges how the catalog compares keys: unit by unit, as `HX` volumes do.
pub fn judge_compare(tree: &Head, out: &mut Findings) -> Result<bool, OutOfMemory>
    ensures judged { (file : TreeFile) → head_in tree.now ≡ file.head → IfOk result (λ met. Judged 4 (want (node_place catalog_id 0) file.head.compare 0xBC ∷ []) out.old out.new met) }
    ensures each { (file : TreeFile) → head_in tree.now ≡ file.head → AddsUnmet 4 (want (node_place catalog_id 0) file.head.compare 0xBC ∷ []) out.old out.new }
{
    judge_wants(
        4,
        &[Want {
            place: CATALOG_HEADER,
            found: tree.compare as u64,
            wanted: BINARY_COMPARE,
        }],
        out,
    )
}

/// Judges the size of a tree's fork: its file has whole blocks and whole nodes.
pub fn judge_size(
    id: u32,
    head: &VolumeHeader,
    fork: &ForkRecord,
    tree: &Head,
    out: &mut Findings,
) -> Result<bool, OutOfMemory>
    ensures judged { (file : TreeFile) → head_in tree.now ≡ file.head → IfOk result (λ met. Judged 3 (size_wants id head.now fork.now (facts_of file)) out.old out.new met) }
    ensures each { (file : TreeFile) → head_in tree.now ≡ file.head → AddsUnmet 3 (size_wants id head.now fork.now (facts_of file)) out.old out.new }
{
    let blocks = product(fork.total_blocks, head.block_size);
    let nodes = product(tree.shape.total, tree.shape.node_size);
    judge_wants(
        3,
        &[
            Want {
                place: id as u64,
                found: fork.logical_size,
                wanted: blocks,
            },
            Want {
                place: id as u64,
                found: fork.logical_size,
                wanted: nodes,
            },
        ],
        out,
    )
}

/// Judges the size of the attributes file, where the volume has one.
fn judge_attributes_size(
    head: &VolumeHeader,
    tree: &Head,
    out: &mut Findings,
) -> Result<bool, OutOfMemory>
    ensures judged { (file : TreeFile) → head_in tree.now ≡ file.head → IfOk result (λ met. Judged 3 (attributes_wants head.now file) out.old out.new met) }
    ensures each { (file : TreeFile) → head_in tree.now ≡ file.head → AddsUnmet 3 (attributes_wants head.now file) out.old out.new }
{
    if head.attributes_fork.logical_size == 0 {
        return Ok(true);
    }
    judge_size(ATTRIBUTES_FILE, head, &head.attributes_fork, tree, out)
}

/// Judges the allocation file: it has a bit for each block, and so many are set behind those of blocks, where none is wanted.
fn judge_bitmap(head: &VolumeHeader, behind: u64, out: &mut Findings) -> Result<bool, OutOfMemory>
    ensures judged { IfOk result (λ met. Judged 3 (bitmap_wants head.now behind) out.old out.new met) }
    ensures each { AddsUnmet 3 (bitmap_wants head.now behind) out.old out.new }
{
    let size = head.allocation_fork.logical_size;
    let wanted = size.max((head.total_blocks as u64 + 7) / 8);
    judge_wants(
        3,
        &[
            Want {
                place: ALLOCATION_FILE as u64,
                found: size,
                wanted,
            },
            Want {
                place: ALLOCATION_FILE as u64,
                found: behind,
                wanted: 0,
            },
        ],
        out,
    )
}

/// Judges the attributes file and the allocation file.
fn judge_last_files(
    head: &VolumeHeader,
    attributes: &Head,
    behind: u64,
    out: &mut Findings,
) -> Result<bool, OutOfMemory>
    ensures judged { (file : TreeFile) → head_in attributes.now ≡ file.head → IfOk result (λ met. Judged 3 (attributes_wants head.now file ++ bitmap_wants head.now behind) out.old out.new met) }
    ensures each { (file : TreeFile) → head_in attributes.now ≡ file.head → AddsUnmet 3 (attributes_wants head.now file ++ bitmap_wants head.now behind) out.old out.new }
{
    let one = judge_attributes_size(head, attributes, out)?;
    let other = judge_bitmap(head, behind, out)?;
    Ok(both(other, one))
}

/// Judges all special files but that of overflow records.
fn judge_later_files(
    head: &VolumeHeader,
    catalog: &Head,
    attributes: &Head,
    behind: u64,
    out: &mut Findings,
) -> Result<bool, OutOfMemory>
    ensures judged { (tree file : TreeFile) → head_in catalog.now ≡ tree.head → head_in attributes.now ≡ file.head
        → IfOk result (λ met. Judged 3 (size_wants catalog_id head.now head.now.catalog_fork (facts_of tree) ++ (attributes_wants head.now file ++ bitmap_wants head.now behind)) out.old out.new met) }
    ensures each { (tree file : TreeFile) → head_in catalog.now ≡ tree.head → head_in attributes.now ≡ file.head
        → AddsUnmet 3 (size_wants catalog_id head.now head.now.catalog_fork (facts_of tree) ++ (attributes_wants head.now file ++ bitmap_wants head.now behind)) out.old out.new }
{
    let one = judge_size(CATALOG_FILE, head, &head.catalog_fork, catalog, out)?;
    let other = judge_last_files(head, attributes, behind, out)?;
    Ok(both(other, one))
}

/// Judges the special files of a volume with these header records and so many bits behind those of blocks (rule 3).
pub fn judge_files(
    head: &VolumeHeader,
    extents: &Head,
    catalog: &Head,
    attributes: &Head,
    behind: u64,
    out: &mut Findings,
) -> Result<bool, OutOfMemory>
    ensures judged { (content : Content) → HasSpecialHeads content head.now extents.now catalog.now attributes.now → behind ≡ min (bits_behind (volume_of content)) (2 ^ 64 - 1)
        → IfOk result (λ met. Judged 3 (file_wants (volume_of content)) out.old out.new met) }
    ensures each { (content : Content) → HasSpecialHeads content head.now extents.now catalog.now attributes.now → behind ≡ min (bits_behind (volume_of content)) (2 ^ 64 - 1)
        → AddsUnmet 3 (file_wants (volume_of content)) out.old out.new }
{
    let one = judge_size(EXTENTS_FILE, head, &head.extents_fork, extents, out)?;
    let other = judge_later_files(head, catalog, attributes, behind, out)?;
    Ok(both(other, one))
}
