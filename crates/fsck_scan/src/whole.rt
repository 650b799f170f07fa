//! A tree in a fork, read whole: its records, or the first finding.
ghost use Rattle.std.specs.Prelude.{◌≡◌, ◌<◌, ◌≤◌, ◌+◌, ◌-◌, ◌*◌, ◌⊎◌, ◌^◌, ℕ, [], length, map, slice_index_or, false, IsTrue, IfOk, IfNone, IfSome, IsErrOf};
ghost use Rattle.std.specs.List.{count_by, range_with_len};
ghost use Rattle.hx_bytes.specs.declared.faults.Trouble.TheVariants.{Disk};
ghost use Rattle.fork_map.specs.Blocks.{blocks_of, fork_sectors};
ghost use Rattle.flag_rows.specs.Bits.{bit_of, count_set};
ghost use Rattle.sector_disk.specs.Cause.{Rose};
ghost use Rattle.jnl_format.specs.Recovery.{Content};
ghost use Rattle.btree_node.specs.Levels.{leaves as leaf_pairs};
ghost use Rattle.btree_node.specs.Node.{IsNodeSize};
ghost use Rattle.btree_node.specs.TreeFile.{TreeFile, tree_head};
ghost use Rattle.btree_file.specs.Frame.{ReadsSpace};
ghost use Rattle.hfs_volume.specs.Content.{node_of_fork, tree_of_fork};
ghost use Rattle.hfs_volume.specs.Broken.{IsBrokenTree, IsUnmet, form_wants, is_in_use, levels_in, leaves_in};
ghost use Rattle.fsck_scan.specs.Form.{as_found, form_in, head_in, tree_at, FitsForm, FitsLeaves, IsWrongBit};
ghost use Rattle.fsck_scan.specs.Map.{AreBlankPast};
ghost use Rattle.fsck_scan.specs.Scan.{HasNodes, HasBegun, HasAllLevels, IsScanned};

use crate::fork::{Fork, read_node};
use crate::form::{Form, Head, failed, judge_head, judge_leaves, judge_root, read_head};
use crate::map::read_map;
use crate::scan::{judge_map, root_height};
use crate::tree::{Level, read_levels};
use btree_node::{KeyOrder, Node};
use fsck_list::{Finding, Marks};
use hx_bytes::{Extent, OutOfMemory, Trouble};
use sector_disk::SectorView;
use std::alloc::Global;

/// How many blocks extents have.
fn count_blocks(extents: &[Extent]) -> u128
    ensures blocks { result ≡ length (blocks_of extents.now) }
    ensures few { result ≤ 2 ^ 32 * length extents.now }
{
    let mut count = 0;
    for extent in extents {
        count += extent.count as u128;
    }
    count
}

/// How many nodes stand in a fork, wholly or in part, of those that the header record counts: those behind are zeros.
fn nodes_there(fork: &Fork, head: &Head) -> u32
    requires blocks { fork.now.per_block ≤ 2 ^ 23 }
    requires size { IsNodeSize head.now.shape.node_size }
    ensures few { result ≤ head.now.shape.total }
    ensures blank { (content : Content) → AreBlankPast (λ n. node_of_fork content fork.now.limit (fork_sectors fork.now.extents.now fork.now.per_block) head.now.shape.node_size n) result head.now.shape.total }
{
    let blocks = count_blocks(fork.extents.as_slice());
    let sectors = blocks * fork.per_block as u128;
    let nodes = sectors.div_ceil((head.shape.node_size / 512) as u128);
    nodes.min(head.shape.total as u128) as u32
}

/// Reads the header record of the tree in a fork.
pub(crate) fn find_head<V: SectorView>(
    alloc: Global,
    view: &mut V,
    fork: &Fork,
) -> Result<Head, Trouble>
    requires { fork.now.per_block ≤ 2 ^ 23 }
    ensures head { IsTrue (V.space view.old).tells → IfOk result (λ head. head_in head ≡ tree_head (node_of_fork (V.space view.old).content fork.now.limit (fork_sectors fork.now.extents.now fork.now.per_block) 512 0)) }
    ensures few { IfOk result (λ head. head.shape.total ≤ 2 ^ 32) }
    ensures reads { ReadsSpace (V.space view.old) (V.space view.new) }
    ensures below { V.follows view.old view.new }
    ensures disk { IsErrOf result Disk → Rose (V.space view.old).faults (V.space view.new).faults }
{
    let mut first = Node::new(alloc, 512)?;
    read_node(view, fork, 0, &mut first)?;
    Ok(read_head(&first))
}

/// Reads the levels of a tree from its root on, whose bytes these are; a tree without a root has none.
fn read_all<V: SectorView, K: KeyOrder>(
    alloc: Global,
    view: &mut V,
    fork: &Fork,
    form: &Form,
    total: u32,
    height: u8,
    root: u32,
    node: &mut Node,
    marks: &mut Marks,
    level: &mut Level,
) -> Result<Option<Finding>, Trouble>
    requires blocks { fork.now.per_block ≤ 2 ^ 23 }
    requires id { form.now.id < 2 ^ 16 }
    requires empty { height ≡ 0 → root ≡ 0 }
    requires no_node { level.old.nodes.items ≡ [] }
    requires no_record { level.old.records ≡ [] }
    requires no_end { level.old.ends.items ≡ [] }
    ensures right { IsTrue (V.space view.old).tells → (tree : TreeFile) → HasNodes tree
        (λ n. node_of_fork (V.space view.old).content fork.now.limit (fork_sectors fork.now.extents.now fork.now.per_block) (length node.old) n)
        (length node.old) total → HasBegun K.is_key K.is_value K.cmp tree (length node.old) total height root marks.old node.old
        → IfOk result (λ wrong. IfNone wrong (HasAllLevels K.is_key K.is_value K.cmp tree marks.new level.new.nodes.items level.new.records)) }
    ensures wrong { IsTrue (V.space view.old).tells → (tree : TreeFile) → HasNodes tree
        (λ n. node_of_fork (V.space view.old).content fork.now.limit (fork_sectors fork.now.extents.now fork.now.per_block) (length node.old) n)
        (length node.old) total → HasBegun K.is_key K.is_value K.cmp tree (length node.old) total height root marks.old node.old
        → IfOk result (λ wrong. IfSome wrong (λ finding. IsBrokenTree (form_in form.now) K.is_key K.is_value K.cmp form.now.id tree (as_found finding))) }
    ensures reads { ReadsSpace (V.space view.old) (V.space view.new) }
    ensures below { V.follows view.old view.new }
    ensures disk { IsErrOf result Disk → Rose (V.space view.old).faults (V.space view.new).faults }
{
    if height == 0 {
        return Ok(None);
    }
    read_levels::<V, K>(
        alloc, view, fork, form, total, height, root, node, marks, level,
    )
}

/// Judges what all nodes say: the last numbers of the header record, and the bits of the map.
fn judge_end(form: &Form, head: &Head, bits: &[u8], marks: &Marks, level: &Level) -> Option<Finding>
    requires id { form.now.id < 2 ^ 16 }
    requires few { length bits.now ≤ 2 ^ 48 }
    ensures fits { IfNone result (FitsLeaves head.now level.now.nodes.items (length level.now.records) (head.now.shape.total - count_set marks.now)) }
    ensures bits { length marks.now ≤ 2 ^ 32 → IfNone result ((n : ℕ) → n < 8 * length bits.now → bit_of bits.now n ≡ slice_index_or marks.now n false) }
    ensures wrong { length marks.now ≤ 2 ^ 32 → IfSome result (λ finding. (tree : TreeFile) → tree.head ≡ head_in head.now → leaves_in tree ≡ level.now.nodes.items
        → length (leaf_pairs tree.nodes tree.head.root (levels_in tree)) ≡ length level.now.records → count_by (is_in_use tree) (range_with_len 0 tree.head.total) ≡ count_set marks.now
        → IsUnmet 4 (as_found finding) (form_wants (form_in form.now) form.now.id tree) ⊎ IsWrongBit form.now.id bits.now marks.now (as_found finding)) }
{
    if let Some(finding) = judge_leaves(
        form,
        head,
        &level.nodes,
        level.records.len(),
        marks.count(),
    ) {
        return Some(finding);
    }
    judge_map(form.id, bits, marks)
}

/// Judges a tree whose map was read: the map's size and the root's height, the levels, and what all nodes say.
fn scan_levels<V: SectorView, K: KeyOrder>(
    alloc: Global,
    view: &mut V,
    fork: &Fork,
    form: &Form,
    head: &Head,
    height: u8,
    bits: &[u8],
    node: &mut Node,
    marks: &mut Marks,
    level: &mut Level,
) -> Result<Option<Finding>, Trouble>
    requires blocks { fork.now.per_block ≤ 2 ^ 23 }
    requires id { form.now.id < 2 ^ 16 }
    requires few { length bits.now ≤ 2 ^ 48 }
    requires total { head.now.shape.total ≤ 2 ^ 32 }
    requires fits { FitsForm form.now head.now }
    requires no_node { level.old.nodes.items ≡ [] }
    requires no_record { level.old.records ≡ [] }
    requires no_end { level.old.ends.items ≡ [] }
    ensures right { IsTrue (V.space view.old).tells
        → HasBegun K.is_key K.is_value K.cmp (tree_at (V.space view.old).content fork.now.limit (fork_sectors fork.now.extents.now fork.now.per_block) (length node.old) head.now) (length node.old) head.now.shape.total height head.now.shape.root marks.old node.old
        → bits.now ≡ (tree_at (V.space view.old).content fork.now.limit (fork_sectors fork.now.extents.now fork.now.per_block) (length node.old) head.now).map
        → IfOk result (λ wrong. IfNone wrong (IsScanned (form_in form.now) K.is_key K.is_value K.cmp form.now.id
        (tree_at (V.space view.old).content fork.now.limit (fork_sectors fork.now.extents.now fork.now.per_block) (length node.old) head.now) level.new.records)) }
    ensures wrong { IsTrue (V.space view.old).tells
        → HasBegun K.is_key K.is_value K.cmp (tree_at (V.space view.old).content fork.now.limit (fork_sectors fork.now.extents.now fork.now.per_block) (length node.old) head.now) (length node.old) head.now.shape.total height head.now.shape.root marks.old node.old
        → bits.now ≡ (tree_at (V.space view.old).content fork.now.limit (fork_sectors fork.now.extents.now fork.now.per_block) (length node.old) head.now).map
        → IfOk result (λ wrong. IfSome wrong (λ finding. IsBrokenTree (form_in form.now) K.is_key K.is_value K.cmp form.now.id
        (tree_at (V.space view.old).content fork.now.limit (fork_sectors fork.now.extents.now fork.now.per_block) (length node.old) head.now) (as_found finding))) }
    ensures reads { ReadsSpace (V.space view.old) (V.space view.new) }
    ensures below { V.follows view.old view.new }
    ensures disk { IsErrOf result Disk → Rose (V.space view.old).faults (V.space view.new).faults }
{
    if let Some(finding) = judge_root(form, head, height, bits.len()) {
        return Ok(Some(finding));
    }
    if let Some(finding) = read_all::<V, K>(
        alloc,
        view,
        fork,
        form,
        head.shape.total,
        height,
        head.shape.root,
        node,
        marks,
        level,
    )? {
        return Ok(Some(finding));
    }
    Ok(judge_end(form, head, bits, marks, level))
}

/// Reads the nodes of the tree with this header record, each once, and takes the records of its leaves, or gives the first finding.
fn scan_nodes<V: SectorView, K: KeyOrder>(
    alloc: Global,
    view: &mut V,
    fork: &Fork,
    form: &Form,
    head: &Head,
    level: &mut Level,
) -> Result<Option<Finding>, Trouble>
    requires blocks { fork.now.per_block ≤ 2 ^ 23 }
    requires id { form.now.id < 2 ^ 16 }
    requires size { IsNodeSize head.now.shape.node_size }
    requires total { head.now.shape.total ≤ 2 ^ 32 }
    requires fits { FitsForm form.now head.now }
    requires no_node { level.old.nodes.items ≡ [] }
    requires no_record { level.old.records ≡ [] }
    requires no_end { level.old.ends.items ≡ [] }
    ensures right { IsTrue (V.space view.old).tells → IfOk result (λ wrong. IfNone wrong (IsScanned (form_in form.now) K.is_key K.is_value K.cmp form.now.id
        (tree_at (V.space view.old).content fork.now.limit (fork_sectors fork.now.extents.now fork.now.per_block) head.now.shape.node_size head.now) level.new.records)) }
    ensures wrong { IsTrue (V.space view.old).tells → IfOk result (λ wrong. IfSome wrong (λ finding. IsBrokenTree (form_in form.now) K.is_key K.is_value K.cmp form.now.id
        (tree_at (V.space view.old).content fork.now.limit (fork_sectors fork.now.extents.now fork.now.per_block) head.now.shape.node_size head.now) (as_found finding))) }
    ensures reads { ReadsSpace (V.space view.old) (V.space view.new) }
    ensures below { V.follows view.old view.new }
    ensures disk { IsErrOf result Disk → Rose (V.space view.old).faults (V.space view.new).faults }
{
    let there = nodes_there(fork, head);
    let mut marks = Marks::new(alloc, there)?;
    let mut node = Node::new(alloc, head.shape.node_size)?;
    let mut bits = Vec::new(alloc);
    if let Some(wrong) = read_map(
        view,
        fork,
        head.shape.total,
        &mut node,
        &mut marks,
        &mut bits,
    )? {
        return Ok(Some(failed(5, form.id, wrong)));
    }
    let height = root_height(view, fork, head.shape.root, &mut node)?;
    scan_levels::<V, K>(
        alloc, view, fork, form, head, height, &bits, &mut node, &mut marks, level,
    )
}

/// Reads a tree whole: each of its nodes once, whatever its links are. Takes the records of its leaves, or gives the first finding.
pub(crate) fn scan<V: SectorView, K: KeyOrder>(
    alloc: Global,
    view: &mut V,
    fork: &Fork,
    form: &Form,
    level: &mut Level,
) -> Result<Option<Finding>, Trouble>
    requires blocks { fork.now.per_block ≤ 2 ^ 23 }
    requires id { form.now.id < 2 ^ 16 }
    requires no_node { level.old.nodes.items ≡ [] }
    requires no_record { level.old.records ≡ [] }
    requires no_end { level.old.ends.items ≡ [] }
    ensures right { IsTrue (V.space view.old).tells → IfOk result (λ wrong. IfNone wrong (IsScanned (form_in form.now) K.is_key K.is_value K.cmp form.now.id
        (tree_of_fork (V.space view.old).content fork.now.limit (fork_sectors fork.now.extents.now fork.now.per_block)) level.new.records)) }
    ensures wrong { IsTrue (V.space view.old).tells → IfOk result (λ wrong. IfSome wrong (λ finding. IsBrokenTree (form_in form.now) K.is_key K.is_value K.cmp form.now.id
        (tree_of_fork (V.space view.old).content fork.now.limit (fork_sectors fork.now.extents.now fork.now.per_block)) (as_found finding))) }
    ensures reads { ReadsSpace (V.space view.old) (V.space view.new) }
    ensures below { V.follows view.old view.new }
    ensures disk { IsErrOf result Disk → Rose (V.space view.old).faults (V.space view.new).faults }
{
    let head = find_head(alloc, view, fork)?;
    if let Some(finding) = judge_head(form, &head) {
        return Ok(Some(finding));
    }
    scan_nodes::<V, K>(alloc, view, fork, form, &head, level)
}
