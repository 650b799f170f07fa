//! A tree file made of what its fork holds.
ghost use Rattle.std.specs.Prelude.{◌≡◌, ◌≢◌, ◌<◌, ◌≤◌, ◌+◌, ◌*◌, ◌/◌, ◌↔◌, ℕ, [], IsTrue, length, IfOk, IsErrOf};
ghost use Rattle.hx_bytes.specs.declared.faults.Trouble.TheVariants.{Disk};
ghost use Rattle.btree_node.specs.Node.{IsNodeSize, is_node_size};
ghost use Rattle.btree_node.specs.TreeFile.{tree_head, shape_of};
ghost use Rattle.fork_map.specs.Nodes.{node_of};
ghost use Rattle.sector_disk.specs.Cause.{Rose};
ghost use Rattle.btree_file.specs.Frame.{ReadsSpace};
ghost use Rattle.btree_file.specs.Held.{HoldsNodes, file_in};
ghost use Rattle.btree_file.specs.Place.{IsInside, AreApart};
ghost use Rattle.fork_map.specs.Blocks.{fork_sectors};
ghost use Rattle.btree_file.specs.Standing.{Stands};
ghost use Rattle.btree_file.specs.State.{Agrees};

use crate::apart::sectors_differ;
use crate::putting::get_node;
use crate::reading::read_map;
use crate::tree::TreeFile;
use btree_node::{Node, TreeShape};
use fork_map::{ExtentList, SummedFork};
use hx_bytes::{OutOfMemory, Trouble};
use sector_disk::SectorView;
use std::alloc::Global;

/// Whether a node can have this size.
fn is_node_size(size: u32) -> bool
    ensures { result ≡ is_node_size size }
{
    size == 512
        || size == 1024
        || size == 2048
        || size == 4096
        || size == 8192
        || size == 16384
        || size == 32768
}

/// A tree file without a node.
fn empty(alloc: Global) -> Result<TreeFile, OutOfMemory>
    ensures { IfOk result (λ tree. tree.fork ≡ []) }
{
    let shape = TreeShape {
        node_size: 512,
        depth: 0,
        root: 0,
        first: 0,
        last: 0,
        leaf_records: 0,
        total: 0,
        free: 0,
    };
    Ok(TreeFile {
        shape,
        fork: SummedFork::new(alloc),
        per_block: 1,
        map: Vec::new(alloc),
        header: Node::new(alloc, 512)?,
        page: Node::new(alloc, 512)?,
        loads: 0,
    })
}

/// Whether a fork has so many sectors.
pub(crate) fn has_sectors(fork: &SummedFork, per_block: u32, count: u64) -> bool
    requires { per_block ≤ 128 }
    ensures { IsTrue result ↔ (count ≤ length (fork_sectors fork.now per_block)) }
{
    count == 0 || fork.sector_at(per_block, count - 1).is_some()
}

/// What the first sector of a fork says of its tree.
fn read_shape<V: SectorView>(
    alloc: Global,
    view: &mut V,
    fork: &SummedFork,
    per_block: u32,
) -> Result<TreeShape, Trouble>
    requires blocks { per_block ≤ 128 }
    requires inside { IsInside fork.now per_block (V.space view.old) }
    requires some { 1 ≤ length (fork_sectors fork.now per_block) }
    ensures long { IsTrue (V.space view.old).tells → IfOk result (λ shape. length (node_of (V.space view.old).content (fork_sectors fork.now per_block) 1 0) ≡ 512) }
    ensures value { IsTrue (V.space view.old).tells → IfOk result (λ shape. shape ≡ shape_of (file_in (fork_sectors fork.now per_block) (V.space view.old).content).head) }
    ensures reads { ReadsSpace (V.space view.old) (V.space view.new) }
    ensures below { V.follows view.old view.new }
    ensures disk { IsErrOf result Disk → Rose (V.space view.old).faults (V.space view.new).faults }
{
    let mut page = Node::new(alloc, 512)?;
    get_node(view, fork, per_block, 0, &mut page)?;
    Ok(page.shape())
}

/// Whether a fork has room for the nodes of this shape, of which there is one at least.
fn has_nodes(fork: &SummedFork, per_block: u32, shape: &TreeShape) -> bool
    requires { per_block ≤ 128 }
    ensures { IsTrue result ↔ (IsTrue (is_node_size shape.now.node_size) × (0 < shape.now.total) × (shape.now.free ≤ shape.now.total) × (shape.now.total * (shape.now.node_size / 512) ≤ length (fork_sectors fork.now per_block))) }
{
    let per = shape.node_size / 512;
    let count = u64::from(shape.total) * u64::from(per);
    is_node_size(shape.node_size)
        && shape.total > 0
        && shape.free <= shape.total
        && has_sectors(fork, per_block, count)
}

/// The tree in a fork of so many nodes whose sectors differ; one without a node where the header node or a map node is none.
fn read_tree<V: SectorView>(
    alloc: Global,
    view: &mut V,
    fork: SummedFork,
    per_block: u32,
    shape: &TreeShape,
) -> Result<TreeFile, Trouble>
    requires blocks { per_block ≤ 128 }
    requires inside { IsInside fork per_block (V.space view.old) }
    requires apart { AreApart (fork_sectors fork per_block) }
    requires size { IsTrue (is_node_size shape.now.node_size) }
    requires whole { shape.now.total * (shape.now.node_size / 512) ≤ length (fork_sectors fork per_block) }
    requires some { 0 < shape.now.total }
    requires free { shape.now.free ≤ shape.now.total }
    ensures agrees { IsTrue (V.space view.old).tells → length (node_of (V.space view.old).content (fork_sectors fork per_block) 1 0) ≡ 512 → shape.now ≡ shape_of (file_in (fork_sectors fork per_block) (V.space view.old).content).head
        → HoldsNodes (fork_sectors fork per_block) (file_in (fork_sectors fork per_block) (V.space view.old).content) → IfOk result (λ tree. Agrees tree (V.space view.old).content) }
    ensures settled { IsTrue (V.space view.old).tells → length (node_of (V.space view.old).content (fork_sectors fork per_block) 1 0) ≡ 512 → shape.now ≡ shape_of (file_in (fork_sectors fork per_block) (V.space view.old).content).head
        → HoldsNodes (fork_sectors fork per_block) (file_in (fork_sectors fork per_block) (V.space view.old).content) → IfOk result (λ tree. shape_of (tree_head tree.header) ≡ tree.shape) }
    ensures file { IsTrue (V.space view.old).tells → length (node_of (V.space view.old).content (fork_sectors fork per_block) 1 0) ≡ 512 → shape.now ≡ shape_of (file_in (fork_sectors fork per_block) (V.space view.old).content).head
        → HoldsNodes (fork_sectors fork per_block) (file_in (fork_sectors fork per_block) (V.space view.old).content) → IfOk result (λ tree. (tree.shape ≡ shape.now) × (tree.fork ≡ fork) × (tree.per_block ≡ per_block)) }
    ensures inside { IfOk result (λ tree. IsInside tree.fork tree.per_block (V.space view.old)) }
    ensures reads { ReadsSpace (V.space view.old) (V.space view.new) }
    ensures below { V.follows view.old view.new }
    ensures disk { IsErrOf result Disk → Rose (V.space view.old).faults (V.space view.new).faults }
{
    let mut header = Node::new(alloc, shape.node_size)?;
    let mut page = Node::new(alloc, shape.node_size)?;
    get_node(view, &fork, per_block, 0, &mut header)?;
    if !header.check(1, 0) {
        return Ok(empty(alloc)?);
    }
    if header.count() != 3 {
        return Ok(empty(alloc)?);
    }
    let found = read_map(
        alloc,
        view,
        &fork,
        per_block,
        shape.total,
        &header,
        &mut page,
    )?;
    let Some(map) = found else {
        return Ok(empty(alloc)?);
    };
    Ok(TreeFile {
        shape: *shape,
        fork,
        per_block,
        map,
        header,
        page,
        loads: 0,
    })
}

/// The tree in a fork; one without a node where no tree's nodes are there.
fn read_fork<V: SectorView>(
    alloc: Global,
    view: &mut V,
    fork: SummedFork,
    block: u32,
) -> Result<TreeFile, Trouble>
    requires small { 512 ≤ block }
    requires large { block ≤ 65536 }
    requires inside { IsInside fork (block / 512) (V.space view.old) }
    ensures agrees { IsTrue (V.space view.old).tells → AreApart (fork_sectors fork (block / 512)) → HoldsNodes (fork_sectors fork (block / 512)) (file_in (fork_sectors fork (block / 512)) (V.space view.old).content)
        → IfOk result (λ tree. Agrees tree (V.space view.old).content) }
    ensures settled { IsTrue (V.space view.old).tells → AreApart (fork_sectors fork (block / 512)) → HoldsNodes (fork_sectors fork (block / 512)) (file_in (fork_sectors fork (block / 512)) (V.space view.old).content)
        → IfOk result (λ tree. shape_of (tree_head tree.header) ≡ tree.shape) }
    ensures file { IsTrue (V.space view.old).tells → AreApart (fork_sectors fork (block / 512)) → HoldsNodes (fork_sectors fork (block / 512)) (file_in (fork_sectors fork (block / 512)) (V.space view.old).content)
        → IfOk result (λ tree. (tree.shape ≡ shape_of (file_in (fork_sectors fork (block / 512)) (V.space view.old).content).head) × (tree.fork ≡ fork) × (tree.per_block ≡ block / 512)) }
    ensures first { IsTrue (V.space view.old).tells → AreApart (fork_sectors fork (block / 512)) → HoldsNodes (fork_sectors fork (block / 512)) (file_in (fork_sectors fork (block / 512)) (V.space view.old).content)
        → IfOk result (λ tree. length (node_of (V.space view.old).content (fork_sectors fork (block / 512)) 1 0) ≡ 512) }
    ensures inside { IfOk result (λ tree. IsInside tree.fork tree.per_block (V.space view.old)) }
    ensures reads { ReadsSpace (V.space view.old) (V.space view.new) }
    ensures below { V.follows view.old view.new }
    ensures disk { IsErrOf result Disk → Rose (V.space view.old).faults (V.space view.new).faults }
{
    let per_block = block / 512;
    if !sectors_differ(fork.as_slice(), per_block) {
        return Ok(empty(alloc)?);
    }
    if !has_sectors(&fork, per_block, 1) {
        return Ok(empty(alloc)?);
    }
    let shape = read_shape(alloc, view, &fork, per_block)?;
    if !has_nodes(&fork, per_block, &shape) {
        return Ok(empty(alloc)?);
    }
    Ok(read_tree(alloc, view, fork, per_block, &shape)?)
}

impl TreeFile {
    /// The tree in a fork, in blocks of so many bytes; one without a node where no tree's nodes are there.
    pub fn attach<V: SectorView>(
        alloc: Global,
        view: &mut V,
        fork: &ExtentList,
        block: u32,
    ) -> Result<TreeFile, Trouble>
        requires small { 512 ≤ block }
        requires large { block ≤ 65536 }
        requires inside { IsInside fork.now (block / 512) (V.space view.old) }
        // Where the fork's sectors differ and hold the nodes of a tree, its file stands over the content.
        ensures stands { IsTrue (V.space view.old).tells → AreApart (fork_sectors fork.now (block / 512)) → HoldsNodes (fork_sectors fork.now (block / 512)) (file_in (fork_sectors fork.now (block / 512)) (V.space view.old).content)
            → IfOk result (λ tree. Stands tree (V.space view.old).content) }
        // Its numbers are those of the header record, in this fork.
        ensures file { IsTrue (V.space view.old).tells → AreApart (fork_sectors fork.now (block / 512)) → HoldsNodes (fork_sectors fork.now (block / 512)) (file_in (fork_sectors fork.now (block / 512)) (V.space view.old).content)
            → IfOk result (λ tree. (tree.shape ≡ shape_of (file_in (fork_sectors fork.now (block / 512)) (V.space view.old).content).head) × (tree.fork ≡ fork.now) × (tree.per_block ≡ block / 512)) }
        ensures inside { IfOk result (λ tree. IsInside tree.fork tree.per_block (V.space view.old)) }
        ensures reads { ReadsSpace (V.space view.old) (V.space view.new) }
        ensures below { V.follows view.old view.new }
        ensures disk { IsErrOf result Disk → Rose (V.space view.old).faults (V.space view.new).faults }
    {
        let own = SummedFork::copy_of(alloc, fork)?;
        read_fork(alloc, view, own, block)
    }
}
