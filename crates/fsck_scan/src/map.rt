//! The header node and the map nodes of a tree: the bytes of its map.
ghost use Rattle.std.specs.Prelude.{◌≡◌, ◌<◌, ◌≤◌, ◌-◌, ◌+◌, ◌*◌, ◌↔◌, ◌⊎◌, ◌++◌, ◌^◌, ℕ, [], pos, IsTrue, length, slice_index_or, slice_range, false, true, IfOk, IfNone, IfSome, IsErrOf, OnOk};
ghost use Rattle.hx_bytes.specs.declared.faults.Trouble.TheVariants.{Disk};
ghost use Rattle.sector_disk.specs.Cause.{Rose};
ghost use Rattle.btree_node.specs.Node.{IsNodeOf, record_count};
ghost use Rattle.btree_node.specs.TreeFile.{IsHeaderNode, map_record};
ghost use Rattle.btree_file.specs.Frame.{ReadsSpace};
ghost use Rattle.fork_map.specs.Blocks.{fork_sectors};
ghost use Rattle.hfs_volume.specs.Content.{node_of_fork};
ghost use Rattle.fsck_scan.specs.Map.{AreBlankPast, TakesHeader, TakesMap, HasMapRead, IsMap, IsNoMap};

use crate::fork::{Fork, read_node};
use btree_node::Node;
use fsck_list::Marks;
use hx_bytes::{OutOfMemory, Trouble};
use sector_disk::SectorView;

fn push_bytes(bits: &mut Vec<u8>, bytes: &[u8]) -> Result<(), OutOfMemory>
    ensures { OnOk result (bits.new.items ≡ bits.old.items ++ bytes.now) }
{
    bits.extend_from_slice(bytes)?;
    Ok(())
}

/// Adds the stretch of the map that stands in a header node, and says whether it is one.
#[tactic(auto, using(crate::proofs::Counts::count_is))]
fn take_header(node: &Node, bits: &mut Vec<u8>) -> Result<bool, OutOfMemory>
    ensures is { IfOk result (λ is. IsTrue is ↔ IsHeaderNode node.now) }
    ensures bits { IfOk result (λ is. IsTrue is → bits.new.items ≡ bits.old.items ++ slice_range node.now 248 (length node.now - 8)) }
    ensures few { IfOk result (λ _. length bits.new.items ≤ length bits.old.items + 32768) }
{
    if !node.check(1, 0) {
        return Ok(false);
    }
    if node.count() != 3 {
        return Ok(false);
    }
    let bytes = node.bytes();
    push_bytes(bits, &bytes[248..bytes.len() - 8])?;
    Ok(true)
}

/// Adds the stretch of the map that stands in a map node, and says whether it is one.
#[tactic(auto, using(crate::proofs::Counts::count_is))]
fn take_map(node: &Node, bits: &mut Vec<u8>) -> Result<bool, OutOfMemory>
    ensures is { IfOk result (λ is. IsTrue is ↔ (IsNodeOf (pos 2) 0 node.now × (0 < record_count node.now))) }
    ensures bits { IfOk result (λ is. IsTrue is → bits.new.items ≡ bits.old.items ++ map_record node.now) }
    ensures few { IfOk result (λ _. length bits.new.items ≤ length bits.old.items + 32768) }
{
    if !node.check(2, 0) {
        return Ok(false);
    }
    if node.count() == 0 {
        return Ok(false);
    }
    let _bytes = node.bytes();
    push_bytes(bits, node.item(0))?;
    Ok(true)
}

/// Reads the header node, marks it and takes its stretch of the map, or says that it is none.
fn read_first<V: SectorView>(
    view: &mut V,
    fork: &Fork,
    node: &mut Node,
    marks: &mut Marks,
    bits: &mut Vec<u8>,
) -> Result<bool, Trouble>
    requires blocks { fork.now.per_block ≤ 2 ^ 23 }
    requires no_bit { bits.old.items ≡ [] }
    ensures taken { IsTrue (V.space view.old).tells → IfOk result (λ taken. IsTrue taken → TakesHeader
        (λ n. node_of_fork (V.space view.old).content fork.now.limit (fork_sectors fork.now.extents.now fork.now.per_block) (length node.old) n)
        (length node.old) marks.old marks.new bits.new.items node.new) }
    ensures refused { IsTrue (V.space view.old).tells → IfOk result (λ taken. taken ≡ false → IsHeaderNode
        (node_of_fork (V.space view.old).content fork.now.limit (fork_sectors fork.now.extents.now fork.now.per_block) (length node.old) 0)
        → slice_index_or marks.old 0 true ≡ true) }
    ensures length { length node.new ≡ length node.old }
    ensures reads { ReadsSpace (V.space view.old) (V.space view.new) }
    ensures below { V.follows view.old view.new }
    ensures disk { IsErrOf result Disk → Rose (V.space view.old).faults (V.space view.new).faults }
    ensures few { IfOk result (λ _. length bits.new.items ≤ length bits.old.items + 32768) }
{
    read_node(view, fork, 0, node)?;
    let is_header = take_header(node, bits)?;
    if !is_header {
        return Ok(false);
    }
    let taken = marks.mark(0)?;
    Ok(taken)
}

/// Reads a map node, marks it and takes its stretch of the map, or says that it is none, or was marked.
fn read_next<V: SectorView>(
    view: &mut V,
    fork: &Fork,
    total: u32,
    n: u32,
    node: &mut Node,
    marks: &mut Marks,
    bits: &mut Vec<u8>,
) -> Result<bool, Trouble>
    requires blocks { fork.now.per_block ≤ 2 ^ 23 }
    ensures taken { IsTrue (V.space view.old).tells → IfOk result (λ taken. IsTrue taken → TakesMap
        (λ n. node_of_fork (V.space view.old).content fork.now.limit (fork_sectors fork.now.extents.now fork.now.per_block) (length node.old) n)
        total n marks.old marks.new bits.old.items bits.new.items node.new) }
    ensures refused { IsTrue (V.space view.old).tells → IfOk result (λ taken. taken ≡ false → (IsMap
        (λ n. node_of_fork (V.space view.old).content fork.now.limit (fork_sectors fork.now.extents.now fork.now.per_block) (length node.old) n)
        total n → ⊥) ⊎ ((slice_index_or marks.old n true ≡ true) × IsMap
        (λ n. node_of_fork (V.space view.old).content fork.now.limit (fork_sectors fork.now.extents.now fork.now.per_block) (length node.old) n)
        total n)) }
    ensures length { length node.new ≡ length node.old }
    ensures reads { ReadsSpace (V.space view.old) (V.space view.new) }
    ensures below { V.follows view.old view.new }
    ensures disk { IsErrOf result Disk → Rose (V.space view.old).faults (V.space view.new).faults }
    ensures few { IfOk result (λ _. length bits.new.items ≤ length bits.old.items + 32768) }
{
    if n >= total {
        return Ok(false);
    }
    read_node(view, fork, n, node)?;
    let is_map = take_map(node, bits)?;
    if !is_map {
        return Ok(false);
    }
    let taken = marks.mark(n)?;
    Ok(taken)
}

/// Reads the header node and the map nodes, marks each, and adds the bytes of the map to none. The first node that isn't what it must be
/// ends it, and so does a map node that comes twice.
pub(crate) fn read_map<V: SectorView>(
    view: &mut V,
    fork: &Fork,
    total: u32,
    node: &mut Node,
    marks: &mut Marks,
    bits: &mut Vec<u8>,
) -> Result<Option<u32>, Trouble>
    requires blocks { fork.now.per_block ≤ 2 ^ 23 }
    requires some { 0 < total }
    requires places { length marks.old ≤ total }
    requires unmarked { (n : ℕ) → n < length marks.old → slice_index_or marks.old n true ≡ false }
    requires no_bit { bits.old.items ≡ [] }
    requires blank { IsTrue (V.space view.old).tells → AreBlankPast (λ n. node_of_fork (V.space view.old).content fork.now.limit (fork_sectors fork.now.extents.now fork.now.per_block) (length node.old) n) (length marks.old) total }
    ensures read { IsTrue (V.space view.old).tells → IfOk result (λ wrong. IfNone wrong (HasMapRead
        (λ n. node_of_fork (V.space view.old).content fork.now.limit (fork_sectors fork.now.extents.now fork.now.per_block) (length node.old) n)
        (length node.old) total marks.old marks.new bits.new.items)) }
    ensures wrong { IsTrue (V.space view.old).tells → IfOk result (λ wrong. IfSome wrong (IsNoMap
        (λ n. node_of_fork (V.space view.old).content fork.now.limit (fork_sectors fork.now.extents.now fork.now.per_block) (length node.old) n) total)) }
    ensures length { length node.new ≡ length node.old }
    ensures reads { ReadsSpace (V.space view.old) (V.space view.new) }
    ensures below { V.follows view.old view.new }
    ensures disk { IsErrOf result Disk → Rose (V.space view.old).faults (V.space view.new).faults }
    ensures few { IfOk result (λ _. length bits.new.items ≤ 32768 * total + 32768) }
{
    let first = read_first(view, fork, node, marks, bits)?;
    if !first {
        return Ok(Some(0));
    }
    let mut next = node.links().0;
    for _read in 0..total {
        if next == 0 {
            return Ok(None);
        }
        let taken = read_next(view, fork, total, next, node, marks, bits)?;
        if !taken {
            return Ok(Some(next));
        }
        next = node.links().0;
    }
    Ok(None)
}
