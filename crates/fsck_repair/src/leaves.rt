//! The leaves of the catalog, with what their records count.
ghost use Rattle.std.specs.Prelude.{◌≡◌, ◌≤◌, ◌<◌, ◌+◌, ◌*◌, ◌/◌, ◌^◌, ℕ, List, length, take, drop, slice_index, slice_get, Some, IsTrue, IfOk, OnOk, IsErrOf};
ghost use Rattle.hx_bytes.specs.declared.faults.Trouble.TheVariants.{Disk};
ghost use Rattle.fork_map.specs.Blocks.{fork_sectors};
ghost use Rattle.sector_disk.specs.Cause.{Rose, HasCause};
ghost use Rattle.jnl_format.specs.Recovery.{Content};
ghost use Rattle.btree_node.specs.Node.{IsNode, next_of};
ghost use Rattle.btree_file.specs.Frame.{ReadsSpace};
ghost use Rattle.hfs_volume.specs.Content.{node_of_fork};
ghost use Rattle.hfs_volume.specs.Records.{Placed};
ghost use Rattle.fsck_core.specs.Shown.{Shows};
ghost use Rattle.volume_repair.specs.Repair.{sector_mended, leaf_mended};
ghost use Rattle.fsck_repair.specs.Changing.{Notes};
ghost use Rattle.fsck_repair.specs.Counted.{AreEntriesOf, IsSkipped};
ghost use Rattle.fsck_repair.specs.Leaf.{IsGoodLeaf, IsPlainAt, IsOfNode, MendsNode, LiesInside, WasRead, AreLeaves, IsOfLeaves};

use crate::counts::Entries;
use crate::leaf::mended_leaf;
use crate::mend::Change;
use crate::noting::note;
use crate::right::is_right_leaf;
use crate::skipped::Skipped;
use btree_node::Node;
use fsck_scan::{Fork, read_node};
use hx_bytes::{OutOfMemory, Sector, Trouble};
use sector_disk::SectorView;
use std::alloc::Global;

/// A sector of a node's bytes.
fn sector_of(bytes: &[u8], k: usize) -> Sector
    requires { k * 512 + 512 ≤ length bytes.now }
    ensures { result ≡ take 512 (drop (512 * k) bytes.now) }
{
    let mut sector = [0; 512];
    sector.copy_from_slice(&bytes[k * 512..k * 512 + 512]);
    sector
}

/// Notes what changes in the sector at a place of a file, if the volume has it and it isn't skipped.
fn note_sector<V: SectorView>(
    view: &mut V,
    fork: &Fork,
    place: u64,
    new: &Sector,
    skipped: Skipped,
    changes: &mut Vec<Change>,
) -> Result<(), Trouble>
    requires blocks { fork.now.per_block ≤ 2 ^ 23 }
    ensures notes { (content : Content) → Shows (V.space view.old) content → IsSkipped content skipped
        → ((at : ℕ) → IsPlainAt content (fork_sectors fork.now.extents.now fork.now.per_block) place at → sector_mended content at ≡ new.now)
        → OnOk result (Notes content (IsPlainAt content (fork_sectors fork.now.extents.now fork.now.per_block) place) changes.old.items changes.new.items) }
    ensures reads { ReadsSpace (V.space view.old) (V.space view.new) }
    ensures below { V.follows view.old view.new }
    ensures disk { IsErrOf result Disk → Rose (V.space view.old).faults (V.space view.new).faults }
{
    let Some(at) = fork.extents.sector_at(fork.per_block, place) else {
        return Ok(());
    };
    if at >= view.sectors() {
        return Ok(());
    }
    if skipped.has(at) {
        return Ok(());
    }
    let mut old = [0; 512];
    view.get(at, &mut old)?;
    note(changes, at, &old, new)?;
    Ok(())
}

/// Notes what changes in the sectors of a node, of which these are the new bytes.
fn note_node<V: SectorView>(
    view: &mut V,
    fork: &Fork,
    node: u32,
    bytes: &[u8],
    skipped: Skipped,
    changes: &mut Vec<Change>,
) -> Result<(), Trouble>
    requires blocks { fork.now.per_block ≤ 2 ^ 23 }
    requires few { length bytes.now ≤ 2 ^ 16 }
    ensures notes { (content : Content) → Shows (V.space view.old) content → IsSkipped content skipped
        → MendsNode content (fork_sectors fork.now.extents.now fork.now.per_block) (length bytes.now / 512) node bytes.now
        → OnOk result (Notes content (IsOfNode content (fork_sectors fork.now.extents.now fork.now.per_block) (length bytes.now / 512) node) changes.old.items changes.new.items) }
    ensures reads { ReadsSpace (V.space view.old) (V.space view.new) }
    ensures below { V.follows view.old view.new }
    ensures disk { IsErrOf result Disk → Rose (V.space view.old).faults (V.space view.new).faults }
{
    let per_node = bytes.len() / 512;
    for k in 0..per_node {
        let new = sector_of(bytes, k);
        let place = node as u64 * per_node as u64 + k as u64;
        note_sector(view, fork, place, &new, skipped, changes)?;
    }
    Ok(())
}

/// Whether the sector at a place of a file is one of a block of the volume, if the file has one there.
fn is_inside(fork: &Fork, place: u64) -> bool
    requires { fork.now.per_block ≤ 2 ^ 23 }
    ensures { IsTrue result → (at : ℕ) → slice_get (fork_sectors fork.now.extents.now fork.now.per_block) place ≡ Some at → at < fork.now.limit }
{
    let Some(at) = fork.extents.sector_at(fork.per_block, place) else {
        return true;
    };
    at < fork.limit
}

/// Whether all sectors of a node are sectors of blocks of the volume.
fn lies_inside(fork: &Fork, n: u32, per_node: usize) -> bool
    requires blocks { fork.now.per_block ≤ 2 ^ 23 }
    requires few { per_node ≤ 2 ^ 16 }
    ensures { IsTrue result → LiesInside (fork_sectors fork.now.extents.now fork.now.per_block) per_node fork.now.limit n }
{
    for k in 0..per_node {
        if !is_inside(fork, n as u64 * per_node as u64 + k as u64) {
            return false;
        }
    }
    true
}

/// Whether a leaf is known to stay as it is: its records say already what they count, and it has no sector behind the volume's blocks.
fn stays_as_it_is(
    alloc: Global,
    fork: &Fork,
    n: u32,
    node: &Node,
    entries: &Entries,
) -> Result<bool, OutOfMemory>
    requires blocks { fork.now.per_block ≤ 2 ^ 23 }
    requires well_formed { IsNode node.now }
    ensures inside { IfOk result (λ stays. IsTrue stays → LiesInside (fork_sectors fork.now.extents.now fork.now.per_block) (length node.now / 512) fork.now.limit n) }
    ensures right { (records : List Placed) → AreEntriesOf records entries.now → IsGoodLeaf node.now → IfOk result (λ stays. IsTrue stays → leaf_mended records node.now ≡ node.now) }
{
    if !lies_inside(fork, n, node.bytes().len() / 512) {
        return Ok(false);
    }
    let right = is_right_leaf(alloc, node, entries)?;
    Ok(right)
}

/// Notes what changes in a leaf that was read.
fn mend_read<V: SectorView>(
    alloc: Global,
    view: &mut V,
    fork: &Fork,
    n: u32,
    node: &Node,
    entries: &Entries,
    skipped: Skipped,
    changes: &mut Vec<Change>,
) -> Result<(), Trouble>
    requires blocks { fork.now.per_block ≤ 2 ^ 23 }
    requires well_formed { IsNode node.now }
    ensures notes { (content : Content) (records : List Placed) → Shows (V.space view.old) content → IsSkipped content skipped → AreEntriesOf records entries.now
        → WasRead content fork.now.limit (fork_sectors fork.now.extents.now fork.now.per_block) n node.now → IsGoodLeaf node.now
        → MendsNode content (fork_sectors fork.now.extents.now fork.now.per_block) (length node.now / 512) n (leaf_mended records node.now)
        → OnOk result (Notes content (IsOfNode content (fork_sectors fork.now.extents.now fork.now.per_block) (length node.now / 512) n) changes.old.items changes.new.items) }
    ensures reads { ReadsSpace (V.space view.old) (V.space view.new) }
    ensures below { V.follows view.old view.new }
    ensures disk { IsErrOf result Disk → Rose (V.space view.old).faults (V.space view.new).faults }
{
    let stays = stays_as_it_is(alloc, fork, n, node, entries)?;
    if stays {
        return Ok(());
    }
    let bytes = mended_leaf(alloc, node.bytes(), entries)?;
    note_node(view, fork, n, &bytes, skipped, changes)
}

/// Notes what changes in a leaf, and gives the next one; 0 is none. What is no leaf is told as want of memory: a catalog that keeps its rules
/// has none.
fn mend_node<V: SectorView>(
    alloc: Global,
    view: &mut V,
    fork: &Fork,
    n: u32,
    node: &mut Node,
    entries: &Entries,
    skipped: Skipped,
    changes: &mut Vec<Change>,
) -> Result<u32, Trouble>
    requires blocks { fork.now.per_block ≤ 2 ^ 23 }
    ensures notes { (content : Content) (records : List Placed) → Shows (V.space view.old) content → IsSkipped content skipped → AreEntriesOf records entries.now
        → IsGoodLeaf (node_of_fork content fork.now.limit (fork_sectors fork.now.extents.now fork.now.per_block) (length node.old) n)
        → MendsNode content (fork_sectors fork.now.extents.now fork.now.per_block) (length node.old / 512) n (leaf_mended records (node_of_fork content fork.now.limit (fork_sectors fork.now.extents.now fork.now.per_block) (length node.old) n))
        → OnOk result (Notes content (IsOfNode content (fork_sectors fork.now.extents.now fork.now.per_block) (length node.old / 512) n) changes.old.items changes.new.items) }
    ensures next { (content : Content) → Shows (V.space view.old) content → IfOk result (λ next. next ≡ next_of (node_of_fork content fork.now.limit (fork_sectors fork.now.extents.now fork.now.per_block) (length node.old) n)) }
    ensures size { length node.new ≡ length node.old }
    ensures reads { ReadsSpace (V.space view.old) (V.space view.new) }
    ensures below { V.follows view.old view.new }
    ensures disk { IsErrOf result Disk → Rose (V.space view.old).faults (V.space view.new).faults }
{
    read_node(view, fork, n, node)?;
    if !node.check(-1, 1) {
        return Err(Trouble::Memory);
    }
    mend_read(alloc, view, fork, n, node, entries, skipped, changes)?;
    Ok(node.links().0)
}

/// Notes what changes in the leaves of a catalog with so many nodes, from this leaf on. More leaves than nodes are told as want of memory: a
/// catalog that keeps its rules has none.
pub(crate) fn mend_leaves<V: SectorView>(
    alloc: Global,
    view: &mut V,
    fork: &Fork,
    first: u32,
    total: u32,
    node: &mut Node,
    entries: &Entries,
    skipped: Skipped,
    changes: &mut Vec<Change>,
) -> Result<(), Trouble>
    requires blocks { fork.now.per_block ≤ 2 ^ 23 }
    ensures notes { (content : Content) (records : List Placed) (leaves : List ℕ) → Shows (V.space view.old) content → IsSkipped content skipped → AreEntriesOf records entries.now → first ≡ slice_index leaves 0
        → AreLeaves content (fork_sectors fork.now.extents.now fork.now.per_block) (λ n. node_of_fork content fork.now.limit (fork_sectors fork.now.extents.now fork.now.per_block) (length node.old) n) (length node.old / 512) records leaves
        → OnOk result (Notes content (IsOfLeaves content (fork_sectors fork.now.extents.now fork.now.per_block) (length node.old / 512) leaves (length leaves)) changes.old.items changes.new.items) }
    ensures reads { ReadsSpace (V.space view.old) (V.space view.new) }
    ensures below { V.follows view.old view.new }
    ensures disk { IsErrOf result Disk → Rose (V.space view.old).faults (V.space view.new).faults }
{
    let mut next = first;
    for _read in 0..total {
        if next == 0 {
            return Ok(());
        }
        next = mend_node(alloc, view, fork, next, node, entries, skipped, changes)?;
    }
    if next == 0 {
        return Ok(());
    }
    Err(Trouble::Memory)
}
