//! What a scan needs beside the levels: how many nodes a fork has, the root's height, and the bits of the map.
ghost use Rattle.std.specs.Prelude.{◌≡◌, ◌≢◌, ◌<◌, ◌≤◌, ◌^◌, ◌*◌, ℕ, true, false, IsTrue, IfOk, length, slice_index_or, IfNone, IfSome, OnOk, ◌==◌, if◌then◌else◌};
ghost use Rattle.sector_disk.specs.Cause.{HasCause};
ghost use Rattle.flag_rows.specs.Bits.{bit_of};
ghost use Rattle.btree_node.specs.Node.{height_of};
ghost use Rattle.btree_file.specs.Frame.{ReadsSpace};
ghost use Rattle.fork_map.specs.Blocks.{fork_sectors};
ghost use Rattle.hfs_volume.specs.Content.{node_of_fork};
ghost use Rattle.fsck_scan.specs.Form.{as_found, IsWrongBit};

use crate::fork::{Fork, read_node};
use btree_node::Node;
use fsck_list::{Finding, Marks};
use hx_bytes::Failed;
use sector_disk::SectorView;

/// Reads the root of a tree and gives its height; a tree without a root has none.
#[tactic(auto, unfolding(btree_node::specs::Node::height_of))]
pub(crate) fn root_height<V: SectorView>(
    view: &mut V,
    fork: &Fork,
    root: u32,
    node: &mut Node,
) -> Result<u8, Failed>
    requires { fork.now.per_block ≤ 2 ^ 23 }
    ensures height { IsTrue (V.space view.old).tells → IfOk result (λ height. height ≡ (if root == 0 then 0 else height_of (node_of_fork (V.space view.old).content fork.now.limit (fork_sectors fork.now.extents.now fork.now.per_block) (length node.old) root))) }
    ensures value { IsTrue (V.space view.old).tells → OnOk result (root ≢ 0 → node.new ≡ node_of_fork (V.space view.old).content fork.now.limit (fork_sectors fork.now.extents.now fork.now.per_block) (length node.old) root) }
    ensures length { length node.new ≡ length node.old }
    ensures reads { ReadsSpace (V.space view.old) (V.space view.new) }
    ensures below { V.follows view.old view.new }
    ensures cause { HasCause (V.space view.old).faults (V.space view.new).faults result }
{
    if root == 0 {
        return Ok(0);
    }
    read_node(view, fork, root, node)?;
    Ok(node.bytes()[9])
}

/// Whether a node is marked.
fn is_marked(marks: &Marks, node: usize) -> bool
    ensures { length marks.now ≤ 2 ^ 32 → result ≡ slice_index_or marks.now node false }
{
    if node >= 4294967296 {
        return false;
    }
    marks.has(node as u32)
}

/// How many bytes of a map stand before the zeros at its end that are for no node.
fn bytes_for_nodes(bits: &[u8], marks: &Marks) -> usize
    ensures inside { result ≤ length bits.now }
    ensures rest { (n : ℕ) → 8 * result ≤ n → n < 8 * length bits.now → bit_of bits.now n ≡ slice_index_or marks.now n false }
{
    let nodes = marks.len();
    let mut count = bits.len();
    while count > 0 {
        if count - 1 < nodes / 8 + 1 {
            return count;
        }
        if bits[count - 1] != 0 {
            return count;
        }
        count -= 1;
    }
    count
}

/// The first bit of a map that isn't as the nodes are marked.
pub(crate) fn judge_map(id: u32, bits: &[u8], marks: &Marks) -> Option<Finding>
    requires id { id < 2 ^ 16 }
    requires few { length bits.now ≤ 2 ^ 48 }
    ensures fits { length marks.now ≤ 2 ^ 32 → IfNone result ((n : ℕ) → n < 8 * length bits.now → bit_of bits.now n ≡ slice_index_or marks.now n false) }
    ensures wrong { length marks.now ≤ 2 ^ 32 → IfSome result (λ finding. IsWrongBit id bits.now marks.now (as_found finding)) }
{
    let count = bytes_for_nodes(bits, marks);
    for n in 0..count * 8 {
        let set = flag_rows::bytes::bit(bits, n);
        let want = is_marked(marks, n);
        if set != want {
            return Some(Finding {
                rule: 7,
                place: id as u64 * 4294967296 + n as u64,
                found: set as u64,
                wanted: want as u64,
            });
        }
    }
    None
}
