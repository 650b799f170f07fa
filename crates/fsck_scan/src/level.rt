//! One level of a tree: its nodes in order, each read once, and all their records.
ghost use Rattle.std.specs.Prelude.{◌≡◌, ◌<◌, ◌≤◌, ◌+◌, ◌∷◌, ◌++◌, ◌^◌, [], All, IsTrue, length, slice_index, IfOk, IfNone, IfSome, IsErrOf, OnOk};
ghost use Rattle.hx_bytes.specs.declared.faults.Trouble.TheVariants.{Disk};
ghost use Rattle.sector_disk.specs.Cause.{Rose};
ghost use Rattle.btree_file.specs.Frame.{ReadsSpace};
ghost use Rattle.fork_map.specs.Blocks.{fork_sectors};
ghost use Rattle.hfs_volume.specs.Content.{node_of_fork};
ghost use Rattle.fsck_scan.specs.Good.{IsGoodRecord};
ghost use Rattle.fsck_scan.specs.Level.{HasRead, FailsAt};

use crate::fork::{Fork, read_node};
use crate::look::{Fault, Place, look_at};
use btree_node::{KeyOrder, Node};
use fsck_list::Records;
use hx_bytes::{OutOfMemory, Trouble};
use sector_disk::SectorView;

/// A node of a level that is wrong: its place in the level, and what is wrong.
#[derive(Clone, Copy, Debug, PartialEq, Eq)]
pub struct WrongNode {
    pub at: usize,
    pub fault: Fault,
}

/// The node at a place, or 0 past the end.
fn node_at(nodes: &[u32], k: usize) -> u32
    ensures { result ≡ slice_index nodes.now k }
{
    if k < nodes.len() { nodes[k] } else { 0 }
}

/// The node before a place, or 0 before the first.
fn node_before(nodes: &[u32], k: usize) -> u32
    requires { k ≤ length nodes.now }
    ensures { result ≡ slice_index (0 ∷ nodes.now) k }
{
    if k == 0 { 0 } else { nodes[k - 1] }
}

pub(crate) fn push_end(ends: &mut Vec<usize>, end: usize) -> Result<(), OutOfMemory>
    ensures { OnOk result (ends.new.items ≡ ends.old.items ++ end ∷ []) }
{
    ends.push(end)?;
    Ok(())
}

/// Reads the nodes of a level in order, and adds their records to none, with the place where those of each node end. `names` are the records of the level above, one for each node, or
/// none for the root. The first node that is wrong ends it.
pub fn read_level<V: SectorView, K: KeyOrder>(
    view: &mut V,
    fork: &Fork,
    nodes: &[u32],
    names: &Records,
    height: u8,
    most: usize,
    node: &mut Node,
    records: &mut Records,
    ends: &mut Vec<usize>,
) -> Result<Option<WrongNode>, Trouble>
    requires blocks { fork.now.per_block ≤ 2 ^ 23 }
    requires no_record { records.old ≡ [] }
    requires no_end { ends.old.items ≡ [] }
    ensures read { IsTrue (V.space view.old).tells → IfOk result (λ wrong. IfNone wrong (HasRead K.is_key K.is_value K.cmp
        (λ n. node_of_fork (V.space view.old).content fork.now.limit (fork_sectors fork.now.extents.now fork.now.per_block) (length node.old) n)
        most height nodes.now names.now (length nodes.now) records.new ends.new.items)) }
    ensures wrong { IsTrue (V.space view.old).tells → IfOk result (λ wrong. IfSome wrong (λ one. FailsAt K.is_key K.is_value K.cmp
        (λ n. node_of_fork (V.space view.old).content fork.now.limit (fork_sectors fork.now.extents.now fork.now.per_block) (length node.old) n)
        most height nodes.now names.now one.at one.fault)) }
    ensures good { IfOk result (λ wrong. IfNone wrong (All (IsGoodRecord K.is_key K.is_value most height) records.new)) }
    ensures length { length node.new ≡ length node.old }
    ensures reads { ReadsSpace (V.space view.old) (V.space view.new) }
    ensures below { V.follows view.old view.new }
    ensures disk { IsErrOf result Disk → Rose (V.space view.old).faults (V.space view.new).faults }
{
    for k in 0..nodes.len() {
        read_node(view, fork, nodes[k], node)?;
        let place = Place {
            most,
            height,
            next: node_at(nodes, k + 1),
            back: node_before(nodes, k),
        };
        if let Some(fault) = look_at::<K>(node, &place, names, k, records)? {
            return Ok(Some(WrongNode { at: k, fault }));
        }
        push_end(ends, records.len())?;
    }
    Ok(None)
}
