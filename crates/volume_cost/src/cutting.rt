//! What a cut step costs.
ghost use Rattle.std.specs.Prelude.{◌≡◌, ◌≤◌, ◌+◌, ◌*◌, ◌^◌, min};
ghost use Rattle.hfs_volume.specs.Cost.{tree_at};
ghost use Rattle.hfs_volume.specs.Weight.{cut_load};
ghost use Rattle.hfs_volume.specs.Weight.{cut_cost as cost_of_cut};

use crate::room::{sectors_of_node, tree_in};
use crate::{CATALOG, EXTENTS};
use hfs_language::Refusal;
use hfs_volume::{Cost, Room};

/// The load of a step that cuts blocks from the end of a fork, or its refusal. It has no other refusal: its only edits are in
/// the extents file, whose keys have one length, so it needs no free node.
pub fn cut_cost(room: &Room) -> Cost
    ensures { result ≡ cost_of_cut room.now }
{
    let sectors = cut_sectors(room);
    if room.capacity < sectors {
        return Cost::Refused(Refusal::TooBig(sectors, room.capacity));
    }
    Cost::Load {
        sectors,
        grow: [0, 0, 0],
    }
}

/// The sectors that a cut step puts at most: the volume header, a catalog record in place, those of 32,768 blocks and eight
/// extents in the bitmap, and the nodes that one edit of the extents file writes.
fn cut_sectors(room: &Room) -> u64
    ensures { result ≡ cut_load room.now }
{
    let bitmap = ((room.total as u64 + 4096 - 1) / 4096).min(24);
    let nodes = cut_nodes(room);
    1 + sectors_of_node(room, CATALOG) as u64
        + bitmap
        + sectors_of_node(room, EXTENTS) as u64 * nodes
}

/// The nodes that one edit of the extents file writes at most.
fn cut_nodes(room: &Room) -> u64
    ensures count { result ≡ min (4 * ((tree_at room.now 0).depth + 1) + 4) (tree_at room.now 0).nodes }
    ensures bound { result ≤ 2 ^ 32 }
{
    let tree = tree_in(room, EXTENTS);
    (4 * (tree.depth as u64 + 1) + 4).min(tree.nodes as u64)
}
