//! What edits of one tree of a volume take: whether the tree is too deep for them, the nodes by which it grows, their blocks, and
//! the sectors that are put.
ghost use Rattle.std.specs.Prelude.{◌≡◌, ◌<◌, ◌≤◌, ◌+◌, ◌*◌, ◌/◌, ◌^◌, IsTrue, false};
ghost use Rattle.hfs_volume.specs.Cost.{tree_at, growth, need, blocks_of_nodes, takes_extent, tree_load, is_too_deep, node_sectors};
ghost use Rattle.hfs_volume.specs.Cost.{growth_writes as writes_of_growth};
ghost use Rattle.volume_cost.specs.Sizes.{IsWide};

use crate::growth::{count_growth, count_maps, count_rises, counted_depth};
use hfs_volume::{Room, TreeCost};

/// The tree at a place: extents, catalog, attributes.
pub fn tree_in(room: &Room, place: usize) -> TreeCost
    requires { place < 3 }
    ensures { result ≡ tree_at room.now place }
{
    room.trees[place]
}

/// The number of nodes by which a tree grows for so many edits.
pub fn growth_at(room: &Room, place: usize, key: u32, edits: u64) -> u128
    requires place { place < 3 }
    requires key { key ≤ 516 }
    requires wide { 0 < edits → IsWide key (tree_at room.now place) }
    requires few { edits ≤ 2 ^ 33 }
    ensures growth { result ≡ growth room.now.block key (tree_at room.now place) edits }
    ensures bound { result ≤ 2 * need key (tree_at room.now place) edits + 2 ^ 32 + room.now.block + 3 }
    ensures none { edits ≡ 0 → result ≡ 0 }
{
    count_growth(room.block, key, &tree_in(room, place), edits)
}

/// How many edits of the extents file the growth of a tree asks for: one where its file has eight extents.
pub fn extents_taken(room: &Room, place: usize, more: u128) -> u64
    requires { place < 3 }
    ensures count { result ≡ takes_extent (tree_at room.now place) more }
    ensures bound { result ≤ 1 }
{
    let tree = tree_in(room, place);
    if more != 0 && tree.extents >= 8 { 1 } else { 0 }
}

/// The blocks of so many nodes.
pub fn blocks_at(room: &Room, place: usize, more: u128) -> u128
    requires place { place < 3 }
    requires block { 512 ≤ room.now.block }
    requires small { more ≤ 2 ^ 80 }
    requires size { 0 < more → (tree_at room.now place).node_size ≤ 32768 }
    ensures count { result ≡ blocks_of_nodes room.now.block (tree_at room.now place) more }
    ensures bound { result ≤ 64 * more }
{
    more * tree_in(room, place).node_size as u128 / room.block as u128
}

/// Whether so many edits may be too many for a tree.
pub fn is_deep(room: &Room, place: usize, key: u32, edits: u64) -> bool
    requires place { place < 3 }
    requires key { key ≤ 516 }
    requires wide { 0 < edits → IsWide key (tree_at room.now place) }
    requires few { edits ≤ 2 ^ 33 }
    ensures deep { result ≡ is_too_deep key (tree_at room.now place) edits }
    // The nodes that the edits may take of a tree that isn't.
    ensures need { result ≡ false → need key (tree_at room.now place) edits ≤ 12 * edits }
{
    if edits == 0 {
        return false;
    }
    let tree = tree_in(room, place);
    let depth = counted_depth(&tree) as u64;
    let rises = count_rises(key, &tree, edits);
    if tree.depth >= 8 {
        return true;
    }
    if depth + 1 + rises > 11 {
        return true;
    }
    tree.records as u64 + edits > 4294967295
}

/// The sectors of a node.
pub fn sectors_of_node(room: &Room, place: usize) -> u32
    requires { place < 3 }
    ensures count { result ≡ node_sectors (tree_at room.now place) }
    ensures bound { result ≤ 2 ^ 23 }
{
    tree_in(room, place).node_size / 512
}

/// The sectors that edits and growth of a tree put at most.
pub fn load_at(room: &Room, place: usize, key: u32, edits: u64, more: u128) -> u128
    requires place { place < 3 }
    requires key { key ≤ 516 }
    requires wide { 0 < edits → IsWide key (tree_at room.now place) }
    requires few { edits ≤ 2 ^ 33 }
    requires none { edits ≡ 0 → more ≡ 0 }
    requires small { more ≤ 2 ^ 80 }
    ensures load { result ≡ tree_load key (tree_at room.now place) edits more }
    ensures bound { result ≤ 64 * (2 ^ 32 + more) }
{
    if edits == 0 {
        return 0;
    }
    let tree = tree_in(room, place);
    let depth = counted_depth(&tree) as u128;
    let rises = count_rises(key, &tree, edits) as u128;
    let writes = edits as u128 * (4 * (depth + 2 + rises) + 4);
    let most = tree.nodes as u128 + more;
    sectors_of_node(room, place) as u128 * (writes + growth_writes(&tree, more)).min(most)
}

/// The nodes that are written where a tree grows: the header, one more, and the new map nodes.
fn growth_writes(tree: &TreeCost, more: u128) -> u128
    requires size { 512 ≤ tree.now.node_size }
    requires small { more ≤ 2 ^ 80 }
    ensures count { result ≡ writes_of_growth tree.now more }
    ensures bound { result ≤ 2 ^ 90 }
{
    if more == 0 {
        return 0;
    }
    let _nodes = tree.nodes;
    2 + count_maps(tree, more)
}
