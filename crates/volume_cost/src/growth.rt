//! The nodes that edits of a tree may take, and by how many it grows where it has too few. The numbers are `u128`: edits of
//! a tree that is too deep may ask for more than a `u64` holds.
ghost use Rattle.std.specs.Prelude.{◌≡◌, ◌<◌, ◌≤◌, ◌+◌, ◌*◌, ◌^◌};
ghost use Rattle.hfs_volume.specs.Cost.{depth_of, rises, need, new_maps, whole_nodes, growth_for, growth};
ghost use Rattle.hfs_volume.specs.Forks.{parts_for};
ghost use Rattle.volume_cost.specs.Sizes.{IsWide};

use hfs_volume::TreeCost;

/// A quotient, rounded up.
pub fn quotient_up(size: u128, part: u128) -> u128
    requires some { 0 < part }
    requires small { size + part ≤ 2 ^ 127 }
    ensures { result ≡ parts_for size part }
{
    (size + part - 1) / part
}

/// The depth at which edits are counted.
pub fn counted_depth(tree: &TreeCost) -> u16
    ensures { result ≡ depth_of tree.now }
{
    tree.depth.max(1)
}

/// By how much so many edits can raise the root.
pub fn count_rises(key: u32, tree: &TreeCost, edits: u64) -> u64
    requires key { key ≤ 516 }
    requires wide { IsWide key tree.now }
    ensures { result ≡ rises key tree.now edits }
{
    let records = (tree.node_size - 16) / (key + 8);
    edits / (records as u64 - 2)
}

/// The free nodes that so many edits may take.
pub fn count_need(key: u32, tree: &TreeCost, edits: u64) -> u128
    requires key { key ≤ 516 }
    requires wide { IsWide key tree.now }
    requires few { edits ≤ 2 ^ 33 }
    ensures count { result ≡ need key tree.now edits }
    ensures bound { result ≤ 2 ^ 68 }
{
    let depth = counted_depth(tree) as u128;
    let rises = count_rises(key, tree, edits) as u128;
    edits as u128 * (depth + 2 + rises)
}

/// The map nodes that so many more nodes want.
pub fn count_maps(tree: &TreeCost, more: u128) -> u128
    requires size { 512 ≤ tree.now.node_size }
    requires small { more ≤ 2 ^ 100 }
    ensures { result ≡ new_maps tree.now more }
{
    let nodes = (tree.nodes as u128 + more).saturating_sub(tree.map_bits as u128);
    quotient_up(nodes, 8 * (tree.node_size as u128 - 20))
}

/// The nodes of a block, or one where a node has several blocks.
fn nodes_of_block(block: u32, tree: &TreeCost) -> u32
    requires { 512 ≤ tree.now.node_size }
    ensures count { result ≡ whole_nodes block tree.now }
    ensures bound { result ≤ block + 1 }
    ensures some { 0 < result }
{
    1u32.max(block / tree.node_size)
}

/// The number of nodes by which a tree grows that lacks some. Each number that doesn't suffice shows how many nodes are wanted
/// at least, so the next one that may suffice is found at once.
fn grow_for(block: u32, tree: &TreeCost, lacks: u128) -> u128
    requires size { 512 ≤ tree.now.node_size }
    requires some { 0 < lacks }
    requires small { lacks ≤ 2 ^ 68 }
    ensures growth { result ≡ growth_for block tree.now lacks }
    ensures bound { result ≤ 2 * lacks + 2 ^ 32 + block + 3 }
{
    let unit = nodes_of_block(block, tree) as u128;
    let nodes = tree.nodes as u128;
    let least = quotient_up(lacks.max(nodes / 4), unit);
    let end = least + nodes + lacks + 2;
    let mut units = least;
    while units < end {
        let more = units * unit;
        let wanted = lacks + count_maps(tree, more);
        if wanted <= more {
            return more;
        }
        units = quotient_up(wanted, unit);
    }
    0
}

/// The number of nodes by which a tree grows for so many edits.
pub fn count_growth(block: u32, key: u32, tree: &TreeCost, edits: u64) -> u128
    requires key { key ≤ 516 }
    requires wide { 0 < edits → IsWide key tree.now }
    requires few { edits ≤ 2 ^ 33 }
    ensures growth { result ≡ growth block key tree.now edits }
    ensures bound { result ≤ 2 * need key tree.now edits + 2 ^ 32 + block + 3 }
{
    if edits == 0 {
        return 0;
    }
    let lacks = count_need(key, tree, edits).saturating_sub(tree.unused as u128);
    if lacks == 0 {
        return 0;
    }
    grow_for(block, tree, lacks)
}
