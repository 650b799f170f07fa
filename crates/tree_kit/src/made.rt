//! A tree file without a pair, written byte by byte (TN1150, "B-Trees").
use fork_map::ExtentList;
use sector_kit::Sectors;

/// What is written.
#[derive(Clone, Copy, Debug)]
pub struct Made {
    pub node_size: u32,
    pub block: u32,
    pub total: u32,
    /// They stand behind the header node.
    pub map_nodes: u32,
}

/// Writes bytes from a place of a fork on.
fn write(space: &mut Sectors, fork: &ExtentList, block: u32, at: u64, bytes: &[u8]) {
    let mut place = at;
    for byte in bytes {
        if let Some(sector) = fork.sector_at((block / 512).min(128), place / 512) {
            if let Some(bytes) = space.list.get_mut(sector as usize) {
                bytes[(place % 512) as usize] = *byte;
            }
        }
        place = place.wrapping_add(1);
    }
}

/// Where a byte of a node stands in its fork.
fn place_of(made: &Made, node: u32, at: u32) -> u64 {
    u64::from(node)
        .wrapping_mul(u64::from(made.node_size))
        .wrapping_add(u64::from(at))
}

/// A number of two bytes.
fn two(number: u32) -> [u8; 2] {
    [(number / 256 % 256) as u8, (number % 256) as u8]
}

/// Fills a node with zeros.
fn clear(space: &mut Sectors, fork: &ExtentList, made: &Made, node: u32) {
    for at in 0..made.node_size / 64 {
        let place = place_of(made, node, at.wrapping_mul(64));
        write(space, fork, made.block, place, &[0; 64]);
    }
}

/// Writes the header node: its descriptor, the header record, the bits of the reserved nodes and the offsets.
fn write_header(space: &mut Sectors, fork: &ExtentList, made: &Made) {
    let size = made.node_size;
    let taken = made.map_nodes.wrapping_add(1);
    let free = made.total.wrapping_sub(taken);
    let link = made.map_nodes.min(1);
    let block = made.block;
    clear(space, fork, made, 0);
    write(space, fork, block, 0, &link.to_be_bytes());
    write(space, fork, block, 8, &[1, 0, 0, 3]);
    write(space, fork, block, 32, &two(size));
    write(space, fork, block, 36, &made.total.to_be_bytes());
    write(space, fork, block, 40, &free.to_be_bytes());
    let bits = 0xFF00u32 >> taken.min(8);
    write(space, fork, block, 248, &[(bits % 256) as u8]);
    let offsets = [two(size.wrapping_sub(8)), two(248), two(120), two(14)];
    let mut at = size.wrapping_sub(8);
    for offset in offsets.iter() {
        write(space, fork, block, u64::from(at), offset.as_slice());
        at = at.wrapping_add(2);
    }
}

/// Writes a map node, which names the next one.
fn write_map_node(space: &mut Sectors, fork: &ExtentList, made: &Made, node: u32) {
    let next = if node < made.map_nodes {
        node.wrapping_add(1)
    } else {
        0
    };
    let size = made.node_size;
    let block = made.block;
    clear(space, fork, made, node);
    write(
        space,
        fork,
        block,
        place_of(made, node, 0),
        &next.to_be_bytes(),
    );
    write(space, fork, block, place_of(made, node, 8), &[2, 0, 0, 1]);
    let end = two(size.wrapping_sub(6));
    write(
        space,
        fork,
        block,
        place_of(made, node, size.wrapping_sub(4)),
        end.as_slice(),
    );
    write(
        space,
        fork,
        block,
        place_of(made, node, size.wrapping_sub(2)),
        &[0, 14],
    );
}

/// Writes the nodes of a tree without a pair. Free nodes are left as they are.
pub fn write_tree(space: &mut Sectors, fork: &ExtentList, made: &Made) {
    write_header(space, fork, made);
    for node in 1..made.map_nodes.saturating_add(1) {
        write_map_node(space, fork, made, node);
    }
}
