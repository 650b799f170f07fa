//! A tree file: the numbers of its header record, its fork, and where its map stands.
ghost use Rattle.std.specs.Prelude.{◌≡◌, length};
ghost use Rattle.btree_file.specs.Place.{IsFile};

use btree_node::{Node, TreeShape};
use fork_map::SummedFork;

/// A stretch of the map: a node, the place of the first of its bytes there, and how many there are.
#[derive(Clone, Copy, Debug, PartialEq, Eq)]
pub struct Stretch {
    pub node: u32,
    pub at: u32,
    pub len: u32,
}

/// The tree in a fork, as its header record says.
#[derive(Drop)]
pub struct TreeFile {
    pub(crate) shape: TreeShape,
    pub(crate) fork: SummedFork,
    /// Sectors of a block.
    pub(crate) per_block: u32,
    /// The map's stretches, the header node's first.
    pub(crate) map: Vec<Stretch>,
    /// The header node.
    pub(crate) header: Node,
    /// A node that is worked on.
    pub(crate) page: Node,
    pub(crate) loads: u64,
    pub ghost page_long: { length page ≡ shape.node_size },
    pub ghost long: { length header ≡ shape.node_size },
    pub ghost kept: { IsFile shape fork per_block map.items },
}
