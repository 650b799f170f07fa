//! What a volume has left.
ghost use Rattle.std.specs.Prelude.{◌≡◌, min, length};
ghost use Rattle.flag_rows.specs.Bits.{count_set};
ghost use Rattle.flag_rows.specs.Runs.{longest_of, runs_of};
ghost use Rattle.hfs_volume.specs.Weight.{gauge, tree_gauge};
ghost use Rattle.hfs_volume.specs.Content.{volume_of};
ghost use Rattle.sector_disk.specs.Lists.{Content};
ghost use Rattle.volume_base.specs.Room.{attributes_on, capacity_of, cost_on, free_in, gauge_now, room_on};
ghost use Rattle.volume_base.specs.Standing.{IsSettled};

use crate::volume::{Tree, Volume};
use fork_map::ExtentList;
use hfs_language::{Gauge, TreeGauge};
use hfs_volume::{Room, TreeCost};

/// Which blocks count as free.
#[derive(Clone, Copy)]
pub enum FreeBlocks {
    /// Each that isn't used.
    All,
    /// Of these, only those that aren't held for an undo.
    Takable,
}

/// No tree, with zeros for its numbers.
const NO_TREE: TreeCost = TreeCost {
    node_size: 0,
    depth: 0,
    records: 0,
    nodes: 0,
    unused: 0,
    map_bits: 0,
    extents: 0,
};

/// How many extents there are, or 4,294,967,295 where there are more.
pub fn count_extents(list: &ExtentList) -> u32
    ensures { result ≡ min (length list.now) 4294967295 }
{
    (list.len() as u64).min(0xFFFF_FFFF) as u32
}

/// The numbers of a tree that its growth and its load rest on.
fn tree_cost(tree: &Tree) -> TreeCost
    ensures { result ≡ cost_on tree.now.file }
{
    let shape = tree.file.shape();
    TreeCost {
        node_size: shape.node_size,
        depth: shape.depth,
        records: shape.leaf_records,
        nodes: shape.total,
        unused: shape.free,
        map_bits: tree.file.map_bits(),
        extents: count_extents(tree.file.fork()),
    }
}

/// The numbers of a tree that `df` tells.
fn tree_gauge(tree: &TreeCost) -> TreeGauge
    ensures { result ≡ tree_gauge tree.now }
{
    TreeGauge {
        depth: tree.depth,
        nodes: tree.nodes,
        unused: tree.unused,
    }
}

impl Volume {
    /// The numbers of the attributes file; where there is none, zeros.
    fn attributes_cost(&self) -> TreeCost
        ensures { result ≡ attributes_on self.now }
    {
        if self.header.attributes_fork.logical_size == 0 {
            return NO_TREE;
        }
        tree_cost(&self.attributes)
    }

    /// How many blocks are free.
    fn count_free(&self, free: FreeBlocks) -> u32
        ensures { result ≡ count_set (free_in free self.now.map) }
    {
        match free {
            FreeBlocks::All => self.map.count_all(),
            FreeBlocks::Takable => self.map.count_free(),
        }
    }

    /// The length of the longest run of free blocks.
    fn longest_free(&self, free: FreeBlocks) -> u32
        ensures { result ≡ longest_of (runs_of (free_in free self.now.map)) }
    {
        match free {
            FreeBlocks::All => self.map.longest_all(),
            FreeBlocks::Takable => self.map.longest(),
        }
    }

    /// What the volume has, where these blocks count as free.
    pub fn room(&self, free: FreeBlocks) -> Room
        ensures { result ≡ room_on free self.now }
    {
        Room {
            block: self.header.block_size,
            total: self.header.total_blocks,
            free: self.count_free(free),
            longest: self.longest_free(free),
            capacity: self.capacity,
            next_id: self.header.next_catalog_id,
            trees: [
                tree_cost(&self.extents),
                tree_cost(&self.catalog),
                self.attributes_cost(),
            ],
        }
    }

    /// The numbers that `df` tells, read of the volume.
    fn read_gauge(&self) -> Gauge
        ensures { result ≡ gauge_now self.now }
    {
        let room = self.room(FreeBlocks::All);
        let [extents, catalog, attributes] = room.trees;
        Gauge {
            block: room.block,
            total: room.total,
            free: room.free,
            longest: room.longest,
            capacity: room.capacity,
            trees: [
                tree_gauge(&extents),
                tree_gauge(&catalog),
                tree_gauge(&attributes),
            ],
        }
    }

    /// The numbers that `df` tells.
    pub fn gauge(&self) -> Gauge
        ensures numbers { result ≡ gauge_now self.now }
        // Between commands they are those of the content; a held block counts as free.
        ensures exact { (content : Content) → IsSettled self.now content → result ≡ gauge (capacity_of self.now) (volume_of content) }
    {
        self.read_gauge()
    }
}
