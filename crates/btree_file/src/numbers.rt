//! The numbers that a tree file keeps.
ghost use Rattle.std.specs.Prelude.{◌≡◌, ◌-◌, ◌^◌, min};
ghost use Rattle.btree_file.specs.Map.{bits_of};

use crate::tree::{Stretch, TreeFile};
use btree_node::TreeShape;
use fork_map::ExtentList;

/// How many bits the stretches of a map have, or the last value of the count.
fn count_bits(map: &[Stretch]) -> u64
    ensures { result ≡ min (bits_of map.now) (2 ^ 64 - 1) }
{
    let mut bits: u64 = 0;
    for stretch in map {
        bits = bits.saturating_add(8 * u64::from(stretch.len));
    }
    bits
}

impl TreeFile {
    /// The numbers of the header record.
    pub fn shape(&self) -> TreeShape
        ensures { result ≡ self.now.shape }
    {
        self.shape
    }

    /// The blocks of the file.
    pub fn fork(&self) -> &ExtentList
        ensures { result.now ≡ self.now.fork }
    {
        self.fork.list()
    }

    /// How many sectors of 512 bytes a block of the file has.
    pub fn per_block(&self) -> u32
        ensures { result ≡ self.now.per_block }
    {
        self.per_block
    }

    /// How many bits the map has, or 4,294,967,295 where there are more.
    pub fn map_bits(&self) -> u32
        ensures { result ≡ min (bits_of self.now.map.items) (2 ^ 32 - 1) }
    {
        count_bits(&self.map).min(0xFFFF_FFFF) as u32
    }
}
