// The place of a block in a list of extents, and the two sides of a cut there.
ghost use Rattle.std.specs.Prelude.{◌≡◌, ◌<◌, ◌≤◌, ◌++◌, length, take, drop, slice_index_or};
ghost use Rattle.hx_bytes.specs.declared.extents.Extent.{Extent};
ghost use Rattle.fork_map.specs.Blocks.{blocks_of};
ghost use Rattle.fork_map.specs.Cut.{front, back, touch};

use hx_bytes::Extent;

/// A block of a list: its extent, and how many of that extent's blocks come before it.
#[derive(Clone, Copy, Debug)]
pub struct Place {
    pub index: usize,
    pub offset: u32,
}

/// Where the block at place `n` stands, or the end of the list where there is none.
pub fn find_place(items: &[Extent], n: u128) -> Place
    ensures within { result.index ≤ length items.now }
    ensures inside { (d : Extent) → result.index < length items.now → result.offset < (slice_index_or items.now result.index d).count }
    ensures front { front n items.now ≡ take result.index items.now ++ front result.offset (drop result.index items.now) }
    ensures back { back n items.now ≡ back result.offset (drop result.index items.now) }
{
    let mut left = n;
    for (index, extent) in items.iter().enumerate() {
        if left < extent.count as u128 {
            return Place {
                index,
                offset: left as u32,
            };
        }
        left -= extent.count as u128;
    }
    Place {
        index: items.len(),
        offset: 0,
    }
}

/// Whether an extent follows another at once, and the two counts make one.
pub fn touches(first: Extent, second: Extent) -> bool
    ensures { result ≡ touch first second }
{
    first.start as u64 + first.count as u64 == second.start as u64
        && (first.count as u64 + second.count as u64) < 0x1_0000_0000
}

/// How many blocks the extents have.
pub fn count_blocks(items: &[Extent]) -> u128
    ensures { result ≡ length (blocks_of items.now) }
{
    let mut count = 0;
    for extent in items {
        count += extent.count as u128;
    }
    count
}
