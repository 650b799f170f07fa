//! The blocks of a list one after another, without a walk for each of them.
ghost use Rattle.std.specs.Prelude.{◌≡◌, ◌<◌, ◌+◌, ◌^◌, ℕ, slice_get, IsSome, IfSome};
ghost use Rattle.fork_map.specs.Blocks.{blocks_of};
ghost use Rattle.fork_map.specs.Cursors.{IsAt};

use crate::ExtentList;
use crate::place::find_place;

/// A place in a list of extents, from which its blocks are given one after another.
#[derive(Clone, Copy, Debug)]
pub struct Cursor {
    index: usize,
    offset: u32,
}

impl ExtentList {
    /// A cursor before the block at place `n`, or at the end where there is none.
    pub fn seek(&self, n: u64) -> Cursor
        ensures { IsAt self.now result n }
    {
        let place = find_place(self.as_slice(), n as u128);
        Cursor {
            index: place.index,
            offset: place.offset,
        }
    }

    /// The block before which a cursor stands, and moves it behind this block. A whole pass takes as many steps as
    /// there are extents and blocks.
    pub fn next_block(&self, at: &mut Cursor) -> Option<u64>
        ensures block { (n : ℕ) → IsAt self.now at.old n → result ≡ slice_get (blocks_of self.now) n }
        ensures moved { (n : ℕ) → IsAt self.now at.old n → IsSome result → IsAt self.now at.new (n + 1) }
        ensures bound { IfSome result (λ block. block < 2 ^ 33) }
    {
        let items = self.as_slice();
        let mut index = at.index;
        let mut offset = at.offset;
        while index < items.len() {
            let extent = items[index];
            if offset < extent.count {
                *at = Cursor {
                    index,
                    offset: offset + 1,
                };
                return Some(extent.start as u64 + offset as u64);
            }
            index += 1;
            offset = 0;
        }
        None
    }
}
