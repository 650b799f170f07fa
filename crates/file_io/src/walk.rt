//! A walk over the sectors of a fork.
ghost use Rattle.std.specs.Prelude.{◌≡◌, ◌<◌, ◌≤◌, ◌+◌, ◌^◌, ℕ, length, slice_get, IsSome};
ghost use Rattle.fork_map.specs.Blocks.{blocks_of, sectors_of};
ghost use Rattle.file_io.specs.Walks.{StandsAt};

use fork_map::{Cursor, ExtentList};

/// A place in a fork from which its sectors are given one after another: the sectors that are left of one block, and a
/// cursor before the next one.
#[derive(Clone, Copy, Debug)]
pub struct Walk {
    at: Cursor,
    sector: u64,
    left: u32,
}

impl Walk {
    /// A walk before sector `n` of a fork, where it has one.
    pub fn before(fork: &ExtentList, per_block: u32, n: u64) -> Walk
        requires some { 0 < per_block }
        requires few { per_block ≤ 128 }
        ensures { n < length (sectors_of per_block (blocks_of fork.now)) → StandsAt fork.now per_block result n }
    {
        let per = per_block as u64;
        let mut at = fork.seek(n / per);
        match fork.next_block(&mut at) {
            Some(block) => Walk {
                at,
                sector: block * per + n % per,
                left: per_block - (n % per) as u32,
            },
            None => Walk {
                at,
                sector: 0,
                left: 0,
            },
        }
    }

    /// The sector before which the walk stands, and moves it behind this sector.
    pub fn next(&mut self, fork: &ExtentList, per_block: u32) -> Option<u64>
        requires some { 0 < per_block }
        requires few { per_block ≤ 128 }
        ensures sector { (n : ℕ) → StandsAt fork.now per_block self.old n → result ≡ slice_get (sectors_of per_block (blocks_of fork.now)) n }
        ensures moved { (n : ℕ) → StandsAt fork.now per_block self.old n → IsSome result → StandsAt fork.now per_block self.new (n + 1) }
    {
        if self.left == 0 {
            let mut at = self.at;
            match fork.next_block(&mut at) {
                Some(block) => {
                    *self = Walk {
                        at,
                        sector: block * per_block as u64,
                        left: per_block,
                    };
                }
                None => return None,
            }
        }
        let sector = self.sector;
        *self = Walk {
            at: self.at,
            sector: sector.wrapping_add(1),
            left: self.left - 1,
        };
        Some(sector)
    }
}
