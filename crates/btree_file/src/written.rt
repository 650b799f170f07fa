//! Which nodes were written since the last commit.
ghost use Rattle.std.specs.Prelude.{◌≡◌, ◌≤◌, ◌↔◌, not, IsTrue};
ghost use Rattle.std.specs.List.{count_by, range_with_len};
ghost use Rattle.fork_map.specs.Blocks.{fork_sectors};
ghost use Rattle.btree_file.specs.Place.{sectors_at};
ghost use Rattle.btree_file.specs.State.{all_put};

use crate::counted::{counted_sector, first_in_block};
use fork_map::SummedFork;
use sector_disk::SectorSpace;

/// Whether each of the so many sectors of a node was put.
pub(crate) fn is_written<P: SectorSpace>(
    space: &P,
    fork: &SummedFork,
    per_block: u32,
    per_node: u32,
    node: u32,
) -> bool
    requires blocks { per_block ≤ 128 }
    ensures { result ≡ all_put (P.SectorView.space space.now).put (sectors_at (fork_sectors fork.now per_block) per_node node) }
{
    let first = first_in_block(fork, per_block, node as u64 * per_node as u64, per_node);
    for k in 0..per_node {
        let place = node as u64 * per_node as u64 + k as u64;
        let Some(at) = counted_sector(fork, per_block, place, first, k) else {
            return true;
        };
        if !space.is_put(at) {
            return false;
        }
    }
    true
}

/// Whether no more than `most` of the first `total` nodes weren't written.
pub(crate) fn are_few<P: SectorSpace>(
    space: &P,
    fork: &SummedFork,
    per_block: u32,
    per_node: u32,
    total: u32,
    most: u64,
) -> bool
    requires blocks { per_block ≤ 128 }
    ensures { IsTrue result ↔ count_by (λ n. not (all_put (P.SectorView.space space.now).put (sectors_at (fork_sectors fork.now per_block) per_node n))) (range_with_len 0 total) ≤ most }
{
    let mut count: u64 = 0;
    for node in 0..total {
        if !is_written(space, fork, per_block, per_node, node) {
            if count >= most {
                return false;
            }
            count += 1;
        }
    }
    true
}
