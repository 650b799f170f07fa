//! The sectors of a fork from one place on, counted from the first where they lie in one block.
ghost use Rattle.std.specs.Prelude.{◌≡◌, ◌<◌, ◌≤◌, ◌+◌, ◌^◌, ℕ, Some, slice_get, IfSome};
ghost use Rattle.fork_map.specs.Blocks.{fork_sectors};

use fork_map::SummedFork;

/// The sector at a place of a fork, where so many from there on lie in one block: then they stand one behind the other.
pub(crate) fn first_in_block(
    fork: &SummedFork,
    per_block: u32,
    place: u64,
    many: u32,
) -> Option<u64>
    requires { per_block ≤ 128 }
    ensures following { IfSome result (λ first. (k : ℕ) → k < many → slice_get (fork_sectors fork.now per_block) (place + k) ≡ Some (first + k)) }
    ensures bound { IfSome result (λ first. first < 2 ^ 41) }
{
    if per_block == 0 {
        return None;
    }
    let before = place % per_block as u64;
    if before + many as u64 > per_block as u64 {
        return None;
    }
    match fork.block_at(place / per_block as u64) {
        Some(block) => Some(block * per_block as u64 + before),
        None => None,
    }
}

/// The sector at a place of a fork: the k-th behind `first`, where there is one, or else the one that the fork's blocks tell.
pub(crate) fn counted_sector(
    fork: &SummedFork,
    per_block: u32,
    place: u64,
    first: Option<u64>,
    k: u32,
) -> Option<u64>
    requires blocks { per_block ≤ 128 }
    requires bound { IfSome first (λ first. first < 2 ^ 41) }
    requires counted { IfSome first (λ first. slice_get (fork_sectors fork.now per_block) place ≡ Some (first + k)) }
    ensures { result ≡ slice_get (fork_sectors fork.now per_block) place }
{
    match first {
        Some(first) => Some(first + k as u64),
        None => fork.sector_at(per_block, place),
    }
}
