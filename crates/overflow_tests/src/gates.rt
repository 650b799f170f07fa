//! What a call needs, looked up.
ghost use Rattle.std.specs.Prelude.{◌≡◌, ◌⊎◌, ◌<◌, ◌^◌, IsTrue, length};
ghost use Rattle.fork_map.specs.Blocks.{blocks_of};

use fork_map::ExtentList;

/// Whether a list has fewer than 2^32 blocks.
pub fn has_few_blocks(list: &ExtentList) -> bool
    ensures { IsTrue result → length (blocks_of list.now) < 2 ^ 32 }
{
    match list.block_at(0xFFFF_FFFF) {
        Some(_) => false,
        None => true,
    }
}

/// The kind of a fork as a key has it.
pub fn kind_of(of_resources: bool) -> u8
    ensures { (result ≡ 0) ⊎ (result ≡ 255) }
{
    if of_resources {
        return 255;
    }
    0
}
