//! The blocks and the edits of the extents file that data takes.
ghost use Rattle.std.specs.Prelude.{◌≡◌, ◌<◌, ◌≤◌, ◌+◌, ◌^◌};
ghost use Rattle.hfs_volume.specs.Cost.{overflow_records};
ghost use Rattle.hfs_volume.specs.Forks.{parts_for};
ghost use Rattle.hfs_volume.specs.Weight.{new_blocks_of, old_blocks_of, end_block, extents_edits};
ghost use Rattle.volume_cost.specs.Sizes.{data_put};

/// How many new blocks data takes, and how many old ones they replace. A file of `old_size` bytes has `new_size` bytes after
/// it, and the bytes from `from` up to `end` are new.
pub fn count_blocks(block: u32, old_size: u64, new_size: u64, from: u64, end: u64) -> (u64, u64)
    requires block { 0 < block }
    requires old_size { old_size ≤ 2 ^ 62 }
    requires new_size { new_size ≤ 2 ^ 62 }
    requires end { end ≤ 2 ^ 62 }
    ensures new { result.0 ≡ new_blocks_of block (data_put old_size new_size from end) }
    ensures old { result.1 ≡ old_blocks_of block (data_put old_size new_size from end) }
{
    let first = from.min(old_size) / block as u64;
    let behind = block_behind(block, old_size, new_size, from, end);
    let old = behind.min(blocks_of_bytes(block, old_size));
    (behind.saturating_sub(first), old.saturating_sub(first))
}

/// The place behind the last block that data makes anew.
fn block_behind(block: u32, old_size: u64, new_size: u64, from: u64, end: u64) -> u64
    requires block { 0 < block }
    requires new_size { new_size ≤ 2 ^ 62 }
    requires end { end ≤ 2 ^ 62 }
    ensures { result ≡ end_block block (data_put old_size new_size from end) }
{
    let _from = from;
    if old_size < new_size {
        return blocks_of_bytes(block, new_size);
    }
    blocks_of_bytes(block, end)
}

/// How many blocks so many bytes take.
fn blocks_of_bytes(block: u32, bytes: u64) -> u64
    requires block { 0 < block }
    requires bytes { bytes ≤ 2 ^ 62 }
    ensures { result ≡ parts_for bytes block }
{
    (bytes + block as u64 - 1) / block as u64
}

/// The edits of the extents file where a fork of so many extents gets new blocks from so many runs: its overflow records may
/// all go, and others come.
pub fn count_extents_edits(extents: u32, runs: u64, blocks: u64) -> u64
    requires { runs < 2 ^ 32 }
    ensures { result ≡ extents_edits extents runs blocks }
{
    if blocks == 0 {
        return 0;
    }
    count_overflow(extents as u64) + count_overflow(extents as u64 + 1 + runs)
}

/// How many overflow records a fork of so many extents has.
pub fn count_overflow(extents: u64) -> u64
    requires { extents ≤ 2 ^ 34 }
    ensures count { result ≡ overflow_records extents }
    ensures bound { result ≤ extents }
{
    (extents.saturating_sub(8) + 8 - 1) / 8
}
