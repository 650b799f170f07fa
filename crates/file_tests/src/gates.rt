//! Whether a file may be read and written: what the calls need, looked up.
ghost use Rattle.std.specs.Prelude.{◌≡◌, ◌<◌, ◌≤◌, ◌+◌, ◌*◌, ◌/◌, ℕ, IsTrue, true, false, length, slice_index_or};
ghost use Rattle.std.specs.List.{All};
ghost use Rattle.flag_rows.specs.Bits.{count_set};
ghost use Rattle.fork_map.specs.Blocks.{blocks_of, sectors_of};
ghost use Rattle.alloc_bitmap.specs.Map.{free_of};
ghost use Rattle.file_io.specs.Bytes.{IsBlockSize, sectors_in};
ghost use Rattle.file_io.specs.Places.{AreUsed, blocks_for, new_blocks, zero_blocks};
ghost use Rattle.file_io.specs.Touching.{MaySpill};
ghost use Rattle.file_tests.specs.Untold.{told_faults};

use crate::sectors::Sectors;
use alloc_bitmap::Bitmap;
use fork_map::ExtentList;
use hx_bytes::Extent;

/// Whether blocks may have so many bytes.
pub fn is_block_size(block: u32) -> bool
    ensures { IsTrue result → IsBlockSize block }
{
    if block < 512 || 65536 < block {
        return false;
    }
    block % 512 == 0
}

/// Whether each sector of a fork lies below a number, and all of them have so many bytes at least.
fn holds_bytes(fork: &ExtentList, per_block: u32, sectors: u64, size: u64) -> bool
    requires { per_block ≤ 128 }
    ensures inside { IsTrue result → All (λ sector. sector < sectors) (sectors_of per_block (blocks_of fork.now)) }
    ensures size { IsTrue result → size ≤ length (sectors_of per_block (blocks_of fork.now)) * 512 }
{
    for n in 0..u64::MAX {
        match fork.sector_at(per_block, n) {
            Some(at) => {
                if at >= sectors {
                    return false;
                }
            }
            None => return size <= n.saturating_mul(512),
        }
    }
    false
}

/// Whether the blocks of a fork lie in a space, and have so many bytes at least.
pub fn holds_file(fork: &ExtentList, block: u32, sectors: u64, size: u64) -> bool
    requires { IsBlockSize block }
    ensures inside { IsTrue result → All (λ sector. sector < sectors) (sectors_in block fork.now) }
    ensures size { IsTrue result → size ≤ length (blocks_of fork.now) * block }
{
    holds_bytes(fork, block / 512, sectors, size)
}

/// Whether all blocks of these extents are used.
pub fn uses(map: &Bitmap, list: &[Extent]) -> bool
    ensures { IsTrue result → AreUsed map.now (blocks_of list.now) }
{
    for extent in list {
        if !map.have(*extent, true) {
            return false;
        }
    }
    true
}

/// Whether so many bytes may be written: no more blocks than are free.
pub fn has_room(map: &Bitmap, block: u32, end: u64) -> bool
    requires { IsBlockSize block }
    ensures { IsTrue result → blocks_for block end ≤ count_set (free_of map.now) }
{
    if end == 0 {
        return true;
    }
    (end - 1) / (block as u64) < map.count_free() as u64
}

/// How many blocks so many bytes take.
fn blocks_needed(block: u32, bytes: u64) -> u64
    requires { 0 < block }
    ensures { result ≡ blocks_for block bytes }
{
    if bytes == 0 {
        return 0;
    }
    (bytes - 1) / block as u64 + 1
}

/// Whether a growth has so many blocks that lie wholly behind the old end.
pub fn has_zeros(block: u32, size: u64, to: u64, zeroed: u32) -> bool
    requires { IsBlockSize block }
    ensures { IsTrue result → zeroed ≤ zero_blocks block size (blocks_for block to) }
{
    let old = blocks_needed(block, size);
    let new = blocks_needed(block, to);
    if new < old {
        return false;
    }
    zeroed as u64 <= new - old
}

/// Whether the sectors of each free block may be spilled: they lie in the space, and none is the volume header's.
pub fn may_spill(map: &Bitmap, block: u32, space: &Sectors) -> bool
    requires { IsBlockSize block }
    ensures { IsTrue result → (free : ℕ) (sector : ℕ) → slice_index_or (free_of map.now) free false ≡ true → free * (block / 512) ≤ sector → sector < free * (block / 512) + block / 512 → MaySpill (told_faults (length space.now.list.items) space.now.faults) sector }
{
    let per_block = block / 512;
    let header = Extent {
        start: 2 / per_block,
        count: 1,
    };
    if (space.list.len() as u64) < map.total() as u64 * per_block as u64 {
        return false;
    }
    map.have(header, true)
}
