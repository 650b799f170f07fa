//! New blocks filled with zeros, ahead of the step that gives them to a file.
ghost use Rattle.std.specs.Prelude.{◌≡◌, ◌⊎◌, ◌<◌, ◌≤◌, ◌+◌, ◌*◌, ◌/◌, ℕ, IsTrue, Some, length, slice_get, slice_index, OnOk};
ghost use Rattle.std.specs.List.{All};
ghost use Rattle.sector_disk.specs.Cause.{HasCause};
ghost use Rattle.sector_disk.specs.Lists.{sector};
ghost use Rattle.sector_disk.specs.Clock.{TimePasses};
ghost use Rattle.sector_disk.specs.Space.{SameSpace, SameRoom, LeavesDurable};
ghost use Rattle.fork_map.specs.Blocks.{blocks_of};
ghost use Rattle.alloc_bitmap.specs.Apart.{AreApart};
ghost use Rattle.file_io.specs.Bytes.{IsBlockSize, HoldZeros, sectors_in};
ghost use Rattle.file_io.specs.Touching.{IsOneOf, MaySpill, SpillsIn};

use crate::spilling::spill_sectors;
use fork_map::ExtentList;
use hx_bytes::Failed;
use sector_disk::SectorSpace;

/// Fills `count` blocks of a list with zeros, from its block `from` on, where a file grows by more than one step spills. It takes no
/// memory, and marks no block.
pub fn zero_step<P: SectorSpace>(
    space: &mut P,
    fork: &ExtentList,
    block: u32,
    from: u32,
    count: u32,
) -> Result<(), Failed>
    requires block { IsBlockSize block }
    requires inside { All (λ sector. sector < (P.SectorView.space space.old).sectors) (sectors_in block fork.now) }
    requires within { from + count ≤ length (blocks_of fork.now) }
    requires apart { AreApart (blocks_of fork.now) }
    requires may_spill { (n : ℕ) (sector : ℕ) → from * (block / 512) ≤ n → n < (from + count) * (block / 512) → slice_get (sectors_in block fork.now) n ≡ Some sector → MaySpill (P.SectorView.space space.old) sector }
    ensures zeros { IsTrue (P.SectorView.space space.old).tells → OnOk result (HoldZeros (P.SectorView.space space.new).content (sectors_in block fork.now) (from * (block / 512)) (count * (block / 512))) }
    // Nothing but sectors of the list is touched, also where it fails.
    ensures touches { IsTrue (P.SectorView.space space.old).tells → SpillsIn (IsOneOf (sectors_in block fork.now)) (P.SectorView.space space.old) (P.SectorView.space space.new) }
    // Its other blocks are as they were.
    ensures others { IsTrue (P.SectorView.space space.old).tells → OnOk result ((n : ℕ) → (n < from * (block / 512)) ⊎ ((from + count) * (block / 512) ≤ n) → n < length (sectors_in block fork.now) →
        sector (P.SectorView.space space.new).content (slice_index (sectors_in block fork.now) n) ≡ sector (P.SectorView.space space.old).content (slice_index (sectors_in block fork.now) n)) }
    // Each sector that is another one has its 512 bytes.
    ensures sizes { IsTrue (P.SectorView.space space.old).tells → OnOk result ((at : ℕ) → (sector (P.SectorView.space space.new).content at ≡ sector (P.SectorView.space space.old).content at) ⊎ (length (sector (P.SectorView.space space.new).content at) ≡ 512)) }
    ensures time { IsTrue (P.SectorView.space space.old).tells → TimePasses (P.SectorView.space space.old).clock (P.SectorView.space space.new).clock (LeavesDurable (P.SectorView.space space.new)) }
    ensures room { SameRoom (P.SectorView.space space.old) (P.SectorView.space space.new) }
    ensures same { SameSpace (P.SectorView.space space.old) (P.SectorView.space space.new) }
    ensures below { P.SectorView.follows space.old space.new }
    ensures cause { HasCause (P.SectorView.space space.old).faults (P.SectorView.space space.new).faults result }
{
    let per_block = block / 512;
    let place = from as u64 * per_block as u64;
    let behind = (from as u64 + count as u64) * per_block as u64;
    spill_sectors(space, fork, fork, per_block, 0, place, behind, 0, 0, &[])
}
