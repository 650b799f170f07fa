//! New blocks of a file, made of old ones and spilled.
ghost use Rattle.std.specs.Prelude.{◌≡◌, ◌⊎◌, ◌<◌, ◌≤◌, ◌+◌, ◌*◌, ◌/◌, ◌%◌, ◌^◌, ℕ, IsTrue, Some, length, slice_get, slice_index, OnOk};
ghost use Rattle.std.specs.List.{All};
ghost use Rattle.sector_disk.specs.Cause.{HasCause};
ghost use Rattle.sector_disk.specs.Lists.{sector};
ghost use Rattle.sector_disk.specs.Clock.{TimePasses};
ghost use Rattle.sector_disk.specs.Space.{SameSpace, SameRoom, LeavesDurable};
ghost use Rattle.fork_map.specs.Blocks.{blocks_of, sectors_of};
ghost use Rattle.file_io.specs.Bytes.{old_byte, new_byte, sector_bytes};
ghost use Rattle.file_io.specs.Touching.{IsOneOf, IsOnlyRead, MaySpill, SpillsIn};
ghost use Rattle.file_io.specs.Walks.{StandsAt};

use crate::parts::{clear_from, put_part};
use crate::walk::Walk;
use fork_map::ExtentList;
use hx_bytes::{Failed, Sector};
use sector_disk::SectorSpace;

/// Reads the bytes of a file in the sector that begins at byte `start`: zeros where the file has none. The walk stands before that sector.
fn old_bytes<P: SectorSpace>(
    space: &mut P,
    fork: &ExtentList,
    per_block: u32,
    walk: &mut Walk,
    size: u64,
    start: u64,
    into: &mut Sector,
) -> Result<(), Failed>
    requires some { 0 < per_block }
    requires few { per_block ≤ 128 }
    requires inside { All (λ sector. sector < (P.SectorView.space space.old).sectors) (sectors_of per_block (blocks_of fork.now)) }
    requires holds { size ≤ length (sectors_of per_block (blocks_of fork.now)) * 512 }
    requires aligned { start % 512 ≡ 0 }
    requires walk { start < size → StandsAt fork.now per_block walk.old (start / 512) }
    ensures bytes { IsTrue (P.SectorView.space space.old).tells → OnOk result ((k : ℕ) → k < 512 → slice_index into.new k ≡ old_byte (P.SectorView.space space.old).content (sectors_of per_block (blocks_of fork.now)) size (start + k)) }
    ensures walk { OnOk result (start < size → StandsAt fork.now per_block walk.new (start / 512 + 1)) }
    ensures space { IsOnlyRead (P.SectorView.space space.old) (P.SectorView.space space.new) }
    ensures below { P.SectorView.follows space.old space.new }
    ensures cause { HasCause (P.SectorView.space space.old).faults (P.SectorView.space space.new).faults result }
{
    if size <= start {
        clear_from(into, 0);
        return Ok(());
    }
    match walk.next(fork, per_block) {
        Some(at) => space.get(at, into)?,
        None => return Ok(()),
    }
    clear_from(into, (size - start).min(512) as usize);
    Ok(())
}

/// Spills sectors of a file as they are after a value was written at byte `from`, into a fork of fresh blocks that begins with the file's
/// sector `first`: those from place `place` of that fork up to `behind`. The file had `size` bytes in the blocks of another fork.
pub fn spill_sectors<P: SectorSpace>(
    space: &mut P,
    fork: &ExtentList,
    fresh: &ExtentList,
    per_block: u32,
    first: u64,
    place: u64,
    behind: u64,
    size: u64,
    from: u64,
    value: &[u8],
) -> Result<(), Failed>
    requires some { 0 < per_block }
    requires few { per_block ≤ 128 }
    requires inside { All (λ sector. sector < (P.SectorView.space space.old).sectors) (sectors_of per_block (blocks_of fork.now)) }
    requires holds { size ≤ length (sectors_of per_block (blocks_of fork.now)) * 512 }
    requires order { place ≤ behind }
    requires enough { behind ≤ length (sectors_of per_block (blocks_of fresh.now)) }
    requires may_spill { (n : ℕ) (sector : ℕ) → place ≤ n → n < behind → slice_get (sectors_of per_block (blocks_of fresh.now)) n ≡ Some sector → MaySpill (P.SectorView.space space.old) sector }
    // No sector of the fresh blocks is another one, or one of the file's.
    requires apart { (i : ℕ) (j : ℕ) (sector : ℕ) → slice_get (sectors_of per_block (blocks_of fresh.now)) i ≡ Some sector → slice_get (sectors_of per_block (blocks_of fresh.now)) j ≡ Some sector → i ≡ j }
    requires elsewhere { 0 < size → (sector : ℕ) → IsOneOf (sectors_of per_block (blocks_of fresh.now)) sector → IsOneOf (sectors_of per_block (blocks_of fork.now)) sector → ⊥ }
    requires small { (first + behind) * 512 < 2 ^ 62 }
    requires from { from < 2 ^ 62 }
    requires value { length value.now < 2 ^ 62 }
    ensures bytes { IsTrue (P.SectorView.space space.old).tells → OnOk result ((n : ℕ) (k : ℕ) → place ≤ n → n < behind → k < 512 →
        slice_index (sector_bytes (P.SectorView.space space.new).content (slice_index (sectors_of per_block (blocks_of fresh.now)) n)) k
        ≡ new_byte (P.SectorView.space space.old).content (sectors_of per_block (blocks_of fork.now)) size from value.now ((first + n) * 512 + k)) }
    ensures touches { IsTrue (P.SectorView.space space.old).tells → SpillsIn (IsOneOf (sectors_of per_block (blocks_of fresh.now))) (P.SectorView.space space.old) (P.SectorView.space space.new) }
    // The other sectors of the fresh blocks are as they were.
    ensures others { IsTrue (P.SectorView.space space.old).tells → OnOk result ((n : ℕ) → (n < place) ⊎ (behind ≤ n) → n < length (sectors_of per_block (blocks_of fresh.now)) →
        sector (P.SectorView.space space.new).content (slice_index (sectors_of per_block (blocks_of fresh.now)) n) ≡ sector (P.SectorView.space space.old).content (slice_index (sectors_of per_block (blocks_of fresh.now)) n)) }
    // Each sector that is another one has its 512 bytes.
    ensures sizes { IsTrue (P.SectorView.space space.old).tells → OnOk result ((at : ℕ) → (sector (P.SectorView.space space.new).content at ≡ sector (P.SectorView.space space.old).content at) ⊎ (length (sector (P.SectorView.space space.new).content at) ≡ 512)) }
    ensures time { IsTrue (P.SectorView.space space.old).tells → TimePasses (P.SectorView.space space.old).clock (P.SectorView.space space.new).clock (LeavesDurable (P.SectorView.space space.new)) }
    ensures room { SameRoom (P.SectorView.space space.old) (P.SectorView.space space.new) }
    ensures same { SameSpace (P.SectorView.space space.old) (P.SectorView.space space.new) }
    ensures below { P.SectorView.follows space.old space.new }
    ensures cause { HasCause (P.SectorView.space space.old).faults (P.SectorView.space space.new).faults result }
{
    let mut old = Walk::before(fork, per_block, first + place);
    let mut new = Walk::before(fresh, per_block, place);
    let mut sector = [0; 512];
    for n in place..behind {
        let start = (first + n) * 512;
        old_bytes(space, fork, per_block, &mut old, size, start, &mut sector)?;
        put_part(&mut sector, start, from, value);
        match new.next(fresh, per_block) {
            Some(at) => space.spill(at, &sector)?,
            None => return Ok(()),
        }
    }
    Ok(())
}

/// Spills the first `count` sectors of a file's new blocks, but for those from place `idle` up to `busy`, which hold what they ought to.
pub fn spill_around<P: SectorSpace>(
    space: &mut P,
    fork: &ExtentList,
    fresh: &ExtentList,
    per_block: u32,
    first: u64,
    count: u64,
    idle: u64,
    busy: u64,
    size: u64,
    from: u64,
    value: &[u8],
) -> Result<(), Failed>
    requires some { 0 < per_block }
    requires few { per_block ≤ 128 }
    requires inside { All (λ sector. sector < (P.SectorView.space space.old).sectors) (sectors_of per_block (blocks_of fork.now)) }
    requires holds { size ≤ length (sectors_of per_block (blocks_of fork.now)) * 512 }
    requires order { idle ≤ busy }
    requires within { busy ≤ count }
    requires enough { count ≤ length (sectors_of per_block (blocks_of fresh.now)) }
    requires may_spill { (sector : ℕ) → IsOneOf (sectors_of per_block (blocks_of fresh.now)) sector → MaySpill (P.SectorView.space space.old) sector }
    requires apart { (i : ℕ) (j : ℕ) (sector : ℕ) → slice_get (sectors_of per_block (blocks_of fresh.now)) i ≡ Some sector → slice_get (sectors_of per_block (blocks_of fresh.now)) j ≡ Some sector → i ≡ j }
    requires elsewhere { (sector : ℕ) → IsOneOf (sectors_of per_block (blocks_of fresh.now)) sector → IsOneOf (sectors_of per_block (blocks_of fork.now)) sector → ⊥ }
    requires small { (first + count) * 512 < 2 ^ 62 }
    requires from { from < 2 ^ 62 }
    requires value { length value.now < 2 ^ 62 }
    requires ready { IsTrue (P.SectorView.space space.old).tells → (n : ℕ) (k : ℕ) → idle ≤ n → n < busy → k < 512 →
        slice_index (sector_bytes (P.SectorView.space space.old).content (slice_index (sectors_of per_block (blocks_of fresh.now)) n)) k
        ≡ new_byte (P.SectorView.space space.old).content (sectors_of per_block (blocks_of fork.now)) size from value.now ((first + n) * 512 + k) }
    ensures bytes { IsTrue (P.SectorView.space space.old).tells → OnOk result ((n : ℕ) (k : ℕ) → n < count → k < 512 →
        slice_index (sector_bytes (P.SectorView.space space.new).content (slice_index (sectors_of per_block (blocks_of fresh.now)) n)) k
        ≡ new_byte (P.SectorView.space space.old).content (sectors_of per_block (blocks_of fork.now)) size from value.now ((first + n) * 512 + k)) }
    ensures touches { IsTrue (P.SectorView.space space.old).tells → SpillsIn (IsOneOf (sectors_of per_block (blocks_of fresh.now))) (P.SectorView.space space.old) (P.SectorView.space space.new) }
    ensures sizes { IsTrue (P.SectorView.space space.old).tells → OnOk result ((at : ℕ) → (sector (P.SectorView.space space.new).content at ≡ sector (P.SectorView.space space.old).content at) ⊎ (length (sector (P.SectorView.space space.new).content at) ≡ 512)) }
    ensures time { IsTrue (P.SectorView.space space.old).tells → TimePasses (P.SectorView.space space.old).clock (P.SectorView.space space.new).clock (LeavesDurable (P.SectorView.space space.new)) }
    ensures room { SameRoom (P.SectorView.space space.old) (P.SectorView.space space.new) }
    ensures same { SameSpace (P.SectorView.space space.old) (P.SectorView.space space.new) }
    ensures below { P.SectorView.follows space.old space.new }
    ensures cause { HasCause (P.SectorView.space space.old).faults (P.SectorView.space space.new).faults result }
{
    spill_sectors(
        space, fork, fresh, per_block, first, 0, idle, size, from, value,
    )?;
    spill_sectors(
        space, fork, fresh, per_block, first, busy, count, size, from, value,
    )
}
