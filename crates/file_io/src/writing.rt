//! The bytes of a file written.
ghost use Rattle.std.specs.Prelude.{◌≡◌, ◌⊎◌, ◌<◌, ◌≤◌, ◌+◌, ◌-◌, ◌*◌, ◌/◌, ◌++◌, ◌^◌, ℕ, [], true, false, IsTrue, length, take, drop, max, slice_index, slice_index_or, OnOk, IfOk};
ghost use Rattle.std.specs.List.{All};
ghost use Rattle.std.specs.Result.{IsErrOf};
ghost use Rattle.hx_bytes.specs.declared.faults.Trouble.TheVariants.{Disk};
ghost use Rattle.sector_disk.specs.Cause.{Rose};
ghost use Rattle.sector_disk.specs.Lists.{sector};
ghost use Rattle.sector_disk.specs.Clock.{TimePasses};
ghost use Rattle.sector_disk.specs.Space.{SameSpace, SameRoom, LeavesDurable};
ghost use Rattle.fork_map.specs.Blocks.{blocks_of, AreNumbers};
ghost use Rattle.fork_map.specs.Cut.{front, back, join};
ghost use Rattle.flag_rows.specs.Bits.{count_set, sectors_for};
ghost use Rattle.alloc_bitmap.specs.Apart.{AreApart};
ghost use Rattle.alloc_bitmap.specs.Map.{free_of, PicksFree};
ghost use Rattle.file_io.specs.Bytes.{IsBlockSize, HoldZeros, sectors_in, fork_bytes, byte_in, new_byte, padded, written};
ghost use Rattle.file_io.specs.Places.{blocks_for, first_block, new_blocks, old_end, zero_blocks, zeros_at, fresh_of, middle, taken, given, AreUsed, KeepsMap};
ghost use Rattle.file_io.specs.Touching.{MaySpill, IsOneOf, SpillsIn};

use crate::shrinking::{blocks_in, give_all};
use crate::spilling::spill_around;
use alloc_bitmap::Bitmap;
use fork_map::ExtentList;
use hx_bytes::{OutOfMemory, Trouble};
use sector_disk::SectorSpace;
use std::alloc::Global;

/// Writes a value into a file at byte `from`: each block that it touches, and each from the end of the file on up to it, is made
/// anew in a block that was free, and the old blocks are given back and held. Between the old end and the value there are zeros.
/// It gives the file's new blocks. A value of no byte changes nothing. Of the blocks that lie wholly between the old end and the value, the first
/// `zeroed` hold zeros already.
pub fn write<P: SectorSpace>(
    alloc: Global,
    space: &mut P,
    map: &mut Bitmap,
    fork: &ExtentList,
    block: u32,
    size: u64,
    from: u64,
    value: &[u8],
    zeroed: u32,
) -> Result<ExtentList, Trouble>
    requires block { IsBlockSize block }
    requires inside { All (λ sector. sector < (P.SectorView.space space.old).sectors) (sectors_in block fork.now) }
    requires holds_size { size ≤ length (blocks_of fork.now) * block }
    requires small { from + length value.now ≤ 2 ^ 40 }
    requires used { AreUsed map.old (blocks_of fork.now) }
    requires free { 0 < length value.now → new_blocks block size from (from + length value.now) ≤ count_set (free_of map.old) }
    requires few_zeros { zeroed ≤ zero_blocks block size (from / block) }
    requires zeros { IsTrue (P.SectorView.space space.old).tells →
        HoldZeros (P.SectorView.space space.old).content (sectors_in block (fresh_of map.old (new_blocks block size from (from + length value.now)))) (zeros_at block size from (from + length value.now) * (block / 512)) (zeroed * (block / 512)) }
    requires may_spill { (taken_block : ℕ) (sector : ℕ) → slice_index_or (free_of map.old) taken_block false ≡ true → taken_block * (block / 512) ≤ sector → sector < taken_block * (block / 512) + block / 512 → MaySpill (P.SectorView.space space.old) sector }
    ensures blocks { 0 < length value.now → IfOk result (λ list. blocks_of list ≡ take (first_block block size from) (blocks_of fork.now) ++ blocks_of (fresh_of map.old (new_blocks block size from (from + length value.now))) ++ drop (old_end block size (from + length value.now)) (blocks_of fork.now)) }
    // Extents are joined at the two seams alone.
    ensures extents { 0 < length value.now → IfOk result (λ list. list ≡ join (join (front (first_block block size from) fork.now) (fresh_of map.old (new_blocks block size from (from + length value.now)))) (back (old_end block size (from + length value.now)) fork.now)) }
    ensures bytes { IsTrue (P.SectorView.space space.old).tells → 0 < length value.now → IfOk result (λ list.
        take (max size (from + length value.now)) (fork_bytes (P.SectorView.space space.new).content block list) ≡ written (take size (fork_bytes (P.SectorView.space space.old).content block fork.now)) from value.now) }
    ensures holds { 0 < length value.now → IfOk result (λ list. max size (from + length value.now) ≤ length (sectors_in block list) * 512) }
    // The fresh blocks were taken, and the old ones given back and held.
    ensures map { 0 < length value.now → AreApart (blocks_of fork.now) → OnOk result (map.new ≡ given (middle (first_block block size from) (old_end block size (from + length value.now)) fork.now) (taken (new_blocks block size from (from + length value.now)) map.old)) }
    ensures nothing { length value.now ≡ 0 → IfOk result (λ list. (list ≡ fork.now) × (map.new ≡ map.old)) }
    // Also where it fails, it is a bitmap of the same volume.
    ensures keeps { length map.old.changed ≡ sectors_for (length map.old.used) → KeepsMap map.old map.new }

    // Nothing but sectors of the fresh blocks is touched, also where it fails.
    ensures touches { IsTrue (P.SectorView.space space.old).tells → SpillsIn (IsOneOf (sectors_in block (fresh_of map.old (new_blocks block size from (from + length value.now))))) (P.SectorView.space space.old) (P.SectorView.space space.new) }
    // Each sector that is another one has its 512 bytes.
    ensures sizes { IsTrue (P.SectorView.space space.old).tells → OnOk result ((at : ℕ) → (sector (P.SectorView.space space.new).content at ≡ sector (P.SectorView.space space.old).content at) ⊎ (length (sector (P.SectorView.space space.new).content at) ≡ 512)) }
    ensures time { IsTrue (P.SectorView.space space.old).tells → TimePasses (P.SectorView.space space.old).clock (P.SectorView.space space.new).clock (LeavesDurable (P.SectorView.space space.new)) }
    ensures room { SameRoom (P.SectorView.space space.old) (P.SectorView.space space.new) }
    ensures same { SameSpace (P.SectorView.space space.old) (P.SectorView.space space.new) }
    ensures below { P.SectorView.follows space.old space.new }

    ensures later { (P.SectorView.space space.old).faults ≤ (P.SectorView.space space.new).faults }
    ensures disk { IsErrOf result Disk → Rose (P.SectorView.space space.old).faults (P.SectorView.space space.new).faults }
{
    if value.is_empty() {
        return Ok(fork.copy(alloc)?);
    }
    let end = from + value.len() as u64;
    rewrite(
        alloc, space, map, fork, block, size, from, end, value, zeroed,
    )
}

/// Makes a file `to` bytes long, with zeros behind the others: its last block, where a byte past its end lies in it, and those
/// behind it are made anew as by a write. The same size changes nothing. Of the blocks that lie wholly behind the old end, the first `zeroed` hold
/// zeros already.
pub fn grow_step<P: SectorSpace>(
    alloc: Global,
    space: &mut P,
    map: &mut Bitmap,
    fork: &ExtentList,
    block: u32,
    size: u64,
    to: u64,
    zeroed: u32,
) -> Result<ExtentList, Trouble>
    requires block { IsBlockSize block }
    requires inside { All (λ sector. sector < (P.SectorView.space space.old).sectors) (sectors_in block fork.now) }
    requires holds_size { size ≤ length (blocks_of fork.now) * block }
    requires order { size ≤ to }
    requires small { to ≤ 2 ^ 40 }
    requires used { AreUsed map.old (blocks_of fork.now) }
    requires free { size < to → new_blocks block size size to ≤ count_set (free_of map.old) }
    requires few_zeros { zeroed ≤ zero_blocks block size (blocks_for block to) }
    requires zeros { IsTrue (P.SectorView.space space.old).tells →
        HoldZeros (P.SectorView.space space.old).content (sectors_in block (fresh_of map.old (new_blocks block size size to))) (zeros_at block size size to * (block / 512)) (zeroed * (block / 512)) }
    requires may_spill { (taken_block : ℕ) (sector : ℕ) → slice_index_or (free_of map.old) taken_block false ≡ true → taken_block * (block / 512) ≤ sector → sector < taken_block * (block / 512) + block / 512 → MaySpill (P.SectorView.space space.old) sector }
    ensures blocks { size < to → IfOk result (λ list. blocks_of list ≡ take (first_block block size size) (blocks_of fork.now) ++ blocks_of (fresh_of map.old (new_blocks block size size (to))) ++ drop (old_end block size (to)) (blocks_of fork.now)) }
    ensures bytes { IsTrue (P.SectorView.space space.old).tells → size < to → IfOk result (λ list.
        take to (fork_bytes (P.SectorView.space space.new).content block list) ≡ padded to (take size (fork_bytes (P.SectorView.space space.old).content block fork.now))) }
    ensures holds { size < to → IfOk result (λ list. max size (to) ≤ length (sectors_in block list) * 512) }
    // The fresh blocks were taken, and the old ones given back and held.
    ensures map { size < to → AreApart (blocks_of fork.now) → OnOk result (map.new ≡ given (middle (first_block block size size) (old_end block size (to)) fork.now) (taken (new_blocks block size size (to)) map.old)) }
    ensures nothing { size ≡ to → IfOk result (λ list. (list ≡ fork.now) × (map.new ≡ map.old)) }
    // Also where it fails, it is a bitmap of the same volume.
    ensures keeps { length map.old.changed ≡ sectors_for (length map.old.used) → KeepsMap map.old map.new }

    // Nothing but sectors of the fresh blocks is touched, also where it fails.
    ensures touches { IsTrue (P.SectorView.space space.old).tells → SpillsIn (IsOneOf (sectors_in block (fresh_of map.old (new_blocks block size size (to))))) (P.SectorView.space space.old) (P.SectorView.space space.new) }
    // Each sector that is another one has its 512 bytes.
    ensures sizes { IsTrue (P.SectorView.space space.old).tells → OnOk result ((at : ℕ) → (sector (P.SectorView.space space.new).content at ≡ sector (P.SectorView.space space.old).content at) ⊎ (length (sector (P.SectorView.space space.new).content at) ≡ 512)) }
    ensures time { IsTrue (P.SectorView.space space.old).tells → TimePasses (P.SectorView.space space.old).clock (P.SectorView.space space.new).clock (LeavesDurable (P.SectorView.space space.new)) }
    ensures room { SameRoom (P.SectorView.space space.old) (P.SectorView.space space.new) }
    ensures same { SameSpace (P.SectorView.space space.old) (P.SectorView.space space.new) }
    ensures below { P.SectorView.follows space.old space.new }

    ensures later { (P.SectorView.space space.old).faults ≤ (P.SectorView.space space.new).faults }
    ensures disk { IsErrOf result Disk → Rose (P.SectorView.space space.old).faults (P.SectorView.space space.new).faults }
{
    if to == size {
        return Ok(fork.copy(alloc)?);
    }
    rewrite(alloc, space, map, fork, block, size, size, to, &[], zeroed)
}

/// Makes the blocks of the bytes from `from` up to `end` anew, and those of a gap before them: the value stands at `from`, and
/// zeros behind it and in the gap, of whose whole blocks the first `zeroed` hold zeros already.
fn rewrite<P: SectorSpace>(
    alloc: Global,
    space: &mut P,
    map: &mut Bitmap,
    fork: &ExtentList,
    block: u32,
    size: u64,
    from: u64,
    end: u64,
    value: &[u8],
    zeroed: u32,
) -> Result<ExtentList, Trouble>
    requires block { IsBlockSize block }
    requires inside { All (λ sector. sector < (P.SectorView.space space.old).sectors) (sectors_in block fork.now) }
    requires holds_size { size ≤ length (blocks_of fork.now) * block }
    requires order { from < end }
    requires value { from + length value.now ≤ end }
    requires small { end ≤ 2 ^ 40 }
    requires used { AreUsed map.old (blocks_of fork.now) }
    requires free { new_blocks block size from end ≤ count_set (free_of map.old) }
    requires few_zeros { zeroed ≤ zero_blocks block size (blocks_for block end) }
    requires gap { 0 < zeroed → 0 < length value.now → (blocks_for block size + zeroed) * block ≤ from }
    requires zeros { IsTrue (P.SectorView.space space.old).tells →
        HoldZeros (P.SectorView.space space.old).content (sectors_in block (fresh_of map.old (new_blocks block size from end))) (zeros_at block size from end * (block / 512)) (zeroed * (block / 512)) }
    requires may_spill { (taken_block : ℕ) (sector : ℕ) → slice_index_or (free_of map.old) taken_block false ≡ true → taken_block * (block / 512) ≤ sector → sector < taken_block * (block / 512) + block / 512 → MaySpill (P.SectorView.space space.old) sector }
    ensures blocks { IfOk result (λ list. blocks_of list ≡ take (first_block block size from) (blocks_of fork.now) ++ blocks_of (fresh_of map.old (new_blocks block size from end)) ++ drop (old_end block size end) (blocks_of fork.now)) }
    ensures extents { IfOk result (λ list. list ≡ join (join (front (first_block block size from) fork.now) (fresh_of map.old (new_blocks block size from end))) (back (old_end block size end) fork.now)) }
    ensures bytes { IsTrue (P.SectorView.space space.old).tells → IfOk result (λ list. (q : ℕ) → q < max size end →
        byte_in (P.SectorView.space space.new).content (sectors_in block list) q ≡ new_byte (P.SectorView.space space.old).content (sectors_in block fork.now) size from value.now q) }
    ensures enough { IfOk result (λ list. max size end ≤ length (sectors_in block list) * 512) }
    ensures map { AreApart (blocks_of fork.now) → OnOk result (map.new ≡ given (middle (first_block block size from) (old_end block size end) fork.now) (taken (new_blocks block size from end) map.old)) }
    ensures keeps { length map.old.changed ≡ sectors_for (length map.old.used) → KeepsMap map.old map.new }
    ensures touches { IsTrue (P.SectorView.space space.old).tells → SpillsIn (IsOneOf (sectors_in block (fresh_of map.old (new_blocks block size from end)))) (P.SectorView.space space.old) (P.SectorView.space space.new) }
    // Each sector that is another one has its 512 bytes.
    ensures sizes { IsTrue (P.SectorView.space space.old).tells → OnOk result ((at : ℕ) → (sector (P.SectorView.space space.new).content at ≡ sector (P.SectorView.space space.old).content at) ⊎ (length (sector (P.SectorView.space space.new).content at) ≡ 512)) }
    ensures time { IsTrue (P.SectorView.space space.old).tells → TimePasses (P.SectorView.space space.old).clock (P.SectorView.space space.new).clock (LeavesDurable (P.SectorView.space space.new)) }
    ensures room { SameRoom (P.SectorView.space space.old) (P.SectorView.space space.new) }
    ensures same { SameSpace (P.SectorView.space space.old) (P.SectorView.space space.new) }
    ensures below { P.SectorView.follows space.old space.new }
    ensures later { (P.SectorView.space space.old).faults ≤ (P.SectorView.space space.new).faults }
    ensures disk { IsErrOf result Disk → Rose (P.SectorView.space space.old).faults (P.SectorView.space space.new).faults }
{
    let per_block = block / 512;
    let first = from.min(size) / block as u64;
    let behind = blocks_needed(block, end);
    let old_behind = behind.min(blocks_needed(block, size));
    let (fresh, list) = remake(
        alloc,
        map,
        fork,
        first as u32,
        behind as u32,
        old_behind as u32,
    )?;
    let zeros = (old_behind - first) * per_block as u64;
    spill_around(
        space,
        fork,
        &fresh,
        per_block,
        first * per_block as u64,
        (behind - first) * per_block as u64,
        zeros,
        zeros + zeroed as u64 * per_block as u64,
        size,
        from,
        value,
    )?;
    Ok(list)
}

/// Takes fresh blocks in place of those from one place on up to another, or past the end, gives the old ones back, and gives the
/// fresh blocks and the new list.
fn remake(
    alloc: Global,
    map: &mut Bitmap,
    fork: &ExtentList,
    first: u32,
    behind: u32,
    old_behind: u32,
) -> Result<(ExtentList, ExtentList), OutOfMemory>
    requires order { first ≤ old_behind }
    requires old { old_behind ≤ behind }
    requires inside { old_behind ≤ length (blocks_of fork.now) }
    requires used { AreUsed map.old (blocks_of fork.now) }
    requires free { behind - first ≤ count_set (free_of map.old) }
    ensures fresh { IfOk result (λ parts. parts.0 ≡ fresh_of map.old (behind - first)) }
    ensures picks { IfOk result (λ parts. PicksFree (free_of map.old) (behind - first) parts.0) }
    ensures blocks { IfOk result (λ parts. blocks_of parts.1 ≡ take first (blocks_of fork.now) ++ blocks_of parts.0 ++ drop old_behind (blocks_of fork.now)) }
    ensures extents { IfOk result (λ parts. parts.1 ≡ join (join (front first fork.now) (fresh_of map.old (behind - first))) (back old_behind fork.now)) }
    ensures map { AreApart (blocks_of fork.now) → OnOk result (map.new ≡ given (middle first old_behind fork.now) (taken (behind - first) map.old)) }
    ensures keeps { length map.old.changed ≡ sectors_for (length map.old.used) → KeepsMap map.old map.new }
{
    let _total = map.total();
    let fresh = map.take(alloc, behind - first)?;
    let list = fork.replace(alloc, first, old_behind, &fresh)?;
    let old = part_of(alloc, fork, first, old_behind)?;
    give_all(alloc, map, old.as_slice())?;
    Ok((fresh, list))
}

/// How many blocks so many bytes take.
fn blocks_needed(block: u32, bytes: u64) -> u64
    requires { 0 < block }
    ensures { result ≡ blocks_for block bytes }
{
    if bytes == 0 {
        return 0;
    }
    (bytes - 1) / block as u64 + 1
}

/// The extents of the blocks from one place up to another.
fn part_of(
    alloc: Global,
    fork: &ExtentList,
    first: u32,
    behind: u32,
) -> Result<ExtentList, OutOfMemory>
    requires { AreNumbers (blocks_of fork.now) }
    ensures { length (blocks_of fork.now) < 2 ^ 32 → first ≤ behind → behind ≤ length (blocks_of fork.now) → IfOk result (λ part. part ≡ middle first behind fork.now) }
{
    let tail = blocks_in(fork.as_slice()).saturating_sub(behind as u64);
    let (front, _behind) = fork.cut_tail(alloc, tail.min(0xFFFF_FFFF) as u32)?;
    let (_before, part) = front.cut_tail(alloc, behind.saturating_sub(first))?;
    Ok(part)
}
