//! The bytes of a file of a volume in service, which are put into fresh blocks.
ghost use Rattle.std.specs.Prelude.{◌≡◌, ◌<◌, ◌≤◌, ◌+◌, ◌*◌, ◌/◌, ◌^◌, ◌++◌, ℕ, true, false, IsTrue, IfOk, OnOk, length, take, drop, max, slice_index_or};
ghost use Rattle.std.specs.List.{All, Contains};
ghost use Rattle.alloc_bitmap.specs.Apart.{AreApart};
ghost use Rattle.alloc_bitmap.specs.Map.{free_of};
ghost use Rattle.btree_edit.specs.Causes.{HasTroubleCause};
ghost use Rattle.file_io.specs.Bytes.{IsBlockSize, HoldZeros, fork_bytes, sectors_in, written};
ghost use Rattle.file_io.specs.Places.{AreUsed, KeepsMap, first_block, fresh_of, given, middle, new_blocks, old_end, taken, zero_blocks, zeros_at};
ghost use Rattle.file_io.specs.Touching.{IsOneOf, MaySpill, SpillsIn};
ghost use Rattle.flag_rows.specs.Bits.{count_set};
ghost use Rattle.fork_map.specs.Blocks.{blocks_of};
ghost use Rattle.fork_map.specs.Cut.{back, front, join};
ghost use Rattle.sector_disk.specs.Lists.{Content};
ghost use Rattle.sector_disk.specs.Space.{SameRoom, SameSpace};
ghost use Rattle.volume_base.specs.Lists.{bits_on, lists_of};
ghost use Rattle.volume_base.specs.Service.{IsInService};
ghost use Rattle.volume_base.specs.Holding.{IsLaidOutAs};
ghost use Rattle.volume_base.specs.Holding.{HoldsOn};
ghost use Rattle.volume_base.specs.Standing.{IsSettled, StandsOver, own_sectors};
ghost use Rattle.volume_base.specs.Touching.{Touches};

use file_io::write;
use fork_map::ExtentList;
use hx_bytes::Trouble;
use sector_disk::SectorSpace;
use std::alloc::Global;
use volume_base::Volume;

/// Puts a value into the bytes of a file that has this size in the blocks of these extents: into fresh blocks, which the bitmap in
/// memory knows as taken; those in whose place they are it knows as given back. The first `zeroed` zero blocks hold zeros already. The file's record, bitmap and header aren't put.
pub(crate) fn spill<P: SectorSpace>(
    volume: &mut Volume,
    alloc: Global,
    space: &mut P,
    list: &ExtentList,
    size: u64,
    from: u64,
    value: &[u8],
    zeroed: u32,
) -> Result<ExtentList, Trouble>
    requires stands { StandsOver volume.old (P.SectorView.space space.old) }
    requires settled { IsTrue (P.SectorView.space space.old).tells → IsSettled volume.old (P.SectorView.space space.old).content }
    requires block { IsBlockSize volume.old.header.block_size }
    requires some { 0 < length value.now }
    requires inside { All (λ sector. sector < (P.SectorView.space space.old).sectors) (sectors_in volume.old.header.block_size list.now) }
    requires holds_size { size ≤ length (blocks_of list.now) * volume.old.header.block_size }
    requires small { from + length value.now ≤ 2 ^ 40 }
    requires used { AreUsed volume.old.map (blocks_of list.now) }
    requires free { new_blocks volume.old.header.block_size size from (from + length value.now) ≤ count_set (free_of volume.old.map) }
    requires few_zeros { zeroed ≤ zero_blocks volume.old.header.block_size size (from / volume.old.header.block_size) }
    requires zeros { IsTrue (P.SectorView.space space.old).tells →
        HoldZeros (P.SectorView.space space.old).content (sectors_in volume.old.header.block_size (fresh_of volume.old.map (new_blocks volume.old.header.block_size size from (from + length value.now)))) (zeros_at volume.old.header.block_size size from (from + length value.now) * (volume.old.header.block_size / 512)) (zeroed * (volume.old.header.block_size / 512)) }
    requires may_spill { (block : ℕ) (sector : ℕ) → slice_index_or (free_of volume.old.map) block false ≡ true → block * (volume.old.header.block_size / 512) ≤ sector → sector < block * (volume.old.header.block_size / 512) + volume.old.header.block_size / 512 → MaySpill (P.SectorView.space space.old) sector }
    ensures stands { OnOk result (StandsOver volume.new (P.SectorView.space space.new)) }
    ensures service { IsInService volume.new (P.SectorView.space space.new) }
    ensures rest { volume.new ≡ record volume.old { map = volume.new.map } }
    ensures keeps { KeepsMap volume.old.map volume.new.map }
    ensures own { own_sectors volume.new ≡ own_sectors volume.old }
    ensures lists { IsTrue (P.SectorView.space space.old).tells → OnOk result (lists_of volume.new (P.SectorView.space space.new).content ≡ record (lists_of volume.old (P.SectorView.space space.old).content) { bits = bits_on volume.new }) }
    ensures blocks { IfOk result (λ fork. blocks_of fork ≡ take (first_block volume.old.header.block_size size from) (blocks_of list.now) ++ blocks_of (fresh_of volume.old.map (new_blocks volume.old.header.block_size size from (from + length value.now))) ++ drop (old_end volume.old.header.block_size size (from + length value.now)) (blocks_of list.now)) }
    // Extents are joined at the two seams alone.
    ensures extents { IfOk result (λ fork. fork ≡ join (join (front (first_block volume.old.header.block_size size from) list.now) (fresh_of volume.old.map (new_blocks volume.old.header.block_size size from (from + length value.now)))) (back (old_end volume.old.header.block_size size (from + length value.now)) list.now)) }
    ensures bytes { IsTrue (P.SectorView.space space.old).tells → IfOk result (λ fork. take (max size (from + length value.now)) (fork_bytes (P.SectorView.space space.new).content volume.old.header.block_size fork) ≡ written (take size (fork_bytes (P.SectorView.space space.old).content volume.old.header.block_size list.now)) from value.now) }
    ensures map { AreApart (blocks_of list.now) → OnOk result (volume.new.map ≡ given (middle (first_block volume.old.header.block_size size from) (old_end volume.old.header.block_size size (from + length value.now)) list.now) (taken (new_blocks volume.old.header.block_size size from (from + length value.now)) volume.old.map)) }
    ensures touches { IsTrue (P.SectorView.space space.old).tells → SpillsIn (IsOneOf (sectors_in volume.old.header.block_size (fresh_of volume.old.map (new_blocks volume.old.header.block_size size from (from + length value.now))))) (P.SectorView.space space.old) (P.SectorView.space space.new) }
    // On a fault too, it spills into blocks that were free at the last commit.
    ensures commit { (committed : Content) → HoldsOn committed volume.old → IsLaidOutAs committed volume.old → Touches committed (λ s. Contains (own_sectors volume.old) s) (P.SectorView.space space.old) (P.SectorView.space space.new) }
    ensures room { SameRoom (P.SectorView.space space.old) (P.SectorView.space space.new) }
    ensures same { SameSpace (P.SectorView.space space.old) (P.SectorView.space space.new) }
    ensures below { P.SectorView.follows space.old space.new }
    ensures cause { HasTroubleCause (P.SectorView.space space.old).faults (P.SectorView.space space.new).faults result }
{
    let block = volume.header.block_size;
    write(
        alloc,
        space,
        &mut volume.map,
        list,
        block,
        size,
        from,
        value,
        zeroed,
    )
}
