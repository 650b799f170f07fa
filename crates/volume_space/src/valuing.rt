//! The value of an attribute, which is put into fresh blocks.
ghost use Rattle.std.specs.Prelude.{◌≡◌, ◌<◌, ◌≤◌, ℕ, IsTrue, IfOk, OnOk, length, take};
ghost use Rattle.std.specs.List.{Contains};
ghost use Rattle.alloc_bitmap.specs.Map.{free_of};
ghost use Rattle.btree_edit.specs.Causes.{HasTroubleCause};
ghost use Rattle.file_io.specs.Bytes.{fork_bytes, sectors_in};
ghost use Rattle.file_io.specs.Places.{KeepsMap, fresh_of, taken};
ghost use Rattle.file_io.specs.Touching.{IsOneOf, SpillsIn};
ghost use Rattle.flag_rows.specs.Bits.{count_set};
ghost use Rattle.flag_rows.specs.Runs.{fewest_of};
ghost use Rattle.fork_map.specs.Blocks.{blocks_of};
ghost use Rattle.hfs_volume.specs.Aside.{IsJournalSector};
ghost use Rattle.hfs_volume.specs.Forks.{parts_for};
ghost use Rattle.hfs_volume.specs.Weight.{free_runs};
ghost use Rattle.sector_disk.specs.Lists.{Content};
ghost use Rattle.sector_disk.specs.Space.{SameRoom, SameSpace};
ghost use Rattle.volume_base.specs.Holding.{HoldsOn, IsLaidOutAs};
ghost use Rattle.volume_base.specs.Lists.{bits_on, lists_of};
ghost use Rattle.volume_base.specs.Service.{IsInService};
ghost use Rattle.volume_base.specs.Standing.{IsSettled, StandsOver, own_sectors};
ghost use Rattle.volume_base.specs.Touching.{Touches};

use crate::putting::is_sure;
use crate::spilling::spill;
use fork_map::ExtentList;
use hx_bytes::Trouble;
use sector_disk::SectorSpace;
use std::alloc::Global;
use volume_base::Volume;

/// Puts a value into fresh blocks, which the bitmap in memory knows as taken, and answers them. Neither bitmap nor header is put. Memory is said to
/// be wanting too where the blocks aren't as those of a sound volume.
pub fn spill_value<P: SectorSpace>(
    volume: &mut Volume,
    alloc: Global,
    space: &mut P,
    value: &[u8],
) -> Result<ExtentList, Trouble>
    requires stands { StandsOver volume.old (P.SectorView.space space.old) }
    requires settled { IsTrue (P.SectorView.space space.old).tells → IsSettled volume.old (P.SectorView.space space.old).content }
    requires closed { IsTrue (P.SectorView.space space.old).tells → (at : ℕ) → (P.SectorView.space space.old).closed at → IsJournalSector (P.SectorView.space space.old).content at }
    requires some { 0 < length value.now }
    requires small { length value.now ≤ 131072 }
    requires free { parts_for (length value.now) volume.old.header.block_size ≤ count_set (free_of volume.old.map) }
    ensures stands { OnOk result (StandsOver volume.new (P.SectorView.space space.new)) }
    ensures service { IsInService volume.new (P.SectorView.space space.new) }
    ensures rest { volume.new ≡ record volume.old { map = volume.new.map } }
    ensures keeps { KeepsMap volume.old.map volume.new.map }
    ensures own { own_sectors volume.new ≡ own_sectors volume.old }
    ensures lists { IsTrue (P.SectorView.space space.old).tells → OnOk result (lists_of volume.new (P.SectorView.space space.new).content ≡ record (lists_of volume.old (P.SectorView.space space.old).content) { bits = bits_on volume.new }) }
    ensures blocks { IfOk result (λ fork. blocks_of fork ≡ blocks_of (fresh_of volume.old.map (parts_for (length value.now) volume.old.header.block_size))) }
    // They are of as few runs as can be.
    ensures few { IfOk result (λ fork. length fork ≤ fewest_of (parts_for (length value.now) volume.old.header.block_size) (free_runs (free_of volume.old.map))) }
    ensures bytes { IsTrue (P.SectorView.space space.old).tells → IfOk result (λ fork. take (length value.now) (fork_bytes (P.SectorView.space space.new).content volume.old.header.block_size fork) ≡ value.now) }
    ensures map { OnOk result (volume.new.map ≡ taken (parts_for (length value.now) volume.old.header.block_size) volume.old.map) }
    ensures touches { IsTrue (P.SectorView.space space.old).tells → SpillsIn (IsOneOf (sectors_in volume.old.header.block_size (fresh_of volume.old.map (parts_for (length value.now) volume.old.header.block_size)))) (P.SectorView.space space.old) (P.SectorView.space space.new) }
    // On a fault too, it spills into blocks that were free at the last commit.
    ensures commit { (committed : Content) → HoldsOn committed volume.old → IsLaidOutAs committed volume.old → Touches committed (λ s. Contains (own_sectors volume.old) s) (P.SectorView.space space.old) (P.SectorView.space space.new) }
    ensures room { SameRoom (P.SectorView.space space.old) (P.SectorView.space space.new) }
    ensures same { SameSpace (P.SectorView.space space.old) (P.SectorView.space space.new) }
    ensures below { P.SectorView.follows space.old space.new }
    ensures cause { HasTroubleCause (P.SectorView.space space.old).faults (P.SectorView.space space.new).faults result }
{
    let none = ExtentList::new(alloc);
    if !is_sure(volume, space, &none, 0) {
        return Err(Trouble::Memory);
    }
    spill(volume, alloc, space, &none, 0, 0, value, 0)
}
