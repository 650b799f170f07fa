//! Blocks of values that are given back, and the blocks of a volume counted and put.
ghost use Rattle.std.specs.Prelude.{◌≡◌, ◌≤◌, ◌+◌, ◌∷◌, min, true, IsTrue, OnOk, length};
ghost use Rattle.alloc_bitmap.specs.Apart.{AreApart};
ghost use Rattle.file_io.specs.Places.{AreUsed, KeepsMap, LosesNone, given};
ghost use Rattle.flag_rows.specs.Bits.{count_set, sectors_for};
ghost use Rattle.fork_map.specs.Blocks.{blocks_of};
ghost use Rattle.sector_disk.specs.Putting.{unput};
ghost use Rattle.btree_file.specs.Frame.{PutsWithin};
ghost use Rattle.volume_base.specs.Giving.{PutsCounted, PutsTraded, counted_anew, is_trade, takes_some, trade_load, traded, with_free_count};
ghost use Rattle.volume_base.specs.Holding.{KeepsUsed};
ghost use Rattle.volume_base.specs.Mapping.{HoldsUnchanged, changed_sectors};
ghost use Rattle.volume_base.specs.Service.{IsInService};
ghost use Rattle.volume_base.specs.Standing.{StandsOver, map_sectors, own_sectors};
ghost use Rattle.volume_header.specs.Header.{FitsHeader};

use crate::mapping::put_map;
use crate::volume::Volume;
use file_io::{blocks_in, give_all};
use fork_map::ExtentList;
use hx_bytes::OutOfMemory;
use sector_disk::SectorSpace;
use std::alloc::Global;
use volume_header::VolumeHeader;

/// The header with another number of free blocks.
fn with_free_count(head: &VolumeHeader, free: u32) -> VolumeHeader
    ensures same { result ≡ with_free_count free head.now }
    ensures fits { FitsHeader head.now → FitsHeader result }
{
    let mut counted = *head;
    counted.free_blocks = free;
    counted
}

/// Whether blocks were taken, by which bits in so many sectors were changed, or some are given back.
fn is_trade(touched: u64, old: &ExtentList) -> bool
    ensures { result ≡ is_trade (takes_some touched) old.now }
{
    if touched != 0 {
        return true;
    }
    !old.is_empty()
}

impl Volume {
    /// How many sectors are put at most where these blocks are given back and so many sectors of the bitmap were touched: those of the bitmap, and the
    /// header's.
    fn count_traded(&self, old: &ExtentList, touched: u64) -> u64
        ensures { result ≡ min (sectors_for (length self.now.map.used)) (touched + length (blocks_of old.now)) + 1 }
    {
        let all = (u64::from(self.map.total()) + 4095) / 4096;
        1 + all.min(touched.saturating_add(blocks_in(old.as_slice())))
    }

    /// Gives the blocks of these extents back, which are used: they are held until the next commit. Neither bitmap nor header is put.
    pub fn give_back(&mut self, alloc: Global, extents: &ExtentList) -> Result<(), OutOfMemory>
        ensures gives { AreApart (blocks_of extents.now) → AreUsed self.old.map (blocks_of extents.now) → OnOk result (self.new ≡ record self.old { map = given extents.now self.old.map }) }
        // Also where memory is wanting, it is a bitmap of the same volume.
        ensures keeps { length self.old.map.changed ≡ sectors_for (length self.old.map.used) → KeepsMap self.old.map self.new.map }
        // Each block that was used or held is used or held, then too.
        ensures none_lost { LosesNone self.old.map self.new.map }
        // At most one sector of the bitmap for each block has bits that were changed, then too.
        ensures few { count_set self.new.map.changed ≤ count_set self.old.map.changed + length (blocks_of extents.now) }
        ensures rest { self.new ≡ record self.old { map = self.new.map } }
    {
        give_all(alloc, &mut self.map, extents.as_slice())
    }

    /// Counts the free blocks of the bitmap in the header, and puts those sectors of the bitmap that were changed since the last keep, and the
    /// header (TN1150, "Allocation File").
    pub fn put_blocks<P: SectorSpace>(&mut self, space: &mut P)
        requires stands { StandsOver self.old (P.SectorView.space space.old) }
        requires unchanged { IsTrue (P.SectorView.space space.old).tells → HoldsUnchanged self.old (P.SectorView.space space.old).content }
        requires room { unput (P.SectorView.space space.old).put (changed_sectors self.old) + 1 ≤ (P.SectorView.space space.old).spare }
        ensures stands { StandsOver self.new (P.SectorView.space space.new) }
        ensures counted { self.new ≡ counted_anew self.old }
        ensures put { IsTrue (P.SectorView.space space.old).tells → PutsCounted self.new (P.SectorView.space space.old).content (P.SectorView.space space.new).content }
        ensures is_put { IsTrue (P.SectorView.space space.old).tells → IsTrue ((P.SectorView.space space.new).put 2) }
        ensures within { PutsWithin (2 ∷ map_sectors self.old) (P.SectorView.space space.old) (P.SectorView.space space.new) }
        ensures spent { (P.SectorView.space space.old).spare ≤ (P.SectorView.space space.new).spare + (unput (P.SectorView.space space.old).put (changed_sectors self.old) + 1) }
        ensures faults { (P.SectorView.space space.new).faults ≡ (P.SectorView.space space.old).faults }
        ensures below { P.SectorView.follows space.old space.new }
    {
        self.header = with_free_count(&self.header, self.map.count_all());
        put_map(self, space);
        self.put_header(space);
    }

    /// Gives the blocks of an old value back, behind a change that took blocks by which bits in so many sectors of the bitmap at most were changed: 0 where
    /// none was taken. Where some are given back or were taken, the free blocks are counted in the header, and bitmap and header are put; else nothing
    /// is done. `OutOfMemory` comes too where the room that there is doesn't suffice for these puts, by what is known of them before.
    pub fn trade_blocks<P: SectorSpace>(
        &mut self,
        alloc: Global,
        space: &mut P,
        old: &ExtentList,
        touched: u64,
    ) -> Result<(), OutOfMemory>
        requires stands { StandsOver self.old (P.SectorView.space space.old) }
        requires unchanged { IsTrue (P.SectorView.space space.old).tells → HoldsUnchanged self.old (P.SectorView.space space.old).content }
        requires touched { count_set self.old.map.changed ≤ touched }
        requires apart { IsTrue (P.SectorView.space space.old).tells → AreApart (blocks_of old.now) }
        requires used { IsTrue (P.SectorView.space space.old).tells → AreUsed self.old.map (blocks_of old.now) }
        ensures stands { OnOk result (StandsOver self.new (P.SectorView.space space.new)) }
        ensures service { IsInService self.new (P.SectorView.space space.new) }
        ensures trades { IsTrue (P.SectorView.space space.old).tells → OnOk result (self.new ≡ traded (takes_some touched) old.now self.old) }
        ensures put { IsTrue (P.SectorView.space space.old).tells → OnOk result (PutsTraded (takes_some touched) old.now self.new (P.SectorView.space space.old).content (P.SectorView.space space.new).content) }
        ensures is_put { IsTrue (P.SectorView.space space.old).tells → is_trade (takes_some touched) old.now ≡ true → OnOk result (IsTrue ((P.SectorView.space space.new).put 2)) }
        ensures rest { self.new ≡ record self.old { map = self.new.map; header = self.new.header } }
        ensures own { own_sectors self.new ≡ own_sectors self.old }
        // No block that a content has in use is lost.
        ensures used { KeepsUsed self.old self.new }
        ensures within { PutsWithin (2 ∷ map_sectors self.old) (P.SectorView.space space.old) (P.SectorView.space space.new) }
        ensures spent { (P.SectorView.space space.old).spare ≤ (P.SectorView.space space.new).spare + trade_load touched old.now self.old }
        ensures faults { (P.SectorView.space space.new).faults ≡ (P.SectorView.space space.old).faults }
        ensures below { P.SectorView.follows space.old space.new }
    {
        if !is_trade(touched, old) {
            return Ok(());
        }
        let sectors = self.count_traded(old, touched);
        self.give_back(alloc, old)?;
        if space.spare() < sectors {
            return Err(OutOfMemory);
        }
        self.put_blocks(space);
        Ok(())
    }
}
