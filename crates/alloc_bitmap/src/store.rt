//! A bitmap written to its file.
ghost use Rattle.std.specs.Prelude.{◌≡◌, ◌⊎◌, ◌≤◌, ◌<◌, ◌+◌, ◌*◌, ◌/◌, ◌^◌, ℕ, true, false, IsTrue, length, slice_get, slice_index_or, List, []};
ghost use Rattle.std.specs.List.{All};
ghost use Rattle.sector_disk.specs.Clock.{TimePasses};
ghost use Rattle.sector_disk.specs.Space.{SameSpace, LeavesDurable};
ghost use Rattle.sector_disk.specs.Putting.{unput, PutsThese, TakesRoomOf};
ghost use Rattle.fork_map.specs.Blocks.{blocks_of, fork_sectors};
ghost use Rattle.alloc_bitmap.specs.Apart.{AreApart};
ghost use Rattle.flag_rows.specs.Bits.{bit_of, sectors_for};
ghost use Rattle.alloc_bitmap.specs.Fork.{fork_bit, HoldsBits, IsChanged, ClearsRest, changed_of};

use crate::Bitmap;
use flag_rows::Bits;
use fork_map::SummedFork;
use hx_bytes::Sector;
use sector_disk::{SectorSpace, SectorsToPut, put_list};

impl Bitmap {
    /// Puts the sectors of the bitmap that were changed since the last keep.
    pub fn store<P: SectorSpace>(&self, space: &mut P)
        requires inside { All (λ sector. sector < (P.SectorView.space space.old).sectors) (fork_sectors self.now.fork self.now.per_block) }
        requires enough { sectors_for (length self.now.used) ≤ length (fork_sectors self.now.fork self.now.per_block) }
        requires apart { IsTrue (P.SectorView.space space.old).tells → AreApart (blocks_of self.now.fork) }
        requires open { IsTrue (P.SectorView.space space.old).tells → (sector : ℕ) → IsChanged (fork_sectors self.now.fork self.now.per_block) self.now.changed sector → (P.SectorView.space space.old).closed sector → ⊥ }
        requires others { IsTrue (P.SectorView.space space.old).tells → (k : ℕ) → k < length self.now.used → slice_index_or self.now.changed (k / 4096) false ≡ false
            → fork_bit (P.SectorView.space space.old).content (fork_sectors self.now.fork self.now.per_block) k ≡ slice_index_or self.now.used k false }
        requires room { unput (P.SectorView.space space.old).put (changed_of (fork_sectors self.now.fork self.now.per_block) self.now.changed) ≤ (P.SectorView.space space.old).spare }
        ensures holds { IsTrue (P.SectorView.space space.old).tells → HoldsBits (P.SectorView.space space.new).content (fork_sectors self.now.fork self.now.per_block) self.now.used }
        ensures puts { IsTrue (P.SectorView.space space.old).tells → PutsThese (IsChanged (fork_sectors self.now.fork self.now.per_block) self.now.changed) (P.SectorView.space space.old) (P.SectorView.space space.new) }
        // Bits past the last block are stored clear, in sectors of 512 bytes.
        ensures rest { IsTrue (P.SectorView.space space.old).tells → ClearsRest (P.SectorView.space space.new).content (fork_sectors self.now.fork self.now.per_block) self.now.changed self.now.used }
        ensures whole { IsTrue (P.SectorView.space space.old).tells → (sector : ℕ) → IsChanged (fork_sectors self.now.fork self.now.per_block) self.now.changed sector → length (slice_index_or (P.SectorView.space space.new).content sector []) ≡ 512 }
        ensures time { IsTrue (P.SectorView.space space.old).tells → TimePasses (P.SectorView.space space.old).clock (P.SectorView.space space.new).clock (LeavesDurable (P.SectorView.space space.new)) }
        ensures room { TakesRoomOf (IsChanged (fork_sectors self.now.fork self.now.per_block) self.now.changed) (unput (P.SectorView.space space.old).put (changed_of (fork_sectors self.now.fork self.now.per_block) self.now.changed)) (P.SectorView.space space.old) (P.SectorView.space space.new) }
        ensures same { SameSpace (P.SectorView.space space.old) (P.SectorView.space space.new) }
        ensures below { P.SectorView.follows space.old space.new }
        ensures faults { (P.SectorView.space space.new).faults ≡ (P.SectorView.space space.old).faults }
    {
        store_changed(
            space,
            self.used.row().bits(),
            &self.changed,
            &self.fork,
            self.block / 512,
        );
    }
}

/// The changed sectors of a bitmap's file from a place on, each with the bits that it has now.
#[derive(Drop)]
struct ChangedSectors<'a> {
    used: &'a Bits,
    changed: &'a Bits,
    fork: &'a SummedFork,
    per_block: u32,
    /// The sectors of the file before this place were told.
    place: usize,
    ghost small: { per_block ≤ 2 ^ 23 },
    ghost size: { length changed.now ≡ sectors_for (length used.now) },
}

impl SectorsToPut for ChangedSectors<'_> {
    ghost use Rattle.std.specs.Prelude.{drop};
    ghost use Rattle.alloc_bitmap.specs.Fork.{changed_of, HoldsPart};
    ghost use Rattle.fork_map.specs.Blocks.{fork_sectors};

    ghost places = { λ s. changed_of (drop s.place (fork_sectors s.fork.now s.per_block)) (drop s.place s.changed.now) };

    ghost belongs = { λ s at bytes. HoldsPart (fork_sectors s.fork.now s.per_block) s.changed.now s.used.now at bytes };

    fn next(&mut self, into: &mut Sector) -> Option<u64> {
        let count = self.changed.len();
        if self.place >= count {
            return None;
        }
        let place = self.changed.first(self.place, true);
        if place >= count {
            return None;
        }
        let Some(at) = self.fork.sector_at(self.per_block, place as u64) else {
            return None;
        };
        self.used.read_sector(place, into);
        self.place = place + 1;
        Some(at)
    }
}

/// Puts the changed ones of the sectors that these bits take.
fn store_changed<P: SectorSpace>(
    space: &mut P,
    used: &Bits,
    changed: &Bits,
    fork: &SummedFork,
    per_block: u32,
)
    requires small { per_block ≤ 2 ^ 23 }
    requires size { length changed.now ≡ sectors_for (length used.now) }
    requires inside { All (λ sector. sector < (P.SectorView.space space.old).sectors) (fork_sectors fork.now per_block) }
    requires enough { sectors_for (length used.now) ≤ length (fork_sectors fork.now per_block) }
    requires apart { IsTrue (P.SectorView.space space.old).tells → AreApart (blocks_of fork.now) }
    requires open { IsTrue (P.SectorView.space space.old).tells → (sector : ℕ) → IsChanged (fork_sectors fork.now per_block) changed.now sector → (P.SectorView.space space.old).closed sector → ⊥ }
    requires others { IsTrue (P.SectorView.space space.old).tells → (k : ℕ) → k < length used.now → slice_index_or changed.now (k / 4096) false ≡ false
        → fork_bit (P.SectorView.space space.old).content (fork_sectors fork.now per_block) k ≡ slice_index_or used.now k false }
    requires room { unput (P.SectorView.space space.old).put (changed_of (fork_sectors fork.now per_block) changed.now) ≤ (P.SectorView.space space.old).spare }
    ensures holds { IsTrue (P.SectorView.space space.old).tells → HoldsBits (P.SectorView.space space.new).content (fork_sectors fork.now per_block) used.now }
    ensures puts { IsTrue (P.SectorView.space space.old).tells → PutsThese (IsChanged (fork_sectors fork.now per_block) changed.now) (P.SectorView.space space.old) (P.SectorView.space space.new) }
    // Bits past the last block are stored clear, in sectors of 512 bytes.
    ensures rest { IsTrue (P.SectorView.space space.old).tells → ClearsRest (P.SectorView.space space.new).content (fork_sectors fork.now per_block) changed.now used.now }
    ensures whole { IsTrue (P.SectorView.space space.old).tells → (sector : ℕ) → IsChanged (fork_sectors fork.now per_block) changed.now sector → length (slice_index_or (P.SectorView.space space.new).content sector []) ≡ 512 }
    ensures time { IsTrue (P.SectorView.space space.old).tells → TimePasses (P.SectorView.space space.old).clock (P.SectorView.space space.new).clock (LeavesDurable (P.SectorView.space space.new)) }
    ensures room { TakesRoomOf (IsChanged (fork_sectors fork.now per_block) changed.now) (unput (P.SectorView.space space.old).put (changed_of (fork_sectors fork.now per_block) changed.now)) (P.SectorView.space space.old) (P.SectorView.space space.new) }
    ensures same { SameSpace (P.SectorView.space space.old) (P.SectorView.space space.new) }
    ensures below { P.SectorView.follows space.old space.new }
    ensures faults { (P.SectorView.space space.new).faults ≡ (P.SectorView.space space.old).faults }
{
    let mut list = ChangedSectors {
        used,
        changed,
        fork,
        per_block,
        place: 0,
    };
    put_list(space, &mut list);
}
