//! The bitmap of a volume.
ghost use Rattle.std.specs.Prelude.{◌≡◌, ◌↔◌, ◌≤◌, ◌*◌, ◌/◌, ◌^◌, true, false, length, map, List, IsTrue, OnOk, OnErr, IfOk};
ghost use Rattle.hx_bytes.specs.declared.extents.Extent.{Extent};
ghost use Rattle.flag_rows.specs.Bits.{count_set, mark, sectors_for};
ghost use Rattle.flag_rows.specs.Marks.{mark_all, Fit};
ghost use Rattle.flag_rows.specs.Runs.{runs_of, longest_first, longest_of, fewest_of};
ghost use Rattle.alloc_bitmap.specs.Map.{BlockMap, free_of, unused_of, none, touched_by, Have, PicksFree};
ghost use Rattle.fork_map.specs.Cut.{front};

use crate::holds::Holds;
use crate::log::Used;
use flag_rows::{Bits, Row};
use fork_map::{ExtentList, SummedFork};
use hx_bytes::{Extent, OutOfMemory};
use std::alloc::Global;
use std::marker::Model;

/// Which blocks of a volume are used (TN1150, "Allocation File"), which are held, and what a command changed.
#[derive(Drop)]
pub struct Bitmap {
    pub(crate) used: Used,
    holds: Holds,
    /// Which blocks are used or held.
    taken: Row,
    pub(crate) changed: Bits,
    pub(crate) fork: SummedFork,
    pub(crate) block: u32,
}

impl Model for Bitmap {
    ghost use Rattle.std.specs.Prelude.{◌/◌};
    ghost use Rattle.alloc_bitmap.specs.Map.{BlockMap, IsMap};

    ghost Value = { BlockMap };

    ghost view = { λ b. record { used = b.used.flags; held = b.holds.flags; changed = b.changed; kept_used = b.used.kept; kept_held = b.holds.kept; fork = b.fork; per_block = b.block / 512 } };

    ghost invariant = { λ b. IsMap b.used b.holds b.changed b.taken };
}

impl Bitmap {
    /// None of the blocks is held, and nothing changed.
    pub(crate) fn of_bits(
        alloc: Global,
        bits: Bits,
        fork: SummedFork,
        block: u32,
    ) -> Result<Bitmap, OutOfMemory>
        ensures { IfOk result (λ map. map ≡ record { used = bits; held = none (length bits); changed = none (sectors_for (length bits)); kept_used = bits; kept_held = none (length bits); fork = fork; per_block = block / 512 }) }
    {
        let total = bits.len();
        let changed = Bits::clear(alloc, (total + 4095) / 4096)?;
        let row = Row::of_bits(alloc, bits)?;
        let taken = row.copy(alloc)?;
        Ok(Bitmap {
            used: Used::new(alloc, row),
            holds: Holds::new(alloc, total as u32),
            taken,
            changed,
            fork,
            block,
        })
    }

    /// How many blocks the volume has.
    pub fn total(&self) -> u32
        ensures { result ≡ length self.now.used }
    {
        self.used.row().bits().len() as u32
    }

    /// The extents of the bitmap's file.
    pub fn fork(&self) -> &ExtentList
        ensures { result.now ≡ self.now.fork }
    {
        self.fork.list()
    }

    /// How many sectors of 512 bytes a block has.
    pub fn per_block(&self) -> u32
        ensures count { result ≡ self.now.per_block }
        ensures bound { result ≤ 2 ^ 23 }
    {
        self.block / 512
    }

    /// How many blocks are free to take.
    pub fn count_free(&self) -> u32
        ensures { result ≡ count_set (free_of self.now) }
    {
        self.taken.count_clear()
    }

    /// How many blocks are free, the held ones too.
    pub fn count_all(&self) -> u32
        ensures { result ≡ count_set (unused_of self.now) }
    {
        self.used.row().count_clear()
    }

    /// The length of the longest run of blocks that are free to take.
    pub fn longest(&self) -> u32
        ensures { result ≡ longest_of (runs_of (free_of self.now)) }
    {
        self.taken.longest()
    }

    /// The length of the longest run of free blocks, the held ones too.
    pub fn longest_all(&self) -> u32
        ensures { result ≡ longest_of (runs_of (unused_of self.now)) }
    {
        self.used.row().longest()
    }

    /// How many runs of blocks that are free to take, longest first, have `n` blocks together, or how many there are.
    pub fn fewest(&self, n: u32) -> u32
        ensures { result ≡ fewest_of n (longest_first (runs_of (free_of self.now))) }
    {
        self.taken.fewest(n)
    }

    /// How many runs of free blocks, the held ones too, have `n` blocks together, or how many there are.
    pub fn fewest_all(&self, n: u32) -> u32
        ensures { result ≡ fewest_of n (longest_first (runs_of (unused_of self.now))) }
    {
        self.used.row().fewest(n)
    }

    /// Whether the blocks of an extent lie in the volume and are all used, or all unused.
    pub fn have(&self, e: Extent, used: bool) -> bool
        ensures { IsTrue result ↔ Have self.now.used e used }
    {
        let bits = self.used.row().bits();
        let start = e.start as usize;
        let end = start + e.count as usize;
        if bits.len() < end {
            return false;
        }
        bits.first_before(start, end, !used) == end
    }

    /// Ends all holds.
    pub fn settle(&mut self)
        ensures { self.new ≡ record self.old { held = none (length self.old.used); kept_held = none (length self.old.used) } }
    {
        self.holds.settle(&mut self.taken);
    }

    /// Ends a command: what it changed stays.
    pub fn keep(&mut self)
        ensures { self.new ≡ record self.old { changed = none (length self.old.changed); kept_used = self.old.used; kept_held = self.old.held } }
    {
        self.used.keep();
        self.holds.keep();
        self.changed.clear_all();
    }

    /// Ends a command: all is again as at the last keep, but that holds ended by a settle stay ended.
    pub fn undo(&mut self)
        ensures { self.new ≡ record self.old { used = self.old.kept_used; held = self.old.kept_held; changed = none (length self.old.changed) } }
    {
        self.holds.undo(&mut self.taken);
        self.used.undo(&mut self.taken);
        self.holds.mark_in(&mut self.taken);
        self.changed.clear_all();
    }

    /// Holds blocks that aren't used.
    pub fn hold(&mut self, alloc: Global, e: Extent) -> Result<(), OutOfMemory>
        requires { Have self.old.used e false }
        ensures held { OnOk result (self.new ≡ record self.old { held = mark self.old.held e true }) }
        ensures same { OnErr result (self.new ≡ self.old) }
    {
        self.holds.reserve()?;
        self.holds.add(e);
        self.taken.set(e, true);
        Ok(())
    }

    /// Frees blocks that are used, and holds them.
    pub fn give(&mut self, alloc: Global, e: Extent) -> Result<(), OutOfMemory>
        requires { Have self.old.used e true }
        ensures given { OnOk result (self.new ≡ record self.old { used = mark self.old.used e false; held = mark self.old.held e true; changed = mark self.old.changed (touched_by e) true }) }
        ensures same { OnErr result (self.new ≡ self.old) }
    {
        self.holds.reserve()?;
        self.used.change_all(&[e], false)?;
        self.holds.add(e);
        touch_all(&mut self.changed, &[e]);
        Ok(())
    }

    /// Takes `n` blocks that are free and not held: the first blocks of the runs, longest first, and of those of one length the first.
    pub fn take(&mut self, alloc: Global, n: u32) -> Result<ExtentList, OutOfMemory>
        requires { n ≤ count_set (free_of self.old) }
        ensures rule { IfOk result (λ list. list ≡ front n (longest_first (runs_of (free_of self.old)))) }
        ensures free { IfOk result (λ list. PicksFree (free_of self.old) n list) }
        // No other way to pick so many free blocks has fewer extents.
        ensures fewest { IfOk result (λ list. (others : List Extent) → PicksFree (free_of self.old) n others → length list ≤ length others) }
        ensures taken { IfOk result (λ list. self.new ≡ record self.old { used = mark_all self.old.used list true; changed = mark_all self.old.changed (map (λ extent. touched_by extent) list) true }) }
        ensures same { OnErr result (self.new ≡ self.old) }
    {
        let _total = self.used.row().bits().len();
        let list = self.taken.take(alloc, n)?;
        match self.used.change_all(list.as_slice(), true) {
            Ok(()) => {}
            Err(fault) => {
                self.taken.set_all(list.as_slice(), false);
                return Err(fault);
            }
        }
        touch_all(&mut self.changed, list.as_slice());
        Ok(list)
    }

    /// The `n` blocks that a take would give. None of them is taken.
    pub fn pick(&mut self, alloc: Global, n: u32) -> Result<ExtentList, OutOfMemory>
        requires { n ≤ count_set (free_of self.old) }
        ensures rule { IfOk result (λ list. list ≡ front n (longest_first (runs_of (free_of self.old)))) }
        ensures free { IfOk result (λ list. PicksFree (free_of self.old) n list) }
        ensures same { self.new ≡ self.old }
    {
        let picked = self.taken.take(alloc, n)?;
        self.taken.set_all(picked.as_slice(), false);
        Ok(picked)
    }
}

/// The sectors of the bitmap in which an extent has bits.
fn touched(extent: Extent) -> Extent
    ensures { result ≡ touched_by extent }
{
    let start = extent.start / 4096;
    if extent.count == 0 {
        return Extent { start, count: 0 };
    }
    let end = (extent.start as u64 + extent.count as u64 + 4095) / 4096;
    Extent {
        start,
        count: (end - start as u64) as u32,
    }
}

/// Notes which sectors of the bitmap changed.
fn touch_all(changed: &mut Bits, list: &[Extent])
    requires { Fit (length changed.old * 4096) list.now }
    ensures { changed.new ≡ mark_all changed.old (map (λ extent. touched_by extent) list.now) true }
{
    for extent in list {
        changed.fill(touched(*extent), true);
    }
}
