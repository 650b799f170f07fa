//! Blocks that are held, as a list of extents.
ghost use Rattle.std.specs.Prelude.{◌≡◌, ◌<◌, ◌≤◌, ◌+◌, ◌||◌, ◌&&◌, not, ℕ, true, false, length, replicate, slice_index_or, OnOk};
ghost use Rattle.flag_rows.specs.Bits.{mark};

use flag_rows::Row;
use hx_bytes::{Extent, OutOfMemory};
use std::alloc::Global;
use std::marker::Model;

/// Blocks that are held, and those of the last keep.
#[derive(Drop)]
pub struct Holds {
    blocks: u32,
    list: Vec<Extent>,
    kept: usize,
}

impl Model for Holds {
    ghost use Rattle.std.specs.Prelude.{take, vec_capacity, vec_len, ◌-◌};
    ghost use Rattle.alloc_bitmap.specs.Kept.{Held, held_by, AreHolds};

    ghost Value = { Held };

    ghost view = { λ h. record { flags = held_by h.blocks h.list.items; kept = held_by h.blocks (take h.kept h.list.items); room = vec_capacity h.list - vec_len h.list } };

    ghost invariant = { λ h. AreHolds h.blocks h.list.items h.kept };
}

impl Holds {
    /// None of so many blocks is held.
    pub fn new(alloc: Global, blocks: u32) -> Holds
        ensures flags { result.flags ≡ replicate blocks false }
        ensures kept { result.kept ≡ replicate blocks false }
    {
        Holds {
            blocks,
            list: Vec::new(alloc),
            kept: 0,
        }
    }

    /// Finds memory for one more extent.
    pub fn reserve(&mut self) -> Result<(), OutOfMemory>
        ensures room { OnOk result (0 < self.new.room) }
        ensures flags { self.new.flags ≡ self.old.flags }
        ensures kept { self.new.kept ≡ self.old.kept }
    {
        self.list.reserve(1)?;
        Ok(())
    }

    /// Holds the blocks of an extent, for which there is memory.
    pub fn add(&mut self, extent: Extent)
        requires inside { extent.start + extent.count ≤ length self.old.flags }
        requires room { 0 < self.old.room }
        ensures added { self.new.flags ≡ mark self.old.flags extent true }
        ensures kept { self.new.kept ≡ self.old.kept }
    {
        let _pushed = self.list.push(extent);
    }

    pub fn keep(&mut self)
        ensures flags { self.new.flags ≡ self.old.flags }
        ensures kept { self.new.kept ≡ self.old.flags }
    {
        self.kept = self.list.len();
    }

    /// Ends all holds, and clears the flags of the blocks that were held.
    pub fn settle(&mut self, taken: &mut Row)
        requires { length taken.old ≡ length self.old.flags }
        ensures flags { self.new.flags ≡ replicate (length self.old.flags) false }
        ensures kept { self.new.kept ≡ replicate (length self.old.flags) false }
        ensures size { length taken.new ≡ length taken.old }
        ensures cleared { (k : ℕ) → k < length taken.old → slice_index_or taken.new k false ≡ (slice_index_or taken.old k false && not (slice_index_or self.old.flags k false)) }
    {
        taken.set_all(self.list.as_slice(), false);
        self.list.clear();
        self.kept = 0;
    }

    /// Goes back to the last keep, or to no hold where there was a settle since, and clears the flags of the blocks whose hold ends.
    pub fn undo(&mut self, taken: &mut Row)
        requires { length taken.old ≡ length self.old.flags }
        ensures flags { self.new.flags ≡ self.old.kept }
        ensures kept { self.new.kept ≡ self.old.kept }
        ensures size { length taken.new ≡ length taken.old }
        ensures cleared { (k : ℕ) → slice_index_or self.old.flags k false ≡ true → slice_index_or self.old.kept k false ≡ false → slice_index_or taken.new k false ≡ false }
        ensures others { (k : ℕ) → slice_index_or self.old.flags k false ≡ false → slice_index_or taken.new k false ≡ slice_index_or taken.old k false }
    {
        let dropped = &self.list[self.kept..];
        taken.set_all(dropped, false);
        self.list.truncate(self.kept);
    }

    /// Sets the flags of the held blocks.
    pub fn mark_in(&self, taken: &mut Row)
        requires { length taken.old ≡ length self.now.flags }
        ensures size { length taken.new ≡ length taken.old }
        ensures marked { (k : ℕ) → k < length taken.old → slice_index_or taken.new k false ≡ (slice_index_or self.now.flags k false || slice_index_or taken.old k false) }
    {
        taken.set_all(self.list.as_slice(), true);
    }
}
