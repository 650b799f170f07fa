//! Places that are marked, a bit for each.
ghost use Rattle.std.specs.Prelude.{◌≡◌, ◌⊎◌, ◌<◌, ◌≤◌, ◌^◌, ℕ, true, false, not, length, replicate, slice_index_or, slice_set, IfOk, OnOk, OnErr, if◌then◌else◌};
ghost use Rattle.flag_rows.specs.Bits.{count_set};

use crate::pieces::Pieces;
use hx_bytes::OutOfMemory;
use std::alloc::Global;
use std::marker::Model;

/// So many places, and how many of them are marked. Those that are marked take memory, and those beside them: 1 KiB for 8,192 places.
#[derive(Drop)]
pub struct Marks {
    flags: Pieces,
    count: u32,
}

impl Model for Marks {
    ghost use Rattle.std.specs.Prelude.{List, Bool, ◌≡◌};
    ghost use Rattle.flag_rows.specs.Bits.{count_set};

    ghost Value = { List Bool };

    ghost view = { λ m. m.flags };

    ghost invariant = { λ m. m.count ≡ count_set m.flags };
}

impl Marks {
    /// So many places, none of them marked.
    pub fn new(alloc: Global, places: u32) -> Result<Marks, OutOfMemory>
        ensures { IfOk result (λ marks. marks ≡ replicate places false) }
    {
        let flags = Pieces::new(alloc, places)?;
        Ok(Marks { flags, count: 0 })
    }

    /// How many places there are.
    pub fn len(&self) -> usize
        ensures { result ≡ length self.now }
    {
        self.flags.len()
    }

    /// How many are marked.
    pub fn count(&self) -> u32
        ensures { result ≡ count_set self.now }
    {
        self.count
    }

    /// Whether a place is marked; past the last one none is.
    pub fn has(&self, at: u32) -> bool
        ensures { result ≡ slice_index_or self.now at false }
    {
        let at = at as usize;
        at < self.flags.len() && self.flags.get(at)
    }

    /// Marks a place, and says whether it could: it is none of the places, or is marked already, where it couldn't.
    pub fn mark(&mut self, at: u32) -> Result<bool, OutOfMemory>
        ensures could { IfOk result (λ could. could ≡ not (slice_index_or self.old at true)) }
        ensures marks { IfOk result (λ could. self.new ≡ (if could then slice_set self.old at true else self.old)) }
        ensures same { OnErr result (self.new ≡ self.old) }
    {
        let at = at as usize;
        if at >= self.flags.len() {
            return Ok(false);
        }
        let stop = self.flags.set_clear(at, at + 1)?;
        if stop == at {
            return Ok(false);
        }
        self.count += 1;
        Ok(true)
    }

    /// Marks the places from one up to another that come before the first of them that is marked already, up to some place, which it says:
    /// the other one, or the last of them, or that before which it ended.
    fn mark_some(&mut self, from: usize, to: usize) -> Result<usize, OutOfMemory>
        requires order { from < to }
        requires inside { to ≤ length self.old }
        ensures long { length self.new ≡ length self.old }
        ensures from { IfOk result (λ stop. from ≤ stop) }
        ensures to { IfOk result (λ stop. stop ≤ to) }
        ensures found { IfOk result (λ stop. stop ≡ from → slice_index_or self.old from false ≡ true) }
        ensures sets { IfOk result (λ stop. (k : ℕ) → from ≤ k → k < stop → slice_index_or self.new k false ≡ true) }
        ensures stays { (k : ℕ) → slice_index_or self.old k false ≡ true → slice_index_or self.new k false ≡ true }
        ensures keeps { IfOk result (λ stop. (k : ℕ) → (k < from) ⊎ (stop ≤ k) → slice_index_or self.new k false ≡ slice_index_or self.old k false) }
        ensures same { OnErr result (self.new ≡ self.old) }
    {
        let _count = self.flags.len();
        let stop = self.flags.set_clear(from, to)?;
        self.count += (stop - from) as u32;
        Ok(stop)
    }

    /// Marks the places from one up to another that come before the first of them that is marked already. Where there is no memory, some of
    /// them are marked.
    pub fn mark_stretch(&mut self, from: u64, to: u64) -> Result<(), OutOfMemory>
        ensures long { length self.new ≡ length self.old }
        ensures sets { OnOk result (((k : ℕ) → from ≤ k → k < to → slice_index_or self.old k false ≡ false) → (k : ℕ) → from ≤ k → k < to → k < length self.old → slice_index_or self.new k false ≡ true) }
        ensures stays { (k : ℕ) → slice_index_or self.old k false ≡ true → slice_index_or self.new k false ≡ true }
        ensures keeps { (k : ℕ) → (k < from) ⊎ (to ≤ k) → slice_index_or self.new k false ≡ slice_index_or self.old k false }
    {
        let end = to.min(self.flags.len() as u64) as usize;
        if from >= end as u64 {
            return Ok(());
        }
        let mut at = from as usize;
        while at < end {
            let stop = self.mark_some(at, end)?;
            if stop == at {
                return Ok(());
            }
            at = stop;
        }
        Ok(())
    }
}
