//! Sectors that were written and not yet handed over: one run of neighbours.
ghost use Rattle.std.specs.Prelude.{◌≡◌, ◌↔◌, ◌+◌, IsTrue, IsFalse, [], length, MatchOption, IfOk};
ghost use Rattle.file_rig.specs.Runs.{IsIn, IsApart, Takes, value_in};

use hx_bytes::Sector;
use std::alloc::{AllocError, Global};
use std::marker::Model;

/// The most sectors that are gathered: 64 KiB.
const MOST_GATHERED: usize = 128;

/// A run of sectors, with the last value written to each.
#[derive(Drop)]
pub struct Gathered {
    first: u64,
    run: Vec<Sector>,
}

impl Model for Gathered {
    ghost use Rattle.std.specs.Prelude.{◌≤◌, vec_len, vec_capacity};
    ghost use Rattle.file_rig.specs.Runs.{Run};

    ghost Value = { Run };

    ghost view = { λ gathered. record { first = gathered.first; values = gathered.run.items } };

    ghost invariant = { λ gathered. 128 ≤ vec_capacity gathered.run };
}

impl Gathered {
    /// An empty run, with room for all that it may gather.
    pub fn new(alloc: Global) -> Result<Gathered, AllocError>
        ensures { IfOk result (λ run. (run.first ≡ 0) × (run.values ≡ [])) }
    {
        Ok(Gathered {
            first: 0,
            run: Vec::with_capacity(alloc, MOST_GATHERED)?,
        })
    }

    /// Whether it has no sector.
    pub fn is_empty(&self) -> bool
        ensures { IsTrue result ↔ (self.now.values ≡ []) }
    {
        self.run.is_empty()
    }

    /// The number of its first sector.
    pub fn first(&self) -> u64
        ensures { result ≡ self.now.first }
    {
        self.first
    }

    /// Its sectors, in order.
    pub fn values(&self) -> &[Sector]
        ensures { result.now ≡ self.now.values }
    {
        self.run.as_slice()
    }

    /// A sector's value, where it is in the run.
    pub fn get(&self, at: u64) -> Option<&Sector>
        ensures { MatchOption result (IsIn self.now at → ⊥) (λ value. IsIn self.now at × (value.now ≡ value_in self.now at)) }
    {
        let place = at.checked_sub(self.first)?;
        self.run.get(place as usize)
    }

    /// Whether none of these sectors is in the run.
    pub fn is_apart(&self, first: u64, count: u64) -> bool
        ensures { IsTrue result → IsApart self.now first count }
    {
        match first.checked_add(count) {
            Some(end) => {
                end <= self.first
                    || (self.first <= first && first - self.first >= self.run.len() as u64)
            }
            None => false,
        }
    }

    /// Takes a sector that is in the run, or its next neighbour, or any where the run is empty, and says whether it did.
    pub fn put(&mut self, at: u64, value: &Sector) -> bool
        ensures taken { IsTrue result → Takes self.old at value.now self.new }
        ensures refused { IsFalse result → self.new ≡ self.old }
        ensures begins { self.old.values ≡ [] → IsTrue result }
    {
        if self.run.is_empty() {
            self.first = at;
            return self.run.push(*value).is_ok();
        }
        match at.checked_sub(self.first) {
            Some(place) => self.put_at(place as usize, value),
            None => false,
        }
    }

    // The same at a place of the run.
    fn put_at(&mut self, place: usize, value: &Sector) -> bool
        ensures taken { IsTrue result → Takes self.old (self.old.first + place) value.now self.new }
        ensures refused { IsFalse result → self.new ≡ self.old }
    {
        if place < self.run.len() {
            self.run[place] = *value;
            return true;
        }
        if place != self.run.len() || place >= MOST_GATHERED {
            return false;
        }
        self.run.push(*value).is_ok()
    }

    /// Forgets the run.
    pub fn clear(&mut self)
        ensures first { self.new.first ≡ self.old.first }
        ensures values { self.new.values ≡ [] }
    {
        self.run.clear();
    }
}
