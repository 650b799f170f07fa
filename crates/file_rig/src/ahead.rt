//! Sectors that were read ahead: a run of neighbours, with what was written to them since.
ghost use Rattle.std.specs.Prelude.{◌≡◌, ◌⊎◌, ◌≤◌, ◌+◌, IsTrue, IsFalse, [], length, take, drop, MatchOption, IfOk};
ghost use Rattle.file_rig.specs.Runs.{IsIn, Changes, value_in};

use crate::place::Place;
use hx_bytes::Sector;
use std::alloc::{AllocError, Global};
use std::marker::Model;

/// How many sectors are read at once: a page of 4 KiB at first, and 32 KiB at most.
const PAGE: usize = 8;

const MOST_AHEAD: usize = 64;

/// A run of sectors.
#[derive(Drop)]
pub struct Ahead {
    first: u64,
    values: Vec<Sector>,
}

/// Sectors that stand side by side.
#[derive(Clone, Copy)]
pub struct Stretch {
    pub first: u64,
    pub count: usize,
}

impl Model for Ahead {
    ghost use Rattle.file_rig.specs.Runs.{Run};

    ghost Value = { Run };

    ghost view = { λ ahead. record { first = ahead.first; values = ahead.values.items } };
}

impl Stretch {
    /// Whether it ends before the last of so many sectors.
    pub fn fits(&self, sectors: u64) -> bool
        ensures { IsTrue result → self.now.first + self.now.count ≤ sectors }
    {
        match self.first.checked_add(self.count as u64) {
            Some(end) => end <= sectors,
            None => false,
        }
    }
}

impl Ahead {
    /// Nothing is read yet.
    pub fn new(alloc: Global) -> Result<Ahead, AllocError>
        ensures { IfOk result (λ run. run.values ≡ []) }
    {
        Ok(Ahead {
            first: 0,
            values: Vec::with_capacity(alloc, MOST_AHEAD)?,
        })
    }

    /// A sector's value, where it is in the run.
    pub fn get(&self, at: u64) -> Option<&Sector>
        ensures { MatchOption result (IsIn self.now at → ⊥) (λ value. IsIn self.now at × (value.now ≡ value_in self.now at)) }
    {
        let place = at.checked_sub(self.first)? as usize;
        self.values.get(place)
    }

    /// What is read for a sector that isn't in the run: its page, or twice as many sectors as the run has, where it is the next behind the run.
    pub fn stretch_for(&self, at: u64) -> Stretch
        ensures { result.count ≤ MOST_AHEAD }
    {
        let count = self.values.len();
        if count > 0 && at == self.first.saturating_add(count as u64) {
            return Stretch {
                first: at,
                count: count.saturating_mul(2).min(MOST_AHEAD),
            };
        }
        Stretch {
            first: at - at % PAGE as u64,
            count: PAGE,
        }
    }

    /// Reads a stretch, and says whether it was read. What was read before is forgotten.
    pub fn fill<P: Place>(&mut self, place: &mut P, stretch: Stretch) -> bool
        requires { IsTrue (P.state place.old).tells → stretch.first + stretch.count ≤ length (P.state place.old).held }
        ensures read { IsTrue (P.state place.old).tells → IsTrue result → (self.new.first ≡ stretch.first) × (self.new.values ≡ take stretch.count (drop stretch.first (P.state place.old).held)) }
        ensures failed { IsFalse result → self.new.values ≡ [] }
        ensures same { P.state place.new ≡ P.state place.old }
    {
        self.first = stretch.first;
        let Ok(()) = self.values.resize(stretch.count, [0; 512]) else {
            self.values.clear();
            return false;
        };
        match place.read_run(stretch.first, self.values.as_mut_slice()) {
            Ok(()) => true,
            Err(_) => {
                self.values.clear();
                false
            }
        }
    }

    /// Keeps what is written to a sector of the run.
    pub fn put(&mut self, at: u64, value: &Sector)
        ensures { Changes self.old at value.now self.new ⊎ ((IsIn self.old at → ⊥) × (self.new ≡ self.old)) }
    {
        if let Some(place) = at.checked_sub(self.first) {
            let place = place as usize;
            if place < self.values.len() {
                self.values[place] = *value;
            }
        }
    }
}
