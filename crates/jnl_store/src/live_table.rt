//! The places of the sectors that are live, found by number, in memory that was found before.
ghost use Rattle.std.specs.Prelude.{◌≡◌, ◌<◌, ◌≤◌, ◌+◌, ◌^◌, ◌==◌, ◌-◌, ℕ, [], Some, length, slice_index_or, if◌then◌else◌, IfOk, OnOk, OnErr};
ghost use Rattle.jnl_format.specs.declared.blocks.Home.{Home};
ghost use Rattle.jnl_store.specs.Lists.{IsForm, lists_homes, most_puts};
ghost use Rattle.jnl_store.specs.Newest.{newest, or_later};

use crate::form::{ListForm, puts_at_most};
use crate::puts::Put;
use crate::sector_index::SectorIndex;
use hx_bytes::OutOfMemory;
use jnl_format::Home;
use std::alloc::Global;
use std::marker::Model;

// How many rows the index of the live sectors has at most.
const MOST_ROWS: usize = 65_536;

/// Each sector that is live, with the place of its newest bytes in the text, in the order in which they came.
#[derive(Drop)]
pub struct LiveTable {
    index: SectorIndex,
    places: Vec<u64>,
    memory: usize,
}

impl Model for LiveTable {
    ghost use Rattle.std.specs.Prelude.{vec_capacity};
    ghost use Rattle.jnl_store.specs.Placed.{ArePlaced, Placed, beside};

    ghost Value = { Placed };

    ghost view = { λ t. record { homes = beside t.index.sectors t.places.items; memory = t.memory } };

    ghost invariant = { λ t. ArePlaced t.index.sectors t.places.items t.memory t.index.memory (vec_capacity t.places) };
}

impl LiveTable {
    /// No sector, and no memory for one. The index has rows for so many.
    pub fn new(alloc: Global, most: usize) -> Result<LiveTable, OutOfMemory>
        ensures { IfOk result (λ table. table ≡ record { homes = []; memory = 0 }) }
    {
        let index = SectorIndex::new(alloc, rows_for(most))?;
        Ok(LiveTable {
            index,
            places: Vec::new(alloc),
            memory: 0,
        })
    }

    /// Finds memory for so many sectors in all.
    pub fn hold(&mut self, all: usize) -> Result<(), OutOfMemory>
        ensures room { OnOk result (all ≤ self.new.memory) }
        ensures homes { self.new.homes ≡ self.old.homes }
        ensures memory { self.old.memory ≤ self.new.memory }
        ensures same { OnErr result (self.new ≡ self.old) }
    {
        let more = all.saturating_sub(self.index.len());
        self.places.reserve(more)?;
        self.index.reserve(more)?;
        self.memory = self.memory.max(all);
        Ok(())
    }

    /// The place of a sector's newest bytes.
    pub fn find(&self, at: u64) -> Option<u64>
        ensures { result ≡ newest self.now.homes at }
    {
        match self.index.find(at) {
            Some(k) => Some(self.places[k]),
            None => None,
        }
    }

    /// How many sectors are live.
    pub fn len(&self) -> usize
        ensures { result ≡ length self.now.homes }
    {
        self.index.len()
    }

    /// One of the sectors, with the place of its newest bytes.
    pub fn home(&self, k: usize) -> Home
        requires { k < length self.now.homes }
        ensures sector { (none : Home) → (slice_index_or self.now.homes k none).sector ≡ result.sector }
        ensures newest { newest self.now.homes result.sector ≡ Some result.place }
    {
        Home {
            sector: self.index.sector(k),
            place: self.places[k],
        }
    }

    // Puts the place of a sector, for which there is memory.
    fn put(&mut self, at: u64, place: u64)
        requires { length self.old.homes < self.old.memory }
        ensures newest { (s : ℕ) → newest self.new.homes s ≡ (if s == at then Some place else newest self.old.homes s) }
        ensures few { length self.new.homes ≤ length self.old.homes + 1 }
        ensures memory { self.new.memory ≡ self.old.memory }
    {
        match self.index.find(at) {
            Some(k) => {
                self.places[k] = place;
            }
            None => {
                self.index.push(at);
                let _place = self.places.push(place);
            }
        }
    }

    /// Puts the sectors of a transaction, whose lists begin at this place of the text. There is memory for them.
    pub fn put_lists(&mut self, form: &ListForm, from: u64, puts: &[Put])
        requires form { IsForm form.now }
        requires from { from ≤ 2 ^ 40 }
        requires few { length puts.now ≤ 2 ^ 40 }
        requires room { length self.old.homes + length puts.now ≤ self.old.memory }
        ensures newest { (s : ℕ) → newest self.new.homes s ≡ or_later (newest (lists_homes form.now.blhdr from 0 puts.now) s) (newest self.old.homes s) }
        ensures few { length self.new.homes ≤ length self.old.homes + length puts.now }
        ensures memory { self.new.memory ≡ self.old.memory }
    {
        let mut place = from;
        let mut left = 0;
        for put in puts {
            let body = body_of(form, place, left);
            self.put(put.at, body);
            place = body + 512;
            left = left_behind(form, left);
        }
    }

    /// No sector any more.
    pub fn clear(&mut self)
        ensures { self.new ≡ record self.old { homes = [] } }
    {
        self.index.clear();
        self.places.clear();
    }
}

// How many rows the index of so many sectors has.
fn rows_for(sectors: usize) -> usize
    ensures few { result ≤ 65536 }
{
    if sectors <= 1024 {
        1024
    } else if sectors <= 16_384 {
        16_384
    } else {
        MOST_ROWS
    }
}

// Where the bytes of the next put stand: behind the header of a new list, where the last one has no entry left.
fn body_of(form: &ListForm, place: u64, left: u64) -> u64
    requires form { IsForm form.now }
    requires place { place ≤ 2 ^ 60 }
    ensures value { result ≡ (if left == 0 then place + form.now.blhdr else place) }
    ensures near { result ≤ place + 65536 }
{
    if left == 0 {
        place + u64::from(form.blhdr)
    } else {
        place
    }
}

// How many entries more the list of the next put has then.
fn left_behind(form: &ListForm, left: u64) -> u64
    requires { IsForm form.now }
    ensures { result ≡ (if left == 0 then most_puts form.now.blhdr - 1 else left - 1) }
{
    if left == 0 {
        puts_at_most(form) - 1
    } else {
        left - 1
    }
}
