//! Puts of sectors, each sector once, found by its number, in memory that was found before.
ghost use Rattle.std.specs.Prelude.{◌≡◌, ◌⊎◌, ◌<◌, ◌≤◌, ◌+◌, ◌^◌, ◌==◌, ◌||◌, ℕ, [], IsTrue, Bool, None, Some, length, slice_set, if◌then◌else◌, MatchOption, IfOk, List, OnOk, OnErr, take};
ghost use Rattle.sector_disk.specs.Lists.{Content, sector};
ghost use Rattle.jnl_store.specs.Batch.{AreOnce, IsPlaced, bytes_of, has, names, put_in, restored_front, saved_or, with_put};
ghost use Rattle.jnl_store.specs.Overlay.{overlay};
ghost use Rattle.jnl_store.specs.declared.puts.Put.{Put};

use crate::puts::Put;
use crate::sector_index::SectorIndex;
use hx_bytes::{OutOfMemory, Sector};
use std::alloc::Global;
use std::marker::Model;

/// Puts in the order in which their sectors came, with an index of these.
#[derive(Drop)]
pub struct PutTable {
    puts: Vec<Put>,
    index: SectorIndex,
    memory: usize,
}

impl Model for PutTable {
    ghost use Rattle.std.specs.Prelude.{vec_capacity};
    ghost use Rattle.jnl_store.specs.Table.{Tabled, IsTable};

    ghost Value = { Tabled };

    ghost view = { λ t. record { items = t.puts.items; memory = t.memory } };

    ghost invariant = { λ t. IsTable t.puts.items t.index.sectors t.memory (vec_capacity t.puts) t.index.memory };
}

impl PutTable {
    /// No put, and no memory for one. The index of their sectors has so many rows.
    pub fn new(alloc: Global, rows: usize) -> Result<PutTable, OutOfMemory>
        ensures { IfOk result (λ table. table ≡ record { items = []; memory = 0 }) }
    {
        let index = SectorIndex::new(alloc, rows)?;
        Ok(PutTable {
            puts: Vec::new(alloc),
            index,
            memory: 0,
        })
    }

    pub fn len(&self) -> usize
        ensures count { result ≡ length self.now.items }
        ensures few { result ≤ self.now.memory }
    {
        self.puts.len()
    }

    pub fn as_slice(&self) -> &[Put]
        ensures items { result.now ≡ self.now.items }
        ensures once { AreOnce result.now }
    {
        self.puts.as_slice()
    }

    /// Finds memory for so many puts more than there are.
    pub fn reserve(&mut self, more: usize) -> Result<(), OutOfMemory>
        ensures room { OnOk result ((length self.new.items + more ≤ self.new.memory) × (self.new.memory < 2 ^ 64)) }
        ensures items { self.new.items ≡ self.old.items }
        ensures memory { self.old.memory ≤ self.new.memory }
        ensures same { OnErr result (self.new ≡ self.old) }
    {
        self.puts.reserve(more)?;
        self.index.reserve(more)?;
        self.memory = self.memory.max(self.puts.len() + more);
        Ok(())
    }

    // The place of a sector's put.
    fn find(&self, at: u64) -> Option<usize>
        ensures { MatchOption result (names self.now.items at ≡ Bool.false) (λ k. has self.now.items k at) }
    {
        match self.index.find(at) {
            Some(k) => Some(k),
            None => None,
        }
    }

    /// Whether a sector was put.
    pub fn has(&self, at: u64) -> bool
        ensures { result ≡ names self.now.items at }
    {
        match self.find(at) {
            Some(_place) => true,
            None => false,
        }
    }

    /// The bytes that were put into a sector.
    pub fn get(&self, at: u64) -> Option<Sector>
        ensures value { (c : Content) → at < length c → MatchOption result (sector (overlay self.now.items c) at ≡ sector c at) (λ bytes. bytes ≡ sector (overlay self.now.items c) at) }
        ensures bytes { result ≡ bytes_of self.now.items at }
    {
        match self.find(at) {
            Some(k) => Some(self.puts[k].bytes),
            None => None,
        }
    }

    /// The put of a sector, where there is one.
    fn put_of(&self, at: u64) -> Option<Put>
        ensures { result ≡ put_in self.now.items at }
    {
        match self.find(at) {
            Some(k) => Some(self.puts[k]),
            None => None,
        }
    }

    /// The put of a sector, where it is one of the first so many.
    pub fn among(&self, count: usize, at: u64) -> Option<&Put>
        ensures put { MatchOption result (put_in (take count self.now.items) at ≡ None) (λ put. put_in (take count self.now.items) at ≡ Some put.now) }
        ensures once { AreOnce self.now.items }
    {
        match self.find(at) {
            Some(k) => { if k < count { Some(&self.puts[k]) } else { None } }
            None => None,
        }
    }

    /// Whether these bytes were put into a sector last.
    pub fn keeps(&self, at: u64, bytes: &Sector) -> bool
        ensures keeps { IsTrue result → bytes_of self.now.items at ≡ Some bytes.now }
        ensures once { AreOnce self.now.items }
    {
        match self.find(at) {
            Some(k) => are_same(&self.puts[k].bytes, bytes),
            None => false,
        }
    }

    /// Puts a sector, for which there is memory.
    pub fn put(&mut self, at: u64, from: &Sector)
        requires { (length self.old.items < self.old.memory) ⊎ IsTrue (names self.old.items at) }
        ensures placed { (put : Put) × (put.at ≡ at) × IsPlaced self.old.items put self.new.items }
        ensures content { (c : Content) → overlay self.new.items c ≡ slice_set (overlay self.old.items c) at from.now }
        ensures names { (s : ℕ) → names self.new.items s ≡ (s == at || names self.old.items s) }
        ensures count { length self.new.items ≡ (if names self.old.items at then length self.old.items else length self.old.items + 1) }
        ensures memory { self.new.memory ≡ self.old.memory }
    {
        self.place(&Put { at, bytes: *from });
    }

    /// The same of a put as a whole.
    pub fn place(&mut self, put: &Put)
        requires { (length self.old.items < self.old.memory) ⊎ IsTrue (names self.old.items put.now.at) }
        ensures placed { IsPlaced self.old.items put.now self.new.items }
        ensures content { (c : Content) → overlay self.new.items c ≡ slice_set (overlay self.old.items c) put.now.at put.now.bytes }
        ensures names { (s : ℕ) → names self.new.items s ≡ (s == put.now.at || names self.old.items s) }
        ensures count { length self.new.items ≡ (if names self.old.items put.now.at then length self.old.items else length self.old.items + 1) }
        ensures memory { self.new.memory ≡ self.old.memory }
    {
        match self.find(put.at) {
            Some(k) => {
                self.puts[k] = *put;
            }
            None => {
                self.index.push(put.at);
                let _put = self.puts.push(*put);
            }
        }
    }

    /// Adds a put, where its sector has none. There is memory for it.
    pub fn add(&mut self, put: &Put)
        requires { names self.old.items put.now.at ≡ Bool.false → length self.old.items < self.old.memory }
        ensures added { self.new.items ≡ with_put self.old.items put.now }
        ensures memory { self.new.memory ≡ self.old.memory }
    {
        if self.has(put.at) {
            return;
        }
        self.place(put);
    }

    /// A put as it was, where that was saved.
    pub fn was(&self, put: Put) -> Put
        ensures { result ≡ saved_or self.now.items put }
    {
        match self.put_of(put.at) {
            Some(old) => old,
            None => put,
        }
    }

    // Puts this one again as it was, where that was saved.
    fn restore_one(&mut self, saved: &PutTable, k: usize)
        requires { k < length self.old.items }
        ensures items { (old : List Put) → self.old.items ≡ restored_front old saved.now.items k → self.new.items ≡ restored_front old saved.now.items (k + 1) }
        ensures count { length self.new.items ≡ length self.old.items }
        ensures memory { self.new.memory ≡ self.old.memory }
    {
        let old = saved.was(self.puts[k]);
        self.puts[k] = old;
    }

    /// Puts the first so many again as they were, where that was saved.
    pub fn restore(&mut self, saved: &PutTable, count: usize)
        requires { count ≤ length self.old.items }
        ensures items { self.new.items ≡ restored_front self.old.items saved.now.items count }
        ensures memory { self.new.memory ≡ self.old.memory }
    {
        for k in 0..count {
            self.restore_one(saved, k);
        }
    }

    /// The first so many puts of another table, for which there is memory.
    pub fn copy_front(&mut self, from: &PutTable, count: usize)
        requires few { count ≤ length from.now.items }
        requires room { count ≤ self.old.memory }
        ensures items { self.new.items ≡ take count from.now.items }
        ensures memory { self.new.memory ≡ self.old.memory }
        ensures once { AreOnce self.new.items }
    {
        self.clear();
        for k in 0..count {
            self.place(&from.puts[k]);
        }
        let _once = self.as_slice();
    }

    /// The puts of another table, for which there is memory.
    pub fn copy(&mut self, from: &PutTable)
        requires { length from.now.items ≤ self.old.memory }
        ensures items { self.new.items ≡ from.now.items }
        ensures memory { self.new.memory ≡ self.old.memory }
        ensures once { AreOnce self.old.items × AreOnce from.now.items }
    {
        let _once = self.as_slice();
        let _from_once = from.as_slice();
        let count = from.len();
        self.copy_front(from, count);
    }

    /// No put any more.
    pub fn clear(&mut self)
        ensures { self.new ≡ record self.old { items = [] } }
    {
        self.puts.clear();
        self.index.clear();
    }
}

// Whether two sectors have the same bytes. All are looked at, which takes less than looking for the first that differs.
fn are_same(a: &Sector, b: &Sector) -> bool
    ensures { IsTrue result → a.now ≡ b.now }
{
    let mut same = true;
    for k in 0..512 {
        same &= a[k] == b[k];
    }
    same
}
