//! Sectors, each once, found by number in memory that was found before.
ghost use Rattle.std.specs.Prelude.{◌≡◌, ◌<◌, ◌≤◌, ◌+◌, ◌^◌, ◌++◌, ◌∷◌, [], length, slice_index, IfOk, MatchOption, OnOk, OnErr};
ghost use Rattle.jnl_store.specs.Indexed.{AreApart, AreRows, IsMissing, IsThere, row_in};

use hx_bytes::OutOfMemory;
use std::alloc::Global;
use std::marker::Model;

/// Sectors in the order in which they came. Each is of a row, by the last bits of its number: a search looks at the sectors of
/// one row alone, at the last one first.
#[derive(Drop)]
pub struct SectorIndex {
    sectors: Vec<u64>,
    /// For each sector, how many there are up to the last one before it that is of the same row; zero where none is.
    before: Vec<usize>,
    /// For each row, how many there are up to its last one; zero where none is of it.
    rows: Vec<usize>,
    memory: usize,
}

impl Model for SectorIndex {
    ghost use Rattle.std.specs.Prelude.{vec_capacity};
    ghost use Rattle.jnl_store.specs.Indexed.{Indexed, IsIndex};

    ghost Value = { Indexed };

    ghost view = { λ t. record { sectors = t.sectors.items; memory = t.memory } };

    ghost invariant = { λ t. IsIndex t.sectors.items t.before.items t.rows.items t.memory (vec_capacity t.sectors) (vec_capacity t.before) };
}

impl SectorIndex {
    /// No sector, and no memory for one. They will stand in so many rows, which had best be a power of two.
    pub fn new(alloc: Global, rows: usize) -> Result<SectorIndex, OutOfMemory>
        ensures { IfOk result (λ index. index ≡ record { sectors = []; memory = 0 }) }
    {
        let count = rows.max(1);
        let mut rows = Vec::new(alloc);
        rows.resize(count, 0)?;
        Ok(SectorIndex {
            sectors: Vec::new(alloc),
            before: Vec::new(alloc),
            rows,
            memory: 0,
        })
    }

    pub fn len(&self) -> usize
        ensures count { result ≡ length self.now.sectors }
        ensures few { result ≤ self.now.memory }
    {
        self.sectors.len()
    }

    /// Finds memory for so many sectors more than there are.
    pub fn reserve(&mut self, more: usize) -> Result<(), OutOfMemory>
        ensures room { OnOk result ((length self.new.sectors + more ≤ self.new.memory) × (self.new.memory < 2 ^ 64)) }
        ensures sectors { self.new.sectors ≡ self.old.sectors }
        ensures memory { self.old.memory ≤ self.new.memory }
        ensures same { OnErr result (self.new ≡ self.old) }
    {
        self.sectors.reserve(more)?;
        self.before.reserve(more)?;
        self.memory = self.memory.max(self.sectors.len() + more);
        Ok(())
    }

    /// Where a sector stands.
    pub fn find(&self, at: u64) -> Option<usize>
        ensures place { MatchOption result (IsMissing self.now.sectors at) (λ k. IsThere self.now.sectors at k) }
        ensures apart { AreApart self.now.sectors }
    {
        search(&self.sectors, &self.before, &self.rows, at)
    }

    /// One of the sectors.
    pub fn sector(&self, k: usize) -> u64
        requires { k < length self.now.sectors }
        ensures is { result ≡ slice_index self.now.sectors k }
        ensures apart { AreApart self.now.sectors }
    {
        self.sectors[k]
    }

    /// Adds a sector that isn't there, and for which there is memory.
    pub fn push(&mut self, at: u64)
        requires missing { IsMissing self.old.sectors at }
        requires room { length self.old.sectors < self.old.memory }
        ensures sectors { self.new.sectors ≡ self.old.sectors ++ at ∷ [] }
        ensures memory { self.new.memory ≡ self.old.memory }
    {
        let row = row_of(at, self.rows.len());
        let last = self.rows[row];
        let _sector = self.sectors.push(at);
        let _before = self.before.push(last);
        self.rows[row] = self.sectors.len();
    }

    /// No sector any more.
    pub fn clear(&mut self)
        ensures { self.new ≡ record self.old { sectors = [] } }
    {
        self.sectors.clear();
        self.before.clear();
        self.rows.fill(0);
    }
}

// Where a sector stands: the last of its row is looked at first.
fn search(sectors: &[u64], before: &[usize], rows: &[usize], at: u64) -> Option<usize>
    requires { AreRows sectors.now before.now rows.now }
    ensures { MatchOption result (IsMissing sectors.now at) (λ k. IsThere sectors.now at k) }
{
    let mut left = rows[row_of(at, rows.len())];
    while 0 < left {
        let k = left - 1;
        if sectors[k] == at {
            return Some(k);
        }
        left = before[k];
    }
    None
}

// The row of a sector, of so many.
fn row_of(at: u64, rows: usize) -> usize
    requires { 0 < rows }
    ensures row { result ≡ row_in rows at }
    ensures below { result < rows }
{
    (at & (rows - 1) as u64) as usize
}
