//! The puts since the last commit and the sectors that are live, in memory that was found before them.
ghost use Rattle.std.specs.Prelude.{◌≡◌, ◌⊎◌, ◌<◌, ◌≤◌, ◌+◌, ◌^◌, ◌==◌, ◌||◌, ℕ, [], Bool, IsTrue, length, slice_set, if◌then◌else◌, MatchOption, IfOk, OnOk, OnErr, take};
ghost use Rattle.sector_disk.specs.Lists.{Content, sector};
ghost use Rattle.jnl_store.specs.Batch.{AreOnce, bytes_of, is_dropped, names, restored};
ghost use Rattle.jnl_store.specs.Lists.{IsForm, lists_homes};
ghost use Rattle.jnl_store.specs.Newest.{newest, or_later};
ghost use Rattle.jnl_store.specs.Overlay.{overlay};

use crate::form::ListForm;
use crate::live_table::LiveTable;
use crate::put_table::PutTable;
use crate::puts::Put;
use hx_bytes::{OutOfMemory, Sector};
use std::alloc::Global;
use std::marker::Model;

// How many rows the indices have: of the puts of a batch, and of what one command puts again.
const PUT_ROWS: usize = 1_024;

const SAVED_ROWS: usize = 128;

/// Each sector that was put since the last commit, once. What a command put can be dropped until it is kept: what the puts
/// had at the last keep is saved when they are put again, so a keep copies nothing. Beside them stands each sector that a live list of the journal names, with the place of its newest bytes in their text. There
/// is memory for the puts to join these.
#[derive(Drop)]
pub struct Batch {
    puts: PutTable,
    /// How many of the puts were there at the last keep.
    kept: usize,
    /// What these had then, of those that were put again since.
    saved: PutTable,
    live: LiveTable,
    room: usize,
    /// How many sectors may be live.
    most: usize,
}

impl Model for Batch {
    ghost use Rattle.jnl_store.specs.Batch.{Staged, IsBatch, restored};

    ghost Value = { Staged };

    ghost view = { λ b. record { all = b.puts.items; kept = restored b.puts.items b.saved.items b.kept; live = b.live.homes; room = b.room; most = b.most } };

    ghost invariant = { λ b. IsBatch b.puts.items b.saved.items b.kept b.room b.most b.puts.memory b.saved.memory b.live.memory };
}

impl Batch {
    /// Nothing was put, and there is no room. There is memory for so many live sectors.
    pub fn new(alloc: Global, most: usize) -> Result<Batch, OutOfMemory>
        ensures { IfOk result (λ batch. batch ≡ record { all = []; kept = []; live = []; room = 0; most = most }) }
    {
        let puts = PutTable::new(alloc, PUT_ROWS)?;
        let saved = PutTable::new(alloc, SAVED_ROWS)?;
        let mut live = LiveTable::new(alloc, most)?;
        live.hold(most)?;
        Ok(Batch {
            puts,
            kept: 0,
            saved,
            live,
            room: 0,
            most,
        })
    }

    /// How many sectors were put.
    pub fn len(&self) -> usize
        ensures count { result ≡ length self.now.all }
        ensures room { result ≤ self.now.room }
    {
        self.puts.len()
    }

    /// How many sectors more may be put.
    pub fn spare(&self) -> usize
        ensures { result + length self.now.all ≡ self.now.room }
    {
        self.room - self.puts.len()
    }

    pub fn as_slice(&self) -> &[Put]
        ensures items { result.now ≡ self.now.all }
        ensures once { AreOnce result.now }
    {
        self.puts.as_slice()
    }

    /// Whether a sector was put.
    pub fn has(&self, at: u64) -> bool
        ensures { result ≡ names self.now.all at }
    {
        self.puts.has(at)
    }

    /// The bytes that were put into a sector.
    pub fn get(&self, at: u64) -> Option<Sector>
        ensures { (c : Content) → at < length c → MatchOption result (sector (overlay self.now.all c) at ≡ sector c at) (λ bytes. bytes ≡ sector (overlay self.now.all c) at) }
    {
        self.puts.get(at)
    }

    /// The place of the newest bytes that the live lists have for a sector.
    pub fn place_of(&self, at: u64) -> Option<u64>
        ensures { result ≡ newest self.now.live at }
    {
        self.live.find(at)
    }

    /// Whether an undo changes what a sector has.
    pub fn is_dropped(&self, at: u64) -> bool
        ensures is { result ≡ is_dropped self.now.all self.now.kept at }
        ensures same { result ≡ Bool.false → (c : Content) → at < length c → sector (overlay self.now.kept c) at ≡ sector (overlay self.now.all c) at }
    {
        match self.puts.get(at) {
            None => self.kept_at(at).is_some(),
            Some(bytes) => match self.kept_at(at) {
                None => true,
                Some(kept) => bytes[..] != kept[..],
            },
        }
    }

    // The bytes that were put into a sector at the last keep.
    fn kept_at(&self, at: u64) -> Option<Sector>
        ensures value { (c : Content) → at < length c → MatchOption result (sector (overlay self.now.kept c) at ≡ sector c at) (λ bytes. bytes ≡ sector (overlay self.now.kept c) at) }
        ensures bytes { result ≡ bytes_of self.now.kept at }
    {
        match self.puts.among(self.kept, at) {
            Some(put) => Some(self.saved.was(*put).bytes),
            None => None,
        }
    }

    /// Puts a sector, for which there is room.
    pub fn put(&mut self, at: u64, from: &Sector)
        requires { (length self.old.all < self.old.room) ⊎ IsTrue (names self.old.all at) }
        ensures content { (c : Content) → overlay self.new.all c ≡ slice_set (overlay self.old.all c) at from.now }
        ensures names { (s : ℕ) → names self.new.all s ≡ (s == at || names self.old.all s) }
        ensures count { length self.new.all ≡ (if names self.old.all at then length self.old.all else length self.old.all + 1) }
        ensures few { length self.new.all ≤ length self.old.all + 1 }
        ensures room { self.new.room ≡ self.old.room }
        ensures kept { self.new.kept ≡ self.old.kept }
        ensures live { self.new.live ≡ self.old.live }
        ensures most { self.new.most ≡ self.old.most }
    {
        // Of a node's sectors a command mostly changes some.
        if self.puts.keeps(at, from) {
            return;
        }
        save(&self.puts, self.kept, &mut self.saved, at);
        self.puts.put(at, from);
    }

    /// Finds memory for so many sectors more, and keeps what was put so far.
    pub fn begin(&mut self, sectors: u64) -> Result<(), OutOfMemory>
        ensures room { OnOk result (length self.new.all + sectors ≤ self.new.room) }
        ensures kept { OnOk result (self.new ≡ record { all = self.old.all; kept = self.old.all; live = self.old.live; room = self.new.room; most = self.old.most }) }
        ensures more { self.old.room ≤ self.new.room }
        ensures within { (limit : ℕ) → self.old.room ≤ limit → length self.old.all + sectors ≤ limit → self.new.room ≤ limit }
        ensures same { OnErr result (self.new ≡ self.old) }
    {
        let sectors = sectors as usize;
        self.puts.reserve(sectors)?;
        let room = self.puts.len() + sectors;
        self.saved.reserve(room.saturating_sub(self.saved.len()))?;
        let room = self.room.max(room);
        let Some(all) = self.most.checked_add(room) else {
            return Err(OutOfMemory);
        };
        self.live.hold(all)?;
        self.room = room;
        self.keep();
        Ok(())
    }

    /// What was put stays until the next commit.
    pub fn keep(&mut self)
        ensures { self.new ≡ record self.old { kept = self.old.all } }
    {
        self.saved.clear();
        self.kept = self.puts.len();
    }

    /// All is again as at the last keep.
    pub fn undo(&mut self)
        ensures dropped { self.new ≡ record self.old { all = self.old.kept } }
        ensures few { length self.old.kept ≤ length self.old.all }
        ensures once { AreOnce self.old.all × AreOnce self.old.kept }
    {
        let _once = self.puts.as_slice();
        self.puts.restore(&self.saved, self.kept);
        self.saved.copy_front(&self.puts, self.kept);
        self.puts.copy(&self.saved);
        self.saved.clear();
    }

    /// Nothing is put any more.
    pub fn clear(&mut self)
        ensures { self.new ≡ record { all = []; kept = []; live = self.old.live; room = self.old.room; most = self.old.most } }
    {
        self.puts.clear();
        self.saved.clear();
        self.kept = 0;
    }

    /// What was put is live from now on, in lists that begin at this place of the text.
    pub fn make_live(&mut self, form: &ListForm, from: u64)
        requires form { IsForm form.now }
        requires from { from ≤ 2 ^ 40 }
        requires few { length self.old.all ≤ 2 ^ 40 }
        requires most { length self.old.live + length self.old.all ≤ self.old.most }
        ensures newest { (s : ℕ) → newest self.new.live s ≡ or_later (newest (lists_homes form.now.blhdr from 0 self.old.all) s) (newest self.old.live s) }
        ensures nothing { (self.new.all ≡ []) × (self.new.kept ≡ []) }
        ensures few { length self.new.live ≤ length self.old.live + length self.old.all }
        ensures room { self.new.room ≡ self.old.room }
        ensures most { self.new.most ≡ self.old.most }
    {
        self.live.put_lists(form, from, self.puts.as_slice());
        self.puts.clear();
        self.saved.clear();
        self.kept = 0;
    }

    /// The live sectors.
    pub fn live(&self) -> &LiveTable
        ensures { result.now.homes ≡ self.now.live }
    {
        &self.live
    }

    /// Nothing is live any more.
    pub fn forget(&mut self)
        ensures { self.new ≡ record self.old { live = [] } }
    {
        self.live.clear();
    }
}

// Saves what a sector has, where it is one of the puts that were kept and that isn't saved yet.
fn save(puts: &PutTable, kept: usize, saved: &mut PutTable, at: u64)
    requires few { kept ≤ length puts.now.items }
    requires room { length puts.now.items ≤ saved.old.memory }
    requires of_kept { (s : ℕ) → names saved.old.items s ≡ Bool.true → names (take kept puts.now.items) s ≡ Bool.true }
    ensures same { restored puts.now.items saved.new.items kept ≡ restored puts.now.items saved.old.items kept }
    ensures of_kept { (s : ℕ) → names saved.new.items s ≡ Bool.true → names (take kept puts.now.items) s ≡ Bool.true }
    ensures there { names (take kept puts.now.items) at ≡ Bool.true → names saved.new.items at ≡ Bool.true }
    ensures memory { saved.new.memory ≡ saved.old.memory }
{
    let _once = saved.as_slice();
    match puts.among(kept, at) {
        Some(put) => saved.add(put),
        None => {}
    }
}
