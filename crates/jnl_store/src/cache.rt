//! Slots that keep sectors of a content, so that they are read without a device.
ghost use Rattle.std.specs.Prelude.{◌≡◌, ◌<◌, ◌≤◌, ◌+◌, ◌^◌, ◌||◌, ℕ, Bool, IsTrue, IfOk, IfSome, MatchOption, OnOk, Option, None, Some, if◌then◌else◌, length, replicate, slice_index_or};
ghost use Rattle.jnl_store.specs.Cache.{AreRead, AreSlots, EachBecomes, EachReread, IsKept, IsRead, IsReread, KeepsRun, OthersStand, holds, slot_of, slot_with, slots_with, undone_name, undone_slot, with_slot};
ghost use Rattle.sector_disk.specs.Cause.{HasCause};
ghost use Rattle.sector_disk.specs.Disk.{OnlyReads, content};
ghost use Rattle.jnl_replay.specs.Plan.{FitsPlan};
ghost use Rattle.jnl_store.specs.Journal.{is_closed};
ghost use Rattle.jnl_store.specs.Own.{NamesNone, owns};
ghost use Rattle.jnl_store.specs.declared.puts.Put.{Put};

use crate::batch::Batch;
use crate::own::Own;
use crate::puts::Put;
use hx_bytes::{Failed, OutOfMemory, Sector};
use jnl_replay::Plan;
use sector_disk::SectorDisk;
use std::alloc::Global;
use std::marker::Model;

/// So many slots. Each is empty, or keeps the bytes of one sector. The bytes of slots side by side stand side by side.
#[derive(Drop)]
pub struct Cache {
    /// The sector that each slot keeps.
    names: Vec<Option<u64>>,
    /// The bytes of each slot, of which those of an empty one aren't looked at.
    bytes: Vec<Sector>,
    /// The sectors of the journal, as slots were read again last.
    own: Own,
    /// Whether a slot may name one of these.
    may_own: bool,
}

impl Model for Cache {
    ghost use Rattle.jnl_store.specs.Cache.{IsCache, Slots, slots_with};

    ghost Value = { Slots };

    ghost view = { λ c. slots_with c.names.items c.bytes.items };

    ghost invariant = { λ c. IsCache c.names.items c.bytes.items c.own c.may_own };
}

impl Cache {
    /// Empty slots.
    pub fn new(alloc: Global, count: u32) -> Result<Cache, OutOfMemory>
        ensures { IfOk result (λ cache. cache ≡ replicate count None) }
    {
        let mut names = Vec::new(alloc);
        names.resize(count as usize, None)?;
        let mut bytes = Vec::new(alloc);
        bytes.resize(count as usize, [0; 512])?;
        Ok(Cache {
            names,
            bytes,
            own: Own::none(),
            may_own: true,
        })
    }

    /// The bytes of a sector whose slot names it.
    pub fn get(&self, at: u64) -> Option<&Sector>
        ensures { MatchOption result (holds self.now at ≡ Bool.false) (λ bytes. (put : Put) × (slot_of self.now at ≡ Option.Some put) × (put.at ≡ at) × (bytes.now ≡ put.bytes)) }
    {
        if self.names.is_empty() {
            return None;
        }
        let place = (at % self.names.len() as u64) as usize;
        match self.names[place] {
            Some(name) => {
                if name == at {
                    Some(&self.bytes[place])
                } else {
                    None
                }
            }
            None => None,
        }
    }

    /// Whether the slot of a sector names it.
    pub fn holds(&self, at: u64) -> bool
        ensures { result ≡ holds self.now at }
    {
        self.get(at).is_some()
    }

    /// The bytes of so many sectors from one on, where their slots stand side by side and name them.
    pub fn held(&self, at: u64, many: u32) -> Option<&[u8]>
        ensures { IfSome result (λ bytes. KeepsRun self.now at many bytes.now) }
    {
        let count = self.names.len();
        if count == 0 {
            return None;
        }
        let first = (at % count as u64) as usize;
        let many = many as usize;
        if count - first < many {
            return None;
        }
        if u64::MAX - at < many as u64 {
            return None;
        }
        if !are_named(&self.names[first..first + many], at) {
            return None;
        }
        Some(self.bytes[first..first + many].as_flattened())
    }

    /// Puts a sector into its slot, where there is a slot.
    pub fn set(&mut self, at: u64, from: &Sector)
        ensures kept { IsKept self.old at from.now self.new }
        ensures holds { 0 < length self.old → holds self.new at ≡ Bool.true }
        ensures others { OthersStand at self.old self.new }
    {
        if self.names.is_empty() {
            return;
        }
        let place = (at % self.names.len() as u64) as usize;
        self.names[place] = Some(at);
        self.bytes[place] = *from;
        self.may_own = may_own(self.may_own, &self.own, at);
    }

    /// Empties the slot of a sector.
    pub fn empty(&mut self, at: u64)
        ensures { self.new ≡ with_slot self.old at None }
    {
        if self.names.is_empty() {
            return;
        }
        let place = (at % self.names.len() as u64) as usize;
        self.names[place] = None;
        self.may_own = true;
    }

    /// Reads again what each slot that names a sector of the journal keeps. Mostly none does, and no slot is looked at.
    pub fn reread_own<D: SectorDisk>(&mut self, plan: &Plan, disk: &mut D) -> Result<(), Failed>
        requires { FitsPlan (D.state disk.old).sectors plan.now }
        ensures slots { EachReread plan.now self.old self.new }
        ensures own { IsTrue (D.state disk.old).tells → OnOk result (AreRead plan.now (content (D.state disk.old)) self.new) }
        ensures reads { OnlyReads (D.state disk.old) (D.state disk.new) }
        ensures cause { HasCause (D.state disk.old).faults (D.state disk.new).faults result }
    {
        let own = Own::of(plan);
        if !self.may_own && self.own.is(&own) {
            return Ok(());
        }
        reread_all(self.names.as_slice(), self.bytes.as_mut_slice(), plan, disk)?;
        self.may_own = any_own(self.names.as_slice(), &own);
        self.own = own;
        Ok(())
    }

    /// Empties each slot that names a sector which an undo changes.
    pub fn empty_dropped(&mut self, batch: &Batch)
        ensures { EachBecomes (undone_slot batch.now.all batch.now.kept) self.old self.new }
    {
        for name in self.names.iter_mut() {
            if is_dropped(*name, batch) {
                *name = None;
            }
        }
        self.may_own = true;
    }
}

// Whether a slot may name a sector of the journal when one has named this sector.
fn may_own(before: bool, own: &Own, at: u64) -> bool
    ensures { result ≡ (before || owns own.now at) }
{
    before || own.has(at)
}

// Whether a slot names a sector of the journal.
fn any_own(names: &[Option<u64>], own: &Own) -> bool
    ensures { result ≡ Bool.false → NamesNone own.now names.now }
{
    for i in 0..names.len() {
        if is_own_name(names[i], own) {
            return true;
        }
    }
    false
}

fn is_own_name(name: Option<u64>, own: &Own) -> bool
    ensures { result ≡ Bool.false → (at : ℕ) → name ≡ Some at → owns own.now at ≡ Bool.false }
{
    match name {
        Some(at) => own.has(at),
        None => false,
    }
}

// Whether the slots name the sectors from this one on.
fn are_named(names: &[Option<u64>], at: u64) -> bool
    requires { at + length names.now < 2 ^ 64 }
    ensures { IsTrue result → (k : ℕ) → k < length names.now → slice_index_or names.now k None ≡ Some (at + k) }
{
    for i in 0..names.len() {
        if !is_of(names[i], at + i as u64) {
            return false;
        }
    }
    true
}

fn is_of(name: Option<u64>, at: u64) -> bool
    ensures { IsTrue result → name ≡ Some at }
{
    match name {
        Some(name) => name == at,
        None => false,
    }
}

fn reread_all<D: SectorDisk>(
    names: &[Option<u64>],
    bytes: &mut [Sector],
    plan: &Plan,
    disk: &mut D,
) -> Result<(), Failed>
    requires slots { AreSlots names.now bytes.old }
    requires plan { FitsPlan (D.state disk.old).sectors plan.now }
    ensures are { AreSlots names.now bytes.new }
    ensures slots { EachReread plan.now (slots_with names.now bytes.old) (slots_with names.now bytes.new) }
    ensures own { IsTrue (D.state disk.old).tells → OnOk result (AreRead plan.now (content (D.state disk.old)) (slots_with names.now bytes.new)) }
    ensures reads { OnlyReads (D.state disk.old) (D.state disk.new) }
    ensures cause { HasCause (D.state disk.old).faults (D.state disk.new).faults result }
{
    for i in 0..names.len() {
        reread(names[i], &mut bytes[i], plan, disk)?;
    }
    Ok(())
}

fn reread<D: SectorDisk>(
    name: Option<u64>,
    bytes: &mut Sector,
    plan: &Plan,
    disk: &mut D,
) -> Result<(), Failed>
    requires { FitsPlan (D.state disk.old).sectors plan.now }
    ensures slot { IsReread plan.now (slot_with name bytes.old) (slot_with name bytes.new) }
    ensures own { IsTrue (D.state disk.old).tells → OnOk result (IsRead plan.now (content (D.state disk.old)) (slot_with name bytes.new)) }
    ensures whole { length bytes.new ≡ 512 }
    ensures reads { OnlyReads (D.state disk.old) (D.state disk.new) }
    ensures cause { HasCause (D.state disk.old).faults (D.state disk.new).faults result }
{
    match name {
        Some(at) => {
            if is_own(plan, at) {
                disk.read(at, bytes)?;
            }
            Ok(())
        }
        None => Ok(()),
    }
}

fn is_dropped(name: Option<u64>, batch: &Batch) -> bool
    ensures { (if result then None else name) ≡ undone_name batch.now.all batch.now.kept name }
{
    match name {
        Some(at) => batch.is_dropped(at),
        None => false,
    }
}

// Whether a sector is the journal's: of its buffer or its header, or the info block.
fn is_own(plan: &Plan, at: u64) -> bool
    ensures { result ≡ is_closed plan.now at }
{
    let offset = plan.info.offset;
    let size = plan.info.size;
    let base = offset / 512;
    base <= at && at < base + size / 512 || at == plan.place.info_sector
}
