//! The calls of a space.
ghost use Rattle.std.specs.Prelude.{◌≡◌, ◌≢◌, ◌⊎◌, ◌<◌, ◌≤◌, ◌+◌, ◌==◌, ◌||◌, ℕ, Bool, IsTrue, IsOk, IfSome, OnOk, OnErr, length};
ghost use Rattle.sector_disk.specs.Lists.{run_of, sector};
ghost use Rattle.sector_disk.specs.Cause.{HasCause, next_count};
ghost use Rattle.sector_disk.specs.Clock.{TimePasses};
ghost use Rattle.sector_disk.specs.Disk.{SameDisk, SameSink, Untouched};
ghost use Rattle.sector_disk.specs.Space.{SameSpace, SameRoom, TakesRoom, SameSectors, Puts, Spills, MayHaveSpilled, LeavesDurable};
ghost use Rattle.sector_disk.specs.Disk.{OnlyReads};
ghost use Rattle.jnl_store.specs.Journal.{IsClosed};
ghost use Rattle.jnl_store.specs.Cache.{OthersStand, holds};
ghost use Rattle.jnl_store.specs.Store.{KeepsOn, KeepsRingOn, SameButBatch, SameButFaults, faults_of, has_spilled, kept_of, plan_of, puts_of, slot_count, slots_of};
ghost use Rattle.jnl_store.specs.Following.{SpaceFollows};
ghost use Rattle.jnl_store.specs.Seen.{seen};

use crate::reading::read_durable;
use crate::space::Space;
use hx_bytes::{Failed, Sector};
use sector_disk::{SectorDisk, SectorSpace, SectorView};

impl<D: SectorDisk> SectorView for Space<'_, '_, D> {
    ghost use Rattle.std.specs.Prelude.{◌∷◌, []};
    ghost use Rattle.jnl_store.specs.Spaces.{over};
    ghost use Rattle.jnl_store.specs.SpaceLaws.{space_size};
    ghost use Rattle.jnl_store.specs.FollowLaws.{follows_none, follows_both};

    ghost space = { λ s. over s.store.ghost_name s.disk.ghost_name s.store.now (D.state s.disk.now) };

    ghost follows = { λ a b. SpaceFollows a.store.now (D.state a.disk.now) b.store.now (D.state b.disk.now) };

    ghost follows_refl = { λ view. follows_none view.store.now (D.state view.disk.now) };

    ghost follows_trans = { λ a b c first second. follows_both a.store.now (D.state a.disk.now) b.store.now (D.state b.disk.now) c.store.now (D.state c.disk.now) first second };

    ghost well_formed = { λ view tells. space_size view.store.ghost_name view.disk.ghost_name view.store.now (D.state view.disk.now) (D.well_formed view.disk.now) tells };

    fn sectors(&self) -> u64 {
        self.disk.sectors()
    }

    /// What the slot of the sector keeps, where it names it. Else what was put into the sector, or what the live lists
    /// have for it, or what the disk has there; and the slot names it from then on.
    fn get(&mut self, at: u64, into: &mut Sector) -> Result<(), Failed>
        requires { at < (seen D.state self.old).sectors }
        ensures value { IsTrue (seen D.state self.old).tells → OnOk result (into.new ≡ sector (seen D.state self.old).content at) }
        ensures sectors { IsTrue (seen D.state self.old).tells → SameSectors (seen D.state self.old) (seen D.state self.new) }
        ensures time { IsTrue (seen D.state self.old).tells → TimePasses (seen D.state self.old).clock (seen D.state self.new).clock (LeavesDurable (seen D.state self.new)) }
        ensures room { SameRoom (seen D.state self.old) (seen D.state self.new) }
        ensures same { SameSpace (seen D.state self.old) (seen D.state self.new) }
        ensures below { SpaceFollows self.old.store.now (D.state self.old.disk.now) self.new.store.now (D.state self.new.disk.now) }
        ensures cause { HasCause (seen D.state self.old).faults (seen D.state self.new).faults result }
        // The disk is only read, and the store counts a fault.
        ensures reads { OnlyReads (D.state self.old.disk.now) (D.state self.new.disk.now) }
        ensures store { SameButFaults self.old.store.now self.new.store.now }
        ensures counted { OnErr result (faults_of self.new.store.now ≡ next_count (faults_of self.old.store.now)) }
        ensures uncounted { OnOk result (faults_of self.new.store.now ≡ faults_of self.old.store.now) }
        ensures keeps { KeepsOn self.old.store.now (D.state self.old.disk.now) → KeepsOn self.new.store.now (D.state self.new.disk.now) }
        // A sector that is held is read without a device, and one that was read is held.
        ensures held { faults_of self.old.store.now ≡ 0 → holds (slots_of self.old.store.now) at ≡ Bool.true → IsOk result }
        ensures holds { OnOk result (0 < slot_count self.old.store.now → holds (slots_of self.new.store.now) at ≡ Bool.true) }
        ensures slots { OthersStand at (slots_of self.old.store.now) (slots_of self.new.store.now) }
    {
        let store = &mut *self.store;
        if let Some(bytes) = store.recall(at) {
            *into = *bytes;
            return Ok(());
        }
        self.fetch(at, into)?;
        let store = &mut *self.store;
        store.cache.set(at, into);
        Ok(())
    }

    /// What the slots of the sectors keep, where they stand side by side and name them.
    fn held(&self, at: u64, many: u32) -> Option<&[u8]>
        ensures { IsTrue (seen D.state self.now).tells → IfSome result (λ bytes. bytes.now ≡ run_of (seen D.state self.now).content at many) }
    {
        let store = &*self.store;
        store.held(at, many)
    }
}

impl<D: SectorDisk> SectorSpace for Space<'_, '_, D> {
    fn spare(&self) -> u64 {
        let store = &*self.store;
        store.batch.spare() as u64
    }

    fn is_put(&self, at: u64) -> bool {
        let store = &*self.store;
        store.batch.has(at)
    }

    /// Notes the sector for the next commit. The disk isn't called.
    fn put(&mut self, at: u64, from: &Sector)
        requires inside { at < (seen D.state self.old).sectors }
        requires open { IsTrue (seen D.state self.old).tells → (seen D.state self.old).closed at → ⊥ }
        requires room { (0 < (seen D.state self.old).spare) ⊎ IsTrue ((seen D.state self.old).put at) }
        ensures puts { IsTrue (seen D.state self.old).tells → Puts (seen D.state self.old) at from.now (seen D.state self.new) }
        ensures time { IsTrue (seen D.state self.old).tells → TimePasses (seen D.state self.old).clock (seen D.state self.new).clock (LeavesDurable (seen D.state self.new)) }
        ensures room { TakesRoom (seen D.state self.old) at (seen D.state self.new) }
        ensures same { SameSpace (seen D.state self.old) (seen D.state self.new) }
        ensures below { SpaceFollows self.old.store.now (D.state self.old.disk.now) self.new.store.now (D.state self.new.disk.now) }
        ensures faults { (seen D.state self.new).faults ≡ (seen D.state self.old).faults }
        ensures disk { Untouched (D.state self.old.disk.now) (D.state self.new.disk.now) }
        ensures store { SameButBatch self.old.store.now self.new.store.now }
        ensures kept { kept_of self.new.store.now ≡ kept_of self.old.store.now }
        ensures few { length (puts_of self.new.store.now) ≤ length (puts_of self.old.store.now) + 1 }
        ensures holds { 0 < slot_count self.old.store.now → holds (slots_of self.new.store.now) at ≡ Bool.true }
        ensures slots { OthersStand at (slots_of self.old.store.now) (slots_of self.new.store.now) }
        ensures keeps { KeepsOn self.old.store.now (D.state self.old.disk.now) → (IsClosed (plan_of self.old.store.now) at → ⊥) → KeepsOn self.new.store.now (D.state self.new.disk.now) }
    {
        let store = &mut *self.store;
        store.batch.put(at, from);
        store.cache.set(at, from);
    }

    /// Writes the sector to the disk at once.
    fn spill(&mut self, at: u64, from: &Sector) -> Result<(), Failed>
        requires inside { at < (seen D.state self.old).sectors }
        requires open { IsTrue (seen D.state self.old).tells → (seen D.state self.old).closed at → ⊥ }
        requires no_header { at ≢ 2 }
        requires idle { IsTrue (seen D.state self.old).tells → (seen D.state self.old).live at → ⊥ }
        ensures spills { IsTrue (seen D.state self.old).tells → OnOk result (Spills (seen D.state self.old) at from.now (seen D.state self.new)) }
        ensures unsure { IsTrue (seen D.state self.old).tells → OnErr result (MayHaveSpilled (seen D.state self.old) at from.now (seen D.state self.new)) }
        ensures time { IsTrue (seen D.state self.old).tells → TimePasses (seen D.state self.old).clock (seen D.state self.new).clock (LeavesDurable (seen D.state self.new)) }
        ensures room { SameRoom (seen D.state self.old) (seen D.state self.new) }
        ensures same { SameSpace (seen D.state self.old) (seen D.state self.new) }
        ensures below { SpaceFollows self.old.store.now (D.state self.old.disk.now) self.new.store.now (D.state self.new.disk.now) }
        ensures cause { HasCause (seen D.state self.old).faults (seen D.state self.new).faults result }
        ensures disk { SameDisk (D.state self.old.disk.now) (D.state self.new.disk.now) }
        ensures sink { SameSink (D.state self.old.disk.now) (D.state self.new.disk.now) }
        ensures plan { plan_of self.new.store.now ≡ plan_of self.old.store.now }
        ensures puts { puts_of self.new.store.now ≡ puts_of self.old.store.now }
        ensures kept { kept_of self.new.store.now ≡ kept_of self.old.store.now }
        ensures unsettled { has_spilled self.new.store.now ≡ Bool.true }
        ensures holds { OnOk result (0 < slot_count self.old.store.now → holds (slots_of self.new.store.now) at ≡ Bool.true) }
        ensures slots { OthersStand at (slots_of self.old.store.now) (slots_of self.new.store.now) }
        ensures counted { OnErr result (faults_of self.new.store.now ≡ next_count (faults_of self.old.store.now)) }
        ensures uncounted { OnOk result (faults_of self.new.store.now ≡ faults_of self.old.store.now) }
        ensures keeps { KeepsOn self.old.store.now (D.state self.old.disk.now) → (IsClosed (plan_of self.old.store.now) at → ⊥) → KeepsOn self.new.store.now (D.state self.new.disk.now) }
    {
        let store = &mut *self.store;
        store.unsettled = true;
        match self.disk.write(at, from) {
            Ok(()) => {
                store.cache.set(at, from);
                Ok(())
            }
            Err(failed) => {
                store.count_fault();
                store.cache.empty(at);
                Err(failed)
            }
        }
    }

    /// Counts a fault in the store and on the disk.
    fn fail(&mut self) -> Failed {
        let store = &mut *self.store;
        store.count_fault();
        self.disk.fail()
    }
}

impl<D: SectorDisk> Space<'_, '_, D> {
    // What was put into the sector, or what the live lists have for it, or what the disk has there.
    fn fetch(&mut self, at: u64, into: &mut Sector) -> Result<(), Failed>
        requires { at < (seen D.state self.old).sectors }
        ensures value { IsTrue (seen D.state self.old).tells → OnOk result (into.new ≡ sector (seen D.state self.old).content at) }
        ensures sectors { IsTrue (seen D.state self.old).tells → SameSectors (seen D.state self.old) (seen D.state self.new) }
        ensures time { IsTrue (seen D.state self.old).tells → TimePasses (seen D.state self.old).clock (seen D.state self.new).clock (LeavesDurable (seen D.state self.new)) }
        ensures room { SameRoom (seen D.state self.old) (seen D.state self.new) }
        ensures same { SameSpace (seen D.state self.old) (seen D.state self.new) }
        ensures cause { HasCause (seen D.state self.old).faults (seen D.state self.new).faults result }
        // The disk is only read, and the store counts a fault.
        ensures reads { OnlyReads (D.state self.old.disk.now) (D.state self.new.disk.now) }
        ensures store { SameButFaults self.old.store.now self.new.store.now }
        ensures counted { OnErr result (faults_of self.new.store.now ≡ next_count (faults_of self.old.store.now)) }
        ensures uncounted { OnOk result (faults_of self.new.store.now ≡ faults_of self.old.store.now) }
        ensures keeps { KeepsRingOn self.old.store.now (D.state self.old.disk.now) → KeepsRingOn self.new.store.now (D.state self.new.disk.now) }
        ensures slots { slots_of self.new.store.now ≡ slots_of self.old.store.now }
    {
        let store = &mut *self.store;
        match store.batch.get(at) {
            Some(bytes) => {
                *into = bytes;
                Ok(())
            }
            None => {
                let place = store.batch.place_of(at);
                match read_durable(self.disk, &store.plan, place, at, into) {
                    Ok(()) => Ok(()),
                    Err(failed) => {
                        store.count_fault();
                        Err(failed)
                    }
                }
            }
        }
    }
}
