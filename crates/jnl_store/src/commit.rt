//! A batch made durable, all or nothing.
ghost use Rattle.std.specs.Prelude.{◌≡◌, ◌≢◌, ◌↔◌, ◌⊎◌, ◌<◌, ◌≤◌, ◌+◌, ◌-◌, ◌/◌, ℕ, [], Bool, IsTrue, Err, OnOk, OnErr, IsErrOf, length};
ghost use Rattle.sector_disk.specs.Cause.{HasCause, Rose, next_count};
ghost use Rattle.sector_disk.specs.Disk.{CrashesLeave, OnlyReads, SameDisk, SameSink, Untouched, content};
ghost use Rattle.jnl_format.specs.Recovery.{header_of_volume, journaling_version};
ghost use Rattle.jnl_format.specs.Keeping.{KeepsHeader};
ghost use Rattle.jnl_replay.specs.Plan.{FitsPlan};
ghost use Rattle.jnl_store.specs.InUse.{free_sectors, used_of};
ghost use Rattle.jnl_store.specs.Lists.{IsCapacity, text_sectors};
ghost use Rattle.jnl_store.specs.Plan.{form_of, span_of};
ghost use Rattle.jnl_store.specs.Cache.{AreRead, EachReread};
ghost use Rattle.jnl_store.specs.Standing.{Checkpoints, MakesDurable, RingCheckpoints, RingDurable, StandsForDurable, StandsForEither};
ghost use Rattle.jnl_store.specs.Store.{FitsTransaction, HasNoList, HasRoom, Keeps, KeepsRing, KeepsRingOn, SameJournal, content_over, durable_of, faults_of, has_spilled, kept_of, plan_of, puts_of, room_of, slots_of, spare_of};
ghost use Rattle.jnl_store.specs.declared.store.StoreFault.TheVariants.{Disk, Failed};

use crate::appending::append;
use crate::form::{ListForm, sectors_of};
use crate::homing::write_home;
use crate::resting::rest;
use crate::store::{Store, StoreFault};
use jnl_ring::{Span, used_bytes};
use sector_disk::SectorDisk;

impl Store {
    /// Makes what was put durable: writes the lists, calls a barrier, writes the journal header, calls a barrier. Where the
    /// ring lacks room it runs a checkpoint first. With nothing put and nothing spilled it calls no device. It takes no
    /// memory. Where an earlier call on this store or on a space of it answered a disk fault, it answers `Failed` and calls
    /// no device.
    pub fn commit<D: SectorDisk>(&mut self, disk: &mut D) -> Result<(), StoreFault>
        requires fits { FitsPlan (D.state disk.old).sectors (plan_of self.old) }
        requires capacity { FitsTransaction self.old }
        // Until a call answered a disk fault, the store keeps what it has to keep on this disk.
        requires keeps { faults_of self.old ≡ 0 → IsTrue (D.state disk.old).tells → Keeps self.old (D.state disk.old).sectors (D.state disk.old).candidates }
        // What was put into the volume header's sector, if anything, is an accepted header of the same volume.
        requires header { faults_of self.old ≡ 0 → IsTrue (D.state disk.old).tells → KeepsHeader (durable_of self.old (content (D.state disk.old))) (content_over self.old (content (D.state disk.old))) }
        requires version { faults_of self.old ≡ 0 → IsTrue (D.state disk.old).tells → (header_of_volume (durable_of self.old (content (D.state disk.old)))).last_mounted_version ≡ journaling_version }

        // At Ok the content is what reads gave before, and it is durable.
        ensures done { faults_of self.old ≡ 0 → IsTrue (D.state disk.old).tells → OnOk result (MakesDurable self.old self.new (D.state disk.old) (D.state disk.new) (content_over self.old (content (D.state disk.old)))) }
        // A crash at any moment of the call, or at its end, leaves an image that stands for the durable content from
        // before it, or for the new content.
        ensures crash { faults_of self.old ≡ 0 → IsTrue (D.state disk.old).tells → CrashesLeave (D.state disk.old) (D.state disk.new) (StandsForEither self.old (D.state disk.old)) }

        ensures idle { puts_of self.old ≡ [] → has_spilled self.old ≡ Bool.false → Untouched (D.state disk.old) (D.state disk.new) }
        ensures failed { faults_of self.old ≢ 0 → (result ≡ Err (Failed (faults_of self.old))) × (self.new ≡ self.old) × Untouched (D.state disk.old) (D.state disk.new) }
        ensures not_failed { faults_of self.old ≡ 0 → (n : ℕ) → result ≢ Err (Failed n) }
        ensures disk { IsErrOf result Disk → Rose (D.state disk.old).faults (D.state disk.new).faults × (faults_of self.new ≡ next_count (faults_of self.old)) }
        ensures later { (D.state disk.old).faults ≤ (D.state disk.new).faults }

        ensures nothing { OnOk result ((puts_of self.new ≡ []) × (kept_of self.new ≡ []) × (has_spilled self.new ≡ Bool.false) × (faults_of self.new ≡ faults_of self.old)) }
        ensures spare { spare_of self.old ≤ spare_of self.new }
        // As much may be put between two commits as before.
        ensures room { room_of self.new ≡ room_of self.old }
        // Each slot names what it named.
        ensures slots { EachReread (plan_of self.old) (slots_of self.old) (slots_of self.new) }
        ensures journal { SameJournal self.old self.new }
        ensures still_fits { FitsPlan (D.state disk.new).sectors (plan_of self.new) }
        // At most two barriers, or four where the ring lacked room.
        ensures barriers { (D.state disk.new).barriers ≤ (D.state disk.old).barriers + 4 }
        ensures enough { HasRoom self.old → (D.state disk.new).barriers ≤ (D.state disk.old).barriers + 2 }
        ensures same { SameDisk (D.state disk.old) (D.state disk.new) }
        ensures sink { SameSink (D.state disk.old) (D.state disk.new) }
    {
        if self.faults > 0 {
            return Err(StoreFault::Failed(self.faults));
        }
        match self.commit_whole(disk) {
            Ok(()) => Ok(()),
            Err(_) => {
                self.count_fault();
                Err(StoreFault::Disk)
            }
        }
    }

    /// Writes the sectors of the live lists home, calls a barrier, and empties the journal behind another. What was put
    /// since the last commit stays as it is. With no list live and nothing spilled it calls no device. It takes no memory.
    pub fn checkpoint<D: SectorDisk>(&mut self, disk: &mut D) -> Result<(), StoreFault>
        requires fits { FitsPlan (D.state disk.old).sectors (plan_of self.old) }
        // Until a call answered a disk fault, the store keeps what it has to keep on this disk.
        requires keeps { faults_of self.old ≡ 0 → IsTrue (D.state disk.old).tells → Keeps self.old (D.state disk.old).sectors (D.state disk.old).candidates }

        // At Ok the durable content is as before, no list is live, and nothing is pending.
        ensures done { faults_of self.old ≡ 0 → IsTrue (D.state disk.old).tells → OnOk result (Checkpoints self.old self.new (D.state disk.old) (D.state disk.new) (durable_of self.old (content (D.state disk.old)))) }
        // A crash at any moment of the call, or at its end, leaves an image that stands for the durable content.
        ensures crash { faults_of self.old ≡ 0 → IsTrue (D.state disk.old).tells → CrashesLeave (D.state disk.old) (D.state disk.new) (StandsForDurable self.old (D.state disk.old)) }

        ensures idle { HasNoList self.old → has_spilled self.old ≡ Bool.false → Untouched (D.state disk.old) (D.state disk.new) }
        ensures failed { faults_of self.old ≢ 0 → (result ≡ Err (Failed (faults_of self.old))) × (self.new ≡ self.old) × Untouched (D.state disk.old) (D.state disk.new) }
        ensures not_failed { faults_of self.old ≡ 0 → (n : ℕ) → result ≢ Err (Failed n) }
        ensures disk { IsErrOf result Disk → Rose (D.state disk.old).faults (D.state disk.new).faults × (faults_of self.new ≡ next_count (faults_of self.old)) }
        ensures later { (D.state disk.old).faults ≤ (D.state disk.new).faults }

        ensures puts { (puts_of self.new ≡ puts_of self.old) × (kept_of self.new ≡ kept_of self.old) }
        ensures spare { spare_of self.old ≤ spare_of self.new }
        ensures room { room_of self.new ≡ room_of self.old }
        ensures settled { OnOk result ((has_spilled self.new ≡ Bool.false) × (faults_of self.new ≡ faults_of self.old)) }
        // Each slot names what it named.
        ensures slots { EachReread (plan_of self.old) (slots_of self.old) (slots_of self.new) }
        ensures journal { SameJournal self.old self.new }
        ensures still_fits { FitsPlan (D.state disk.new).sectors (plan_of self.new) }
        ensures barriers { (D.state disk.new).barriers ≤ (D.state disk.old).barriers + 2 }
        ensures same { SameDisk (D.state disk.old) (D.state disk.new) }
        ensures sink { SameSink (D.state disk.old) (D.state disk.new) }
    {
        if self.faults != 0 {
            return Err(StoreFault::Failed(self.faults));
        }
        match self.checkpoint_whole(disk) {
            Ok(()) => Ok(()),
            Err(_) => {
                self.count_fault();
                Err(StoreFault::Disk)
            }
        }
    }

    // Makes the batch durable, and reads again what slots keep of the journal's own sectors, where no call failed before.
    fn commit_whole<D: SectorDisk>(&mut self, disk: &mut D) -> Result<(), hx_bytes::Failed>
        requires fits { FitsPlan (D.state disk.old).sectors self.old.plan }
        requires capacity { FitsTransaction self.old }
        requires keeps { IsTrue (D.state disk.old).tells → Keeps self.old (D.state disk.old).sectors (D.state disk.old).candidates }
        requires header { IsTrue (D.state disk.old).tells → KeepsHeader (durable_of self.old (content (D.state disk.old))) (content_over self.old (content (D.state disk.old))) }
        requires version { IsTrue (D.state disk.old).tells → (header_of_volume (durable_of self.old (content (D.state disk.old)))).last_mounted_version ≡ journaling_version }
        ensures done { IsTrue (D.state disk.old).tells → OnOk result (MakesDurable self.old self.new (D.state disk.old) (D.state disk.new) (content_over self.old (content (D.state disk.old)))) }
        ensures crash { IsTrue (D.state disk.old).tells → CrashesLeave (D.state disk.old) (D.state disk.new) (StandsForEither self.old (D.state disk.old)) }
        ensures idle { self.old.batch.all ≡ [] → self.old.unsettled ≡ Bool.false → Untouched (D.state disk.old) (D.state disk.new) }
        ensures nothing { OnOk result ((self.new.batch.all ≡ []) × (self.new.batch.kept ≡ []) × (self.new.unsettled ≡ Bool.false)) }
        ensures few { length self.new.batch.all ≤ length self.old.batch.all }
        ensures room { self.new.batch.room ≡ self.old.batch.room }
        ensures faults { self.new.faults ≡ self.old.faults }
        ensures slots { EachReread self.old.plan self.old.cache self.new.cache }
        ensures journal { SameJournal self.old self.new }
        ensures barriers { (D.state disk.new).barriers ≤ (D.state disk.old).barriers + 4 }
        ensures enough { HasRoom self.old → (D.state disk.new).barriers ≤ (D.state disk.old).barriers + 2 }
        ensures same { SameDisk (D.state disk.old) (D.state disk.new) }
        ensures sink { SameSink (D.state disk.old) (D.state disk.new) }
        ensures cause { HasCause (D.state disk.old).faults (D.state disk.new).faults result }
    {
        let idle = self.has_nothing_to_commit();
        self.try_commit(disk)?;
        self.reread_slots(idle, disk)
    }

    // Writes the live sectors home, and reads again what slots keep of the journal's own sectors, where no call failed
    // before.
    fn checkpoint_whole<D: SectorDisk>(&mut self, disk: &mut D) -> Result<(), hx_bytes::Failed>
        requires fits { FitsPlan (D.state disk.old).sectors self.old.plan }
        requires keeps { IsTrue (D.state disk.old).tells → Keeps self.old (D.state disk.old).sectors (D.state disk.old).candidates }
        ensures done { IsTrue (D.state disk.old).tells → OnOk result (Checkpoints self.old self.new (D.state disk.old) (D.state disk.new) (durable_of self.old (content (D.state disk.old)))) }
        ensures crash { IsTrue (D.state disk.old).tells → CrashesLeave (D.state disk.old) (D.state disk.new) (StandsForDurable self.old (D.state disk.old)) }
        ensures idle { HasNoList self.old → self.old.unsettled ≡ Bool.false → Untouched (D.state disk.old) (D.state disk.new) }
        ensures settled { OnOk result (self.new.unsettled ≡ Bool.false) }
        ensures puts { (self.new.batch.all ≡ self.old.batch.all) × (self.new.batch.kept ≡ self.old.batch.kept) × (self.new.batch.room ≡ self.old.batch.room) }
        ensures faults { self.new.faults ≡ self.old.faults }
        ensures slots { EachReread self.old.plan self.old.cache self.new.cache }
        ensures journal { SameJournal self.old self.new }
        ensures barriers { (D.state disk.new).barriers ≤ (D.state disk.old).barriers + 2 }
        ensures same { SameDisk (D.state disk.old) (D.state disk.new) }
        ensures sink { SameSink (D.state disk.old) (D.state disk.new) }
        ensures cause { HasCause (D.state disk.old).faults (D.state disk.new).faults result }
    {
        let idle = self.has_nothing_to_bring_home();
        self.try_checkpoint(disk)?;
        self.reread_slots(idle, disk)
    }

    fn has_nothing_to_commit(&self) -> bool
        ensures { IsTrue result ↔ (self.now.batch.all ≡ []) × (self.now.unsettled ≡ Bool.false) }
    {
        if self.unsettled {
            return false;
        }
        self.batch.len() == 0
    }

    fn has_nothing_to_bring_home(&self) -> bool
        ensures { IsTrue result ↔ HasNoList self.now × (self.now.unsettled ≡ Bool.false) }
    {
        if self.unsettled {
            return false;
        }
        self.plan.header.start == self.plan.header.end
    }

    // Reads again what slots keep of the journal's own sectors, unless nothing was to do.
    fn reread_slots<D: SectorDisk>(
        &mut self,
        idle: bool,
        disk: &mut D,
    ) -> Result<(), hx_bytes::Failed>
        requires fits { FitsPlan (D.state disk.old).sectors self.old.plan }
        ensures slots { EachReread self.old.plan self.old.cache self.new.cache }
        ensures own { idle ≡ Bool.false → IsTrue (D.state disk.old).tells → OnOk result (AreRead self.old.plan (content (D.state disk.old)) self.new.cache) }
        ensures nothing { idle ≡ Bool.true → Untouched (D.state disk.old) (D.state disk.new) × (self.new.cache ≡ self.old.cache) }
        ensures reads { OnlyReads (D.state disk.old) (D.state disk.new) }
        ensures plan { self.new.plan ≡ self.old.plan }
        ensures batch { self.new.batch ≡ self.old.batch }
        ensures unsettled { self.new.unsettled ≡ self.old.unsettled }
        ensures faults { self.new.faults ≡ self.old.faults }
        ensures cause { HasCause (D.state disk.old).faults (D.state disk.new).faults result }
    {
        if idle {
            return Ok(());
        }
        self.cache.reread_own(&self.plan, disk)
    }
}
