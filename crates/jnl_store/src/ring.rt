//! A batch written into the ring, and the live sectors written home, where no call failed before.
ghost use Rattle.std.specs.Prelude.{◌≡◌, ◌≢◌, ◌⊎◌, ◌<◌, ◌≤◌, ◌+◌, ◌-◌, ◌/◌, ◌^◌, ℕ, [], Bool, IsTrue, Err, OnOk, OnErr, IsErrOf, length};
ghost use Rattle.sector_disk.specs.Cause.{HasCause, Rose, next_count};
ghost use Rattle.sector_disk.specs.Disk.{CrashesLeave, SameDisk, SameSink, Untouched, content};
ghost use Rattle.jnl_format.specs.Recovery.{header_of_volume, journaling_version};
ghost use Rattle.jnl_format.specs.Keeping.{KeepsHeader};
ghost use Rattle.jnl_replay.specs.Plan.{FitsPlan};
ghost use Rattle.jnl_store.specs.InUse.{IsInUse, free_sectors, used_of};
ghost use Rattle.jnl_store.specs.Lists.{IsCapacity, text_sectors};
ghost use Rattle.jnl_store.specs.Plan.{form_of, span_of};
ghost use Rattle.jnl_store.specs.Cache.{EachReread};
ghost use Rattle.jnl_store.specs.Standing.{Checkpoints, MakesDurable, RingCheckpoints, RingDurable, StandsForDurable, StandsForEither};
ghost use Rattle.jnl_store.specs.Store.{FitsTransaction, HasNoList, HasRoom, Keeps, KeepsRing, KeepsRingOn, SameJournal, content_over, durable_of, faults_of, has_spilled, kept_of, plan_of, puts_of, slots_of, spare_of};
ghost use Rattle.jnl_store.specs.declared.store.StoreFault.TheVariants.{Disk, Failed};

use crate::appending::append;
use crate::form::{ListForm, sectors_of};
use crate::homing::write_home;
use crate::resting::rest;
use crate::store::{Store, StoreFault};
use jnl_replay::Plan;
use jnl_ring::{Span, used_bytes};
use sector_disk::SectorDisk;

impl Store {
    // Writes the live sectors home, where no call failed before. With no list live it calls a barrier at most.
    pub(crate) fn try_checkpoint<D: SectorDisk>(
        &mut self,
        disk: &mut D,
    ) -> Result<(), hx_bytes::Failed>
        requires fits { FitsPlan (D.state disk.old).sectors self.old.plan }
        requires keeps { IsTrue (D.state disk.old).tells → KeepsRing self.old (D.state disk.old).sectors (D.state disk.old).candidates }
        ensures done { IsTrue (D.state disk.old).tells → OnOk result (RingCheckpoints self.old self.new (D.state disk.old) (D.state disk.new) (durable_of self.old (content (D.state disk.old)))) }
        ensures crash { IsTrue (D.state disk.old).tells → CrashesLeave (D.state disk.old) (D.state disk.new) (StandsForDurable self.old (D.state disk.old)) }
        ensures idle { self.old.plan.header.start ≡ self.old.plan.header.end → self.old.unsettled ≡ Bool.false → Untouched (D.state disk.old) (D.state disk.new) }
        ensures empty { OnOk result (self.new.plan.header.start ≡ self.new.plan.header.end) }
        ensures settled { OnOk result (self.new.unsettled ≡ Bool.false) }
        ensures puts { (self.new.batch.all ≡ self.old.batch.all) × (self.new.batch.kept ≡ self.old.batch.kept) × (self.new.batch.room ≡ self.old.batch.room) }
        ensures faults { self.new.faults ≡ self.old.faults }
        ensures slots { self.new.cache ≡ self.old.cache }
        ensures journal { SameJournal self.old self.new }
        ensures barriers { (D.state disk.new).barriers ≤ (D.state disk.old).barriers + 2 }
        ensures same { SameDisk (D.state disk.old) (D.state disk.new) }
        ensures sink { SameSink (D.state disk.old) (D.state disk.new) }
        ensures cause { HasCause (D.state disk.old).faults (D.state disk.new).faults result }
    {
        if self.plan.header.start == self.plan.header.end {
            self.flush_spills(disk)
        } else {
            self.go_home(disk)
        }
    }

    // Makes the batch durable, where no call failed before.
    pub(crate) fn try_commit<D: SectorDisk>(&mut self, disk: &mut D) -> Result<(), hx_bytes::Failed>
        requires fits { FitsPlan (D.state disk.old).sectors self.old.plan }
        requires capacity { (most : ℕ) × IsCapacity (span_of self.old.plan) (form_of self.old.plan) most × (length self.old.batch.all ≤ most) }
        requires keeps { IsTrue (D.state disk.old).tells → KeepsRing self.old (D.state disk.old).sectors (D.state disk.old).candidates }
        requires header { IsTrue (D.state disk.old).tells → KeepsHeader (durable_of self.old (content (D.state disk.old))) (content_over self.old (content (D.state disk.old))) }
        requires version { IsTrue (D.state disk.old).tells → (header_of_volume (durable_of self.old (content (D.state disk.old)))).last_mounted_version ≡ journaling_version }
        ensures done { IsTrue (D.state disk.old).tells → OnOk result (RingDurable self.old self.new (D.state disk.old) (D.state disk.new) (content_over self.old (content (D.state disk.old)))) }
        ensures crash { IsTrue (D.state disk.old).tells → CrashesLeave (D.state disk.old) (D.state disk.new) (StandsForEither self.old (D.state disk.old)) }
        ensures idle { self.old.batch.all ≡ [] → self.old.unsettled ≡ Bool.false → Untouched (D.state disk.old) (D.state disk.new) }
        ensures nothing { OnOk result ((self.new.batch.all ≡ []) × (self.new.batch.kept ≡ []) × (self.new.unsettled ≡ Bool.false)) }
        ensures room { self.new.batch.room ≡ self.old.batch.room }
        ensures few { length self.new.batch.all ≤ length self.old.batch.all }
        ensures faults { self.new.faults ≡ self.old.faults }
        ensures slots { self.new.cache ≡ self.old.cache }
        ensures journal { SameJournal self.old self.new }
        ensures barriers { (D.state disk.new).barriers ≤ (D.state disk.old).barriers + 4 }
        ensures enough { text_sectors self.old.plan.header.blhdr (length self.old.batch.all) ≤ free_sectors self.old.plan → (D.state disk.new).barriers ≤ (D.state disk.old).barriers + 2 }
        ensures same { SameDisk (D.state disk.old) (D.state disk.new) }
        ensures sink { SameSink (D.state disk.old) (D.state disk.new) }
        ensures cause { HasCause (D.state disk.old).faults (D.state disk.new).faults result }
    {
        if self.batch.len() == 0 {
            self.batch.clear();
            return self.flush_spills(disk);
        }
        self.write_puts(disk)
    }

    // Writes what was put as one transaction, with room made for it.
    fn write_puts<D: SectorDisk>(&mut self, disk: &mut D) -> Result<(), hx_bytes::Failed>
        requires fits { FitsPlan (D.state disk.old).sectors self.old.plan }
        requires capacity { (most : ℕ) × IsCapacity (span_of self.old.plan) (form_of self.old.plan) most × (length self.old.batch.all ≤ most) }
        requires keeps { IsTrue (D.state disk.old).tells → KeepsRing self.old (D.state disk.old).sectors (D.state disk.old).candidates }
        requires header { IsTrue (D.state disk.old).tells → KeepsHeader (durable_of self.old (content (D.state disk.old))) (content_over self.old (content (D.state disk.old))) }
        requires version { IsTrue (D.state disk.old).tells → (header_of_volume (durable_of self.old (content (D.state disk.old)))).last_mounted_version ≡ journaling_version }
        ensures done { IsTrue (D.state disk.old).tells → OnOk result (RingDurable self.old self.new (D.state disk.old) (D.state disk.new) (content_over self.old (content (D.state disk.old)))) }
        ensures crash { IsTrue (D.state disk.old).tells → CrashesLeave (D.state disk.old) (D.state disk.new) (StandsForEither self.old (D.state disk.old)) }
        ensures nothing { OnOk result ((self.new.batch.all ≡ []) × (self.new.batch.kept ≡ []) × (self.new.unsettled ≡ Bool.false)) }
        ensures room { self.new.batch.room ≡ self.old.batch.room }
        ensures few { length self.new.batch.all ≤ length self.old.batch.all }
        ensures faults { self.new.faults ≡ self.old.faults }
        ensures slots { self.new.cache ≡ self.old.cache }
        ensures journal { SameJournal self.old self.new }
        ensures barriers { (D.state disk.new).barriers ≤ (D.state disk.old).barriers + 4 }
        ensures enough { text_sectors self.old.plan.header.blhdr (length self.old.batch.all) ≤ free_sectors self.old.plan → (D.state disk.new).barriers ≤ (D.state disk.old).barriers + 2 }
        ensures same { SameDisk (D.state disk.old) (D.state disk.new) }
        ensures sink { SameSink (D.state disk.old) (D.state disk.new) }
        ensures cause { HasCause (D.state disk.old).faults (D.state disk.new).faults result }
    {
        self.make_room(disk)?;
        let form = ListForm {
            order: self.plan.header.order,
            blhdr: self.plan.header.blhdr,
        };
        let from = live_bytes(&self.plan);
        let plan = append(disk, &self.plan, self.batch.as_slice())?;
        self.plan = plan;
        self.batch.make_live(&form, from);
        self.unsettled = false;
        Ok(())
    }

    // Writes the live sectors home where the ring lacks room for what was put.
    fn make_room<D: SectorDisk>(&mut self, disk: &mut D) -> Result<(), hx_bytes::Failed>
        requires fits { FitsPlan (D.state disk.old).sectors self.old.plan }
        requires capacity { (most : ℕ) × IsCapacity (span_of self.old.plan) (form_of self.old.plan) most × (length self.old.batch.all ≤ most) }
        requires keeps { IsTrue (D.state disk.old).tells → KeepsRing self.old (D.state disk.old).sectors (D.state disk.old).candidates }
        ensures room { OnOk result (used_of self.new.plan / 512 + text_sectors self.new.plan.header.blhdr (length self.new.batch.all) ≤ self.new.plan.info.size / 512 - 2) }
        ensures done { IsTrue (D.state disk.old).tells → OnOk result (Untouched (D.state disk.old) (D.state disk.new) × (self.new ≡ self.old) ⊎ RingCheckpoints self.old self.new (D.state disk.old) (D.state disk.new) (durable_of self.old (content (D.state disk.old)))) }
        ensures crash { IsTrue (D.state disk.old).tells → CrashesLeave (D.state disk.old) (D.state disk.new) (StandsForDurable self.old (D.state disk.old)) }
        ensures puts { (self.new.batch.all ≡ self.old.batch.all) × (self.new.batch.kept ≡ self.old.batch.kept) × (self.new.batch.room ≡ self.old.batch.room) }
        ensures faults { self.new.faults ≡ self.old.faults }
        ensures slots { self.new.cache ≡ self.old.cache }
        ensures journal { SameJournal self.old self.new }
        ensures enough { text_sectors self.old.plan.header.blhdr (length self.old.batch.all) ≤ free_sectors self.old.plan → (D.state disk.new).barriers ≡ (D.state disk.old).barriers }
        ensures barriers { (D.state disk.new).barriers ≤ (D.state disk.old).barriers + 2 }
        ensures same { SameDisk (D.state disk.old) (D.state disk.new) }
        ensures sink { SameSink (D.state disk.old) (D.state disk.new) }
        ensures cause { HasCause (D.state disk.old).faults (D.state disk.new).faults result }
    {
        let span = Span {
            base: self.plan.info.offset / 512,
            size: self.plan.info.size,
        };
        let form = ListForm {
            order: self.plan.header.order,
            blhdr: self.plan.header.blhdr,
        };
        let used = used_bytes(&span, self.plan.header.start, self.plan.header.end) / 512;
        let need = sectors_of(&form, self.batch.len() as u64);
        if used + need <= span.size / 512 - 2 {
            return Ok(());
        }
        self.go_home(disk)
    }

    // Writes the live sectors home, and empties the journal.
    fn go_home<D: SectorDisk>(&mut self, disk: &mut D) -> Result<(), hx_bytes::Failed>
        requires fits { FitsPlan (D.state disk.old).sectors self.old.plan }
        requires keeps { IsTrue (D.state disk.old).tells → KeepsRing self.old (D.state disk.old).sectors (D.state disk.old).candidates }
        ensures done { IsTrue (D.state disk.old).tells → OnOk result (RingCheckpoints self.old self.new (D.state disk.old) (D.state disk.new) (durable_of self.old (content (D.state disk.old)))) }
        ensures crash { IsTrue (D.state disk.old).tells → CrashesLeave (D.state disk.old) (D.state disk.new) (StandsForDurable self.old (D.state disk.old)) }
        ensures empty { OnOk result (self.new.plan.header.start ≡ self.new.plan.header.end) }
        ensures settled { OnOk result (self.new.unsettled ≡ Bool.false) }
        ensures puts { (self.new.batch.all ≡ self.old.batch.all) × (self.new.batch.kept ≡ self.old.batch.kept) × (self.new.batch.room ≡ self.old.batch.room) }
        ensures faults { self.new.faults ≡ self.old.faults }
        ensures slots { self.new.cache ≡ self.old.cache }
        ensures journal { SameJournal self.old self.new }
        ensures barriers { (D.state disk.new).barriers ≤ (D.state disk.old).barriers + 2 }
        ensures same { SameDisk (D.state disk.old) (D.state disk.new) }
        ensures sink { SameSink (D.state disk.old) (D.state disk.new) }
        ensures cause { HasCause (D.state disk.old).faults (D.state disk.new).faults result }
    {
        write_home(disk, &self.plan, self.batch.live())?;
        self.plan = rest(&self.plan);
        self.batch.forget();
        self.unsettled = false;
        Ok(())
    }

    // Calls a barrier where something was spilled since the last one.
    fn flush_spills<D: SectorDisk>(&mut self, disk: &mut D) -> Result<(), hx_bytes::Failed>
        ensures done { KeepsRingOn self.old (D.state disk.old) → OnOk result (RingDurable self.old self.new (D.state disk.old) (D.state disk.new) (durable_of self.old (content (D.state disk.old)))) }
        ensures crash { KeepsRingOn self.old (D.state disk.old) → CrashesLeave (D.state disk.old) (D.state disk.new) (StandsForDurable self.old (D.state disk.old)) }
        ensures idle { self.old.unsettled ≡ Bool.false → Untouched (D.state disk.old) (D.state disk.new) }
        ensures settled { OnOk result (self.new.unsettled ≡ Bool.false) }
        ensures plan { self.new.plan ≡ self.old.plan }
        ensures batch { self.new.batch ≡ self.old.batch }
        ensures faults { self.new.faults ≡ self.old.faults }
        ensures slots { self.new.cache ≡ self.old.cache }
        ensures barriers { (D.state disk.new).barriers ≤ (D.state disk.old).barriers + 1 }
        ensures same { SameDisk (D.state disk.old) (D.state disk.new) }
        ensures sink { SameSink (D.state disk.old) (D.state disk.new) }
        ensures cause { HasCause (D.state disk.old).faults (D.state disk.new).faults result }
    {
        if self.unsettled {
            disk.barrier()?;
            self.unsettled = false;
        }
        Ok(())
    }
}

// How many bytes of lists are live.
fn live_bytes(plan: &Plan) -> u64
    requires { IsInUse plan.now }
    ensures value { result ≡ used_of plan.now }
    ensures few { result ≤ 2 ^ 40 }
{
    let span = Span {
        base: plan.info.offset / 512,
        size: plan.info.size,
    };
    used_bytes(&span, plan.header.start, plan.header.end)
}
