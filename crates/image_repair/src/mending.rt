//! The transaction of a repair.
ghost use Rattle.std.specs.Prelude.{◌≡◌, ◌↔◌, ◌≤◌, ◌∷◌, [], ℕ, length, Contains, IsErrOf, IsTrue, IfOk, Ok, OnOk, true};
ghost use Rattle.hx_bytes.specs.declared.faults.Trouble.TheVariants as trouble;
ghost use Rattle.sector_disk.specs.Cause.{Rose};
ghost use Rattle.sector_disk.specs.Clock.{TimePasses};
ghost use Rattle.sector_disk.specs.Disk.{HasNothingPending, SameDisk, content};
ghost use Rattle.sector_disk.specs.Space.{LeavesDurable, SameSpace};
ghost use Rattle.volume_header.specs.Refusal.{is_volume_size};
ghost use Rattle.jnl_format.specs.Recovery.{Content, recovery, replayed};
ghost use Rattle.jnl_replay.specs.Plan.{FitsPlan, IsPlan, journal_of};
ghost use Rattle.jnl_store.specs.Plan.{IsCapacityOf};
ghost use Rattle.jnl_store.specs.Seen.{seen};
ghost use Rattle.jnl_store.specs.Store.{faults_of, plan_of, puts_of};
ghost use Rattle.volume_repair.specs.Differing.{differing};
ghost use Rattle.volume_repair.specs.Repair.{IsRepair};
ghost use Rattle.fsck_repair.specs.Overlay.{places_of};
ghost use Rattle.fsck_repair.specs.Renewing.{FitInto, IsMountOf, IsSoundRepair};
ghost use Rattle.hfs_serving.specs.Faults.{Faults};
ghost use Rattle.hfs_serving.specs.Grounds.{IsInService, anchor_of};
ghost use Rattle.hfs_serving.specs.Outside.{outside_of};
ghost use Rattle.hfs_serving.specs.Readying.{IsMountedFrom, StandsMounted};
ghost use Rattle.hfs_serving.specs.Stages.{MayLeave};
ghost use Rattle.line_source.specs.Cause.{IsCause};
ghost use Rattle.image_repair.specs.Mending.{IsBroughtHome, IsCountOf, IsOfBytes, ShowsMounted, StandsEither, StandsRepaired};

use fsck_repair::{Mend, put_changes};
use hfs_serving::{Ground, attach_store, ready_image, rest};
use hx_bytes::Trouble;
use jnl_replay::Plan;
use jnl_store::Space;
use sector_disk::{Rig, SectorSpace};
use std::alloc::Global;
use volume_repair::repair_stays_remounted;

/// How many sectors of the volume are held in memory.
const SLOTS: u32 = 1_024;

/// Repairs an image that was opened, with the plan of its journal and the changes that were found in what it stands for: the repair is sound, and one
/// transaction holds them. Answers how many they are. It replays the journal, writes the version of systems that keep the journal, puts the changes with the
/// header as it stands then, commits them, and writes them home.
pub fn mend_image<R: Rig>(
    alloc: Global,
    rig: &mut R,
    plan: &Plan,
    found: Mend,
) -> Result<u64, Trouble>
    requires fits { FitsPlan (R.state rig.old).sectors plan.now }
    requires size { is_volume_size (R.state rig.old).sectors ≡ true }
    requires plan { IsTrue (R.state rig.old).tells → IsPlan (content (R.state rig.old)) plan.now }
    requires recovers { IsTrue (R.state rig.old).tells → recovery (content (R.state rig.old)) ≡ Ok (replayed (journal_of plan.now) (content (R.state rig.old))) }
    requires holds { (capacity : ℕ) × IsCapacityOf plan.now capacity × (length found.changes.items ≤ capacity) }
    requires changes { FitInto (R.state rig.old).sectors found.changes.items }
    requires found { IsTrue (R.state rig.old).tells → IsSoundRepair (replayed (journal_of plan.now) (content (R.state rig.old))) found.changes.items }
    // Whatever ends it, a crash leaves the content that the image stood for, or its repair.
    ensures leaves { IsTrue (R.state rig.old).tells → HasNothingPending (R.state rig.old) → MayLeave (StandsEither (replayed (journal_of plan.now) (content (R.state rig.old)))) (outside_of plan.now (R.state rig.old)) (outside_of plan.now (R.state rig.new)) }
    // At Ok the repair stands on the disk.
    ensures done { IsTrue (R.state rig.old).tells → OnOk result (IsBroughtHome (R.state rig.new)) }
    ensures stands { IsTrue (R.state rig.old).tells → OnOk result ((recovered : Content) → (outside_of plan.now (R.state rig.new)).leaves recovered → StandsRepaired (replayed (journal_of plan.now) (content (R.state rig.old))) recovered) }
    ensures count { IsTrue (R.state rig.old).tells → IfOk result (IsCountOf (replayed (journal_of plan.now) (content (R.state rig.old)))) }
    ensures same { SameDisk (R.state rig.old) (R.state rig.new) }
    ensures sink { (R.state rig.old).sink_faults ≤ (R.state rig.new).sink_faults }
    ensures cause { IsCause trouble.Disk (R.state rig.old).faults (R.state rig.new).faults result }
{
    let ready = ready_image(rig, plan)?;
    mend_ready(alloc, rig, &ready, found)
}

// Repairs an image that is ready for a store.
fn mend_ready<R: Rig>(alloc: Global, rig: &mut R, plan: &Plan, found: Mend) -> Result<u64, Trouble>
    requires fits { FitsPlan (R.state rig.old).sectors plan.now }
    requires size { is_volume_size (R.state rig.old).sectors ≡ true }
    requires holds { (capacity : ℕ) × IsCapacityOf plan.now capacity × (length found.changes.items ≤ capacity) }
    requires changes { FitInto (R.state rig.old).sectors found.changes.items }
    requires mounted { IsTrue (R.state rig.old).tells → (version : ℕ) × (start : Content) × IsMountedFrom version start plan.now (R.state rig.old) × IsSoundRepair start found.changes.items × IsOfBytes start }
    ensures leaves { IsTrue (R.state rig.old).tells → (version : ℕ) (start : Content) → IsMountedFrom version start plan.now (R.state rig.old) → IsSoundRepair start found.changes.items → IsOfBytes start
        → ((recovered : Content) → (outside_of plan.now (R.state rig.old)).leaves recovered → StandsMounted start recovered) → MayLeave (StandsEither start) (outside_of plan.now (R.state rig.old)) (outside_of plan.now (R.state rig.new)) }
    ensures done { IsTrue (R.state rig.old).tells → (version : ℕ) (start : Content) → IsMountedFrom version start plan.now (R.state rig.old) → IsSoundRepair start found.changes.items → IsOfBytes start → OnOk result (IsBroughtHome (R.state rig.new)) }
    ensures stands { IsTrue (R.state rig.old).tells → (version : ℕ) (start : Content) → IsMountedFrom version start plan.now (R.state rig.old) → IsSoundRepair start found.changes.items → IsOfBytes start
        → OnOk result ((recovered : Content) → (outside_of plan.now (R.state rig.new)).leaves recovered → StandsRepaired start recovered) }
    ensures count { IsTrue (R.state rig.old).tells → (version : ℕ) (start : Content) → IsMountedFrom version start plan.now (R.state rig.old) → IsSoundRepair start found.changes.items → IsOfBytes start → IfOk result (IsCountOf start) }
    ensures same { SameDisk (R.state rig.old) (R.state rig.new) }
    ensures sink { (R.state rig.old).sink_faults ≤ (R.state rig.new).sink_faults }
    ensures cause { IsCause trouble.Disk (R.state rig.old).faults (R.state rig.new).faults result }
{
    let mut store = attach_store::<R>(alloc, plan, SLOTS)?;
    let mut base = Space {
        store: &mut store,
        disk: rig,
    };
    put_repair(&mut base, found)
}

// Puts the changes that were found in a content before it was mounted, as they serve now, and answers how many they are.
fn put_renewed<P: SectorSpace>(space: &mut P, found: Mend) -> Result<u64, Trouble>
    requires size { is_volume_size (P.SectorView.space space.old).sectors ≡ true }
    requires changes { FitInto (P.SectorView.space space.old).sectors found.changes.items }
    requires open { IsTrue (P.SectorView.space space.old).tells → (at : ℕ) → Contains (places_of found.changes.items) at → (P.SectorView.space space.old).closed at → ⊥ }
    requires room { length found.changes.items ≤ (P.SectorView.space space.old).spare }
    ensures repair { IsTrue (P.SectorView.space space.old).tells → (start : Content) → IsSoundRepair start found.changes.items → IsMountOf start (P.SectorView.space space.old).content
        → IfOk result (λ _. IsRepair (P.SectorView.space space.old).content (P.SectorView.space space.new).content) }
    ensures count { IsTrue (P.SectorView.space space.old).tells → (start : Content) → IsSoundRepair start found.changes.items → IsMountOf start (P.SectorView.space space.old).content
        → IfOk result (λ n. n ≡ differing (P.SectorView.space space.old).content (P.SectorView.space space.new).content) }
    ensures durable { IsTrue (P.SectorView.space space.old).tells → (P.SectorView.space space.new).durable ≡ (P.SectorView.space space.old).durable }
    ensures spilled { IsTrue (P.SectorView.space space.old).tells → (at : ℕ) → (P.SectorView.space space.new).spilled at ↔ (P.SectorView.space space.old).spilled at }
    ensures closed { IsTrue (P.SectorView.space space.old).tells → (at : ℕ) → (P.SectorView.space space.new).closed at ↔ (P.SectorView.space space.old).closed at }
    ensures time { IsTrue (P.SectorView.space space.old).tells → TimePasses (P.SectorView.space space.old).clock (P.SectorView.space space.new).clock (LeavesDurable (P.SectorView.space space.new)) }
    ensures same { SameSpace (P.SectorView.space space.old) (P.SectorView.space space.new) }
    ensures below { P.SectorView.follows space.old space.new }
    ensures disk { IsErrOf result trouble.Disk → Rose (P.SectorView.space space.old).faults (P.SectorView.space space.new).faults }
{
    let mend = found.renewed(space)?;
    put_changes(space, &mend);
    Ok(mend.changes.len() as u64)
}

// Puts the repair of a content, commits it, and writes it home.
fn put_repair<R: Rig>(base: &mut Space<'_, '_, R>, found: Mend) -> Result<u64, Trouble>
    requires size { is_volume_size (seen R.state base.old).sectors ≡ true }
    requires serves { (capacity : ℕ) × IsInService base.old.store.now (R.state base.old.disk.now) capacity }
    requires nothing { puts_of base.old.store.now ≡ [] }
    requires no_fault { faults_of base.old.store.now ≡ 0 }
    requires changes { FitInto (seen R.state base.old).sectors found.changes.items }
    requires room { length found.changes.items ≤ (seen R.state base.old).spare }
    requires shows { IsTrue (seen R.state base.old).tells → (start : Content) × ShowsMounted start (seen R.state base.old) (outside_of (plan_of base.old.store.now) (R.state base.old.disk.now)) × IsSoundRepair start found.changes.items }
    ensures leaves { IsTrue (seen R.state base.old).tells → (start : Content) → ShowsMounted start (seen R.state base.old) (outside_of (plan_of base.old.store.now) (R.state base.old.disk.now)) → IsSoundRepair start found.changes.items
        → MayLeave (StandsEither start) (outside_of (plan_of base.old.store.now) (R.state base.old.disk.now)) (outside_of (plan_of base.new.store.now) (R.state base.new.disk.now)) }
    ensures done { IsTrue (seen R.state base.old).tells → (start : Content) → ShowsMounted start (seen R.state base.old) (outside_of (plan_of base.old.store.now) (R.state base.old.disk.now)) → IsSoundRepair start found.changes.items
        → OnOk result (IsBroughtHome (R.state base.new.disk.now)) }
    ensures stands { IsTrue (seen R.state base.old).tells → (start : Content) → ShowsMounted start (seen R.state base.old) (outside_of (plan_of base.old.store.now) (R.state base.old.disk.now)) → IsSoundRepair start found.changes.items
        → OnOk result ((recovered : Content) → (outside_of (plan_of base.new.store.now) (R.state base.new.disk.now)).leaves recovered → StandsRepaired start recovered) }
    ensures count { IsTrue (seen R.state base.old).tells → (start : Content) → ShowsMounted start (seen R.state base.old) (outside_of (plan_of base.old.store.now) (R.state base.old.disk.now)) → IsSoundRepair start found.changes.items → IfOk result (IsCountOf start) }
    ensures same { SameDisk (R.state base.old.disk.now) (R.state base.new.disk.now) }
    ensures anchor { anchor_of (plan_of base.new.store.now) ≡ anchor_of (plan_of base.old.store.now) }
    ensures names { base.new.store.ghost_name ∷ base.new.disk.ghost_name ∷ [] ≡ base.old.store.ghost_name ∷ base.old.disk.ghost_name ∷ [] }
    ensures faults { Faults (faults_of base.old.store.now) (seen R.state base.old) (faults_of base.new.store.now) (seen R.state base.new) result }
{
    repair_stays_remounted();
    let put = put_renewed(base, found)?;
    base.look();
    base.commit()?;
    rest(base)?;
    Ok(put)
}
