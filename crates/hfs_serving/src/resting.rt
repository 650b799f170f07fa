//! The end of a run over a journal's store and its rig: nothing is left of its journal.
ghost use Rattle.std.specs.Prelude.{◌≡◌, ◌∷◌, [], ℕ, Option, IsTrue, OnOk, OnErr, length, ◌+◌, ◌≤◌};
ghost use Rattle.sector_disk.specs.Cause.{Rose};
ghost use Rattle.sector_disk.specs.Disk.{SameDisk};
ghost use Rattle.jnl_store.specs.Seen.{seen};
ghost use Rattle.jnl_store.specs.Store.{faults_of, plan_of, puts_of};
ghost use Rattle.jnl_format.specs.Recovery.{Content};
ghost use Rattle.hfs_serving.specs.Closing.{Finishes, MayFinish};
ghost use Rattle.hfs_serving.specs.Ending.{IsPutAway};
ghost use Rattle.hfs_serving.specs.Faults.{CountsFaults, Faults};
ghost use Rattle.hfs_serving.specs.Going.{Stands};
ghost use Rattle.hfs_serving.specs.Grounds.{IsInService, anchor_of};
ghost use Rattle.hfs_serving.specs.Outside.{outside_of};
ghost use Rattle.hfs_serving.specs.Resting.{IsRested};
ghost use Rattle.hfs_serving.specs.Serving.{Commits, MayCommit};
ghost use Rattle.hfs_serving.specs.Steps.{SomeWhole};

use crate::ending::end_run;
use crate::volume::Volume;
use hx_bytes::{Failed, Trouble};
use jnl_store::Space;
use sector_disk::Rig;

/// Ends a run behind its last batch: sets bit 8 of the header's attributes, commits that, and empties the journal.
pub(crate) fn finish<V: Volume, R: Rig>(
    volume: &mut V,
    base: &mut Space<'_, '_, R>,
) -> Result<(), Trouble>
    requires serves { (capacity : ℕ) × IsInService base.old.store.now (R.state base.old.disk.now) capacity × (length (puts_of base.old.store.now) ≡ 0) }
    requires stands { IsTrue (seen R.state base.old).tells → SomeWhole (V.knows volume.old (seen R.state base.old)) (seen R.state base.old) (outside_of (plan_of base.old.store.now) (R.state base.old.disk.now)) }
    // Whatever ends it, a crash leaves the content as it was, or with the mark.
    ensures crash { IsTrue (seen R.state base.old).tells → (capacity : ℕ) (now : Content) (shrunk : Option ℕ) → Stands (V.knows volume.old (seen R.state base.old) capacity) now now shrunk (seen R.state base.old) (outside_of (plan_of base.old.store.now) (R.state base.old.disk.now))
        → MayFinish now (outside_of (plan_of base.old.store.now) (R.state base.old.disk.now)) (outside_of (plan_of base.new.store.now) (R.state base.new.disk.now)) }
    ensures done { IsTrue (seen R.state base.old).tells → (capacity : ℕ) (now : Content) (shrunk : Option ℕ) → Stands (V.knows volume.old (seen R.state base.old) capacity) now now shrunk (seen R.state base.old) (outside_of (plan_of base.old.store.now) (R.state base.old.disk.now))
        → OnOk result (Finishes now (outside_of (plan_of base.old.store.now) (R.state base.old.disk.now)) (outside_of (plan_of base.new.store.now) (R.state base.new.disk.now))) }
    ensures away { IsTrue (seen R.state base.old).tells → OnOk result (IsPutAway (R.state base.new.disk.now)) }
    ensures same { SameDisk (R.state base.old.disk.now) (R.state base.new.disk.now) }
    ensures anchor { anchor_of (plan_of base.new.store.now) ≡ anchor_of (plan_of base.old.store.now) }
    ensures names { base.new.store.ghost_name ∷ base.new.disk.ghost_name ∷ [] ≡ base.old.store.ghost_name ∷ base.old.disk.ghost_name ∷ [] }
    ensures barriers { (R.state base.new.disk.now).barriers ≤ (R.state base.old.disk.now).barriers + 6 }
    ensures faults { Faults (faults_of base.old.store.now) (seen R.state base.old) (faults_of base.new.store.now) (seen R.state base.new) result }
{
    end_run(volume, base)?;
    rest(base)?;
    Ok(())
}

/// Writes the live sectors of a journal home and empties it, where nothing is put. What is durable stays so.
pub fn rest<R: Rig>(base: &mut Space<'_, '_, R>) -> Result<(), Failed>
    requires serves { (capacity : ℕ) × IsInService base.old.store.now (R.state base.old.disk.now) capacity }
    requires nothing { length (puts_of base.old.store.now) ≡ 0 }
    // It is seen as a commit of nothing.
    ensures crash { IsTrue (seen R.state base.old).tells → MayCommit (seen R.state base.old) (outside_of (plan_of base.old.store.now) (R.state base.old.disk.now)) (outside_of (plan_of base.new.store.now) (R.state base.new.disk.now)) }
    ensures done { IsTrue (seen R.state base.old).tells → OnOk result (Commits (seen R.state base.old) (outside_of (plan_of base.old.store.now) (R.state base.old.disk.now)) (seen R.state base.new) (outside_of (plan_of base.new.store.now) (R.state base.new.disk.now))) }
    // And nothing is left of the journal.
    ensures rests { IsTrue (seen R.state base.old).tells → OnOk result (IsRested (seen R.state base.new) (R.state base.new.disk.now)) }
    ensures same { SameDisk (R.state base.old.disk.now) (R.state base.new.disk.now) }
    ensures anchor { anchor_of (plan_of base.new.store.now) ≡ anchor_of (plan_of base.old.store.now) }
    ensures names { base.new.store.ghost_name ∷ base.new.disk.ghost_name ∷ [] ≡ base.old.store.ghost_name ∷ base.old.disk.ghost_name ∷ [] }
    ensures barriers { (R.state base.new.disk.now).barriers ≤ (R.state base.old.disk.now).barriers + 2 }
    ensures counts { CountsFaults (faults_of base.old.store.now) (seen R.state base.old) (faults_of base.new.store.now) (seen R.state base.new) }
    ensures cause { OnErr result (faults_of base.old.store.now ≡ 0 → Rose (seen R.state base.old).faults (seen R.state base.new).faults) }
{
    match base.store.checkpoint(base.disk) {
        Ok(()) => Ok(()),
        Err(_) => Err(Failed),
    }
}
