//! Housekeeping within a batch.
ghost use Rattle.std.specs.Prelude.{◌≡◌, ◌≤◌, ◌+◌, [], ℕ, Option, None, IsErrOf, IsTrue, IfOk, OnOk, OnErr, ◌-◌};
ghost use Rattle.jnl_format.specs.Recovery.{Content};
ghost use Rattle.hfs_serving.specs.Commits.{HaveCauses, SomeWantsAt};
ghost use Rattle.hfs_serving.specs.Faults.{Faults, StopFaults};
ghost use Rattle.hfs_serving.specs.Going.{GoesRested, GoesTidy, SomeStands, Stands, StopsOn};

use crate::basis::Ground;
use crate::returning::come_back;
use crate::telling::Stop;
use crate::volume::{Next, Volume};
use hx_bytes::Trouble;

/// How often one call of `tidy` goes on after memory was missing for a step.
const MOST_RETRIES: u8 = 8;

// Takes one of the tries that are left. Where none is, memory was missing once too often.
fn take_try(tries: &mut u8) -> Result<(), Trouble>
    ensures fewer { OnOk result (tries.new + 1 ≡ tries.old) }
    ensures same { OnErr result ((tries.old ≡ 0) × (tries.new ≡ tries.old)) }
    ensures memory { IsErrOf result Trouble.Disk → ⊥ }
{
    if *tries == 0 {
        return Err(Trouble::Memory);
    }
    *tries -= 1;
    Ok(())
}

/// Makes a step of housekeeping, or the commit before it. Where memory is missing for the step and a try is left, what it put is dropped, what was
/// put before it is committed, and the volume comes into service anew. Answers whether it rests.
fn work<V: Volume, G: Ground>(volume: &mut V, base: &mut G, tries: &mut u8) -> Result<bool, Trouble>
    requires serves { (capacity : ℕ) × G.serves base.old capacity × (G.taken base.old ≤ capacity) }
    requires stands { IsTrue (G.space base.old).tells → SomeStands (V.knows volume.old (G.space base.old)) (G.space base.old) (G.outside base.old) }
    ensures goes { IsTrue (G.space base.old).tells → (capacity : ℕ) (committed now : Content) (shrunk : Option ℕ) → Stands (V.knows volume.old (G.space base.old) capacity) committed now shrunk (G.space base.old) (G.outside base.old)
        → OnOk result (GoesTidy capacity None (V.knows volume.new (G.space base.new) capacity) committed now shrunk (G.outside base.old) (G.space base.new) (G.outside base.new)) }
    ensures rests { IsTrue (G.space base.old).tells → (capacity : ℕ) (committed now : Content) (shrunk : Option ℕ) → Stands (V.knows volume.old (G.space base.old) capacity) committed now shrunk (G.space base.old) (G.outside base.old)
        → IfOk result (λ rests. IsTrue rests → GoesRested capacity None (V.knows volume.new (G.space base.new) capacity) committed now shrunk (G.outside base.old) (G.space base.new) (G.outside base.new)) }
    ensures stops { IsTrue (G.space base.old).tells → (capacity : ℕ) (committed now : Content) (shrunk : Option ℕ) → Stands (V.knows volume.old (G.space base.old) capacity) committed now shrunk (G.space base.old) (G.outside base.old)
        → OnErr result (StopsOn capacity committed now shrunk (G.outside base.old) [] (G.outside base.new)) }
    ensures still { (capacity : ℕ) → G.serves base.old capacity → G.taken base.old ≤ capacity → OnOk result (G.serves base.new capacity × (G.taken base.new ≤ capacity)) }
    ensures tells { OnOk result ((G.space base.new).tells ≡ (G.space base.old).tells) }
    ensures anchor { G.anchor base.new ≡ G.anchor base.old }
    // A commit is made where the step wanted it, or where memory was missing for it, which takes a try.
    ensures caused { IsTrue (G.space base.old).tells → HaveCauses (SomeWantsAt V.wants G.space) (tries.old - tries.new) (G.space base.old).barriers (G.space base.new).barriers }
    ensures faults { Faults (G.failed base.old) (G.space base.old) (G.failed base.new) (G.space base.new) result }
    ensures fewer { tries.new ≤ tries.old }
{
    base.keep();
    volume.look(base);
    let recalled = volume.recall(base);
    base.look();
    match volume.tidy_step(base) {
        Ok(Next::Rest) => Ok(true),
        Ok(Next::Made) => Ok(false),
        Ok(Next::CommitFirst) => {
            volume.commit(base)?;
            Ok(false)
        }
        Err(Trouble::Disk) => Err(Trouble::Disk),
        Err(Trouble::Memory) => {
            take_try(tries)?;
            base.look();
            come_back(volume, base, recalled)?;
            Ok(false)
        }
    }
}

/// Reclaims until nothing is left to reclaim, or so many steps are made. Answers whether it came to rest. `Memory` comes only where memory was missing
/// for a step again and again, or for bringing the volume back.
pub fn tidy<V: Volume, G: Ground>(volume: &mut V, base: &mut G) -> Result<bool, Trouble>
    requires serves { (capacity : ℕ) × G.serves base.old capacity × (G.taken base.old ≤ capacity) }
    requires stands { IsTrue (G.space base.old).tells → SomeStands (V.knows volume.old (G.space base.old)) (G.space base.old) (G.outside base.old) }
    ensures goes { IsTrue (G.space base.old).tells → (capacity : ℕ) (committed now : Content) (shrunk : Option ℕ) → Stands (V.knows volume.old (G.space base.old) capacity) committed now shrunk (G.space base.old) (G.outside base.old)
        → OnOk result (GoesTidy capacity None (V.knows volume.new (G.space base.new) capacity) committed now shrunk (G.outside base.old) (G.space base.new) (G.outside base.new)) }
    ensures rests { IsTrue (G.space base.old).tells → (capacity : ℕ) (committed now : Content) (shrunk : Option ℕ) → Stands (V.knows volume.old (G.space base.old) capacity) committed now shrunk (G.space base.old) (G.outside base.old)
        → IfOk result (λ rests. IsTrue rests → GoesRested capacity None (V.knows volume.new (G.space base.new) capacity) committed now shrunk (G.outside base.old) (G.space base.new) (G.outside base.new)) }
    ensures stops { IsTrue (G.space base.old).tells → (capacity : ℕ) (committed now : Content) (shrunk : Option ℕ) → Stands (V.knows volume.old (G.space base.old) capacity) committed now shrunk (G.space base.old) (G.outside base.old)
        → OnErr result (StopsOn capacity committed now shrunk (G.outside base.old) [] (G.outside base.new)) }
    ensures still { (capacity : ℕ) → G.serves base.old capacity → G.taken base.old ≤ capacity → OnOk result (G.serves base.new capacity × (G.taken base.new ≤ capacity)) }
    ensures tells { OnOk result ((G.space base.new).tells ≡ (G.space base.old).tells) }
    ensures anchor { G.anchor base.new ≡ G.anchor base.old }
    // A commit is made where a step wanted it, or where memory was missing for it, at most eight times.
    ensures caused { IsTrue (G.space base.old).tells → HaveCauses (SomeWantsAt V.wants G.space) 8 (G.space base.old).barriers (G.space base.new).barriers }
    ensures faults { Faults (G.failed base.old) (G.space base.old) (G.failed base.new) (G.space base.new) result }
{
    let mut tries = MOST_RETRIES;
    for _ in 0..17_179_869_184u64 {
        if work(volume, base, &mut tries)? {
            return Ok(true);
        }
    }
    Ok(false)
}

/// Reclaims until nothing is left to reclaim, or something is missing for the next step. `Steps` comes where so many steps don't do.
pub fn come_to_rest<V: Volume, G: Ground>(volume: &mut V, base: &mut G) -> Result<(), Stop>
    requires serves { (capacity : ℕ) × G.serves base.old capacity × (G.taken base.old ≤ capacity) }
    requires stands { IsTrue (G.space base.old).tells → SomeStands (V.knows volume.old (G.space base.old)) (G.space base.old) (G.outside base.old) }
    ensures rests { IsTrue (G.space base.old).tells → (capacity : ℕ) (committed now : Content) (shrunk : Option ℕ) → Stands (V.knows volume.old (G.space base.old) capacity) committed now shrunk (G.space base.old) (G.outside base.old)
        → OnOk result (GoesRested capacity None (V.knows volume.new (G.space base.new) capacity) committed now shrunk (G.outside base.old) (G.space base.new) (G.outside base.new)) }
    ensures stops { IsTrue (G.space base.old).tells → (capacity : ℕ) (committed now : Content) (shrunk : Option ℕ) → Stands (V.knows volume.old (G.space base.old) capacity) committed now shrunk (G.space base.old) (G.outside base.old)
        → OnErr result (StopsOn capacity committed now shrunk (G.outside base.old) [] (G.outside base.new)) }
    ensures still { (capacity : ℕ) → G.serves base.old capacity → G.taken base.old ≤ capacity → OnOk result (G.serves base.new capacity × (G.taken base.new ≤ capacity)) }
    ensures tells { OnOk result ((G.space base.new).tells ≡ (G.space base.old).tells) }
    ensures anchor { G.anchor base.new ≡ G.anchor base.old }
    // A commit is made where a step wanted it, or where memory was missing for it, at most eight times.
    ensures caused { IsTrue (G.space base.old).tells → HaveCauses (SomeWantsAt V.wants G.space) 8 (G.space base.old).barriers (G.space base.new).barriers }
    ensures faults { StopFaults (G.failed base.old) (G.space base.old) (G.failed base.new) (G.space base.new) ⊥ result }
    ensures no_many { IsErrOf result Stop.TooMany → ⊥ }
{
    if tidy(volume, base)? {
        return Ok(());
    }
    Err(Stop::Steps)
}
