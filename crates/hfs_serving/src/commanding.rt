//! A command of a line, which is tried until it is answered.
ghost use Rattle.std.specs.Prelude.{◌≡◌, ◌≤◌, ◌&&◌, [], ℕ, List, Option, None, IsTrue, IsErrOf, IfOk, OnOk, OnErr, Some, false, ◌+◌, if◌then◌else◌};
ghost use Rattle.jnl_format.specs.Recovery.{Content};
ghost use Rattle.hfs_volume.specs.declared.asked.Asked.{Asked};
ghost use Rattle.volume_runs.specs.Fits.{FitsAsked};
ghost use Rattle.volume_runs.specs.Run.{wanted_in};
ghost use Rattle.hfs_serving.specs.Commits.{HaveCauses, WantsAt};
ghost use Rattle.hfs_serving.specs.Faults.{Faults, StopFaults};
ghost use Rattle.hfs_serving.specs.Going.{GoesRested, GoesTidy, ServesCommand, SomeStands, Stands, StopsOn, is_answered, wants_commit};

use crate::basis::Ground;
use crate::hearer::Hearer;
use crate::telling::Stop;
use crate::trying::attempt;
use crate::volume::{Step, Volume};
use hfs_volume::Asked;
use hx_bytes::Trouble;
use std::alloc::Global;

/// Does a command, of the line with this number or one that stands by itself, where housekeeping is at rest. Where it may wait, and wants a commit before anything is done for it,
/// it is left. Answers whether it was answered. `Steps` comes where its steps are used up.
pub fn serve_command<V: Volume, G: Ground, H: Hearer>(
    alloc: Global,
    volume: &mut V,
    base: &mut G,
    number: u64,
    asked: &Asked,
    may_wait: bool,
    heard: &mut H,
) -> Result<bool, Stop>
    requires serves { (capacity : ℕ) × G.serves base.old capacity × (G.taken base.old ≤ capacity) }
    requires rests { IsTrue (G.space base.old).tells → (capacity : ℕ) × (committed : Content) × (now : Content) × (shrunk : Option ℕ) × (begun : G) × (own : Option Asked) × (line : List ℕ) × (wanted_in own line ≡ Some asked.now)
        × GoesRested capacity None (V.knows volume.old (G.space base.old) capacity) committed now shrunk (G.outside begun) (G.space base.old) (G.outside base.old) }
    requires fits { FitsAsked asked.now }
    // From where housekeeping is at rest, behind whatever stretch led there, whatever line spells the command, if one does.
    ensures goes { IsTrue (G.space base.old).tells → (capacity : ℕ) (committed now : Content) (shrunk : Option ℕ) (begun : G) (own : Option Asked) (line : List ℕ) → wanted_in own line ≡ Some asked.now
        → GoesRested capacity None (V.knows volume.old (G.space base.old) capacity) committed now shrunk (G.outside begun) (G.space base.old) (G.outside base.old)
        → IfOk result (λ answered. ServesCommand answered capacity (V.knows volume.new (G.space base.new) capacity) committed now shrunk (G.outside begun) number own line (λ said changes. H.hears heard.old said changes heard.new) (heard.new ≡ heard.old) (G.space base.new) (G.outside base.new)) }
    ensures stops { IsTrue (G.space base.old).tells → (capacity : ℕ) (committed now : Content) (shrunk : Option ℕ) (begun : G) (own : Option Asked) (line : List ℕ) → wanted_in own line ≡ Some asked.now
        → GoesRested capacity None (V.knows volume.old (G.space base.old) capacity) committed now shrunk (G.outside begun) (G.space base.old) (G.outside base.old)
        → OnErr result (StopsOn capacity committed now shrunk (G.outside begun) [] (G.outside base.new)) }
    ensures still { (capacity : ℕ) → G.serves base.old capacity → G.taken base.old ≤ capacity → OnOk result (G.serves base.new capacity × (G.taken base.new ≤ capacity)) }
    ensures tells { OnOk result ((G.space base.new).tells ≡ (G.space base.old).tells) }
    ensures anchor { G.anchor base.new ≡ G.anchor base.old }
    // A commit is made where a step of the command wanted it, or where memory was missing for it, once. It is left only where it may wait and the volume wants
    // a commit before anything is done for it.
    ensures caused { IsTrue (G.space base.old).tells → HaveCauses (WantsAt V.wants G.space (Some asked.now)) 1 (G.space base.old).barriers (G.space base.new).barriers }
    ensures left { IsTrue (G.space base.old).tells → IfOk result (λ answered. answered ≡ false → IsTrue may_wait × WantsAt V.wants G.space (Some asked.now) (G.space base.old).barriers) }
    ensures faults { StopFaults (G.failed base.old) (G.space base.old) (G.failed base.new) (G.space base.new) ⊥ result }
    ensures no_many { IsErrOf result Stop.TooMany → ⊥ }
{
    let mut may_wait = may_wait;
    for _ in 0..4_294_967_295u64 {
        let step = attempt(alloc, volume, base, number, asked, heard)?;
        if is_answered(step) {
            return Ok(true);
        }
        if waits(step, may_wait) {
            return Ok(false);
        }
        make_room(volume, base, wants_commit(step))?;
        may_wait = false;
    }
    // Something was done for it, so it isn't left.
    Err(Stop::Steps)
}

fn is_answered(step: Step) -> bool
    ensures { result ≡ is_answered step }
{
    match step {
        Step::Answered => true,
        Step::Again => false,
        Step::CommitFirst => false,
        Step::Forgone => true,
    }
}

fn wants_commit(step: Step) -> bool
    ensures { result ≡ wants_commit step }
{
    match step {
        Step::Answered => false,
        Step::Again => false,
        Step::CommitFirst => true,
        Step::Forgone => false,
    }
}

// Whether the line is left for the next batch.
fn waits(step: Step, may_wait: bool) -> bool
    ensures { result ≡ (wants_commit step && may_wait) }
{
    wants_commit(step) && may_wait
}

// Makes a commit, where one is wanted.
fn make_room<V: Volume, G: Ground>(
    volume: &mut V,
    base: &mut G,
    wanted: bool,
) -> Result<(), Trouble>
    requires serves { (capacity : ℕ) × G.serves base.old capacity × (G.taken base.old ≤ capacity) }
    requires stands { IsTrue (G.space base.old).tells → SomeStands (V.knows volume.old (G.space base.old)) (G.space base.old) (G.outside base.old) }
    ensures goes { IsTrue (G.space base.old).tells → (capacity : ℕ) (committed now : Content) (shrunk : Option ℕ) → Stands (V.knows volume.old (G.space base.old) capacity) committed now shrunk (G.space base.old) (G.outside base.old)
        → OnOk result (GoesTidy capacity None (V.knows volume.new (G.space base.new) capacity) committed now shrunk (G.outside base.old) (G.space base.new) (G.outside base.new)) }
    ensures stops { IsTrue (G.space base.old).tells → (capacity : ℕ) (committed now : Content) (shrunk : Option ℕ) → Stands (V.knows volume.old (G.space base.old) capacity) committed now shrunk (G.space base.old) (G.outside base.old)
        → OnErr result (StopsOn capacity committed now shrunk (G.outside base.old) [] (G.outside base.new)) }
    ensures still { (capacity : ℕ) → G.serves base.old capacity → G.taken base.old ≤ capacity → OnOk result (G.serves base.new capacity × (G.taken base.new ≤ capacity)) }
    ensures tells { OnOk result ((G.space base.new).tells ≡ (G.space base.old).tells) }
    ensures anchor { G.anchor base.new ≡ G.anchor base.old }
    ensures barriers { (G.space base.new).barriers ≤ (G.space base.old).barriers + (if wanted then 4 else 0) }
    ensures faults { Faults (G.failed base.old) (G.space base.old) (G.failed base.new) (G.space base.new) result }
{
    if !wanted {
        return Ok(());
    }
    volume.commit(base)?;
    Ok(())
}
