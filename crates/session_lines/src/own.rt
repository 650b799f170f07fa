//! A line's own command.
ghost use Rattle.std.specs.Prelude.{◌≡◌, ◌≤◌, [], ℕ, Option, IsTrue, IsErrOf, IfOk, OnErr, OnOk, Some, false};
ghost use Rattle.jnl_format.specs.Recovery.{Content};
ghost use Rattle.hfs_serving.specs.Commits.{HaveCauses, SomeWantsAt, WantsAt};
ghost use Rattle.hfs_serving.specs.Faults.{StopFaults};
ghost use Rattle.hfs_serving.specs.Going.{SomeStands, Stands, StopsOn};
ghost use Rattle.session_lines.specs.Doing.{OwnDone};
ghost use Rattle.volume_runs.specs.Fits.{FitsAsked};

use hfs_serving::{Ground, Stop, ToTell, Volume, come_to_rest, serve_command};
use hfs_volume::Asked;
use std::alloc::Global;

/// Does what a line asks for behind housekeeping, and tells its reply. Where it may wait, and wants a commit before anything is done for it, it is left. Answers
/// whether it was answered. `Steps` comes where its steps are used up.
#[allow(clippy::too_many_arguments)]
pub(crate) fn do_own<V: Volume, G: Ground>(
    alloc: Global,
    volume: &mut V,
    base: &mut G,
    number: u64,
    asked: &Asked,
    may_wait: bool,
    told: &mut ToTell,
) -> Result<bool, Stop>
    requires serves { (capacity : ℕ) × G.serves base.old capacity × (G.taken base.old ≤ capacity) }
    requires stands { IsTrue (G.space base.old).tells → SomeStands (V.knows volume.old (G.space base.old)) (G.space base.old) (G.outside base.old) }
    requires fits { FitsAsked asked.now }
    ensures goes { IsTrue (G.space base.old).tells → (capacity : ℕ) (committed now : Content) (shrunk : Option ℕ) → Stands (V.knows volume.old (G.space base.old) capacity) committed now shrunk (G.space base.old) (G.outside base.old)
        → IfOk result (λ answered. OwnDone answered capacity (V.knows volume.new (G.space base.new) capacity) committed now shrunk (G.outside base.old) asked.now told.old told.new (G.space base.new) (G.outside base.new)) }
    ensures stops { IsTrue (G.space base.old).tells → (capacity : ℕ) (committed now : Content) (shrunk : Option ℕ) → Stands (V.knows volume.old (G.space base.old) capacity) committed now shrunk (G.space base.old) (G.outside base.old)
        → OnErr result (StopsOn capacity committed now shrunk (G.outside base.old) [] (G.outside base.new)) }
    ensures still { (capacity : ℕ) → G.serves base.old capacity → G.taken base.old ≤ capacity → OnOk result (G.serves base.new capacity × (G.taken base.new ≤ capacity)) }
    ensures tells { OnOk result ((G.space base.new).tells ≡ (G.space base.old).tells) }
    ensures anchor { G.anchor base.new ≡ G.anchor base.old }
    ensures caused { IsTrue (G.space base.old).tells → HaveCauses (SomeWantsAt V.wants G.space) 9 (G.space base.old).barriers (G.space base.new).barriers }
    // It is left only where it may wait and the volume wants a commit before it.
    ensures left { IsTrue (G.space base.old).tells → IfOk result (λ answered. answered ≡ false → IsTrue may_wait × (passed : ℕ) × WantsAt V.wants G.space (Some asked.now) passed) }
    ensures faults { StopFaults (G.failed base.old) (G.space base.old) (G.failed base.new) (G.space base.new) ⊥ result }
    ensures no_many { IsErrOf result Stop.TooMany → ⊥ }
{
    come_to_rest(volume, base)?;
    serve_command(alloc, volume, base, number, asked, may_wait, told)
}
