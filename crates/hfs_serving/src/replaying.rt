//! The replay of a mount.
ghost use Rattle.std.specs.Prelude.{◌≡◌, IsTrue, OnOk, OnErr, Ok};
ghost use Rattle.sector_disk.specs.Cause.{HasCause};
ghost use Rattle.sector_disk.specs.Disk.{HasNothingPending, SameDisk, SameSink, content, only};
ghost use Rattle.jnl_format.specs.Recovery.{Content, recovery, replayed};
ghost use Rattle.jnl_replay.specs.Homing.{after_replay};
ghost use Rattle.jnl_replay.specs.Plan.{FitsPlan, IsPlan, journal_of};
ghost use Rattle.hfs_serving.specs.Outside.{outside_of};
ghost use Rattle.hfs_serving.specs.Stages.{Turns};

use hx_bytes::Failed;
use jnl_replay::{Plan, replay};
use sector_disk::SectorDisk;

/// Replays the journal of an image that was opened. Whatever ends it, at its end and at every moment of it a crash leaves what the image stood for.
pub fn replay_image<D: SectorDisk>(disk: &mut D, plan: &Plan) -> Result<(), Failed>
    requires fits { FitsPlan (D.state disk.old).sectors plan.now }
    requires plan { IsTrue (D.state disk.old).tells → IsPlan (content (D.state disk.old)) plan.now }
    ensures turns { IsTrue (D.state disk.old).tells → HasNothingPending (D.state disk.old) → (start : Content) → recovery (content (D.state disk.old)) ≡ Ok start → start ≡ replayed (journal_of plan.now) (content (D.state disk.old))
        → Turns start start (outside_of plan.now (D.state disk.old)) (outside_of plan.now (D.state disk.new)) }
    // At Ok the content is what it stood for, the journal is empty, and nothing is pending.
    ensures replayed { IsTrue (D.state disk.old).tells → OnOk result ((D.state disk.new).candidates ≡ only (after_replay plan.now (content (D.state disk.old)))) }
    ensures same { SameDisk (D.state disk.old) (D.state disk.new) }
    ensures sink { SameSink (D.state disk.old) (D.state disk.new) }
    ensures cause { HasCause (D.state disk.old).faults (D.state disk.new).faults result }
{
    replay(disk, plan)
}
