//! The live sectors of a journal written home, and the journal emptied.
ghost use Rattle.std.specs.Prelude.{◌≡◌, ◌≤◌, ◌+◌, IsTrue, OnOk};
ghost use Rattle.sector_disk.specs.Cause.{HasCause};
ghost use Rattle.sector_disk.specs.Disk.{CrashesLeave, SameDisk, SameSink, content, only};
ghost use Rattle.jnl_replay.specs.Homing.{with_empty_header};
ghost use Rattle.jnl_replay.specs.Plan.{FitsPlan};
ghost use Rattle.jnl_store.specs.Appending.{StandsStill, durable_by};
ghost use Rattle.jnl_store.specs.InUse.{IsInUse, keeps_lists};

use crate::bringing::bring_newest;
use crate::live_table::LiveTable;
use hx_bytes::Failed;
use jnl_replay::{Plan, empty_journal};
use sector_disk::SectorDisk;

/// Writes the newest bytes of each live sector home, calls a barrier, and empties the journal behind another.
pub fn write_home<D: SectorDisk>(disk: &mut D, plan: &Plan, live: &LiveTable) -> Result<(), Failed>
    requires rest { IsInUse plan.now }
    requires fits { FitsPlan (D.state disk.old).sectors plan.now }
    requires keeps { IsTrue (D.state disk.old).tells → IsTrue (keeps_lists plan.now (D.state disk.old).candidates live.now.homes) }
    ensures home { IsTrue (D.state disk.old).tells → OnOk result ((D.state disk.new).candidates ≡ only (with_empty_header plan.now (durable_by plan.now (content (D.state disk.old))))) }
    ensures crash { IsTrue (D.state disk.old).tells → CrashesLeave (D.state disk.old) (D.state disk.new) (StandsStill plan.now (D.state disk.old)) }
    ensures barriers { (D.state disk.new).barriers ≤ (D.state disk.old).barriers + 2 }
    ensures same { SameDisk (D.state disk.old) (D.state disk.new) }
    ensures sink { SameSink (D.state disk.old) (D.state disk.new) }
    ensures cause { HasCause (D.state disk.old).faults (D.state disk.new).faults result }
{
    bring_newest(disk, plan, live)?;
    disk.barrier()?;
    empty_journal(disk, plan)
}
