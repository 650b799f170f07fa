//! The live sectors of a journal brought home: of each the newest bytes, and no others.
ghost use Rattle.std.specs.Prelude.{◌≡◌, ◌≤◌, ◌<◌, ◌+◌, IsTrue, List, OnOk};
ghost use Rattle.sector_disk.specs.Cause.{HasCause};
ghost use Rattle.sector_disk.specs.Disk.{CrashesLeave, SameDisk, SameSink, content};
ghost use Rattle.jnl_format.specs.Recovery.{homes_of, text_of};
ghost use Rattle.jnl_format.specs.Text.{bytes_at};
ghost use Rattle.jnl_format.specs.declared.blocks.Home.{Home};
ghost use Rattle.jnl_replay.specs.Homing.{GrowsHomes, IsHomeMix};
ghost use Rattle.jnl_replay.specs.Plan.{journal_of};
ghost use Rattle.jnl_store.specs.Appending.{durable_by};
ghost use Rattle.jnl_store.specs.Bringing.{IsBrought, IsLiveHome};
ghost use Rattle.jnl_store.specs.InUse.{IsInUse, keeps_lists};

use crate::live_table::LiveTable;
use crate::reading::read_durable;
use hx_bytes::Failed;
use jnl_format::Home;
use jnl_replay::Plan;
use sector_disk::SectorDisk;

/// Writes into each live sector its newest bytes, in the order of the table. No barrier is called.
pub fn bring_newest<D: SectorDisk>(
    disk: &mut D,
    plan: &Plan,
    live: &LiveTable,
) -> Result<(), Failed>
    requires rest { IsInUse plan.now }
    requires keeps { IsTrue (D.state disk.old).tells → IsTrue (keeps_lists plan.now (D.state disk.old).candidates live.now.homes) }
    ensures brought { IsTrue (D.state disk.old).tells → OnOk result (content (D.state disk.new) ≡ durable_by plan.now (content (D.state disk.old))) }
    ensures crash { IsTrue (D.state disk.old).tells → CrashesLeave (D.state disk.old) (D.state disk.new)
        (IsHomeMix (text_of (journal_of plan.now) (content (D.state disk.old))) (homes_of (journal_of plan.now) (content (D.state disk.old))) (D.state disk.old).candidates) }
    ensures barriers { (D.state disk.new).barriers ≡ (D.state disk.old).barriers }
    ensures same { SameDisk (D.state disk.old) (D.state disk.new) }
    ensures sink { SameSink (D.state disk.old) (D.state disk.new) }
    ensures cause { HasCause (D.state disk.old).faults (D.state disk.new).faults result }
{
    for k in 0..live.len() {
        let home = live.home(k);
        bring_home(disk, plan, &home)?;
    }
    Ok(())
}

// Writes the bytes of a home into its sector, where the disk has one.
fn bring_home<D: SectorDisk>(disk: &mut D, plan: &Plan, home: &Home) -> Result<(), Failed>
    requires rest { IsInUse plan.now }
    ensures brought { IsTrue (D.state disk.old).tells → (homes : List Home) → (home.now.sector < (D.state disk.old).sectors → IsLiveHome plan.now (D.state disk.old).sectors (text_of (journal_of plan.now) (content (D.state disk.old))) homes home.now)
        → OnOk result (IsBrought home.now.sector (bytes_at (text_of (journal_of plan.now) (content (D.state disk.old))) home.now.place 512) (content (D.state disk.old)) (content (D.state disk.new))) }
    ensures grows { IsTrue (D.state disk.old).tells → (homes : List Home) → (home.now.sector < (D.state disk.old).sectors → IsLiveHome plan.now (D.state disk.old).sectors (text_of (journal_of plan.now) (content (D.state disk.old))) homes home.now)
        → GrowsHomes (text_of (journal_of plan.now) (content (D.state disk.old))) homes (D.state disk.old).candidates (D.state disk.new).candidates }
    ensures crash { IsTrue (D.state disk.old).tells → (homes : List Home) → (home.now.sector < (D.state disk.old).sectors → IsLiveHome plan.now (D.state disk.old).sectors (text_of (journal_of plan.now) (content (D.state disk.old))) homes home.now)
        → CrashesLeave (D.state disk.old) (D.state disk.new) (IsHomeMix (text_of (journal_of plan.now) (content (D.state disk.old))) homes (D.state disk.old).candidates) }
    ensures barriers { (D.state disk.new).barriers ≡ (D.state disk.old).barriers }
    ensures same { SameDisk (D.state disk.old) (D.state disk.new) }
    ensures sink { SameSink (D.state disk.old) (D.state disk.new) }
    ensures cause { HasCause (D.state disk.old).faults (D.state disk.new).faults result }
{
    if disk.sectors() <= home.sector {
        return Ok(());
    }
    let mut bytes = [0; 512];
    read_durable(disk, plan, Some(home.place), home.sector, &mut bytes)?;
    disk.write(home.sector, &bytes)
}
