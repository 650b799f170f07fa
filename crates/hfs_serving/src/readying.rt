//! An image made ready for its store: its journal is replayed, and its header says that a system mounts it that keeps the journal.
ghost use Rattle.std.specs.Prelude.{◌≡◌, ◌==◌, ◌⊎◌, ◌<◌, IsTrue, OnOk, IfOk, Ok, ◌+◌, ◌≤◌};
ghost use Rattle.sector_disk.specs.Cause.{HasCause};
ghost use Rattle.sector_disk.specs.Disk.{CrashesLeave, HasNothingPending, SameDisk, SameSink, content, only};
ghost use Rattle.jnl_format.specs.Recovery.{Content, journaling_version, recovery, replayed};
ghost use Rattle.jnl_replay.specs.Plan.{FitsPlan, IsPlan, journal_of};
ghost use Rattle.jnl_store.specs.Plan.{info_after};
ghost use Rattle.hfs_volume.specs.Sound.{IsSound};
ghost use Rattle.hfs_serving.specs.Outside.{outside_of};
ghost use Rattle.hfs_serving.specs.Stages.{MayLeave};
ghost use Rattle.hfs_serving.specs.Readying.{IsMadeReady, IsMountedFrom, MayReady, Readies, StandsMounted, mounted_plan, version_sector, versioned};

use hfs_volume::mount_keeps_the_tree;
use hx_bytes::{Failed, Sector};
use jnl_format::{Header, Info};
use jnl_replay::{HEADER_SECTOR, Place, Plan, replay};
use sector_disk::{SectorDisk, write_all_then_barrier};
use volume_header::{header_at, header_round_trip, write_header};

/// The last mounted version of systems that keep the journal: `HFSJ` (TN1150, "Volume Header").
const JOURNALING_VERSION: u32 = 0x4846_534A;

const ALL_BUT_FRESH: u32 = 0xFFFF_FFFB;

/// Replays the journal of an image that was opened, and then writes the version of systems that keep the journal, where another system mounted
/// the volume last. Answers the plan of the journal, which is empty then.
pub fn ready_image<D: SectorDisk>(disk: &mut D, plan: &Plan) -> Result<Plan, Failed>
    requires fits { FitsPlan (D.state disk.old).sectors plan.now }
    requires plan { IsTrue (D.state disk.old).tells → IsPlan (content (D.state disk.old)) plan.now }
    // Whatever ends it, a crash leaves what the image stood for, or that with the version in its header.
    ensures crash { IsTrue (D.state disk.old).tells → HasNothingPending (D.state disk.old) → (start : Content) → recovery (content (D.state disk.old)) ≡ Ok start → start ≡ replayed (journal_of plan.now) (content (D.state disk.old)) → IsSound start
        → MayReady plan.now start (D.state disk.old) (D.state disk.new) }
    // At Ok it is ready for a store with the plan that is answered.
    ensures ready { IsTrue (D.state disk.old).tells → HasNothingPending (D.state disk.old) → (start : Content) → recovery (content (D.state disk.old)) ≡ Ok start → start ≡ replayed (journal_of plan.now) (content (D.state disk.old)) → IsSound start
        → IfOk result (λ ready. Readies plan.now start ready (D.state disk.old) (D.state disk.new)) }
    ensures made { IsTrue (D.state disk.old).tells → (start : Content) → recovery (content (D.state disk.old)) ≡ Ok start → start ≡ replayed (journal_of plan.now) (content (D.state disk.old)) → IsSound start → IfOk result (λ ready. IsMadeReady start ready (D.state disk.new)) }
    // Of any content, sound or not: a crash leaves it, maybe with the version in its header, but in the journal and in its info block.
    ensures leaves { IsTrue (D.state disk.old).tells → HasNothingPending (D.state disk.old) → (start : Content) → recovery (content (D.state disk.old)) ≡ Ok start → start ≡ replayed (journal_of plan.now) (content (D.state disk.old))
        → MayLeave (StandsMounted start) (outside_of plan.now (D.state disk.old)) (outside_of plan.now (D.state disk.new)) }
    ensures mounted { IsTrue (D.state disk.old).tells → (start : Content) → recovery (content (D.state disk.old)) ≡ Ok start → start ≡ replayed (journal_of plan.now) (content (D.state disk.old)) → IfOk result (λ ready. IsMountedFrom plan.now.place.last_mounted start ready (D.state disk.new)) }
    ensures plan { IfOk result (λ ready. ready ≡ mounted_plan plan.now) }
    ensures fits { IfOk result (FitsPlan (D.state disk.new).sectors) }
    ensures barriers { (D.state disk.new).barriers ≤ (D.state disk.old).barriers + 4 }
    ensures same { SameDisk (D.state disk.old) (D.state disk.new) }
    ensures sink { SameSink (D.state disk.old) (D.state disk.new) }
    ensures cause { HasCause (D.state disk.old).faults (D.state disk.new).faults result }
{
    mount_keeps_the_tree();
    header_round_trip();
    replay(disk, plan)?;
    set_version(disk, plan)?;
    Ok(ready_plan(plan))
}

// Writes the version into the header, and calls a barrier, where the header has another.
fn set_version<D: SectorDisk>(disk: &mut D, plan: &Plan) -> Result<(), Failed>
    requires size { 2 < (D.state disk.old).sectors }
    requires settled { IsTrue (D.state disk.old).tells → HasNothingPending (D.state disk.old) }
    ensures written { IsTrue (D.state disk.old).tells → OnOk result ((D.state disk.new).candidates ≡ only (versioned plan.now.place.last_mounted (content (D.state disk.old)))) }
    ensures crash { IsTrue (D.state disk.old).tells → CrashesLeave (D.state disk.old) (D.state disk.new) (λ image. (image ≡ content (D.state disk.old)) ⊎ (image ≡ versioned plan.now.place.last_mounted (content (D.state disk.old)))) }
    ensures barriers { (D.state disk.new).barriers ≤ (D.state disk.old).barriers + 1 }
    ensures same { SameDisk (D.state disk.old) (D.state disk.new) }
    ensures sink { SameSink (D.state disk.old) (D.state disk.new) }
    ensures cause { HasCause (D.state disk.old).faults (D.state disk.new).faults result }
{
    if keeps_journal(plan.place.last_mounted) {
        return Ok(());
    }
    let mut sector = [0; 512];
    disk.read(HEADER_SECTOR, &mut sector)?;
    write_all_then_barrier(disk, HEADER_SECTOR, &[with_version(&sector)])
}

// Whether systems of this version keep the journal.
fn keeps_journal(version: u32) -> bool
    ensures { result ≡ (version == journaling_version) }
{
    version == JOURNALING_VERSION
}

// The sector of a volume header, with the version.
fn with_version(sector: &Sector) -> Sector
    ensures { result ≡ version_sector sector.now }
{
    let mut header = header_at(sector);
    header.last_mounted_version = JOURNALING_VERSION;
    let mut bytes = [0; 512];
    write_header(&header, &mut bytes);
    bytes
}

// The plan of the journal that is left of this one.
fn ready_plan(plan: &Plan) -> Plan
    ensures { result ≡ mounted_plan plan.now }
{
    let place = Place {
        info_sector: plan.place.info_sector,
        last_mounted: JOURNALING_VERSION,
    };
    let header = Header {
        order: plan.header.order,
        start: plan.header.end,
        end: plan.header.end,
        size: plan.header.size,
        blhdr: plan.header.blhdr,
    };
    Plan {
        place,
        info: initialised_info(plan),
        header,
        fresh: false,
    }
}

fn initialised_info(plan: &Plan) -> Info
    ensures { result ≡ info_after plan.now }
{
    if !plan.fresh {
        return plan.info;
    }
    Info {
        flags: plan.info.flags & ALL_BUT_FRESH,
        offset: plan.info.offset,
        size: plan.info.size,
    }
}
