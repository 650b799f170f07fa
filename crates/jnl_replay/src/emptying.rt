//! A journal emptied, and its info block told so.
ghost use Rattle.std.specs.Prelude.{◌≡◌, ◌≤◌, ◌<◌, ◌+◌, ◌/◌, ◌++◌, ◌∷◌, [], IsTrue, OnOk, drop};
ghost use Rattle.sector_disk.specs.Cause.{HasCause, next_count};
ghost use Rattle.sector_disk.specs.Disk.{CrashesLeave, Mixes, SameDisk, SameSink, content, only};
ghost use Rattle.jnl_format.specs.Info.{with_info};
ghost use Rattle.jnl_format.specs.Header.{header_bytes};
ghost use Rattle.sector_disk.specs.Lists.{sector};
ghost use Rattle.jnl_replay.specs.Homing.{emptied, initialised, empty_header, with_empty_header, with_info_done};
ghost use Rattle.jnl_replay.specs.Plan.{FitsAny};

use crate::plan::Plan;
use hx_bytes::Failed;
use jnl_format::{Header, Info, write_header, write_info};
use sector_disk::{SectorDisk, write_all_then_barrier};

const ALL_BUT_FRESH: u32 = 0xFFFF_FFFB;

/// Writes a journal header whose start is its end, and calls a barrier.
pub fn empty_journal<D: SectorDisk>(disk: &mut D, plan: &Plan) -> Result<(), Failed>
    requires { FitsAny (D.state disk.old).sectors plan.now }
    ensures settled { IsTrue (D.state disk.old).tells → OnOk result ((D.state disk.new).candidates ≡ only (with_empty_header plan.now (content (D.state disk.old)))) }
    ensures crash { IsTrue (D.state disk.old).tells → CrashesLeave (D.state disk.old) (D.state disk.new) (Mixes (D.state disk.old).candidates (plan.now.info.offset / 512) (empty_header plan.now (content (D.state disk.old)) ∷ [])) }
    ensures counted { OnOk result ((D.state disk.new).barriers ≡ next_count (D.state disk.old).barriers) }
    ensures barriers { (D.state disk.new).barriers ≤ (D.state disk.old).barriers + 1 }
    ensures same { SameDisk (D.state disk.old) (D.state disk.new) }
    ensures sink { SameSink (D.state disk.old) (D.state disk.new) }
    ensures cause { HasCause (D.state disk.old).faults (D.state disk.new).faults result }
{
    let at = plan.info.offset / 512;
    let mut block = [0; 512];
    disk.read(at, &mut block)?;
    write_header(&empty(&plan.header), &mut block);
    write_all_then_barrier(disk, at, &[block])
}

fn empty(header: &Header) -> Header
    ensures { result ≡ emptied header.now }
{
    Header {
        order: header.order,
        start: header.end,
        end: header.end,
        size: header.size,
        blhdr: header.blhdr,
    }
}

/// Clears the flag of a journal that still has to be initialised, and calls a barrier.
pub fn clear_flag<D: SectorDisk>(disk: &mut D, plan: &Plan) -> Result<(), Failed>
    requires { FitsAny (D.state disk.old).sectors plan.now }
    ensures settled { IsTrue (D.state disk.old).tells → OnOk result ((D.state disk.new).candidates ≡ only (with_info_done plan.now (content (D.state disk.old)))) }
    ensures crash { IsTrue (D.state disk.old).tells → CrashesLeave (D.state disk.old) (D.state disk.new)
        (Mixes (D.state disk.old).candidates plan.now.place.info_sector (with_info (initialised plan.now.info) (sector (content (D.state disk.old)) plan.now.place.info_sector) ∷ [])) }
    ensures counted { OnOk result ((D.state disk.new).barriers ≡ next_count (D.state disk.old).barriers) }
    ensures barriers { (D.state disk.new).barriers ≤ (D.state disk.old).barriers + 1 }
    ensures same { SameDisk (D.state disk.old) (D.state disk.new) }
    ensures sink { SameSink (D.state disk.old) (D.state disk.new) }
    ensures cause { HasCause (D.state disk.old).faults (D.state disk.new).faults result }
{
    let at = plan.place.info_sector;
    let mut block = [0; 512];
    disk.read(at, &mut block)?;
    write_info(&done(&plan.info), &mut block);
    write_all_then_barrier(disk, at, &[block])
}

fn done(info: &Info) -> Info
    ensures { result ≡ initialised info.now }
{
    Info {
        flags: info.flags & ALL_BUT_FRESH,
        offset: info.offset,
        size: info.size,
    }
}
