//! What a replay acts on is written again as it is read, and settled, before anything depends on it.
ghost use Rattle.std.specs.Prelude.{◌≡◌, ◌<◌, ◌≤◌, ◌+◌, ◌/◌, IsTrue, OnOk};
ghost use Rattle.jnl_ring.specs.Span.{sector_after};
ghost use Rattle.sector_disk.specs.Cause.{HasCause, next_count};
ghost use Rattle.sector_disk.specs.Disk.{CrashesLeave, IsImage, SameDisk, SameSink, content, only};
ghost use Rattle.jnl_replay.specs.Plan.{FitsAny};
ghost use Rattle.jnl_replay.specs.Repeating.{Repeats, repeat_all, repeat_at, repeat_ring};
ghost use Rattle.jnl_replay.specs.Text.{IsText};

use crate::plan::Plan;
use crate::text::{Text, text_of};
use crate::volume::HEADER_SECTOR;
use hx_bytes::Failed;
use jnl_ring::advance;
use sector_disk::SectorDisk;

/// Writes the volume header, the info block, the journal header and the live lists again as they are read, and calls
/// a barrier. Where a barrier failed in an earlier run, a system may go on giving what was written before it though it
/// isn't stable, and a later barrier answers for what was written since alone.
pub fn settle_again<D: SectorDisk>(disk: &mut D, plan: &Plan) -> Result<(), Failed>
    requires { FitsAny (D.state disk.old).sectors plan.now }
    ensures settled { IsTrue (D.state disk.old).tells → OnOk result ((D.state disk.new).candidates ≡ only (content (D.state disk.old))) }
    ensures crash { IsTrue (D.state disk.old).tells → CrashesLeave (D.state disk.old) (D.state disk.new) (IsImage (D.state disk.old).candidates) }
    ensures counted { OnOk result ((D.state disk.new).barriers ≡ next_count (D.state disk.old).barriers) }
    ensures barriers { (D.state disk.new).barriers ≤ (D.state disk.old).barriers + 1 }
    ensures same { SameDisk (D.state disk.old) (D.state disk.new) }
    ensures sink { SameSink (D.state disk.old) (D.state disk.new) }
    ensures cause { HasCause (D.state disk.old).faults (D.state disk.new).faults result }
{
    repeat_sources(disk, plan)?;
    disk.barrier()
}

// Writes what a replay acts on again.
fn repeat_sources<D: SectorDisk>(disk: &mut D, plan: &Plan) -> Result<(), Failed>
    requires { FitsAny (D.state disk.old).sectors plan.now }
    ensures written { IsTrue (D.state disk.old).tells → OnOk result ((D.state disk.new).candidates ≡ repeat_all plan.now (D.state disk.old).candidates) }
    ensures repeats { IsTrue (D.state disk.old).tells → Repeats (D.state disk.old) (D.state disk.new) }
    ensures barriers { (D.state disk.new).barriers ≡ (D.state disk.old).barriers }
    ensures same { SameDisk (D.state disk.old) (D.state disk.new) }
    ensures sink { SameSink (D.state disk.old) (D.state disk.new) }
    ensures cause { HasCause (D.state disk.old).faults (D.state disk.new).faults result }
{
    let sectors = disk.sectors();
    let text = text_of(plan, sectors);
    repeat_sector(disk, HEADER_SECTOR)?;
    repeat_sector(disk, plan.place.info_sector)?;
    repeat_sector(disk, plan.info.offset / 512)?;
    repeat_text(disk, &text)
}

// Writes each sector of a text again.
fn repeat_text<D: SectorDisk>(disk: &mut D, text: &Text) -> Result<(), Failed>
    requires { IsText (D.state disk.old).sectors text.now }
    ensures written { IsTrue (D.state disk.old).tells → OnOk result ((D.state disk.new).candidates ≡ repeat_ring (D.state disk.old).candidates text.now.span text.now.start (text.now.length / 512)) }
    ensures repeats { IsTrue (D.state disk.old).tells → Repeats (D.state disk.old) (D.state disk.new) }
    ensures barriers { (D.state disk.new).barriers ≡ (D.state disk.old).barriers }
    ensures same { SameDisk (D.state disk.old) (D.state disk.new) }
    ensures sink { SameSink (D.state disk.old) (D.state disk.new) }
    ensures cause { HasCause (D.state disk.old).faults (D.state disk.new).faults result }
{
    let sectors = disk.sectors();
    for k in 0..text.length / 512 {
        let at = sector_of(text, sectors, k);
        repeat_sector(disk, at)?;
    }
    Ok(())
}

// The sector in which the k-th sector of a text lies, on a disk of so many.
fn sector_of(text: &Text, sectors: u64, k: u64) -> u64
    requires text { IsText sectors text.now }
    requires inside { k < text.now.length / 512 }
    ensures place { result ≡ sector_after text.now.span text.now.start k }
    ensures fits { result < sectors }
{
    let offset = advance(&text.span, text.start, 512 * k);
    text.span.base + offset / 512
}

// Writes a sector again, as it is read.
fn repeat_sector<D: SectorDisk>(disk: &mut D, at: u64) -> Result<(), Failed>
    requires { at < (D.state disk.old).sectors }
    ensures written { IsTrue (D.state disk.old).tells → OnOk result ((D.state disk.new).candidates ≡ repeat_at (D.state disk.old).candidates at) }
    ensures repeats { IsTrue (D.state disk.old).tells → Repeats (D.state disk.old) (D.state disk.new) }
    ensures barriers { (D.state disk.new).barriers ≡ (D.state disk.old).barriers }
    ensures same { SameDisk (D.state disk.old) (D.state disk.new) }
    ensures sink { SameSink (D.state disk.old) (D.state disk.new) }
    ensures cause { HasCause (D.state disk.old).faults (D.state disk.new).faults result }
{
    let mut sector = [0; 512];
    disk.read(at, &mut sector)?;
    disk.write(at, &sector)
}
