//! A sector as the durable content has it: from the ring, where a live list names it, or else from its place.
ghost use Rattle.std.specs.Prelude.{◌≡◌, ◌↔◌, ◌<◌, ◌≤◌, ◌+◌, ℕ, IsTrue, None, Some, OnOk};
ghost use Rattle.sector_disk.specs.Cause.{HasCause};
ghost use Rattle.sector_disk.specs.Disk.{OnlyReads, content};
ghost use Rattle.sector_disk.specs.Lists.{sector};
ghost use Rattle.jnl_format.specs.Recovery.{text_of};
ghost use Rattle.jnl_format.specs.Text.{bytes_at};
ghost use Rattle.jnl_ring.specs.Span.{IsOnDisk};
ghost use Rattle.jnl_replay.specs.Plan.{journal_of};
ghost use Rattle.jnl_store.specs.InUse.{IsInUse, used_of};
ghost use Rattle.jnl_store.specs.Plan.{span_of};

use hx_bytes::{Failed, Sector};
use jnl_replay::Plan;
use jnl_ring::{Span, advance, read_at, used_bytes};
use sector_disk::SectorDisk;

/// Reads a sector: what the journal's text has at its place, where it has one, or else what the disk has in it.
pub fn read_durable<D: SectorDisk>(
    disk: &mut D,
    plan: &Plan,
    place: Option<u64>,
    at: u64,
    into: &mut Sector,
) -> Result<(), Failed>
    requires inside { at < (D.state disk.old).sectors }
    requires rest { IsInUse plan.now }
    ensures home { IsTrue (D.state disk.old).tells → place ≡ None → OnOk result (into.new ≡ sector (content (D.state disk.old)) at) }
    ensures live { IsTrue (D.state disk.old).tells → (p : ℕ) → place ≡ Some p → IsOnDisk (span_of plan.now) (D.state disk.old).sectors → p + 512 ≤ used_of plan.now
        → OnOk result (into.new ≡ bytes_at (text_of (journal_of plan.now) (content (D.state disk.old))) p 512) }
    ensures reads { OnlyReads (D.state disk.old) (D.state disk.new) }
    ensures cause { HasCause (D.state disk.old).faults (D.state disk.new).faults result }
{
    match place {
        None => disk.read(at, into),
        Some(place) => read_live(disk, plan, place, at, into),
    }
}

// Reads what the text has at a place. A place that isn't in the text, or a journal that isn't on the disk, is none of a
// store that keeps what it has to keep: then the sector itself is read.
fn read_live<D: SectorDisk>(
    disk: &mut D,
    plan: &Plan,
    place: u64,
    at: u64,
    into: &mut Sector,
) -> Result<(), Failed>
    requires inside { at < (D.state disk.old).sectors }
    requires rest { IsInUse plan.now }
    ensures live { IsTrue (D.state disk.old).tells → IsOnDisk (span_of plan.now) (D.state disk.old).sectors → place + 512 ≤ used_of plan.now
        → OnOk result (into.new ≡ bytes_at (text_of (journal_of plan.now) (content (D.state disk.old))) place 512) }
    ensures reads { OnlyReads (D.state disk.old) (D.state disk.new) }
    ensures cause { HasCause (D.state disk.old).faults (D.state disk.new).faults result }
{
    let span = Span {
        base: plan.info.offset / 512,
        size: plan.info.size,
    };
    let length = used_bytes(&span, plan.header.start, plan.header.end);
    let sectors = disk.sectors();
    if !is_there(&span, length, place, sectors) {
        return disk.read(at, into);
    }
    let offset = advance(&span, plan.header.start, place);
    read_at(disk, &span, offset, into)
}

// Whether the ring lies on a disk of so many sectors, and a text of this length has a sector's bytes at a place.
fn is_there(span: &Span, length: u64, place: u64, sectors: u64) -> bool
    ensures { IsTrue result ↔ IsOnDisk span.now sectors × (place + 512 ≤ length) }
{
    let ring = span.size / 512;
    if sectors < ring {
        return false;
    }
    if sectors - ring < span.base {
        return false;
    }
    if length < 512 {
        return false;
    }
    place <= length - 512
}
