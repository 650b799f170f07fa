// Writes that step over the wrap.
ghost use Rattle.std.specs.Prelude.{◌≡◌, ◌≤◌, ◌-◌, ◌*◌, ◌%◌, ◌++◌, IsTrue, length, drop, OnOk};
ghost use Rattle.std.specs.List.{concat};
ghost use Rattle.sector_disk.specs.Cause.{HasCause};
ghost use Rattle.sector_disk.specs.Disk.{CrashesLeave, SameDisk, SameSink, content};
ghost use Rattle.jnl_format.specs.Ring.{bytes_from, journal_bytes};
ghost use Rattle.jnl_ring.specs.Span.{InBuffer, IsOnDisk, IsSpan};
ghost use Rattle.jnl_ring.specs.Writing.{GrowsInRing, MixesInRing, PutsInRing};

use crate::{SectorList, Span, advance};
use hx_bytes::Failed;
use sector_disk::SectorDisk;

/// Writes the sectors into the ring, one after another from an offset on. Nothing is settled: that
/// is for a barrier.
pub fn write_at<D: SectorDisk, L: SectorList>(
    disk: &mut D,
    span: &Span,
    at: u64,
    from: &L,
) -> Result<(), Failed>
    requires span { IsSpan span.now }
    requires on_disk { IsOnDisk span.now (D.state disk.old).sectors }
    requires at { InBuffer span.now at }
    requires whole { at % 512 ≡ 0 }
    requires room { 512 * length (L.sectors from.now) ≤ span.now.size - 512 }
    // The ring from that offset on once round: the new bytes, and then what was there.
    ensures text { IsTrue (D.state disk.old).tells → OnOk result (bytes_from (journal_bytes (content (D.state disk.new)) span.now.base span.now.size) at
        ≡ concat (L.sectors from.now) ++ drop (512 * length (L.sectors from.now)) (bytes_from (journal_bytes (content (D.state disk.old)) span.now.base span.now.size) at)) }
    ensures puts { IsTrue (D.state disk.old).tells → OnOk result (PutsInRing span.now at (L.sectors from.now) (content (D.state disk.old)) (content (D.state disk.new))) }
    // Also where it fails, and in a crash at any moment of the call or at its end, each sector has
    // an old value or the new one at its place.
    ensures grows { GrowsInRing span.now at (L.sectors from.now) (D.state disk.old).candidates (D.state disk.new).candidates }
    ensures crash { CrashesLeave (D.state disk.old) (D.state disk.new) (MixesInRing span.now at (L.sectors from.now) (D.state disk.old).candidates) }
    ensures barriers { (D.state disk.new).barriers ≡ (D.state disk.old).barriers }
    ensures same { SameDisk (D.state disk.old) (D.state disk.new) }
    ensures sink { SameSink (D.state disk.old) (D.state disk.new) }
    ensures cause { HasCause (D.state disk.old).faults (D.state disk.new).faults result }
{
    // A sector's number fits, since the disk counts its sectors.
    let _sectors = disk.sectors();
    for k in 0..from.count() {
        let sector = from.sector(k);
        let offset = advance(span, at, 512 * k);
        disk.write(span.base + offset / 512, &sector)?;
    }
    Ok(())
}
