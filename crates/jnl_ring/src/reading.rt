// Reads that step over the wrap.
ghost use Rattle.std.specs.Prelude.{◌≡◌, ◌≤◌, ◌<◌, ◌-◌, ◌+◌, ℕ, IsTrue, length, slice_index, take, OnOk, IfOk};
ghost use Rattle.sector_disk.specs.Cause.{HasCause};
ghost use Rattle.sector_disk.specs.Clock.{TimePasses};
ghost use Rattle.sector_disk.specs.Disk.{IsImage, CrashesLeave, LeftNow, SameDisk, SameSink, content};
ghost use Rattle.jnl_format.specs.Ring.{bytes_from, journal_bytes};
ghost use Rattle.jnl_ring.specs.Span.{InBuffer, IsOnDisk, IsSpan};

use crate::{Span, advance};
use hx_bytes::Failed;
use sector_disk::SectorDisk;

/// Fills the buffer with the bytes of the ring from an offset on.
pub fn read_at<D: SectorDisk>(
    disk: &mut D,
    span: &Span,
    at: u64,
    into: &mut [u8],
) -> Result<(), Failed>
    requires span { IsSpan span.now }
    requires on_disk { IsOnDisk span.now (D.state disk.old).sectors }
    requires at { InBuffer span.now at }
    requires room { length into.old ≤ span.now.size - 512 }
    ensures bytes { IsTrue (D.state disk.old).tells → OnOk result (into.new ≡ take (length into.old) (bytes_from (journal_bytes (content (D.state disk.old)) span.now.base span.now.size) at)) }
    ensures candidates { (D.state disk.new).candidates ≡ (D.state disk.old).candidates }
    ensures crash { CrashesLeave (D.state disk.old) (D.state disk.new) (IsImage (D.state disk.old).candidates) }
    ensures barriers { (D.state disk.new).barriers ≡ (D.state disk.old).barriers }
    ensures same { SameDisk (D.state disk.old) (D.state disk.new) }
    ensures sink { SameSink (D.state disk.old) (D.state disk.new) }
    ensures cause { HasCause (D.state disk.old).faults (D.state disk.new).faults result }
{
    let mut done = 0;
    while done < into.len() {
        let offset = advance(span, at, done as u64);
        done += read_piece(disk, span, offset, &mut into[done..])?;
    }
    Ok(())
}

// Fills a front of the buffer with what is wanted of one sector, and answers its length.
fn read_piece<D: SectorDisk>(
    disk: &mut D,
    span: &Span,
    offset: u64,
    into: &mut [u8],
) -> Result<usize, Failed>
    requires span { IsSpan span.now }
    requires on_disk { IsOnDisk span.now (D.state disk.old).sectors }
    requires offset { InBuffer span.now offset }
    requires some { 0 < length into.old }
    ensures some { IfOk result (λ count. 0 < count) }
    ensures room { IfOk result (λ count. count ≤ length into.old) }
    ensures inside { IfOk result (λ count. offset + count ≤ span.now.size) }
    ensures bytes { IsTrue (D.state disk.old).tells → IfOk result (λ count. (j : ℕ) → j < count →
        slice_index into.new j ≡ slice_index (journal_bytes (content (D.state disk.old)) span.now.base span.now.size) (offset + j)) }
    ensures candidates { (D.state disk.new).candidates ≡ (D.state disk.old).candidates }
    ensures barriers { (D.state disk.new).barriers ≡ (D.state disk.old).barriers }
    ensures same { SameDisk (D.state disk.old) (D.state disk.new) }
    ensures sink { SameSink (D.state disk.old) (D.state disk.new) }
    ensures time { TimePasses (D.state disk.old).clock (D.state disk.new).clock (LeftNow (D.state disk.new)) }
    ensures cause { HasCause (D.state disk.old).faults (D.state disk.new).faults result }
{
    // A sector's number fits, since the disk counts its sectors.
    let _sectors = disk.sectors();
    let mut sector = [0; 512];
    disk.read(span.base + offset / 512, &mut sector)?;
    let from = (offset % 512) as usize;
    let count = into.len().min(512 - from);
    into[..count].copy_from_slice(&sector[from..from + count]);
    Ok(count)
}
