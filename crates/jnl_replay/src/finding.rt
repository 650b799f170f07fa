//! Where the journal of an image is, or why it isn't looked for.
ghost use Rattle.std.specs.Prelude.{◌≡◌, IsTrue, IfOk, IfErr, None, Some, true, false};
ghost use Rattle.sector_disk.specs.Cause.{HasCause};
ghost use Rattle.sector_disk.specs.Disk.{OnlyReads, content};
ghost use Rattle.volume_header.specs.Refusal.{header_refusal, is_locked};
ghost use Rattle.jnl_format.specs.Recovery.{header_of_volume, info_sector_of};
ghost use Rattle.jnl_replay.specs.Finding.{FitsPlace, IsFound, RefusesVolume};
ghost use Rattle.jnl_replay.specs.declared.finding.VolumeRefusal.TheVariants.{SoftwareLocked};

use crate::plan::Place;
use crate::volume::HEADER_SECTOR;
use hx_bytes::Failed;
use sector_disk::SectorDisk;
use volume_header::{HeaderRefusal, VolumeHeader, read_header};

/// Why the journal of an image isn't looked for. Of the refusals, the first in this order that stands is told.
#[derive(Clone, Copy, Debug, PartialEq, Eq)]
pub enum VolumeRefusal {
    /// Its volume header isn't accepted.
    Header(HeaderRefusal),
    /// It is locked by software.
    SoftwareLocked,
}

/// Reads an image's volume header, and answers where it says that the journal is, or the first refusal that stands. Nothing is written.
pub fn find_place<D: SectorDisk>(disk: &mut D) -> Result<Result<Place, VolumeRefusal>, Failed>
    ensures found { IsTrue (D.state disk.old).tells → IfOk result (λ answer. IfOk answer (IsFound (content (D.state disk.old)))) }
    ensures refused { IsTrue (D.state disk.old).tells → IfOk result (λ answer. IfErr answer (RefusesVolume (content (D.state disk.old)))) }
    ensures fits { IfOk result (λ answer. IfOk answer (FitsPlace (D.state disk.old).sectors)) }
    ensures reads { OnlyReads (D.state disk.old) (D.state disk.new) }
    ensures cause { HasCause (D.state disk.old).faults (D.state disk.new).faults result }
{
    let found = find_volume_header(disk)?;
    match found {
        Ok(header) => Ok(unlocked_place(&header)),
        Err(why) => Ok(Err(VolumeRefusal::Header(why))),
    }
}

/// Reads the volume header of an image, and answers it where it is accepted, or its refusal. Nothing is written.
pub fn find_volume_header<D: SectorDisk>(
    disk: &mut D,
) -> Result<Result<VolumeHeader, HeaderRefusal>, Failed>
    ensures header { IsTrue (D.state disk.old).tells → IfOk result (λ answer. IfOk answer (λ head. head ≡ header_of_volume (content (D.state disk.old)))) }
    ensures accepted { IfOk result (λ answer. IfOk answer (λ head. header_refusal head (D.state disk.old).sectors ≡ None)) }
    ensures refused { IsTrue (D.state disk.old).tells → IfOk result (λ answer. IfErr answer (λ why. header_refusal (header_of_volume (content (D.state disk.old))) (D.state disk.old).sectors ≡ Some why)) }
    ensures reads { OnlyReads (D.state disk.old) (D.state disk.new) }
    ensures cause { HasCause (D.state disk.old).faults (D.state disk.new).faults result }
{
    let sectors = disk.sectors();
    if sectors <= HEADER_SECTOR {
        return Ok(Err(HeaderRefusal::LimitSectors(sectors)));
    }
    let mut sector = [0; 512];
    disk.read(HEADER_SECTOR, &mut sector)?;
    Ok(read_header(&sector, sectors))
}

/// Where a volume header says that the journal is.
pub fn place_of(header: &VolumeHeader) -> Place
    ensures { result ≡ record { info_sector = info_sector_of header.now; last_mounted = header.now.last_mounted_version } }
{
    Place {
        info_sector: u64::from(header.journal_info_block) * u64::from(header.block_size / 512),
        last_mounted: header.last_mounted_version,
    }
}

// The same, if the volume isn't locked.
fn unlocked_place(header: &VolumeHeader) -> Result<Place, VolumeRefusal>
    ensures unlocked { IfOk result (λ place. is_locked header.now.attributes ≡ false) }
    ensures place { IfOk result (λ place. place ≡ record { info_sector = info_sector_of header.now; last_mounted = header.now.last_mounted_version }) }
    ensures locked { IfErr result (λ why. (why ≡ SoftwareLocked) × (is_locked header.now.attributes ≡ true)) }
{
    if header.is_locked() {
        return Err(VolumeRefusal::SoftwareLocked);
    }
    Ok(place_of(header))
}
