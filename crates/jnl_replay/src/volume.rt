//! The volume header, read again before lists are checked against it.
ghost use Rattle.std.specs.Prelude.{◌≡◌, ◌<◌, ◌↔◌, IsTrue, IfOk, IfErr, IsErrOf, None};
ghost use Rattle.sector_disk.specs.Cause.{Rose};
ghost use Rattle.sector_disk.specs.Disk.{content};
ghost use Rattle.volume_header.specs.Header.{header_of};
ghost use Rattle.volume_header.specs.Refusal.{header_refusal};
ghost use Rattle.jnl_format.specs.Recovery.{header_of_volume, info_sector_of};
ghost use Rattle.jnl_replay.specs.Plan.{IsPlace};
ghost use Rattle.sector_disk.specs.Disk.{OnlyReads};
ghost use Rattle.jnl_replay.specs.declared.plan.ReplayFault.TheVariants.{Disk};

use crate::plan::{Place, ReplayFault};
use hx_bytes::Sector;
use jnl_format::JnlRefusal;
use sector_disk::SectorDisk;
use volume_header::{VolumeHeader, read_header};

/// The sector of the volume header.
pub const HEADER_SECTOR: u64 = 2;

/// The volume header of a disk from which this place was taken. Where the disk reads otherwise by now, it is refused.
pub fn read_volume<D: SectorDisk>(disk: &mut D, place: &Place) -> Result<VolumeHeader, ReplayFault>
    requires { 2 < (D.state disk.old).sectors }
    ensures header { IsTrue (D.state disk.old).tells → IfOk result (λ head. head ≡ header_of_volume (content (D.state disk.old))) }
    // It says the same place, also on a disk that tells nothing.
    ensures place { IfOk result (λ head. (place.now.info_sector ≡ info_sector_of head) × (place.now.last_mounted ≡ head.last_mounted_version)) }
    ensures accepted { IfOk result (λ head. header_refusal head (D.state disk.old).sectors ≡ None) }
    ensures refused { IsTrue (D.state disk.old).tells → IsPlace (content (D.state disk.old)) place.now → IfErr result (λ fault. fault ≡ Disk) }
    ensures reads { OnlyReads (D.state disk.old) (D.state disk.new) }
    ensures cause { IsErrOf result Disk → Rose (D.state disk.old).faults (D.state disk.new).faults }
{
    let sectors = disk.sectors();
    let mut block = [0; 512];
    match disk.read(HEADER_SECTOR, &mut block) {
        Ok(()) => judge_volume(&block, sectors, place),
        Err(_) => Err(ReplayFault::Disk),
    }
}

// The header that stands in this sector of a volume of so many, where it says this place.
fn judge_volume(block: &Sector, sectors: u64, place: &Place) -> Result<VolumeHeader, ReplayFault>
    ensures header { IfOk result (λ head. head ≡ header_of block.now) }
    ensures place { IfOk result (λ head. (place.now.info_sector ≡ info_sector_of head) × (place.now.last_mounted ≡ head.last_mounted_version)) }
    ensures accepted { IfOk result (λ head. header_refusal head sectors ≡ None) }
    ensures found { header_refusal (header_of block.now) sectors ≡ None → place.now.info_sector ≡ info_sector_of (header_of block.now) → place.now.last_mounted ≡ (header_of block.now).last_mounted_version → IfErr result (λ fault. ⊥) }
    ensures no_disk { IsErrOf result Disk → ⊥ }
{
    match read_header(block, sectors) {
        Ok(header) => {
            if says(&header, place) {
                Ok(header)
            } else {
                Err(ReplayFault::Refused(JnlRefusal::BadHeader(0)))
            }
        }
        Err(_) => Err(ReplayFault::Refused(JnlRefusal::BadHeader(0))),
    }
}

// The header says this place.
fn says(header: &VolumeHeader, place: &Place) -> bool
    ensures { IsTrue result ↔ (place.now.info_sector ≡ info_sector_of header.now) × (place.now.last_mounted ≡ header.now.last_mounted_version) }
{
    let info_sector = u64::from(header.journal_info_block) * u64::from(header.block_size / 512);
    place.info_sector == info_sector && place.last_mounted == header.last_mounted_version
}
