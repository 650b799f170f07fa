//! A new volume, with a journal that still has to be initialised.
ghost use Rattle.std.specs.Prelude.{◌≤◌};

use hx_bytes::{Sector, write_be16, write_be32};
use jnl_format::{Info, write_info};
use jnl_replay::Place;
use sector_disk::SectorDisk;

/// The sectors of the volume.
pub const SECTORS: u64 = 524_288;

/// Where the volume header says that the journal's info block is.
pub const PLACE: Place = Place {
    info_sector: 16,
    last_mounted: 0x4846_534A,
};

// The byte at which the journal begins.
const JOURNAL: u64 = 24 * 512;

// The journal lies on the volume, and still has to be initialised.
const NEW: u32 = 5;

/// Writes the volume header and the info block of a journal of so many sectors.
pub fn make_volume<D: SectorDisk>(disk: &mut D, ring: u64)
    requires { ring ≤ 200000 }
{
    put(disk, 2, &volume_header());
    let mut block = [0; 512];
    let info = Info {
        flags: NEW,
        offset: JOURNAL,
        size: ring * 512,
    };
    write_info(&info, &mut block);
    put(disk, PLACE.info_sector, &block);
    let _settled = disk.barrier();
}

// The fields of the volume header that a mount of its journal looks at (TN1150, "Volume Header").
fn volume_header() -> Sector {
    let mut sector = [0; 512];
    write_be16(&mut sector, 0, 0x4858);
    write_be16(&mut sector, 2, 5);
    write_be32(&mut sector, 4, 0x2100);
    write_be32(&mut sector, 8, PLACE.last_mounted);
    write_be32(&mut sector, 12, 2);
    write_be32(&mut sector, 40, 4096);
    write_be32(&mut sector, 44, 65_536);
    sector
}

fn put<D: SectorDisk>(disk: &mut D, at: u64, sector: &Sector) {
    if at < disk.sectors() {
        let _wrote = disk.write(at, sector);
    }
}
