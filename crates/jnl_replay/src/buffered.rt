//! A disk with the two sectors that were read last.
ghost use Rattle.std.specs.Prelude.{IsTrue};
ghost use Rattle.sector_disk.specs.Disk.{content};
ghost use Rattle.jnl_replay.specs.Buffered.{IsCopy};

use hx_bytes::Sector;
use sector_disk::SectorDisk;

/// A sector, and the bytes that it has.
#[derive(Clone, Copy)]
pub struct Copied {
    pub at: u64,
    pub bytes: Sector,
}

/// A disk, and the two sectors of it that were read last, which are read again without the device. A walk over lists reads a
/// sector of a list's header and sectors of its blocks in turn, so that over this disk each sector of a header is read once.
#[derive(Drop)]
pub struct BufferedDisk<'a, D: SectorDisk> {
    pub disk: &'a mut D,
    pub last: Option<Copied>,
    pub before: Option<Copied>,
    ghost fresh: { IsTrue (D.state disk.now).tells → IsCopy (content (D.state disk.now)) last × IsCopy (content (D.state disk.now)) before },
}
