//! The journal info block.
ghost use Rattle.std.specs.Prelude.{◌<◌, ◌^◌, ◌≡◌, ◌+◌, Bool, nat_le};
ghost use Rattle.jnl_format.specs.Info.{info_of, with_info, info_fault, is_sized, unless_fault};

use crate::structures::{Info, JnlRefusal};
use hx_bytes::{Sector, read_be32, read_be64, write_be32, write_be64};

const IN_THIS_VOLUME: u32 = 1;

const ON_OTHER_DEVICE: u32 = 2;

/// Reads the info block of a volume of so many bytes. The refusal is `OtherDevice`, or `BadInfo` with the
/// offset of the first field that breaks the format.
pub fn read_info(sector: &Sector, volume_bytes: u64) -> Result<Info, JnlRefusal>
    ensures { result ≡ unless_fault (info_fault volume_bytes Bool.false (info_of sector.now)) (info_of sector.now) }
{
    let info = info_fields(sector);
    match first_info_fault(&info, volume_bytes, false) {
        None => Ok(info),
        Some(fault) => Err(fault),
    }
}

/// The fields of an info block, whatever they say.
pub fn info_fields(sector: &Sector) -> Info
    ensures { result ≡ info_of sector.now }
{
    Info {
        flags: read_be32(sector, 0),
        offset: read_be64(sector, 36),
        size: read_be64(sector, 44),
    }
}

/// The first fault of an info block on a volume of so many bytes. `taken` says that the journal would hold
/// a sector that it must not hold; that is a fault of its offset.
pub fn first_info_fault(info: &Info, volume_bytes: u64, taken: bool) -> Option<JnlRefusal>
    ensures { result ≡ info_fault volume_bytes taken info.now }
{
    if info.flags & ON_OTHER_DEVICE != 0 {
        return Some(JnlRefusal::OtherDevice);
    }
    if info.flags & IN_THIS_VOLUME == 0 {
        return Some(JnlRefusal::BadInfo(0));
    }
    if info.offset % 512 != 0 || taken {
        return Some(JnlRefusal::BadInfo(36));
    }
    if !is_well_sized(info, volume_bytes) {
        return Some(JnlRefusal::BadInfo(44));
    }
    None
}

fn is_well_sized(info: &Info, volume_bytes: u64) -> bool
    ensures { result ≡ is_sized volume_bytes info.now }
{
    info.size % 512 == 0 && 1536 <= info.size && ends_inside(info.offset, info.size, volume_bytes)
}

fn ends_inside(offset: u64, size: u64, limit: u64) -> bool
    ensures { result ≡ nat_le (offset + size) limit }
{
    match offset.checked_add(size) {
        Some(end) => end <= limit,
        None => false,
    }
}

/// Writes the three fields into a sector, and keeps the rest of it.
pub fn write_info(info: &Info, into: &mut Sector)
    ensures bytes { into.new ≡ with_info info.now into.old }
    ensures read_back { info.now.flags < 2 ^ 32 → info.now.offset < 2 ^ 64 → info.now.size < 2 ^ 64 → info_of into.new ≡ info.now }
{
    write_be32(into, 0, info.flags);
    write_be64(into, 36, info.offset);
    write_be64(into, 44, info.size);
}
