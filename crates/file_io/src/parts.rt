//! Parts of sectors.
ghost use Rattle.std.specs.Prelude.{◌≡◌, ◌<◌, ◌≤◌, ◌+◌, ◌-◌, ◌^◌, ◌++◌, ◌&&◌, ℕ, nat_le, nat_lt, if◌then◌else◌, length, take, drop, slice_index, OnOk};

use hx_bytes::{OutOfMemory, Sector};

/// Adds the bytes of a sector from one place up to another.
pub fn push_part(
    out: &mut Vec<u8>,
    sector: &Sector,
    low: usize,
    high: usize,
) -> Result<(), OutOfMemory>
    requires order { low ≤ high }
    requires inside { high ≤ 512 }
    ensures { OnOk result (out.new.items ≡ out.old.items ++ take (high - low) (drop low sector.now)) }
{
    out.extend_from_slice(&sector[low..high])?;
    Ok(())
}

/// Zeros from a place on.
pub fn clear_from(sector: &mut Sector, low: usize)
    ensures { (k : ℕ) → k < 512 → slice_index sector.new k ≡ (if nat_lt k low then slice_index sector.old k else 0) }
{
    for at in low..512 {
        sector[at] = 0;
    }
}

/// Puts the bytes of a value that fall into a sector: the sector begins at byte `start` of the file, and the value at byte `from`.
pub fn put_part(sector: &mut Sector, start: u64, from: u64, value: &[u8])
    requires start { start < 2 ^ 62 }
    requires from { from < 2 ^ 62 }
    requires value { length value.now < 2 ^ 62 }
    ensures { (k : ℕ) → k < 512 → slice_index sector.new k ≡ (if nat_le from (start + k) && nat_lt (start + k) (from + length value.now) then slice_index value.now (start + k - from) else slice_index sector.old k) }
{
    let end = (from + value.len() as u64).min(start + 512);
    let low = from.max(start);
    if low < end {
        let part = &value[(low - from) as usize..(end - from) as usize];
        sector[(low - start) as usize..(end - start) as usize].copy_from_slice(part);
    }
}
