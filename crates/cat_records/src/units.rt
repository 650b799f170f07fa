//! The units of a name, in bytes.
ghost use Rattle.std.specs.Prelude.{◌≡◌, ◌+◌, ◌*◌, ◌%◌, ◌≤◌, ◌++◌, length, IfOk, OnOk};
ghost use Rattle.cat_records.specs.Records.{units_at, units_bytes};

use hx_bytes::{OutOfMemory, Units, read_be16, write_be16};
use std::alloc::Global;

/// Reads so many units from `at` on.
pub(crate) fn read_units(
    alloc: Global,
    bytes: &[u8],
    at: usize,
    count: u16,
) -> Result<Units, OutOfMemory>
    requires { at + 2 * count ≤ length bytes.now }
    ensures { IfOk result (λ units. units ≡ units_at bytes.now at count) }
{
    let mut units = Vec::with_capacity(alloc, usize::from(count))?;
    for place in 0..usize::from(count) {
        units.push(read_be16(bytes, at + 2 * place))?;
    }
    Ok(Units::from_vec(units))
}

/// Adds the bytes of units.
pub(crate) fn append_units(bytes: &mut Vec<u8>, units: &Units) -> Result<(), OutOfMemory>
    ensures { OnOk result (bytes.new.items ≡ bytes.old.items ++ units_bytes units.now) }
{
    bytes.reserve(units.len().saturating_mul(2))?;
    for unit in units.as_slice() {
        let mut pair = [0; 2];
        write_be16(&mut pair, 0, *unit);
        bytes.extend_from_slice(&pair)?;
    }
    Ok(())
}

/// The low sixteen bits of a number of units, as a field of two bytes holds it.
pub(crate) fn low_bits(count: usize) -> u16
    ensures { result ≡ count % 65536 }
{
    (count % 65_536) as u16
}
