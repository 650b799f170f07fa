//! Keys of the trees, as bytes behind their length.
ghost use Rattle.std.specs.Prelude.{◌≡◌, ◌≤◌, length, IfOk};
ghost use Rattle.cat_records.specs.Keys.{attr_key_bytes, catalog_key_bytes, extent_key_bytes};

use crate::units::append_units;
use hx_bytes::{Bytes, OutOfMemory, Units, write_be16, write_be32};
use std::alloc::Global;

/// The key of a name in a folder, or of a thread where the name is empty (TN1150, "Catalog File Key").
pub fn catalog_key(alloc: Global, parent: u32, name: &Units) -> Result<Bytes, OutOfMemory>
    requires { length name.now ≤ 255 }
    ensures { IfOk result (λ key. key ≡ catalog_key_bytes parent name.now) }
{
    let count = name.len() as u16;
    let mut front = [0; 8];
    write_be16(&mut front, 0, 6 + 2 * count);
    write_be32(&mut front, 2, parent);
    write_be16(&mut front, 6, count);
    let mut key = Vec::from_slice(alloc, &front)?;
    append_units(&mut key, name)?;
    Ok(Bytes::from_vec(key))
}

/// The key of an attribute of a file or folder, from a block of its value on (TN1150, "Attributes File").
pub fn attr_key(alloc: Global, id: u32, name: &Units, start: u32) -> Result<Bytes, OutOfMemory>
    requires { length name.now ≤ 127 }
    ensures { IfOk result (λ key. key ≡ attr_key_bytes id name.now start) }
{
    let count = name.len() as u16;
    let mut front = [0; 14];
    write_be16(&mut front, 0, 12 + 2 * count);
    write_be32(&mut front, 4, id);
    write_be32(&mut front, 8, start);
    write_be16(&mut front, 12, count);
    let mut key = Vec::from_slice(alloc, &front)?;
    append_units(&mut key, name)?;
    Ok(Bytes::from_vec(key))
}

/// The key of the extents of a fork from its block `start` on; the fork is 0 for data and 0xFF for the
/// resource fork (TN1150, "Extents Overflow File Key").
pub fn extent_key(fork: u8, id: u32, start: u32) -> [u8; 12]
    ensures { result ≡ extent_key_bytes fork id start }
{
    let mut key = [0; 12];
    write_be16(&mut key, 0, 10);
    key[2] = fork;
    write_be32(&mut key, 4, id);
    write_be32(&mut key, 8, start);
    key
}
