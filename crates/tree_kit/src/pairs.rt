//! Pairs by numbers, for each of the three trees: the order of the numbers is that of the keys.
ghost use Rattle.std.specs.Prelude.{◌≤◌};

use hx_bytes::OutOfMemory;
use std::alloc::Global;

/// Which tree a pair is for.
#[derive(Clone, Copy, Debug, PartialEq, Eq)]
pub enum Kind {
    Extents,
    Catalog,
    Attributes,
}

fn append(list: &mut Vec<u8>, bytes: &[u8]) -> Result<(), OutOfMemory> {
    for byte in bytes {
        list.push(*byte)?;
    }
    Ok(())
}

/// How many units the name of a key has.
fn units_of(number: u32) -> u16
    ensures { result ≤ 40 }
{
    (number % 40) as u16 + 1
}

fn append_name(key: &mut Vec<u8>, units: u16) -> Result<(), OutOfMemory> {
    append(key, &units.to_be_bytes())?;
    for _ in 0..units {
        append(key, b"\0n")?;
    }
    Ok(())
}

/// The key with a number, with its length field in front.
pub fn key_of(alloc: Global, kind: Kind, number: u32) -> Result<Vec<u8>, OutOfMemory> {
    let id = number.wrapping_add(16).to_be_bytes();
    let units = units_of(number);
    let mut key = Vec::new(alloc);
    match kind {
        Kind::Extents => {
            append(&mut key, &[0, 10, 0, 0])?;
            append(&mut key, &id)?;
            append(&mut key, &[0, 0, 0, 8])?;
        }
        Kind::Catalog => {
            append(&mut key, &(2 * units + 6).to_be_bytes())?;
            append(&mut key, &id)?;
            append_name(&mut key, units)?;
        }
        Kind::Attributes => {
            append(&mut key, &(2 * units + 12).to_be_bytes())?;
            append(&mut key, &[0, 0])?;
            append(&mut key, &id)?;
            append(&mut key, &[0, 0, 0, 0])?;
            append_name(&mut key, units)?;
        }
    }
    Ok(key)
}

/// The value of a number: 64 bytes in the extents tree, and elsewhere of changing length.
pub fn value_of(
    alloc: Global,
    kind: Kind,
    number: u32,
    version: u8,
) -> Result<Vec<u8>, OutOfMemory> {
    let length = match kind {
        Kind::Extents => 64,
        _ => number.wrapping_mul(37).wrapping_add(u32::from(version)) % 250,
    };
    let mut value = Vec::new(alloc);
    for at in 0..length {
        value.push((at % 256) as u8 ^ version)?;
    }
    Ok(value)
}
