// Keys and values by numbers: the order of the numbers is that of the keys.
use hx_bytes::OutOfMemory;
use std::alloc::Global;

/// Which tree a key is for.
#[derive(Clone, Copy, Debug, PartialEq, Eq)]
pub enum Kind {
    Extents,
    Catalog,
    Attributes,
}

/// The units of the key with a number: one, so many, or some between, by turns.
pub fn units_of(number: u32, longest: u16) -> u16 {
    if number % 3 == 0 || longest == 0 {
        return 1;
    }
    if number % 3 == 1 {
        return longest;
    }
    (number.wrapping_mul(2_654_435_761) >> 16) as u16 % longest + 1
}

/// The key with a number, with its length field in front.
pub fn key_of(
    alloc: Global,
    kind: Kind,
    number: u32,
    longest: u16,
) -> Result<Vec<u8>, OutOfMemory> {
    let units = units_of(number, longest);
    match kind {
        Kind::Extents => extent_key(alloc, number),
        Kind::Catalog => catalog_key(alloc, number, units),
        Kind::Attributes => attribute_key(alloc, number, units),
    }
}

fn append(list: &mut Vec<u8>, bytes: &[u8]) -> Result<(), OutOfMemory> {
    for byte in bytes {
        list.push(*byte)?;
    }
    Ok(())
}

// Four places of the data fork, and then four of the resource fork, of each file.
fn extent_key(alloc: Global, number: u32) -> Result<Vec<u8>, OutOfMemory> {
    let fork = if number % 8 < 4 { 0 } else { 0xFF };
    let mut key = Vec::new(alloc);
    append(&mut key, &[0, 10, fork, 0])?;
    append(&mut key, &(number / 8).wrapping_add(16).to_be_bytes())?;
    append(&mut key, &(number % 4).to_be_bytes())?;
    Ok(key)
}

// Sixteen names in each folder.
fn catalog_key(alloc: Global, number: u32, units: u16) -> Result<Vec<u8>, OutOfMemory> {
    let mut key = Vec::new(alloc);
    append(
        &mut key,
        &units.wrapping_mul(2).wrapping_add(6).to_be_bytes(),
    )?;
    append(&mut key, &(number / 16).wrapping_add(16).to_be_bytes())?;
    append(&mut key, &units.to_be_bytes())?;
    append_name(&mut key, number, units)?;
    Ok(key)
}

// Sixteen names of each file.
fn attribute_key(alloc: Global, number: u32, units: u16) -> Result<Vec<u8>, OutOfMemory> {
    let mut key = Vec::new(alloc);
    append(
        &mut key,
        &units.wrapping_mul(2).wrapping_add(12).to_be_bytes(),
    )?;
    append(&mut key, &[0, 0])?;
    append(&mut key, &(number / 16).wrapping_add(16).to_be_bytes())?;
    append(&mut key, &[0, 0, 0, 0])?;
    append(&mut key, &units.to_be_bytes())?;
    append_name(&mut key, number, units)?;
    Ok(key)
}

// A name whose first unit tells it from its neighbours.
fn append_name(key: &mut Vec<u8>, number: u32, units: u16) -> Result<(), OutOfMemory> {
    if units > 0 {
        append(key, &[0, b'a' + (number % 16) as u8])?;
    }
    for _ in 1..units {
        append(key, &[0, b'z'])?;
    }
    Ok(())
}

/// The value that a number has for the so-manieth time.
pub fn value_of(
    alloc: Global,
    number: u32,
    version: u8,
    longest: u32,
) -> Result<Vec<u8>, OutOfMemory> {
    let length = number
        .wrapping_mul(40_503)
        .wrapping_add(u32::from(version).wrapping_mul(977))
        % longest.max(1);
    let mut value = Vec::new(alloc);
    for at in 0..length {
        value.push((at % 256) as u8 ^ version)?;
    }
    Ok(value)
}
