//! Plain arrays of bytes, and places in them.
use hx_bytes::OutOfMemory;
use std::alloc::Global;

/// A place near a border: so many blocks, and so many bytes more and less.
pub type Border = (u64, u64, u64);

pub fn place_at(block: u32, border: Border) -> u64 {
    let (blocks, more, less) = border;
    (block as u64)
        .saturating_mul(blocks)
        .saturating_add(more)
        .saturating_sub(less)
}

/// So many bytes, none of them zero.
pub fn pattern(alloc: Global, length: u64, seed: u8) -> Result<Vec<u8>, OutOfMemory> {
    let mut bytes = Vec::new(alloc);
    for at in 0..length {
        bytes.push(((at % 251) as u8 ^ seed).max(1))?;
    }
    Ok(bytes)
}

/// The byte at a place, and 0 behind the last one.
pub fn byte_at(bytes: &[u8], at: u64) -> u8 {
    if at < bytes.len() as u64 {
        bytes[at as usize]
    } else {
        0
    }
}

/// The bytes after a value was written at a place, with zeros in a gap.
pub fn overwritten(
    alloc: Global,
    plain: &[u8],
    from: u64,
    value: &[u8],
) -> Result<Vec<u8>, OutOfMemory> {
    let length = value.len() as u64;
    let end = from.saturating_add(length).max(plain.len() as u64);
    let mut bytes = Vec::new(alloc);
    for at in 0..end {
        if from <= at && at - from < length {
            bytes.push(byte_at(value, at - from))?;
        } else {
            bytes.push(byte_at(plain, at))?;
        }
    }
    Ok(bytes)
}

/// The first bytes, with zeros behind them where there aren't so many.
pub fn resized(alloc: Global, plain: &[u8], size: u64) -> Result<Vec<u8>, OutOfMemory> {
    let mut bytes = Vec::new(alloc);
    for at in 0..size {
        bytes.push(byte_at(plain, at))?;
    }
    Ok(bytes)
}
