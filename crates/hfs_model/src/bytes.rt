//! The bytes of a file after a `write` or a `trunc`.
ghost use Rattle.std.specs.Prelude.{◌≡◌, ◌<◌, ◌+◌, ◌^◌, length, take, drop, IfOk};
ghost use Rattle.hx_bytes.specs.Field.{put_at};
ghost use Rattle.hfs_model.specs.Step.{padded};

use hx_bytes::{Bytes, Listed, OutOfMemory};
use std::alloc::Global;

/// The first bytes, with zeros behind them up to a size.
fn cut_or_filled(alloc: Global, bytes: &[u8], size: usize) -> Result<Vec<u8>, OutOfMemory>
    ensures { IfOk result (λ new. new.items ≡ take size (padded size bytes.now)) }
{
    let kept = if bytes.len() < size {
        bytes.len()
    } else {
        size
    };
    let mut new = Vec::from_slice(alloc, &bytes[..kept])?;
    new.resize(size, 0)?;
    Ok(new)
}

/// The bytes of a file that is cut or filled to a size.
pub(crate) fn resized(alloc: Global, bytes: &Bytes, size: usize) -> Result<Bytes, OutOfMemory>
    ensures { IfOk result (λ new. new ≡ take size (padded size bytes.now)) }
{
    Ok(Listed::from_vec(cut_or_filled(alloc, bytes.as_slice(), size)?))
}

/// The bytes of a file after a value is written from a place on, with zeros in a gap.
pub(crate) fn written(
    alloc: Global,
    bytes: &Bytes,
    from: usize,
    value: &[u8],
) -> Result<Bytes, OutOfMemory>
    requires room { from + length value.now < 2 ^ 64 }
    ensures { IfOk result (λ new. new ≡ put_at (padded from bytes.now) from value.now) }
{
    let mut new = cut_or_filled(alloc, bytes.as_slice(), from)?;
    new.extend_from_slice(value)?;
    let end = from + value.len();
    if end < bytes.len() {
        new.extend_from_slice(&bytes.as_slice()[end..])?;
    }
    Ok(Listed::from_vec(new))
}

/// At most so many bytes from a place on.
pub(crate) fn part(alloc: Global, bytes: &Bytes, from: u64, most: u64) -> Result<Bytes, OutOfMemory>
    ensures { IfOk result (λ new. new ≡ take most (drop from bytes.now)) }
{
    let bytes = bytes.as_slice();
    let from = if from < bytes.len() as u64 {
        from as usize
    } else {
        bytes.len()
    };
    let rest = &bytes[from..];
    let long = if most < rest.len() as u64 {
        most as usize
    } else {
        rest.len()
    };
    Ok(Listed::from_vec(Vec::from_slice(alloc, &rest[..long])?))
}
