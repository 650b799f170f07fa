//! The bytes of a fork, read piece by piece and written into a file.

use hx_bytes::Sector;
use salvage_tree::{Fork, Sectors, Volume, read_fork};
use std::fs::File;
use std::io;
use std::os::unix::fs::FileExt;

/// The sectors that are read at once.
pub(crate) const PIECE: usize = 128;

const SECTOR: u64 = 512;

/// What came of a fork.
#[derive(Clone, Copy)]
pub(crate) struct Copied {
    /// The bytes that were read.
    pub(crate) bytes: u64,
    /// Whether each sector was read.
    pub(crate) whole: bool,
}

// The bytes of a fork that can be there at all: no more than its blocks have, or the image.
fn most_bytes<S: Sectors>(source: &S, volume: &Volume, fork: &Fork) -> u64 {
    let sectors = fork
        .blocks
        .saturating_mul(volume.per_block)
        .min(source.count());
    fork.size.min(sectors.saturating_mul(SECTOR))
}

/// Writes a fork into a file that is empty. What can't be read stays a hole.
pub(crate) fn copy_fork<S: Sectors>(
    source: &mut S,
    volume: &Volume,
    fork: &Fork,
    room: &mut [Sector],
    into: &File,
) -> io::Result<Copied> {
    let most = most_bytes(source, volume, fork);
    let step = (room.len() as u64).saturating_mul(SECTOR);
    let mut copied = Copied {
        bytes: 0,
        whole: most == fork.size,
    };
    if step == 0 {
        return Ok(copied);
    }
    for piece in 0..most.div_ceil(step) {
        let at = piece.saturating_mul(step);
        let length = most.saturating_sub(at).min(step);
        let sectors = length.div_ceil(SECTOR);
        let Some(part) = room.get_mut(..sectors as usize) else {
            break;
        };
        let first = at / SECTOR;
        let read = read_fork(
            source,
            volume.per_block,
            fork.extents.as_slice(),
            first,
            part,
        );
        if read < sectors {
            copied.whole = false;
        }
        if read > 0 {
            if let Some(bytes) = part.as_flattened().get(..length as usize) {
                into.write_all_at(bytes, at)?;
                let got = read.saturating_mul(SECTOR).min(length);
                copied.bytes = copied.bytes.saturating_add(got);
            }
        }
    }
    into.set_len(most)?;
    Ok(copied)
}

/// Reads the first bytes of a fork, if all of them can be read and there are no more than the room has.
pub(crate) fn read_small<'a, S: Sectors>(
    source: &mut S,
    volume: &Volume,
    fork: &Fork,
    room: &'a mut [Sector],
) -> Option<&'a [u8]> {
    let sectors = fork.size.div_ceil(SECTOR);
    let part = room.get_mut(..usize::try_from(sectors).ok()?)?;
    if read_fork(source, volume.per_block, fork.extents.as_slice(), 0, part) < sectors {
        return None;
    }
    let bytes: &'a [u8] = part.as_flattened();
    bytes.get(..usize::try_from(fork.size).ok()?)
}
