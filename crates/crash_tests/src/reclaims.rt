//! Power fails while a file loses its last name and its blocks are given back.
use crate::few::{Few, fresh_long};
use crate::runs::{PIECE, run_lines, told_by};
use crate::stops::{Judge, Tried, try_stops};
use hx_bytes::OutOfMemory;
use mem_disk::MemImage;
use std::alloc::Global;

/// A file of 256 blocks is made.
const MAKE: &[u8] = b"create /a\ntrunc /a 1048576\n";

/// It loses its name.
const REMOVE: &[u8] = b"rm /a\nls /\n";

/// What `ls /` tells, with the file and without.
const LISTS: [&[u8]; 2] = [b"ok 1 a\n", b"ok 0\n"];

/// What `df` tells, with the blocks of the file in use and given back.
const ROOMS: [&[u8]; 2] = [
    b"ok 4096 2048 1436 1436 1982 0 16 15 1 64 62 0 16 15\n",
    b"ok 4096 2048 1692 1692 1982 0 16 15 1 64 62 0 16 15\n",
];

/// Stops the removal after each call that wrote, and mounts the image of this choice. The file is there or it isn't; and behind a run without a
/// line all of its blocks are in use or none.
pub fn try_reclaims(alloc: Global, choice: u64) -> Result<Tried, OutOfMemory> {
    let mut made = Few::over(alloc, &fresh_long(alloc)?)?;
    run_lines(alloc, &mut made, MAKE)?;
    let start = made.rig.image(alloc, 1)?;
    try_stops(alloc, &start, REMOVE, PIECE, choice, &Reclaimed)
}

/// The file is there or it isn't, and its blocks are in use or given back.
struct Reclaimed;

impl Judge for Reclaimed {
    fn is_right(
        &self,
        alloc: Global,
        image: &MemImage,
        _answered: u64,
    ) -> Result<bool, OutOfMemory> {
        Ok(tells_one_of(alloc, image, b"ls /\n", &LISTS)? && is_given_back_whole(alloc, image)?)
    }
}

// Whether behind a run without a line all blocks of the file are in use, or none.
fn is_given_back_whole(alloc: Global, image: &MemImage) -> Result<bool, OutOfMemory> {
    let mut disk = Few::over(alloc, image)?;
    run_lines(alloc, &mut disk, b"")?;
    let behind = disk.rig.image(alloc, 1)?;
    tells_one_of(alloc, &behind, b"df\n", &ROOMS)
}

// Whether a run of these lines tells one of these texts.
fn tells_one_of(
    alloc: Global,
    image: &MemImage,
    lines: &[u8],
    wanted: &[&[u8]],
) -> Result<bool, OutOfMemory> {
    let Some(told) = told_by(alloc, image, lines)? else {
        return Ok(false);
    };
    for want in wanted {
        if *want == told.as_slice() {
            return Ok(true);
        }
    }
    Ok(false)
}
