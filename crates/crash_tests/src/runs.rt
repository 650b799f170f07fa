//! Whole runs, and what a mount finds on an image.
use crate::few::Few;
use crate::plain::count_lines;
use hfsx_server::Status;
use hx_bytes::OutOfMemory;
use mem_disk::MemImage;
use std::alloc::Global;
use test_kit::run_program;

/// How many bytes a take of the source gives at most: few, so that lines come in pieces, and some batches have several.
pub const PIECE: u64 = 29;

/// The same, where all lines of a run come at once, and are one batch up to the 32nd.
pub const AT_ONCE: u64 = 65_536;

/// How a run ended, and how many whole lines it told.
#[derive(Clone, Copy)]
pub struct Ran {
    pub status: Status,
    pub lines: u64,
}

/// Serves these lines, and counts the whole lines that were told.
pub fn run_lines(alloc: Global, disk: &mut Few, input: &[u8]) -> Result<Ran, OutOfMemory> {
    run_in_pieces(alloc, disk, input, PIECE)
}

/// Serves lines that come in pieces of so many bytes.
pub fn run_in_pieces(
    alloc: Global,
    disk: &mut Few,
    input: &[u8],
    piece: u64,
) -> Result<Ran, OutOfMemory> {
    let status = run_program(alloc, "run v.img", disk, input, piece)?;
    let lines = count_lines(disk.rig.told());
    Ok(Ran { status, lines })
}

/// What a run of these lines on an image tells, if it mounts and serves them all.
pub fn told_by(
    alloc: Global,
    image: &MemImage,
    lines: &[u8],
) -> Result<Option<Vec<u8>>, OutOfMemory> {
    let mut disk = Few::over(alloc, image)?;
    let ran = run_lines(alloc, &mut disk, lines)?;
    if ran.status != Status::Done {
        return Ok(None);
    }
    Ok(Some(Vec::from_slice(alloc, disk.rig.told())?))
}

/// Whether a check finds the volume of an image sound.
pub fn is_clean(alloc: Global, image: &MemImage) -> Result<bool, OutOfMemory> {
    let mut disk = Few::over(alloc, image)?;
    let status = run_program(alloc, "check v.img", &mut disk, b"", PIECE)?;
    Ok(status == Status::Done)
}

/// How a command ended, and what it told.
#[derive(Drop)]
pub struct Told {
    pub status: Status,
    pub text: Vec<u8>,
}

/// Runs a command without lines on a disk.
pub fn told_by_words(alloc: Global, line: &str, disk: &mut Few) -> Result<Told, OutOfMemory> {
    let status = run_program(alloc, line, disk, b"", PIECE)?;
    let text = Vec::from_slice(alloc, disk.rig.told())?;
    Ok(Told { status, text })
}
