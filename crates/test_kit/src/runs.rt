//! Whole runs of the program over a disk in memory.
use hfsx_server::{Status, hfsx};
use hx_bytes::OutOfMemory;
use mem_disk::{MemImage, MemRig, MemSource};
use sector_disk::Rig;
use std::alloc::{AllocError, Global};
use watchers::Watcher;

// How many bytes a take of the source gives at most: few, so that lines come in pieces.
const PIECE: u64 = 7;

/// The words of a command line, which a space separates.
pub fn words(alloc: Global, line: &str) -> Result<Vec<String>, AllocError> {
    let mut words = Vec::new(alloc);
    for word in line.split(' ') {
        words.push(word.to_string(alloc)?)?;
    }
    Ok(words)
}

/// Runs the program with these words on an image, with these lines.
pub fn run_on(
    alloc: Global,
    line: &str,
    rig: &mut MemRig,
    input: &[u8],
) -> Result<Status, OutOfMemory> {
    run_program(alloc, line, rig, input, PIECE)
}

/// The same on any rig, with lines that come in pieces of so many bytes, at least one.
pub fn run_program<R: Rig>(
    alloc: Global,
    line: &str,
    rig: &mut R,
    input: &[u8],
    piece: u64,
) -> Result<Status, OutOfMemory> {
    let mut source = MemSource::new(alloc, input, piece.max(1), None)?;
    let mut watchers: Vec<Box<dyn Watcher>> = Vec::new(alloc);
    Ok(run_watched(alloc, line, rig, &mut source, &mut watchers)?)
}

/// The same with a source and watchers of the test's own.
pub fn run_watched<R: Rig>(
    alloc: Global,
    line: &str,
    rig: &mut R,
    source: &mut MemSource,
    watchers: &mut Vec<Box<dyn Watcher>>,
) -> Result<Status, AllocError> {
    let words = words(alloc, line)?;
    Ok(hfsx(alloc, words.as_slice(), rig, source, watchers))
}

/// A fresh disk on which a run of these lines was stopped so many device calls before its end, and how the run ended.
pub fn stopped_rig(
    alloc: Global,
    input: &[u8],
    before_end: u64,
) -> Result<(MemRig, Status), OutOfMemory> {
    let mut whole = fresh_rig(alloc)?;
    run_on(alloc, "run v.img", &mut whole, input)?;
    let mut rig = fresh_rig(alloc)?;
    rig.stop_after(whole.calls().saturating_sub(before_end));
    let ended = run_on(alloc, "run v.img", &mut rig, input)?;
    Ok((rig, ended))
}

/// The volume of 16,384 sectors that `format` makes.
pub fn fresh(alloc: Global) -> Result<MemImage, OutOfMemory> {
    let mut rig = MemRig::new(alloc, 16_384)?;
    run_on(alloc, "format v.img 16384", &mut rig, b"")?;
    rig.image(alloc, 1)
}

/// A disk with that volume, on which nothing is pending and no call was counted.
pub fn fresh_rig(alloc: Global) -> Result<MemRig, OutOfMemory> {
    let image = fresh(alloc)?;
    MemRig::from_image(alloc, &image)
}

/// A line for each of so many files, with a name of 254 letters, of which the last two tell it from the others.
pub fn filling(alloc: Global, files: u8) -> Result<Vec<u8>, AllocError> {
    let mut lines = Vec::new(alloc);
    for file in 0..files {
        lines.extend_from_slice(b"create /")?;
        for _letter in 0..252 {
            lines.push(b'n')?;
        }
        lines.push(b'a' + file / 26 % 26)?;
        lines.push(b'a' + file % 26)?;
        lines.push(b'\n')?;
    }
    Ok(lines)
}

/// A text in which each tilde stands for so many letters `v`.
pub fn lengthened(alloc: Global, text: &[u8], letters: usize) -> Result<Vec<u8>, AllocError> {
    let mut long = Vec::new(alloc);
    for byte in text {
        if *byte == b'~' {
            for _letter in 0..letters {
                long.push(b'v')?;
            }
        } else {
            long.push(*byte)?;
        }
    }
    Ok(long)
}
