//! Power fails in a run, and again in the mount of what it left.
use crate::few::{Few, fresh_few};
use crate::runs::{run_lines, told_by};
use hx_bytes::OutOfMemory;
use mem_disk::MemImage;
use std::alloc::Global;

/// A run that makes a folder, a file and an attribute, and asks after each that it is durable.
const LINES: &[u8] = b"mkdir /d\nsync\ncreate /d/f\nsync\nsetattr /d k =v\nsync\n";

/// What is read back behind it.
const READS: &[u8] = b"ls /\nls /d\nlsattr /d\n";

// How many calls of a mount that wrote are passed over between two that are tried.
const STEP: u64 = 35;

/// What all pairs of crashes left.
#[derive(Clone, Copy)]
pub struct Pairs {
    pub pairs: u64,
    /// After how many calls of the run and of the mount an image was wrong, if one was.
    pub wrong: Option<(u64, u64)>,
}

/// Stops the run after each call that wrote, and the mount of the image of this choice again after such
/// calls. What the second image has must be what the first one has.
pub fn try_pairs(alloc: Global, choice: u64) -> Result<Pairs, OutOfMemory> {
    let start = fresh_few(alloc)?;
    let mut whole = Few::over(alloc, &start)?;
    run_lines(alloc, &mut whole, LINES)?;
    let mut tried = Pairs {
        pairs: 0,
        wrong: None,
    };
    for call in 0..whole.rig.calls() {
        if whole.rig.wrote(call) {
            let stop = call.saturating_add(1);
            let mut disk = Few::over(alloc, &start)?;
            disk.rig.stop_after(stop);
            run_lines(alloc, &mut disk, LINES)?;
            let image = disk.rig.image(alloc, choice)?;
            try_mount(alloc, &image, choice, stop, &mut tried)?;
        }
    }
    Ok(tried)
}

/// Stops the mount of an image after some of the calls that wrote, beginning with another one for each image.
fn try_mount(
    alloc: Global,
    image: &MemImage,
    choice: u64,
    stop: u64,
    tried: &mut Pairs,
) -> Result<(), OutOfMemory> {
    let want = told_by(alloc, image, READS)?;
    let mut whole = Few::over(alloc, image)?;
    run_lines(alloc, &mut whole, b"")?;
    let mut nth = stop;
    for call in 0..whole.rig.calls() {
        if whole.rig.wrote(call) {
            nth = nth.wrapping_add(1);
            if nth % STEP == 0 {
                let again = call.saturating_add(1);
                let mut disk = Few::over(alloc, image)?;
                disk.rig.stop_after(again);
                run_lines(alloc, &mut disk, b"")?;
                let second = disk.rig.image(alloc, choice)?;
                if want.is_none() || told_by(alloc, &second, READS)? != want {
                    tried.wrong = Some((stop, again));
                }
                tried.pairs = tried.pairs.saturating_add(1);
            }
        }
    }
    Ok(())
}
