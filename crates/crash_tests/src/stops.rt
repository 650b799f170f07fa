//! A run is stopped after each call that wrote, and what its disk may hold then is judged.
use crate::few::Few;
use crate::runs::run_in_pieces;
use hx_bytes::OutOfMemory;
use mem_disk::MemImage;
use std::alloc::Global;

/// What all crashes of a run left.
#[derive(Clone, Copy)]
pub struct Tried {
    /// How many crashes were tried.
    pub crashes: u64,
    /// After how many calls an image was wrong, if one was.
    pub wrong: Option<u64>,
}

/// What an image is that a run left.
pub trait Judge {
    /// Whether the image is as it must be behind a run that answered so many lines.
    fn is_right(&self, alloc: Global, image: &MemImage, answered: u64) -> Result<bool, OutOfMemory>;
}

/// Stops the run of lines that come in such pieces after each call that wrote, and has the image of this choice judged.
pub fn try_stops<J: Judge>(
    alloc: Global,
    start: &MemImage,
    lines: &[u8],
    piece: u64,
    choice: u64,
    judge: &J,
) -> Result<Tried, OutOfMemory> {
    let mut whole = Few::over(alloc, start)?;
    run_in_pieces(alloc, &mut whole, lines, piece)?;
    let mut tried = Tried {
        crashes: 0,
        wrong: None,
    };
    for call in 0..whole.rig.calls() {
        if !whole.rig.wrote(call) {
            continue;
        }
        let stop = call.saturating_add(1);
        let mut disk = Few::over(alloc, start)?;
        disk.rig.stop_after(stop);
        let ran = run_in_pieces(alloc, &mut disk, lines, piece)?;
        let image = disk.rig.image(alloc, choice)?;
        if !judge.is_right(alloc, &image, ran.lines)? {
            tried.wrong = Some(stop);
        }
        tried.crashes = tried.crashes.saturating_add(1);
    }
    Ok(tried)
}
