//! A replay that is stopped after half of its home sectors, and its repetition too.
use crate::few::{Few, fresh_few};
use crate::runs::{run_lines, told_by};
use hx_bytes::OutOfMemory;
use jnl_format::{read_header, read_list};
use mem_disk::MemImage;
use std::alloc::Global;
use test_kit::BASE;

// The journal of the volume has 2,048 sectors.
const SIZE: u64 = 1_048_576;

/// The live lists of an image: how many sectors their text has, and how many blocks go home.
#[derive(Clone, Copy)]
struct Live {
    text: u64,
    homes: u64,
}

const NONE: Live = Live { text: 0, homes: 0 };

/// The sector of the journal at which the live lists of an image begin.
pub fn start_of(image: &MemImage) -> Option<u64> {
    let block = image.sectors.get(BASE as usize)?;
    match read_header(block, SIZE) {
        Ok(header) => Some(header.start / 512),
        Err(_) => None,
    }
}

/// The live lists of an image.
fn live_lists(image: &MemImage) -> Live {
    let Some(block) = image.sectors.get(BASE as usize) else {
        return NONE;
    };
    let Ok(header) = read_header(block, SIZE) else {
        return NONE;
    };
    let ring = SIZE - 512;
    let end = if header.start <= header.end {
        header.end
    } else {
        header.end.saturating_add(ring)
    };
    let mut homes: u64 = 0;
    let mut at = header.start;
    for _ in 0..64 {
        if end <= at {
            break;
        }
        let offset = if at < SIZE {
            at
        } else {
            at.saturating_sub(ring)
        };
        let Some(list) = image
            .sectors
            .get(BASE.saturating_add(offset / 512) as usize)
        else {
            return NONE;
        };
        let mut front = [0; 32];
        front.copy_from_slice(&list[..32]);
        match read_list(&front, header.order, header.blhdr) {
            Some(head) => {
                homes = homes.saturating_add(u64::from(head.entries).saturating_sub(1));
                at = at.saturating_add(u64::from(head.used));
            }
            None => return NONE,
        }
    }
    Live {
        text: end.saturating_sub(header.start) / 512,
        homes,
    }
}

/// What the first crash leaves that has a live list, of a run that makes a folder.
fn live_image(alloc: Global) -> Result<MemImage, OutOfMemory> {
    let start = fresh_few(alloc)?;
    let mut whole = Few::over(alloc, &start)?;
    run_lines(alloc, &mut whole, b"mkdir /d0\n")?;
    for call in 0..whole.rig.calls() {
        if whole.rig.wrote(call) {
            let mut disk = Few::over(alloc, &start)?;
            disk.rig.stop_after(call.saturating_add(1));
            let ran = run_lines(alloc, &mut disk, b"mkdir /d0\n")?;
            let image = disk.rig.image(alloc, 1)?;
            if ran.lines == 0 && 1 < live_lists(&image).homes {
                if has_folder(alloc, &image)? {
                    return Ok(image);
                }
            }
        }
    }
    Ok(start)
}

// Whether a mount finds the folder.
fn has_folder(alloc: Global, image: &MemImage) -> Result<bool, OutOfMemory> {
    match told_by(alloc, image, b"ls /\n")? {
        Some(told) => Ok(told.as_slice() == b"ok 1 d0/\n".as_slice()),
        None => Ok(false),
    }
}

/// The disk of an image, whose mount stopped after half of the home sectors of its replay. Before them the replay writes
/// the volume header, the info block, the journal header and the lists again, and calls a barrier.
fn stopped_half_way(alloc: Global, image: &MemImage) -> Result<Few, OutOfMemory> {
    let live = live_lists(image);
    let half = live.text.saturating_add(4).saturating_add(live.homes / 2);
    let mut whole = Few::over(alloc, image)?;
    run_lines(alloc, &mut whole, b"")?;
    let mut disk = Few::over(alloc, image)?;
    let mut written: u64 = 0;
    for call in 0..whole.rig.calls() {
        if whole.rig.wrote(call) {
            written = written.saturating_add(1);
            if written == half {
                disk.rig.stop_after(call.saturating_add(1));
            }
        }
    }
    run_lines(alloc, &mut disk, b"")?;
    Ok(disk)
}

/// Whether a replay that is stopped half way, and stopped half way again, leaves its folder by this choice.
pub fn is_replayed_after_two_stops(alloc: Global, choice: u64) -> Result<bool, OutOfMemory> {
    let live = live_image(alloc)?;
    let once = stopped_half_way(alloc, &live)?.rig.image(alloc, choice)?;
    let twice = stopped_half_way(alloc, &once)?.rig.image(alloc, choice)?;
    let is_live = 1 < live_lists(&live).homes
        && 1 < live_lists(&once).homes
        && 1 < live_lists(&twice).homes;
    Ok(is_live && has_folder(alloc, &twice)?)
}
