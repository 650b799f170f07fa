//! A barrier that fails loses what was written before it, though reads go on giving it: what the next mount then makes of it.
use crate::commits::{byte_of, put_all};
use crate::mounted::Mounted;
use crate::quiet::Quiet;
use crate::volumes::{disk_of, volume};
use hx_bytes::OutOfMemory;
use mem_disk::MemImage;
use std::alloc::Global;

const SECTORS: u64 = 5;

// How many transactions the first mount makes, and the byte of the second mount's only one.
const FIRST: u8 = 3;

const SECOND: u8 = 9;

// How many calls of the second mount are passed over between two that are tried.
const STEP: u64 = 3;

/// What was tried.
#[derive(Clone, Copy)]
pub struct Lost {
    pub images: u64,
    /// Which call failed and after how many calls power failed where an image was wrong, if one was.
    pub wrong: Option<(u64, u64)>,
}

/// Makes transactions and a checkpoint until one fails. Answers the byte of the last one that was answered.
fn first_mount(alloc: Global, disk: &mut Quiet) -> Result<u8, OutOfMemory> {
    let Some(mut store) = Mounted::mount(alloc, disk)? else {
        return Ok(0);
    };
    let mut last = 0;
    for byte in 1..=FIRST {
        put_all(alloc, &mut store, disk, SECTORS, byte)?;
        match store.commit(disk) {
            Some(Ok(())) => last = byte,
            _ => return Ok(last),
        }
    }
    let _ended = store.checkpoint(disk);
    Ok(last)
}

/// Mounts the disk again as it reads, and makes one transaction more. Answers whether that was answered.
fn second_mount(alloc: Global, disk: &mut Quiet) -> Result<bool, OutOfMemory> {
    let Some(mut store) = Mounted::mount(alloc, disk)? else {
        return Ok(false);
    };
    put_all(alloc, &mut store, disk, SECTORS, SECOND)?;
    Ok(matches!(store.commit(disk), Some(Ok(()))))
}

/// Lets each call of a first mount fail, mounts the disk as it reads then, and lets power fail after some calls of that
/// second mount, beginning with another one for each. What was answered is there, and each transaction is whole.
pub fn try_lost(alloc: Global) -> Result<Lost, OutOfMemory> {
    let image = volume(alloc)?;
    let mut whole = disk_of(alloc, &image)?;
    first_mount(alloc, &mut whole)?;
    let mut lost = Lost {
        images: 0,
        wrong: None,
    };
    for call in 0..whole.rig.calls() {
        if whole.rig.wrote(call) {
            try_call(alloc, call, &mut lost)?;
        }
    }
    Ok(lost)
}

// This call of the first mount fails. Power fails after some calls of the second one, until that is answered.
fn try_call(alloc: Global, call: u64, lost: &mut Lost) -> Result<(), OutOfMemory> {
    let image = volume(alloc)?;
    let mut stop = call % STEP;
    for _ in 0..1000 {
        let (is_answered, is_wrong) = try_stop(alloc, &image, call, stop)?;
        lost.images = lost.images.saturating_add(1);
        if is_wrong {
            lost.wrong = Some((call, stop));
        }
        if is_answered {
            return Ok(());
        }
        stop = stop.saturating_add(STEP);
    }
    // The second mount was never answered.
    lost.wrong = Some((call, stop));
    Ok(())
}

// This call of the first mount fails, and power after so many of the second one: whether that one was answered, and
// whether what it left is wrong.
fn try_stop(
    alloc: Global,
    image: &MemImage,
    call: u64,
    stop: u64,
) -> Result<(bool, bool), OutOfMemory> {
    let mut disk = disk_of(alloc, image)?;
    disk.rig.fail_on(alloc, call)?;
    let answered = first_mount(alloc, &mut disk)?;
    let begun = disk.rig.calls();
    disk.rig.stop_after(begun.saturating_add(stop));
    let is_answered = second_mount(alloc, &mut disk)?;
    let byte = byte_of(alloc, &disk.kept.image(alloc, image)?, SECTORS)?;
    Ok((is_answered, !is_right(answered, is_answered, byte)))
}

// What was answered is there, or what was begun behind it.
fn is_right(answered: u8, is_answered: bool, byte: u8) -> bool {
    if byte == SECOND {
        return true;
    }
    if is_answered {
        return false;
    }
    answered <= byte && byte <= answered.saturating_add(1)
}
