//! Power fails after each call of a commit: a mount finds all of the sectors old, or all of them new.
use crate::mounted::Mounted;
use crate::quiet::Quiet;
use crate::volumes::{disk_of, volume};
use hx_bytes::OutOfMemory;
use mem_disk::{MemImage, MemRig};
use std::alloc::Global;

/// The first sector that the transactions put, behind the journal.
pub const FIRST: u64 = 600;

/// A transaction that puts this byte into so many sectors, and how many calls were made before its commit and
/// after it.
#[derive(Clone, Copy)]
struct Made {
    before: u64,
    after: u64,
}

/// Mounts an image with calls that stop, puts a byte into so many sectors, and commits.
fn transact(
    alloc: Global,
    image: &MemImage,
    stop: u64,
    count: u64,
    byte: u8,
) -> Result<(MemRig, Made), OutOfMemory> {
    let mut disk = disk_of(alloc, image)?;
    disk.rig.stop_after(stop);
    let mut made = Made {
        before: 0,
        after: 0,
    };
    if let Some(mut store) = Mounted::mount(alloc, &mut disk)? {
        put_all(alloc, &mut store, &mut disk, count, byte)?;
        made.before = disk.rig.calls();
        let _committed = store.commit(&mut disk);
        made.after = disk.rig.calls();
    }
    Ok((disk.rig, made))
}

/// Puts a byte into so many sectors, and keeps them.
pub fn put_all(
    alloc: Global,
    store: &mut Mounted,
    disk: &mut Quiet,
    count: u64,
    byte: u8,
) -> Result<(), OutOfMemory> {
    store.begin(alloc, count)?;
    for k in 0..count {
        store.put(disk, FIRST.saturating_add(k), byte);
    }
    store.keep();
    Ok(())
}

/// The byte of which so many sectors are full once an image is mounted, or 255 where they differ or there is no
/// mount.
pub fn byte_of(alloc: Global, image: &MemImage, count: u64) -> Result<u8, OutOfMemory> {
    let mut disk = disk_of(alloc, image)?;
    let Some(mut store) = Mounted::mount(alloc, &mut disk)? else {
        return Ok(255);
    };
    let byte = store.byte(&mut disk, FIRST);
    for k in 1..count {
        if store.byte(&mut disk, FIRST.saturating_add(k)) != byte {
            return Ok(255);
        }
    }
    Ok(byte)
}

/// How many images were tried, how many of them had the new sectors, and whether one had neither.
#[derive(Clone, Copy)]
pub struct Tried {
    pub images: u64,
    pub new: u64,
    pub wrong: bool,
}

/// All crashes of a commit of so many sectors over an image that has the byte 1 there: after each call that wrote.
pub fn try_all(alloc: Global, count: u64) -> Result<Tried, OutOfMemory> {
    let (rig, _) = transact(alloc, &volume(alloc)?, u64::MAX, count, 1)?;
    let old = rig.image(alloc, 1)?;
    let (whole, made) = transact(alloc, &old, u64::MAX, count, 2)?;
    let mut tried = Tried {
        images: 0,
        new: 0,
        wrong: false,
    };
    for call in made.before..made.after {
        if whole.wrote(call) {
            let (rig, _) = transact(alloc, &old, call.saturating_add(1), count, 2)?;
            try_images(alloc, &rig, count, &mut tried)?;
        }
    }
    Ok(tried)
}

/// The images of a disk, by each choice.
fn try_images(
    alloc: Global,
    rig: &MemRig,
    count: u64,
    tried: &mut Tried,
) -> Result<(), OutOfMemory> {
    for choice in 0..8u64 {
        let image = rig.image(alloc, choice)?;
        tried.images = tried.images.saturating_add(1);
        match byte_of(alloc, &image, count)? {
            1 => {}
            2 => tried.new = tried.new.saturating_add(1),
            _ => tried.wrong = true,
        }
    }
    Ok(())
}

/// The images of a disk on which a commit of so many sectors ended well.
pub fn try_committed(alloc: Global, count: u64) -> Result<Tried, OutOfMemory> {
    let (rig, _) = transact(alloc, &volume(alloc)?, u64::MAX, count, 1)?;
    let old = rig.image(alloc, 1)?;
    let (rig, _) = transact(alloc, &old, u64::MAX, count, 2)?;
    let mut tried = Tried {
        images: 0,
        new: 0,
        wrong: false,
    };
    try_images(alloc, &rig, count, &mut tried)?;
    Ok(tried)
}

/// The images of a disk for which so many sectors were put, and not committed.
pub fn try_put(alloc: Global, count: u64) -> Result<Tried, OutOfMemory> {
    let (rig, _) = transact(alloc, &volume(alloc)?, u64::MAX, count, 1)?;
    let old = rig.image(alloc, 1)?;
    let mut disk = disk_of(alloc, &old)?;
    let mut tried = Tried {
        images: 0,
        new: 0,
        wrong: false,
    };
    if let Some(mut store) = Mounted::mount(alloc, &mut disk)? {
        put_all(alloc, &mut store, &mut disk, count, 2)?;
        try_images(alloc, &disk.rig, count, &mut tried)?;
    }
    Ok(tried)
}
