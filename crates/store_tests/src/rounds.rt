//! Transactions that go round the ring: many lists are live, and some wrap.
use crate::commits::{FIRST, Tried, byte_of, put_all};
use crate::mounted::Mounted;
use crate::quiet::Quiet;
use crate::volumes::{disk_of, volume};
use hx_bytes::OutOfMemory;
use mem_disk::{MemImage, MemRig};
use std::alloc::Global;

// Which calls of a mount are tried: one of so many that wrote, from one of its first three on.
const STEP: u64 = 41;

/// Transactions in a row, over a ring on which some were made before it was mounted.
#[derive(Clone, Copy)]
pub struct Rounds {
    /// How many transactions an earlier mount made.
    pub before: u8,
    /// How many this one makes. The last is tried.
    pub count: u8,
    /// How many sectors each of them puts.
    pub sectors: u64,
}

impl Rounds {
    // The byte of the last transaction. The first of all has the byte 1.
    fn last(&self) -> u8 {
        self.before.saturating_add(self.count)
    }

    fn first(&self) -> u8 {
        self.before.saturating_add(1)
    }
}

/// Mounts a disk and makes a transaction for each byte from the first to the last. Answers the byte of the last one that was committed, and
/// how many calls were made before it and after it.
fn make(
    alloc: Global,
    disk: &mut Quiet,
    first: u8,
    last: u8,
    sectors: u64,
) -> Result<(u8, u64, u64), OutOfMemory> {
    let Some(mut store) = Mounted::mount(alloc, disk)? else {
        return Ok((0, 0, 0));
    };
    let mut done = 0;
    let mut before = 0;
    for byte in first..=last {
        put_all(alloc, &mut store, disk, sectors, byte)?;
        before = disk.rig.calls();
        match store.commit(disk) {
            Some(Ok(())) => done = byte,
            _ => return Ok((done, before, disk.rig.calls())),
        }
    }
    Ok((done, before, disk.rig.calls()))
}

/// A volume on which an earlier mount made these transactions.
fn worn(alloc: Global, rounds: &Rounds) -> Result<MemImage, OutOfMemory> {
    let mut disk = disk_of(alloc, &volume(alloc)?)?;
    make(alloc, &mut disk, 1, rounds.before, rounds.sectors)?;
    disk.rig.image(alloc, 1)
}

/// All crashes of the last of these transactions, and a second crash inside the replay of what each of them left. The
/// images must have the last transaction whole, or the one before it.
pub fn try_rounds(alloc: Global, rounds: &Rounds) -> Result<Tried, OutOfMemory> {
    let start = worn(alloc, rounds)?;
    let mut whole = disk_of(alloc, &start)?;
    let (last, before, after) = make(
        alloc,
        &mut whole,
        rounds.first(),
        rounds.last(),
        rounds.sectors,
    )?;
    let mut tried = Tried {
        images: 0,
        new: 0,
        wrong: last != rounds.last(),
    };
    for call in before..after {
        if whole.rig.wrote(call) {
            let mut disk = disk_of(alloc, &start)?;
            disk.rig.stop_after(call.saturating_add(1));
            make(
                alloc,
                &mut disk,
                rounds.first(),
                rounds.last(),
                rounds.sectors,
            )?;
            try_images(alloc, &disk.rig, rounds, &mut tried)?;
        }
    }
    Ok(tried)
}

// The images of a disk, by each choice.
fn try_images(
    alloc: Global,
    rig: &MemRig,
    rounds: &Rounds,
    tried: &mut Tried,
) -> Result<(), OutOfMemory> {
    for choice in 0..8u64 {
        let image = rig.image(alloc, choice)?;
        let byte = byte_of(alloc, &image, rounds.sectors)?;
        tried.images = tried.images.saturating_add(1);
        if byte == rounds.last() {
            tried.new = tried.new.saturating_add(1);
        } else if byte != rounds.last().saturating_sub(1) {
            tried.wrong = true;
        }
        if !is_replayed_again(alloc, &image, choice, rounds.sectors, byte)? {
            tried.wrong = true;
        }
    }
    Ok(())
}

// Whether a mount of this image that stops leaves the same byte, after each of some of its calls that wrote.
fn is_replayed_again(
    alloc: Global,
    image: &MemImage,
    choice: u64,
    sectors: u64,
    byte: u8,
) -> Result<bool, OutOfMemory> {
    let mut whole = disk_of(alloc, image)?;
    let _mounted = Mounted::mount(alloc, &mut whole)?;
    let mut nth = choice % 3;
    for call in 0..whole.rig.calls() {
        if whole.rig.wrote(call) {
            nth = nth.wrapping_add(1);
            if nth % STEP == 3 && stopped(alloc, image, call, choice, sectors)? != byte {
                return Ok(false);
            }
        }
    }
    Ok(true)
}

// The byte that a mount of this image leaves that stops after this call.
fn stopped(
    alloc: Global,
    image: &MemImage,
    call: u64,
    choice: u64,
    sectors: u64,
) -> Result<u8, OutOfMemory> {
    let mut disk = disk_of(alloc, image)?;
    disk.rig.stop_after(call.saturating_add(1));
    let _stopped = Mounted::mount(alloc, &mut disk)?;
    let left = disk.rig.image(alloc, choice)?;
    byte_of(alloc, &left, sectors)
}

/// How many device calls ten reads of the same hundred sectors make, of a store with so many slots.
pub fn calls_of_reads(alloc: Global, slots: u32) -> Result<u64, OutOfMemory> {
    let mut disk = disk_of(alloc, &volume(alloc)?)?;
    let Some(mut store) = Mounted::mount_with(alloc, &mut disk, slots)? else {
        return Ok(0);
    };
    let before = disk.rig.calls();
    for _ in 0..10 {
        for at in 300..400 {
            let _byte = store.byte(&mut disk, at);
        }
    }
    Ok(disk.rig.calls().saturating_sub(before))
}

/// Makes so many transactions of one sector, one after another, over one mount of a volume whose lists have headers of so
/// many sectors. Answers how many were committed and read back, and how many were checkpointed: their commit made more
/// calls than a write for each sector of the list, a read and a write of the journal header, and two barriers.
pub fn many_batches(
    alloc: Global,
    image: &MemImage,
    header: u64,
    count: u64,
) -> Result<(u64, u64), OutOfMemory> {
    let mut disk = disk_of(alloc, image)?;
    let Some(mut store) = Mounted::mount(alloc, &mut disk)? else {
        return Ok((0, 0));
    };
    let mut done: u64 = 0;
    let mut long: u64 = 0;
    for k in 0..count {
        let (calls, is_there) = make_one(alloc, &mut store, &mut disk, (k % 250) as u8)?;
        if is_there {
            done = done.saturating_add(1);
        }
        if header.saturating_add(5) < calls {
            long = long.saturating_add(1);
        }
    }
    Ok((done, long))
}

// One transaction: how many calls its commit made, and whether its sector is there.
fn make_one(
    alloc: Global,
    store: &mut Mounted,
    disk: &mut Quiet,
    byte: u8,
) -> Result<(u64, bool), OutOfMemory> {
    put_all(alloc, store, disk, 1, byte)?;
    let before = disk.rig.calls();
    let committed = matches!(store.commit(disk), Some(Ok(())));
    let calls = disk.rig.calls().saturating_sub(before);
    Ok((calls, committed && store.byte(disk, FIRST) == byte))
}
