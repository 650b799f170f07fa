//! Calls of a store as a table, and what they answer.
use crate::mounted::Mounted;
use crate::quiet::Quiet;
use crate::volumes::{disk_of, volume};
use hx_bytes::OutOfMemory;
use jnl_store::StoreFault;
use std::alloc::Global;

/// A call of a store or of its space, or what is asked of them. A put and a spill fill a sector with a byte.
#[derive(Clone, Copy)]
pub enum Step {
    Begin(u64),
    Put(u64, u8),
    Spill(u64, u8),
    Keep,
    Undo,
    Commit,
    Checkpoint,
    /// The byte of which a sector is full.
    Byte(u64),
    /// The first byte of a sector's oldest candidate.
    Oldest(usize),
    /// Whether so many sectors more may be put.
    HasSpare(u64),
    Pending,
    Capacity,
    /// The device call so many calls from now fails.
    Fail(u64),
}

#[derive(Clone, Copy, Debug, PartialEq, Eq)]
pub enum Answer {
    Done,
    Disk,
    Failed(u64),
    Number(u64),
    /// There was no call.
    Nothing,
}

/// Whether these steps, on a new volume, get these answers.
pub fn answers_are(alloc: Global, steps: &[Step], wanted: &[Answer]) -> Result<bool, OutOfMemory> {
    let mut answers = Vec::new(alloc);
    play(alloc, steps, &mut answers)?;
    Ok(answers.as_slice() == wanted)
}

/// How many device calls the last of these steps makes, on a new volume.
pub fn calls_of_last(alloc: Global, steps: &[Step]) -> Result<u64, OutOfMemory> {
    let mut answers = Vec::new(alloc);
    play(alloc, steps, &mut answers)
}

// Adds each step's answer, and gives the number of device calls of the last.
fn play(alloc: Global, steps: &[Step], answers: &mut Vec<Answer>) -> Result<u64, OutOfMemory> {
    let mut disk = disk_of(alloc, &volume(alloc)?)?;
    let mut store = match Mounted::mount(alloc, &mut disk)? {
        Some(store) => store,
        None => return Ok(0),
    };
    let mut calls = 0;
    for step in steps {
        let before = disk.rig.calls();
        let answer = take(alloc, &mut store, &mut disk, *step)?;
        calls = disk.rig.calls().saturating_sub(before);
        answers.push(answer)?;
    }
    Ok(calls)
}

fn take(
    alloc: Global,
    store: &mut Mounted,
    disk: &mut Quiet,
    step: Step,
) -> Result<Answer, OutOfMemory> {
    match step {
        Step::Begin(sectors) => {
            store.begin(alloc, sectors)?;
            Ok(Answer::Done)
        }
        Step::Oldest(at) => oldest(alloc, disk, at),
        Step::Fail(calls) => {
            let call = disk.rig.calls().saturating_add(calls);
            disk.rig.fail_on(alloc, call)?;
            Ok(Answer::Done)
        }
        _ => Ok(call(store, disk, step)),
    }
}

// The calls that take no memory.
fn call(store: &mut Mounted, disk: &mut Quiet, step: Step) -> Answer {
    match step {
        Step::Commit => outcome(store.commit(disk)),
        Step::Checkpoint => outcome(store.checkpoint(disk)),
        Step::Keep => {
            store.keep();
            Answer::Done
        }
        Step::Undo => {
            store.undo();
            Answer::Done
        }
        Step::Pending => Answer::Number(store.pending()),
        Step::Capacity => Answer::Number(store.capacity()),
        _ => reach(store, disk, step),
    }
}

// The calls of the space.
fn reach(store: &mut Mounted, disk: &mut Quiet, step: Step) -> Answer {
    match step {
        Step::Put(at, byte) => {
            store.put(disk, at, byte);
            Answer::Done
        }
        Step::Spill(at, byte) => {
            if store.spill(disk, at, byte) {
                Answer::Done
            } else {
                Answer::Disk
            }
        }
        Step::Byte(at) => Answer::Number(u64::from(store.byte(disk, at))),
        Step::HasSpare(sectors) => {
            if sectors <= store.spare(disk) {
                Answer::Done
            } else {
                Answer::Nothing
            }
        }
        _ => Answer::Nothing,
    }
}

fn outcome(ended: Option<Result<(), StoreFault>>) -> Answer {
    match ended {
        Some(Ok(())) => Answer::Done,
        Some(Err(StoreFault::Disk)) => Answer::Disk,
        Some(Err(StoreFault::Failed(count))) => Answer::Failed(count),
        None => Answer::Nothing,
    }
}

fn oldest(alloc: Global, disk: &Quiet, at: usize) -> Result<Answer, OutOfMemory> {
    let image = disk.rig.image(alloc, 0)?;
    match image.sectors.get(at) {
        Some(sector) => Ok(Answer::Number(u64::from(sector[0]))),
        None => Ok(Answer::Nothing),
    }
}
