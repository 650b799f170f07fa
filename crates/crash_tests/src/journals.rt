//! Journals that a run refuses or replays.
use hfsx_server::Status;
use hx_bytes::{Order, OutOfMemory, Sector, write_be32};
use jnl_format::{Entry, Header, ListHead, write_header, write_list};
use mem_disk::MemRig;
use std::alloc::Global;
use test_kit::{BASE, INFO, fresh, has_written, put, put_entry, run_on, sector_of};

pub const HEADER: u64 = 2;

// The journal of the volume begins in block 3, and has 2,048 sectors.
const SIZE: u64 = 1_048_576;

const HOME: u64 = 5000;

// A change of a big-endian number.
fn change(rig: &mut MemRig, at: u64, place: usize, number: u32) {
    let mut sector = sector_of(rig, at);
    if place <= 508 {
        write_be32(&mut sector, place, number);
    }
    put(rig, at, &sector);
}

fn entry(bnum: u64) -> Entry {
    Entry {
        bnum,
        bsize: 512,
        next: 0,
    }
}

/// The header of a list with a skipped block and one for sector 5000. It has 4,096 bytes, of which the first
/// sector has them all.
fn list_block() -> Sector {
    let mut sector = [0; 512];
    let head = ListHead {
        entries: 3,
        used: 5120,
        last: true,
    };
    let none = Entry {
        bnum: 0,
        bsize: 0,
        next: 0,
    };
    let mut front = [0; 32];
    write_list(&head, &none, Order::Little, 4096, &mut front);
    sector[..32].copy_from_slice(&front);
    put_entry(&mut sector, 32, &entry(u64::MAX), Order::Little);
    put_entry(&mut sector, 48, &entry(HOME), Order::Little);
    sector
}

/// A volume with a live journal, as `format` makes its header.
fn live(alloc: Global) -> Result<MemRig, OutOfMemory> {
    let mut rig = MemRig::from_image(alloc, &fresh(alloc)?)?;
    let mut head = [0; 512];
    let header = Header {
        order: Order::Little,
        start: 512,
        end: 5632,
        size: SIZE,
        blhdr: 4096,
    };
    write_header(&header, &mut head);
    put(&mut rig, BASE, &head);
    put(&mut rig, BASE + 1, &list_block());
    put(&mut rig, BASE + 9, &[1; 512]);
    put(&mut rig, BASE + 10, &[2; 512]);
    Ok(rig)
}

/// The disk again, with nothing pending and no call counted.
fn settled(alloc: Global, rig: &MemRig) -> Result<MemRig, OutOfMemory> {
    let image = rig.image(alloc, 1)?;
    MemRig::from_image(alloc, &image)
}

/// A change of a live journal, or of what leads to it.
#[derive(Clone, Copy)]
pub enum Damage {
    /// One bit of the list's checksum.
    Bit,
    /// A number in big-endian order: its sector, its place there, and its value.
    Number(u64, usize, u32),
}

/// Whether a run on a volume with this damage tells this line, ends as refused, and writes nothing.
pub fn is_refused(alloc: Global, damage: Damage, told: &str) -> Result<bool, OutOfMemory> {
    let mut rig = live(alloc)?;
    match damage {
        Damage::Bit => {
            let mut list = sector_of(&mut rig, BASE + 1);
            list[8] ^= 1;
            put(&mut rig, BASE + 1, &list);
        }
        Damage::Number(at, place, number) => change(&mut rig, at, place, number),
    }
    let mut mounted = settled(alloc, &rig)?;
    let ended = run_on(alloc, "run v.img", &mut mounted, b"ls /\n")?;
    let is_told = mounted.told() == told.as_bytes();
    Ok(ended == Status::Refused && is_told && !has_written(&mounted))
}

/// What a run tells on a volume with a live journal that still has to be initialised: such a journal counts as empty.
pub fn told_before_the_journal(alloc: Global) -> Result<Vec<u8>, OutOfMemory> {
    let mut rig = live(alloc)?;
    change(&mut rig, INFO, 0, 5);
    let mut mounted = settled(alloc, &rig)?;
    run_on(alloc, "run v.img", &mut mounted, b"ls /\n")?;
    if sector_of(&mut mounted, HOME) == [2; 512] {
        return Ok(Vec::new(alloc));
    }
    Ok(Vec::from_slice(alloc, mounted.told())?)
}

/// How many sectors outside the journal a run changes that only mounts: the block's sector has its bytes then.
pub fn changed_sectors(alloc: Global) -> Result<u64, OutOfMemory> {
    let rig = live(alloc)?;
    let mut before = settled(alloc, &rig)?;
    let mut mounted = settled(alloc, &rig)?;
    let ended = run_on(alloc, "run v.img", &mut mounted, b"ls /\n")?;
    if ended != Status::Done || mounted.told() != b"ok 0\n".as_slice() {
        return Ok(0);
    }
    if sector_of(&mut mounted, HOME) != [2; 512] {
        return Ok(0);
    }
    let mut changed: u64 = 0;
    for at in 0..16_384u64 {
        let is_journal = BASE <= at && at < BASE + 2048;
        if !is_journal && sector_of(&mut mounted, at) != sector_of(&mut before, at) {
            changed = changed.saturating_add(1);
        }
    }
    Ok(changed)
}
