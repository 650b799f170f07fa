//! Volumes in memory, which tell nothing to proofs, and what a check says of them.
ghost use Rattle.std.specs.Prelude.{length};

use fsck_core::{Verdict, check};
use fsck_list::Finding;
use hfs_model::ascii;
use hfs_volume::Summary;
use hx_bytes::{OutOfMemory, Sector, Trouble};
use mem_disk::MemRig;
use sector_disk::{SectorDisk, SectorView};
use sector_kit::Sectors;
use std::alloc::Global;
use std::process::Abort;
use volume_make::format;

/// The sectors of a volume that is made for a test.
pub const SECTORS: u64 = 16_384;

/// What a sector of a disk holds.
fn sector_of(rig: &mut MemRig, at: u64) -> Sector {
    let mut sector = [0; 512];
    if at < rig.sectors() {
        let _read = rig.read(at, &mut sector);
    }
    sector
}

/// A volume as `format` makes it, with blocks of so many bytes and a journal of so many sectors; without a sector where it is refused.
pub fn made(alloc: Global, block: u32, journal: u64) -> Result<Sectors, OutOfMemory> {
    let mut list = Vec::new(alloc);
    let mut rig = MemRig::new(alloc, SECTORS)?;
    let name = ascii(alloc, "a")?;
    if format(alloc, &mut rig, block, journal, &name).is_err() {
        return Ok(Sectors::new(list));
    }
    for at in 0..SECTORS {
        list.push(sector_of(&mut rig, at))?;
    }
    Ok(Sectors::new(list))
}

/// A byte of a volume that was changed, and what it was.
#[derive(Clone, Copy)]
pub struct Was {
    at: usize,
    byte: u8,
}

fn put(view: &mut Sectors, at: usize, byte: u8) -> u8 {
    let Some(sector) = view.list.get_mut(at / 512) else {
        return 0;
    };
    let Some(place) = sector.get_mut(at % 512) else {
        return 0;
    };
    let was = *place;
    *place = byte;
    was
}

/// Bytes, and the place in a volume where they are put.
pub type Patch = (usize, &'static [u8]);

/// Puts bytes into a volume, and tells those that stood there.
pub fn damage(
    alloc: Global,
    view: &mut Sectors,
    patches: &[Patch],
) -> Result<Vec<Was>, OutOfMemory> {
    let mut were = Vec::new(alloc);
    for (start, bytes) in patches {
        for (k, byte) in bytes.iter().enumerate() {
            let at = start.wrapping_add(k);
            let was = put(view, at, *byte);
            were.push(Was { at, byte: was })?;
        }
    }
    Ok(were)
}

/// Puts bytes into a volume.
pub fn put_bytes(view: &mut Sectors, start: usize, bytes: &[u8]) {
    for (k, byte) in bytes.iter().enumerate() {
        let _was = put(view, start.wrapping_add(k), *byte);
    }
}

/// Puts back what stood there.
pub fn mend(view: &mut Sectors, were: &[Was]) {
    for was in were.iter().rev() {
        let _now = put(view, was.at, was.byte);
    }
}

/// What a sector of a volume holds.
pub fn read_bytes(view: &Sectors, at: u32) -> Sector {
    match view.list.get(at as usize) {
        Some(sector) => *sector,
        None => [0; 512],
    }
}

/// Writes a sector of a volume.
pub fn write_sector(view: &mut Sectors, at: u32, from: &Sector) {
    if let Some(sector) = view.list.get_mut(at as usize) {
        *sector = *from;
    }
}

/// What a check says, if the volume has as many sectors as volumes have.
pub fn checked(alloc: Global, view: &mut Sectors) -> Result<Option<Verdict>, OutOfMemory> {
    if view.sectors() != SECTORS {
        return Ok(None);
    }
    match check(alloc, view) {
        Ok(verdict) => Ok(Some(verdict)),
        Err(Trouble::Memory) => Err(OutOfMemory),
        Err(Trouble::Disk) => Ok(None),
    }
}

/// A rule, a place, what is found there, and what is wanted.
pub type Numbers = (u8, u64, u64, u64);

fn numbers(finding: &Finding) -> Numbers {
    (finding.rule, finding.place, finding.found, finding.wanted)
}

/// Asserts that these are the findings, and that there is one at least.
pub fn finds(rt: &impl Abort, verdict: &Option<Verdict>, want: &[Numbers], case: &str) {
    let Some(Verdict::Findings(out)) = verdict else {
        assert!(rt; false, "{case}: nothing found");
        return;
    };
    for (have, numbers_wanted) in out.as_slice().iter().zip(want) {
        assert_eq!(rt; numbers(have), *numbers_wanted, "{case}");
    }
    assert_eq!(rt; out.len(), want.len(), "{case}");
}

/// Asserts that the volume is sound, and has these numbers.
pub fn is_clean(rt: &impl Abort, verdict: &Option<Verdict>, want: Summary, case: &str) {
    let Some(Verdict::Clean(summary)) = verdict else {
        assert!(rt; false, "{case}: not clean");
        return;
    };
    assert_eq!(rt; *summary, want, "{case}");
}

/// Whether the volume was sound.
pub fn says_clean(verdict: &Option<Verdict>) -> bool {
    match verdict {
        Some(Verdict::Clean(_)) => true,
        Some(Verdict::Findings(_)) => false,
        None => false,
    }
}
