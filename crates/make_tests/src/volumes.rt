//! Disks in memory, and volumes made on them.
use hfs_model::ascii;
use hx_bytes::{OutOfMemory, Sector, Units};
use mem_disk::MemRig;
use sector_disk::SectorDisk;
use std::alloc::Global;
use volume_make::{FormatFault, Summary, format};

/// What every byte of a disk is before a volume is made on it.
pub const OLD: u8 = 0xA5;

/// A disk of so many sectors that something else was on.
pub fn used_disk(alloc: Global, sectors: u64) -> Result<MemRig, OutOfMemory> {
    let mut rig = MemRig::new(alloc, sectors)?;
    for at in 0..sectors {
        fill(&mut rig, at);
    }
    let _settled = rig.barrier();
    Ok(rig)
}

fn fill(rig: &mut MemRig, at: u64) {
    if at < rig.sectors() {
        let _written = rig.write(at, &[OLD; 512]);
    }
}

/// What a sector of the disk holds.
pub fn sector_of(rig: &mut MemRig, at: u64) -> Sector {
    let mut sector = [0; 512];
    if at < rig.sectors() {
        let _read = rig.read(at, &mut sector);
    }
    sector
}

/// Whether a sector has these bytes from a place on.
pub fn has_bytes(rig: &mut MemRig, at: u64, place: usize, bytes: &[u8]) -> bool {
    let sector = sector_of(rig, at);
    place <= 512 && sector[place..].starts_with(bytes)
}

/// The answer of a format with an ASCII name.
pub fn formatted(
    alloc: Global,
    rig: &mut MemRig,
    block: u32,
    journal: u64,
    name: &str,
) -> Result<Result<Summary, FormatFault>, OutOfMemory> {
    let units = ascii(alloc, name)?;
    Ok(format(alloc, rig, block, journal, &units))
}

/// A name of so many units.
pub fn long_name(alloc: Global, units: u16) -> Result<Units, OutOfMemory> {
    let mut name: Vec<u16> = Vec::new(alloc);
    for unit in 0..units {
        name.push(0x61 + unit % 26)?;
    }
    Ok(Units::from_vec(name))
}
