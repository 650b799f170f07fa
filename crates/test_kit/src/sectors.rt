//! Sectors of a disk in memory, where they lie on it.
use hx_bytes::Sector;
use mem_disk::MemRig;
use sector_disk::SectorDisk;

/// Writes a sector, if it lies on the disk.
pub fn put(rig: &mut MemRig, at: u64, sector: &Sector) {
    if at < rig.sectors() {
        let _wrote = rig.write(at, sector);
    }
}

/// Reads a sector: zeros where it doesn't lie on the disk.
pub fn sector_of(rig: &mut MemRig, at: u64) -> Sector {
    let mut sector = [0; 512];
    if at < rig.sectors() {
        let _read = rig.read(at, &mut sector);
    }
    sector
}

/// Changes the bytes of a sector from this one on, as many as fit.
pub fn set_bytes(rig: &mut MemRig, sector: u64, from: usize, bytes: &[u8]) {
    let mut changed = sector_of(rig, sector);
    for (k, byte) in bytes.iter().enumerate() {
        if from < 512 && k < 512 - from {
            changed[from + k] = *byte;
        }
    }
    put(rig, sector, &changed);
}

/// Whether a device call wrote.
pub fn has_written(rig: &MemRig) -> bool {
    (0..rig.calls()).any(|call| rig.wrote(call))
}
