//! Volumes whose counts are wrong.
use crate::sectors::set_bytes;
use mem_disk::MemRig;

/// Sets the bit of the unused block 2,000 of a new volume, and has its header count 7 free blocks.
pub fn miscount(rig: &mut MemRig) {
    set_bytes(rig, 8, 250, &[0x80]);
    set_bytes(rig, 2, 48, &[0, 0, 0, 7]);
}
