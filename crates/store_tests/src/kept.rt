//! What of a disk's writes is stable, as a system keeps it that loses pages.
use hx_bytes::{OutOfMemory, Sector};
use mem_disk::{MemImage, MemRig};
use std::alloc::Global;
use test_kit::put;

/// A write, and the number of its sector.
#[derive(Clone, Copy)]
struct Written {
    at: u64,
    bytes: Sector,
}

/// What was written since the last barrier, and what is stable of what was written before it. A barrier that answers `Ok`
/// makes stable what was written since the last barrier, whether that one answered `Ok` or not. So what was written
/// before a barrier that failed is lost, though reads go on giving it.
#[derive(Drop)]
pub struct Kept {
    since: Vec<Written>,
    stable: Vec<Written>,
    is_starved: bool,
}

impl Kept {
    /// Nothing was written.
    pub fn nothing(alloc: Global) -> Kept {
        Kept {
            since: Vec::new(alloc),
            stable: Vec::new(alloc),
            is_starved: false,
        }
    }

    /// A sector was written.
    pub fn write(&mut self, at: u64, from: &Sector) {
        if self.since.push(Written { at, bytes: *from }).is_err() {
            self.is_starved = true;
        }
    }

    /// A barrier was called, and answered so.
    pub fn barrier(&mut self, is_ok: bool) {
        if is_ok {
            for written in self.since.as_slice() {
                if self.stable.push(*written).is_err() {
                    self.is_starved = true;
                }
            }
        }
        self.since.clear();
    }

    /// What a crash leaves of a disk that began with this image.
    pub fn image(&self, alloc: Global, start: &MemImage) -> Result<MemImage, OutOfMemory> {
        if self.is_starved {
            return Err(OutOfMemory);
        }
        let mut rig = MemRig::from_image(alloc, start)?;
        for written in self.stable.as_slice() {
            put(&mut rig, written.at, &written.bytes);
        }
        rig.image(alloc, 1)
    }
}
