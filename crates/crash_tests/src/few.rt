//! A disk of which only the sectors are kept that a volume with few bytes of files uses.
ghost use Rattle.std.specs.Prelude.{◌<◌, IfSome};
ghost use Rattle.mem_disk.specs.MemRig.{rig_state};

use hx_bytes::{Failed, OutOfMemory, Sector};
use mem_disk::{MemImage, MemRig};
use sector_disk::{Rig, SectorDisk};
use std::alloc::Global;
use test_kit::{fresh, put};

/// How many sectors the disk shows.
const SHOWN: u64 = 16_384;

/// How many sectors are kept in front: up to the end of the catalog, and the next 32 blocks, which files take first.
const FRONT: u64 = 3_096;

/// The same, up to 256 blocks more than those 32.
const LONG_FRONT: u64 = FRONT + 2_048;

/// The sector of the alternate volume header, which is kept behind them.
const ALTERNATE: u64 = 16_382;

/// A disk that keeps only the first sectors that it shows, and the alternate volume header behind them. A call on another sector fails. It tells
/// nothing; what happens to it is seen in its rig.
#[derive(Drop)]
pub struct Few {
    pub rig: MemRig,
    faults: u64,
    sink_faults: u64,
    barriers: u64,
}

/// Where a sector is kept, where so many are kept in front.
fn place_of(at: u64, front: u64) -> Option<u64> {
    if at < front {
        return Some(at);
    }
    if at == ALTERNATE { Some(front) } else { None }
}

/// The kept sectors of the volume that `format` makes.
pub fn fresh_few(alloc: Global) -> Result<MemImage, OutOfMemory> {
    fresh_front(alloc, FRONT)
}

/// The same, with room for a file of 256 blocks.
pub fn fresh_long(alloc: Global) -> Result<MemImage, OutOfMemory> {
    fresh_front(alloc, LONG_FRONT)
}

// The volume that `format` makes, of which so many sectors are kept in front.
fn fresh_front(alloc: Global, front: u64) -> Result<MemImage, OutOfMemory> {
    let whole = fresh(alloc)?;
    let mut rig = MemRig::new(alloc, front.saturating_add(1))?;
    for (at, sector) in whole.sectors.iter().enumerate() {
        if let Some(place) = place_of(at as u64, front) {
            put(&mut rig, place, sector);
        }
    }
    rig.image(alloc, 1)
}

impl Few {
    /// The disk with these sectors kept, and nothing pending.
    pub fn over(alloc: Global, kept: &MemImage) -> Result<Few, OutOfMemory> {
        Ok(Few {
            rig: MemRig::from_image(alloc, kept)?,
            faults: 0,
            sink_faults: 0,
            barriers: 0,
        })
    }

    /// The place of a sector that is kept.
    fn find(&self, at: u64) -> Option<u64>
        ensures { IfSome result (λ place. place < (rig_state self.now.rig).sectors) }
    {
        match place_of(at, self.rig.sectors().saturating_sub(1)) {
            Some(place) if place < self.rig.sectors() => Some(place),
            _ => None,
        }
    }
}

impl SectorDisk for Few {
    ghost use Rattle.crash_tests.specs.declared.few.TheConstants.{SHOWN};
    ghost use Rattle.crash_tests.specs.Untold.{untold, untold_is_disk};

    ghost state = { λ few. untold SHOWN few.faults few.sink_faults few.barriers };

    ghost well_formed = { λ few. untold_is_disk SHOWN few.faults few.sink_faults few.barriers };

    ghost only_now = { λ few image told left. absurd left };

    ghost counts_now = { λ few moment image tells. absurd (Prim.cc tells) };

    fn sectors(&self) -> u64 {
        SHOWN
    }

    fn read(&mut self, at: u64, into: &mut Sector) -> Result<(), Failed> {
        if let Some(place) = self.find(at) {
            if let Ok(()) = self.rig.read(place, into) {
                return Ok(());
            }
        }
        self.faults = self.faults.saturating_add(1);
        Err(Failed)
    }

    fn write(&mut self, at: u64, from: &Sector) -> Result<(), Failed> {
        if let Some(place) = self.find(at) {
            if let Ok(()) = self.rig.write(place, from) {
                return Ok(());
            }
        }
        self.faults = self.faults.saturating_add(1);
        Err(Failed)
    }

    fn barrier(&mut self) -> Result<(), Failed> {
        match self.rig.barrier() {
            Ok(()) => {
                self.barriers = self.barriers.saturating_add(1);
                Ok(())
            }
            Err(failed) => {
                self.faults = self.faults.saturating_add(1);
                Err(failed)
            }
        }
    }

    fn fail(&mut self) -> Failed {
        self.faults = self.faults.saturating_add(1);
        Failed
    }
}

impl Rig for Few {
    fn tell(&mut self, bytes: &[u8]) -> Result<usize, Failed> {
        match self.rig.tell(bytes) {
            Ok(count) => {
                if count == 0 {
                    self.sink_faults = self.sink_faults.saturating_add(1);
                }
                Ok(count)
            }
            Err(failed) => {
                self.sink_faults = self.sink_faults.saturating_add(1);
                Err(failed)
            }
        }
    }
}
