//! A mounted volume: its store, over a disk that is handed in.
ghost use Rattle.jnl_replay.specs.Plan.{FitsPlan};
ghost use Rattle.jnl_store.specs.Store.{plan_of};

use crate::quiet::Quiet;
use hx_bytes::OutOfMemory;
use jnl_replay::replay;
use jnl_store::{Space, Store, StoreFault};
use sector_disk::{SectorDisk, SectorSpace, SectorView};
use std::alloc::Global;
use test_kit::find_plan;

/// The sectors of the volumes that are mounted.
pub const SECTORS: u64 = 2048;

/// The store of a volume of 2,048 sectors. Its calls do nothing over a disk of another size.
#[derive(Drop)]
pub struct Mounted {
    store: Store,
    ghost fits: { FitsPlan 2048 (plan_of store) },
}

impl Mounted {
    /// Mounts the volume of a disk, with no slot for sectors. There is none where its journal is refused, or the disk
    /// fails.
    pub fn mount(alloc: Global, disk: &mut Quiet) -> Result<Option<Mounted>, OutOfMemory> {
        Mounted::mount_with(alloc, disk, 0)
    }

    /// Mounts the volume of a disk, with so many slots: its journal is replayed.
    pub fn mount_with(
        alloc: Global,
        disk: &mut Quiet,
        slots: u32,
    ) -> Result<Option<Mounted>, OutOfMemory> {
        if disk.sectors() != SECTORS {
            return Ok(None);
        }
        let plan = match find_plan(disk) {
            Ok(plan) => plan,
            Err(_) => return Ok(None),
        };
        match replay(disk, &plan) {
            Ok(()) => {}
            Err(_) => return Ok(None),
        }
        let store = Store::attach(alloc, &plan, slots)?;
        Ok(Some(Mounted { store }))
    }

    /// The largest number of sectors of one transaction.
    pub fn capacity(&self) -> u64 {
        self.store.capacity()
    }

    /// How many sectors were put since the last commit.
    pub fn pending(&self) -> u64 {
        self.store.pending()
    }

    /// Begins a command that puts so many sectors.
    pub fn begin(&mut self, alloc: Global, sectors: u64) -> Result<(), OutOfMemory> {
        self.store.begin(alloc, sectors)
    }

    pub fn keep(&mut self) {
        self.store.keep();
    }

    pub fn undo(&mut self) {
        self.store.undo();
    }

    /// How many sectors more may be put.
    pub fn spare(&mut self, disk: &mut Quiet) -> u64 {
        let space = Space {
            store: &mut self.store,
            disk,
        };
        space.spare()
    }

    /// Puts a sector full of this byte, where there is room.
    pub fn put(&mut self, disk: &mut Quiet, at: u64, byte: u8) {
        let mut space = Space {
            store: &mut self.store,
            disk,
        };
        if at < space.sectors() && 0 < space.spare() {
            space.put(at, &[byte; 512]);
        }
    }

    /// Spills a sector full of this byte, and answers whether the disk took it.
    pub fn spill(&mut self, disk: &mut Quiet, at: u64, byte: u8) -> bool {
        let mut space = Space {
            store: &mut self.store,
            disk,
        };
        at != 2 && at < space.sectors() && space.spill(at, &[byte; 512]).is_ok()
    }

    /// The byte of which a sector is full, or 255 where it isn't full of one, or the disk fails.
    pub fn byte(&mut self, disk: &mut Quiet, at: u64) -> u8 {
        let mut space = Space {
            store: &mut self.store,
            disk,
        };
        let mut sector = [0; 512];
        if at < space.sectors() && space.get(at, &mut sector).is_ok() {
            let byte = sector[0];
            if sector == [byte; 512] {
                return byte;
            }
        }
        255
    }

    /// Commits what was put, where it fits a transaction.
    pub fn commit(&mut self, disk: &mut Quiet) -> Option<Result<(), StoreFault>> {
        if disk.sectors() != SECTORS {
            return None;
        }
        if self.store.pending() > self.store.capacity() {
            return None;
        }
        Some(self.store.commit(disk))
    }

    /// Writes the live sectors home.
    pub fn checkpoint(&mut self, disk: &mut Quiet) -> Option<Result<(), StoreFault>> {
        if disk.sectors() != SECTORS {
            return None;
        }
        Some(self.store.checkpoint(disk))
    }
}
