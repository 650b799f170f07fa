//! A mounted volume: its store, over a disk that is handed in, which doesn't tell what it holds.
ghost use Rattle.std.specs.Prelude.{IsTrue};
ghost use Rattle.jnl_replay.specs.Plan.{FitsPlan};
ghost use Rattle.jnl_store.specs.Store.{plan_of};

use crate::volume::{PLACE, SECTORS};
use hx_bytes::OutOfMemory;
use jnl_replay::{Plan, replay, validate};
use jnl_store::{Space, Store};
use sector_disk::{SectorDisk, SectorSpace, SectorView};
use std::alloc::Global;

/// The store of the volume. Its calls do nothing over a disk of another size.
#[derive(Drop)]
pub struct Mounted {
    store: Store,
    ghost fits: { FitsPlan 524288 (plan_of store) },
}

impl Mounted {
    /// Mounts the volume of a disk, with so many slots: its journal is replayed. There is none where its journal is
    /// refused, or the disk fails.
    pub fn mount<D: SectorDisk>(
        alloc: Global,
        disk: &mut D,
        slots: u32,
    ) -> Result<Option<Mounted>, OutOfMemory>
        requires { IsTrue (D.state disk.old).tells → ⊥ }
    {
        if disk.sectors() != SECTORS {
            return Ok(None);
        }
        let plan = match validate(disk, &PLACE) {
            Ok(plan) => plan,
            Err(_) => return Ok(None),
        };
        match replay(disk, &plan) {
            Ok(()) => {}
            Err(_) => return Ok(None),
        }
        let mounted = Mounted::attach(alloc, &plan, slots)?;
        Ok(Some(mounted))
    }

    // The store of a volume whose journal was replayed.
    fn attach(alloc: Global, plan: &Plan, slots: u32) -> Result<Mounted, OutOfMemory>
        requires { FitsPlan 524288 plan.now }
    {
        let store = Store::attach(alloc, plan, slots)?;
        Ok(Mounted { store })
    }

    /// Begins a transaction that puts so many sectors.
    pub fn begin(&mut self, alloc: Global, sectors: u64) -> Result<(), OutOfMemory> {
        self.store.begin(alloc, sectors)
    }

    pub fn keep(&mut self) {
        self.store.keep();
    }

    /// Puts a sector full of this byte, where there is room.
    pub fn put<D: SectorDisk>(&mut self, disk: &mut D, at: u64, byte: u8)
        requires { IsTrue (D.state disk.old).tells → ⊥ }
    {
        let mut space = Space {
            store: &mut self.store,
            disk,
        };
        if at < space.sectors() && 0 < space.spare() {
            space.put(at, &[byte; 512]);
        }
    }

    /// The byte of which a sector is full, or 255 where it isn't full of one, or the disk fails.
    pub fn byte<D: SectorDisk>(&mut self, disk: &mut D, at: u64) -> u8
        requires { IsTrue (D.state disk.old).tells → ⊥ }
    {
        let mut space = Space {
            store: &mut self.store,
            disk,
        };
        let mut sector = [0; 512];
        if at < space.sectors() && space.get(at, &mut sector).is_ok() {
            let byte = sector[0];
            if sector == [byte; 512] {
                return byte;
            }
        }
        255
    }

    /// Commits what was put, and says whether it was.
    pub fn commit<D: SectorDisk>(&mut self, disk: &mut D) -> bool
        requires { IsTrue (D.state disk.old).tells → ⊥ }
    {
        if disk.sectors() != SECTORS {
            return false;
        }
        if self.store.pending() > self.store.capacity() {
            return false;
        }
        self.store.commit(disk).is_ok()
    }
}
