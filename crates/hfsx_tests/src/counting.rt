//! A disk in memory that counts its barriers.
use hx_bytes::{Failed, Sector};
use mem_disk::MemRig;
use sector_disk::{Rig, SectorDisk};

/// A disk in memory, and how many of its barriers answered `Ok`.
#[derive(Drop)]
pub struct Counting {
    pub rig: MemRig,
    pub barriers: u64,
}

impl Counting {
    /// A disk on which no barrier was called.
    pub fn over(rig: MemRig) -> Counting {
        Counting { rig, barriers: 0 }
    }
}

impl SectorDisk for Counting {
    ghost use Rattle.mem_disk.specs.MemRig.{rig_state, rig_is_disk, rig_only_now, rig_counts_now};

    ghost state = { λ c. rig_state c.rig };

    ghost well_formed = { λ c. rig_is_disk c.rig };

    ghost only_now = { λ c. rig_only_now c.rig };

    ghost counts_now = { λ c. rig_counts_now c.rig };

    fn sectors(&self) -> u64 {
        self.rig.sectors()
    }

    fn read(&mut self, at: u64, into: &mut Sector) -> Result<(), Failed> {
        self.rig.read(at, into)
    }

    fn write(&mut self, at: u64, from: &Sector) -> Result<(), Failed> {
        self.rig.write(at, from)
    }

    fn barrier(&mut self) -> Result<(), Failed> {
        match self.rig.barrier() {
            Ok(()) => {
                self.barriers = self.barriers.saturating_add(1);
                Ok(())
            }
            Err(failed) => Err(failed),
        }
    }

    fn fail(&mut self) -> Failed {
        self.rig.fail()
    }
}

impl Rig for Counting {
    fn tell(&mut self, bytes: &[u8]) -> Result<usize, Failed> {
        self.rig.tell(bytes)
    }
}
