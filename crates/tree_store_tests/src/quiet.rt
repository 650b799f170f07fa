//! A disk in memory that says nothing of what it holds.
use hx_bytes::{Failed, Sector};
use mem_disk::MemRig;
use sector_disk::SectorDisk;

/// A disk in memory that tells neither its content nor what crashes leave.
#[derive(Drop)]
pub struct Quiet {
    pub rig: MemRig,
}

impl SectorDisk for Quiet {
    ghost use Rattle.mem_disk.specs.MemRig.{rig_state, rig_is_disk, rig_only_now};
    ghost use Rattle.tree_store_tests.specs.Hidden.{hidden, hidden_is_disk, hidden_counts_now};

    ghost state = { λ q. hidden (rig_state q.rig) };

    ghost well_formed = { λ q. hidden_is_disk (rig_state q.rig) (rig_is_disk q.rig) };

    ghost only_now = { λ q. rig_only_now q.rig };

    ghost counts_now = { λ q. hidden_counts_now (rig_state q.rig) };

    fn sectors(&self) -> u64 {
        self.rig.sectors()
    }

    fn read(&mut self, at: u64, into: &mut Sector) -> Result<(), Failed> {
        self.rig.read(at, into)
    }

    fn write(&mut self, at: u64, from: &Sector) -> Result<(), Failed> {
        self.rig.write(at, from)
    }

    fn barrier(&mut self) -> Result<(), Failed> {
        self.rig.barrier()
    }

    fn fail(&mut self) -> Failed {
        self.rig.fail()
    }
}
