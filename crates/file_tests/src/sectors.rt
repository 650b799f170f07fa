//! Sectors in memory that tell nothing but their faults, and of which spills may fail.
ghost use Rattle.std.specs.Prelude.{length};

use hx_bytes::{Failed, Sector};
use sector_disk::{SectorSpace, SectorView};

/// Sectors in memory. After so many spills the power fails: each spill from then on fails, and leaves neither the old bytes
/// of its sector nor the new ones.
#[derive(Drop)]
pub struct Sectors {
    pub list: Vec<Sector>,
    pub spills_left: u64,
    pub faults: u64,
}

impl SectorView for Sectors {
    ghost use Rattle.file_tests.specs.Untold.{told_faults};

    ghost space = { λ s. told_faults (length s.list.items) s.faults };

    ghost follows = { λ _ _. Unit {0} };

    ghost follows_refl = { λ _. tt };

    ghost follows_trans = { λ _ _ _ _ _. tt };

    fn sectors(&self) -> u64 {
        self.list.len() as u64
    }

    fn get(&mut self, at: u64, into: &mut Sector) -> Result<(), Failed> {
        into.copy_from_slice(&self.list[at as usize]);
        Ok(())
    }

    ghost well_formed = { λ s tells. Prim.cc };
}

impl SectorSpace for Sectors {
    fn spare(&self) -> u64 {
        0
    }

    fn is_put(&self, _at: u64) -> bool {
        true
    }

    fn put(&mut self, at: u64, from: &Sector) {
        self.list[at as usize].copy_from_slice(from);
    }

    fn spill(&mut self, at: u64, from: &Sector) -> Result<(), Failed> {
        if self.spills_left == 0 {
            self.list[at as usize].copy_from_slice(&[0xEE; 512]);
            self.faults = self.faults.saturating_add(1);
            return Err(Failed);
        }
        self.spills_left -= 1;
        self.list[at as usize].copy_from_slice(from);
        Ok(())
    }

    fn fail(&mut self) -> Failed {
        self.faults = self.faults.saturating_add(1);
        Failed
    }
}
