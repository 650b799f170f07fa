//! Sectors in memory that tell a contract nothing.
ghost use Rattle.std.specs.Prelude.{◌≡◌, length};

use hx_bytes::{Failed, Sector};
use sector_disk::{SectorSpace, SectorView};

/// Sectors in memory, and how often they were read and put. Each of them counts as put since the last commit.
#[derive(Drop)]
pub struct Sectors {
    pub list: Vec<Sector>,
    pub reads: u64,
    pub puts: u64,
}

impl Sectors {
    /// Sectors with these values, which weren't read or put yet.
    pub fn new(list: Vec<Sector>) -> Sectors
        ensures { result.list ≡ list }
    {
        Sectors {
            list,
            reads: 0,
            puts: 0,
        }
    }
}

impl SectorView for Sectors {
    ghost use Rattle.alloc_bitmap.specs.Untold.{told_none};

    ghost space = { λ s. told_none (length s.list.items) };

    ghost follows = { λ _ _. Unit {0} };

    ghost follows_refl = { λ _. tt };

    ghost follows_trans = { λ _ _ _ _ _. tt };

    fn sectors(&self) -> u64 {
        self.list.len() as u64
    }

    fn get(&mut self, at: u64, into: &mut Sector) -> Result<(), Failed> {
        *into = self.list[at as usize];
        self.reads = self.reads.saturating_add(1);
        Ok(())
    }

    ghost well_formed = { λ s tells. absurd (cc tells) };
}

impl SectorSpace for Sectors {
    fn spare(&self) -> u64 {
        0
    }

    fn is_put(&self, _at: u64) -> bool {
        true
    }

    fn put(&mut self, at: u64, from: &Sector) {
        self.list[at as usize] = *from;
        self.puts = self.puts.saturating_add(1);
    }

    fn spill(&mut self, at: u64, from: &Sector) -> Result<(), Failed> {
        self.list[at as usize] = *from;
        Ok(())
    }

    fn fail(&mut self) -> Failed {
        Failed
    }
}
