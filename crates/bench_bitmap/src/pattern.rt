//! Sectors of a bitmap that need no memory.
use hx_bytes::{Failed, Sector};
use sector_disk::SectorView;

/// Which blocks are used.
#[derive(Clone, Copy)]
pub enum Kind {
    Empty,
    Holes,
    Random,
}

/// A bitmap of unused blocks, one whose every second block is used, or one of which each bit is as likely set as not.
#[derive(Drop)]
pub struct Pattern {
    pub kind: Kind,
}

impl SectorView for Pattern {
    ghost use Rattle.std.specs.Prelude.{◌^◌};
    ghost use Rattle.alloc_bitmap.specs.Untold.{told_none};

    ghost space = { λ _. told_none (2 ^ 32) };

    ghost follows = { λ _ _. Unit {0} };

    ghost follows_refl = { λ _. tt };

    ghost follows_trans = { λ _ _ _ _ _. tt };

    fn sectors(&self) -> u64 {
        0x1_0000_0000
    }

    fn get(&mut self, at: u64, into: &mut Sector) -> Result<(), Failed> {
        match self.kind {
            Kind::Empty => *into = [0; 512],
            Kind::Holes => *into = [0xAA; 512],
            Kind::Random => fill(at, into),
        }
        Ok(())
    }

    ghost well_formed = { λ _ tells. Prim.cc };
}

/// Bytes of a linear congruence.
fn fill(at: u64, into: &mut Sector) {
    let mut seed = at.wrapping_mul(0x9E37_79B9_7F4A_7C15).wrapping_add(1);
    for byte in into.iter_mut() {
        seed = seed
            .wrapping_mul(6364136223846793005)
            .wrapping_add(1442695040888963407);
        *byte = ((seed >> 33) % 256) as u8;
    }
}
