//! Sectors that are given one by one, so that a list of them needn't stand in memory.
ghost use Rattle.std.specs.Prelude.{◌≡◌, ◌<◌, length};
ghost use Rattle.sector_disk.specs.Lists.{Content, sector};

use hx_bytes::Sector;

/// A list of sectors.
pub trait SectorList {
    /// The sectors, in order.
    ghost sectors: { Self → Content };

    /// How many there are.
    fn count(&self) -> u64
        ensures { result ≡ length (sectors self.now) };

    /// The sector with this number, counted from 0.
    fn sector(&self, k: u64) -> Sector
        requires { k < length (sectors self.now) }
        ensures value { result ≡ sector (sectors self.now) k }
        ensures whole { length result ≡ 512 };
}

impl SectorList for &[Sector] {
    ghost sectors = { λ list. list.now };

    fn count(&self) -> u64 {
        self.len() as u64
    }

    fn sector(&self, k: u64) -> Sector {
        nth(*self, k)
    }
}

fn nth(list: &[Sector], k: u64) -> Sector
    requires { k < length list.now }
    ensures value { result ≡ sector list.now k }
    ensures whole { length result ≡ 512 }
{
    list[k as usize]
}
