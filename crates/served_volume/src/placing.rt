//! Whether a volume is on a space of its size.
ghost use Rattle.std.specs.Prelude.{◌≡◌, false};

use crate::served::ServedVolume;
use sector_disk::SectorView;

impl ServedVolume {
    /// Whether a space has another number of sectors than the one that it came into service on. No caller lends it such a space.
    pub(crate) fn is_elsewhere<P: SectorView>(&self, space: &P) -> bool
        ensures { result ≡ false → (P.space space.now).sectors ≡ self.now.sectors }
    {
        space.sectors() != self.sectors
    }
}
