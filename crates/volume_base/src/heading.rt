//! `at`, and the header of a volume in service, put.
ghost use Rattle.std.specs.Prelude.{◌≡◌, ◌⊎◌, ◌<◌, ◌≤◌, ◌+◌, ◌∷◌, [], IsTrue};
ghost use Rattle.btree_file.specs.Frame.{PutsWithin};
ghost use Rattle.volume_base.specs.Changing.{PutsHeader};
ghost use Rattle.volume_base.specs.Standing.{StandsOver};

use crate::volume::Volume;
use sector_disk::SectorSpace;
use volume_header::write_header;

impl Volume {
    /// Puts the header as the volume keeps it (TN1150, "Volume Header"). The volume stands as before. A space of fewer than
    /// three sectors has no place for it, and no volume.
    pub fn put_header<P: SectorSpace>(&self, space: &mut P)
        requires stands { StandsOver self.now (P.SectorView.space space.old) }
        requires room { (0 < (P.SectorView.space space.old).spare) ⊎ IsTrue ((P.SectorView.space space.old).put 2) }
        ensures stands { StandsOver self.now (P.SectorView.space space.new) }
        ensures put { IsTrue (P.SectorView.space space.old).tells → PutsHeader self.now (P.SectorView.space space.old).content (P.SectorView.space space.new).content }
        ensures within { PutsWithin (2 ∷ []) (P.SectorView.space space.old) (P.SectorView.space space.new) }
        ensures spent { (P.SectorView.space space.old).spare ≤ (P.SectorView.space space.new).spare + 1 }
        // It counts as put then, and where it was put before, it takes no room.
        ensures is_put { IsTrue (P.SectorView.space space.old).tells → IsTrue ((P.SectorView.space space.new).put 2) }
        ensures again { IsTrue ((P.SectorView.space space.old).put 2) → (P.SectorView.space space.new).spare ≡ (P.SectorView.space space.old).spare }
        ensures faults { (P.SectorView.space space.new).faults ≡ (P.SectorView.space space.old).faults }
        ensures below { P.SectorView.follows space.old space.new }
    {
        if space.sectors() < 3 {
            return;
        }
        let mut sector = [0; 512];
        write_header(&self.header, &mut sector);
        space.put(2, &sector);
    }
}
