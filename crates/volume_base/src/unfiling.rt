//! The entry of a file that lost its last name, dropped from the private folder.
ghost use Rattle.std.specs.Prelude.{◌≡◌, ◌≤◌, ◌+◌, ◌∷◌, [], IsTrue};
ghost use Rattle.btree_file.specs.Frame.{PutsWithin};
ghost use Rattle.volume_header.specs.Header.{FitsHeader};
ghost use Rattle.hfs_volume.specs.Changes.{with_numbers};
ghost use Rattle.volume_base.specs.Changing.{PutsHeader};
ghost use Rattle.volume_base.specs.Orphans.{with_file_removed};
ghost use Rattle.volume_base.specs.Standing.{StandsOver};

use crate::volume::Volume;
use sector_disk::SectorSpace;
use volume_header::VolumeHeader;

/// The header after a file was removed.
fn with_file_removed(head: &VolumeHeader) -> VolumeHeader
    ensures same { result ≡ with_file_removed head.now }
    ensures fits { FitsHeader head.now → FitsHeader result }
{
    let mut less = *head;
    less.file_count = head.file_count.saturating_sub(1);
    less
}

impl Volume {
    /// Counts a file less in the header, and puts it.
    pub fn count_file_off<P: SectorSpace>(&mut self, space: &mut P)
        requires stands { StandsOver self.old (P.SectorView.space space.old) }
        requires some { 1 ≤ (P.SectorView.space space.old).spare }
        ensures stands { StandsOver self.new (P.SectorView.space space.new) }
        ensures rest { self.new ≡ record self.old { header = with_numbers self.old.header self.new.header } }
        ensures header { self.new.header ≡ with_file_removed self.old.header }
        ensures put { IsTrue (P.SectorView.space space.old).tells → PutsHeader self.new (P.SectorView.space space.old).content (P.SectorView.space space.new).content }
        ensures within { PutsWithin (2 ∷ []) (P.SectorView.space space.old) (P.SectorView.space space.new) }
        ensures spent { (P.SectorView.space space.old).spare ≤ (P.SectorView.space space.new).spare + 1 }
        ensures faults { (P.SectorView.space space.new).faults ≡ (P.SectorView.space space.old).faults }
        ensures below { P.SectorView.follows space.old space.new }
    {
        self.header = with_file_removed(&self.header);
        self.put_header(space);
    }
}
