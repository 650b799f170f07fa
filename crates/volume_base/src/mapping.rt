//! The bitmap of a volume in service, put.
ghost use Rattle.std.specs.Prelude.{◌≡◌, ◌≤◌, ◌+◌, IsTrue};
ghost use Rattle.sector_disk.specs.Putting.{unput};
ghost use Rattle.btree_file.specs.Frame.{PutsWithin};
ghost use Rattle.volume_base.specs.Mapping.{HoldsUnchanged, PutsMap, changed_sectors};
ghost use Rattle.volume_base.specs.Standing.{StandsOver, map_sectors};

use crate::volume::Volume;
use sector_disk::SectorSpace;

/// Puts the sectors of the bitmap that were changed since the last keep (TN1150, "Allocation File"). The volume stands as
/// before.
pub fn put_map<P: SectorSpace>(volume: &Volume, space: &mut P)
    requires stands { StandsOver volume.now (P.SectorView.space space.old) }
    requires unchanged { IsTrue (P.SectorView.space space.old).tells → HoldsUnchanged volume.now (P.SectorView.space space.old).content }
    requires room { unput (P.SectorView.space space.old).put (changed_sectors volume.now) ≤ (P.SectorView.space space.old).spare }
    ensures stands { StandsOver volume.now (P.SectorView.space space.new) }
    ensures put { IsTrue (P.SectorView.space space.old).tells → PutsMap volume.now (P.SectorView.space space.old).content (P.SectorView.space space.new).content }
    ensures within { PutsWithin (map_sectors volume.now) (P.SectorView.space space.old) (P.SectorView.space space.new) }
    ensures spent { (P.SectorView.space space.old).spare ≤ (P.SectorView.space space.new).spare + unput (P.SectorView.space space.old).put (changed_sectors volume.now) }
    ensures faults { (P.SectorView.space space.new).faults ≡ (P.SectorView.space space.old).faults }
    ensures below { P.SectorView.follows space.old space.new }
{
    volume.map.store(space);
}
