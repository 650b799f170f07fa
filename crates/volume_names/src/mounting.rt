//! The header's mark of whether a volume is in use.
ghost use Rattle.std.specs.Prelude.{◌≡◌, ◌⊎◌, ◌<◌, ◌≤◌, ◌+◌, IsTrue};
ghost use Rattle.std.specs.List.{Contains};
ghost use Rattle.sector_disk.specs.Lists.{Content};
ghost use Rattle.volume_header.specs.Header.{FitsHeader};
ghost use Rattle.hfs_volume.specs.Content.{volume_of};
ghost use Rattle.hfs_volume.specs.Reclaim.{mounted_header};
ghost use Rattle.hfs_volume.specs.TreeOf.{tree_of};
ghost use Rattle.volume_names.specs.Mounting.{marked_header, unmounted_header};
ghost use Rattle.volume_base.specs.Standing.{IsSettled, StandsOver, own_sectors};
ghost use Rattle.volume_base.specs.Touching.{Touches};

use hfs_volume::mount_keeps_the_tree;
use sector_disk::SectorSpace;
use volume_base::Volume;
use volume_header::VolumeHeader;

/// The header as a mount writes it: by a system that keeps the journal, not unmounted, and written once more (TN1150,
/// "Volume Header"). Bit 31, by which macOS says that free nodes of the catalog are zero, is clear: a node that is given back
/// keeps its bytes.
fn mounted(head: &VolumeHeader) -> VolumeHeader
    ensures same { result ≡ mounted_header head.now }
    ensures fits { FitsHeader head.now → FitsHeader result }
{
    let mut changed = *head;
    changed.last_mounted_version = 0x4846_534A;
    changed.attributes = (head.attributes - head.attributes / 256 % 2 * 256) % 0x8000_0000;
    changed.write_count = head.write_count.wrapping_add(1);
    changed
}

/// The header as the end of a run writes it: unmounted.
fn unmounted(head: &VolumeHeader) -> VolumeHeader
    ensures same { result ≡ unmounted_header head.now }
    ensures fits { FitsHeader head.now → FitsHeader result }
{
    let mut changed = *head;
    changed.attributes = head.attributes | 256;
    changed
}

/// The header with this mark.
fn marked(in_use: bool, head: &VolumeHeader) -> VolumeHeader
    ensures same { result ≡ marked_header in_use head.now }
    ensures fits { FitsHeader head.now → FitsHeader result }
{
    if in_use {
        mounted(head)
    } else {
        unmounted(head)
    }
}

/// Marks in the header that the volume is in use, or that it was unmounted, and puts it. It can't fail.
pub fn mark<P: SectorSpace>(volume: &mut Volume, space: &mut P, in_use: bool)
    requires stands { StandsOver volume.old (P.SectorView.space space.old) }
    requires settled { IsTrue (P.SectorView.space space.old).tells → IsSettled volume.old (P.SectorView.space space.old).content }
    requires room { (0 < (P.SectorView.space space.old).spare) ⊎ IsTrue ((P.SectorView.space space.old).put 2) }
    // Told, the header alone is another, and the tree is as it was.
    ensures lists { IsTrue (P.SectorView.space space.old).tells → volume_of (P.SectorView.space space.new).content ≡ record (volume_of (P.SectorView.space space.old).content) { head = marked_header in_use (volume_of (P.SectorView.space space.old).content).head } }
    ensures tree { IsTrue (P.SectorView.space space.old).tells → tree_of (P.SectorView.space space.new).content ≡ tree_of (P.SectorView.space space.old).content }
    ensures stands { StandsOver volume.new (P.SectorView.space space.new) }
    ensures settled { IsTrue (P.SectorView.space space.old).tells → IsSettled volume.new (P.SectorView.space space.new).content }
    // Nothing else of it is changed.
    ensures rest { volume.new ≡ record volume.old { header = marked_header in_use volume.old.header } }
    // It puts a sector of its own, whatever was committed last.
    ensures touches { (committed : Content) → Touches committed (λ s. Contains (own_sectors volume.old) s) (P.SectorView.space space.old) (P.SectorView.space space.new) }
    ensures spent { (P.SectorView.space space.old).spare ≤ (P.SectorView.space space.new).spare + 1 }
    ensures faults { (P.SectorView.space space.new).faults ≡ (P.SectorView.space space.old).faults }
    ensures below { P.SectorView.follows space.old space.new }
{
    mount_keeps_the_tree();
    volume.header = marked(in_use, &volume.header);
    volume.put_header(space);
}
