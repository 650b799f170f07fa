//! The attributes that `rmdir` removes.
ghost use Rattle.std.specs.Prelude.{◌≡◌, false, Ok, IsTrue, IfOk};
ghost use Rattle.hfs_language.specs.Written.{FitsPath};
ghost use Rattle.hfs_model.specs.Step.{is_private_path};
ghost use Rattle.hfs_model.specs.declared.plain.PlainEntry.{PlainEntry};
ghost use Rattle.hfs_volume.specs.Content.{has_attributes, volume_of};
ghost use Rattle.hfs_volume.specs.TreeOf.{tree_of};
ghost use Rattle.volume_base.specs.Frame.{Looked, Serves};
ghost use Rattle.volume_base.specs.Making.{path_to};
ghost use Rattle.volume_base.specs.Removing.{no_values, owned_at};
ghost use Rattle.volume_base.specs.Weighing.{AreUsual};
ghost use Rattle.volume_names.specs.Removing.{MayRemove};

use hfs_language::Path;
use hfs_volume::{ValueChange, sound_has_plain_tree};
use hx_bytes::{Trouble, Units};
use sector_disk::SectorSpace;
use std::alloc::Global;
use volume_base::{OwnedValues, Volume};

/// The attributes that the folder of a name under a path goes with, if it may be removed.
fn values_under<P: SectorSpace>(
    volume: &mut Volume,
    alloc: Global,
    space: &mut P,
    above: &[Units],
    name: &Units,
) -> Result<OwnedValues, Trouble>
    requires serves { Serves volume.old (P.SectorView.space space.old) }
    requires fits { FitsPath (path_to above.now name.now) }
    ensures told { IsTrue (P.SectorView.space space.old).tells → is_private_path (path_to above.now name.now) ≡ false → (entry : PlainEntry) → MayRemove (tree_of (P.SectorView.space space.old).content) (path_to above.now name.now) entry
        → IfOk result (λ owned. owned ≡ owned_at entry.id (volume_of (P.SectorView.space space.old).content)) }
    ensures none { IsTrue (P.SectorView.space space.old).tells → has_attributes volume.old.header ≡ false → IfOk result (λ owned. owned.count ≡ 0) }
    ensures usual { IfOk result (λ owned. AreUsual owned.count owned.change) }
    ensures gone { IfOk result (λ owned. owned.change.blocks ≡ 0) }
    ensures looked { Looked P.SectorView.space P.SectorView.follows volume.old volume.new space.old space.new result }
    ensures serves { Serves volume.new (P.SectorView.space space.new) }
{
    sound_has_plain_tree();
    match volume.leaving(alloc, space, above, name)? {
        Ok(at) => volume.owned_values(alloc, space, at.id),
        Err(_why) => Ok(no_values()),
    }
}

/// No attributes.
fn no_values() -> OwnedValues
    ensures { result ≡ no_values }
{
    OwnedValues {
        count: 0,
        change: ValueChange {
            records: 0,
            freed: 0,
            blocks: 0,
        },
    }
}

/// The attributes that `rmdir` removes with the folder at a path: how many, and what becomes of their values. `Memory` comes where memory is wanting,
/// `Disk` where a read failed.
pub fn values_to_remove<P: SectorSpace>(
    volume: &mut Volume,
    alloc: Global,
    space: &mut P,
    path: &Path,
) -> Result<OwnedValues, Trouble>
    requires serves { Serves volume.old (P.SectorView.space space.old) }
    requires fits { FitsPath path.now }
    // Told, they are those of the folder, where it may be removed.
    ensures told { IsTrue (P.SectorView.space space.old).tells → is_private_path path.now ≡ false → (entry : PlainEntry) → MayRemove (tree_of (P.SectorView.space space.old).content) path.now entry
        → IfOk result (λ owned. owned ≡ owned_at entry.id (volume_of (P.SectorView.space space.old).content)) }
    // Without an attributes file there are none.
    ensures none { IsTrue (P.SectorView.space space.old).tells → has_attributes volume.old.header ≡ false → IfOk result (λ owned. owned.count ≡ 0) }
    ensures usual { IfOk result (λ owned. AreUsual owned.count owned.change) }
    ensures gone { IfOk result (λ owned. owned.change.blocks ≡ 0) }
    ensures looked { Looked P.SectorView.space P.SectorView.follows volume.old volume.new space.old space.new result }
    ensures serves { Serves volume.new (P.SectorView.space space.new) }
{
    match path.as_slice().split_last() {
        Some((name, above)) => values_under(volume, alloc, space, above, name),
        None => Ok(no_values()),
    }
}
