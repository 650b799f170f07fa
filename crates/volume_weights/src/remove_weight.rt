//! `weigh` of `rmdir`.
ghost use Rattle.std.specs.Prelude.{◌≡◌, false, IsTrue, IfOk, length};
ghost use Rattle.attributes.specs.Owned.{names_of};
ghost use Rattle.volume_base.specs.Values.{values_owned};
ghost use Rattle.hfs_language.specs.Written.{FitsPath};
ghost use Rattle.hfs_language.specs.declared.command.Command.TheVariants as command;
ghost use Rattle.hfs_model.specs.Step.{is_private_path};
ghost use Rattle.hfs_volume.specs.Content.{volume_of};
ghost use Rattle.hfs_volume.specs.TreeOf.{tree_of};
ghost use Rattle.volume_base.specs.Frame.{Looked, Serves};
ghost use Rattle.volume_base.specs.Making.{path_to};
ghost use Rattle.volume_base.specs.Room.{capacity_of, free_in};
ghost use Rattle.volume_base.specs.declared.room.FreeBlocks.TheVariants as blocks;
ghost use Rattle.volume_base.specs.Weighing.{values_weighed, weighed};

use crate::weighing::{weigh_edits, weigh_values};
use hfs_language::{Path, Refusal};
use hfs_volume::sound_has_plain_tree;
use hx_bytes::{Trouble, Units};
use sector_disk::SectorSpace;
use std::alloc::Global;
use volume_base::{Edits, Volume, Weight, is_private_path};

/// What the removal of the folder with a CNID needs, with its attributes.
fn weigh_removal<P: SectorSpace>(
    volume: &mut Volume,
    alloc: Global,
    space: &mut P,
    id: u32,
) -> Result<Weight, Trouble>
    requires serves { Serves volume.old (P.SectorView.space space.old) }
    ensures exact { IsTrue (P.SectorView.space space.old).tells
        → IfOk result (λ weighs. weighs ≡ values_weighed (capacity_of volume.old) (free_in blocks.Takable volume.old.map) (volume_of (P.SectorView.space space.old).content)
        (record { ids = 0; catalog = 2; attributes = length (names_of id (volume_of (P.SectorView.space space.old).content).attribute_pairs); updates = 1 }) (values_owned (volume_of (P.SectorView.space space.old).content) id)) }
    ensures looked { Looked P.SectorView.space P.SectorView.follows volume.old volume.new space.old space.new result }
    ensures serves { Serves volume.new (P.SectorView.space space.new) }
{
    let owned = volume.owned_values(alloc, space, id)?;
    let edits = Edits {
        ids: 0,
        catalog: 2,
        attributes: owned.count,
        updates: 1,
    };
    if volume.header.attributes_fork.logical_size == 0 {
        return Ok(weigh_edits(volume, space, edits));
    }
    Ok(weigh_values(volume, space, edits, owned.change))
}

/// What `rmdir` needs for the folder of a name under a path.
fn weigh_rmdir_under<P: SectorSpace>(
    volume: &mut Volume,
    alloc: Global,
    space: &mut P,
    above: &[Units],
    name: &Units,
) -> Result<Weight, Trouble>
    requires serves { Serves volume.old (P.SectorView.space space.old) }
    requires fits { FitsPath (path_to above.now name.now) }
    requires not_own { is_private_path (path_to above.now name.now) ≡ false }
    ensures answer { IsTrue (P.SectorView.space space.old).tells
        → IfOk result (λ weighs. weighs ≡ weighed (capacity_of volume.old) (free_in blocks.Takable volume.old.map) (volume_of (P.SectorView.space space.old).content) (tree_of (P.SectorView.space space.old).content) (command.Rmdir (path_to above.now name.now))) }
    ensures looked { Looked P.SectorView.space P.SectorView.follows volume.old volume.new space.old space.new result }
    ensures serves { Serves volume.new (P.SectorView.space space.new) }
{
    sound_has_plain_tree();
    match volume.leaving(alloc, space, above, name)? {
        Ok(at) => weigh_removal(volume, alloc, space, at.id),
        Err(why) => Ok(Weight::Refused(why)),
    }
}

/// What `rmdir` needs.
pub(crate) fn weigh_rmdir<P: SectorSpace>(
    volume: &mut Volume,
    alloc: Global,
    space: &mut P,
    path: &Path,
) -> Result<Weight, Trouble>
    requires serves { Serves volume.old (P.SectorView.space space.old) }
    requires fits { FitsPath path.now }
    ensures answer { IsTrue (P.SectorView.space space.old).tells
        → IfOk result (λ weighs. weighs ≡ weighed (capacity_of volume.old) (free_in blocks.Takable volume.old.map) (volume_of (P.SectorView.space space.old).content) (tree_of (P.SectorView.space space.old).content) (command.Rmdir path.now)) }
    ensures looked { Looked P.SectorView.space P.SectorView.follows volume.old volume.new space.old space.new result }
    ensures serves { Serves volume.new (P.SectorView.space space.new) }
{
    if is_private_path(path) {
        return Ok(Weight::Refused(Refusal::Private));
    }
    match path.as_slice().split_last() {
        Some((name, above)) => weigh_rmdir_under(volume, alloc, space, above, name),
        None => Ok(Weight::Refused(Refusal::Root)),
    }
}
