//! `weigh` of `setattr` and `delattr`.
ghost use Rattle.std.specs.Prelude.{◌≡◌, ◌≤◌, Ok, IsTrue, IfOk, length};
ghost use Rattle.hfs_language.specs.Written.{FitsPath};
ghost use Rattle.hfs_language.specs.declared.command.Command.TheVariants as command;
ghost use Rattle.hfs_volume.specs.Content.{has_attributes, volume_of};
ghost use Rattle.hfs_volume.specs.TreeOf.{tree_of};
ghost use Rattle.hfs_volume.specs.Weight.{value_change};
ghost use Rattle.volume_base.specs.Frame.{Looked, Serves};
ghost use Rattle.volume_base.specs.Room.{capacity_of, free_in};
ghost use Rattle.volume_base.specs.declared.room.FreeBlocks.TheVariants as blocks;
ghost use Rattle.volume_base.specs.Weighing.{values_weighed, weighed};

use crate::weighing::weigh_values;
use hfs_language::{Path, Refusal};
use hfs_volume::sound_has_plain_tree;
use hx_bytes::{Trouble, Units};
use sector_disk::SectorSpace;
use std::alloc::Global;
use volume_base::{Edits, Volume, Weight, blocks_for_value, is_private_path};

/// What so many edits of the attributes file need by which an attribute gets a value of so many blocks, or goes with none.
fn weigh_value<P: SectorSpace>(
    volume: &mut Volume,
    alloc: Global,
    space: &mut P,
    id: u32,
    name: &Units,
    attributes: u32,
    new_blocks: u64,
) -> Result<Weight, Trouble>
    requires serves { Serves volume.old (P.SectorView.space space.old) }
    requires has { IsTrue (has_attributes volume.old.header) }
    requires name { length name.now ≤ 127 }
    requires few { attributes ≤ 2 }
    requires blocks { new_blocks ≤ 131072 }
    ensures exact { IsTrue (P.SectorView.space space.old).tells
        → IfOk result (λ weighs. weighs ≡ values_weighed (capacity_of volume.old) (free_in blocks.Takable volume.old.map) (volume_of (P.SectorView.space space.old).content)
        (record { ids = 0; catalog = 0; attributes = attributes; updates = 1 }) (value_change (volume_of (P.SectorView.space space.old).content) id name.now new_blocks)) }
    ensures looked { Looked P.SectorView.space P.SectorView.follows volume.old volume.new space.old space.new result }
    ensures serves { Serves volume.new (P.SectorView.space space.new) }
{
    let change = volume.value_change(alloc, space, id, name, new_blocks)?;
    let edits = Edits {
        ids: 0,
        catalog: 0,
        attributes,
        updates: 1,
    };
    Ok(weigh_values(volume, space, edits, change))
}

/// What `setattr` needs.
pub(crate) fn weigh_setattr<P: SectorSpace>(
    volume: &mut Volume,
    alloc: Global,
    space: &mut P,
    path: &Path,
    name: &Units,
    value: &[u8],
) -> Result<Weight, Trouble>
    requires serves { Serves volume.old (P.SectorView.space space.old) }
    requires fits { FitsPath path.now }
    requires name { length name.now ≤ 127 }
    ensures answer { IsTrue (P.SectorView.space space.old).tells
        → IfOk result (λ weighs. weighs ≡ weighed (capacity_of volume.old) (free_in blocks.Takable volume.old.map) (volume_of (P.SectorView.space space.old).content) (tree_of (P.SectorView.space space.old).content) (command.SetAttr path.now name.now value.now)) }
    ensures looked { Looked P.SectorView.space P.SectorView.follows volume.old volume.new space.old space.new result }
    ensures serves { Serves volume.new (P.SectorView.space space.new) }
{
    if is_private_path(path) {
        return Ok(Weight::Refused(Refusal::Private));
    }
    sound_has_plain_tree();
    match volume.owner(alloc, space, path)? {
        Ok(id) => {
            if value.len() > 131_072 {
                return Ok(Weight::Refused(Refusal::AttributeTooLarge));
            }
            if volume.header.attributes_fork.logical_size == 0 {
                return Ok(Weight::Refused(Refusal::NoTree));
            }
            let blocks = blocks_for_value(volume.header.block_size, value.len());
            weigh_value(volume, alloc, space, id, name, 2, blocks)
        }
        Err(why) => Ok(Weight::Refused(why)),
    }
}

/// What `delattr` needs.
pub(crate) fn weigh_delattr<P: SectorSpace>(
    volume: &mut Volume,
    alloc: Global,
    space: &mut P,
    path: &Path,
    name: &Units,
) -> Result<Weight, Trouble>
    requires serves { Serves volume.old (P.SectorView.space space.old) }
    requires fits { FitsPath path.now }
    requires name { length name.now ≤ 127 }
    ensures answer { IsTrue (P.SectorView.space space.old).tells
        → IfOk result (λ weighs. weighs ≡ weighed (capacity_of volume.old) (free_in blocks.Takable volume.old.map) (volume_of (P.SectorView.space space.old).content) (tree_of (P.SectorView.space space.old).content) (command.DelAttr path.now name.now)) }
    ensures looked { Looked P.SectorView.space P.SectorView.follows volume.old volume.new space.old space.new result }
    ensures serves { Serves volume.new (P.SectorView.space space.new) }
{
    if is_private_path(path) {
        return Ok(Weight::Refused(Refusal::Private));
    }
    sound_has_plain_tree();
    match volume.owner(alloc, space, path)? {
        Ok(id) => match volume.owned(alloc, space, id, name)? {
            Some(_others) => weigh_value(volume, alloc, space, id, name, 1, 0),
            None => Ok(Weight::Refused(Refusal::NoAttribute)),
        },
        Err(why) => Ok(Weight::Refused(why)),
    }
}
