//! `weigh` of `ln`.
ghost use Rattle.std.specs.Prelude.{◌≡◌, None, Some, Ok, IsTrue, IfOk};
ghost use Rattle.btree_edit.specs.Causes.{HasTroubleCause};
ghost use Rattle.hfs_language.specs.Written.{FitsPath};
ghost use Rattle.hfs_language.specs.declared.command.Command.TheVariants as command;
ghost use Rattle.hfs_model.specs.Step.{step_line};
ghost use Rattle.hfs_volume.specs.Content.{volume_of};
ghost use Rattle.hfs_volume.specs.TreeOf.{tree_of};
ghost use Rattle.volume_weights.specs.Linking.{first_edits, link_weighed};
ghost use Rattle.volume_base.specs.Frame.{Looked, Serves};
ghost use Rattle.volume_base.specs.Refusing.{refusal_in};
ghost use Rattle.volume_base.specs.Room.{capacity_of, free_in};
ghost use Rattle.volume_base.specs.declared.room.FreeBlocks.TheVariants as blocks;
ghost use Rattle.volume_base.specs.Weighing.{edits_weighed, weighed};

use crate::lose_weight::node;
use crate::weighing::weigh_edits;
use hfs_language::Path;
use hfs_volume::sound_has_plain_tree;
use hx_bytes::Trouble;
use sector_disk::SectorSpace;
use std::alloc::Global;
use volume_base::{Edits, Node, Volume, Weight};

/// The edits by which a file gets its first link: where there is no private folder, it is made before.
fn first_edits(volume: &Volume) -> Edits
    ensures same { result ≡ first_edits volume.now.private }
    ensures none { result.attributes ≡ 0 }
{
    match volume.private {
        Some(_private) => Edits {
            ids: 2,
            catalog: 7,
            attributes: 0,
            updates: 4,
        },
        None => Edits {
            ids: 3,
            catalog: 9,
            attributes: 0,
            updates: 4,
        },
    }
}

/// What the edits weigh by which a file gets its first link, or another one. `Memory` is answered for a folder, which gets none.
fn weigh_link<P: SectorSpace>(volume: &Volume, space: &P, node: &Node) -> Result<Weight, Trouble>
    requires serves { Serves volume.now (P.SectorView.space space.now) }
    ensures exact { IsTrue (P.SectorView.space space.now).tells
        → IfOk result (λ weighs. Some weighs ≡ link_weighed node.now (edits_weighed (capacity_of volume.now) (free_in blocks.Takable volume.now.map) (volume_of (P.SectorView.space space.now).content)) volume.now.private) }
    ensures cause { HasTroubleCause (P.SectorView.space space.now).faults (P.SectorView.space space.now).faults result }
{
    match node {
        Node::Folder(_folder) => Err(Trouble::Memory),
        Node::File(_file, linked) => {
            if *linked {
                let edits = Edits {
                    ids: 1,
                    catalog: 2,
                    attributes: 0,
                    updates: 4,
                };
                return Ok(weigh_edits(volume, space, edits));
            }
            let first = first_edits(volume);
            Ok(weigh_edits(volume, space, first))
        }
    }
}

/// What `ln` needs, where its step refuses nothing.
fn weigh_ln_fine<P: SectorSpace>(
    volume: &mut Volume,
    alloc: Global,
    space: &mut P,
    from: &Path,
    to: &Path,
) -> Result<Weight, Trouble>
    requires serves { Serves volume.old (P.SectorView.space space.old) }
    requires from_fits { FitsPath from.now }
    requires to_fits { FitsPath to.now }
    requires fine { IsTrue (P.SectorView.space space.old).tells → None ≡ refusal_in (step_line (tree_of (P.SectorView.space space.old).content) (Ok (command.Ln from.now to.now))).0 }
    ensures answer { IsTrue (P.SectorView.space space.old).tells
        → IfOk result (λ weighs. weighs ≡ weighed (capacity_of volume.old) (free_in blocks.Takable volume.old.map) (volume_of (P.SectorView.space space.old).content) (tree_of (P.SectorView.space space.old).content) (command.Ln from.now to.now)) }
    ensures looked { Looked P.SectorView.space P.SectorView.follows volume.old volume.new space.old space.new result }
    ensures serves { Serves volume.new (P.SectorView.space space.new) }
{
    sound_has_plain_tree();
    match node(volume, alloc, space, from)? {
        Ok(node) => weigh_link(volume, space, &node),
        Err(_why) => Err(Trouble::Memory),
    }
}

/// What `ln` needs.
pub(crate) fn weigh_ln<P: SectorSpace>(
    volume: &mut Volume,
    alloc: Global,
    space: &mut P,
    from: &Path,
    to: &Path,
) -> Result<Weight, Trouble>
    requires serves { Serves volume.old (P.SectorView.space space.old) }
    requires from_fits { FitsPath from.now }
    requires to_fits { FitsPath to.now }
    ensures answer { IsTrue (P.SectorView.space space.old).tells
        → IfOk result (λ weighs. weighs ≡ weighed (capacity_of volume.old) (free_in blocks.Takable volume.old.map) (volume_of (P.SectorView.space space.old).content) (tree_of (P.SectorView.space space.old).content) (command.Ln from.now to.now)) }
    ensures looked { Looked P.SectorView.space P.SectorView.follows volume.old volume.new space.old space.new result }
    ensures serves { Serves volume.new (P.SectorView.space space.new) }
{
    match volume.refused_ln(alloc, space, from, to)? {
        Some(why) => Ok(Weight::Refused(why)),
        None => weigh_ln_fine(volume, alloc, space, from, to),
    }
}
