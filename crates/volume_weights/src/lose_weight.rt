//! `weigh` of `rm`.
ghost use Rattle.std.specs.Prelude.{◌≡◌, ◌≤◌, IsTrue, IfOk};
ghost use Rattle.hfs_language.specs.Written.{FitsPath};
ghost use Rattle.hfs_language.specs.declared.command.Command.TheVariants as command;
ghost use Rattle.hfs_volume.specs.Content.{volume_of};
ghost use Rattle.hfs_volume.specs.TreeOf.{tree_of};
ghost use Rattle.volume_base.specs.Frame.{Looked, Serves};
ghost use Rattle.volume_base.specs.Lists.{lists_of};
ghost use Rattle.volume_base.specs.Losing.{lose_edits};
ghost use Rattle.volume_weights.specs.Losing.{loss_weighed, link_edits};
ghost use Rattle.volume_base.specs.Nodes.{node_in};
ghost use Rattle.volume_base.specs.Room.{capacity_of, free_in};
ghost use Rattle.volume_base.specs.declared.room.FreeBlocks.TheVariants as blocks;
ghost use Rattle.volume_base.specs.Weighing.{edits_weighed, weighed};

use crate::weighing::weigh_edits;
use hfs_language::{Path, Refusal};
use hfs_volume::sound_has_plain_tree;
use hx_bytes::Trouble;
use sector_disk::SectorSpace;
use std::alloc::Global;
use volume_base::{Edits, Node, Volume, Weight, find_node, is_private_path};

/// The edits by which a file loses one of so many links.
pub(crate) fn link_edits(links: u32) -> Edits
    ensures same { result ≡ link_edits links }
    ensures none { result.attributes ≡ 0 }
    ensures few { result.catalog ≤ 5 }
{
    if links > 1 {
        return Edits {
            ids: 0,
            catalog: 2,
            attributes: 0,
            updates: 4,
        };
    }
    Edits {
        ids: 0,
        catalog: 5,
        attributes: 0,
        updates: 4,
    }
}

/// The folder or file that a path stands for, or the first reason against it.
pub(crate) fn node<P: SectorSpace>(
    volume: &mut Volume,
    alloc: Global,
    space: &mut P,
    path: &Path,
) -> Result<Result<Node, Refusal>, Trouble>
    requires serves { Serves volume.old (P.SectorView.space space.old) }
    requires fits { FitsPath path.now }
    ensures found { IsTrue (P.SectorView.space space.old).tells → IfOk result (λ said. said ≡ node_in (lists_of volume.old (P.SectorView.space space.old).content).catalog_pairs volume.old.private path.now) }
    ensures looked { Looked P.SectorView.space P.SectorView.follows volume.old volume.new space.old space.new result }
    ensures serves { Serves volume.new (P.SectorView.space space.new) }
{
    find_node(
        alloc,
        &mut volume.catalog.file,
        &mut volume.catalog.desk,
        space,
        volume.private,
        path.as_slice(),
    )
}

/// What the edits weigh by which a file loses a name.
fn weigh_loss<P: SectorSpace>(volume: &Volume, space: &P, node: &Node) -> Weight
    requires serves { Serves volume.now (P.SectorView.space space.now) }
    ensures exact { IsTrue (P.SectorView.space space.now).tells
        → result ≡ loss_weighed node.now (edits_weighed (capacity_of volume.now) (free_in blocks.Takable volume.now.map) (volume_of (P.SectorView.space space.now).content) (lose_edits volume.now.private)) (edits_weighed (capacity_of volume.now) (free_in blocks.Takable volume.now.map) (volume_of (P.SectorView.space space.now).content)) }
{
    match node {
        Node::Folder(_folder) => Weight::Refused(Refusal::IsFolder),
        Node::File(file, linked) => {
            if *linked {
                let edits = link_edits(file.fields.special);
                return weigh_edits(volume, space, edits);
            }
            let edits = volume.lose_edits();
            weigh_edits(volume, space, edits)
        }
    }
}

/// What `rm` needs.
pub(crate) fn weigh_rm<P: SectorSpace>(
    volume: &mut Volume,
    alloc: Global,
    space: &mut P,
    path: &Path,
) -> Result<Weight, Trouble>
    requires serves { Serves volume.old (P.SectorView.space space.old) }
    requires fits { FitsPath path.now }
    ensures answer { IsTrue (P.SectorView.space space.old).tells
        → IfOk result (λ weighs. weighs ≡ weighed (capacity_of volume.old) (free_in blocks.Takable volume.old.map) (volume_of (P.SectorView.space space.old).content) (tree_of (P.SectorView.space space.old).content) (command.Rm path.now)) }
    ensures looked { Looked P.SectorView.space P.SectorView.follows volume.old volume.new space.old space.new result }
    ensures serves { Serves volume.new (P.SectorView.space space.new) }
{
    if is_private_path(path) {
        return Ok(Weight::Refused(Refusal::Private));
    }
    if path.is_empty() {
        return Ok(Weight::Refused(Refusal::Root));
    }
    sound_has_plain_tree();
    match node(volume, alloc, space, path)? {
        Ok(node) => Ok(weigh_loss(volume, space, &node)),
        Err(why) => Ok(Weight::Refused(why)),
    }
}
