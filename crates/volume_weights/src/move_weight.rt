//! `weigh` of `mv`.
ghost use Rattle.std.specs.Prelude.{◌≡◌, ◌≤◌, ◌+◌, Err, false, IsTrue, IfOk, if◌then◌else◌};
ghost use Rattle.hfs_language.specs.Written.{FitsPath};
ghost use Rattle.hfs_language.specs.declared.command.Command.TheVariants as command;
ghost use Rattle.hfs_language.specs.declared.refusal.Refusal.TheVariants as refusal;
ghost use Rattle.hfs_model.specs.Step.{is_private_path};
ghost use Rattle.hfs_volume.specs.Content.{volume_of};
ghost use Rattle.hfs_volume.specs.TreeOf.{tree_of};
ghost use Rattle.volume_base.specs.Frame.{Looked, Serves};
ghost use Rattle.volume_base.specs.Losing.{lose_edits};
ghost use Rattle.volume_base.specs.Making.{path_to};
ghost use Rattle.volume_base.specs.Moving.{to_free};
ghost use Rattle.volume_base.specs.Room.{capacity_of, free_in};
ghost use Rattle.volume_base.specs.declared.room.FreeBlocks.TheVariants as blocks;
ghost use Rattle.volume_base.specs.Weighing.{weighed};
ghost use Rattle.volume_weights.specs.Losing.{file_in, link_edits};

use crate::lose_weight::{link_edits, node};
use crate::weighing::weigh_edits;
use cat_records::FileRecord;
use hfs_language::{Path, Refusal};
use hfs_volume::sound_has_plain_tree;
use hx_bytes::{Trouble, Units};
use sector_disk::SectorSpace;
use std::alloc::Global;
use volume_base::{Edits, Node, Volume, Weight, is_below, is_exists, is_private_path};

/// The file that was found, and whether links name its record.
fn file_in(found: Result<Node, Refusal>) -> Option<(FileRecord, bool)>
    ensures { result ≡ file_in found }
{
    match found {
        Ok(Node::File(file, linked)) => Some((file, linked)),
        Ok(Node::Folder(_folder)) => None,
        Err(_why) => None,
    }
}

/// The edits by which a file loses a name.
fn loss_edits(volume: &Volume, file: &FileRecord, linked: bool) -> Edits
    ensures same { result ≡ (if linked then link_edits file.now.fields.special else lose_edits volume.now.private) }
    ensures few { result.catalog ≤ 5 }
{
    if linked {
        return link_edits(file.fields.special);
    }
    volume.lose_edits()
}

/// The edits of a `mv` over a file: those by which it loses its name, and those by which another one takes it.
fn over_edits(loss: Edits) -> Edits
    requires few { loss.catalog ≤ 5 }
    ensures same { result ≡ record { ids = loss.ids; catalog = loss.catalog + 3; attributes = 0; updates = 6 } }
    ensures none { result.attributes ≡ 0 }
{
    Edits {
        ids: loss.ids,
        catalog: loss.catalog + 3,
        attributes: 0,
        updates: 6,
    }
}

/// What `mv` needs where a name is there already: of a file over another, of a file onto itself, or that it is in the way.
fn weigh_over<P: SectorSpace>(
    volume: &mut Volume,
    alloc: Global,
    space: &mut P,
    from: &Path,
    to: &Path,
) -> Result<Weight, Trouble>
    requires serves { Serves volume.old (P.SectorView.space space.old) }
    requires from_fits { FitsPath from.now }
    requires to_fits { FitsPath to.now }
    requires not_own { is_private_path from.now ≡ false }
    requires goal_not_own { is_private_path to.now ≡ false }
    requires taken { IsTrue (P.SectorView.space space.old).tells → to_free (tree_of (P.SectorView.space space.old).content) from.now to.now ≡ Err refusal.Exists }
    ensures answer { IsTrue (P.SectorView.space space.old).tells
        → IfOk result (λ weighs. weighs ≡ weighed (capacity_of volume.old) (free_in blocks.Takable volume.old.map) (volume_of (P.SectorView.space space.old).content) (tree_of (P.SectorView.space space.old).content) (command.Mv from.now to.now)) }
    ensures looked { Looked P.SectorView.space P.SectorView.follows volume.old volume.new space.old space.new result }
    ensures serves { Serves volume.new (P.SectorView.space space.new) }
{
    sound_has_plain_tree();
    let first = node(volume, alloc, space, from)?;
    let Some(moved) = file_in(first) else {
        return Ok(Weight::Refused(Refusal::Exists));
    };
    let second = node(volume, alloc, space, to)?;
    let Some(other) = file_in(second) else {
        return Ok(Weight::Refused(Refusal::Exists));
    };
    if other.0.fields.id == moved.0.fields.id {
        return Ok(Weight::Load {
            sectors: 0,
            grow: [0; 3],
        });
    }
    let loss = loss_edits(volume, &other.0, other.1);
    Ok(weigh_edits(volume, space, over_edits(loss)))
}

/// What `mv` needs from a name under a path to a name under another one.
fn weigh_mv_under<P: SectorSpace>(
    volume: &mut Volume,
    alloc: Global,
    space: &mut P,
    from: &Path,
    to: &Path,
    above: &[Units],
    old: &Units,
    under: &[Units],
    name: &Units,
) -> Result<Weight, Trouble>
    requires serves { Serves volume.old (P.SectorView.space space.old) }
    requires from_fits { FitsPath from.now }
    requires to_fits { FitsPath to.now }
    requires split { from.now ≡ path_to above.now old.now }
    requires goal_split { to.now ≡ path_to under.now name.now }
    requires not_own { is_private_path from.now ≡ false }
    requires goal_not_own { is_private_path to.now ≡ false }
    ensures answer { IsTrue (P.SectorView.space space.old).tells
        → IfOk result (λ weighs. weighs ≡ weighed (capacity_of volume.old) (free_in blocks.Takable volume.old.map) (volume_of (P.SectorView.space space.old).content) (tree_of (P.SectorView.space space.old).content) (command.Mv from.now to.now)) }
    ensures looked { Looked P.SectorView.space P.SectorView.follows volume.old volume.new space.old space.new result }
    ensures serves { Serves volume.new (P.SectorView.space space.new) }
{
    sound_has_plain_tree();
    match volume.route(alloc, space, from.as_slice(), above, under, name)? {
        Ok(_way) => {
            if is_below(to.as_slice(), from.as_slice()) {
                return Ok(Weight::Refused(Refusal::Inside));
            }
            let edits = Edits {
                ids: 0,
                catalog: 3,
                attributes: 0,
                updates: 3,
            };
            Ok(weigh_edits(volume, space, edits))
        }
        Err(why) => {
            if is_exists(why) {
                return weigh_over(volume, alloc, space, from, to);
            }
            Ok(Weight::Refused(why))
        }
    }
}

/// What `mv` needs.
pub(crate) fn weigh_mv<P: SectorSpace>(
    volume: &mut Volume,
    alloc: Global,
    space: &mut P,
    from: &Path,
    to: &Path,
) -> Result<Weight, Trouble>
    requires serves { Serves volume.old (P.SectorView.space space.old) }
    requires from_fits { FitsPath from.now }
    requires to_fits { FitsPath to.now }
    ensures answer { IsTrue (P.SectorView.space space.old).tells
        → IfOk result (λ weighs. weighs ≡ weighed (capacity_of volume.old) (free_in blocks.Takable volume.old.map) (volume_of (P.SectorView.space space.old).content) (tree_of (P.SectorView.space space.old).content) (command.Mv from.now to.now)) }
    ensures looked { Looked P.SectorView.space P.SectorView.follows volume.old volume.new space.old space.new result }
    ensures serves { Serves volume.new (P.SectorView.space space.new) }
{
    if is_private_path(from) {
        return Ok(Weight::Refused(Refusal::Private));
    }
    if is_private_path(to) {
        return Ok(Weight::Refused(Refusal::Private));
    }
    match from.as_slice().split_last() {
        Some((old, above)) => match to.as_slice().split_last() {
            Some((name, under)) => {
                weigh_mv_under(volume, alloc, space, from, to, above, old, under, name)
            }
            None => Ok(Weight::Refused(Refusal::Root)),
        },
        None => Ok(Weight::Refused(Refusal::Root)),
    }
}
