//! What commands on links and resource forks weigh.
ghost use Rattle.std.specs.Prelude.{◌≡◌, ◌≤◌, ◌+◌, ◌^◌, true, false, is_some, length, IsTrue, IfOk, IfSome};
ghost use Rattle.hfs_language.specs.Written.{FitsPath};
ghost use Rattle.hfs_model.specs.Step.{is_private_path};
ghost use Rattle.hfs_model.specs.Targets.{is_target};
ghost use Rattle.volume_base.specs.Making.{path_to};
ghost use Rattle.hfs_model.specs.declared.kinds.KindEdit.TheVariants as edit;
ghost use Rattle.hfs_volume.specs.Content.{volume_of};
ghost use Rattle.hfs_volume.specs.KindWeight.{kind_only_reads};
ghost use Rattle.hfs_volume.specs.TreeOf.{tree_of};
ghost use Rattle.volume_base.specs.Frame.{Looked, Serves};
ghost use Rattle.volume_base.specs.Room.{capacity_of, free_in};
ghost use Rattle.volume_base.specs.declared.room.FreeBlocks.TheVariants as blocks;
ghost use Rattle.volume_runs.specs.Fits.{FitsEdit};
ghost use Rattle.volume_links.specs.Resources.{IsResourceOf};
ghost use Rattle.volume_links.specs.Steps.{KindWaitsForCut, kind_weighed, site_weighed};

use crate::resources::{Resource, to_write};
use hfs_language::{Path, Refusal};
use hfs_model::KindEdit;
use hfs_volume::sound_has_plain_tree;
use hx_bytes::{OutOfMemory, Trouble, Units};
use link_text::read_target;
use sector_disk::SectorSpace;
use std::alloc::Global;
use volume_base::{Edits, ForkKind, Put, Volume, Weight, is_private_path};
use volume_weights::{weigh_edits, weigh_put, weigh_target};

/// Whether a value is the text of a link.
fn is_target(alloc: Global, value: &[u8]) -> Result<bool, OutOfMemory>
    ensures exact { IfOk result (λ is. is ≡ is_target value.now) }
    ensures few { IfOk result (λ is. IsTrue is → length value.now ≤ 2 ^ 40) }
{
    let components = read_target(alloc, value)?;
    if let Some(_components) = components {
        return Ok(true);
    }
    Ok(false)
}

/// What a link of so many bytes weighs where it may be made; its value is the text of a link, or refused.
fn site_weight<P: SectorSpace>(volume: &Volume, space: &P, good: bool, long: usize) -> Weight
    requires serves { Serves volume.now (P.SectorView.space space.now) }
    requires few { IsTrue good → long ≤ 2 ^ 40 }
    ensures exact { IsTrue (P.SectorView.space space.now).tells → result ≡ site_weighed good (capacity_of volume.now) (free_in blocks.Takable volume.now.map) (volume_of (P.SectorView.space space.now).content) long }
{
    if good {
        return weigh_target(volume, space, long as u64);
    }
    Weight::Refused(Refusal::BadTarget)
}

/// What `symlink` weighs below the root.
fn weigh_link<P: SectorSpace>(
    volume: &mut Volume,
    alloc: Global,
    space: &mut P,
    above: &[Units],
    name: &Units,
    value: &[u8],
) -> Result<Weight, Trouble>
    requires serves { Serves volume.old (P.SectorView.space space.old) }
    requires fits { FitsPath (path_to above.now name.now) }
    requires not_own { is_private_path (path_to above.now name.now) ≡ false }
    ensures answer { IsTrue (P.SectorView.space space.old).tells
        → IfOk result (λ weighs. weighs ≡ kind_weighed (capacity_of volume.old) (free_in blocks.Takable volume.old.map) (volume_of (P.SectorView.space space.old).content) (tree_of (P.SectorView.space space.old).content) (edit.Symlink (path_to above.now name.now) value.now)) }
    ensures looked { Looked P.SectorView.space P.SectorView.follows volume.old volume.new space.old space.new result }
    ensures serves { Serves volume.new (P.SectorView.space space.new) }
{
    sound_has_plain_tree();
    let good = is_target(alloc, value)?;
    let site = volume.site(alloc, space, above, name)?;
    match site {
        Ok(_id) => Ok(site_weight(volume, space, good, value.len())),
        Err(why) => Ok(Weight::Refused(why)),
    }
}

/// What `symlink` weighs.
fn weigh_symlink<P: SectorSpace>(
    volume: &mut Volume,
    alloc: Global,
    space: &mut P,
    path: &Path,
    value: &[u8],
) -> Result<Weight, Trouble>
    requires serves { Serves volume.old (P.SectorView.space space.old) }
    requires fits { FitsPath path.now }
    ensures answer { IsTrue (P.SectorView.space space.old).tells
        → IfOk result (λ weighs. weighs ≡ kind_weighed (capacity_of volume.old) (free_in blocks.Takable volume.old.map) (volume_of (P.SectorView.space space.old).content) (tree_of (P.SectorView.space space.old).content) (edit.Symlink path.now value.now)) }
    ensures looked { Looked P.SectorView.space P.SectorView.follows volume.old volume.new space.old space.new result }
    ensures serves { Serves volume.new (P.SectorView.space space.new) }
{
    if is_private_path(path) {
        return Ok(Weight::Refused(Refusal::Private));
    }
    match path.as_slice().split_last() {
        Some((name, above)) => weigh_link(volume, alloc, space, above, name, value),
        None => Ok(Weight::Refused(Refusal::Root)),
    }
}

/// What these bytes weigh that go into a resource fork; nothing is told where it would grow and has blocks past its size.
fn weigh_resource<P: SectorSpace>(
    volume: &mut Volume,
    alloc: Global,
    space: &mut P,
    _path: &Path,
    fork: Resource,
    from: u64,
    value: &[u8],
) -> Result<Option<Weight>, Trouble>
    requires serves { Serves volume.old (P.SectorView.space space.old) }
    requires small { from + length value.now ≤ 2 ^ 40 }
    requires there { IsTrue (P.SectorView.space space.old).tells → IsResourceOf (tree_of (P.SectorView.space space.old).content) _path.now from value.now fork }
    ensures answer { IsTrue (P.SectorView.space space.old).tells
        → IfOk result (λ said. IfSome said (λ weighs. weighs ≡ kind_weighed (capacity_of volume.old) (free_in blocks.Takable volume.old.map) (volume_of (P.SectorView.space space.old).content) (tree_of (P.SectorView.space space.old).content) (edit.ResourceWrite _path.now from value.now))) }
    ensures waits { IsTrue (P.SectorView.space space.old).tells → IfOk result (λ said. is_some said ≡ false → KindWaitsForCut (P.SectorView.space space.old).content (edit.ResourceWrite _path.now from value.now)) }
    ensures cuts { IsTrue (P.SectorView.space space.old).tells → KindWaitsForCut (P.SectorView.space space.old).content (edit.ResourceWrite _path.now from value.now) → IfOk result (λ said. is_some said ≡ false) }
    ensures looked { Looked P.SectorView.space P.SectorView.follows volume.old volume.new space.old space.new result }
    ensures serves { Serves volume.new (P.SectorView.space space.new) }
{
    if !value.is_empty() {
        let put = Put {
            id: fork.id,
            old_size: fork.size,
            from,
            end: from + value.len() as u64,
        };
        return weigh_put(volume, alloc, space, ForkKind::Resource, put);
    }
    let edits = Edits {
        ids: 0,
        catalog: 0,
        attributes: 0,
        updates: 1,
    };
    Ok(Some(weigh_edits(volume, space, edits)))
}

/// What `rwrite` weighs; nothing is told where the fork would grow and has blocks past its size.
fn weigh_rwrite<P: SectorSpace>(
    volume: &mut Volume,
    alloc: Global,
    space: &mut P,
    path: &Path,
    from: u64,
    value: &[u8],
) -> Result<Option<Weight>, Trouble>
    requires serves { Serves volume.old (P.SectorView.space space.old) }
    requires fits { FitsPath path.now }
    ensures answer { IsTrue (P.SectorView.space space.old).tells
        → IfOk result (λ said. IfSome said (λ weighs. weighs ≡ kind_weighed (capacity_of volume.old) (free_in blocks.Takable volume.old.map) (volume_of (P.SectorView.space space.old).content) (tree_of (P.SectorView.space space.old).content) (edit.ResourceWrite path.now from value.now))) }
    ensures waits { IsTrue (P.SectorView.space space.old).tells → IfOk result (λ said. is_some said ≡ false → KindWaitsForCut (P.SectorView.space space.old).content (edit.ResourceWrite path.now from value.now)) }
    ensures cuts { IsTrue (P.SectorView.space space.old).tells → KindWaitsForCut (P.SectorView.space space.old).content (edit.ResourceWrite path.now from value.now) → IfOk result (λ said. is_some said ≡ false) }
    ensures looked { Looked P.SectorView.space P.SectorView.follows volume.old volume.new space.old space.new result }
    ensures serves { Serves volume.new (P.SectorView.space space.new) }
{
    let found = to_write(volume, alloc, space, path, from, value)?;
    match found {
        Ok(fork) => weigh_resource(volume, alloc, space, path, fork, from, value),
        Err(why) => Ok(Some(Weight::Refused(why))),
    }
}

/// What a command needs before its step: that it is refused, by its step or for want of a resource; that a commit comes first; or how many
/// sectors it puts at most, and by how much the trees grow before. It changes nothing. Nothing is told of `rread`, nor, where its step doesn't
/// refuse it, of `rwrite` that puts data where blocks past the fork's size go first. `Memory` comes where memory is wanting, `Disk` where a read
/// failed.
pub fn kind_weigh<P: SectorSpace>(
    volume: &mut Volume,
    alloc: Global,
    space: &mut P,
    edit: &KindEdit,
) -> Result<Option<Weight>, Trouble>
    requires serves { Serves volume.old (P.SectorView.space space.old) }
    requires fits { FitsEdit edit.now }
    // Where the space tells, it is what the command weighs on this content.
    ensures answer { IsTrue (P.SectorView.space space.old).tells
        → IfOk result (λ said. IfSome said (λ weighs. weighs ≡ kind_weighed (capacity_of volume.old) (free_in blocks.Takable volume.old.map) (volume_of (P.SectorView.space space.old).content) (tree_of (P.SectorView.space space.old).content) edit.now)) }
    // Nothing is told of `rread`, and, where its step doesn't refuse it, of `rwrite` that puts data where blocks past the fork's size go first: of no other.
    ensures waits { IsTrue (P.SectorView.space space.old).tells → kind_only_reads edit.now ≡ false
        → IfOk result (λ said. is_some said ≡ false → KindWaitsForCut (P.SectorView.space space.old).content edit.now) }
    ensures cuts { IsTrue (P.SectorView.space space.old).tells → KindWaitsForCut (P.SectorView.space space.old).content edit.now → IfOk result (λ said. is_some said ≡ false) }
    ensures looked { Looked P.SectorView.space P.SectorView.follows volume.old volume.new space.old space.new result }
    ensures serves { Serves volume.new (P.SectorView.space space.new) }
{
    match edit {
        KindEdit::Symlink { path, value } => {
            let weight = weigh_symlink(volume, alloc, space, path, value.as_slice())?;
            Ok(Some(weight))
        }
        KindEdit::ResourceWrite { path, from, value } => {
            weigh_rwrite(volume, alloc, space, path, *from, value.as_slice())
        }
        KindEdit::ResourceRead { .. } => Ok(None),
    }
}
