//! `weigh`: what a command needs before its step.
ghost use Rattle.std.specs.Prelude.{◌≡◌, ◌≤◌, ℕ, Bool, false, is_some, List, Ok, IsTrue, IfOk, IfSome, length};
ghost use Rattle.hfs_language.specs.Written.{FitsCommand, FitsPath};
ghost use Rattle.hfs_language.specs.declared.command.Command.TheVariants as command;
ghost use Rattle.hfs_model.specs.Step.{is_private_path, only_reads};
ghost use Rattle.hfs_volume.specs.Content.{volume_of};
ghost use Rattle.hfs_volume.specs.TreeOf.{tree_of};
ghost use Rattle.volume_weights.specs.DataWeighing.{WaitsForCut};
ghost use Rattle.volume_base.specs.Frame.{Looked, Serves};
ghost use Rattle.volume_base.specs.Making.{making, path_to};
ghost use Rattle.volume_base.specs.Room.{capacity_of, free_in};
ghost use Rattle.volume_base.specs.declared.room.FreeBlocks.TheVariants as blocks;
ghost use Rattle.volume_base.specs.Weighing.{weighed};

use crate::data_weight::{weigh_trunc, weigh_write};
use crate::link_weight::weigh_ln;
use crate::lose_weight::weigh_rm;
use crate::move_weight::weigh_mv;
use crate::remove_weight::weigh_rmdir;
use crate::value_weight::{weigh_delattr, weigh_setattr};
use crate::weighing::weigh_edits;
use hfs_language::{Command, Path, Refusal};
use hfs_volume::sound_has_plain_tree;
use hx_bytes::{Trouble, Units};
use sector_disk::SectorSpace;
use std::alloc::Global;
use volume_base::{Edits, Volume, Weight, is_private_path};

/// What `at` needs. It can't be refused by its step.
fn weigh_at<P: SectorSpace>(volume: &Volume, space: &P) -> Weight
    requires serves { Serves volume.now (P.SectorView.space space.now) }
    ensures answer { IsTrue (P.SectorView.space space.now).tells → (moment : ℕ) → result ≡ weighed (capacity_of volume.now) (free_in blocks.Takable volume.now.map) (volume_of (P.SectorView.space space.now).content) (tree_of (P.SectorView.space space.now).content) (command.At moment) }
{
    let edits = Edits {
        ids: 0,
        catalog: 0,
        attributes: 0,
        updates: 0,
    };
    weigh_edits(volume, space, edits)
}

/// What `chmod` needs.
fn weigh_chmod<P: SectorSpace>(
    volume: &mut Volume,
    alloc: Global,
    space: &mut P,
    path: &Path,
) -> Result<Weight, Trouble>
    requires serves { Serves volume.old (P.SectorView.space space.old) }
    requires fits { FitsPath path.now }
    ensures answer { IsTrue (P.SectorView.space space.old).tells → (rights : ℕ)
        → IfOk result (λ weighs. weighs ≡ weighed (capacity_of volume.old) (free_in blocks.Takable volume.old.map) (volume_of (P.SectorView.space space.old).content) (tree_of (P.SectorView.space space.old).content) (command.Chmod path.now rights)) }
    ensures looked { Looked P.SectorView.space P.SectorView.follows volume.old volume.new space.old space.new result }
    ensures serves { Serves volume.new (P.SectorView.space space.new) }
{
    if is_private_path(path) {
        return Ok(Weight::Refused(Refusal::Private));
    }
    sound_has_plain_tree();
    match volume.owner(alloc, space, path)? {
        Ok(_id) => {
            let edits = Edits {
                ids: 0,
                catalog: 0,
                attributes: 0,
                updates: 1,
            };
            Ok(weigh_edits(volume, space, edits))
        }
        Err(why) => Ok(Weight::Refused(why)),
    }
}

/// What `mkdir` and `create` need for a name under a path.
fn weigh_under<P: SectorSpace>(
    volume: &mut Volume,
    alloc: Global,
    space: &mut P,
    above: &[Units],
    name: &Units,
) -> Result<Weight, Trouble>
    requires serves { Serves volume.old (P.SectorView.space space.old) }
    requires fits { FitsPath (path_to above.now name.now) }
    requires not_own { is_private_path (path_to above.now name.now) ≡ false }
    ensures answer { IsTrue (P.SectorView.space space.old).tells → (folder : Bool)
        → IfOk result (λ weighs. weighs ≡ weighed (capacity_of volume.old) (free_in blocks.Takable volume.old.map) (volume_of (P.SectorView.space space.old).content) (tree_of (P.SectorView.space space.old).content) (making folder (path_to above.now name.now))) }
    ensures looked { Looked P.SectorView.space P.SectorView.follows volume.old volume.new space.old space.new result }
    ensures serves { Serves volume.new (P.SectorView.space space.new) }
{
    sound_has_plain_tree();
    match volume.site(alloc, space, above, name)? {
        Ok(_id) => {
            let edits = Edits {
                ids: 1,
                catalog: 2,
                attributes: 0,
                updates: 1,
            };
            Ok(weigh_edits(volume, space, edits))
        }
        Err(why) => Ok(Weight::Refused(why)),
    }
}

/// What `mkdir` and `create` need.
fn weigh_make<P: SectorSpace>(
    volume: &mut Volume,
    alloc: Global,
    space: &mut P,
    path: &Path,
) -> Result<Weight, Trouble>
    requires serves { Serves volume.old (P.SectorView.space space.old) }
    requires fits { FitsPath path.now }
    ensures answer { IsTrue (P.SectorView.space space.old).tells → (folder : Bool)
        → IfOk result (λ weighs. weighs ≡ weighed (capacity_of volume.old) (free_in blocks.Takable volume.old.map) (volume_of (P.SectorView.space space.old).content) (tree_of (P.SectorView.space space.old).content) (making folder path.now)) }
    ensures looked { Looked P.SectorView.space P.SectorView.follows volume.old volume.new space.old space.new result }
    ensures serves { Serves volume.new (P.SectorView.space space.new) }
{
    if is_private_path(path) {
        return Ok(Weight::Refused(Refusal::Private));
    }
    match path.as_slice().split_last() {
        Some((name, above)) => weigh_under(volume, alloc, space, above, name),
        None => Ok(Weight::Refused(Refusal::Root)),
    }
}

/// What `mkdir` needs.
fn weigh_mkdir<P: SectorSpace>(
    volume: &mut Volume,
    alloc: Global,
    space: &mut P,
    path: &Path,
) -> Result<Weight, Trouble>
    requires serves { Serves volume.old (P.SectorView.space space.old) }
    requires fits { FitsPath path.now }
    ensures answer { IsTrue (P.SectorView.space space.old).tells
        → IfOk result (λ weighs. weighs ≡ weighed (capacity_of volume.old) (free_in blocks.Takable volume.old.map) (volume_of (P.SectorView.space space.old).content) (tree_of (P.SectorView.space space.old).content) (command.Mkdir path.now)) }
    ensures looked { Looked P.SectorView.space P.SectorView.follows volume.old volume.new space.old space.new result }
    ensures serves { Serves volume.new (P.SectorView.space space.new) }
{
    weigh_make(volume, alloc, space, path)
}

/// What `create` needs.
fn weigh_create<P: SectorSpace>(
    volume: &mut Volume,
    alloc: Global,
    space: &mut P,
    path: &Path,
) -> Result<Weight, Trouble>
    requires serves { Serves volume.old (P.SectorView.space space.old) }
    requires fits { FitsPath path.now }
    ensures answer { IsTrue (P.SectorView.space space.old).tells
        → IfOk result (λ weighs. weighs ≡ weighed (capacity_of volume.old) (free_in blocks.Takable volume.old.map) (volume_of (P.SectorView.space space.old).content) (tree_of (P.SectorView.space space.old).content) (command.Create path.now)) }
    ensures looked { Looked P.SectorView.space P.SectorView.follows volume.old volume.new space.old space.new result }
    ensures serves { Serves volume.new (P.SectorView.space space.new) }
{
    weigh_make(volume, alloc, space, path)
}

/// What a command needs before its step: that it is refused, by its step or for want of a resource; that a commit comes
/// first; or how many sectors it puts at most, and by how much the trees grow before. It changes nothing. Of a command that
/// only reads nothing is told, nor, where its step doesn't refuse it, of `write` and `trunc` that put data where blocks past a file's size
/// go first. `Memory` comes where memory is wanting, `Disk` where a read failed.
pub fn weigh<P: SectorSpace>(
    volume: &mut Volume,
    alloc: Global,
    space: &mut P,
    command: &Command,
) -> Result<Option<Weight>, Trouble>
    requires serves { Serves volume.old (P.SectorView.space space.old) }
    requires fits { FitsCommand command.now }
    // Where the space tells, it is what the command weighs on this content.
    ensures answer { IsTrue (P.SectorView.space space.old).tells
        → IfOk result (λ said. IfSome said (λ weighs. weighs ≡ weighed (capacity_of volume.old) (free_in blocks.Takable volume.old.map) (volume_of (P.SectorView.space space.old).content) (tree_of (P.SectorView.space space.old).content) command.now)) }
    // Nothing is told of a command that only reads, or of one that its step doesn't refuse and that puts data where blocks past a file's
    // size go first.
    ensures waits { IsTrue (P.SectorView.space space.old).tells → only_reads command.now ≡ false
        → IfOk result (λ said. is_some said ≡ false → WaitsForCut (P.SectorView.space space.old).content command.now) }
    // Of each such command nothing is told.
    ensures cuts { IsTrue (P.SectorView.space space.old).tells → WaitsForCut (P.SectorView.space space.old).content command.now → IfOk result (λ said. is_some said ≡ false) }
    ensures looked { Looked P.SectorView.space P.SectorView.follows volume.old volume.new space.old space.new result }
    ensures serves { Serves volume.new (P.SectorView.space space.new) }
{
    match command {
        Command::At(_) => Ok(Some(weigh_at(volume, space))),
        Command::Chmod { path, .. } => Ok(Some(weigh_chmod(volume, alloc, space, path)?)),
        Command::SetAttr { path, name, value } => {
            Ok(Some(weigh_setattr(volume, alloc, space, path, name, value.as_slice())?))
        }
        Command::DelAttr { path, name } => {
            Ok(Some(weigh_delattr(volume, alloc, space, path, name)?))
        }
        Command::Mkdir(path) => Ok(Some(weigh_mkdir(volume, alloc, space, path)?)),
        Command::Create(path) => Ok(Some(weigh_create(volume, alloc, space, path)?)),
        Command::Rmdir(path) => Ok(Some(weigh_rmdir(volume, alloc, space, path)?)),
        Command::Mv(from, to) => Ok(Some(weigh_mv(volume, alloc, space, from, to)?)),
        Command::Rm(path) => Ok(Some(weigh_rm(volume, alloc, space, path)?)),
        Command::Ln(from, to) => Ok(Some(weigh_ln(volume, alloc, space, from, to)?)),
        Command::Write { path, from, value } => {
            weigh_write(volume, alloc, space, path, *from, value.as_slice())
        }
        Command::Trunc { path, size } => weigh_trunc(volume, alloc, space, path, *size),
        Command::Read { .. }
        | Command::Ls(_)
        | Command::Stat(_)
        | Command::GetAttr { .. }
        | Command::LsAttr(_)
        | Command::Df
        | Command::Sync => Ok(None),
    }
}
