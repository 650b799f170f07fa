//! `rmdir` and `rm`, for which nothing is missing.
ghost use Rattle.std.specs.Prelude.{◌≡◌, false, IsTrue, IfOk, OnOk};
ghost use Rattle.hfs_language.specs.Written.{FitsPath};
ghost use Rattle.hfs_language.specs.declared.command.Command.TheVariants as command;
ghost use Rattle.hfs_volume.specs.Content.{has_attributes, volume_of};
ghost use Rattle.hfs_volume.specs.Weight.{edits};
ghost use Rattle.volume_base.specs.Fitting.{AreMetValued};
ghost use Rattle.volume_base.specs.Frame.{Edits, Frees, Serves};
ghost use Rattle.volume_base.specs.Weighing.{AreUsual};
ghost use Rattle.volume_base.specs.Room.{capacity_of};
ghost use Rattle.volume_step.specs.Loads.{IsWithinLoad};
ghost use Rattle.volume_step.specs.Steps.{Affords, IsDoneOk, IsMet, KeepsJournal, StepsNow};

use crate::outcome::Outcome;
use hfs_language::{ChangeKind, Path};
use hfs_volume::sound_has_plain_tree;
use hx_bytes::Trouble;
use sector_disk::SectorSpace;
use std::alloc::Global;
use tree_weights::{
    a_load_is_of_parts, a_load_says_enough, trees_grow_by_enough, trees_hold_three,
};
use volume_base::{OwnedValues, Volume};
use volume_names::{fits_bare, fits_lose, rm, rmdir, values_to_remove};

/// Removes a folder with these attributes. Where the room that there is doesn't suffice, a commit comes first.
fn remove_with<P: SectorSpace>(
    alloc: Global,
    volume: &mut Volume,
    space: &mut P,
    number: u64,
    path: &Path,
    owned: OwnedValues,
) -> Result<Outcome, Trouble>
    requires serves { Serves volume.old (P.SectorView.space space.old) }
    requires fits { FitsPath path.now }
    requires small { AreUsual owned.count owned.change }
    requires gone { owned.change.blocks ≡ 0 }
    requires affords { IsTrue (P.SectorView.space space.old).tells → Affords (capacity_of volume.old) (command.Rmdir path.now) (P.SectorView.space space.old).content }
    ensures answered { IsTrue (P.SectorView.space space.old).tells → IfOk result (λ outcome. StepsNow outcome (capacity_of volume.old) number (command.Rmdir path.now) (P.SectorView.space space.old).content (P.SectorView.space space.new).content) }
    ensures done { IsTrue (P.SectorView.space space.old).tells → AreMetValued (edits 0 2 owned.count 1) owned.change volume.old (P.SectorView.space space.old) → (has_attributes (volume_of (P.SectorView.space space.old).content).head ≡ false → owned.count ≡ 0) → IfOk result IsDoneOk }
    ensures place { IsTrue (P.SectorView.space space.old).tells → OnOk result (KeepsJournal (P.SectorView.space space.old).content (P.SectorView.space space.new).content) }
    ensures serves { OnOk result (Serves volume.new (P.SectorView.space space.new)) }
    ensures frees { Frees P.SectorView.space P.SectorView.follows volume.old volume.new space.old space.new result }
    ensures loads { IsTrue (P.SectorView.space space.old).tells → IsWithinLoad (command.Rmdir path.now) volume.old (P.SectorView.space space.old) (P.SectorView.space space.new) }
{
    a_load_says_enough();
    a_load_is_of_parts();
    trees_grow_by_enough();
    trees_hold_three();
    let changes = volume.change_at(alloc, space, number, ChangeKind::Removed, path)?;
    if !volume.fits_remove(space) {
        return Ok(Outcome::CommitFirst);
    }
    if !fits_bare(volume, space, owned) {
        return Ok(Outcome::CommitFirst);
    }
    let reply = rmdir(volume, alloc, space, path)?;
    Ok(Outcome::Answered { reply, changes })
}

/// Removes a folder.
pub(crate) fn remove_folder<P: SectorSpace>(
    alloc: Global,
    volume: &mut Volume,
    space: &mut P,
    number: u64,
    path: &Path,
) -> Result<Outcome, Trouble>
    requires serves { Serves volume.old (P.SectorView.space space.old) }
    requires fits { FitsPath path.now }
    requires affords { IsTrue (P.SectorView.space space.old).tells → Affords (capacity_of volume.old) (command.Rmdir path.now) (P.SectorView.space space.old).content }
    ensures answered { IsTrue (P.SectorView.space space.old).tells → IfOk result (λ outcome. StepsNow outcome (capacity_of volume.old) number (command.Rmdir path.now) (P.SectorView.space space.old).content (P.SectorView.space space.new).content) }
    ensures done { IsTrue (P.SectorView.space space.old).tells → IsMet (command.Rmdir path.now) volume.old (P.SectorView.space space.old) → IfOk result IsDoneOk }
    ensures place { IsTrue (P.SectorView.space space.old).tells → OnOk result (KeepsJournal (P.SectorView.space space.old).content (P.SectorView.space space.new).content) }
    ensures serves { OnOk result (Serves volume.new (P.SectorView.space space.new)) }
    ensures frees { Frees P.SectorView.space P.SectorView.follows volume.old volume.new space.old space.new result }
    ensures loads { IsTrue (P.SectorView.space space.old).tells → IsWithinLoad (command.Rmdir path.now) volume.old (P.SectorView.space space.old) (P.SectorView.space space.new) }
{
    sound_has_plain_tree();
    let owned = values_to_remove(volume, alloc, space, path)?;
    remove_with(alloc, volume, space, number, path, owned)
}

/// Removes a file. Where the room doesn't suffice by numbers alone, a commit comes first.
pub(crate) fn remove_file<P: SectorSpace>(
    alloc: Global,
    volume: &mut Volume,
    space: &mut P,
    number: u64,
    path: &Path,
) -> Result<Outcome, Trouble>
    requires serves { Serves volume.old (P.SectorView.space space.old) }
    requires fits { FitsPath path.now }
    requires affords { IsTrue (P.SectorView.space space.old).tells → Affords (capacity_of volume.old) (command.Rm path.now) (P.SectorView.space space.old).content }
    ensures answered { IsTrue (P.SectorView.space space.old).tells → IfOk result (λ outcome. StepsNow outcome (capacity_of volume.old) number (command.Rm path.now) (P.SectorView.space space.old).content (P.SectorView.space space.new).content) }
    ensures done { IsTrue (P.SectorView.space space.old).tells → IsMet (command.Rm path.now) volume.old (P.SectorView.space space.old) → IfOk result IsDoneOk }
    ensures place { IsTrue (P.SectorView.space space.old).tells → OnOk result (KeepsJournal (P.SectorView.space space.old).content (P.SectorView.space space.new).content) }
    ensures serves { OnOk result (Serves volume.new (P.SectorView.space space.new)) }
    ensures edits { Edits P.SectorView.space P.SectorView.follows (P.SectorView.space space.old).spare volume.old volume.new space.old space.new result }
    ensures loads { IsTrue (P.SectorView.space space.old).tells → IsWithinLoad (command.Rm path.now) volume.old (P.SectorView.space space.old) (P.SectorView.space space.new) }
{
    a_load_says_enough();
    a_load_is_of_parts();
    trees_grow_by_enough();
    trees_hold_three();
    sound_has_plain_tree();
    let changes = volume.change_at(alloc, space, number, ChangeKind::Removed, path)?;
    if !fits_lose(volume, space) {
        return Ok(Outcome::CommitFirst);
    }
    let reply = rm(volume, alloc, space, path)?;
    Ok(Outcome::Answered { reply, changes })
}
