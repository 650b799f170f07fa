//! `mkdir`, `create` and `mv`, for which nothing is missing.
ghost use Rattle.std.specs.Prelude.{◌≡◌, true, IsTrue, IfOk, OnOk};
ghost use Rattle.hfs_language.specs.Written.{FitsPath};
ghost use Rattle.hfs_language.specs.declared.command.Command.TheVariants as command;
ghost use Rattle.hfs_volume.specs.TreeOf.{tree_of};
ghost use Rattle.hfs_volume.specs.Weight.{changes_nothing};
ghost use Rattle.volume_base.specs.Frame.{Edits, Serves};
ghost use Rattle.volume_base.specs.Room.{capacity_of};
ghost use Rattle.volume_step.specs.Loads.{IsWithinLoad};
ghost use Rattle.volume_step.specs.Steps.{Affords, IsDoneOk, IsMet, KeepsJournal, StepsNow};

use crate::outcome::Outcome;
use hfs_language::{Path, Reply};
use hfs_volume::sound_has_plain_tree;
use hx_bytes::Trouble;
use sector_disk::SectorSpace;
use std::alloc::Global;
use tree_weights::{
    a_load_is_of_parts, a_load_says_enough, trees_grow_by_enough, trees_hold_three,
};
use volume_base::Volume;
use volume_names::{create, fits_make, fits_move, mkdir, mv};

/// Makes a folder. Where the room that there is doesn't suffice, a commit comes first.
pub(crate) fn make_folder<P: SectorSpace>(
    alloc: Global,
    volume: &mut Volume,
    space: &mut P,
    number: u64,
    path: &Path,
) -> Result<Outcome, Trouble>
    requires serves { Serves volume.old (P.SectorView.space space.old) }
    requires fits { FitsPath path.now }
    requires affords { IsTrue (P.SectorView.space space.old).tells → Affords (capacity_of volume.old) (command.Mkdir path.now) (P.SectorView.space space.old).content }
    ensures answered { IsTrue (P.SectorView.space space.old).tells → IfOk result (λ outcome. StepsNow outcome (capacity_of volume.old) number (command.Mkdir path.now) (P.SectorView.space space.old).content (P.SectorView.space space.new).content) }
    ensures done { IsTrue (P.SectorView.space space.old).tells → IsMet (command.Mkdir path.now) volume.old (P.SectorView.space space.old) → IfOk result IsDoneOk }
    ensures place { IsTrue (P.SectorView.space space.old).tells → OnOk result (KeepsJournal (P.SectorView.space space.old).content (P.SectorView.space space.new).content) }
    ensures serves { OnOk result (Serves volume.new (P.SectorView.space space.new)) }
    ensures edits { Edits P.SectorView.space P.SectorView.follows (P.SectorView.space space.old).spare volume.old volume.new space.old space.new result }
    ensures loads { IsTrue (P.SectorView.space space.old).tells → IsWithinLoad (command.Mkdir path.now) volume.old (P.SectorView.space space.old) (P.SectorView.space space.new) }
{
    if !fits_make(volume, space) {
        return Ok(Outcome::CommitFirst);
    }
    let changes = mkdir(volume, alloc, space, number, path)?;
    Ok(Outcome::Answered {
        reply: Reply::Ok,
        changes,
    })
}

/// Makes an empty file. Where the room that there is doesn't suffice, a commit comes first.
pub(crate) fn make_file<P: SectorSpace>(
    alloc: Global,
    volume: &mut Volume,
    space: &mut P,
    number: u64,
    path: &Path,
) -> Result<Outcome, Trouble>
    requires serves { Serves volume.old (P.SectorView.space space.old) }
    requires fits { FitsPath path.now }
    requires affords { IsTrue (P.SectorView.space space.old).tells → Affords (capacity_of volume.old) (command.Create path.now) (P.SectorView.space space.old).content }
    ensures answered { IsTrue (P.SectorView.space space.old).tells → IfOk result (λ outcome. StepsNow outcome (capacity_of volume.old) number (command.Create path.now) (P.SectorView.space space.old).content (P.SectorView.space space.new).content) }
    ensures done { IsTrue (P.SectorView.space space.old).tells → IsMet (command.Create path.now) volume.old (P.SectorView.space space.old) → IfOk result IsDoneOk }
    ensures place { IsTrue (P.SectorView.space space.old).tells → OnOk result (KeepsJournal (P.SectorView.space space.old).content (P.SectorView.space space.new).content) }
    ensures serves { OnOk result (Serves volume.new (P.SectorView.space space.new)) }
    ensures edits { Edits P.SectorView.space P.SectorView.follows (P.SectorView.space space.old).spare volume.old volume.new space.old space.new result }
    ensures loads { IsTrue (P.SectorView.space space.old).tells → IsWithinLoad (command.Create path.now) volume.old (P.SectorView.space space.old) (P.SectorView.space space.new) }
{
    if !fits_make(volume, space) {
        return Ok(Outcome::CommitFirst);
    }
    let changes = create(volume, alloc, space, number, path)?;
    Ok(Outcome::Answered {
        reply: Reply::Ok,
        changes,
    })
}

/// Moves a folder or file. Where the room that there is doesn't suffice, a commit comes first.
pub(crate) fn move_entry<P: SectorSpace>(
    alloc: Global,
    volume: &mut Volume,
    space: &mut P,
    number: u64,
    from: &Path,
    to: &Path,
) -> Result<Outcome, Trouble>
    requires serves { Serves volume.old (P.SectorView.space space.old) }
    requires from_fits { FitsPath from.now }
    requires to_fits { FitsPath to.now }
    requires affords { IsTrue (P.SectorView.space space.old).tells → Affords (capacity_of volume.old) (command.Mv from.now to.now) (P.SectorView.space space.old).content }
    ensures answered { IsTrue (P.SectorView.space space.old).tells → IfOk result (λ outcome. StepsNow outcome (capacity_of volume.old) number (command.Mv from.now to.now) (P.SectorView.space space.old).content (P.SectorView.space space.new).content) }
    ensures done { IsTrue (P.SectorView.space space.old).tells → IsMet (command.Mv from.now to.now) volume.old (P.SectorView.space space.old) → IfOk result IsDoneOk }
    // Where it moves a file onto itself, it is done at once.
    ensures still { IsTrue (P.SectorView.space space.old).tells → changes_nothing (tree_of (P.SectorView.space space.old).content) (command.Mv from.now to.now) ≡ true → IfOk result IsDoneOk }
    ensures place { IsTrue (P.SectorView.space space.old).tells → OnOk result (KeepsJournal (P.SectorView.space space.old).content (P.SectorView.space space.new).content) }
    ensures serves { OnOk result (Serves volume.new (P.SectorView.space space.new)) }
    ensures edits { Edits P.SectorView.space P.SectorView.follows (P.SectorView.space space.old).spare volume.old volume.new space.old space.new result }
    ensures loads { IsTrue (P.SectorView.space space.old).tells → IsWithinLoad (command.Mv from.now to.now) volume.old (P.SectorView.space space.old) (P.SectorView.space space.new) }
{
    a_load_says_enough();
    a_load_is_of_parts();
    trees_grow_by_enough();
    trees_hold_three();
    sound_has_plain_tree();
    let changes = volume.change_moved(alloc, space, number, from, to)?;
    // Watchers are told nothing of a file that is moved onto itself alone.
    if changes.is_empty() {
        return Ok(Outcome::Answered {
            reply: Reply::Ok,
            changes,
        });
    }
    if !fits_move(volume, space) {
        return Ok(Outcome::CommitFirst);
    }
    let reply = mv(volume, alloc, space, from, to)?;
    Ok(Outcome::Answered { reply, changes })
}
