//! `ln`, for which nothing is missing.
ghost use Rattle.std.specs.Prelude.{IsTrue, IfOk, OnOk};
ghost use Rattle.hfs_language.specs.Written.{FitsPath};
ghost use Rattle.hfs_language.specs.declared.command.Command.TheVariants as command;
ghost use Rattle.volume_base.specs.Frame.{Edits, Serves};
ghost use Rattle.volume_base.specs.Room.{capacity_of};
ghost use Rattle.volume_step.specs.Loads.{IsWithinLoad};
ghost use Rattle.volume_step.specs.Steps.{Affords, IsDoneOk, IsMet, KeepsJournal, StepsNow};

use crate::outcome::Outcome;
use hfs_language::Path;
use hx_bytes::Trouble;
use sector_disk::SectorSpace;
use std::alloc::Global;
use tree_weights::{
    a_load_is_of_parts, a_load_says_enough, trees_grow_by_enough, trees_hold_three,
};
use volume_base::Volume;
use volume_names::{fits_make, ln};

/// Gives a file another name. Where the room that there is doesn't suffice, a commit comes first.
pub(crate) fn link_file<P: SectorSpace>(
    alloc: Global,
    volume: &mut Volume,
    space: &mut P,
    number: u64,
    from: &Path,
    to: &Path,
) -> Result<Outcome, Trouble>
    requires serves { Serves volume.old (P.SectorView.space space.old) }
    requires from_fits { FitsPath from.now }
    requires to_fits { FitsPath to.now }
    requires affords { IsTrue (P.SectorView.space space.old).tells → Affords (capacity_of volume.old) (command.Ln from.now to.now) (P.SectorView.space space.old).content }
    ensures answered { IsTrue (P.SectorView.space space.old).tells → IfOk result (λ outcome. StepsNow outcome (capacity_of volume.old) number (command.Ln from.now to.now) (P.SectorView.space space.old).content (P.SectorView.space space.new).content) }
    ensures done { IsTrue (P.SectorView.space space.old).tells → IsMet (command.Ln from.now to.now) volume.old (P.SectorView.space space.old) → IfOk result IsDoneOk }
    ensures place { IsTrue (P.SectorView.space space.old).tells → OnOk result (KeepsJournal (P.SectorView.space space.old).content (P.SectorView.space space.new).content) }
    ensures serves { OnOk result (Serves volume.new (P.SectorView.space space.new)) }
    ensures edits { Edits P.SectorView.space P.SectorView.follows (P.SectorView.space space.old).spare volume.old volume.new space.old space.new result }
    ensures loads { IsTrue (P.SectorView.space space.old).tells → IsWithinLoad (command.Ln from.now to.now) volume.old (P.SectorView.space space.old) (P.SectorView.space space.new) }
{
    a_load_says_enough();
    a_load_is_of_parts();
    trees_grow_by_enough();
    trees_hold_three();
    let changes = volume.change_linked(alloc, space, number, from, to)?;
    if !fits_make(volume, space) {
        return Ok(Outcome::CommitFirst);
    }
    let reply = ln(volume, alloc, space, from, to)?;
    Ok(Outcome::Answered { reply, changes })
}
