//! `at` and `chmod`, for which nothing is missing.
ghost use Rattle.std.specs.Prelude.{◌<◌, IsTrue, IfOk, OnOk};
ghost use Rattle.hfs_language.specs.Written.{FitsPath};
ghost use Rattle.hfs_language.specs.declared.command.Command.TheVariants as command;
ghost use Rattle.volume_base.specs.Frame.{Edits, Serves};
ghost use Rattle.volume_base.specs.Room.{capacity_of};
ghost use Rattle.volume_step.specs.Loads.{IsWithinLoad};
ghost use Rattle.volume_step.specs.Steps.{Affords, IsDoneOk, IsMet, KeepsJournal, StepsNow};

use crate::outcome::Outcome;
use hfs_language::{ChangeKind, Changes, Path};
use hx_bytes::Trouble;
use sector_disk::SectorSpace;
use std::alloc::Global;
use volume_base::Volume;
use volume_names::{at, chmod};

/// Dates the volume with another moment.
pub(crate) fn date<P: SectorSpace>(
    alloc: Global,
    volume: &mut Volume,
    space: &mut P,
    _number: u64,
    moment: u32,
) -> Result<Outcome, Trouble>
    requires serves { Serves volume.old (P.SectorView.space space.old) }
    requires affords { IsTrue (P.SectorView.space space.old).tells → Affords (capacity_of volume.old) (command.At moment) (P.SectorView.space space.old).content }
    ensures answered { IsTrue (P.SectorView.space space.old).tells → IfOk result (λ outcome. StepsNow outcome (capacity_of volume.old) _number (command.At moment) (P.SectorView.space space.old).content (P.SectorView.space space.new).content) }
    ensures done { IsTrue (P.SectorView.space space.old).tells → IsMet (command.At moment) volume.old (P.SectorView.space space.old) → IfOk result IsDoneOk }
    ensures place { IsTrue (P.SectorView.space space.old).tells → OnOk result (KeepsJournal (P.SectorView.space space.old).content (P.SectorView.space space.new).content) }
    ensures serves { OnOk result (Serves volume.new (P.SectorView.space space.new)) }
    ensures edits { Edits P.SectorView.space P.SectorView.follows (P.SectorView.space space.old).spare volume.old volume.new space.old space.new result }
    ensures loads { IsTrue (P.SectorView.space space.old).tells → IsWithinLoad (command.At moment) volume.old (P.SectorView.space space.old) (P.SectorView.space space.new) }
{
    if space.spare() == 0 {
        return Ok(Outcome::CommitFirst);
    }
    let reply = at(volume, space, moment);
    Ok(Outcome::Answered {
        reply,
        changes: Changes::new(alloc),
    })
}

/// Gives a folder or file other rights. Where the room that there is doesn't suffice, a commit comes first.
pub(crate) fn set_mode<P: SectorSpace>(
    alloc: Global,
    volume: &mut Volume,
    space: &mut P,
    number: u64,
    path: &Path,
    rights: u16,
) -> Result<Outcome, Trouble>
    requires serves { Serves volume.old (P.SectorView.space space.old) }
    requires fits { FitsPath path.now }
    requires rights { rights < 4096 }
    requires affords { IsTrue (P.SectorView.space space.old).tells → Affords (capacity_of volume.old) (command.Chmod path.now rights) (P.SectorView.space space.old).content }
    ensures answered { IsTrue (P.SectorView.space space.old).tells → IfOk result (λ outcome. StepsNow outcome (capacity_of volume.old) number (command.Chmod path.now rights) (P.SectorView.space space.old).content (P.SectorView.space space.new).content) }
    ensures done { IsTrue (P.SectorView.space space.old).tells → IsMet (command.Chmod path.now rights) volume.old (P.SectorView.space space.old) → IfOk result IsDoneOk }
    ensures place { IsTrue (P.SectorView.space space.old).tells → OnOk result (KeepsJournal (P.SectorView.space space.old).content (P.SectorView.space space.new).content) }
    ensures serves { OnOk result (Serves volume.new (P.SectorView.space space.new)) }
    ensures edits { Edits P.SectorView.space P.SectorView.follows (P.SectorView.space space.old).spare volume.old volume.new space.old space.new result }
    ensures loads { IsTrue (P.SectorView.space space.old).tells → IsWithinLoad (command.Chmod path.now rights) volume.old (P.SectorView.space space.old) (P.SectorView.space space.new) }
{
    let changes = volume.change_at(alloc, space, number, ChangeKind::Mode, path)?;
    if !volume.fits_update(space) {
        return Ok(Outcome::CommitFirst);
    }
    let reply = chmod(volume, alloc, space, path, rights)?;
    Ok(Outcome::Answered { reply, changes })
}
