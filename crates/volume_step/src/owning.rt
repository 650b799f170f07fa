//! `setattr` and `delattr`, for which nothing is missing.
ghost use Rattle.std.specs.Prelude.{ℕ, IsTrue, IfOk, OnOk};
ghost use Rattle.hfs_language.specs.Written.{FitsPath, IsName};
ghost use Rattle.hfs_language.specs.declared.command.Command.TheVariants as command;
ghost use Rattle.hfs_volume.specs.Aside.{IsJournalSector};
ghost use Rattle.volume_base.specs.Frame.{Frees, Serves, Spills};
ghost use Rattle.volume_base.specs.Room.{capacity_of};
ghost use Rattle.volume_step.specs.Loads.{IsWithinLoad};
ghost use Rattle.volume_step.specs.Steps.{Affords, IsDoneOk, IsMet, KeepsJournal, StepsNow};

use crate::outcome::Outcome;
use hfs_language::{ChangeKind, Path};
use hx_bytes::{Trouble, Units};
use sector_disk::SectorSpace;
use std::alloc::Global;
use volume_base::Volume;
use volume_values::{delattr, setattr};

/// Gives a folder or file an attribute. Where the room that there is doesn't suffice, a commit comes first.
pub(crate) fn set_attribute<P: SectorSpace>(
    alloc: Global,
    volume: &mut Volume,
    space: &mut P,
    number: u64,
    path: &Path,
    name: &Units,
    value: &[u8],
) -> Result<Outcome, Trouble>
    requires serves { Serves volume.old (P.SectorView.space space.old) }
    requires fits { FitsPath path.now }
    requires name { IsName 127 name.now }
    requires closed { IsTrue (P.SectorView.space space.old).tells → (at : ℕ) → (P.SectorView.space space.old).closed at → IsJournalSector (P.SectorView.space space.old).content at }
    requires affords { IsTrue (P.SectorView.space space.old).tells → Affords (capacity_of volume.old) (command.SetAttr path.now name.now value.now) (P.SectorView.space space.old).content }
    ensures answered { IsTrue (P.SectorView.space space.old).tells → IfOk result (λ outcome. StepsNow outcome (capacity_of volume.old) number (command.SetAttr path.now name.now value.now) (P.SectorView.space space.old).content (P.SectorView.space space.new).content) }
    ensures done { IsTrue (P.SectorView.space space.old).tells → IsMet (command.SetAttr path.now name.now value.now) volume.old (P.SectorView.space space.old) → IfOk result IsDoneOk }
    ensures place { IsTrue (P.SectorView.space space.old).tells → OnOk result (KeepsJournal (P.SectorView.space space.old).content (P.SectorView.space space.new).content) }
    ensures serves { OnOk result (Serves volume.new (P.SectorView.space space.new)) }
    ensures spills { Spills P.SectorView.space P.SectorView.follows (P.SectorView.space space.old).spare volume.old volume.new space.old space.new result }
    ensures loads { IsTrue (P.SectorView.space space.old).tells → IsWithinLoad (command.SetAttr path.now name.now value.now) volume.old (P.SectorView.space space.old) (P.SectorView.space space.new) }
{
    let changes = volume.change_at(alloc, space, number, ChangeKind::Attribute, path)?;
    match setattr(volume, alloc, space, path, name, value)? {
        Some(reply) => Ok(Outcome::Answered { reply, changes }),
        None => Ok(Outcome::CommitFirst),
    }
}

/// Deletes an attribute of a folder or file. Where the room that there is doesn't suffice, a commit comes first.
pub(crate) fn delete_attribute<P: SectorSpace>(
    alloc: Global,
    volume: &mut Volume,
    space: &mut P,
    number: u64,
    path: &Path,
    name: &Units,
) -> Result<Outcome, Trouble>
    requires serves { Serves volume.old (P.SectorView.space space.old) }
    requires fits { FitsPath path.now }
    requires name { IsName 127 name.now }
    requires affords { IsTrue (P.SectorView.space space.old).tells → Affords (capacity_of volume.old) (command.DelAttr path.now name.now) (P.SectorView.space space.old).content }
    ensures answered { IsTrue (P.SectorView.space space.old).tells → IfOk result (λ outcome. StepsNow outcome (capacity_of volume.old) number (command.DelAttr path.now name.now) (P.SectorView.space space.old).content (P.SectorView.space space.new).content) }
    ensures done { IsTrue (P.SectorView.space space.old).tells → IsMet (command.DelAttr path.now name.now) volume.old (P.SectorView.space space.old) → IfOk result IsDoneOk }
    ensures place { IsTrue (P.SectorView.space space.old).tells → OnOk result (KeepsJournal (P.SectorView.space space.old).content (P.SectorView.space space.new).content) }
    ensures serves { OnOk result (Serves volume.new (P.SectorView.space space.new)) }
    ensures frees { Frees P.SectorView.space P.SectorView.follows volume.old volume.new space.old space.new result }
    ensures loads { IsTrue (P.SectorView.space space.old).tells → IsWithinLoad (command.DelAttr path.now name.now) volume.old (P.SectorView.space space.old) (P.SectorView.space space.new) }
{
    let changes = volume.change_at(alloc, space, number, ChangeKind::Attribute, path)?;
    match delattr(volume, alloc, space, path, name)? {
        Some(reply) => Ok(Outcome::Answered { reply, changes }),
        None => Ok(Outcome::CommitFirst),
    }
}
