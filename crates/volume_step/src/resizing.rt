//! `trunc` and `write`.
ghost use Rattle.std.specs.Prelude.{◌≡◌, ◌≢◌, ℕ, true, None, IsTrue, IfOk, OnOk};
ghost use Rattle.std.specs.List.{Contains};
ghost use Rattle.sector_disk.specs.Lists.{Content};
ghost use Rattle.hfs_language.specs.Written.{FitsPath};
ghost use Rattle.hfs_language.specs.declared.command.Command.TheVariants as command;
ghost use Rattle.hfs_volume.specs.Aside.{IsJournalSector};
ghost use Rattle.hfs_volume.specs.Content.{volume_of};
ghost use Rattle.hfs_volume.specs.TreeOf.{tree_of};
ghost use Rattle.hfs_volume.specs.Weight.{data_of};
ghost use Rattle.volume_base.specs.Frame.{Serves};
ghost use Rattle.volume_base.specs.Keeping.{shrunk_of};
ghost use Rattle.volume_base.specs.Room.{capacity_of};
ghost use Rattle.volume_space.specs.Writing.{is_data_met};
ghost use Rattle.volume_space.specs.Zeroing.{HasFilled};
ghost use Rattle.volume_base.specs.Standing.{own_sectors};
ghost use Rattle.volume_step.specs.Performing.{Performs};
ghost use Rattle.volume_step.specs.Loads.{IsWithinLoad};
ghost use Rattle.volume_step.specs.Steps.{Affords, IsMet, KeepsJournal, ShrinksAs, StepsNow};
ghost use Rattle.volume_step.specs.declared.outcome.Outcome.TheVariants as outcome;

use crate::outcome::Outcome;
use hfs_language::{ChangeKind, Changes, Path, Reply};
use hx_bytes::Trouble;
use sector_disk::SectorSpace;
use std::alloc::Global;
use volume_base::Volume;
use volume_space::{shorten, write};

/// Makes a file longer. Where the room that there is doesn't suffice, a commit comes first.
fn lengthen<P: SectorSpace>(
    alloc: Global,
    volume: &mut Volume,
    space: &mut P,
    number: u64,
    path: &Path,
    size: u64,
) -> Result<Outcome, Trouble>
    requires serves { Serves volume.old (P.SectorView.space space.old) }
    requires filled { HasFilled volume.old (P.SectorView.space space.old) }
    requires fits { FitsPath path.now }
    requires closed { IsTrue (P.SectorView.space space.old).tells → (at : ℕ) → (P.SectorView.space space.old).closed at → IsJournalSector (P.SectorView.space space.old).content at }
    requires affords { IsTrue (P.SectorView.space space.old).tells → Affords (capacity_of volume.old) (command.Trunc path.now size) (P.SectorView.space space.old).content }
    ensures answered { IsTrue (P.SectorView.space space.old).tells → IfOk result (λ outcome. StepsNow outcome (capacity_of volume.old) number (command.Trunc path.now size) (P.SectorView.space space.old).content (P.SectorView.space space.new).content) }
    // Where its data is met, no commit comes first.
    ensures puts { IsTrue (P.SectorView.space space.old).tells → is_data_met volume.old (P.SectorView.space space.old).spare (volume_of (P.SectorView.space space.old).content) (data_of (tree_of (P.SectorView.space space.old).content) (command.Trunc path.now size)) ≡ true → IfOk result (λ it. it ≢ outcome.CommitFirst) }
    ensures place { IsTrue (P.SectorView.space space.old).tells → OnOk result (KeepsJournal (P.SectorView.space space.old).content (P.SectorView.space space.new).content) }
    ensures shrunk { shrunk_of volume.new ≡ shrunk_of volume.old }
    ensures loads { IsTrue (P.SectorView.space space.old).tells → IsWithinLoad (command.Trunc path.now size) volume.old (P.SectorView.space space.old) (P.SectorView.space space.new) }
    ensures frame { Performs P.SectorView.space P.SectorView.follows (λ s. Contains (own_sectors volume.old) s) volume.old volume.new space.old space.new result }
{
    let changes = volume.change_at(alloc, space, number, ChangeKind::Content, path)?;
    match volume_space::lengthen(volume, alloc, space, path, size)? {
        Some(reply) => Ok(Outcome::Answered { reply, changes }),
        None => Ok(Outcome::CommitFirst),
    }
}

/// Gives a file another size. Where the room that there is doesn't suffice, a commit comes first.
pub(crate) fn resize<P: SectorSpace>(
    alloc: Global,
    volume: &mut Volume,
    space: &mut P,
    number: u64,
    path: &Path,
    size: u64,
) -> Result<Outcome, Trouble>
    requires serves { Serves volume.old (P.SectorView.space space.old) }
    requires filled { HasFilled volume.old (P.SectorView.space space.old) }
    requires fits { FitsPath path.now }
    requires closed { IsTrue (P.SectorView.space space.old).tells → (at : ℕ) → (P.SectorView.space space.old).closed at → IsJournalSector (P.SectorView.space space.old).content at }
    requires affords { IsTrue (P.SectorView.space space.old).tells → Affords (capacity_of volume.old) (command.Trunc path.now size) (P.SectorView.space space.old).content }
    ensures answered { IsTrue (P.SectorView.space space.old).tells → IfOk result (λ outcome. StepsNow outcome (capacity_of volume.old) number (command.Trunc path.now size) (P.SectorView.space space.old).content (P.SectorView.space space.new).content) }
    // Where it makes the file no longer, and that is met, no commit comes first.
    ensures ready { IsTrue (P.SectorView.space space.old).tells → data_of (tree_of (P.SectorView.space space.old).content) (command.Trunc path.now size) ≡ None → IsMet (command.Trunc path.now size) volume.old (P.SectorView.space space.old) → IfOk result (λ it. it ≢ outcome.CommitFirst) }
    // Where its data is met, no commit comes first.
    ensures puts { IsTrue (P.SectorView.space space.old).tells → is_data_met volume.old (P.SectorView.space space.old).spare (volume_of (P.SectorView.space space.old).content) (data_of (tree_of (P.SectorView.space space.old).content) (command.Trunc path.now size)) ≡ true → IfOk result (λ it. it ≢ outcome.CommitFirst) }
    ensures place { IsTrue (P.SectorView.space space.old).tells → OnOk result (KeepsJournal (P.SectorView.space space.old).content (P.SectorView.space space.new).content) }
    ensures shrunk { IsTrue (P.SectorView.space space.old).tells → IfOk result (λ outcome. ShrinksAs outcome (command.Trunc path.now size) (P.SectorView.space space.old).content (shrunk_of volume.old) (shrunk_of volume.new)) }
    ensures loads { IsTrue (P.SectorView.space space.old).tells → IsWithinLoad (command.Trunc path.now size) volume.old (P.SectorView.space space.old) (P.SectorView.space space.new) }
    ensures frame { Performs P.SectorView.space P.SectorView.follows (λ s. Contains (own_sectors volume.old) s) volume.old volume.new space.old space.new result }
{
    let changes = volume.change_at(alloc, space, number, ChangeKind::Content, path)?;
    if !volume.fits_update(space) {
        return Ok(Outcome::CommitFirst);
    }
    match shorten(volume, alloc, space, path, size)? {
        Some(reply) => Ok(Outcome::Answered { reply, changes }),
        None => lengthen(alloc, volume, space, number, path, size),
    }
}

/// Writes a value from a place of a file on; one of no byte changes nothing. Where the room that there is doesn't suffice, a commit
/// comes first.
pub(crate) fn write_value<P: SectorSpace>(
    alloc: Global,
    volume: &mut Volume,
    space: &mut P,
    number: u64,
    path: &Path,
    from: u64,
    value: &[u8],
) -> Result<Outcome, Trouble>
    requires serves { Serves volume.old (P.SectorView.space space.old) }
    requires filled { HasFilled volume.old (P.SectorView.space space.old) }
    requires fits { FitsPath path.now }
    requires closed { IsTrue (P.SectorView.space space.old).tells → (at : ℕ) → (P.SectorView.space space.old).closed at → IsJournalSector (P.SectorView.space space.old).content at }
    requires affords { IsTrue (P.SectorView.space space.old).tells → Affords (capacity_of volume.old) (command.Write path.now from value.now) (P.SectorView.space space.old).content }
    ensures answered { IsTrue (P.SectorView.space space.old).tells → IfOk result (λ outcome. StepsNow outcome (capacity_of volume.old) number (command.Write path.now from value.now) (P.SectorView.space space.old).content (P.SectorView.space space.new).content) }
    // Where it puts no data, no commit comes first.
    ensures ready { IsTrue (P.SectorView.space space.old).tells → data_of (tree_of (P.SectorView.space space.old).content) (command.Write path.now from value.now) ≡ None → IfOk result (λ it. it ≢ outcome.CommitFirst) }
    // Where its data is met, no commit comes first.
    ensures puts { IsTrue (P.SectorView.space space.old).tells → is_data_met volume.old (P.SectorView.space space.old).spare (volume_of (P.SectorView.space space.old).content) (data_of (tree_of (P.SectorView.space space.old).content) (command.Write path.now from value.now)) ≡ true → IfOk result (λ it. it ≢ outcome.CommitFirst) }
    ensures place { IsTrue (P.SectorView.space space.old).tells → OnOk result (KeepsJournal (P.SectorView.space space.old).content (P.SectorView.space space.new).content) }
    ensures shrunk { shrunk_of volume.new ≡ shrunk_of volume.old }
    ensures loads { IsTrue (P.SectorView.space space.old).tells → IsWithinLoad (command.Write path.now from value.now) volume.old (P.SectorView.space space.old) (P.SectorView.space space.new) }
    ensures frame { Performs P.SectorView.space P.SectorView.follows (λ s. Contains (own_sectors volume.old) s) volume.old volume.new space.old space.new result }
{
    if value.is_empty() {
        return Ok(Outcome::Answered {
            reply: Reply::Ok,
            changes: Changes::new(alloc),
        });
    }
    let changes = volume.change_at(alloc, space, number, ChangeKind::Content, path)?;
    match write(volume, alloc, space, path, from, value)? {
        Some(reply) => Ok(Outcome::Answered { reply, changes }),
        None => Ok(Outcome::CommitFirst),
    }
}
