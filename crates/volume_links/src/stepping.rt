//! A command on links and resource forks, weighed and done.
ghost use Rattle.std.specs.Prelude.{◌≡◌, ◌≢◌, ◌<◌, ℕ, [], ◌∷◌, false, true, IsTrue, IfOk, OnOk, length};
ghost use Rattle.hfs_language.specs.Written.{FitsPath};
ghost use Rattle.hfs_model.specs.declared.kinds.KindEdit.TheVariants as edit;
ghost use Rattle.hfs_volume.specs.Aside.{IsJournalSector};
ghost use Rattle.hfs_volume.specs.Content.{volume_of};
ghost use Rattle.hfs_volume.specs.Forks.{resource_kind};
ghost use Rattle.hfs_volume.specs.KindWeight.{fork_of_edit, kind_data_of, kind_only_reads};
ghost use Rattle.hfs_volume.specs.TreeOf.{tree_of};
ghost use Rattle.hfs_volume.specs.Weight.{needs_cut_in};
ghost use Rattle.volume_base.specs.Frame.{Serves};
ghost use Rattle.volume_base.specs.Keeping.{shrunk_of};
ghost use Rattle.volume_base.specs.Room.{capacity_of};
ghost use Rattle.volume_runs.specs.Fits.{FitsEdit};
ghost use Rattle.volume_links.specs.Steps.{KindAffords, KindStepsTo};
ghost use Rattle.volume_links.specs.Wanting.{KindFitsAnew, KindFitsNow, KindHasManyZeros, KindWantsCommit};
ghost use Rattle.volume_space.specs.Zeroing.{HasFilled};
ghost use Rattle.volume_step.specs.Anew.{IsAnew};
ghost use Rattle.volume_step.specs.Performing.{Performs};
ghost use Rattle.volume_step.specs.Steps.{KeepsJournal, LacksCutRoom, OwnOf};
ghost use Rattle.volume_step.specs.declared.outcome.Outcome.TheVariants as outcome;

use crate::cutting::{cut_first, refused};
use crate::growing::grow_first;
use crate::putting::put_found;
use crate::resources::to_write;
use crate::symlinks::make_link;
use crate::verdicts::judge;
use hfs_language::{Path, Reply};
use hfs_model::KindEdit;
use hx_bytes::{Listed, Trouble};
use sector_disk::SectorSpace;
use std::alloc::Global;
use volume_base::Volume;
use volume_step::{Outcome, Verdict};

/// An answer of which watchers are told nothing.
fn answered(alloc: Global, reply: Reply) -> Outcome
    ensures { result ≡ outcome.Answered reply [] }
{
    Outcome::Answered {
        reply,
        changes: Listed::new(alloc),
    }
}

/// `rwrite` of a byte or more, for which nothing is missing.
fn put_resource<P: SectorSpace>(
    alloc: Global,
    volume: &mut Volume,
    space: &mut P,
    number: u64,
    path: &Path,
    from: u64,
    value: &[u8],
) -> Result<Outcome, Trouble>
    requires serves { Serves volume.old (P.SectorView.space space.old) }
    requires filled { HasFilled volume.old (P.SectorView.space space.old) }
    requires fits { FitsPath path.now }
    // Only the journal's sectors are closed.
    requires closed { IsTrue (P.SectorView.space space.old).tells → (at : ℕ) → (P.SectorView.space space.old).closed at → IsJournalSector (P.SectorView.space space.old).content at }
    requires some { 0 < length value.now }
    requires affords { IsTrue (P.SectorView.space space.old).tells → KindAffords (capacity_of volume.old) (edit.ResourceWrite path.now from value.now) (P.SectorView.space space.old).content }
    // No blocks past the fork's size stand in its way.
    requires uncut { IsTrue (P.SectorView.space space.old).tells → needs_cut_in resource_kind (volume_of (P.SectorView.space space.old).content) (kind_data_of (tree_of (P.SectorView.space space.old).content) (edit.ResourceWrite path.now from value.now)) ≡ false }
    // There is room for it.
    requires now { IsTrue (P.SectorView.space space.old).tells → KindFitsNow (0 ∷ 0 ∷ 0 ∷ []) volume.old (P.SectorView.space space.old) (edit.ResourceWrite path.now from value.now) }
    ensures answered { IsTrue (P.SectorView.space space.old).tells → IfOk result (λ outcome. KindStepsTo outcome (capacity_of volume.old) number (edit.ResourceWrite path.now from value.now) (P.SectorView.space space.old).content (P.SectorView.space space.new).content) }
    // A commit comes first only before many zero blocks.
    ensures waits { IsTrue (P.SectorView.space space.old).tells → IfOk result (λ it. it ≡ outcome.CommitFirst → KindHasManyZeros volume.old (P.SectorView.space space.old) (edit.ResourceWrite path.now from value.now)) }
    ensures filled { OnOk result (HasFilled volume.new (P.SectorView.space space.new)) }
    ensures place { IsTrue (P.SectorView.space space.old).tells → OnOk result (KeepsJournal (P.SectorView.space space.old).content (P.SectorView.space space.new).content) }
    ensures shrunk { shrunk_of volume.new ≡ shrunk_of volume.old }
    ensures frame { Performs P.SectorView.space P.SectorView.follows (OwnOf volume.old volume.new) volume.old volume.new space.old space.new result }
{
    let found = to_write(volume, alloc, space, path, from, value)?;
    match found {
        Ok(fork) => put_found(alloc, volume, space, number, path, fork, from, value),
        Err(why) => Ok(refused(alloc, why)),
    }
}

/// `rwrite` for which nothing is missing.
fn write<P: SectorSpace>(
    alloc: Global,
    volume: &mut Volume,
    space: &mut P,
    number: u64,
    path: &Path,
    from: u64,
    value: &[u8],
) -> Result<Outcome, Trouble>
    requires serves { Serves volume.old (P.SectorView.space space.old) }
    requires filled { HasFilled volume.old (P.SectorView.space space.old) }
    requires fits { FitsPath path.now }
    // Only the journal's sectors are closed.
    requires closed { IsTrue (P.SectorView.space space.old).tells → (at : ℕ) → (P.SectorView.space space.old).closed at → IsJournalSector (P.SectorView.space space.old).content at }
    requires affords { IsTrue (P.SectorView.space space.old).tells → KindAffords (capacity_of volume.old) (edit.ResourceWrite path.now from value.now) (P.SectorView.space space.old).content }
    // No blocks past the fork's size stand in its way.
    requires uncut { IsTrue (P.SectorView.space space.old).tells → needs_cut_in resource_kind (volume_of (P.SectorView.space space.old).content) (kind_data_of (tree_of (P.SectorView.space space.old).content) (edit.ResourceWrite path.now from value.now)) ≡ false }
    // There is room for it.
    requires now { IsTrue (P.SectorView.space space.old).tells → KindFitsNow (0 ∷ 0 ∷ 0 ∷ []) volume.old (P.SectorView.space space.old) (edit.ResourceWrite path.now from value.now) }
    ensures answered { IsTrue (P.SectorView.space space.old).tells → IfOk result (λ outcome. KindStepsTo outcome (capacity_of volume.old) number (edit.ResourceWrite path.now from value.now) (P.SectorView.space space.old).content (P.SectorView.space space.new).content) }
    // A commit comes first only before many zero blocks.
    ensures waits { IsTrue (P.SectorView.space space.old).tells → IfOk result (λ it. it ≡ outcome.CommitFirst → KindHasManyZeros volume.old (P.SectorView.space space.old) (edit.ResourceWrite path.now from value.now)) }
    ensures place { IsTrue (P.SectorView.space space.old).tells → OnOk result (KeepsJournal (P.SectorView.space space.old).content (P.SectorView.space space.new).content) }
    ensures filled { OnOk result (HasFilled volume.new (P.SectorView.space space.new)) }
    ensures shrunk { shrunk_of volume.new ≡ shrunk_of volume.old }
    ensures frame { Performs P.SectorView.space P.SectorView.follows (OwnOf volume.old volume.new) volume.old volume.new space.old space.new result }
{
    if value.len() == 0 {
        volume.filling = None;
        return Ok(answered(alloc, Reply::Ok));
    }
    put_resource(alloc, volume, space, number, path, from, value)
}

/// `symlink` for which nothing is missing; behind it no growth is in hand.
fn link<P: SectorSpace>(
    alloc: Global,
    volume: &mut Volume,
    space: &mut P,
    number: u64,
    path: &Path,
    value: &[u8],
) -> Result<Outcome, Trouble>
    requires serves { Serves volume.old (P.SectorView.space space.old) }
    requires fits { FitsPath path.now }
    // Only the journal's sectors are closed.
    requires closed { IsTrue (P.SectorView.space space.old).tells → (at : ℕ) → (P.SectorView.space space.old).closed at → IsJournalSector (P.SectorView.space space.old).content at }
    requires affords { IsTrue (P.SectorView.space space.old).tells → KindAffords (capacity_of volume.old) (edit.Symlink path.now value.now) (P.SectorView.space space.old).content }
    // There is room for it.
    requires now { IsTrue (P.SectorView.space space.old).tells → KindFitsNow (0 ∷ 0 ∷ 0 ∷ []) volume.old (P.SectorView.space space.old) (edit.Symlink path.now value.now) }
    ensures answered { IsTrue (P.SectorView.space space.old).tells → IfOk result (λ outcome. KindStepsTo outcome (capacity_of volume.old) number (edit.Symlink path.now value.now) (P.SectorView.space space.old).content (P.SectorView.space space.new).content) }
    ensures done { IsTrue (P.SectorView.space space.old).tells → IfOk result (λ it. it ≢ outcome.CommitFirst) }
    ensures place { IsTrue (P.SectorView.space space.old).tells → OnOk result (KeepsJournal (P.SectorView.space space.old).content (P.SectorView.space space.new).content) }
    ensures filled { OnOk result (HasFilled volume.new (P.SectorView.space space.new)) }
    ensures shrunk { shrunk_of volume.new ≡ shrunk_of volume.old }
    ensures frame { Performs P.SectorView.space P.SectorView.follows (OwnOf volume.old volume.new) volume.old volume.new space.old space.new result }
{
    let came = make_link(alloc, volume, space, number, path, value)?;
    volume.filling = None;
    Ok(came)
}

/// Does a command for which nothing is missing.
fn perform<P: SectorSpace>(
    alloc: Global,
    volume: &mut Volume,
    space: &mut P,
    number: u64,
    edit: &KindEdit,
) -> Result<Outcome, Trouble>
    requires serves { Serves volume.old (P.SectorView.space space.old) }
    requires filled { HasFilled volume.old (P.SectorView.space space.old) }
    requires fits { FitsEdit edit.now }
    // Only the journal's sectors are closed.
    requires closed { IsTrue (P.SectorView.space space.old).tells → (at : ℕ) → (P.SectorView.space space.old).closed at → IsJournalSector (P.SectorView.space space.old).content at }
    requires affords { IsTrue (P.SectorView.space space.old).tells → KindAffords (capacity_of volume.old) edit.now (P.SectorView.space space.old).content }
    // No blocks past the fork's size stand in its way.
    requires uncut { IsTrue (P.SectorView.space space.old).tells → needs_cut_in (fork_of_edit edit.now) (volume_of (P.SectorView.space space.old).content) (kind_data_of (tree_of (P.SectorView.space space.old).content) edit.now) ≡ false }
    requires changes { kind_only_reads edit.now ≡ false }
    // There is room for it.
    requires now { IsTrue (P.SectorView.space space.old).tells → KindFitsNow (0 ∷ 0 ∷ 0 ∷ []) volume.old (P.SectorView.space space.old) edit.now }
    ensures answered { IsTrue (P.SectorView.space space.old).tells → IfOk result (λ outcome. KindStepsTo outcome (capacity_of volume.old) number edit.now (P.SectorView.space space.old).content (P.SectorView.space space.new).content) }
    // A commit comes first only before many zero blocks.
    ensures waits { IsTrue (P.SectorView.space space.old).tells → IfOk result (λ it. it ≡ outcome.CommitFirst → KindHasManyZeros volume.old (P.SectorView.space space.old) edit.now) }
    ensures place { IsTrue (P.SectorView.space space.old).tells → OnOk result (KeepsJournal (P.SectorView.space space.old).content (P.SectorView.space space.new).content) }
    ensures filled { OnOk result (HasFilled volume.new (P.SectorView.space space.new)) }
    ensures shrunk { shrunk_of volume.new ≡ shrunk_of volume.old }
    ensures frame { Performs P.SectorView.space P.SectorView.follows (OwnOf volume.old volume.new) volume.old volume.new space.old space.new result }
{
    match edit {
        KindEdit::Symlink { path, value } => {
            link(alloc, volume, space, number, path, value.as_slice())
        }
        KindEdit::ResourceWrite { path, from, value } => {
            write(alloc, volume, space, number, path, *from, value.as_slice())
        }
        // It reads alone, and is answered before.
        KindEdit::ResourceRead { .. } => {
            volume.filling = None;
            Ok(Outcome::CommitFirst)
        }
    }
}

/// Judges a command that changes the volume, and does it where nothing is missing for it.
fn change<P: SectorSpace>(
    alloc: Global,
    volume: &mut Volume,
    space: &mut P,
    number: u64,
    edit: &KindEdit,
) -> Result<Outcome, Trouble>
    requires serves { Serves volume.old (P.SectorView.space space.old) }
    requires filled { HasFilled volume.old (P.SectorView.space space.old) }
    requires fits { FitsEdit edit.now }
    // Only the journal's sectors are closed.
    requires closed { IsTrue (P.SectorView.space space.old).tells → (at : ℕ) → (P.SectorView.space space.old).closed at → IsJournalSector (P.SectorView.space space.old).content at }
    requires changes { kind_only_reads edit.now ≡ false }
    ensures answered { IsTrue (P.SectorView.space space.old).tells → IfOk result (λ outcome. KindStepsTo outcome (capacity_of volume.old) number edit.now (P.SectorView.space space.old).content (P.SectorView.space space.new).content) }
    ensures waits { IsTrue (P.SectorView.space space.old).tells → IfOk result (λ it. it ≡ outcome.CommitFirst → KindWantsCommit volume.old (P.SectorView.space space.old) edit.now) }
    ensures place { IsTrue (P.SectorView.space space.old).tells → OnOk result (KeepsJournal (P.SectorView.space space.old).content (P.SectorView.space space.new).content) }
    ensures filled { OnOk result (HasFilled volume.new (P.SectorView.space space.new)) }
    // Where a cut goes ahead of it, a commit comes first only where there is too little room for the cut.
    ensures short { IsTrue (P.SectorView.space space.old).tells → needs_cut_in (fork_of_edit edit.now) (volume_of (P.SectorView.space space.old).content) (kind_data_of (tree_of (P.SectorView.space space.old).content) edit.now) ≡ true → IfOk result (λ it. it ≡ outcome.CommitFirst → LacksCutRoom volume.old (P.SectorView.space space.old)) }
    ensures shrunk { shrunk_of volume.new ≡ shrunk_of volume.old }
    ensures frame { Performs P.SectorView.space P.SectorView.follows (OwnOf volume.old volume.new) volume.old volume.new space.old space.new result }
{
    match judge(alloc, volume, space, edit)? {
        Verdict::Refused(why) => {
            volume.filling = None;
            Ok(refused(alloc, why))
        }
        Verdict::CutFirst => cut_first(alloc, volume, space, number, edit),
        Verdict::CommitFirst => {
            volume.filling = None;
            Ok(Outcome::CommitFirst)
        }
        Verdict::Grows { tree, more } => {
            grow_first(alloc, volume, space, number, edit, tree, more)
        }
        Verdict::Fits => perform(alloc, volume, space, number, edit),
    }
}

/// `rread`: its reply, which tells watchers nothing.
fn read<P: SectorSpace>(
    alloc: Global,
    volume: &mut Volume,
    space: &mut P,
    _number: u64,
    path: &Path,
    from: u64,
    long: u64,
) -> Result<Outcome, Trouble>
    requires serves { Serves volume.old (P.SectorView.space space.old) }
    requires fits { FitsPath path.now }
    ensures answered { IsTrue (P.SectorView.space space.old).tells → IfOk result (λ outcome. KindStepsTo outcome (capacity_of volume.old) _number (edit.ResourceRead path.now from long) (P.SectorView.space space.old).content (P.SectorView.space space.new).content) }
    ensures place { IsTrue (P.SectorView.space space.old).tells → OnOk result (KeepsJournal (P.SectorView.space space.old).content (P.SectorView.space space.new).content) }
    ensures filled { OnOk result (HasFilled volume.new (P.SectorView.space space.new)) }
    ensures shrunk { shrunk_of volume.new ≡ shrunk_of volume.old }
    ensures frame { Performs P.SectorView.space P.SectorView.follows (OwnOf volume.old volume.new) volume.old volume.new space.old space.new result }
    ensures done { IfOk result (λ it. it ≢ outcome.CommitFirst) }
{
    volume.filling = None;
    let reply = volume.read_resource(alloc, space, path, from, long)?;
    Ok(answered(alloc, reply))
}

/// Weighs a command on links and resource forks, whose line has this number, and does it: what it came to is that of the plain tree's step, or a
/// refusal for want of a resource; or it is to be tried again, since a cut, the growth of a tree or zero blocks went ahead of it; or a commit is
/// wanted before it, and nothing was changed. `Memory` comes where memory is wanting, `Disk` where a read failed.
pub fn kind_step<P: SectorSpace>(
    alloc: Global,
    volume: &mut Volume,
    space: &mut P,
    number: u64,
    edit: &KindEdit,
) -> Result<Outcome, Trouble>
    requires serves { Serves volume.old (P.SectorView.space space.old) }
    requires filled { HasFilled volume.old (P.SectorView.space space.old) }
    requires fits { FitsEdit edit.now }
    requires closed { IsTrue (P.SectorView.space space.old).tells → (at : ℕ) → (P.SectorView.space space.old).closed at → IsJournalSector (P.SectorView.space space.old).content at }
    ensures answered { IsTrue (P.SectorView.space space.old).tells → IfOk result (λ outcome. KindStepsTo outcome (capacity_of volume.old) number edit.now (P.SectorView.space space.old).content (P.SectorView.space space.new).content) }
    ensures place { IsTrue (P.SectorView.space space.old).tells → OnOk result (KeepsJournal (P.SectorView.space space.old).content (P.SectorView.space space.new).content) }
    ensures filled { OnOk result (HasFilled volume.new (P.SectorView.space space.new)) }
    // A commit is wanted before no command that only reads.
    ensures waits { IsTrue (P.SectorView.space space.old).tells → IfOk result (λ it. it ≡ outcome.CommitFirst → KindWantsCommit volume.old (P.SectorView.space space.old) edit.now) }
    // On a transaction to which nothing was put none comes first where nothing is missing for the command.
    ensures anew { IsTrue (P.SectorView.space space.old).tells → IsAnew volume.old (P.SectorView.space space.old) → KindFitsAnew edit.now volume.old (P.SectorView.space space.old).content → IfOk result (λ it. it ≢ outcome.CommitFirst) }
    // Where a cut goes ahead of it, one comes first only where there is too little room for the cut.
    ensures short { IsTrue (P.SectorView.space space.old).tells → needs_cut_in (fork_of_edit edit.now) (volume_of (P.SectorView.space space.old).content) (kind_data_of (tree_of (P.SectorView.space space.old).content) edit.now) ≡ true → IfOk result (λ it. it ≡ outcome.CommitFirst → LacksCutRoom volume.old (P.SectorView.space space.old)) }
    // The file that was shrunk last is still that.
    ensures shrunk { OnOk result (shrunk_of volume.new ≡ shrunk_of volume.old) }
    ensures frame { Performs P.SectorView.space P.SectorView.follows (OwnOf volume.old volume.new) volume.old volume.new space.old space.new result }
{
    match edit {
        KindEdit::ResourceRead { path, from, length } => {
            read(alloc, volume, space, number, path, *from, *length)
        }
        KindEdit::Symlink { .. } => change(alloc, volume, space, number, edit),
        KindEdit::ResourceWrite { .. } => change(alloc, volume, space, number, edit),
    }
}
