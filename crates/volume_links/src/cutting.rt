//! A cut of blocks past the size of a resource fork, ahead of data that makes the fork longer.
ghost use Rattle.std.specs.Prelude.{◌≡◌, None, IsTrue, IfOk, OnOk, []};
ghost use Rattle.hfs_language.specs.Written.{FitsPath};
ghost use Rattle.hfs_language.specs.declared.reply.Reply.TheVariants as reply;
ghost use Rattle.hfs_model.specs.declared.kinds.KindEdit.TheVariants as edit;
ghost use Rattle.volume_base.specs.Frame.{Serves};
ghost use Rattle.volume_base.specs.Keeping.{shrunk_of};
ghost use Rattle.volume_base.specs.Room.{capacity_of};
ghost use Rattle.volume_runs.specs.Fits.{FitsEdit};
ghost use Rattle.volume_links.specs.Steps.{KindStepsTo, KindWaitsForCut};
ghost use Rattle.volume_links.specs.Wanting.{KindLacksRoomToCut};
ghost use Rattle.volume_space.specs.Zeroing.{HasFilled};
ghost use Rattle.volume_step.specs.Performing.{Performs};
ghost use Rattle.volume_step.specs.Steps.{KeepsJournal, OwnOf, outcome_of};
ghost use Rattle.volume_step.specs.declared.outcome.Outcome.TheVariants as outcome;

use hfs_language::{Path, Refusal, Reply};
use hfs_model::KindEdit;
use hx_bytes::{Listed, Trouble};
use sector_disk::SectorSpace;
use std::alloc::Global;
use volume_base::{ForkKind, Volume};
use volume_space::{CutAhead, cut_fork_ahead};
use volume_step::Outcome;

/// A refusal, of which watchers are told nothing.
pub(crate) fn refused(alloc: Global, why: Refusal) -> Outcome
    ensures { result ≡ outcome.Answered (reply.No why) [] }
{
    Outcome::Answered {
        reply: Reply::No(why),
        changes: Listed::new(alloc),
    }
}

/// What a cut comes to for a command ahead of which one goes.
fn outcome_of(alloc: Global, came: CutAhead) -> Outcome
    ensures { result ≡ outcome_of came }
{
    match came {
        CutAhead::Made => Outcome::Again,
        // Where the space tells, its fork has blocks past its size.
        CutAhead::CommitFirst | CutAhead::NotNeeded => Outcome::CommitFirst,
        CutAhead::Refused(why) => refused(alloc, why),
    }
}

/// Drops the growth in hand.
fn drop_growth(volume: &mut Volume)
    ensures { volume.new ≡ record volume.old { filling = None } }
{
    volume.filling = None;
}

/// Cuts blocks past the size of the resource fork that an `rwrite` puts data into, which go first.
fn cut_resource<P: SectorSpace>(
    alloc: Global,
    volume: &mut Volume,
    space: &mut P,
    _number: u64,
    path: &Path,
    from: u64,
    value: &[u8],
) -> Result<Outcome, Trouble>
    requires serves { Serves volume.old (P.SectorView.space space.old) }
    requires fits { FitsPath path.now }
    requires waits { IsTrue (P.SectorView.space space.old).tells → KindWaitsForCut (P.SectorView.space space.old).content (edit.ResourceWrite path.now from value.now) }
    ensures answered { IsTrue (P.SectorView.space space.old).tells → IfOk result (λ outcome. KindStepsTo outcome (capacity_of volume.old) _number (edit.ResourceWrite path.now from value.now) (P.SectorView.space space.old).content (P.SectorView.space space.new).content) }
    ensures place { IsTrue (P.SectorView.space space.old).tells → OnOk result (KeepsJournal (P.SectorView.space space.old).content (P.SectorView.space space.new).content) }
    ensures filled { OnOk result (HasFilled volume.new (P.SectorView.space space.new)) }
    // A commit comes first only where there is too little room for the cut.
    ensures waits { IsTrue (P.SectorView.space space.old).tells → IfOk result (λ it. it ≡ outcome.CommitFirst → KindLacksRoomToCut volume.old (P.SectorView.space space.old) (edit.ResourceWrite path.now from value.now)) }
    ensures shrunk { shrunk_of volume.new ≡ shrunk_of volume.old }
    ensures frame { Performs P.SectorView.space P.SectorView.follows (OwnOf volume.old volume.new) volume.old volume.new space.old space.new result }
{
    let end = u128::from(from) + value.len() as u128;
    let came = cut_fork_ahead(volume, alloc, space, path, ForkKind::Resource, end)?;
    volume.filling = None;
    Ok(outcome_of(alloc, came))
}

/// Cuts blocks past the size of the fork that a command puts data into, which go first: then it is to be tried again.
pub(crate) fn cut_first<P: SectorSpace>(
    alloc: Global,
    volume: &mut Volume,
    space: &mut P,
    _number: u64,
    edit: &KindEdit,
) -> Result<Outcome, Trouble>
    requires serves { Serves volume.old (P.SectorView.space space.old) }
    requires fits { FitsEdit edit.now }
    requires waits { IsTrue (P.SectorView.space space.old).tells → KindWaitsForCut (P.SectorView.space space.old).content edit.now }
    ensures answered { IsTrue (P.SectorView.space space.old).tells → IfOk result (λ outcome. KindStepsTo outcome (capacity_of volume.old) _number edit.now (P.SectorView.space space.old).content (P.SectorView.space space.new).content) }
    ensures place { IsTrue (P.SectorView.space space.old).tells → OnOk result (KeepsJournal (P.SectorView.space space.old).content (P.SectorView.space space.new).content) }
    ensures filled { OnOk result (HasFilled volume.new (P.SectorView.space space.new)) }
    // A commit comes first only where there is too little room for the cut.
    ensures waits { IsTrue (P.SectorView.space space.old).tells → IfOk result (λ it. it ≡ outcome.CommitFirst → KindLacksRoomToCut volume.old (P.SectorView.space space.old) edit.now) }
    ensures shrunk { shrunk_of volume.new ≡ shrunk_of volume.old }
    ensures frame { Performs P.SectorView.space P.SectorView.follows (OwnOf volume.old volume.new) volume.old volume.new space.old space.new result }
{
    match edit {
        // Where the space tells, a new file has no block yet.
        KindEdit::Symlink { path: _, value: _ } => {
            drop_growth(volume);
            Ok(Outcome::CommitFirst)
        }
        KindEdit::ResourceWrite { path, from, value } => {
            cut_resource(alloc, volume, space, _number, path, *from, value.as_slice())
        }
        // It puts nothing.
        KindEdit::ResourceRead {
            path: _,
            from: _,
            length: _,
        } => {
            drop_growth(volume);
            Ok(Outcome::CommitFirst)
        }
    }
}
