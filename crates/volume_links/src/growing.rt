//! The growth of a tree ahead of a command on a link or a fork that wants more nodes of it.
ghost use Rattle.std.specs.Prelude.{◌≡◌, ◌≢◌, ℕ, None, IsTrue, IfOk, OnOk};
ghost use Rattle.hfs_volume.specs.Aside.{IsJournalSector};
ghost use Rattle.volume_base.specs.Frame.{Serves};
ghost use Rattle.volume_base.specs.Keeping.{shrunk_of};
ghost use Rattle.volume_base.specs.Room.{capacity_of};
ghost use Rattle.volume_links.specs.Judging.{KindWaitsForGrowth};
ghost use Rattle.volume_links.specs.Steps.{KindStepsTo};
ghost use Rattle.volume_space.specs.Growing.{WantsFirst};
ghost use Rattle.volume_space.specs.Zeroing.{HasFilled};
ghost use Rattle.volume_step.specs.Performing.{Performs};
ghost use Rattle.volume_step.specs.Steps.{KeepsJournal, OwnOf, grown};
ghost use Rattle.volume_step.specs.declared.outcome.Outcome.TheVariants as outcome;

use hfs_model::KindEdit;
use hx_bytes::Trouble;
use sector_disk::SectorSpace;
use std::alloc::Global;
use volume_base::Volume;
use volume_space::{Growth, WhichTree, grow_tree};
use volume_step::Outcome;

/// What a growth comes to for the command ahead of which it goes.
fn grown(went: Growth) -> Outcome
    ensures { result ≡ grown went }
{
    match went {
        Growth::Grown => Outcome::Again,
        Growth::CommitFirst => Outcome::CommitFirst,
    }
}

/// Grows the tree that has to grow ahead of a command, by so many nodes: then the command is to be tried again. Where there is too little
/// room for the growth a commit comes first.
pub(crate) fn grow_first<P: SectorSpace>(
    alloc: Global,
    volume: &mut Volume,
    space: &mut P,
    _number: u64,
    _edit: &KindEdit,
    tree: WhichTree,
    more: u32,
) -> Result<Outcome, Trouble>
    requires serves { Serves volume.old (P.SectorView.space space.old) }
    // Only the journal's sectors are closed.
    requires closed { IsTrue (P.SectorView.space space.old).tells → (at : ℕ) → (P.SectorView.space space.old).closed at → IsJournalSector (P.SectorView.space space.old).content at }
    requires waits { IsTrue (P.SectorView.space space.old).tells → KindWaitsForGrowth tree more (capacity_of volume.old) _edit.now (P.SectorView.space space.old).content }
    ensures answered { IsTrue (P.SectorView.space space.old).tells → IfOk result (λ outcome. KindStepsTo outcome (capacity_of volume.old) _number _edit.now (P.SectorView.space space.old).content (P.SectorView.space space.new).content) }
    // Where a load wants it that may be put, no commit comes first.
    ensures ready { IsTrue (P.SectorView.space space.old).tells → WantsFirst tree more volume.old (P.SectorView.space space.old) → IfOk result (λ it. it ≢ outcome.CommitFirst) }
    ensures place { IsTrue (P.SectorView.space space.old).tells → OnOk result (KeepsJournal (P.SectorView.space space.old).content (P.SectorView.space space.new).content) }
    ensures filled { OnOk result (HasFilled volume.new (P.SectorView.space space.new)) }
    ensures shrunk { shrunk_of volume.new ≡ shrunk_of volume.old }
    ensures frame { Performs P.SectorView.space P.SectorView.follows (OwnOf volume.old volume.new) volume.old volume.new space.old space.new result }
{
    let went = grow_tree(volume, alloc, space, tree, more)?;
    volume.filling = None;
    Ok(grown(went))
}
