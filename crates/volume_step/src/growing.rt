//! The growth of a tree ahead of a command that wants more nodes of it.
ghost use Rattle.std.specs.Prelude.{◌≡◌, ◌≢◌, ◌≤◌, ◌+◌, ℕ, None, IsTrue, IfOk, OnOk};
ghost use Rattle.sector_disk.specs.Lists.{Content};
ghost use Rattle.btree_edit.specs.Causes.{HasTroubleCause};
ghost use Rattle.hfs_volume.specs.Aside.{IsJournalSector};
ghost use Rattle.volume_base.specs.Keeping.{shrunk_of};
ghost use Rattle.volume_base.specs.Room.{capacity_of};
ghost use Rattle.volume_base.specs.Service.{IsInService};
ghost use Rattle.volume_base.specs.Holding.{HoldsOn};
ghost use Rattle.volume_base.specs.Standing.{IsSettled, StandsOver};
ghost use Rattle.volume_base.specs.Touching.{Touches};
ghost use Rattle.volume_space.specs.Growing.{WantsFirst};
ghost use Rattle.volume_space.specs.Zeroing.{HasFilled};
ghost use Rattle.volume_step.specs.Steps.{IsDoneOk, KeepsJournal, OwnOf, ShrinksAs, StepsTo, WaitsForGrowth, grown};
ghost use Rattle.volume_step.specs.declared.outcome.Outcome.TheVariants as outcome;

use crate::outcome::Outcome;
use hfs_language::Command;
use hx_bytes::Trouble;
use sector_disk::SectorSpace;
use std::alloc::Global;
use volume_base::Volume;
use volume_space::{Growth, WhichTree, grow_tree};

/// Grows the tree that has to grow ahead of a command, by so many nodes: then the command is to be tried again. Where there is too little
/// room for the growth a commit comes first.
pub(crate) fn grow_first<P: SectorSpace>(
    alloc: Global,
    volume: &mut Volume,
    space: &mut P,
    _number: u64,
    _command: &Command,
    tree: WhichTree,
    more: u32,
) -> Result<Outcome, Trouble>
    requires stands { StandsOver volume.old (P.SectorView.space space.old) }
    requires settled { IsTrue (P.SectorView.space space.old).tells → IsSettled volume.old (P.SectorView.space space.old).content }
    requires closed { IsTrue (P.SectorView.space space.old).tells → (at : ℕ) → (P.SectorView.space space.old).closed at → IsJournalSector (P.SectorView.space space.old).content at }
    requires waits { IsTrue (P.SectorView.space space.old).tells → WaitsForGrowth tree more (capacity_of volume.old) _command.now (P.SectorView.space space.old).content }
    ensures answered { IsTrue (P.SectorView.space space.old).tells → IfOk result (λ outcome. StepsTo outcome (capacity_of volume.old) _number _command.now (P.SectorView.space space.old).content (P.SectorView.space space.new).content) }
    // Where a load wants it that may be put, no commit comes first.
    ensures ready { IsTrue (P.SectorView.space space.old).tells → WantsFirst tree more volume.old (P.SectorView.space space.old) → IfOk result (λ it. it ≢ outcome.CommitFirst) }
    // It isn't done yet.
    ensures never { IfOk result (λ it. IsDoneOk it → ⊥) }
    // No growth is in hand behind it.
    ensures dropped { OnOk result (volume.new.filling ≡ None) }
    ensures place { IsTrue (P.SectorView.space space.old).tells → OnOk result (KeepsJournal (P.SectorView.space space.old).content (P.SectorView.space space.new).content) }
    ensures stands { OnOk result (StandsOver volume.new (P.SectorView.space space.new)) }
    ensures settled { IsTrue (P.SectorView.space space.old).tells → OnOk result (IsSettled volume.new (P.SectorView.space space.new).content) }
    ensures filled { OnOk result (HasFilled volume.new (P.SectorView.space space.new)) }
    ensures service { IsInService volume.new (P.SectorView.space space.new) }
    ensures holds { (committed : Content) → HoldsOn committed volume.old → OnOk result (HoldsOn committed volume.new) }
    ensures capacity { capacity_of volume.new ≡ capacity_of volume.old }
    ensures shrunk { IsTrue (P.SectorView.space space.old).tells → IfOk result (λ outcome. ShrinksAs outcome _command.now (P.SectorView.space space.old).content (shrunk_of volume.old) (shrunk_of volume.new)) }
    ensures touches { (committed : Content) → Touches committed (OwnOf volume.old volume.new) (P.SectorView.space space.old) (P.SectorView.space space.new) }
    // It puts no more than a load that wants it, and may be put.
    ensures spent { IsTrue (P.SectorView.space space.old).tells → (wants : WantsFirst tree more volume.old (P.SectorView.space space.old)) → (P.SectorView.space space.old).spare ≤ (P.SectorView.space space.new).spare + wants.load }
    ensures below { P.SectorView.follows space.old space.new }
    ensures cause { HasTroubleCause (P.SectorView.space space.old).faults (P.SectorView.space space.new).faults result }
{
    let went = grow_tree(volume, alloc, space, tree, more)?;
    volume.filling = None;
    Ok(grown(went))
}

/// What a growth comes to for the command ahead of which it goes.
fn grown(went: Growth) -> Outcome
    ensures { result ≡ grown went }
{
    match went {
        Growth::Grown => Outcome::Again,
        Growth::CommitFirst => Outcome::CommitFirst,
    }
}
