//! A cut of blocks past a file's size, ahead of data that makes the file longer.
ghost use Rattle.std.specs.Prelude.{◌≡◌, ◌+◌, ◌==◌, false, None, Some, IsTrue, IfOk, OnOk, if◌then◌else◌};
ghost use Rattle.std.specs.List.{Contains};
ghost use Rattle.sector_disk.specs.Lists.{Content};
ghost use Rattle.btree_edit.specs.Causes.{HasTroubleCause};
ghost use Rattle.hfs_language.specs.Written.{FitsCommand};
ghost use Rattle.hfs_model.specs.Step.{only_reads};
ghost use Rattle.hfs_volume.specs.Content.{volume_of};
ghost use Rattle.hfs_volume.specs.Forks.{data_kind};
ghost use Rattle.volume_space.specs.CuttingAhead.{CutsAhead, IsShortCut, TakesCutLoad};
ghost use Rattle.volume_weights.specs.DataWeighing.{WaitsForCut};
ghost use Rattle.volume_base.specs.Frame.{Serves};
ghost use Rattle.volume_base.specs.Keeping.{shrunk_of};
ghost use Rattle.volume_base.specs.Room.{capacity_of};
ghost use Rattle.volume_base.specs.Service.{IsInService};
ghost use Rattle.volume_base.specs.Holding.{HoldsOn};
ghost use Rattle.volume_base.specs.Frame.{Frees};
ghost use Rattle.volume_space.specs.Zeroing.{HasFilled};
ghost use Rattle.volume_base.specs.Standing.{IsSettled, StandsOver, own_sectors};
ghost use Rattle.volume_base.specs.Touching.{Touches};
ghost use Rattle.volume_step.specs.Loads.{IsWithinLoad};
ghost use Rattle.volume_step.specs.Steps.{IsDoneOk, KeepsJournal, LacksCutRoom, ShrinksAs, StepsTo, data_end, data_path, outcome_of};
ghost use Rattle.volume_step.specs.declared.outcome.Outcome.TheVariants as outcome;

use crate::answering::refusal;
use crate::outcome::Outcome;
use hfs_language::Command;
use hx_bytes::Trouble;
use sector_disk::SectorSpace;
use std::alloc::Global;
use volume_base::{ForkKind, Volume};
use volume_space::{CutAhead, cut_fork_ahead};

/// Up to where a command puts data, where it may put some.
fn data_end(command: &Command) -> Option<u128>
    ensures { result ≡ data_end command.now }
{
    match command {
        Command::Write {
            path: _,
            from,
            value,
        } => end_of(*from, value.as_slice().len()),
        Command::Trunc { path: _, size } => Some(u128::from(*size)),
        _ => None,
    }
}

/// The end of so many bytes from a place on, where there are some.
fn end_of(from: u64, len: usize) -> Option<u128>
    ensures { result ≡ (if len == 0 then None else Some (from + len)) }
{
    if len == 0 {
        return None;
    }
    Some(u128::from(from) + len as u128)
}

/// Cuts blocks past the size of the file that a command puts data into, where data up to this end makes the file longer.
fn cut_for<P: SectorSpace>(
    alloc: Global,
    volume: &mut Volume,
    space: &mut P,
    command: &Command,
    end: u128,
) -> Result<CutAhead, Trouble>
    requires serves { Serves volume.old (P.SectorView.space space.old) }
    requires fits { FitsCommand command.now }
    ensures came { IsTrue (P.SectorView.space space.old).tells → IfOk result (λ came. CutsAhead came (capacity_of volume.old) data_kind (data_path command.now) end (P.SectorView.space space.old).content (P.SectorView.space space.new).content) }
    ensures short { IsTrue (P.SectorView.space space.old).tells → IfOk result (λ came. IsShortCut came (capacity_of volume.old) (P.SectorView.space space.old).spare (volume_of (P.SectorView.space space.old).content)) }
    ensures loads { IsTrue (P.SectorView.space space.old).tells → TakesCutLoad (capacity_of volume.old) (volume_of (P.SectorView.space space.old).content) (P.SectorView.space space.old).spare (P.SectorView.space space.new).spare }
    ensures frees { Frees P.SectorView.space P.SectorView.follows volume.old volume.new space.old space.new result }
    ensures serves { OnOk result (Serves volume.new (P.SectorView.space space.new)) }
{
    match command {
        Command::Write { path, .. } => cut_fork_ahead(
            volume,
            alloc,
            space,
            path,
            ForkKind::Data,
            end,
        ),
        Command::Trunc { path, .. } => cut_fork_ahead(
            volume,
            alloc,
            space,
            path,
            ForkKind::Data,
            end,
        ),
        _ => Err(Trouble::Memory),
    }
}

/// Cuts blocks past the size of the file that a command puts data into, which go first; the data ends here.
fn cut_up_to<P: SectorSpace>(
    alloc: Global,
    volume: &mut Volume,
    space: &mut P,
    _number: u64,
    command: &Command,
    end: u128,
) -> Result<Outcome, Trouble>
    requires stands { StandsOver volume.old (P.SectorView.space space.old) }
    requires settled { IsTrue (P.SectorView.space space.old).tells → IsSettled volume.old (P.SectorView.space space.old).content }
    requires fits { FitsCommand command.now }
    requires changes { only_reads command.now ≡ false }
    requires end { data_end command.now ≡ Some end }
    requires waits { IsTrue (P.SectorView.space space.old).tells → WaitsForCut (P.SectorView.space space.old).content command.now }
    ensures answered { IsTrue (P.SectorView.space space.old).tells → IfOk result (λ outcome. StepsTo outcome (capacity_of volume.old) _number command.now (P.SectorView.space space.old).content (P.SectorView.space space.new).content) }
    // It isn't done yet.
    ensures never { IfOk result (λ it. IsDoneOk it → ⊥) }
    // No growth is in hand behind it.
    ensures dropped { OnOk result (volume.new.filling ≡ None) }
    ensures place { IsTrue (P.SectorView.space space.old).tells → OnOk result (KeepsJournal (P.SectorView.space space.old).content (P.SectorView.space space.new).content) }
    ensures stands { OnOk result (StandsOver volume.new (P.SectorView.space space.new)) }
    ensures settled { IsTrue (P.SectorView.space space.old).tells → OnOk result (IsSettled volume.new (P.SectorView.space space.new).content) }
    ensures filled { OnOk result (HasFilled volume.new (P.SectorView.space space.new)) }
    ensures service { IsInService volume.new (P.SectorView.space space.new) }
    ensures holds { (committed : Content) → HoldsOn committed volume.old → OnOk result (HoldsOn committed volume.new) }
    ensures capacity { capacity_of volume.new ≡ capacity_of volume.old }
    ensures shrunk { IsTrue (P.SectorView.space space.old).tells → IfOk result (λ outcome. ShrinksAs outcome command.now (P.SectorView.space space.old).content (shrunk_of volume.old) (shrunk_of volume.new)) }
    ensures touches { (committed : Content) → Touches committed (λ s. Contains (own_sectors volume.old) s) (P.SectorView.space space.old) (P.SectorView.space space.new) }
    ensures short { IsTrue (P.SectorView.space space.old).tells → IfOk result (λ it. it ≡ outcome.CommitFirst → LacksCutRoom volume.old (P.SectorView.space space.old)) }
    ensures loads { IsTrue (P.SectorView.space space.old).tells → IsWithinLoad command.now volume.old (P.SectorView.space space.old) (P.SectorView.space space.new) }
    ensures below { P.SectorView.follows space.old space.new }
    ensures cause { HasTroubleCause (P.SectorView.space space.old).faults (P.SectorView.space space.new).faults result }
{
    let came = cut_for(alloc, volume, space, command, end)?;
    volume.filling = None;
    Ok(outcome_of(alloc, came))
}

/// What a cut comes to for a command ahead of which one goes.
fn outcome_of(alloc: Global, came: CutAhead) -> Outcome
    ensures { result ≡ outcome_of came }
{
    match came {
        CutAhead::Made => Outcome::Again,
        // Where the space tells, its file has blocks past its size.
        CutAhead::CommitFirst | CutAhead::NotNeeded => Outcome::CommitFirst,
        CutAhead::Refused(why) => refusal(alloc, why),
    }
}

/// Cuts blocks past the size of the file that a command puts data into, which go first: then it is to be tried again.
pub(crate) fn cut_first<P: SectorSpace>(
    alloc: Global,
    volume: &mut Volume,
    space: &mut P,
    number: u64,
    command: &Command,
) -> Result<Outcome, Trouble>
    requires stands { StandsOver volume.old (P.SectorView.space space.old) }
    requires settled { IsTrue (P.SectorView.space space.old).tells → IsSettled volume.old (P.SectorView.space space.old).content }
    requires fits { FitsCommand command.now }
    requires changes { only_reads command.now ≡ false }
    requires waits { IsTrue (P.SectorView.space space.old).tells → WaitsForCut (P.SectorView.space space.old).content command.now }
    ensures answered { IsTrue (P.SectorView.space space.old).tells → IfOk result (λ outcome. StepsTo outcome (capacity_of volume.old) number command.now (P.SectorView.space space.old).content (P.SectorView.space space.new).content) }
    // It isn't done yet.
    ensures never { IfOk result (λ it. IsDoneOk it → ⊥) }
    // No growth is in hand behind it.
    ensures dropped { OnOk result (volume.new.filling ≡ None) }
    ensures place { IsTrue (P.SectorView.space space.old).tells → OnOk result (KeepsJournal (P.SectorView.space space.old).content (P.SectorView.space space.new).content) }
    ensures stands { OnOk result (StandsOver volume.new (P.SectorView.space space.new)) }
    ensures settled { IsTrue (P.SectorView.space space.old).tells → OnOk result (IsSettled volume.new (P.SectorView.space space.new).content) }
    ensures filled { OnOk result (HasFilled volume.new (P.SectorView.space space.new)) }
    ensures service { IsInService volume.new (P.SectorView.space space.new) }
    ensures holds { (committed : Content) → HoldsOn committed volume.old → OnOk result (HoldsOn committed volume.new) }
    ensures capacity { capacity_of volume.new ≡ capacity_of volume.old }
    ensures shrunk { IsTrue (P.SectorView.space space.old).tells → IfOk result (λ outcome. ShrinksAs outcome command.now (P.SectorView.space space.old).content (shrunk_of volume.old) (shrunk_of volume.new)) }
    ensures touches { (committed : Content) → Touches committed (λ s. Contains (own_sectors volume.old) s) (P.SectorView.space space.old) (P.SectorView.space space.new) }
    // A commit comes first only where there is too little room for the cut.
    ensures short { IsTrue (P.SectorView.space space.old).tells → IfOk result (λ it. it ≡ outcome.CommitFirst → LacksCutRoom volume.old (P.SectorView.space space.old)) }
    // On a fault too, it puts no more sectors than the load of the command.
    ensures loads { IsTrue (P.SectorView.space space.old).tells → IsWithinLoad command.now volume.old (P.SectorView.space space.old) (P.SectorView.space space.new) }
    ensures below { P.SectorView.follows space.old space.new }
    ensures cause { HasTroubleCause (P.SectorView.space space.old).faults (P.SectorView.space space.new).faults result }
{
    match data_end(command) {
        Some(end) => cut_up_to(alloc, volume, space, number, command, end),
        // Where the space tells, the command puts data.
        None => {
            volume.filling = None;
            Ok(Outcome::CommitFirst)
        }
    }
}
