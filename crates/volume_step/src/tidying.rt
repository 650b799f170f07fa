//! A step of housekeeping on a volume in service.
ghost use Rattle.std.specs.Prelude.{◌≡◌, ℕ, IsTrue, IfOk, OnOk};
ghost use Rattle.sector_disk.specs.Lists.{Content};
ghost use Rattle.btree_edit.specs.Causes.{HasTroubleCause};
ghost use Rattle.hfs_volume.specs.Aside.{IsJournalSector};
ghost use Rattle.volume_base.specs.Frame.{Serves};
ghost use Rattle.volume_base.specs.Keeping.{shrunk_of};
ghost use Rattle.volume_base.specs.Room.{capacity_of};
ghost use Rattle.volume_base.specs.Service.{IsInService};
ghost use Rattle.volume_space.specs.Awaiting.{AwaitsGrowth};
ghost use Rattle.volume_base.specs.Holding.{HoldsOn};
ghost use Rattle.volume_base.specs.Frame.{Frees};
ghost use Rattle.volume_base.specs.Standing.{IsSettled, StandsOver};
ghost use Rattle.volume_base.specs.Touching.{Touches};
ghost use Rattle.volume_step.specs.Steps.{KeepsJournal, OwnOf};
ghost use Rattle.volume_space.specs.declared.tidying.Tidying.TheVariants as tidying;
ghost use Rattle.volume_step.specs.Tidying.{LacksRoom, ReclaimsAs, tidied_by, TakesStepLoad};

use hfs_volume::soundness_has_two_halves;
use hx_bytes::Trouble;
use sector_disk::SectorSpace;
use std::alloc::Global;
use tree_weights::{a_load_says_enough, trees_grow_by_enough};
use volume_base::Volume;
use volume_space::{Growth, Tidying, TreeWanted, grow_tree, next_growth};

/// Makes the next step of reclaiming for which no tree has to grow.
fn tidy_now<P: SectorSpace>(
    alloc: Global,
    volume: &mut Volume,
    space: &mut P,
) -> Result<Tidying, Trouble>
    requires serves { Serves volume.old (P.SectorView.space space.old) }
    ensures reclaims { IsTrue (P.SectorView.space space.old).tells → IfOk result (λ came. ReclaimsAs came (capacity_of volume.old) (shrunk_of volume.old) (P.SectorView.space space.old).content (P.SectorView.space space.new).content) }
    ensures short { IsTrue (P.SectorView.space space.old).tells → IfOk result (λ came. came ≡ tidying.CommitFirst → LacksRoom volume.old (P.SectorView.space space.old)) }
    ensures place { IsTrue (P.SectorView.space space.old).tells → OnOk result (KeepsJournal (P.SectorView.space space.old).content (P.SectorView.space space.new).content) }
    ensures loads { IsTrue (P.SectorView.space space.old).tells → TakesStepLoad (capacity_of volume.old) (shrunk_of volume.old) (P.SectorView.space space.old).content (P.SectorView.space space.old).spare (P.SectorView.space space.new).spare }
    ensures frees { Frees P.SectorView.space P.SectorView.follows volume.old volume.new space.old space.new result }
    ensures serves { OnOk result (Serves volume.new (P.SectorView.space space.new)) }
{
    soundness_has_two_halves();
    volume_space::tidy(volume, alloc, space)
}

/// What a growth comes to for the step of reclaiming that awaits it.
fn grown(went: Growth) -> Tidying
    ensures { result ≡ tidied_by went }
{
    match went {
        Growth::Grown => Tidying::Made,
        Growth::CommitFirst => Tidying::CommitFirst,
    }
}

/// Grows a tree that the next step of reclaiming awaits.
fn grow_for<P: SectorSpace>(
    alloc: Global,
    volume: &mut Volume,
    space: &mut P,
    wanted: TreeWanted,
) -> Result<Tidying, Trouble>
    requires stands { StandsOver volume.old (P.SectorView.space space.old) }
    requires settled { IsTrue (P.SectorView.space space.old).tells → IsSettled volume.old (P.SectorView.space space.old).content }
    requires closed { IsTrue (P.SectorView.space space.old).tells → (at : ℕ) → (P.SectorView.space space.old).closed at → IsJournalSector (P.SectorView.space space.old).content at }
    requires awaits { IsTrue (P.SectorView.space space.old).tells → AwaitsGrowth (capacity_of volume.old) (shrunk_of volume.old) (P.SectorView.space space.old).content wanted }
    ensures reclaims { IsTrue (P.SectorView.space space.old).tells → IfOk result (λ came. ReclaimsAs came (capacity_of volume.old) (shrunk_of volume.old) (P.SectorView.space space.old).content (P.SectorView.space space.new).content) }
    ensures short { IsTrue (P.SectorView.space space.old).tells → IfOk result (λ came. came ≡ tidying.CommitFirst → LacksRoom volume.old (P.SectorView.space space.old)) }
    ensures place { IsTrue (P.SectorView.space space.old).tells → OnOk result (KeepsJournal (P.SectorView.space space.old).content (P.SectorView.space space.new).content) }
    ensures stands { OnOk result (StandsOver volume.new (P.SectorView.space space.new)) }
    ensures settled { IsTrue (P.SectorView.space space.old).tells → OnOk result (IsSettled volume.new (P.SectorView.space space.new).content) }
    ensures service { IsInService volume.new (P.SectorView.space space.new) }
    ensures holds { (committed : Content) → HoldsOn committed volume.old → HoldsOn committed volume.new }
    ensures capacity { capacity_of volume.new ≡ capacity_of volume.old }
    ensures shrunk { shrunk_of volume.new ≡ shrunk_of volume.old }
    ensures touches { (committed : Content) → Touches committed (OwnOf volume.old volume.new) (P.SectorView.space space.old) (P.SectorView.space space.new) }
    ensures loads { IsTrue (P.SectorView.space space.old).tells → TakesStepLoad (capacity_of volume.old) (shrunk_of volume.old) (P.SectorView.space space.old).content (P.SectorView.space space.old).spare (P.SectorView.space space.new).spare }
    ensures below { P.SectorView.follows space.old space.new }
    ensures cause { HasTroubleCause (P.SectorView.space space.old).faults (P.SectorView.space space.new).faults result }
{
    a_load_says_enough();
    trees_grow_by_enough();
    let went = grow_tree(volume, alloc, space, wanted.tree, wanted.more)?;
    Ok(grown(went))
}

/// Makes the next step of reclaiming: it cuts the file that was shrunk last where that has blocks past its size, or, of the file with
/// the least CNID of those that lost their last name, a fork, or drops the first of its attributes, or its entry. Where a tree has to grow for that
/// step, the tree grows, by as many nodes as the step's cost says: then it is made next. `Memory` comes where memory is wanting, `Disk` where a read
/// failed.
pub fn tidy<P: SectorSpace>(
    alloc: Global,
    volume: &mut Volume,
    space: &mut P,
) -> Result<Tidying, Trouble>
    requires stands { StandsOver volume.old (P.SectorView.space space.old) }
    requires settled { IsTrue (P.SectorView.space space.old).tells → IsSettled volume.old (P.SectorView.space space.old).content }
    // Only the journal's sectors are closed.
    requires closed { IsTrue (P.SectorView.space space.old).tells → (at : ℕ) → (P.SectorView.space space.old).closed at → IsJournalSector (P.SectorView.space space.old).content at }
    // Told, the next step of reclaiming was made, and nothing was missing for it, or a tree has grown for it; or nothing was changed. It rests only
    // where nothing is left to reclaim, or the next step is held up.
    ensures reclaims { IsTrue (P.SectorView.space space.old).tells → IfOk result (λ came. ReclaimsAs came (capacity_of volume.old) (shrunk_of volume.old) (P.SectorView.space space.old).content (P.SectorView.space space.new).content) }
    // It wants a commit only where there is too little room for the next step, or for the growth ahead of it.
    ensures short { IsTrue (P.SectorView.space space.old).tells → IfOk result (λ came. came ≡ tidying.CommitFirst → LacksRoom volume.old (P.SectorView.space space.old)) }
    // The journal lies where it lay, and the header is one of the same volume.
    ensures place { IsTrue (P.SectorView.space space.old).tells → OnOk result (KeepsJournal (P.SectorView.space space.old).content (P.SectorView.space space.new).content) }
    ensures stands { OnOk result (StandsOver volume.new (P.SectorView.space space.new)) }
    ensures settled { IsTrue (P.SectorView.space space.old).tells → OnOk result (IsSettled volume.new (P.SectorView.space space.new).content) }
    ensures service { IsInService volume.new (P.SectorView.space space.new) }
    // No block that a content has in use is lost.
    ensures holds { (committed : Content) → HoldsOn committed volume.old → HoldsOn committed volume.new }
    ensures capacity { capacity_of volume.new ≡ capacity_of volume.old }
    ensures shrunk { shrunk_of volume.new ≡ shrunk_of volume.old }
    // On a fault too, it puts sectors that are its own before or behind the call, or lie in blocks that were free, whatever was committed last.
    ensures touches { (committed : Content) → Touches committed (OwnOf volume.old volume.new) (P.SectorView.space space.old) (P.SectorView.space space.new) }
    // On a fault too, it puts no more sectors than the load of the step, where it makes it and where a tree grows for it.
    ensures loads { IsTrue (P.SectorView.space space.old).tells → TakesStepLoad (capacity_of volume.old) (shrunk_of volume.old) (P.SectorView.space space.old).content (P.SectorView.space space.old).spare (P.SectorView.space space.new).spare }
    ensures below { P.SectorView.follows space.old space.new }
    ensures cause { HasTroubleCause (P.SectorView.space space.old).faults (P.SectorView.space space.new).faults result }
{
    let found = next_growth(volume, alloc, space)?;
    if let Some(wanted) = found {
        return grow_for(alloc, volume, space, wanted);
    }
    tidy_now(alloc, volume, space)
}
