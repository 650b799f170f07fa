//! What a volume in service is asked for: a command of the plain language, or one on a symbolic link or a resource fork.
ghost use Rattle.std.specs.Prelude.{◌≡◌, ◌≢◌, ◌<◌, ℕ, List, Option, IsTrue, IfOk, OnOk, Some};
ghost use Rattle.jnl_format.specs.Recovery.{Content};
ghost use Rattle.sector_disk.specs.Space.{SameSpace};
ghost use Rattle.btree_edit.specs.Causes.{HasTroubleCause};
ghost use Rattle.hfs_volume.specs.Aside.{IsJournalSector};
ghost use Rattle.hfs_volume.specs.declared.asked.Asked.{Asked};
ghost use Rattle.hfs_volume.specs.declared.asked.Asked.TheVariants.{Kind};
ghost use Rattle.hfs_volume.specs.Sound.{IsSound};
ghost use Rattle.volume_runs.specs.Fits.{FitsAsked, FitsEdit};
ghost use Rattle.volume_runs.specs.Run.{wanted_in};
ghost use Rattle.volume_base.specs.Keeping.{shrunk_of};
ghost use Rattle.volume_base.specs.Room.{capacity_of};
ghost use Rattle.volume_base.specs.Service.{IsInService};
ghost use Rattle.volume_base.specs.Holding.{HoldsOn, IsLaidOutAs};
ghost use Rattle.volume_space.specs.Zeroing.{HasFilled};
ghost use Rattle.volume_base.specs.Standing.{IsSettled, StandsOver};
ghost use Rattle.volume_base.specs.Touching.{Touches};
ghost use Rattle.volume_step.specs.Steps.{KeepsJournal, OwnOf};
ghost use Rattle.volume_step.specs.declared.outcome.Outcome.TheVariants as outcome;
ghost use Rattle.volume_links.specs.Steps.{KindStepsTo};
ghost use Rattle.served_volume.specs.Answering.{AnswersAs, ShrinksBy};
ghost use Rattle.served_volume.specs.Wanting.{WantsCommit};

use crate::answering::{do_command, is_fresh, unless_short};
use hfs_model::KindEdit;
use hfs_serving::Ground;
use hfs_volume::Asked;
use hx_bytes::Trouble;
use std::alloc::Global;
use volume_base::Volume;
use volume_links::kind_step;
use volume_step::Outcome;

/// Does what is asked for, by the line with this number or by itself. Behind a fault no growth is in hand.
pub(crate) fn do_asked<P: Ground>(
    alloc: Global,
    volume: &mut Volume,
    space: &mut P,
    number: u64,
    asked: &Asked,
) -> Result<Outcome, Trouble>
    requires stands { StandsOver volume.old (P.SectorView.space space.old) }
    requires settled { IsTrue (P.SectorView.space space.old).tells → IsSettled volume.old (P.SectorView.space space.old).content }
    requires filled { HasFilled volume.old (P.SectorView.space space.old) }
    requires sound { IsTrue (P.SectorView.space space.old).tells → IsSound (P.SectorView.space space.old).content }
    requires closed { IsTrue (P.SectorView.space space.old).tells → (at : ℕ) → (P.SectorView.space space.old).closed at → IsJournalSector (P.SectorView.space space.old).content at }
    requires fits { FitsAsked asked.now }
    ensures answered { (own : Option Asked) (line : List ℕ) → wanted_in own line ≡ Some asked.now → IsTrue (P.SectorView.space space.old).tells → IfOk result (λ outcome. AnswersAs outcome (capacity_of volume.old) number own line (P.SectorView.space space.old).content (P.SectorView.space space.new).content) }
    // A commit is wanted before no command that only reads, and before another only where something stands in its way.
    ensures waits { IsTrue (P.SectorView.space space.old).tells → IfOk result (λ came. came ≡ outcome.CommitFirst → WantsCommit volume.old (P.SectorView.space space.old) (Some asked.now)) }
    ensures never { P.taken space.old ≡ 0 → IfOk result (λ it. it ≢ outcome.CommitFirst) }
    ensures place { IsTrue (P.SectorView.space space.old).tells → OnOk result (KeepsJournal (P.SectorView.space space.old).content (P.SectorView.space space.new).content) }
    ensures stands { OnOk result (StandsOver volume.new (P.SectorView.space space.new)) }
    ensures settled { IsTrue (P.SectorView.space space.old).tells → OnOk result (IsSettled volume.new (P.SectorView.space space.new).content) }
    ensures filled { HasFilled volume.new (P.SectorView.space space.new) }
    ensures service { IsInService volume.new (P.SectorView.space space.new) }
    ensures holds { (committed : Content) → HoldsOn committed volume.old → OnOk result (HoldsOn committed volume.new) }
    ensures capacity { capacity_of volume.new ≡ capacity_of volume.old }
    ensures shrunk { (own : Option Asked) (line : List ℕ) → wanted_in own line ≡ Some asked.now → IsTrue (P.SectorView.space space.old).tells → IfOk result (λ outcome. ShrinksBy outcome own line (P.SectorView.space space.old).content (shrunk_of volume.old) (shrunk_of volume.new)) }
    ensures touches { (committed : Content) → HoldsOn committed volume.old → IsLaidOutAs committed volume.old → Touches committed (OwnOf volume.old volume.new) (P.SectorView.space space.old) (P.SectorView.space space.new) }
    ensures same { SameSpace (P.SectorView.space space.old) (P.SectorView.space space.new) }
    ensures below { P.SectorView.follows space.old space.new }
    ensures cause { HasTroubleCause (P.SectorView.space space.old).faults (P.SectorView.space space.new).faults result }
{
    match asked {
        Asked::Plain(command) => do_command(alloc, volume, space, number, command),
        Asked::Kind(edit) => do_kind(alloc, volume, space, number, edit),
    }
}

/// Does a command on a symbolic link or a resource fork. Behind a fault no growth is in hand.
fn do_kind<P: Ground>(
    alloc: Global,
    volume: &mut Volume,
    space: &mut P,
    number: u64,
    edit: &KindEdit,
) -> Result<Outcome, Trouble>
    requires stands { StandsOver volume.old (P.SectorView.space space.old) }
    requires settled { IsTrue (P.SectorView.space space.old).tells → IsSettled volume.old (P.SectorView.space space.old).content }
    requires filled { HasFilled volume.old (P.SectorView.space space.old) }
    requires sound { IsTrue (P.SectorView.space space.old).tells → IsSound (P.SectorView.space space.old).content }
    requires closed { IsTrue (P.SectorView.space space.old).tells → (at : ℕ) → (P.SectorView.space space.old).closed at → IsJournalSector (P.SectorView.space space.old).content at }
    requires fits { FitsEdit edit.now }
    ensures answered { (own : Option Asked) (line : List ℕ) → wanted_in own line ≡ Some (Kind edit.now) → IsTrue (P.SectorView.space space.old).tells → IfOk result (λ outcome. AnswersAs outcome (capacity_of volume.old) number own line (P.SectorView.space space.old).content (P.SectorView.space space.new).content) }
    // Where something was put since the last commit memory isn't missing for it; where nothing was, no commit is wanted.
    ensures pends { IsTrue (P.SectorView.space space.old).tells → 0 < P.taken space.old → IfOk result (λ outcome. KindStepsTo outcome (capacity_of volume.old) number edit.now (P.SectorView.space space.old).content (P.SectorView.space space.new).content) }
    // A commit is wanted before no command that only reads, and before another only where something stands in its way.
    ensures waits { IsTrue (P.SectorView.space space.old).tells → IfOk result (λ came. came ≡ outcome.CommitFirst → WantsCommit volume.old (P.SectorView.space space.old) (Some (Kind edit.now))) }
    ensures never { P.taken space.old ≡ 0 → IfOk result (λ it. it ≢ outcome.CommitFirst) }
    ensures place { IsTrue (P.SectorView.space space.old).tells → OnOk result (KeepsJournal (P.SectorView.space space.old).content (P.SectorView.space space.new).content) }
    ensures stands { OnOk result (StandsOver volume.new (P.SectorView.space space.new)) }
    ensures settled { IsTrue (P.SectorView.space space.old).tells → OnOk result (IsSettled volume.new (P.SectorView.space space.new).content) }
    ensures filled { HasFilled volume.new (P.SectorView.space space.new) }
    ensures service { IsInService volume.new (P.SectorView.space space.new) }
    ensures holds { (committed : Content) → HoldsOn committed volume.old → OnOk result (HoldsOn committed volume.new) }
    ensures capacity { capacity_of volume.new ≡ capacity_of volume.old }
    ensures shrunk { (own : Option Asked) (line : List ℕ) → wanted_in own line ≡ Some (Kind edit.now) → IsTrue (P.SectorView.space space.old).tells → IfOk result (λ outcome. ShrinksBy outcome own line (P.SectorView.space space.old).content (shrunk_of volume.old) (shrunk_of volume.new)) }
    ensures touches { (committed : Content) → HoldsOn committed volume.old → IsLaidOutAs committed volume.old → Touches committed (OwnOf volume.old volume.new) (P.SectorView.space space.old) (P.SectorView.space space.new) }
    ensures same { SameSpace (P.SectorView.space space.old) (P.SectorView.space space.new) }
    ensures below { P.SectorView.follows space.old space.new }
    ensures cause { HasTroubleCause (P.SectorView.space space.old).faults (P.SectorView.space space.new).faults result }
{
    let fresh = is_fresh(space);
    match kind_step(alloc, volume, space, number, edit) {
        Ok(outcome) => Ok(unless_short(alloc, fresh, outcome)),
        Err(trouble) => {
            // A growth ends where a step of it is undone.
            volume.filling = None;
            Err(trouble)
        }
    }
}
