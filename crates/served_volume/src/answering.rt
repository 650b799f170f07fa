//! A command on a volume in service.
ghost use Rattle.std.specs.Prelude.{◌≡◌, ◌≢◌, ◌⊎◌, ◌<◌, ◌==◌, ℕ, List, Option, true, IsTrue, IfOk, Ok, OnOk, Some};
ghost use Rattle.jnl_format.specs.Recovery.{Content};
ghost use Rattle.sector_disk.specs.Space.{SameSpace};
ghost use Rattle.btree_edit.specs.Causes.{HasTroubleCause};
ghost use Rattle.hfs_language.specs.Language.{command_of};
ghost use Rattle.hfs_language.specs.Written.{FitsCommand};
ghost use Rattle.hfs_model.specs.Step.{only_reads};
ghost use Rattle.hfs_volume.specs.Aside.{IsJournalSector};
ghost use Rattle.hfs_volume.specs.declared.asked.Asked.{Asked};
ghost use Rattle.hfs_volume.specs.declared.asked.Asked.TheVariants.{Plain};
ghost use Rattle.hfs_volume.specs.Sound.{IsSound};
ghost use Rattle.volume_runs.specs.Run.{wanted_in};
ghost use Rattle.volume_base.specs.Keeping.{shrunk_of};
ghost use Rattle.volume_base.specs.Room.{capacity_of};
ghost use Rattle.volume_base.specs.Service.{IsInService};
ghost use Rattle.volume_base.specs.Holding.{IsLaidOutAs};
ghost use Rattle.volume_base.specs.Holding.{HoldsOn};
ghost use Rattle.volume_space.specs.Zeroing.{HasFilled};
ghost use Rattle.volume_base.specs.Standing.{IsSettled, StandsOver};
ghost use Rattle.volume_base.specs.Touching.{Touches};
ghost use Rattle.volume_step.specs.Anew.{FitsAnew, IsAnew};
ghost use Rattle.volume_step.specs.Steps.{FitsReady, KeepsJournal, OwnOf, PutsNow};
ghost use Rattle.volume_step.specs.declared.outcome.Outcome.TheVariants as outcome;
ghost use Rattle.served_volume.specs.Answering.{AnswersAs, IsDecidedAs, IsDecidedOrWaits, ShrinksBy, performed_of, refused, unless_short};
ghost use Rattle.served_volume.specs.Wanting.{WantsCommit};

use hfs_language::{Changes, Command, Refusal, Reply};
use hfs_serving::{Ground, Performed};
use hx_bytes::Trouble;
use std::alloc::Global;
use volume_base::Volume;
use volume_step::{Outcome, step};

/// A refusal, by which nothing was changed.
fn refused(alloc: Global, why: Refusal) -> Outcome
    ensures { result ≡ refused why }
{
    Outcome::Answered {
        reply: Reply::No(why),
        changes: Changes::new(alloc),
    }
}

/// What a step came to; where it wants a commit, though nothing was put since the last one, memory is missing for its puts.
pub(crate) fn unless_short(alloc: Global, fresh: bool, outcome: Outcome) -> Outcome
    ensures { result ≡ unless_short fresh outcome }
{
    match outcome {
        Outcome::Answered { reply, changes } => Outcome::Answered { reply, changes },
        Outcome::CommitFirst => {
            if fresh {
                refused(alloc, Refusal::OutOfMemory)
            } else {
                Outcome::CommitFirst
            }
        }
        Outcome::Again => Outcome::Again,
    }
}

/// What a step came to, as a server sees it.
pub(crate) fn performed(outcome: Outcome) -> Performed
    ensures { result ≡ performed_of outcome }
{
    match outcome {
        Outcome::Answered { reply, changes } => Performed::Done { reply, changes },
        Outcome::CommitFirst => Performed::CommitFirst,
        Outcome::Again => Performed::Again,
    }
}

/// Whether nothing was put since the last commit.
pub(crate) fn is_fresh<P: Ground>(space: &P) -> bool
    ensures { result ≡ (P.taken space.now == 0) }
{
    space.pending() == 0
}

/// Does a command, of the line with this number or one that stands by itself. Behind a fault no growth is in hand.
pub(crate) fn do_command<P: Ground>(
    alloc: Global,
    volume: &mut Volume,
    space: &mut P,
    number: u64,
    command: &Command,
) -> Result<Outcome, Trouble>
    requires stands { StandsOver volume.old (P.SectorView.space space.old) }
    requires settled { IsTrue (P.SectorView.space space.old).tells → IsSettled volume.old (P.SectorView.space space.old).content }
    requires filled { HasFilled volume.old (P.SectorView.space space.old) }
    requires sound { IsTrue (P.SectorView.space space.old).tells → IsSound (P.SectorView.space space.old).content }
    requires closed { IsTrue (P.SectorView.space space.old).tells → (at : ℕ) → (P.SectorView.space space.old).closed at → IsJournalSector (P.SectorView.space space.old).content at }
    requires fits { FitsCommand command.now }
    ensures answered { (own : Option Asked) (line : List ℕ) → wanted_in own line ≡ Some (Plain command.now) → IsTrue (P.SectorView.space space.old).tells → IfOk result (λ outcome. AnswersAs outcome (capacity_of volume.old) number own line (P.SectorView.space space.old).content (P.SectorView.space space.new).content) }
    // Where the step is ready for it, or nothing was put since the last commit and nothing is missing for it, neither a commit is wanted nor is
    // memory missing.
    ensures ready { (line : List ℕ) → command_of line ≡ Ok command.now → IsTrue (P.SectorView.space space.old).tells → (only_reads command.now ≡ true) ⊎ (FitsReady command.now volume.old (P.SectorView.space space.old) ⊎ PutsNow command.now volume.old (P.SectorView.space space.old)) → IfOk result (λ outcome. IsDecidedAs outcome (capacity_of volume.old) line (P.SectorView.space space.old).content (P.SectorView.space space.new).content) }
    ensures anew { (line : List ℕ) → command_of line ≡ Ok command.now → IsTrue (P.SectorView.space space.old).tells → IsAnew volume.old (P.SectorView.space space.old) → FitsAnew command.now volume.old (P.SectorView.space space.old).content → IfOk result (λ outcome. IsDecidedAs outcome (capacity_of volume.old) line (P.SectorView.space space.old).content (P.SectorView.space space.new).content) }
    // Where something was put since the last commit memory isn't missing for it; where nothing was, no commit is wanted.
    ensures pends { (line : List ℕ) → command_of line ≡ Ok command.now → IsTrue (P.SectorView.space space.old).tells → 0 < P.taken space.old → IfOk result (λ outcome. IsDecidedOrWaits outcome (capacity_of volume.old) line (P.SectorView.space space.old).content (P.SectorView.space space.new).content) }
    // One is wanted only where something stands in the command's way: room, the blocks that are held until then, or many zero blocks.
    ensures waits { IsTrue (P.SectorView.space space.old).tells → IfOk result (λ came. came ≡ outcome.CommitFirst → WantsCommit volume.old (P.SectorView.space space.old) (Some (Plain command.now))) }
    ensures never { P.taken space.old ≡ 0 → IfOk result (λ it. it ≢ outcome.CommitFirst) }
    ensures place { IsTrue (P.SectorView.space space.old).tells → OnOk result (KeepsJournal (P.SectorView.space space.old).content (P.SectorView.space space.new).content) }
    ensures stands { OnOk result (StandsOver volume.new (P.SectorView.space space.new)) }
    ensures settled { IsTrue (P.SectorView.space space.old).tells → OnOk result (IsSettled volume.new (P.SectorView.space space.new).content) }
    ensures filled { HasFilled volume.new (P.SectorView.space space.new) }
    ensures service { IsInService volume.new (P.SectorView.space space.new) }
    ensures holds { (committed : Content) → HoldsOn committed volume.old → OnOk result (HoldsOn committed volume.new) }
    ensures capacity { capacity_of volume.new ≡ capacity_of volume.old }
    ensures shrunk { (own : Option Asked) (line : List ℕ) → wanted_in own line ≡ Some (Plain command.now) → IsTrue (P.SectorView.space space.old).tells → IfOk result (λ outcome. ShrinksBy outcome own line (P.SectorView.space space.old).content (shrunk_of volume.old) (shrunk_of volume.new)) }
    ensures touches { (committed : Content) → HoldsOn committed volume.old → IsLaidOutAs committed volume.old → Touches committed (OwnOf volume.old volume.new) (P.SectorView.space space.old) (P.SectorView.space space.new) }
    ensures same { SameSpace (P.SectorView.space space.old) (P.SectorView.space space.new) }
    ensures below { P.SectorView.follows space.old space.new }
    ensures cause { HasTroubleCause (P.SectorView.space space.old).faults (P.SectorView.space space.new).faults result }
{
    let fresh = is_fresh(space);
    match step(alloc, volume, space, number, command) {
        Ok(outcome) => Ok(unless_short(alloc, fresh, outcome)),
        Err(trouble) => {
            // A growth ends where a step of it is undone.
            volume.filling = None;
            Err(trouble)
        }
    }
}
