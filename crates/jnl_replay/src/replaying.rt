//! A journal replayed: its blocks home, and then its header emptied.
ghost use Rattle.std.specs.Prelude.{◌≡◌, ◌≢◌, ◌≤◌, ◌+◌, IsTrue, OnOk, Bool};
ghost use Rattle.sector_disk.specs.Cause.{HasCause, next_count};
ghost use Rattle.sector_disk.specs.Disk.{HasNothingPending, CrashesLeave, SameDisk, SameSink, content, only};
ghost use Rattle.jnl_format.specs.Recovery.{replayed};
ghost use Rattle.jnl_replay.specs.Homing.{StandsForSame, StandsForSameAs, after_replay, with_empty_header, with_info_done};
ghost use Rattle.jnl_replay.specs.Plan.{FitsAny, FitsPlan, IsPlan, IsPlanAs, IsQuick, journal_of};
ghost use Rattle.jnl_format.specs.declared.dialect.Dialect.{Dialect};

use crate::emptying::{clear_flag, empty_journal};
use crate::homing::write_homes;
use crate::plan::Plan;
use crate::repeating::settle_again;
use crate::text::text_of;
use hx_bytes::Failed;
use sector_disk::SectorDisk;

// Writes the blocks home and calls a barrier. Where no list is live there is nothing to write.
fn go_home<D: SectorDisk>(disk: &mut D, plan: &Plan) -> Result<(), Failed>
    requires fits { FitsAny (D.state disk.old).sectors plan.now }
    requires settled { IsTrue (D.state disk.old).tells → HasNothingPending (D.state disk.old) }
    ensures home { IsTrue (D.state disk.old).tells → (dialect : Dialect) → IsPlanAs dialect (content (D.state disk.old)) plan.now → OnOk result ((D.state disk.new).candidates ≡ only (replayed (journal_of plan.now) (content (D.state disk.old)))) }
    ensures crash { IsTrue (D.state disk.old).tells → (dialect : Dialect) → IsPlanAs dialect (content (D.state disk.old)) plan.now → CrashesLeave (D.state disk.old) (D.state disk.new) (StandsForSameAs dialect plan.now (content (D.state disk.old))) }
    ensures idle { plan.now.header.start ≡ plan.now.header.end → (D.state disk.new).barriers ≡ (D.state disk.old).barriers }
    ensures counted { plan.now.header.start ≢ plan.now.header.end → OnOk result ((D.state disk.new).barriers ≡ next_count (D.state disk.old).barriers) }
    ensures barriers { (D.state disk.new).barriers ≤ (D.state disk.old).barriers + 1 }
    ensures same { SameDisk (D.state disk.old) (D.state disk.new) }
    ensures sink { SameSink (D.state disk.old) (D.state disk.new) }
    ensures cause { HasCause (D.state disk.old).faults (D.state disk.new).faults result }
{
    if plan.header.start == plan.header.end {
        return Ok(());
    }
    let sectors = disk.sectors();
    let text = text_of(plan, sectors);
    write_homes(disk, &text)?;
    disk.barrier()
}

// Writes the blocks home, behind a barrier, and empties the journal behind another.
fn replay_lists<D: SectorDisk>(disk: &mut D, plan: &Plan) -> Result<(), Failed>
    requires fits { FitsAny (D.state disk.old).sectors plan.now }
    requires old { plan.now.fresh ≡ Bool.false }
    requires settled { IsTrue (D.state disk.old).tells → HasNothingPending (D.state disk.old) }
    ensures replayed { IsTrue (D.state disk.old).tells → (dialect : Dialect) → IsPlanAs dialect (content (D.state disk.old)) plan.now → OnOk result ((D.state disk.new).candidates ≡ only (with_empty_header plan.now (replayed (journal_of plan.now) (content (D.state disk.old))))) }
    ensures crash { IsTrue (D.state disk.old).tells → (dialect : Dialect) → IsPlanAs dialect (content (D.state disk.old)) plan.now → CrashesLeave (D.state disk.old) (D.state disk.new) (StandsForSameAs dialect plan.now (content (D.state disk.old))) }
    ensures quick { plan.now.header.start ≡ plan.now.header.end → OnOk result ((D.state disk.new).barriers ≡ next_count (D.state disk.old).barriers) }
    ensures counted { plan.now.header.start ≢ plan.now.header.end → OnOk result ((D.state disk.new).barriers ≡ next_count (next_count (D.state disk.old).barriers)) }
    ensures barriers { (D.state disk.new).barriers ≤ (D.state disk.old).barriers + 2 }
    ensures few { plan.now.header.start ≡ plan.now.header.end → (D.state disk.new).barriers ≤ (D.state disk.old).barriers + 1 }
    ensures same { SameDisk (D.state disk.old) (D.state disk.new) }
    ensures sink { SameSink (D.state disk.old) (D.state disk.new) }
    ensures cause { HasCause (D.state disk.old).faults (D.state disk.new).faults result }
{
    go_home(disk, plan)?;
    empty_journal(disk, plan)
}

// Empties a journal that still has to be initialised, and then says in its info block that it is.
fn initialise<D: SectorDisk>(disk: &mut D, plan: &Plan) -> Result<(), Failed>
    requires fits { FitsAny (D.state disk.old).sectors plan.now }
    requires new { plan.now.fresh ≡ Bool.true }
    requires settled { IsTrue (D.state disk.old).tells → HasNothingPending (D.state disk.old) }
    ensures replayed { IsTrue (D.state disk.old).tells → (dialect : Dialect) → IsPlanAs dialect (content (D.state disk.old)) plan.now → OnOk result ((D.state disk.new).candidates ≡ only (with_info_done plan.now (with_empty_header plan.now (content (D.state disk.old))))) }
    ensures crash { IsTrue (D.state disk.old).tells → (dialect : Dialect) → IsPlanAs dialect (content (D.state disk.old)) plan.now → CrashesLeave (D.state disk.old) (D.state disk.new) (StandsForSameAs dialect plan.now (content (D.state disk.old))) }
    ensures counted { OnOk result ((D.state disk.new).barriers ≡ next_count (next_count (D.state disk.old).barriers)) }
    ensures barriers { (D.state disk.new).barriers ≤ (D.state disk.old).barriers + 2 }
    ensures same { SameDisk (D.state disk.old) (D.state disk.new) }
    ensures sink { SameSink (D.state disk.old) (D.state disk.new) }
    ensures cause { HasCause (D.state disk.old).faults (D.state disk.new).faults result }
{
    empty_journal(disk, plan)?;
    clear_flag(disk, plan)
}

// Replays a journal of which nothing is pending.
fn replay_settled<D: SectorDisk>(disk: &mut D, plan: &Plan) -> Result<(), Failed>
    requires fits { FitsAny (D.state disk.old).sectors plan.now }
    requires settled { IsTrue (D.state disk.old).tells → HasNothingPending (D.state disk.old) }
    ensures replayed { IsTrue (D.state disk.old).tells → (dialect : Dialect) → IsPlanAs dialect (content (D.state disk.old)) plan.now → OnOk result ((D.state disk.new).candidates ≡ only (after_replay plan.now (content (D.state disk.old)))) }
    ensures crash { IsTrue (D.state disk.old).tells → (dialect : Dialect) → IsPlanAs dialect (content (D.state disk.old)) plan.now → CrashesLeave (D.state disk.old) (D.state disk.new) (StandsForSameAs dialect plan.now (content (D.state disk.old))) }
    ensures quick { IsQuick plan.now → OnOk result ((D.state disk.new).barriers ≡ next_count (D.state disk.old).barriers) }
    ensures counted { ¬ IsQuick plan.now → OnOk result ((D.state disk.new).barriers ≡ next_count (next_count (D.state disk.old).barriers)) }
    ensures barriers { (D.state disk.new).barriers ≤ (D.state disk.old).barriers + 2 }
    ensures few { IsQuick plan.now → (D.state disk.new).barriers ≤ (D.state disk.old).barriers + 1 }
    ensures same { SameDisk (D.state disk.old) (D.state disk.new) }
    ensures sink { SameSink (D.state disk.old) (D.state disk.new) }
    ensures cause { HasCause (D.state disk.old).faults (D.state disk.new).faults result }
{
    if plan.fresh {
        initialise(disk, plan)
    } else {
        replay_lists(disk, plan)
    }
}

/// Replays the journal of a plan that `validate` answers on this disk as it reads: writes all on which it acts again and
/// settles it, writes the blocks home behind a barrier, and then the empty header behind another. Where the journal
/// still has to be initialised, it writes an empty header, and then clears the flag in the info block, each behind a
/// barrier. It takes no memory. After a fault the disk may be validated again.
pub fn replay<D: SectorDisk>(disk: &mut D, plan: &Plan) -> Result<(), Failed>
    requires fits { FitsPlan (D.state disk.old).sectors plan.now }
    requires plan { IsTrue (D.state disk.old).tells → IsPlan (content (D.state disk.old)) plan.now }
    // The content is what it stood for, the journal is empty, and nothing is pending.
    ensures replayed { IsTrue (D.state disk.old).tells → OnOk result ((D.state disk.new).candidates ≡ only (after_replay plan.now (content (D.state disk.old)))) }
    // A crash at any moment of the call, or at its end, leaves a content that stands for the same.
    ensures crash { IsTrue (D.state disk.old).tells → HasNothingPending (D.state disk.old) → CrashesLeave (D.state disk.old) (D.state disk.new) (StandsForSame plan.now (content (D.state disk.old))) }
    // It calls two barriers where no list is live, and three where one is or where the journal still had to be initialised.
    ensures quick { IsQuick plan.now → OnOk result ((D.state disk.new).barriers ≡ next_count (next_count (D.state disk.old).barriers)) }
    ensures counted { ¬ IsQuick plan.now → OnOk result ((D.state disk.new).barriers ≡ next_count (next_count (next_count (D.state disk.old).barriers))) }
    ensures barriers { (D.state disk.new).barriers ≤ (D.state disk.old).barriers + 3 }
    ensures few { IsQuick plan.now → (D.state disk.new).barriers ≤ (D.state disk.old).barriers + 2 }
    ensures same { SameDisk (D.state disk.old) (D.state disk.new) }
    ensures sink { SameSink (D.state disk.old) (D.state disk.new) }
    ensures cause { HasCause (D.state disk.old).faults (D.state disk.new).faults result }
{
    replay_as(disk, plan)
}

/// The same in each dialect: replays the journal of a plan that `validate_as` answers on this disk as it reads.
pub fn replay_as<D: SectorDisk>(disk: &mut D, plan: &Plan) -> Result<(), Failed>
    requires fits { FitsAny (D.state disk.old).sectors plan.now }
    // In each dialect in which the plan is the content's, the content is what it stood for, the journal is empty, and nothing is
    // pending.
    ensures replayed { IsTrue (D.state disk.old).tells → (dialect : Dialect) → IsPlanAs dialect (content (D.state disk.old)) plan.now → OnOk result ((D.state disk.new).candidates ≡ only (after_replay plan.now (content (D.state disk.old)))) }
    // A crash at any moment of the call, or at its end, leaves a content that stands in this dialect for the same.
    ensures crash { IsTrue (D.state disk.old).tells → HasNothingPending (D.state disk.old) → (dialect : Dialect) → IsPlanAs dialect (content (D.state disk.old)) plan.now → CrashesLeave (D.state disk.old) (D.state disk.new) (StandsForSameAs dialect plan.now (content (D.state disk.old))) }
    // It calls two barriers where no list is live, and three where one is or where the journal still had to be initialised.
    ensures quick { IsQuick plan.now → OnOk result ((D.state disk.new).barriers ≡ next_count (next_count (D.state disk.old).barriers)) }
    ensures counted { ¬ IsQuick plan.now → OnOk result ((D.state disk.new).barriers ≡ next_count (next_count (next_count (D.state disk.old).barriers))) }
    ensures barriers { (D.state disk.new).barriers ≤ (D.state disk.old).barriers + 3 }
    ensures few { IsQuick plan.now → (D.state disk.new).barriers ≤ (D.state disk.old).barriers + 2 }
    ensures same { SameDisk (D.state disk.old) (D.state disk.new) }
    ensures sink { SameSink (D.state disk.old) (D.state disk.new) }
    ensures cause { HasCause (D.state disk.old).faults (D.state disk.new).faults result }
{
    settle_again(disk, plan)?;
    replay_settled(disk, plan)
}
