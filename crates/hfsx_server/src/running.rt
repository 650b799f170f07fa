// A volume that is mounted, served to the end of a source, and unmounted.
ghost use Rattle.std.specs.Prelude.{◌≡◌, ◌≢◌, ◌⊎◌, ◌≤◌, ◌<◌, ◌/◌, [], ℕ, List, IsTrue, false, length, min, max};
ghost use Rattle.std.specs.List.{AllByRecursion};
ghost use Rattle.sector_disk.specs.Disk.{SameDisk, HasNothingPending, content};
ghost use Rattle.jnl_format.specs.Recovery.{Content};
ghost use Rattle.hfs_language.specs.Lines.{lines};
ghost use Rattle.hfs_language.specs.declared.reply.Change.{Change};
ghost use Rattle.hfs_volume.specs.Mount.{IsMountable, Mounts};
ghost use Rattle.hfs_serving.specs.Commits.{CommitsRun, WantsOver};
ghost use Rattle.hfs_serving.specs.Ending.{AnswersRun, AnswersToTheLast, FinishesRun};
ghost use Rattle.hfs_serving.specs.Steps.{KeepsRun};
ghost use Rattle.line_source.specs.Input.{SameSource};
ghost use Rattle.hfsx_server.specs.Cause.{IsCauseOf};
ghost use Rattle.hfsx_server.specs.Faults.{status_of};
ghost use Rattle.hfsx_server.specs.Telling.{ToldRefusal};
ghost use Rattle.hfsx_server.specs.Watching.{IsHeard};
ghost use Rattle.served_volume.specs.Wanting.{ServedWants};
ghost use Rattle.watchers.specs.Told.{AreTold};

use crate::{Status, tell_mount};
use hfs_serving::{Stop, serve_image};
use line_source::LineSource;
use sector_disk::Rig;
use served_volume::{ServedVolume, VolumeChecker};
use std::alloc::Global;
use watchers::Watcher;

// How many sectors of a volume are held in memory at least, and at most: half a MiB and 8 MiB.
const FEWEST_SLOTS: u64 = 1_024;

const MOST_SLOTS: u64 = 16_384;

/// Mounts a volume, serves it to the end of a source, and unmounts it. A refused image isn't written. Watchers are told what lines changed.
pub fn run<R: Rig, S: LineSource, W: Watcher>(
    alloc: Global,
    rig: &mut R,
    source: &mut S,
    watchers: &mut Vec<W>,
) -> Status
    ensures refused { IsTrue (R.state rig.old).tells → result ≡ Status.Refused → ToldRefusal (R.state rig.old) (R.state rig.new) }
    ensures refuses { IsTrue (R.state rig.old).tells → ¬ IsMountable (content (R.state rig.old)) → (result ≡ Status.Refused) ⊎ ((result ≡ Status.Disk) ⊎ (result ≡ Status.Memory)) }
    ensures unwritten { result ≡ Status.Refused → (R.state rig.new).candidates ≡ (R.state rig.old).candidates }
    ensures headline { IsTrue (R.state rig.old).tells → HasNothingPending (R.state rig.old) → (capacity : ℕ) (start : Content) → Mounts (content (R.state rig.old)) capacity start
        → KeepsRun capacity start (R.state rig.old) (S.stream source.old) (R.state rig.new) (S.stream source.new) }
    ensures finished { IsTrue (R.state rig.old).tells → HasNothingPending (R.state rig.old) → (capacity : ℕ) (start : Content) → Mounts (content (R.state rig.old)) capacity start → result ≡ Status.Done
        → FinishesRun capacity start (R.state rig.old) (S.stream source.old) (R.state rig.new) (S.stream source.new) }
    ensures source_stopped { IsTrue (R.state rig.old).tells → HasNothingPending (R.state rig.old) → (capacity : ℕ) (start : Content) → Mounts (content (R.state rig.old)) capacity start → result ≡ Status.Source
        → AnswersRun capacity start (R.state rig.old) (S.stream source.old) (R.state rig.new) (S.stream source.new) }
    ensures many_stopped { IsTrue (R.state rig.old).tells → HasNothingPending (R.state rig.old) → (capacity : ℕ) (start : Content) → Mounts (content (R.state rig.old)) capacity start → result ≡ Status.TooMany
        → AnswersToTheLast capacity start (R.state rig.old) (S.stream source.old) (R.state rig.new) (S.stream source.new) }
    ensures watched { (heard : List Change) × (AllByRecursion (λ w. W.leaves w ≡ false) watchers.old.items → AreTold W.told W.leaves heard watchers.old.items watchers.new.items)
        × (IsTrue (R.state rig.old).tells → HasNothingPending (R.state rig.old) → (capacity : ℕ) (start : Content) → Mounts (content (R.state rig.old)) capacity start
        → IsHeard result heard capacity start (R.state rig.old) (S.stream source.old) (R.state rig.new) (S.stream source.new)) }
    ensures end { IsTrue (S.stream source.old).tells → result ≡ Status.Done → (S.stream source.new).left ≡ [] }
    ensures many { IsTrue (S.stream source.old).tells → result ≡ Status.TooMany → 4294967295 < length (lines (S.stream source.old).left) }
    ensures few { IsTrue (S.stream source.old).tells → result ≡ Status.Done → length (lines (S.stream source.old).left) ≤ 4294967295 }
    // Done, each batch has made one commit: beside these the disk passed eight barriers at most ahead of the first batch and six behind the last, and those of
    // commits that a step wanted, for room, for blocks that are held until then or for zero blocks, or that were made since memory was missing for a step.
    ensures commits { IsTrue (R.state rig.old).tells → result ≡ Status.Done → (count : ℕ) × (IsTrue (S.stream source.old).tells → count ≡ length (lines (S.stream source.old).left))
        × CommitsRun (WantsOver ServedWants R.state) 9 8 1 count (R.state rig.old).barriers (R.state rig.new).barriers }
    // Where a fault ended it, so has each batch before, and the one that was cut short made no more.
    ensures cut { IsTrue (R.state rig.old).tells → result ≢ Status.Done → result ≢ Status.Refused → (count : ℕ) × (IsTrue (S.stream source.old).tells → count ≤ length (lines (S.stream source.old).left))
        × CommitsRun (WantsOver ServedWants R.state) 9 8 2 count (R.state rig.old).barriers (R.state rig.new).barriers }
    ensures no_usage { result ≢ Status.Usage }
    ensures disk { IsCauseOf Status.Disk (R.state rig.old).faults (R.state rig.new).faults result }
    ensures source { IsCauseOf Status.Source (S.stream source.old).faults (S.stream source.new).faults result }
    ensures sink { IsCauseOf Status.Sink (R.state rig.old).sink_faults (R.state rig.new).sink_faults result }
    ensures same { SameDisk (R.state rig.old) (R.state rig.new) }
    ensures same_source { SameSource (S.stream source.old) (S.stream source.new) }
{
    let mut checker = VolumeChecker::new(alloc);
    let slots = slots_for(rig.sectors());
    match serve_image::<ServedVolume, VolumeChecker, R, W, S>(
        alloc,
        &mut checker,
        slots,
        rig,
        watchers,
        source,
    ) {
        Ok(Ok(())) => Status::Done,
        Ok(Err(why)) => {
            tell_mount(rig, why, checker.found.as_slice());
            Status::Refused
        }
        Err(stop) => status_of(stop),
    }
}

// How many sectors of a volume of this size are held in memory: one in thirty-two, within bounds.
pub(crate) fn slots_for(sectors: u64) -> u32
    ensures { result ≡ min 16384 (max 1024 (sectors / 32)) }
{
    (sectors / 32).max(FEWEST_SLOTS).min(MOST_SLOTS) as u32
}

// The status of a run that ended before its last line.
pub(crate) fn status_of(stop: Stop) -> Status
    ensures { result ≡ status_of stop }
{
    match stop {
        Stop::Disk => Status::Disk,
        Stop::Memory => Status::Memory,
        Stop::Source => Status::Source,
        Stop::Sink => Status::Sink,
        Stop::Steps => Status::Memory,
        Stop::TooMany => Status::TooMany,
    }
}
