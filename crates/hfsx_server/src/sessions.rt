//! A volume that serves many sessions to the end of a source.
ghost use Rattle.std.specs.Prelude.{◌≡◌, ◌≢◌, ◌<◌, ℕ, List, IfOk, IsTrue, MatchOption, None, Some, false, length};
ghost use Rattle.std.specs.List.{AllByRecursion};
ghost use Rattle.sector_disk.specs.Disk.{OnlyReads, SameDisk, content};
ghost use Rattle.jnl_format.specs.Recovery.{Content};
ghost use Rattle.jnl_replay.specs.Plan.{FitsPlan};
ghost use Rattle.hfs_language.specs.Lines.{lines};
ghost use Rattle.hfs_language.specs.declared.reply.Change.{Change};
ghost use Rattle.hfs_volume.specs.Mount.{Mounts};
ghost use Rattle.hfs_volume.specs.TreeOf.{tree_of};
ghost use Rattle.hfs_serving.specs.Checking.{IsFound};
ghost use Rattle.line_source.specs.Cause.{IsCause};
ghost use Rattle.line_source.specs.Input.{SameSource};
ghost use Rattle.session_lines.specs.Keepers.{FindsFiles};
ghost use Rattle.watchers.specs.Told.{AreTold};
ghost use Rattle.hx_bytes.specs.declared.faults.Trouble.TheVariants as trouble;
ghost use Rattle.hfsx_server.specs.Cause.{IsCauseOf};
ghost use Rattle.hfsx_server.specs.Faults.{trouble_status};
ghost use Rattle.hfsx_server.specs.Sessions.{ServesSessions};
ghost use Rattle.hfsx_server.specs.Telling.{Tells, taken_text};

use crate::refusal::tell_refused;
use crate::running::{slots_for, status_of};
use crate::{Status, tell_mount};
use hfs_serving::{find_image, serve_found};
use hx_bytes::Trouble;
use jnl_replay::Plan;
use line_source::LineSource;
use sector_disk::Rig;
use served_volume::{ServedVolume, VolumeChecker};
use session_lines::{Keepers, Sessions, runs_keep_sessions, sound_trees_may_begin};
use std::alloc::Global;
use volume_look::look_through;
use watchers::Watcher;

/// Mounts a volume, serves lines of sessions to the end of a source, and unmounts it. Files that an earlier run kept open are released first. Beside
/// the refusals of a mount, behind which it comes, a volume is refused whose keeping folder isn't the sessions' own. A refused image isn't written.
pub fn serve_sessions<R: Rig, S: LineSource, W: Watcher>(
    alloc: Global,
    rig: &mut R,
    source: &mut S,
    watchers: &mut Vec<W>,
) -> Status
    ensures serves { ServesSessions result (R.state rig.old) (S.stream source.old) (R.state rig.new) (S.stream source.new) }
    // What is refused isn't written.
    ensures unwritten { result ≡ Status.Refused → (R.state rig.new).candidates ≡ (R.state rig.old).candidates }
    // Watchers that stay are told the same changes, in order and once.
    ensures watched { (heard : List Change) × (AllByRecursion (λ w. W.leaves w ≡ false) watchers.old.items → AreTold W.told W.leaves heard watchers.old.items watchers.new.items) }
    ensures many { IsTrue (S.stream source.old).tells → result ≡ Status.TooMany → 4294967295 < length (lines (S.stream source.old).left) }
    ensures no_usage { result ≢ Status.Usage }
    ensures disk { IsCauseOf Status.Disk (R.state rig.old).faults (R.state rig.new).faults result }
    ensures source { IsCauseOf Status.Source (S.stream source.old).faults (S.stream source.new).faults result }
    ensures sink { IsCauseOf Status.Sink (R.state rig.old).sink_faults (R.state rig.new).sink_faults result }
    ensures same { SameDisk (R.state rig.old) (R.state rig.new) }
    ensures same_source { SameSource (S.stream source.old) (S.stream source.new) }
{
    runs_keep_sessions::<R>();
    sound_trees_may_begin();
    let mut checker = VolumeChecker::new(alloc);
    let plan = match find_image::<VolumeChecker, R>(alloc, &mut checker, rig) {
        Ok(Ok(plan)) => plan,
        Ok(Err(why)) => {
            tell_mount(rig, why, checker.found.as_slice());
            return Status::Refused;
        }
        Err(trouble) => return trouble_status(trouble),
    };
    let files = match find_files(alloc, &plan, rig) {
        Ok(Some(files)) => files,
        Ok(None) => {
            tell_taken(rig);
            return Status::Refused;
        }
        Err(trouble) => return trouble_status(trouble),
    };
    let mut speaker = Sessions::new(alloc, files);
    let slots = slots_for(rig.sectors());
    match serve_found::<ServedVolume, R, W, S, Sessions>(
        alloc,
        &mut speaker,
        plan,
        slots,
        rig,
        watchers,
        source,
    ) {
        Ok(()) => {
            if !speaker.has_released() {
                // (the begin of the first batch leaves none)
                return Status::Memory;
            }
            Status::Done
        }
        Err(stop) => status_of(stop),
    }
}

// The files that an earlier run kept on an image with this plan, the last one first; none where the keeping folder isn't the sessions' own.
fn find_files<R: Rig>(alloc: Global, plan: &Plan, rig: &mut R) -> Result<Option<Vec<u32>>, Trouble>
    requires fits { FitsPlan (R.state rig.old).sectors plan.now }
    requires found { IsTrue (R.state rig.old).tells → IsFound (content (R.state rig.old)) plan.now }
    ensures found { IsTrue (R.state rig.old).tells → (capacity : ℕ) (start : Content) → Mounts (content (R.state rig.old)) capacity start
        → IfOk result (λ found. MatchOption found (FindsFiles (tree_of start) None) (λ files. FindsFiles (tree_of start) (Some files.items))) }
    ensures reads { OnlyReads (R.state rig.old) (R.state rig.new) }
    ensures cause { IsCause trouble.Disk (R.state rig.old).faults (R.state rig.new).faults result }
{
    sound_trees_may_begin();
    let mut keepers = Keepers::new(alloc);
    look_through(alloc, plan, rig, &mut keepers)?;
    Ok(keepers.into_files()?)
}

// How a run ends that had this trouble before it served.
fn trouble_status(trouble: Trouble) -> Status
    ensures { result ≡ trouble_status trouble }
{
    match trouble {
        Trouble::Disk => Status::Disk,
        Trouble::Memory => Status::Memory,
    }
}

// Tells that the keeping folder isn't the sessions' own. A sink that fails is left at that.
fn tell_taken<R: Rig>(rig: &mut R)
    ensures { Tells (R.state rig.old) (R.state rig.new) taken_text }
{
    let _ = tell_refused(rig, b"OpenTaken", &[]);
}
