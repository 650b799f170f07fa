//! An image served: it is found, made ready, attached to, and its source's lines are served to their end.
ghost use Rattle.std.specs.Prelude.{◌≡◌, ◌⊎◌, ◌≤◌, ◌<◌, [], ℕ, List, None, Some, IsErrOf, IsTrue, IfOk, IfErr, OnErr, OnOk, false, length};
ghost use Rattle.sector_disk.specs.Disk.{HasNothingPending, OnlyReads, SameDisk, content};
ghost use Rattle.jnl_format.specs.Recovery.{Content, replayed};
ghost use Rattle.jnl_replay.specs.Plan.{FitsPlan, journal_of};
ghost use Rattle.jnl_store.specs.Plan.{IsCapacityOf};
ghost use Rattle.hfs_language.specs.Lines.{lines};
ghost use Rattle.hfs_volume.specs.Mount.{IsMountable, Mounts};
ghost use Rattle.hfs_volume.specs.Sound.{IsSound};
ghost use Rattle.line_source.specs.Input.{SameSource};
ghost use Rattle.hfs_serving.specs.Attaching.{IsAttached};
ghost use Rattle.sector_disk.specs.Cause.{Rose};
ghost use Rattle.hfs_serving.specs.Commits.{CommitsRun, WantsOver};
ghost use Rattle.hfs_serving.specs.Ending.{AnswersRun, AnswersToTheLast, EndsTaking, FinishesRun, IsFinal, IsPutAway, IsntRefused, stop_in};
ghost use Rattle.hfs_serving.specs.Faults.{RigFaults};
ghost use Rattle.hfs_serving.specs.Checking.{IsFound, RefusesMount};
ghost use Rattle.hfs_serving.specs.Outside.{outside_of};
ghost use Rattle.hfs_serving.specs.Readying.{IsReady, IsVersioned};
ghost use Rattle.hfs_serving.specs.Runs.{KeepsPlace};
ghost use Rattle.hfs_serving.specs.Stages.{Turns};
ghost use Rattle.hfs_language.specs.Language.{most_bytes};
ghost use Rattle.line_source.specs.Batch.{held};
ghost use Rattle.hfs_serving.specs.Speaking.{SpeaksFrom};
ghost use Rattle.hfs_serving.specs.Spoken.{AnswersRigSpoken, AnswersSpoken, CrashesSpoken, KeepsSpoken};
ghost use Rattle.hfs_serving.specs.Steps.{KeepsRun};
ghost use Rattle.hfs_serving.specs.Taking.{HasTaken};
ghost use Rattle.hfs_serving.specs.Watching.{FinishesHeard, KeepsHeard, LastHeard, StopsHeard};
ghost use Rattle.hfs_language.specs.declared.reply.Change.{Change};
ghost use Rattle.watchers.specs.Told.{AreTold};
ghost use Rattle.std.specs.List.{AllByRecursion};

use crate::attaching::attach_volume;
use crate::checking::{Checker, MountRefusal, find_image};
use crate::promises::run;
use crate::readying::ready_image;
use crate::speaking::{PlainLines, Speaker};
use crate::telling::Stop;
use crate::volume::Volume;
use hfs_volume::aside_is_free;
use hx_bytes::OutOfMemory;
use jnl_replay::Plan;
use jnl_store::{Space, Store};
use line_source::LineSource;
use sector_disk::{Rig, SectorDisk};
use std::alloc::Global;
use watchers::Watcher;

/// Mounts an image and serves the lines of a source to its end, with so many slots for sectors of the content in memory. A refusal comes exactly
/// where one stands, and then nothing is written and no line is taken.
pub fn serve_image<V: Volume, C: Checker, R: Rig, W: Watcher, S: LineSource>(
    alloc: Global,
    checker: &mut C,
    cache: u32,
    rig: &mut R,
    watchers: &mut Vec<W>,
    source: &mut S,
) -> Result<Result<(), MountRefusal>, Stop>
    // Each image that a crash leaves mounts to the tree after some of the lines, and each line whose reply was told is among them, whatever ended
    // the run, from what the image stood for.
    ensures promises { IsTrue (R.state rig.old).tells → HasNothingPending (R.state rig.old) → (capacity : ℕ) (start : Content) → Mounts (content (R.state rig.old)) capacity start
        → KeepsRun capacity start (R.state rig.old) (S.stream source.old) (R.state rig.new) (S.stream source.new) }
    // Watchers that stay are told, in order and once, what the first lines of such a run changed, whose changes each crash at the end leaves. No reply
    // is told before its changes. At the end of the source they are told what all of its lines changed; where it fails or has too many, what all
    // lines did that were answered.
    ensures watched { (heard : List Change) × (AllByRecursion (λ w. W.leaves w ≡ false) watchers.old.items → AreTold W.told W.leaves heard watchers.old.items watchers.new.items)
        × (IsTrue (R.state rig.old).tells → HasNothingPending (R.state rig.old) → (capacity : ℕ) (start : Content) → Mounts (content (R.state rig.old)) capacity start
        → KeepsHeard heard capacity start (R.state rig.old) (S.stream source.old) (R.state rig.new) (S.stream source.new)
        × IfOk result (λ answer. OnOk answer (FinishesHeard heard capacity start (R.state rig.old) (S.stream source.old) (R.state rig.new) (S.stream source.new)))
        × (IsErrOf result Stop.Source → StopsHeard heard capacity start (R.state rig.old) (S.stream source.old) (R.state rig.new) (S.stream source.new))
        × (IsErrOf result Stop.TooMany → LastHeard heard capacity start (R.state rig.old) (S.stream source.old) (R.state rig.new) (S.stream source.new))) }
    // A refusal is the first that stands, so an image that can be mounted has none.
    ensures refused { IsTrue (R.state rig.old).tells → IfOk result (λ answer. IfErr answer (RefusesMount (content (R.state rig.old)) (C.findings checker.new))) }
    ensures served { IsTrue (R.state rig.old).tells → IfOk result (λ answer. OnOk answer ((capacity : ℕ) × (start : Content) × Mounts (content (R.state rig.old)) capacity start)) }
    ensures unwritten { IfOk result (λ answer. IfErr answer (λ _. OnlyReads (R.state rig.old) (R.state rig.new))) }
    ensures end { IsTrue (S.stream source.old).tells → IfOk result (λ answer. OnOk answer ((S.stream source.new).left ≡ [])) }
    // There are too many lines exactly where there is one more than have a number.
    ensures few { IsTrue (S.stream source.old).tells → IfOk result (λ answer. OnOk answer (length (lines (S.stream source.old).left) ≤ 4294967295)) }
    ensures many { IsTrue (S.stream source.old).tells → IsErrOf result Stop.TooMany → 4294967295 < length (lines (S.stream source.old).left) }
    // At the end of the source all its lines were served and answered, and the volume is unmounted.
    ensures done { IsTrue (R.state rig.old).tells → HasNothingPending (R.state rig.old) → (capacity : ℕ) (start : Content) → Mounts (content (R.state rig.old)) capacity start
        → IfOk result (λ answer. OnOk answer (FinishesRun capacity start (R.state rig.old) (S.stream source.old) (R.state rig.new) (S.stream source.new))) }
    // Where the source fails, each whole line that was taken has its reply told, and where it has too many lines, each before the last.
    ensures stopped { IsTrue (R.state rig.old).tells → HasNothingPending (R.state rig.old) → (capacity : ℕ) (start : Content) → Mounts (content (R.state rig.old)) capacity start → IsErrOf result Stop.Source
        → AnswersRun capacity start (R.state rig.old) (S.stream source.old) (R.state rig.new) (S.stream source.new) }
    ensures to_the_last { IsTrue (R.state rig.old).tells → HasNothingPending (R.state rig.old) → (capacity : ℕ) (start : Content) → Mounts (content (R.state rig.old)) capacity start → IsErrOf result Stop.TooMany
        → AnswersToTheLast capacity start (R.state rig.old) (S.stream source.old) (R.state rig.new) (S.stream source.new) }
    // An image that can't be mounted is refused, unless it can't be read or memory is short.
    ensures unfound { IsTrue (R.state rig.old).tells → ¬ IsMountable (content (R.state rig.old)) → IfErr result (λ stop. (stop ≡ Stop.Disk) ⊎ (stop ≡ Stop.Memory)) }
    // At the end of the source each batch has made one commit. Beside these the disk passed eight barriers at most ahead of the first batch and six behind the
    // last, and those of commits that a step wanted, or that were made since memory was missing for a step.
    ensures commits { IsTrue (R.state rig.old).tells → IfOk result (λ answer. OnOk answer ((count : ℕ) × (IsTrue (S.stream source.old).tells → count ≡ length (lines (S.stream source.old).left))
        × CommitsRun (WantsOver V.wants R.state) 9 8 1 count (R.state rig.old).barriers (R.state rig.new).barriers)) }
    // Where a fault ended it, so has each batch before, and the one that was cut short made no more.
    ensures cut { IsTrue (R.state rig.old).tells → OnErr result ((count : ℕ) × (IsTrue (S.stream source.old).tells → count ≤ length (lines (S.stream source.old).left))
        × CommitsRun (WantsOver V.wants R.state) 9 8 2 count (R.state rig.old).barriers (R.state rig.new).barriers) }
    // Each fault that is answered is one of a device whose count rose.
    ensures faults { RigFaults (R.state rig.old) (R.state rig.new) (Rose (S.stream source.old).faults (S.stream source.new).faults) result }
    ensures later { (S.stream source.old).faults ≤ (S.stream source.new).faults }
    ensures same { SameDisk (R.state rig.old) (R.state rig.new) }
    ensures same_source { SameSource (S.stream source.old) (S.stream source.new) }
{
    let mut speaker = PlainLines { alloc };
    serve_spoken::<V, C, R, W, S, PlainLines>(
        alloc,
        &mut speaker,
        checker,
        cache,
        rig,
        watchers,
        source,
    )
}

/// The same for lines of any kind, which this speaker serves.
pub fn serve_spoken<V: Volume, C: Checker, R: Rig, W: Watcher, S: LineSource, K: Speaker>(
    alloc: Global,
    speaker: &mut K,
    checker: &mut C,
    cache: u32,
    rig: &mut R,
    watchers: &mut Vec<W>,
    source: &mut S,
) -> Result<Result<(), MountRefusal>, Stop>
    // Each image that a crash leaves mounts to the tree after some of the entries made for the lines, among them those of each line whose answer was
    // told, whatever ended the run, from what the image stood for. Watchers that stay are told, in order and once, what the first of these lines
    // changed, whose changes each crash at the end leaves, and no answer is told before its changes. Where the source ended the run, each line that was
    // taken was answered, and watchers were told all that they changed.
    ensures promises { (heard : List Change) × (AllByRecursion (λ w. W.leaves w ≡ false) watchers.old.items → AreTold W.told W.leaves heard watchers.old.items watchers.new.items)
        × (IsTrue (R.state rig.old).tells → HasNothingPending (R.state rig.old) → (capacity : ℕ) (start : Content) → Mounts (content (R.state rig.old)) capacity start
        → KeepsSpoken (SpeaksFrom start (K.spoke speaker.old) K.broken) heard capacity start (R.state rig.old) (S.stream source.old) (R.state rig.new) (S.stream source.new))
        × (IsntRefused result → IsFinal (stop_in result) → (texts : List (List ℕ)) × (IsTrue (S.stream source.old).tells → HasTaken [] (S.stream source.old) texts (S.stream source.new) × EndsTaking (stop_in result) [] (S.stream source.old) texts (S.stream source.new))
        × (stop_in result ≡ Some Stop.TooMany → length texts ≡ 4294967295)
        × (IsTrue (R.state rig.old).tells → HasNothingPending (R.state rig.old) → (capacity : ℕ) (start : Content) → Mounts (content (R.state rig.old)) capacity start
        → AnswersRigSpoken (SpeaksFrom start (K.spoke speaker.old) (K.spoke speaker.new)) heard capacity start (R.state rig.old) (S.stream source.old) texts (R.state rig.new) (S.stream source.new))) }
    // A refusal is the first that stands, so an image that can be mounted has none.
    ensures refused { IsTrue (R.state rig.old).tells → IfOk result (λ answer. IfErr answer (RefusesMount (content (R.state rig.old)) (C.findings checker.new))) }
    ensures served { IsTrue (R.state rig.old).tells → IfOk result (λ answer. OnOk answer ((capacity : ℕ) × (start : Content) × Mounts (content (R.state rig.old)) capacity start)) }
    ensures unwritten { IfOk result (λ answer. IfErr answer (λ _. OnlyReads (R.state rig.old) (R.state rig.new))) }
    ensures end { IsTrue (S.stream source.old).tells → IfOk result (λ answer. OnOk answer ((S.stream source.new).left ≡ [])) }
    // There are too many lines exactly where there is one more than have a number.
    ensures few { IsTrue (S.stream source.old).tells → IfOk result (λ answer. OnOk answer (length (lines (S.stream source.old).left) ≤ 4294967295)) }
    ensures many { IsTrue (S.stream source.old).tells → IsErrOf result Stop.TooMany → 4294967295 < length (lines (S.stream source.old).left) }
    // At the end of the source the volume is unmounted.
    ensures away { IsTrue (R.state rig.old).tells → IfOk result (λ answer. OnOk answer (IsPutAway (R.state rig.new))) }
    // An image that can't be mounted is refused, unless it can't be read or memory is short.
    ensures unfound { IsTrue (R.state rig.old).tells → ¬ IsMountable (content (R.state rig.old)) → IfErr result (λ stop. (stop ≡ Stop.Disk) ⊎ (stop ≡ Stop.Memory)) }
    // At the end of the source each batch has made one commit. Beside these the disk passed eight barriers at most ahead of the first batch and six behind the
    // last, and those of commits that a step wanted, or that were made since memory was missing for a step.
    ensures commits { IsTrue (R.state rig.old).tells → IfOk result (λ answer. OnOk answer ((count : ℕ) × (IsTrue (S.stream source.old).tells → count ≡ length (lines (S.stream source.old).left))
        × CommitsRun (WantsOver V.wants R.state) K.often 8 1 count (R.state rig.old).barriers (R.state rig.new).barriers)) }
    // Where a fault ended it, so has each batch before, and the one that was cut short made no more.
    ensures cut { IsTrue (R.state rig.old).tells → OnErr result ((count : ℕ) × (IsTrue (S.stream source.old).tells → count ≤ length (lines (S.stream source.old).left))
        × CommitsRun (WantsOver V.wants R.state) K.often 8 2 count (R.state rig.old).barriers (R.state rig.new).barriers) }
    // Each fault that is answered is one of a device whose count rose.
    ensures faults { RigFaults (R.state rig.old) (R.state rig.new) (Rose (S.stream source.old).faults (S.stream source.new).faults) result }
    ensures later { (S.stream source.old).faults ≤ (S.stream source.new).faults }
    ensures same { SameDisk (R.state rig.old) (R.state rig.new) }
    ensures same_source { SameSource (S.stream source.old) (S.stream source.new) }
{
    match find_image(alloc, checker, rig)? {
        Ok(plan) => {
            serve_found::<V, R, W, S, K>(alloc, speaker, plan, cache, rig, watchers, source)?;
            Ok(Ok(()))
        }
        Err(why) => Ok(Err(why)),
    }
}

/// Serves an image that was found, as `serve_spoken` does behind its check.
pub fn serve_found<V: Volume, R: Rig, W: Watcher, S: LineSource, K: Speaker>(
    alloc: Global,
    speaker: &mut K,
    plan: Plan,
    cache: u32,
    rig: &mut R,
    watchers: &mut Vec<W>,
    source: &mut S,
) -> Result<(), Stop>
    requires fits { FitsPlan (R.state rig.old).sectors plan }
    requires found { IsTrue (R.state rig.old).tells → IsFound (content (R.state rig.old)) plan }
    // Its promises begin at any moment since which the rig was only read. Where the source ended the run, each line that was taken was answered, and
    // watchers were told all that they changed.
    ensures promises { (heard : List Change) × (AllByRecursion (λ w. W.leaves w ≡ false) watchers.old.items → AreTold W.told W.leaves heard watchers.old.items watchers.new.items)
        × (IsTrue (R.state rig.old).tells → HasNothingPending (R.state rig.old) → (capacity : ℕ) → IsCapacityOf plan capacity → (first : R) → OnlyReads (R.state first) (R.state rig.old)
        → KeepsSpoken (SpeaksFrom (replayed (journal_of plan) (content (R.state rig.old))) (K.spoke speaker.old) K.broken) heard capacity (replayed (journal_of plan) (content (R.state rig.old))) (R.state first) (S.stream source.old) (R.state rig.new) (S.stream source.new))
        × (IsFinal (stop_in result) → (texts : List (List ℕ)) × (IsTrue (S.stream source.old).tells → HasTaken [] (S.stream source.old) texts (S.stream source.new) × EndsTaking (stop_in result) [] (S.stream source.old) texts (S.stream source.new))
        × (stop_in result ≡ Some Stop.TooMany → length texts ≡ 4294967295)
        × (IsTrue (R.state rig.old).tells → HasNothingPending (R.state rig.old) → (capacity : ℕ) → IsCapacityOf plan capacity → (first : R) → OnlyReads (R.state first) (R.state rig.old)
        → AnswersRigSpoken (SpeaksFrom (replayed (journal_of plan) (content (R.state rig.old))) (K.spoke speaker.old) (K.spoke speaker.new)) heard capacity (replayed (journal_of plan) (content (R.state rig.old))) (R.state first) (S.stream source.old) texts (R.state rig.new) (S.stream source.new))) }
    ensures away { IsTrue (R.state rig.old).tells → OnOk result (IsPutAway (R.state rig.new)) }
    ensures end { IsTrue (S.stream source.old).tells → OnOk result ((S.stream source.new).left ≡ []) }
    ensures few { IsTrue (S.stream source.old).tells → OnOk result (length (lines (S.stream source.old).left) ≤ 4294967295) }
    ensures many { IsTrue (S.stream source.old).tells → IsErrOf result Stop.TooMany → 4294967295 < length (lines (S.stream source.old).left) }
    ensures commits { IsTrue (R.state rig.old).tells → OnOk result ((count : ℕ) × (IsTrue (S.stream source.old).tells → count ≡ length (lines (S.stream source.old).left))
        × CommitsRun (WantsOver V.wants R.state) K.often 8 1 count (R.state rig.old).barriers (R.state rig.new).barriers) }
    ensures cut { IsTrue (R.state rig.old).tells → OnErr result ((count : ℕ) × (IsTrue (S.stream source.old).tells → count ≤ length (lines (S.stream source.old).left))
        × CommitsRun (WantsOver V.wants R.state) K.often 8 2 count (R.state rig.old).barriers (R.state rig.new).barriers) }
    ensures faults { RigFaults (R.state rig.old) (R.state rig.new) (Rose (S.stream source.old).faults (S.stream source.new).faults) result }
    ensures later { (S.stream source.old).faults ≤ (S.stream source.new).faults }
    ensures same { SameDisk (R.state rig.old) (R.state rig.new) }
    ensures same_source { SameSource (S.stream source.old) (S.stream source.new) }
{
    aside_is_free();
    let ready = ready_image(rig, &plan)?;
    serve_ready::<V, R, W, S, K>(alloc, speaker, &ready, cache, rig, watchers, source)
}

// Serves an image that is ready for a store.
fn serve_ready<V: Volume, R: Rig, W: Watcher, S: LineSource, K: Speaker>(
    alloc: Global,
    speaker: &mut K,
    plan: &Plan,
    cache: u32,
    rig: &mut R,
    watchers: &mut Vec<W>,
    source: &mut S,
) -> Result<(), Stop>
    requires fits { FitsPlan (R.state rig.old).sectors plan.now }
    requires ready { IsTrue (R.state rig.old).tells → (now : Content) × IsReady plan.now now (R.state rig.old) × IsSound now }
    // A stretch from what it stood for before it was made ready. Where the source ended the run, each line that was taken was answered, and watchers
    // were told all that they changed.
    ensures stretch { (heard : List Change) × (AllByRecursion (λ w. W.leaves w ≡ false) watchers.old.items → AreTold W.told W.leaves heard watchers.old.items watchers.new.items)
        × ((texts : List (List ℕ)) × (IsTrue (S.stream source.old).tells → HasTaken [] (S.stream source.old) texts (S.stream source.new))
        × (IsTrue (R.state rig.old).tells → (capacity : ℕ) → IsCapacityOf plan.now capacity → (start now : Content) (first : R) → IsVersioned start now → KeepsPlace start now → IsReady plan.now now (R.state rig.old) → IsSound now
        → Turns start now (outside_of plan.now (R.state first)) (outside_of plan.now (R.state rig.old)) → CrashesSpoken (SpeaksFrom start (K.spoke speaker.old) K.broken) heard capacity start None (outside_of plan.now (R.state first)) (held most_bytes texts) (outside_of plan.now (R.state rig.new))))
        × (IsFinal (stop_in result) → (texts : List (List ℕ)) × (IsTrue (S.stream source.old).tells → HasTaken [] (S.stream source.old) texts (S.stream source.new) × EndsTaking (stop_in result) [] (S.stream source.old) texts (S.stream source.new))
        × (stop_in result ≡ Some Stop.TooMany → length texts ≡ 4294967295)
        × (IsTrue (R.state rig.old).tells → (capacity : ℕ) → IsCapacityOf plan.now capacity → (start now : Content) (first : R) → IsVersioned start now → KeepsPlace start now → IsReady plan.now now (R.state rig.old) → IsSound now
        → Turns start now (outside_of plan.now (R.state first)) (outside_of plan.now (R.state rig.old)) → AnswersSpoken (SpeaksFrom start (K.spoke speaker.old) (K.spoke speaker.new)) heard capacity start None (outside_of plan.now (R.state first)) (held most_bytes texts) (outside_of plan.now (R.state rig.new)))) }
    ensures away { IsTrue (R.state rig.old).tells → OnOk result (IsPutAway (R.state rig.new)) }
    ensures end { IsTrue (S.stream source.old).tells → OnOk result ((S.stream source.new).left ≡ []) }
    ensures few { IsTrue (S.stream source.old).tells → OnOk result (length (lines (S.stream source.old).left) ≤ 4294967295) }
    ensures many { IsTrue (S.stream source.old).tells → IsErrOf result Stop.TooMany → 4294967295 < length (lines (S.stream source.old).left) }
    ensures commits { IsTrue (R.state rig.old).tells → OnOk result ((count : ℕ) × (IsTrue (S.stream source.old).tells → count ≡ length (lines (S.stream source.old).left))
        × CommitsRun (WantsOver V.wants R.state) K.often 4 1 count (R.state rig.old).barriers (R.state rig.new).barriers) }
    ensures cut { IsTrue (R.state rig.old).tells → OnErr result ((count : ℕ) × (IsTrue (S.stream source.old).tells → count ≤ length (lines (S.stream source.old).left))
        × CommitsRun (WantsOver V.wants R.state) K.often 4 2 count (R.state rig.old).barriers (R.state rig.new).barriers) }
    ensures faults { RigFaults (R.state rig.old) (R.state rig.new) (Rose (S.stream source.old).faults (S.stream source.new).faults) result }
    ensures later { (S.stream source.old).faults ≤ (S.stream source.new).faults }
    ensures same { SameDisk (R.state rig.old) (R.state rig.new) }
    ensures same_source { SameSource (S.stream source.old) (S.stream source.new) }
{
    aside_is_free();
    let mut store = attach_store::<R>(alloc, plan, cache)?;
    let capacity = store.capacity();
    let mut base = Space {
        store: &mut store,
        disk: rig,
    };
    let mut volume = attach_volume::<V, Space<'_, '_, R>>(alloc, &mut base, capacity)?;
    run(alloc, speaker, &mut volume, &mut base, watchers, source)
}

/// The store of a disk that is ready with this plan, with the memory for one transaction. Where memory lacks for so many slots, there are half as
/// many, or half of these, and so on.
pub fn attach_store<D: SectorDisk>(
    alloc: Global,
    plan: &Plan,
    cache: u32,
) -> Result<Store, OutOfMemory>
    requires fits { (sectors : ℕ) × FitsPlan sectors plan.now }
    ensures { (disk : D) → FitsPlan (D.state disk).sectors plan.now → IfOk result (λ store. IsAttached store plan.now (D.state disk)) }
{
    let mut slots = cache;
    for _halving in 0..u32::BITS {
        if let Ok(store) = attach_with::<D>(alloc, plan, slots) {
            return Ok(store);
        }
        slots /= 2;
    }
    attach_with::<D>(alloc, plan, slots)
}

// The same with so many slots.
fn attach_with<D: SectorDisk>(alloc: Global, plan: &Plan, slots: u32) -> Result<Store, OutOfMemory>
    requires fits { (sectors : ℕ) × FitsPlan sectors plan.now }
    ensures { (disk : D) → FitsPlan (D.state disk).sectors plan.now → IfOk result (λ store. IsAttached store plan.now (D.state disk)) }
{
    let mut store = Store::attach(alloc, plan, slots)?;
    let capacity = store.capacity();
    store.begin(alloc, capacity)?;
    Ok(store)
}
