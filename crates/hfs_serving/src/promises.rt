//! A run over a journal's store and its rig.
ghost use Rattle.std.specs.Prelude.{◌≡◌, ◌≤◌, ◌<◌, ◌∷◌, [], ℕ, List, None, Some, IsErrOf, IsTrue, OnErr, OnOk, false, length};
ghost use Rattle.jnl_format.specs.Recovery.{Content};
ghost use Rattle.jnl_store.specs.Seen.{seen};
ghost use Rattle.jnl_store.specs.Store.{faults_of, plan_of, puts_of};
ghost use Rattle.hfs_volume.specs.Sound.{IsSound};
ghost use Rattle.sector_disk.specs.Cause.{Rose};
ghost use Rattle.sector_disk.specs.Disk.{SameDisk};
ghost use Rattle.hfs_language.specs.Lines.{lines};
ghost use Rattle.hfs_serving.specs.Commits.{CommitsRun, WantsOver};
ghost use Rattle.hfs_serving.specs.Faults.{StopFaults};
ghost use Rattle.hfs_serving.specs.Going.{Stands};
ghost use Rattle.hfs_serving.specs.Grounds.{IsInService};
ghost use Rattle.hfs_serving.specs.Opening.{MayServe};
ghost use Rattle.hfs_serving.specs.Outside.{outside_of};
ghost use Rattle.hfs_serving.specs.Ending.{EndsTaking, IsFinal, IsPutAway, stop_in};
ghost use Rattle.hfs_serving.specs.Speaking.{Speaks};
ghost use Rattle.hfs_serving.specs.Spoken.{AnswersSpoken, CrashesSpoken, EndsSpoken, KeepsSpoken};
ghost use Rattle.hfs_serving.specs.Steps.{SomeWhole};
ghost use Rattle.hfs_serving.specs.Taking.{HasTaken};
ghost use Rattle.hfs_language.specs.declared.reply.Change.{Change};
ghost use Rattle.watchers.specs.Told.{AreTold};
ghost use Rattle.std.specs.List.{AllByRecursion};
ghost use Rattle.hfs_language.specs.Language.{most_bytes};
ghost use Rattle.line_source.specs.Batch.{held};
ghost use Rattle.line_source.specs.Input.{SameSource};

use crate::resting::finish;
use crate::speaking::Speaker;
use crate::taking::serve_source;
use crate::telling::Stop;
use crate::volume::Volume;
use hfs_volume::aside_is_free;
use jnl_store::Space;
use line_source::{Input, LineSource};
use sector_disk::Rig;
use std::alloc::Global;
use watchers::Watcher;

/// Serves the lines of a source to its end over a journal's store and its rig, and ends the run. Its promises hold whatever ended it.
pub fn run<V: Volume, R: Rig, W: Watcher, S: LineSource, K: Speaker>(
    alloc: Global,
    speaker: &mut K,
    volume: &mut V,
    base: &mut Space<'_, '_, R>,
    watchers: &mut Vec<W>,
    source: &mut S,
) -> Result<(), Stop>
    requires serves { (capacity : ℕ) × IsInService base.old.store.now (R.state base.old.disk.now) capacity × (puts_of base.old.store.now ≡ []) }
    requires stands { IsTrue (seen R.state base.old).tells → SomeWhole (V.knows volume.old (seen R.state base.old)) (seen R.state base.old) (outside_of (plan_of base.old.store.now) (R.state base.old.disk.now)) }
    // Where the volume stands for a sound content, each image that a crash leaves mounts to the tree after some of the entries made for the lines, and
    // those of each line whose answer was told are among them. The lines are the first that the bytes which were taken of the source are cut into.
    // Watchers that stay are told what the first of these lines changed, in order and once, whose changes each crash at the end leaves; no answer is
    // told before its changes.
    ensures promises { (heard : List Change) × (AllByRecursion (λ w. W.leaves w ≡ false) watchers.old.items → AreTold W.told W.leaves heard watchers.old.items watchers.new.items)
        × (IsTrue (seen R.state base.old).tells → (capacity : ℕ) (start : Content)
        → Stands (V.knows volume.old (seen R.state base.old) capacity) start start None (seen R.state base.old) (outside_of (plan_of base.old.store.now) (R.state base.old.disk.now))
        → IsSound start → MayServe (plan_of base.old.store.now) capacity start
        → KeepsSpoken (Speaks 0 start (K.spoke speaker.old) K.broken) heard capacity start (R.state base.old.disk.now) (S.stream source.old) (R.state base.new.disk.now) (S.stream source.new)) }
    // The same as a stretch, which may go on from a mount. Where the source ended the run, each line that was taken was answered, and watchers were
    // told all that they changed.
    ensures stretch { (heard : List Change) × (AllByRecursion (λ w. W.leaves w ≡ false) watchers.old.items → AreTold W.told W.leaves heard watchers.old.items watchers.new.items)
        × ((texts : List (List ℕ)) × (IsTrue (S.stream source.old).tells → HasTaken [] (S.stream source.old) texts (S.stream source.new))
        × (IsTrue (seen R.state base.old).tells → (capacity : ℕ) (start : Content)
        → Stands (V.knows volume.old (seen R.state base.old) capacity) start start None (seen R.state base.old) (outside_of (plan_of base.old.store.now) (R.state base.old.disk.now))
        → CrashesSpoken (Speaks 0 start (K.spoke speaker.old) K.broken) heard capacity start None (outside_of (plan_of base.old.store.now) (R.state base.old.disk.now)) (held most_bytes texts) (outside_of (plan_of base.old.store.now) (R.state base.new.disk.now))))
        × (IsFinal (stop_in result) → (texts : List (List ℕ)) × (IsTrue (S.stream source.old).tells → HasTaken [] (S.stream source.old) texts (S.stream source.new) × EndsTaking (stop_in result) [] (S.stream source.old) texts (S.stream source.new))
        × (stop_in result ≡ Some Stop.TooMany → length texts ≡ 4294967295)
        × (IsTrue (seen R.state base.old).tells → (capacity : ℕ) (start : Content)
        → Stands (V.knows volume.old (seen R.state base.old) capacity) start start None (seen R.state base.old) (outside_of (plan_of base.old.store.now) (R.state base.old.disk.now))
        → AnswersSpoken (Speaks 0 start (K.spoke speaker.old) (K.spoke speaker.new)) heard capacity start None (outside_of (plan_of base.old.store.now) (R.state base.old.disk.now)) (held most_bytes texts) (outside_of (plan_of base.old.store.now) (R.state base.new.disk.now)))) }
    // At Ok all lines of the source were served and answered, and a crash leaves what they left, with bit 8 of the header's attributes set.
    ensures done { IsTrue (seen R.state base.old).tells → (capacity : ℕ) (start : Content) → Stands (V.knows volume.old (seen R.state base.old) capacity) start start None (seen R.state base.old) (outside_of (plan_of base.old.store.now) (R.state base.old.disk.now))
        → OnOk result (EndsSpoken (Speaks 0 start (K.spoke speaker.old) (K.spoke speaker.new)) capacity start (outside_of (plan_of base.old.store.now) (R.state base.old.disk.now)) (S.stream source.old) (outside_of (plan_of base.new.store.now) (R.state base.new.disk.now))) }
    // At Ok bit 8 of the header's attributes is set, the journal is empty, and nothing is pending.
    ensures away { IsTrue (seen R.state base.old).tells → OnOk result (IsPutAway (R.state base.new.disk.now)) }
    ensures end { IsTrue (S.stream source.old).tells → OnOk result ((S.stream source.new).left ≡ []) }
    // There are too many lines exactly where there is one more than have a number.
    ensures few { IsTrue (S.stream source.old).tells → OnOk result (length (lines (S.stream source.old).left) ≤ 4294967295) }
    ensures many { IsTrue (S.stream source.old).tells → IsErrOf result Stop.TooMany → 4294967295 < length (lines (S.stream source.old).left) }
    // At Ok each batch has made one commit, and beside these and those of the run's end one was made only where a step wanted it, or where memory was
    // missing for a step.
    ensures commits { IsTrue (seen R.state base.old).tells → OnOk result ((count : ℕ) × (IsTrue (S.stream source.old).tells → count ≡ length (lines (S.stream source.old).left))
        × CommitsRun (WantsOver V.wants R.state) K.often 0 1 count (R.state base.old.disk.now).barriers (R.state base.new.disk.now).barriers) }
    // Where a fault ended it, so has each batch before, and the one that was cut short made no more.
    ensures cut { IsTrue (seen R.state base.old).tells → OnErr result ((count : ℕ) × (IsTrue (S.stream source.old).tells → count ≤ length (lines (S.stream source.old).left))
        × CommitsRun (WantsOver V.wants R.state) K.often 0 2 count (R.state base.old.disk.now).barriers (R.state base.new.disk.now).barriers) }
    // Each answer other than Ok comes of a fault whose count rose, but for memory and steps.
    ensures faults { StopFaults (faults_of base.old.store.now) (seen R.state base.old) (faults_of base.new.store.now) (seen R.state base.new) (Rose (S.stream source.old).faults (S.stream source.new).faults) result }
    ensures later { (S.stream source.old).faults ≤ (S.stream source.new).faults }
    ensures same { SameDisk (R.state base.old.disk.now) (R.state base.new.disk.now) }
    // It holds the same references.
    ensures names { base.new.store.ghost_name ∷ base.new.disk.ghost_name ∷ [] ≡ base.old.store.ghost_name ∷ base.old.disk.ghost_name ∷ [] }
    ensures same_source { SameSource (S.stream source.old) (S.stream source.new) }
{
    aside_is_free();
    let mut input = Input::new(alloc)?;
    serve_source(alloc, speaker, volume, base, watchers, &mut input, source)?;
    finish(volume, base)?;
    Ok(())
}
