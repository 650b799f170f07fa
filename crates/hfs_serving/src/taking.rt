//! The lines of a source, batch after batch.
ghost use Rattle.std.specs.Prelude.{◌≡◌, ◌≢◌, ◌⊎◌, ◌≤◌, ◌<◌, ◌++◌, [], ℕ, List, Option, Some, IsErrOf, IsTrue, OnOk, OnErr, false, length};
ghost use Rattle.std.specs.List.{AllByRecursion};
ghost use Rattle.jnl_format.specs.Recovery.{Content};
ghost use Rattle.sector_disk.specs.Cause.{Rose};
ghost use Rattle.hfs_language.specs.Language.{most_bytes};
ghost use Rattle.hfs_language.specs.Lines.{HasNoNewline, lines};
ghost use Rattle.hfs_language.specs.declared.reply.Change.{Change};
ghost use Rattle.hfs_serving.specs.Commits.{CommitsABatch, SomeWantsAt};
ghost use Rattle.hfs_serving.specs.Ending.{EndsTaking, IsFinal, stop_in};
ghost use Rattle.hfs_serving.specs.Faults.{StopFaults};
ghost use Rattle.hfs_serving.specs.Going.{Stands};
ghost use Rattle.hfs_serving.specs.Speaking.{Speaks};
ghost use Rattle.hfs_serving.specs.Spoken.{AnswersSpoken, CrashesSpoken, ServesSpoken};
ghost use Rattle.hfs_serving.specs.Steps.{SomeWhole};
ghost use Rattle.hfs_serving.specs.Taking.{HasTaken};
ghost use Rattle.watchers.specs.Told.{AreTold};
ghost use Rattle.line_source.specs.Batch.{AddsLines, has_newline, held};
ghost use Rattle.line_source.specs.Cause.{IsCause};
ghost use Rattle.line_source.specs.Input.{ahead, SameSource, TakesLines};

use crate::batch::MOST_LINES;
use crate::speaking::Speaker;
use crate::telling::{Stop, Teller, serve_step};
use crate::volume::Volume;
use line_source::{Input, Line, LineSource, drop_first};
use std::alloc::Global;
use watchers::Watcher;

/// How many bytes a line has at most, without its newline.
pub const LONGEST_LINE: usize = 140_000;

/// How many lines are served, at most: each has a number of 32 bits, and the last of these is no line's.
const MOST_SERVED: usize = 4_294_967_295;

/// Serves the lines of a source to its end. Each batch has at most 32 lines, and beyond its first only lines that were taken already. Nothing is
/// taken of the source while a line that was taken is unanswered.
pub fn serve_source<V: Volume, G: Teller, W: Watcher, S: LineSource, K: Speaker>(
    alloc: Global,
    speaker: &mut K,
    volume: &mut V,
    base: &mut G,
    watchers: &mut Vec<W>,
    input: &mut Input,
    source: &mut S,
) -> Result<(), Stop>
    requires serves { (capacity : ℕ) × G.serves base.old capacity × (G.taken base.old ≤ capacity) }
    requires stands { IsTrue (G.space base.old).tells → SomeWhole (V.knows volume.old (G.space base.old)) (G.space base.old) (G.outside base.old) }
    // Whatever ended it, a run is left of some of the lines that were taken, of which each that was answered is there after a crash, and watchers are
    // told what lines of it changed, each change once, and each crash leaves these lines. At Ok all lines of the source are served and answered, and
    // the volume stands for what they left, which is committed. Where the source fails or has too many lines, each line that was taken is answered.
    // Of a line that is longer than a line may be a front is held.
    ensures serves { (heard : List Change) × (AllByRecursion (λ w. W.leaves w ≡ false) watchers.old.items → AreTold W.told W.leaves heard watchers.old.items watchers.new.items)
        × ((texts : List (List ℕ)) × (IsTrue (S.stream source.old).tells → HasTaken input.old (S.stream source.old) texts (S.stream source.new))
        × (IsTrue (G.space base.old).tells → (capacity : ℕ) (start : Content) (shrunk : Option ℕ) → Stands (V.knows volume.old (G.space base.old) capacity) start start shrunk (G.space base.old) (G.outside base.old)
        → CrashesSpoken (Speaks 0 start (K.spoke speaker.old) K.broken) heard capacity start shrunk (G.outside base.old) (held most_bytes texts) (G.outside base.new)))
        × OnOk result ((texts : List (List ℕ))
        × (IsTrue (S.stream source.old).tells → TakesLines input.old (S.stream source.old) texts input.new (S.stream source.new) × (ahead input.new (S.stream source.new) ≡ []))
        × (IsTrue (G.space base.old).tells → (capacity : ℕ) (start : Content) (shrunk : Option ℕ) → Stands (V.knows volume.old (G.space base.old) capacity) start start shrunk (G.space base.old) (G.outside base.old)
        → ServesSpoken (Speaks 0 start (K.spoke speaker.old) (K.spoke speaker.new)) heard (length texts) capacity (V.knows volume.new (G.space base.new) capacity) start shrunk (G.outside base.old) (held most_bytes texts) (G.space base.new) (G.outside base.new)))
        × OnErr result (IsFinal (stop_in result) → (texts : List (List ℕ))
        × (IsTrue (S.stream source.old).tells → HasTaken input.old (S.stream source.old) texts (S.stream source.new) × EndsTaking (stop_in result) input.old (S.stream source.old) texts (S.stream source.new))
        × (stop_in result ≡ Some Stop.TooMany → length texts ≡ 4294967295)
        × (IsTrue (G.space base.old).tells → (capacity : ℕ) (start : Content) (shrunk : Option ℕ) → Stands (V.knows volume.old (G.space base.old) capacity) start start shrunk (G.space base.old) (G.outside base.old)
        → AnswersSpoken (Speaks 0 start (K.spoke speaker.old) (K.spoke speaker.new)) heard capacity start shrunk (G.outside base.old) (held most_bytes texts) (G.outside base.new))) }
    // At Ok each batch has made one commit, and beside these one was made only where a step wanted it, or where memory was missing for a step.
    ensures commits { IsTrue (G.space base.old).tells → OnOk result ((count : ℕ) × (IsTrue (S.stream source.old).tells → count ≡ length (lines (ahead input.old (S.stream source.old))))
        × CommitsABatch (SomeWantsAt V.wants G.space) K.often 1 count (G.space base.old).barriers (G.space base.new).barriers) }
    // Where a fault ended it, so has each batch before, and the one that was cut short made no more.
    ensures cut { IsTrue (G.space base.old).tells → OnErr result ((count : ℕ) × (IsTrue (S.stream source.old).tells → count ≤ length (lines (ahead input.old (S.stream source.old))))
        × CommitsABatch (SomeWantsAt V.wants G.space) K.often 2 count (G.space base.old).barriers (G.space base.new).barriers) }
    ensures still { (capacity : ℕ) → G.serves base.old capacity → G.taken base.old ≤ capacity → OnOk result (G.serves base.new capacity × (G.taken base.new ≤ capacity)) }
    ensures nothing { (capacity : ℕ) → G.serves base.old capacity → G.taken base.old ≡ 0 → OnOk result (G.taken base.new ≡ 0) }
    ensures tells { OnOk result ((G.space base.new).tells ≡ (G.space base.old).tells) }
    ensures anchor { G.anchor base.new ≡ G.anchor base.old }
    ensures faults { StopFaults (G.failed base.old) (G.space base.old) (G.failed base.new) (G.space base.new) (Rose (S.stream source.old).faults (S.stream source.new).faults) result }
    ensures later { (S.stream source.old).faults ≤ (S.stream source.new).faults }
    // There are too many lines exactly where there is one more than are served at most.
    ensures few { IsTrue (S.stream source.old).tells → OnOk result (length (lines (ahead input.old (S.stream source.old))) ≤ 4294967295) }
    ensures many { IsTrue (S.stream source.old).tells → IsErrOf result Stop.TooMany → 4294967295 < length (lines (ahead input.old (S.stream source.old))) }
    ensures same_source { SameSource (S.stream source.old) (S.stream source.new) }
{
    let mut lines = Vec::new(alloc);
    // (housekeeping comes to rest where there is no line, too)
    serve_step(alloc, speaker, volume, base, watchers, 0, lines.as_slice())?;
    let mut left = MOST_SERVED;
    loop {
        take_lines(alloc, left, input, source, &mut lines)?;
        if lines.is_empty() {
            return Ok(());
        }
        let count = serve_step(
            alloc,
            speaker,
            volume,
            base,
            watchers,
            (MOST_SERVED - left) as u64,
            lines.as_slice(),
        )?;
        if count == 0 {
            return Err(Stop::Steps);
        }
        drop_first(&mut lines, count);
        left -= count;
    }
}

// Takes the lines of a batch, of which there are no more than are left to be served. Where none is there behind it the source is at its end.
fn take_lines<S: LineSource>(
    alloc: Global,
    left: usize,
    input: &mut Input,
    source: &mut S,
    pending: &mut Vec<Line>,
) -> Result<(), Stop>
    requires left { length pending.old.items ≤ left }
    requires most { length pending.old.items ≤ 32 }
    ensures lines { OnOk result (AddsLines 140000 pending.old.items input.old (S.stream source.old) pending.new.items input.new (S.stream source.new)) }
    ensures left { OnOk result (length pending.new.items ≤ left) }
    ensures most { OnOk result (length pending.new.items ≤ 32) }
    // All whole lines that were taken already are among them, up to the most of a batch.
    ensures all { IsTrue (S.stream source.old).tells → OnOk result ((32 ≤ length pending.new.items) ⊎ (left ≤ length pending.new.items) ⊎ (has_newline input.new ≡ false)) }
    ensures end { IsTrue (S.stream source.old).tells → OnOk result (pending.new.items ≡ [] → (ahead input.old (S.stream source.old) ≡ []) × (ahead input.new (S.stream source.new) ≡ [])) }
    // Whatever it answers, the bytes that were taken stood first.
    ensures gone { IsTrue (S.stream source.old).tells → (gone : List ℕ) × (ahead input.old (S.stream source.old) ≡ gone ++ (S.stream source.new).left) }
    // Where the source fails no line is in memory, and what is gone ends no line.
    ensures begun { IsTrue (S.stream source.old).tells → IsErrOf result Stop.Source → (pending.old.items ≡ []) × (begun : List ℕ) × HasNoNewline begun × (ahead input.old (S.stream source.old) ≡ begun ++ (S.stream source.new).left) }
    ensures many { IsErrOf result Stop.TooMany → (left ≡ 0) × (IsTrue (S.stream source.old).tells → lines (ahead input.old (S.stream source.old)) ≢ []) }
    ensures cause { IsCause Stop.Source (S.stream source.old).faults (S.stream source.new).faults result }
    ensures no_disk { IsErrOf result Stop.Disk → ⊥ }
    ensures no_sink { IsErrOf result Stop.Sink → ⊥ }
    ensures same { SameSource (S.stream source.old) (S.stream source.new) }
{
    if left > 0 {
        // (behind others only lines are read that were taken already)
        if pending.is_empty() || input.has_line() {
            let most = if left < MOST_LINES { left } else { MOST_LINES };
            input.read_lines(alloc, source, LONGEST_LINE, most, pending)?;
        }
        return Ok(());
    }
    match input.next_line(alloc, source, LONGEST_LINE)? {
        Some(_) => Err(Stop::TooMany),
        None => Ok(()),
    }
}
