//! A batch: lines are answered in memory, housekeeping rests before each and behind the last, and one commit makes all durable.
ghost use Rattle.std.specs.Prelude.{◌≡◌, ◌≤◌, ◌<◌, ◌+◌, ℕ, Option, IsTrue, IfOk, IsErrOf, OnOk, OnErr, length, ◌*◌};
ghost use Rattle.jnl_format.specs.Recovery.{Content};
ghost use Rattle.hfs_serving.specs.Commits.{CommitsOnce, HasEnded, HaveCauses, IsCutShort, SomeWantsAt};
ghost use Rattle.hfs_serving.specs.Faults.{StopFaults};
ghost use Rattle.hfs_serving.specs.Going.{SomeStands, Stands};
ghost use Rattle.hfs_serving.specs.Speaking.{HasNoEnd, SpeaksBatch, SpeaksLines, StopsLines};

use crate::basis::Ground;
use crate::housekeeping::come_to_rest;
use crate::speaking::Speaker;
use crate::telling::Stop;
use crate::volume::{ToTell, Volume};
use line_source::Line;
use std::alloc::Global;

/// The most lines of one batch.
pub const MOST_LINES: usize = 32;

// Serves lines until one is left for the next batch, or the batch has its most. Answers how many were served.
fn serve_lines<V: Volume, G: Ground, K: Speaker>(
    speaker: &mut K,
    volume: &mut V,
    base: &mut G,
    number: u64,
    lines: &[Line],
    told: &mut ToTell,
) -> Result<usize, Stop>
    requires serves { (capacity : ℕ) × G.serves base.old capacity × (G.taken base.old ≤ capacity) }
    requires numbers { number + length lines.now ≤ 4294967295 }
    requires stands { IsTrue (G.space base.old).tells → SomeStands (V.knows volume.old (G.space base.old)) (G.space base.old) (G.outside base.old) }
    ensures goes { IsTrue (G.space base.old).tells → (capacity : ℕ) (committed now : Content) (shrunk : Option ℕ) → Stands (V.knows volume.old (G.space base.old) capacity) committed now shrunk (G.space base.old) (G.outside base.old)
        → IfOk result (λ count. SpeaksLines count capacity (V.knows volume.new (G.space base.new) capacity) committed now shrunk (G.outside base.old) number (K.spoke speaker.old) (K.spoke speaker.new) lines.now told.old told.new (G.space base.new) (G.outside base.new)) }
    ensures stops { IsTrue (G.space base.old).tells → (capacity : ℕ) (committed now : Content) (shrunk : Option ℕ) → Stands (V.knows volume.old (G.space base.old) capacity) committed now shrunk (G.space base.old) (G.outside base.old)
        → OnErr result (StopsLines capacity committed now shrunk (G.outside base.old) number (K.spoke speaker.old) K.broken lines.now (G.outside base.new)) }
    ensures few { IfOk result (λ count. count ≤ length lines.now) }
    ensures most { IfOk result (λ count. count ≤ 32) }
    ensures sync { IfOk result (λ count. (front : ℕ) → front < count → HasNoEnd K.ends front lines.now) }
    ensures still { (capacity : ℕ) → G.serves base.old capacity → G.taken base.old ≤ capacity → OnOk result (G.serves base.new capacity × (G.taken base.new ≤ capacity)) }
    ensures tells { OnOk result ((G.space base.new).tells ≡ (G.space base.old).tells) }
    ensures anchor { G.anchor base.new ≡ G.anchor base.old }
    ensures caused { IsTrue (G.space base.old).tells → IfOk result (λ count. HaveCauses (SomeWantsAt V.wants G.space) (K.often * (count + 2)) (G.space base.old).barriers (G.space base.new).barriers) }
    ensures ended { IsTrue (G.space base.old).tells → IfOk result (λ count. HasEnded K.ends K.asks V.wants G.space count lines.now) }
    ensures cut { IsTrue (G.space base.old).tells → OnErr result ((count : ℕ) × (count ≤ length lines.now) × HaveCauses (SomeWantsAt V.wants G.space) (K.often * (count + 2)) (G.space base.old).barriers (G.space base.new).barriers) }
    ensures faults { StopFaults (G.failed base.old) (G.space base.old) (G.failed base.new) (G.space base.new) ⊥ result }
    ensures no_many { IsErrOf result Stop.TooMany → ⊥ }
{
    speaker.begin(volume, base)?;
    for at in 0..lines.len() {
        if at == MOST_LINES {
            return Ok(at);
        }
        if !speaker.serve_line(volume, base, number + at as u64, &lines[at], at == 0, told)? {
            return Ok(at);
        }
        if speaker.ends_batch(&lines[at]) {
            return Ok(at + 1);
        }
    }
    Ok(lines.len())
}

/// Serves lines as one batch, and adds their replies, which are to be told only behind it. Its end is one commit of all that they changed. A line
/// that wants a commit before anything is done for it ends the batch, unless it is the first, and so do a `sync` and the 32nd line. Answers how many
/// of the lines were served.
pub fn serve_batch<V: Volume, G: Ground, K: Speaker>(
    speaker: &mut K,
    volume: &mut V,
    base: &mut G,
    number: u64,
    lines: &[Line],
    told: &mut ToTell,
) -> Result<usize, Stop>
    requires serves { (capacity : ℕ) × G.serves base.old capacity × (G.taken base.old ≤ capacity) }
    requires numbers { number + length lines.now ≤ 4294967295 }
    requires stands { IsTrue (G.space base.old).tells → SomeStands (V.knows volume.old (G.space base.old)) (G.space base.old) (G.outside base.old) }
    // At Ok the first lines are served, and a crash leaves all that they changed.
    ensures serves { IsTrue (G.space base.old).tells → (capacity : ℕ) (start : Content) (shrunk : Option ℕ) → Stands (V.knows volume.old (G.space base.old) capacity) start start shrunk (G.space base.old) (G.outside base.old)
        → IfOk result (λ count. SpeaksBatch count capacity (V.knows volume.new (G.space base.new) capacity) start shrunk (G.outside base.old) number (K.spoke speaker.old) (K.spoke speaker.new) lines.now told.old told.new (G.space base.new) (G.outside base.new)) }
    // A fault leaves what was committed, or the content after some lines.
    ensures stops { IsTrue (G.space base.old).tells → (capacity : ℕ) (start : Content) (shrunk : Option ℕ) → Stands (V.knows volume.old (G.space base.old) capacity) start start shrunk (G.space base.old) (G.outside base.old)
        → OnErr result (StopsLines capacity start start shrunk (G.outside base.old) number (K.spoke speaker.old) K.broken lines.now (G.outside base.new)) }
    ensures few { IfOk result (λ count. count ≤ length lines.now) }
    ensures most { IfOk result (λ count. count ≤ 32) }
    // A `sync` ends it: none of the lines that are served before the last is one.
    ensures sync { IfOk result (λ count. (front : ℕ) → front < count → HasNoEnd K.ends front lines.now) }
    ensures still { (capacity : ℕ) → G.serves base.old capacity → G.taken base.old ≤ capacity → OnOk result (G.serves base.new capacity × (G.taken base.new ≡ 0)) }
    ensures tells { OnOk result ((G.space base.new).tells ≡ (G.space base.old).tells) }
    ensures anchor { G.anchor base.new ≡ G.anchor base.old }
    // It makes one commit, at its end; before that a commit is made only where a step wanted it, or where memory was missing for a step.
    ensures once { IsTrue (G.space base.old).tells → IfOk result (λ count. CommitsOnce (SomeWantsAt V.wants G.space) K.often count (G.space base.old).barriers (G.space base.new).barriers) }
    // It ends where there are no more lines, behind its 32nd or a `sync`, and before a line whose command wants a commit first.
    ensures ended { IsTrue (G.space base.old).tells → IfOk result (λ count. HasEnded K.ends K.asks V.wants G.space count lines.now) }
    // Where a fault cut it short, it made no more.
    ensures cut { IsTrue (G.space base.old).tells → OnErr result (IsCutShort (SomeWantsAt V.wants G.space) K.often (length lines.now) (G.space base.old).barriers (G.space base.new).barriers) }
    ensures faults { StopFaults (G.failed base.old) (G.space base.old) (G.failed base.new) (G.space base.new) ⊥ result }
    ensures no_many { IsErrOf result Stop.TooMany → ⊥ }
{
    let count = serve_lines(speaker, volume, base, number, lines, told)?;
    // (what they left is reclaimed)
    come_to_rest(volume, base)?;
    volume.commit(base)?;
    Ok(count)
}
