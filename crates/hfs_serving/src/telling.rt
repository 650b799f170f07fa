//! What is told beside a ground, and a batch whose replies are told at its end.
ghost use Rattle.std.specs.Prelude.{◌≡◌, ◌≤◌, ◌++◌, ◌+◌, ℕ, List, Option, IsErrOf, IsTrue, IfOk, OnOk, OnErr, false, length};
ghost use Rattle.std.specs.List.{AllByRecursion};
ghost use Rattle.jnl_format.specs.Recovery.{Content};
ghost use Rattle.hfs_language.specs.declared.reply.Change.{Change};
ghost use Rattle.sector_disk.specs.Cause.{HasCause};
ghost use Rattle.hfs_serving.specs.Commits.{CommitsOnce, HasEnded, IsCutShort, SomeWantsAt};
ghost use Rattle.hfs_serving.specs.Faults.{CountsFaults, StopFaults};
ghost use Rattle.hfs_serving.specs.Going.{SomeStands, Stands};
ghost use Rattle.hfs_serving.specs.Serving.{TellsOut};
ghost use Rattle.hfs_serving.specs.Speaking.{Speaks};
ghost use Rattle.hfs_serving.specs.Spoken.{CrashesSpoken, ServesSpoken};
ghost use Rattle.hfs_serving.specs.Steps.{IsStill};
ghost use Rattle.watchers.specs.Told.{AreTold};

use crate::basis::Ground;
use crate::batch::serve_batch;
use crate::speaking::Speaker;
use crate::volume::{ToTell, Volume};
use hfs_language::Changes;
use hx_bytes::{Bytes, Failed, OutOfMemory, Trouble};
use line_source::{InputFault, Line};
use std::alloc::Global;
use watchers::{Watcher, tell_all};

/// A ground with a sink beside it, on the same clock.
pub trait Teller: Ground {
    /// Tells all of the bytes, or a front of them where the sink fails.
    fn tell_all(&mut self, bytes: &[u8]) -> Result<(), Failed>
        ensures told { IsTrue (Self.space self.old).tells → TellsOut (Self.outside self.old) bytes.now (Self.outside self.new) }
        ensures whole { IsTrue (Self.space self.old).tells → OnOk result ((Self.outside self.new).told ≡ (Self.outside self.old).told ++ bytes.now) }
        ensures still { IsStill (Self.space self.old) (Self.space self.new) }
        ensures serves { (capacity : ℕ) → Self.serves self.old capacity → Self.serves self.new capacity }
        ensures taken { Self.taken self.new ≡ Self.taken self.old }
        ensures anchor { Self.anchor self.new ≡ Self.anchor self.old }
        ensures counts { CountsFaults (Self.failed self.old) (Self.space self.old) (Self.failed self.new) (Self.space self.new) }
        ensures barriers { (Self.space self.new).barriers ≡ (Self.space self.old).barriers }
        ensures cause { HasCause (Self.space self.old).sink_faults (Self.space self.new).sink_faults result };
}

/// Why a run ended before its last line.
#[derive(Clone, Copy, PartialEq, Eq)]
pub enum Stop {
    /// The disk failed.
    Disk,
    /// There was no memory outside of a command.
    Memory,
    /// The source failed.
    Source,
    /// The sink failed.
    Sink,
    /// More steps were made for one line than a volume has blocks and records.
    Steps,
    /// There were too many lines.
    TooMany,
}

impl From<Trouble> for Stop {
    ghost use Rattle.std.specs.Prelude.{◌≡◌};
    ghost use Rattle.hfs_serving.specs.Steps.{stop_of};

    ghost from_gives = { λ trouble stop. stop ≡ stop_of trouble };

    fn from(trouble: Trouble) -> Self {
        match trouble {
            Trouble::Disk => Stop::Disk,
            Trouble::Memory => Stop::Memory,
        }
    }
}

impl From<Failed> for Stop {
    ghost use Rattle.std.specs.Prelude.{◌≡◌};
    ghost use Rattle.hfs_serving.specs.declared.telling.Stop.TheVariants.{Disk};

    ghost from_gives = { λ _ stop. stop ≡ Disk };

    fn from(_: Failed) -> Self {
        Stop::Disk
    }
}

impl From<OutOfMemory> for Stop {
    ghost use Rattle.std.specs.Prelude.{◌≡◌};
    ghost use Rattle.hfs_serving.specs.declared.telling.Stop.TheVariants.{Memory};

    ghost from_gives = { λ _ stop. stop ≡ Memory };

    fn from(_: OutOfMemory) -> Self {
        Stop::Memory
    }
}

impl From<InputFault> for Stop {
    ghost use Rattle.std.specs.Prelude.{◌≡◌};
    ghost use Rattle.hfs_serving.specs.Steps.{stop_of_input};

    ghost from_gives = { λ fault stop. stop ≡ stop_of_input fault };

    fn from(fault: InputFault) -> Self {
        match fault {
            InputFault::Source => Stop::Source,
            InputFault::Memory => Stop::Memory,
        }
    }
}

/// Serves lines as one batch, whose first line has this number. Once all that they changed is committed, it tells the changes to the watchers and
/// then the replies. Answers how many of the lines were served.
pub fn serve_step<V: Volume, G: Teller, W: Watcher, K: Speaker>(
    alloc: Global,
    speaker: &mut K,
    volume: &mut V,
    base: &mut G,
    watchers: &mut Vec<W>,
    number: u64,
    lines: &[Line],
) -> Result<usize, Stop>
    requires serves { (capacity : ℕ) × G.serves base.old capacity × (G.taken base.old ≤ capacity) }
    requires stands { IsTrue (G.space base.old).tells → SomeStands (V.knows volume.old (G.space base.old)) (G.space base.old) (G.outside base.old) }
    requires numbers { number + length lines.now ≤ 4294967295 }
    // At Ok the first lines are served and answered, and the volume stands for what they left, which is committed. A fault leaves a run of some of
    // the lines, of which each that was answered is there after a crash. Of a batch that is committed watchers are told all that its lines changed,
    // each change once, and of another nothing.
    ensures serves { (heard : List Change) × (AllByRecursion (λ w. W.leaves w ≡ false) watchers.old.items → AreTold W.told W.leaves heard watchers.old.items watchers.new.items)
        × (IsTrue (G.space base.old).tells → (capacity : ℕ) (start : Content) (shrunk : Option ℕ) → Stands (V.knows volume.old (G.space base.old) capacity) start start shrunk (G.space base.old) (G.outside base.old)
        → IfOk result (λ count. ServesSpoken (Speaks number start (K.spoke speaker.old) (K.spoke speaker.new)) heard count capacity (V.knows volume.new (G.space base.new) capacity) start shrunk (G.outside base.old) lines.now (G.space base.new) (G.outside base.new))
        × OnErr result (CrashesSpoken (Speaks number start (K.spoke speaker.old) K.broken) heard capacity start shrunk (G.outside base.old) lines.now (G.outside base.new))) }
    ensures few { IfOk result (λ count. count ≤ length lines.now) }
    ensures most { IfOk result (λ count. count ≤ 32) }
    ensures still { (capacity : ℕ) → G.serves base.old capacity → G.taken base.old ≤ capacity → OnOk result (G.serves base.new capacity × (G.taken base.new ≡ 0)) }
    ensures tells { OnOk result ((G.space base.new).tells ≡ (G.space base.old).tells) }
    ensures anchor { G.anchor base.new ≡ G.anchor base.old }
    // It makes one commit, behind the lines; before that a commit is made only where a step wanted it, or where memory was missing for a step.
    ensures once { IsTrue (G.space base.old).tells → IfOk result (λ count. CommitsOnce (SomeWantsAt V.wants G.space) K.often count (G.space base.old).barriers (G.space base.new).barriers) }
    // The batch ends where there are no more lines, behind its 32nd or a `sync`, and before a line whose command wants a commit first.
    ensures ended { IsTrue (G.space base.old).tells → IfOk result (λ count. HasEnded K.ends K.asks V.wants G.space count lines.now) }
    // Where a fault cut it short, it made no more.
    ensures cut { IsTrue (G.space base.old).tells → OnErr result (IsCutShort (SomeWantsAt V.wants G.space) K.often (length lines.now) (G.space base.old).barriers (G.space base.new).barriers) }
    ensures faults { StopFaults (G.failed base.old) (G.space base.old) (G.failed base.new) (G.space base.new) ⊥ result }
    ensures no_many { IsErrOf result Stop.TooMany → ⊥ }
{
    let replies = Bytes::new(alloc);
    let changes = Changes::new(alloc);
    let mut to_tell = ToTell { replies, changes };
    let count = serve_batch(speaker, volume, base, number, lines, &mut to_tell)?;
    tell_all(watchers, &to_tell.changes);
    match base.tell_all(to_tell.replies.as_slice()) {
        Ok(()) => {
            volume.look(base);
            Ok(count)
        }
        Err(_) => Err(Stop::Sink),
    }
}
