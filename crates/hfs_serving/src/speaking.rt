//! Who speaks with a volume in lines: what is done for a line, and what it is told.
ghost use Rattle.std.specs.Prelude.{◌≡◌, ◌↔◌, ◌≤◌, [], ℕ, Bool, List, Option, IsTrue, IsErrOf, IfOk, OnErr, OnOk, false};
ghost use Rattle.jnl_format.specs.Recovery.{Content};
ghost use Rattle.hfs_volume.specs.declared.asked.Asked.{Asked};
ghost use Rattle.hfs_serving.specs.Commits.{HaveCauses, IsLeft, SomeWantsAt};
ghost use Rattle.hfs_serving.specs.Faults.{StopFaults};
ghost use Rattle.hfs_serving.specs.Going.{SomeStands, Stands, line_if};
ghost use Rattle.hfs_serving.specs.Said.{untold};
ghost use Rattle.hfs_serving.specs.Speaking.{SpeaksLine, SpeaksOn, Speech, StopsSpeaking};

use crate::basis::Ground;
use crate::lines::{is_sync, serve_line};
use crate::telling::Stop;
use crate::volume::{ToTell, Volume};
use line_source::Line;
use std::alloc::Global;

/// Serves lines of a kind, one after the other. What is said of it is said of all that was spoken since a run began from a content.
pub trait Speaker: Drop {
    /// It came to where it is by these lines, each of them served whole.
    ghost spoke: { Self → Content → Speech → Type 0 };

    /// A run of such lines comes so far, where something may have cut the last of them short: entries of it may be there, and it is told nothing.
    ghost broken: { Content → Speech → Type 0 };

    /// The line asks that all be made durable.
    ghost ends: { List ℕ → Type 0 };

    /// The line asks for this.
    ghost asks: { List ℕ → Asked → Type 0 };

    /// How often memory may be missing for a line, or ahead of the lines of a batch, where each time a commit is made.
    ghost often: { ℕ };

    /// Does what is left to be done ahead of the lines of a batch, of which nothing is told.
    fn begin<V: Volume, G: Ground>(&mut self, volume: &mut V, base: &mut G) -> Result<(), Stop>
        requires serves { (capacity : ℕ) × G.serves base.old capacity × (G.taken base.old ≤ capacity) }
        requires stands { IsTrue (G.space base.old).tells → SomeStands (V.knows volume.old (G.space base.old)) (G.space base.old) (G.outside base.old) }
        ensures goes { IsTrue (G.space base.old).tells → (capacity : ℕ) (committed now : Content) (shrunk : Option ℕ) (number : ℕ) → Stands (V.knows volume.old (G.space base.old) capacity) committed now shrunk (G.space base.old) (G.outside base.old)
            → OnOk result (SpeaksOn capacity (V.knows volume.new (G.space base.new) capacity) committed now shrunk (G.outside base.old) number (spoke self.old) (spoke self.new) [] untold (G.space base.new) (G.outside base.new)) }
        ensures stops { IsTrue (G.space base.old).tells → (capacity : ℕ) (committed now : Content) (shrunk : Option ℕ) (number : ℕ) → Stands (V.knows volume.old (G.space base.old) capacity) committed now shrunk (G.space base.old) (G.outside base.old)
            → OnErr result (StopsSpeaking capacity committed now shrunk (G.outside base.old) number (spoke self.old) broken [] (G.outside base.new)) }
        ensures still { (capacity : ℕ) → G.serves base.old capacity → G.taken base.old ≤ capacity → OnOk result (G.serves base.new capacity × (G.taken base.new ≤ capacity)) }
        ensures tells { OnOk result ((G.space base.new).tells ≡ (G.space base.old).tells) }
        ensures anchor { G.anchor base.new ≡ G.anchor base.old }
        ensures caused { IsTrue (G.space base.old).tells → HaveCauses (SomeWantsAt V.wants G.space) often (G.space base.old).barriers (G.space base.new).barriers }
        ensures faults { StopFaults (G.failed base.old) (G.space base.old) (G.failed base.new) (G.space base.new) ⊥ result }
        ensures no_many { IsErrOf result Stop.TooMany → ⊥ };

    /// Serves a line of this number, before each command of which housekeeping comes to rest, and adds what it is told. Where the line isn't the
    /// first of its batch and wants a commit before anything is done for it, it is left for the next batch. Answers whether it was served. `Steps`
    /// comes where the line's steps are used up. A fault may come where the line was begun.
    fn serve_line<V: Volume, G: Ground>(
        &mut self,
        volume: &mut V,
        base: &mut G,
        number: u64,
        line: &Line,
        first: bool,
        told: &mut ToTell,
    ) -> Result<bool, Stop>
        requires serves { (capacity : ℕ) × G.serves base.old capacity × (G.taken base.old ≤ capacity) }
        requires stands { IsTrue (G.space base.old).tells → SomeStands (V.knows volume.old (G.space base.old)) (G.space base.old) (G.outside base.old) }
        ensures goes { IsTrue (G.space base.old).tells → (capacity : ℕ) (committed now : Content) (shrunk : Option ℕ) → Stands (V.knows volume.old (G.space base.old) capacity) committed now shrunk (G.space base.old) (G.outside base.old)
            → IfOk result (λ served. SpeaksLine served capacity (V.knows volume.new (G.space base.new) capacity) committed now shrunk (G.outside base.old) number (spoke self.old) (spoke self.new) line.now told.old told.new (G.space base.new) (G.outside base.new)) }
        ensures stops { IsTrue (G.space base.old).tells → (capacity : ℕ) (committed now : Content) (shrunk : Option ℕ) → Stands (V.knows volume.old (G.space base.old) capacity) committed now shrunk (G.space base.old) (G.outside base.old)
            → OnErr result ((begun : Bool) × StopsSpeaking capacity committed now shrunk (G.outside base.old) number (spoke self.old) broken (line_if begun line.now) (G.outside base.new)) }
        ensures still { (capacity : ℕ) → G.serves base.old capacity → G.taken base.old ≤ capacity → OnOk result (G.serves base.new capacity × (G.taken base.new ≤ capacity)) }
        ensures tells { OnOk result ((G.space base.new).tells ≡ (G.space base.old).tells) }
        ensures anchor { G.anchor base.new ≡ G.anchor base.old }
        // A commit is made where a step of housekeeping or of a command wanted it, or where memory was missing for it.
        ensures caused { IsTrue (G.space base.old).tells → HaveCauses (SomeWantsAt V.wants G.space) often (G.space base.old).barriers (G.space base.new).barriers }
        // It is left only where it isn't the first and the volume wants a commit before its command.
        ensures left { IsTrue (G.space base.old).tells → IfOk result (λ served. served ≡ false → (first ≡ false) × IsLeft asks V.wants G.space line.now) }
        ensures faults { StopFaults (G.failed base.old) (G.space base.old) (G.failed base.new) (G.space base.new) ⊥ result }
        ensures no_many { IsErrOf result Stop.TooMany → ⊥ };

    /// Whether a line asks that all be made durable, which ends its batch.
    fn ends_batch(&self, line: &Line) -> bool
        ensures { IsTrue result ↔ ends line.now };

    /// A run that wasn't cut short comes so far, too.
    ghost whole: { (speaker : Self) (start : Content) (speech : Speech) → spoke speaker start speech → broken start speech };
}

/// Serves lines that spell commands.
#[derive(Drop)]
pub struct PlainLines {
    pub alloc: Global,
}

impl Speaker for PlainLines {
    ghost use Rattle.std.specs.Prelude.{◌≡◌};
    ghost use Rattle.hfs_serving.specs.Going.{sync_line};
    ghost use Rattle.hfs_serving.specs.Plain.{Spells, spoke_plainly};

    ghost spoke = { λ _. spoke_plainly };

    // (none of them is cut short)
    ghost broken = { spoke_plainly };

    ghost whole = { λ _ start speech plain. plain };

    ghost ends = { λ line. line ≡ sync_line };

    ghost asks = { Spells };

    // (eight times for housekeeping, and once for the command)
    ghost often = { 9 };

    fn begin<V: Volume, G: Ground>(&mut self, _volume: &mut V, _base: &mut G) -> Result<(), Stop> {
        Ok(())
    }

    fn serve_line<V: Volume, G: Ground>(
        &mut self,
        volume: &mut V,
        base: &mut G,
        number: u64,
        line: &Line,
        first: bool,
        told: &mut ToTell,
    ) -> Result<bool, Stop> {
        serve_line(self.alloc, volume, base, number, line, first, told)
    }

    fn ends_batch(&self, line: &Line) -> bool {
        is_sync(line)
    }
}
