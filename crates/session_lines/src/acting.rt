//! A line with a command of its own: the stages ahead of it, and the command.
ghost use Rattle.std.specs.Prelude.{◌≡◌, ◌≤◌, ℕ, Bool, List, Option, IsTrue, IsErrOf, IfOk, IfSome, OnErr, OnOk, false, true};
ghost use Rattle.jnl_format.specs.Recovery.{Content};
ghost use Rattle.hfs_language.specs.Written.{FitsCommand};
ghost use Rattle.hfs_serving.specs.Commits.{HaveCauses, IsLeft, SomeWantsAt};
ghost use Rattle.hfs_serving.specs.Faults.{StopFaults};
ghost use Rattle.hfs_serving.specs.Going.{SomeStands, Stands, line_if};
ghost use Rattle.hfs_serving.specs.Speaking.{SpeaksLine, StopsSpeaking};
ghost use Rattle.session_lines.specs.declared.errands.Errand.TheVariants as errand;
ghost use Rattle.session_lines.specs.declared.stages.Stage.TheVariants as stage_;
ghost use Rattle.session_lines.specs.Errands.{IsErrandOf};
ghost use Rattle.session_lines.specs.Stages.{FitsStage};
ghost use Rattle.session_lines.specs.Turns.{AsksFor, BrokenSessions, spoke_at};
ghost use Rattle.session_lines.specs.Writing.{TellsPlain};

use crate::answering::tell;
use crate::going::go_on;
use crate::laws::ids_stay_few;
use crate::own::do_own;
use crate::stages::Stage;
use hfs_language::{Command, Reply};
use hfs_serving::{Ground, Stop, ToTell, Volume};
use hfs_volume::{Asked, step_keeps_trees};
use open_files::{SessionReply, Table};
use std::alloc::Global;

/// Does what a line asks for ahead of its command, and then that, and tells what comes of it. Where nothing is to be done ahead, the line isn't the first of
/// its batch, and the command wants a commit before it, the line is left. Answers whether it was served.
#[allow(clippy::too_many_arguments)]
pub(crate) fn act<V: Volume, G: Ground>(
    alloc: Global,
    volume: &mut V,
    base: &mut G,
    number: u64,
    table: &Table,
    command: Command,
    stage: Stage,
    first: bool,
    told: &mut ToTell,
) -> Result<bool, Stop>
    requires serves { (capacity : ℕ) × G.serves base.old capacity × (G.taken base.old ≤ capacity) }
    requires stands { IsTrue (G.space base.old).tells → SomeStands (V.knows volume.old (G.space base.old)) (G.space base.old) (G.outside base.old) }
    requires fits { FitsCommand command × FitsStage stage }
    requires comes { (line : List ℕ) × IsErrandOf table.now line (errand.Does command stage) }
    ensures goes { IsTrue (G.space base.old).tells → (capacity : ℕ) (committed now : Content) (shrunk : Option ℕ) → Stands (V.knows volume.old (G.space base.old) capacity) committed now shrunk (G.space base.old) (G.outside base.old)
        → (line : List ℕ) → IsErrandOf table.now line (errand.Does command stage)
        → IfOk result (λ served. SpeaksLine served capacity (V.knows volume.new (G.space base.new) capacity) committed now shrunk (G.outside base.old) number (spoke_at table.now) (spoke_at table.now) line told.old told.new (G.space base.new) (G.outside base.new)) }
    ensures stops { IsTrue (G.space base.old).tells → (capacity : ℕ) (committed now : Content) (shrunk : Option ℕ) → Stands (V.knows volume.old (G.space base.old) capacity) committed now shrunk (G.space base.old) (G.outside base.old)
        → (line : List ℕ) → IsErrandOf table.now line (errand.Does command stage)
        → OnErr result ((begun : Bool) × StopsSpeaking capacity committed now shrunk (G.outside base.old) number (spoke_at table.now) BrokenSessions (line_if begun line) (G.outside base.new)) }
    // What is told is the reply of a command, and what that changed.
    ensures plain { IsTrue (G.space base.old).tells → (capacity : ℕ) (committed now : Content) (shrunk : Option ℕ) → Stands (V.knows volume.old (G.space base.old) capacity) committed now shrunk (G.space base.old) (G.outside base.old)
        → IfOk result (λ served. served ≡ true → TellsPlain told.old told.new) }
    ensures still { (capacity : ℕ) → G.serves base.old capacity → G.taken base.old ≤ capacity → OnOk result (G.serves base.new capacity × (G.taken base.new ≤ capacity)) }
    ensures tells { OnOk result ((G.space base.new).tells ≡ (G.space base.old).tells) }
    ensures anchor { G.anchor base.new ≡ G.anchor base.old }
    ensures caused { IsTrue (G.space base.old).tells → HaveCauses (SomeWantsAt V.wants G.space) 153 (G.space base.old).barriers (G.space base.new).barriers }
    // It is left only where it isn't the first and the volume wants a commit before its command.
    ensures left { IsTrue (G.space base.old).tells → (line : List ℕ) → IsErrandOf table.now line (errand.Does command stage) → IfOk result (λ served. served ≡ false → (first ≡ false) × IsLeft AsksFor V.wants G.space line) }
    ensures faults { StopFaults (G.failed base.old) (G.space base.old) (G.failed base.new) (G.space base.new) ⊥ result }
    ensures no_many { IsErrOf result Stop.TooMany → ⊥ }
{
    step_keeps_trees();
    ids_stay_few();
    let asked = Asked::Plain(command);
    let mut stage = stage;
    let may_wait = waits(first, &stage);
    go_on(alloc, volume, base, number, table, &mut stage)?;
    if stage.is_last() {
        return do_own(alloc, volume, base, number, &asked, may_wait, told);
    }
    match said_in(stage) {
        Some(reply) => {
            tell(alloc, &SessionReply::Plain(reply), told)?;
            Ok(true)
        }
        // (the stages ahead of a command end in one of these)
        None => Err(Stop::Steps),
    }
}

/// Whether the line may be left: it isn't the first of its batch, and nothing is to be done ahead of its command.
fn waits(first: bool, stage: &Stage) -> bool
    ensures { IsTrue result → (first ≡ false) × (stage.now ≡ stage_.Does) }
{
    !first && stage.is_last()
}

/// What a stage says.
fn said_in(stage: Stage) -> Option<Reply>
    ensures { IfSome result (λ reply. stage ≡ stage_.Says reply) }
{
    match stage {
        Stage::Says(reply) => Some(reply),
        _ => None,
    }
}
