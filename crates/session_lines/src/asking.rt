//! Lines that only look: what they list, tell or open.
ghost use Rattle.std.specs.Prelude.{◌≡◌, ◌⊎◌, ◌≤◌, ℕ, Bool, List, Option, IsTrue, IsErrOf, IfErr, OnErr, OnOk, true};
ghost use Rattle.jnl_format.specs.Recovery.{Content};
ghost use Rattle.hfs_serving.specs.Commits.{HaveCauses, SomeWantsAt};
ghost use Rattle.hfs_serving.specs.Faults.{StopFaults};
ghost use Rattle.hfs_serving.specs.Going.{SomeStands, Stands, line_if};
ghost use Rattle.hfs_serving.specs.Said.{joined};
ghost use Rattle.hfs_serving.specs.Speaking.{SpeaksLine, StopsSpeaking};
ghost use Rattle.open_files.specs.declared.act.SessionReply.{SessionReply};
ghost use Rattle.session_lines.specs.declared.errands.Errand.TheVariants as errand;
ghost use Rattle.session_lines.specs.declared.stages.Stage.TheVariants as stage;
ghost use Rattle.session_lines.specs.Endings.{AnswersEnd};
ghost use Rattle.session_lines.specs.Errands.{IsErrandOf};
ghost use Rattle.session_lines.specs.Said.{text_told};
ghost use Rattle.session_lines.specs.Stages.{FitsStage};
ghost use Rattle.session_lines.specs.Turns.{BrokenSessions, spoke_at};

use crate::answering::tell;
use crate::going::go_on;
use crate::laws::ids_stay_few;
use crate::stages::Stage;
use hfs_language::{Refusal, Reply};
use hfs_serving::{Ground, Stop, ToTell, Volume};
use hfs_volume::step_keeps_trees;
use hx_bytes::OutOfMemory;
use open_files::{Opened, SessionReply, Table};
use std::alloc::Global;

/// Goes through the stages of a line, and tells what the last of them says, or opens its file.
#[allow(clippy::too_many_arguments)]
pub(crate) fn ask_line<V: Volume, G: Ground>(
    alloc: Global,
    volume: &mut V,
    base: &mut G,
    number: u64,
    table: &mut Table,
    session: u8,
    stage: Stage,
    told: &mut ToTell,
) -> Result<(), Stop>
    requires serves { (capacity : ℕ) × G.serves base.old capacity × (G.taken base.old ≤ capacity) }
    requires stands { IsTrue (G.space base.old).tells → SomeStands (V.knows volume.old (G.space base.old)) (G.space base.old) (G.outside base.old) }
    requires fits { FitsStage stage }
    ensures goes { IsTrue (G.space base.old).tells → (capacity : ℕ) (committed now : Content) (shrunk : Option ℕ) → Stands (V.knows volume.old (G.space base.old) capacity) committed now shrunk (G.space base.old) (G.outside base.old)
        → (line : List ℕ) → IsErrandOf table.old line (errand.Asks session stage)
        → OnOk result (SpeaksLine true capacity (V.knows volume.new (G.space base.new) capacity) committed now shrunk (G.outside base.old) number (spoke_at table.old) (spoke_at table.new) line told.old told.new (G.space base.new) (G.outside base.new)) }
    ensures stops { IsTrue (G.space base.old).tells → (capacity : ℕ) (committed now : Content) (shrunk : Option ℕ) → Stands (V.knows volume.old (G.space base.old) capacity) committed now shrunk (G.space base.old) (G.outside base.old)
        → (line : List ℕ) → IsErrandOf table.old line (errand.Asks session stage)
        → OnErr result ((begun : Bool) × StopsSpeaking capacity committed now shrunk (G.outside base.old) number (spoke_at table.old) BrokenSessions (line_if begun line) (G.outside base.new)) }
    ensures still { (capacity : ℕ) → G.serves base.old capacity → G.taken base.old ≤ capacity → OnOk result (G.serves base.new capacity × (G.taken base.new ≤ capacity)) }
    ensures tells { OnOk result ((G.space base.new).tells ≡ (G.space base.old).tells) }
    ensures anchor { G.anchor base.new ≡ G.anchor base.old }
    // A commit is made where a step of housekeeping or of a command wanted it, or where memory was missing for it.
    ensures caused { IsTrue (G.space base.old).tells → HaveCauses (SomeWantsAt V.wants G.space) 144 (G.space base.old).barriers (G.space base.new).barriers }
    ensures faults { StopFaults (G.failed base.old) (G.space base.old) (G.failed base.new) (G.space base.new) ⊥ result }
    ensures no_many { IsErrOf result Stop.TooMany → ⊥ }
{
    step_keeps_trees();
    ids_stay_few();
    let mut stage = stage;
    go_on(alloc, volume, base, number, table, &mut stage)?;
    tell_end(alloc, table, session, stage, told)?;
    Ok(())
}

/// Tells what a last stage says, or opens its file.
fn tell_end(
    alloc: Global,
    table: &mut Table,
    session: u8,
    end: Stage,
    told: &mut ToTell,
) -> Result<(), Stop>
    ensures told { OnOk result ((said : SessionReply) × AnswersEnd session table.old end said table.new × (told.new ≡ joined told.old (text_told said))) }
    ensures mild { IfErr result (λ stop. (stop ≡ Stop.Memory) ⊎ (stop ≡ Stop.Steps)) }
{
    match end {
        Stage::Opens(id) => {
            open(alloc, table, session, id, told)?;
            Ok(())
        }
        Stage::Says(reply) => {
            tell(alloc, &SessionReply::Plain(reply), told)?;
            Ok(())
        }
        _ => Err(Stop::Steps),
    }
}

/// Opens a file, and tells its handle. Where memory is missing it isn't open.
fn open(
    alloc: Global,
    table: &mut Table,
    session: u8,
    id: u32,
    told: &mut ToTell,
) -> Result<(), Stop>
    ensures told { OnOk result ((said : SessionReply) × AnswersEnd session table.old (stage.Opens id) said table.new × (told.new ≡ joined told.old (text_told said))) }
    ensures memory { IfErr result (λ stop. stop ≡ Stop.Memory) }
{
    match table.open_file(session, id) {
        Ok(Opened::Handle(handle)) => {
            if tell(alloc, &SessionReply::Opened(handle), told)? {
                return Ok(());
            }
            table.close(session, handle);
            Ok(())
        }
        Ok(Opened::TooManyOpen) => {
            tell(alloc, &SessionReply::TooManyOpen, told)?;
            Ok(())
        }
        Err(OutOfMemory) => {
            tell(
                alloc,
                &SessionReply::Plain(Reply::No(Refusal::OutOfMemory)),
                told,
            )?;
            Ok(())
        }
    }
}
