//! Lines that would change bytes of a file: where macOS keeps it compressed they are refused.
ghost use Rattle.std.specs.Prelude.{◌≡◌, ◌≤◌, [], ℕ, Bool, List, Option, IsTrue, IsErrOf, IfNone, IfOk, IfSome, OnErr, OnOk, None, Some, false, true, if◌then◌else◌};
ghost use Rattle.jnl_format.specs.Recovery.{Content};
ghost use Rattle.hfs_language.specs.Written.{FitsCommand, FitsPath};
ghost use Rattle.volume_runs.specs.Fits.{FitsEdit};
ghost use Rattle.hfs_serving.specs.Commits.{HaveCauses, IsLeft, SomeWantsAt};
ghost use Rattle.hfs_serving.specs.Faults.{StopFaults};
ghost use Rattle.hfs_serving.specs.Going.{SomeStands, Stands, StopsOn, line_if};
ghost use Rattle.hfs_serving.specs.Speaking.{SpeaksLine, StopsSpeaking};
ghost use Rattle.open_files.specs.declared.act.SessionReply.TheVariants as told;
ghost use Rattle.session_lines.specs.declared.errands.Errand.TheVariants as errand;
ghost use Rattle.session_lines.specs.Errands.{IsErrandOf, IsKindErrandOf};
ghost use Rattle.session_lines.specs.Stages.{FitsStage};
ghost use Rattle.session_lines.specs.Turns.{AsksFor, BrokenSessions, spoke_at};
ghost use Rattle.session_lines.specs.Writing.{HasJudged, TellsOf, written_by, written_by_edit};

use crate::acting::act;
use crate::answering::tell;
use crate::editing::edit_line;
use crate::laws::ids_stay_few;
use crate::stages::Stage;
use hfs_language::{Command, Path, Refusal, Reply};
use hfs_model::KindEdit;
use hfs_serving::{Ground, Stop, ToTell, Volume};
use hfs_volume::step_keeps_trees;
use hx_bytes::Trouble;
use open_files::{SessionReply, Table};
use std::alloc::Global;

/// As `act` does; but a command that would change data of a file that macOS keeps compressed is refused, and nothing is done for its line.
#[allow(clippy::too_many_arguments)]
pub(crate) fn act_unless_compressed<V: Volume, G: Ground>(
    alloc: Global,
    volume: &mut V,
    base: &mut G,
    number: u64,
    table: &Table,
    command: Command,
    stage: Stage,
    first: bool,
    told: &mut ToTell,
) -> Result<bool, Stop>
    requires serves { (capacity : ℕ) × G.serves base.old capacity × (G.taken base.old ≤ capacity) }
    requires stands { IsTrue (G.space base.old).tells → SomeStands (V.knows volume.old (G.space base.old)) (G.space base.old) (G.outside base.old) }
    requires fits { FitsCommand command × FitsStage stage }
    requires comes { (line : List ℕ) × IsErrandOf table.now line (errand.Does command stage) }
    ensures goes { IsTrue (G.space base.old).tells → (capacity : ℕ) (committed now : Content) (shrunk : Option ℕ) → Stands (V.knows volume.old (G.space base.old) capacity) committed now shrunk (G.space base.old) (G.outside base.old)
        → (line : List ℕ) → IsErrandOf table.now line (errand.Does command stage)
        → IfOk result (λ served. SpeaksLine served capacity (V.knows volume.new (G.space base.new) capacity) committed now shrunk (G.outside base.old) number (spoke_at table.now) (spoke_at table.now) line told.old told.new (G.space base.new) (G.outside base.new)) }
    ensures stops { IsTrue (G.space base.old).tells → (capacity : ℕ) (committed now : Content) (shrunk : Option ℕ) → Stands (V.knows volume.old (G.space base.old) capacity) committed now shrunk (G.space base.old) (G.outside base.old)
        → (line : List ℕ) → IsErrandOf table.now line (errand.Does command stage)
        → OnErr result ((begun : Bool) × StopsSpeaking capacity committed now shrunk (G.outside base.old) number (spoke_at table.now) BrokenSessions (line_if begun line) (G.outside base.new)) }
    // Where it would change data of a file, the line is told that the file is compressed just where its record says so.
    ensures judged { IsTrue (G.space base.old).tells → (capacity : ℕ) (committed now : Content) (shrunk : Option ℕ) → Stands (V.knows volume.old (G.space base.old) capacity) committed now shrunk (G.space base.old) (G.outside base.old)
        → (path : List (List ℕ)) → written_by command ≡ Some path → IfOk result (λ served. served ≡ true → TellsOf now path told.old told.new) }
    ensures still { (capacity : ℕ) → G.serves base.old capacity → G.taken base.old ≤ capacity → OnOk result (G.serves base.new capacity × (G.taken base.new ≤ capacity)) }
    ensures tells { OnOk result ((G.space base.new).tells ≡ (G.space base.old).tells) }
    ensures anchor { G.anchor base.new ≡ G.anchor base.old }
    ensures caused { IsTrue (G.space base.old).tells → HaveCauses (SomeWantsAt V.wants G.space) 153 (G.space base.old).barriers (G.space base.new).barriers }
    // It is left only where it isn't the first and the volume wants a commit before its command.
    ensures left { IsTrue (G.space base.old).tells → (line : List ℕ) → IsErrandOf table.now line (errand.Does command stage) → IfOk result (λ served. served ≡ false → (first ≡ false) × IsLeft AsksFor V.wants G.space line) }
    ensures faults { StopFaults (G.failed base.old) (G.space base.old) (G.failed base.new) (G.space base.new) ⊥ result }
    ensures no_many { IsErrOf result Stop.TooMany → ⊥ }
{
    step_keeps_trees();
    ids_stay_few();
    match judge_command(volume, base, &command)? {
        Some(reply) => {
            tell(alloc, &reply, told)?;
            Ok(true)
        }
        None => act(
            alloc, volume, base, number, table, command, stage, first, told,
        ),
    }
}

/// As `edit_line` does; but one that would change the resource fork of a file that macOS keeps compressed is refused, and nothing is done for it.
#[allow(clippy::too_many_arguments)]
pub(crate) fn edit_unless_compressed<V: Volume, G: Ground>(
    alloc: Global,
    volume: &mut V,
    base: &mut G,
    number: u64,
    table: &Table,
    edit: KindEdit,
    first: bool,
    told: &mut ToTell,
) -> Result<bool, Stop>
    requires serves { (capacity : ℕ) × G.serves base.old capacity × (G.taken base.old ≤ capacity) }
    requires stands { IsTrue (G.space base.old).tells → SomeStands (V.knows volume.old (G.space base.old)) (G.space base.old) (G.outside base.old) }
    requires fits { FitsEdit edit }
    ensures goes { IsTrue (G.space base.old).tells → (capacity : ℕ) (committed now : Content) (shrunk : Option ℕ) → Stands (V.knows volume.old (G.space base.old) capacity) committed now shrunk (G.space base.old) (G.outside base.old)
        → (line : List ℕ) → IsKindErrandOf line (errand.Edits edit)
        → IfOk result (λ served. SpeaksLine served capacity (V.knows volume.new (G.space base.new) capacity) committed now shrunk (G.outside base.old) number (spoke_at table.now) (spoke_at table.now) line told.old told.new (G.space base.new) (G.outside base.new)) }
    ensures stops { IsTrue (G.space base.old).tells → (capacity : ℕ) (committed now : Content) (shrunk : Option ℕ) → Stands (V.knows volume.old (G.space base.old) capacity) committed now shrunk (G.space base.old) (G.outside base.old)
        → (line : List ℕ) → OnErr result ((begun : Bool) × StopsSpeaking capacity committed now shrunk (G.outside base.old) number (spoke_at table.now) BrokenSessions (line_if begun line) (G.outside base.new)) }
    // Where it would change the resource fork of a file, the line is told that the file is compressed just where its record says so.
    ensures judged { IsTrue (G.space base.old).tells → (capacity : ℕ) (committed now : Content) (shrunk : Option ℕ) → Stands (V.knows volume.old (G.space base.old) capacity) committed now shrunk (G.space base.old) (G.outside base.old)
        → (path : List (List ℕ)) → written_by_edit edit ≡ Some path → IfOk result (λ served. served ≡ true → TellsOf now path told.old told.new) }
    ensures still { (capacity : ℕ) → G.serves base.old capacity → G.taken base.old ≤ capacity → OnOk result (G.serves base.new capacity × (G.taken base.new ≤ capacity)) }
    ensures tells { OnOk result ((G.space base.new).tells ≡ (G.space base.old).tells) }
    ensures anchor { G.anchor base.new ≡ G.anchor base.old }
    ensures caused { IsTrue (G.space base.old).tells → HaveCauses (SomeWantsAt V.wants G.space) 9 (G.space base.old).barriers (G.space base.new).barriers }
    // It is left only where it isn't the first and the volume wants a commit before it.
    ensures left { IsTrue (G.space base.old).tells → (line : List ℕ) → IsKindErrandOf line (errand.Edits edit) → IfOk result (λ served. served ≡ false → (first ≡ false) × IsLeft AsksFor V.wants G.space line) }
    ensures faults { StopFaults (G.failed base.old) (G.space base.old) (G.failed base.new) (G.space base.new) ⊥ result }
    ensures no_many { IsErrOf result Stop.TooMany → ⊥ }
{
    step_keeps_trees();
    ids_stay_few();
    match judge_edit(volume, base, &edit)? {
        Some(reply) => {
            tell(alloc, &reply, told)?;
            Ok(true)
        }
        None => edit_line(alloc, volume, base, number, table, edit, first, told),
    }
}

/// The same as `judge`, of the file whose data a command changes; nothing where it changes none.
fn judge_command<V: Volume, G: Ground>(
    volume: &mut V,
    base: &mut G,
    command: &Command,
) -> Result<Option<SessionReply>, Stop>
    requires serves { (capacity : ℕ) × G.serves base.old capacity × (G.taken base.old ≤ capacity) }
    requires stands { IsTrue (G.space base.old).tells → SomeStands (V.knows volume.old (G.space base.old)) (G.space base.old) (G.outside base.old) }
    requires fits { FitsCommand command.now }
    ensures goes { IsTrue (G.space base.old).tells → (capacity : ℕ) (committed now : Content) (shrunk : Option ℕ) → Stands (V.knows volume.old (G.space base.old) capacity) committed now shrunk (G.space base.old) (G.outside base.old)
        → IfOk result (λ said. HasJudged (written_by command.now) capacity (V.knows volume.new (G.space base.new) capacity) committed now (G.outside base.old) shrunk (G.space base.new) (G.outside base.new) said) }
    ensures stops { IsTrue (G.space base.old).tells → (capacity : ℕ) (committed now : Content) (shrunk : Option ℕ) → Stands (V.knows volume.old (G.space base.old) capacity) committed now shrunk (G.space base.old) (G.outside base.old)
        → OnErr result (StopsOn capacity committed now shrunk (G.outside base.old) [] (G.outside base.new)) }
    ensures still { (capacity : ℕ) → G.serves base.old capacity → G.taken base.old ≤ capacity → G.serves base.new capacity × (G.taken base.new ≤ capacity) }
    ensures tells { (G.space base.new).tells ≡ (G.space base.old).tells }
    ensures anchor { G.anchor base.new ≡ G.anchor base.old }
    ensures barriers { (G.space base.new).barriers ≡ (G.space base.old).barriers }
    ensures faults { StopFaults (G.failed base.old) (G.space base.old) (G.failed base.new) (G.space base.new) ⊥ result }
    ensures no_many { IsErrOf result Stop.TooMany → ⊥ }
{
    match written_by(command) {
        Some(path) => judge(volume, base, path),
        None => Ok(None),
    }
}

/// The same of the file whose resource fork a command changes.
fn judge_edit<V: Volume, G: Ground>(
    volume: &mut V,
    base: &mut G,
    edit: &KindEdit,
) -> Result<Option<SessionReply>, Stop>
    requires serves { (capacity : ℕ) × G.serves base.old capacity × (G.taken base.old ≤ capacity) }
    requires stands { IsTrue (G.space base.old).tells → SomeStands (V.knows volume.old (G.space base.old)) (G.space base.old) (G.outside base.old) }
    requires fits { FitsEdit edit.now }
    ensures goes { IsTrue (G.space base.old).tells → (capacity : ℕ) (committed now : Content) (shrunk : Option ℕ) → Stands (V.knows volume.old (G.space base.old) capacity) committed now shrunk (G.space base.old) (G.outside base.old)
        → IfOk result (λ said. HasJudged (written_by_edit edit.now) capacity (V.knows volume.new (G.space base.new) capacity) committed now (G.outside base.old) shrunk (G.space base.new) (G.outside base.new) said) }
    ensures stops { IsTrue (G.space base.old).tells → (capacity : ℕ) (committed now : Content) (shrunk : Option ℕ) → Stands (V.knows volume.old (G.space base.old) capacity) committed now shrunk (G.space base.old) (G.outside base.old)
        → OnErr result (StopsOn capacity committed now shrunk (G.outside base.old) [] (G.outside base.new)) }
    ensures still { (capacity : ℕ) → G.serves base.old capacity → G.taken base.old ≤ capacity → G.serves base.new capacity × (G.taken base.new ≤ capacity) }
    ensures tells { (G.space base.new).tells ≡ (G.space base.old).tells }
    ensures anchor { G.anchor base.new ≡ G.anchor base.old }
    ensures barriers { (G.space base.new).barriers ≡ (G.space base.old).barriers }
    ensures faults { StopFaults (G.failed base.old) (G.space base.old) (G.failed base.new) (G.space base.new) ⊥ result }
    ensures no_many { IsErrOf result Stop.TooMany → ⊥ }
{
    match written_by_edit(edit) {
        Some(path) => judge(volume, base, path),
        None => Ok(None),
    }
}

/// What a line is told that would write to the file of this path and is refused: that macOS keeps it compressed, or that memory was missing to find
/// that out.
fn judge<V: Volume, G: Ground>(
    volume: &mut V,
    base: &mut G,
    path: &Path,
) -> Result<Option<SessionReply>, Stop>
    requires serves { (capacity : ℕ) × G.serves base.old capacity × (G.taken base.old ≤ capacity) }
    requires stands { IsTrue (G.space base.old).tells → SomeStands (V.knows volume.old (G.space base.old)) (G.space base.old) (G.outside base.old) }
    requires fits { FitsPath path.now }
    ensures goes { IsTrue (G.space base.old).tells → (capacity : ℕ) (committed now : Content) (shrunk : Option ℕ) → Stands (V.knows volume.old (G.space base.old) capacity) committed now shrunk (G.space base.old) (G.outside base.old)
        → IfOk result (λ said. HasJudged (Some path.now) capacity (V.knows volume.new (G.space base.new) capacity) committed now (G.outside base.old) shrunk (G.space base.new) (G.outside base.new) said) }
    ensures stops { IsTrue (G.space base.old).tells → (capacity : ℕ) (committed now : Content) (shrunk : Option ℕ) → Stands (V.knows volume.old (G.space base.old) capacity) committed now shrunk (G.space base.old) (G.outside base.old)
        → OnErr result (StopsOn capacity committed now shrunk (G.outside base.old) [] (G.outside base.new)) }
    ensures still { (capacity : ℕ) → G.serves base.old capacity → G.taken base.old ≤ capacity → G.serves base.new capacity × (G.taken base.new ≤ capacity) }
    ensures tells { (G.space base.new).tells ≡ (G.space base.old).tells }
    ensures anchor { G.anchor base.new ≡ G.anchor base.old }
    ensures barriers { (G.space base.new).barriers ≡ (G.space base.old).barriers }
    ensures faults { StopFaults (G.failed base.old) (G.space base.old) (G.failed base.new) (G.space base.new) ⊥ result }
    ensures no_many { IsErrOf result Stop.TooMany → ⊥ }
{
    match volume.is_compressed(base, path) {
        Ok(compressed) => Ok(refusal_if(compressed)),
        Err(Trouble::Memory) => Ok(Some(SessionReply::Plain(Reply::No(Refusal::OutOfMemory)))),
        Err(Trouble::Disk) => Err(Stop::Disk),
    }
}

/// What a line is told that would write to a file that is compressed, or isn't.
fn refusal_if(compressed: bool) -> Option<SessionReply>
    ensures { result ≡ (if compressed then Some told.Compressed else None) }
{
    if compressed {
        Some(SessionReply::Compressed)
    } else {
        None
    }
}

/// The path of the file whose data a command changes.
fn written_by(command: &Command) -> Option<&Path>
    requires fits { FitsCommand command.now }
    ensures path { IfSome result (λ path. written_by command.now ≡ Some path.now) }
    ensures none { IfNone result (written_by command.now ≡ None) }
    ensures fits { IfSome result (λ path. FitsPath path.now) }
{
    match command {
        Command::Write { path, .. } => Some(path),
        Command::Trunc { path, .. } => Some(path),
        _ => None,
    }
}

/// The path of the file whose resource fork a command changes.
fn written_by_edit(edit: &KindEdit) -> Option<&Path>
    requires fits { FitsEdit edit.now }
    ensures path { IfSome result (λ path. written_by_edit edit.now ≡ Some path.now) }
    ensures none { IfNone result (written_by_edit edit.now ≡ None) }
    ensures fits { IfSome result (λ path. FitsPath path.now) }
{
    match edit {
        KindEdit::ResourceWrite { path, .. } => Some(path),
        _ => None,
    }
}
