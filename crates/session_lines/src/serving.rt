//! A line of a session, served.
ghost use Rattle.std.specs.Prelude.{◌≡◌, ◌≤◌, ℕ, Bool, Option, IsTrue, IsErrOf, IfOk, List, OnErr, OnOk, false, true};
ghost use Rattle.jnl_format.specs.Recovery.{Content};
ghost use Rattle.hfs_serving.specs.Commits.{HaveCauses, IsLeft, SomeWantsAt};
ghost use Rattle.hfs_serving.specs.Faults.{StopFaults};
ghost use Rattle.hfs_serving.specs.Going.{SomeStands, Stands, line_if};
ghost use Rattle.hfs_serving.specs.Speaking.{SpeaksLine, StopsSpeaking};
ghost use Rattle.open_files.specs.Keeping.{is_keeping_path};
ghost use Rattle.session_lines.specs.Turns.{AsksFor, BrokenSessions, spoke_at};
ghost use Rattle.session_lines.specs.Writing.{TellsOf, WritesTo};

use crate::answering::tell;
use crate::asking::ask_line;
use crate::ending::{close_line, end_line};
use crate::errands::{Errand, errand_of};
use crate::laws::ids_stay_few;
use crate::linking::look_line;
use crate::reading::read_line;
use crate::writing::{act_unless_compressed, edit_unless_compressed};
use hfs_serving::{Ground, Stop, ToTell, Volume};
use hfs_volume::step_keeps_trees;
use line_source::Line;
use open_files::Table;
use std::alloc::Global;

/// Serves a line where these files are open. A line with nothing to be done ahead of its command, which isn't the first of its batch and wants a commit
/// before it, is left. Answers whether it was served.
#[allow(clippy::too_many_arguments)]
pub(crate) fn serve<V: Volume, G: Ground>(
    alloc: Global,
    volume: &mut V,
    base: &mut G,
    number: u64,
    table: &mut Table,
    line: &Line,
    first: bool,
    told: &mut ToTell,
) -> Result<bool, Stop>
    requires serves { (capacity : ℕ) × G.serves base.old capacity × (G.taken base.old ≤ capacity) }
    requires stands { IsTrue (G.space base.old).tells → SomeStands (V.knows volume.old (G.space base.old)) (G.space base.old) (G.outside base.old) }
    ensures goes { IsTrue (G.space base.old).tells → (capacity : ℕ) (committed now : Content) (shrunk : Option ℕ) → Stands (V.knows volume.old (G.space base.old) capacity) committed now shrunk (G.space base.old) (G.outside base.old)
        → IfOk result (λ served. SpeaksLine served capacity (V.knows volume.new (G.space base.new) capacity) committed now shrunk (G.outside base.old) number (spoke_at table.old) (spoke_at table.new) line.now told.old told.new (G.space base.new) (G.outside base.new)) }
    ensures stops { IsTrue (G.space base.old).tells → (capacity : ℕ) (committed now : Content) (shrunk : Option ℕ) → Stands (V.knows volume.old (G.space base.old) capacity) committed now shrunk (G.space base.old) (G.outside base.old)
        → OnErr result ((begun : Bool) × StopsSpeaking capacity committed now shrunk (G.outside base.old) number (spoke_at table.old) BrokenSessions (line_if begun line.now) (G.outside base.new)) }
    // Where it would change bytes of a file, the line is told that the file is compressed just where its record says so.
    ensures judged { IsTrue (G.space base.old).tells → (capacity : ℕ) (committed now : Content) (shrunk : Option ℕ) → Stands (V.knows volume.old (G.space base.old) capacity) committed now shrunk (G.space base.old) (G.outside base.old)
        → (path : List (List ℕ)) → WritesTo line.now path → is_keeping_path path ≡ false → IfOk result (λ served. served ≡ true → TellsOf now path told.old told.new) }
    ensures still { (capacity : ℕ) → G.serves base.old capacity → G.taken base.old ≤ capacity → OnOk result (G.serves base.new capacity × (G.taken base.new ≤ capacity)) }
    ensures tells { OnOk result ((G.space base.new).tells ≡ (G.space base.old).tells) }
    ensures anchor { G.anchor base.new ≡ G.anchor base.old }
    ensures caused { IsTrue (G.space base.old).tells → HaveCauses (SomeWantsAt V.wants G.space) 37008 (G.space base.old).barriers (G.space base.new).barriers }
    // It is left only where it isn't the first and the volume wants a commit before its command.
    ensures left { IsTrue (G.space base.old).tells → IfOk result (λ served. served ≡ false → (first ≡ false) × IsLeft AsksFor V.wants G.space line.now) }
    ensures faults { StopFaults (G.failed base.old) (G.space base.old) (G.failed base.new) (G.space base.new) ⊥ result }
    ensures no_many { IsErrOf result Stop.TooMany → ⊥ }
{
    step_keeps_trees();
    ids_stay_few();
    match errand_of(alloc, table, line) {
        Errand::Says(reply) => {
            tell(alloc, &reply, told)?;
            Ok(true)
        }
        Errand::Asks { session, stage } => {
            ask_line(alloc, volume, base, number, table, session, stage, told)?;
            Ok(true)
        }
        Errand::Does { command, stage } => {
            act_unless_compressed(
                alloc, volume, base, number, table, command, stage, first, told,
            )
        }
        Errand::Reads { id, from, length } => {
            read_line(alloc, volume, base, table, id, from, length, told)?;
            Ok(true)
        }
        Errand::Closes { session, handle } => {
            close_line(alloc, volume, base, number, table, session, handle, told)?;
            Ok(true)
        }
        Errand::Ends { session } => {
            end_line(alloc, volume, base, number, table, session, told)?;
            Ok(true)
        }
        Errand::Edits(edit) => edit_unless_compressed(
            alloc, volume, base, number, table, edit, first, told,
        ),
        Errand::Looks(look) => {
            look_line(alloc, volume, base, table, &look, told)?;
            Ok(true)
        }
    }
}
