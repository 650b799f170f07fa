//! Lines that make a symbolic link, or write or read a resource fork.
ghost use Rattle.std.specs.Prelude.{◌≡◌, ◌≤◌, ℕ, Bool, List, Option, IsTrue, IsErrOf, IfOk, OnErr, OnOk, false, true};
ghost use Rattle.jnl_format.specs.Recovery.{Content};
ghost use Rattle.volume_runs.specs.Fits.{FitsEdit};
ghost use Rattle.hfs_serving.specs.Commits.{HaveCauses, IsLeft, SomeWantsAt};
ghost use Rattle.hfs_serving.specs.Faults.{StopFaults};
ghost use Rattle.hfs_serving.specs.Going.{SomeStands, Stands, line_if};
ghost use Rattle.hfs_serving.specs.Speaking.{SpeaksLine, StopsSpeaking};
ghost use Rattle.session_lines.specs.declared.errands.Errand.TheVariants as errand;
ghost use Rattle.session_lines.specs.Errands.{IsKindErrandOf};
ghost use Rattle.session_lines.specs.Turns.{AsksFor, BrokenSessions, spoke_at};
ghost use Rattle.session_lines.specs.Writing.{TellsPlain};

use crate::laws::ids_stay_few;
use crate::own::do_own;
use hfs_model::KindEdit;
use hfs_serving::{Ground, Stop, ToTell, Volume};
use hfs_volume::{Asked, sound_content_has_tree};
use open_files::Table;
use std::alloc::Global;

/// Does what a line asks for on a symbolic link or a resource fork, and tells its reply. Where the line isn't the first of its batch, and wants a commit
/// before anything is done for it, it is left. Answers whether it was served.
#[allow(clippy::too_many_arguments)]
pub(crate) fn edit_line<V: Volume, G: Ground>(
    alloc: Global,
    volume: &mut V,
    base: &mut G,
    number: u64,
    table: &Table,
    edit: KindEdit,
    first: bool,
    told: &mut ToTell,
) -> Result<bool, Stop>
    requires serves { (capacity : ℕ) × G.serves base.old capacity × (G.taken base.old ≤ capacity) }
    requires stands { IsTrue (G.space base.old).tells → SomeStands (V.knows volume.old (G.space base.old)) (G.space base.old) (G.outside base.old) }
    requires fits { FitsEdit edit }
    ensures goes { IsTrue (G.space base.old).tells → (capacity : ℕ) (committed now : Content) (shrunk : Option ℕ) → Stands (V.knows volume.old (G.space base.old) capacity) committed now shrunk (G.space base.old) (G.outside base.old)
        → (line : List ℕ) → IsKindErrandOf line (errand.Edits edit)
        → IfOk result (λ served. SpeaksLine served capacity (V.knows volume.new (G.space base.new) capacity) committed now shrunk (G.outside base.old) number (spoke_at table.now) (spoke_at table.now) line told.old told.new (G.space base.new) (G.outside base.new)) }
    ensures stops { IsTrue (G.space base.old).tells → (capacity : ℕ) (committed now : Content) (shrunk : Option ℕ) → Stands (V.knows volume.old (G.space base.old) capacity) committed now shrunk (G.space base.old) (G.outside base.old)
        → (line : List ℕ) → OnErr result ((begun : Bool) × StopsSpeaking capacity committed now shrunk (G.outside base.old) number (spoke_at table.now) BrokenSessions (line_if begun line) (G.outside base.new)) }
    // What is told is the reply of a command, and what that changed.
    ensures plain { IsTrue (G.space base.old).tells → (capacity : ℕ) (committed now : Content) (shrunk : Option ℕ) → Stands (V.knows volume.old (G.space base.old) capacity) committed now shrunk (G.space base.old) (G.outside base.old)
        → IfOk result (λ served. served ≡ true → TellsPlain told.old told.new) }
    ensures still { (capacity : ℕ) → G.serves base.old capacity → G.taken base.old ≤ capacity → OnOk result (G.serves base.new capacity × (G.taken base.new ≤ capacity)) }
    ensures tells { OnOk result ((G.space base.new).tells ≡ (G.space base.old).tells) }
    ensures anchor { G.anchor base.new ≡ G.anchor base.old }
    ensures caused { IsTrue (G.space base.old).tells → HaveCauses (SomeWantsAt V.wants G.space) 9 (G.space base.old).barriers (G.space base.new).barriers }
    // It is left only where it isn't the first and the volume wants a commit before it.
    ensures left { IsTrue (G.space base.old).tells → (line : List ℕ) → IsKindErrandOf line (errand.Edits edit) → IfOk result (λ served. served ≡ false → (first ≡ false) × IsLeft AsksFor V.wants G.space line) }
    ensures faults { StopFaults (G.failed base.old) (G.space base.old) (G.failed base.new) (G.space base.new) ⊥ result }
    ensures no_many { IsErrOf result Stop.TooMany → ⊥ }
{
    sound_content_has_tree();
    ids_stay_few();
    let asked = Asked::Kind(edit);
    do_own(alloc, volume, base, number, &asked, !first, told)
}
