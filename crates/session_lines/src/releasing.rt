//! Files that an earlier run kept are released ahead of the first line.
ghost use Rattle.std.specs.Prelude.{◌≡◌, ◌≤◌, ◌*◌, ◌^◌, [], ℕ, Option, IsTrue, IsErrOf, OnErr, OnOk};
ghost use Rattle.jnl_format.specs.Recovery.{Content};
ghost use Rattle.hfs_serving.specs.Commits.{HaveCauses, SomeWantsAt};
ghost use Rattle.hfs_serving.specs.Faults.{StopFaults};
ghost use Rattle.hfs_serving.specs.Going.{SomeStands, Stands};
ghost use Rattle.hfs_serving.specs.Said.{untold};
ghost use Rattle.hfs_serving.specs.Speaking.{SpeaksOn, StopsSpeaking};
ghost use Rattle.session_lines.specs.Turns.{BrokenSessions, spoke_with};

use crate::going::go_on;
use crate::laws::ids_stay_few;
use crate::stages::Stage;
use hfs_serving::{Ground, Stop, Volume};
use hfs_volume::step_keeps_trees;
use open_files::Table;
use std::alloc::Global;

/// No folder holds as many files: each has a CNID of 32 bits.
const MOST_LEFT: u32 = 4_294_967_295;

/// Releases these files, the last one first. `Steps` comes where there are too many.
pub(crate) fn release_all<V: Volume, G: Ground>(
    alloc: Global,
    volume: &mut V,
    base: &mut G,
    table: &Table,
    left: &mut Vec<u32>,
) -> Result<(), Stop>
    requires serves { (capacity : ℕ) × G.serves base.old capacity × (G.taken base.old ≤ capacity) }
    requires stands { IsTrue (G.space base.old).tells → SomeStands (V.knows volume.old (G.space base.old)) (G.space base.old) (G.outside base.old) }
    ensures goes { IsTrue (G.space base.old).tells → (capacity : ℕ) (committed now : Content) (shrunk : Option ℕ) (number : ℕ) → Stands (V.knows volume.old (G.space base.old) capacity) committed now shrunk (G.space base.old) (G.outside base.old)
        → OnOk result (SpeaksOn capacity (V.knows volume.new (G.space base.new) capacity) committed now shrunk (G.outside base.old) number (spoke_with table.now left.old.items) (spoke_with table.now left.new.items) [] untold (G.space base.new) (G.outside base.new)) }
    ensures stops { IsTrue (G.space base.old).tells → (capacity : ℕ) (committed now : Content) (shrunk : Option ℕ) (number : ℕ) → Stands (V.knows volume.old (G.space base.old) capacity) committed now shrunk (G.space base.old) (G.outside base.old)
        → OnErr result (StopsSpeaking capacity committed now shrunk (G.outside base.old) number (spoke_with table.now left.old.items) BrokenSessions [] (G.outside base.new)) }
    ensures still { (capacity : ℕ) → G.serves base.old capacity → G.taken base.old ≤ capacity → OnOk result (G.serves base.new capacity × (G.taken base.new ≤ capacity)) }
    ensures tells { OnOk result ((G.space base.new).tells ≡ (G.space base.old).tells) }
    ensures anchor { G.anchor base.new ≡ G.anchor base.old }
    ensures caused { IsTrue (G.space base.old).tells → HaveCauses (SomeWantsAt V.wants G.space) (144 * 2 ^ 32) (G.space base.old).barriers (G.space base.new).barriers }
    ensures faults { StopFaults (G.failed base.old) (G.space base.old) (G.failed base.new) (G.space base.new) ⊥ result }
    ensures no_many { IsErrOf result Stop.TooMany → ⊥ }
    ensures none { OnOk result (left.new.items ≡ []) }
{
    step_keeps_trees();
    ids_stay_few();
    for _round in 0..MOST_LEFT {
        match left.pop() {
            Some(id) => {
                let mut stage = Stage::Releasing(id);
                go_on(alloc, volume, base, 0, table, &mut stage)?;
            }
            None => return Ok(()),
        }
    }
    Err(Stop::Steps)
}
