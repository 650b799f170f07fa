//! Lines that read an open file by its handle.
ghost use Rattle.std.specs.Prelude.{◌≡◌, ◌≤◌, [], ℕ, Bool, List, Option, IsTrue, IsErrOf, IfOk, OnErr, OnOk, true};
ghost use Rattle.jnl_format.specs.Recovery.{Content};
ghost use Rattle.hfs_serving.specs.Faults.{StopFaults};
ghost use Rattle.hfs_serving.specs.Going.{SomeStands, Stands, line_if};
ghost use Rattle.hfs_serving.specs.Serving.{Stops};
ghost use Rattle.hfs_serving.specs.Speaking.{SpeaksLine, StopsSpeaking};
ghost use Rattle.session_lines.specs.declared.errands.Errand.TheVariants as errand;
ghost use Rattle.session_lines.specs.Errands.{IsErrandOf};
ghost use Rattle.session_lines.specs.Readings.{HasRead};
ghost use Rattle.session_lines.specs.Turns.{BrokenSessions, spoke_at};

use crate::answering::tell;
use crate::laws::ids_stay_few;
use hfs_language::{Refusal, Reply};
use hfs_serving::{Ground, Stop, ToTell, Volume};
use hfs_volume::step_keeps_trees;
use hx_bytes::Trouble;
use open_files::{SessionReply, Table};
use std::alloc::Global;

/// Reads bytes of an open file and tells them.
#[allow(clippy::too_many_arguments)]
pub(crate) fn read_line<V: Volume, G: Ground>(
    alloc: Global,
    volume: &mut V,
    base: &mut G,
    table: &Table,
    id: u32,
    from: u64,
    length: u32,
    told: &mut ToTell,
) -> Result<(), Stop>
    requires serves { (capacity : ℕ) × G.serves base.old capacity × (G.taken base.old ≤ capacity) }
    requires stands { IsTrue (G.space base.old).tells → SomeStands (V.knows volume.old (G.space base.old)) (G.space base.old) (G.outside base.old) }
    requires comes { (line : List ℕ) × IsErrandOf table.now line (errand.Reads id from length) }
    ensures goes { IsTrue (G.space base.old).tells → (capacity : ℕ) (committed now : Content) (shrunk : Option ℕ) (number : ℕ) → Stands (V.knows volume.old (G.space base.old) capacity) committed now shrunk (G.space base.old) (G.outside base.old)
        → (line : List ℕ) → IsErrandOf table.now line (errand.Reads id from length)
        → OnOk result (SpeaksLine true capacity (V.knows volume.new (G.space base.new) capacity) committed now shrunk (G.outside base.old) number (spoke_at table.now) (spoke_at table.now) line told.old told.new (G.space base.new) (G.outside base.new)) }
    ensures stops { IsTrue (G.space base.old).tells → (capacity : ℕ) (committed now : Content) (shrunk : Option ℕ) (number : ℕ) → Stands (V.knows volume.old (G.space base.old) capacity) committed now shrunk (G.space base.old) (G.outside base.old)
        → (line : List ℕ) → OnErr result ((begun : Bool) × StopsSpeaking capacity committed now shrunk (G.outside base.old) number (spoke_at table.now) BrokenSessions (line_if begun line) (G.outside base.new)) }
    ensures still { (capacity : ℕ) → G.serves base.old capacity → G.taken base.old ≤ capacity → OnOk result (G.serves base.new capacity × (G.taken base.new ≤ capacity)) }
    ensures tells { OnOk result ((G.space base.new).tells ≡ (G.space base.old).tells) }
    ensures anchor { G.anchor base.new ≡ G.anchor base.old }
    ensures barriers { (G.space base.new).barriers ≡ (G.space base.old).barriers }
    ensures faults { StopFaults (G.failed base.old) (G.space base.old) (G.failed base.new) (G.space base.new) ⊥ result }
    ensures no_many { IsErrOf result Stop.TooMany → ⊥ }
{
    step_keeps_trees();
    ids_stay_few();
    let reply = read(volume, base, id, from, length)?;
    tell(alloc, &SessionReply::Plain(reply), told)?;
    Ok(())
}

/// The reply of bytes that are read.
fn read<V: Volume, G: Ground>(
    volume: &mut V,
    base: &mut G,
    id: u32,
    from: u64,
    length: u32,
) -> Result<Reply, Stop>
    requires serves { (capacity : ℕ) × G.serves base.old capacity × (G.taken base.old ≤ capacity) }
    requires stands { IsTrue (G.space base.old).tells → SomeStands (V.knows volume.old (G.space base.old)) (G.space base.old) (G.outside base.old) }
    requires few { length ≤ 65536 }
    ensures goes { IsTrue (G.space base.old).tells → (capacity : ℕ) (committed now : Content) (shrunk : Option ℕ) → Stands (V.knows volume.old (G.space base.old) capacity) committed now shrunk (G.space base.old) (G.outside base.old)
        → IfOk result (HasRead id from length capacity (V.knows volume.new (G.space base.new) capacity) committed now shrunk (G.outside base.old) (G.space base.new) (G.outside base.new)) }
    ensures stops { IsTrue (G.space base.old).tells → (capacity : ℕ) (committed now : Content) (shrunk : Option ℕ) → Stands (V.knows volume.old (G.space base.old) capacity) committed now shrunk (G.space base.old) (G.outside base.old)
        → OnErr result (Stops capacity shrunk committed now (G.outside base.old) [] (G.outside base.new)) }
    ensures still { (capacity : ℕ) → G.serves base.old capacity → G.taken base.old ≤ capacity → G.serves base.new capacity × (G.taken base.new ≤ capacity) }
    ensures tells { (G.space base.new).tells ≡ (G.space base.old).tells }
    ensures anchor { G.anchor base.new ≡ G.anchor base.old }
    ensures barriers { (G.space base.new).barriers ≡ (G.space base.old).barriers }
    ensures faults { StopFaults (G.failed base.old) (G.space base.old) (G.failed base.new) (G.space base.new) ⊥ result }
    ensures no_many { IsErrOf result Stop.TooMany → ⊥ }
{
    match volume.read_id(base, id, from, length) {
        Ok(Some(bytes)) => Ok(Reply::Content(bytes)),
        // (an open file has an entry)
        Ok(None) => Ok(Reply::No(Refusal::NotFound)),
        Err(Trouble::Memory) => Ok(Reply::No(Refusal::OutOfMemory)),
        Err(Trouble::Disk) => Err(Stop::Disk),
    }
}
