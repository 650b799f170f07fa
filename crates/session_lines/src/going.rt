//! The stages of a line, one after the other.
ghost use Rattle.std.specs.Prelude.{◌≡◌, ◌≤◌, [], ℕ, None, Option, IsTrue, IsErrOf, IfOk, OnErr, OnOk, false};
ghost use Rattle.jnl_format.specs.Recovery.{Content};
ghost use Rattle.hfs_serving.specs.Commits.{HaveCauses, SomeWantsAt};
ghost use Rattle.hfs_serving.specs.Faults.{StopFaults};
ghost use Rattle.hfs_serving.specs.Going.{SomeStands, Stands, StopsOn};
ghost use Rattle.session_lines.specs.Doing.{StopsGoing, WentOn, WentOnce};
ghost use Rattle.session_lines.specs.Stages.{FitsStage, command_at};

use crate::quiet::quietly;
use crate::stages::Stage;
use hfs_language::{Refusal, Reply};
use hfs_serving::{Ground, Stop, Volume};
use hx_bytes::OutOfMemory;
use open_files::Table;
use std::alloc::Global;

/// No line has as many stages.
const MOST_STAGES: u32 = 16;

/// Does what a line asks for at one stage after the other, until it asks for nothing more of which nothing is told.
pub fn go_on<V: Volume, G: Ground>(
    alloc: Global,
    volume: &mut V,
    base: &mut G,
    number: u64,
    table: &Table,
    stage: &mut Stage,
) -> Result<(), Stop>
    requires serves { (capacity : ℕ) × G.serves base.old capacity × (G.taken base.old ≤ capacity) }
    requires stands { IsTrue (G.space base.old).tells → SomeStands (V.knows volume.old (G.space base.old)) (G.space base.old) (G.outside base.old) }
    requires fits { FitsStage stage.old }
    ensures goes { IsTrue (G.space base.old).tells → (capacity : ℕ) (committed now : Content) (shrunk : Option ℕ) → Stands (V.knows volume.old (G.space base.old) capacity) committed now shrunk (G.space base.old) (G.outside base.old)
        → OnOk result (WentOn capacity (V.knows volume.new (G.space base.new) capacity) committed now shrunk (G.outside base.old) table.now stage.old stage.new (G.space base.new) (G.outside base.new)) }
    ensures ended { OnOk result (command_at stage.new ≡ None) }
    ensures stops { IsTrue (G.space base.old).tells → (capacity : ℕ) (committed now : Content) (shrunk : Option ℕ) → Stands (V.knows volume.old (G.space base.old) capacity) committed now shrunk (G.space base.old) (G.outside base.old)
        → OnErr result (StopsGoing capacity committed now shrunk (G.outside base.old) table.now stage.old (G.outside base.new)) }
    ensures still { (capacity : ℕ) → G.serves base.old capacity → G.taken base.old ≤ capacity → OnOk result (G.serves base.new capacity × (G.taken base.new ≤ capacity)) }
    ensures tells { OnOk result ((G.space base.new).tells ≡ (G.space base.old).tells) }
    ensures anchor { G.anchor base.new ≡ G.anchor base.old }
    // A commit is made where a step of housekeeping or of a command wanted it, or where memory was missing for it.
    ensures caused { IsTrue (G.space base.old).tells → HaveCauses (SomeWantsAt V.wants G.space) 144 (G.space base.old).barriers (G.space base.new).barriers }
    ensures faults { StopFaults (G.failed base.old) (G.space base.old) (G.failed base.new) (G.space base.new) ⊥ result }
    ensures no_many { IsErrOf result Stop.TooMany → ⊥ }
{
    for _step in 0..MOST_STAGES {
        if !go_once(alloc, volume, base, number, table, stage)? {
            return Ok(());
        }
    }
    Err(Stop::Steps)
}

/// Does what a line asks for at its stage. Answers whether it asked for anything.
fn go_once<V: Volume, G: Ground>(
    alloc: Global,
    volume: &mut V,
    base: &mut G,
    number: u64,
    table: &Table,
    stage: &mut Stage,
) -> Result<bool, Stop>
    requires serves { (capacity : ℕ) × G.serves base.old capacity × (G.taken base.old ≤ capacity) }
    requires stands { IsTrue (G.space base.old).tells → SomeStands (V.knows volume.old (G.space base.old)) (G.space base.old) (G.outside base.old) }
    requires fits { FitsStage stage.old }
    ensures goes { IsTrue (G.space base.old).tells → (capacity : ℕ) (committed now : Content) (shrunk : Option ℕ) → Stands (V.knows volume.old (G.space base.old) capacity) committed now shrunk (G.space base.old) (G.outside base.old)
        → OnOk result (WentOnce capacity (V.knows volume.new (G.space base.new) capacity) committed now shrunk (G.outside base.old) table.now stage.old stage.new ((volume.new ≡ volume.old) × (base.new ≡ base.old)) (G.space base.new) (G.outside base.new)) }
    ensures ended { IfOk result (λ asked. asked ≡ false → command_at stage.new ≡ None) }
    ensures fits { OnOk result (FitsStage stage.new) }
    ensures stops { IsTrue (G.space base.old).tells → (capacity : ℕ) (committed now : Content) (shrunk : Option ℕ) → Stands (V.knows volume.old (G.space base.old) capacity) committed now shrunk (G.space base.old) (G.outside base.old)
        → OnErr result (StopsOn capacity committed now shrunk (G.outside base.old) [] (G.outside base.new)) }
    ensures still { (capacity : ℕ) → G.serves base.old capacity → G.taken base.old ≤ capacity → OnOk result (G.serves base.new capacity × (G.taken base.new ≤ capacity)) }
    ensures tells { OnOk result ((G.space base.new).tells ≡ (G.space base.old).tells) }
    ensures anchor { G.anchor base.new ≡ G.anchor base.old }
    ensures caused { IsTrue (G.space base.old).tells → HaveCauses (SomeWantsAt V.wants G.space) 9 (G.space base.old).barriers (G.space base.new).barriers }
    ensures faults { StopFaults (G.failed base.old) (G.space base.old) (G.failed base.new) (G.space base.new) ⊥ result }
    ensures no_many { IsErrOf result Stop.TooMany → ⊥ }
{
    match stage.asks(alloc) {
        Ok(Some(command)) => {
            let said = quietly(alloc, volume, base, number, command)?;
            stage.hear(table, said);
            Ok(true)
        }
        Ok(None) => Ok(false),
        Err(OutOfMemory) => {
            stage.hear(table, Reply::No(Refusal::OutOfMemory));
            Ok(true)
        }
    }
}
