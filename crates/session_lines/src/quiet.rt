//! Commands of which nothing is told.
ghost use Rattle.std.specs.Prelude.{◌≡◌, ◌≤◌, [], ℕ, Option, IsTrue, IsErrOf, IfOk, OnErr, OnOk};
ghost use Rattle.jnl_format.specs.Recovery.{Content};
ghost use Rattle.hfs_language.specs.Written.{FitsCommand};
ghost use Rattle.hfs_volume.specs.declared.asked.Asked.TheVariants.{Plain};
ghost use Rattle.hfs_serving.specs.Commits.{HaveCauses, SomeWantsAt};
ghost use Rattle.hfs_serving.specs.Faults.{StopFaults};
ghost use Rattle.hfs_serving.specs.Going.{SomeStands, Stands, StopsOn};
ghost use Rattle.session_lines.specs.Doing.{DidOn};

use crate::silent::Silent;
use hfs_language::{Command, Reply};
use hfs_serving::{Ground, Stop, Volume, come_to_rest, serve_command};
use hfs_volume::Asked;
use std::alloc::Global;

/// Does a command behind housekeeping, and answers its reply. `Steps` comes where its steps are used up.
pub fn quietly<V: Volume, G: Ground>(
    alloc: Global,
    volume: &mut V,
    base: &mut G,
    number: u64,
    command: Command,
) -> Result<Reply, Stop>
    requires serves { (capacity : ℕ) × G.serves base.old capacity × (G.taken base.old ≤ capacity) }
    requires stands { IsTrue (G.space base.old).tells → SomeStands (V.knows volume.old (G.space base.old)) (G.space base.old) (G.outside base.old) }
    requires fits { FitsCommand command }
    ensures goes { IsTrue (G.space base.old).tells → (capacity : ℕ) (committed now : Content) (shrunk : Option ℕ) → Stands (V.knows volume.old (G.space base.old) capacity) committed now shrunk (G.space base.old) (G.outside base.old)
        → IfOk result (λ said. DidOn capacity (V.knows volume.new (G.space base.new) capacity) committed now shrunk (G.outside base.old) (Plain command) said (G.space base.new) (G.outside base.new)) }
    ensures stops { IsTrue (G.space base.old).tells → (capacity : ℕ) (committed now : Content) (shrunk : Option ℕ) → Stands (V.knows volume.old (G.space base.old) capacity) committed now shrunk (G.space base.old) (G.outside base.old)
        → OnErr result (StopsOn capacity committed now shrunk (G.outside base.old) [] (G.outside base.new)) }
    ensures still { (capacity : ℕ) → G.serves base.old capacity → G.taken base.old ≤ capacity → OnOk result (G.serves base.new capacity × (G.taken base.new ≤ capacity)) }
    ensures tells { OnOk result ((G.space base.new).tells ≡ (G.space base.old).tells) }
    ensures anchor { G.anchor base.new ≡ G.anchor base.old }
    // A commit is made where a step of housekeeping or of the command wanted it, or where memory was missing for it.
    ensures caused { IsTrue (G.space base.old).tells → HaveCauses (SomeWantsAt V.wants G.space) 9 (G.space base.old).barriers (G.space base.new).barriers }
    ensures faults { StopFaults (G.failed base.old) (G.space base.old) (G.failed base.new) (G.space base.new) ⊥ result }
    ensures no_many { IsErrOf result Stop.TooMany → ⊥ }
{
    come_to_rest(volume, base)?;
    let mut silent = Silent { reply: None };
    let asked = Asked::Plain(command);
    if !serve_command(alloc, volume, base, number, &asked, false, &mut silent)? {
        return Err(Stop::Steps);
    }
    Ok(silent.into_reply())
}
