//! The begin of a run.
ghost use Rattle.std.specs.Prelude.{◌≡◌, ◌≤◌, [], ℕ, Option, IsTrue, OnOk, ◌+◌};
ghost use Rattle.jnl_format.specs.Recovery.{Content};
ghost use Rattle.hfs_serving.specs.Faults.{Faults};
ghost use Rattle.hfs_serving.specs.Beginning.{BeginsRun, MayBegin};
ghost use Rattle.hfs_serving.specs.Going.{Stands};
ghost use Rattle.hfs_serving.specs.Runs.{Crashes};
ghost use Rattle.hfs_serving.specs.Steps.{SomeWhole};

use crate::basis::Ground;
use crate::volume::Volume;
use hx_bytes::Trouble;

/// Begins a run before its first line: puts the header's mark of a mount, and commits it.
pub fn begin_run<V: Volume, G: Ground>(volume: &mut V, base: &mut G) -> Result<(), Trouble>
    requires serves { (capacity : ℕ) × G.serves base.old capacity × (G.taken base.old ≡ 0) }
    requires stands { IsTrue (G.space base.old).tells → SomeWhole (V.knows volume.old (G.space base.old)) (G.space base.old) (G.outside base.old) }
    // Whatever ends it, a crash leaves the content as it was, or with the mark.
    ensures crash { IsTrue (G.space base.old).tells → (capacity : ℕ) (start : Content) (shrunk : Option ℕ) → Stands (V.knows volume.old (G.space base.old) capacity) start start shrunk (G.space base.old) (G.outside base.old)
        → Crashes capacity shrunk start (G.outside base.old) [] [] 0 (G.outside base.new) }
    ensures may { IsTrue (G.space base.old).tells → (capacity : ℕ) (start : Content) (shrunk : Option ℕ) → Stands (V.knows volume.old (G.space base.old) capacity) start start shrunk (G.space base.old) (G.outside base.old)
        → MayBegin start (G.outside base.old) (G.outside base.new) }
    // At Ok the mark is committed, and the volume stands for the content with it.
    ensures done { IsTrue (G.space base.old).tells → (capacity : ℕ) (start : Content) (shrunk : Option ℕ) → Stands (V.knows volume.old (G.space base.old) capacity) start start shrunk (G.space base.old) (G.outside base.old)
        → OnOk result (BeginsRun capacity (V.knows volume.new (G.space base.new) capacity) start shrunk (G.outside base.old) (G.space base.new) (G.outside base.new)) }
    ensures still { (capacity : ℕ) → G.serves base.old capacity → G.taken base.old ≡ 0 → OnOk result (G.serves base.new capacity × (G.taken base.new ≡ 0)) }
    ensures tells { OnOk result ((G.space base.new).tells ≡ (G.space base.old).tells) }
    ensures anchor { G.anchor base.new ≡ G.anchor base.old }
    ensures barriers { (G.space base.new).barriers ≤ (G.space base.old).barriers + 4 }
    ensures faults { Faults (G.failed base.old) (G.space base.old) (G.failed base.new) (G.space base.new) result }
{
    volume.mark_mounted(base)?;
    volume.commit(base)?;
    Ok(())
}
