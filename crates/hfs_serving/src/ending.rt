//! The end of a run.
ghost use Rattle.std.specs.Prelude.{◌≡◌, ◌≤◌, ℕ, Option, IsTrue, OnOk, ◌+◌};
ghost use Rattle.jnl_format.specs.Recovery.{Content};
ghost use Rattle.hfs_serving.specs.Faults.{Faults};
ghost use Rattle.hfs_serving.specs.Closing.{Finishes, MayFinish};
ghost use Rattle.hfs_serving.specs.Going.{Stands};
ghost use Rattle.hfs_serving.specs.Grounds.{KeepsHeading};
ghost use Rattle.hfs_serving.specs.Serving.{IsServing};
ghost use Rattle.hfs_serving.specs.Steps.{SomeWhole};

use crate::basis::Ground;
use crate::volume::Volume;
use hx_bytes::Trouble;

/// Ends a run behind its last batch: sets bit 8 of the header's attributes, and commits that.
pub fn end_run<V: Volume, G: Ground>(volume: &mut V, base: &mut G) -> Result<(), Trouble>
    requires serves { (capacity : ℕ) × G.serves base.old capacity × (G.taken base.old ≡ 0) }
    requires stands { IsTrue (G.space base.old).tells → SomeWhole (V.knows volume.old (G.space base.old)) (G.space base.old) (G.outside base.old) }
    // Whatever ends it, a crash leaves the content as it was, or with the mark.
    ensures crash { IsTrue (G.space base.old).tells → (capacity : ℕ) (now : Content) (shrunk : Option ℕ) → Stands (V.knows volume.old (G.space base.old) capacity) now now shrunk (G.space base.old) (G.outside base.old)
        → MayFinish now (G.outside base.old) (G.outside base.new) }
    ensures done { IsTrue (G.space base.old).tells → (capacity : ℕ) (now : Content) (shrunk : Option ℕ) → Stands (V.knows volume.old (G.space base.old) capacity) now now shrunk (G.space base.old) (G.outside base.old)
        → OnOk result ((finishes : Finishes now (G.outside base.old) (G.outside base.new)) × IsServing finishes.ended (G.space base.new) (G.outside base.new)) }
    ensures heads { IsTrue (G.space base.old).tells → OnOk result (KeepsHeading (G.space base.new)) }
    ensures still { (capacity : ℕ) → G.serves base.old capacity → G.taken base.old ≤ capacity → OnOk result (G.serves base.new capacity × (G.taken base.new ≡ 0)) }
    ensures tells { OnOk result ((G.space base.new).tells ≡ (G.space base.old).tells) }
    ensures anchor { G.anchor base.new ≡ G.anchor base.old }
    ensures barriers { (G.space base.new).barriers ≤ (G.space base.old).barriers + 4 }
    ensures faults { Faults (G.failed base.old) (G.space base.old) (G.failed base.new) (G.space base.new) result }
{
    volume.close(base)?;
    volume.commit(base)?;
    Ok(())
}
