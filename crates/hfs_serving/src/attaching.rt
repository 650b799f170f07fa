//! A volume that comes into service, and the begin of its run.
ghost use Rattle.std.specs.Prelude.{◌≡◌, ◌≤◌, ℕ, None, IsTrue, IfOk, OnOk, ◌+◌};
ghost use Rattle.jnl_format.specs.Recovery.{Content};
ghost use Rattle.hfs_serving.specs.Faults.{Faults};
ghost use Rattle.hfs_serving.specs.Attaching.{MayAttach, SomeAttach};
ghost use Rattle.hfs_serving.specs.Beginning.{BeginsRun, MayBegin};

use crate::basis::Ground;
use crate::starting::begin_run;
use crate::volume::Volume;
use hx_bytes::Trouble;
use std::alloc::Global;

/// The volume that a ground holds, whose run is begun: it is read, and then the header's mark of a mount is committed.
pub fn attach_volume<V: Volume, G: Ground>(
    alloc: Global,
    base: &mut G,
    capacity: u64,
) -> Result<V, Trouble>
    requires serves { G.serves base.old capacity × (G.taken base.old ≡ 0) }
    requires room { capacity ≤ (G.space base.old).spare }
    requires stands { IsTrue (G.space base.old).tells → SomeAttach (G.space base.old) (G.outside base.old) }
    // Whatever ends it, a crash leaves the content as it was, or with the mark.
    ensures may { IsTrue (G.space base.old).tells → (now : Content) → MayAttach now (G.space base.old) (G.outside base.old) → MayBegin now (G.outside base.old) (G.outside base.new) }
    // At Ok the mark is committed, and the volume stands for the content with it.
    ensures begins { IsTrue (G.space base.old).tells → (now : Content) → MayAttach now (G.space base.old) (G.outside base.old)
        → IfOk result (λ volume. BeginsRun capacity (V.knows volume (G.space base.new) capacity) now None (G.outside base.old) (G.space base.new) (G.outside base.new)) }
    ensures still { OnOk result (G.serves base.new capacity × (G.taken base.new ≡ 0)) }
    ensures tells { OnOk result ((G.space base.new).tells ≡ (G.space base.old).tells) }
    ensures anchor { G.anchor base.new ≡ G.anchor base.old }
    ensures barriers { (G.space base.new).barriers ≤ (G.space base.old).barriers + 4 }
    ensures faults { Faults (G.failed base.old) (G.space base.old) (G.failed base.new) (G.space base.new) result }
{
    let mut volume = V::attach(alloc, base, capacity)?;
    begin_run(&mut volume, base)?;
    Ok(volume)
}
