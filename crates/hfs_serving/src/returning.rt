//! Where memory is missing behind a keep, a volume comes back to what it stood for there.
ghost use Rattle.std.specs.Prelude.{◌≡◌, ◌≤◌, [], ℕ, Option, IsTrue, OnErr, OnOk, ◌+◌};
ghost use Rattle.jnl_format.specs.Recovery.{Content};
ghost use Rattle.hfs_serving.specs.Faults.{Faults};
ghost use Rattle.hfs_serving.specs.Going.{StopsOn};
ghost use Rattle.hfs_serving.specs.Trying.{ComesBack, FallsShort};

use crate::basis::Ground;
use crate::volume::{Recalled, Volume};
use hx_bytes::Trouble;

/// Drops what was put since the last keep, makes durable what was put before it, and brings the volume into service anew.
pub(crate) fn come_back<V: Volume, G: Ground>(
    volume: &mut V,
    base: &mut G,
    recalled: Recalled,
) -> Result<(), Trouble>
    requires serves { (capacity : ℕ) × G.serves base.old capacity }
    requires short { IsTrue (G.space base.old).tells → (begun : G) × (kept : G) × (most : ℕ) × (capacity : ℕ) × (committed : Content) × (now : Content) × (shrunk : Option ℕ) × G.serves kept most × G.keeps kept × G.follows kept base.old
        × FallsShort recalled capacity committed now shrunk (G.anchor base.old).journal (G.space begun) (G.outside begun) (G.space kept) (G.outside kept) (G.space base.old) (G.outside base.old) }
    ensures back { IsTrue (G.space base.old).tells → (begun kept : G) (most capacity : ℕ) (committed now : Content) (shrunk : Option ℕ) → G.serves kept most → G.keeps kept → G.follows kept base.old
        → FallsShort recalled capacity committed now shrunk (G.anchor base.old).journal (G.space begun) (G.outside begun) (G.space kept) (G.outside kept) (G.space base.old) (G.outside base.old)
        → OnOk result (ComesBack capacity (V.knows volume.new (G.space base.new) capacity) committed now shrunk (G.outside begun) (G.space base.new) (G.outside base.new)) }
    ensures stops { IsTrue (G.space base.old).tells → (begun kept : G) (most capacity : ℕ) (committed now : Content) (shrunk : Option ℕ) → G.serves kept most → G.keeps kept → G.follows kept base.old
        → FallsShort recalled capacity committed now shrunk (G.anchor base.old).journal (G.space begun) (G.outside begun) (G.space kept) (G.outside kept) (G.space base.old) (G.outside base.old)
        → OnErr result (StopsOn capacity committed now shrunk (G.outside begun) [] (G.outside base.new)) }
    ensures still { (capacity : ℕ) → G.serves base.old capacity → OnOk result (G.serves base.new capacity × (G.taken base.new ≤ capacity)) }
    ensures tells { OnOk result ((G.space base.new).tells ≡ (G.space base.old).tells) }
    ensures anchor { G.anchor base.new ≡ G.anchor base.old }
    // The disk passes the barriers of one commit, four at most.
    ensures barriers { (G.space base.new).barriers ≤ (G.space base.old).barriers + 4 }
    ensures faults { Faults (G.failed base.old) (G.space base.old) (G.failed base.new) (G.space base.new) result }
{
    base.undo();
    base.look();
    base.commit()?;
    base.look();
    volume.renew(base, recalled)?;
    Ok(())
}
