//! The header's mark of a volume in service.
ghost use Rattle.std.specs.Prelude.{◌≡◌, ◌≤◌, ℕ, Option, Bool, IsTrue, OnOk};
ghost use Rattle.jnl_format.specs.Recovery.{Content};
ghost use Rattle.hfs_serving.specs.Faults.{Faults};
ghost use Rattle.hfs_serving.specs.Going.{Stands};
ghost use Rattle.hfs_serving.specs.Serving.{Touches};
ghost use Rattle.served_volume.specs.Knowing.{Knows};
ghost use Rattle.served_volume.specs.Marking.{IsMarkedAs, SomeKnown};

use crate::served::ServedVolume;
use hfs_serving::Ground;
use hx_bytes::Trouble;
use volume_names::mark;

impl ServedVolume {
    /// Puts the header's mark: the volume is in use, or was unmounted. Where there is no room for a sector, nothing is put, and memory is missing.
    pub(crate) fn put_mark<G: Ground>(&mut self, base: &mut G, in_use: bool) -> Result<(), Trouble>
        requires serves { (capacity : ℕ) × G.serves base.old capacity × (G.taken base.old ≡ 0) }
        requires stands { IsTrue (G.space base.old).tells → SomeKnown self.old.volume (G.space base.old) (G.outside base.old) }
        ensures touches { IsTrue (G.space base.old).tells → (capacity : ℕ) (committed now : Content) (shrunk : Option ℕ) → Stands (λ was is file. Knows self.old.volume capacity was is file (G.space base.old)) committed now shrunk (G.space base.old) (G.outside base.old)
            → Touches committed (G.space base.old) (G.outside base.old) (G.space base.new) (G.outside base.new) }
        ensures marked { IsTrue (G.space base.old).tells → (capacity : ℕ) (committed now : Content) (shrunk : Option ℕ) → Stands (λ was is file. Knows self.old.volume capacity was is file (G.space base.old)) committed now shrunk (G.space base.old) (G.outside base.old)
            → OnOk result (IsMarkedAs in_use self.new.volume capacity committed now shrunk (G.space base.new)) }
        ensures still { (capacity : ℕ) → G.serves base.old capacity → G.taken base.old ≤ capacity → OnOk result (G.serves base.new capacity × (G.taken base.new ≤ capacity)) }
        ensures tells { (G.space base.new).tells ≡ (G.space base.old).tells }
        ensures anchor { G.anchor base.new ≡ G.anchor base.old }
        ensures barriers { (G.space base.new).barriers ≡ (G.space base.old).barriers }
        ensures faults { Faults (G.failed base.old) (G.space base.old) (G.failed base.new) (G.space base.new) result }
    {
        if self.is_elsewhere(base) {
            return Err(Trouble::Memory);
        }
        if base.spare() == 0 {
            return Err(Trouble::Memory);
        }
        mark(&mut self.volume, base, in_use);
        self.volume.filling = None;
        base.look();
        Ok(())
    }
}
