//! A command on a link or a fork judged before its step: by its weight, and by the room that there is.
ghost use Rattle.std.specs.Prelude.{◌≡◌, false, IsTrue, IfOk};
ghost use Rattle.hfs_volume.specs.KindWeight.{kind_only_reads};
ghost use Rattle.volume_base.specs.Frame.{Looked, Serves};
ghost use Rattle.volume_base.specs.Room.{capacity_of};
ghost use Rattle.volume_links.specs.Judging.{IsKindJudged, KindIsWeighedNow};
ghost use Rattle.volume_runs.specs.Fits.{FitsEdit};

use crate::judging::kind_weigh;
use hfs_model::KindEdit;
use hx_bytes::Trouble;
use sector_disk::SectorSpace;
use std::alloc::Global;
use volume_base::Volume;
use volume_step::{Verdict, verdict_of};

/// Judges a command that changes the volume. Ahead of one that isn't weighed goes a cut.
pub(crate) fn judge<P: SectorSpace>(
    alloc: Global,
    volume: &mut Volume,
    space: &mut P,
    edit: &KindEdit,
) -> Result<Verdict, Trouble>
    requires serves { Serves volume.old (P.SectorView.space space.old) }
    requires fits { FitsEdit edit.now }
    requires changes { kind_only_reads edit.now ≡ false }
    ensures judged { IsTrue (P.SectorView.space space.old).tells → IfOk result (λ verdict. IsKindJudged verdict (capacity_of volume.old) edit.now (P.SectorView.space space.old).content) }
    // It says so of the blocks that may be taken, and of the room.
    ensures now { IsTrue (P.SectorView.space space.old).tells → IfOk result (λ verdict. KindIsWeighedNow verdict volume.old (P.SectorView.space space.old) edit.now) }
    ensures looked { Looked P.SectorView.space P.SectorView.follows volume.old volume.new space.old space.new result }
    ensures serves { Serves volume.new (P.SectorView.space space.new) }
{
    match kind_weigh(volume, alloc, space, edit)? {
        Some(weight) => Ok(verdict_of(weight, space.spare())),
        None => Ok(Verdict::CutFirst),
    }
}
