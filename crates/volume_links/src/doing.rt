//! An `rwrite` of a byte or more is done, ahead of which nothing goes.
ghost use Rattle.std.specs.Prelude.{◌≡◌, ◌≢◌, ◌<◌, ◌≤◌, ◌+◌, ◌^◌, ℕ, [], ◌∷◌, false, IsTrue, IfOk, OnOk, length};
ghost use Rattle.std.specs.List.{Contains};
ghost use Rattle.hfs_language.specs.Written.{FitsPath};
ghost use Rattle.hfs_model.specs.declared.kinds.KindEdit.TheVariants as edit;
ghost use Rattle.hfs_volume.specs.Aside.{IsJournalSector};
ghost use Rattle.hfs_volume.specs.Content.{volume_of};
ghost use Rattle.hfs_volume.specs.Forks.{resource_kind};
ghost use Rattle.hfs_volume.specs.KindWeight.{kind_data_of};
ghost use Rattle.hfs_volume.specs.TreeOf.{tree_of};
ghost use Rattle.hfs_volume.specs.Weight.{needs_cut_in};
ghost use Rattle.volume_base.specs.Frame.{Serves};
ghost use Rattle.volume_base.specs.Keeping.{shrunk_of};
ghost use Rattle.volume_base.specs.Room.{capacity_of};
ghost use Rattle.volume_base.specs.Standing.{own_sectors};
ghost use Rattle.volume_space.specs.Zeroing.{HasFilled};
ghost use Rattle.volume_step.specs.Performing.{Performs};
ghost use Rattle.volume_step.specs.Steps.{KeepsJournal};
ghost use Rattle.volume_step.specs.declared.outcome.Outcome.TheVariants as outcome;
ghost use Rattle.volume_links.specs.Resources.{IsResourceOf};
ghost use Rattle.volume_links.specs.Steps.{KindAffords, KindStepsNow};
ghost use Rattle.volume_links.specs.Wanting.{KindFitsNow};

use crate::resources::Resource;
use crate::writing::write_resource;
use hfs_language::{ChangeKind, Path, Reply};
use hx_bytes::Trouble;
use sector_disk::SectorSpace;
use std::alloc::Global;
use volume_base::Volume;
use volume_step::Outcome;

/// Puts the bytes of an `rwrite` for which nothing is missing, and says what it changed, for watchers. Where the space tells, no commit comes first.
pub(crate) fn do_resource<P: SectorSpace>(
    alloc: Global,
    volume: &mut Volume,
    space: &mut P,
    number: u64,
    path: &Path,
    fork: Resource,
    from: u64,
    value: &[u8],
) -> Result<Outcome, Trouble>
    requires serves { Serves volume.old (P.SectorView.space space.old) }
    requires filled { HasFilled volume.old (P.SectorView.space space.old) }
    requires fits { FitsPath path.now }
    // Only the journal's sectors are closed.
    requires closed { IsTrue (P.SectorView.space space.old).tells → (at : ℕ) → (P.SectorView.space space.old).closed at → IsJournalSector (P.SectorView.space space.old).content at }
    requires some { 0 < length value.now }
    requires small { from + length value.now ≤ 2 ^ 40 }
    requires there { IsTrue (P.SectorView.space space.old).tells → IsResourceOf (tree_of (P.SectorView.space space.old).content) path.now from value.now fork }
    requires affords { IsTrue (P.SectorView.space space.old).tells → KindAffords (capacity_of volume.old) (edit.ResourceWrite path.now from value.now) (P.SectorView.space space.old).content }
    // No blocks past the fork's size stand in its way, and there is room for it.
    requires uncut { IsTrue (P.SectorView.space space.old).tells → needs_cut_in resource_kind (volume_of (P.SectorView.space space.old).content) (kind_data_of (tree_of (P.SectorView.space space.old).content) (edit.ResourceWrite path.now from value.now)) ≡ false }
    requires now { IsTrue (P.SectorView.space space.old).tells → KindFitsNow (0 ∷ 0 ∷ 0 ∷ []) volume.old (P.SectorView.space space.old) (edit.ResourceWrite path.now from value.now) }
    ensures answered { IsTrue (P.SectorView.space space.old).tells → IfOk result (λ outcome. KindStepsNow outcome (capacity_of volume.old) number (edit.ResourceWrite path.now from value.now) (P.SectorView.space space.old).content (P.SectorView.space space.new).content) }
    ensures done { IsTrue (P.SectorView.space space.old).tells → IfOk result (λ it. it ≢ outcome.CommitFirst) }
    ensures filled { OnOk result (HasFilled volume.new (P.SectorView.space space.new)) }
    ensures place { IsTrue (P.SectorView.space space.old).tells → OnOk result (KeepsJournal (P.SectorView.space space.old).content (P.SectorView.space space.new).content) }
    ensures shrunk { shrunk_of volume.new ≡ shrunk_of volume.old }
    ensures frame { Performs P.SectorView.space P.SectorView.follows (λ s. Contains (own_sectors volume.old) s) volume.old volume.new space.old space.new result }
{
    let changes = volume.change_at(alloc, space, number, ChangeKind::Content, path)?;
    let put = write_resource(volume, alloc, space, path, fork, from, value)?;
    if put {
        return Ok(Outcome::Answered {
            reply: Reply::Ok,
            changes,
        });
    }
    Ok(Outcome::CommitFirst)
}
