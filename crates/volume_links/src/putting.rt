//! An `rwrite` of a byte or more, for which nothing is missing.
ghost use Rattle.std.specs.Prelude.{◌≡◌, ◌<◌, ◌≤◌, ◌+◌, ◌^◌, ℕ, [], ◌∷◌, false, IsTrue, IfOk, OnOk, length};
ghost use Rattle.hfs_language.specs.Written.{FitsPath};
ghost use Rattle.hfs_model.specs.declared.kinds.KindEdit.TheVariants as edit;
ghost use Rattle.hfs_volume.specs.Aside.{IsJournalSector};
ghost use Rattle.hfs_volume.specs.Content.{volume_of};
ghost use Rattle.hfs_volume.specs.Forks.{resource_kind};
ghost use Rattle.hfs_volume.specs.KindWeight.{kind_data_of};
ghost use Rattle.hfs_volume.specs.TreeOf.{tree_of};
ghost use Rattle.hfs_volume.specs.Weight.{needs_cut_in};
ghost use Rattle.volume_base.specs.Frame.{Serves};
ghost use Rattle.volume_base.specs.Keeping.{shrunk_of};
ghost use Rattle.volume_base.specs.Room.{capacity_of};
ghost use Rattle.volume_space.specs.Zeroing.{HasFilled};
ghost use Rattle.volume_step.specs.Performing.{Performs};
ghost use Rattle.volume_step.specs.Steps.{KeepsJournal, OwnOf};
ghost use Rattle.volume_step.specs.declared.outcome.Outcome.TheVariants as outcome;
ghost use Rattle.volume_links.specs.Resources.{IsResourceOf};
ghost use Rattle.volume_links.specs.Steps.{KindAffords, KindStepsTo};
ghost use Rattle.volume_links.specs.Wanting.{KindFitsNow, KindHasManyZeros};

use crate::doing::do_resource;
use crate::filling::fill_resource;
use crate::resources::Resource;
use hfs_language::Path;
use hx_bytes::Trouble;
use sector_disk::SectorSpace;
use std::alloc::Global;
use volume_base::Volume;
use volume_space::Zeros;
use volume_step::Outcome;

/// Puts bytes into a resource fork, or fills zero blocks ahead of them where there are more than the last step fills.
pub(crate) fn put_found<P: SectorSpace>(
    alloc: Global,
    volume: &mut Volume,
    space: &mut P,
    number: u64,
    path: &Path,
    fork: Resource,
    from: u64,
    value: &[u8],
) -> Result<Outcome, Trouble>
    requires serves { Serves volume.old (P.SectorView.space space.old) }
    requires filled { HasFilled volume.old (P.SectorView.space space.old) }
    requires fits { FitsPath path.now }
    // Only the journal's sectors are closed.
    requires closed { IsTrue (P.SectorView.space space.old).tells → (at : ℕ) → (P.SectorView.space space.old).closed at → IsJournalSector (P.SectorView.space space.old).content at }
    requires some { 0 < length value.now }
    requires small { from + length value.now ≤ 2 ^ 40 }
    requires there { IsTrue (P.SectorView.space space.old).tells → IsResourceOf (tree_of (P.SectorView.space space.old).content) path.now from value.now fork }
    requires affords { IsTrue (P.SectorView.space space.old).tells → KindAffords (capacity_of volume.old) (edit.ResourceWrite path.now from value.now) (P.SectorView.space space.old).content }
    // No blocks past the fork's size stand in its way.
    requires uncut { IsTrue (P.SectorView.space space.old).tells → needs_cut_in resource_kind (volume_of (P.SectorView.space space.old).content) (kind_data_of (tree_of (P.SectorView.space space.old).content) (edit.ResourceWrite path.now from value.now)) ≡ false }
    // There is room for it.
    requires now { IsTrue (P.SectorView.space space.old).tells → KindFitsNow (0 ∷ 0 ∷ 0 ∷ []) volume.old (P.SectorView.space space.old) (edit.ResourceWrite path.now from value.now) }
    ensures answered { IsTrue (P.SectorView.space space.old).tells → IfOk result (λ outcome. KindStepsTo outcome (capacity_of volume.old) number (edit.ResourceWrite path.now from value.now) (P.SectorView.space space.old).content (P.SectorView.space space.new).content) }
    // A commit comes first only before many zero blocks.
    ensures waits { IsTrue (P.SectorView.space space.old).tells → IfOk result (λ it. it ≡ outcome.CommitFirst → KindHasManyZeros volume.old (P.SectorView.space space.old) (edit.ResourceWrite path.now from value.now)) }
    ensures filled { OnOk result (HasFilled volume.new (P.SectorView.space space.new)) }
    ensures place { IsTrue (P.SectorView.space space.old).tells → OnOk result (KeepsJournal (P.SectorView.space space.old).content (P.SectorView.space space.new).content) }
    ensures shrunk { shrunk_of volume.new ≡ shrunk_of volume.old }
    ensures frame { Performs P.SectorView.space P.SectorView.follows (OwnOf volume.old volume.new) volume.old volume.new space.old space.new result }
{
    let zeros = fill_resource(alloc, volume, space, path, fork, from, value)?;
    match zeros {
        Zeros::Few => do_resource(alloc, volume, space, number, path, fork, from, value),
        Zeros::Filled => Ok(Outcome::Again),
        Zeros::CommitFirst => {
            volume.filling = None;
            Ok(Outcome::CommitFirst)
        }
    }
}
