//! Zero blocks that are filled ahead of an `rwrite` that makes a resource fork longer.
ghost use Rattle.std.specs.Prelude.{◌≡◌, ◌≢◌, ◌<◌, ◌≤◌, ◌+◌, ◌^◌, ℕ, IsTrue, IfOk, OnOk, length};
ghost use Rattle.std.specs.List.{Contains};
ghost use Rattle.hfs_model.specs.declared.kinds.KindEdit.TheVariants as edit;
ghost use Rattle.hfs_volume.specs.Aside.{IsJournalSector};
ghost use Rattle.hfs_volume.specs.Content.{volume_of};
ghost use Rattle.hfs_volume.specs.KindWeight.{kind_zero_blocks};
ghost use Rattle.hfs_volume.specs.Reclaim.{FillsZeros};
ghost use Rattle.hfs_volume.specs.TreeOf.{tree_of};
ghost use Rattle.hfs_volume.specs.Weight.{most_zeros};
ghost use Rattle.volume_base.specs.Frame.{Serves};
ghost use Rattle.volume_base.specs.Looking.{ReadsVolume};
ghost use Rattle.volume_base.specs.Room.{capacity_of};
ghost use Rattle.volume_base.specs.Standing.{own_sectors};
ghost use Rattle.volume_space.specs.Zeroing.{HasFilled};
ghost use Rattle.volume_step.specs.Performing.{Performs};
ghost use Rattle.volume_space.specs.declared.zeroing.Zeros.TheVariants as zeros;
ghost use Rattle.volume_links.specs.Resources.{IsResourceOf};

use crate::resources::Resource;
use hfs_language::Path;
use hx_bytes::Trouble;
use sector_disk::SectorSpace;
use std::alloc::Global;
use volume_base::Volume;
use volume_space::{Growing, Zeros, fill_ahead};

/// Fills zero blocks ahead of an `rwrite` of these bytes into a fork, where there are more than its last step fills.
pub(crate) fn fill_resource<P: SectorSpace>(
    alloc: Global,
    volume: &mut Volume,
    space: &mut P,
    _path: &Path,
    fork: Resource,
    from: u64,
    value: &[u8],
) -> Result<Zeros, Trouble>
    requires serves { Serves volume.old (P.SectorView.space space.old) }
    requires filled { HasFilled volume.old (P.SectorView.space space.old) }
    // Only the journal's sectors are closed.
    requires closed { IsTrue (P.SectorView.space space.old).tells → (at : ℕ) → (P.SectorView.space space.old).closed at → IsJournalSector (P.SectorView.space space.old).content at }
    requires some { 0 < length value.now }
    requires small { from + length value.now ≤ 2 ^ 40 }
    requires there { IsTrue (P.SectorView.space space.old).tells → IsResourceOf (tree_of (P.SectorView.space space.old).content) _path.now from value.now fork }
    // Some are filled, or a commit comes first, only where the command has more than one step fills.
    ensures many { IsTrue (P.SectorView.space space.old).tells → IfOk result (λ came. came ≢ zeros.Few → most_zeros < kind_zero_blocks (volume_of (P.SectorView.space space.old).content).head.block_size (tree_of (P.SectorView.space space.old).content) (edit.ResourceWrite _path.now from value.now)) }
    // A commit comes first only where something was put since the last one.
    ensures commit { IfOk result (λ came. came ≡ zeros.CommitFirst → (P.SectorView.space space.old).spare < capacity_of volume.old) }
    // Blocks that are free were filled, and nothing else was changed.
    ensures fills { IsTrue (P.SectorView.space space.old).tells → IfOk result (λ came. came ≡ zeros.Filled → FillsZeros (P.SectorView.space space.old).content (P.SectorView.space space.new).content) }
    // Where none is filled, the volume was read alone, but for the growth in hand.
    ensures reads { IfOk result (λ came. came ≢ zeros.Filled → ReadsVolume (record volume.old { filling = volume.new.filling }) volume.new (P.SectorView.space space.old) (P.SectorView.space space.new)) }
    ensures rest { volume.new ≡ record volume.old { filling = volume.new.filling } }
    ensures filled { OnOk result (HasFilled volume.new (P.SectorView.space space.new)) }
    ensures frame { Performs P.SectorView.space P.SectorView.follows (λ s. Contains (own_sectors volume.old) s) volume.old volume.new space.old space.new result }
{
    let growing = Growing {
        id: fork.id,
        old_size: fork.size,
        from,
        end: from + value.len() as u64,
        stop: from / u64::from(volume.header.block_size),
    };
    fill_ahead(volume, alloc, space, growing)
}
