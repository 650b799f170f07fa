//! The bytes of an `rwrite` are put into a file's resource fork.
ghost use Rattle.std.specs.Prelude.{◌≡◌, ◌<◌, ◌≤◌, ◌+◌, ◌^◌, ℕ, false, [], ◌∷◌, IsTrue, IfOk, OnOk, length};
ghost use Rattle.std.specs.List.{Contains};
ghost use Rattle.btree_edit.specs.Causes.{HasTroubleCause};
ghost use Rattle.jnl_format.specs.Recovery.{Content};
ghost use Rattle.sector_disk.specs.Space.{SameSpace};
ghost use Rattle.hfs_model.specs.Kinds.{kind_told};
ghost use Rattle.hfs_model.specs.declared.kinds.KindEdit.TheVariants as edit;
ghost use Rattle.hfs_volume.specs.Aside.{IsJournalSector};
ghost use Rattle.hfs_volume.specs.Content.{volume_of};
ghost use Rattle.hfs_volume.specs.Forks.{resource_kind};
ghost use Rattle.hfs_volume.specs.KindWeight.{kind_data_of};
ghost use Rattle.hfs_volume.specs.TreeOf.{tree_of};
ghost use Rattle.hfs_volume.specs.Weight.{needs_cut_in};
ghost use Rattle.volume_base.specs.Holding.{HoldsOn, IsLaidOutAs};
ghost use Rattle.volume_base.specs.Service.{IsInService};
ghost use Rattle.volume_base.specs.Standing.{IsSettled, StandsOver, own_sectors};
ghost use Rattle.volume_base.specs.Touching.{Touches};
ghost use Rattle.volume_space.specs.Zeroing.{HasFilled};
ghost use Rattle.volume_links.specs.Resources.{HasResourceData, IsResourceOf};
ghost use Rattle.volume_links.specs.Wanting.{KindFitsNow};

use crate::resources::Resource;
use hfs_language::Path;
use hfs_volume::{rewrite_puts_its_blocks_alone, rwrite_does_its_step};
use hx_bytes::Trouble;
use sector_disk::SectorSpace;
use std::alloc::Global;
use volume_base::{ForkKind, Volume};
use volume_space::put_data;

/// Puts the bytes of an `rwrite` into the resource fork of its file where that can be done now, and says whether it did.
pub(crate) fn write_resource<P: SectorSpace>(
    volume: &mut Volume,
    alloc: Global,
    space: &mut P,
    _path: &Path,
    fork: Resource,
    from: u64,
    value: &[u8],
) -> Result<bool, Trouble>
    requires stands { StandsOver volume.old (P.SectorView.space space.old) }
    requires settled { IsTrue (P.SectorView.space space.old).tells → IsSettled volume.old (P.SectorView.space space.old).content }
    requires filled { HasFilled volume.old (P.SectorView.space space.old) }
    // Only the journal's sectors are closed.
    requires closed { IsTrue (P.SectorView.space space.old).tells → (at : ℕ) → (P.SectorView.space space.old).closed at → IsJournalSector (P.SectorView.space space.old).content at }
    requires some { 0 < length value.now }
    requires small { from + length value.now ≤ 2 ^ 40 }
    requires there { IsTrue (P.SectorView.space space.old).tells → IsResourceOf (tree_of (P.SectorView.space space.old).content) _path.now from value.now fork }
    ensures filled { OnOk result (HasFilled volume.new (P.SectorView.space space.new)) }
    ensures stands { OnOk result (StandsOver volume.new (P.SectorView.space space.new)) }
    ensures settled { IsTrue (P.SectorView.space space.old).tells → OnOk result (IsSettled volume.new (P.SectorView.space space.new).content) }
    // Told, where it was put, the tree is that of the step, and the fork has the data.
    ensures tree { IsTrue (P.SectorView.space space.old).tells → IfOk result (λ put. IsTrue put → tree_of (P.SectorView.space space.new).content ≡ (kind_told (tree_of (P.SectorView.space space.old).content) (edit.ResourceWrite _path.now from value.now)).1) }
    ensures lists { IsTrue (P.SectorView.space space.old).tells → IfOk result (λ put. IsTrue put → HasResourceData (edit.ResourceWrite _path.now from value.now) (P.SectorView.space space.old).content (P.SectorView.space space.new).content) }
    // It is put where no cut goes first, and what it costs of the blocks that may be taken is a load for which there is room, without growth of a tree.
    ensures met { IsTrue (P.SectorView.space space.old).tells → needs_cut_in resource_kind (volume_of (P.SectorView.space space.old).content) (kind_data_of (tree_of (P.SectorView.space space.old).content) (edit.ResourceWrite _path.now from value.now)) ≡ false
        → KindFitsNow (0 ∷ 0 ∷ 0 ∷ []) volume.old (P.SectorView.space space.old) (edit.ResourceWrite _path.now from value.now) → IfOk result IsTrue }
    // Else nothing was changed.
    ensures waits { IsTrue (P.SectorView.space space.old).tells → IfOk result (λ put. put ≡ false → (P.SectorView.space space.new).content ≡ (P.SectorView.space space.old).content) }
    ensures same { (volume.new.private ≡ volume.old.private) × (volume.new.shrunk ≡ volume.old.shrunk) × (volume.new.capacity ≡ volume.old.capacity) }
    ensures service { IsInService volume.new (P.SectorView.space space.new) }
    ensures holds { (committed : Content) → HoldsOn committed volume.old → OnOk result (HoldsOn committed volume.new) }
    ensures touches { (committed : Content) → HoldsOn committed volume.old → IsLaidOutAs committed volume.old → Touches committed (λ s. Contains (own_sectors volume.old) s) (P.SectorView.space space.old) (P.SectorView.space space.new) }
    ensures space { SameSpace (P.SectorView.space space.old) (P.SectorView.space space.new) }
    ensures below { P.SectorView.follows space.old space.new }
    ensures cause { HasTroubleCause (P.SectorView.space space.old).faults (P.SectorView.space space.new).faults result }
{
    rwrite_does_its_step();
    rewrite_puts_its_blocks_alone();
    let put = put_data(
        volume,
        alloc,
        space,
        fork.id,
        ForkKind::Resource,
        from,
        value,
    )?;
    if put {
        return Ok(true);
    }
    Ok(false)
}
