//! A catalog or an attributes file whose fork has eight extents or more, which grows ahead of a command or of a step of reclaiming.
ghost use Rattle.std.specs.Prelude.{◌≡◌, ◌≤◌, ◌+◌, ℕ, IsTrue, IfOk, OnOk, length};
ghost use Rattle.sector_disk.specs.Lists.{Content};
ghost use Rattle.alloc_bitmap.specs.Map.{none};
ghost use Rattle.flag_rows.specs.Bits.{sectors_for};
ghost use Rattle.btree_edit.specs.Causes.{HasTroubleCause};
ghost use Rattle.hfs_volume.specs.Aside.{IsJournalSector};
ghost use Rattle.hfs_volume.specs.Content.{has_attributes};
ghost use Rattle.volume_space.specs.Growing.{GoesAhead, IsOwnOrFree};
ghost use Rattle.volume_base.specs.Service.{IsInService};
ghost use Rattle.volume_base.specs.Holding.{HoldsOn};
ghost use Rattle.volume_base.specs.Standing.{IsSettled, StandsOver};
ghost use Rattle.volume_base.specs.Touching.{Touches};
ghost use Rattle.volume_space.specs.SpreadGrowth.{SpreadFits, growth_room_spread};
ghost use Rattle.volume_space.specs.declared.ahead.Growth.TheVariants as growing;
ghost use Rattle.volume_space.specs.declared.ahead.WhichTree.TheVariants as which;

use crate::ahead::Growth;
use crate::growable_spread::can_grow_spread;
use crate::growing_spread::grow_catalog_spread;
use crate::growing_spread_attributes::grow_attributes_spread;
use hx_bytes::Trouble;
use sector_disk::SectorSpace;
use std::alloc::Global;
use volume_base::Volume;

/// Grows the catalog by so many nodes, whose fork has extents in overflow records or gets some; no bit was changed since the last keep. A
/// commit comes first where there is too little room for what the growth puts, or for the blocks.
pub(crate) fn grow_catalog_of_eight<P: SectorSpace>(
    volume: &mut Volume,
    alloc: Global,
    space: &mut P,
    more: u32,
) -> Result<Growth, Trouble>
    requires stands { StandsOver volume.old (P.SectorView.space space.old) }
    requires settled { IsTrue (P.SectorView.space space.old).tells → IsSettled volume.old (P.SectorView.space space.old).content }
    requires unchanged { volume.old.map.changed ≡ none (sectors_for (length volume.old.map.used)) }
    requires closed { IsTrue (P.SectorView.space space.old).tells → (at : ℕ) → (P.SectorView.space space.old).closed at → IsJournalSector (P.SectorView.space space.old).content at }
    ensures ahead { IsTrue (P.SectorView.space space.old).tells → IfOk result (λ said. GoesAhead said which.Catalog more (P.SectorView.space space.old).content (P.SectorView.space space.new).content) }
    ensures sure { IsTrue (P.SectorView.space space.old).tells → SpreadFits more volume.old.catalog.file volume.old.header.catalog_fork volume.old (P.SectorView.space space.old) → IfOk result (λ said. said ≡ growing.Grown) }
    ensures stands { OnOk result (StandsOver volume.new (P.SectorView.space space.new)) }
    ensures settled { IsTrue (P.SectorView.space space.old).tells → OnOk result (IsSettled volume.new (P.SectorView.space space.new).content) }
    ensures service { IsInService volume.new (P.SectorView.space space.new) }
    ensures holds { (committed : Content) → HoldsOn committed volume.old → HoldsOn committed volume.new }
    ensures same { (volume.new.private ≡ volume.old.private) × (volume.new.shrunk ≡ volume.old.shrunk) × (volume.new.capacity ≡ volume.old.capacity) }
    ensures touches { (committed : Content) → Touches committed (IsOwnOrFree volume.old) (P.SectorView.space space.old) (P.SectorView.space space.new) }
    ensures gained { IsTrue (P.SectorView.space space.old).tells → OnOk result ((s : ℕ) → IsOwnOrFree volume.new s → IsOwnOrFree volume.old s) }
    ensures spent { IsTrue (P.SectorView.space space.old).tells → (P.SectorView.space space.old).spare ≤ (P.SectorView.space space.new).spare + growth_room_spread which.Catalog more volume.old }
    ensures below { P.SectorView.follows space.old space.new }
    ensures cause { HasTroubleCause (P.SectorView.space space.old).faults (P.SectorView.space space.new).faults result }
{
    if !can_grow_spread(
        volume,
        space,
        &volume.catalog.file,
        volume.header.catalog_fork,
        more,
    ) {
        return Ok(Growth::CommitFirst);
    }
    grow_catalog_spread(volume, alloc, space, more)?;
    Ok(Growth::Grown)
}

/// Grows the attributes file by so many nodes, whose fork has extents in overflow records or gets some; no bit was changed since the last keep. A
/// commit comes first where there is too little room for what the growth puts, or for the blocks.
pub(crate) fn grow_attributes_of_eight<P: SectorSpace>(
    volume: &mut Volume,
    alloc: Global,
    space: &mut P,
    more: u32,
) -> Result<Growth, Trouble>
    requires stands { StandsOver volume.old (P.SectorView.space space.old) }
    requires settled { IsTrue (P.SectorView.space space.old).tells → IsSettled volume.old (P.SectorView.space space.old).content }
    requires there { IsTrue (has_attributes volume.old.header) }
    requires unchanged { volume.old.map.changed ≡ none (sectors_for (length volume.old.map.used)) }
    requires closed { IsTrue (P.SectorView.space space.old).tells → (at : ℕ) → (P.SectorView.space space.old).closed at → IsJournalSector (P.SectorView.space space.old).content at }
    ensures ahead { IsTrue (P.SectorView.space space.old).tells → IfOk result (λ said. GoesAhead said which.Attributes more (P.SectorView.space space.old).content (P.SectorView.space space.new).content) }
    ensures sure { IsTrue (P.SectorView.space space.old).tells → SpreadFits more volume.old.attributes.file volume.old.header.attributes_fork volume.old (P.SectorView.space space.old) → IfOk result (λ said. said ≡ growing.Grown) }
    ensures stands { OnOk result (StandsOver volume.new (P.SectorView.space space.new)) }
    ensures settled { IsTrue (P.SectorView.space space.old).tells → OnOk result (IsSettled volume.new (P.SectorView.space space.new).content) }
    ensures service { IsInService volume.new (P.SectorView.space space.new) }
    ensures holds { (committed : Content) → HoldsOn committed volume.old → HoldsOn committed volume.new }
    ensures same { (volume.new.private ≡ volume.old.private) × (volume.new.shrunk ≡ volume.old.shrunk) × (volume.new.capacity ≡ volume.old.capacity) }
    ensures touches { (committed : Content) → Touches committed (IsOwnOrFree volume.old) (P.SectorView.space space.old) (P.SectorView.space space.new) }
    ensures gained { IsTrue (P.SectorView.space space.old).tells → OnOk result ((s : ℕ) → IsOwnOrFree volume.new s → IsOwnOrFree volume.old s) }
    ensures spent { IsTrue (P.SectorView.space space.old).tells → (P.SectorView.space space.old).spare ≤ (P.SectorView.space space.new).spare + growth_room_spread which.Attributes more volume.old }
    ensures below { P.SectorView.follows space.old space.new }
    ensures cause { HasTroubleCause (P.SectorView.space space.old).faults (P.SectorView.space space.new).faults result }
{
    if !can_grow_spread(
        volume,
        space,
        &volume.attributes.file,
        volume.header.attributes_fork,
        more,
    ) {
        return Ok(Growth::CommitFirst);
    }
    grow_attributes_spread(volume, alloc, space, more)?;
    Ok(Growth::Grown)
}
