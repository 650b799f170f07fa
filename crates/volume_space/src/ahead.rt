//! The trees of a volume in service, of which one grows ahead of a command or of a step of reclaiming.
ghost use Rattle.std.specs.Prelude.{◌≡◌, ◌<◌, ◌≤◌, ◌+◌, ℕ, IsTrue, IfOk, OnOk, length};
ghost use Rattle.sector_disk.specs.Lists.{Content};
ghost use Rattle.alloc_bitmap.specs.Map.{none};
ghost use Rattle.flag_rows.specs.Bits.{sectors_for};
ghost use Rattle.btree_edit.specs.Causes.{HasTroubleCause};
ghost use Rattle.hfs_volume.specs.Aside.{IsJournalSector};
ghost use Rattle.volume_space.specs.Growing.{GoesAhead, GrowthFits, IsOwnOrFree, WantsFirst, file_of, growth_room};
ghost use Rattle.volume_space.specs.SpreadGrowth.{SpreadGrowthFits, growth_room_spread};
ghost use Rattle.volume_base.specs.Service.{IsInService};
ghost use Rattle.volume_base.specs.Holding.{HoldsOn};
ghost use Rattle.volume_base.specs.Standing.{IsSettled, StandsOver};
ghost use Rattle.volume_base.specs.Touching.{Touches};
ghost use Rattle.volume_space.specs.declared.ahead.Growth.TheVariants as growing;
ghost use Rattle.volume_space.specs.declared.ahead.WhichTree.TheVariants as which;

use crate::ahead_spread::{grow_attributes_of_eight, grow_catalog_of_eight};
use crate::growable::{can_grow_attributes, can_grow_catalog, can_grow_extents};
use crate::growing::grow_catalog;
use crate::growing_attributes::grow_attributes;
use crate::growing_extents::grow_extents;
use hx_bytes::Trouble;
use sector_disk::SectorSpace;
use std::alloc::Global;
use tree_weights::{a_load_says_enough, trees_grow_by_enough};
use volume_base::Volume;

/// One of the three trees of a volume.
#[derive(Clone, Copy)]
pub enum WhichTree {
    /// The extents overflow file.
    Extents,
    Catalog,
    /// The attributes file, where there is one.
    Attributes,
}

/// What became of a growth.
#[derive(Clone, Copy)]
pub enum Growth {
    /// The tree has its nodes.
    Grown,
    /// There is too little room now for what the growth puts, or for the blocks.
    CommitFirst,
}

/// Grows the extents overflow file, where no bit was changed since the last keep.
fn grow_extents_kept<P: SectorSpace>(
    volume: &mut Volume,
    alloc: Global,
    space: &mut P,
    more: u32,
) -> Result<Growth, Trouble>
    requires stands { StandsOver volume.old (P.SectorView.space space.old) }
    requires settled { IsTrue (P.SectorView.space space.old).tells → IsSettled volume.old (P.SectorView.space space.old).content }
    requires unchanged { volume.old.map.changed ≡ none (sectors_for (length volume.old.map.used)) }
    requires closed { IsTrue (P.SectorView.space space.old).tells → (at : ℕ) → (P.SectorView.space space.old).closed at → IsJournalSector (P.SectorView.space space.old).content at }
    ensures ahead { IsTrue (P.SectorView.space space.old).tells → IfOk result (λ said. GoesAhead said which.Extents more (P.SectorView.space space.old).content (P.SectorView.space space.new).content) }
    ensures sure { IsTrue (P.SectorView.space space.old).tells → GrowthFits which.Extents more volume.old (P.SectorView.space space.old) → IfOk result (λ said. said ≡ growing.Grown) }
    ensures stands { OnOk result (StandsOver volume.new (P.SectorView.space space.new)) }
    ensures settled { IsTrue (P.SectorView.space space.old).tells → OnOk result (IsSettled volume.new (P.SectorView.space space.new).content) }
    ensures service { IsInService volume.new (P.SectorView.space space.new) }
    ensures holds { (committed : Content) → HoldsOn committed volume.old → HoldsOn committed volume.new }
    ensures same { (volume.new.private ≡ volume.old.private) × (volume.new.shrunk ≡ volume.old.shrunk) × (volume.new.capacity ≡ volume.old.capacity) }
    ensures touches { (committed : Content) → Touches committed (IsOwnOrFree volume.old) (P.SectorView.space space.old) (P.SectorView.space space.new) }
    ensures gained { IsTrue (P.SectorView.space space.old).tells → OnOk result ((s : ℕ) → IsOwnOrFree volume.new s → IsOwnOrFree volume.old s) }
    ensures spent { (P.SectorView.space space.old).spare ≤ (P.SectorView.space space.new).spare + growth_room which.Extents more volume.old }
    ensures below { P.SectorView.follows space.old space.new }
    ensures cause { HasTroubleCause (P.SectorView.space space.old).faults (P.SectorView.space space.new).faults result }
{
    if !can_grow_extents(volume, space, more) {
        return Ok(Growth::CommitFirst);
    }
    grow_extents(volume, alloc, space, more)?;
    Ok(Growth::Grown)
}

/// Grows the catalog, where no bit was changed since the last keep.
fn grow_catalog_kept<P: SectorSpace>(
    volume: &mut Volume,
    alloc: Global,
    space: &mut P,
    more: u32,
) -> Result<Growth, Trouble>
    requires stands { StandsOver volume.old (P.SectorView.space space.old) }
    requires settled { IsTrue (P.SectorView.space space.old).tells → IsSettled volume.old (P.SectorView.space space.old).content }
    requires unchanged { volume.old.map.changed ≡ none (sectors_for (length volume.old.map.used)) }
    requires closed { IsTrue (P.SectorView.space space.old).tells → (at : ℕ) → (P.SectorView.space space.old).closed at → IsJournalSector (P.SectorView.space space.old).content at }
    ensures ahead { IsTrue (P.SectorView.space space.old).tells → IfOk result (λ said. GoesAhead said which.Catalog more (P.SectorView.space space.old).content (P.SectorView.space space.new).content) }
    ensures sure { IsTrue (P.SectorView.space space.old).tells → GrowthFits which.Catalog more volume.old (P.SectorView.space space.old) → IfOk result (λ said. said ≡ growing.Grown) }
    ensures spread { IsTrue (P.SectorView.space space.old).tells → SpreadGrowthFits which.Catalog more volume.old (P.SectorView.space space.old) → IfOk result (λ said. said ≡ growing.Grown) }
    ensures stands { OnOk result (StandsOver volume.new (P.SectorView.space space.new)) }
    ensures settled { IsTrue (P.SectorView.space space.old).tells → OnOk result (IsSettled volume.new (P.SectorView.space space.new).content) }
    ensures service { IsInService volume.new (P.SectorView.space space.new) }
    ensures holds { (committed : Content) → HoldsOn committed volume.old → HoldsOn committed volume.new }
    ensures same { (volume.new.private ≡ volume.old.private) × (volume.new.shrunk ≡ volume.old.shrunk) × (volume.new.capacity ≡ volume.old.capacity) }
    ensures touches { (committed : Content) → Touches committed (IsOwnOrFree volume.old) (P.SectorView.space space.old) (P.SectorView.space space.new) }
    ensures gained { IsTrue (P.SectorView.space space.old).tells → OnOk result ((s : ℕ) → IsOwnOrFree volume.new s → IsOwnOrFree volume.old s) }
    ensures spent { length volume.old.catalog.file.fork < 8 → (P.SectorView.space space.old).spare ≤ (P.SectorView.space space.new).spare + growth_room which.Catalog more volume.old }
    ensures spent_spread { IsTrue (P.SectorView.space space.old).tells → (P.SectorView.space space.old).spare ≤ (P.SectorView.space space.new).spare + growth_room_spread which.Catalog more volume.old }
    ensures below { P.SectorView.follows space.old space.new }
    ensures cause { HasTroubleCause (P.SectorView.space space.old).faults (P.SectorView.space space.new).faults result }
{
    if volume.catalog.file.fork().len() >= 8 {
        return grow_catalog_of_eight(volume, alloc, space, more);
    }
    if !can_grow_catalog(volume, space, more) {
        return Ok(Growth::CommitFirst);
    }
    grow_catalog(volume, alloc, space, more)?;
    Ok(Growth::Grown)
}

/// Grows the attributes file, where no bit was changed since the last keep.
fn grow_attributes_kept<P: SectorSpace>(
    volume: &mut Volume,
    alloc: Global,
    space: &mut P,
    more: u32,
) -> Result<Growth, Trouble>
    requires stands { StandsOver volume.old (P.SectorView.space space.old) }
    requires settled { IsTrue (P.SectorView.space space.old).tells → IsSettled volume.old (P.SectorView.space space.old).content }
    requires unchanged { volume.old.map.changed ≡ none (sectors_for (length volume.old.map.used)) }
    requires closed { IsTrue (P.SectorView.space space.old).tells → (at : ℕ) → (P.SectorView.space space.old).closed at → IsJournalSector (P.SectorView.space space.old).content at }
    ensures ahead { IsTrue (P.SectorView.space space.old).tells → IfOk result (λ said. GoesAhead said which.Attributes more (P.SectorView.space space.old).content (P.SectorView.space space.new).content) }
    ensures sure { IsTrue (P.SectorView.space space.old).tells → GrowthFits which.Attributes more volume.old (P.SectorView.space space.old) → IfOk result (λ said. said ≡ growing.Grown) }
    ensures spread { IsTrue (P.SectorView.space space.old).tells → SpreadGrowthFits which.Attributes more volume.old (P.SectorView.space space.old) → IfOk result (λ said. said ≡ growing.Grown) }
    ensures stands { OnOk result (StandsOver volume.new (P.SectorView.space space.new)) }
    ensures settled { IsTrue (P.SectorView.space space.old).tells → OnOk result (IsSettled volume.new (P.SectorView.space space.new).content) }
    ensures service { IsInService volume.new (P.SectorView.space space.new) }
    ensures holds { (committed : Content) → HoldsOn committed volume.old → HoldsOn committed volume.new }
    ensures same { (volume.new.private ≡ volume.old.private) × (volume.new.shrunk ≡ volume.old.shrunk) × (volume.new.capacity ≡ volume.old.capacity) }
    ensures touches { (committed : Content) → Touches committed (IsOwnOrFree volume.old) (P.SectorView.space space.old) (P.SectorView.space space.new) }
    ensures gained { IsTrue (P.SectorView.space space.old).tells → OnOk result ((s : ℕ) → IsOwnOrFree volume.new s → IsOwnOrFree volume.old s) }
    ensures spent { length volume.old.attributes.file.fork < 8 → (P.SectorView.space space.old).spare ≤ (P.SectorView.space space.new).spare + growth_room which.Attributes more volume.old }
    ensures spent_spread { IsTrue (P.SectorView.space space.old).tells → (P.SectorView.space space.old).spare ≤ (P.SectorView.space space.new).spare + growth_room_spread which.Attributes more volume.old }
    ensures below { P.SectorView.follows space.old space.new }
    ensures cause { HasTroubleCause (P.SectorView.space space.old).faults (P.SectorView.space space.new).faults result }
{
    if volume.header.attributes_fork.logical_size == 0 {
        return Ok(Growth::CommitFirst);
    }
    if volume.attributes.file.fork().len() >= 8 {
        return grow_attributes_of_eight(volume, alloc, space, more);
    }
    if !can_grow_attributes(volume, space, more) {
        return Ok(Growth::CommitFirst);
    }
    grow_attributes(volume, alloc, space, more)?;
    Ok(Growth::Grown)
}

/// Grows a tree by so many nodes, in a step of its own ahead of a command or a step of reclaiming that wants them; what was done so far
/// stays, whatever is undone later. A commit comes first where there is too little room for what the growth puts, so many blocks aren't
/// free in a row, a number has no room, or there is no such tree: then nothing is changed. `Memory` comes where memory is wanting, `Disk`
/// where a read failed.
pub fn grow_tree<P: SectorSpace>(
    volume: &mut Volume,
    alloc: Global,
    space: &mut P,
    tree: WhichTree,
    more: u32,
) -> Result<Growth, Trouble>
    requires stands { StandsOver volume.old (P.SectorView.space space.old) }
    requires settled { IsTrue (P.SectorView.space space.old).tells → IsSettled volume.old (P.SectorView.space space.old).content }
    // Only the journal's sectors are closed.
    requires closed { IsTrue (P.SectorView.space space.old).tells → (at : ℕ) → (P.SectorView.space space.old).closed at → IsJournalSector (P.SectorView.space space.old).content at }
    // Told, the tree of the content has just these nodes more, and what the content stands for is as it was; or nothing was changed.
    ensures ahead { IsTrue (P.SectorView.space space.old).tells → IfOk result (λ said. GoesAhead said tree more (P.SectorView.space space.old).content (P.SectorView.space space.new).content) }
    // A growth that fits is made.
    ensures sure { IsTrue (P.SectorView.space space.old).tells → GrowthFits tree more volume.old (P.SectorView.space space.old) → IfOk result (λ said. said ≡ growing.Grown) }
    // So is one of a file of any number of extents.
    ensures spread { IsTrue (P.SectorView.space space.old).tells → SpreadGrowthFits tree more volume.old (P.SectorView.space space.old) → IfOk result (λ said. said ≡ growing.Grown) }
    // What costs a load that may be put never waits for a commit ahead of its first growth.
    ensures counted { IsTrue (P.SectorView.space space.old).tells → WantsFirst tree more volume.old (P.SectorView.space space.old) → IfOk result (λ said. said ≡ growing.Grown) }
    ensures stands { OnOk result (StandsOver volume.new (P.SectorView.space space.new)) }
    ensures settled { IsTrue (P.SectorView.space space.old).tells → OnOk result (IsSettled volume.new (P.SectorView.space space.new).content) }
    ensures service { IsInService volume.new (P.SectorView.space space.new) }
    // No block that a content has in use is lost.
    ensures holds { (committed : Content) → HoldsOn committed volume.old → HoldsOn committed volume.new }
    ensures same { (volume.new.private ≡ volume.old.private) × (volume.new.shrunk ≡ volume.old.shrunk) × (volume.new.capacity ≡ volume.old.capacity) }
    // On a fault too, it puts sectors of its own and of blocks that were free alone, whatever was committed last.
    ensures touches { (committed : Content) → Touches committed (IsOwnOrFree volume.old) (P.SectorView.space space.old) (P.SectorView.space space.new) }
    // What is its own now, or free, was so before.
    ensures gained { IsTrue (P.SectorView.space space.old).tells → OnOk result ((s : ℕ) → IsOwnOrFree volume.new s → IsOwnOrFree volume.old s) }
    // Of a file without overflow records it takes no more of the room for puts than such a growth puts at most.
    ensures spent { length (file_of tree volume.old).fork < 8 → (P.SectorView.space space.old).spare ≤ (P.SectorView.space space.new).spare + growth_room tree more volume.old }
    // Of any file, told, no more than that and what the load counts for an edit of the extents overflow file.
    ensures spent_spread { IsTrue (P.SectorView.space space.old).tells → (P.SectorView.space space.old).spare ≤ (P.SectorView.space space.new).spare + growth_room_spread tree more volume.old }
    // What costs a load that may be put puts no more than that load for its first growth.
    ensures loads { IsTrue (P.SectorView.space space.old).tells → (wants : WantsFirst tree more volume.old (P.SectorView.space space.old)) → (P.SectorView.space space.old).spare ≤ (P.SectorView.space space.new).spare + wants.load }
    ensures below { P.SectorView.follows space.old space.new }
    ensures cause { HasTroubleCause (P.SectorView.space space.old).faults (P.SectorView.space space.new).faults result }
{
    a_load_says_enough();
    trees_grow_by_enough();
    volume.keep();
    match tree {
        WhichTree::Extents => grow_extents_kept(volume, alloc, space, more),
        WhichTree::Catalog => grow_catalog_kept(volume, alloc, space, more),
        WhichTree::Attributes => grow_attributes_kept(volume, alloc, space, more),
    }
}
