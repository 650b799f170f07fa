//! Housekeeping: the next step of reclaiming.
ghost use Rattle.std.specs.Prelude.{◌≡◌, ◌≤◌, ℕ, true, false, Option, Some, IsTrue, IfOk, IfSome, length, OnOk};
ghost use Rattle.alloc_bitmap.specs.Map.{free_of};
ghost use Rattle.attributes.specs.Owned.{names_of};
ghost use Rattle.hfs_volume.specs.Content.{records_of, volume_of};
ghost use Rattle.hfs_volume.specs.Cost.{cost_of};
ghost use Rattle.hfs_volume.specs.Links.{orphans_of};
ghost use Rattle.hfs_volume.specs.Reclaim.{DropOrphan, has_surplus_left, least};
ghost use Rattle.hfs_volume.specs.Weight.{room_with};
ghost use Rattle.volume_runs.specs.Rest.{IsHeldUp};
ghost use Rattle.volume_base.specs.Frame.{Edits, Looked, Serves};
ghost use Rattle.volume_base.specs.Keeping.{shrunk_of};
ghost use Rattle.volume_base.specs.Lists.{lists_of};
ghost use Rattle.volume_space.specs.Orphans.{AffordsStep, IsToDrop, TidiesAs, drop_edits, grows_none, is_refused, PutsNext, TakesNextLoad};
ghost use Rattle.volume_base.specs.Frame.{Frees};
ghost use Rattle.volume_base.specs.Orphans.{is_blockless};
ghost use Rattle.volume_base.specs.Room.{capacity_of, free_in};
ghost use Rattle.volume_base.specs.Weighing.{needs_asked};
ghost use Rattle.volume_base.specs.declared.room.FreeBlocks.TheVariants as blocks;

use crate::orphans::is_blockless;
use crate::stripping::tidy_owner;
use crate::temp_names::waiting_in;
use crate::trimming::tidy_surplus;
use crate::unfiling::drop_waiting;
use hfs_volume::{Cost, reclaim_drops_entries_of_bare_orphans};
use hx_bytes::Trouble;
use sector_disk::SectorSpace;
use std::alloc::Global;
use volume_base::{Entry, FreeBlocks, Volume};

/// What a step of housekeeping came to.
#[derive(Clone, Copy)]
pub enum Tidying {
    /// Nothing is left to reclaim, or the next step is held up. Nothing was changed.
    Rest,
    Made,
    /// The next step wants a commit before it. Nothing was changed.
    CommitFirst,
}

/// Whether this is a load for which no tree grows.
pub(crate) fn grows_none(cost: Cost) -> bool
    ensures { result ≡ grows_none cost }
{
    match cost {
        Cost::Refused(_) => false,
        Cost::Load { grow, .. } => grow[0] == 0 && (grow[1] == 0 && grow[2] == 0),
    }
}

/// Whether this is a refusal.
pub(crate) fn is_refused(cost: Cost) -> bool
    ensures { result ≡ is_refused cost }
{
    match cost {
        Cost::Refused(_) => true,
        Cost::Load { .. } => false,
    }
}

/// The least CNID of the files that lost their last name.
pub(crate) fn next_waiting<P: SectorSpace>(
    volume: &mut Volume,
    alloc: Global,
    space: &mut P,
) -> Result<Option<u32>, Trouble>
    requires serves { Serves volume.old (P.SectorView.space space.old) }
    ensures found { IsTrue (P.SectorView.space space.old).tells → IfOk result (λ found. found ≡ least (orphans_of (records_of (volume_of (P.SectorView.space space.old).content)))) }
    ensures looked { Looked P.SectorView.space P.SectorView.follows volume.old volume.new space.old space.new result }
    ensures serves { Serves volume.new (P.SectorView.space space.new) }
{
    match volume.private {
        Some(private) => waiting_in(volume, alloc, space, private),
        None => Ok(None),
    }
}

/// The entry of a file, where it has neither blocks nor attributes.
fn bare_entry<P: SectorSpace>(
    volume: &mut Volume,
    alloc: Global,
    space: &mut P,
    id: u32,
    entry: Entry,
) -> Result<Option<Entry>, Trouble>
    requires serves { Serves volume.old (P.SectorView.space space.old) }
    ensures bare { IsTrue (P.SectorView.space space.old).tells
        → IfOk result (λ found. IfSome found (λ bare. (bare ≡ entry) × (is_blockless entry.rec ≡ true) × (length (names_of id (lists_of volume.old (P.SectorView.space space.old).content).attribute_pairs) ≡ 0))) }
    ensures same { IfOk result (λ found. IfSome found (λ bare. bare ≡ entry)) }
    ensures looked { Looked P.SectorView.space P.SectorView.follows volume.old volume.new space.old space.new result }
    ensures serves { Serves volume.new (P.SectorView.space space.new) }
{
    if !is_blockless(&entry.rec) {
        return Ok(None);
    }
    let owned = volume.list_attributes(alloc, space, id)?;
    if !owned.is_empty() {
        return Ok(None);
    }
    Ok(Some(entry))
}

/// The entry of the file with the least CNID of those that wait, where it has neither blocks nor attributes.
pub(crate) fn bare_waiting<P: SectorSpace>(
    volume: &mut Volume,
    alloc: Global,
    space: &mut P,
    id: u32,
) -> Result<Option<Entry>, Trouble>
    requires serves { Serves volume.old (P.SectorView.space space.old) }
    requires lowest { IsTrue (P.SectorView.space space.old).tells → least (orphans_of (records_of (volume_of (P.SectorView.space space.old).content))) ≡ Some id }
    ensures found { IsTrue (P.SectorView.space space.old).tells → (shrunk : Option ℕ) → has_surplus_left (volume_of (P.SectorView.space space.old).content) shrunk ≡ false → IfOk result (λ found. IfSome found (IsToDrop shrunk (P.SectorView.space space.old).content)) }
    ensures name { IfOk result (λ found. IfSome found (λ entry. length entry.name ≤ 255)) }
    ensures looked { Looked P.SectorView.space P.SectorView.follows volume.old volume.new space.old space.new result }
    ensures serves { Serves volume.new (P.SectorView.space space.new) }
{
    reclaim_drops_entries_of_bare_orphans();
    match volume.entry(alloc, space, id)? {
        Some(entry) => bare_entry(volume, alloc, space, id, entry),
        None => Ok(None),
    }
}

/// What the drop of an entry costs where all free blocks may be taken.
fn cost_of_drop<P: SectorSpace>(volume: &Volume, space: &P) -> Cost
    requires serves { Serves volume.now (P.SectorView.space space.now) }
    ensures { IsTrue (P.SectorView.space space.now).tells → result ≡ cost_of (needs_asked drop_edits) (room_with (capacity_of volume.now) (free_in blocks.All volume.now.map) (volume_of (P.SectorView.space space.now).content)) }
{
    let edits = volume_base::Edits {
        ids: 0,
        catalog: 2,
        attributes: 0,
        updates: 1,
    };
    volume.cost_of_edits(space, FreeBlocks::All, edits)
}

/// Whether something is missing for the drop of an entry.
fn lacks_drop<P: SectorSpace>(volume: &Volume, space: &P) -> bool
    requires serves { Serves volume.now (P.SectorView.space space.now) }
    ensures held_up { IsTrue (P.SectorView.space space.now).tells → IsTrue result → (id : ℕ) → IsHeldUp (capacity_of volume.now) (volume_of (P.SectorView.space space.now).content) (DropOrphan id) }
{
    is_refused(cost_of_drop(volume, space))
}

/// Whether all free blocks suffice for the drop of an entry, and no tree has to grow for it.
fn affords_drop<P: SectorSpace>(volume: &Volume, space: &P) -> bool
    requires serves { Serves volume.now (P.SectorView.space space.now) }
    ensures affords { IsTrue (P.SectorView.space space.now).tells → IsTrue result → (id : ℕ) → AffordsStep (capacity_of volume.now) (P.SectorView.space space.now).content (DropOrphan id) }
{
    grows_none(cost_of_drop(volume, space))
}

/// Drops the entry of a file that waits, where nothing is missing for it.
fn tidy_entry<P: SectorSpace>(
    volume: &mut Volume,
    alloc: Global,
    space: &mut P,
    entry: &Entry,
) -> Result<Tidying, Trouble>
    requires serves { Serves volume.old (P.SectorView.space space.old) }
    requires name { length entry.now.name ≤ 255 }
    requires waits { IsTrue (P.SectorView.space space.old).tells → IsToDrop (shrunk_of volume.old) (P.SectorView.space space.old).content entry.now }
    ensures tidied { IsTrue (P.SectorView.space space.old).tells → IfOk result (λ came. TidiesAs came (capacity_of volume.old) (shrunk_of volume.old) (free_of volume.old.map) (P.SectorView.space space.old).spare (P.SectorView.space space.old).content (P.SectorView.space space.new).content) }
    ensures spent { IsTrue (P.SectorView.space space.old).tells → PutsNext (capacity_of volume.old) (shrunk_of volume.old) (volume_of (P.SectorView.space space.old).content) (P.SectorView.space space.old).spare (P.SectorView.space space.new).spare }
    ensures edits { Edits P.SectorView.space P.SectorView.follows (P.SectorView.space space.old).spare volume.old volume.new space.old space.new result }
    ensures serves { OnOk result (Serves volume.new (P.SectorView.space space.new)) }
{
    if entry.name.is_empty() {
        return Err(Trouble::Memory);
    }
    // The least node size that the format allows the catalog (TN1150, "Catalog File").
    if volume.catalog.file.shape().node_size < 4096 {
        return Err(Trouble::Memory);
    }
    if lacks_drop(volume, space) {
        return Ok(Tidying::Rest);
    }
    // A tree that had to grow for it has grown before.
    if !affords_drop(volume, space) {
        return Err(Trouble::Memory);
    }
    if !volume.fits_remove(space) {
        return Ok(Tidying::CommitFirst);
    }
    drop_waiting(volume, alloc, space, entry)?;
    Ok(Tidying::Made)
}

/// The next step for the file with the least CNID of those that wait.
fn tidy_waiting<P: SectorSpace>(
    volume: &mut Volume,
    alloc: Global,
    space: &mut P,
    id: u32,
) -> Result<Tidying, Trouble>
    requires serves { Serves volume.old (P.SectorView.space space.old) }
    requires lowest { IsTrue (P.SectorView.space space.old).tells → least (orphans_of (records_of (volume_of (P.SectorView.space space.old).content))) ≡ Some id }
    requires kept { IsTrue (P.SectorView.space space.old).tells → has_surplus_left (volume_of (P.SectorView.space space.old).content) (shrunk_of volume.old) ≡ false }
    ensures tidied { IsTrue (P.SectorView.space space.old).tells → IfOk result (λ came. TidiesAs came (capacity_of volume.old) (shrunk_of volume.old) (free_of volume.old.map) (P.SectorView.space space.old).spare (P.SectorView.space space.old).content (P.SectorView.space space.new).content) }
    ensures spent { IsTrue (P.SectorView.space space.old).tells → PutsNext (capacity_of volume.old) (shrunk_of volume.old) (volume_of (P.SectorView.space space.old).content) (P.SectorView.space space.old).spare (P.SectorView.space space.new).spare }
    ensures frees { Frees P.SectorView.space P.SectorView.follows volume.old volume.new space.old space.new result }
    ensures serves { OnOk result (Serves volume.new (P.SectorView.space space.new)) }
{
    match bare_waiting(volume, alloc, space, id)? {
        Some(entry) => tidy_entry(volume, alloc, space, &entry),
        None => tidy_owner(volume, alloc, space, id),
    }
}

/// The next step, where the file that was shrunk last has no blocks past its size.
pub(crate) fn tidy_unshrunk<P: SectorSpace>(
    volume: &mut Volume,
    alloc: Global,
    space: &mut P,
) -> Result<Tidying, Trouble>
    requires serves { Serves volume.old (P.SectorView.space space.old) }
    requires kept { IsTrue (P.SectorView.space space.old).tells → has_surplus_left (volume_of (P.SectorView.space space.old).content) (shrunk_of volume.old) ≡ false }
    ensures tidied { IsTrue (P.SectorView.space space.old).tells → IfOk result (λ came. TidiesAs came (capacity_of volume.old) (shrunk_of volume.old) (free_of volume.old.map) (P.SectorView.space space.old).spare (P.SectorView.space space.old).content (P.SectorView.space space.new).content) }
    ensures spent { IsTrue (P.SectorView.space space.old).tells → PutsNext (capacity_of volume.old) (shrunk_of volume.old) (volume_of (P.SectorView.space space.old).content) (P.SectorView.space space.old).spare (P.SectorView.space space.new).spare }
    ensures frees { Frees P.SectorView.space P.SectorView.follows volume.old volume.new space.old space.new result }
    ensures serves { OnOk result (Serves volume.new (P.SectorView.space space.new)) }
{
    match next_waiting(volume, alloc, space)? {
        Some(id) => tidy_waiting(volume, alloc, space, id),
        None => Ok(Tidying::Rest),
    }
}

/// Makes the next step of reclaiming: it cuts the file that was shrunk last where that has blocks past its size, or, of the file with
/// the least CNID of those that lost their last name, a fork, or drops the first of its attributes, or its entry. A cut is of one
/// extent, or of its last 32,768 blocks. It rests where nothing is left to reclaim, and where something is missing for the next step or a
/// transaction may be too small for it. A tree that has to grow for the next step (`next_growth`) has grown before. `Memory` comes where memory
/// is wanting, `Disk` where a read failed.
pub fn tidy<P: SectorSpace>(
    volume: &mut Volume,
    alloc: Global,
    space: &mut P,
) -> Result<Tidying, Trouble>
    requires serves { Serves volume.old (P.SectorView.space space.old) }
    // Told, the next step was made, and nothing was missing for it; or nothing was changed. It rests only where nothing is left to
    // reclaim, or the next step is held up, and wants a commit only where there is too little room for the next step.
    ensures tidied { IsTrue (P.SectorView.space space.old).tells → IfOk result (λ came. TidiesAs came (capacity_of volume.old) (shrunk_of volume.old) (free_of volume.old.map) (P.SectorView.space space.old).spare (P.SectorView.space space.old).content (P.SectorView.space space.new).content) }
    // On a fault too, it puts no more sectors than the next step puts at most, and than its load.
    ensures spent { IsTrue (P.SectorView.space space.old).tells → PutsNext (capacity_of volume.old) (shrunk_of volume.old) (volume_of (P.SectorView.space space.old).content) (P.SectorView.space space.old).spare (P.SectorView.space space.new).spare }
    ensures loads { IsTrue (P.SectorView.space space.old).tells → TakesNextLoad (capacity_of volume.old) (shrunk_of volume.old) (volume_of (P.SectorView.space space.old).content) (P.SectorView.space space.old).spare (P.SectorView.space space.new).spare }
    ensures frees { Frees P.SectorView.space P.SectorView.follows volume.old volume.new space.old space.new result }
    ensures serves { OnOk result (Serves volume.new (P.SectorView.space space.new)) }
{
    match volume.shrunk {
        Some(id) => tidy_surplus(volume, alloc, space, id),
        None => tidy_unshrunk(volume, alloc, space),
    }
}
