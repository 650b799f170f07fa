//! Steps of reclaiming that await the growth of a tree.
ghost use Rattle.std.specs.Prelude.{◌≡◌, ℕ, false, List, Option, Some, IsTrue, IfOk, IfSome};
ghost use Rattle.catalog.specs.Pairs.{value_at};
ghost use Rattle.hfs_volume.specs.Content.{records_of, volume_of};
ghost use Rattle.hfs_volume.specs.Links.{orphans_of};
ghost use Rattle.hfs_volume.specs.Reclaim.{DropAttribute, DropOrphan, has_surplus_left, least};
ghost use Rattle.hfs_volume.specs.Weight.{value_change};
ghost use Rattle.hfs_volume.specs.declared.cost.Cost.TheVariants as cost;
ghost use Rattle.volume_base.specs.Frame.{Looked, Serves};
ghost use Rattle.volume_base.specs.Keeping.{shrunk_of};
ghost use Rattle.volume_base.specs.Lists.{lists_of};
ghost use Rattle.volume_base.specs.Room.{capacity_of};
ghost use Rattle.volume_base.specs.Weighing.{AreUsual};
ghost use Rattle.volume_space.specs.Awaiting.{AwaitsGrowth, StepAwaits, first_wanted};

use crate::ahead::WhichTree;
use crate::stripping::{cost_of_bare, next_owned};
use crate::tidying::{bare_waiting, grows_none, next_waiting};
use crate::trimming::{has_id, surplus_in};
use hfs_volume::{Cost, ValueChange};
use hx_bytes::{Trouble, Units};
use sector_disk::SectorSpace;
use std::alloc::Global;
use volume_base::{Edits, Entry, FreeBlocks, Volume};

/// A tree that has to grow, by so many nodes.
#[derive(Clone, Copy)]
pub struct TreeWanted {
    pub tree: WhichTree,
    pub more: u32,
}

/// The first of the trees that have to grow by a cost, if one has to.
fn first_wanted(cost: Cost) -> Option<TreeWanted>
    ensures { result ≡ first_wanted cost }
{
    match cost {
        Cost::Refused(_) => None,
        Cost::Load { grow, .. } => first_of(grow),
    }
}

/// The first of the trees that have to grow by these nodes.
fn first_of(grow: [u32; 3]) -> Option<TreeWanted>
    ensures { (load : ℕ) → result ≡ first_wanted (cost.Load load grow) }
{
    if grow[0] != 0 {
        return Some(TreeWanted {
            tree: WhichTree::Extents,
            more: grow[0],
        });
    }
    if grow[1] != 0 {
        return Some(TreeWanted {
            tree: WhichTree::Catalog,
            more: grow[1],
        });
    }
    if grow[2] != 0 {
        return Some(TreeWanted {
            tree: WhichTree::Attributes,
            more: grow[2],
        });
    }
    None
}

/// The tree that has to grow for the drop of an entry.
fn drop_wants<P: SectorSpace>(volume: &Volume, space: &P) -> Option<TreeWanted>
    requires serves { Serves volume.now (P.SectorView.space space.now) }
    ensures { IsTrue (P.SectorView.space space.now).tells → IfSome result (λ wanted. (id : ℕ) → StepAwaits (capacity_of volume.now) (P.SectorView.space space.now).content (DropOrphan id) wanted) }
{
    let edits = Edits {
        ids: 0,
        catalog: 2,
        attributes: 0,
        updates: 1,
    };
    first_wanted(volume.cost_of_edits(space, FreeBlocks::All, edits))
}

/// The tree that has to grow for the drop of an attribute with this change of its value.
fn bare_wants<P: SectorSpace>(volume: &Volume, space: &P, change: ValueChange) -> Option<TreeWanted>
    requires serves { Serves volume.now (P.SectorView.space space.now) }
    requires small { IsTrue (P.SectorView.space space.now).tells → AreUsual 1 change }
    ensures { IsTrue (P.SectorView.space space.now).tells → IfSome result (λ wanted. (id : ℕ) (name : List ℕ) → change ≡ value_change (volume_of (P.SectorView.space space.now).content) id name 0 → StepAwaits (capacity_of volume.now) (P.SectorView.space space.now).content (DropAttribute id name) wanted) }
{
    if volume.header.attributes_fork.logical_size == 0 {
        return None;
    }
    first_wanted(cost_of_bare(volume, space, change))
}

/// The tree that has to grow for the drop of this attribute.
fn value_wants<P: SectorSpace>(
    volume: &mut Volume,
    alloc: Global,
    space: &mut P,
    id: u32,
    name: &Units,
) -> Result<Option<TreeWanted>, Trouble>
    requires serves { Serves volume.old (P.SectorView.space space.old) }
    ensures awaits { IsTrue (P.SectorView.space space.old).tells → IfOk result (λ found. IfSome found (StepAwaits (capacity_of volume.old) (P.SectorView.space space.old).content (DropAttribute id name.now))) }
    ensures looked { Looked P.SectorView.space P.SectorView.follows volume.old volume.new space.old space.new result }
    ensures serves { Serves volume.new (P.SectorView.space space.new) }
{
    // No name is longer (TN1150, "Attributes File").
    if name.len() > 127 {
        return Err(Trouble::Memory);
    }
    let change = volume.value_change(alloc, space, id, name, 0)?;
    Ok(bare_wants(volume, space, change))
}

/// The tree that has to grow for the next step, where that drops an attribute of this file, which is the one with the least CNID of those that wait.
fn owner_wants<P: SectorSpace>(
    volume: &mut Volume,
    alloc: Global,
    space: &mut P,
    id: u32,
) -> Result<Option<TreeWanted>, Trouble>
    requires serves { Serves volume.old (P.SectorView.space space.old) }
    requires lowest { IsTrue (P.SectorView.space space.old).tells → least (orphans_of (records_of (volume_of (P.SectorView.space space.old).content))) ≡ Some id }
    requires kept { IsTrue (P.SectorView.space space.old).tells → has_surplus_left (volume_of (P.SectorView.space space.old).content) (shrunk_of volume.old) ≡ false }
    ensures awaits { IsTrue (P.SectorView.space space.old).tells → IfOk result (λ found. IfSome found (AwaitsGrowth (capacity_of volume.old) (shrunk_of volume.old) (P.SectorView.space space.old).content)) }
    ensures looked { Looked P.SectorView.space P.SectorView.follows volume.old volume.new space.old space.new result }
    ensures serves { Serves volume.new (P.SectorView.space space.new) }
{
    let found = next_owned(volume, alloc, space, id)?;
    if let Some(name) = found {
        return value_wants(volume, alloc, space, id, &name);
    }
    Ok(None)
}

/// The tree that has to grow for the next step, where that is of this file, which is the one with the least CNID of those that wait.
fn waiting_wants<P: SectorSpace>(
    volume: &mut Volume,
    alloc: Global,
    space: &mut P,
    id: u32,
) -> Result<Option<TreeWanted>, Trouble>
    requires serves { Serves volume.old (P.SectorView.space space.old) }
    requires lowest { IsTrue (P.SectorView.space space.old).tells → least (orphans_of (records_of (volume_of (P.SectorView.space space.old).content))) ≡ Some id }
    requires kept { IsTrue (P.SectorView.space space.old).tells → has_surplus_left (volume_of (P.SectorView.space space.old).content) (shrunk_of volume.old) ≡ false }
    ensures awaits { IsTrue (P.SectorView.space space.old).tells → IfOk result (λ found. IfSome found (AwaitsGrowth (capacity_of volume.old) (shrunk_of volume.old) (P.SectorView.space space.old).content)) }
    ensures looked { Looked P.SectorView.space P.SectorView.follows volume.old volume.new space.old space.new result }
    ensures serves { Serves volume.new (P.SectorView.space space.new) }
{
    let found = bare_waiting(volume, alloc, space, id)?;
    if let Some(_entry) = found {
        return Ok(drop_wants(volume, space));
    }
    owner_wants(volume, alloc, space, id)
}

/// The same where the file that was shrunk last has no blocks past its size.
fn unshrunk_wants<P: SectorSpace>(
    volume: &mut Volume,
    alloc: Global,
    space: &mut P,
) -> Result<Option<TreeWanted>, Trouble>
    requires serves { Serves volume.old (P.SectorView.space space.old) }
    requires kept { IsTrue (P.SectorView.space space.old).tells → has_surplus_left (volume_of (P.SectorView.space space.old).content) (shrunk_of volume.old) ≡ false }
    ensures awaits { IsTrue (P.SectorView.space space.old).tells → IfOk result (λ found. IfSome found (AwaitsGrowth (capacity_of volume.old) (shrunk_of volume.old) (P.SectorView.space space.old).content)) }
    ensures looked { Looked P.SectorView.space P.SectorView.follows volume.old volume.new space.old space.new result }
    ensures serves { Serves volume.new (P.SectorView.space space.new) }
{
    let found = next_waiting(volume, alloc, space)?;
    if let Some(id) = found {
        return waiting_wants(volume, alloc, space, id);
    }
    Ok(None)
}

/// The same where this is the file that was shrunk last.
fn shrunk_wants<P: SectorSpace>(
    volume: &mut Volume,
    alloc: Global,
    space: &mut P,
    id: u32,
    entry: &Entry,
) -> Result<Option<TreeWanted>, Trouble>
    requires serves { Serves volume.old (P.SectorView.space space.old) }
    requires there { IsTrue (P.SectorView.space space.old).tells → value_at (lists_of volume.old (P.SectorView.space space.old).content).catalog_pairs entry.now.parent entry.now.name ≡ Some entry.now.rec }
    requires shrunk { shrunk_of volume.old ≡ Some id }
    ensures awaits { IsTrue (P.SectorView.space space.old).tells → IfOk result (λ found. IfSome found (AwaitsGrowth (capacity_of volume.old) (shrunk_of volume.old) (P.SectorView.space space.old).content)) }
    ensures looked { Looked P.SectorView.space P.SectorView.follows volume.old volume.new space.old space.new result }
    ensures serves { Serves volume.new (P.SectorView.space space.new) }
{
    if !has_id(&entry.rec, id) {
        return Err(Trouble::Memory);
    }
    if let Some(_surplus) = surplus_in(&entry.rec, volume.header.block_size) {
        return Ok(None);
    }
    unshrunk_wants(volume, alloc, space)
}

/// The same where the file with this CNID was shrunk last.
fn behind_shrunk<P: SectorSpace>(
    volume: &mut Volume,
    alloc: Global,
    space: &mut P,
    id: u32,
) -> Result<Option<TreeWanted>, Trouble>
    requires serves { Serves volume.old (P.SectorView.space space.old) }
    requires shrunk { shrunk_of volume.old ≡ Some id }
    ensures awaits { IsTrue (P.SectorView.space space.old).tells → IfOk result (λ found. IfSome found (AwaitsGrowth (capacity_of volume.old) (shrunk_of volume.old) (P.SectorView.space space.old).content)) }
    ensures looked { Looked P.SectorView.space P.SectorView.follows volume.old volume.new space.old space.new result }
    ensures serves { Serves volume.new (P.SectorView.space space.new) }
{
    match volume.entry(alloc, space, id)? {
        Some(entry) => shrunk_wants(volume, alloc, space, id, &entry),
        None => unshrunk_wants(volume, alloc, space),
    }
}

/// Whether the attributes file may have to grow for the drop of an attribute: it hasn't nodes enough for as many edits as it has records.
fn may_want_attributes<P: SectorSpace>(volume: &Volume, space: &P) -> bool
    requires serves { Serves volume.now (P.SectorView.space space.now) }
{
    if volume.header.attributes_fork.logical_size == 0 {
        return false;
    }
    let edits = Edits {
        ids: 0,
        catalog: 0,
        attributes: volume.attributes.file.shape().leaf_records,
        updates: 1,
    };
    !grows_none(volume.cost_of_edits(space, FreeBlocks::All, edits))
}

/// Whether a tree may have to grow for a drop of an entry or of an attribute.
fn may_want<P: SectorSpace>(volume: &Volume, space: &P) -> bool
    requires serves { Serves volume.now (P.SectorView.space space.now) }
{
    if drop_wants(volume, space).is_some() {
        return true;
    }
    may_want_attributes(volume, space)
}

/// The tree that has to grow before the next step of reclaiming, by as many nodes as its cost says, where that step drops an entry or an attribute, and
/// nothing is missing for it. It only reads. `Memory` comes where memory is wanting, `Disk` where a read failed.
pub fn next_growth<P: SectorSpace>(
    volume: &mut Volume,
    alloc: Global,
    space: &mut P,
) -> Result<Option<TreeWanted>, Trouble>
    requires serves { Serves volume.old (P.SectorView.space space.old) }
    // Told, the next step awaits that growth.
    ensures awaits { IsTrue (P.SectorView.space space.old).tells → IfOk result (λ found. IfSome found (AwaitsGrowth (capacity_of volume.old) (shrunk_of volume.old) (P.SectorView.space space.old).content)) }
    ensures looked { Looked P.SectorView.space P.SectorView.follows volume.old volume.new space.old space.new result }
    ensures serves { Serves volume.new (P.SectorView.space space.new) }
{
    if !may_want(volume, space) {
        return Ok(None);
    }
    match volume.shrunk {
        Some(id) => behind_shrunk(volume, alloc, space, id),
        None => unshrunk_wants(volume, alloc, space),
    }
}
