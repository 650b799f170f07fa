//! The first link of a file.
ghost use Rattle.std.specs.Prelude.{◌≡◌, ◌≤◌, ◌<◌, ◌-◌, ◌^◌, false, None, Some, IsTrue, length, OnOk, IfOk};
ghost use Rattle.btree_node.specs.Keys.{IsCatalogKey, catalog_cmp};
ghost use Rattle.btree_node.specs.Store.{SameStore};
ghost use Rattle.btree_node.specs.Tree.{IsTree, pairs_of};
ghost use Rattle.btree_edit.specs.Causes.{HasTroubleCause};
ghost use Rattle.btree_edit.specs.Desk.{IsDeskOf};
ghost use Rattle.btree_edit.specs.Edits.{EditRoom, TakesEdits, TakesAtMost};
ghost use Rattle.cat_records.specs.Fits.{FitsFile};
ghost use Rattle.cat_records.specs.declared.record.CatRecord.TheVariants.{File};
ghost use Rattle.catalog.specs.Pairs.{value_at};
ghost use Rattle.catalog.specs.Rooms.{UpdateRoom, TakesUpdates, UpdatesAtMost};
ghost use Rattle.hfs_volume.specs.Entries.{AreSpelled};
ghost use Rattle.hfs_volume.specs.Links.{node_name};
ghost use Rattle.hfs_volume.specs.Records.{is_link_type};
ghost use Rattle.hard_links.specs.Linking.{MayLink, MayPut, PutsLinks, MakesFirst, IsNewTarget};
ghost use Rattle.hard_links.specs.Numbers.{OnlyReads};

use crate::counting::count_links;
use crate::naming::{NODE, node_name};
use crate::numbers::free_number;
use crate::place::EntryAt;
use crate::records::{Target, link, link_date};
use btree_edit::Desk;
use btree_node::NodeStore;
use cat_records::FileRecord;
use catalog::{add, move_entry};
use hx_bytes::{Trouble, Units};
use std::alloc::Global;

/// Moves a file into the private folder, and puts links to it at its old name and at a new one.
pub(crate) fn make_first<N: NodeStore>(
    alloc: Global,
    store: &mut N,
    desk: &mut Desk,
    private: u32,
    from: &EntryAt,
    to: &EntryAt,
    ids: (u32, u32),
    file: &FileRecord,
) -> Result<(), Trouble>
    requires desk { IsDeskOf (N.state store.old).shape.node_size desk.old }
    requires size { 4096 ≤ (N.state store.old).shape.node_size }
    requires tree { IsTrue (N.state store.old).tells → IsTree IsCatalogKey catalog_cmp (N.state store.old) }
    requires some_old { 1 ≤ length from.now.name }
    requires old_name { length from.now.name ≤ 255 }
    requires some_new { 1 ≤ length to.now.name }
    requires new_name { length to.now.name ≤ 255 }
    requires may { IsTrue (N.state store.old).tells → MayLink private from.now to.now ids.0 ids.1 (pairs_of (N.state store.old)) }
    requires value { IsTrue (N.state store.old).tells → value_at (pairs_of (N.state store.old)) from.now.parent from.now.name ≡ Some (File file.now) }
    requires plain { IsTrue (N.state store.old).tells → is_link_type file.now.fields ≡ false }
    requires fits { FitsFile file.now }
    requires room { IsTrue (N.state store.old).tells → UpdateRoom 7 1 516 (N.state store.old) }
    ensures linked { IsTrue (N.state store.old).tells → OnOk result (MakesFirst private from.now to.now ids.0 ids.1 (pairs_of (N.state store.old)) (pairs_of (N.state store.new))) }
    ensures tree { IsTrue (N.state store.old).tells → OnOk result (IsTree IsCatalogKey catalog_cmp (N.state store.new)) }
    ensures desk { IsDeskOf (N.state store.old).shape.node_size desk.new }
    ensures header { IsTrue (N.state store.old).tells → (N.state store.old).header ≡ (N.state store.old).shape → OnOk result ((N.state store.new).header ≡ (N.state store.new).shape) }
    ensures edits { OnOk result (TakesUpdates 7 1 516 (N.state store.old) (N.state store.new)) }
    ensures takes { UpdatesAtMost 7 1 516 (N.state store.old) (N.state store.new) }
    ensures same { SameStore (N.state store.old) (N.state store.new) }
    ensures cause { HasTroubleCause (N.state store.old).faults (N.state store.new).faults result }
    ensures below { N.follows store.old store.new }
{
    let target = new_target(alloc, store, desk, private, file.fields.id)?;
    let name = node_name(alloc, target.reference)?;
    share(
        alloc, store, desk, private, from, to, ids, &name, target, file,
    )?;
    Ok(())
}

/// The number of a file that gets its first link, and the create date of its links.
fn new_target<N: NodeStore>(
    alloc: Global,
    store: &mut N,
    desk: &mut Desk,
    private: u32,
    own: u32,
) -> Result<Target, Trouble>
    requires desk { IsDeskOf (N.state store.old).shape.node_size desk.old }
    requires tree { IsTrue (N.state store.old).tells → IsTree IsCatalogKey catalog_cmp (N.state store.old) }
    requires spelled { IsTrue (N.state store.old).tells → AreSpelled (pairs_of (N.state store.old)) }
    requires few { IsTrue (N.state store.old).tells → (N.state store.old).shape.leaf_records < 2 ^ 32 - 1 }
    ensures target { IsTrue (N.state store.old).tells → IfOk result (λ target. IsNewTarget private own (pairs_of (N.state store.old)) target) }
    ensures reads { OnlyReads (N.state store.old) (N.state store.new) }
    ensures desk { IsDeskOf (N.state store.old).shape.node_size desk.new }
    ensures cause { HasTroubleCause (N.state store.old).faults (N.state store.new).faults result }
    ensures below { N.follows store.old store.new }
{
    let reference = free_number(alloc, store, desk, private, NODE.as_slice(), own)?;
    let created = link_date(alloc, store, desk)?;
    Ok(Target { reference, created })
}

/// Moves a file into the private folder under a free name, puts two links there, and has it say that it has two.
fn share<N: NodeStore>(
    alloc: Global,
    store: &mut N,
    desk: &mut Desk,
    private: u32,
    from: &EntryAt,
    to: &EntryAt,
    ids: (u32, u32),
    name: &Units,
    target: Target,
    file: &FileRecord,
) -> Result<(), Trouble>
    requires desk { IsDeskOf (N.state store.old).shape.node_size desk.old }
    requires size { 4096 ≤ (N.state store.old).shape.node_size }
    requires tree { IsTrue (N.state store.old).tells → IsTree IsCatalogKey catalog_cmp (N.state store.old) }
    requires some_old { 1 ≤ length from.now.name }
    requires old_name { length from.now.name ≤ 255 }
    requires some_new { 1 ≤ length to.now.name }
    requires new_name { length to.now.name ≤ 255 }
    requires may { IsTrue (N.state store.old).tells → MayLink private from.now to.now ids.0 ids.1 (pairs_of (N.state store.old)) }
    requires value { IsTrue (N.state store.old).tells → value_at (pairs_of (N.state store.old)) from.now.parent from.now.name ≡ Some (File file.now) }
    requires plain { IsTrue (N.state store.old).tells → is_link_type file.now.fields ≡ false }
    requires fits { FitsFile file.now }
    requires target { IsTrue (N.state store.old).tells → IsNewTarget private file.now.fields.id (pairs_of (N.state store.old)) target }
    requires named { name.now ≡ node_name target.reference }
    requires some { 1 ≤ length name.now }
    requires short { length name.now ≤ 255 }
    requires room { IsTrue (N.state store.old).tells → UpdateRoom 7 1 516 (N.state store.old) }
    ensures linked { IsTrue (N.state store.old).tells → OnOk result (MakesFirst private from.now to.now ids.0 ids.1 (pairs_of (N.state store.old)) (pairs_of (N.state store.new))) }
    ensures tree { IsTrue (N.state store.old).tells → OnOk result (IsTree IsCatalogKey catalog_cmp (N.state store.new)) }
    ensures desk { IsDeskOf (N.state store.old).shape.node_size desk.new }
    ensures header { IsTrue (N.state store.old).tells → (N.state store.old).header ≡ (N.state store.old).shape → OnOk result ((N.state store.new).header ≡ (N.state store.new).shape) }
    ensures edits { OnOk result (TakesUpdates 7 1 516 (N.state store.old) (N.state store.new)) }
    ensures takes { UpdatesAtMost 7 1 516 (N.state store.old) (N.state store.new) }
    ensures same { SameStore (N.state store.old) (N.state store.new) }
    ensures cause { HasTroubleCause (N.state store.old).faults (N.state store.new).faults result }
    ensures below { N.follows store.old store.new }
{
    move_entry(alloc, store, desk, from.parent, &from.name, private, name)?;
    put_links(alloc, store, desk, from, to, ids, target)?;
    count_links(alloc, store, desk, private, name, file, 2)?;
    Ok(())
}

/// Puts links to one file at two places.
fn put_links<N: NodeStore>(
    alloc: Global,
    store: &mut N,
    desk: &mut Desk,
    from: &EntryAt,
    to: &EntryAt,
    ids: (u32, u32),
    target: Target,
) -> Result<(), Trouble>
    requires desk { IsDeskOf (N.state store.old).shape.node_size desk.old }
    requires size { 4096 ≤ (N.state store.old).shape.node_size }
    requires tree { IsTrue (N.state store.old).tells → IsTree IsCatalogKey catalog_cmp (N.state store.old) }
    requires some_old { 1 ≤ length from.now.name }
    requires old_name { length from.now.name ≤ 255 }
    requires some_new { 1 ≤ length to.now.name }
    requires new_name { length to.now.name ≤ 255 }
    requires may { IsTrue (N.state store.old).tells → MayPut from.now to.now ids.0 ids.1 (pairs_of (N.state store.old)) }
    requires room { IsTrue (N.state store.old).tells → EditRoom 4 516 (N.state store.old) }
    ensures puts { IsTrue (N.state store.old).tells
        → OnOk result (PutsLinks from.now to.now ids.0 ids.1 target.reference target.created (pairs_of (N.state store.old)) (pairs_of (N.state store.new))) }
    ensures tree { IsTrue (N.state store.old).tells → OnOk result (IsTree IsCatalogKey catalog_cmp (N.state store.new)) }
    ensures desk { IsDeskOf (N.state store.old).shape.node_size desk.new }
    ensures header { IsTrue (N.state store.old).tells → (N.state store.old).header ≡ (N.state store.old).shape → OnOk result ((N.state store.new).header ≡ (N.state store.new).shape) }
    ensures edits { OnOk result (TakesEdits 4 516 (N.state store.old) (N.state store.new)) }
    ensures takes { TakesAtMost 4 516 (N.state store.old) (N.state store.new) }
    ensures same { SameStore (N.state store.old) (N.state store.new) }
    ensures cause { HasTroubleCause (N.state store.old).faults (N.state store.new).faults result }
    ensures below { N.follows store.old store.new }
{
    let first = link(ids.0, target);
    add(alloc, store, desk, from.parent, &from.name, &first)?;
    let second = link(ids.1, target);
    add(alloc, store, desk, to.parent, &to.name, &second)?;
    Ok(())
}
