//! Later links of a file.
ghost use Rattle.std.specs.Prelude.{◌≡◌, ◌≤◌, ◌<◌, ◌+◌, false, None, Some, IsTrue, length, OnOk, IfOk};
ghost use Rattle.btree_node.specs.Keys.{IsCatalogKey, catalog_cmp};
ghost use Rattle.btree_node.specs.Store.{SameStore};
ghost use Rattle.btree_node.specs.Tree.{IsTree, pairs_of};
ghost use Rattle.btree_edit.specs.Causes.{HasTroubleCause};
ghost use Rattle.btree_edit.specs.Desk.{IsDeskOf};
ghost use Rattle.cat_records.specs.Fits.{FitsFile};
ghost use Rattle.cat_records.specs.declared.record.CatRecord.TheVariants.{File};
ghost use Rattle.catalog.specs.Pairs.{value_at};
ghost use Rattle.catalog.specs.Rooms.{UpdateRoom, TakesUpdates, UpdatesAtMost};
ghost use Rattle.hfs_volume.specs.Entries.{AreSpelled};
ghost use Rattle.hfs_volume.specs.Links.{node_name};
ghost use Rattle.hfs_volume.specs.Records.{placed_in, record_at, is_link_type};
ghost use Rattle.hard_links.specs.Linking.{MayLink, NamesLink, MakesLink, SharedBy, AddsLink, IsUnused};

use crate::counting::count_links;
use crate::linking::Linked;
use crate::place::EntryAt;
use crate::records::{Target, link, link_date};
use crate::shared::{Shared, shared_of};
use btree_edit::Desk;
use btree_node::NodeStore;
use catalog::add;
use hx_bytes::Trouble;
use std::alloc::Global;

/// How many names a file has at most.
const MOST_NAMES: u32 = 32_767;

/// Gives the file that a link names another name.
pub(crate) fn make_more<N: NodeStore>(
    alloc: Global,
    store: &mut N,
    desk: &mut Desk,
    private: u32,
    from: &EntryAt,
    to: &EntryAt,
    ids: (u32, u32),
) -> Result<Linked, Trouble>
    requires desk { IsDeskOf (N.state store.old).shape.node_size desk.old }
    requires size { 4096 ≤ (N.state store.old).shape.node_size }
    requires tree { IsTrue (N.state store.old).tells → IsTree IsCatalogKey catalog_cmp (N.state store.old) }
    requires some_old { 1 ≤ length from.now.name }
    requires old_name { length from.now.name ≤ 255 }
    requires some_new { 1 ≤ length to.now.name }
    requires new_name { length to.now.name ≤ 255 }
    requires may { IsTrue (N.state store.old).tells → MayLink private from.now to.now ids.0 ids.1 (pairs_of (N.state store.old)) }
    requires link { IsTrue (N.state store.old).tells → NamesLink from.now (pairs_of (N.state store.old)) }
    requires room { IsTrue (N.state store.old).tells → UpdateRoom 2 1 516 (N.state store.old) }
    ensures linked { IsTrue (N.state store.old).tells → IfOk result (λ answer. MakesLink private from.now to.now ids.0 ids.1 (pairs_of (N.state store.old)) (pairs_of (N.state store.new)) answer) }
    ensures tree { IsTrue (N.state store.old).tells → OnOk result (IsTree IsCatalogKey catalog_cmp (N.state store.new)) }
    ensures desk { IsDeskOf (N.state store.old).shape.node_size desk.new }
    ensures header { IsTrue (N.state store.old).tells → (N.state store.old).header ≡ (N.state store.old).shape → OnOk result ((N.state store.new).header ≡ (N.state store.new).shape) }
    ensures edits { OnOk result (TakesUpdates 2 1 516 (N.state store.old) (N.state store.new)) }
    ensures takes { UpdatesAtMost 2 1 516 (N.state store.old) (N.state store.new) }
    ensures same { SameStore (N.state store.old) (N.state store.new) }
    ensures cause { HasTroubleCause (N.state store.old).faults (N.state store.new).faults result }
    ensures below { N.follows store.old store.new }
{
    match shared_of(alloc, store, desk, private, from)? {
        Some(shared) => add_more(alloc, store, desk, private, from, to, ids, &shared),
        // There is a link, and its file.
        None => Ok(Linked::Done),
    }
}

/// Gives a file another name, where it may have one more.
fn add_more<N: NodeStore>(
    alloc: Global,
    store: &mut N,
    desk: &mut Desk,
    private: u32,
    from: &EntryAt,
    to: &EntryAt,
    ids: (u32, u32),
    shared: &Shared,
) -> Result<Linked, Trouble>
    requires desk { IsDeskOf (N.state store.old).shape.node_size desk.old }
    requires size { 4096 ≤ (N.state store.old).shape.node_size }
    requires tree { IsTrue (N.state store.old).tells → IsTree IsCatalogKey catalog_cmp (N.state store.old) }
    requires some_new { 1 ≤ length to.now.name }
    requires new_name { length to.now.name ≤ 255 }
    requires may { IsTrue (N.state store.old).tells → MayLink private from.now to.now ids.0 ids.1 (pairs_of (N.state store.old)) }
    requires shares { IsTrue (N.state store.old).tells → SharedBy private from.now shared.now (pairs_of (N.state store.old)) }
    requires named { shared.now.name ≡ node_name shared.now.reference }
    requires short { length shared.now.name ≤ 255 }
    requires fits { FitsFile shared.now.file }
    requires room { IsTrue (N.state store.old).tells → UpdateRoom 2 1 516 (N.state store.old) }
    ensures linked { IsTrue (N.state store.old).tells → IfOk result (λ answer. MakesLink private from.now to.now ids.0 ids.1 (pairs_of (N.state store.old)) (pairs_of (N.state store.new)) answer) }
    ensures tree { IsTrue (N.state store.old).tells → OnOk result (IsTree IsCatalogKey catalog_cmp (N.state store.new)) }
    ensures desk { IsDeskOf (N.state store.old).shape.node_size desk.new }
    ensures header { IsTrue (N.state store.old).tells → (N.state store.old).header ≡ (N.state store.old).shape → OnOk result ((N.state store.new).header ≡ (N.state store.new).shape) }
    ensures edits { OnOk result (TakesUpdates 2 1 516 (N.state store.old) (N.state store.new)) }
    ensures takes { UpdatesAtMost 2 1 516 (N.state store.old) (N.state store.new) }
    ensures same { SameStore (N.state store.old) (N.state store.new) }
    ensures cause { HasTroubleCause (N.state store.old).faults (N.state store.new).faults result }
    ensures below { N.follows store.old store.new }
{
    if shared.file.fields.special >= MOST_NAMES {
        return Ok(Linked::TooManyLinks);
    }
    let created = link_date(alloc, store, desk)?;
    put_link(alloc, store, desk, private, to, ids.0, created, shared)?;
    Ok(Linked::Done)
}

/// Puts a link to a file at a place, and has the file say that it has one more.
fn put_link<N: NodeStore>(
    alloc: Global,
    store: &mut N,
    desk: &mut Desk,
    private: u32,
    to: &EntryAt,
    id: u32,
    created: u32,
    shared: &Shared,
) -> Result<(), Trouble>
    requires desk { IsDeskOf (N.state store.old).shape.node_size desk.old }
    requires size { 4096 ≤ (N.state store.old).shape.node_size }
    requires tree { IsTrue (N.state store.old).tells → IsTree IsCatalogKey catalog_cmp (N.state store.old) }
    requires spelled { IsTrue (N.state store.old).tells → AreSpelled (pairs_of (N.state store.old)) }
    requires some_new { 1 ≤ length to.now.name }
    requires new_name { length to.now.name ≤ 255 }
    requires vacant { IsTrue (N.state store.old).tells → record_at (placed_in (pairs_of (N.state store.old))) to.now.parent to.now.name ≡ None }
    requires outside { IsTrue (N.state store.old).tells → to.now.parent ≡ private → ⊥ }
    requires unused { IsTrue (N.state store.old).tells → IsUnused (pairs_of (N.state store.old)) id }
    requires named { shared.now.name ≡ node_name shared.now.reference }
    requires short { length shared.now.name ≤ 255 }
    requires fits { FitsFile shared.now.file }
    requires few { shared.now.file.fields.special < 32767 }
    requires plain { IsTrue (N.state store.old).tells → is_link_type shared.now.file.fields ≡ false }
    requires stands { IsTrue (N.state store.old).tells → value_at (pairs_of (N.state store.old)) private shared.now.name ≡ Some (File shared.now.file) }
    requires room { IsTrue (N.state store.old).tells → UpdateRoom 2 1 516 (N.state store.old) }
    ensures adds { IsTrue (N.state store.old).tells
        → OnOk result (AddsLink private to.now id shared.now.reference created (shared.now.file.fields.special + 1) (pairs_of (N.state store.old)) (pairs_of (N.state store.new))) }
    ensures tree { IsTrue (N.state store.old).tells → OnOk result (IsTree IsCatalogKey catalog_cmp (N.state store.new)) }
    ensures desk { IsDeskOf (N.state store.old).shape.node_size desk.new }
    ensures header { IsTrue (N.state store.old).tells → (N.state store.old).header ≡ (N.state store.old).shape → OnOk result ((N.state store.new).header ≡ (N.state store.new).shape) }
    ensures edits { OnOk result (TakesUpdates 2 1 516 (N.state store.old) (N.state store.new)) }
    ensures takes { UpdatesAtMost 2 1 516 (N.state store.old) (N.state store.new) }
    ensures same { SameStore (N.state store.old) (N.state store.new) }
    ensures cause { HasTroubleCause (N.state store.old).faults (N.state store.new).faults result }
    ensures below { N.follows store.old store.new }
{
    let target = Target {
        reference: shared.reference,
        created,
    };
    let rec = link(id, target);
    add(alloc, store, desk, to.parent, &to.name, &rec)?;
    let many = shared.file.fields.special + 1;
    count_links(
        alloc,
        store,
        desk,
        private,
        &shared.name,
        &shared.file,
        many,
    )?;
    Ok(())
}
