//! Links dropped.
ghost use Rattle.std.specs.Prelude.{◌≡◌, ◌≤◌, ◌-◌, ◌<◌, false, None, Some, List, IsTrue, length, OnOk, IfOk};
ghost use Rattle.btree_node.specs.Keys.{IsCatalogKey, catalog_cmp};
ghost use Rattle.btree_node.specs.Store.{HasRoom, SameStore};
ghost use Rattle.btree_node.specs.Tree.{IsTree, pairs_of};
ghost use Rattle.btree_edit.specs.Causes.{HasTroubleCause};
ghost use Rattle.btree_edit.specs.Desk.{IsDeskOf};
ghost use Rattle.cat_records.specs.Fits.{FitsFile};
ghost use Rattle.cat_records.specs.declared.record.CatRecord.TheVariants.{File};
ghost use Rattle.catalog.specs.Pairs.{value_at};
ghost use Rattle.catalog.specs.Rooms.{UpdateRoom, TakesUpdates, UpdatesAtMost};
ghost use Rattle.hfs_volume.specs.Entries.{AreSpelled, AreThreaded};
ghost use Rattle.hfs_volume.specs.Links.{AreLinks, node_name};
ghost use Rattle.hfs_volume.specs.Records.{Placed, Overflow, placed_in, record_at, is_link_type, special_of};
ghost use Rattle.hard_links.specs.Linking.{HasLinks, NamesLink, DropsLink, SharedBy, SaysLeft};
ghost use Rattle.hard_links.specs.Rules.{KeepsRules};

use crate::counting::count_links;
use crate::place::EntryAt;
use crate::shared::{Shared, shared_of};
use btree_edit::Desk;
use btree_node::NodeStore;
use cat_records::FileRecord;
use catalog::remove;
use hx_bytes::{Trouble, Units};
use std::alloc::Global;

/// Removes a link, and answers how many names its file has left, which the file then says. Where none is left the file stays as it is,
/// under its number in the private folder: it is the caller's to make it an orphan.
pub fn drop_link<N: NodeStore>(
    alloc: Global,
    store: &mut N,
    desk: &mut Desk,
    private: u32,
    at: &EntryAt,
) -> Result<u32, Trouble>
    requires desk { IsDeskOf (N.state store.old).shape.node_size desk.old }
    // The least node size that the format allows the catalog.
    requires size { 4096 ≤ (N.state store.old).shape.node_size }
    requires tree { IsTrue (N.state store.old).tells → IsTree IsCatalogKey catalog_cmp (N.state store.old) }
    requires threads { IsTrue (N.state store.old).tells → AreThreaded (pairs_of (N.state store.old)) }
    requires links { IsTrue (N.state store.old).tells → HasLinks private (pairs_of (N.state store.old)) }
    requires some { 1 ≤ length at.now.name }
    requires name { length at.now.name ≤ 255 }
    requires link { IsTrue (N.state store.old).tells → NamesLink at.now (pairs_of (N.state store.old)) }
    requires room { IsTrue (N.state store.old).tells → UpdateRoom 2 1 516 (N.state store.old) }
    // The link and its thread are gone, the file's record says how many links are left where some are, and nothing else is changed.
    ensures dropped { IsTrue (N.state store.old).tells → IfOk result (λ left. DropsLink private at.now left (pairs_of (N.state store.old)) (pairs_of (N.state store.new))) }
    // The links keep their rules, and each file with links has their number; a file without one is still to be put aside.
    ensures rules { IsTrue (N.state store.old).tells → (overflow : List Overflow) → AreLinks (placed_in (pairs_of (N.state store.old))) overflow
        → IfOk result (λ left. KeepsRules private at.now left (pairs_of (N.state store.old)) (pairs_of (N.state store.new)) overflow) }
    ensures tree { IsTrue (N.state store.old).tells → OnOk result (IsTree IsCatalogKey catalog_cmp (N.state store.new)) }
    ensures desk { IsDeskOf (N.state store.old).shape.node_size desk.new }
    ensures header { IsTrue (N.state store.old).tells → (N.state store.old).header ≡ (N.state store.old).shape → OnOk result ((N.state store.new).header ≡ (N.state store.new).shape) }
    ensures edits { OnOk result (TakesUpdates 2 1 516 (N.state store.old) (N.state store.new)) }
    ensures takes { UpdatesAtMost 2 1 516 (N.state store.old) (N.state store.new) }
    ensures same { SameStore (N.state store.old) (N.state store.new) }
    ensures cause { HasTroubleCause (N.state store.old).faults (N.state store.new).faults result }
    ensures below { N.follows store.old store.new }
{
    match shared_of(alloc, store, desk, private, at)? {
        // There is a link, and its file.
        None => Ok(0),
        Some(shared) => drop_counted(alloc, store, desk, private, at, &shared),
    }
}

/// Removes the link to a file, and has the file say how many are left.
fn drop_counted<N: NodeStore>(
    alloc: Global,
    store: &mut N,
    desk: &mut Desk,
    private: u32,
    at: &EntryAt,
    shared: &Shared,
) -> Result<u32, Trouble>
    requires desk { IsDeskOf (N.state store.old).shape.node_size desk.old }
    requires size { 4096 ≤ (N.state store.old).shape.node_size }
    requires tree { IsTrue (N.state store.old).tells → IsTree IsCatalogKey catalog_cmp (N.state store.old) }
    requires threads { IsTrue (N.state store.old).tells → AreThreaded (pairs_of (N.state store.old)) }
    requires some { 1 ≤ length at.now.name }
    requires name { length at.now.name ≤ 255 }
    requires short { length shared.now.name ≤ 255 }
    requires fits { FitsFile shared.now.file }
    requires shares { IsTrue (N.state store.old).tells → SharedBy private at.now shared.now (pairs_of (N.state store.old)) }
    requires room { IsTrue (N.state store.old).tells → UpdateRoom 2 1 516 (N.state store.old) }
    ensures dropped { IsTrue (N.state store.old).tells → IfOk result (λ left. DropsLink private at.now left (pairs_of (N.state store.old)) (pairs_of (N.state store.new))) }
    ensures tree { IsTrue (N.state store.old).tells → OnOk result (IsTree IsCatalogKey catalog_cmp (N.state store.new)) }
    ensures desk { IsDeskOf (N.state store.old).shape.node_size desk.new }
    ensures header { IsTrue (N.state store.old).tells → (N.state store.old).header ≡ (N.state store.old).shape → OnOk result ((N.state store.new).header ≡ (N.state store.new).shape) }
    ensures edits { OnOk result (TakesUpdates 2 1 516 (N.state store.old) (N.state store.new)) }
    ensures takes { UpdatesAtMost 2 1 516 (N.state store.old) (N.state store.new) }
    ensures same { SameStore (N.state store.old) (N.state store.new) }
    ensures cause { HasTroubleCause (N.state store.old).faults (N.state store.new).faults result }
    ensures below { N.follows store.old store.new }
{
    remove(alloc, store, desk, at.parent, &at.name)?;
    let left = shared.file.fields.special.saturating_sub(1);
    say_left(
        alloc,
        store,
        desk,
        private,
        &shared.name,
        &shared.file,
        left,
    )?;
    Ok(left)
}

/// Has the record of a shared file say how many links are left; where none is, it stays as it is.
fn say_left<N: NodeStore>(
    alloc: Global,
    store: &mut N,
    desk: &mut Desk,
    private: u32,
    name: &Units,
    file: &FileRecord,
    left: u32,
) -> Result<(), Trouble>
    requires desk { IsDeskOf (N.state store.old).shape.node_size desk.old }
    requires size { 4096 ≤ (N.state store.old).shape.node_size }
    requires tree { IsTrue (N.state store.old).tells → IsTree IsCatalogKey catalog_cmp (N.state store.old) }
    requires spelled { IsTrue (N.state store.old).tells → AreSpelled (pairs_of (N.state store.old)) }
    requires name { length name.now ≤ 255 }
    requires fits { FitsFile file.now }
    requires plain { IsTrue (N.state store.old).tells → is_link_type file.now.fields ≡ false }
    requires stands { IsTrue (N.state store.old).tells → value_at (pairs_of (N.state store.old)) private name.now ≡ Some (File file.now) }
    requires room { IsTrue (N.state store.old).tells → HasRoom 1 (N.state store.old) }
    ensures left { IsTrue (N.state store.old).tells → OnOk result (SaysLeft private name.now left (pairs_of (N.state store.old)) (pairs_of (N.state store.new))) }
    ensures tree { IsTrue (N.state store.old).tells → OnOk result (IsTree IsCatalogKey catalog_cmp (N.state store.new)) }
    ensures header { IsTrue (N.state store.old).tells → (N.state store.old).header ≡ (N.state store.old).shape → OnOk result ((N.state store.new).header ≡ (N.state store.new).shape) }
    ensures edits { OnOk result (TakesUpdates 0 1 516 (N.state store.old) (N.state store.new)) }
    ensures takes { UpdatesAtMost 0 1 516 (N.state store.old) (N.state store.new) }
    ensures desk { IsDeskOf (N.state store.old).shape.node_size desk.new }
    ensures same { SameStore (N.state store.old) (N.state store.new) }
    ensures cause { HasTroubleCause (N.state store.old).faults (N.state store.new).faults result }
    ensures below { N.follows store.old store.new }
{
    if left == 0 {
        return Ok(());
    }
    count_links(alloc, store, desk, private, name, file, left)
}
