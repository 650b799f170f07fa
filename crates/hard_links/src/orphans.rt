//! Files that wait to be removed.
ghost use Rattle.std.specs.Prelude.{◌≡◌, ◌≤◌, ◌<◌, ◌-◌, ◌^◌, None, Some, List, IsTrue, length, IfOk, OnOk};
ghost use Rattle.btree_node.specs.Keys.{IsCatalogKey, catalog_cmp};
ghost use Rattle.btree_node.specs.Store.{SameStore};
ghost use Rattle.btree_node.specs.Tree.{IsTree, pairs_of};
ghost use Rattle.btree_edit.specs.Causes.{HasTroubleCause};
ghost use Rattle.btree_edit.specs.Desk.{IsDeskOf};
ghost use Rattle.btree_edit.specs.Edits.{EditRoom, TakesEdits, TakesAtMost};
ghost use Rattle.catalog.specs.Entries.{RelocatesEntry};
ghost use Rattle.hfs_volume.specs.Entries.{AreSpelled, AreThreaded};
ghost use Rattle.hfs_volume.specs.Links.{AreLinks, private_id};
ghost use Rattle.hfs_volume.specs.Records.{Overflow, placed_in, record_at};
ghost use Rattle.hard_links.specs.Orphans.{NamesFile, IsOrphanNumber, MakesOrphan, file_in};
ghost use Rattle.hard_links.specs.Numbers.{OnlyReads};
ghost use Rattle.hard_links.specs.Rules.{AreLinksBut, NamesNoLink};

use crate::naming::{TEMP, orphan_name};
use crate::numbers::free_number;
use crate::place::EntryAt;
use btree_edit::Desk;
use btree_node::NodeStore;
use cat_records::{CatRecord, FileRecord};
use catalog::{lookup, move_entry};
use hx_bytes::{Trouble, Units};
use std::alloc::Global;

/// Moves a file that lost its last name into the private folder, under the word `temp` and a number, where it waits to be removed.
pub fn orphan<N: NodeStore>(
    alloc: Global,
    store: &mut N,
    desk: &mut Desk,
    private: u32,
    at: &EntryAt,
) -> Result<(), Trouble>
    requires desk { IsDeskOf (N.state store.old).shape.node_size desk.old }
    // The least node size that the format allows the catalog.
    requires size { 4096 ≤ (N.state store.old).shape.node_size }
    requires tree { IsTrue (N.state store.old).tells → IsTree IsCatalogKey catalog_cmp (N.state store.old) }
    requires threads { IsTrue (N.state store.old).tells → AreThreaded (pairs_of (N.state store.old)) }
    requires some { 1 ≤ length at.now.name }
    requires name { length at.now.name ≤ 255 }
    requires file { IsTrue (N.state store.old).tells → NamesFile at.now (pairs_of (N.state store.old)) }
    requires room { IsTrue (N.state store.old).tells → EditRoom 3 516 (N.state store.old) }
    // The file and what its thread tells are moved to the first free number from its CNID on, and nothing else is changed.
    ensures moved { IsTrue (N.state store.old).tells → OnOk result (MakesOrphan private at.now (pairs_of (N.state store.old)) (pairs_of (N.state store.new))) }
    // Where no link names the file, and it is none itself, the links keep their rules, whatever it counted.
    ensures rules { IsTrue (N.state store.old).tells → (overflow : List Overflow) → private_id (placed_in (pairs_of (N.state store.old))) ≡ Some private → NamesNoLink at.now (pairs_of (N.state store.old))
        → AreLinksBut at.now.parent at.now.name (placed_in (pairs_of (N.state store.old))) overflow → OnOk result (AreLinks (placed_in (pairs_of (N.state store.new))) overflow) }
    ensures tree { IsTrue (N.state store.old).tells → OnOk result (IsTree IsCatalogKey catalog_cmp (N.state store.new)) }
    ensures desk { IsDeskOf (N.state store.old).shape.node_size desk.new }
    ensures header { IsTrue (N.state store.old).tells → (N.state store.old).header ≡ (N.state store.old).shape → OnOk result ((N.state store.new).header ≡ (N.state store.new).shape) }
    ensures edits { OnOk result (TakesEdits 3 516 (N.state store.old) (N.state store.new)) }
    ensures takes { TakesAtMost 3 516 (N.state store.old) (N.state store.new) }
    ensures same { SameStore (N.state store.old) (N.state store.new) }
    ensures cause { HasTroubleCause (N.state store.old).faults (N.state store.new).faults result }
    ensures below { N.follows store.old store.new }
{
    let number = orphan_number(alloc, store, desk, private, at)?;
    let name = orphan_name(alloc, number)?;
    put_aside(alloc, store, desk, private, at, &name)?;
    Ok(())
}

/// The number that a file gets, once it has lost its last name.
fn orphan_number<N: NodeStore>(
    alloc: Global,
    store: &mut N,
    desk: &mut Desk,
    private: u32,
    at: &EntryAt,
) -> Result<u32, Trouble>
    requires desk { IsDeskOf (N.state store.old).shape.node_size desk.old }
    requires tree { IsTrue (N.state store.old).tells → IsTree IsCatalogKey catalog_cmp (N.state store.old) }
    requires spelled { IsTrue (N.state store.old).tells → AreSpelled (pairs_of (N.state store.old)) }
    requires name { length at.now.name ≤ 255 }
    requires file { IsTrue (N.state store.old).tells → NamesFile at.now (pairs_of (N.state store.old)) }
    requires few { IsTrue (N.state store.old).tells → (N.state store.old).shape.leaf_records < 2 ^ 32 - 1 }
    ensures number { IsTrue (N.state store.old).tells → IfOk result (λ number. IsOrphanNumber private at.now (pairs_of (N.state store.old)) number) }
    ensures reads { OnlyReads (N.state store.old) (N.state store.new) }
    ensures desk { IsDeskOf (N.state store.old).shape.node_size desk.new }
    ensures cause { HasTroubleCause (N.state store.old).faults (N.state store.new).faults result }
    ensures below { N.follows store.old store.new }
{
    match file_in(lookup(alloc, store, desk, at.parent, &at.name)?) {
        Some(file) => free_number(alloc, store, desk, private, TEMP.as_slice(), file.fields.id),
        // A file stands there.
        None => Ok(0),
    }
}

/// The file in a record that is a file's.
pub(crate) fn file_in(found: Option<CatRecord>) -> Option<FileRecord>
    ensures { result ≡ file_in found }
{
    match found {
        Some(CatRecord::File(file)) => Some(file),
        Some(CatRecord::Folder(_)) => None,
        Some(CatRecord::Thread(_)) => None,
        None => None,
    }
}

/// Moves an entry that is there into the private folder, under a name that isn't there.
fn put_aside<N: NodeStore>(
    alloc: Global,
    store: &mut N,
    desk: &mut Desk,
    private: u32,
    at: &EntryAt,
    name: &Units,
) -> Result<(), Trouble>
    requires desk { IsDeskOf (N.state store.old).shape.node_size desk.old }
    requires size { 4096 ≤ (N.state store.old).shape.node_size }
    requires tree { IsTrue (N.state store.old).tells → IsTree IsCatalogKey catalog_cmp (N.state store.old) }
    requires threads { IsTrue (N.state store.old).tells → AreThreaded (pairs_of (N.state store.old)) }
    requires some { 1 ≤ length at.now.name }
    requires name { length at.now.name ≤ 255 }
    requires some_new { 1 ≤ length name.now }
    requires new_name { length name.now ≤ 255 }
    requires file { IsTrue (N.state store.old).tells → NamesFile at.now (pairs_of (N.state store.old)) }
    requires vacant { IsTrue (N.state store.old).tells → record_at (placed_in (pairs_of (N.state store.old))) private name.now ≡ None }
    requires room { IsTrue (N.state store.old).tells → EditRoom 3 516 (N.state store.old) }
    ensures moved { IsTrue (N.state store.old).tells → OnOk result (RelocatesEntry at.now.parent at.now.name private name.now (pairs_of (N.state store.old)) (pairs_of (N.state store.new))) }
    ensures tree { IsTrue (N.state store.old).tells → OnOk result (IsTree IsCatalogKey catalog_cmp (N.state store.new)) }
    ensures desk { IsDeskOf (N.state store.old).shape.node_size desk.new }
    ensures header { IsTrue (N.state store.old).tells → (N.state store.old).header ≡ (N.state store.old).shape → OnOk result ((N.state store.new).header ≡ (N.state store.new).shape) }
    ensures edits { OnOk result (TakesEdits 3 516 (N.state store.old) (N.state store.new)) }
    ensures takes { TakesAtMost 3 516 (N.state store.old) (N.state store.new) }
    ensures same { SameStore (N.state store.old) (N.state store.new) }
    ensures cause { HasTroubleCause (N.state store.old).faults (N.state store.new).faults result }
    ensures below { N.follows store.old store.new }
{
    move_entry(alloc, store, desk, at.parent, &at.name, private, name)?;
    Ok(())
}
