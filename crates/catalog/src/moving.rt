//! Entries moved.
ghost use Rattle.std.specs.Prelude.{◌≡◌, ◌≤◌, false, None, Some, IsTrue, length, OnOk, IfOk};
ghost use Rattle.btree_node.specs.Keys.{IsCatalogKey, catalog_cmp};
ghost use Rattle.btree_node.specs.Store.{HasCause, SameStore};
ghost use Rattle.btree_node.specs.Tree.{IsTree, pairs_of};
ghost use Rattle.btree_edit.specs.Causes.{HasTroubleCause};
ghost use Rattle.btree_edit.specs.Desk.{IsDeskOf, HasKey};
ghost use Rattle.btree_edit.specs.Edits.{EditRoom, TakesEdits, TakesAtMost};
ghost use Rattle.cat_records.specs.Fits.{FitsRecord};
ghost use Rattle.hfs_volume.specs.Entries.{AreThreaded};
ghost use Rattle.hfs_volume.specs.Records.{placed_in, record_at, is_thread};
ghost use Rattle.catalog.specs.Pairs.{IsCatalogPair, ShiftsPair, spare_in, value_at};
ghost use Rattle.catalog.specs.Entries.{AnswersMove, Moving, RelocatesEntry};

use crate::edits::{insert_pair, remove_key, replace_pair};
use crate::finding::{by_id, entry_at, lookup};
use crate::pair::{Pair, id_of, name_key, record_pair, thread_pair};
use btree_edit::Desk;
use btree_node::NodeStore;
use cat_records::{CatRecord, ThreadRecord};
use hx_bytes::{Bytes, Failed, Trouble, Units};
use std::alloc::Global;

/// How a move ended.
#[derive(Clone, Copy, Debug, PartialEq, Eq)]
pub enum Moved {
    Done,
    Absent,
    Exists,
}

/// Moves an entry to another name, in its folder or another. Its record stays as it is, and its thread tells the new place.
pub fn move_entry<N: NodeStore>(
    alloc: Global,
    store: &mut N,
    desk: &mut Desk,
    from: u32,
    old: &Units,
    to: u32,
    new: &Units,
) -> Result<Moved, Trouble>
    requires desk { IsDeskOf (N.state store.old).shape.node_size desk.old }
    // The least node size that the format allows the catalog.
    requires size { 4096 ≤ (N.state store.old).shape.node_size }
    requires tree { IsTrue (N.state store.old).tells → IsTree IsCatalogKey catalog_cmp (N.state store.old) }
    requires threads { IsTrue (N.state store.old).tells → AreThreaded (pairs_of (N.state store.old)) }
    requires some { 1 ≤ length old.now }
    requires old_name { length old.now ≤ 255 }
    requires some_new { 1 ≤ length new.now }
    requires new_name { length new.now ≤ 255 }
    requires room { IsTrue (N.state store.old).tells → EditRoom 3 516 (N.state store.old) }
    // Absent exactly where the old name isn't there, Exists exactly where it is there and the new one is there too.
    ensures answer { IsTrue (N.state store.old).tells
        → IfOk result (λ answer. AnswersMove (record_at (placed_in (pairs_of (N.state store.old))) from old.now) (record_at (placed_in (pairs_of (N.state store.old))) to new.now) answer) }
    // Done: the entry and what its thread tells are moved, and nothing else is changed. Absent and Exists: nothing is.
    ensures moved { IsTrue (N.state store.old).tells → IfOk result (λ answer. Moving from old.now to new.now (pairs_of (N.state store.old)) (pairs_of (N.state store.new)) answer) }
    ensures tree { IsTrue (N.state store.old).tells → OnOk result (IsTree IsCatalogKey catalog_cmp (N.state store.new)) }
    ensures desk { IsDeskOf (N.state store.old).shape.node_size desk.new }
    ensures header { IsTrue (N.state store.old).tells → (N.state store.old).header ≡ (N.state store.old).shape → OnOk result ((N.state store.new).header ≡ (N.state store.new).shape) }
    ensures edits { OnOk result (TakesEdits 3 516 (N.state store.old) (N.state store.new)) }
    ensures takes { TakesAtMost 3 516 (N.state store.old) (N.state store.new) }
    ensures same { SameStore (N.state store.old) (N.state store.new) }
    ensures cause { HasTroubleCause (N.state store.old).faults (N.state store.new).faults result }
    ensures below { N.follows store.old store.new }
{
    let Some(rec) = entry_at(alloc, store, desk, from, old)? else {
        return Ok(Moved::Absent);
    };
    match lookup(alloc, store, desk, to, new)? {
        Some(_) => Ok(Moved::Exists),
        None => {
            relocate(alloc, store, desk, from, old, to, new, &rec)?;
            Ok(Moved::Done)
        }
    }
}

/// The reserved word of a thread; 0 where there is none.
fn spare_of(thread: Option<ThreadRecord>) -> i16
    ensures { result ≡ spare_in thread }
{
    match thread {
        Some(thread) => thread.spare,
        None => 0,
    }
}

/// Moves the entry that has this record to a place where there is none.
fn relocate<N: NodeStore>(
    alloc: Global,
    store: &mut N,
    desk: &mut Desk,
    from: u32,
    old: &Units,
    to: u32,
    new: &Units,
    rec: &CatRecord,
) -> Result<(), Trouble>
    requires desk { IsDeskOf (N.state store.old).shape.node_size desk.old }
    requires size { 4096 ≤ (N.state store.old).shape.node_size }
    requires tree { IsTrue (N.state store.old).tells → IsTree IsCatalogKey catalog_cmp (N.state store.old) }
    requires threads { IsTrue (N.state store.old).tells → AreThreaded (pairs_of (N.state store.old)) }
    requires some { 1 ≤ length old.now }
    requires old_name { length old.now ≤ 255 }
    requires some_new { 1 ≤ length new.now }
    requires new_name { length new.now ≤ 255 }
    requires kind { is_thread rec.now ≡ false }
    requires fits { FitsRecord rec.now }
    requires stands { IsTrue (N.state store.old).tells → value_at (pairs_of (N.state store.old)) from old.now ≡ Some rec.now }
    requires vacant { IsTrue (N.state store.old).tells → record_at (placed_in (pairs_of (N.state store.old))) to new.now ≡ None }
    requires room { IsTrue (N.state store.old).tells → EditRoom 3 516 (N.state store.old) }
    ensures moved { IsTrue (N.state store.old).tells → OnOk result (RelocatesEntry from old.now to new.now (pairs_of (N.state store.old)) (pairs_of (N.state store.new))) }
    ensures tree { IsTrue (N.state store.old).tells → OnOk result (IsTree IsCatalogKey catalog_cmp (N.state store.new)) }
    ensures desk { IsDeskOf (N.state store.old).shape.node_size desk.new }
    ensures header { IsTrue (N.state store.old).tells → (N.state store.old).header ≡ (N.state store.old).shape → OnOk result ((N.state store.new).header ≡ (N.state store.new).shape) }
    ensures edits { OnOk result (TakesEdits 3 516 (N.state store.old) (N.state store.new)) }
    ensures takes { TakesAtMost 3 516 (N.state store.old) (N.state store.new) }
    ensures same { SameStore (N.state store.old) (N.state store.new) }
    ensures cause { HasTroubleCause (N.state store.old).faults (N.state store.new).faults result }
    ensures below { N.follows store.old store.new }
{
    let found = by_id(alloc, store, desk, id_of(rec))?;
    let spare = spare_of(found);
    let key = name_key(alloc, from, old)?;
    let entry = record_pair(alloc, to, new, rec)?;
    let thread = thread_pair(alloc, to, new, rec, spare)?;
    shift(store, desk, &key, &entry, &thread)?;
    Ok(())
}

/// Gives the pair of a thread another value, and puts a pair in the place of another one.
fn shift<N: NodeStore>(
    store: &mut N,
    desk: &mut Desk,
    key: &Bytes,
    entry: &Pair,
    thread: &Pair,
) -> Result<(), Failed>
    requires desk { IsDeskOf (N.state store.old).shape.node_size desk.old }
    requires size { 4096 ≤ (N.state store.old).shape.node_size }
    requires tree { IsTrue (N.state store.old).tells → IsTree IsCatalogKey catalog_cmp (N.state store.old) }
    requires key { IsCatalogKey key.now }
    requires entry { IsCatalogPair entry.now }
    requires thread { IsCatalogPair thread.now }
    requires room { IsTrue (N.state store.old).tells → EditRoom 3 516 (N.state store.old) }
    ensures pairs { IsTrue (N.state store.old).tells → HasKey catalog_cmp thread.now.key (pairs_of (N.state store.old)) → HasKey catalog_cmp key.now (pairs_of (N.state store.old))
        → (HasKey catalog_cmp entry.now.key (pairs_of (N.state store.old)) → ⊥)
        → OnOk result (ShiftsPair thread.now.key thread.now.value key.now entry.now.key entry.now.value (pairs_of (N.state store.old)) (pairs_of (N.state store.new))) }
    ensures tree { IsTrue (N.state store.old).tells → OnOk result (IsTree IsCatalogKey catalog_cmp (N.state store.new)) }
    ensures desk { IsDeskOf (N.state store.old).shape.node_size desk.new }
    ensures header { IsTrue (N.state store.old).tells → (N.state store.old).header ≡ (N.state store.old).shape → OnOk result ((N.state store.new).header ≡ (N.state store.new).shape) }
    ensures edits { OnOk result (TakesEdits 3 516 (N.state store.old) (N.state store.new)) }
    ensures takes { TakesAtMost 3 516 (N.state store.old) (N.state store.new) }
    ensures same { SameStore (N.state store.old) (N.state store.new) }
    ensures cause { HasCause (N.state store.old).faults (N.state store.new).faults result }
    ensures below { N.follows store.old store.new }
{
    replace_pair(store, desk, thread)?;
    remove_key(store, desk, key)?;
    insert_pair(store, desk, entry)?;
    Ok(())
}
