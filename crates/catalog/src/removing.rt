//! Entries removed.
ghost use Rattle.std.specs.Prelude.{◌≡◌, ◌≢◌, ◌≤◌, [], IsTrue, length, OnOk, IfOk};
ghost use Rattle.std.specs.declared.cmp.Ordering.TheVariants.{Equal};
ghost use Rattle.btree_node.specs.Keys.{IsCatalogKey, catalog_cmp};
ghost use Rattle.btree_node.specs.Store.{HasCause, SameStore};
ghost use Rattle.btree_node.specs.Tree.{IsTree, pairs_of};
ghost use Rattle.btree_edit.specs.Causes.{HasTroubleCause};
ghost use Rattle.btree_edit.specs.Desk.{IsDeskOf, HasKey};
ghost use Rattle.btree_edit.specs.Edits.{EditRoom, TakesEdits, TakesAtMost};
ghost use Rattle.hfs_volume.specs.Entries.{AreThreaded};
ghost use Rattle.hfs_volume.specs.Records.{placed_in, record_at};
ghost use Rattle.catalog.specs.Pairs.{DropsBoth};
ghost use Rattle.catalog.specs.Entries.{AnswersRemoval, Removing};

use crate::edits::remove_key;
use crate::finding::lookup;
use crate::pair::{id_of, name_key};
use btree_edit::{Desk, Removed};
use btree_node::NodeStore;
use hx_bytes::{Bytes, Failed, Trouble, Units};
use std::alloc::Global;

/// Removes an entry and its thread.
pub fn remove<N: NodeStore>(
    alloc: Global,
    store: &mut N,
    desk: &mut Desk,
    parent: u32,
    name: &Units,
) -> Result<Removed, Trouble>
    requires desk { IsDeskOf (N.state store.old).shape.node_size desk.old }
    // The least node size that the format allows the catalog.
    requires size { 4096 ≤ (N.state store.old).shape.node_size }
    requires tree { IsTrue (N.state store.old).tells → IsTree IsCatalogKey catalog_cmp (N.state store.old) }
    requires threads { IsTrue (N.state store.old).tells → AreThreaded (pairs_of (N.state store.old)) }
    requires some { 1 ≤ length name.now }
    requires name { length name.now ≤ 255 }
    requires room { IsTrue (N.state store.old).tells → EditRoom 2 516 (N.state store.old) }
    // Absent exactly where the folder doesn't have the name.
    ensures answer { IsTrue (N.state store.old).tells → IfOk result (λ answer. AnswersRemoval (record_at (placed_in (pairs_of (N.state store.old))) parent name.now) answer) }
    // Done: the entry and its thread are gone, and nothing else is changed. Absent: nothing is.
    ensures removed { IsTrue (N.state store.old).tells → IfOk result (λ answer. Removing parent name.now (pairs_of (N.state store.old)) (pairs_of (N.state store.new)) answer) }
    ensures tree { IsTrue (N.state store.old).tells → OnOk result (IsTree IsCatalogKey catalog_cmp (N.state store.new)) }
    ensures desk { IsDeskOf (N.state store.old).shape.node_size desk.new }
    ensures header { IsTrue (N.state store.old).tells → (N.state store.old).header ≡ (N.state store.old).shape → OnOk result ((N.state store.new).header ≡ (N.state store.new).shape) }
    ensures edits { OnOk result (TakesEdits 2 516 (N.state store.old) (N.state store.new)) }
    ensures takes { TakesAtMost 2 516 (N.state store.old) (N.state store.new) }
    ensures same { SameStore (N.state store.old) (N.state store.new) }
    ensures cause { HasTroubleCause (N.state store.old).faults (N.state store.new).faults result }
    ensures below { N.follows store.old store.new }
{
    let Some(rec) = lookup(alloc, store, desk, parent, name)? else {
        return Ok(Removed::Absent);
    };
    let entry = name_key(alloc, parent, name)?;
    let thread = name_key(alloc, id_of(&rec), &Units::new(alloc))?;
    remove_both(store, desk, &thread, &entry)?;
    Ok(Removed::Done)
}

/// Removes two pairs that are there.
fn remove_both<N: NodeStore>(
    store: &mut N,
    desk: &mut Desk,
    first: &Bytes,
    second: &Bytes,
) -> Result<(), Failed>
    requires desk { IsDeskOf (N.state store.old).shape.node_size desk.old }
    requires size { 4096 ≤ (N.state store.old).shape.node_size }
    requires tree { IsTrue (N.state store.old).tells → IsTree IsCatalogKey catalog_cmp (N.state store.old) }
    requires first { IsCatalogKey first.now }
    requires second { IsCatalogKey second.now }
    requires room { IsTrue (N.state store.old).tells → EditRoom 2 516 (N.state store.old) }
    ensures pairs { IsTrue (N.state store.old).tells → HasKey catalog_cmp first.now (pairs_of (N.state store.old)) → HasKey catalog_cmp second.now (pairs_of (N.state store.old))
        → catalog_cmp first.now second.now ≢ Equal → OnOk result (DropsBoth first.now second.now (pairs_of (N.state store.old)) (pairs_of (N.state store.new))) }
    ensures tree { IsTrue (N.state store.old).tells → OnOk result (IsTree IsCatalogKey catalog_cmp (N.state store.new)) }
    ensures desk { IsDeskOf (N.state store.old).shape.node_size desk.new }
    ensures header { IsTrue (N.state store.old).tells → (N.state store.old).header ≡ (N.state store.old).shape → OnOk result ((N.state store.new).header ≡ (N.state store.new).shape) }
    ensures edits { OnOk result (TakesEdits 2 516 (N.state store.old) (N.state store.new)) }
    ensures takes { TakesAtMost 2 516 (N.state store.old) (N.state store.new) }
    ensures same { SameStore (N.state store.old) (N.state store.new) }
    ensures cause { HasCause (N.state store.old).faults (N.state store.new).faults result }
    ensures below { N.follows store.old store.new }
{
    remove_key(store, desk, first)?;
    remove_key(store, desk, second)?;
    Ok(())
}
