//! Entries added.
ghost use Rattle.std.specs.Prelude.{false, None, [], ◌≡◌, ◌≢◌, ◌≤◌, ◌<◌, ◌+◌, ◌-◌, ◌*◌, ◌/◌, ◌^◌, IsTrue, length, OnOk, IfOk};
ghost use Rattle.std.specs.declared.cmp.Ordering.TheVariants.{Equal};
ghost use Rattle.btree_node.specs.Keys.{IsCatalogKey, catalog_cmp};
ghost use Rattle.btree_node.specs.Store.{HasCause, SameStore};
ghost use Rattle.btree_node.specs.Tree.{IsTree, pairs_of};
ghost use Rattle.btree_edit.specs.Desk.{IsDeskOf, HasKey};
ghost use Rattle.btree_edit.specs.Answers.{AnswersInsert};
ghost use Rattle.btree_edit.specs.Edits.{EditRoom, TakesEdits, TakesAtMost};
ghost use Rattle.btree_edit.specs.Causes.{HasTroubleCause};
ghost use Rattle.cat_records.specs.Fits.{FitsRecord};
ghost use Rattle.hfs_volume.specs.Records.{Placed, placed_in, record_at, id_in, is_thread};
ghost use Rattle.catalog.specs.Pairs.{IsCatalogPair, AddsBoth};
ghost use Rattle.catalog.specs.Entries.{AnswersAdd, Adding};

use crate::edits::insert_pair;
use crate::pair::{Pair, record_pair, thread_pair};
use btree_edit::{Desk, Inserted};
use btree_node::NodeStore;
use cat_records::CatRecord;
use hx_bytes::{Failed, Trouble, Units};
use std::alloc::Global;

/// Adds an entry: the record of a folder or file under a name in a folder, and its thread.
pub fn add<N: NodeStore>(
    alloc: Global,
    store: &mut N,
    desk: &mut Desk,
    parent: u32,
    name: &Units,
    rec: &CatRecord,
) -> Result<Inserted, Trouble>
    requires desk { IsDeskOf (N.state store.old).shape.node_size desk.old }
    // The least node size that the format allows the catalog.
    requires size { 4096 ≤ (N.state store.old).shape.node_size }
    requires tree { IsTrue (N.state store.old).tells → IsTree IsCatalogKey catalog_cmp (N.state store.old) }
    requires some { 1 ≤ length name.now }
    requires name { length name.now ≤ 255 }
    requires kind { is_thread rec.now ≡ false }
    requires fits { FitsRecord rec.now }
    requires unused { IsTrue (N.state store.old).tells → record_at (placed_in (pairs_of (N.state store.old))) (id_in rec.now) [] ≡ None }
    requires room { IsTrue (N.state store.old).tells → EditRoom 2 516 (N.state store.old) }
    // Exists exactly where the folder has the name.
    ensures answer { IsTrue (N.state store.old).tells → IfOk result (λ answer. AnswersAdd (record_at (placed_in (pairs_of (N.state store.old))) parent name.now) answer) }
    // Done: the entry and its thread are there, and nothing else is changed. Exists: nothing is.
    ensures added { IsTrue (N.state store.old).tells → IfOk result (λ answer. Adding (record { parent = parent; name = name.now; value = rec.now }) (pairs_of (N.state store.old)) (pairs_of (N.state store.new)) answer) }
    ensures tree { IsTrue (N.state store.old).tells → OnOk result (IsTree IsCatalogKey catalog_cmp (N.state store.new)) }
    ensures desk { IsDeskOf (N.state store.old).shape.node_size desk.new }
    ensures header { IsTrue (N.state store.old).tells → (N.state store.old).header ≡ (N.state store.old).shape → OnOk result ((N.state store.new).header ≡ (N.state store.new).shape) }
    ensures edits { OnOk result (TakesEdits 2 516 (N.state store.old) (N.state store.new)) }
    ensures takes { TakesAtMost 2 516 (N.state store.old) (N.state store.new) }
    ensures same { SameStore (N.state store.old) (N.state store.new) }
    ensures cause { HasTroubleCause (N.state store.old).faults (N.state store.new).faults result }
    ensures below { N.follows store.old store.new }
{
    let entry = record_pair(alloc, parent, name, rec)?;
    let thread = thread_pair(alloc, parent, name, rec, 0)?;
    let answer = insert_both(store, desk, &entry, &thread)?;
    Ok(answer)
}

/// Adds the pair of an entry and, where the tree didn't have its key, the pair of its thread.
pub(crate) fn insert_both<N: NodeStore>(
    store: &mut N,
    desk: &mut Desk,
    entry: &Pair,
    thread: &Pair,
) -> Result<Inserted, Failed>
    requires desk { IsDeskOf (N.state store.old).shape.node_size desk.old }
    requires size { 4096 ≤ (N.state store.old).shape.node_size }
    requires tree { IsTrue (N.state store.old).tells → IsTree IsCatalogKey catalog_cmp (N.state store.old) }
    requires entry { IsCatalogPair entry.now }
    requires thread { IsCatalogPair thread.now }
    requires apart { catalog_cmp entry.now.key thread.now.key ≢ Equal }
    requires unused { IsTrue (N.state store.old).tells → HasKey catalog_cmp thread.now.key (pairs_of (N.state store.old)) → ⊥ }
    requires room { IsTrue (N.state store.old).tells → EditRoom 2 516 (N.state store.old) }
    ensures answer { IsTrue (N.state store.old).tells → IfOk result (λ answer. AnswersInsert catalog_cmp entry.now.key (N.state store.old) answer) }
    ensures pairs { IsTrue (N.state store.old).tells → IfOk result (λ answer. AddsBoth entry.now thread.now (pairs_of (N.state store.old)) (pairs_of (N.state store.new)) answer) }
    ensures tree { IsTrue (N.state store.old).tells → OnOk result (IsTree IsCatalogKey catalog_cmp (N.state store.new)) }
    ensures desk { IsDeskOf (N.state store.old).shape.node_size desk.new }
    ensures header { IsTrue (N.state store.old).tells → (N.state store.old).header ≡ (N.state store.old).shape → OnOk result ((N.state store.new).header ≡ (N.state store.new).shape) }
    ensures edits { OnOk result (TakesEdits 2 516 (N.state store.old) (N.state store.new)) }
    ensures takes { TakesAtMost 2 516 (N.state store.old) (N.state store.new) }
    ensures same { SameStore (N.state store.old) (N.state store.new) }
    ensures cause { HasCause (N.state store.old).faults (N.state store.new).faults result }
    ensures below { N.follows store.old store.new }
{
    match insert_pair(store, desk, entry)? {
        Inserted::Exists => Ok(Inserted::Exists),
        Inserted::Done => {
            insert_pair(store, desk, thread)?;
            Ok(Inserted::Done)
        }
    }
}
