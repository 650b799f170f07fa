//! Records found: by the place of an entry, and by its CNID.
ghost use Rattle.std.specs.Prelude.{◌≡◌, ◌≢◌, ◌≤◌, IsTrue, IfOk, IfSome, Some, Err, [], false, length};
ghost use Rattle.hx_bytes.specs.declared.faults.Trouble.TheVariants.{Disk};
ghost use Rattle.btree_node.specs.Keys.{IsCatalogKey, catalog_cmp, catalog_parent, catalog_units};
ghost use Rattle.btree_node.specs.Tree.{IsTree, pairs_of};
ghost use Rattle.btree_edit.specs.Causes.{HasTroubleCause};
ghost use Rattle.btree_edit.specs.Desk.{IsDeskOf};
ghost use Rattle.btree_edit.specs.Reading.{ReadsNodes};
ghost use Rattle.cat_records.specs.Fits.{FitsRecord};
ghost use Rattle.cat_records.specs.Records.{catalog_of, is_catalog};
ghost use Rattle.hfs_volume.specs.Entries.{AreSpelled, AreThreaded};
ghost use Rattle.hfs_volume.specs.Records.{is_thread};
ghost use Rattle.catalog.specs.Pairs.{value_at, thread_at, thread_in};

use crate::pair::{is_thread_record, name_key};
use btree_edit::{Desk, Found, look};
use btree_node::{CatalogOrder, NodeStore};
use cat_records::{CatRecord, RecordFault, ThreadRecord, read_catalog};
use hx_bytes::{Trouble, Units};
use std::alloc::Global;

/// The record of a name in a folder; none where the folder has no such name.
pub fn lookup<N: NodeStore>(
    alloc: Global,
    store: &mut N,
    desk: &mut Desk,
    parent: u32,
    name: &Units,
) -> Result<Option<CatRecord>, Trouble>
    requires desk { IsDeskOf (N.state store.old).shape.node_size desk.old }
    requires tree { IsTrue (N.state store.old).tells → IsTree IsCatalogKey catalog_cmp (N.state store.old) }
    requires spelled { IsTrue (N.state store.old).tells → AreSpelled (pairs_of (N.state store.old)) }
    requires name { length name.now ≤ 255 }
    ensures found { IsTrue (N.state store.old).tells → IfOk result (λ found. found ≡ value_at (pairs_of (N.state store.old)) parent name.now) }
    // The record of a folder or file has a spelling.
    ensures fits { IfOk result (λ found. IfSome found (λ rec. is_thread rec ≡ false → FitsRecord rec)) }
    // It loads one node a level, and changes nothing.
    ensures reads { ReadsNodes (N.state store.old).shape.depth (N.state store.old) (N.state store.new) }
    ensures desk { IsDeskOf (N.state store.old).shape.node_size desk.new }
    ensures cause { HasTroubleCause (N.state store.old).faults (N.state store.new).faults result }
    ensures below { N.follows store.old store.new }
{
    let key = name_key(alloc, parent, name)?;
    record_under(alloc, store, desk, key.as_slice())
}

/// Where the folder or file with a CNID stands: its thread; none where the catalog has no such thread.
pub fn by_id<N: NodeStore>(
    alloc: Global,
    store: &mut N,
    desk: &mut Desk,
    id: u32,
) -> Result<Option<ThreadRecord>, Trouble>
    requires desk { IsDeskOf (N.state store.old).shape.node_size desk.old }
    requires tree { IsTrue (N.state store.old).tells → IsTree IsCatalogKey catalog_cmp (N.state store.old) }
    requires spelled { IsTrue (N.state store.old).tells → AreSpelled (pairs_of (N.state store.old)) }
    ensures found { IsTrue (N.state store.old).tells → IfOk result (λ found. found ≡ thread_at (pairs_of (N.state store.old)) id) }
    // It loads one node a level, and changes nothing.
    ensures reads { ReadsNodes (N.state store.old).shape.depth (N.state store.old) (N.state store.new) }
    ensures desk { IsDeskOf (N.state store.old).shape.node_size desk.new }
    ensures cause { HasTroubleCause (N.state store.old).faults (N.state store.new).faults result }
    ensures below { N.follows store.old store.new }
{
    let found = lookup(alloc, store, desk, id, &Units::new(alloc))?;
    match found {
        Some(rec) => Ok(thread_in(rec)),
        None => Ok(None),
    }
}

/// The thread in a record that is one.
fn thread_in(rec: CatRecord) -> Option<ThreadRecord>
    ensures { result ≡ thread_in rec }
{
    match rec {
        CatRecord::Thread(thread) => Some(thread),
        CatRecord::Folder(_) | CatRecord::File(_) => None,
    }
}

/// The folder or file under a name; none where there is no record, or a thread.
pub(crate) fn entry_at<N: NodeStore>(
    alloc: Global,
    store: &mut N,
    desk: &mut Desk,
    parent: u32,
    name: &Units,
) -> Result<Option<CatRecord>, Trouble>
    requires desk { IsDeskOf (N.state store.old).shape.node_size desk.old }
    requires tree { IsTrue (N.state store.old).tells → IsTree IsCatalogKey catalog_cmp (N.state store.old) }
    requires threads { IsTrue (N.state store.old).tells → AreThreaded (pairs_of (N.state store.old)) }
    requires some { 1 ≤ length name.now }
    requires name { length name.now ≤ 255 }
    ensures found { IsTrue (N.state store.old).tells → IfOk result (λ found. found ≡ value_at (pairs_of (N.state store.old)) parent name.now) }
    ensures kind { IfOk result (λ found. IfSome found (λ rec. is_thread rec ≡ false)) }
    ensures fits { IfOk result (λ found. IfSome found (λ rec. FitsRecord rec)) }
    ensures reads { ReadsNodes (N.state store.old).shape.depth (N.state store.old) (N.state store.new) }
    ensures desk { IsDeskOf (N.state store.old).shape.node_size desk.new }
    ensures cause { HasTroubleCause (N.state store.old).faults (N.state store.new).faults result }
    ensures below { N.follows store.old store.new }
{
    let Some(rec) = lookup(alloc, store, desk, parent, name)? else {
        return Ok(None);
    };
    if is_thread_record(&rec) {
        return Ok(None);
    }
    Ok(Some(rec))
}

/// The record under a key.
pub(crate) fn record_under<N: NodeStore>(
    alloc: Global,
    store: &mut N,
    desk: &mut Desk,
    key: &[u8],
) -> Result<Option<CatRecord>, Trouble>
    requires desk { IsDeskOf (N.state store.old).shape.node_size desk.old }
    requires tree { IsTrue (N.state store.old).tells → IsTree IsCatalogKey catalog_cmp (N.state store.old) }
    requires spelled { IsTrue (N.state store.old).tells → AreSpelled (pairs_of (N.state store.old)) }
    requires key { IsCatalogKey key.now }
    ensures found { IsTrue (N.state store.old).tells → IfOk result (λ found. found ≡ value_at (pairs_of (N.state store.old)) (catalog_parent key.now) (catalog_units key.now)) }
    ensures fits { IfOk result (λ found. IfSome found (λ rec. is_thread rec ≡ false → FitsRecord rec)) }
    ensures reads { ReadsNodes (N.state store.old).shape.depth (N.state store.old) (N.state store.new) }
    ensures desk { IsDeskOf (N.state store.old).shape.node_size desk.new }
    ensures cause { HasTroubleCause (N.state store.old).faults (N.state store.new).faults result }
    ensures below { N.follows store.old store.new }
{
    match look::<N, CatalogOrder>(store, desk, key)? {
        Found::At { .. } => read_value(alloc, desk.value()),
        Found::Absent => Ok(None),
    }
}

/// The record in a value of the tree; none where the bytes are none.
pub(crate) fn read_value(alloc: Global, value: &[u8]) -> Result<Option<CatRecord>, Trouble>
    ensures read { IsTrue (is_catalog value.now) → IfOk result (λ found. found ≡ Some (catalog_of value.now)) }
    ensures fits { IfOk result (λ found. IfSome found (λ rec. is_thread rec ≡ false → FitsRecord rec)) }
    ensures cause { result ≢ Err Disk }
{
    match read_catalog(alloc, value) {
        Ok(rec) => Ok(Some(rec)),
        Err(RecordFault::Memory) => Err(Trouble::Memory),
        Err(RecordFault::BadRecord { .. }) => Ok(None),
    }
}
