//! Entries with another record in their place.
ghost use Rattle.std.specs.Prelude.{◌≡◌, ◌≤◌, false, Some, IsTrue, length, OnOk, IfOk};
ghost use Rattle.btree_node.specs.Keys.{IsCatalogKey, catalog_cmp};
ghost use Rattle.btree_node.specs.Store.{HasRoom, SameStore};
ghost use Rattle.btree_node.specs.Tree.{IsTree, pairs_of};
ghost use Rattle.btree_edit.specs.Causes.{HasTroubleCause};
ghost use Rattle.btree_edit.specs.Desk.{IsDeskOf};
ghost use Rattle.btree_edit.specs.Editing.{CostsAtMost};
ghost use Rattle.cat_records.specs.Fits.{FitsRecord};
ghost use Rattle.hfs_volume.specs.Entries.{AreSpelled};
ghost use Rattle.hfs_volume.specs.Records.{Placed, placed_in, record_at, is_thread};
ghost use Rattle.catalog.specs.Rooms.{TakesUpdates, UpdatesAtMost};
ghost use Rattle.catalog.specs.Entries.{AnswersRemoval, Updating, IsOfKind};

use crate::pair::record_pair;
use btree_edit::{Desk, Removed, swap};
use btree_node::{CatalogOrder, NodeStore};
use cat_records::CatRecord;
use hx_bytes::{Trouble, Units};
use std::alloc::Global;

/// Gives an entry another record, of its kind and CNID, and so of its length: its leaf alone is written.
pub fn update<N: NodeStore>(
    alloc: Global,
    store: &mut N,
    desk: &mut Desk,
    parent: u32,
    name: &Units,
    rec: &CatRecord,
) -> Result<Removed, Trouble>
    requires desk { IsDeskOf (N.state store.old).shape.node_size desk.old }
    // The least node size that the format allows the catalog.
    requires size { 4096 ≤ (N.state store.old).shape.node_size }
    requires tree { IsTrue (N.state store.old).tells → IsTree IsCatalogKey catalog_cmp (N.state store.old) }
    requires spelled { IsTrue (N.state store.old).tells → AreSpelled (pairs_of (N.state store.old)) }
    requires name { length name.now ≤ 255 }
    requires kind { is_thread rec.now ≡ false }
    requires fits { FitsRecord rec.now }
    requires same_kind { IsTrue (N.state store.old).tells → (entry : Placed) → record_at (placed_in (pairs_of (N.state store.old))) parent name.now ≡ Some entry → IsOfKind rec.now entry.value }
    requires room { IsTrue (N.state store.old).tells → HasRoom 1 (N.state store.old) }
    // Absent exactly where the folder doesn't have the name.
    ensures answer { IsTrue (N.state store.old).tells → IfOk result (λ answer. AnswersRemoval (record_at (placed_in (pairs_of (N.state store.old))) parent name.now) answer) }
    // Done: the entry has the record, and nothing else is changed. Absent: nothing is.
    ensures updated { IsTrue (N.state store.old).tells → IfOk result (λ answer. Updating parent name.now rec.now (pairs_of (N.state store.old)) (pairs_of (N.state store.new)) answer) }
    ensures tree { IsTrue (N.state store.old).tells → OnOk result (IsTree IsCatalogKey catalog_cmp (N.state store.new)) }
    // One write at most, and the tree keeps its shape, which the header node goes on saying.
    ensures takes { IsTrue (N.state store.old).tells → CostsAtMost 1 0 (N.state store.old) (N.state store.new) }
    ensures shape { IsTrue (N.state store.old).tells → (N.state store.new).shape ≡ (N.state store.old).shape }
    ensures header { IsTrue (N.state store.old).tells → (N.state store.old).header ≡ (N.state store.old).shape → OnOk result ((N.state store.new).header ≡ (N.state store.new).shape) }
    ensures edits { OnOk result (TakesUpdates 0 1 516 (N.state store.old) (N.state store.new)) }
    ensures most { UpdatesAtMost 0 1 516 (N.state store.old) (N.state store.new) }
    ensures desk { IsDeskOf (N.state store.old).shape.node_size desk.new }
    ensures same { SameStore (N.state store.old) (N.state store.new) }
    ensures cause { HasTroubleCause (N.state store.old).faults (N.state store.new).faults result }
    ensures below { N.follows store.old store.new }
{
    let pair = record_pair(alloc, parent, name, rec)?;
    let answer = swap::<N, CatalogOrder>(store, desk, pair.key.as_slice(), pair.value.as_slice())?;
    Ok(answer)
}
