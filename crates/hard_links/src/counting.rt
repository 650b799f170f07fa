//! How many links a shared file says that it has.
ghost use Rattle.std.specs.Prelude.{◌≡◌, ◌≤◌, false, Some, IsTrue, length, OnOk};
ghost use Rattle.btree_node.specs.Keys.{IsCatalogKey, catalog_cmp};
ghost use Rattle.btree_node.specs.Store.{HasRoom, SameStore};
ghost use Rattle.btree_node.specs.Tree.{IsTree, pairs_of};
ghost use Rattle.btree_edit.specs.Causes.{HasTroubleCause};
ghost use Rattle.btree_edit.specs.Desk.{IsDeskOf};
ghost use Rattle.cat_records.specs.Fits.{FitsFile};
ghost use Rattle.cat_records.specs.declared.record.CatRecord.TheVariants.{File};
ghost use Rattle.catalog.specs.Pairs.{value_at};
ghost use Rattle.catalog.specs.Rooms.{TakesUpdates, UpdatesAtMost};
ghost use Rattle.hfs_volume.specs.Entries.{AreSpelled};
ghost use Rattle.hfs_volume.specs.Records.{is_link_type};
ghost use Rattle.hard_links.specs.Linking.{CountsLinks};

use crate::records::with_special;
use btree_edit::Desk;
use btree_node::NodeStore;
use cat_records::FileRecord;
use catalog::update;
use hx_bytes::{Trouble, Units};
use std::alloc::Global;

/// Has the record of a shared file, which is no link itself, say that it has so many links.
pub(crate) fn count_links<N: NodeStore>(
    alloc: Global,
    store: &mut N,
    desk: &mut Desk,
    private: u32,
    name: &Units,
    file: &FileRecord,
    links: u32,
) -> Result<(), Trouble>
    requires desk { IsDeskOf (N.state store.old).shape.node_size desk.old }
    requires size { 4096 ≤ (N.state store.old).shape.node_size }
    requires tree { IsTrue (N.state store.old).tells → IsTree IsCatalogKey catalog_cmp (N.state store.old) }
    requires spelled { IsTrue (N.state store.old).tells → AreSpelled (pairs_of (N.state store.old)) }
    requires name { length name.now ≤ 255 }
    requires fits { FitsFile file.now }
    requires plain { IsTrue (N.state store.old).tells → is_link_type file.now.fields ≡ false }
    requires stands { IsTrue (N.state store.old).tells → value_at (pairs_of (N.state store.old)) private name.now ≡ Some (File file.now) }
    requires room { IsTrue (N.state store.old).tells → HasRoom 1 (N.state store.old) }
    ensures counts { IsTrue (N.state store.old).tells → OnOk result (CountsLinks private name.now links (pairs_of (N.state store.old)) (pairs_of (N.state store.new))) }
    ensures tree { IsTrue (N.state store.old).tells → OnOk result (IsTree IsCatalogKey catalog_cmp (N.state store.new)) }
    ensures header { IsTrue (N.state store.old).tells → (N.state store.old).header ≡ (N.state store.old).shape → OnOk result ((N.state store.new).header ≡ (N.state store.new).shape) }
    ensures edits { OnOk result (TakesUpdates 0 1 516 (N.state store.old) (N.state store.new)) }
    ensures takes { UpdatesAtMost 0 1 516 (N.state store.old) (N.state store.new) }
    ensures desk { IsDeskOf (N.state store.old).shape.node_size desk.new }
    ensures same { SameStore (N.state store.old) (N.state store.new) }
    ensures cause { HasTroubleCause (N.state store.old).faults (N.state store.new).faults result }
    ensures below { N.follows store.old store.new }
{
    let rec = with_special(file, links);
    update(alloc, store, desk, private, name, &rec)?;
    Ok(())
}
