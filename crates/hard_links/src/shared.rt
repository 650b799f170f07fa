//! The file that a link names.
ghost use Rattle.std.specs.Prelude.{◌≡◌, ◌≤◌, IsTrue, IfOk, IfSome, length};
ghost use Rattle.btree_node.specs.Keys.{IsCatalogKey, catalog_cmp};
ghost use Rattle.btree_node.specs.Tree.{IsTree, pairs_of};
ghost use Rattle.btree_edit.specs.Causes.{HasTroubleCause};
ghost use Rattle.btree_edit.specs.Desk.{IsDeskOf};
ghost use Rattle.btree_edit.specs.Reading.{ReadsNodes};
ghost use Rattle.cat_records.specs.Fits.{FitsFile};
ghost use Rattle.hfs_volume.specs.Entries.{AreSpelled};
ghost use Rattle.hfs_volume.specs.Links.{node_name};
ghost use Rattle.hard_links.specs.Linking.{HasLinks, NamesLink, FindsShared, FindsNamed};
ghost use Rattle.hard_links.specs.Numbers.{OnlyReads};

use crate::naming::node_name;
use crate::orphans::file_in;
use crate::place::EntryAt;
use btree_edit::Desk;
use btree_node::NodeStore;
use cat_records::FileRecord;
use catalog::lookup;
use hx_bytes::{Trouble, Units};
use std::alloc::Global;

/// A file with several names, the number that its links tell, and its name in the private folder.
#[derive(Drop)]
pub(crate) struct Shared {
    pub(crate) reference: u32,
    pub(crate) name: Units,
    pub(crate) file: FileRecord,
}

/// The file that the link at a place names.
pub(crate) fn shared_of<N: NodeStore>(
    alloc: Global,
    store: &mut N,
    desk: &mut Desk,
    private: u32,
    at: &EntryAt,
) -> Result<Option<Shared>, Trouble>
    requires desk { IsDeskOf (N.state store.old).shape.node_size desk.old }
    requires tree { IsTrue (N.state store.old).tells → IsTree IsCatalogKey catalog_cmp (N.state store.old) }
    requires spelled { IsTrue (N.state store.old).tells → AreSpelled (pairs_of (N.state store.old)) }
    requires name { length at.now.name ≤ 255 }
    requires some { 1 ≤ length at.now.name }
    requires link { IsTrue (N.state store.old).tells → NamesLink at.now (pairs_of (N.state store.old)) }
    requires links { IsTrue (N.state store.old).tells → HasLinks private (pairs_of (N.state store.old)) }
    ensures found { IsTrue (N.state store.old).tells → IfOk result (λ found. FindsShared private at.now (pairs_of (N.state store.old)) found) }
    ensures fits { IfOk result (λ found. IfSome found (λ shared. FitsFile shared.file)) }
    ensures named { IfOk result (λ found. IfSome found (λ shared. shared.name ≡ node_name shared.reference)) }
    ensures short { IfOk result (λ found. IfSome found (λ shared. length shared.name ≤ 255)) }
    ensures reads { OnlyReads (N.state store.old) (N.state store.new) }
    ensures desk { IsDeskOf (N.state store.old).shape.node_size desk.new }
    ensures cause { HasTroubleCause (N.state store.old).faults (N.state store.new).faults result }
    ensures below { N.follows store.old store.new }
{
    match file_in(lookup(alloc, store, desk, at.parent, &at.name)?) {
        None => Ok(None),
        Some(link) => named_file(alloc, store, desk, private, link.fields.special),
    }
}

/// The file under a number in the private folder.
fn named_file<N: NodeStore>(
    alloc: Global,
    store: &mut N,
    desk: &mut Desk,
    private: u32,
    reference: u32,
) -> Result<Option<Shared>, Trouble>
    requires desk { IsDeskOf (N.state store.old).shape.node_size desk.old }
    requires tree { IsTrue (N.state store.old).tells → IsTree IsCatalogKey catalog_cmp (N.state store.old) }
    requires spelled { IsTrue (N.state store.old).tells → AreSpelled (pairs_of (N.state store.old)) }
    ensures found { IsTrue (N.state store.old).tells → IfOk result (λ found. FindsNamed private reference (pairs_of (N.state store.old)) found) }
    ensures fits { IfOk result (λ found. IfSome found (λ shared. FitsFile shared.file)) }
    ensures named { IfOk result (λ found. IfSome found (λ shared. shared.name ≡ node_name shared.reference)) }
    ensures short { IfOk result (λ found. IfSome found (λ shared. length shared.name ≤ 255)) }
    ensures reads { ReadsNodes (N.state store.old).shape.depth (N.state store.old) (N.state store.new) }
    ensures desk { IsDeskOf (N.state store.old).shape.node_size desk.new }
    ensures cause { HasTroubleCause (N.state store.old).faults (N.state store.new).faults result }
    ensures below { N.follows store.old store.new }
{
    let name = node_name(alloc, reference)?;
    match file_in(lookup(alloc, store, desk, private, &name)?) {
        None => Ok(None),
        Some(file) => Ok(Some(Shared {
            reference,
            name,
            file,
        })),
    }
}
