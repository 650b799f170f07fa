//! The file that a name stands for.
ghost use Rattle.std.specs.Prelude.{◌≡◌, ◌≤◌, IsTrue, IfOk};
ghost use Rattle.btree_node.specs.Keys.{IsCatalogKey, catalog_cmp};
ghost use Rattle.btree_node.specs.Tree.{IsTree, pairs_of};
ghost use Rattle.btree_edit.specs.Causes.{HasTroubleCause};
ghost use Rattle.btree_edit.specs.Desk.{IsDeskOf};
ghost use Rattle.btree_edit.specs.Reading.{ReadsNodes};
ghost use Rattle.hfs_volume.specs.Entries.{AreSpelled};
ghost use Rattle.hfs_volume.specs.Records.{is_link_type};
ghost use Rattle.hard_links.specs.Identity.{file_or, identity_of};

use crate::naming::node_name;
use btree_edit::Desk;
use btree_node::NodeStore;
use cat_records::{CatRecord, EntryFields, FileRecord};
use catalog::lookup;
use hx_bytes::{Trouble, read_be32};
use std::alloc::Global;

/// `hlnk`, the type of a link (TN1150, "Hard Links").
const LINK_TYPE: u32 = 0x686C_6E6B;

/// `hfs+`, its creator.
const LINK_CREATOR: u32 = 0x6866_732B;

/// The file that a record of a name stands for: of a link the file in the private folder under the link's number, and
/// else the record itself, as also of a link whose file isn't there.
pub fn resolve<N: NodeStore>(
    alloc: Global,
    store: &mut N,
    desk: &mut Desk,
    private: u32,
    rec: &FileRecord,
) -> Result<FileRecord, Trouble>
    requires desk { IsDeskOf (N.state store.old).shape.node_size desk.old }
    requires tree { IsTrue (N.state store.old).tells → IsTree IsCatalogKey catalog_cmp (N.state store.old) }
    requires spelled { IsTrue (N.state store.old).tells → AreSpelled (pairs_of (N.state store.old)) }
    ensures identity { IsTrue (N.state store.old).tells → IfOk result (λ file. file ≡ identity_of (pairs_of (N.state store.old)) private rec.now) }
    // It loads one node a level at most, and changes nothing.
    ensures reads { ReadsNodes (N.state store.old).shape.depth (N.state store.old) (N.state store.new) }
    ensures desk { IsDeskOf (N.state store.old).shape.node_size desk.new }
    ensures cause { HasTroubleCause (N.state store.old).faults (N.state store.new).faults result }
    ensures below { N.follows store.old store.new }
{
    if !is_link_type(&rec.fields) {
        return Ok(*rec);
    }
    let name = node_name(alloc, rec.fields.special)?;
    let found = lookup(alloc, store, desk, private, &name)?;
    Ok(file_or(rec, found))
}

/// Whether the fields are those of a link.
pub(crate) fn is_link_type(fields: &EntryFields) -> bool
    ensures { result ≡ is_link_type fields.now }
{
    read_be32(fields.finder.as_slice(), 0) == LINK_TYPE
        && read_be32(fields.finder.as_slice(), 4) == LINK_CREATOR
}

/// The file in a record that is a file's, and else another.
fn file_or(rec: &FileRecord, found: Option<CatRecord>) -> FileRecord
    ensures { result ≡ file_or rec.now found }
{
    match found {
        Some(CatRecord::File(file)) => file,
        Some(CatRecord::Folder(_)) => *rec,
        Some(CatRecord::Thread(_)) => *rec,
        None => *rec,
    }
}
