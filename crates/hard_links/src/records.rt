//! The records of links, and what is read and changed in the records of their files.
ghost use Rattle.std.specs.Prelude.{◌≡◌, IsTrue, IfOk};
ghost use Rattle.hx_bytes.specs.Fork.{FitsFork};
ghost use Rattle.btree_node.specs.Keys.{IsCatalogKey, catalog_cmp};
ghost use Rattle.btree_node.specs.Tree.{IsTree, pairs_of};
ghost use Rattle.btree_edit.specs.Causes.{HasTroubleCause};
ghost use Rattle.btree_edit.specs.Desk.{IsDeskOf};
ghost use Rattle.btree_edit.specs.Reading.{ReadsNodes};
ghost use Rattle.cat_records.specs.Fits.{FitsEntry, FitsFile, FitsRecord};
ghost use Rattle.cat_records.specs.declared.record.CatRecord.TheVariants.{File};
ghost use Rattle.hfs_volume.specs.Entries.{AreSpelled};
ghost use Rattle.hard_links.specs.Linking.{link_record, link_fields, no_fork, link_date, created_in, with_special};

use crate::naming::private_name;
use btree_edit::Desk;
use btree_node::NodeStore;
use cat_records::{CatRecord, EntryFields, FileRecord};
use catalog::lookup;
use hx_bytes::{Extent, ExtentRecord, ForkRecord, Trouble};
use std::alloc::Global;

/// The CNID of the root.
const ROOT: u32 = 2;

/// `hlnk` and `hfs+`, and zeros.
const LINK_FINDER: [u8; 32] = [
    104, 108, 110, 107, 104, 102, 115, 43, 0, 0, 0, 0, 0, 0, 0, 0, 0, 0, 0, 0, 0, 0, 0, 0, 0, 0, 0,
    0, 0, 0, 0, 0,
];

/// What a link tells of its file, and the create date that it has.
#[derive(Clone, Copy, Debug, PartialEq, Eq)]
pub(crate) struct Target {
    pub(crate) reference: u32,
    pub(crate) created: u32,
}

/// The create date of the private folder, which links have.
pub(crate) fn link_date<N: NodeStore>(
    alloc: Global,
    store: &mut N,
    desk: &mut Desk,
) -> Result<u32, Trouble>
    requires desk { IsDeskOf (N.state store.old).shape.node_size desk.old }
    requires tree { IsTrue (N.state store.old).tells → IsTree IsCatalogKey catalog_cmp (N.state store.old) }
    requires spelled { IsTrue (N.state store.old).tells → AreSpelled (pairs_of (N.state store.old)) }
    ensures date { IsTrue (N.state store.old).tells → IfOk result (λ date. date ≡ link_date (pairs_of (N.state store.old))) }
    ensures reads { ReadsNodes (N.state store.old).shape.depth (N.state store.old) (N.state store.new) }
    ensures desk { IsDeskOf (N.state store.old).shape.node_size desk.new }
    ensures cause { HasTroubleCause (N.state store.old).faults (N.state store.new).faults result }
    ensures below { N.follows store.old store.new }
{
    let name = private_name(alloc)?;
    let found = lookup(alloc, store, desk, ROOT, &name)?;
    Ok(created_in(&found))
}

fn created_in(found: &Option<CatRecord>) -> u32
    ensures { result ≡ created_in found.now }
{
    match found {
        Some(CatRecord::Folder(folder)) => folder.fields.created,
        Some(CatRecord::File(file)) => file.fields.created,
        Some(CatRecord::Thread(_)) => 0,
        None => 0,
    }
}

/// The record of a link with this CNID.
pub(crate) fn link(id: u32, target: Target) -> CatRecord
    ensures value { result ≡ File (link_record id target.reference target.created) }
    ensures fits { FitsRecord result }
{
    CatRecord::File(FileRecord {
        fields: link_fields(id, target.reference, target.created),
        data_fork: no_fork(),
        resource_fork: no_fork(),
    })
}

/// The fields of a link: a thread exists, and the mode is that of a new file.
fn link_fields(id: u32, reference: u32, created: u32) -> EntryFields
    ensures value { result ≡ link_fields id reference created }
    ensures fits { FitsEntry result }
{
    EntryFields {
        flags: 2,
        count: 0,
        id,
        created: created,
        changed: created,
        attribute: created,
        accessed: created,
        backup: 0,
        owner: 0,
        group: 0,
        admin_flags: 0,
        owner_flags: 0,
        mode: 0o100_644,
        special: reference,
        finder: LINK_FINDER,
        encoding: 0,
        rest: 0,
    }
}

fn no_fork() -> ForkRecord
    ensures value { result ≡ no_fork }
    ensures fits { FitsFork result }
{
    ForkRecord {
        logical_size: 0,
        clump_size: 0,
        total_blocks: 0,
        extents: ExtentRecord {
            extents: [Extent { start: 0, count: 0 }; 8],
        },
    }
}

/// The file's record that says that it has so many links.
pub(crate) fn with_special(file: &FileRecord, links: u32) -> CatRecord
    requires { FitsFile file.now }
    ensures value { result ≡ File (with_special links file.now) }
    ensures fits { FitsRecord result }
{
    let mut changed = *file;
    changed.fields.special = links;
    CatRecord::File(changed)
}
