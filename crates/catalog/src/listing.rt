//! The entries of a folder, by one walk over the leaves that have them.
ghost use Rattle.std.specs.Prelude.{◌≡◌, ◌≢◌, ◌≤◌, ◌+◌, ◌*◌, ◌<◌, IsTrue, IfOk, OnOk, Some, Err, length};
ghost use Rattle.hx_bytes.specs.declared.faults.Trouble.TheVariants.{Disk};
ghost use Rattle.btree_node.specs.Keys.{IsCatalogKey, catalog_cmp, catalog_units};
ghost use Rattle.btree_node.specs.Tree.{IsTree, pairs_of};
ghost use Rattle.btree_edit.specs.Causes.{HasTroubleCause};
ghost use Rattle.btree_edit.specs.Desk.{IsDeskOf};
ghost use Rattle.btree_edit.specs.Reading.{ReadsNodes};
ghost use Rattle.btree_edit.specs.Walking.{leaves_where};
ghost use Rattle.cat_records.specs.Records.{is_catalog};
ghost use Rattle.hfs_volume.specs.Entries.{AreSpelled};
ghost use Rattle.catalog.specs.Children.{child_under, children_in, is_child};

use crate::finding::read_value;
use crate::folder::{Child, Children};
use crate::pair::name_key;
use btree_edit::{Desk, seek, step};
use btree_node::{CatalogOrder, NodeStore};
use hx_bytes::{OutOfMemory, Trouble, Units, read_be16, read_be32};
use std::alloc::Global;

/// The entries of a folder, in the order of their names; none where the catalog has no such folder.
pub fn children<N: NodeStore>(
    alloc: Global,
    store: &mut N,
    desk: &mut Desk,
    parent: u32,
) -> Result<Children, Trouble>
    requires desk { IsDeskOf (N.state store.old).shape.node_size desk.old }
    requires tree { IsTrue (N.state store.old).tells → IsTree IsCatalogKey catalog_cmp (N.state store.old) }
    requires spelled { IsTrue (N.state store.old).tells → AreSpelled (pairs_of (N.state store.old)) }
    ensures listed { IsTrue (N.state store.old).tells → IfOk result (λ list. list ≡ children_in parent (pairs_of (N.state store.old))) }
    // It changes nothing.
    ensures reads { ReadsNodes ((N.state store.old).shape.depth + (N.state store.old).shape.leaf_records) (N.state store.old) (N.state store.new) }
    // It walks the leaves once: it loads the nodes of the way down, and at most those leaves that have an entry of the folder, and one behind them.
    ensures leaves { IsTrue (N.state store.old).tells → OnOk result ((N.state store.new).loads ≤ (N.state store.old).loads + (N.state store.old).shape.depth + leaves_where (is_child parent) (N.state store.old) + 1) }
    // Over any store it loads at most one node for each entry beside the way down, and one behind them.
    ensures loads { IfOk result (λ list. (N.state store.new).loads ≤ (N.state store.old).loads + (N.state store.old).shape.depth + length list + 1) }
    ensures desk { IsDeskOf (N.state store.old).shape.node_size desk.new }
    ensures cause { HasTroubleCause (N.state store.old).faults (N.state store.new).faults result }
    ensures below { N.follows store.old store.new }
{
    let key = name_key(alloc, parent, &Units::new(alloc))?;
    let many = store.shape().leaf_records;
    let mut children = Children::new(alloc);
    let Some(mut at) = seek::<N, CatalogOrder>(store, desk, key.as_slice())? else {
        return Ok(children);
    };
    for _passed in 0..many {
        let Some(on) = step::<N, CatalogOrder>(store, desk, at)? else {
            return Ok(children);
        };
        let Some(child) = read_child(alloc, parent, desk.key(), desk.value())? else {
            return Ok(children);
        };
        children.push(child)?;
        at = on;
    }
    Ok(children)
}

/// The entry that a pair is; none where it is another folder's.
fn read_child(
    alloc: Global,
    parent: u32,
    key: &[u8],
    value: &[u8],
) -> Result<Option<Child>, Trouble>
    ensures child { IsCatalogKey key.now → IsTrue (is_catalog value.now) → IfOk result (λ child. child ≡ child_under parent key.now value.now) }
    ensures cause { result ≢ Err Disk }
{
    if key.len() < 8 {
        return Ok(None);
    }
    if read_be32(key, 2) != parent {
        return Ok(None);
    }
    let Some(rec) = read_value(alloc, value)? else {
        return Ok(None);
    };
    let name = key_units(alloc, key)?;
    Ok(Some(Child { name, rec }))
}

/// The units of the name in a key.
fn key_units(alloc: Global, key: &[u8]) -> Result<Units, OutOfMemory>
    ensures { IfOk result (λ units. units ≡ catalog_units key.now) }
{
    let mut units = Units::new(alloc);
    let mut at = 8;
    while at + 2 <= key.len() {
        units.push(read_be16(key, at))?;
        at += 2;
    }
    Ok(units)
}
