//! The files that wait to be removed, found among the names behind `temp` in a folder, past those of files with links.
ghost use Rattle.std.specs.Prelude.{◌≡◌, ◌≢◌, ◌+◌, None, Some, Err, IsTrue, IfOk, codes};
ghost use Rattle.hx_bytes.specs.declared.faults.Trouble.TheVariants.{Disk};
ghost use Rattle.btree_edit.specs.Causes.{HasTroubleCause};
ghost use Rattle.btree_edit.specs.Desk.{IsDeskOf};
ghost use Rattle.btree_edit.specs.Reading.{ReadsNodes};
ghost use Rattle.btree_file.specs.Standing.{pairs_in};
ghost use Rattle.btree_file.specs.State.{sectors_of_tree};
ghost use Rattle.btree_node.specs.Keys.{IsCatalogKey, catalog_cmp, catalog_units};
ghost use Rattle.btree_node.specs.Tree.{IsTree, pairs_of};
ghost use Rattle.cat_records.specs.Records.{catalog_of, is_catalog};
ghost use Rattle.catalog.specs.Children.{child_under, children_in};
ghost use Rattle.catalog.specs.Pairs.{IsKeyOf};
ghost use Rattle.hfs_volume.specs.Entries.{AreSpelled};
ghost use Rattle.volume_base.specs.Frame.{Looked, Serves};
ghost use Rattle.volume_base.specs.Looking.{IsCatalogOver, ReadsTree};
ghost use Rattle.volume_base.specs.Lists.{lists_of};
ghost use Rattle.volume_space.specs.Orphans.{found_among};

use crate::orphans::found_next;
use btree_edit::{Desk, seek, step};
use btree_file::{TreeFile, TreeOn};
use btree_node::{CatalogOrder, NodeStore};
use cat_records::{CatRecord, RecordFault, catalog_key, read_catalog};
use catalog::Child;
use hx_bytes::{Bytes, OutOfMemory, Trouble, Units, read_be16, read_be32};
use sector_disk::SectorSpace;
use std::alloc::Global;
use volume_base::Volume;

/// `temp`, by which the names of files that wait begin (TN1150, "Hard Links").
const TEMP: [u16; 4] = [116, 101, 109, 112];

/// The name `temp`.
fn temp_name(alloc: Global) -> Result<Units, OutOfMemory>
    ensures { IfOk result (λ name. name ≡ codes "temp") }
{
    let name = Units::from_vec(Vec::from_slice(alloc, TEMP.as_slice())?);
    Ok(name)
}

/// The key of the name `temp` in a folder.
fn temp_key(alloc: Global, folder: u32) -> Result<Bytes, OutOfMemory>
    ensures { IfOk result (λ key. IsKeyOf folder (codes "temp") key) }
{
    let name = temp_name(alloc)?;
    let key = catalog_key(alloc, folder, &name)?;
    Ok(key)
}

/// The units of the name in a key.
fn key_units(alloc: Global, key: &[u8]) -> Result<Units, OutOfMemory>
    ensures { IfOk result (λ units. units ≡ catalog_units key.now) }
{
    let mut units = Units::new(alloc);
    let mut at = 8;
    while at + 2 <= key.len() {
        units.push(read_be16(key, at))?;
        at += 2;
    }
    Ok(units)
}

/// The record in a value of the catalog; none where the bytes are none.
fn read_value(alloc: Global, value: &[u8]) -> Result<Option<CatRecord>, Trouble>
    ensures read { IsTrue (is_catalog value.now) → IfOk result (λ found. found ≡ Some (catalog_of value.now)) }
    ensures cause { result ≢ Err Disk }
{
    match read_catalog(alloc, value) {
        Ok(rec) => Ok(Some(rec)),
        Err(RecordFault::Memory) => Err(Trouble::Memory),
        Err(RecordFault::BadRecord { .. }) => Ok(None),
    }
}

/// The entry that a pair is; none where it is another folder's.
fn read_child(
    alloc: Global,
    folder: u32,
    key: &[u8],
    value: &[u8],
) -> Result<Option<Child>, Trouble>
    ensures child { IsCatalogKey key.now → IsTrue (is_catalog value.now) → IfOk result (λ child. child ≡ child_under folder key.now value.now) }
    ensures cause { result ≢ Err Disk }
{
    if key.len() < 8 {
        return Ok(None);
    }
    if read_be32(key, 2) != folder {
        return Ok(None);
    }
    let Some(rec) = read_value(alloc, value)? else {
        return Ok(None);
    };
    let name = key_units(alloc, key)?;
    Ok(Some(Child { name, rec }))
}

/// The least CNID of a folder's files that wait, found among the names behind `temp`: it walks these alone.
fn search_behind<N: NodeStore>(
    alloc: Global,
    store: &mut N,
    desk: &mut Desk,
    folder: u32,
) -> Result<Option<u32>, Trouble>
    requires desk { IsDeskOf (N.state store.old).shape.node_size desk.old }
    requires tree { IsTrue (N.state store.old).tells → IsTree IsCatalogKey catalog_cmp (N.state store.old) }
    requires spelled { IsTrue (N.state store.old).tells → AreSpelled (pairs_of (N.state store.old)) }
    ensures found { IsTrue (N.state store.old).tells → IfOk result (λ found. found ≡ found_among None (children_in folder (pairs_of (N.state store.old)))) }
    ensures reads { ReadsNodes ((N.state store.old).shape.depth + (N.state store.old).shape.leaf_records) (N.state store.old) (N.state store.new) }
    ensures desk { IsDeskOf (N.state store.old).shape.node_size desk.new }
    ensures cause { HasTroubleCause (N.state store.old).faults (N.state store.new).faults result }
    ensures below { N.follows store.old store.new }
{
    let key = temp_key(alloc, folder)?;
    let many = store.shape().leaf_records;
    let mut found = None;
    let Some(mut at) = seek::<N, CatalogOrder>(store, desk, key.as_slice())? else {
        return Ok(found);
    };
    for _passed in 0..many {
        let Some(on) = step::<N, CatalogOrder>(store, desk, at)? else {
            return Ok(found);
        };
        let Some(child) = read_child(alloc, folder, desk.key(), desk.value())? else {
            return Ok(found);
        };
        found = found_next(found, &child);
        at = on;
    }
    Ok(found)
}

/// The same of a catalog over a space.
fn search_folder<P: SectorSpace>(
    alloc: Global,
    tree: &mut TreeFile,
    desk: &mut Desk,
    space: &mut P,
    folder: u32,
) -> Result<Option<u32>, Trouble>
    requires over { IsCatalogOver tree.old desk.old (P.SectorView.space space.old) }
    ensures found { IsTrue (P.SectorView.space space.old).tells → IfOk result (λ found. found ≡ found_among None (children_in folder (pairs_in (sectors_of_tree tree.old) (P.SectorView.space space.old).content))) }
    ensures over { IsCatalogOver tree.new desk.new (P.SectorView.space space.new) }
    ensures reads { ReadsTree tree.old tree.new (P.SectorView.space space.old) (P.SectorView.space space.new) }
    ensures below { P.SectorView.follows space.old space.new }
    ensures cause { HasTroubleCause (P.SectorView.space space.old).faults (P.SectorView.space space.new).faults result }
{
    let mut on = TreeOn { tree, space };
    search_behind(alloc, &mut on, desk, folder)
}

/// The same of a folder of the volume.
pub(crate) fn waiting_in<P: SectorSpace>(
    volume: &mut Volume,
    alloc: Global,
    space: &mut P,
    folder: u32,
) -> Result<Option<u32>, Trouble>
    requires serves { Serves volume.old (P.SectorView.space space.old) }
    ensures found { IsTrue (P.SectorView.space space.old).tells → IfOk result (λ found. found ≡ found_among None (children_in folder (lists_of volume.old (P.SectorView.space space.old).content).catalog_pairs)) }
    ensures looked { Looked P.SectorView.space P.SectorView.follows volume.old volume.new space.old space.new result }
    ensures serves { Serves volume.new (P.SectorView.space space.new) }
{
    search_folder(
        alloc,
        &mut volume.catalog.file,
        &mut volume.catalog.desk,
        space,
        folder,
    )
}
