//! Calls of the catalog over a tree file.
ghost use Rattle.std.specs.Prelude.{◌≡◌, ◌≤◌, ◌+◌, ◌*◌, ℕ, false, length};
ghost use Rattle.btree_edit.specs.Desk.{IsDeskOf};
ghost use Rattle.btree_file.specs.Frame.{SameFile};
ghost use Rattle.btree_file.specs.Standing.{numbers_of, LiesInside};
ghost use Rattle.cat_records.specs.Fits.{FitsRecord};
ghost use Rattle.hfs_volume.specs.Records.{is_thread};
ghost use Rattle.alloc_bitmap.specs.Untold.{told_none};

use btree_edit::{Desk, Inserted, Removed};
use btree_file::{TreeFile, TreeOn};
use cat_records::CatRecord;
use catalog::{Children, add, children, remove};
use hx_bytes::{Trouble, Units};
use sector_kit::Sectors;
use std::alloc::Global;

/// Adds an entry.
pub fn add_entry(
    alloc: Global,
    tree: &mut TreeFile,
    space: &mut Sectors,
    desk: &mut Desk,
    parent: u32,
    name: &Units,
    rec: &CatRecord,
) -> Result<Inserted, Trouble>
    requires desk { IsDeskOf (numbers_of tree.old).node_size desk.old }
    requires inside { LiesInside tree.old (told_none (length space.old.list.items)) }
    requires size { 4096 ≤ (numbers_of tree.old).node_size }
    requires some { 1 ≤ length name.now }
    requires name { length name.now ≤ 255 }
    requires kind { is_thread rec.now ≡ false }
    requires fits { FitsRecord rec.now }
    ensures file { SameFile tree.old tree.new }
    ensures sectors { length space.new.list.items ≡ length space.old.list.items }
    ensures desk { IsDeskOf (numbers_of tree.old).node_size desk.new }
{
    let mut on = TreeOn { tree, space };
    add(alloc, &mut on, desk, parent, name, rec)
}

/// Removes an entry.
pub fn remove_entry(
    alloc: Global,
    tree: &mut TreeFile,
    space: &mut Sectors,
    desk: &mut Desk,
    parent: u32,
    name: &Units,
) -> Result<Removed, Trouble>
    requires desk { IsDeskOf (numbers_of tree.old).node_size desk.old }
    requires inside { LiesInside tree.old (told_none (length space.old.list.items)) }
    requires size { 4096 ≤ (numbers_of tree.old).node_size }
    requires some { 1 ≤ length name.now }
    requires name { length name.now ≤ 255 }
    ensures file { SameFile tree.old tree.new }
    ensures sectors { length space.new.list.items ≡ length space.old.list.items }
    ensures desk { IsDeskOf (numbers_of tree.old).node_size desk.new }
{
    let mut on = TreeOn { tree, space };
    remove(alloc, &mut on, desk, parent, name)
}

/// Lists the entries of a folder.
pub fn list_entries(
    alloc: Global,
    tree: &mut TreeFile,
    space: &mut Sectors,
    desk: &mut Desk,
    parent: u32,
) -> Result<Children, Trouble>
    requires desk { IsDeskOf (numbers_of tree.old).node_size desk.old }
    requires inside { LiesInside tree.old (told_none (length space.old.list.items)) }
    ensures file { SameFile tree.old tree.new }
    ensures sectors { length space.new.list.items ≡ length space.old.list.items }
    ensures desk { IsDeskOf (numbers_of tree.old).node_size desk.new }
{
    let mut on = TreeOn { tree, space };
    children(alloc, &mut on, desk, parent)
}
