//! Calls, each with the answer that the table wants.
use crate::checks::check_place;
use crate::flaw::{Flaw, wanted};
use crate::table::{Place, Table, file_id, value_of};
use attributes::{Deleted, ValueAt};
use entry_kit::{Drawer, Stop};
use fork_map::ExtentList;
use hx_bytes::{Extent, Units};
use std::alloc::Global;

/// The blocks of a place, as the table has it.
fn blocks_of(alloc: Global, table: &Table, place: Place) -> Result<ExtentList, Stop> {
    let mut blocks = ExtentList::new(alloc);
    table.push_blocks(alloc, &mut blocks, place)?;
    Ok(blocks)
}

/// A fork with an extent of no block in front: it isn't stored.
fn with_unused(alloc: Global, fork: &ExtentList) -> Result<ExtentList, Stop> {
    let mut list = ExtentList::new(alloc);
    list.push(Extent { start: 9, count: 0 })?;
    for extent in fork.as_slice() {
        list.push(*extent)?;
    }
    Ok(list)
}

/// Gives an attribute a value, and answers the blocks that its old one had.
fn put(
    alloc: Global,
    drawer: &mut Drawer,
    id: u32,
    name: &Units,
    value: &ValueAt,
) -> Result<ExtentList, Stop> {
    match value {
        ValueAt::Inline(bytes) => drawer.set(alloc, id, name, bytes.as_slice()),
        ValueAt::Blocks { size, fork } => {
            drawer.set_fork(alloc, id, name, *size, &with_unused(alloc, fork)?)
        }
    }
}

/// Gives an attribute the next value.
pub fn set(
    alloc: Global,
    drawer: &mut Drawer,
    table: &mut Table,
    place: Place,
) -> Result<(), Flaw> {
    let name = table.name(alloc, place)?;
    let version = table.version(place).wrapping_add(1).max(1);
    let value = value_of(alloc, place, version)?;
    let had = blocks_of(alloc, table, place)?;
    let freed = put(alloc, drawer, file_id(place.file), &name, &value)?;
    wanted(freed.as_slice() == had.as_slice(), Flaw::Setting(place))?;
    table.put(place, version);
    check_place(alloc, drawer, table, place)
}

/// Whether a deletion was answered as it should be.
fn is_deletion(alloc: Global, table: &Table, place: Place, answer: &Deleted) -> Result<bool, Flaw> {
    match answer {
        Deleted::Done(freed) => {
            let had = blocks_of(alloc, table, place)?;
            Ok(table.has(place) && freed.as_slice() == had.as_slice())
        }
        Deleted::NoAttribute => Ok(!table.has(place)),
    }
}

/// Deletes an attribute.
pub fn delete(
    alloc: Global,
    drawer: &mut Drawer,
    table: &mut Table,
    place: Place,
) -> Result<(), Flaw> {
    let name = table.name(alloc, place)?;
    let answer = drawer.delete(alloc, file_id(place.file), &name)?;
    wanted(
        is_deletion(alloc, table, place, &answer)?,
        Flaw::Deleting(place),
    )?;
    table.put(place, 0);
    check_place(alloc, drawer, table, place)
}

/// Drops the attributes of a file, whose records are at most 400.
pub fn drop_all(
    alloc: Global,
    drawer: &mut Drawer,
    table: &mut Table,
    file: u32,
) -> Result<(), Flaw> {
    let many = table.count(file);
    let mut had = ExtentList::new(alloc);
    for name in 0..table.many {
        table.push_blocks(alloc, &mut had, Place { file, name })?;
    }
    let dropped = drawer.drop_all(alloc, file_id(file), 400)?;
    wanted(dropped.count == many, Flaw::Dropping(file))?;
    wanted(
        dropped.blocks.as_slice() == had.as_slice(),
        Flaw::Dropping(file),
    )?;
    for name in 0..table.many {
        table.put(Place { file, name }, 0);
    }
    Ok(())
}
