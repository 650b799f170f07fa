//! Attributes held against their table.
use crate::flaw::{Flaw, wanted};
use crate::table::{Place, Table, file_id, value_of};
use attributes::ValueAt;
use entry_kit::Drawer;
use hx_bytes::Names;
use std::alloc::Global;

/// Whether two values are the same.
fn is_same(one: &ValueAt, other: &ValueAt) -> bool {
    match (one, other) {
        (ValueAt::Inline(bytes), ValueAt::Inline(others)) => bytes.as_slice() == others.as_slice(),
        (
            ValueAt::Blocks { size, fork },
            ValueAt::Blocks {
                size: other_size,
                fork: other_fork,
            },
        ) => size == other_size && fork.as_slice() == other_fork.as_slice(),
        _ => false,
    }
}

/// Whether what was found is the value of a place.
fn is_value(
    alloc: Global,
    found: &Option<ValueAt>,
    table: &Table,
    place: Place,
) -> Result<bool, Flaw> {
    match found {
        Some(there) => {
            let value = value_of(alloc, place, table.version(place))?;
            Ok(table.has(place) && is_same(there, &value))
        }
        None => Ok(!table.has(place)),
    }
}

/// Looks a value up.
pub fn check_place(
    alloc: Global,
    drawer: &mut Drawer,
    table: &Table,
    place: Place,
) -> Result<(), Flaw> {
    let name = table.name(alloc, place)?;
    let found = drawer.value(alloc, file_id(place.file), &name)?;
    wanted(is_value(alloc, &found, table, place)?, Flaw::Value(place))
}

/// Whether the name so many places down a list is that of a place.
fn is_name_of(
    alloc: Global,
    names: &Names,
    at: usize,
    table: &Table,
    place: Place,
) -> Result<bool, Flaw> {
    let name = table.name(alloc, place)?;
    match names.get(at) {
        Some(found) => Ok(found.as_slice() == name.as_slice()),
        None => Ok(false),
    }
}

/// Lists the names of a file.
fn check_names(alloc: Global, drawer: &mut Drawer, table: &Table, file: u32) -> Result<(), Flaw> {
    let names = drawer.names(alloc, file_id(file))?;
    let mut at = 0usize;
    for name in 0..table.many {
        let place = Place { file, name };
        if table.has(place) {
            wanted(
                is_name_of(alloc, &names, at, table, place)?,
                Flaw::Names(file),
            )?;
            at = at.wrapping_add(1);
        }
    }
    wanted(names.len() == at, Flaw::Names(file))
}

/// Lists the names of each file and looks up each value; the numbers before and behind the files have no attribute.
pub fn check_all(alloc: Global, drawer: &mut Drawer, table: &Table) -> Result<(), Flaw> {
    let files = u32::from(table.files);
    for file in 0..files {
        check_names(alloc, drawer, table, file)?;
        for name in 0..table.many {
            check_place(alloc, drawer, table, Place { file, name })?;
        }
    }
    for file in [files, u32::MAX] {
        let names = drawer.names(alloc, file_id(file))?;
        wanted(names.is_empty(), Flaw::Names(file))?;
    }
    Ok(())
}
